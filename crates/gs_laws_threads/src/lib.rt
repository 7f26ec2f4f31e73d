//! Why a caller of a store in threads is answered 28 or 29: what its history took in that very call has a cause.
#![tactic(auto)]

pub mod promises;
