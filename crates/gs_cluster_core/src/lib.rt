//! What the nodes of a store are in a cluster: the master, a server or a client. What each does with what it takes is an event of a
//! store.
#![tactic(auto)]

pub mod promises;
mod role;

pub use role::Role;
