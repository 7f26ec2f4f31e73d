//! A log as a store sees it that is kept in one: what its calls do, and what a crash leaves of it. A log in memory stands with it.
#![tactic(auto)]

mod log;
mod memory;

pub use log::{Failed, Log};
pub use memory::{Fault, MemoryLog};
