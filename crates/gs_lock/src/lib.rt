//! Locks on paths that calls which wait read and write. A take is refused exactly at a conflict, and what it would refuse can be asked
//! beforehand, without memory.
#![tactic(auto)]

mod index;
mod lock;
pub mod promises;
mod table;
mod tally;

pub use lock::Lock;
pub use table::LockTable;
