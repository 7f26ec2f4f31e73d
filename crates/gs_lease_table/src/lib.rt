//! The leases of a master's chunks, with counts: of how many settled views each server is a member, and whether any has a primary.
//! Beside them stand sets: which chunks each server has, which have a primary, and which have so many members. None of it is told by
//! looking at the leases.
#![tactic(auto)]

mod groups;
mod table;
mod tally;

pub use table::LeaseTable;
