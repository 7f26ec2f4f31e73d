//! What is noted of the histories of nodes that run at once, if that is wanted: each node's events by its clock, and all that it has
//! sent.
#![tactic(auto)]

mod merging;
mod notes;
mod telling;

pub use notes::{Dated, Notes};
pub use telling::{Told, told_by};
