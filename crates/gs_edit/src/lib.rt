//! The names of a store: its tree and the references of its chunks, edited together. There are ten edits; each gives an inverse, which
//! is also told as a list. A refused edit changes nothing, and `scan` finds what is over.
#![tactic(auto)]

mod edit;
mod listed;
mod names;
pub mod promises;
mod scan;

pub use edit::{Edit, Inverse};
pub use listed::{EditKind, ListedInverse, listed_inverses_undo_the_same};
pub use names::{Names, TakenOut};
pub use scan::Scan;
