//! A tree of directories and files, in which each edit gives what takes it back. Its commands are those of a plain tree, seen as a
//! function of paths, with the same refusals in the same order. A move can keep its source's place, so that it is taken back without
//! memory.
#![tactic(auto)]

mod building;
mod entry;
mod file_chunks;
mod inverse;
mod listing;
mod lists;
mod making;
mod moving;
mod node;
pub mod promises;
mod removing;
mod snapshots;
mod texts;
mod tree;
mod undoing;

pub use entry::TreeEntry;
pub use inverse::TreeInverse;
pub use lists::made_paths;
pub use node::{Listed, Node};
pub use tree::{Status, Tree};
