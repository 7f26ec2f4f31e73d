//! Records of the master's journal as values, of ten kinds: what is written of each, and what bytes say. What is decoded of an entry's
//! record is that entry.
#![tactic(auto)]

mod checkpoint;
mod decode;
mod edits;
mod encode;
mod entry;
mod extended;
mod fault;
mod field;
mod ids;
mod lists;
mod order;
mod parts;
pub mod promises;
mod state;
mod undoing;
mod views;

pub use checkpoint::{
    Checkpoint, KeptOutcome, Phase, PreparedView, Reference, Reply, SettledEntry,
};
pub use entry::{Answered, Entry, SettledView};
pub use extended::Extended;
