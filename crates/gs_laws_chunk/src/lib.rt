//! The machine of one chunk, and what holds over every run of it. Its worlds are its servers' replicas as lists of edits, the master's
//! part, and all that was ever said of the chunk. Nobody has to believe it: the nodes of a store are led into it.
#![tactic(auto)]

mod machine;
mod members;

pub use machine::reads_are_legal;
