//! How often each chunk is referenced by entries of a tree, as a finite map. Lists of chunks are raised, lowered, taken out and listed
//! again as one step.
#![tactic(auto)]

mod refs;

pub use refs::Refs;
