//! What becomes of a replica that was sealed: what a handle keeps of it in its trash, what a rollback makes live of it, and whether it
//! is named then. It is a crate of its own for the checker's time alone: wrong bodies are tried sooner in a small crate.
#![tactic(auto)]

mod rollback;
mod trash;

pub use rollback::{is_restored, restore};
pub use trash::{trash_behind, trash_with};
