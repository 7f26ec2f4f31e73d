//! A disk as a journal sees it, and the steps by which bytes are put onto it: what a crash may leave of each. It is a crate of its own
//! for the checker's time alone: wrong bodies are tried sooner in a small crate.
#![tactic(auto)]

mod disk;
mod gate;
mod judging;
pub mod stage;

pub use disk::Disk;
pub use gate::is_open;
pub use judging::{fits, has_failed};
