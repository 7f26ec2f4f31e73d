//! The guards of the master: what has to hold before it does something, and what it may not leave out. Each is a function by itself. It
//! is a crate of its own for the checker's time alone: wrong bodies are tried sooner in a small crate.
#![tactic(auto)]

pub mod keeping;
pub mod preparing;
pub mod reading;
pub mod restoring;
pub mod rolling;
pub mod room;
pub mod sealing;
pub mod telling;
pub mod writing;
