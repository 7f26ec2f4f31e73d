//! The parts of a client's calls: under which number and to which member a request goes, and which bytes of a file it is of. Each is a
//! function by itself. It is a crate of its own for the checker's time alone: wrong bodies are tried sooner in a small crate.
#![tactic(auto)]

mod located;
pub mod numbering;
pub mod reading;
pub mod writing;

pub use located::Located;
pub use writing::Write;
