//! The parts of an image: a head, the bytes of both disks of the master, and a server each. What is read is what was written, and nothing
//! else is read.
#![tactic(auto)]

mod head;
pub mod promises;
mod servers;
mod store;
#[cfg(test)]
mod tests;

pub use head::Head;
pub use store::{FoundStore, put_parts, read_parts};
