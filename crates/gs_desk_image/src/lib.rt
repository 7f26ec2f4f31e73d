//! A desk as the parts of an image. It is written where it rests, with the disks of its master closed, and read as one that rests so: a
//! restart of the master opens the disks. What is read is what was written, and nothing else is read.
#![tactic(auto)]

pub mod promises;
mod reading;
mod resting;
#[cfg(test)]
mod tests;
mod writing;

pub use reading::desk_of;
pub use resting::{close, is_resting};
pub use writing::put_parts;
