//! Images: parts of bytes in one text, each with its length and its digest, and the whole with a digest. What is read is what was written.
#![tactic(auto)]

mod fault;
pub mod promises;
mod reading;
mod writing;

pub use fault::ImageFault;
pub use reading::read;
pub use writing::ImageWriter;

#[cfg(test)]
mod tests;
