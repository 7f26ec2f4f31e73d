//! The image of a kept store as the bytes of a file: the parts of its desk in one frame, with a digest by which a log names it. What is
//! read is the image with that digest, of a store of the log's sizes.
#![tactic(auto)]

mod due;
mod fault;
mod loading;
pub mod promises;
mod taking;
#[cfg(test)]
mod tests;

pub use due::is_due;
pub use fault::LoadFault;
pub use loading::desk_of;
pub use taking::{Image, image_of, may_rest};
