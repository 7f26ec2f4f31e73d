//! The bytes of a chunk in blocks, each with its digest. A stored block is compared with its digest before any use of it. First images
//! of blocks take a chunk back to where it was sealed.
#![tactic(auto)]

mod blocks;
mod digests;
mod images;
mod inverse;
mod parts;
pub mod promises;
mod sizes;

pub use blocks::{BlockParts, Blocks};
pub use digests::Digest;
pub use images::{Image, Images, Missing};
pub use inverse::BlockInverse;
pub use sizes::Sizes;
