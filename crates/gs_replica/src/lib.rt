//! A replica of a chunk: its blocks, how many edits it has applied, and what the last request of each client was answered. An edit is
//! taken under the promised stamp alone, as the next number, and taken back whole. A seal keeps what stood, at the cost of what is
//! edited later, and `roll_back` gives it back.
#![tactic(auto)]

mod done;
mod first;
mod image;
mod live;
mod op;
mod prepared;
pub mod promises;
mod replica;
mod seal;

pub use done::DoneTable;
pub use first::FirstEntries;
pub use image::{Image, SealedImage};
pub use live::ReplicaInverse;
pub use op::{Done, EditOutcome, Op};
pub use prepared::PreparedSeal;
pub use replica::Replica;
pub use seal::Seal;
