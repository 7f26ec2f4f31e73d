//! What a server keeps of its chunks: a slot for each handle, the epoch, and the bytes that clients have pushed. What can be refused
//! without memory is refused first. A prepare is taken by all replicas or by none.
#![tactic(auto)]

mod buffer;
mod copies;
pub mod copy_promises;
pub mod edit_promises;
mod epochs;
mod handles;
mod learn;
mod moves;
mod naming;
pub mod promises;
mod pushes;
mod report;
pub mod seal_promises;
mod serve;
mod slot;
mod store;
pub mod store_promises;

pub use moves::CopyImages;
pub use report::{ReplicaReport, Reports, Slots};
pub use slot::{LiveReplica, Slot, SlotParts};
pub use store::Store;
