//! A server's store as bytes, for the image of a kept store: its epoch, and what it keeps of each handle. Replicas are written as they
//! stand and with their seals. What is read is what was written, and nothing else is read.
#![tactic(auto)]

mod done;
mod first;
mod held;
mod images;
pub mod promises;
mod replica;
mod seal;
mod slot;
mod store;
mod table;
#[cfg(test)]
mod tests;

pub use held::{is_replica_held, is_slot_held, is_store_held};
pub use replica::{put_replica, read_replica};
pub use slot::{put_slot, read_slot};
pub use store::{put_store, read_store};
