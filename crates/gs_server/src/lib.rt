//! A chunkserver: what it keeps of its chunks, and what it answers to each message. If there is no memory for a message, nothing has
//! changed and nothing is sent.
#![tactic(auto)]

mod applying;
mod copying;
mod editing;
mod events;
mod fetching;
mod forwarding;
mod handling;
mod holding;
mod learning;
mod leases;
mod making;
mod numbering;
pub mod promises;
mod promising;
mod sending;
mod server;
mod ticking;
mod turn;

pub use server::Server;
pub use turn::{KeptRefusal, Turn};
