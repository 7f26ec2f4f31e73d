//! A chunkserver and the master, each seen by one chunk: whatever happens at either is some events of the machine of that chunk.
#![tactic(auto)]

mod master;
mod server;
