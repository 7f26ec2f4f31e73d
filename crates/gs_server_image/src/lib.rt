//! A server as bytes, for the image of a kept store: its store, and of each client its edit that was refused last. What a restart
//! drops isn't written. What is read is what was written, and nothing else is read.
#![tactic(auto)]

mod held;
mod kept;
pub mod promises;
mod refused;
mod server;
#[cfg(test)]
mod tests;

pub use held::is_server_held;
pub use server::{put_server, read_server};
