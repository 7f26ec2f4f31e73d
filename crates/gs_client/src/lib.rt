//! A client of the store: its calls over any link, and the files that it opens. Each call follows its dialogue. A file that is open for
//! writing has to be closed. `ClientNode` is a client among nodes, whose messages somebody else delivers.
#![tactic(auto)]

mod client;
mod file;
mod link;
mod looking;
mod node;
pub mod promises;
mod reading;
mod record;
mod replies;
mod writing;

pub use client::Client;
pub use file::{OpenFile, Reading, Writing};
pub use link::{Link, Reply};
pub use node::ClientNode;
pub use promises::Serve;
pub use reading::Stat;
