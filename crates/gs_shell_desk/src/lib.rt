//! A client's desk: the nodes of a store with one client, what is under way between them, and what a line comes to. The wire carries
//! each request to its answer by delivering messages in the order sent.
#![tactic(auto)]

mod answering;
mod desk;
mod servers;
mod wire;

pub use desk::Desk;
pub use wire::Wire;
