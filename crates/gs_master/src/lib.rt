//! The master: the names of the store, where each chunk is, and what it sends to clients and servers. An event is a list of steps on
//! its state. At its end its records are written, or it is taken back: whole, or from the record on at which a disk fails.
#![tactic(auto)]

mod call;
mod checkpoint;
mod event;
mod file;
mod master;
mod message;
mod report;
mod restart;
mod scan;
mod tree;
mod turn;
mod upgrade;
mod view;
mod waiting;

pub use master::Master;
pub use restart::Started;
pub use turn::Turn;
