//! The nodes of a store together: a master with the disks of its journal, chunkservers and clients, and what happens to them. Each call
//! is one event: one node does what its contract says, and the others stay.
#![tactic(auto)]

mod arming;
mod asking;
mod delivering;
mod events;
mod nodes;
mod place;
pub mod promises;
mod restarting;

pub use delivering::turn_of;
pub use gs_master::Turn;
pub use nodes::{Nodes, empty_disks};
pub use place::MasterPlace;
