//! A node as it is kept under its lock: what it is, the history that leads there, its ear, and its ways to the others. It serves any
//! kind of node.
#![tactic(auto)]

mod acting;
mod gate;
mod node;
mod plan;
mod posting;

pub use gate::{Gate, Open};
pub use node::{Node, Parts};
pub use plan::Plan;
