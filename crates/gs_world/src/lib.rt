//! A store with all that its nodes have ever sent, event by event. Any message of these may come at a step, in any order, once more or
//! never.
#![tactic(auto)]

mod happening;
mod outcome;
mod posts;
pub mod promises;
mod world;

pub use outcome::Outcome;
pub use posts::Posts;
pub use world::World;
