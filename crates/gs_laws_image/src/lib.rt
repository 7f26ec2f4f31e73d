//! A store goes on from its image as from where it was closed: a restart of the master, and then any lines, are answered alike by both,
//! where memory isn't wanting and no disk fails.
#![tactic(auto)]

mod held;
pub mod promises;

pub use held::is_desk_held;
