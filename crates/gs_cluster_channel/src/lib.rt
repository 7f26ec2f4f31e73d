//! The channels between nodes that run at once, under a rule: whatever is in a channel, or was taken out of it, stands in what was put
//! into it.
#![tactic(auto)]

mod ear;
mod hand;
mod line;
mod naming;
mod steps;
mod tried;
mod way;

pub use ear::{Ear, settle, two_ears};
pub use hand::{Carries, Cut, Hand, Joined, Puts, Takes, Total, TwoEars};
pub use line::{CAPACITY, Inlet, Line, Outlet};
pub use naming::Naming;
pub use tried::Tried;
pub use way::Way;
