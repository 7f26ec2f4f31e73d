//! The choice of a view's members among the servers that answered a proposal: those with the greatest count. A poll keeps who said yes
//! and no, and whether all have spoken.
#![tactic(auto)]

mod poll;
mod proposal;

pub use poll::Poll;
pub use proposal::Proposal;
