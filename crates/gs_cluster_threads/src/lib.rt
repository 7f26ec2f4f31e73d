//! Nodes on threads: each stands under a lock that two threads share, the nodes of clients are their callers' own, and messages go
//! through channels under a rule. When the threads have ended, the histories that were kept match.
#![tactic(auto)]

mod gathering;
mod hosts;
mod placing;
mod rounds;
mod settling;
mod watch;
mod wiring;
mod work;

pub use gathering::{Gathered, Member, gather};
pub use hosts::Hosts;
pub use rounds::Rounds;
pub use wiring::{Seed, wire};
pub use work::{LOOKS, rest};
