//! A store whose nodes run at once: the master and each chunkserver on two threads of their own, and clients at their callers. `finish`
//! gives the nodes to which one run of a store that has begun new leads.
#![tactic(auto)]

mod caller;
mod cluster;
mod copying;
mod gathering;
mod nodes;
mod opening;
mod patience;
mod posts;
pub mod promises;

pub use caller::Caller;
pub use cluster::Cluster;
pub use gathering::{Whole, gather};
pub use opening::Opened;
