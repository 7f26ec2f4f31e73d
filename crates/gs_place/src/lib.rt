//! On which servers replicas are put, and which chunk needs one most: what comes first in the order of the rules.
#![tactic(auto)]

mod need;
mod placement;

pub use need::{Need, Needed, most_needed};
pub use placement::targets;
