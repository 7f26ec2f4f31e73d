//! What holds of histories that match.

ghost use Rattle.gs_cluster_history.specs.Laws.{MatchingHistoriesAreARun};

use crate::acts::Core;

/// The entries of histories that match, taken by (clock, node), are a run of all nodes together, from how they began to what they
/// are: whatever a node takes there has been sent to it by then, each history stands in it in its own order, and clocks never
/// fall. It is so whatever a node does with what it takes.
pub fn matching_histories_are_a_run<C: Core>()
    ensures { MatchingHistoriesAreARun C.Does C.Starts }
{}
