//! What holds of the nodes of a cluster.

ghost use Rattle.gs_cluster_core.specs.Laws.{MatchingHistoriesAreAStoreRun, NodesActAsInAStore};

use crate::role::Role;
use gs_cluster_history::promises::matching_histories_are_a_run;
use gs_journal::Disk;

/// What one node of a cluster does with what it takes is an event of the store that the nodes are: it leaves the others as they were,
/// and what it sends stands behind what it has sent.
pub fn what_a_node_does_is_an_event_of_the_store<D>()
    ensures { NodesActAsInAStore D }
{}

/// The entries of histories that match, taken by (clock, node), are a run of a store that has begun new, over disks that say what the
/// setting says. It leads to the store that the nodes are in the end, and no message is lost in it. So the laws of runs hold of what a
/// cluster has done, if what is asked in it is within its types, which most of them need. One of the nodes is the master, and no number
/// stands twice.
pub fn matching_histories_are_a_run_of_the_store<D: Disk + Drop>()
    ensures { MatchingHistoriesAreAStoreRun D.seen D.failures }
{
    matching_histories_are_a_run::<Role<D>>();
}
