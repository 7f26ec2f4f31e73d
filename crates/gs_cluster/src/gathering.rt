// What nodes come to when nothing happens to them any more, as a store that can go on.
ghost use Rattle.std.specs.Prelude.{◌≡◌, [], length};
ghost use Rattle.gs_cluster.specs.Finished.{FinishedWhole};
ghost use Rattle.gs_cluster.specs.inner.Members.{IsStore};
ghost use Rattle.gs_cluster_core.specs.Roles.{DoesAs, StartsAs};
ghost use Rattle.gs_cluster_history.specs.Setting.{all_ids};
ghost use Rattle.gs_cluster_threads.specs.Gathered.{IsWhole};

use crate::nodes::nodes_from;
use crate::posts::posts_from;
use gs_base::{Config, Refusal};
use gs_cluster_core::Role;
use gs_cluster_core::promises::matching_histories_are_a_run_of_the_store;
use gs_cluster_node::{Node, Plan};
use gs_cluster_notes::{Told, told_by};
use gs_cluster_threads::Gathered;
use gs_journal::Disk;
use gs_msg::Event;
use gs_nodes::Nodes;
use gs_world::Posts;
use std::alloc::Global;

/// The nodes of a store, all that they have ever sent, and the events that led to that. With these nodes and what they have sent it goes on on one
/// thread (`World` of `gs_world`).
#[derive(Drop)]
pub struct Whole<D: Disk + Drop> {
    pub nodes: Nodes<D>,
    pub sent: Posts,
    pub events: Vec<Event>,
}

/// The store that all its nodes are, with what their notes tell.
pub(crate) fn whole_of<N: Plan, D: Disk + Drop>(
    alloc: Global,
    config: Config,
    gathered: Gathered<Role<D>>,
) -> Result<Whole<D>, Refusal>
    requires config { config ≡ N.setting.config }
    requires whole { IsWhole (DoesAs D.seen D.failures) (StartsAs D.seen D.failures N.setting) (all_ids N.setting) [] gathered.members.items gathered.notes.items }
    ensures { IsStore D.seen D.failures N.setting gathered.members.items gathered.notes.items result }
{
    let Gathered { members, notes } = gathered;
    matching_histories_are_a_run_of_the_store::<D>();
    let nodes = nodes_from(alloc, config, members)?;
    let Told { events, sent } = told_by(alloc, notes)?;
    let sent = posts_from(alloc, config.servers as usize, sent)?;
    Ok(Whole {
        nodes,
        sent,
        events,
    })
}

/// What all nodes of a store come to that no thread has, in whatever order they are: the nodes as they have become, all that they have ever
/// sent, and the events that led to them. In the order of the clocks these are a run of a store from its beginning to this one. Its sizes
/// are those with which the nodes began. It is given only where no node is missing; `Stray` only where they aren't as many as there are;
/// `Memory` too where no notes were wanted, or memory was wanting for one.
pub fn gather<N: Plan, D: Disk + Drop>(
    alloc: Global,
    config: Config,
    nodes: Vec<Node<N, Role<D>>>,
) -> Result<Whole<D>, Refusal>
    requires config { config ≡ N.setting.config }
    ensures { FinishedWhole D.seen D.failures N.setting nodes.items (length (all_ids N.setting)) result }
{
    let gathered = gs_cluster_threads::gather(alloc, nodes)?;
    whole_of::<N, D>(alloc, config, gathered)
}
