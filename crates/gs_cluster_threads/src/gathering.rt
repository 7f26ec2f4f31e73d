// What nodes come to when nothing happens to them any more.
ghost use Rattle.std.specs.Prelude.{◌≡◌, ◌↔◌, IsTrue, length, vec_len};
ghost use Rattle.gs_cluster_history.specs.Setting.{all_ids};
ghost use Rattle.gs_cluster_threads.specs.Gathered.{Gathers};

use crate::placing::placed;
use crate::settling::{Apart, settle_all, take_apart};
use gs_base::Refusal;
use gs_cluster_history::Core;
use gs_cluster_node::{Node, Plan};
use gs_cluster_notes::Notes;
use gs_msg::NodeId;
use std::alloc::Global;

/// What a node has come to.
#[derive(Drop)]
pub struct Member<C: Core + Drop> {
    pub me: NodeId,
    pub core: C,
}

/// What all nodes have come to, in the order of their numbers, and what each has noted.
#[derive(Drop)]
pub struct Gathered<C: Core + Drop> {
    pub members: Vec<Member<C>>,
    pub notes: Vec<Notes>,
}

/// Whether these are as many nodes as there are.
fn are_all<N: Plan, C: Core + Drop>(nodes: &Vec<Node<N, C>>) -> bool
    ensures { IsTrue result ↔ (vec_len nodes.now ≡ length (all_ids N.setting)) }
{
    match nodes.first() {
        Some(node) => nodes.len() == node.many(),
        None => false,
    }
}

/// What these nodes have come to, in whatever order they are, and what each has noted: their histories match. It is given only where
/// none is missing; `Stray` only where they aren't as many as there are.
pub fn gather<N: Plan, C: Core + Drop>(
    alloc: Global,
    nodes: Vec<Node<N, C>>,
) -> Result<Gathered<C>, Refusal>
    ensures { Gathers C.Does (C.Starts N.setting) (all_ids N.setting) (vec_len nodes) nodes.items result }
{
    if !are_all(&nodes) {
        return Err(Refusal::Stray);
    }
    let nodes = placed(alloc, nodes)?;
    let Apart {
        members,
        rows,
        ears,
        notes,
    } = take_apart(alloc, nodes)?;
    settle_all(alloc, ears, rows)?;
    Ok(Gathered { members, notes })
}
