// Nodes in the order of their numbers.
ghost use Rattle.std.specs.Prelude.{◌≡◌, IfOk, None, Some, length, map, replicate, vec_len};
ghost use Rattle.gs_cluster_history.specs.Histories.{Kept};
ghost use Rattle.gs_cluster_history.specs.Setting.{all_ids};
ghost use Rattle.gs_cluster_threads.specs.inner.Placed.{Holds, InOrder, Takes, holes};

use gs_cluster_channel::two_ears;
use gs_cluster_history::Core;
use gs_cluster_node::{Node, Parts, Plan};
use std::alloc::{AllocError, Global};

/// No two nodes have one number: there is one ear to each channel.
fn two_nodes<N: Plan, C: Core + Drop>(first: Node<N, C>, second: Node<N, C>)
    requires { first.me ≡ second.me }
    ensures { ⊥ }
{
    let Parts {
        me: _,
        core: _,
        ways: _,
        ear,
        notes: _,
    } = first.into_parts();
    let Parts {
        me: _,
        core: _,
        ways: _,
        ear: other,
        notes: _,
    } = second.into_parts();
    two_ears(ear, other);
}

fn empty_places<N: Plan, C: Core + Drop>(
    alloc: Global,
    many: usize,
) -> Result<Vec<Option<Node<N, C>>>, AllocError>
    ensures { IfOk result (λ v. v.items ≡ replicate many None) }
{
    let mut places = Vec::new(alloc);
    for _ in 0..many {
        places.push(None)?;
    }
    Ok(places)
}

/// Puts a node into the place of its number, where nothing stands.
fn place_one<N: Plan, C: Core + Drop>(places: &mut Vec<Option<Node<N, C>>>, node: Node<N, C>)
    requires { Holds (all_ids N.setting) places.old.items }
    ensures { Takes (all_ids N.setting) node places.old.items places.new.items }
{
    let at = node.place();
    let stood = places[at].take();
    if let Some(other) = stood {
        two_nodes(other, node);
        return;
    }
    places[at] = Some(node);
}

/// The nodes of places that are full.
fn filled<N: Plan, C: Core + Drop>(
    alloc: Global,
    places: Vec<Option<Node<N, C>>>,
) -> Result<Vec<Node<N, C>>, AllocError>
    requires { holes places.items ≡ 0 }
    ensures { IfOk result (λ v. map (λ (k : Kept C). Some k) v.items ≡ places.items) }
{
    let mut nodes = Vec::new(alloc);
    for place in places {
        let Some(node) = place else { unreachable!() };
        nodes.push(node)?;
    }
    Ok(nodes)
}

/// All nodes, in the order of their numbers.
pub(crate) fn placed<N: Plan, C: Core + Drop>(
    alloc: Global,
    nodes: Vec<Node<N, C>>,
) -> Result<Vec<Node<N, C>>, AllocError>
    requires { vec_len nodes ≡ length (all_ids N.setting) }
    ensures { IfOk result (λ v. InOrder (all_ids N.setting) nodes.items v.items) }
{
    let mut places = empty_places(alloc, nodes.len())?;
    for node in nodes {
        place_one(&mut places, node);
    }
    filled(alloc, places)
}
