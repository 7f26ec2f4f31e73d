// All that nodes have taken was put by some of them.
ghost use Rattle.std.specs.Prelude.{◌≡◌, ◌≢◌, IfOk, OnOk, List, [], map};
ghost use Rattle.gs_cluster_channel.specs.Settled.{Hearing, Putting};
ghost use Rattle.gs_cluster_history.specs.Histories.{Among};
ghost use Rattle.gs_cluster_history.specs.Setting.{all_ids};
ghost use Rattle.gs_cluster_threads.specs.Gathered.{AllTell, member_of};
ghost use Rattle.gs_cluster_threads.specs.inner.Settling.{AreAll, AreApart, IsPutBy, Splits};

use crate::gathering::Member;
use crate::wiring::Row;
use gs_cluster_channel::{Ear, Way, settle};
use gs_cluster_history::Core;
use gs_cluster_node::{Node, Parts, Plan};
use gs_cluster_notes::Notes;
use std::alloc::{AllocError, Global};

/// Nodes that are taken apart, in their order.
#[derive(Drop)]
pub(crate) struct Apart<N: Plan, C: Core + Drop> {
    pub(crate) members: Vec<Member<C>>,
    pub(crate) rows: Vec<Row<N>>,
    pub(crate) ears: Vec<Ear<N>>,
    pub(crate) notes: Vec<Notes>,
}

pub(crate) fn take_apart<N: Plan, C: Core + Drop>(
    alloc: Global,
    nodes: Vec<Node<N, C>>,
) -> Result<Apart<N, C>, AllocError>
    ensures apart { IfOk result (λ a. AreApart C.Does (C.Starts N.setting) (all_ids N.setting) nodes.items a.rows.items a.ears.items) }
    ensures members { IfOk result (λ a. a.members.items ≡ map member_of nodes.items) }
    ensures notes { IfOk result (λ a. AllTell nodes.items a.notes.items) }
{
    let mut members = Vec::new(alloc);
    let mut rows = Vec::new(alloc);
    let mut ears = Vec::new(alloc);
    let mut all_notes = Vec::new(alloc);
    for node in nodes {
        let Parts {
            me,
            core,
            ways,
            ear,
            notes,
        } = node.into_parts();
        members.push(Member { me, core })?;
        rows.push(Row::new(ways))?;
        ears.push(ear)?;
        all_notes.push(notes)?;
    }
    Ok(Apart {
        members,
        rows,
        ears,
        notes: all_notes,
    })
}

/// Takes the last way off each row.
fn column_of<N: Plan>(
    alloc: Global,
    rows: Vec<Row<N>>,
) -> Result<(Vec<Row<N>>, Vec<Way<N>>), AllocError>
    requires { (r : List Putting) → Among rows.items r → r ≢ [] }
    ensures { IfOk result (λ p. Splits rows.items p.0.items p.1.items) }
{
    let mut left = Vec::new(alloc);
    let mut column = Vec::new(alloc);
    for row in rows {
        let mut ways = row.into_ways();
        let Some(way) = ways.pop() else {
            unreachable!()
        };
        left.push(Row::new(ways))?;
        column.push(way)?;
    }
    Ok((left, column))
}

/// All that the ears have taken was put by the ways into their nodes.
pub(crate) fn settle_all<N: Plan>(
    alloc: Global,
    ears: Vec<Ear<N>>,
    rows: Vec<Row<N>>,
) -> Result<(), AllocError>
    requires { AreAll ears.items rows.items }
    ensures { OnOk result ((e : Hearing) → Among ears.items e → IsPutBy rows.items e) }
{
    let mut ears = ears;
    let mut rows = rows;
    while let Some(ear) = ears.pop() {
        let (left, column) = column_of(alloc, rows)?;
        rows = left;
        settle(ear, column);
    }
    Ok(())
}
