ghost use Rattle.gs_cluster.specs.Opened.{IsNew, names_of};
ghost use Rattle.gs_journal.specs.Memory.{bytes_of, times_failed};
ghost use Rattle.std.specs.Prelude.{◌≡◌};

use crate::opening::opened_over_empty;
use crate::whole::{delivered, many_sent, sends_the_same};
use gs_base::{ClientId, Config, Handle, Moment, Refusal, ReqId, ServerId, Stamp};
use gs_client::Reply;
use gs_cluster::{Opened, Whole, gather};
use gs_cluster_core::Role;
use gs_cluster_node::{Node, Open, Plan};
use gs_cluster_threads::wire;
use gs_journal::MemoryDisk;
use gs_msg::{Answer, Asked, Call, Event, Happening, NodeId, Request};
use gs_nodes::Nodes;
use gs_path::Path;
use std::alloc::Global;
use std::marker::Brand;
use std::sync::Wait;
use std::test::Fail;

/// How many nodes there are: the master, three servers and four clients.
const NODES: usize = 8;

fn sizes() -> Result<Config, Refusal> {
    Config::new(3, 1, 3, 64, 256)
}

/// Each node takes a message that waits for it. Whether one did.
fn hear_once<N: Plan, R: Wait>(
    rt: &R,
    alloc: Global,
    nodes: &mut Vec<Node<N, Role<MemoryDisk>>>,
) -> Result<bool, Refusal> {
    let mut has_come = false;
    for node in nodes.iter_mut() {
        if node.receive(rt, alloc, &Open)?.is_some() {
            has_come = true;
        }
    }
    Ok(has_come)
}

/// Nodes take what waits for them until nothing does.
fn all_hear<N: Plan, R: Wait>(
    rt: &R,
    alloc: Global,
    nodes: &mut Vec<Node<N, Role<MemoryDisk>>>,
) -> Result<(), Refusal> {
    for _ in 0..100 {
        if !hear_once(rt, alloc, nodes)? {
            return Ok(());
        }
    }
    Err(Refusal::Unsure)
}

/// What a client asks: the first one for a file, and each other one for the length of a chunk that its server hasn't.
fn request_of(alloc: Global, client: ClientId) -> Result<Request, Refusal> {
    let Some(to) = ServerId::new(u64::from(client.0).wrapping_sub(2)) else {
        return Ok(Request::Call(Call::Create(Path::parse(alloc, "/f")?)));
    };
    Ok(Request::Fetch {
        to,
        handle: Handle::first(),
        stamp: Stamp {
            epoch: 0,
            version: 1,
        },
        epoch: 0,
        asked: Asked::Length,
    })
}

/// Each client asks.
fn all_ask<N: Plan, R: Wait>(
    rt: &R,
    alloc: Global,
    nodes: &mut Vec<Node<N, Role<MemoryDisk>>>,
) -> Result<(), Refusal> {
    for node in nodes.iter_mut() {
        let NodeId::Client(client) = node.me() else {
            continue;
        };
        let event = Event {
            moment: Moment(0),
            happening: Happening::Ask {
                req: ReqId { client, number: 1 },
                request: request_of(alloc, client)?,
            },
        };
        node.step(rt, alloc, &Open, event)??;
    }
    Ok(())
}

/// What so many of the nodes of a store come to, each of which did what there was to do, on this thread.
fn gathered<N: Plan, R: Wait>(
    rt: &R,
    alloc: Global,
    opened: Opened<MemoryDisk>,
    many: usize,
) -> Result<Whole<MemoryDisk>, Refusal>
    requires names { N.names ≡ names_of N.setting.config.servers opened.seeds.items }
    requires config { opened.config ≡ N.setting.config }
    requires new { IsNew bytes_of times_failed N.setting opened.seeds.items }
{
    let Opened {
        config,
        seeds,
        are_noted,
    } = opened;
    let mut nodes = wire::<N, Role<MemoryDisk>, R>(rt, alloc, are_noted, seeds)?;
    all_hear(rt, alloc, &mut nodes)?;
    all_ask(rt, alloc, &mut nodes)?;
    all_hear(rt, alloc, &mut nodes)?;
    nodes.truncate(many);
    gather(alloc, config, nodes)
}

/// What so many nodes of a new store come to, each of which keeps notes, or none does.
fn whole_of<R: Wait>(
    rt: &R,
    alloc: Global,
    are_noted: bool,
    many: usize,
) -> Result<Whole<MemoryDisk>, Refusal> {
    let mut opened = opened_over_empty(alloc, sizes()?, 4)?;
    opened.are_noted = are_noted;
    gathered::<Brand, R>(rt, alloc, opened, many)
}

/// What came back to a client in the end.
fn reply_to(nodes: &Nodes<MemoryDisk>, at: usize) -> Option<&Reply> {
    nodes.clients.get(at)?.reply()
}

/// All that was sent is delivered, and the events that are given, run by a new store on one thread, send the same.
#[test]
fn nodes_that_no_thread_has_are_a_store(rt: HostRuntime) -> Result<(), Fail> {
    let alloc = rt.alloc();
    let Whole {
        nodes,
        sent,
        events,
    } = whole_of(&rt, alloc, true, NODES)?;
    assert!(rt; matches!(reply_to(&nodes, 0), Some(Reply::Answer(Answer::Nothing))));
    for at in 1..4 {
        assert!(rt;
            matches!(
                reply_to(&nodes, at),
                Some(Reply::Refused(Refusal::NoReplica))
            )
        );
    }
    assert_eq!(rt; delivered(alloc, &sent, &events)?, many_sent(&sent));
    assert!(rt; sends_the_same(alloc, sizes()?, &sent, events)?);
    Ok(())
}

#[test]
fn a_node_that_is_left_out_is_missed(rt: HostRuntime) -> Result<(), Fail> {
    let whole = whole_of(&rt, rt.alloc(), true, NODES - 1);
    assert!(rt; matches!(whole, Err(Refusal::Stray)));
    Ok(())
}

#[test]
fn nodes_without_notes_are_not_told_whole(rt: HostRuntime) -> Result<(), Fail> {
    let whole = whole_of(&rt, rt.alloc(), false, NODES);
    assert!(rt; matches!(whole, Err(Refusal::Memory)));
    Ok(())
}
