ghost use Rattle.gs_cluster.specs.Opened.{IsNew, names_of};
ghost use Rattle.gs_journal.specs.Memory.{bytes_of, times_failed};
ghost use Rattle.std.specs.Prelude.{◌≡◌};

use crate::opening::opened_over_empty;
use gs_base::{ClientId, Config, Refusal, ServerId};
use gs_cluster::{Cluster, Opened, Whole};
use gs_cluster_node::{Open, Plan};
use gs_journal::{FailingDisk, Fault, MemoryDisk};
use gs_msg::{Event, Happening, NodeId, Outbox, Post};
use gs_nodes::empty_disks;
use gs_shell_script::Answering;
use gs_shell_threads::Desk;
use gs_world::{Posts, World};
use std::alloc::{AllocError, Global};
use std::marker::Brand;
use std::sync::Wait;
use std::test::Fail;
use std::thread::Threads;
use std::time::Clock;

/// What one caller asks.
const LINES: [&str; 5] = [
    "mkdir /d",
    "create /d/f",
    "write /d/f 0 68656c6c6f",
    "append /d/f 21",
    "read /d/f 0 16",
];

/// What a cluster comes to, with what its nodes have noted, where one caller asks.
fn one_asks<
    N: Plan + Send + Sync + 'static,
    T: Threads + Wait + Clock + Copy + Drop + Send + Sync + 'static,
>(rt: &T, alloc: Global, opened: Opened<MemoryDisk>) -> Result<Option<Whole<MemoryDisk>>, Refusal>
    requires names { N.names ≡ names_of N.setting.config.servers opened.seeds.items }
    requires config { opened.config ≡ N.setting.config }
    requires new { IsNew bytes_of times_failed N.setting opened.seeds.items }
{
    let config = opened.config;
    let (cluster, mut links) = Cluster::<N, MemoryDisk>::start(rt, alloc, Open, opened)?;
    let Some(link) = links.pop() else {
        return Err(Refusal::Stray);
    };
    let caller = gs_shell_calls::Caller::new(alloc, ClientId(1), config);
    let mut desk = Desk { caller, link };
    for line in LINES {
        drop(desk.answer(alloc, line.as_bytes())?);
    }
    let Desk { caller: _, link } = desk;
    links.push(link)?;
    cluster.finish_whole::<T>(rt, links)
}

/// Whether the same was sent.
fn is_same(posts: &[Post], others: &[Post]) -> bool {
    if posts.len() != others.len() {
        return false;
    }
    for (post, other) in posts.iter().zip(others.iter()) {
        if !post.is_same(other) {
            return false;
        }
    }
    true
}

/// What an outbox holds, if there is one.
fn has_sent_the_same(one: Option<&Outbox>, other: Option<&Outbox>) -> bool {
    match (one, other) {
        (Some(one), Some(other)) => one.len() > 0 && is_same(one.as_slice(), other.as_slice()),
        _ => false,
    }
}

/// All nodes of a store of three servers and four clients.
fn all_nodes() -> [NodeId; 8] {
    [
        NodeId::Master,
        NodeId::Server(ServerId::new(0).unwrap()),
        NodeId::Server(ServerId::new(1).unwrap()),
        NodeId::Server(ServerId::new(2).unwrap()),
        NodeId::Client(ClientId(1)),
        NodeId::Client(ClientId(2)),
        NodeId::Client(ClientId(3)),
        NodeId::Client(ClientId(4)),
    ]
}

/// How many messages they have sent.
pub(crate) fn many_sent(sent: &Posts) -> u64 {
    let mut many: u64 = 0;
    for node in all_nodes() {
        many = many.saturating_add(sent.count(node));
    }
    many
}

/// Of each message that a node has sent, that it hasn't come.
fn none_came(alloc: Global, many: u64) -> Result<Vec<bool>, AllocError> {
    let mut came = Vec::new(alloc);
    for _ in 0..many {
        came.push(false)?;
    }
    Ok(came)
}

/// How many messages of a node came, each counted once, however often it came.
fn came_from(
    alloc: Global,
    sent: &Posts,
    events: &[Event],
    node: NodeId,
) -> Result<u64, AllocError> {
    let mut came = none_came(alloc, sent.count(node))?;
    let mut many: u64 = 0;
    for event in events.iter() {
        let Happening::Deliver(message) = &event.happening else {
            continue;
        };
        if message.sender != node {
            continue;
        }
        if let Some(has_come) = came.get_mut(message.place as usize) {
            many = many.saturating_add(u64::from(!*has_come));
            *has_come = true;
        }
    }
    Ok(many)
}

/// How many of the messages that were sent came.
pub(crate) fn delivered(alloc: Global, sent: &Posts, events: &[Event]) -> Result<u64, AllocError> {
    let mut many: u64 = 0;
    for node in all_nodes() {
        many = many.saturating_add(came_from(alloc, sent, events, node)?);
    }
    Ok(many)
}

/// Whether these events, run by a new store on one thread, send what was sent, each node the same.
pub(crate) fn sends_the_same(
    alloc: Global,
    config: Config,
    sent: &Posts,
    events: Vec<Event>,
) -> Result<bool, Refusal> {
    let (first, second) = empty_disks(alloc);
    let first = FailingDisk::new(first, Fault::Never);
    let second = FailingDisk::new(second, Fault::Never);
    let mut world = match World::over(alloc, config, 4, (first, second)) {
        Ok(world) => world,
        Err(unopened) => return Err(unopened.refusal),
    };
    drop(world.run(events)?);
    for node in all_nodes() {
        if !has_sent_the_same(sent.outbox(node), world.sent.outbox(node)) {
            return Ok(false);
        }
    }
    Ok(true)
}

/// Without notes there is no whole end.
#[test]
fn what_was_not_noted_is_not_told(rt: HostRuntime) -> Result<(), Fail> {
    let alloc = rt.alloc();
    let config = Config::new(1, 1, 1, 64, 256)?;
    let opened = opened_over_empty(alloc, config, 1)?;
    let whole = one_asks::<Brand, HostRuntime>(&rt, alloc, opened);
    assert!(rt; matches!(whole, Ok(None)));
    Ok(())
}
