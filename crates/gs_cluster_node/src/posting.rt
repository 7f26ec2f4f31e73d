// What a node sends goes on its ways.
ghost use Rattle.std.specs.Prelude.{◌≡◌, ◌⊎◌, ◌<◌, ◌+◌, IfSome, Some, slice_get};
ghost use Rattle.gs_cluster_channel.specs.Settled.{Putting};
ghost use Rattle.gs_cluster_history.specs.Histories.{listing};
ghost use Rattle.gs_cluster_node.specs.Nodes.{AllListed, last_clock};
ghost use Rattle.gs_cluster_node.specs.inner.Acting.{AllOwn, AreAt, PutOn, Routes};

use gs_base::Moment;
use gs_cluster_channel::{Naming, Tried, Way};
use gs_cluster_history::Log;
use gs_msg::{Message, NodeId, Sent};
use std::alloc::Global;
use std::collections::VecDeque;
use std::sync::Wait;

/// The place of the way into a node, if there is one.
fn way_to<N: Naming>(ways: &Vec<Way<N>>, to: NodeId) -> Option<usize>
    ensures { IfSome result (λ at. (way : Putting) × (slice_get ways.now.items at ≡ Some way) × (way.to ≡ to)) }
{
    for at in 0..ways.len() {
        if ways[at].to() == to {
            return Some(at);
        }
    }
    None
}

/// The same node.
pub(crate) fn same(node: &NodeId) -> NodeId
    ensures { result ≡ node.now }
{
    *node
}

fn receiver(sent: &Sent) -> NodeId
    ensures { result ≡ sent.now.message.to }
{
    sent.message.to
}

/// Tries to put a message into the way to its receiver. One that finds no room is handed back.
fn put_one<N: Naming, R: Wait>(rt: &R, ways: &mut Vec<Way<N>>, sent: Sent) -> Option<Sent>
    ensures ways { (ways.new.items ≡ ways.old.items) ⊎ PutOn sent ways.old.items ways.new.items }
    ensures back { IfSome result (λ back. back ≡ sent) }
{
    let Some(at) = way_to(ways, receiver(&sent)) else {
        drop(sent);
        return None;
    };
    let way = &mut ways[at];
    match way.put(rt, sent) {
        Tried::Back(back) => Some(back),
        Tried::Put | Tried::Lost => None,
    }
}

/// Tries to put a message, which stands in the node's list. One that finds no room is handed back.
fn put_listed<N: Naming, R: Wait>(
    rt: &R,
    ways: &mut Vec<Way<N>>,
    log: &Log,
    sent: Sent,
) -> Option<Sent>
    requires listed { slice_get log.now.sent sent.place ≡ Some (listing sent) }
    requires all { AllListed sent.from log.now.sent ways.old.items }
    ensures routes { Routes sent.from log.now.sent ways.old.items ways.new.items }
    ensures back { IfSome result (λ back. back ≡ sent) }
{
    put_one(rt, ways, sent)
}

/// Has a message of a node's own wait behind those that wait, if there is memory.
fn wait_behind(log: &Log, me: &NodeId, waiting: &mut VecDeque<Sent>, sent: Sent)
    requires own { AllOwn me.now log.now.sent waiting.old.items }
    requires stands { (sent.from ≡ me.now) × (slice_get log.now.sent sent.place ≡ Some (listing sent)) }
    ensures { AllOwn me.now log.now.sent waiting.new.items }
{
    let _ = waiting.push_back(sent);
}

/// Has a message of a node's own wait before those that wait, if there is memory.
fn wait_first(log: &Log, me: &NodeId, waiting: &mut VecDeque<Sent>, sent: Sent)
    requires own { AllOwn me.now log.now.sent waiting.old.items }
    requires stands { (sent.from ≡ me.now) × (slice_get log.now.sent sent.place ≡ Some (listing sent)) }
    ensures { AllOwn me.now log.now.sent waiting.new.items }
{
    let _ = waiting.push_front(sent);
}

/// Puts a message that stands in a node's list on its way. Where others wait, or it finds no room, it waits behind them.
fn post<N: Naming, R: Wait>(
    rt: &R,
    ways: &mut Vec<Way<N>>,
    waiting: &mut VecDeque<Sent>,
    log: &Log,
    me: &NodeId,
    sent: Sent,
)
    requires stands { (sent.from ≡ me.now) × (slice_get log.now.sent sent.place ≡ Some (listing sent)) }
    requires all { AllListed me.now log.now.sent ways.old.items }
    requires own { AllOwn me.now log.now.sent waiting.old.items }
    ensures routes { Routes me.now log.now.sent ways.old.items ways.new.items }
    ensures own { AllOwn me.now log.now.sent waiting.new.items }
{
    if !waiting.is_empty() {
        wait_behind(log, me, waiting, sent);
        return;
    }
    if let Some(back) = put_listed(rt, ways, log, sent) {
        wait_behind(log, me, waiting, back);
    }
}

/// Puts the message that has waited longest on its way. The answer is whether it went there; else it waits as before.
fn put_first<N: Naming, R: Wait>(
    rt: &R,
    ways: &mut Vec<Way<N>>,
    waiting: &mut VecDeque<Sent>,
    log: &Log,
    me: &NodeId,
) -> bool
    requires all { AllListed me.now log.now.sent ways.old.items }
    requires own { AllOwn me.now log.now.sent waiting.old.items }
    ensures routes { Routes me.now log.now.sent ways.old.items ways.new.items }
    ensures own { AllOwn me.now log.now.sent waiting.new.items }
{
    let Some(sent) = waiting.pop_front() else {
        return false;
    };
    match put_listed(rt, ways, log, sent) {
        Some(back) => {
            wait_first(log, me, waiting, back);
            false
        }
        None => true,
    }
}

/// Puts messages that wait on their ways, in order, as long as they find room.
pub(crate) fn put_waiting<N: Naming, R: Wait>(
    rt: &R,
    ways: &mut Vec<Way<N>>,
    waiting: &mut VecDeque<Sent>,
    log: &Log,
    me: &NodeId,
)
    requires all { AllListed me.now log.now.sent ways.old.items }
    requires own { AllOwn me.now log.now.sent waiting.old.items }
    ensures routes { Routes me.now log.now.sent ways.old.items ways.new.items }
    ensures own { AllOwn me.now log.now.sent waiting.new.items }
{
    for _ in 0..waiting.len() {
        if !put_first(rt, ways, waiting, log, me) {
            return;
        }
    }
}

/// Puts messages that stand in a node's list, in order, each on its way. Those that find no room there wait. A message of the last
/// clock of all is not put, and none is where a node has sent more than it can count.
pub(crate) fn put_all<N: Naming, R: Wait>(
    rt: &R,
    ways: &mut Vec<Way<N>>,
    waiting: &mut VecDeque<Sent>,
    log: &Log,
    me: &NodeId,
    first: u64,
    clock: u64,
    moment: Moment,
    messages: Vec<Message>,
)
    requires listed { first < last_clock → AreAt log.now.sent first clock moment messages.items }
    requires all { AllListed me.now log.now.sent ways.old.items }
    requires own { AllOwn me.now log.now.sent waiting.old.items }
    ensures routes { Routes me.now log.now.sent ways.old.items ways.new.items }
    ensures own { AllOwn me.now log.now.sent waiting.new.items }
{
    if clock == u64::MAX {
        return;
    }
    let mut place = first;
    for message in messages {
        if place == u64::MAX {
            return;
        }
        let sent = Sent {
            from: same(me),
            place,
            clock,
            moment,
            message,
        };
        post(rt, ways, waiting, log, me, sent);
        place += 1;
    }
}

/// Keeps a message of a node's own, if there is memory.
fn keep(log: &Log, me: &NodeId, copies: &mut Vec<Sent>, sent: Sent) -> bool
    requires own { AllOwn me.now log.now.sent copies.old.items }
    requires stands { (sent.from ≡ me.now) × (slice_get log.now.sent sent.place ≡ Some (listing sent)) }
    ensures { AllOwn me.now log.now.sent copies.new.items }
{
    copies.push(sent).is_ok()
}

/// Copies of messages that stand in a node's list, as they go on their ways: as many as there is memory for.
fn copies_of(
    alloc: Global,
    log: &Log,
    me: &NodeId,
    first: u64,
    clock: u64,
    moment: Moment,
    messages: &Vec<Message>,
) -> Vec<Sent>
    requires { first < last_clock → AreAt log.now.sent first clock moment messages.now.items }
    ensures { AllOwn me.now log.now.sent result.items }
{
    let mut copies = Vec::new(alloc);
    if clock == u64::MAX {
        return copies;
    }
    let mut number = first;
    for at in 0..messages.len() {
        if number == u64::MAX {
            return copies;
        }
        let Ok(message) = messages[at].copy(alloc) else {
            return copies;
        };
        let sent = Sent {
            from: same(me),
            place: number,
            clock,
            moment,
            message,
        };
        if !keep(log, me, &mut copies, sent) {
            return copies;
        }
        number += 1;
    }
    copies
}

/// Keeps copies of what a node asks, in the place of those of what it asked before.
pub(crate) fn remember(
    alloc: Global,
    asks: bool,
    asked: &mut Vec<Sent>,
    log: &Log,
    me: &NodeId,
    first: u64,
    clock: u64,
    moment: Moment,
    messages: &Vec<Message>,
)
    requires listed { first < last_clock → AreAt log.now.sent first clock moment messages.now.items }
    requires own { AllOwn me.now log.now.sent asked.old.items }
    ensures { AllOwn me.now log.now.sent asked.new.items }
{
    if asks {
        *asked = copies_of(alloc, log, me, first, clock, moment, messages);
    }
}

/// Tries to put a copy of a message, which stands in the node's list, if there is memory.
fn put_copy<N: Naming, R: Wait>(
    rt: &R,
    alloc: Global,
    ways: &mut Vec<Way<N>>,
    log: &Log,
    sent: &Sent,
)
    requires listed { slice_get log.now.sent sent.now.place ≡ Some (listing sent.now) }
    requires all { AllListed sent.now.from log.now.sent ways.old.items }
    ensures { Routes sent.now.from log.now.sent ways.old.items ways.new.items }
{
    let Ok(copy) = sent.copy(alloc) else {
        return;
    };
    drop(put_listed(rt, ways, log, copy));
}

/// Puts messages of a node's own once more, each on its way.
pub(crate) fn put_again<N: Naming, R: Wait>(
    rt: &R,
    alloc: Global,
    ways: &mut Vec<Way<N>>,
    log: &Log,
    me: &NodeId,
    asked: &Vec<Sent>,
)
    requires own { AllOwn me.now log.now.sent asked.now.items }
    requires all { AllListed me.now log.now.sent ways.old.items }
    ensures { Routes me.now log.now.sent ways.old.items ways.new.items }
{
    for at in 0..asked.len() {
        put_copy(rt, alloc, ways, log, &asked[at]);
    }
}
