// The work of threads.
use crate::watch::Watch;
use gs_cluster_history::Core;
use gs_cluster_node::{Gate, Node, Plan};
use gs_msg::{Event, Happening, NodeId, StoreNode};
use std::alloc::Global;
use std::sync::{Mutex, Wait};
use std::thread;
use std::thread::Threads;
use std::time::{Clock, Duration};

/// So often a caller looks while nothing comes before it asks once more.
pub const LOOKS: u32 = 7_000;

/// So often a thread looks while nothing happens to its node before it lets the node's clock tick, if something waits there. A caller that
/// asks once more is something that happens: so this comes before it.
const QUIET: u32 = 6_500;

/// So often it looks without a rest.
const EAGER: u32 = 2_000;

/// So often it looks before it rests for longer.
const ALERT: u32 = 6_000;

/// A step that was made: whose, and which.
#[derive(Drop)]
struct Made {
    node: NodeId,
    step: u64,
}

/// The node whose clock ticks, if it has one.
fn keeper_of(node: NodeId) -> Option<StoreNode> {
    match node {
        NodeId::Master => Some(StoreNode::Master),
        NodeId::Server(server) => Some(StoreNode::Server(server)),
        NodeId::Client(_) => None,
    }
}

/// What a look comes to: the step that was made, if one was, and how many steps the node has made by then.
#[derive(Drop)]
struct Seen {
    made: Option<Made>,
    steps: u64,
}

/// A step of a node whose clock ticks, if something waits there that a tick may move on.
fn tick<N: Plan, C: Core + Drop, R: Wait, G: Gate>(
    rt: &R,
    alloc: Global,
    gate: &G,
    node: &mut Node<N, C>,
    made: Made,
) -> Option<Made> {
    if !node.core().is_waiting() {
        return None;
    }
    let event = Event {
        moment: node.told(),
        happening: Happening::Tick(keeper_of(made.node)?),
    };
    let _ = node.step(rt, alloc, gate, event).ok()?;
    Some(made)
}

/// One step of a node, if there is one to make. Its clock may tick where it has made no step since it had made so many.
fn make_step<N: Plan, C: Core + Drop, R: Wait, G: Gate>(
    rt: &R,
    alloc: Global,
    gate: &G,
    node: &mut Node<N, C>,
    quiet_since: Option<u64>,
) -> Option<Made> {
    let step = node.steps();
    let made = Made {
        node: node.me(),
        step,
    };
    match node.receive(rt, alloc, gate) {
        Ok(Some(said)) => {
            let _ = said;
            return Some(made);
        }
        Ok(None) => {}
        Err(_) => return None,
    }
    if quiet_since != Some(step) {
        return None;
    }
    tick(rt, alloc, gate, node, made)
}

/// Looks once what there is to do for a node: what waits for room goes on its way, and a step is made, if there is one to make. Where
/// there is none, that is seen in the round that goes on.
fn look<N: Plan, C: Core + Drop, R: Wait, G: Gate + Drop>(
    rt: &R,
    alloc: Global,
    watch: &Watch<G>,
    node: &mut Node<N, C>,
    quiet_since: Option<u64>,
) -> Seen {
    let round = watch.rounds.now();
    node.put_waiting(rt);
    let made = make_step(rt, alloc, &*watch.gate, node, quiet_since);
    if made.is_none() {
        watch.rounds.saw_idle(watch.at, round);
    }
    let steps = node.steps();
    Seen { made, steps }
}

/// Rests a little behind so many looks, and longer behind more.
pub fn rest<R: Clock>(rt: &R, looks: u32) {
    if looks < EAGER {
        thread::yield_now();
    } else if looks < ALERT {
        thread::sleep(rt, Duration::from_micros(50));
    } else {
        thread::sleep(rt, Duration::from_millis(3));
    }
}

/// The work of one thread, until the cluster ends. What either thread of a node does begins its waiting for a tick anew. The node's
/// clock doesn't tick while something is under way that came of its last step.
fn work<N: Plan, C: Core + Drop, R: Wait + Clock, G: Gate + Drop>(
    rt: &R,
    alloc: Global,
    watch: &Watch<G>,
    seat: &Mutex<Node<N, C>>,
) {
    let mut looks: u32 = 0;
    let mut seen: u64 = 0;
    let mut since: u64 = 0;
    for _ in rt.forever() {
        if watch.is_over() {
            return;
        }
        let may_tick = looks >= QUIET && watch.rounds.are_behind(since);
        let quiet_since = if may_tick { Some(seen) } else { None };
        let Seen { made, steps } = look(rt, alloc, watch, &mut *seat.lock(rt), quiet_since);
        if let Some(Made { node, step }) = made {
            watch.gate.leave(node, step);
        }
        if steps == seen {
            looks = looks.saturating_add(1).min(QUIET);
            rest(rt, looks);
        } else {
            seen = steps;
            since = watch.rounds.now();
            looks = 0;
        }
    }
}

/// Two threads share a node, until the cluster ends. Where the second can't be made, one does the work.
pub(crate) fn host<
    N: Plan + Send + Sync,
    C: Core + Drop + Send,
    R: Threads + Wait + Clock + Sync,
    G: Gate + Drop + Send + Sync,
>(rt: &R, alloc: Global, watch: &Watch<G>, node: Node<N, C>) -> Node<N, C> {
    let seat = Mutex::new(node);
    thread::join(
        rt,
        || work(rt, alloc, watch, &seat),
        || work(rt, alloc, watch, &seat),
    );
    seat.into_inner()
}
