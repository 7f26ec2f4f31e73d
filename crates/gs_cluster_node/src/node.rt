ghost use Rattle.std.specs.Prelude.{◌≡◌, ◌<◌, ◌+◌, ◌↔◌, IsTrue, Some, length, max, slice_get, []};
ghost use Rattle.gs_cluster_history.specs.Histories.{Among, doer};
ghost use Rattle.gs_cluster_history.specs.Logs.{first_sent};
ghost use Rattle.gs_cluster_history.specs.Setting.{all_ids};
ghost use Rattle.gs_cluster_node.specs.Nodes.{AllListed, HaveSentNothing, IsSound, Receives, Steps, last_clock, leads_of};
ghost use Rattle.gs_cluster_node.specs.inner.Acting.{Agrees, Goes, Routes};
ghost use Rattle.gs_cluster_notes.specs.Notes.{Keeps};

use crate::acting::{Done, act};
use crate::gate::Gate;
use crate::plan::Plan;
use crate::posting::{put_again, put_all, put_waiting, remember, same};
use gs_base::{Moment, Refusal};
use gs_cluster_channel::{Ear, Way};
use gs_cluster_history::{Core, Log, Took, Turn};
use gs_cluster_notes::Notes;
use gs_msg::{Event, Happening, NodeId, Sent};
use std::alloc::Global;
use std::collections::VecDeque;
use std::marker::Model;
use std::sync::Wait;

/// What a node keeps of what it did: its history, how much it has sent, what of it waits for room on its way, copies of what it asked
/// last, and its notes.
#[derive(Drop)]
struct Diary {
    log: Log,
    count: u64,
    waiting: VecDeque<Sent>,
    asked: Vec<Sent>,
    notes: Notes,
}

/// A node with its history, its ear and its ways to all nodes. All that happens to it goes by its calls, so that its history
/// leads from how it began to what it is. At run time nothing is kept of the history but the clock, how much was sent, what was
/// asked last, and notes of it where they are wanted.
#[derive(Drop)]
pub struct Node<N: Plan, C: Core + Drop> {
    me: NodeId,
    core: C,
    clock: u64,
    steps: u64,
    told: Moment,
    diary: Diary,
    ways: Vec<Way<N>>,
    ear: Ear<N>,
}

impl<N: Plan, C: Core + Drop> Model for Node<N, C> {
    ghost use Rattle.gs_cluster_history.specs.Coding.{coded_kept};
    ghost use Rattle.gs_cluster_history.specs.Histories.{Kept};
    ghost use Rattle.gs_cluster_history.specs.Setting.{all_ids};
    ghost use Rattle.gs_cluster_node.specs.Nodes.{IsSound};
    ghost use Rattle.gs_cluster_node.specs.inner.Acting.{Agrees};

    ghost Value = { Kept C };

    ghost coded = { coded_kept C.code };

    ghost view = { λ n. record { me = n.me; past = record { core = n.core; clock = n.clock; sent = n.diary.log.sent }; entries = n.diary.log.entries } };

    ghost invariant = { λ n. IsSound C.Does (C.Starts N.setting) (all_ids N.setting) (record { me = n.me; past = record { core = n.core; clock = n.clock; sent = n.diary.log.sent }; entries = n.diary.log.entries }) n.ways.items n.ear
        × Agrees n.me n.diary };
}

/// A node that is taken apart, when nothing happens to it any more.
#[derive(Drop)]
pub struct Parts<N: Plan, C: Core + Drop> {
    pub me: NodeId,
    pub core: C,
    pub ways: Vec<Way<N>>,
    pub ear: Ear<N>,
    pub notes: Notes,
}

fn doer(event: &Event) -> Option<NodeId>
    ensures { result ≡ doer event.now.happening }
{
    match &event.happening {
        Happening::Ask { req, .. } => Some(NodeId::Client(req.client)),
        Happening::Tick(node) => Some(NodeId::from(*node)),
        _ => None,
    }
}

/// Whether an event is this node's own.
fn is_of(event: &Event, me: &NodeId) -> bool
    ensures { IsTrue result ↔ (doer event.now.happening ≡ Some me.now) }
{
    match doer(event) {
        Some(node) => node == *me,
        None => false,
    }
}

fn is_ask(took: &Took) -> bool {
    match took {
        Took::Did(event) => matches!(&event.happening, Happening::Ask { .. }),
        Took::Heard(_) => false,
    }
}

fn is_node(node: NodeId, other: &NodeId) -> bool
    ensures { IsTrue result ↔ (node ≡ other.now) }
{
    node == *other
}

/// The place of the way into a node, which is there.
fn place_of<N: Plan>(ways: &Vec<Way<N>>, me: &NodeId) -> usize
    requires { Among (leads_of ways.now.items) me.now }
    ensures { slice_get (leads_of ways.now.items) result ≡ Some me.now }
{
    for at in 0..ways.len() {
        if is_node(ways[at].to(), me) {
            return at;
        }
    }
    unreachable!()
}

/// A clock above both.
fn above(clock: u64, other: u64) -> u64
    requires { (clock < last_clock) × (other < last_clock) }
    ensures { result ≡ max clock other + 1 }
{
    if clock < other { other + 1 } else { clock + 1 }
}

/// A node takes something at a clock, its history goes on by that, and what it sends goes on its ways. Of what it asks it keeps
/// copies, and notes of all of it where they are wanted.
fn go<N: Plan, C: Core, R: Wait>(
    rt: &R,
    alloc: Global,
    core: &mut C,
    diary: &mut Diary,
    ways: &mut Vec<Way<N>>,
    me: &NodeId,
    clock: u64,
    took: Took,
) -> Result<(), Refusal>
    requires agrees { Agrees me.now diary.old }
    requires listed { AllListed me.now diary.old.log.sent ways.old.items }
    ensures goes { Goes C.Does took clock core.old diary.old.log.entries diary.old.log.sent result core.new diary.new.log.entries diary.new.log.sent }
    ensures agrees { Agrees me.now diary.new }
    ensures routes { Routes me.now diary.new.log.sent ways.old.items ways.new.items }
{
    let Diary {
        log,
        count,
        waiting,
        asked,
        notes,
    } = diary;
    let first = *count;
    let asks = is_ask(&took);
    let dated = notes.dated(alloc, clock, &took);
    let Done { out, moment, said } = act(alloc, core, log, clock, took);
    *count = first.saturating_add(out.len() as u64);
    notes.note(alloc, dated, &out);
    remember(alloc, asks, asked, log, me, first, clock, moment, &out);
    put_all(rt, ways, waiting, log, me, first, clock, moment, out);
    said
}

/// What a node keeps that has taken nothing: what it sends at first stands in its list at clock 0, and goes on its ways. It keeps notes
/// where that is said.
fn first_diary<N: Plan, R: Wait>(
    rt: &R,
    alloc: Global,
    are_noted: bool,
    me: &NodeId,
    turn: Turn,
    ways: &mut Vec<Way<N>>,
) -> Diary
    requires silent { HaveSentNothing ways.old.items }
    ensures entries { result.log.entries ≡ [] }
    ensures sent { result.log.sent ≡ first_sent turn }
    ensures agrees { Agrees me.now result }
    ensures routes { Routes me.now result.log.sent ways.old.items ways.new.items }
{
    let log = Log::new().first(&turn);
    let count = turn.sent.len() as u64;
    let notes = Notes::first(alloc, are_noted, &turn.sent);
    let mut waiting = VecDeque::new(alloc);
    let at = Moment(0);
    put_all(rt, ways, &mut waiting, &log, me, 0, 0, at, turn.sent);
    Diary {
        log,
        count,
        waiting,
        asked: Vec::new(alloc),
        notes,
    }
}

impl<N: Plan, C: Core + Drop> Node<N, C> {
    /// A node that has taken nothing: what it sends at first stands in its list at clock 0, and goes on its ways. It keeps notes where
    /// that is said.
    pub fn new<R: Wait>(
        rt: &R,
        alloc: Global,
        are_noted: bool,
        me: NodeId,
        core: C,
        turn: Turn,
        ways: Vec<Way<N>>,
        ear: Ear<N>,
    ) -> Node<N, C>
        requires starts { C.Starts N.setting me core turn.sent.items }
        requires mine { Among (all_ids N.setting) me }
        requires leads { leads_of ways.items ≡ all_ids N.setting }
        requires silent { HaveSentNothing ways.items }
        requires ear { ear ≡ record { me = me; parts = ear.parts; taken = [] } }
        requires whole { ear.parts + length (all_ids N.setting) ≡ 1024 }
        ensures { result ≡ record { me = me; past = record { core = core; clock = 0; sent = first_sent turn }; entries = [] } }
    {
        let mut ways = ways;
        let diary = first_diary(rt, alloc, are_noted, &me, turn, &mut ways);
        Node {
            me,
            core,
            clock: 0,
            steps: 0,
            told: Moment(0),
            diary,
            ways,
            ear,
        }
    }

    pub fn me(&self) -> NodeId
        ensures { result ≡ self.now.me }
    {
        self.me
    }

    /// The place of its number among those of all nodes.
    pub fn place(&self) -> usize
        ensures { slice_get (all_ids N.setting) result ≡ Some self.now.me }
    {
        place_of(&self.ways, &self.me)
    }

    /// How many nodes there are, itself among them.
    pub fn many(&self) -> usize
        ensures { result ≡ length (all_ids N.setting) }
    {
        self.ways.len()
    }

    pub fn core(&self) -> &C
        ensures { result.now ≡ self.now.past.core }
    {
        &self.core
    }

    /// How many steps it has made, as far as it has counted them.
    pub fn steps(&self) -> u64 {
        self.steps
    }

    /// The moment of the message that it has heard last.
    pub fn told(&self) -> Moment {
        self.told
    }

    /// An event of the node's own: one that asks, or a tick. Its answer is what was said. `Exhausted` where the node's clock is at
    /// its last value, `Stray` where the event isn't its own; nothing changes then.
    pub fn step<R: Wait, G: Gate>(
        &mut self,
        rt: &R,
        alloc: Global,
        gate: &G,
        event: Event,
    ) -> Result<Result<(), Refusal>, Refusal>
        ensures { Steps C.Does self.old event result self.new }
    {
        if !is_of(&event, &self.me) {
            drop(event);
            return Err(Refusal::Stray);
        }
        if self.clock == u64::MAX {
            drop(event);
            return Err(Refusal::Exhausted);
        }
        let Node {
            me,
            core,
            clock,
            steps,
            told: _,
            diary,
            ways,
            ear: _,
        } = self;
        gate.enter(same(me), *steps);
        *clock += 1;
        *steps = steps.saturating_add(1);
        let took = Took::Did(event);
        let at = *clock;
        Ok(go(rt, alloc, core, diary, ways, me, at, took))
    }

    /// Takes the message that has waited longest, and does what it comes to, in one. `None` where no message waits. `Exhausted`
    /// where the node's clock is at its last value; nothing is taken then.
    pub fn receive<R: Wait, G: Gate>(
        &mut self,
        rt: &R,
        alloc: Global,
        gate: &G,
    ) -> Result<Option<Result<(), Refusal>>, Refusal>
        ensures { Receives C.Does self.old result self.new }
    {
        if self.clock == u64::MAX {
            return Err(Refusal::Exhausted);
        }
        let Node {
            me,
            core,
            clock,
            steps,
            told,
            diary,
            ways,
            ear,
        } = self;
        let Some(sent) = ear.take(rt) else {
            return Ok(None);
        };
        gate.enter(same(me), *steps);
        *clock = above(*clock, sent.clock);
        *steps = steps.saturating_add(1);
        *told = sent.moment;
        let at = *clock;
        let took = Took::Heard(sent);
        let said = go(rt, alloc, core, diary, ways, me, at, took);
        Ok(Some(said))
    }

    /// Puts what was asked last on its ways once more, as far as there is memory. The messages are the same, in the same places, so
    /// that nothing changes but what waits in the channels.
    pub fn again<R: Wait>(&mut self, rt: &R, alloc: Global)
        ensures { self.new ≡ self.old }
    {
        let Node {
            me,
            core: _,
            clock: _,
            steps: _,
            told: _,
            diary,
            ways,
            ear: _,
        } = self;
        put_again(rt, alloc, ways, &diary.log, me, &diary.asked);
    }

    /// Puts on their ways what waited for room there, in order, as long as there is some. Nothing changes but what waits.
    pub fn put_waiting<R: Wait>(&mut self, rt: &R)
        ensures { self.new ≡ self.old }
    {
        let Node {
            me,
            core: _,
            clock: _,
            steps: _,
            told: _,
            diary,
            ways,
            ear: _,
        } = self;
        put_waiting(rt, ways, &mut diary.waiting, &diary.log, me);
    }

    /// Lets go what was asked last: it isn't put on its ways any more.
    pub fn let_go(&mut self, alloc: Global)
        ensures { self.new ≡ self.old }
    {
        self.diary.asked = Vec::new(alloc);
    }

    /// Nothing more is heard or sent.
    pub fn into_parts(self) -> Parts<N, C>
        ensures sound { IsSound C.Does (C.Starts N.setting) (all_ids N.setting) self result.ways.items result.ear }
        ensures me { result.me ≡ self.me }
        ensures core { result.core ≡ self.past.core }
        ensures notes { Keeps result.notes self.entries self.past.sent }
    {
        let Node {
            me,
            core,
            clock: _,
            steps: _,
            told: _,
            diary,
            ways,
            ear,
        } = self;
        let Diary {
            log: _,
            count: _,
            waiting: _,
            asked: _,
            notes,
        } = diary;
        Parts {
            me,
            core,
            ways,
            ear,
            notes,
        }
    }
}
