ghost use Rattle.std.specs.Prelude.{◌≡◌, ◌⊎◌, false, IfOk, IfErr};
ghost use Rattle.gs_base.specs.declared.refusal.Refusal.TheVariants as refusals;
ghost use Rattle.gs_msg.specs.Nodes.{as_node};
ghost use Rattle.gs_world.specs.Crashing.{SurvivesEvent, leaves_of, left_of, moment_of};
ghost use Rattle.gs_world.specs.Histories.{arms, AtNode, Begins, DeliversAt, IsOutcome, Tells, failures_of, history_of, is_ask, seen_of, told};
ghost use Rattle.gs_world.specs.Runs.{AreOutcomes, HappensAll, TakesReply, all_said};
ghost use Rattle.gs_world.specs.Beginning.{new_disks};
ghost use Rattle.gs_world.specs.Sent.{Forgets};
ghost use Rattle.gs_journal.specs.Memory.{bytes_of, times_failed};
ghost use Rattle.gs_nodes.specs.Crashing.{SurvivesAt, SurvivesUnopened};
ghost use Rattle.gs_nodes.specs.Happenings.{Delivers, WhyNotBegun};
ghost use Rattle.gs_nodes.specs.NewDisks.{OverEmpty};
ghost use Rattle.gs_nodes.specs.Nodes.{nodes_of};

use crate::happening::{ask, beat, damage, fail_disk, lose, restart, tick};
use crate::outcome::Outcome;
use crate::posts::{Posts, same};
use gs_base::{ClientId, Config, Moment, Refusal};
use gs_client::Reply;
use gs_journal::{Disk, FailingDisk, Fault, MemoryDisk, Unopened};
use gs_msg::{Event, Happening, Message, MsgId, NodeId, StoreNode};
use gs_nodes::{Nodes, Turn, empty_disks};
use std::alloc::{AllocError, Global};

/// The nodes of a store, and all that they have sent: each message stays to be delivered, once, often or never, until it is
/// forgotten. The disks of the master's journal can be made to fail.
pub struct World<D: Disk> {
    pub nodes: Nodes<FailingDisk<D>>,
    pub sent: Posts,
}

impl<D: Disk + Drop> Drop for World<D> {
    fn drop(self) {
        let Self { nodes: _, sent: _ } = self;
    }
}

fn named(node: &StoreNode) -> NodeId
    ensures { result ≡ as_node node.now }
{
    NodeId::from(*node)
}

fn receiver(message: &Message) -> NodeId
    ensures { result ≡ message.now.to }
{
    message.to
}

impl World<MemoryDisk> {
    /// A new store with one client, who has asked nothing. The disks of its master's journal are in memory, with nothing on them, and none
    /// is to fail. It is refused only where memory is wanting, which a disk says by `Device`, and never for its configuration.
    pub fn new(alloc: Global, config: Config) -> Result<World<MemoryDisk>, Refusal>
        ensures begins { IfOk result (λ world. OverEmpty (λ disks. Begins (seen_of bytes_of) (failures_of times_failed) arms config 1 (new_disks disks) (history_of world))) }
        ensures refused { IfErr result (λ refusal. (refusal ≡ refusals.Memory) ⊎ (refusal ≡ refusals.Device)) }
    {
        let (first, second) = empty_disks(alloc);
        let first = FailingDisk::new(first, Fault::Never);
        let second = FailingDisk::new(second, Fault::Never);
        match World::over(alloc, config, 1, (first, second)) {
            Ok(world) => Ok(world),
            Err(unopened) => Err(unopened.refusal),
        }
    }
}

impl<D: Disk + Drop> World<D> {
    /// A store over the disks of a journal, with so many clients, none of which has asked anything; what the master sends at first
    /// is sent. New disks are those of a new store. Where memory is wanting, or the disks can't be opened, they are handed back.
    pub fn over(
        alloc: Global,
        config: Config,
        clients: u32,
        disks: (FailingDisk<D>, FailingDisk<D>),
    ) -> Result<World<D>, Unopened<FailingDisk<D>>>
        ensures begins { IfOk result (λ run. Begins (seen_of D.seen) (failures_of D.failures) arms config clients disks (history_of run)) }
        ensures refused { IfErr result (WhyNotBegun (seen_of D.seen) (failures_of D.failures) config disks) }
        ensures survives { IfOk result (λ run. SurvivesAt (seen_of D.seen) (leaves_of D.may_leave) (moment_of D.moment) (left_of D.left_since) disks run.nodes.master) }
        ensures survives_refused { IfErr result (λ u. SurvivesUnopened (seen_of D.seen) (leaves_of D.may_leave) (moment_of D.moment) (left_of D.left_since) disks u.first u.second) }
    {
        let (first, second) = disks;
        let Ok(mut sent) = Posts::new(alloc, config.servers, u64::from(clients)) else {
            return Err(Unopened {
                refusal: Refusal::Memory,
                first,
                second,
            });
        };
        let (nodes, turn) = Nodes::new(alloc, config, clients, (first, second))?;
        sent.post(Moment(0), NodeId::Master, turn.sent);
        Ok(World { nodes, sent })
    }

    fn hand(&mut self, moment: Moment, message: Message) -> (NodeId, Result<Turn, Refusal>)
        ensures sent { self.new.sent ≡ self.old.sent }
        ensures to { result.0 ≡ message.to }
        ensures comes { Delivers (seen_of D.seen) (failures_of D.failures) message moment (nodes_of self.old.nodes) result.1 (nodes_of self.new.nodes) }
    {
        let to = receiver(&message);
        let done = self.nodes.deliver(message, moment);
        (to, done)
    }

    /// A message that was sent comes to its receiver.
    fn deliver(
        &mut self,
        moment: Moment,
        sender: NodeId,
        place: u64,
    ) -> (NodeId, Result<Turn, Refusal>)
        ensures sent { self.new.sent ≡ self.old.sent }
        ensures comes { DeliversAt (seen_of D.seen) (failures_of D.failures) arms moment (record { sender = sender; place = place }) (history_of self.old) result.0 (told result.1) (nodes_of self.new.nodes) }
    {
        let by = same(&sender);
        match self.sent.copied(self.nodes.alloc, sender, place) {
            Ok(message) => self.hand(moment, message),
            Err(refusal) => (by, Err(refusal)),
        }
    }

    /// What an event is at its node, and which that is, where it isn't a client that asks.
    fn at_store(&mut self, moment: Moment, happening: &Happening) -> (NodeId, Result<Turn, Refusal>)
        requires { is_ask happening.now ≡ false }
        ensures sent { self.new.sent ≡ self.old.sent }
        ensures at { AtNode (seen_of D.seen) (failures_of D.failures) arms moment happening.now (history_of self.old) result.0 (told result.1) (nodes_of self.new.nodes) }
        ensures survives { SurvivesEvent (seen_of D.seen) (leaves_of D.may_leave) (moment_of D.moment) (left_of D.left_since) happening.now self.old.nodes.master self.new.nodes.master }
    {
        match happening {
            Happening::Ask { .. } => unreachable!(),
            Happening::Deliver(id) => self.deliver(moment, id.sender, id.place),
            Happening::Tick(node) => {
                let done = tick(&mut self.nodes, moment, *node);
                (named(node), done)
            }
            Happening::Beat(server) => {
                let done = beat(&self.nodes, *server);
                (NodeId::Server(*server), done)
            }
            Happening::Restart(node) => {
                let done = restart(&mut self.nodes, *node);
                (named(node), done)
            }
            Happening::Lose { server, handle } => {
                let done = lose(&mut self.nodes, *server, *handle);
                (NodeId::Server(*server), done)
            }
            Happening::Damage {
                server,
                handle,
                block,
            } => {
                let done = damage(&mut self.nodes, *server, *handle, *block);
                (NodeId::Server(*server), done)
            }
            Happening::FailDisk { disk, call } => {
                let done = fail_disk(&mut self.nodes, *disk, *call);
                (NodeId::Master, done)
            }
        }
    }

    /// What an event is at its node, and which that is.
    fn at_node(&mut self, moment: Moment, happening: Happening) -> (NodeId, Result<Turn, Refusal>)
        ensures sent { self.new.sent ≡ self.old.sent }
        ensures at { AtNode (seen_of D.seen) (failures_of D.failures) arms moment happening (history_of self.old) result.0 (told result.1) (nodes_of self.new.nodes) }
        ensures survives { SurvivesEvent (seen_of D.seen) (leaves_of D.may_leave) (moment_of D.moment) (left_of D.left_since) happening self.old.nodes.master self.new.nodes.master }
    {
        match happening {
            Happening::Ask { req, request } => {
                let by = NodeId::Client(req.client);
                let done = ask(&mut self.nodes, req, request);
                (by, done)
            }
            other => self.at_store(moment, &other),
        }
    }

    /// What a node sends at an event stands behind what it has sent. The answer is what was said.
    fn tell(
        &mut self,
        moment: Moment,
        by: NodeId,
        done: Result<Turn, Refusal>,
    ) -> Result<(), Refusal>
        ensures nodes { self.new.nodes ≡ self.old.nodes }
        ensures tells { Tells (seen_of D.seen) (failures_of D.failures) arms moment by (told done) self.old.sent result self.new.sent }
    {
        let Turn { sent, said } = done?;
        self.sent.post(moment, by, sent);
        match said {
            Some(refusal) => Err(refusal),
            None => Ok(()),
        }
    }

    /// One event: one node does what its own contract says, what it sends stands behind what it has sent, and every other node is as it
    /// was. What is told of it says which node that was, the refusal with which the event was met, if it was, and the ids of what was sent.
    ///
    /// Where the refusal is `Memory`, the node is as it was, but for a tick of the master, which may have done all but write a checkpoint, and
    /// for a restart of the master, behind which its disks wait. A message for which memory is wanting is lost. A message that was never
    /// sent, or is forgotten, is `Range`, and so is a node of which there is none. What a crash leaves is said of a restart of the master alone.
    pub fn step(&mut self, event: Event) -> Outcome
        ensures outcome { IsOutcome (seen_of D.seen) (failures_of D.failures) arms event (history_of self.old) result (history_of self.new) }
        ensures survives { SurvivesEvent (seen_of D.seen) (leaves_of D.may_leave) (moment_of D.moment) (left_of D.left_since) event.happening self.old.nodes.master self.new.nodes.master }
    {
        let Event { moment, happening } = event;
        let (by, done) = self.at_node(moment, happening);
        let before = same(&by);
        let sender = same(&by);
        let behind = same(&by);
        let first = self.sent.count(before);
        let said = self.tell(moment, sender, done);
        let end = self.sent.count(behind);
        Outcome {
            by,
            said,
            first,
            end,
        }
    }

    /// One event after the other, and what is told of each. If there is no memory for that list, nothing happens. Say a store began over
    /// disks that said nothing, is asked within its types, and different blocks have different digests. Then this holds over the run,
    /// whatever disks of the master fail: an accepted rollback gives back what stood at its prepare
    /// (`a_rollback_gives_back_names_and_bytes` of `gs_laws_chunks`), edits that were told done stay (`done_edits_stay`), and reads are of
    /// what was written (`reads_are_legal`). It is a run of the plain machine (`a_run_is_a_run_of_the_plain_machine` of `gs_laws_runs`), which a
    /// rollback leads back to what it showed at the prepare (`a_rollback_shows_what_its_prepare_showed`), and a request that was refused
    /// makes no edit later (`a_request_that_is_over_makes_no_edit_in_a_run`).
    pub fn run(&mut self, events: Vec<Event>) -> Result<Vec<Outcome>, AllocError>
        ensures ok { IfOk result (λ outcomes. AreOutcomes (seen_of D.seen) (failures_of D.failures) arms events.items outcomes.items (history_of self.old) (history_of self.new)) }
        ensures happens { IfOk result (λ outcomes. HappensAll (seen_of D.seen) (failures_of D.failures) arms events.items (all_said outcomes.items) (history_of self.old) (history_of self.new)) }
        ensures err { IfErr result (λ e. self.new ≡ self.old) }
    {
        let mut outcomes = Vec::with_capacity(self.nodes.alloc, events.len())?;
        for event in events {
            let met = self.step(event);
            outcomes.push(met).unwrap();
        }
        Ok(outcomes)
    }

    /// What has come back to a client since it asked, if something has. It is given once.
    pub fn take_reply(&mut self, client: ClientId) -> Option<Reply>
        ensures nodes { TakesReply client (nodes_of self.old.nodes) result (nodes_of self.new.nodes) }
        ensures sent { self.new.sent ≡ self.old.sent }
    {
        self.nodes.take_reply(client)
    }

    /// Gives a message up: it can't be delivered any more, and its memory is free. It is no event, and the laws of runs speak of
    /// those in which none is given up.
    pub fn forget(&mut self, id: MsgId)
        ensures nodes { self.new.nodes ≡ self.old.nodes }
        ensures sent { Forgets id self.old.sent self.new.sent }
    {
        self.sent.forget(id.sender, id.place);
    }
}
