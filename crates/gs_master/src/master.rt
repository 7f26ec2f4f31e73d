// The whole master: messages, ticks and checkpoints.
ghost use Rattle.std.specs.Prelude.{◌≡◌, false, not, IfOk};
ghost use Rattle.std.specs.FinMap as fin;
ghost use Rattle.gs_journal.specs.Faults.{armed};
ghost use Rattle.gs_journal.specs.Journal.{Stands};
ghost use Rattle.gs_journal.specs.Records.{standing};
ghost use Rattle.gs_journal.specs.declared.version.Version.TheVariants.{Two};
ghost use Rattle.gs_master.specs.Masters.{MasterAnswers, with_journal};
ghost use Rattle.gs_master.specs.Ticking.{AnswersCheckpoint, AnswersTick};
ghost use Rattle.gs_master_spec.specs.Handling.{handle, proposals};
ghost use Rattle.gs_master_spec.specs.Outcomes.{caller_of};
ghost use Rattle.gs_master_spec.specs.State.{is_failed};
ghost use Rattle.gs_master_spec.specs.Whole.{is_empty};
ghost use Rattle.gs_tree.specs.Build.{rooted_rows, rows_of_entries};

use crate::event::Event;
use crate::turn::{Turn, caller_of};
use gs_base::{Config, Moment, Refusal};
use gs_journal::{Disk, FailingDisk, Fault, Journal};
use gs_msg::Message;
use gs_tree::TreeEntry;
use std::alloc::{AllocError, Global};
use std::marker::Model;

/// The master: the names of the store, where each chunk is, and the journal whose records all of that comes from.
///
/// Once a disk has failed nothing is recorded any more. Until the disks are opened again calls are refused `Device`, but for those that
/// were answered before: the last one of a client gets its reply again, an older one is `Old`.
pub struct Master<D: Disk> {
    pub(crate) config: Config,
    pub(crate) journal: Journal<D>,
    pub(crate) event: Event,
}

impl<D: Disk + Drop> Drop for Master<D> {
    fn drop(self) {
        let Self {
            config: _,
            journal: _,
            event: _,
        } = self;
    }
}

impl<D: Disk> Model for Master<D> {
    ghost use Rattle.gs_master.specs.Finishing.{IsAtRest};
    ghost use Rattle.gs_master.specs.Masters.{MasterOf, IsHeld};
    ghost use Rattle.gs_master.specs.inner.Turns.{state_at};
    ghost use Rattle.std.specs.Coded.{codes};
    ghost use Rattle.std.specs.FinMap as fin;
    ghost use Rattle.gs_base.specs.contracts.numbers.ClientId as clients;
    ghost use Rattle.gs_edit.specs.View.{coded_names};
    ghost use Rattle.gs_master_state.specs.inner.Codes.{coded_volatile};
    ghost use Rattle.gs_master_spec.specs.contracts.asking.Prepared as prepared;
    ghost use Rattle.gs_master_spec.specs.contracts.reply.KeptReply as replies;

    ghost Value = { MasterOf D };

    ghost coded = { Prim.hlevel (codes, D.code, coded_names, coded_volatile, clients.the_row.coded, prepared.the_row.coded, replies.the_row.coded, fin.code) };

    ghost view = { λ m. record { config = m.config; state = state_at m.event; journal = m.journal } };

    ghost invariant = { λ m. IsAtRest m.event × IsHeld D.seen D.may_leave (state_at m.event) m.journal };
}

impl<D: Disk> Master<D> {
    /// Does what a message asks for, at this moment of the master's clock, in seconds. One of a kind that the master doesn't take
    /// is a stray, which it says; whom a message is for isn't looked at.
    ///
    /// A refusal changes nothing: `Memory` where memory is wanting, `Full` where the journal has no room for all that is to be
    /// recorded, `BadLine` where something of it can't be.
    pub fn handle(&mut self, message: Message, moment: Moment) -> Result<Turn, Refusal>
        ensures { MasterAnswers D.seen D.failures (caller_of message.body) (handle self.old.config self.old.state message moment) self.old result self.new }
    {
        let caller = caller_of(&message.body);
        let beginning = self.event.beginning();
        let done = self.event.take(&self.config, message, moment);
        self.event
            .finish(&mut self.journal, beginning, caller, done)
    }

    /// Whether a view is proposed for some chunk. It takes no memory.
    pub fn is_moving(&self) -> bool
        ensures { result ≡ not (is_empty (proposals self.now.state)) }
    {
        let memory = self.event.memory.memory();
        memory.moving.iter().next().is_some()
    }

    /// What stands at each path but the root, hidden names too, in the order of the paths. It costs what is listed.
    pub fn entries(&self, alloc: Global) -> Result<Vec<TreeEntry>, AllocError>
        ensures { IfOk result (λ listed. rooted_rows (rows_of_entries listed.items) ≡ fin.entries self.now.state.durable.names.tree) }
    {
        self.event.recorded.names.entries(alloc)
    }

    /// The disks, the first one first, to open them again. While no disk has failed a crash leaves on them what the journal tells.
    #[tactic(auto, using(crate::proofs::Crashes::stood))]
    pub fn into_disks(self) -> (D, D)
        ensures disks { (result.0 ≡ self.journal.first) × (result.1 ≡ self.journal.second) }
        ensures text { standing (D.seen result.0) (D.seen result.1) ≡ self.journal.text }
        ensures stood { is_failed self.state.fault ≡ false → Stands D.seen D.may_leave self.journal × (self.journal.text.0 ≡ Two) }
    {
        let Self {
            config: _,
            journal,
            event: _,
        } = self;
        journal.into_disks()
    }

    /// A tick of the master's clock, at this moment, in seconds. A view that is proposed is settled by one yes; without a yes the call
    /// that waits for it is refused, and the chunk moves on. Each lease is granted again; and where 4,096 records stand behind the last checkpoint another is written, if nothing
    /// stands against it; where memory is wanting for that it says `Memory`, and all else is done. Once a disk has failed it says `Device` and
    /// does nothing.
    ///
    /// A refusal changes nothing, as in `handle`.
    pub fn tick(&mut self, moment: Moment) -> Result<Turn, Refusal>
        ensures { AnswersTick D.seen D.failures moment self.old result self.new }
    {
        if self.event.fault.is_failed() {
            return Ok(Turn::refused(self.event.alloc, Refusal::Device));
        }
        let beginning = self.event.beginning();
        if let Err(refusal) = self.event.tick(moment) {
            self.event.start_over(beginning);
            return Err(refusal);
        }
        match self.event.due_renewal(&self.journal) {
            Ok(Some(renewal)) => Ok(
                self.event
                    .finish_renewed(&mut self.journal, beginning, renewal),
            ),
            Ok(None) => self
                .event
                .finish(&mut self.journal, beginning, None, Ok(())),
            Err(_) => {
                self.event.lack();
                self.event
                    .finish(&mut self.journal, beginning, None, Ok(()))
            }
        }
    }

    /// Writes a checkpoint, which stands in the place of all records. It says `Device` once a disk has failed, `Preparing` while
    /// an upgrade is prepared, `Exhausted` where no generation of the journal is left, `Full` where a disk has no room for it.
    ///
    /// `Memory` changes nothing.
    pub fn checkpoint(&mut self) -> Result<Turn, Refusal>
        ensures { AnswersCheckpoint D.seen D.failures self.old result self.new }
    {
        let beginning = self.event.beginning();
        match self.event.standing().renewal(&self.journal) {
            Ok(renewal) => Ok(
                self.event
                    .finish_renewed(&mut self.journal, beginning, renewal),
            ),
            Err(refusal) => match refusal {
                Refusal::Memory => Err(refusal),
                _ => Ok(Turn::refused(self.event.alloc, refusal)),
            },
        }
    }
}

impl<D: Disk> Master<FailingDisk<D>> {
    /// Gives the first disk of the journal a fault in place of the one that it has.
    pub fn arm_first(&mut self, fault: Fault)
        ensures { self.new ≡ with_journal self.old (record self.old.journal { first = armed self.old.journal.first fault }) }
    {
        self.journal.arm_first(fault);
    }

    /// Gives the second disk of the journal a fault in place of the one that it has.
    pub fn arm_second(&mut self, fault: Fault)
        ensures { self.new ≡ with_journal self.old (record self.old.journal { second = armed self.old.journal.second fault }) }
    {
        self.journal.arm_second(fault);
    }
}
