// The master that an open journal tells, and as its disks tell it.
ghost use Rattle.std.specs.Prelude.{◌≡◌, ◌≤◌, ◌⊎◌, IfErr, IfOk, IfSome, List, map, ℕ};
ghost use Rattle.gs_master_guard.specs.Reading.{AreRecordsOf};
ghost use Rattle.gs_journal_disk.specs.Disk.{LeavesPairs};
ghost use Rattle.gs_journal.specs.Journal.{Stands};
ghost use Rattle.gs_journal.specs.Records.{generation_standing, standing};
ghost use Rattle.gs_journal.specs.declared.version.Version.TheVariants.{One};
ghost use Rattle.gs_master.specs.Crashing.{IsStillOrAnew, MightTell, SurvivesOpening, SurvivesRefusal};
ghost use Rattle.gs_master.specs.Journaled.{IsLogOf};
ghost use Rattle.gs_master.specs.Recovering.{IsRestarted, log_behind_last, Recovers, Rests, Updates, WritesAnew};
ghost use Rattle.gs_master.specs.Starting.{IsOpened, WhyUnopened};
ghost use Rattle.gs_master.specs.inner.Renewing.{LeavesAnew};
ghost use Rattle.gs_master.specs.inner.StartingOver.{IsBegun};
ghost use Rattle.gs_master.specs.inner.Turns.{IsUnderWay};
ghost use Rattle.gs_master_record.specs.Plain.{plain};
ghost use Rattle.gs_master_spec.specs.Handling.{told_again};
ghost use Rattle.gs_master_state.specs.inner.Plans.{log_of};
ghost use Rattle.gs_master_state.specs.inner.Recorded.{durable_of};

use crate::event::Event;
use crate::master::Master;
use gs_base::{Config, EpochEnd, Refusal};
use gs_journal::promises::a_checkpoint_behind_a_reading_is_whole;
use gs_journal::{Disk, Journal, Unopened, Version};
use gs_master_guard::reading::read_entries;
use gs_master_guard::telling::tell_all;
use gs_master_record::{Entry, Phase};
use gs_master_state::fault::Fault;
use gs_master_state::log::Log;
use gs_master_state::recorded::Recorded;
use gs_master_state::restart::records_behind;
use gs_master_state::tracked::Tracked;
use gs_msg::Message;
use std::alloc::{AllocError, Global};
use std::mem;

/// A master whose disks are opened, and what it sends first: while it rolls back, every server is told again.
#[derive(Drop)]
pub struct Started<D: Disk> {
    pub master: Master<D>,
    pub sent: Vec<Message>,
}

impl Event {
    /// The master as a restart leaves it, where an event begins: nothing is asked, nobody waits.
    pub fn restarted(alloc: Global, recorded: Recorded, log: Log) -> Result<Event, AllocError>
        requires { log.records ≤ log.size }
        ensures { IfOk result (IsRestarted (durable_of recorded) (log_of log)) }
    {
        let taken_out = recorded.unlisted()?;
        Ok(Event {
            alloc,
            recorded,
            undos: Vec::new(alloc),
            memory: Tracked::new(alloc, taken_out),
            log,
            fault: Fault::Sound,
            entries: Vec::new(alloc),
            written: Vec::new(alloc),
            sent: Vec::new(alloc),
            said: None,
            held_up_by: None,
        })
    }
}

/// The room of a journal with these entries. `None` only where no number of 64 bits tells it.
fn counted_log<D: Disk>(journal: &Journal<D>, entries: &[Entry]) -> Option<Log>
    requires stands { Stands D.seen D.may_leave journal.now }
    requires records { AreRecordsOf journal.now.text.0 journal.now.text.1 (map plain entries.now) }
    ensures room { IfSome result (λ log. log_of log ≡ log_behind_last journal.now (map plain entries.now)) }
    ensures counted { IfSome result (λ log. log.records ≤ log.size) }
{
    let Some(size) = journal.size() else {
        return None;
    };
    let records = records_behind(entries);
    let limit = u64::from(journal.limit());
    let generation = journal.generation();
    Some(Log {
        records,
        size,
        limit,
        generation,
    })
}

/// What every server is told again where a rollback was begun and not done.
fn told_again(
    alloc: Global,
    config: &Config,
    recorded: &Recorded,
) -> Result<Vec<Message>, AllocError>
    ensures { IfOk result (λ sent. sent.items ≡ told_again config.now (durable_of recorded.now)) }
{
    match recorded.phase {
        Phase::Ordinary | Phase::Upgrade => Ok(Vec::new(alloc)),
        Phase::Rolling => tell_all(alloc, config, recorded.epoch, EpochEnd::Rollback),
    }
}

/// The master as a restart leaves it behind these entries. `BadLine` where one doesn't fit what it meets.
fn rested<D: Disk>(alloc: Global, journal: &Journal<D>, entries: &[Entry]) -> Result<Event, Refusal>
    requires stands { Stands D.seen D.may_leave journal.now }
    requires records { AreRecordsOf journal.now.text.0 journal.now.text.1 (map plain entries.now) }
    ensures { Rests journal.now (map plain entries.now) result }
{
    let Some(log) = counted_log(journal, entries) else {
        return Err(Refusal::Memory);
    };
    match Recorded::replayed(alloc, entries) {
        Ok(recorded) => Ok(Event::restarted(alloc, recorded, log)?),
        Err(refusal) => Err(refusal),
    }
}

impl Event {
    /// Writes a checkpoint of what stands in the place of a journal of version 1.
    fn write_anew<D: Disk>(&mut self, journal: &mut Journal<D>) -> Result<(), Refusal>
        requires begun { IsBegun self.old }
        requires ready { IsUnderWay self.old }
        requires log { IsLogOf (log_of self.old.log) journal.old }
        ensures written { WritesAnew D.seen D.may_leave D.failures self.old journal.old result self.new journal.new }
        ensures crash { LeavesAnew D.seen D.moment D.left_since (durable_of self.old.recorded) journal.old journal.new }
    {
        let renewal = match self.standing().renewal(journal) {
            Ok(renewal) => renewal,
            Err(refusal) => return Err(refusal),
        };
        let first = self.log;
        self.end_renewed(journal, first, renewal);
        if self.said.is_some() {
            return Err(Refusal::Device);
        }
        Ok(())
    }

    /// Writes a journal of version 1 anew, as a checkpoint of version 2. One of version 2 stays.
    fn update<D: Disk>(&mut self, journal: &mut Journal<D>, version: Version) -> Result<(), Refusal>
        requires begun { IsBegun self.old }
        requires ready { IsUnderWay self.old }
        requires log { IsLogOf (log_of self.old.log) journal.old }
        ensures updated { Updates D.seen D.may_leave D.failures version self.old journal.old result self.new journal.new }
        ensures crash { (journal.new ≡ journal.old) ⊎ ((version ≡ One) × LeavesAnew D.seen D.moment D.left_since (durable_of self.old.recorded) journal.old journal.new) }
    {
        match version {
            Version::One => self.write_anew(journal),
            Version::Two => Ok(()),
        }
    }

    /// The master that an open journal tells, with what it sends first. Memory is taken before anything is written.
    pub fn recover<D: Disk>(
        alloc: Global,
        config: &Config,
        journal: &mut Journal<D>,
    ) -> Result<Event, Refusal>
        requires stands { Stands D.seen D.may_leave journal.old }
        ensures recovered { Recovers D.seen D.may_leave D.failures config.now journal.old journal.new result }
        ensures crash { LeavesPairs D.moment D.left_since journal.old.first journal.old.second journal.new.first journal.new.second (IsStillOrAnew journal.old.text journal.old.generation) }
    {
        let Ok(version) = journal.version() else {
            return Err(Refusal::Device);
        };
        let records = match journal.records(alloc) {
            Ok(records) => records,
            Err(refusal) => return Err(refusal),
        };
        let entries = match read_entries(alloc, version, &records) {
            Ok(entries) => entries,
            Err(refusal) => return Err(refusal),
        };
        let mut event = match rested(alloc, journal, &entries) {
            Ok(event) => event,
            Err(refusal) => return Err(refusal),
        };
        let Ok(sent) = told_again(alloc, config, &event.recorded) else {
            return Err(Refusal::Memory);
        };
        a_checkpoint_behind_a_reading_is_whole::<D>();
        match event.update(journal, version) {
            Ok(()) => {
                event.sent = sent;
                Ok(event)
            },
            Err(refusal) => Err(refusal),
        }
    }
}

impl<D: Disk> Master<D> {
    /// Opens the two disks of a journal, whatever a crash or a failure left on them: the master is what its records tell. New
    /// disks are those of a new store. Nothing is written past `limit` bytes of a disk. A journal of the first version is written anew in
    /// the second.
    ///
    /// The refusal is `BadLine` where the records aren't those of a store, `Device` where a disk fails, `Memory` where memory is
    /// wanting, and where a journal of the first version can't be written anew `Exhausted` or `Full`. The disks are handed back.
    /// They say what they said, or the checkpoint of that, if a disk failed while the first version was written anew.
    pub fn open(
        alloc: Global,
        config: Config,
        first: D,
        second: D,
        limit: u32,
    ) -> Result<Started<D>, Unopened<D>>
        ensures opened { IfOk result (λ started. IsOpened D.seen D.failures config first second (standing (D.seen first) (D.seen second)) limit started.master started.sent.items) }
        ensures refused { IfErr result (WhyUnopened D.seen D.failures config limit first second) }
        // A crash at any moment of the call leaves what one just before it might have left, or what is told then, or the checkpoint
        // of that.
        ensures any_moment { IfOk result (λ started. SurvivesOpening D.may_leave D.moment D.left_since (standing (D.seen first) (D.seen second)) (generation_standing (D.seen first) (D.seen second))
            first second started.master.journal.first started.master.journal.second) }
        ensures any_moment_refused { IfErr result (λ u. SurvivesRefusal D.may_leave D.moment D.left_since (standing (D.seen first) (D.seen second)) (generation_standing (D.seen first) (D.seen second))
            first second u.first u.second) }
        // So does one behind it.
        ensures stands { IfOk result (λ started. Stands D.seen D.may_leave started.master.journal) }
        ensures lasts { IfErr result (λ u. (a b : List ℕ) → D.may_leave u.first a → D.may_leave u.second b
            → MightTell (D.may_leave first) (D.may_leave second) (standing a b)) }
    {
        let mut journal = match Journal::open(alloc, first, second, limit) {
            Ok(journal) => journal,
            Err(unopened) => return Err(unopened),
        };
        match Event::recover(alloc, &config, &mut journal) {
            Ok(mut event) => {
                let sent = mem::replace(&mut event.sent, Vec::new(alloc));
                let master = Master {
                    config,
                    journal,
                    event,
                };
                Ok(Started { master, sent })
            }
            Err(refusal) => {
                let (first, second) = journal.into_disks();
                Err(Unopened {
                    refusal,
                    first,
                    second,
                })
            }
        }
    }
}
