// An event at the master, step by step: its plans are carried out, and it may be begun anew.
ghost use Rattle.std.specs.Prelude.{[], ◌++◌, ◌<◌, ◌∷◌, ◌≡◌, ◌≢◌, ◌≤◌, Err, false, IfErr, IfOk, map, Ok, OnOk, Some, true, vec_capacity, vec_len};
ghost use Rattle.std.specs.List.{list_any};
ghost use Rattle.std.specs.Ordering.{nat_cmp};
ghost use Rattle.gs_base.specs.declared.numbers.ReqId.{ReqId};
ghost use Rattle.gs_edit.specs.declared.edit.Edit.{Edit};
ghost use Rattle.gs_journal.specs.Journal.{record_size};
ghost use Rattle.gs_journal.specs.declared.version.Version.TheVariants.{Two};
ghost use Rattle.gs_master.specs.inner.Events.{Enters, EntersEdit, HasPlaces, IsAppliedOrNot, IsEncoded, KeepsBack, log_behind, Makes};
ghost use Rattle.gs_master.specs.inner.StartingOver.{BeginsAt, StartsOver};
ghost use Rattle.gs_master.specs.inner.Turns.{ComesWithOthers, EntersAll, GoesBack, IsUnderWay, state_at, EventSteps};
ghost use Rattle.gs_master_plan.specs.inner.Planning.{state_of};
ghost use Rattle.gs_master_record.specs.Encoding.{encoded};
ghost use Rattle.gs_master_record.specs.Plain.{plain};
ghost use Rattle.gs_master_spec.specs.Applied.{is_whole_entry};
ghost use Rattle.gs_master_state.specs.inner.Plans.{log_of, plan_of};
ghost use Rattle.gs_master_state.specs.inner.Recorded.{durable_of};
ghost use Rattle.gs_master_state.specs.inner.Reversing.{AreBack};
ghost use Rattle.gs_master_spec.specs.State.{first_said, fits, turned};
ghost use Rattle.gs_master_state.specs.inner.TakingBack.{all_leases_before, comes_alone, RoomForAll, StillTakeBack};
ghost use Rattle.gs_master_spec.specs.Volatile.{all_changed};
ghost use Rattle.gs_base_table.specs.Slots.{live};

use gs_base::{Refusal, ReqId};
use gs_edit::{Edit, Names};
use gs_journal::Record;
use gs_master_guard::room::has_room;
use gs_master_plan::standing::Standing;
use gs_master_record::Entry;
use gs_master_spec::change::Change;
use gs_master_state::fault::Fault;
use gs_master_state::log::Log;
use gs_master_state::plan::Plan;
use gs_master_state::recorded::Recorded;
use gs_master_state::tracked::Tracked;
use gs_master_state::undo::Undo;
use gs_msg::Message;
use gs_path::Path;
use std::alloc::{AllocError, Global};

/// The master while an event lasts: what it is now, what is to be written and sent, and what takes all of it back.
pub(crate) struct Event {
    pub(crate) alloc: Global,
    pub(crate) recorded: Recorded,
    pub(crate) undos: Vec<Undo>,
    pub(crate) memory: Tracked,
    pub(crate) log: Log,
    pub(crate) fault: Fault,
    /// Its records, in their order, and as they are to be written.
    pub(crate) entries: Vec<Entry>,
    pub(crate) written: Vec<Record>,
    pub(crate) sent: Vec<Message>,
    pub(crate) said: Option<Refusal>,
    /// The file that was last found to hold a snapshot up. It may do so no more.
    pub(crate) held_up_by: Option<Path>,
}

impl Drop for Event {
    fn drop(self) {
        let Self {
            alloc: _,
            recorded: _,
            undos: _,
            memory: _,
            log: _,
            fault: _,
            entries: _,
            written: _,
            sent: _,
            said: _,
            held_up_by: _,
        } = self;
    }
}

/// Where an event began: the journal's room, and how many messages were to be sent.
#[derive(Clone, Copy)]
pub(crate) struct Beginning {
    log: Log,
    sent: usize,
}

/// How many bytes a record takes in the journal.
pub(crate) fn size_of(encoded: &Record) -> u64
    ensures { result ≡ record_size encoded.now }
{
    encoded.body().len() as u64 + 6
}

/// The edit of a record that wasn't entered, unless it was want of memory that stood against it.
fn handed_back(entry: Entry, why: Refusal) -> Result<Option<Edit>, Refusal>
    ensures memory { why ≡ Refusal.Memory → result ≡ Err Refusal.Memory }
    ensures edit { (by : ReqId) (edit : Edit) → why ≢ Refusal.Memory → entry ≡ Entry.Edit by edit → result ≡ Ok (Some edit) }
{
    if let Refusal::Memory = why {
        return Err(Refusal::Memory);
    }
    match entry {
        Entry::Edit { by: _, edit } => Ok(Some(edit)),
        _ => Ok(None),
    }
}

impl Event {
    /// Makes room for one record more among those that are to be written.
    fn grow(&mut self) -> Result<(), AllocError>
        ensures undos { self.new.undos.items ≡ self.old.undos.items }
        ensures entries { self.new.entries.items ≡ self.old.entries.items }
        ensures written { self.new.written.items ≡ self.old.written.items }
        ensures others { self.new ≡ record self.old { undos = self.new.undos; entries = self.new.entries; written = self.new.written } }
        ensures place { OnOk result (HasPlaces self.new) }
    {
        self.undos.reserve(1)?;
        self.entries.reserve(1)?;
        self.written.reserve(1)?;
        Ok(())
    }

    /// Applies a record for which the lists have room. `BadLine` where it doesn't fit. What takes it back stands behind the others.
    /// The names to which a rollback leads may be given.
    fn apply(&mut self, entry: &Entry, back: Option<Names>) -> Result<(), Refusal>
        requires alone { comes_alone (plain entry.now) ≡ false }
        requires given { AreBack (durable_of self.old.recorded) back }
        requires room { RoomForAll self.old.recorded self.old.undos.items }
        requires places { HasPlaces self.old }
        ensures applied { IsAppliedOrNot (plain entry.now) self.old result self.new }
        ensures back { StillTakeBack self.old.undos.items (durable_of self.old.recorded) self.new.undos.items (durable_of self.new.recorded) }
        ensures leases { all_leases_before self.new.undos.items (live nat_cmp self.new.recorded.leases) ≡ all_leases_before self.old.undos.items (live nat_cmp self.old.recorded.leases) }
        ensures room { RoomForAll self.new.recorded self.new.undos.items }
        ensures others { self.new ≡ record self.old { recorded = self.new.recorded; undos = self.new.undos } }
    {
        let inverse = self.recorded.inverse_for(entry)?;
        self.recorded
            .enter_behind(&mut self.undos, entry, inverse, back)
    }

    /// A record that was applied is to be written. There is room for it.
    fn keep(&mut self, entry: Entry, bytes: Record)
        requires entries { vec_len self.old.entries < vec_capacity self.old.entries }
        requires written { vec_len self.old.written < vec_capacity self.old.written }
        requires room { fits (log_of self.old.log) (plain entry ∷ []) ≡ true }
        requires counted { self.old.log.records ≤ self.old.log.size }
        requires encoded { bytes ≡ encoded Two (plain entry) }
        ensures entries { self.new.entries.items ≡ self.old.entries.items ++ entry ∷ [] }
        ensures written { self.new.written.items ≡ self.old.written.items ++ bytes ∷ [] }
        ensures log { log_of self.new.log ≡ log_behind (log_of self.old.log) (plain entry) }
        ensures counted { self.new.log.records ≤ self.new.log.size }
        ensures others { self.new ≡ record self.old { log = self.new.log; entries = self.new.entries; written = self.new.written } }
    {
        self.log.add(size_of(&bytes));
        self.entries.push_reserved(entry);
        self.written.push_reserved(bytes);
    }

    /// The record of an entry, if the journal has room for it.
    fn encoded(&self, entry: &Entry) -> Result<Record, Refusal>
        ensures { IsEncoded (plain entry.now) self.now result }
    {
        let encoded = entry.encode(self.alloc)?;
        if !self.log.has_room(size_of(&encoded)) {
            return Err(Refusal::Full);
        }
        Ok(encoded)
    }

    /// Makes room for a record, applies it, and answers it as it is to be written. `Full` where the journal has no room for it,
    /// `BadLine` where it doesn't fit or can't be written. A refusal may leave room that was made, and a copy of the names that
    /// stands by, and changes nothing else. The names to which a rollback leads may be given.
    fn make(&mut self, entry: &Entry, back: Option<Names>) -> Result<Record, Refusal>
        requires alone { comes_alone (plain entry.now) ≡ false }
        requires given { AreBack (durable_of self.old.recorded) back }
        requires room { RoomForAll self.old.recorded self.old.undos.items }
        ensures made { Makes (plain entry.now) self.old result self.new }
        ensures back { StillTakeBack self.old.undos.items (durable_of self.old.recorded) self.new.undos.items (durable_of self.new.recorded) }
        ensures leases { all_leases_before self.new.undos.items (live nat_cmp self.new.recorded.leases) ≡ all_leases_before self.old.undos.items (live nat_cmp self.old.recorded.leases) }
        ensures room { RoomForAll self.new.recorded self.new.undos.items }
        ensures lists { (self.new.entries.items ≡ self.old.entries.items) × (self.new.written.items ≡ self.old.written.items) }
        ensures places { OnOk result ((vec_len self.new.entries < vec_capacity self.new.entries) × (vec_len self.new.written < vec_capacity self.new.written)) }
        ensures others { self.new ≡ record self.old { recorded = self.new.recorded; undos = self.new.undos; entries = self.new.entries; written = self.new.written } }
    {
        let bytes = self.encoded(entry)?;
        self.grow()?;
        self.apply(entry, back)?;
        Ok(bytes)
    }

    /// Applies a record that may come with others, and keeps it to be written. `Full` where the journal has no room for it,
    /// `BadLine` where it doesn't fit or can't be written. A refusal may leave room that was made. The names to which a rollback
    /// leads may be given: then the record of its end copies none.
    pub fn enter(&mut self, entry: Entry, back: Option<Names>) -> Result<(), Refusal>
        requires alone { comes_alone (plain entry) ≡ false }
        requires given { AreBack (durable_of self.old.recorded) back }
        requires room { RoomForAll self.old.recorded self.old.undos.items }
        requires counted { self.old.log.records ≤ self.old.log.size }
        ensures entered { Enters (plain entry) self.old result self.new }
        ensures back { KeepsBack self.old self.new }
        ensures room { RoomForAll self.new.recorded self.new.undos.items }
        ensures counted { self.new.log.records ≤ self.new.log.size }
        ensures others { (self.new.memory ≡ self.old.memory) × (self.new.sent ≡ self.old.sent) × (self.new.said ≡ self.old.said) × (self.new.fault ≡ self.old.fault) }
    {
        let bytes = self.make(&entry, back)?;
        self.keep(entry, bytes);
        Ok(())
    }

    /// The same of an edit. Where the journal has no room for it, or it doesn't fit or can't be written, it is handed back and
    /// nothing was done. Want of memory alone is a refusal.
    pub fn enter_edit(&mut self, by: ReqId, edit: Edit) -> Result<Option<Edit>, Refusal>
        requires ready { IsUnderWay self.old }
        ensures entered { EntersEdit by edit self.old result self.new }
        ensures back { KeepsBack self.old self.new }
        ensures room { RoomForAll self.new.recorded self.new.undos.items }
        ensures counted { self.new.log.records ≤ self.new.log.size }
        ensures others { (self.new.memory ≡ self.old.memory) × (self.new.sent ≡ self.old.sent) × (self.new.said ≡ self.old.said) × (self.new.fault ≡ self.old.fault) }
    {
        let entry = Entry::Edit { by, edit };
        let bytes = match self.make(&entry, None) {
            Ok(bytes) => bytes,
            Err(why) => return handed_back(entry, why),
        };
        self.keep(entry, bytes);
        Ok(None)
    }

    /// The master as the event has left it so far.
    pub fn standing(&self) -> Standing<'_>
        ensures { state_of result ≡ state_at self.now }
    {
        Standing {
            recorded: &self.recorded,
            memory: self.memory.memory(),
            log: self.log,
            fault: &self.fault,
        }
    }

    /// Whether the journal has room for these records. None is a checkpoint.
    pub fn fits(&self, records: &[Entry]) -> Result<bool, AllocError>
        requires { list_any is_whole_entry (map plain records.now) ≡ false }
        ensures { IfOk result (λ has_room. has_room ≡ fits (log_of self.now.log) (map plain records.now)) }
    {
        has_room(self.log, self.alloc, records)
    }

    /// Enters records, one after the other. Where the first ends a rollback, the names to which that leads may be given.
    fn enter_all(&mut self, records: Vec<Entry>, mut back: Option<Names>) -> Result<(), Refusal>
        requires alone { list_any comes_alone (map plain records.items) ≡ false }
        requires given { AreBack (durable_of self.old.recorded) back }
        requires ready { IsUnderWay self.old }
        ensures entered { EntersAll (map plain records.items) self.old result self.new }
        ensures back { GoesBack self.old self.new }
        ensures others { (self.new.memory ≡ self.old.memory) × (self.new.sent ≡ self.old.sent) × (self.new.said ≡ self.old.said) }
    {
        if records.is_empty() {
            return Ok(());
        }
        for entry in records {
            self.enter(entry, back.take())?;
        }
        Ok(())
    }

    /// Makes changes, one after the other.
    fn change_all(&mut self, changes: Vec<Change>) -> Result<(), AllocError>
        requires ready { IsUnderWay self.old }
        ensures changed { OnOk result (self.new.memory.now ≡ all_changed self.old.memory.now changes.items) }
        ensures before { self.new.memory.before ≡ self.old.memory.before }
        ensures back { GoesBack self.old self.new }
        ensures others { self.new ≡ record self.old { memory = self.new.memory } }
    {
        if changes.is_empty() {
            return Ok(());
        }
        for change in changes {
            self.memory.change(change)?;
        }
        Ok(())
    }

    /// Keeps messages to be sent behind the others.
    fn send_all(&mut self, messages: Vec<Message>) -> Result<(), AllocError>
        ensures sent { OnOk result (self.new.sent.items ≡ self.old.sent.items ++ messages.items) }
        ensures stays { IfErr result (λ _. self.new.sent.items ≡ self.old.sent.items) }
        ensures others { self.new ≡ record self.old { sent = self.new.sent } }
    {
        if self.sent.is_empty() {
            self.sent = messages;
            return Ok(());
        }
        let mut messages = messages;
        self.sent.append(&mut messages)?;
        Ok(())
    }

    /// Keeps a message to be sent behind the others.
    pub fn send_one(&mut self, message: Message) -> Result<(), AllocError>
        ensures sent { OnOk result (self.new.sent.items ≡ self.old.sent.items ++ message ∷ []) }
        ensures stays { IfErr result (λ _. self.new.sent.items ≡ self.old.sent.items) }
        ensures others { self.new ≡ record self.old { sent = self.new.sent } }
    {
        self.sent.push(message)?;
        Ok(())
    }

    /// The refusal with which a message is met, unless it has met one.
    fn say(&mut self, said: Option<Refusal>)
        ensures { self.new ≡ record self.old { said = first_said self.old.said said } }
    {
        if self.said.is_none() {
            self.said = said;
        }
    }

    /// Does what a plan says. `Full` where the journal has no room for its records, `BadLine` where one of them doesn't fit
    /// or can't be written. A refusal may leave it done in part, and then all of the event is taken back.
    pub fn carry_out(&mut self, plan: Plan) -> Result<(), Refusal>
        requires ready { IsUnderWay self.old }
        requires together { ComesWithOthers (plan_of plan) }
        ensures steps { EventSteps (turned (state_at self.old) (plan_of plan)) self.old result self.new }
        ensures back { GoesBack self.old self.new }
    {
        self.carry_out_with(plan, None)
    }

    /// The same. Where the first record ends a rollback, the names to which that leads may be given.
    pub fn carry_out_with(&mut self, plan: Plan, back: Option<Names>) -> Result<(), Refusal>
        requires ready { IsUnderWay self.old }
        requires together { ComesWithOthers (plan_of plan) }
        requires given { AreBack (durable_of self.old.recorded) back }
        ensures steps { EventSteps (turned (state_at self.old) (plan_of plan)) self.old result self.new }
        ensures back { GoesBack self.old self.new }
    {
        let Plan {
            records,
            changes,
            sent,
            said,
        } = plan;
        self.enter_all(records, back)?;
        self.change_all(changes)?;
        self.send_all(sent)?;
        self.say(said);
        Ok(())
    }
}

impl Beginning {
    /// The journal's room there.
    pub fn log(self) -> Log
        ensures { result ≡ self.log }
    {
        self.log
    }
}

impl Event {
    /// Where it is now, to go back there.
    pub fn beginning(&self) -> Beginning
        ensures { BeginsAt result self.now }
    {
        Beginning {
            log: self.log,
            sent: self.sent.len(),
        }
    }

    /// Takes back all that was done since. It takes no memory.
    pub fn start_over(&mut self, beginning: Beginning)
        requires { RoomForAll self.old.recorded self.old.undos.items }
        ensures { StartsOver beginning self.old self.new }
    {
        let undos = std::mem::replace(&mut self.undos, Vec::new(self.alloc));
        self.recorded.take_all_back(undos);
        self.memory.take_back();
        self.entries.clear();
        self.written.clear();
        self.sent.truncate(beginning.sent);
        self.log = beginning.log;
        self.said = None;
    }
}
