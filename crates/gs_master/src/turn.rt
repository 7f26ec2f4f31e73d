// What an event comes to: its records are written, or as many as stand before a disk's failure, and its turn is told.
ghost use Rattle.std.specs.Prelude.{[], ◌+◌, ◌<◌, ◌≡◌, ◌≤◌, ◌⊎◌, IfErr, IfOk, length, List, None, OnOk, Some, sum_by, vec_capacity, ℕ};
ghost use Rattle.gs_base.specs.declared.refusal.Refusal.TheVariants as refusals;
ghost use Rattle.gs_journal.specs.Journal.{record_size};
ghost use Rattle.gs_master.specs.inner.Events.{HasComeFrom};
ghost use Rattle.gs_master.specs.Finishing.{Finishes, FinishesAnew, IsAtRest, MakesDue};
ghost use Rattle.gs_master.specs.Journaled.{AreCut, AreWritten, Breaks, Gains, IsCutAt, IsReadyFor, IsWhole};
ghost use Rattle.gs_master.specs.inner.StartingOver.{BeginsAt};
ghost use Rattle.gs_master.specs.inner.Turns.{GoesBack, IsTurned, state_at, EventSteps};
ghost use Rattle.gs_master.specs.declared.event.Event.{Event as Told_event};
ghost use Rattle.gs_master_plan.specs.Renewable.{IsBehind, IsRenewalOf};
ghost use Rattle.gs_master_record.specs.Plain.{PlainEntry};
ghost use Rattle.gs_master_spec.specs.Durable.{Durable};
ghost use Rattle.gs_master_spec.specs.Outcomes.{caller_of, cut_refusal, unsure};
ghost use Rattle.gs_master_state.specs.inner.Plans.{log_of};
ghost use Rattle.gs_master_state.specs.inner.Recorded.{durable_of};
ghost use Rattle.gs_master_state.specs.inner.Released.{all_forgotten, HaveNoFreeRoom, ReleasesEach};
ghost use Rattle.gs_master_spec.specs.State.{Turn as Turn_of};
ghost use Rattle.gs_master_state.specs.inner.TakingBack.{Leads, RoomForAll};

use crate::event::{Beginning, Event, size_of};
use gs_base::{Refusal, ReqId};
use gs_journal::{Disk, Journal, Record};
use gs_master_plan::checkpoint::Renewal;
use gs_master_plan::message::reply_to;
use gs_master_state::fault::Fault;
use gs_master_state::log::Log;
use gs_msg::{Body, Message};
use std::alloc::{AllocError, Global};
use std::mem;

/// What the master sends because of an event, in order, and the refusal with which it met what it was sent.
#[derive(Debug, Drop)]
pub struct Turn {
    pub sent: Vec<Message>,
    pub said: Option<Refusal>,
}

impl Turn {
    /// A refusal that no message carries. It takes no memory.
    pub(crate) fn refused(alloc: Global, refusal: Refusal) -> Turn
        ensures sent { result.sent.items ≡ [] }
        ensures said { result.said ≡ Some refusal }
    {
        Turn {
            sent: Vec::new(alloc),
            said: Some(refusal),
        }
    }
}

/// Appends records to a journal, in order, until a disk fails. It answers how many were appended.
pub(crate) fn append_all<D: Disk>(journal: &mut Journal<D>, records: &[Record]) -> usize
    ensures many { result ≤ length records.now }
    ensures all { IsReadyFor journal.old records.now → result ≡ length records.now → Gains D.seen D.may_leave D.failures journal.old records.now journal.new }
    ensures cut { IsReadyFor journal.old records.now → result < length records.now → Breaks D.seen D.failures journal.old records.now result journal.new }
    ensures none { records.now ≡ [] → journal.new ≡ journal.old }
{
    for place in 0..records.len() {
        match journal.append(&records[place]) {
            Ok(()) => {}
            Err(_) => return place,
        }
    }
    records.len()
}

/// The journal's room behind these records, for which there is room.
fn log_behind(first: Log, records: &[Record]) -> Log
    requires room { first.size + sum_by record_size records.now ≤ first.limit }
    requires counted { first.records ≤ first.size }
    ensures behind { result ≡ record first { records = first.records + length records.now; size = first.size + sum_by record_size records.now } }
    ensures counted { result.records ≤ result.size }
{
    let mut log = first;
    for place in 0..records.len() {
        log.add(size_of(&records[place]));
    }
    log
}

/// What is told where a disk has failed: who called is left unsure, and nobody else is told anything.
fn unsure(alloc: Global, caller: Option<ReqId>) -> Result<Vec<Message>, AllocError>
    ensures { IfOk result (λ sent. sent.items ≡ unsure caller) }
{
    match caller {
        Some(req) => Ok(vec![in alloc; reply_to(req, Err(Refusal::Unsure))]?),
        None => Ok(Vec::new(alloc)),
    }
}

/// What is told where a disk fails, in memory of its own, unless it finds room in the place of what is to be sent.
fn spare_for(
    alloc: Global,
    sent: &Vec<Message>,
    caller: Option<ReqId>,
) -> Result<Vec<Message>, AllocError>
    ensures { IfOk result (λ spare. vec_capacity sent.now ≡ 0 → spare.items ≡ unsure caller) }
{
    if sent.capacity() > 0 {
        return Ok(Vec::new(alloc));
    }
    unsure(alloc, caller)
}

/// The same, in the place of what was to be sent, or in the memory that was made for it.
fn told_unsure(mut sent: Vec<Message>, spare: Vec<Message>, caller: Option<ReqId>) -> Vec<Message>
    requires { vec_capacity sent ≡ 0 → spare.items ≡ unsure caller }
    ensures { result.items ≡ unsure caller }
{
    if sent.capacity() == 0 {
        return spare;
    }
    sent.clear();
    if let Some(req) = caller {
        sent.push_reserved(reply_to(req, Err(Refusal::Unsure)));
    }
    sent
}

/// Who has called, if a message is a call.
pub(crate) fn caller_of(said: &Body) -> Option<ReqId>
    ensures { result ≡ caller_of said.now }
{
    match said {
        Body::Call { req, .. } => Some(*req),
        _ => None,
    }
}

/// The refusal with which a message is met in whose event a disk has failed.
fn cut_refusal(caller: Option<ReqId>) -> Refusal
    ensures { result ≡ cut_refusal caller }
{
    match caller {
        Some(_) => Refusal::Unsure,
        None => Refusal::Device,
    }
}

impl Event {
    /// All its records are written, and nothing of it is taken back any more. What it forgot or asks no more has no room.
    fn accept(&mut self)
        requires { (entries : List PlainEntry) × ((before : Durable) × Leads entries self.old.undos.items before (durable_of self.old.recorded)) }
        ensures whole { IsWhole self.old self.new }
        ensures log { self.new.log ≡ self.old.log }
        ensures leases { ReleasesEach self.old.recorded.leases self.new.recorded.leases (all_forgotten self.old.undos.items) }
        ensures room { HaveNoFreeRoom self.new.memory.rooms self.old.memory.asked }
    {
        self.recorded.let_all_stand(&mut self.undos);
        self.memory.accept();
        self.entries.clear();
        self.written.clear();
    }

    /// A disk failed at one of its records. That one and those behind it are taken back, with all else of the event.
    pub(crate) fn cut(
        &mut self,
        place: usize,
        first: Log,
        caller: Option<ReqId>,
        spare: Vec<Message>,
    )
        requires room { RoomForAll self.old.recorded self.old.undos.items }
        requires within { place < length self.old.entries.items }
        requires from { (before : Durable) × HasComeFrom before (log_of first) self.old }
        requires counted { first.records ≤ first.size }
        requires spare { vec_capacity self.old.sent ≡ 0 → spare.items ≡ unsure caller }
        ensures cut { (before : Durable) → HasComeFrom before (log_of first) self.old → IsCutAt before (log_of first) caller place self.old self.new }
        ensures counted { self.new.log.records ≤ self.new.log.size }
    {
        self.recorded.take_back_to(&mut self.undos, place);
        self.recorded.let_all_go(&mut self.undos);
        self.memory.take_back();
        self.log = log_behind(first, &self.written[..place]);
        let doubt = self.entries.swap_remove(place);
        self.fault = Fault::Failed(Some(doubt));
        self.entries.clear();
        self.written.clear();
        let sent = mem::replace(&mut self.sent, Vec::new(self.alloc));
        self.sent = told_unsure(sent, spare, caller);
        self.said = Some(cut_refusal(caller));
    }

    /// Ends the event: writes its records to the journal, whose room this was before it. Where a disk fails at one, that one and
    /// those behind it are taken back, with all else of the event, and who called is left unsure. It wants memory for that before
    /// a record is written, and then nothing is.
    pub fn end<D: Disk>(
        &mut self,
        journal: &mut Journal<D>,
        first: Log,
        caller: Option<ReqId>,
    ) -> Result<(), AllocError>
        requires room { RoomForAll self.old.recorded self.old.undos.items }
        requires from { (before : Durable) × HasComeFrom before (log_of first) self.old }
        requires counted { first.records ≤ first.size }
        ensures memory { IfErr result (λ _. (self.new ≡ self.old) × (journal.new ≡ journal.old)) }
        ensures ended { (before : Durable) → HasComeFrom before (log_of first) self.old → OnOk result
            (AreWritten D.seen D.may_leave D.failures (log_of first) self.old journal.old self.new journal.new
            ⊎ ((place : ℕ) × AreCut D.seen D.failures before (log_of first) caller place self.old journal.old self.new journal.new)) }
        ensures counted { self.old.log.records ≤ self.old.log.size → OnOk result (self.new.log.records ≤ self.new.log.size) }
        ensures still { self.old.written.items ≡ [] → journal.new ≡ journal.old }
    {
        let spare = spare_for(self.alloc, &self.sent, caller)?;
        let many = append_all(journal, &self.written);
        if many < self.written.len() {
            self.cut(many, first, caller, spare);
        } else {
            self.accept();
        }
        Ok(())
    }

    /// What was to be sent and said, which is nothing from here on. It takes no memory.
    fn tell(&mut self) -> Turn
        ensures told { (result.sent.items ≡ self.old.sent.items) × (result.said ≡ self.old.said) }
        ensures left { (self.new.sent.items ≡ []) × (self.new.said ≡ None) }
        ensures others { self.new ≡ record self.old { sent = self.new.sent; said = self.new.said } }
    {
        Turn {
            sent: mem::replace(&mut self.sent, Vec::new(self.alloc)),
            said: self.said.take(),
        }
    }

    /// Ends an event. Its turn is done, and its records are written; or it is cut where a disk fails at one; or it is refused,
    /// and all of it is taken back, the journal untouched.
    pub fn finish<D: Disk>(
        &mut self,
        journal: &mut Journal<D>,
        beginning: Beginning,
        caller: Option<ReqId>,
        done: Result<(), Refusal>,
    ) -> Result<Turn, Refusal>
        requires begun { (begun : Told_event) × IsAtRest begun × BeginsAt beginning begun × GoesBack begun self.old }
        ensures rest { IsAtRest self.new }
        ensures finishes { (begun : Told_event) (t : Turn_of) → IsAtRest begun → BeginsAt beginning begun → GoesBack begun self.old → EventSteps t begun done self.old
            → Finishes D.seen D.may_leave D.failures caller t begun journal.old result self.new journal.new }
    {
        if let Err(refusal) = done {
            self.start_over(beginning);
            return Err(refusal);
        }
        if let Err(_) = self.end(journal, beginning.log(), caller) {
            self.start_over(beginning);
            return Err(Refusal::Memory);
        }
        Ok(self.tell())
    }

    /// All that the checkpoint takes which a tick writes here, if it is due and nothing stands against it.
    pub fn due_renewal<D: Disk>(&self, journal: &Journal<D>) -> Result<Option<Renewal>, AllocError>
        ensures { MakesDue (state_at self.now) journal.now result }
    {
        let standing = self.standing();
        if !standing.is_due() {
            return Ok(None);
        }
        match standing.renewal(journal) {
            Ok(renewal) => Ok(Some(renewal)),
            Err(Refusal::Memory) => Err(AllocError),
            Err(_) => Ok(None),
        }
    }

    /// Says that memory was wanting for a checkpoint.
    pub fn lack(&mut self)
        ensures { self.new ≡ record self.old { said = Some refusals.Memory } }
    {
        self.said = Some(Refusal::Memory);
    }

    /// Ends an event whose steps are done, with a checkpoint behind its records. It takes no memory.
    pub fn finish_renewed<D: Disk>(
        &mut self,
        journal: &mut Journal<D>,
        beginning: Beginning,
        renewal: Renewal,
    ) -> Turn
        requires begun { (begun : Told_event) × IsAtRest begun × BeginsAt beginning begun × GoesBack begun self.old }
        requires renewal { IsRenewalOf (state_at self.old) renewal }
        requires generation { IsBehind journal.old renewal }
        ensures rest { IsAtRest self.new }
        ensures finishes { (begun : Told_event) (steps : Turn_of) → IsAtRest begun → BeginsAt beginning begun → GoesBack begun self.old → IsTurned steps begun self.old
            → FinishesAnew D.seen D.may_leave D.failures steps begun journal.old result self.new journal.new }
    {
        self.end_renewed(journal, beginning.log(), renewal);
        self.tell()
    }
}
