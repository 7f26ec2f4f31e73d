// Calls: the tests that come before their own, and what is planned where one is refused or accepted.
ghost use Rattle.std.specs.Prelude.{[], if◌then◌else◌, ◌&&◌, ◌++◌, ◌∷◌, ◌≡◌, Err, IfOk, map, Ok, option_map, Some};
ghost use Rattle.std.specs.Option.{option_to_list};
ghost use Rattle.gs_lock.specs.Locks.{stands_in_the_way};
ghost use Rattle.gs_master_plan.specs.inner.Planning.{numbered_of, state_of};
ghost use Rattle.gs_master_plan.specs.inner.Refusing.{refusal_where};
ghost use Rattle.gs_master_record.specs.Plain as entries;
ghost use Rattle.gs_master_record.specs.Plain.{plain, plain_edit};
ghost use Rattle.gs_master_spec.specs.Calls.{accept_plan, is_always_taken, is_any_deep, is_any_hidden, is_locked, is_work, reads_of_call, refused_before};
ghost use Rattle.gs_master_spec.specs.Handling.{numbered};
ghost use Rattle.gs_master_state.specs.inner.Plans.{log_of, plan_of};
ghost use Rattle.gs_master_spec.specs.Settling.{edit_plan, end_plan};
ghost use Rattle.gs_master_spec.specs.State.{answer_changes, answered, fits, keeps_refusal, kept_in_memory, last_reply, refusal_plan, refused, size_of};
ghost use Rattle.gs_master_spec.specs.Upgrades.{accepted_plan};

use crate::message::reply_to;
use crate::standing::Standing;
use gs_base::{Refusal, ReqId};
use gs_edit::Edit;
use gs_master_guard::keeping::{is_kept, kept_in_memory};
use gs_master_record::{Entry, Phase};
use gs_master_spec::change::Change;
use gs_master_state::file::is_visible;
use gs_master_state::log::Log;
use gs_master_state::plan::{Plan, push_change};
use gs_msg::{Answer, Call, Message};
use gs_path::Path;
use std::alloc::{AllocError, Global};

/// How a request's number stands to that of the last reply to its client.
pub enum Numbered<'a> {
    New,
    /// It was answered so.
    Again(&'a Result<Answer, Refusal>),
    Older,
}

/// Whether a path of a call has more elements than one that is read may have.
fn is_any_deep(call: &Call) -> bool
    ensures { result ≡ is_any_deep call.now }
{
    match call {
        Call::Mkdirs(path)
        | Call::Create(path)
        | Call::Delete { path, .. }
        | Call::Undelete(path)
        | Call::List(path)
        | Call::Status(path)
        | Call::FindForReading { path, .. }
        | Call::FindForWriting { path, .. }
        | Call::Extend { path, .. } => !path.is_within_depth(),
        Call::Rename { from, to } | Call::Snapshot { from, to } => {
            !from.is_within_depth() || !to.is_within_depth()
        }
        _ => false,
    }
}

/// Whether a path of a call that mustn't be hidden is.
pub fn is_any_hidden(call: &Call) -> bool
    ensures { result ≡ is_any_hidden call.now }
{
    match call {
        Call::Mkdirs(path)
        | Call::Create(path)
        | Call::Delete { path, .. }
        | Call::FindForWriting { path, .. }
        | Call::Extend { path, .. } => !is_visible(path),
        Call::Rename { from, to } | Call::Snapshot { from, to } => {
            !is_visible(from) || !is_visible(to)
        }
        _ => false,
    }
}

/// Whether a call is taken while rolling back.
fn is_always_taken(call: &Call) -> bool
    ensures { result ≡ is_always_taken call.now }
{
    matches!(call, Call::Query | Call::RollbackCommit)
}

/// Whether a call isn't taken while an upgrade is prepared: an edit, or one that begins views.
fn is_work(call: &Call) -> bool
    ensures { result ≡ is_work call.now }
{
    match call {
        Call::Mkdirs(_)
        | Call::Create(_)
        | Call::Rename { .. }
        | Call::Delete { .. }
        | Call::Undelete(_)
        | Call::Snapshot { .. }
        | Call::FindForWriting { .. }
        | Call::Extend { .. }
        | Call::Scan
        | Call::Replicate => true,
        _ => false,
    }
}

/// The path that a call reads, if it reads one.
fn read_by(call: &Call) -> Option<&Path>
    ensures { option_to_list (option_map (λ path. path.now) result) ≡ reads_of_call call.entry.now }
{
    match call {
        Call::Mkdirs(path)
        | Call::Rename { to: path, .. }
        | Call::List(path)
        | Call::Status(path)
        | Call::FindForReading { path, .. }
        | Call::FindForWriting { path, .. }
        | Call::Extend { path, .. } => Some(path),
        _ => None,
    }
}

/// Where paths lie.
fn borrowed<'p>(alloc: Global, paths: &'p [Path]) -> Result<Vec<&'p Path>, AllocError>
    ensures { IfOk result (λ borrowed. map (λ path. path.now) borrowed.items ≡ paths.entry.now) }
{
    let mut borrowed = Vec::new(alloc);
    for path in paths {
        borrowed.push(path)?;
    }
    Ok(borrowed)
}

impl<'a> Standing<'a> {
    /// Whether a lock of another call is in the way of a call.
    pub fn is_locked(&self, req: ReqId, call: &Call) -> Result<bool, AllocError>
        ensures { IfOk result (λ locked. locked ≡ is_locked (state_of self.entry.now) req call.now) }
    {
        if self.memory.locks.is_empty() {
            return Ok(false);
        }
        let writes = self.recorded.writes_of_call(call)?;
        let borrowed = borrowed(self.recorded.alloc, &writes)?;
        Ok(self.is_in_the_way(req, call, &borrowed))
    }

    /// Why a call is refused before its own tests.
    #[tactic(auto, using(crate::proofs::Deep::whatever_is_locked))]
    pub fn refused_before(&self, req: ReqId, call: &Call) -> Result<Option<Refusal>, AllocError>
        ensures { IfOk result (λ refusal. refusal ≡ refused_before (state_of self.entry.now) req call.now) }
    {
        // A deep path is refused whatever is locked, and to look for its locks takes the square of its length.
        if !is_any_deep(call) {
            let is_locked = self.is_locked(req, call)?;
            return Ok(self.refused_where(call, is_locked));
        }
        Ok(self.refused_where(call, false))
    }

    /// Whether a lock of another call is in the way of one that writes these paths.
    pub fn is_in_the_way(&self, req: ReqId, call: &Call, writes: &[&Path]) -> bool
        ensures { result ≡ stands_in_the_way (state_of self.entry.now).volatile.locks req (reads_of_call call.now) (map (λ path. path.now) writes.entry.now) }
    {
        match read_by(call) {
            Some(path) => self.memory.locks.is_in_the_way(req, &[path], writes),
            None => self.memory.locks.is_in_the_way(req, &[], writes),
        }
    }

    /// How a request's number stands to that of the last reply to its client.
    pub fn numbered(&self, req: ReqId) -> Numbered<'a>
        ensures { numbered_of result ≡ numbered (last_reply (state_of self.entry.now) req.client) req.number }
    {
        match self.last_reply(req.client) {
            Some(reply) if reply.number == req.number => Numbered::Again(&reply.result),
            Some(reply) if req.number < reply.number => Numbered::Older,
            _ => Numbered::New,
        }
    }

    /// Why a call is refused before its own tests, where it is told whether a lock of another call is in its way.
    pub fn refused_where(&self, call: &Call, is_locked: bool) -> Option<Refusal>
        ensures { result ≡ refusal_where (state_of self.entry.now) is_locked call.now }
    {
        if self.fault.is_failed() {
            return Some(Refusal::Device);
        }
        if self.recorded.phase == Phase::Rolling && !is_always_taken(call) {
            return Some(Refusal::RollingBack);
        }
        if self.memory.is_preparing() && is_work(call) {
            return Some(Refusal::Preparing);
        }
        if is_any_deep(call) {
            return Some(Refusal::BadPath);
        }
        if is_locked {
            return Some(Refusal::Locked);
        }
        if is_any_hidden(call) {
            return Some(Refusal::HiddenName);
        }
        None
    }

    /// A call is refused in the event that brings it.
    pub fn refused(&self, req: ReqId, refusal: Refusal) -> Result<Plan, AllocError>
        ensures { IfOk result (λ plan. plan_of plan ≡ refusal_plan (state_of self.entry.now) req refusal [] (Some refusal)) }
    {
        let alloc = self.recorded.alloc;
        let said = refusal.copy(alloc)?;
        self.refusal_plan(req, refusal, Vec::new(alloc), Some(said))
    }
}

/// How many bytes the record of a refusal takes.
fn said_size(alloc: Global, req: ReqId, refusal: &Refusal) -> Result<u64, AllocError>
    ensures { IfOk result (λ size. size ≡ size_of (entries.Said req refusal.now)) }
{
    let detail = refusal.detail(alloc)?;
    Ok(21 + detail.len() as u64)
}

/// Whether the record of a refusal has room.
fn has_room_for(alloc: Global, log: Log, req: ReqId, refusal: &Refusal) -> Result<bool, AllocError>
    ensures { IfOk result (λ has_room. has_room ≡ fits (log_of log) (entries.Said req refusal.now ∷ [])) }
{
    Ok(log.has_room(said_size(alloc, req, refusal)?))
}

/// The record of a refusal, if it gets one.
fn said_record(
    alloc: Global,
    is_recorded: bool,
    req: ReqId,
    refusal: &Refusal,
) -> Result<Vec<Entry>, AllocError>
    ensures { IfOk result (λ records. map plain records.items ≡ (if is_recorded then entries.Said req refusal.now ∷ [] else [])) }
{
    if !is_recorded {
        return Ok(Vec::new(alloc));
    }
    let said = Entry::Said {
        to: req,
        refusal: refusal.copy(alloc)?,
    };
    Ok(vec![in alloc; said]?)
}

/// These changes behind the one that keeps a refusal in memory, if it is kept there.
fn said_first(
    alloc: Global,
    is_kept: bool,
    req: ReqId,
    refusal: &Refusal,
    further: Vec<Change>,
) -> Result<Vec<Change>, AllocError>
    ensures { IfOk result (λ changes. changes.items ≡ (if is_kept then kept_in_memory req (Err refusal.now) ∷ [] else []) ++ further.items) }
{
    let mut changes = further;
    if is_kept {
        let kept = Err(refusal.copy(alloc)?);
        changes.insert(0, kept_in_memory(req, kept))?;
    }
    Ok(changes)
}

impl<'a> Standing<'a> {
    /// Whether a refusal is kept: one that comes behind the reply to a later request isn't.
    fn keeps_refusal(&self, req: ReqId, refusal: &Refusal) -> bool
        ensures { result ≡ keeps_refusal (state_of self.entry.now) req refusal.now }
    {
        is_kept(refusal) && self.is_later(req)
    }

    /// A call is refused. The refusal leaves a record where there is room, and is kept in memory else.
    pub fn refusal_plan(
        &self,
        req: ReqId,
        refusal: Refusal,
        further: Vec<Change>,
        said: Option<Refusal>,
    ) -> Result<Plan, AllocError>
        ensures { IfOk result (λ plan. plan_of plan ≡ refusal_plan (state_of self.entry.now) req refusal further.items said) }
    {
        let alloc = self.recorded.alloc;
        let keeps = self.keeps_refusal(req, &refusal);
        let has_room = has_room_for(alloc, self.log, req, &refusal)?;
        Ok(Plan {
            records: said_record(alloc, keeps && has_room, req, &refusal)?,
            changes: said_first(alloc, keeps && !has_room, req, &refusal, further)?,
            sent: vec![in alloc; reply_to(req, Err(refusal))]?,
            said,
        })
    }
}

/// An edit of the names is made, and its call answered.
pub fn accept_plan(
    alloc: Global,
    req: ReqId,
    edit: Edit,
    answer: Answer,
) -> Result<Plan, AllocError>
    ensures { IfOk result (λ plan. plan_of plan ≡ accept_plan req (plain_edit edit) answer) }
{
    let record = Entry::Edit { by: req, edit };
    Ok(Plan {
        records: vec![in alloc; record]?,
        changes: Vec::new(alloc),
        sent: vec![in alloc; reply_to(req, Ok(answer))]?,
        said: None,
    })
}

/// A call that waited makes its edit, is answered, and ends.
pub fn edit_plan(
    alloc: Global,
    req: ReqId,
    edit: Edit,
    answer: Answer,
    before: Vec<Change>,
) -> Result<Plan, AllocError>
    ensures { IfOk result (λ plan. plan_of plan ≡ edit_plan req (plain_edit edit) answer before.items) }
{
    let record = Entry::Edit { by: req, edit };
    let mut changes = before;
    push_change(&mut changes, Change::End(req))?;
    Ok(Plan {
        records: vec![in alloc; record]?,
        changes,
        sent: vec![in alloc; reply_to(req, Ok(answer))]?,
        said: None,
    })
}

impl<'a> Standing<'a> {
    /// These changes, and the one that keeps an answer of which no record tells: one that comes behind the reply to a later
    /// request isn't kept.
    fn and_answer(
        &self,
        before: Vec<Change>,
        req: ReqId,
        answer: &Answer,
    ) -> Result<Vec<Change>, AllocError>
        ensures { IfOk result (λ changes. changes.items ≡ before.items ++ answer_changes (state_of self.entry.now) req answer.now) }
    {
        let mut changes = before;
        if self.is_later(req) {
            let kept = Ok(answer.copy(self.recorded.alloc)?);
            push_change(&mut changes, kept_in_memory(req, kept))?;
        }
        Ok(changes)
    }

    /// A call is answered in the event that brings it.
    pub fn answered(&self, req: ReqId, answer: Answer) -> Result<Plan, AllocError>
        ensures { IfOk result (λ plan. plan_of plan ≡ answered (state_of self.entry.now) req answer) }
    {
        let alloc = self.recorded.alloc;
        Ok(Plan {
            records: Vec::new(alloc),
            changes: self.and_answer(Vec::new(alloc), req, &answer)?,
            sent: vec![in alloc; reply_to(req, Ok(answer))]?,
            said: None,
        })
    }

    /// A call that waited is answered, and ends.
    pub fn end_plan(&self, req: ReqId, answer: Answer) -> Result<Plan, AllocError>
        ensures { IfOk result (λ plan. plan_of plan ≡ end_plan (state_of self.entry.now) req answer) }
    {
        let alloc = self.recorded.alloc;
        let mut changes = self.and_answer(Vec::new(alloc), req, &answer)?;
        push_change(&mut changes, Change::End(req))?;
        Ok(Plan {
            records: Vec::new(alloc),
            changes,
            sent: vec![in alloc; reply_to(req, Ok(answer))]?,
            said: None,
        })
    }

    /// A call of an upgrade is accepted, with these records, changes and messages before its answer, which is the epoch.
    pub fn accepted_plan(
        &self,
        req: ReqId,
        records: Vec<Entry>,
        before: Vec<Change>,
        sent: Vec<Message>,
        epoch: u64,
    ) -> Result<Plan, AllocError>
        ensures { IfOk result (λ plan. plan_of plan ≡ accepted_plan (state_of self.entry.now) req (map plain records.items) before.items sent.items epoch) }
    {
        let answer = Answer::Epoch(epoch);
        let changes = self.and_answer(before, req, &answer)?;
        let mut sent = sent;
        sent.push(reply_to(req, Ok(answer)))?;
        Ok(Plan {
            records,
            changes,
            sent,
            said: None,
        })
    }
}
