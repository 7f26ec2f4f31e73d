// Calls that waited: how they go on, and end.
ghost use Rattle.std.specs.Prelude.{[], ◌++◌, ◌∷◌, ◌≡◌, false, IfOk, None, not, Ok, Some, true};
ghost use Rattle.std.specs.List.{list_all};
ghost use Rattle.gs_edit.specs.View.{NamesView};
ghost use Rattle.gs_master.specs.inner.Turns.{ComesWithOthers, GoesBack, IsUnderWay, state_at, EventSteps};
ghost use Rattle.gs_master_record.specs.Plain.{plain_edit};
ghost use Rattle.gs_master_state.specs.inner.Plans.{plan_of};
ghost use Rattle.gs_master_spec.specs.Settling.{all_go_on, all_refused, concerned, copied, copied_tree, ended_by_edit, ended_with, extended, failed, goes_on, if_room_for, is_quiet_at, leased_next, replaced, replaced_if, replicated, requests_of, source_chunks};
ghost use Rattle.gs_master_spec.specs.State.{all_ended_by, ended_by, reply_to, turned};
ghost use Rattle.gs_master_spec.specs.declared.change.Change.TheVariants as changes;
ghost use Rattle.gs_master_spec.specs.declared.pending.Waiting.TheVariants as waits;

use crate::event::Event;
use gs_base::{Handle, Refusal, ReqId, ServerId};
use gs_edit::Edit;
use gs_lease::View;
use gs_master_guard::rolling::may_begin;
use gs_master_plan::call::edit_plan;
use gs_master_plan::message::reply_to;
use gs_master_plan::view::{own_request, replace_plan};
use gs_master_spec::change::Change;
use gs_master_spec::pending::{Pending, Waiting};
use gs_master_state::plan::{Plan, push_change};
use gs_msg::{Answer, Copied};
use gs_path::Path;
use std::alloc::{AllocError, Global};

/// The requests of calls that wait.
fn requests_of(alloc: Global, pending: &[Pending]) -> Result<Vec<ReqId>, AllocError>
    ensures { IfOk result (λ requests. requests.items ≡ requests_of pending.now) }
{
    let mut requests = Vec::new(alloc);
    for one in pending {
        requests.push(one.req)?;
    }
    Ok(requests)
}

/// A call whose edit is made is answered, and ends.
fn ended_plan(
    alloc: Global,
    req: ReqId,
    answer: Answer,
    before: Vec<Change>,
) -> Result<Plan, AllocError>
    ensures { IfOk result (λ plan. plan_of plan ≡ record { records = []; changes = before.items ++ changes.End req ∷ []; sent = reply_to req (Ok answer) ∷ []; said = None }) }
{
    let mut changes = before;
    push_change(&mut changes, Change::End(req))?;
    Ok(Plan {
        records: Vec::new(alloc),
        changes,
        sent: vec![in alloc; reply_to(req, Ok(answer))]?,
        said: None,
    })
}

/// A chunk whose edit is made has its place.
fn placed_plan(alloc: Global, chunk: Handle) -> Result<Plan, AllocError>
    ensures { IfOk result (λ plan. plan_of plan ≡ record { records = []; changes = changes.Place chunk ∷ []; sent = []; said = None }) }
{
    let mut plan = Plan::nothing(alloc);
    plan.changes = vec![in alloc; Change::Place(chunk)]?;
    Ok(plan)
}

impl Event {
    /// The calls that a chunk concerns end, and it stays as it is.
    pub fn refuse_all(
        &mut self,
        chunk: Handle,
        call: Option<ReqId>,
        refusal: &Refusal,
    ) -> Result<(), Refusal>
        requires { IsUnderWay self.old }
        ensures steps { EventSteps (all_refused (state_at self.old) chunk call refusal.now) self.old result self.new }
        ensures back { GoesBack self.old self.new }
    {
        let calls = self.standing().concerned(chunk, call)?;
        let requests = requests_of(self.alloc, &calls)?;
        self.end_all_by(&requests, refusal)
    }

    /// Nobody has promised.
    pub fn fail(&mut self, chunk: Handle, call: Option<ReqId>) -> Result<(), Refusal>
        requires { IsUnderWay self.old }
        ensures steps { EventSteps (failed (state_at self.old) chunk call) self.old result self.new }
        ensures back { GoesBack self.old self.new }
    {
        self.refuse_all(chunk, call, &Refusal::NoReplica)
    }

    /// A call that waits is refused, and ends.
    pub fn end_by(&mut self, req: ReqId, refusal: Refusal) -> Result<(), Refusal>
        requires { IsUnderWay self.old }
        ensures steps { EventSteps (ended_by (state_at self.old) req refusal) self.old result self.new }
        ensures back { GoesBack self.old self.new }
    {
        let plan = self.standing().end_refused(req, refusal)?;
        self.carry_out(plan)
    }

    /// Several calls that wait are refused, and end, in this order.
    pub fn end_all_by(&mut self, reqs: &[ReqId], refusal: &Refusal) -> Result<(), Refusal>
        requires { IsUnderWay self.old }
        ensures steps { EventSteps (all_ended_by (state_at self.old) reqs.now refusal.now) self.old result self.new }
        ensures back { GoesBack self.old self.new }
    {
        for req in reqs {
            let refusal = refusal.copy(self.alloc)?;
            self.end_by(*req, refusal)?;
        }
        Ok(())
    }

    /// A call that waited is answered, and ends.
    pub fn end_with(&mut self, req: ReqId, answer: Answer) -> Result<(), Refusal>
        requires { IsUnderWay self.old }
        ensures steps { EventSteps (ended_with (state_at self.old) req answer) self.old result self.new }
        ensures back { GoesBack self.old self.new }
    {
        let plan = self.standing().end_plan(req, answer)?;
        self.carry_out(plan)
    }

    /// Does what a plan says where its records have room. Without it the call that waited is refused.
    pub fn carry_out_for(&mut self, req: ReqId, plan: Plan) -> Result<(), Refusal>
        requires ready { IsUnderWay self.old }
        requires together { ComesWithOthers (plan_of plan) }
        ensures steps { EventSteps (if_room_for (state_at self.old) req (turned (state_at self.old) (plan_of plan))) self.old result self.new }
        ensures back { GoesBack self.old self.new }
    {
        if self.fits(&plan.records)? {
            self.carry_out(plan)
        } else {
            self.end_by(req, Refusal::Full)
        }
    }

    /// The edit of a call that waited is judged, and made where neither the names nor the journal refuse it. Else the call is refused.
    fn judge_end(
        &mut self,
        req: ReqId,
        edit: Edit,
        answer: Answer,
        before: Vec<Change>,
    ) -> Result<(), Refusal>
        requires { IsUnderWay self.old }
        ensures steps { EventSteps (ended_by_edit (state_at self.old) req (plain_edit edit) answer before.items) self.old result self.new }
        ensures back { GoesBack self.old self.new }
    {
        if let Some(refusal) = self.refusal_of(&edit)? {
            return self.end_by(req, refusal);
        }
        let plan = edit_plan(self.alloc, req, edit, answer, before)?;
        self.carry_out_for(req, plan)
    }

    /// A call that waited makes its edit, is answered, and ends. Where the edit is refused the call is. The edit is judged
    /// only where it can't be made.
    pub fn end_by_edit(
        &mut self,
        req: ReqId,
        edit: Edit,
        answer: Answer,
        before: Vec<Change>,
    ) -> Result<(), Refusal>
        requires { IsUnderWay self.old }
        ensures steps { EventSteps (ended_by_edit (state_at self.old) req (plain_edit edit) answer before.items) self.old result self.new }
        ensures back { GoesBack self.old self.new }
    {
        match self.enter_edit(req, edit) {
            Ok(None) => {
                let plan = ended_plan(self.alloc, req, answer, before)?;
                self.carry_out(plan)
            }
            Ok(Some(edit)) => self.judge_end(req, edit, answer, before),
            Err(refusal) => {
                drop(answer);
                drop(before);
                Err(refusal)
            }
        }
    }

    /// The chunk of an extend gets its place.
    fn extend(&mut self, req: ReqId, path: Path, chunk: Handle, view: &View) -> Result<(), Refusal>
        requires { IsUnderWay self.old }
        ensures steps { EventSteps (extended (state_at self.old) req path chunk view.now) self.old result self.new }
        ensures back { GoesBack self.old self.new }
    {
        let answer = Answer::Location {
            handle: chunk,
            view: *view,
            epoch: self.recorded.epoch,
        };
        let before = vec![in self.alloc; Change::Place(chunk)]?;
        self.end_by_edit(req, Edit::AddChunk(path, chunk), answer, before)
    }

    /// A chunk is copied, where it is quiet.
    fn copy(&mut self, req: ReqId, path: Path, index: u64, old: Handle) -> Result<(), Refusal>
        requires { IsUnderWay self.old }
        ensures steps { EventSteps (copied (state_at self.old) req path index old) self.old result self.new }
        ensures back { GoesBack self.old self.new }
    {
        if !may_begin(self.recorded.phase) {
            return self.end_by(req, Refusal::RollingBack);
        }
        let Some(new) = self.recorded.next_handle() else {
            return self.end_by(req, Refusal::Exhausted);
        };
        if !self.recorded.has_versions(1) {
            return self.end_by(req, Refusal::Exhausted);
        }
        let standing = self.standing();
        let Some(quiet) = standing.quiet_at(old) else {
            return self.end_by(req, Refusal::NoReplica);
        };
        let plan = standing.copying_plan(req, path, index, old, quiet, new)?;
        self.carry_out_for(req, plan)
    }

    /// A lease is asked for.
    fn lease(&mut self, req: ReqId, path: Path, index: u64, chunk: Handle) -> Result<(), Refusal>
        requires { IsUnderWay self.old }
        ensures steps { EventSteps (leased_next req path index chunk (state_at self.old)) self.old result self.new }
        ensures back { GoesBack self.old self.new }
    {
        if !may_begin(self.recorded.phase) {
            return self.end_by(req, Refusal::RollingBack);
        }
        if !self.recorded.has_versions(1) {
            return self.end_by(req, Refusal::Exhausted);
        }
        let plan = self.standing().lease_plan(req, path, index, chunk)?;
        self.carry_out_for(req, plan)
    }

    /// A copy takes a chunk's place, if that has room. Then a lease of it is asked for.
    fn put_in_place(
        &mut self,
        req: ReqId,
        path: Path,
        index: u64,
        old: Handle,
        new: Handle,
    ) -> Result<(), Refusal>
        requires { IsUnderWay self.old }
        ensures steps { (names : NamesView) → EventSteps (replaced_if (state_at self.old) req path index old new (Ok names)) self.old result self.new }
        ensures back { GoesBack self.old self.new }
    {
        let place = path.copy(self.alloc)?;
        let plan = replace_plan(self.alloc, place, index as usize, old, new)?;
        if !self.fits(&plan.records)? {
            return self.end_by(req, Refusal::Full);
        }
        self.carry_out(plan)?;
        self.lease(req, path, index, new)
    }

    /// The edit by which a copy takes a chunk's place is judged, and made where neither the names nor the journal refuse it. Then a
    /// lease of the copy is asked for. Else the call is refused.
    fn judge_replacing(
        &mut self,
        req: ReqId,
        path: Path,
        index: u64,
        old: Handle,
        new: Handle,
    ) -> Result<(), Refusal>
        requires { IsUnderWay self.old }
        ensures steps { EventSteps (replaced (state_at self.old) req path index old new) self.old result self.new }
        ensures back { GoesBack self.old self.new }
    {
        let edit = Edit::Cow(path.copy(self.alloc)?, index as usize, old, new);
        if let Some(refusal) = self.refusal_of(&edit)? {
            return self.end_by(req, refusal);
        }
        self.put_in_place(req, path, index, old, new)
    }

    /// A copy takes a chunk's place. Then a lease of it is asked for. Where that edit is refused the call is. The edit is
    /// judged only where it can't be made.
    fn replace(
        &mut self,
        req: ReqId,
        path: Path,
        index: u64,
        old: Handle,
        new: Handle,
    ) -> Result<(), Refusal>
        requires { IsUnderWay self.old }
        ensures steps { EventSteps (replaced (state_at self.old) req path index old new) self.old result self.new }
        ensures back { GoesBack self.old self.new }
    {
        let edit = Edit::Cow(path.copy(self.alloc)?, index as usize, old, new);
        if let Some(edit) = self.enter_edit(own_request(), edit)? {
            drop(edit);
            return self.judge_replacing(req, path, index, old, new);
        }
        let plan = placed_plan(self.alloc, new)?;
        self.carry_out(plan)?;
        self.lease(req, path, index, new)
    }

    /// Whether the file that was noted last holds up the snapshot of a source still.
    fn is_held_up(&self, from: &Path) -> bool
        ensures { result ≡ true → list_all (is_quiet_at (state_at self.now)) (source_chunks (state_at self.now) from.now) ≡ false }
    {
        match &self.held_up_by {
            Some(file) => self.standing().holds_up(from, file),
            None => false,
        }
    }

    /// Whether a chunk of a snapshot's source isn't quiet. A file that has one is noted, so that the source isn't gone through
    /// for each chunk that becomes quiet; where memory is wanting for that, none is.
    fn waits_for_source(&mut self, from: &Path) -> Result<bool, AllocError>
        ensures waits { IfOk result (λ waits. not waits ≡ list_all (is_quiet_at (state_at self.old)) (source_chunks (state_at self.old) from.now)) }
        ensures stays { self.new ≡ record self.old { held_up_by = self.new.held_up_by } }
    {
        if self.is_held_up(from) {
            return Ok(true);
        }
        if self.standing().is_source_quiet(from)? {
            return Ok(false);
        }
        self.held_up_by = self.standing().held_up_by(from).unwrap_or(None);
        Ok(true)
    }

    /// A snapshot is made once every visible chunk of its source is quiet.
    fn copy_tree(&mut self, req: ReqId, from: Path, to: Path) -> Result<(), Refusal>
        requires { IsUnderWay self.old }
        ensures steps { EventSteps (copied_tree (state_at self.old) req from to) self.old result self.new }
        ensures back { GoesBack self.old self.new }
    {
        if self.waits_for_source(&from)? {
            return Ok(());
        }
        let before = Vec::new(self.alloc);
        let edit = self.standing().snapshot_edit(from, to);
        self.end_by_edit(req, edit, Answer::Nothing, before)
    }

    /// A copy was asked for. It has come where the target is a member.
    fn arrive(
        &mut self,
        req: ReqId,
        chunk: Handle,
        target: ServerId,
        view: &View,
    ) -> Result<(), Refusal>
        requires { IsUnderWay self.old }
        ensures steps { EventSteps (replicated (state_at self.old) req chunk target view.now) self.old result self.new }
        ensures back { GoesBack self.old self.new }
    {
        if !view.members.contains(target) {
            return self.end_by(req, Refusal::NoReplica);
        }
        let copied = Copied {
            handle: chunk,
            server: target,
        };
        self.end_with(req, Answer::Copied(Some(copied)))
    }

    /// A call goes on once a chunk is settled on this view, which is the chunk that it waits for or one of a snapshot's.
    #[tactic(auto, unfolding(gs_master_spec::specs::Settling::goes_on))]
    fn go_on(&mut self, req: ReqId, view: &View, waits: &Waiting) -> Result<(), Refusal>
        requires { IsUnderWay self.old }
        ensures steps { EventSteps (goes_on (state_at self.old) req view.now waits.now) self.old result self.new }
        ensures back { GoesBack self.old self.new }
    {
        let alloc = self.alloc;
        match waits.copy(alloc)? {
            Waiting::Extend { path, chunk } => self.extend(req, path, chunk, view),
            Waiting::Lease { chunk, .. } => {
                let answer = Answer::Location {
                    handle: chunk,
                    view: *view,
                    epoch: self.recorded.epoch,
                };
                self.end_with(req, answer)
            },
            Waiting::Quiet { path, index, chunk } => self.copy(req, path, index, chunk),
            Waiting::Copy {
                path,
                index,
                old,
                new,
            } => self.replace(req, path, index, old, new),
            Waiting::Snapshot { from, to } => self.copy_tree(req, from, to),
            Waiting::Replicate { chunk, target } => self.arrive(req, chunk, target, view),
        }
    }

    /// Calls go on, in this order.
    pub fn all_go_on(&mut self, view: &View, calls: &[Pending]) -> Result<(), Refusal>
        requires { IsUnderWay self.old }
        ensures steps { EventSteps (all_go_on view.now calls.now (state_at self.old)) self.old result self.new }
        ensures back { GoesBack self.old self.new }
    {
        for call in calls {
            self.go_on(call.req, view, &call.waits)?;
        }
        Ok(())
    }
}
