// The calls of clients as they come, and those that are refused or answered at once.
ghost use Rattle.std.specs.Prelude.{◌≡◌, IfErr, IfOk, Some};
ghost use Rattle.std.specs.FinMap as fin;
ghost use Rattle.gs_base.specs.declared.refusal.Refusal.TheVariants as refusals;
ghost use Rattle.gs_edit.specs.Plain.{unhide_target};
ghost use Rattle.gs_master.specs.Masters.{MasterAnswers};
ghost use Rattle.gs_master.specs.inner.Looking.{listed_at, located_at};
ghost use Rattle.gs_master.specs.inner.StartingOver.{IsBegun};
ghost use Rattle.gs_master.specs.inner.Turns.{ComesWithOthers, GoesBack, IsUnderWay, state_at, EventSteps};
ghost use Rattle.gs_msg.specs.declared.answer.Answer.TheVariants as answers;
ghost use Rattle.gs_msg.specs.declared.call.Call.TheVariants as calls;
ghost use Rattle.gs_master_record.specs.Plain as entries;
ghost use Rattle.gs_master_record.specs.Plain.{plain_edit};
ghost use Rattle.gs_master_spec.specs.Calls.{answered_with, deleted, edited_by, has_visible_child, looked_up, queried, renames, status, told_phase};
ghost use Rattle.gs_master_spec.specs.Handling.{call_turn, called, new_call, refusal_in, replied_again, waits_still};
ghost use Rattle.gs_master_state.specs.inner.Plans.{plan_of};
ghost use Rattle.gs_master_state.specs.inner.Recorded.{durable_of};
ghost use Rattle.gs_master_state.specs.inner.Reversing.{AreBack};
ghost use Rattle.gs_master_spec.specs.State.{if_room, refused, turned};
ghost use Rattle.gs_master_state.specs.inner.Trying.{refusal_of};
ghost use Rattle.gs_master_spec.specs.Undoing.{edited_names};
ghost use Rattle.gs_tree.specs.Edits.{old_name};

use crate::event::Event;
use crate::master::Master;
use crate::turn::Turn;
use gs_base::{Config, Moment, Refusal, ReqId};
use gs_edit::{Edit, Names};
use gs_journal::Disk;
use gs_master_plan::call::{Numbered, accept_plan};
use gs_master_plan::message::reply_to;
use gs_master_record::Phase;
use gs_master_state::file::{hidden_path, old_path};
use gs_master_state::plan::Plan;
use gs_msg::{Answer, Call, Phase as ToldPhase};
use gs_path::Path;
use std::alloc::{AllocError, Global};

/// The refusal of a reply, if it is one.
fn refusal_in(alloc: Global, told: &Result<Answer, Refusal>) -> Result<Option<Refusal>, AllocError>
    ensures { IfOk result (λ refusal. refusal ≡ refusal_in told.now) }
{
    match told {
        Ok(_) => Ok(None),
        Err(refusal) => Ok(Some(refusal.copy(alloc)?)),
    }
}

/// The same reply, in memory of its own.
fn copied(
    alloc: Global,
    told: &Result<Answer, Refusal>,
) -> Result<Result<Answer, Refusal>, AllocError>
    ensures { IfOk result (λ copy. copy ≡ told.now) }
{
    match told {
        Ok(answer) => Ok(Ok(answer.copy(alloc)?)),
        Err(refusal) => Ok(Err(refusal.copy(alloc)?)),
    }
}

impl Event {
    /// A call that nothing stands against but its own tests.
    fn call(
        &mut self,
        config: &Config,
        req: ReqId,
        moment: Moment,
        call: Call,
    ) -> Result<(), Refusal>
        requires ready { IsUnderWay self.old }
        requires begun { IsBegun self.old }
        ensures steps { EventSteps (called config.now (state_at self.old) req moment call) self.old result self.new }
        ensures back { GoesBack self.old self.new }
    {
        match call {
            Call::Mkdirs(path) => self.edit_by(req, Edit::Mkdirs(path), Answer::Nothing),
            Call::Create(path) => self.edit_by(req, Edit::Create(path), Answer::Nothing),
            Call::Rename { from, to } => self.rename(req, from, to),
            Call::Delete { path, recursive } => self.delete(req, path, recursive, moment),
            Call::Undelete(path) => self.undelete(req, path),
            Call::Snapshot { from, to } => self.snapshot(req, from, to),
            Call::List(path) => self.list(req, &path),
            Call::Status(path) => self.tell_status(req, &path),
            Call::FindForReading { path, index } => self.find(req, &path, index),
            Call::FindForWriting {
                path,
                index,
                refused,
            } => self.find_for_writing(req, path, index, refused, moment),
            Call::Extend { path, index } => self.extend_file(config, req, path, index),
            Call::Scan => self.scan(req, moment),
            Call::Replicate => self.replicate(config, req),
            Call::Query => self.query(req),
            Call::PrepareBegin => self.prepare_begin(req),
            Call::PrepareCommit => self.prepare_commit(config, req, moment),
            Call::PrepareAbort => self.prepare_abort(req),
            Call::Finalize => self.finalize(config, req),
            Call::RollbackBegin => self.rollback_begin(config, req),
            Call::RollbackCommit => self.rollback_commit(req),
        }
    }

    /// A call that wasn't answered before.
    fn new_call(
        &mut self,
        config: &Config,
        req: ReqId,
        moment: Moment,
        call: Call,
    ) -> Result<(), Refusal>
        requires ready { IsUnderWay self.old }
        requires begun { IsBegun self.old }
        ensures steps { EventSteps (new_call config.now (state_at self.old) req moment call) self.old result self.new }
        ensures back { GoesBack self.old self.new }
    {
        match self.standing().refused_before(req, &call) {
            Ok(None) => self.call(config, req, moment, call),
            Ok(Some(refusal)) => {
                drop(call);
                self.refuse(req, refusal)
            }
            Err(error) => {
                drop(call);
                Err(error.into())
            }
        }
    }

    /// A client gets a reply, and nothing else is done.
    fn reply(&mut self, req: ReqId, told: Result<Answer, Refusal>) -> Result<(), Refusal>
        requires { IsUnderWay self.old }
        ensures steps { EventSteps (replied_again (state_at self.old) req told) self.old result self.new }
        ensures back { GoesBack self.old self.new }
    {
        let mut plan = Plan::nothing(self.alloc);
        plan.said = refusal_in(self.alloc, &told)?;
        plan.sent.push(reply_to(req, told))?;
        self.carry_out(plan)
    }

    /// The same for a call, which isn't taken.
    fn reply_to_call(
        &mut self,
        req: ReqId,
        call: Call,
        told: Result<Answer, Refusal>,
    ) -> Result<(), Refusal>
        requires { IsUnderWay self.old }
        ensures steps { EventSteps (replied_again (state_at self.old) req told) self.old result self.new }
        ensures back { GoesBack self.old self.new }
    {
        drop(call);
        self.reply(req, told)
    }

    /// A call that waits gets no answer before it ends, but where the disk has failed.
    fn wait_still(&mut self, req: ReqId) -> Result<(), Refusal>
        requires { IsUnderWay self.old }
        ensures steps { EventSteps (waits_still (state_at self.old) req) self.old result self.new }
        ensures back { GoesBack self.old self.new }
    {
        if self.fault.is_failed() {
            return self.reply(req, Err(Refusal::Device));
        }
        Ok(())
    }

    /// A call is taken: one that waits isn't taken again, the last one gets its reply again, and an older one is refused.
    pub fn take_call(
        &mut self,
        config: &Config,
        req: ReqId,
        moment: Moment,
        call: Call,
    ) -> Result<(), Refusal>
        requires ready { IsUnderWay self.old }
        requires begun { IsBegun self.old }
        ensures steps { EventSteps (call_turn config.now (state_at self.old) req moment call) self.old result self.new }
        ensures back { GoesBack self.old self.new }
    {
        if self.fault.is_unopened() {
            return self.reply_to_call(req, call, Err(Refusal::Device));
        }
        let standing = self.standing();
        if standing.memory.is_pending(req) {
            drop(call);
            return self.wait_still(req);
        }
        match standing.numbered(req) {
            Numbered::New => self.new_call(config, req, moment, call),
            Numbered::Again(told) => match copied(self.alloc, told) {
                Ok(told) => self.reply_to_call(req, call, told),
                Err(error) => {
                    drop(call);
                    Err(error.into())
                }
            },
            Numbered::Older => self.reply_to_call(req, call, Err(Refusal::Old)),
        }
    }

    /// Why an edit is refused, if it is. Nothing changes.
    pub fn refusal_of(&mut self, edit: &Edit) -> Result<Option<Refusal>, Refusal>
        ensures judged { IfOk result (λ refusal. refusal ≡ refusal_of (edited_names (plain_edit edit.now) (durable_of self.old.recorded).names)) }
        ensures memory { IfErr result (λ refusal. refusal ≡ Refusal.Memory) }
        ensures stays { self.new ≡ self.old }
    {
        self.recorded.names.judge(edit)
    }

    /// A call is refused.
    pub fn refuse(&mut self, req: ReqId, refusal: Refusal) -> Result<(), Refusal>
        requires { IsUnderWay self.old }
        ensures steps { EventSteps (refused (state_at self.old) req refusal) self.old result self.new }
        ensures back { GoesBack self.old self.new }
    {
        let plan = self.standing().refused(req, refusal)?;
        self.carry_out(plan)
    }

    /// A call is answered, and no record tells of that.
    pub fn answer(&mut self, req: ReqId, answer: Answer) -> Result<(), Refusal>
        requires { IsUnderWay self.old }
        ensures steps { EventSteps (answered_with (state_at self.old) req answer) self.old result self.new }
        ensures back { GoesBack self.old self.new }
    {
        let plan = self.standing().answered(req, answer)?;
        self.carry_out(plan)
    }

    /// A call is answered with what was looked up, or refused.
    pub fn look_up(&mut self, req: ReqId, found: Result<Answer, Refusal>) -> Result<(), Refusal>
        requires { IsUnderWay self.old }
        ensures steps { EventSteps (looked_up (state_at self.old) req found) self.old result self.new }
        ensures back { GoesBack self.old self.new }
    {
        match found {
            Ok(answer) => self.answer(req, answer),
            Err(refusal) => self.refuse(req, refusal),
        }
    }

    /// Does what a plan says where its records have room. Without it the call is refused.
    pub fn carry_out_or_refuse(&mut self, req: ReqId, plan: Plan) -> Result<(), Refusal>
        requires ready { IsUnderWay self.old }
        requires together { ComesWithOthers (plan_of plan) }
        ensures steps { EventSteps (if_room (state_at self.old) (turned (state_at self.old) (plan_of plan)) (refused (state_at self.old) req refusals.Full)) self.old result self.new }
        ensures back { GoesBack self.old self.new }
    {
        self.carry_out_or_refuse_with(req, plan, None)
    }

    /// The same. Where the first record ends a rollback, the names to which that leads may be given.
    pub fn carry_out_or_refuse_with(
        &mut self,
        req: ReqId,
        plan: Plan,
        back: Option<Names>,
    ) -> Result<(), Refusal>
        requires ready { IsUnderWay self.old }
        requires together { ComesWithOthers (plan_of plan) }
        requires given { AreBack (durable_of self.old.recorded) back }
        ensures steps { EventSteps (if_room (state_at self.old) (turned (state_at self.old) (plan_of plan)) (refused (state_at self.old) req refusals.Full)) self.old result self.new }
        ensures back { GoesBack self.old self.new }
    {
        if self.fits(&plan.records)? {
            self.carry_out_with(plan, back)
        } else {
            self.refuse(req, Refusal::Full)
        }
    }

    /// An edit is judged, and made where neither the names nor the journal refuse it. Else its call is refused.
    fn judge_edit(&mut self, req: ReqId, edit: Edit, answer: Answer) -> Result<(), Refusal>
        requires { IsUnderWay self.old }
        ensures steps { EventSteps (edited_by (state_at self.old) req (plain_edit edit) answer) self.old result self.new }
        ensures back { GoesBack self.old self.new }
    {
        if let Some(refusal) = self.refusal_of(&edit)? {
            return self.refuse(req, refusal);
        }
        let plan = accept_plan(self.alloc, req, edit, answer)?;
        self.carry_out_or_refuse(req, plan)
    }

    /// An edit of the names is made, and its call answered. Where the edit is refused the call is. To judge an edit and then make
    /// it costs the names three times, since what was made to judge it is taken back; so it is judged where it can't be made.
    pub fn edit_by(&mut self, req: ReqId, edit: Edit, answer: Answer) -> Result<(), Refusal>
        requires { IsUnderWay self.old }
        ensures steps { EventSteps (edited_by (state_at self.old) req (plain_edit edit) answer) self.old result self.new }
        ensures back { GoesBack self.old self.new }
    {
        match self.enter_edit(req, edit) {
            Ok(None) => {
                self.send_one(reply_to(req, Ok(answer)))?;
                Ok(())
            }
            Ok(Some(edit)) => self.judge_edit(req, edit, answer),
            Err(refusal) => {
                drop(answer);
                Err(refusal)
            }
        }
    }

    /// What stands at a path gets a hidden name.
    pub fn delete(
        &mut self,
        req: ReqId,
        path: Path,
        recursive: bool,
        moment: Moment,
    ) -> Result<(), Refusal>
        requires { IsUnderWay self.old }
        ensures steps { EventSteps (deleted (state_at self.old) req path recursive moment) self.old result self.new }
        ensures back { GoesBack self.old self.new }
    {
        if path.is_root() {
            return self.refuse(req, Refusal::IsRoot);
        }
        if !self.recorded.stands(&path) {
            return self.answer(req, Answer::Absent);
        }
        if !recursive && self.recorded.has_visible_child(&path) {
            return self.refuse(req, Refusal::NotEmpty);
        }
        let number = self.recorded.next_hidden;
        if number == 0 {
            return self.refuse(req, Refusal::Exhausted);
        }
        let hidden = hidden_path(self.alloc, &path, moment, number)?;
        self.edit_by(req, Edit::Hide(path, moment, number), Answer::Path(hidden))
    }

    /// What stands at a path is moved. The record holds the target as it was resolved.
    pub fn rename(&mut self, req: ReqId, from: Path, to: Path) -> Result<(), Refusal>
        requires { IsUnderWay self.old }
        ensures steps { EventSteps (renames (state_at self.old) req from to) self.old result self.new }
        ensures back { GoesBack self.old self.new }
    {
        let target = self.recorded.said_target(&from, &to)?;
        self.edit_by(req, Edit::Rename(from, target), Answer::Nothing)
    }

    /// What was deleted returns to its old name.
    pub fn undelete(&mut self, req: ReqId, path: Path) -> Result<(), Refusal>
        requires { IsUnderWay self.old }
        ensures steps { EventSteps (edited_by (state_at self.old) req (entries.Unhide path) (answers.Path (unhide_target path (old_name path)))) self.old result self.new }
        ensures back { GoesBack self.old self.new }
    {
        let old = old_path(self.alloc, &path)?;
        self.edit_by(req, Edit::Unhide(path), Answer::Path(old))
    }

    /// A call is answered with what is listed at a path.
    pub fn list(&mut self, req: ReqId, path: &Path) -> Result<(), Refusal>
        requires { IsUnderWay self.old }
        ensures steps { EventSteps (listed_at (state_at self.old) req path.now) self.old result self.new }
        ensures back { GoesBack self.old self.new }
    {
        let found = self.recorded.listing(path)?;
        self.look_up(req, found)
    }

    /// A call is answered with what stands at a path.
    pub fn tell_status(&mut self, req: ReqId, path: &Path) -> Result<(), Refusal>
        requires { IsUnderWay self.old }
        ensures steps { EventSteps (looked_up (state_at self.old) req (status (state_at self.old).durable (fin.get (state_at self.old).durable.names.tree path.now))) self.old result self.new }
        ensures back { GoesBack self.old self.new }
    {
        let found = self.recorded.status(path)?;
        self.look_up(req, found)
    }

    /// A call is answered with where the chunk at a place of a file is.
    pub fn find(&mut self, req: ReqId, path: &Path, index: u64) -> Result<(), Refusal>
        requires { IsUnderWay self.old }
        ensures steps { EventSteps (located_at (state_at self.old) req path.now index) self.old result self.new }
        ensures back { GoesBack self.old self.new }
    {
        let found = self.recorded.location_at(path, index);
        self.look_up(req, found)
    }

    /// A call is answered with the phase and the epoch.
    pub fn query(&mut self, req: ReqId) -> Result<(), Refusal>
        requires { IsUnderWay self.old }
        ensures steps { EventSteps (queried (state_at self.old) req) self.old result self.new }
        ensures back { GoesBack self.old self.new }
    {
        let is_preparing = self.standing().memory.is_preparing();
        let phase = told_phase(is_preparing, self.recorded.phase);
        let epoch = self.recorded.epoch;
        self.answer(req, Answer::Phase { phase, epoch })
    }
}

impl<D: Disk> Master<D> {
    /// Answers a client's call as `handle` answers a message that says it. The reply, for the client of the request, is among what is sent.
    pub(crate) fn answer_call(
        &mut self,
        req: ReqId,
        moment: Moment,
        call: Call,
    ) -> Result<Turn, Refusal>
        ensures { MasterAnswers D.seen D.failures (Some req) (call_turn self.old.config self.old.state req moment call) self.old result self.new }
    {
        let beginning = self.event.beginning();
        let done = self.event.take_call(&self.config, req, moment, call);
        self.event
            .finish(&mut self.journal, beginning, Some(req), done)
    }

    /// Tells the phase of the master and its epoch, at this moment, in seconds. No record is written, and nothing but a failed disk and
    /// a journal that couldn't be opened (32) stands against it, not even a rollback that goes on.
    ///
    /// As every call here it answers a request of a client, exactly as `handle` does: a request that waits still isn't taken again, the last
    /// one of the client gets its reply again, and an older one is refused 19. What is refused is said in the turn and to the client.
    /// An `Err` changes nothing, as in `handle`.
    pub fn query(&mut self, req: ReqId, moment: Moment) -> Result<Turn, Refusal>
        ensures { MasterAnswers D.seen D.failures (Some req) (call_turn self.old.config self.old.state req moment calls.Query) self.old result self.new }
    {
        self.answer_call(req, moment, Call::Query)
    }
}

/// The phase as it is told.
pub(crate) fn told_phase(is_preparing: bool, phase: Phase) -> ToldPhase
    ensures { result ≡ told_phase is_preparing phase }
{
    if is_preparing {
        return ToldPhase::Preparing;
    }
    match phase {
        Phase::Ordinary => ToldPhase::Ordinary,
        Phase::Upgrade => ToldPhase::Upgrade,
        Phase::Rolling => ToldPhase::Rolling,
    }
}
