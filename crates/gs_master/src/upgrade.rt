// The calls of an upgrade and of a rollback.
ghost use Rattle.std.specs.Prelude.{◌+◌, ◌<◌, ◌≡◌, IfErr, OnOk, Some};
ghost use Rattle.gs_base.specs.declared.refusal.Refusal.TheVariants as refusals;
ghost use Rattle.gs_master.specs.Masters.{MasterAnswers};
ghost use Rattle.gs_master.specs.inner.StartingOver.{IsBegun};
ghost use Rattle.gs_master.specs.inner.Turns.{GoesBack, IsTurned, IsUnderWay, state_at, EventSteps};
ghost use Rattle.gs_master_spec.specs.Handling.{call_turn};
ghost use Rattle.gs_master_spec.specs.Quieted.{IsTableOf, TellsQuiet};
ghost use Rattle.gs_master_spec.specs.Settling.{requests_of};
ghost use Rattle.gs_master_spec.specs.State.{all_ended_by};
ghost use Rattle.gs_master_spec.specs.Upgrades.{commit_on, finalize, prepare_abort, prepare_begin, prepare_commit, rollback_begin, rollback_commit};
ghost use Rattle.gs_master_state.specs.inner.Recorded.{durable_of};
ghost use Rattle.gs_master_state.specs.inner.Reversing.{AreBack};
ghost use Rattle.gs_msg.specs.declared.call.Call.TheVariants as calls;

use crate::event::Event;
use crate::master::Master;
use crate::turn::Turn;
use gs_base::{Config, Moment, Refusal, ReqId};
use gs_edit::Names;
use gs_journal::Disk;
use gs_lease::AllQuiet;
use gs_master_record::Phase;
use gs_msg::Call;

impl Event {
    /// The calls that wait for a replica are given up. What is kept of their refusals as records has its room, and fits: so
    /// nothing but memory can be wanting.
    fn give_up_all(&mut self) -> Result<(), Refusal>
        requires { IsUnderWay self.old }
        ensures given { OnOk result (IsTurned (all_ended_by (state_at self.old) (requests_of (state_at self.old).volatile.pending) refusals.Preparing) self.old self.new) }
        ensures memory { IfErr result (λ refusal. refusal ≡ refusals.Memory) }
        ensures back { GoesBack self.old self.new }
    {
        let requests = self.standing().requests()?;
        match self.end_all_by(&requests, &Refusal::Preparing) {
            Ok(()) => Ok(()),
            Err(_) => Err(Refusal::Memory),
        }
    }

    /// Preparing begins. The calls that wait for a replica are given up, and each chunk that isn't quiet is made so. Where that
    /// finds no room nobody is given up.
    pub fn prepare_begin(&mut self, req: ReqId) -> Result<(), Refusal>
        requires ready { IsUnderWay self.old }
        requires begun { IsBegun self.old }
        ensures steps { EventSteps (prepare_begin (state_at self.old) req) self.old result self.new }
        ensures back { GoesBack self.old self.new }
    {
        let chunks = self.standing().all_unquiet()?;
        let judged = self.standing().refusal_of_begin(chunks.len() as u64)?;
        if let Some(refusal) = judged {
            return self.refuse(req, refusal);
        }
        let epoch = self.recorded.epoch;
        let beginning = self.beginning();
        self.give_up_all()?;
        if !self.log.has_room_for_proposals(chunks.len()) {
            self.start_over(beginning);
            return self.refuse(req, Refusal::Full);
        }
        self.begin_all(&chunks, None)?;
        let told = self.standing().begin_answer(req, epoch)?;
        self.carry_out(told)
    }

    /// An upgrade is prepared, where every chunk is quiet.
    pub fn prepare_commit(
        &mut self,
        config: &Config,
        req: ReqId,
        moment: Moment,
    ) -> Result<(), Refusal>
        requires { IsUnderWay self.old }
        ensures steps { EventSteps (prepare_commit config.now (state_at self.old) req moment) self.old result self.new }
        ensures back { GoesBack self.old self.new }
    {
        let unquiet = self.standing().all_unquiet()?;
        if let Some(refusal) = self.standing().refusal_of_prepare(&unquiet) {
            return self.refuse(req, refusal);
        }
        let plan = self.standing().prepare_plan(config, req, moment)?;
        self.carry_out_or_refuse(req, plan)
    }

    /// Preparing ends, and nothing is prepared.
    pub fn prepare_abort(&mut self, req: ReqId) -> Result<(), Refusal>
        requires { IsUnderWay self.old }
        ensures steps { EventSteps (prepare_abort (state_at self.old) req) self.old result self.new }
        ensures back { GoesBack self.old self.new }
    {
        if !self.standing().memory.is_preparing() {
            return self.refuse(req, Refusal::NotUpgrading);
        }
        let plan = self.standing().abort_plan(req)?;
        self.carry_out(plan)
    }

    /// The upgrade that stands is finalized.
    pub fn finalize(&mut self, config: &Config, req: ReqId) -> Result<(), Refusal>
        requires { IsUnderWay self.old }
        ensures steps { EventSteps (finalize config.now (state_at self.old) req) self.old result self.new }
        ensures back { GoesBack self.old self.new }
    {
        if let Some(refusal) = self.recorded.refusal_of_end() {
            return self.refuse(req, refusal);
        }
        let plan = self.standing().finalize_plan(config, req)?;
        self.carry_out_or_refuse(req, plan)
    }

    /// The rollback of the upgrade that stands is begun. All calls that wait are refused.
    pub fn rollback_begin(&mut self, config: &Config, req: ReqId) -> Result<(), Refusal>
        requires { IsUnderWay self.old }
        ensures steps { EventSteps (rollback_begin config.now (state_at self.old) req) self.old result self.new }
        ensures back { GoesBack self.old self.new }
    {
        if let Some(refusal) = self.recorded.refusal_of_end() {
            return self.refuse(req, refusal);
        }
        let epoch = self.recorded.epoch + 1;
        let requests = self.standing().requests()?;
        let begun = self.standing().rollback_record()?;
        if !self.fits(&begun.records)? {
            return self.refuse(req, Refusal::Full);
        }
        self.carry_out(begun)?;
        self.end_all_by(&requests, &Refusal::RollingBack)?;
        let told = self.standing().rollback_answer(config, req, epoch)?;
        self.carry_out(told)
    }

    /// A rollback is done, if each chunk that needs an answer has one. These are the names of the prepare, which are put in place.
    fn commit_on(&mut self, req: ReqId, names: Names) -> Result<(), Refusal>
        requires ready { IsUnderWay self.old }
        requires given { AreBack (durable_of self.old.recorded) (Some names) }
        ensures steps { EventSteps (commit_on (state_at self.old) req (Some names)) self.old result self.new }
        ensures back { GoesBack self.old self.new }
    {
        if let Some(chunk) = self.standing().unrestored(&names)? {
            return self.refuse(req, Refusal::Unrestored(chunk));
        }
        let plan = self.standing().commit_plan(req, &names)?;
        self.carry_out_or_refuse_with(req, plan, Some(names))
    }

    /// The rollback that is begun is done.
    pub fn rollback_commit(&mut self, req: ReqId) -> Result<(), Refusal>
        requires { IsUnderWay self.old }
        ensures steps { EventSteps (rollback_commit (state_at self.old) req) self.old result self.new }
        ensures back { GoesBack self.old self.new }
    {
        if self.recorded.phase != Phase::Rolling {
            return self.refuse(req, Refusal::NotUpgrading);
        }
        match self.recorded.names_back() {
            Ok(names) => self.commit_on(req, names),
            Err(Refusal::Memory) => Err(Refusal::Memory),
            Err(_) => self.refuse(req, Refusal::BadLine),
        }
    }
}

impl<D: Disk> Master<D> {
    /// Begins to prepare an upgrade for a client's request, at this moment, in seconds, as `query` answers one. The calls that wait for a replica
    /// are given up as 11, and each chunk that isn't quiet is made so. Refused 12 while rolling back, 14 while preparing or while an upgrade
    /// stands, 36 with the lowest path of a call that waits, 31 where a version for each of these chunks isn't left, 30 where the journal has
    /// no room for them. The answer is the epoch that stands.
    /// The name is that of HDFS, whose `rollingUpgrade prepare` is this and `prepare_commit` in one.
    pub fn prepare_begin(&mut self, req: ReqId, moment: Moment) -> Result<Turn, Refusal>
        ensures { MasterAnswers D.seen D.failures (Some req) (call_turn self.old.config self.old.state req moment calls.PrepareBegin) self.old result self.new }
    {
        self.answer_call(req, moment, Call::PrepareBegin)
    }

    /// The master's table of leases, if every chunk of it is quiet: none is leased, and no view is proposed for one. 15 with the lowest of which
    /// that isn't so. It takes no memory, and nothing changes.
    pub fn all_quiet(&self) -> Result<AllQuiet, Refusal>
        ensures { TellsQuiet self.now.state result }
    {
        self.event.standing().all_quiet()
    }

    /// Prepares the upgrade for a client's request, at this moment, in seconds, as `query` answers one, and tells the next epoch, an odd one, to every
    /// server. It can't be called but with the master's own table of leases as it is now, of which every chunk is quiet (`all_quiet`): so
    /// each lease was revoked before. Refused 12 while rolling back, 14 while an upgrade stands, 13 where none is begun, 15 with the lowest chunk for
    /// which something is asked still, 31 where no epoch is left, 30 where the journal has no room. The answer is the new epoch.
    /// A rollback leads back to what stands here: over each run of a whole store that is `a_rollback_gives_back_names_and_bytes` of
    /// `gs_laws_chunks`.
    pub fn prepare_commit(
        &mut self,
        quiet: AllQuiet,
        req: ReqId,
        moment: Moment,
    ) -> Result<Turn, Refusal>
        requires { IsTableOf quiet self.old.state }
        ensures { MasterAnswers D.seen D.failures (Some req) (call_turn self.old.config self.old.state req moment calls.PrepareCommit) self.old result self.new }
    {
        drop(quiet);
        self.answer_call(req, moment, Call::PrepareCommit)
    }

    /// Ends preparing for a client's request, at this moment, in seconds, as `query` answers one; nothing is prepared, and no record tells of it. Refused 12
    /// while rolling back, 13 where none is begun. The answer is the epoch that stands.
    pub fn prepare_abort(&mut self, req: ReqId, moment: Moment) -> Result<Turn, Refusal>
        ensures { MasterAnswers D.seen D.failures (Some req) (call_turn self.old.config self.old.state req moment calls.PrepareAbort) self.old result self.new }
    {
        self.answer_call(req, moment, Call::PrepareAbort)
    }

    /// Ends the upgrade for good for a client's request, at this moment, in seconds, as `query` answers one: what it has changed stays, as behind HDFS's
    /// `rollingUpgrade finalize`, and the next epoch, an even one, is told to every server. Refused 12 while rolling back, 13 where none
    /// stands, 31 where no epoch is left, 30 where the journal has no room. The answer is the new epoch.
    pub fn finalize(&mut self, req: ReqId, moment: Moment) -> Result<Turn, Refusal>
        ensures { MasterAnswers D.seen D.failures (Some req) (call_turn self.old.config self.old.state req moment calls.Finalize) self.old result self.new }
    {
        self.answer_call(req, moment, Call::Finalize)
    }

    /// Begins to take the upgrade back for a client's request, at this moment, in seconds, as `query` answers one. All calls that wait are
    /// refused 12, and the next epoch, an even one, is told to every server. Refused 12 while one goes on already, 13 where no upgrade stands, 31 where no
    /// epoch is left, 30 where the journal has no room. The answer is the new epoch. HDFS's rollback is a restart; this one needs no stop.
    pub fn rollback_begin(&mut self, req: ReqId, moment: Moment) -> Result<Turn, Refusal>
        ensures { MasterAnswers D.seen D.failures (Some req) (call_turn self.old.config self.old.state req moment calls.RollbackBegin) self.old result self.new }
    {
        self.answer_call(req, moment, Call::RollbackBegin)
    }

    /// Takes the upgrade back for a client's request, at this moment, in seconds, as `query` answers one, once the servers have told what they have as it
    /// was sealed. Refused 13 where no rollback is begun, 34 where its edits can't be taken back, 16 with the lowest chunk
    /// that had a reference at prepare and of which nobody has told, 30 where the journal has no room. The answer is the epoch that stands.
    /// Over each run of a whole store, what it gives back is `a_rollback_gives_back_names_and_bytes` of `gs_laws_chunks`, and when it is
    /// accepted `a_commit_is_decided_by_what_was_named` and `one_survivor_is_enough`.
    pub fn rollback_commit(&mut self, req: ReqId, moment: Moment) -> Result<Turn, Refusal>
        ensures { MasterAnswers D.seen D.failures (Some req) (call_turn self.old.config self.old.state req moment calls.RollbackCommit) self.old result self.new }
    {
        self.answer_call(req, moment, Call::RollbackCommit)
    }
}
