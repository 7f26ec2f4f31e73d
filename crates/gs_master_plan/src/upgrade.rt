// An upgrade: how it is prepared, and ended for good or by a rollback.
ghost use Rattle.std.specs.Prelude.{[], ◌+◌, ◌<◌, ◌∷◌, ◌≡◌, false, IfNone, IfOk, None, true};
ghost use Rattle.std.specs.FinMap as fin;
ghost use Rattle.gs_base.specs.Numbers.{last_number};
ghost use Rattle.gs_base.specs.declared.epoch.EpochEnd.TheVariants as ends;
ghost use Rattle.gs_master_plan.specs.inner.Planning.{state_of};
ghost use Rattle.gs_master_plan.specs.inner.Refusing.{finalized_so, prepared_so, refusal_to_begin, refusal_to_prepare, rolled_back_so};
ghost use Rattle.gs_master_record.specs.Plain as entries;
ghost use Rattle.gs_master_spec.specs.Durable.{prepared_view};
ghost use Rattle.gs_master_state.specs.inner.Plans.{plan_of};
ghost use Rattle.gs_master_spec.specs.Upgrades.{accepted_plan, all_unquiet, answers_for, lacks_answer, restored_on, tell_all, told_of, unrestored};
ghost use Rattle.gs_master_spec.specs.declared.change.Change.TheVariants as changes;

use crate::standing::Standing;
use gs_base::{Config, EpochEnd, Handle, Members, Moment, PathText, Refusal, ReqId};
use gs_edit::Names;
use gs_master_guard::preparing::refusal_of_prepare;
use gs_master_guard::restoring::{lacks_answer, restored_on};
use gs_master_guard::telling::tell_all;
use gs_master_record::{Answered, Entry, Phase};
use gs_master_spec::change::Change;
use gs_master_state::plan::Plan;
use std::alloc::AllocError;

impl<'a> Standing<'a> {
    /// Why preparing isn't begun, if it isn't. So many chunks are to be made quiet.
    pub fn refusal_of_begin(&self, unquiet: u64) -> Result<Option<Refusal>, AllocError>
        ensures { IfOk result (λ refusal. refusal ≡ refusal_to_begin (state_of self.entry.now) unquiet) }
    {
        if self.memory.is_preparing() || self.recorded.phase != Phase::Ordinary {
            return Ok(Some(Refusal::AlreadyUpgrading));
        }
        if let Some(lowest) = self.memory.lowest_pending()? {
            return Ok(Some(Refusal::Pending(PathText::new(lowest))));
        }
        if !self.recorded.has_versions(unquiet) {
            return Ok(Some(Refusal::Exhausted));
        }
        Ok(None)
    }

    /// The answer to preparing that is begun. This is the epoch.
    pub fn begin_answer(&self, req: ReqId, epoch: u64) -> Result<Plan, AllocError>
        ensures { IfOk result (λ plan. plan_of plan ≡ accepted_plan (state_of self.entry.now) req [] (changes.Prepare true ∷ []) [] epoch) }
    {
        let alloc = self.recorded.alloc;
        let changes = vec![in alloc; Change::Prepare(true)]?;
        self.accepted_plan(req, Vec::new(alloc), changes, Vec::new(alloc), epoch)
    }

    /// Why an upgrade isn't prepared, if it isn't. These are the chunks that aren't quiet.
    pub fn refusal_of_prepare(&self, unquiet: &[Handle]) -> Option<Refusal>
        ensures judged { result ≡ refusal_to_prepare (state_of self.entry.now) unquiet.now }
        ensures left { IfNone result ((state_of self.entry.now).durable.epoch < last_number) }
        ensures quiet { IfNone result (unquiet.now ≡ []) }
    {
        refusal_of_prepare(
            self.recorded.phase,
            self.memory.is_preparing(),
            unquiet,
            self.recorded.epoch,
        )
    }

    /// An upgrade is prepared, of a master of which every chunk is quiet. There is an epoch more.
    pub fn prepare_plan(
        &self,
        config: &Config,
        req: ReqId,
        moment: Moment,
    ) -> Result<Plan, AllocError>
        requires left { (state_of self.now).durable.epoch < last_number }
        requires quiet { all_unquiet (state_of self.now) ≡ [] }
        ensures { IfOk result (λ plan. plan_of plan ≡ prepared_so config.now (state_of self.entry.now) req moment) }
    {
        let alloc = self.recorded.alloc;
        let epoch = self.recorded.epoch + 1;
        let chunks = self.chunk_count();
        let record = Entry::Prepare {
            epoch,
            moment,
            chunks,
        };
        let records = vec![in alloc; record]?;
        let changes = vec![in alloc; Change::Prepare(false)]?;
        let sent = tell_all(alloc, config, epoch, EpochEnd::Prepare)?;
        self.accepted_plan(req, records, changes, sent, epoch)
    }

    /// An upgrade is finalized. There is an epoch more.
    pub fn finalize_plan(&self, config: &Config, req: ReqId) -> Result<Plan, AllocError>
        requires { (state_of self.now).durable.epoch < last_number }
        ensures { IfOk result (λ plan. plan_of plan ≡ finalized_so config.now (state_of self.entry.now) req) }
    {
        let alloc = self.recorded.alloc;
        let epoch = self.recorded.epoch + 1;
        let records = vec![in alloc; Entry::Finalize { epoch }]?;
        let sent = tell_all(alloc, config, epoch, EpochEnd::Finalize)?;
        self.accepted_plan(req, records, Vec::new(alloc), sent, epoch)
    }

    /// Preparing ends, and nothing is prepared.
    pub fn abort_plan(&self, req: ReqId) -> Result<Plan, AllocError>
        ensures { IfOk result (λ plan. plan_of plan ≡ accepted_plan (state_of self.entry.now) req [] (changes.Prepare false ∷ []) [] (state_of self.entry.now).durable.epoch) }
    {
        let alloc = self.recorded.alloc;
        let changes = vec![in alloc; Change::Prepare(false)]?;
        let epoch = self.recorded.epoch;
        self.accepted_plan(req, Vec::new(alloc), changes, Vec::new(alloc), epoch)
    }

    /// Who has a chunk as it was sealed, of its prepared members and holders.
    fn restored_on(&self, chunk: Handle) -> Members
        ensures { result ≡ restored_on (prepared_view (state_of self.entry.now).durable chunk) (told_of (state_of self.entry.now) chunk) }
    {
        restored_on(
            self.recorded.prepared_view(chunk),
            self.memory.restored_on(chunk),
        )
    }

    /// Whether a chunk that was listed with so many references at prepare has no answer, and needs one.
    fn lacks_answer(&self, chunk: Handle, count: u32) -> bool
        ensures { result ≡ lacks_answer (prepared_view (state_of self.entry.now).durable) (told_of (state_of self.entry.now)) (chunk, count) }
    {
        lacks_answer(
            self.recorded.prepared_view(chunk),
            self.memory.restored_on(chunk),
            count,
        )
    }

    /// The answers for the chunks that were listed at prepare, ascending. These are its names.
    pub fn answers_for(&self, names: &Names) -> Result<Vec<Answered>, AllocError>
        ensures { IfOk result (λ answers. answers.items ≡ answers_for (prepared_view (state_of self.entry.now).durable) (told_of (state_of self.entry.now)) (fin.entries names.now.refs)) }
    {
        let alloc = self.recorded.alloc;
        let listed = names.refs().entries(alloc)?;
        let mut answers = Vec::new(alloc);
        for place in 0..listed.len() {
            let (handle, _) = listed[place];
            let members = self.restored_on(handle);
            answers.push(Answered { handle, members })?;
        }
        Ok(answers)
    }

    /// The lowest chunk without an answer that it needs. These are the names of the prepare.
    pub fn unrestored(&self, names: &Names) -> Result<Option<Handle>, AllocError>
        ensures { IfOk result (λ chunk. chunk ≡ unrestored (prepared_view (state_of self.entry.now).durable) (told_of (state_of self.entry.now)) (fin.entries names.now.refs)) }
    {
        let listed = names.refs().entries(self.recorded.alloc)?;
        for place in 0..listed.len() {
            let (chunk, count) = listed[place];
            if self.lacks_answer(chunk, count) {
                return Ok(Some(chunk));
            }
        }
        Ok(None)
    }

    /// The record of a rollback that is begun. There is an epoch more.
    pub fn rollback_record(&self) -> Result<Plan, AllocError>
        requires { (state_of self.now).durable.epoch < last_number }
        ensures { IfOk result (λ plan. plan_of plan ≡ record { records = entries.RollbackBegin ((state_of self.entry.now).durable.epoch + 1) ∷ []; changes = []; sent = []; said = None }) }
    {
        let epoch = self.recorded.epoch + 1;
        let mut plan = Plan::nothing(self.recorded.alloc);
        plan.records.push(Entry::RollbackBegin { epoch })?;
        Ok(plan)
    }

    /// The answer to a rollback that is begun with this epoch.
    pub fn rollback_answer(
        &self,
        config: &Config,
        req: ReqId,
        epoch: u64,
    ) -> Result<Plan, AllocError>
        ensures { IfOk result (λ plan. plan_of plan ≡ accepted_plan (state_of self.entry.now) req [] [] (tell_all config.now epoch ends.Rollback) epoch) }
    {
        let alloc = self.recorded.alloc;
        let sent = tell_all(alloc, config, epoch, EpochEnd::Rollback)?;
        self.accepted_plan(req, Vec::new(alloc), Vec::new(alloc), sent, epoch)
    }

    /// A rollback is done. These are the names of the prepare.
    pub fn commit_plan(&self, req: ReqId, names: &Names) -> Result<Plan, AllocError>
        ensures { IfOk result (λ plan. plan_of plan ≡ rolled_back_so (state_of self.entry.now) req names.now) }
    {
        let alloc = self.recorded.alloc;
        let epoch = self.recorded.epoch;
        let answered = self.answers_for(names)?;
        let record = Entry::RollbackCommit { epoch, answered };
        let records = vec![in alloc; record]?;
        let changes = vec![in alloc; Change::RolledBack]?;
        self.accepted_plan(req, records, changes, Vec::new(alloc), epoch)
    }
}
