// An upgrade: why it can't be ended, the records that end an epoch, and what a rollback leads back to.
ghost use Rattle.std.specs.Prelude.{[], ◌&&◌, ◌<◌, ◌==◌, ◌≡◌, IfErr, IfNone, IfOk, vec_capacity, vec_len, ℕ};
ghost use Rattle.std.specs.FinMap as fin;
ghost use Rattle.std.specs.List.{list_all};
ghost use Rattle.std.specs.Ordering.{nat_cmp};
ghost use Rattle.gs_base.specs.Numbers.{last_number};
ghost use Rattle.gs_master_record.specs.Plain as entries;
ghost use Rattle.gs_master_record.specs.Plain.{plain_inverse};
ghost use Rattle.gs_master_record.specs.declared.checkpoint.Phase.TheVariants.{Ordinary, Rolling};
ghost use Rattle.gs_master_spec.specs.Applied.{applied, are_answers, is_prepared_on, may_restore, with_epoch, without_prepared};
ghost use Rattle.gs_master_spec.specs.Durable.{is_rolling, prepared_view};
ghost use Rattle.gs_master_state.specs.inner.Recorded.{answers_for_one, Applies, chunks_of, durable_of, KeepsRooms, restored_chunks};
ghost use Rattle.gs_master_state.specs.inner.Reversing.{AreBack, GivesNamesBack, TakesBackOne};
ghost use Rattle.gs_master_spec.specs.State.{first_of};
ghost use Rattle.gs_master_state.specs.inner.TakingBack.{Enters, IsUndo};
ghost use Rattle.gs_master_spec.specs.Upgrades.{end_tests, is_last_epoch};
ghost use Rattle.gs_base_table.specs.Slots.{live};

use crate::held_names::HeldNames;
use crate::recorded::Recorded;
use crate::undo::{EpochBefore, KeptBefore, RollbackBefore, Undo};
use gs_base::{EpochEnd, Handle, Members, Refusal, Stamp};
use gs_base_table::Table;
use gs_edit::{ListedInverse, Names};
use gs_lease::{View, restore};
use gs_lease_table::LeaseTable;
use gs_master_record::{Answered, Phase};
use gs_master_spec::asking::Prepared;
use std::alloc::{AllocError, Global};
use std::mem;

impl Recorded {
    /// Why an upgrade can't be ended, if it can't.
    pub fn refusal_of_end(&self) -> Option<Refusal>
        ensures judged { result ≡ first_of (end_tests (durable_of self.now).phase (is_last_epoch (durable_of self.now))) }
        ensures left { IfNone result ((durable_of self.now).epoch < last_number) }
    {
        if self.phase != Phase::Upgrade {
            return Some(Refusal::NotUpgrading);
        }
        if self.epoch == u64::MAX {
            return Some(Refusal::Exhausted);
        }
        None
    }
}

/// Gives up what was kept since prepare, and answers it.
pub fn exchange_kept(
    alloc: Global,
    inverses: &mut Vec<ListedInverse>,
    prepared: &mut Table<Handle, Prepared>,
) -> KeptBefore
    ensures inverses { result.inverses ≡ inverses.old }
    ensures prepared { result.prepared ≡ prepared.old }
    ensures none { inverses.new.items ≡ [] }
    ensures empty { live nat_cmp prepared.new ≡ fin.empty }
{
    KeptBefore {
        inverses: mem::replace(inverses, Vec::new(alloc)),
        prepared: mem::replace(prepared, Table::new(alloc)),
    }
}

impl Recorded {
    /// The next epoch begins, and what was kept since prepare is given up. There is room for how this one ends.
    fn enter_epoch(&mut self, end: EpochEnd, phase: Phase) -> Undo
        requires room { vec_len self.old.ends < vec_capacity self.old.ends }
        requires more { self.old.epoch < last_number }
        ensures value { durable_of self.new ≡ without_prepared (with_epoch (durable_of self.old) end phase) }
        ensures back { IsUndo self.old self.new result }
    {
        let epoch = self.epoch;
        let stood = self.phase;
        self.end_epoch(end, phase);
        let kept = exchange_kept(self.alloc, &mut self.inverses, &mut self.prepared);
        Undo::Epoch(EpochBefore {
            epoch,
            phase: stood,
            kept,
        })
    }

    /// An upgrade is prepared. There is room for how the epoch ends.
    #[tactic(auto, unfolding(gs_master_spec::specs::Applied::applied))]
    pub fn enter_prepare(&mut self, epoch: u64) -> Result<Undo, Refusal>
        requires { vec_len self.old.ends < vec_capacity self.old.ends }
        ensures applied { (moment chunks : ℕ) → Applies (entries.Prepare epoch moment chunks) result (durable_of self.old) (durable_of self.new) }
        ensures back { IfOk result (λ undo. IsUndo self.old self.new undo) }
        ensures leases { IfErr result (λ _. self.new.leases ≡ self.old.leases) }
        ensures keeps { IfErr result (λ _. KeepsRooms self.old self.new) }
    {
        if self.phase != Phase::Ordinary || !self.is_next_epoch(epoch) || !self.are_at_rest() {
            return Err(Refusal::BadLine);
        }
        Ok(self.enter_epoch(EpochEnd::Prepare, Phase::Upgrade))
    }

    /// An upgrade is kept. There is room for how the epoch ends.
    #[tactic(auto, unfolding(gs_master_spec::specs::Applied::applied))]
    pub fn enter_finalize(&mut self, epoch: u64) -> Result<Undo, Refusal>
        requires { vec_len self.old.ends < vec_capacity self.old.ends }
        ensures applied { Applies (entries.Finalize epoch) result (durable_of self.old) (durable_of self.new) }
        ensures back { IfOk result (λ undo. IsUndo self.old self.new undo) }
        ensures leases { IfErr result (λ _. self.new.leases ≡ self.old.leases) }
        ensures keeps { IfErr result (λ _. KeepsRooms self.old self.new) }
    {
        if self.phase != Phase::Upgrade || !self.is_next_epoch(epoch) {
            return Err(Refusal::BadLine);
        }
        Ok(self.enter_epoch(EpochEnd::Finalize, Phase::Ordinary))
    }

    /// The rollback of an upgrade is begun. There is room for how the epoch ends.
    #[tactic(auto, unfolding(gs_master_spec::specs::Applied::applied))]
    pub fn enter_rollback(&mut self, epoch: u64) -> Result<Undo, Refusal>
        requires { vec_len self.old.ends < vec_capacity self.old.ends }
        ensures applied { Applies (entries.RollbackBegin epoch) result (durable_of self.old) (durable_of self.new) }
        ensures back { IfOk result (λ undo. IsUndo self.old self.new undo) }
        ensures leases { IfErr result (λ _. self.new.leases ≡ self.old.leases) }
        ensures keeps { KeepsRooms self.old self.new }
    {
        if self.phase != Phase::Upgrade || !self.is_next_epoch(epoch) {
            return Err(Refusal::BadLine);
        }
        let before = self.epoch;
        self.end_epoch(EpochEnd::Rollback, Phase::Rolling);
        Ok(Undo::RollbackBegin(before))
    }
}

/// Takes an edit back by its list. BadLine where it is the list of no inverse, or doesn't fit the names.
fn take_back(alloc: Global, names: &mut Names, listed: &ListedInverse) -> Result<(), Refusal>
    ensures { TakesBackOne (plain_inverse listed.now) names.old result names.new }
{
    let inverse = match listed.inverse(alloc) {
        Ok(inverse) => inverse,
        Err(refusal) => return Err(refusal),
    };
    names.undo(&inverse)
}

impl Recorded {
    /// The names once all edits since prepare are taken back, the last first. BadLine where one of the inverses is none, or
    /// doesn't fit the names that the later ones lead to. It copies the names.
    pub fn names_back(&self) -> Result<Names, Refusal>
        ensures { GivesNamesBack (durable_of self.now).inverses (durable_of self.now).names result }
    {
        let mut names = self.names.copy()?;
        let mut left = self.inverses.len();
        while left > 0 {
            left -= 1;
            if let Err(refusal) = take_back(self.alloc, &mut names, &self.inverses[left]) {
                return Err(refusal);
            }
        }
        Ok(names)
    }

    /// The same, where they may be given: then nothing is copied.
    fn given_back(&self, back: Option<Names>) -> Result<Names, Refusal>
        requires { AreBack (durable_of self.now) back }
        ensures { GivesNamesBack (durable_of self.now).inverses (durable_of self.now).names result }
    {
        match back {
            Some(names) => Ok(names),
            None => self.names_back(),
        }
    }

    /// The view of a chunk as it stood at prepare, on the servers that have answered.
    fn restored_view(&self, count: u64, members: Members) -> View
        ensures { result ≡ record { stamp = record { epoch = (durable_of self.now).epoch; version = 0 }; count = count; members = members; term = None } }
    {
        let epoch = self.epoch;
        View {
            stamp: Stamp { epoch, version: 0 },
            count,
            members,
            term: None,
        }
    }

    /// Whether an answer is the one for a listed chunk.
    fn is_answer(&self, listed: (Handle, u32), answer: &Answered) -> bool
        ensures { result ≡ answers_for_one (prepared_view (durable_of self.now)) (listed.0, listed.1) answer.now }
    {
        let (chunk, count) = listed;
        answer.handle == chunk && may_restore(self.prepared_view(chunk), count, answer.members)
    }

    /// Whether there is an answer for each listed chunk, in their order, and no other.
    fn are_answers(&self, listed: &[(Handle, u32)], answered: &[Answered]) -> bool
        ensures { result ≡ are_answers (prepared_view (durable_of self.now)) listed.now answered.now }
    {
        if listed.len() != answered.len() {
            return false;
        }
        for place in 0..listed.len() {
            if !self.is_answer(listed[place], &answered[place]) {
                return false;
            }
        }
        true
    }

    /// The chunks as they stood at prepare, on the servers that have answered.
    pub fn restored(&self, answered: &[Answered]) -> Result<LeaseTable, AllocError>
        ensures { IfOk result (λ leases. chunks_of (live nat_cmp leases) ≡ restored_chunks (durable_of self.now) answered.now) }
    {
        let mut leases = LeaseTable::new(self.alloc);
        let mut left = answered.len();
        while left > 0 {
            left -= 1;
            let answer = answered[left];
            if let Some(prepared) = self.prepared_view(answer.handle) {
                let view = self.restored_view(prepared.view.count, answer.members);
                leases.reserve(answer.handle)?;
                leases.put(answer.handle, restore(view, None));
            }
        }
        Ok(leases)
    }

    /// Whether a rollback is begun, and this is its epoch.
    fn may_commit(&self, epoch: u64) -> bool
        ensures { result ≡ (is_rolling (durable_of self.now).phase && (epoch == (durable_of self.now).epoch)) }
    {
        self.phase == Phase::Rolling && epoch == self.epoch
    }

    /// These names and chunks stand, and what was kept since prepare is given up. It answers what stood.
    fn exchange_all(&mut self, names: Names, leases: LeaseTable) -> RollbackBefore
        ensures value { durable_of self.new ≡ record (without_prepared (durable_of self.old)) { names = names; chunks = chunks_of (live nat_cmp leases); phase = Ordinary } }
        ensures back { self.old.phase ≡ Rolling → IsUndo self.old self.new (Undo.RollbackCommit result) }
    {
        self.phase = Phase::Ordinary;
        RollbackBefore {
            names: mem::replace(&mut self.names, HeldNames::new(self.alloc, names)),
            leases: mem::replace(&mut self.leases, leases),
            kept: exchange_kept(self.alloc, &mut self.inverses, &mut self.prepared),
        }
    }

    /// The rollback of an upgrade is done. The names to which it leads may be given. It wants memory for the chunks, and for
    /// the names where they aren't given, before anything changes.
    pub fn enter_commit(
        &mut self,
        epoch: u64,
        answered: &[Answered],
        back: Option<Names>,
    ) -> Result<Undo, Refusal>
        requires { AreBack (durable_of self.old) back }
        ensures applied { Enters (entries.RollbackCommit epoch answered.now) result (durable_of self.old) (durable_of self.new) }
        ensures back { IfOk result (λ undo. IsUndo self.old self.new undo) }
        ensures same { IfErr result (λ _. self.new ≡ self.old) }
    {
        if !self.may_commit(epoch) {
            return Err(Refusal::BadLine);
        }
        let names = match self.given_back(back) {
            Ok(names) => names,
            Err(refusal) => return Err(refusal),
        };
        let listed = names.refs().entries(self.alloc)?;
        if !self.are_answers(&listed, answered) {
            return Err(Refusal::BadLine);
        }
        let leases = self.restored(answered)?;
        Ok(Undo::RollbackCommit(self.exchange_all(names, leases)))
    }
}

/// Whether each of these may have a chunk as it stood at prepare.
fn are_prepared_on(prepared: &Prepared, servers: Members) -> bool
    ensures { result ≡ list_all (is_prepared_on prepared.now) servers }
{
    let mut left = servers;
    while let Some(server) = left.pop_first() {
        if !prepared.view.members.contains(server) && !prepared.holders.contains(server) {
            return false;
        }
    }
    true
}

/// Whether these may be the servers on which a chunk is restored that had so many references.
fn may_restore(prepared: Option<Prepared>, count: u32, servers: Members) -> bool
    ensures { result ≡ may_restore prepared count servers }
{
    let Some(prepared) = prepared else {
        return false;
    };
    are_prepared_on(&prepared, servers) && (count == 0 || !servers.is_empty())
}
