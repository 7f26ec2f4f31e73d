// A journal on two disks, of which one counts.
ghost use Rattle.std.specs.Prelude.{◌≡◌, ◌≢◌, ◌⊎◌, ◌<◌, ◌≤◌, ◌^◌, ◌+◌, ◌-◌, ℕ, List, true, false, not, length, if◌then◌else◌, Ok, Err, None, OnOk, IfOk, IfErr, IfSome, IsTrue};
ghost use Rattle.gs_base.specs.declared.refusal.Refusal.TheVariants.{Device, Memory};
ghost use Rattle.gs_journal_disk.specs.Disk.{LeavesPairs};
ghost use Rattle.gs_journal.specs.Records.{generation_standing, standing};
ghost use Rattle.gs_journal.specs.Forms.{is_text};
ghost use Rattle.gs_journal.specs.Drafts.{draft_refusal};

use crate::draft::Draft;
use crate::failing::FailingDisk;
use crate::fault::Fault;
use crate::pair::Pair;
use crate::record::Record;
use crate::start::start;
use crate::version::Version;
use gs_base::Refusal;
use gs_journal_disk::{Disk, fits, has_failed};
use std::alloc::Global;
use std::marker::Model;

/// A journal: records that are on one of two disks, whole or not at all, whenever a crash comes. The disk that counts is
/// the one of the greater generation; the other is made anew by the next checkpoint.
///
/// A call in which a disk fails refuses `Device` and leaves the journal closed: every later one refuses `Device` until the
/// disks are opened again.
pub struct Journal<D: Disk> {
    disks: Pair<D>,
    limit: u32,
    is_failed: bool,
}

impl<D: Disk + Drop> Drop for Journal<D> {
    fn drop(self) {
        let Self {
            disks: _,
            limit: _,
            is_failed: _,
        } = self;
    }
}

impl<D: Disk> Model for Journal<D> {
    ghost use Rattle.std.specs.Prelude.{◌≡◌, ◌+◌, false};
    ghost use Rattle.gs_journal.specs.Journal.{State};

    ghost Value = { State D };

    ghost use Rattle.gs_journal.specs.inner.Pair.{text, IsSettled};

    ghost view = { λ j. record {
      text = text D.seen j.disks;
      size = j.disks.end + 1;
      limit = j.limit;
      generation = j.disks.generation;
      is_failed = j.is_failed;
      first = j.disks.first;
      second = j.disks.second;
    } };

    ghost invariant = { λ j. j.is_failed ≡ false → IsSettled D.seen D.may_leave j.disks };
}

/// How many bytes a disk with one record has more than the record's body.
const AROUND: usize = 20;

/// Two disks that weren't opened, and why.
#[derive(Drop)]
pub struct Unopened<D: Disk> {
    pub refusal: Refusal,
    pub first: D,
    pub second: D,
}

impl<D: Disk> Journal<D> {
    ghost use Rattle.gs_journal.specs.Journal.{failures_of_both, Stands, Stays, Adds, MakesCheckpoint, Closes, Wants, append_refusal, checkpoint_refusal, checkpointed, IsWithOrWithout, IsOldOrNew, IsStillOrNext, AreBoth, LeavesOther, LeavesCounting, WhyClosed, MightHaveStood};

    /// Opens two disks, whatever a crash or a failure left on them. What a crash has torn behind the records is taken away.
    /// Where neither disk counts, the first is made: a new journal has no records. No disk takes more than `limit` bytes by
    /// an append or a checkpoint.
    ///
    /// The refusal is `BadLine` where a record isn't of its form, `Device` where a disk fails, and `Memory` where memory is
    /// refused. But for `Device` the disks have the bytes that they had, and behind `Device` they tell the same records. The
    /// disks are handed back.
    pub fn open(
        alloc: Global,
        mut first: D,
        mut second: D,
        limit: u32,
    ) -> Result<Journal<D>, Unopened<D>>
        ensures stands { IfOk result (λ j. Stands D.seen D.may_leave j) }
        ensures text { IfOk result (λ j. j.text ≡ standing (D.seen first) (D.seen second)) }
        ensures form { OnOk result (is_text (standing (D.seen first) (D.seen second)) ≡ true) }
        ensures limit { IfOk result (λ j. j.limit ≡ limit) }
        ensures generation { IfOk result (λ j. j.generation ≡ generation_standing (D.seen first) (D.seen second)) }
        ensures quiet { IfOk result (λ j. failures_of_both D.failures j ≡ D.failures first + D.failures second) }
        ensures refused { IfErr result (λ u. WhyClosed (standing (D.seen first) (D.seen second))
            (D.failures first + D.failures second) (D.failures u.first + D.failures u.second) u.refusal) }
        ensures unchanged { IfErr result (λ u. u.refusal ≢ Device → (D.seen u.first ≡ D.seen first) × (D.seen u.second ≡ D.seen second)) }
        // Also where a disk fails, the disks say what they said, in the same generation.
        ensures told { IfErr result (λ u. standing (D.seen u.first) (D.seen u.second) ≡ standing (D.seen first) (D.seen second)) }
        ensures kept { IfErr result (λ u. generation_standing (D.seen u.first) (D.seen u.second) ≡ generation_standing (D.seen first) (D.seen second)) }
        // A crash at any moment of the call leaves what one just before it might have left.
        ensures any_moment { IfOk result (λ j. LeavesPairs D.moment D.left_since first second j.first j.second
            (λ a b. MightHaveStood (D.may_leave first) (D.may_leave second) (standing a b))) }
        ensures any_moment_refused { IfErr result (λ u. LeavesPairs D.moment D.left_since first second u.first u.second
            (λ a b. MightHaveStood (D.may_leave first) (D.may_leave second) (standing a b))) }
        // So does one behind a refusal.
        ensures lasts { IfErr result (λ u. (a b : List ℕ) → D.may_leave u.first a → D.may_leave u.second b
            → MightHaveStood (D.may_leave first) (D.may_leave second) (standing a b)) }
    {
        match start(alloc, &mut first, &mut second) {
            Ok(place) => Ok(Journal {
                disks: Pair {
                    first,
                    second,
                    is_second: place.is_second,
                    version: place.version,
                    generation: place.generation,
                    end: place.end,
                },
                limit,
                is_failed: false,
            }),
            Err(refusal) => Err(Unopened {
                refusal,
                first,
                second,
            }),
        }
    }

    /// The disks, the first one first.
    pub fn into_disks(self) -> (D, D)
        ensures disks { (result.0 ≡ self.first) × (result.1 ≡ self.second) }
        ensures text { standing (D.seen result.0) (D.seen result.1) ≡ self.text }
    {
        let Self {
            disks,
            limit: _,
            is_failed: _,
        } = self;
        (disks.first, disks.second)
    }

    /// The version that the journal is written in. `Device` where a disk has failed since the journal was opened.
    pub fn version(&self) -> Result<Version, Refusal>
        ensures { result ≡ (if self.now.is_failed then Err Device else Ok self.now.text.0) }
    {
        if self.is_failed {
            return Err(Refusal::Device);
        }
        Ok(self.disks.version)
    }

    /// Whether no disk has failed since the journal was opened.
    pub fn is_open(&self) -> bool
        ensures open { result ≡ not self.now.is_failed }
        ensures stands { IsTrue result → Stands D.seen D.may_leave self.now }
    {
        !self.is_failed
    }

    /// A record of this kind and body. It refuses `Memory` alone.
    pub fn record(alloc: Global, kind: u8, body: &[u8]) -> Result<Record, Refusal>
        requires { length body.now < 2 ^ 32 }
        ensures made { IfOk result (λ r. r ≡ (kind, body.now)) }
        ensures refused { IfErr result (λ e. e ≡ Memory) }
    {
        Record::new(alloc, kind, body)
    }

    /// The records, read anew: the journal keeps no list of them. `Device` where a disk has failed since the journal was
    /// opened, or fails now, and `Memory` where memory is refused: the journal is as it was.
    pub fn records(&mut self, alloc: Global) -> Result<Vec<Record>, Refusal>
        ensures closed { self.old.is_failed ≡ true → (result ≡ Err Device) × (self.new ≡ self.old) }
        ensures records { IfOk result (λ records. records.items ≡ self.old.text.1) }
        ensures stands { OnOk result (Stands D.seen D.may_leave self.new) }
        ensures stays { Stays self.old self.new }
        ensures quiet { OnOk result (failures_of_both D.failures self.new ≡ failures_of_both D.failures self.old) }
        ensures refused { IfErr result (λ e. self.old.is_failed ≡ false → Closes D.failures self.old self.new e ⊎ Wants D.failures self.old self.new e) }
        // A crash at any moment of the call leaves the records.
        ensures any_moment { self.old.is_failed ≡ false → LeavesPairs D.moment D.left_since self.old.first self.old.second self.new.first self.new.second
            (λ a b. standing a b ≡ self.old.text) }
        // It leaves all bytes of both disks.
        ensures whole { self.old.is_failed ≡ false → LeavesPairs D.moment D.left_since self.old.first self.old.second self.new.first self.new.second
            (AreBoth (D.seen self.old.first) (D.seen self.old.second)) }
        ensures other { LeavesOther D.seen self.old self.new }
    {
        if self.is_failed {
            return Err(Refusal::Device);
        }
        match self.disks.records(alloc) {
            Ok(records) => Ok(records),
            Err(refusal) => {
                self.is_failed = matches!(refusal, Refusal::Device);
                Err(refusal)
            }
        }
    }

    /// How many bytes the disk that counts has. `None` only where no number of 64 bits tells it, which no journal's is that no
    /// disk has failed of.
    pub fn size(&self) -> Option<u64>
        ensures told { IfSome result (λ n. n ≡ self.now.size) }
        ensures untold { result ≡ None → 2 ^ 64 ≤ self.now.size }
    {
        (self.disks.end as u64).checked_add(1)
    }

    /// How many it may have.
    pub fn limit(&self) -> u32
        ensures { result ≡ self.now.limit }
    {
        self.limit
    }

    /// Its generation.
    pub fn generation(&self) -> u64
        ensures { result ≡ self.now.generation }
    {
        self.disks.generation
    }

    /// How many bytes the disk that counts may still grow by.
    pub fn room(&self) -> u32
        ensures { result ≡ self.now.limit - self.now.size }
    {
        let limit = self.limit as usize;
        if self.disks.end >= limit {
            return 0;
        }
        (limit - self.disks.end - 1) as u32
    }

    /// Adds a record. At `Ok` it is on the disk: from then on each crash leaves it. It takes no memory.
    ///
    /// `Device` where a disk has failed since the journal was opened, and then `Full` where the disk would have more bytes
    /// than the limit: nothing is changed. `Device` where a disk fails now: the record stands or doesn't once the disks are
    /// opened again.
    pub fn append(&mut self, entry: &Record) -> Result<(), Refusal>
        ensures judged { IfSome (append_refusal self.old entry.now) (λ e. (result ≡ Err e) × (self.new ≡ self.old)) }
        ensures added { OnOk result (Adds self.old entry.now self.new) }
        ensures stands { OnOk result (Stands D.seen D.may_leave self.new) }
        ensures quiet { OnOk result (failures_of_both D.failures self.new ≡ failures_of_both D.failures self.old) }
        ensures failed { IfErr result (λ e. append_refusal self.old entry.now ≡ None → Closes D.failures self.old self.new e) }
        ensures either { IsWithOrWithout self.old.text entry.now self.new.text }
        // A crash at any moment of the call leaves the records from before it, with the new one or without.
        ensures any_moment { self.old.is_failed ≡ false → LeavesPairs D.moment D.left_since self.old.first self.old.second self.new.first self.new.second
            (λ a b. IsWithOrWithout self.old.text entry.now (standing a b)) }
        ensures other { LeavesOther D.seen self.old self.new }
    {
        if self.is_failed {
            return Err(Refusal::Device);
        }
        if !fits(entry.bytes().len(), self.room()) {
            return Err(Refusal::Full);
        }
        let added = self.disks.put(entry);
        self.is_failed = has_failed(&added);
        added?;
        Ok(())
    }

    /// A checkpoint of this body, which is written later. So nothing is refused for memory then.
    ///
    /// The refusal is that of `checkpoint`, and `Memory` behind those.
    pub fn draft(&self, alloc: Global, body: &[u8]) -> Result<Draft, Refusal>
        ensures judged { IfSome (checkpoint_refusal self.now body.now) (λ e. result ≡ Err e) }
        ensures made { IfOk result (λ d. d ≡ record { body = body.now; generation = self.now.generation + 1 }) }
        ensures refused { IfErr result (λ e. checkpoint_refusal self.now body.now ≡ None → e ≡ Memory) }
    {
        if self.is_failed {
            return Err(Refusal::Device);
        }
        if self.disks.generation == u64::MAX {
            return Err(Refusal::Exhausted);
        }
        if body.len() + AROUND > self.limit as usize {
            return Err(Refusal::Full);
        }
        Draft::new(alloc, self.disks.generation + 1, body)
    }

    /// Puts a checkpoint that was made before in the place of all records, on the other disk, which counts from then on. It takes
    /// no memory, and other records may have been added since it was made.
    ///
    /// `Device` where a disk has failed since the journal was opened, then `BadLine` where the draft isn't of the generation
    /// behind the journal's, then `Full` where the disk would have more bytes than the limit: nothing is changed. `Device` where
    /// a disk fails now: the checkpoint stands, or the records from before do, once the disks are opened again.
    pub fn write_draft(&mut self, draft: &Draft) -> Result<(), Refusal>
        ensures judged { IfSome (draft_refusal self.old draft.now) (λ e. (result ≡ Err e) × (self.new ≡ self.old)) }
        ensures made { OnOk result (MakesCheckpoint self.old draft.now.body self.new) }
        ensures stands { OnOk result (Stands D.seen D.may_leave self.new) }
        ensures quiet { OnOk result (failures_of_both D.failures self.new ≡ failures_of_both D.failures self.old) }
        ensures failed { IfErr result (λ e. draft_refusal self.old draft.now ≡ None → Closes D.failures self.old self.new e) }
        ensures either { IsOldOrNew self.old.text (checkpointed draft.now.body) self.new.text }
        // A crash at any moment of the call leaves the records from before it, or the checkpoint alone.
        ensures any_moment { self.old.is_failed ≡ false → LeavesPairs D.moment D.left_since self.old.first self.old.second self.new.first self.new.second
            (λ a b. IsOldOrNew self.old.text (checkpointed draft.now.body) (standing a b)) }
        // The checkpoint is of the next generation.
        ensures next { self.old.is_failed ≡ false → LeavesPairs D.moment D.left_since self.old.first self.old.second self.new.first self.new.second
            (IsStillOrNext self.old.text self.old.generation (checkpointed draft.now.body)) }
        ensures counting { LeavesCounting D.seen self.old self.new }
    {
        if self.is_failed {
            return Err(Refusal::Device);
        }
        if !draft.is_behind(self.disks.generation) {
            return Err(Refusal::BadLine);
        }
        if draft.entry().body().len() + AROUND > self.limit as usize {
            return Err(Refusal::Full);
        }
        let made = self.disks.make_other(draft.entry(), draft.bytes());
        self.is_failed = has_failed(&made);
        made?;
        Ok(())
    }

    /// Puts one record in the place of all: a checkpoint of this body, on the other disk, which counts from then on. New
    /// checkpoints are of the second version.
    ///
    /// `Device` where a disk has failed since the journal was opened, then `Exhausted` where the generation is the last that
    /// there is, then `Full` where the disk would have more bytes than the limit, then `Memory` where memory is refused:
    /// nothing is changed. `Device` where a disk fails now: the checkpoint stands, or the records from before do, once the
    /// disks are opened again.
    pub fn checkpoint(&mut self, alloc: Global, body: &[u8]) -> Result<(), Refusal>
        ensures judged { IfSome (checkpoint_refusal self.old body.now) (λ e. (result ≡ Err e) × (self.new ≡ self.old)) }
        ensures made { OnOk result (MakesCheckpoint self.old body.now self.new) }
        ensures stands { OnOk result (Stands D.seen D.may_leave self.new) }
        ensures quiet { OnOk result (failures_of_both D.failures self.new ≡ failures_of_both D.failures self.old) }
        ensures failed { IfErr result (λ e. checkpoint_refusal self.old body.now ≡ None →
            Closes D.failures self.old self.new e ⊎ ((e ≡ Memory) × (self.new ≡ self.old))) }
        ensures either { IsOldOrNew self.old.text (checkpointed body.now) self.new.text }
        // A crash at any moment of the call leaves the records from before it, or the checkpoint alone.
        ensures any_moment { self.old.is_failed ≡ false → LeavesPairs D.moment D.left_since self.old.first self.old.second self.new.first self.new.second
            (λ a b. IsOldOrNew self.old.text (checkpointed body.now) (standing a b)) }
        // The checkpoint is of the next generation.
        ensures next { self.old.is_failed ≡ false → LeavesPairs D.moment D.left_since self.old.first self.old.second self.new.first self.new.second
            (IsStillOrNext self.old.text self.old.generation (checkpointed body.now)) }
        ensures counting { LeavesCounting D.seen self.old self.new }
    {
        let _ = &self.disks;
        let draft = self.draft(alloc, body)?;
        self.write_draft(&draft)
    }
}

impl<D: Disk> Journal<FailingDisk<D>> {
    ghost use Rattle.gs_journal.specs.Faults.{armed};

    /// Gives the first disk a fault in place of the one that it has.
    pub fn arm_first(&mut self, fault: Fault)
        ensures { self.new ≡ record self.old { first = armed self.old.first fault } }
    {
        self.disks.first.arm(fault);
    }

    /// Gives the second disk a fault in place of the one that it has.
    pub fn arm_second(&mut self, fault: Fault)
        ensures { self.new ≡ record self.old { second = armed self.old.second fault } }
    {
        self.disks.second.arm(fault);
    }
}
