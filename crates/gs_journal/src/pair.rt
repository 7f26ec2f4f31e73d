// Two disks, of which one counts.
ghost use Rattle.std.specs.Prelude.{◌≡◌, ◌<◌, ◌^◌, ◌+◌, ◌++◌, [], ◌∷◌, OnOk, IfOk};
ghost use Rattle.gs_journal_disk.specs.Disk.{HasCause, LeavesPairs};
ghost use Rattle.gs_journal.specs.Records.{frame, header, header_length, standing};
ghost use Rattle.gs_journal.specs.Journal.{record_size, with_record, IsWithOrWithout, IsStillOrNext, AreBoth};
ghost use Rattle.gs_journal.specs.inner.Places.{ReadRefuses};
ghost use Rattle.gs_journal.specs.declared.version.Version.TheVariants.{Two};

use crate::ends::{append_to, make};
use crate::frame::{HEADER, records_in};
use crate::record::Record;
use crate::start::read_all;
use crate::version::Version;
use gs_base::Refusal;
use gs_journal_disk::Disk;
use std::alloc::Global;

/// Two disks, which of them counts, what its header says, and where its records end.
#[derive(Drop)]
pub(crate) struct Pair<D: Disk> {
    pub(crate) first: D,
    pub(crate) second: D,
    pub(crate) is_second: bool,
    pub(crate) version: Version,
    pub(crate) generation: u64,
    pub(crate) end: usize,
}

impl<D: Disk> Pair<D> {
    ghost use Rattle.gs_journal.specs.inner.Pair.{text, failures_of_pair, IsSettled, LeavesOther, LeavesCounting, KeepsPlace};

    /// The records, read anew.
    pub(crate) fn records(&mut self, alloc: Global) -> Result<Vec<Record>, Refusal>
        requires settled { IsSettled D.seen D.may_leave self.old }
        ensures settled { IsSettled D.seen D.may_leave self.new }
        ensures records { IfOk result (λ records. records.items ≡ (text D.seen self.old).1) }
        ensures text { text D.seen self.new ≡ text D.seen self.old }
        ensures place { KeepsPlace self.old self.new }
        ensures cause { ReadRefuses (failures_of_pair D.failures self.old) (failures_of_pair D.failures self.new) result }
        ensures any_moment { LeavesPairs D.moment D.left_since self.old.first self.old.second self.new.first self.new.second
            (AreBoth (D.seen self.old.first) (D.seen self.old.second)) }
        ensures other { LeavesOther self.old self.new }
    {
        if self.is_second {
            let bytes = read_all(alloc, &mut self.second)?;
            return records_in(alloc, &bytes);
        }
        let bytes = read_all(alloc, &mut self.first)?;
        records_in(alloc, &bytes)
    }

    /// Adds a record.
    pub(crate) fn put(&mut self, entry: &Record) -> Result<(), Refusal>
        requires settled { IsSettled D.seen D.may_leave self.old }
        requires fits { self.old.end + 1 + record_size entry.now < 2 ^ 32 }
        ensures settled { OnOk result (IsSettled D.seen D.may_leave self.new) }
        ensures added { OnOk result (text D.seen self.new ≡ with_record (text D.seen self.old) entry.now) }
        ensures end { OnOk result (self.new.end ≡ self.old.end + record_size entry.now) }
        ensures generation { self.new.generation ≡ self.old.generation }
        ensures cause { HasCause (failures_of_pair D.failures self.old) (failures_of_pair D.failures self.new) result }
        ensures any_moment { LeavesPairs D.moment D.left_since self.old.first self.old.second self.new.first self.new.second
            (λ a b. IsWithOrWithout (text D.seen self.old) entry.now (standing a b)) }
        ensures other { LeavesOther self.old self.new }
    {
        if self.is_second {
            append_to(&mut self.second, self.end, entry)?;
            self.end += entry.bytes().len();
            return Ok(());
        }
        append_to(&mut self.first, self.end, entry)?;
        self.end += entry.bytes().len();
        Ok(())
    }

    /// Makes the disk that doesn't count, of the next generation and with this record alone.
    pub(crate) fn make_other(&mut self, entry: &Record, bytes: &[u8]) -> Result<(), Refusal>
        requires settled { IsSettled D.seen D.may_leave self.old }
        requires next { self.old.generation + 1 < 2 ^ 64 }
        requires text { 1 ∷ bytes.now ≡ header Two (self.old.generation + 1) ++ 1 ∷ (frame entry.now ++ 0 ∷ []) }
        ensures settled { OnOk result (IsSettled D.seen D.may_leave self.new) }
        ensures made { OnOk result (text D.seen self.new ≡ (Two, entry.now ∷ [])) }
        ensures end { OnOk result (self.new.end ≡ header_length + record_size entry.now) }
        ensures generation { OnOk result (self.new.generation ≡ self.old.generation + 1) }
        ensures cause { HasCause (failures_of_pair D.failures self.old) (failures_of_pair D.failures self.new) result }
        ensures any_moment { LeavesPairs D.moment D.left_since self.old.first self.old.second self.new.first self.new.second
            (IsStillOrNext (text D.seen self.old) self.old.generation (Two, entry.now ∷ [])) }
        ensures counting { LeavesCounting self.old self.new }
    {
        let end = HEADER + entry.bytes().len();
        if self.is_second {
            make(&mut self.first, bytes)?;
            self.is_second = false;
            self.version = Version::Two;
            self.generation += 1;
            self.end = end;
            return Ok(());
        }
        make(&mut self.second, bytes)?;
        self.is_second = true;
        self.version = Version::Two;
        self.generation += 1;
        self.end = end;
        Ok(())
    }
}
