//! What holds of disks with faults, and of what is left where a disk fails.
ghost use Rattle.std.specs.Prelude.{◌≡◌, ◌==◌, ℕ, nat_le, true, false};
ghost use Rattle.gs_journal_disk.specs.Disk.{LeavesPairs};
ghost use Rattle.gs_journal.specs.Faults.{fails, after};
ghost use Rattle.gs_journal.specs.Forms.{is_next, is_text};
ghost use Rattle.gs_journal.specs.Journal.{State, AreBoth, CheckpointsAreReadAgain, IsStillOrNext, IsWithOrWithout, LeavesCounting, LeavesOther};
ghost use Rattle.gs_journal.specs.Records.{Entry, Text};
ghost use Rattle.gs_journal.specs.declared.fault.Fault.TheVariants.{Never, Fail, Stop, Tear};

use gs_journal_disk::Disk;

/// Which calls of a disk fail, numbered from 0 since it was given its fault: the one of the fault's number alone, or that one
/// and each behind it.
pub fn calls_fail_by_their_number()
    ensures never { (call : ℕ) → fails (after call Never) ≡ false }
    ensures one { (number call : ℕ) → fails (after call (Fail number)) ≡ (call == number) }
    ensures stops { (number call : ℕ) → fails (after call (Stop number)) ≡ nat_le number call }
    ensures tears { (number call : ℕ) (torn : _) → fails (after call (Tear number torn)) ≡ nat_le number call }
{}

/// What an append or a checkpoint leaves, done or failed, or a crash in it, is of the form that an opening reads, where what stood
/// and what it writes are.
pub fn what_is_left_is_read_again()
    ensures appended { (old : Text) (r : Entry) (left : Text) → is_text old ≡ true → is_next old r ≡ true → IsWithOrWithout old r left → is_text left ≡ true }
    ensures renewed { CheckpointsAreReadAgain }
{}

/// A checkpoint that is written behind a reading of the records: a crash at any moment of both leaves what stood in its generation, or
/// what is made in the next.
pub fn a_checkpoint_behind_a_reading_is_whole<D: Disk>()
    ensures { (old mid new : State D) (made : Text)
        → LeavesPairs D.moment D.left_since old.first old.second mid.first mid.second (AreBoth (D.seen old.first) (D.seen old.second)) → LeavesOther D.seen old mid
        → LeavesPairs D.moment D.left_since mid.first mid.second new.first new.second (IsStillOrNext mid.text mid.generation made) → LeavesCounting D.seen mid new
        → LeavesPairs D.moment D.left_since old.first old.second new.first new.second (IsStillOrNext mid.text mid.generation made) }
{}
