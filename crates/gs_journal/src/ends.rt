// What is done to the end of a disk, and to a disk that is made anew.
ghost use Rattle.std.specs.Prelude.{◌≡◌, ◌≢◌, ◌<◌, ◌^◌, ◌+◌, ◌++◌, true, [], ◌∷◌, length, get_or, OnOk};
ghost use Rattle.gs_journal_disk.specs.Disk.{Only, HasCause};
ghost use Rattle.gs_journal_disk.specs.Stage.{LeavesOnly};
ghost use Rattle.gs_journal.specs.Records.{frame, records_of};
ghost use Rattle.gs_journal.specs.inner.Rest.{IsAtRest, Continues, IsBeforeOrAfter, IsMaking};
ghost use Rattle.gs_journal.specs.inner.Frames.{IsEnd};

use crate::record::Record;
use gs_base::Refusal;
use gs_journal_disk::Disk;
use gs_journal_disk::stage::{close_at, keep_front, open_behind, write_anew};

/// Writes a record behind those of a disk at rest.
pub(crate) fn append_to<D: Disk>(disk: &mut D, end: usize, entry: &Record) -> Result<(), Refusal>
    requires rest { IsAtRest end (D.seen disk.old) }
    requires fits { end + 1 < 2 ^ 64 }
    requires durable { Only (D.seen disk.old) (D.may_leave disk.old) }
    ensures rest { OnOk result (IsAtRest (end + (1 + length (frame entry.now))) (D.seen disk.new)) }
    ensures added { OnOk result (Continues (D.seen disk.old) (records_of (D.seen disk.old) ++ entry.now ∷ []) (D.seen disk.new)) }
    ensures durable { OnOk result (Only (D.seen disk.new) (D.may_leave disk.new)) }
    ensures any_moment { LeavesOnly D.moment D.left_since disk.old disk.new (IsBeforeOrAfter (D.seen disk.old) entry.now) }
    ensures cause { HasCause (D.failures disk.old) (D.failures disk.new) result }
{
    open_behind(disk, end, entry.bytes())?;
    Ok(())
}

/// Takes away what stands behind the records of a disk, but for a closed gate, which is written where there is none.
pub(crate) fn repair<D: Disk>(disk: &mut D, end: usize, has_gate: bool) -> Result<(), Refusal>
    requires end { IsEnd end (D.seen disk.old) }
    requires gate { has_gate ≡ true → (end < length (D.seen disk.old)) × (get_or (D.seen disk.old) end 1 ≢ 1) }
    requires durable { Only (D.seen disk.old) (D.may_leave disk.old) }
    requires fits { has_gate ≡ true → end + 1 < 2 ^ 64 }
    ensures rest { OnOk result (IsAtRest end (D.seen disk.new)) }
    ensures same { OnOk result (Continues (D.seen disk.old) (records_of (D.seen disk.old)) (D.seen disk.new)) }
    ensures durable { OnOk result (Only (D.seen disk.new) (D.may_leave disk.new)) }
    ensures any_moment { LeavesOnly D.moment D.left_since disk.old disk.new (Continues (D.seen disk.old) (records_of (D.seen disk.old))) }
    ensures cause { HasCause (D.failures disk.old) (D.failures disk.new) result }
{
    if has_gate {
        keep_front(disk, end + 1)?;
        return Ok(());
    }
    close_at(disk, end)?;
    Ok(())
}

/// Makes a disk anew: its header gate is closed until all of its text is on the disk.
pub(crate) fn make<D: Disk>(disk: &mut D, text: &[u8]) -> Result<(), Refusal>
    requires durable { Only (D.seen disk.old) (D.may_leave disk.old) }
    ensures seen { OnOk result (D.seen disk.new ≡ 1 ∷ text.now) }
    ensures durable { OnOk result (Only (D.seen disk.new) (D.may_leave disk.new)) }
    ensures any_moment { LeavesOnly D.moment D.left_since disk.old disk.new (IsMaking text.now (D.seen disk.old)) }
    ensures cause { HasCause (D.failures disk.old) (D.failures disk.new) result }
{
    write_anew(disk, text)
}
