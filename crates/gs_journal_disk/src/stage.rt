// The steps that change a disk, each on the disk before it ends.
ghost use Rattle.std.specs.Prelude.{◌≡◌, ◌≤◌, ◌<◌, ◌^◌, ◌+◌, ◌++◌, [], ◌∷◌, List, ℕ, length, take, OnOk};
ghost use Rattle.gs_journal_disk.specs.Stage.{IsClosing, IsOpening, IsRewriting, LeavesOnly};
ghost use Rattle.gs_journal_disk.specs.Disk.{Only, Torn, Cut, Holds, HasCause};

use crate::disk::Disk;
use gs_base::Refusal;

/// Waits until a crash leaves what a read gives.
pub fn settle<D: Disk>(disk: &mut D) -> Result<(), Refusal>
    ensures seen { D.seen disk.new ≡ D.seen disk.old }
    ensures durable { OnOk result (Only (D.seen disk.old) (D.may_leave disk.new)) }
    ensures crash { (c : List ℕ) → D.may_leave disk.new c → D.may_leave disk.old c }
    ensures any_moment { LeavesOnly D.moment D.left_since disk.old disk.new (D.may_leave disk.old) }
    ensures cause { HasCause (D.failures disk.old) (D.failures disk.new) result }
{
    disk.sync()
}

/// Waits until a crash leaves of both disks what a read gives.
pub fn settle_both<D: Disk>(first: &mut D, second: &mut D) -> Result<(), Refusal>
    ensures seen_first { D.seen first.new ≡ D.seen first.old }
    ensures seen_second { D.seen second.new ≡ D.seen second.old }
    ensures durable_first { OnOk result (Only (D.seen first.old) (D.may_leave first.new)) }
    ensures durable_second { OnOk result (Only (D.seen second.old) (D.may_leave second.new)) }
    ensures crash_first { (c : List ℕ) → D.may_leave first.new c → D.may_leave first.old c }
    ensures crash_second { (c : List ℕ) → D.may_leave second.new c → D.may_leave second.old c }
    ensures left_first { LeavesOnly D.moment D.left_since first.old first.new (D.may_leave first.old) }
    ensures left_second { LeavesOnly D.moment D.left_since second.old second.new (D.may_leave second.old) }
    ensures cause { HasCause (D.failures first.old + D.failures second.old) (D.failures first.new + D.failures second.new) result }
{
    settle(first)?;
    settle(second)?;
    Ok(())
}

/// Cuts the disk behind its first `len` bytes.
pub fn keep_front<D: Disk>(disk: &mut D, len: usize) -> Result<(), Refusal>
    requires within { len ≤ length (D.seen disk.old) }
    requires durable { Only (D.seen disk.old) (D.may_leave disk.old) }
    ensures seen { OnOk result (D.seen disk.new ≡ take len (D.seen disk.old)) }
    ensures durable { OnOk result (Only (D.seen disk.new) (D.may_leave disk.new)) }
    ensures any_moment { LeavesOnly D.moment D.left_since disk.old disk.new (Cut len (D.seen disk.old)) }
    ensures cause { HasCause (D.failures disk.old) (D.failures disk.new) result }
{
    disk.cut(len)?;
    disk.sync()
}

/// Writes bytes over what is there, and past the end.
pub fn write_through<D: Disk>(disk: &mut D, at: usize, bytes: &[u8]) -> Result<(), Refusal>
    requires within { at ≤ length (D.seen disk.old) }
    requires durable { Only (D.seen disk.old) (D.may_leave disk.old) }
    ensures seen { OnOk result (Holds (D.seen disk.old) at bytes.now (D.seen disk.new)) }
    ensures durable { OnOk result (Only (D.seen disk.new) (D.may_leave disk.new)) }
    ensures any_moment { LeavesOnly D.moment D.left_since disk.old disk.new (Torn at (length bytes.now) (D.seen disk.old)) }
    ensures cause { HasCause (D.failures disk.old) (D.failures disk.new) result }
{
    disk.write_at(at, bytes)?;
    disk.sync()
}

/// Cuts the disk behind its first `len` bytes, and then puts a closed gate there. The cut has to be on the disk first: else
/// what stood there could come back behind a gate that is torn open.
pub fn close_at<D: Disk>(disk: &mut D, len: usize) -> Result<(), Refusal>
    requires within { len ≤ length (D.seen disk.old) }
    requires durable { Only (D.seen disk.old) (D.may_leave disk.old) }
    ensures seen { OnOk result (D.seen disk.new ≡ take len (D.seen disk.old) ++ 0 ∷ []) }
    ensures durable { OnOk result (Only (D.seen disk.new) (D.may_leave disk.new)) }
    ensures any_moment { LeavesOnly D.moment D.left_since disk.old disk.new (IsClosing len (D.seen disk.old)) }
    ensures cause { HasCause (D.failures disk.old) (D.failures disk.new) result }
{
    keep_front(disk, len)?;
    write_through(disk, len, &[0])
}

/// Writes bytes behind the gate that stands last, and then opens that gate. The bytes have to be on the disk first.
pub fn open_behind<D: Disk>(disk: &mut D, gate: usize, bytes: &[u8]) -> Result<(), Refusal>
    requires last { length (D.seen disk.old) ≡ gate + 1 }
    requires fits { gate + 1 < 2 ^ 64 }
    requires durable { Only (D.seen disk.old) (D.may_leave disk.old) }
    ensures seen { OnOk result (D.seen disk.new ≡ take gate (D.seen disk.old) ++ 1 ∷ bytes.now) }
    ensures durable { OnOk result (Only (D.seen disk.new) (D.may_leave disk.new)) }
    ensures any_moment { LeavesOnly D.moment D.left_since disk.old disk.new (IsOpening gate bytes.now (D.seen disk.old)) }
    ensures cause { HasCause (D.failures disk.old) (D.failures disk.new) result }
{
    write_through(disk, gate + 1, bytes)?;
    write_through(disk, gate, &[1])
}

/// Makes a disk anew: the gate at its front is closed until all of its text is on the disk.
pub fn write_anew<D: Disk>(disk: &mut D, text: &[u8]) -> Result<(), Refusal>
    requires durable { Only (D.seen disk.old) (D.may_leave disk.old) }
    ensures seen { OnOk result (D.seen disk.new ≡ 1 ∷ text.now) }
    ensures durable { OnOk result (Only (D.seen disk.new) (D.may_leave disk.new)) }
    ensures any_moment { LeavesOnly D.moment D.left_since disk.old disk.new (IsRewriting text.now (D.seen disk.old)) }
    ensures cause { HasCause (D.failures disk.old) (D.failures disk.new) result }
{
    close_at(disk, 0)?;
    open_behind(disk, 0, text)?;
    Ok(())
}
