// A disk as a journal sees it: what a read gives, and what a crash may leave.
ghost use Rattle.std.specs.Prelude.{◌≡◌, ◌≤◌, ◌+◌, List, ℕ, length, take, drop, IfOk, OnOk};
ghost use Rattle.gs_journal_disk.specs.Disk.{Only, OutcomesFollow, Torn, Cut, Holds, Elapses, HasCause};

use gs_base::Refusal;

/// A disk. Each call refuses `Device` exactly where the disk fails in it, and refuses nothing else.
///
/// Between two syncs each range that was written, or whose write failed, and the part past the old end, may hold any
/// bytes after a crash, and a length may be the old one or the new one. Bytes outside stay. After a sync that succeeds a
/// crash leaves what a read gives.
pub trait Disk {
    /// The bytes that a read gives.
    ghost seen: { Self → List ℕ };

    /// What a crash at this moment may leave.
    ghost may_leave: { Self → List ℕ → Type 0 };

    /// The moment, as a number that doesn't fall.
    ghost moment: { Self → ℕ };

    /// What a crash at some moment from that one on might have left, during a call or between two.
    ghost left_since: { Self → ℕ → List ℕ → Type 0 };

    /// How often the disk has failed.
    ghost failures: { Self → ℕ };

    /// How many bytes there are.
    fn length(&mut self) -> Result<usize, Refusal>
        ensures length { IfOk result (λ n. n ≡ length (seen self.old)) }
        ensures seen { seen self.new ≡ seen self.old }
        ensures crash { (c : List ℕ) → may_leave self.new c → may_leave self.old c }
        ensures time { Elapses (moment self.old) (moment self.new) (left_since self.old) (left_since self.new) (may_leave self.new) }
        ensures cause { HasCause (failures self.old) (failures self.new) result };

    /// Fills `into` with the bytes from `at` on.
    fn read(&mut self, at: usize, into: &mut [u8]) -> Result<(), Refusal>
        requires { at + length into.old ≤ length (seen self.old) }
        ensures bytes { OnOk result (into.new ≡ take (length into.old) (drop at (seen self.old))) }
        ensures seen { seen self.new ≡ seen self.old }
        ensures crash { (c : List ℕ) → may_leave self.new c → may_leave self.old c }
        ensures time { Elapses (moment self.old) (moment self.new) (left_since self.old) (left_since self.new) (may_leave self.new) }
        ensures cause { HasCause (failures self.old) (failures self.new) result };

    /// Writes over what is there, and past the end.
    fn write_at(&mut self, at: usize, bytes: &[u8]) -> Result<(), Refusal>
        requires { at ≤ length (seen self.old) }
        ensures written { OnOk result (Holds (seen self.old) at bytes.now (seen self.new)) }
        ensures crash { OutcomesFollow (Torn at (length bytes.now)) (may_leave self.old) (may_leave self.new) }
        ensures time { Elapses (moment self.old) (moment self.new) (left_since self.old) (left_since self.new) (may_leave self.new) }
        ensures cause { HasCause (failures self.old) (failures self.new) result };

    /// Cuts the disk to a length.
    fn cut(&mut self, len: usize) -> Result<(), Refusal>
        requires { len ≤ length (seen self.old) }
        ensures cut { OnOk result (seen self.new ≡ take len (seen self.old)) }
        ensures crash { OutcomesFollow (Cut len) (may_leave self.old) (may_leave self.new) }
        ensures time { Elapses (moment self.old) (moment self.new) (left_since self.old) (left_since self.new) (may_leave self.new) }
        ensures cause { HasCause (failures self.old) (failures self.new) result };

    /// Waits until a crash leaves what a read gives.
    fn sync(&mut self) -> Result<(), Refusal>
        ensures durable { OnOk result (Only (seen self.old) (may_leave self.new)) }
        ensures seen { seen self.new ≡ seen self.old }
        ensures crash { (c : List ℕ) → may_leave self.new c → may_leave self.old c }
        ensures time { Elapses (moment self.old) (moment self.new) (left_since self.old) (left_since self.new) (may_leave self.new) }
        ensures cause { HasCause (failures self.old) (failures self.new) result };

    /// What a read gives is one of the things that a crash may leave.
    ghost shows: { (disk : Self) → may_leave disk (seen disk) };

    /// This moment is one of those since an earlier one.
    ghost counts_now: { (disk : Self) (t : ℕ) (c : List ℕ) → t ≤ moment disk → may_leave disk c → left_since disk t c };

    /// Since this moment there is no other.
    ghost only_now: { (disk : Self) (c : List ℕ) → left_since disk (moment disk) c → may_leave disk c };
}
