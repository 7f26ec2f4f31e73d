// A disk in memory.
ghost use Rattle.std.specs.Prelude.{◌≡◌, ◌≤◌, ◌<◌, ◌+◌, ℕ, List, length, take, drop, IfOk, OnOk, OnErr, IsOk, refl};
ghost use Rattle.std.proofs.Common.{inl};
ghost use Rattle.gs_journal_disk.specs.Disk.{Only, OutcomesFollow, Torn, Cut, Holds, Elapses, HasCause};
ghost use Rattle.gs_journal.specs.Memory.{bytes_of, may_leave, moment_of, left_since, times_failed};
ghost use Rattle.gs_journal.specs.inner.History.{contents};
ghost use Rattle.gs_journal.specs.inner.Past.{only_bytes};

use crate::history::History;
use gs_base::Refusal;
use gs_journal_disk::Disk;
use std::alloc::Global;

/// A disk in memory. Each call is done at once, so a crash leaves what is there. It fails only where a write is past the end and
/// the growth is refused.
pub struct MemoryDisk {
    bytes: Vec<u8>,
    history: History,
}

impl Drop for MemoryDisk {
    fn drop(self) {
        let Self {
            bytes: _,
            history: _,
        } = self;
    }
}

impl MemoryDisk {
    /// A disk with these bytes.
    pub fn new(bytes: Vec<u8>) -> Self
        ensures { bytes_of result ≡ bytes.items }
    {
        MemoryDisk {
            bytes,
            history: History::Start,
        }
    }

    /// The bytes of the disk.
    pub fn bytes(&self) -> &[u8]
        ensures { result.now ≡ bytes_of self.now }
    {
        &self.bytes
    }

    /// The bytes of the disk.
    pub fn into_bytes(self) -> Vec<u8>
        ensures { result.items ≡ bytes_of self }
    {
        let Self { bytes, history: _ } = self;
        bytes
    }
}

/// Writes over what is there, and past the end, or changes nothing where a growth is refused.
fn put(held: &mut Vec<u8>, at: usize, bytes: &[u8]) -> Result<(), Refusal>
    requires { at ≤ length held.old.items }
    ensures ok { OnOk result (Holds held.old.items at bytes.now held.new.items) }
    ensures err { OnErr result ((held.new.items ≡ held.old.items) × (length held.old.items < at + length bytes.now)) }
{
    let over = held.len() - at;
    if bytes.len() <= over {
        held[at..at + bytes.len()].copy_from_slice(bytes);
        return Ok(());
    }
    let (front, back) = bytes.split_at(over);
    held.extend_from_slice(back)?;
    held[at..at + over].copy_from_slice(front);
    Ok(())
}

impl Disk for MemoryDisk {
    ghost seen = { bytes_of };

    ghost may_leave = { may_leave };

    ghost moment = { moment_of };

    ghost left_since = { left_since };

    ghost failures = { times_failed };

    ghost shows = { λ m. refl };

    ghost counts_now = { λ m t c le now. inl now };

    ghost only_now = { λ m c left. only_bytes (contents m.history) m.bytes.items c left };

    fn length(&mut self) -> Result<usize, Refusal>
        ensures length { IfOk result (λ n. n ≡ length (bytes_of self.old)) }
        ensures seen { bytes_of self.new ≡ bytes_of self.old }
        ensures crash { (c : List ℕ) → may_leave self.new c → may_leave self.old c }
        ensures time { Elapses (moment_of self.old) (moment_of self.new) (left_since self.old) (left_since self.new) (may_leave self.new) }
        ensures cause { HasCause (times_failed self.old) (times_failed self.new) result }
        ensures done { IsOk result }
        ensures untouched { self.new ≡ self.old }
    {
        Ok(self.bytes.len())
    }

    fn read(&mut self, at: usize, into: &mut [u8]) -> Result<(), Refusal>
        requires { at + length into.old ≤ length (bytes_of self.old) }
        ensures bytes { OnOk result (into.new ≡ take (length into.old) (drop at (bytes_of self.old))) }
        ensures seen { bytes_of self.new ≡ bytes_of self.old }
        ensures crash { (c : List ℕ) → may_leave self.new c → may_leave self.old c }
        ensures time { Elapses (moment_of self.old) (moment_of self.new) (left_since self.old) (left_since self.new) (may_leave self.new) }
        ensures cause { HasCause (times_failed self.old) (times_failed self.new) result }
        ensures done { IsOk result }
        ensures untouched { self.new ≡ self.old }
    {
        let end = at + into.len();
        into.copy_from_slice(&self.bytes[at..end]);
        Ok(())
    }

    fn write_at(&mut self, at: usize, bytes: &[u8]) -> Result<(), Refusal>
        requires { at ≤ length (bytes_of self.old) }
        ensures written { OnOk result (Holds (bytes_of self.old) at bytes.now (bytes_of self.new)) }
        ensures crash { OutcomesFollow (Torn at (length bytes.now)) (may_leave self.old) (may_leave self.new) }
        ensures time { Elapses (moment_of self.old) (moment_of self.new) (left_since self.old) (left_since self.new) (may_leave self.new) }
        ensures cause { HasCause (times_failed self.old) (times_failed self.new) result }
        // Only a write past the end is refused, and nothing of it is done.
        ensures refused { OnErr result ((bytes_of self.new ≡ bytes_of self.old) × (length (bytes_of self.old) < at + length bytes.now)) }
    {
        self.history.hold(&self.bytes);
        match put(&mut self.bytes, at, bytes) {
            Ok(()) => Ok(()),
            Err(_) => {
                self.history.fail();
                Err(Refusal::Device)
            }
        }
    }

    fn cut(&mut self, len: usize) -> Result<(), Refusal>
        requires { len ≤ length (bytes_of self.old) }
        ensures cut { OnOk result (bytes_of self.new ≡ take len (bytes_of self.old)) }
        ensures crash { OutcomesFollow (Cut len) (may_leave self.old) (may_leave self.new) }
        ensures time { Elapses (moment_of self.old) (moment_of self.new) (left_since self.old) (left_since self.new) (may_leave self.new) }
        ensures cause { HasCause (times_failed self.old) (times_failed self.new) result }
        ensures done { IsOk result }
    {
        self.history.hold(&self.bytes);
        self.bytes.truncate(len);
        Ok(())
    }

    fn sync(&mut self) -> Result<(), Refusal>
        ensures durable { OnOk result (Only (bytes_of self.old) (may_leave self.new)) }
        ensures seen { bytes_of self.new ≡ bytes_of self.old }
        ensures crash { (c : List ℕ) → may_leave self.new c → may_leave self.old c }
        ensures time { Elapses (moment_of self.old) (moment_of self.new) (left_since self.old) (left_since self.new) (may_leave self.new) }
        ensures cause { HasCause (times_failed self.old) (times_failed self.new) result }
        ensures done { IsOk result }
        ensures untouched { self.new ≡ self.old }
    {
        // Each call was done at once.
        Ok(())
    }
}
