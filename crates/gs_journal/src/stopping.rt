// A disk that stops.
ghost use Rattle.std.specs.Prelude.{◌≡◌, ◌≤◌, ◌+◌, ℕ, List, length, take, drop, IfOk, OnOk};
ghost use Rattle.gs_journal_disk.specs.Disk.{Only, OutcomesFollow, Torn, Cut, Holds, Elapses, HasCause};
ghost use Rattle.gs_journal.specs.Faults.{CountsDown};

use crate::fault::takes_call;
use crate::history::History;
use gs_base::Refusal;
use gs_journal_disk::Disk;
use std::marker::Model;

/// A disk over another, of which so many calls pass, and every later one fails and does nothing. Those that pass are calls of the
/// disk below.
pub struct StoppingDisk<D: Disk> {
    disk: D,
    calls: u64,
    failures: History,
}

impl<D: Disk + Drop> Drop for StoppingDisk<D> {
    fn drop(self) {
        let Self {
            disk: _,
            calls: _,
            failures: _,
        } = self;
    }
}

impl<D: Disk> Model for StoppingDisk<D> {
    ghost use Rattle.gs_journal.specs.Faults.{Stopping};
    ghost use Rattle.gs_journal.specs.inner.History.{failures_of};

    ghost Value = { Stopping D };

    ghost view = { λ s. record { disk = s.disk; calls = s.calls; failures = failures_of s.failures } };
}

impl<D: Disk> StoppingDisk<D> {
    /// A disk over this one, of which so many calls pass.
    pub fn new(disk: D, calls: u64) -> Self
        ensures { result ≡ record { disk = disk; calls = calls; failures = 0 } }
    {
        StoppingDisk {
            disk,
            calls,
            failures: History::Start,
        }
    }

    /// The disk below.
    pub fn disk(&self) -> &D
        ensures { result.now ≡ self.now.disk }
    {
        &self.disk
    }

    /// The disk below.
    pub fn into_disk(self) -> D
        ensures { result ≡ self.disk }
    {
        let Self {
            disk,
            calls: _,
            failures: _,
        } = self;
        disk
    }
}

impl<D: Disk> Disk for StoppingDisk<D> {
    ghost seen = { λ s. D.seen s.disk };

    ghost may_leave = { λ s. D.may_leave s.disk };

    ghost moment = { λ s. D.moment s.disk };

    ghost left_since = { λ s. D.left_since s.disk };

    ghost failures = { λ s. D.failures s.disk + s.failures };

    ghost shows = { λ s. D.shows s.disk };

    ghost counts_now = { λ s. D.counts_now s.disk };

    ghost only_now = { λ s. D.only_now s.disk };

    fn length(&mut self) -> Result<usize, Refusal>
        ensures length { IfOk result (λ n. n ≡ length (D.seen self.old.disk)) }
        ensures seen { D.seen self.new.disk ≡ D.seen self.old.disk }
        ensures crash { (c : List ℕ) → D.may_leave self.new.disk c → D.may_leave self.old.disk c }
        ensures time { Elapses (D.moment self.old.disk) (D.moment self.new.disk) (D.left_since self.old.disk) (D.left_since self.new.disk) (D.may_leave self.new.disk) }
        ensures cause { HasCause (D.failures self.old.disk + self.old.failures) (D.failures self.new.disk + self.new.failures) result }
        ensures counts { CountsDown D.failures self.old self.new result }
    {
        if takes_call(&mut self.calls) {
            return self.disk.length();
        }
        self.failures.fail();
        Err(Refusal::Device)
    }

    fn read(&mut self, at: usize, into: &mut [u8]) -> Result<(), Refusal>
        requires { at + length into.old ≤ length (D.seen self.old.disk) }
        ensures bytes { OnOk result (into.new ≡ take (length into.old) (drop at (D.seen self.old.disk))) }
        ensures seen { D.seen self.new.disk ≡ D.seen self.old.disk }
        ensures crash { (c : List ℕ) → D.may_leave self.new.disk c → D.may_leave self.old.disk c }
        ensures time { Elapses (D.moment self.old.disk) (D.moment self.new.disk) (D.left_since self.old.disk) (D.left_since self.new.disk) (D.may_leave self.new.disk) }
        ensures cause { HasCause (D.failures self.old.disk + self.old.failures) (D.failures self.new.disk + self.new.failures) result }
        ensures counts { CountsDown D.failures self.old self.new result }
    {
        if takes_call(&mut self.calls) {
            return self.disk.read(at, into);
        }
        self.failures.fail();
        Err(Refusal::Device)
    }

    fn write_at(&mut self, at: usize, bytes: &[u8]) -> Result<(), Refusal>
        requires { at ≤ length (D.seen self.old.disk) }
        ensures written { OnOk result (Holds (D.seen self.old.disk) at bytes.now (D.seen self.new.disk)) }
        ensures crash { OutcomesFollow (Torn at (length bytes.now)) (D.may_leave self.old.disk) (D.may_leave self.new.disk) }
        ensures time { Elapses (D.moment self.old.disk) (D.moment self.new.disk) (D.left_since self.old.disk) (D.left_since self.new.disk) (D.may_leave self.new.disk) }
        ensures cause { HasCause (D.failures self.old.disk + self.old.failures) (D.failures self.new.disk + self.new.failures) result }
        ensures counts { CountsDown D.failures self.old self.new result }
    {
        if takes_call(&mut self.calls) {
            return self.disk.write_at(at, bytes);
        }
        self.failures.fail();
        Err(Refusal::Device)
    }

    fn cut(&mut self, len: usize) -> Result<(), Refusal>
        requires { len ≤ length (D.seen self.old.disk) }
        ensures cut { OnOk result (D.seen self.new.disk ≡ take len (D.seen self.old.disk)) }
        ensures crash { OutcomesFollow (Cut len) (D.may_leave self.old.disk) (D.may_leave self.new.disk) }
        ensures time { Elapses (D.moment self.old.disk) (D.moment self.new.disk) (D.left_since self.old.disk) (D.left_since self.new.disk) (D.may_leave self.new.disk) }
        ensures cause { HasCause (D.failures self.old.disk + self.old.failures) (D.failures self.new.disk + self.new.failures) result }
        ensures counts { CountsDown D.failures self.old self.new result }
    {
        if takes_call(&mut self.calls) {
            return self.disk.cut(len);
        }
        self.failures.fail();
        Err(Refusal::Device)
    }

    fn sync(&mut self) -> Result<(), Refusal>
        ensures durable { OnOk result (Only (D.seen self.old.disk) (D.may_leave self.new.disk)) }
        ensures seen { D.seen self.new.disk ≡ D.seen self.old.disk }
        ensures crash { (c : List ℕ) → D.may_leave self.new.disk c → D.may_leave self.old.disk c }
        ensures time { Elapses (D.moment self.old.disk) (D.moment self.new.disk) (D.left_since self.old.disk) (D.left_since self.new.disk) (D.may_leave self.new.disk) }
        ensures cause { HasCause (D.failures self.old.disk + self.old.failures) (D.failures self.new.disk + self.new.failures) result }
        ensures counts { CountsDown D.failures self.old self.new result }
    {
        if takes_call(&mut self.calls) {
            return self.disk.sync();
        }
        self.failures.fail();
        Err(Refusal::Device)
    }
}
