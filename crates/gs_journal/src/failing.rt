// A disk of which calls fail.
ghost use Rattle.std.specs.Prelude.{◌≡◌, ◌≤◌, ◌+◌, ℕ, List, length, take, drop, true, IfOk, OnOk};
ghost use Rattle.gs_journal_disk.specs.Disk.{Only, OutcomesFollow, Torn, Cut, Holds, Elapses, HasCause};
ghost use Rattle.gs_journal.specs.Faults.{fails, Counts, Tears};

use crate::fault::Fault;
use crate::history::History;
use gs_base::Refusal;
use gs_journal_disk::Disk;
use std::marker::Model;

/// A disk over another, of which the calls fail that its fault names. All other calls are those of the disk below.
pub struct FailingDisk<D: Disk> {
    disk: D,
    fault: Fault,
    failures: History,
}

impl<D: Disk + Drop> Drop for FailingDisk<D> {
    fn drop(self) {
        let Self {
            disk: _,
            fault: _,
            failures: _,
        } = self;
    }
}

impl<D: Disk> Model for FailingDisk<D> {
    ghost use Rattle.gs_journal.specs.Faults.{Failing};
    ghost use Rattle.gs_journal.specs.inner.History.{failures_of};

    ghost Value = { Failing D };

    ghost view = { λ f. record { disk = f.disk; fault = f.fault; failures = failures_of f.failures } };
}

impl<D: Disk> FailingDisk<D> {
    /// A disk over this one, with this fault.
    pub fn new(disk: D, fault: Fault) -> Self
        ensures { result ≡ record { disk = disk; fault = fault; failures = 0 } }
    {
        FailingDisk {
            disk,
            fault,
            failures: History::Start,
        }
    }

    /// Takes this fault in place of the one that it has.
    pub fn arm(&mut self, fault: Fault)
        ensures { self.new ≡ record self.old { fault = fault } }
    {
        self.fault = fault;
    }

    /// The disk below.
    pub fn disk(&self) -> &D
        ensures { result.now ≡ self.now.disk }
    {
        &self.disk
    }

    /// The disk below.
    pub fn into_disk(self) -> D
        ensures { result ≡ self.disk }
    {
        let Self {
            disk,
            fault: _,
            failures: _,
        } = self;
        disk
    }
}

/// At most so many of the first bytes.
fn front(bytes: &[u8], most: usize) -> &[u8]
    ensures { result.now ≡ take most bytes.now }
{
    match bytes.get(..most) {
        Some(front) => front,
        None => bytes,
    }
}

impl<D: Disk> Disk for FailingDisk<D> {
    ghost seen = { λ f. D.seen f.disk };

    ghost may_leave = { λ f. D.may_leave f.disk };

    ghost moment = { λ f. D.moment f.disk };

    ghost left_since = { λ f. D.left_since f.disk };

    ghost failures = { λ f. D.failures f.disk + f.failures };

    ghost shows = { λ f. D.shows f.disk };

    ghost counts_now = { λ f. D.counts_now f.disk };

    ghost only_now = { λ f. D.only_now f.disk };

    fn length(&mut self) -> Result<usize, Refusal>
        ensures length { IfOk result (λ n. n ≡ length (D.seen self.old.disk)) }
        ensures seen { D.seen self.new.disk ≡ D.seen self.old.disk }
        ensures crash { (c : List ℕ) → D.may_leave self.new.disk c → D.may_leave self.old.disk c }
        ensures time { Elapses (D.moment self.old.disk) (D.moment self.new.disk) (D.left_since self.old.disk) (D.left_since self.new.disk) (D.may_leave self.new.disk) }
        ensures cause { HasCause (D.failures self.old.disk + self.old.failures) (D.failures self.new.disk + self.new.failures) result }
        ensures counts { Counts D.failures self.old self.new result }
        ensures untouched { fails self.old.fault ≡ true → self.new.disk ≡ self.old.disk }
    {
        if self.fault.passes() {
            return self.disk.length();
        }
        self.failures.fail();
        Err(Refusal::Device)
    }

    fn read(&mut self, at: usize, into: &mut [u8]) -> Result<(), Refusal>
        requires { at + length into.old ≤ length (D.seen self.old.disk) }
        ensures bytes { OnOk result (into.new ≡ take (length into.old) (drop at (D.seen self.old.disk))) }
        ensures seen { D.seen self.new.disk ≡ D.seen self.old.disk }
        ensures crash { (c : List ℕ) → D.may_leave self.new.disk c → D.may_leave self.old.disk c }
        ensures time { Elapses (D.moment self.old.disk) (D.moment self.new.disk) (D.left_since self.old.disk) (D.left_since self.new.disk) (D.may_leave self.new.disk) }
        ensures cause { HasCause (D.failures self.old.disk + self.old.failures) (D.failures self.new.disk + self.new.failures) result }
        ensures counts { Counts D.failures self.old self.new result }
        ensures untouched { fails self.old.fault ≡ true → self.new.disk ≡ self.old.disk }
    {
        if self.fault.passes() {
            return self.disk.read(at, into);
        }
        self.failures.fail();
        Err(Refusal::Device)
    }

    fn write_at(&mut self, at: usize, bytes: &[u8]) -> Result<(), Refusal>
        requires { at ≤ length (D.seen self.old.disk) }
        ensures written { OnOk result (Holds (D.seen self.old.disk) at bytes.now (D.seen self.new.disk)) }
        ensures crash { OutcomesFollow (Torn at (length bytes.now)) (D.may_leave self.old.disk) (D.may_leave self.new.disk) }
        ensures time { Elapses (D.moment self.old.disk) (D.moment self.new.disk) (D.left_since self.old.disk) (D.left_since self.new.disk) (D.may_leave self.new.disk) }
        ensures cause { HasCause (D.failures self.old.disk + self.old.failures) (D.failures self.new.disk + self.new.failures) result }
        ensures counts { Counts D.failures self.old self.new result }
        ensures torn { fails self.old.fault ≡ true → Tears D.seen D.failures at bytes.now self.old self.new }
    {
        if self.fault.passes() {
            return self.disk.write_at(at, bytes);
        }
        if let Fault::Tear(_, torn) = &self.fault {
            let _ = self.disk.write_at(at, front(torn, bytes.len()));
        }
        self.failures.fail();
        Err(Refusal::Device)
    }

    fn cut(&mut self, len: usize) -> Result<(), Refusal>
        requires { len ≤ length (D.seen self.old.disk) }
        ensures cut { OnOk result (D.seen self.new.disk ≡ take len (D.seen self.old.disk)) }
        ensures crash { OutcomesFollow (Cut len) (D.may_leave self.old.disk) (D.may_leave self.new.disk) }
        ensures time { Elapses (D.moment self.old.disk) (D.moment self.new.disk) (D.left_since self.old.disk) (D.left_since self.new.disk) (D.may_leave self.new.disk) }
        ensures cause { HasCause (D.failures self.old.disk + self.old.failures) (D.failures self.new.disk + self.new.failures) result }
        ensures counts { Counts D.failures self.old self.new result }
        ensures untouched { fails self.old.fault ≡ true → self.new.disk ≡ self.old.disk }
    {
        if self.fault.passes() {
            return self.disk.cut(len);
        }
        self.failures.fail();
        Err(Refusal::Device)
    }

    fn sync(&mut self) -> Result<(), Refusal>
        ensures durable { OnOk result (Only (D.seen self.old.disk) (D.may_leave self.new.disk)) }
        ensures seen { D.seen self.new.disk ≡ D.seen self.old.disk }
        ensures crash { (c : List ℕ) → D.may_leave self.new.disk c → D.may_leave self.old.disk c }
        ensures time { Elapses (D.moment self.old.disk) (D.moment self.new.disk) (D.left_since self.old.disk) (D.left_since self.new.disk) (D.may_leave self.new.disk) }
        ensures cause { HasCause (D.failures self.old.disk + self.old.failures) (D.failures self.new.disk + self.new.failures) result }
        ensures counts { Counts D.failures self.old self.new result }
        ensures untouched { fails self.old.fault ≡ true → self.new.disk ≡ self.old.disk }
    {
        if self.fault.passes() {
            return self.disk.sync();
        }
        self.failures.fail();
        Err(Refusal::Device)
    }
}
