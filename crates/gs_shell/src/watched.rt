// A disk that keeps whether it has failed.
ghost use Rattle.std.specs.Prelude.{◌≡◌, ◌≤◌, ◌+◌, List, ℕ, length, take, drop, false, IfOk, OnOk};
ghost use Rattle.gs_journal_disk.specs.Disk.{Only, OutcomesFollow, Torn, Cut, Holds, Elapses, HasCause};
ghost use Rattle.gs_shell.specs.Watching.{both_watched, failures_of, noted, seen_of, watched};

use gs_base::Refusal;
use gs_journal::Disk;

/// A disk over another, whose calls are those of the disk below. It keeps whether one of them has failed.
pub struct Watched<D: Disk> {
    pub disk: D,
    pub has_failed: bool,
}

impl<D: Disk + Drop> Drop for Watched<D> {
    fn drop(self) {
        let Self {
            disk: _,
            has_failed: _,
        } = self;
    }
}

impl<D: Disk> Watched<D> {
    /// A disk over this one, no call of which has failed.
    pub fn new(disk: D) -> Watched<D>
        ensures { result ≡ watched disk }
    {
        Watched {
            disk,
            has_failed: false,
        }
    }

    /// A call has failed, if this is so.
    fn note(&mut self, fails: bool)
        ensures { self.new ≡ noted fails self.old }
    {
        self.has_failed = self.has_failed || fails;
    }
}

/// Two such disks.
pub(crate) fn watch<D: Disk>(disks: (D, D)) -> (Watched<D>, Watched<D>)
    ensures { result ≡ both_watched disks }
{
    let (first, second) = disks;
    (Watched::new(first), Watched::new(second))
}

impl<D: Disk> Disk for Watched<D> {
    ghost seen = { λ w. seen_of D.seen w };

    ghost may_leave = { λ w. D.may_leave w.disk };

    ghost moment = { λ w. D.moment w.disk };

    ghost left_since = { λ w. D.left_since w.disk };

    ghost failures = { λ w. failures_of D.failures w };

    ghost shows = { λ w. D.shows w.disk };

    ghost counts_now = { λ w. D.counts_now w.disk };

    ghost only_now = { λ w. D.only_now w.disk };

    fn length(&mut self) -> Result<usize, Refusal> {
        let done = self.disk.length();
        self.note(done.is_err());
        done
    }

    fn read(&mut self, at: usize, into: &mut [u8]) -> Result<(), Refusal> {
        let done = self.disk.read(at, into);
        self.note(done.is_err());
        done
    }

    fn write_at(&mut self, at: usize, bytes: &[u8]) -> Result<(), Refusal> {
        let done = self.disk.write_at(at, bytes);
        self.note(done.is_err());
        done
    }

    fn cut(&mut self, len: usize) -> Result<(), Refusal> {
        let done = self.disk.cut(len);
        self.note(done.is_err());
        done
    }

    fn sync(&mut self) -> Result<(), Refusal> {
        let done = self.disk.sync();
        self.note(done.is_err());
        done
    }
}
