ghost use Rattle.std.specs.Prelude.{◌≡◌, ◌+◌, ◌<◌, ◌^◌, OnOk, OnErr};

use crate::lock::Lock;
use crate::tally::Tally;
use gs_base::ReqId;
use gs_path::Path;
use std::alloc::{AllocError, Global};

/// How many locks read each path, write it, and belong to each operation.
#[derive(Drop)]
pub(crate) struct Index {
    pub(crate) reads: Tally<Path>,
    pub(crate) writes: Tally<Path>,
    pub(crate) held: Tally<ReqId>,
}

impl Index {
    ghost use Rattle.std.specs.Prelude.{[], nat_lt, ◌||◌};
    ghost use Rattle.std.specs.List.{list_any};
    ghost use Rattle.gs_lock.specs.Indexes.{reads_at, writes_at, held_at, in_the_way, IsIndexed, IsTight, SameIndex, SamePaths, CountsPath, AddsLock, Fits, HasLock};

    pub(crate) fn new(alloc: Global) -> Index
        ensures { IsIndexed [] result }
    {
        Index {
            reads: Tally::new(alloc),
            writes: Tally::new(alloc),
            held: Tally::new(alloc),
        }
    }

    pub(crate) fn is_held(&self, op: ReqId) -> bool
        ensures { result ≡ nat_lt 0 (held_at self.now op) }
    {
        self.held.count(&op) > 0
    }

    /// Whether a lock is in the way of who reads and writes these paths.
    pub(crate) fn is_in_the_way(&self, reads: &[Path], writes: &[Path]) -> bool
        ensures { result ≡ in_the_way self.now reads.now writes.now }
    {
        self.is_any_written(reads) || self.is_any_locked(writes)
    }

    fn is_any_written(&self, paths: &[Path]) -> bool
        ensures { result ≡ list_any (λ path. nat_lt 0 (writes_at self.now path)) paths.now }
    {
        paths.iter().any(|path| self.is_written(path))
    }

    fn is_any_locked(&self, paths: &[Path]) -> bool
        ensures { result ≡ list_any (λ path. nat_lt 0 (reads_at self.now path) || nat_lt 0 (writes_at self.now path)) paths.now }
    {
        paths.iter().any(|path| self.is_locked(path))
    }

    fn is_written(&self, path: &Path) -> bool
        ensures { result ≡ nat_lt 0 (writes_at self.now path.now) }
    {
        self.writes.count(path) > 0
    }

    fn is_locked(&self, path: &Path) -> bool
        ensures { result ≡ (nat_lt 0 (reads_at self.now path.now) || nat_lt 0 (writes_at self.now path.now)) }
    {
        self.reads.count(path) > 0 || self.writes.count(path) > 0
    }

    /// Adds a lock. `path` is a copy of its path. It keeps nothing of a lock for which memory is refused.
    pub(crate) fn add(&mut self, lock: &Lock, path: Path) -> Result<(), AllocError>
        requires path { path ≡ lock.now.path }
        requires fits { Fits self.old lock.now }
        ensures ok { OnOk result (AddsLock self.old self.new lock.now) }
        ensures err { OnErr result (SameIndex self.old self.new) }
        ensures tight { IsTight self.old → IsTight self.new }
    {
        self.held.add(lock.op)?;
        match self.count(lock.writes, path) {
            Ok(()) => Ok(()),
            Err(error) => {
                self.held.subtract(&lock.op);
                Err(error)
            }
        }
    }

    /// Counts one more lock that reads or writes a path.
    fn count(&mut self, writes: bool, path: Path) -> Result<(), AllocError>
        requires reads { reads_at self.old path + 1 < 2 ^ 64 }
        requires writes { writes_at self.old path + 1 < 2 ^ 64 }
        ensures ok { OnOk result (CountsPath self.old self.new writes path) }
        ensures err { OnErr result (SamePaths self.old self.new) }
        ensures held { self.new.held ≡ self.old.held }
        ensures tight { IsTight self.old → IsTight self.new }
    {
        if writes {
            return self.writes.add(path);
        }
        self.reads.add(path)
    }

    /// Takes a lock out. It takes no memory.
    pub(crate) fn subtract(&mut self, lock: &Lock)
        requires { HasLock self.old lock.now }
        ensures adds { AddsLock self.new self.old lock.now }
        ensures tight { IsTight self.old → IsTight self.new }
    {
        self.held.subtract(&lock.op);
        if lock.writes {
            self.writes.subtract(&lock.path);
        } else {
            self.reads.subtract(&lock.path);
        }
    }
}
