ghost use Rattle.std.specs.Prelude.{◌≡◌, ◌↔◌, ◌∷◌, [], IsTrue, ◌++◌, ◌-◌, ◌<◌, OnOk, OnErr, IfOk, length, map, take};
ghost use Rattle.gs_lock.specs.Operations.{same_op};
ghost use Rattle.std.specs.List.{list_any};
ghost use Rattle.gs_path.specs.Path.{begins};
ghost use Rattle.gs_lock.specs.Locks.{same_path, is_in_the_way, stands_in_the_way, Takes, locks_on, taken, conflicts_with, is_conflict, released, holds};

use crate::index::Index;
use crate::lock::Lock;
use gs_base::{Refusal, ReqId};
use gs_path::Path;
use std::alloc::{AllocError, Global};
use std::marker::Model;

/// The locks of pending operations, seen as the list of them. Two operations conflict where one writes a path that the
/// other reads or writes.
pub struct LockTable {
    alloc: Global,
    locks: Vec<Lock>,
    index: Index,
}

impl Drop for LockTable {
    fn drop(self) {
        let Self {
            alloc: _,
            locks: _,
            index: _,
        } = self;
    }
}

impl Model for LockTable {
    ghost use Rattle.std.specs.Prelude.{List};
    ghost use Rattle.gs_lock.specs.declared.lock.Lock.{Lock};
    ghost use Rattle.gs_lock.specs.Indexes.{IsIndexed};

    ghost Value = { List Lock };

    ghost view = { λ t. t.locks.items };

    ghost invariant = { λ t. IsIndexed t.locks.items t.index };
}

impl LockTable {
    pub fn new(alloc: Global) -> LockTable
        ensures { result ≡ [] }
    {
        LockTable {
            alloc,
            locks: Vec::new(alloc),
            index: Index::new(alloc),
        }
    }

    /// Locks the paths that an operation reads and writes, or refuses `Locked` where another operation is in the way. It
    /// costs about these paths times the logarithm of the table. Only where a lock is in the way and the operation holds
    /// locks already, it looks at each lock of the table, as the one in the way may be its own.
    pub fn take(&mut self, op: ReqId, reads: &[Path], writes: &[Path]) -> Result<(), Refusal>
        ensures { Takes self.old op reads.now writes.now result self.new }
    {
        if self.is_conflict(op, reads, writes) {
            return Err(Refusal::Locked);
        }
        self.lock(op, reads, writes)?;
        Ok(())
    }

    /// Locks the paths that an operation reads and writes, whoever else does. A refusal leaves the table as it was.
    pub fn lock(&mut self, op: ReqId, reads: &[Path], writes: &[Path]) -> Result<(), AllocError>
        ensures ok { OnOk result (self.new ≡ taken self.old op reads.now writes.now) }
        ensures err { OnErr result (self.new ≡ self.old) }
    {
        let before = self.locks.len();
        if self.add_all(op, false, reads).is_err() || self.add_all(op, true, writes).is_err() {
            self.cut(before);
            return Err(AllocError);
        }
        Ok(())
    }

    /// The same locks, in memory of their own.
    pub fn copy(&self) -> Result<LockTable, AllocError>
        ensures { IfOk result (λ table. table ≡ self.now) }
    {
        let mut table = LockTable::new(self.alloc);
        for lock in &self.locks {
            let path = lock.path.copy(self.alloc)?;
            let op = lock.op;
            let writes = lock.writes;
            table.push(Lock { op, path, writes })?;
        }
        Ok(table)
    }

    /// The locks of all operations but one, in memory of their own.
    pub fn copy_without(&self, op: ReqId) -> Result<LockTable, AllocError>
        ensures { IfOk result (λ table. table ≡ released self.now op) }
    {
        let mut table = LockTable::new(self.alloc);
        for lock in &self.locks {
            if !is_of(op, lock) {
                table.push(Lock {
                    op: lock.op,
                    path: lock.path.copy(self.alloc)?,
                    writes: lock.writes,
                })?;
            }
        }
        Ok(table)
    }

    /// Gives up all locks of an operation. It takes no memory.
    pub fn release(&mut self, op: ReqId)
        ensures { self.new ≡ released self.old op }
    {
        let mut i = 0;
        while i < self.locks.len() {
            if is_of(op, &self.locks[i]) {
                let lock = self.locks.remove(i);
                self.index.subtract(&lock);
            } else {
                i += 1;
            }
        }
    }

    /// Whether no operation holds a lock.
    pub fn is_empty(&self) -> bool
        ensures { IsTrue result ↔ (self.now ≡ []) }
    {
        self.locks.is_empty()
    }

    /// Whether an operation holds a lock. It takes no memory.
    #[tactic(auto, using(crate::proofs::Conflicts::holds_is))]
    pub fn holds(&self, op: ReqId) -> bool
        ensures { result ≡ holds self.now op }
    {
        self.index.is_held(op)
    }

    /// Whether a lock of another operation is in the way of one that reads and writes these paths and reads all above them. It
    /// looks at each lock of the table, and takes no memory.
    pub fn is_in_the_way(&self, op: ReqId, reads: &[&Path], writes: &[&Path]) -> bool
        ensures { result ≡ stands_in_the_way self.now op (map (λ path. path.now) reads.entry.now) (map (λ path. path.now) writes.entry.now) }
    {
        self.locks
            .iter()
            .any(|lock| is_in_the_way(op, reads, writes, lock))
    }

    fn is_conflict(&self, op: ReqId, reads: &[Path], writes: &[Path]) -> bool
        ensures { result ≡ is_conflict self.now op reads.now writes.now }
    {
        if !self.index.is_in_the_way(reads, writes) {
            return false;
        }
        if !self.holds(op) {
            return true;
        }
        self.locks
            .iter()
            .any(|lock| conflicts_with(op, reads, writes, lock))
    }

    fn add_all(&mut self, op: ReqId, writes: bool, paths: &[Path]) -> Result<(), AllocError>
        ensures ok { OnOk result (self.new ≡ self.old ++ locks_on op writes paths.now) }
        ensures begins { take (length self.old) self.new ≡ self.old }
    {
        for path in paths {
            let path = path.copy(self.alloc)?;
            self.push(Lock { op, path, writes })?;
        }
        Ok(())
    }

    #[tactic(auto, using(crate::proofs::Indexed::indexed_same))]
    fn push(&mut self, lock: Lock) -> Result<(), AllocError>
        ensures ok { OnOk result (self.new ≡ self.old ++ lock ∷ []) }
        ensures err { OnErr result (self.new ≡ self.old) }
    {
        let path = lock.path.copy(self.alloc)?;
        self.locks.reserve(1)?;
        self.index.add(&lock, path)?;
        self.locks.push_reserved(lock);
        Ok(())
    }

    fn cut(&mut self, len: usize)
        ensures { self.new ≡ take len self.old }
    {
        while self.locks.len() > len {
            if let Some(lock) = self.locks.pop() {
                self.index.subtract(&lock);
            }
        }
    }
}

fn is_of(op: ReqId, lock: &Lock) -> bool
    ensures { result ≡ same_op op lock.now.op }
{
    op == lock.op
}

fn conflicts_with(op: ReqId, reads: &[Path], writes: &[Path], lock: &Lock) -> bool
    ensures { result ≡ conflicts_with op reads.now writes.now lock.now }
{
    if is_of(op, lock) {
        return false;
    }
    writes.contains(&lock.path) || lock.writes && reads.contains(&lock.path)
}

fn is_in_the_way(op: ReqId, reads: &[&Path], writes: &[&Path], lock: &Lock) -> bool
    ensures { result ≡ is_in_the_way op (map (λ path. path.now) reads.entry.now) (map (λ path. path.now) writes.entry.now) lock.now }
{
    let is_own = is_of(op, lock);
    if is_own {
        return false;
    }
    if lock.writes {
        return is_any_under(&lock.path, reads) || is_any_under(&lock.path, writes);
    }
    is_any(&lock.path, writes)
}

fn is_any_under(front: &Path, paths: &[&Path]) -> bool
    ensures { result ≡ list_any (λ path. begins front.now path.now) paths.entry.now }
{
    paths.iter().any(|path| path.starts_with(front))
}

fn is_any(path: &Path, paths: &[&Path]) -> bool
    ensures { result ≡ list_any (λ other. same_path other.now path.now) paths.entry.now }
{
    paths.iter().any(|other| **other == *path)
}
