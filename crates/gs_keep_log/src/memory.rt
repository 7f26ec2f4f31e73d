// A log in memory.
ghost use Rattle.std.specs.Prelude.{◌≡◌, ◌≤◌, ◌-◌, ◌==◌, ◌++◌, [], ℕ, false, length, take, drop, not, IfSome, IfOk, OnOk, OnErr, is_err};
ghost use Rattle.gs_keep_log.specs.Log.{LogDoes, LogDoesPart, appended, partly_appended, partly_shortened, settled, shortened, synced, whole};
ghost use Rattle.gs_keep_log.specs.Memory.{holds, held};

use crate::log::{Failed, Log};
use std::alloc::{AllocError, Global};

/// Which call of a log in memory fails, and how much of it is done then.
#[derive(Clone, Copy, Debug, PartialEq, Eq)]
pub struct Fault {
    /// So many calls pass, and the one behind them fails.
    pub calls: u64,
    /// How many bytes of it are done: of an append, those that stand; of a sync, those that each crash leaves from then on; of
    /// a cut, those behind the new end that a crash may leave.
    pub count: usize,
}

/// A log in memory. It fails where its fault says so, or where memory is lacking.
#[derive(Drop)]
pub struct MemoryLog {
    alloc: Global,
    durable: Vec<u8>,
    pending: Vec<u8>,
    fault: Fault,
    has_failed: bool,
}

/// At most so many of the first bytes.
fn front(bytes: &[u8], most: usize) -> &[u8]
    ensures { result.now ≡ take most bytes.now }
{
    match bytes.get(..most) {
        Some(front) => front,
        None => bytes,
    }
}

/// The bytes behind so many of the first ones.
fn rest(bytes: &[u8], count: usize) -> &[u8]
    ensures { result.now ≡ drop count bytes.now }
{
    match bytes.get(count..) {
        Some(rest) => rest,
        None => &[],
    }
}

/// One text behind another.
fn joined(alloc: Global, first: &[u8], second: &[u8]) -> Result<Vec<u8>, AllocError>
    ensures { IfOk result (λ v. v.items ≡ first.now ++ second.now) }
{
    let mut bytes = Vec::from_slice(alloc, first)?;
    bytes.extend_from_slice(second)?;
    Ok(bytes)
}

impl MemoryLog {
    /// A log of bytes that each crash leaves.
    pub fn new(alloc: Global, bytes: Vec<u8>, fault: Fault) -> MemoryLog
        ensures held { held result ≡ record { durable = bytes.items; pending = [] } }
        ensures fault { result.fault ≡ fault }
        ensures passes { result.has_failed ≡ false }
    {
        MemoryLog {
            alloc,
            durable: bytes,
            pending: Vec::new(alloc),
            fault,
            has_failed: false,
        }
    }

    /// What a crash leaves that leaves at most so many of the bytes that aren't synced.
    pub fn left(&self, count: usize) -> Result<Vec<u8>, AllocError>
        ensures { IfOk result (λ bytes. bytes.items ≡ (held self.now).durable ++ take count (held self.now).pending) }
    {
        joined(self.alloc, &self.durable, front(&self.pending, count))
    }

    /// What a crash leaves that leaves these bytes in place of those that aren't synced, or as many of them as there are of those.
    pub fn left_with(&self, others: &[u8]) -> Result<Vec<u8>, AllocError>
        ensures { IfOk result (λ bytes. bytes.items ≡ (held self.now).durable ++ take (length (held self.now).pending) others.now) }
    {
        joined(self.alloc, &self.durable, front(others, self.unsynced()))
    }

    /// How many bytes aren't synced.
    pub fn unsynced(&self) -> usize
        ensures { result ≡ length (held self.now).pending }
    {
        self.pending.len()
    }

    /// Counts a call, and says whether it passes.
    fn passes(&mut self) -> bool
        ensures passes { result ≡ not (self.old.fault.calls == 0) }
        ensures held { held self.new ≡ held self.old }
        ensures count { self.new.fault.count ≡ self.old.fault.count }
    {
        if self.fault.calls == 0 {
            return false;
        }
        self.fault.calls -= 1;
        true
    }

    /// Notes how a call went.
    fn note(&mut self, outcome: Result<(), AllocError>) -> Result<(), Failed>
        ensures held { held self.new ≡ held self.old }
        ensures failed { self.new.has_failed ≡ is_err outcome }
        ensures same { is_err result ≡ is_err outcome }
    {
        self.has_failed = outcome.is_err();
        outcome.map_err(|_| Failed)
    }

    fn push(&mut self, bytes: &[u8]) -> Result<(), AllocError>
        ensures ok { OnOk result (held self.new ≡ appended bytes.now (held self.old)) }
        ensures err { OnErr result (held self.new ≡ held self.old) }
    {
        self.pending.extend_from_slice(bytes)
    }

    /// Makes at most so many of the pending bytes durable.
    fn settle(&mut self, count: usize) -> Result<(), AllocError>
        ensures ok { OnOk result (held self.new ≡ settled count (held self.old)) }
        ensures err { OnErr result (held self.new ≡ held self.old) }
    {
        let pending = Vec::from_slice(self.alloc, rest(&self.pending, count))?;
        self.durable.extend_from_slice(front(&self.pending, count))?;
        self.pending = pending;
        Ok(())
    }

    /// Cuts the log behind so many bytes.
    fn shorten(&mut self, len: usize) -> Result<(), AllocError>
        ensures ok { OnOk result (held self.new ≡ shortened len (held self.old)) }
        ensures err { OnErr result (held self.new ≡ held self.old) }
    {
        let whole = joined(self.alloc, &self.durable, &self.pending)?;
        self.durable = Vec::from_slice(self.alloc, front(&whole, len))?;
        self.pending.clear();
        Ok(())
    }

    /// The bytes behind the front of the durable ones, at most so many.
    fn behind(&self, len: usize, count: usize) -> Result<Vec<u8>, AllocError>
        ensures { IfOk result (λ bytes. bytes.items ≡ (partly_shortened len count (held self.now)).pending) }
    {
        let whole = joined(self.alloc, &self.durable, &self.pending)?;
        let behind = rest(&whole, front(&self.durable, len).len());
        Vec::from_slice(self.alloc, front(behind, count))
    }

    /// Cuts the log behind so many bytes, where a crash may leave some of those behind.
    fn shorten_in_part(&mut self, len: usize, count: usize)
        ensures { (n : ℕ) × (held self.new ≡ partly_shortened len n (held self.old)) }
    {
        let behind = self.behind(len, count);
        self.durable.truncate(len);
        match behind {
            Ok(bytes) => self.pending = bytes,
            Err(_) => self.pending.clear(),
        }
    }
}

impl Log for MemoryLog {
    ghost use Rattle.gs_keep_log.specs.Memory.{holds};

    ghost holds = { holds };

    ghost has_failed = { λ log. log.has_failed };

    fn append(&mut self, bytes: &[u8]) -> Result<(), Failed> {
        if self.passes() {
            let outcome = self.push(bytes);
            return self.note(outcome);
        }
        let _ = self.push(front(bytes, self.fault.count));
        self.note(Err(AllocError))
    }

    fn sync(&mut self) -> Result<(), Failed> {
        if self.passes() {
            let all = self.unsynced();
            let outcome = self.settle(all);
            return self.note(outcome);
        }
        let _ = self.settle(self.fault.count);
        self.note(Err(AllocError))
    }

    fn cut(&mut self, len: u64) -> Result<(), Failed> {
        let len = len as usize;
        if self.passes() {
            if self.shorten(len).is_ok() {
                return self.note(Ok(()));
            }
        }
        self.shorten_in_part(len, self.fault.count);
        self.note(Err(AllocError))
    }
}
