// Entries as records.
ghost use Rattle.std.specs.Prelude.{◌≡◌, ◌⊎◌, ◌<◌, ◌∷◌, IfOk, IfErr};
ghost use Rattle.gs_base.specs.declared.refusal.Refusal.TheVariants.{Memory, BadLine};
ghost use Rattle.gs_journal.specs.declared.version.Version.TheVariants.{Two};
ghost use Rattle.gs_master_record.specs.Encoding.{kind, body, encoded};
ghost use Rattle.gs_master_record.specs.Plain.{plain};
ghost use Rattle.gs_master_record.specs.Writable.{AreFields, IsEntry};
ghost use Rattle.gs_master_record.specs.inner.Work.{Puts, Makes};

use crate::entry::Entry;
use crate::fault::Fault;
use crate::field::Field;
use crate::lists::put_answered;
use crate::state::put_checkpoint;
use gs_base::Refusal;
use gs_journal::{HEAD_BYTES, Record};
use std::alloc::Global;

/// Room for a record with two short paths, so that few records grow while they are written.
const RECORD_BYTES: usize = 96;

impl Entry {
    /// The record of the entry, for a journal of version 2. `BadLine` where the entry can't be written: a path isn't one
    /// that is read from its text, an index or a number of items has no four bytes, a detail or the whole has too many
    /// bytes, or a list of a checkpoint doesn't stand in its order. Else it refuses `Memory` alone.
    pub fn encode(&self, alloc: Global) -> Result<Record, Refusal>
        ensures written { IfOk result (λ r. IsEntry Two (plain self.now) × (r ≡ encoded Two (plain self.now))) }
        ensures refused { IfErr result (λ e. (e ≡ Memory) ⊎ ((e ≡ BadLine) × ¬ IsEntry Two (plain self.now))) }
    {
        Record::behind_head(kind_of(self), headed_body(self, alloc)?)
    }
}

/// The number of the record's kind.
fn kind_of(entry: &Entry) -> u8
    ensures { result ≡ kind (plain entry.now) }
{
    match entry {
        Entry::Edit { by: _, edit: _ } => 1,
        Entry::Said { to: _, refusal: _ } => 2,
        Entry::Propose {
            handle: _,
            version: _,
        } => 3,
        Entry::Settle(_) => 4,
        Entry::Prepare {
            epoch: _,
            moment: _,
            chunks: _,
        } => 5,
        Entry::Finalize { epoch: _ } => 6,
        Entry::RollbackBegin { epoch: _ } => 7,
        Entry::RollbackCommit {
            epoch: _,
            answered: _,
        } => 8,
        Entry::Checkpoint(_) => 9,
        Entry::Holder {
            handle: _,
            server: _,
        } => 10,
    }
}

/// Writes the fields of an entry at the end.
fn put_fields(entry: &Entry, alloc: Global, out: &mut Vec<u8>) -> Result<(), Fault>
    ensures { Puts (AreFields Two (plain entry.now)) (body Two (plain entry.now)) out.old.items out.new.items result }
{
    match entry {
        Entry::Edit { by, edit } => {
            by.put(alloc, out)?;
            edit.put(alloc, out)
        }
        Entry::Said { to, refusal } => {
            to.put(alloc, out)?;
            refusal.put(alloc, out)
        }
        Entry::Propose { handle, version } => {
            handle.put(alloc, out)?;
            version.put(alloc, out)
        }
        Entry::Settle(settled) => settled.put(alloc, out),
        Entry::Prepare {
            epoch,
            moment,
            chunks,
        } => {
            epoch.put(alloc, out)?;
            moment.put(alloc, out)?;
            chunks.put(alloc, out)
        }
        Entry::Finalize { epoch } | Entry::RollbackBegin { epoch } => epoch.put(alloc, out),
        Entry::RollbackCommit { epoch, answered } => {
            epoch.put(alloc, out)?;
            put_answered(answered, alloc, out)
        }
        Entry::Checkpoint(checkpoint) => put_checkpoint(checkpoint, alloc, out),
        Entry::Holder { handle, server } => {
            handle.put(alloc, out)?;
            server.put(alloc, out)
        }
    }
}

/// The body of the record, behind room for the head of its frame.
fn headed_body(entry: &Entry, alloc: Global) -> Result<Vec<u8>, Fault>
    ensures { Makes (IsEntry Two (plain entry.now)) (0 ∷ 0 ∷ 0 ∷ 0 ∷ 0 ∷ body Two (plain entry.now)) result }
{
    let mut out = Vec::with_capacity(alloc, RECORD_BYTES)?;
    out.extend_from_slice(&[0; HEAD_BYTES])?;
    put_fields(entry, alloc, &mut out)?;
    if out.len() - HEAD_BYTES > 4294967295 {
        return Err(Fault::Form);
    }
    Ok(out)
}
