// Records as entries.
ghost use Rattle.std.specs.Prelude.{◌≡◌, ◌⊎◌, IfOk, IfErr};
ghost use Rattle.gs_base.specs.declared.refusal.Refusal.TheVariants.{Memory, BadLine};
ghost use Rattle.gs_master_record.specs.Encoding.{encoded};
ghost use Rattle.gs_master_record.specs.Plain.{PlainEntry, plain};
ghost use Rattle.gs_master_record.specs.Writable.{IsEntry};
ghost use Rattle.gs_master_record.specs.inner.Reading.{entry_at, entry_of, holder_at, later_entry_at};
ghost use Rattle.gs_master_record.specs.inner.Work.{DecodesAs, GivesAll, Decodes};

use crate::entry::{Entry, SettledView};
use crate::fault::Fault;
use crate::field::{Cursor, Field};
use crate::lists::read_answered;
use crate::state::read_checkpoint;
use gs_base::{Handle, Moment, Refusal, ReqId, ServerId};
use gs_edit::Edit;
use gs_journal::{Record, Version};
use std::alloc::Global;

impl Entry {
    /// The entry of which this is the record in a journal of this version. `BadLine` where it is the record of none that
    /// can be written. Else it refuses `Memory` alone. The memory that it takes is of the order of the record's length.
    pub fn decode(alloc: Global, version: Version, written: &Record) -> Result<Entry, Refusal>
        ensures read { IfOk result (λ e. IsEntry version (plain e) × (encoded version (plain e) ≡ written.now)) }
        ensures refused { IfErr result (λ e. (e ≡ Memory) ⊎ ((e ≡ BadLine) × ((x : PlainEntry) → IsEntry version x → ¬ (encoded version x ≡ written.now)))) }
    {
        Ok(read(alloc, version, written.kind(), written.body())?)
    }
}

/// Takes a holder from the front.
#[tactic(auto, unfolding(crate::specs::inner::Reading::holder_at))]
fn read_holder(alloc: Global, cursor: &mut Cursor<'_>, version: Version) -> Result<Entry, Fault>
    ensures { DecodesAs plain result cursor.new.rest.now (holder_at version cursor.old.rest.now) }
{
    match version {
        Version::One => Err(Fault::Form),
        Version::Two => {
            let (handle, server) = <(Handle, ServerId)>::read(alloc, cursor)?;
            Ok(Entry::Holder { handle, server })
        }
    }
}

/// Takes the fields of an entry from the front that tells of an epoch, a checkpoint or a holder.
#[tactic(auto, unfolding(crate::specs::inner::Reading::later_entry_at))]
fn read_later_fields(
    alloc: Global,
    cursor: &mut Cursor<'_>,
    version: Version,
    kind: u8,
) -> Result<Entry, Fault>
    ensures { DecodesAs plain result cursor.new.rest.now (later_entry_at version kind cursor.old.rest.now) }
{
    match kind {
        5 => {
            let (epoch, (moment, chunks)) = <(u64, (Moment, u32))>::read(alloc, cursor)?;
            Ok(Entry::Prepare {
                epoch,
                moment,
                chunks,
            })
        }
        6 => {
            let epoch = u64::read(alloc, cursor)?;
            Ok(Entry::Finalize { epoch })
        }
        7 => {
            let epoch = u64::read(alloc, cursor)?;
            Ok(Entry::RollbackBegin { epoch })
        }
        8 => {
            let epoch = u64::read(alloc, cursor)?;
            let answered = read_answered(alloc, cursor)?;
            Ok(Entry::RollbackCommit { epoch, answered })
        }
        9 => Ok(Entry::Checkpoint(read_checkpoint(alloc, cursor, version)?)),
        10 => read_holder(alloc, cursor, version),
        _ => Err(Fault::Form),
    }
}

/// Takes the fields of an entry of this kind from the front.
#[tactic(auto, unfolding(crate::specs::inner::Reading::entry_at))]
fn read_fields(
    alloc: Global,
    cursor: &mut Cursor<'_>,
    version: Version,
    kind: u8,
) -> Result<Entry, Fault>
    ensures { DecodesAs plain result cursor.new.rest.now (entry_at version kind cursor.old.rest.now) }
{
    match kind {
        1 => {
            let (by, edit) = <(ReqId, Edit)>::read(alloc, cursor)?;
            Ok(Entry::Edit { by, edit })
        }
        2 => {
            let (to, refusal) = <(ReqId, Refusal)>::read(alloc, cursor)?;
            Ok(Entry::Said { to, refusal })
        }
        3 => {
            let (handle, version) = <(Handle, u64)>::read(alloc, cursor)?;
            Ok(Entry::Propose { handle, version })
        }
        4 => Ok(Entry::Settle(SettledView::read(alloc, cursor)?)),
        _ => read_later_fields(alloc, cursor, version, kind),
    }
}

/// The entry of a kind and a body.
#[tactic(auto, unfolding(crate::specs::inner::Reading::entry_of))]
fn read_all(alloc: Global, version: Version, kind: u8, body: &[u8]) -> Result<Entry, Fault>
    ensures { GivesAll plain result (entry_of version kind body.now) }
{
    if body.len() > 4294967295 {
        return Err(Fault::Form);
    }
    let mut cursor = Cursor { rest: body };
    let entry = read_fields(alloc, &mut cursor, version, kind)?;
    if !cursor.rest.is_empty() {
        return Err(Fault::Form);
    }
    Ok(entry)
}

/// The entry whose record has this kind and this body.
fn read(alloc: Global, version: Version, kind: u8, body: &[u8]) -> Result<Entry, Fault>
    ensures { Decodes version (kind, body.now) result }
{
    read_all(alloc, version, kind, body)
}
