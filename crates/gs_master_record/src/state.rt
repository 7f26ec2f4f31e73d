// A checkpoint.
ghost use Rattle.gs_master_record.specs.Encoding.{checkpoint as checkpoint_bytes};
ghost use Rattle.gs_master_record.specs.Plain.{plain_checkpoint};
ghost use Rattle.gs_master_record.specs.Writable.{AreParts, IsCheckpoint};
ghost use Rattle.gs_master_record.specs.inner.Reading.{checkpoint_at, parts_at};
ghost use Rattle.gs_master_record.specs.inner.Work.{DecodesAs, Puts};
ghost use Rattle.gs_journal.specs.declared.version.Version.TheVariants.{Two};

use crate::checkpoint::{Checkpoint, Phase};
use crate::fault::Fault;
use crate::field::{Cursor, Field};
use crate::lists::{
    put_ends, put_entries, put_list, put_prepared, put_references, read_ends, read_entries,
    read_list, read_prepared, read_references,
};
use crate::order::is_in_order;
use gs_journal::Version;
use std::alloc::Global;

/// Takes the fields of a checkpoint from the front, whatever the order of its lists.
#[tactic(auto, unfolding(crate::specs::inner::Reading::parts_at))]
fn read_parts(alloc: Global, cursor: &mut Cursor<'_>, version: Version) -> Result<Checkpoint, Fault>
    ensures { DecodesAs plain_checkpoint result cursor.new.rest.now (parts_at version cursor.old.rest.now) }
{
    let next_handle = u64::read(alloc, cursor)?;
    let next_version = u64::read(alloc, cursor)?;
    let next_hidden = u64::read(alloc, cursor)?;
    let epoch = u64::read(alloc, cursor)?;
    let phase = Phase::read(alloc, cursor)?;
    let ends = read_ends(alloc, cursor)?;
    let tree = read_list(alloc, cursor)?;
    let references = read_references(alloc, cursor)?;
    let settled = read_entries(alloc, cursor)?;
    let replies = read_list(alloc, cursor)?;
    let prepared = read_prepared(alloc, cursor, version)?;
    let inverses = read_list(alloc, cursor)?;
    Ok(Checkpoint {
        next_handle,
        next_version,
        next_hidden,
        epoch,
        phase,
        ends,
        tree,
        references,
        settled,
        replies,
        prepared,
        inverses,
    })
}

/// Takes a checkpoint of a journal of this version from the front.
#[tactic(auto, unfolding(crate::specs::inner::Reading::checkpoint_at))]
pub(crate) fn read_checkpoint(
    alloc: Global,
    cursor: &mut Cursor<'_>,
    version: Version,
) -> Result<Checkpoint, Fault>
    ensures { DecodesAs plain_checkpoint result cursor.new.rest.now (checkpoint_at version cursor.old.rest.now) }
{
    let checkpoint = read_parts(alloc, cursor, version)?;
    if !is_in_order(&checkpoint, alloc)? {
        return Err(Fault::Form);
    }
    Ok(checkpoint)
}

/// Writes the fields of a checkpoint at the end, whatever the order of its lists.
fn put_parts(checkpoint: &Checkpoint, alloc: Global, out: &mut Vec<u8>) -> Result<(), Fault>
    ensures { Puts (AreParts Two (plain_checkpoint checkpoint.now)) (checkpoint_bytes Two (plain_checkpoint checkpoint.now)) out.old.items out.new.items result }
{
    checkpoint.next_handle.put(alloc, out)?;
    checkpoint.next_version.put(alloc, out)?;
    checkpoint.next_hidden.put(alloc, out)?;
    checkpoint.epoch.put(alloc, out)?;
    checkpoint.phase.put(alloc, out)?;
    put_ends(&checkpoint.ends, alloc, out)?;
    put_list(&checkpoint.tree, alloc, out)?;
    put_references(&checkpoint.references, alloc, out)?;
    put_entries(&checkpoint.settled, alloc, out)?;
    put_list(&checkpoint.replies, alloc, out)?;
    put_prepared(&checkpoint.prepared, alloc, out)?;
    put_list(&checkpoint.inverses, alloc, out)
}

/// Writes a checkpoint at the end, as a journal of version 2 has it.
pub(crate) fn put_checkpoint(
    checkpoint: &Checkpoint,
    alloc: Global,
    out: &mut Vec<u8>,
) -> Result<(), Fault>
    ensures { Puts (IsCheckpoint Two (plain_checkpoint checkpoint.now)) (checkpoint_bytes Two (plain_checkpoint checkpoint.now)) out.old.items out.new.items result }
{
    if !is_in_order(checkpoint, alloc)? {
        return Err(Fault::Form);
    }
    put_parts(checkpoint, alloc, out)
}
