// What a server keeps of a handle.
ghost use Rattle.std.specs.Int.{w64};
ghost use Rattle.gs_base.specs.Told.{IsNumber};
ghost use Rattle.gs_fields.specs.Encoding.{number, option, stamp};
ghost use Rattle.gs_fields.specs.Reading.{number_at, option_at, stamp_at};
ghost use Rattle.gs_fields.specs.Work.{DecodesAs, Puts};
ghost use Rattle.gs_fields.specs.Writable.{IsOption, IsStamp};
ghost use Rattle.gs_store_image.specs.Encoding.{replica};
ghost use Rattle.gs_store_image.specs.StoreEncoding as written;
ghost use Rattle.gs_store_image.specs.StoreEncoding.{slot_rest, slot_replicas, slot_carried};
ghost use Rattle.gs_store_image.specs.Writable.{IsTold};
ghost use Rattle.gs_store_image.specs.StoreWritable.{IsLiveTold, IsSlotRest, AreSlotReplicas, IsSlotCarried, IsSlotTold};
ghost use Rattle.gs_store_image.specs.Reading.{replica_at};
ghost use Rattle.gs_store_image.specs.StoreReading.{live_at, slot_at};

use crate::replica::{put_replica, read_replica};
use gs_base::Stamp;
use gs_block::Sizes;
use gs_fields::{Cursor, Fault, Field};
use gs_replica::Replica;
use gs_store::{LiveReplica, Slot, SlotParts};
use std::alloc::Global;

/// Takes at the front the block that marks a replica as bad, if one does.
fn read_bad(alloc: Global, cursor: &mut Cursor<'_>) -> Result<Option<u64>, Fault>
    ensures { DecodesAs (λ b. b) result cursor.new.rest.now (option_at (number_at w64) cursor.old.rest.now) }
{
    Option::<u64>::read(alloc, cursor)
}

/// Takes a stamp at the front, if there is one.
fn read_taken(alloc: Global, cursor: &mut Cursor<'_>) -> Result<Option<Stamp>, Fault>
    ensures { DecodesAs (λ s. s) result cursor.new.rest.now (option_at stamp_at cursor.old.rest.now) }
{
    Option::<Stamp>::read(alloc, cursor)
}

/// Takes a live replica at the front, and the block that marks it as bad, if one does.
#[tactic(auto, unfolding(crate::specs::StoreReading::live_at))]
fn read_live(alloc: Global, sizes: Sizes, cursor: &mut Cursor<'_>) -> Result<LiveReplica, Fault>
    ensures { DecodesAs (λ l. l) result cursor.new.rest.now (live_at sizes.block sizes.chunk cursor.old.rest.now) }
{
    let replica = read_replica(alloc, sizes, cursor)?;
    let bad = read_bad(alloc, cursor)?;
    Ok(LiveReplica::new(replica, bad))
}

/// Takes at the front a live replica, if there is one.
#[tactic(auto, unfolding(gs_fields::specs::Reading::option_at))]
fn read_live_in(
    alloc: Global,
    sizes: Sizes,
    cursor: &mut Cursor<'_>,
) -> Result<Option<LiveReplica>, Fault>
    ensures { DecodesAs (λ l. l) result cursor.new.rest.now (option_at (live_at sizes.block sizes.chunk) cursor.old.rest.now) }
{
    match u8::read(alloc, cursor)? {
        0 => Ok(None),
        1 => Ok(Some(read_live(alloc, sizes, cursor)?)),
        _ => Err(Fault::Form),
    }
}

/// Takes at the front a replica that stands in the trash, if one does.
#[tactic(auto, unfolding(gs_fields::specs::Reading::option_at))]
fn read_trash(
    alloc: Global,
    sizes: Sizes,
    cursor: &mut Cursor<'_>,
) -> Result<Option<Replica>, Fault>
    ensures { DecodesAs (λ r. r) result cursor.new.rest.now (option_at (replica_at sizes.block sizes.chunk) cursor.old.rest.now) }
{
    match u8::read(alloc, cursor)? {
        0 => Ok(None),
        1 => Ok(Some(read_replica(alloc, sizes, cursor)?)),
        _ => Err(Fault::Form),
    }
}

/// Takes a slot at the front, with replicas in chunks of these sizes. `Form` also where its parts are not those of a slot.
#[tactic(auto, unfolding(crate::specs::StoreReading::slot_at))]
pub fn read_slot(alloc: Global, sizes: Sizes, cursor: &mut Cursor<'_>) -> Result<Slot, Fault>
    ensures { DecodesAs (λ s. s) result cursor.new.rest.now (slot_at sizes.block sizes.chunk cursor.old.rest.now) }
{
    let promise = Stamp::read(alloc, cursor)?;
    let carried = bool::read(alloc, cursor)?;
    let live = read_live_in(alloc, sizes, cursor)?;
    let trash = read_trash(alloc, sizes, cursor)?;
    let taken = read_taken(alloc, cursor)?;
    let parts = SlotParts {
        promise,
        carried,
        live,
        trash,
        taken,
    };
    match Slot::of(parts) {
        Ok(slot) => Ok(slot),
        Err(_refusal) => Err(Fault::Form),
    }
}

/// Writes at the end the block that marks a replica as bad, if one does.
fn put_bad(bad: Option<u64>, alloc: Global, out: &mut Vec<u8>) -> Result<(), Fault>
    ensures { Puts (IsOption IsNumber bad) (option number bad) out.old.items out.new.items result }
{
    bad.put(alloc, out)
}

/// Writes a stamp at the end, if there is one.
fn put_taken(taken: Option<Stamp>, alloc: Global, out: &mut Vec<u8>) -> Result<(), Fault>
    ensures { Puts (IsOption IsStamp taken) (option stamp taken) out.old.items out.new.items result }
{
    taken.put(alloc, out)
}

/// Writes a live replica at the end, and the block that marks it as bad.
fn put_live(live: &LiveReplica, alloc: Global, out: &mut Vec<u8>) -> Result<(), Fault>
    ensures { Puts (IsLiveTold live.now) (written.live live.now) out.old.items out.new.items result }
{
    put_replica(live.replica(), alloc, out)?;
    put_bad(live.bad(), alloc, out)
}

/// Writes the live replica of a slot at the end, if there is one.
fn put_live_of(slot: &Slot, alloc: Global, out: &mut Vec<u8>) -> Result<(), Fault>
    ensures { Puts (IsOption IsLiveTold slot.now.live) (option written.live slot.now.live) out.old.items out.new.items result }
{
    match slot.live() {
        None => {
            out.push(0)?;
            Ok(())
        }
        Some(live) => {
            out.push(1)?;
            put_live(live, alloc, out)
        }
    }
}

/// Writes at the end the replica that stands in the trash of a slot, if one does.
fn put_trash_of(slot: &Slot, alloc: Global, out: &mut Vec<u8>) -> Result<(), Fault>
    ensures { Puts (IsOption IsTold slot.now.trash) (option replica slot.now.trash) out.old.items out.new.items result }
{
    match slot.trash() {
        None => {
            out.push(0)?;
            Ok(())
        }
        Some(trash) => {
            out.push(1)?;
            put_replica(trash, alloc, out)
        }
    }
}

/// Writes the trash of a slot at the end, and the stamp of the lease that was taken last.
fn put_slot_rest(slot: &Slot, alloc: Global, out: &mut Vec<u8>) -> Result<(), Fault>
    ensures { Puts (IsSlotRest slot.now) (slot_rest slot.now) out.old.items out.new.items result }
{
    put_trash_of(slot, alloc, out)?;
    put_taken(slot.taken(), alloc, out)
}

/// Writes at the end what a slot has behind its flag.
fn put_slot_replicas(slot: &Slot, alloc: Global, out: &mut Vec<u8>) -> Result<(), Fault>
    ensures { Puts (AreSlotReplicas slot.now) (slot_replicas slot.now) out.old.items out.new.items result }
{
    put_live_of(slot, alloc, out)?;
    put_slot_rest(slot, alloc, out)
}

/// Writes at the end what a slot has behind its promise.
fn put_slot_carried(slot: &Slot, alloc: Global, out: &mut Vec<u8>) -> Result<(), Fault>
    ensures { Puts (IsSlotCarried slot.now) (slot_carried slot.now) out.old.items out.new.items result }
{
    slot.is_carried().put(alloc, out)?;
    put_slot_replicas(slot, alloc, out)
}

/// Writes a slot at the end. No block is verified.
pub fn put_slot(slot: &Slot, alloc: Global, out: &mut Vec<u8>) -> Result<(), Fault>
    ensures { Puts (IsSlotTold slot.now) (written.slot slot.now) out.old.items out.new.items result }
{
    slot.promised().put(alloc, out)?;
    put_slot_carried(slot, alloc, out)
}
