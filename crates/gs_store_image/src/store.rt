// What a server keeps of all its handles.
ghost use Rattle.std.specs.Prelude.{◌≡◌, true, IfOk, OnOk, flat_map, length, map};
ghost use Rattle.std.specs.FinMap as fin;
ghost use Rattle.std.specs.List.{AllByRecursion};
ghost use Rattle.gs_base.specs.Told.{IsNumber};
ghost use Rattle.gs_fields.specs.Encoding.{number};
ghost use Rattle.gs_fields.specs.Reading.{times, long_list_at};
ghost use Rattle.gs_fields.specs.Work.{DecodesAs, Puts};
ghost use Rattle.gs_store.specs.Parts.{CanKeep};
ghost use Rattle.gs_store.specs.Stores.{with_slot};
ghost use Rattle.gs_store_image.specs.StoreEncoding as written;
ghost use Rattle.gs_store_image.specs.Inside.{KeepsFor, KeepsAll};
ghost use Rattle.gs_store_image.specs.StoreWritable.{IsKeptTold, AreSlotsTold, IsStoreTold};
ghost use Rattle.gs_store_image.specs.Reading.{rises};
ghost use Rattle.gs_store_image.specs.StoreReading.{handle_at, kept_at, store_at};

use crate::slot::{put_slot, read_slot};
use gs_base::{Handle, Refusal};
use gs_block::Sizes;
use gs_fields::{Cursor, Fault, Field};
use gs_store::{Slot, Store};
use std::alloc::{AllocError, Global};

/// Takes a handle at the front.
#[tactic(auto, unfolding(crate::specs::StoreReading::handle_at))]
fn read_handle(alloc: Global, cursor: &mut Cursor<'_>) -> Result<Handle, Fault>
    ensures { DecodesAs (λ h. h) result cursor.new.rest.now (handle_at cursor.old.rest.now) }
{
    match Handle::new(u64::read(alloc, cursor)?) {
        Some(handle) => Ok(handle),
        None => Err(Fault::Form),
    }
}

/// Takes at the front a handle and what is kept of it.
#[tactic(auto, unfolding(crate::specs::StoreReading::kept_at))]
fn read_kept(alloc: Global, sizes: Sizes, cursor: &mut Cursor<'_>) -> Result<(Handle, Slot), Fault>
    ensures { DecodesAs (λ e. e) result cursor.new.rest.now (kept_at sizes.block sizes.chunk cursor.old.rest.now) }
{
    let handle = read_handle(alloc, cursor)?;
    let slot = read_slot(alloc, sizes, cursor)?;
    Ok((handle, slot))
}

/// Takes from the front what is kept of so many handles.
fn read_slots(
    alloc: Global,
    sizes: Sizes,
    cursor: &mut Cursor<'_>,
    count: u64,
) -> Result<Vec<(Handle, Slot)>, Fault>
    ensures { DecodesAs (λ v. v.items) result cursor.new.rest.now (times (kept_at sizes.block sizes.chunk) count cursor.old.rest.now) }
{
    let mut slots = Vec::new(alloc);
    for _ in 0..count {
        let kept = read_kept(alloc, sizes, cursor)?;
        slots.push(kept)?;
    }
    Ok(slots)
}

/// Takes at the front what is kept of all handles.
#[tactic(auto, unfolding(gs_fields::specs::Reading::long_list_at))]
fn read_all_slots(
    alloc: Global,
    sizes: Sizes,
    cursor: &mut Cursor<'_>,
) -> Result<Vec<(Handle, Slot)>, Fault>
    ensures { DecodesAs (λ v. v.items) result cursor.new.rest.now (long_list_at (kept_at sizes.block sizes.chunk) cursor.old.rest.now) }
{
    let count = u64::read(alloc, cursor)?;
    read_slots(alloc, sizes, cursor, count)
}

/// Whether each handle is below the next.
fn handles_rise(slots: &[(Handle, Slot)]) -> bool
    ensures { result ≡ rises slots.now }
{
    let Some((first, rest)) = slots.split_first() else {
        return true;
    };
    let mut last = first.0;
    for kept in rest {
        if last >= kept.0 {
            return false;
        }
        last = kept.0;
    }
    true
}

/// Keeps a slot for a handle of which nothing was kept.
fn keep(store: &mut Store, handle: Handle, slot: Slot) -> Result<(), Fault>
    ensures ok { OnOk result (store.new ≡ with_slot handle slot store.old) }
    ensures judged { KeepsFor (CanKeep handle slot store.old) result }
{
    match store.keep(handle, slot) {
        Ok(()) => Ok(()),
        Err(Refusal::Memory) => Err(Fault::Memory),
        Err(_refusal) => Err(Fault::Form),
    }
}

/// Keeps slots, whose handles rise, in a store in which nothing is kept. `Form` where one is not a slot of the store's sizes.
fn keep_each(store: &mut Store, slots: Vec<(Handle, Slot)>) -> Result<(), Fault>
    requires empty { store.old.slots ≡ fin.empty }
    requires rising { rises slots.items ≡ true }
    ensures { KeepsAll slots.items store.old store.new result }
{
    let mut left = slots;
    while let Some((handle, slot)) = left.pop() {
        keep(store, handle, slot)?;
    }
    Ok(())
}

/// Takes a store at the front, for chunks of these sizes. Nothing is pushed into it. `Form` also where the handles do not rise, and
/// where a slot is not one of a store of these sizes.
#[tactic(auto, unfolding(crate::specs::StoreReading::store_at))]
pub fn read_store(alloc: Global, sizes: Sizes, cursor: &mut Cursor<'_>) -> Result<Store, Fault>
    ensures { DecodesAs (λ s. s) result cursor.new.rest.now (store_at sizes.block sizes.chunk cursor.old.rest.now) }
{
    let epoch = u64::read(alloc, cursor)?;
    let slots = read_all_slots(alloc, sizes, cursor)?;
    if !handles_rise(&slots) {
        return Err(Fault::Form);
    }
    let mut store = Store::at_epoch(alloc, sizes, epoch)?;
    keep_each(&mut store, slots)?;
    Ok(store)
}

/// Writes at the end a handle and what is kept of it.
fn put_kept(handle: Handle, slot: &Slot, alloc: Global, out: &mut Vec<u8>) -> Result<(), Fault>
    ensures { Puts (IsKeptTold (handle, slot.now)) (written.kept (handle, slot.now)) out.old.items out.new.items result }
{
    handle.number().put(alloc, out)?;
    put_slot(slot, alloc, out)
}

/// Writes at the end what is kept of each handle, without their count.
fn put_each(store: &Store, alloc: Global, out: &mut Vec<u8>) -> Result<(), Fault>
    ensures { Puts (AllByRecursion IsKeptTold (fin.entries store.now.slots)) (flat_map written.kept (fin.entries store.now.slots)) out.old.items out.new.items result }
{
    for (handle, slot) in store.slots() {
        put_kept(handle, slot, alloc, out)?;
    }
    Ok(())
}

/// The handles of which something is kept.
fn handles_of(alloc: Global, store: &Store) -> Result<Vec<Handle>, AllocError>
    ensures { IfOk result (λ v. v.items ≡ map (λ e. e.0) (fin.entries store.now.slots)) }
{
    let mut handles = Vec::new(alloc);
    for (handle, _slot) in store.slots() {
        handles.push(handle)?;
    }
    Ok(handles)
}

/// Writes at the end how many handles there are.
fn put_count(handles: &[Handle], alloc: Global, out: &mut Vec<u8>) -> Result<(), Fault>
    ensures { Puts (IsNumber (length handles.now)) (number (length handles.now)) out.old.items out.new.items result }
{
    let count = handles.len() as u64;
    count.put(alloc, out)
}

/// Writes at the end what is kept of all handles.
fn put_slots(store: &Store, alloc: Global, out: &mut Vec<u8>) -> Result<(), Fault>
    ensures { Puts (AreSlotsTold store.now.slots) (written.slots store.now.slots) out.old.items out.new.items result }
{
    let handles = handles_of(alloc, store)?;
    put_count(handles.as_slice(), alloc, out)?;
    put_each(store, alloc, out)
}

/// Writes the epoch of a store at the end, and what it keeps of all handles, without the bytes that were pushed. No block is
/// verified.
pub fn put_store(store: &Store, alloc: Global, out: &mut Vec<u8>) -> Result<(), Fault>
    ensures { Puts (IsStoreTold store.now) (written.store store.now) out.old.items out.new.items result }
{
    store.epoch().put(alloc, out)?;
    put_slots(store, alloc, out)
}
