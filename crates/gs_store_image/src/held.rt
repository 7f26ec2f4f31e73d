// What stands in memory is read again, where it can be written.
ghost use Rattle.std.specs.FinMap as fin;
ghost use Rattle.std.specs.List.{AllByRecursion};
ghost use Rattle.gs_store.specs.Stores.{restarted};
ghost use Rattle.gs_store_image.specs.Inside.{LiveHeld, TrashHeld};
ghost use Rattle.gs_store_image.specs.StoreWritable.{IsReplicaHeld, IsSlotHeld, AreSlotsOf, IsStoreTold, IsStore};

use gs_replica::Replica;
use gs_store::{Slot, Store};

/// Each replica in memory is read again, where it can be written. A caller whose proof asks this of a replica calls it; it changes
/// nothing.
pub fn is_replica_held(replica: &Replica)
    ensures { IsReplicaHeld replica.now }
{
    replica.whole();
    let _seal = replica.seal_parts();
}

/// The live replica of a slot is read again, where it can be written.
fn is_live_held(slot: &Slot)
    ensures { LiveHeld slot.now.live }
{
    match slot.live() {
        None => {}
        Some(live) => is_replica_held(live.replica()),
    }
}

/// So is what stands in its trash.
fn is_trash_held(slot: &Slot)
    ensures { TrashHeld slot.now.trash }
{
    match slot.trash() {
        None => {}
        Some(trash) => is_replica_held(trash),
    }
}

/// Each slot in memory is read again, where it can be written and is one of a store of these sizes. A caller whose proof asks this of
/// a slot calls it; it changes nothing.
pub fn is_slot_held(slot: &Slot)
    ensures { IsSlotHeld slot.now }
{
    is_live_held(slot);
    is_trash_held(slot);
}

/// Each slot of a store is read again, where it can be written.
fn are_slots_held(store: &Store)
    ensures { AllByRecursion (λ e. IsSlotHeld e.1) (fin.entries store.now.slots) }
{
    for entry in store.slots() {
        is_slot_held(entry.1);
    }
}

/// Each store in memory is read again, but for the bytes that were pushed, where it can be written and each of its slots is one of a
/// store of its sizes. A caller whose proof asks this of a store calls it; it changes nothing.
pub fn is_store_held(store: &Store)
    ensures { IsStoreTold store.now → AreSlotsOf store.now.block store.now.chunk store.now.slots → IsStore store.now.block store.now.chunk (restarted store.now) }
{
    are_slots_held(store);
}
