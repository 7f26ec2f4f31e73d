//! What holds of all that is written and read.
ghost use Rattle.std.specs.Prelude.{ℕ};
ghost use Rattle.gs_fields.specs.Laws.{Reads};
ghost use Rattle.gs_store_image.specs.Encoding.{replica};
ghost use Rattle.gs_store_image.specs.StoreEncoding.{slot, store};
ghost use Rattle.gs_store_image.specs.Writable.{IsReplica};
ghost use Rattle.gs_store_image.specs.StoreWritable.{IsSlot, IsStore};
ghost use Rattle.gs_store_image.specs.Reading.{replica_at};
ghost use Rattle.gs_store_image.specs.StoreReading.{slot_at, store_at};

/// A replica is read as it is written: what is read of what was written is the same replica, with the same seal, and what is read
/// at all is a replica whose bytes stood there.
pub fn a_replica_is_read_as_it_is_written()
    ensures { (block chunk : ℕ) → Reads (IsReplica block chunk) replica (replica_at block chunk) }
{}

/// So is a slot.
pub fn a_slot_is_read_as_it_is_written()
    ensures { (block chunk : ℕ) → Reads (IsSlot block chunk) slot (slot_at block chunk) }
{}

/// So is a store, but for the bytes that were pushed: in what is read there are none.
pub fn a_store_is_read_as_it_is_written()
    ensures { (block chunk : ℕ) → Reads (IsStore block chunk) store (store_at block chunk) }
{}
