ghost use Rattle.std.specs.Prelude.{◌≡◌, IfOk};
ghost use Rattle.std.specs.Option.{option_copied};
ghost use Rattle.std.specs.FinMap as fin;
ghost use Rattle.gs_base.specs.Calls.{Answers, Foretells, Judges};
ghost use Rattle.gs_store.specs.Slots.{check_grant, is_taken, count_of, bad_in};
ghost use Rattle.gs_store.specs.Serving.{read, text_length, digest, edited_in, done_in};
ghost use Rattle.gs_store.specs.Stores.{new, slot_of, check_epoch};
ghost use Rattle.gs_store.specs.Parts.{at_epoch};

use crate::buffer::PushBuffer;
use crate::slot::Slot;
use gs_base::{ClientId, Handle, Refusal, Stamp};
use gs_base_table::Table;
use gs_block::{Digest, Sizes};
use gs_replica::{Done, Op};
use std::alloc::{AllocError, Global};
use std::marker::Model;

/// What a server keeps of all its handles, and the bytes that clients have pushed.
pub struct Store {
    pub(crate) alloc: Global,
    pub(crate) sizes: Sizes,
    pub(crate) epoch: u64,
    pub(crate) places: Table<Handle, usize>,
    pub(crate) slots: Vec<Slot>,
    pub(crate) buffer: PushBuffer,
}

impl Drop for Store {
    fn drop(self) {
        let Self {
            alloc: _,
            sizes: _,
            epoch: _,
            places: _,
            slots: _,
            buffer: _,
        } = self;
    }
}

impl Model for Store {
    ghost use Rattle.std.specs.Ordering.{nat_cmp};
    ghost use Rattle.gs_base_table.specs.Slots.{live};
    ghost use Rattle.gs_store.specs.Stores.{Store, coded_store};
    ghost use Rattle.gs_store.specs.inner.Placed.{slots_at, IsPlaced};

    ghost Value = { Store };

    ghost coded = { coded_store };

    ghost view = { λ s. record { block = s.sizes.block; chunk = s.sizes.chunk; epoch = s.epoch; slots = slots_at (live nat_cmp s.places) s.slots.items; buffer = s.buffer } };

    ghost invariant = { λ s. IsPlaced (live nat_cmp s.places) s.slots.items };
}

impl Store {
    /// A store of no replica, in epoch 0, for chunks of these sizes.
    pub fn new(alloc: Global, sizes: Sizes) -> Result<Store, AllocError>
        ensures { IfOk result (λ s. s ≡ new sizes.block sizes.chunk) }
    {
        Ok(Store {
            alloc,
            sizes,
            epoch: 0,
            places: Table::new(alloc),
            slots: Vec::new(alloc),
            buffer: PushBuffer::new(alloc)?,
        })
    }

    /// A store in which nothing is kept yet, in this epoch.
    pub fn at_epoch(alloc: Global, sizes: Sizes, epoch: u64) -> Result<Store, AllocError>
        ensures { IfOk result (λ s. s ≡ at_epoch sizes.block sizes.chunk epoch) }
    {
        Ok(Store {
            alloc,
            sizes,
            epoch,
            places: Table::new(alloc),
            slots: Vec::new(alloc),
            buffer: PushBuffer::new(alloc)?,
        })
    }

    /// The sizes of the chunks.
    pub fn sizes(&self) -> Sizes
        ensures block { result.block ≡ self.now.block }
        ensures chunk { result.chunk ≡ self.now.chunk }
    {
        self.sizes
    }

    /// The epoch that stands.
    pub fn epoch(&self) -> u64
        ensures { result ≡ self.now.epoch }
    {
        self.epoch
    }

    /// `Epoch` with the epoch that stands where it is another.
    pub fn check_epoch(&self, epoch: u64) -> Result<(), Refusal>
        ensures { Judges (check_epoch epoch self.now) result }
    {
        if epoch != self.epoch {
            return Err(Refusal::Epoch(self.epoch));
        }
        Ok(())
    }

    /// What is kept of a handle. None where nothing was heard of it.
    pub fn slot(&self, handle: Handle) -> Option<&Slot>
        ensures { option_copied result ≡ fin.get self.now.slots handle }
    {
        match self.places.get(handle) {
            Some(place) => Some(&self.slots[*place]),
            None => None,
        }
    }

    /// The stamp below which no edit of the handle is taken.
    pub fn promised(&self, handle: Handle) -> Stamp
        ensures { result ≡ (slot_of handle self.now).promise }
    {
        match self.slot(handle) {
            Some(slot) => slot.promised(),
            None => {
                let empty = Slot::new();
                let promised = empty.promised();
                drop(empty);
                promised
            }
        }
    }

    /// Whether a copy of the promised stamp carried a sealed image.
    pub fn is_carried(&self, handle: Handle) -> bool
        ensures { result ≡ (slot_of handle self.now).carried }
    {
        match self.slot(handle) {
            Some(slot) => slot.is_carried(),
            None => false,
        }
    }

    /// How many edits the live replica has applied, if there is one.
    pub fn count(&self, handle: Handle) -> Option<u64>
        ensures { result ≡ count_of (slot_of handle self.now).live }
    {
        match self.slot(handle) {
            Some(slot) => slot.count(),
            None => None,
        }
    }

    /// The block that marks the live replica as bad, if one does.
    pub fn bad(&self, handle: Handle) -> Option<u64>
        ensures { result ≡ bad_in (slot_of handle self.now).live }
    {
        match self.slot(handle) {
            Some(slot) => slot.bad(),
            None => None,
        }
    }

    /// A client's last request that the live replica has applied.
    pub fn done(&self, handle: Handle, client: ClientId) -> Option<Done>
        ensures { result ≡ done_in (slot_of handle self.now).live client.0 }
    {
        match self.slot(handle) {
            Some(slot) => slot.done(client),
            None => None,
        }
    }

    /// Whether a lease of a stamp could be held. `NoReplica` where no replica of the handle is live, and `Stamp` with the
    /// promise where the stamp is another.
    pub fn check_grant(&self, handle: Handle, stamp: Stamp) -> Result<(), Refusal>
        ensures { Judges (check_grant stamp (slot_of handle self.now)) result }
    {
        match self.slot(handle) {
            Some(slot) => slot.check_grant(stamp),
            None => Err(Refusal::NoReplica),
        }
    }

    /// Whether a lease of a stamp was the last one taken of the handle.
    pub fn is_taken(&self, handle: Handle, stamp: Stamp) -> bool
        ensures { result ≡ is_taken stamp (slot_of handle self.now).taken }
    {
        match self.slot(handle) {
            Some(slot) => slot.is_taken(stamp),
            None => false,
        }
    }

    /// The stored bytes of a range of the live replica. `NoReplica` where none is live, `Old` where the promise is below the
    /// stamp, `Range` past the size of the chunk, and `Damaged` where the replica is bad or a block of the range fails.
    pub fn read(
        &self,
        handle: Handle,
        stamp: Stamp,
        offset: u64,
        many: u64,
    ) -> Result<&[u8], Refusal>
        ensures { Answers (λ part. part.now) (read stamp offset many (slot_of handle self.now)) result }
    {
        match self.slot(handle) {
            Some(slot) => slot.read(stamp, offset, many),
            None => Err(Refusal::NoReplica),
        }
    }

    /// How many bytes the live replica stores, also where it is bad. `NoReplica` where none is live, and `Old` where the
    /// promise is below the stamp.
    pub fn len(&self, handle: Handle, stamp: Stamp) -> Result<u64, Refusal>
        ensures { Answers (λ many. many) (text_length stamp (slot_of handle self.now)) result }
    {
        match self.slot(handle) {
            Some(slot) => slot.len(stamp),
            None => Err(Refusal::NoReplica),
        }
    }

    /// The stored digest of a block of the live replica, which is verified first and alone. `NoReplica` where none is live,
    /// `Old` where the promise is below the stamp, `Range` where there is no such block, and `Damaged` where it fails.
    pub fn digest(&self, handle: Handle, stamp: Stamp, block: u64) -> Result<Digest, Refusal>
        ensures { Answers (λ digest. digest) (digest stamp block (slot_of handle self.now)) result }
    {
        match self.slot(handle) {
            Some(slot) => slot.digest(stamp, block),
            None => Err(Refusal::NoReplica),
        }
    }

    /// Judges an edit by the live replica's chunk alone, whatever its stamp, number and request. `NoReplica` where none is
    /// live. It takes no memory.
    pub fn judge(&self, handle: Handle, op: Op, bytes: &[u8]) -> Result<(), Refusal>
        ensures { Foretells (edited_in op bytes.now (slot_of handle self.now).live) result }
    {
        match self.slot(handle) {
            Some(slot) => slot.judge(op, bytes),
            None => Err(Refusal::NoReplica),
        }
    }
}
