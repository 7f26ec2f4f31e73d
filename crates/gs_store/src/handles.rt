ghost use Rattle.std.specs.Prelude.{◌≡◌, None, OnOk, OnErr, IfErr};
ghost use Rattle.std.specs.FinMap as fin;
ghost use Rattle.gs_base.specs.Calls.{Does, Follows, Refuses};
ghost use Rattle.gs_base.specs.declared.refusal.Refusal.TheVariants.{Memory};
ghost use Rattle.gs_store.specs.Serving.{foreseen};
ghost use Rattle.gs_store.specs.Parts.{CanKeep, KeepsIf};
ghost use Rattle.gs_store.specs.Stores.{Performs, slot_of, with_slot, create, advance, drop_replica, take_lease, apply, lose, damage, mark_bad};

use crate::slot::Slot;
use crate::store::Store;
use gs_base::{Handle, Refusal, ReqId, Stamp};
use gs_replica::Op;

impl Store {
    /// Keeps a slot for a handle that has none.
    pub(crate) fn add(&mut self, handle: Handle, slot: Slot) -> Result<(), Refusal>
        requires { fin.get self.old.slots handle ≡ None }
        ensures ok { OnOk result (self.new ≡ with_slot handle slot self.old) }
        ensures err { OnErr result (self.new ≡ self.old) }
        ensures memory { IfErr result (λ e. e ≡ Memory) }
    {
        self.places.reserve(handle)?;
        let place = self.slots.len();
        self.slots.push(slot)?;
        self.places.put(handle, place);
        Ok(())
    }

    /// Keeps a slot for a handle of which nothing was kept, as it is read of an image. `BadLine` where a slot is kept of it, and
    /// where the slot is of other sizes, whatever memory there is.
    pub fn keep(&mut self, handle: Handle, slot: Slot) -> Result<(), Refusal>
        ensures ok { OnOk result (self.new ≡ with_slot handle slot self.old) }
        ensures err { OnErr result (self.new ≡ self.old) }
        ensures judged { KeepsIf (CanKeep handle slot self.old) result }
    {
        if self.slot(handle).is_some() {
            return Err(Refusal::BadLine);
        }
        if !slot.is_of(self.sizes) {
            return Err(Refusal::BadLine);
        }
        self.add(handle, slot)
    }

    /// Makes an empty replica of a handle under a stamp above its promise, in place of the one that was live. A stamp that is
    /// promised already is answered again where a replica is live; else it is `Old`. Only the first replica of a handle may
    /// want memory.
    pub fn create(&mut self, handle: Handle, stamp: Stamp) -> Result<(), Refusal>
        ensures edit { Performs (create handle stamp self.old) result self.old self.new }
        ensures lacking { IfErr result (λ e. e ≡ Memory → fin.get self.old.slots handle ≡ None) }
    {
        let Some(place) = self.places.get(handle) else {
            let mut slot = Slot::new();
            if let Err(refusal) = slot.create(self.alloc, self.sizes, stamp) {
                drop(slot);
                return Err(refusal);
            }
            return self.add(handle, slot);
        };
        self.slots[*place].create(self.alloc, self.sizes, stamp)
    }

    /// Raises the promise of a handle's live replica. `NoReplica` where none is live, `Damaged` where it is bad, and `Old`
    /// below the promise. It takes no memory.
    pub fn advance(&mut self, handle: Handle, stamp: Stamp) -> Result<(), Refusal>
        ensures { Does (advance handle stamp self.old) result self.old self.new }
    {
        let Some(place) = self.places.get(handle) else {
            return Err(Refusal::NoReplica);
        };
        self.slots[*place].advance(stamp)
    }

    /// Takes a handle's live replica away. `Stamp` with the promise where another is named, and `NoReplica` where none is
    /// live. What was sealed goes to the trash. It takes no memory.
    pub fn drop_replica(&mut self, handle: Handle, promise: Stamp) -> Result<(), Refusal>
        ensures { Does (drop_replica handle promise self.old) result self.old self.new }
    {
        let Some(place) = self.places.get(handle) else {
            let mut empty = Slot::new();
            let dropped = empty.drop_replica(promise);
            drop(empty);
            return dropped;
        };
        self.slots[*place].drop_replica(promise)
    }

    /// Takes a lease of a stamp, once for good. It is refused as `check_grant` is, and `Old` where a lease of the stamp was
    /// the last one taken. It takes no memory.
    pub fn take_lease(&mut self, handle: Handle, stamp: Stamp) -> Result<(), Refusal>
        ensures { Does (take_lease handle stamp self.old) result self.old self.new }
    {
        let Some(place) = self.places.get(handle) else {
            return Err(Refusal::NoReplica);
        };
        self.slots[*place].take_lease(stamp)
    }

    /// Applies an edit to a handle's live replica, as `Slot::apply` does. `NoReplica` where none is live. All but `Damaged`
    /// are answered whatever memory there is.
    pub fn apply(
        &mut self,
        handle: Handle,
        stamp: Stamp,
        number: u64,
        req: ReqId,
        op: Op,
        bytes: &[u8],
    ) -> Result<(), Refusal>
        ensures edit { Follows (apply handle stamp number req op bytes.now self.old) result self.old self.new }
        ensures judged { Refuses (foreseen stamp number req op bytes.now (slot_of handle self.old).live) result }
    {
        let Some(place) = self.places.get(handle) else {
            return Err(Refusal::NoReplica);
        };
        self.slots[*place].apply(stamp, number, req, op, bytes)
    }

    /// Loses a handle's live replica and what stands in the trash. `NoReplica` where there is neither. It takes no memory.
    pub fn lose(&mut self, handle: Handle) -> Result<(), Refusal>
        ensures { Does (lose handle self.old) result self.old self.new }
    {
        let Some(place) = self.places.get(handle) else {
            return Err(Refusal::NoReplica);
        };
        self.slots[*place].lose()
    }

    /// Damages a block of a handle's live replica, or else of the one in the trash, as `Slot::damage` does. `NoReplica` where
    /// there is neither. It takes no memory.
    pub fn damage(&mut self, handle: Handle, block: u64) -> Result<(), Refusal>
        ensures { Does (damage handle block self.old) result self.old self.new }
    {
        let Some(place) = self.places.get(handle) else {
            return Err(Refusal::NoReplica);
        };
        self.slots[*place].damage(block)
    }

    /// Marks a handle's live replica as bad by a block that was found without its digest. An earlier mark stays. It takes no
    /// memory.
    pub fn mark_bad(&mut self, handle: Handle, block: u64)
        ensures { self.new ≡ mark_bad handle block self.old }
    {
        if let Some(place) = self.places.get(handle) {
            self.slots[*place].mark_bad(block);
        }
    }
}
