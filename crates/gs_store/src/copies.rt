ghost use Rattle.std.specs.Prelude.{◌≡◌, true, None, IfErr};
ghost use Rattle.std.specs.FinMap as fin;
ghost use Rattle.gs_base.specs.declared.refusal.Refusal.TheVariants.{Memory};
ghost use Rattle.gs_base.specs.Stamps.{is_before};
ghost use Rattle.gs_base.specs.Calls.{FollowsOf, Foretells, Gives, Makes};
ghost use Rattle.gs_store.specs.Slots.{nothing};
ghost use Rattle.gs_store.specs.Moves as moves;
ghost use Rattle.gs_store.specs.Moves.{Prepares, copy_out};
ghost use Rattle.gs_store.specs.Stores.{Performs, slot_of, at_slot, copy_in, make_copy};

use crate::moves::{CopyImages, PreparedCopy};
use crate::slot::Slot;
use crate::store::Store;
use gs_base::{Handle, Refusal, Refused, Stamp};

impl Store {
    /// What is kept of a handle, or an empty slot.
    fn slot_or<'a>(&'a self, handle: Handle, empty: &'a Slot) -> &'a Slot
        requires { empty.now ≡ nothing }
        ensures { result.now ≡ slot_of handle self.entry.now }
    {
        match self.slot(handle) {
            Some(slot) => slot,
            None => empty,
        }
    }

    /// What a copy carries of a handle's live replica and, where it is asked for, of its sealed image. `Stamp` with the
    /// promise where another is named, `NoReplica` where none is live, and `Damaged` where it is bad or a block fails. All
    /// this is answered whatever memory there is.
    pub fn copy_out(
        &self,
        handle: Handle,
        stamp: Stamp,
        with_sealed: bool,
    ) -> Result<CopyImages, Refusal>
        ensures { Gives (λ copy. (copy.image, copy.sealed)) (copy_out stamp with_sealed (slot_of handle self.now)) result }
    {
        match self.slot(handle) {
            Some(slot) => slot.copy_out(stamp, with_sealed),
            None => {
                let empty = Slot::new();
                let copy = empty.copy_out(stamp, with_sealed);
                drop(empty);
                copy
            }
        }
    }

    /// Makes a copy of a handle's live replica live under another handle, or under the same one in place of the replica that
    /// it was made of. The first handle is judged first: `Stamp` with the promise where another is named, `NoReplica` where
    /// none is live, and `Damaged` where it is bad or a block fails. Then the new one: a stamp that is promised already is
    /// answered again where a replica is live, and else is `Old` where it isn't above the promise. All this is answered
    /// whatever memory there is: it is wanted for a new copy alone.
    pub fn make_copy(
        &mut self,
        handle: Handle,
        at: Stamp,
        new_handle: Handle,
        stamp: Stamp,
    ) -> Result<(), Refusal>
        ensures edit { Performs (make_copy handle at new_handle stamp self.old) result self.old self.new }
        ensures lacking { IfErr result (λ e. e ≡ Memory → is_before (slot_of new_handle self.old).promise stamp ≡ true) }
    {
        let copy = match self.copy_between(handle, at, new_handle, stamp) {
            Ok(Some(copy)) => copy,
            Ok(None) => return Ok(()),
            Err(refusal) => return Err(refusal),
        };
        self.put_copy(new_handle, copy)
    }

    /// The copy that `make_copy` puts in its place. None where the new handle has promised its stamp already.
    fn copy_between(
        &self,
        handle: Handle,
        at: Stamp,
        new_handle: Handle,
        stamp: Stamp,
    ) -> Result<Option<PreparedCopy>, Refusal>
        ensures made { Makes (moves.copy_for at stamp (slot_of handle self.now) (slot_of new_handle self.now)) result }
        ensures prepares { Prepares (moves.make_copy at stamp (slot_of handle self.now) (slot_of new_handle self.now)) (slot_of new_handle self.now) result }
        ensures lacking { IfErr result (λ e. e ≡ Memory → is_before (slot_of new_handle self.now).promise stamp ≡ true) }
    {
        let empty = Slot::new();
        let target = self.slot_or(new_handle, &empty);
        let copy = self.slot_or(handle, &empty).copy_for(at, stamp, target);
        drop(empty);
        copy
    }

    /// Puts a copy into the slot of a handle. Only the first replica of a handle may want memory.
    fn put_copy(&mut self, handle: Handle, copy: PreparedCopy) -> Result<(), Refusal>
        ensures { Performs (at_slot handle (moves.take_copy copy) self.old) result self.old self.new }
    {
        let Some(place) = self.places.get(handle) else {
            return self.put_first_copy(handle, copy);
        };
        self.slots[*place].take_copy(copy)
    }

    /// Puts a copy into a slot that the handle gets.
    fn put_first_copy(&mut self, handle: Handle, copy: PreparedCopy) -> Result<(), Refusal>
        requires { fin.get self.old.slots handle ≡ None }
        ensures { Performs (at_slot handle (moves.take_copy copy) self.old) result self.old self.new }
    {
        let mut slot = Slot::new();
        if let Err(refusal) = slot.take_copy(copy) {
            drop(slot);
            return Err(refusal);
        }
        self.add(handle, slot)
    }

    /// Makes what a copy carries live under a stamp above a handle's promise, in place of the replica that was live. A sealed
    /// image that it carries takes the place of the handle's own. A stamp that is promised already is answered again where a
    /// replica is live; else it is `Old`. `Range` and `BadLine` where an image does not fit. All this is answered whatever
    /// memory there is. A refused call hands back what it was given, also where it has no memory.
    pub fn copy_in(
        &mut self,
        handle: Handle,
        stamp: Stamp,
        given: CopyImages,
    ) -> Result<(), Refused<CopyImages>>
        ensures edit { FollowsOf given (copy_in handle stamp given.image given.sealed self.old) result self.old self.new }
        ensures lacking { IfErr result (λ r. r.refusal ≡ Memory → is_before (slot_of handle self.old).promise stamp ≡ true) }
    {
        let Some(place) = self.places.get(handle) else {
            return self.copy_in_first(handle, stamp, given);
        };
        self.slots[*place].copy_in(self.alloc, self.sizes, stamp, given)
    }

    /// Judges what a copy carries for a handle that has no slot.
    fn judge_first(&self, stamp: Stamp, given: &CopyImages) -> Result<(), Refusal>
        ensures { Foretells (moves.copy_in self.now.block self.now.chunk stamp given.now.image given.now.sealed nothing) result }
    {
        let empty = Slot::new();
        let judged = empty.judge_copy(self.sizes, stamp, given);
        drop(empty);
        judged
    }

    /// Makes what a copy carries live in a slot that the handle gets.
    fn copy_in_first(
        &mut self,
        handle: Handle,
        stamp: Stamp,
        given: CopyImages,
    ) -> Result<(), Refused<CopyImages>>
        requires { fin.get self.old.slots handle ≡ None }
        ensures edit { FollowsOf given (copy_in handle stamp given.image given.sealed self.old) result self.old self.new }
        ensures lacking { IfErr result (λ r. r.refusal ≡ Memory → is_before nothing.promise stamp ≡ true) }
    {
        if let Err(refusal) = self.judge_first(stamp, &given) {
            return Err(Refused { refusal, given });
        }
        let refusal = Refusal::Memory;
        if self.places.reserve(handle).is_err() {
            return Err(Refused { refusal, given });
        }
        if self.slots.reserve(1).is_err() {
            return Err(Refused { refusal, given });
        }
        let mut slot = Slot::new();
        if let Err(refused) = slot.copy_in(self.alloc, self.sizes, stamp, given) {
            drop(slot);
            return Err(refused);
        }
        let place = self.slots.len();
        self.slots.push(slot).unwrap();
        self.places.put(handle, place);
        Ok(())
    }
}
