// The handles that are told of a rollback.
ghost use Rattle.std.specs.Prelude.{◌≡◌, ◌≤◌, ◌+◌, ◌++◌, ◌∷◌, [], IfOk};
ghost use Rattle.std.specs.FinMap as fin;
ghost use Rattle.gs_base.specs.declared.epoch.EpochEnd.TheVariants.{Rollback};
ghost use Rattle.gs_store.specs.Stores.{Performs, learn, named};

use crate::store::Store;
use gs_base::{EpochEnd, Handle, Refusal};
use std::alloc::{AllocError, Global};
use std::marker::Model;

/// Handles that are named, in order. Room for them is made first, so that naming one takes no memory.
#[derive(Drop)]
struct Names {
    handles: Vec<Handle>,
}

impl Model for Names {
    ghost use Rattle.std.specs.Prelude.{◌-◌};
    ghost use Rattle.std.specs.Vec.{vec_len, vec_capacity};
    ghost use Rattle.gs_store.specs.inner.Rooms.{Room, coded_room};

    ghost Value = { Room };

    ghost coded = { coded_room };

    ghost view = { λ n. record { handles = n.handles.items; room = vec_capacity n.handles - vec_len n.handles } };
}

impl Names {
    /// No handles yet, and room for so many.
    fn with_room(alloc: Global, count: usize) -> Result<Names, AllocError>
        ensures none { IfOk result (λ n. n.handles ≡ []) }
        ensures room { IfOk result (λ n. n.room ≡ count) }
    {
        Ok(Names {
            handles: Vec::with_capacity(alloc, count)?,
        })
    }

    /// Names one more, for which there is room.
    fn put(&mut self, handle: Handle)
        requires room { 1 ≤ self.old.room }
        ensures handles { self.new.handles ≡ self.old.handles ++ handle ∷ [] }
        ensures left { self.old.room ≤ self.new.room + 1 }
    {
        self.handles.push(handle).unwrap();
    }

    fn into_handles(self) -> Vec<Handle>
        ensures { result.items ≡ self.handles }
    {
        self.handles
    }
}

impl Store {
    /// No names yet, and room for the handle of each slot.
    fn room_for_names(&self) -> Result<Names, AllocError>
        ensures none { IfOk result (λ names. names.handles ≡ []) }
        ensures room { IfOk result (λ names. names.room ≡ fin.len self.now.slots) }
    {
        Names::with_room(self.alloc, self.places.len())
    }

    /// Names each handle of a rollback, for which there is room. It takes no memory.
    fn name_each(&self, epoch: u64, mut names: Names) -> Vec<Handle>
        requires none { names.handles ≡ [] }
        requires room { fin.len self.now.slots ≤ names.room }
        ensures { result.items ≡ named epoch self.now }
    {
        for (handle, place) in self.places.iter() {
            if let Some(slot) = self.slots.get(*place) {
                if slot.is_named(epoch) {
                    names.put(handle);
                }
            }
        }
        names.into_handles()
    }

    /// The handles whose live replica stands under the first stamp of an epoch with each block as its digest says, ascending.
    pub fn named(&self, epoch: u64) -> Result<Vec<Handle>, AllocError>
        ensures { IfOk result (λ handles. handles.items ≡ named epoch self.now) }
    {
        let names = self.room_for_names()?;
        Ok(self.name_each(epoch, names))
    }

    /// Goes on to the next epoch after a rollback, as `learn` does, and gives the handles that are named then. Memory for as many
    /// as there are slots is all that it takes.
    pub fn roll_back(&mut self, epoch: u64) -> Result<Vec<Handle>, Refusal>
        ensures edit { Performs (learn epoch Rollback self.old) result self.old self.new }
        ensures named { IfOk result (λ handles. handles.items ≡ named epoch self.new) }
    {
        self.check_near(epoch)?;
        let names = self.room_for_names()?;
        self.learn(epoch, EpochEnd::Rollback)?;
        Ok(self.name_each(epoch, names))
    }
}
