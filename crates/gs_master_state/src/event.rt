// The records of an event, entered one after the other and taken back together.
ghost use Rattle.std.specs.Prelude.{[], ◌<◌, ◌≡◌, ◌≤◌, false, IfErr, IfOk, List, None, OnOk, take, true, vec_capacity, vec_len};
ghost use Rattle.std.specs.Ordering.{nat_cmp};
ghost use Rattle.gs_master_record.specs.Plain.{plain, PlainEntry};
ghost use Rattle.gs_master_spec.specs.Durable.{Durable};
ghost use Rattle.gs_master_state.specs.inner.Recorded.{durable_of, KeepsRooms};
ghost use Rattle.gs_master_state.specs.inner.Released.{all_forgotten, chunks_in, forgotten_in, ReleasesEach};
ghost use Rattle.gs_master_state.specs.inner.Reversing.{AreBack};
ghost use Rattle.gs_master_state.specs.inner.TakingBack.{all_leases_before, all_rooms_before, comes_alone, Enters, IsRefused, IsToldFor, Leads, RoomForAll, StillTakeBack, TakeBack, TakesBack, TakesOneMore};
ghost use Rattle.gs_base_table.specs.Slots.{live};

use crate::edit::push_within;
use crate::recorded::Recorded;
use crate::undo::{ChunkBefore, EditBefore, Undo};
use gs_base::Refusal;
use gs_edit::{ListedInverse, Names};
use gs_master_record::Entry;
use std::alloc::AllocError;

/// The chunks that a record forgot, as they stood.
fn forgotten_in(undo: &Undo) -> &[ChunkBefore]
    ensures { result.now ≡ forgotten_in undo.now }
{
    match undo {
        Undo::Edit(before) => &before.forgotten,
        _ => &[],
    }
}

impl Recorded {
    /// What takes an entry back, if it is an edit and an upgrade stands.
    pub fn inverse_for(&self, entry: &Entry) -> Result<Option<ListedInverse>, AllocError>
        ensures { IfOk result (λ inverse. IsToldFor (durable_of self.now) (plain entry.now) inverse) }
    {
        match entry {
            Entry::Edit { edit, .. } => self.inverse_list(edit),
            _ => Ok(None),
        }
    }

    /// Enters a record, and puts what takes it back behind what takes those before it back. So these lead from what stands
    /// afterwards to what stood before the first, also where the record is refused. There is room behind them. The names to
    /// which a rollback leads may be given.
    pub fn enter_behind(
        &mut self,
        undos: &mut Vec<Undo>,
        entry: &Entry,
        inverse: Option<ListedInverse>,
        back: Option<Names>,
    ) -> Result<(), Refusal>
        requires told { IsToldFor (durable_of self.old) (plain entry.now) inverse }
        requires given { AreBack (durable_of self.old) back }
        requires room { RoomForAll self.old undos.old.items }
        requires place { vec_len undos.old < vec_capacity undos.old }
        ensures applied { comes_alone (plain entry.now) ≡ false → Enters (plain entry.now) result (durable_of self.old) (durable_of self.new) }
        ensures alone { comes_alone (plain entry.now) ≡ true → IsRefused result (durable_of self.old) (durable_of self.new) }
        ensures back { StillTakeBack undos.old.items (durable_of self.old) undos.new.items (durable_of self.new) }
        ensures leases { all_leases_before undos.new.items (live nat_cmp self.new.leases) ≡ all_leases_before undos.old.items (live nat_cmp self.old.leases) }
        ensures room { RoomForAll self.new undos.new.items }
        ensures keeps { KeepsRooms (all_rooms_before undos.old.items self.old) (all_rooms_before undos.new.items self.new) }
        ensures one { OnOk result (TakesOneMore undos.old.items (durable_of self.old) undos.new.items (durable_of self.new)) }
        ensures none { IfErr result (λ _. undos.new.items ≡ undos.old.items) }
        ensures capacity { vec_capacity undos.old ≤ vec_capacity undos.new }
    {
        let undo = self.enter(entry, inverse, back)?;
        push_within(undos, undo);
        Ok(())
    }

    /// Takes records back, the last first. There is room for each, so it takes no memory.
    pub fn take_all_back(&mut self, mut undos: Vec<Undo>)
        requires { RoomForAll self.old undos.items }
        ensures value { (before : Durable) → TakeBack undos.items before (durable_of self.old) → durable_of self.new ≡ before }
        ensures leases { live nat_cmp self.new.leases ≡ all_leases_before undos.items (live nat_cmp self.old.leases) }
        ensures keeps { KeepsRooms (all_rooms_before undos.items self.old) self.new }
    {
        while let Some(undo) = undos.pop() {
            self.take_back(undo);
        }
    }

    /// Takes records back, the last first, until so many are left. There is room for each, so it takes no memory.
    pub fn take_back_to(&mut self, undos: &mut Vec<Undo>, many: usize)
        requires { RoomForAll self.old undos.old.items }
        ensures left { undos.new.items ≡ take many undos.old.items }
        ensures value { (entries : List PlainEntry) (before : Durable) → Leads entries undos.old.items before (durable_of self.old)
            → Leads (take many entries) undos.new.items before (durable_of self.new) }
        ensures leases { all_leases_before undos.new.items (live nat_cmp self.new.leases) ≡ all_leases_before undos.old.items (live nat_cmp self.old.leases) }
        ensures room { RoomForAll self.new undos.new.items }
    {
        while many < undos.len() {
            if let Some(undo) = undos.pop() {
                self.take_back(undo);
            }
        }
    }

    /// Chunks that were forgotten give up the room of their leases, where nothing stands.
    fn release_each(&mut self, forgotten: &[ChunkBefore])
        ensures value { durable_of self.new ≡ durable_of self.old }
        ensures leases { live nat_cmp self.new.leases ≡ live nat_cmp self.old.leases }
        ensures names { self.new.names ≡ self.old.names }
        ensures room { ReleasesEach self.old.leases self.new.leases (chunks_in forgotten.now) }
    {
        for stood in forgotten {
            self.leases.release(stood.chunk);
        }
    }

    /// The records of an event stand, and are taken back no more. The chunks that they forgot give up the room of their
    /// leases.
    pub fn let_go(&mut self, undo: Undo)
        ensures value { durable_of self.new ≡ durable_of self.old }
        ensures leases { live nat_cmp self.new.leases ≡ live nat_cmp self.old.leases }
        ensures room { ReleasesEach self.old.leases self.new.leases (chunks_in (forgotten_in undo)) }
    {
        self.release_each(forgotten_in(&undo));
    }

    /// The same of the last record. Names that were kept as they stood before its edit follow it, and stand by for a later one;
    /// so do those that stood by before a move.
    fn let_last_go(&mut self, undo: Undo)
        requires { (before : Durable) × TakesBack undo before (durable_of self.old) }
        ensures value { durable_of self.new ≡ durable_of self.old }
        ensures leases { live nat_cmp self.new.leases ≡ live nat_cmp self.old.leases }
        ensures room { ReleasesEach self.old.leases self.new.leases (chunks_in (forgotten_in undo)) }
    {
        let before = match undo {
            Undo::Edit(before) => before,
            other => {
                drop(other);
                return;
            }
        };
        let EditBefore {
            names,
            forgotten,
            reply,
            ..
        } = before;
        drop(reply);
        self.release_each(&forgotten);
        drop(forgotten);
        self.names.follow(names);
    }

    /// All records of an event stand, which are those that lead to what stands now. They are taken back no more, and no
    /// place is kept. The chunks that they forgot have no room any more.
    pub fn let_all_stand(&mut self, undos: &mut Vec<Undo>)
        requires { (entries : List PlainEntry) × ((before : Durable) × Leads entries undos.old.items before (durable_of self.old)) }
        ensures none { undos.new.items ≡ [] }
        ensures value { durable_of self.new ≡ durable_of self.old }
        ensures leases { live nat_cmp self.new.leases ≡ live nat_cmp self.old.leases }
        ensures places { self.new.names.places ≡ [] }
        ensures room { ReleasesEach self.old.leases self.new.leases (all_forgotten undos.old.items) }
    {
        if let Some(undo) = undos.pop() {
            self.let_last_go(undo);
        }
        self.let_all_go(undos);
    }

    /// All records of an event stand, and are taken back no more. No place is kept then.
    pub fn let_all_go(&mut self, undos: &mut Vec<Undo>)
        ensures none { undos.new.items ≡ [] }
        ensures value { durable_of self.new ≡ durable_of self.old }
        ensures leases { live nat_cmp self.new.leases ≡ live nat_cmp self.old.leases }
        ensures places { self.new.names.places ≡ [] }
        ensures room { ReleasesEach self.old.leases self.new.leases (all_forgotten undos.old.items) }
    {
        while let Some(undo) = undos.pop() {
            self.let_go(undo);
        }
        self.names.give_up_places();
    }
}
