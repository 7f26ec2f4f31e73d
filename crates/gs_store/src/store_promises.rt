//! What holds of a store, whatever is called.

ghost use Rattle.std.specs.Prelude.{◌≡◌, ◌≤◌, ℕ, ◌==◌, true, false, List, Contains, length, Some, Ok, is_some};
ghost use Rattle.gs_base.specs.declared.numbers.ReqId.{ReqId};
ghost use Rattle.gs_base.specs.declared.epoch.EpochEnd.{EpochEnd};
ghost use Rattle.gs_base.specs.declared.refusal.Refusal.{Refusal};
ghost use Rattle.gs_base.specs.Stamps.{is_before};
ghost use Rattle.std.specs.Prelude.{Result};
ghost use Rattle.gs_replica.specs.Stands.{Edit};
ghost use Rattle.gs_store.specs.Slots.{Slot, nothing};
ghost use Rattle.gs_store.specs.Whole.{IsWholeSlot};
ghost use Rattle.gs_store.specs.Learning.{is_named, is_sound};
ghost use Rattle.gs_store.specs.Standing.{StandsIn, LiveUndamaged};
ghost use Rattle.gs_store.specs.StoreCalls.{StoreCall, called, LeadsTo, names};
ghost use Rattle.gs_store.specs.Told.{found_in, told};
ghost use Rattle.gs_store.specs.Buffers as buffers;
ghost use Rattle.gs_store.specs.Stores.{Store, slot_of, at_slot, learn, gone_on, mark_bad, named};
ghost use Rattle.gs_store.specs.StorePromises.{CallsLeaveOtherSlots, PushedEditsLeaveTheRest, EachSlotGoesOn, RollbacksMakeTheSoundLive, RollbacksNameTheLive, RollbacksStandForTheSealed};

/// A call of one handle leaves every other one's slot, the epoch and what was pushed; one that uses pushed bytes takes these out.
pub fn calls_change_their_own_slot()
    ensures others { CallsLeaveOtherSlots }
    ensures own { (handle : ℕ) (call : Slot → Result Slot Refusal) (s s2 : Store) → at_slot handle call s ≡ Ok s2 → call (slot_of handle s) ≡ Ok (slot_of handle s2) }
    ensures epoch { (handle : ℕ) (call : Slot → Result Slot Refusal) (s s2 : Store) → at_slot handle call s ≡ Ok s2 → s2.epoch ≡ s.epoch }
    ensures buffer { (handle : ℕ) (call : Slot → Result Slot Refusal) (s s2 : Store) → at_slot handle call s ≡ Ok s2 → s2.buffer ≡ s.buffer }
    ensures mark { (handle other block : ℕ) (s : Store) → (other == handle) ≡ false → slot_of other (mark_bad handle block s) ≡ slot_of other s }
    ensures pushed { PushedEditsLeaveTheRest }
    ensures rest { (handle block : ℕ) (s : Store) → ((mark_bad handle block s).epoch ≡ s.epoch) × ((mark_bad handle block s).buffer ≡ s.buffer) }
{}

/// What is told of the next epoch takes each handle's slot on, also one of which nothing was heard, and is the epoch then; nothing
/// else changes.
pub fn each_slot_goes_on()
    ensures same { (epoch : ℕ) (end : EpochEnd) (s s2 : Store) → epoch ≡ s.epoch → learn epoch end s ≡ Ok s2 → s2 ≡ s }
    ensures next { EachSlotGoesOn }
    ensures epoch { (epoch : ℕ) (end : EpochEnd) (s s2 : Store) → learn epoch end s ≡ Ok s2 → s2.epoch ≡ epoch }
    ensures sizes { (epoch : ℕ) (end : EpochEnd) (s s2 : Store) → learn epoch end s ≡ Ok s2 → (s2.block ≡ s.block) × (s2.chunk ≡ s.chunk) }
    ensures empty { (epoch : ℕ) (end : EpochEnd) → gone_on end epoch nothing ≡ nothing }
    ensures buffer { (epoch : ℕ) (end : EpochEnd) (s s2 : Store) → learn epoch end s ≡ Ok s2 → s2.buffer ≡ s.buffer }
{}

/// No promise of a handle falls when an epoch is learned.
pub fn promises_stay_through_epochs()
    ensures { (epoch : ℕ) (end : EpochEnd) (s s2 : Store) (handle : ℕ) → learn epoch end s ≡ Ok s2 → is_before (slot_of handle s2).promise (slot_of handle s).promise ≡ false }
{}

/// No promise of a handle falls, whatever calls come: also where other handles, an epoch, a loss, damage or a restart do.
pub fn promises_never_fall_in_a_store()
    ensures call { (call : StoreCall) (s s2 : Store) (handle : ℕ) → called call s ≡ Ok s2 → is_before (slot_of handle s2).promise (slot_of handle s).promise ≡ false }
    ensures run { (calls : List StoreCall) (s end : Store) (handle : ℕ) → LeadsTo s calls end → is_before (slot_of handle end).promise (slot_of handle s).promise ≡ false }
{}

/// After a rollback a replica is live exactly where one was sealed and each block of it has its sealed digest, and exactly these
/// are named, but for a handle whose promise was above the epoch's first stamp. What is live stands for what was sealed, without
/// a damaged block.
pub fn rollbacks_name_what_is_live()
    ensures live { RollbacksMakeTheSoundLive }
    ensures named { RollbacksNameTheLive }
    ensures sealed { RollbacksStandForTheSealed }
{}

/// A report tells of a handle what its slot has: its live replica, if there is one, and else nothing.
pub fn reports_tell_what_is_live()
    ensures { (handle : ℕ) (s : Store) → found_in handle s ≡ told handle (slot_of handle s) }
{}

/// The buffer holds 64 requests at most, and what was pushed last.
pub fn the_buffer_is_bounded()
    ensures few { (req : ReqId) (bytes : List ℕ) (buffer : buffers.Pushes) → length (buffers.push req bytes buffer) ≤ 64 }
    ensures last { (req : ReqId) (bytes : List ℕ) (buffer : buffers.Pushes) → buffers.pushed req (buffers.push req bytes buffer) ≡ Some bytes }
{}

/// The handles that are named of a rollback are exactly those whose slot is named. A live replica of which no block is damaged is
/// sound, so its slot is named of the epoch under whose first stamp it is.
pub fn undamaged_replicas_are_named()
    ensures names { (epoch handle : ℕ) (s : Store) → names handle epoch s ≡ is_named epoch (slot_of handle s) }
    ensures named { (epoch handle : ℕ) (s : Store) → is_named epoch (slot_of handle s) ≡ true → Contains (named epoch s) handle }
    ensures sound { (block chunk : ℕ) (s : Slot) (edits : List Edit) → StandsIn block chunk s edits → LiveUndamaged s.live → is_sound s.live ≡ true }
    ensures whole { (s : Slot) → is_some s.live ≡ true → IsWholeSlot s → LiveUndamaged s.live → is_sound s.live ≡ true }
{}
