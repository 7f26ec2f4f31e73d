//! What holds of a slot's live replica, whatever edits and damage came.

ghost use Rattle.std.specs.Prelude.{◌≡◌, ℕ, List, [], length, true, Ok, Some};
ghost use Rattle.std.specs.FinMap as fin;
ghost use Rattle.gs_base.specs.declared.numbers.Stamp.{Stamp};
ghost use Rattle.gs_base.specs.Stamps.{is_before};
ghost use Rattle.gs_replica.specs.Stands.{Edit, replica_of};
ghost use Rattle.gs_store.specs.Slots.{Slot, create, advance, take_lease, damage, mark_bad, count_of};
ghost use Rattle.gs_store.specs.Whole.{IsWholeSlot};
ghost use Rattle.gs_store.specs.Serving.{done_in};
ghost use Rattle.gs_store.specs.Standing.{StandsIn, HoldsIn, LeavesOthers};
ghost use Rattle.gs_store.specs.EditPromises.{CreatedSlotsStandForNone, EditsAreListed, ReadsAreOfTheList, IntactBlocksAreOfTheList, LengthsAreOfTheList, DigestsAreOfTheList, EditsLeaveBlocksHeld, DamageLeavesOtherBlocksHeld, HeldBlocksAreIntact, UndamagedBlocksAreHeld, EditsAreNext, EditsAreRefusedAsJudged, EditsAreTakenAsJudged};

/// Which list of edits a live replica stands for, call by call. An edit has for a premise that digests tell the replica's blocks
/// from those of the list, where they differ.
pub fn slots_stand_for_their_edits()
    ensures create { CreatedSlotsStandForNone }
    ensures apply { EditsAreListed }
    ensures advance { (block chunk : ℕ) (stamp : Stamp) (s s2 : Slot) (edits : List Edit) → StandsIn block chunk s edits → advance stamp s ≡ Ok s2 → StandsIn block chunk s2 edits }
    ensures take_lease { (stamp : Stamp) (s s2 : Slot) → take_lease stamp s ≡ Ok s2 → s2.live ≡ s.live }
    ensures damage { (block chunk index : ℕ) (s s2 : Slot) (edits : List Edit) → StandsIn block chunk s edits → damage index s ≡ Ok s2 → StandsIn block chunk s2 edits }
    ensures mark_bad { (block chunk index : ℕ) (s : Slot) (edits : List Edit) → StandsIn block chunk s edits → StandsIn block chunk (mark_bad index s) edits }
{}

/// What a live replica gives is what its list of edits gives, also where blocks are damaged: each block that has its digest holds
/// the list's bytes, so do the bytes that are read, and lengths, digests, requests and counts are the list's.
pub fn slots_give_what_their_edits_give()
    ensures read { ReadsAreOfTheList }
    ensures intact { IntactBlocksAreOfTheList }
    ensures length { LengthsAreOfTheList }
    ensures digest { DigestsAreOfTheList }
    ensures done { (block chunk client : ℕ) (s : Slot) (edits : List Edit) → StandsIn block chunk s edits → done_in s.live client ≡ fin.get (replica_of chunk edits).done client }
    ensures count { (block chunk : ℕ) (s : Slot) (edits : List Edit) → StandsIn block chunk s edits → count_of s.live ≡ Some (length edits) }
{}

/// Block by block, whatever other blocks of a live replica are damaged: a block that holds what the list of edits gives of it holds
/// it behind each call that keeps the replica, but for damage of that very block. It has its digest then. Each block of an
/// undamaged replica is such a block, where digests tell the replica's blocks from those of the list.
pub fn blocks_of_slots_hold_what_their_edits_give()
    ensures create { (block chunk k : ℕ) (stamp : Stamp) (s s2 : Slot) → is_before s.promise stamp ≡ true → create block chunk stamp s ≡ Ok s2 → HoldsIn block chunk s2 [] k }
    ensures apply { EditsLeaveBlocksHeld }
    ensures advance { (block chunk k : ℕ) (stamp : Stamp) (s s2 : Slot) (edits : List Edit) → HoldsIn block chunk s edits k → advance stamp s ≡ Ok s2 → HoldsIn block chunk s2 edits k }
    ensures damage { DamageLeavesOtherBlocksHeld }
    ensures mark_bad { (block chunk k index : ℕ) (s : Slot) (edits : List Edit) → HoldsIn block chunk s edits k → HoldsIn block chunk (mark_bad index s) edits k }
    ensures intact { HeldBlocksAreIntact }
    ensures undamaged { UndamagedBlocksAreHeld }
{}

/// Damage of a block leaves every other block of what it strikes, all digests, and how many bytes there are.
pub fn damage_leaves_the_other_blocks()
    ensures { (index : ℕ) (s s2 : Slot) → IsWholeSlot s → damage index s ≡ Ok s2 → LeavesOthers index s s2 }
{}

/// An edit is taken only under the promise, as the next number, and of a request above its client's last, which it then is: so
/// a request is applied once.
pub fn edits_are_taken_once()
    ensures { EditsAreNext }
{}

/// An edit that comes under the promise, as the next number and of a new request is refused exactly as it is judged by the chunk
/// alone. So one that is judged beforehand is refused afterwards for want of memory alone.
pub fn edits_are_refused_as_they_are_judged()
    ensures refused { EditsAreRefusedAsJudged }
    ensures taken { EditsAreTakenAsJudged }
{}
