//! What holds of the sealed image of a handle, wherever it stands.

ghost use Rattle.std.specs.Prelude.{◌≡◌, ◌&&◌, ℕ, not, List, Some, None, Ok, is_some};
ghost use Rattle.gs_base.specs.declared.numbers.Stamp.{Stamp};
ghost use Rattle.gs_base.specs.Stamps.{is_before};
ghost use Rattle.gs_replica.specs.Held.{Held};
ghost use Rattle.gs_replica.specs.Seals as replicas;
ghost use Rattle.gs_replica.specs.Stands.{Edit, IsTouched};
ghost use Rattle.gs_store.specs.Slots.{Live, Slot, create, advance, drop_replica, take_lease, damage, mark_bad, bad_in, sealed_of};
ghost use Rattle.gs_store.specs.Whole.{IsWholeSlot};
ghost use Rattle.gs_store.specs.Moves.{take_copy, sound_image};
ghost use Rattle.gs_store.specs.Learning.{prepared, finalized, rolled_back, is_named, start_of};
ghost use Rattle.gs_store.specs.Calls.{Call, LeadsSparing, KeepSeal};
ghost use Rattle.gs_store.specs.Standing.{StandsIn, StoodIn, struck_by_damage};
ghost use Rattle.gs_store.specs.SealPromises.{EditsLeaveWhatIsCarried, EditsLeaveWhatStood, DamageReachesTheSealed, PreparedSlotsRollBack, RollbacksStandForTheSealed, RunsLeaveWhatStood, PreparedRunsGoBack, SparedRunsGoBack};

/// What is sealed of a handle stays the same image, wherever it stands: beneath replicas that are made, copied or dropped, under
/// promises, and beside marks. An edit leaves what a copy carries of it.
pub fn sealed_images_stay()
    ensures create { (block chunk : ℕ) (stamp : Stamp) (s s2 : Slot) → create block chunk stamp s ≡ Ok s2 → sealed_of s2 ≡ sealed_of s }
    ensures advance { (stamp : Stamp) (s s2 : Slot) → advance stamp s ≡ Ok s2 → sealed_of s2 ≡ sealed_of s }
    ensures take_copy { (h : Held) (s s2 : Slot) → take_copy h s ≡ Ok s2 → sealed_of s2 ≡ sealed_of s }
    ensures drop_replica { (promise : Stamp) (s s2 : Slot) → drop_replica promise s ≡ Ok s2 → sealed_of s2 ≡ sealed_of s }
    ensures take_lease { (stamp : Stamp) (s s2 : Slot) → take_lease stamp s ≡ Ok s2 → sealed_of s2 ≡ sealed_of s }
    ensures mark_bad { (block : ℕ) (s : Slot) → sealed_of (mark_bad block s) ≡ sealed_of s }
    ensures apply { EditsLeaveWhatIsCarried }
{}

/// What the sealed image stood for when it was sealed, it stands for through edits and damage. Damage of a block that an edit has
/// touched since leaves what a rollback gives; damage of another one reaches it.
pub fn sealed_images_stand_for_what_was_sealed()
    ensures apply { EditsLeaveWhatStood }
    ensures damage { (block chunk index : ℕ) (s s2 : Slot) (edits : List Edit) → StoodIn block chunk s edits → damage index s ≡ Ok s2 → StoodIn block chunk s2 edits }
    ensures touched { (index : ℕ) (s s2 : Slot) → IsTouched (struck_by_damage s) index → damage index s ≡ Ok s2 → sound_image (sealed_of s2) ≡ sound_image (sealed_of s) }
    ensures reached { DamageReachesTheSealed }
{}

/// At a prepare what is live is sealed as it stands, and nothing else is. Where no block of it is damaged, a rollback leads back
/// to it.
pub fn prepares_seal_what_is_live()
    ensures sealed { (s : Slot) (l : Live) → s.live ≡ Some l → sealed_of (prepared s) ≡ Some (replicas.sealed_of l.replica.held) }
    ensures nothing { (s : Slot) → s.live ≡ None → sealed_of (prepared s) ≡ None }
    ensures stood { (block chunk : ℕ) (s : Slot) (edits : List Edit) → StandsIn block chunk s edits → StandsIn block chunk (prepared s) edits × StoodIn block chunk (prepared s) edits }
    ensures back { PreparedSlotsRollBack }
{}

/// At a finalize what was sealed is forgotten, and what is live stays.
pub fn finalizes_forget_what_was_sealed()
    ensures sealed { (s : Slot) → sealed_of (finalized s) ≡ None }
    ensures live { (block chunk : ℕ) (s : Slot) (edits : List Edit) → StandsIn block chunk s edits → StandsIn block chunk (finalized s) edits }
    ensures bad { (s : Slot) → bad_in (finalized s).live ≡ bad_in s.live }
{}

/// What a rollback makes live stands for what was sealed, without a damaged block and without a mark, under the later of the
/// promise and the epoch's first stamp. It makes it live exactly where each block has its sealed digest; everything else goes.
/// A server names it where the promise isn't above that stamp.
pub fn rollbacks_give_what_was_sealed()
    ensures stands { RollbacksStandForTheSealed }
    ensures live { (epoch : ℕ) (s : Slot) → is_some (rolled_back epoch s).live ≡ is_some (sound_image (sealed_of s)) }
    ensures gone { (epoch : ℕ) (s : Slot) → (sealed_of (rolled_back epoch s) ≡ None) × ((rolled_back epoch s).trash ≡ None) × (bad_in (rolled_back epoch s).live ≡ None) }
    ensures named { (epoch : ℕ) (s : Slot) → IsWholeSlot s → is_named epoch (rolled_back epoch s) ≡ (is_some (sound_image (sealed_of s)) && not (is_before (start_of epoch) s.promise)) }
{}

/// Over a whole run of calls: what the sealed image stood for it stands for at the end, so a slot that was prepared while its
/// live replica stood for a list rolls back, where it does, to an undamaged replica of that list.
pub fn prepared_slots_go_back()
    ensures stood { RunsLeaveWhatStood }
    ensures back { PreparedRunsGoBack }
{}

/// Over a whole run of calls that leave the seal and damage touched blocks alone, what a copy carries of the sealed image stays. So a slot that was
/// prepared while its live replica had no damaged block does roll back to a live one.
pub fn spared_slots_go_back()
    ensures stays { (block chunk : ℕ) (s end : Slot) (calls : List Call) → KeepSeal calls → LeadsSparing block chunk s calls end → sound_image (sealed_of end) ≡ sound_image (sealed_of s) }
    ensures live { SparedRunsGoBack }
{}
