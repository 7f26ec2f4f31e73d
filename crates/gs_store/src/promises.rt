//! What holds of each slot, whatever is called.

ghost use Rattle.std.specs.Prelude.{◌≡◌, ℕ, true, false, List, Some, None, Ok};
ghost use Rattle.std.specs.Result.{result_ok};
ghost use Rattle.gs_base.specs.declared.numbers.Stamp.{Stamp};
ghost use Rattle.gs_base.specs.Stamps.{is_before, is_same};
ghost use Rattle.gs_replica.specs.Held.{Held};
ghost use Rattle.gs_replica.specs.Seals.{State};
ghost use Rattle.gs_store.specs.Slots.{Slot, nothing, create, advance, drop_replica, take_lease, lose, mark_bad};
ghost use Rattle.gs_store.specs.Serving.{read};
ghost use Rattle.gs_store.specs.Moves.{take_copy};
ghost use Rattle.gs_store.specs.Learning.{prepared, finalized, rolled_back};
ghost use Rattle.gs_store.specs.Calls.{Call, called, LeadsTo, IsNoLease, Fits};
ghost use Rattle.gs_store.specs.Whole.{IsSlotOf};
ghost use Rattle.gs_store.specs.Promises.{LeasesAreTakenOnce, BadReplicasGiveNoImage, BadReplicasGiveNoCopy};

/// A promise never falls, also at a rollback.
pub fn promises_never_fall()
    ensures create { (block chunk : ℕ) (stamp : Stamp) (s s2 : Slot) → create block chunk stamp s ≡ Ok s2 → is_before s2.promise s.promise ≡ false }
    ensures advance { (stamp : Stamp) (s s2 : Slot) → advance stamp s ≡ Ok s2 → is_before s2.promise s.promise ≡ false }
    ensures take_copy { (h : Held) (s s2 : Slot) → take_copy h s ≡ Ok s2 → is_before s2.promise s.promise ≡ false }
    ensures drop_replica { (promise : Stamp) (s s2 : Slot) → drop_replica promise s ≡ Ok s2 → s2.promise ≡ s.promise }
    ensures lose { (s s2 : Slot) → lose s ≡ Ok s2 → s2.promise ≡ s.promise }
    ensures take_lease { (stamp : Stamp) (s s2 : Slot) → take_lease stamp s ≡ Ok s2 → s2.promise ≡ s.promise }
    ensures mark_bad { (block : ℕ) (s : Slot) → (mark_bad block s).promise ≡ s.promise }
    ensures prepared { (s : Slot) → (prepared s).promise ≡ s.promise }
    ensures finalized { (s : Slot) → (finalized s).promise ≡ s.promise }
    ensures rolled_back { (epoch : ℕ) (s : Slot) → is_before (rolled_back epoch s).promise s.promise ≡ false }
    ensures run { (block chunk : ℕ) (s end : Slot) (calls : List Call) → LeadsTo block chunk s calls end → is_before end.promise s.promise ≡ false }
{}

/// What every slot in memory keeps stays through each call whose arguments fit the store, and a slot of which nothing was heard
/// keeps it: the live replica stands under the promise; what is in the trash is sealed, and stands beside no live replica that is;
/// the promise is never below the lease taken last, nor below the stamp of the seal; and all replicas are of the store's sizes.
pub fn slots_stay_whole()
    ensures new { (block chunk : ℕ) → IsSlotOf block chunk nothing }
    ensures call { (block chunk : ℕ) (c : Call) (s s2 : Slot) → Fits block chunk c → IsSlotOf block chunk s → called block chunk c s ≡ Ok s2 → IsSlotOf block chunk s2 }
{}

/// A lease is taken of the promised stamp, and once for good: whatever calls come between, it is not taken again. No other call
/// changes which lease was taken last.
pub fn leases_are_taken_once()
    ensures taken { (stamp : Stamp) (s s2 : Slot) → take_lease stamp s ≡ Ok s2 → (is_same stamp s.promise ≡ true) × (s2.taken ≡ Some stamp) × (s2.live ≡ s.live) }
    ensures once { LeasesAreTakenOnce }
    ensures others { (block chunk : ℕ) (c : Call) (s s2 : Slot) → IsNoLease c → called block chunk c s ≡ Ok s2 → s2.taken ≡ s.taken }
{}

/// A bad replica gives no bytes and no copies.
pub fn bad_replicas_give_nothing()
    ensures read { (stamp : Stamp) (offset many block : ℕ) (s : Slot) (r : State) → s.live ≡ Some (record { replica = r; bad = Some block }) → result_ok (read stamp offset many s) ≡ None }
    ensures copy_out { BadReplicasGiveNoImage }
    ensures copy_for { BadReplicasGiveNoCopy }
{}
