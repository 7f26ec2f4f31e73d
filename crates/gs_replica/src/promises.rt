//! What holds of each replica and its copies, whatever was done to them.

ghost use Rattle.std.specs.Prelude.{◌≡◌, ◌≤◌, ℕ, length, List, [], ◌++◌, ◌+◌, Ok, Some, None};
ghost use Rattle.std.specs.FinMap as fin;
ghost use Rattle.std.specs.Result.{result_err};
ghost use Rattle.gs_base.specs.declared.numbers.Stamp.{Stamp};
ghost use Rattle.gs_replica.specs.declared.op.Done.{Done};
ghost use Rattle.gs_replica.specs.declared.live.ReplicaInverse.{ReplicaInverse};
ghost use Rattle.gs_replica.specs.Edits.{fresh, copied};
ghost use Rattle.gs_replica.specs.Held.{Held};
ghost use Rattle.gs_replica.specs.Seals.{State, with_seal, seal, unseal, undo, damage, promise, lowest_damaged, roll_back};
ghost use Rattle.gs_replica.specs.Copies.{SealedImage, image, sealed_image, of_image, of_sealed, and_then, under};
ghost use Rattle.gs_replica.specs.Whole.{IsWhole};
ghost use Rattle.gs_replica.specs.Stands.{Edit, Listed, after, StandsFor, HoldsBlock, IsTaken, SealedAt, IsTouched, replica_of};
ghost use Rattle.gs_replica.specs.Promises.{CarriedSealsRollBack, EditsAreListed, PromisesLeaveTheList, IntactBlocksAreOfTheList, ReadsAreOfTheList, EditsLeaveBlocksHeld, PromisesLeaveBlocksHeld, DamageLeavesOtherBlocksHeld, ImagesHoldTheirBlocks, HeldBlocksAreIntact, UndamagedBlocksAreHeld, EditedBlocksAreOfTheText, BlocksOfTheTextAreEdited, UndamagedTakeWhatIsTaken, EditsLeaveUndamaged, CopiesStandForTheList, ImagesAreWhatTheListGives, ReplicasOfImagesStand, EditsLeaveTheSeal, RollbacksStandForTheSealed, RollbacksGiveTheSealed, SealedImagesCarryTheSealed, ReplicasOfSealedImagesStand, EditsLeaveRollbacks, RequestsStandOnce, RunsGoBack, RunsCarryTheSealed, SparingRunsGoBackExactly};

/// A replica that is made of a sealed image rolls back to what its source would have rolled back to. A source gives an image
/// exactly where it could roll back, and is refused as that would be. What is made gives the same image again.
pub fn carried_seals_roll_back()
    ensures same { CarriedSealsRollBack }
    ensures refused { (r : State) (start : Stamp) → result_err (sealed_image r) ≡ result_err (roll_back start r) }
    ensures again { (r : State) (i : SealedImage) → IsWhole r → sealed_image r ≡ Ok i → and_then (of_sealed r.held.chunk.block r.held.chunk.chunk i) sealed_image ≡ Ok i }
{}

/// A replica that is made of an image stands as its source: it has the same bytes, digests, count and requests. The image is
/// refused exactly where a copy would be.
pub fn images_stand_as_their_source()
    ensures { (r : State) (stamp : Stamp) → IsWhole r → and_then (image r) (of_image r.held.chunk.block r.held.chunk.chunk stamp) ≡ with_seal None (copied stamp r.held) }
{}

/// What a replica stands for, call by call: the list of the edits that it has taken. A call that digests bytes anew, or tells
/// what they are, has for a premise that digests tell the replica's blocks from those of the list, where they differ.
pub fn replicas_stand_for_their_edits()
    ensures new { (block chunk : ℕ) (stamp : Stamp) → 1 ≤ block → block ≤ 65536 → chunk ≤ 67108864 → StandsFor block chunk (fresh block chunk stamp) [] }
    ensures apply { EditsAreListed }
    ensures promise { PromisesLeaveTheList }
    ensures damage { (block chunk : ℕ) (r r2 : State) (edits : List Edit) (index : ℕ) → StandsFor block chunk r.held edits → damage index r ≡ Ok r2 → StandsFor block chunk r2.held edits }
    ensures intact { IntactBlocksAreOfTheList }
    ensures read { ReadsAreOfTheList }
{}

/// Block by block, whatever other blocks are damaged: a block that holds what the replica's list gives of it holds it still behind
/// each edit that the replica takes, and only damage of that very block changes this. Such a block has its digest, so it is read.
/// That needs no premise on digests.
pub fn blocks_hold_what_their_edits_give()
    ensures new { (block chunk k : ℕ) (stamp : Stamp) → HoldsBlock block chunk (fresh block chunk stamp) [] k }
    ensures apply { EditsLeaveBlocksHeld }
    ensures promise { PromisesLeaveBlocksHeld }
    ensures damage { DamageLeavesOtherBlocksHeld }
    ensures copy { (block chunk k : ℕ) (r h : Held) (edits : List Edit) (stamp : Stamp) → HoldsBlock block chunk r edits k → copied stamp r ≡ Ok h → HoldsBlock block chunk h edits k }
    ensures of_image { ImagesHoldTheirBlocks }
    ensures intact { HeldBlocksAreIntact }
    ensures told { UndamagedBlocksAreHeld }
{}

/// Each block of an edited replica is one of the replica before, or one of the text that the list gives with the edit. And each
/// block of that text is one of the edited replica, or one of the text before: so where all blocks that replicas have are among
/// some, those of texts that lists give are.
pub fn edits_bring_blocks_of_their_text()
    ensures held { EditedBlocksAreOfTheText }
    ensures listed { BlocksOfTheTextAreEdited }
{}

/// An undamaged replica takes the next edit of each list that is taken, under its promise and as the next number. Then it is
/// undamaged.
pub fn undamaged_replicas_take_what_is_taken()
    ensures takes { UndamagedTakeWhatIsTaken }
    ensures stays { EditsLeaveUndamaged }
{}

/// Copies of a replica stand for the same list, and have no damaged block. An image is what the list gives.
pub fn copies_stand_for_the_same_edits()
    ensures copy { CopiesStandForTheList }
    ensures image { ImagesAreWhatTheListGives }
    ensures of_image { ReplicasOfImagesStand }
{}

/// A replica that was sealed while it stood for a list of edits gives what that list gives, whatever was done to it since. A
/// rollback that is not refused leaves it without a damaged block; a sealed image that is not refused carries it.
pub fn seals_give_what_was_sealed()
    ensures seal { (block chunk : ℕ) (r : State) (edits : List Edit) → StandsFor block chunk r.held edits → SealedAt block chunk (seal r) edits }
    ensures apply { EditsLeaveTheSeal }
    ensures undo { (block chunk : ℕ) (r r2 : State) (edits : List Edit) (i : ReplicaInverse) → SealedAt block chunk r edits → undo i r ≡ Ok r2 → SealedAt block chunk r2 edits }
    ensures promise { (block chunk : ℕ) (r r2 : State) (edits : List Edit) (stamp : Stamp) → SealedAt block chunk r edits → promise stamp r ≡ Ok r2 → SealedAt block chunk r2 edits }
    ensures damage { (block chunk : ℕ) (r r2 : State) (edits : List Edit) (index : ℕ) → SealedAt block chunk r edits → damage index r ≡ Ok r2 → SealedAt block chunk r2 edits }
    ensures roll_back { RollbacksStandForTheSealed }
    ensures rolled_back { RollbacksGiveTheSealed }
    ensures sealed_image { SealedImagesCarryTheSealed }
    ensures of_sealed { ReplicasOfSealedImagesStand }
{}

/// What a rollback gives stays what it was at the seal, through every call: edits, edits that are undone, promises, and damage
/// of blocks that were touched. It is refused no more than it was.
pub fn rollbacks_stay()
    ensures seal { (r : State) (start : Stamp) → lowest_damaged r.held.chunk ≡ None → roll_back start (seal r) ≡ under start (Ok (unseal r)) }
    ensures apply { EditsLeaveRollbacks }
    ensures undo { (r r2 : State) (start : Stamp) (i : ReplicaInverse) → undo i r ≡ Ok r2 → roll_back start r2 ≡ roll_back start r }
    ensures promise { (r r2 : State) (start stamp : Stamp) → promise stamp r ≡ Ok r2 → roll_back start r2 ≡ roll_back start r }
    ensures damage { (r r2 : State) (start : Stamp) (index : ℕ) → IsTouched r.sealed index → damage index r ≡ Ok r2 → roll_back start r2 ≡ roll_back start r }
{}

/// What a list of edits gives: as many edits as it has, and what its beginning gives with the edits behind that. The beginning
/// of a list that is taken is taken, and each request stands in it once: where it ends, none would be taken again.
pub fn lists_are_taken_once()
    ensures count { (chunk : ℕ) (edits : List Edit) → (replica_of chunk edits).count ≡ length edits }
    ensures more { (chunk : ℕ) (edits more : List Edit) → replica_of chunk (edits ++ more) ≡ after chunk (replica_of chunk edits) more }
    ensures beginning { (chunk : ℕ) (edits more : List Edit) → IsTaken chunk (edits ++ more) → IsTaken chunk edits }
    ensures once { RequestsStandOnce }
    ensures listed { (chunk : ℕ) (edits : List Edit) (client : ℕ) (d : Done) → fin.get (replica_of chunk edits).done client ≡ Some d → Listed chunk edits client d }
{}

/// Over a whole run of calls. A replica that was sealed while it stood for a list rolls back, where it is not refused, to an
/// undamaged one that stands for that list and holds exactly what it gives. Where it was undamaged and no block was damaged but
/// touched ones, it is not refused.
pub fn sealed_replicas_go_back()
    ensures stands { RunsGoBack }
    ensures carries { RunsCarryTheSealed }
    ensures same { SparingRunsGoBackExactly }
{}
