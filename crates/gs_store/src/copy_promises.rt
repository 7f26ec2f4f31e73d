//! What holds of copies, whatever slot they come from.

ghost use Rattle.std.specs.Prelude.{◌≡◌, ℕ, true, false, Option, None, Ok};
ghost use Rattle.gs_base.specs.declared.numbers.Stamp.{Stamp};
ghost use Rattle.gs_replica.specs.Copies.{Image, SealedImage};
ghost use Rattle.gs_store.specs.Slots.{Slot, sealed_of};
ghost use Rattle.gs_store.specs.Moves.{sound_image, copy_out, copy_in};
ghost use Rattle.gs_store.specs.CopyPromises.{ImagesAreOfTheSource, SealedImagesAreOfTheSource, CopiesStandWhereTheyArrive, CopiesArePromised, CarriedImagesArrive, CarriedImagesStandWhereTheyArrive, OldCopiesChangeNothing, CopiesForAnotherHandleStand, CopiesForAnotherHandleAreTaken};

/// What a copy carries stands for what its source stands for: an image is what the source's list of edits gives, and a sealed
/// image what the list gives that stood when it was sealed. The sealed image goes along where it is asked for and each block of
/// it has its digest. Digests are to tell blocks apart where they differ.
pub fn copies_carry_what_their_source_stands_for()
    ensures image { ImagesAreOfTheSource }
    ensures sealed { SealedImagesAreOfTheSource }
    ensures asked { (stamp : Stamp) (i : Image) (o : Option SealedImage) (s : Slot) → copy_out stamp true s ≡ Ok (i, o) → o ≡ sound_image (sealed_of s) }
    ensures unasked { (stamp : Stamp) (i : Image) (o : Option SealedImage) (s : Slot) → copy_out stamp false s ≡ Ok (i, o) → o ≡ None }
{}

/// What a slot is made of a copy: its live replica stands, without a damaged block, for what the image stood for, under the copy's
/// stamp. Its sealed image is the carried one, or its own where none was carried. A stamp that is promised already changes
/// nothing.
pub fn copies_stand_where_they_arrive()
    ensures live { CopiesStandWhereTheyArrive }
    ensures promise { CopiesArePromised }
    ensures carried { CarriedImagesArrive }
    ensures stood { CarriedImagesStandWhereTheyArrive }
    ensures own { (block chunk : ℕ) (stamp : Stamp) (i : Image) (s s2 : Slot) → copy_in block chunk stamp i None s ≡ Ok s2 → sealed_of s2 ≡ sealed_of s }
    ensures again { OldCopiesChangeNothing }
{}

/// A copy for another handle stands, without a damaged block, for what its source stands for, under its own stamp, which is above
/// the promise of its target. The slot that takes it stands for the same.
pub fn copies_for_another_handle_stand_for_the_same()
    ensures made { CopiesForAnotherHandleStand }
    ensures taken { CopiesForAnotherHandleAreTaken }
{}
