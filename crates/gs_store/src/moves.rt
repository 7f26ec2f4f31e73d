ghost use Rattle.std.specs.Prelude.{◌≡◌, ◌⊎◌, true, Ok, Err, None, IfOk, IfErr};
ghost use Rattle.gs_base.specs.Stamps.{is_before};
ghost use Rattle.gs_base.specs.declared.refusal.Refusal.TheVariants.{Memory};
ghost use Rattle.gs_base.specs.Calls.{Answers, Does, FollowsOf, Foretells, Gives, Makes, MakesOf};
ghost use Rattle.gs_store.specs.Slots.{sealed_of};
ghost use Rattle.gs_store.specs.Whole.{TrashSealed};
ghost use Rattle.gs_store.specs.Moves.{source, copy_out, sound_image, carried_in, replicas_of, copy_in, copy_for, take_copy, make_copy, Prepares};

use crate::slot::Slot;
use gs_base::{Refusal, Refused, Stamp};
use gs_block::Sizes;
use gs_replica::{Image, Replica, SealedImage};
use gs_store_seal::trash_with;
use std::alloc::Global;
use std::marker::Model;

/// What a copy carries of a handle: its live replica, and perhaps its sealed image.
#[derive(Debug, Drop)]
pub struct CopyImages {
    pub image: Image,
    pub sealed: Option<SealedImage>,
}

/// A copy of a live replica for another handle, made beforehand. It is seen as the replica without a seal that it becomes.
#[derive(Drop)]
pub(crate) struct PreparedCopy {
    replica: Replica,
}

impl Model for PreparedCopy {
    ghost use Rattle.std.specs.Prelude.{◌≡◌, None};
    ghost use Rattle.gs_replica.specs.Held.{Held, coded_held};

    ghost Value = { Held };

    ghost coded = { coded_held };

    ghost view = { λ p. p.replica.held };

    ghost invariant = { λ p. p.replica.sealed ≡ None };
}

impl Slot {
    /// What a copy carries of the sealed image, wherever that stands. None where nothing is sealed, or a block that undoing
    /// gives has not its sealed digest.
    fn sound_image(&self) -> Result<Option<SealedImage>, Refusal>
        ensures { Makes (Ok (sound_image (sealed_of self.now))) result }
    {
        let Some(replica) = self.sealed() else {
            return Ok(None);
        };
        match replica.sealed_image() {
            Ok(image) => Ok(Some(image)),
            Err(Refusal::Memory) => Err(Refusal::Memory),
            Err(_) => Ok(None),
        }
    }

    /// What is copied of the slot.
    fn source(&self, at: Stamp) -> Result<&Replica, Refusal>
        ensures { Answers (λ replica. replica.now) (source at self.now) result }
    {
        if at != self.promise {
            return Err(Refusal::Stamp(self.promise));
        }
        let Some(live) = &self.live else {
            return Err(Refusal::NoReplica);
        };
        if let Some(block) = live.bad {
            return Err(Refusal::Damaged(block));
        }
        Ok(&live.replica)
    }

    /// What a copy carries of the live replica and, where it is asked for, of the sealed image. `Stamp` with the promise where
    /// another is named, `NoReplica` where none is live, and `Damaged` where it is bad or a block fails. All this is answered
    /// whatever memory there is.
    pub fn copy_out(&self, stamp: Stamp, with_sealed: bool) -> Result<CopyImages, Refusal>
        ensures { Gives (λ copy. (copy.image, copy.sealed)) (copy_out stamp with_sealed self.now) result }
    {
        let image = self.source(stamp)?.image()?;
        let sealed = if with_sealed {
            self.sound_image()?
        } else {
            None
        };
        Ok(CopyImages { image, sealed })
    }

    /// Makes what a copy carries live under a stamp above the promise, in place of the replica that was live. A sealed image
    /// that it carries takes the place of the slot's own. A stamp that is promised already is answered again where a replica is
    /// live; else it is `Old`. `Range` and `BadLine` where an image does not fit. All this is answered whatever memory there is.
    /// A refused call hands back what it was given, also where it has no memory.
    pub fn copy_in(
        &mut self,
        alloc: Global,
        sizes: Sizes,
        stamp: Stamp,
        given: CopyImages,
    ) -> Result<(), Refused<CopyImages>>
        ensures edit { FollowsOf given (copy_in sizes.block sizes.chunk stamp given.image given.sealed self.old) result self.old self.new }
        ensures lacking { IfErr result (λ r. r.refusal ≡ Memory → is_before self.old.promise stamp ≡ true) }
    {
        if let Err(refusal) = self.judge_copy(sizes, stamp, &given) {
            return Err(Refused { refusal, given });
        }
        if !self.promise.is_before(stamp) {
            return Ok(());
        }
        let carried = given.sealed.is_some();
        let (replica, trash) = replicas_of(alloc, sizes, stamp, given.image, given.sealed)?;
        self.replace(stamp, carried, replica);
        self.trash = trash_with(trash, self.trash.take());
        Ok(())
    }

    /// Judges what a copy carries, as `copy_in` does.
    pub(crate) fn judge_copy(
        &self,
        sizes: Sizes,
        stamp: Stamp,
        given: &CopyImages,
    ) -> Result<(), Refusal>
        ensures { Foretells (copy_in sizes.block sizes.chunk stamp given.now.image given.now.sealed self.now) result }
    {
        if !self.promise.is_before(stamp) {
            return self.find_again(stamp);
        }
        given.image.judge(sizes)?;
        match &given.sealed {
            Some(sealed) => sealed.judge(sizes),
            None => Ok(()),
        }
    }

    /// A copy of the live replica for the slot of a handle, which takes it there by `take_copy`. None where that slot has
    /// promised the stamp already and a replica is live there. This slot is judged first: `Stamp` with the promise where another
    /// is named, `NoReplica` where none is live, and `Damaged` where it is bad or a block fails; then the target: `Old` where
    /// its promise is not below the stamp. All this is answered whatever memory there is, and no copy is made in vain.
    pub(crate) fn copy_for(
        &self,
        at: Stamp,
        stamp: Stamp,
        target: &Slot,
    ) -> Result<Option<PreparedCopy>, Refusal>
        ensures made { Makes (copy_for at stamp self.now target.now) result }
        ensures prepares { Prepares (make_copy at stamp self.now target.now) target.now result }
        ensures lacking { IfErr result (λ e. e ≡ Memory → is_before target.now.promise stamp ≡ true) }
    {
        let replica = self.source(at)?;
        if target.promise.is_before(stamp) {
            return Ok(Some(PreparedCopy {
                replica: replica.copy(stamp)?,
            }));
        }
        if let Err(refusal) = replica.verify() {
            return Err(refusal);
        }
        if let Err(refusal) = target.find_again(stamp) {
            return Err(refusal);
        }
        Ok(None)
    }

    /// Makes a copy live under its stamp, which is above the promise, in place of the replica that was live, as `copy_in` does.
    /// It takes no memory.
    pub(crate) fn take_copy(&mut self, copy: PreparedCopy) -> Result<(), Refusal>
        ensures { Does (take_copy copy self.old) result self.old self.new }
    {
        let PreparedCopy { replica } = copy;
        let stamp = replica.promised();
        if !self.promise.is_before(stamp) {
            return self.find_again(stamp);
        }
        self.replace(stamp, false, replica);
        Ok(())
    }
}

/// The replicas that images become: one that is live under a stamp, and one for the trash.
fn replicas_of(
    alloc: Global,
    sizes: Sizes,
    stamp: Stamp,
    image: Image,
    sealed: Option<SealedImage>,
) -> Result<(Replica, Option<Replica>), Refused<CopyImages>>
    ensures made { IfOk result (λ made. replicas_of sizes.block sizes.chunk stamp image sealed ≡ Ok made) }
    ensures refused { IfErr result (λ refused. (refused.refusal ≡ Memory) ⊎ (replicas_of sizes.block sizes.chunk stamp image sealed ≡ Err refused.refusal)) }
    ensures given { IfErr result (λ refused. refused.given ≡ record { image = image; sealed = sealed }) }
    ensures promise { IfOk result (λ made. made.0.held.promise ≡ stamp) }
    ensures unsealed { IfOk result (λ made. made.0.sealed ≡ None) }
    ensures trash { IfOk result (λ made. TrashSealed made.1) }
{
    let replica = match Replica::of(alloc, sizes, stamp, image) {
        Ok(replica) => replica,
        Err(Refused { refusal, given }) => return Err(handed_back(refusal, given, sealed)),
    };
    match carried_in(alloc, sizes, sealed) {
        Ok(trash) => Ok((replica, trash)),
        Err(Refused { refusal, given }) => {
            Err(handed_back(refusal, replica.into_image(), given))
        }
    }
}

fn handed_back(refusal: Refusal, image: Image, sealed: Option<SealedImage>) -> Refused<CopyImages>
    ensures refusal { result.refusal ≡ refusal }
    ensures given { result.given ≡ record { image = image; sealed = sealed } }
{
    Refused {
        refusal,
        given: CopyImages { image, sealed },
    }
}

/// The replica that a carried image becomes.
fn carried_in(
    alloc: Global,
    sizes: Sizes,
    sealed: Option<SealedImage>,
) -> Result<Option<Replica>, Refused<Option<SealedImage>>>
    ensures made { MakesOf sealed (carried_in sizes.block sizes.chunk sealed) result }
    ensures trash { IfOk result (λ made. TrashSealed made) }
{
    let Some(sealed) = sealed else {
        return Ok(None);
    };
    match Replica::of_sealed(alloc, sizes, sealed) {
        Ok(replica) => Ok(Some(replica)),
        Err(refused) => Err(Refused {
            refusal: refused.refusal,
            given: Some(refused.given),
        }),
    }
}
