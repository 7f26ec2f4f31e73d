ghost use Rattle.std.specs.Prelude.{◌≡◌, ◌≤◌, ◌==◌, ◌&&◌, IfOk, OnOk, OnErr, length, Ok, Option, Some, None, is_some};
ghost use Rattle.std.specs.FinMap as fin;
ghost use Rattle.gs_base.specs.declared.numbers.Stamp.{Stamp};
ghost use Rattle.gs_block.specs.Stored.{are_digests};
ghost use Rattle.gs_block.specs.Edits as blocks;
ghost use Rattle.gs_block.specs.Kept.{KeepsIntact, KeepsOthers};
ghost use Rattle.gs_base.specs.Calls.{Follows, Does, Foretells, Answers, Makes, Refuses, HandsBack, MakesOf};
ghost use Rattle.gs_replica.specs.Edits.{fresh, copied, foreseen, edited};
ghost use Rattle.gs_replica.specs.Seals.{State, with_seal, holding, seal, unseal, apply, undo, promise, damage, roll_back, sealed_at, images_of, sealed_length};
ghost use Rattle.gs_replica.specs.Copies.{image_of, image, sealed_image, of_image, of_sealed};
ghost use Rattle.gs_replica.specs.Undo.{inverse_of};
ghost use Rattle.gs_replica.specs.Whole.{IsWhole};
ghost use Rattle.gs_replica.specs.View.{seen_in, BelongsIn};
ghost use Rattle.gs_replica.specs.Parts.{stands_of, PartsMake};
ghost use Rattle.std.specs.Option.{option_copied};

use crate::done::DoneTable;
use crate::image::{Image, SealedImage};
use crate::live::{Live, ReplicaInverse};
use crate::op::{Done, Op};
use crate::prepared::PreparedSeal;
use crate::seal::{
    Seal, apply_sealed, begin, belongs_in, damage_sealed, image_bytes, sealed_image, undo_sealed,
};
use gs_base::{ClientId, Refusal, Refused, ReqId, Stamp};
use gs_block::{Digest, Sizes};
use std::alloc::{AllocError, Global};
use std::marker::Model;

/// A replica of a chunk, which may be sealed.
#[derive(Debug)]
pub struct Replica {
    live: Live,
    seal: Option<Seal>,
}

impl Drop for Replica {
    fn drop(self) {
        let Self { live: _, seal: _ } = self;
    }
}

impl Model for Replica {
    ghost use Rattle.gs_replica.specs.Seals.{State, coded_state};
    ghost use Rattle.gs_replica.specs.View.{seen_in, BelongsIn};

    ghost Value = { State };

    ghost coded = { coded_state };

    ghost view = { λ r. record { held = r.live; sealed = seen_in r.live r.seal } };

    ghost invariant = { λ r. BelongsIn r.live r.seal };
}

impl Replica {
    /// A replica without edits, which has promised a stamp and is not sealed.
    pub fn new(alloc: Global, sizes: Sizes, stamp: Stamp) -> Replica
        ensures { result ≡ record { held = fresh sizes.block sizes.chunk stamp; sealed = None } }
    {
        Replica {
            live: Live::new(alloc, sizes, stamp),
            seal: None,
        }
    }

    /// A replica of an image that a copy carries, which has promised a stamp and is not sealed. It takes the bytes as they are,
    /// and their digests anew. `Range` where they pass the size of the chunk.
    pub fn of(
        alloc: Global,
        sizes: Sizes,
        stamp: Stamp,
        image: Image,
    ) -> Result<Replica, Refused<Image>>
        ensures { MakesOf image (of_image sizes.block sizes.chunk stamp image) result }
    {
        let live = Live::of(alloc, sizes, stamp, image)?;
        Ok(Replica { live, seal: None })
    }

    /// A replica that stands as a sealed image says, under the promise that it carries, and is sealed there. It takes the bytes
    /// and the digests as they are; `roll_back` verifies them. `Range` where the bytes pass the size of the chunk, and
    /// `BadLine` where the digests are not as many as the blocks.
    pub fn of_sealed(
        alloc: Global,
        sizes: Sizes,
        sealed: SealedImage,
    ) -> Result<Replica, Refused<SealedImage>>
        ensures { MakesOf sealed (of_sealed sizes.block sizes.chunk sealed) result }
    {
        let live = Live::carried(alloc, sizes, sealed)?;
        match begin(&live) {
            Ok(seal) => Ok(Replica {
                live,
                seal: Some(seal),
            }),
            Err(refused) => Err(Refused {
                refusal: Refusal::from(refused),
                given: live.into_sealed_image(),
            }),
        }
    }

    /// A replica as these parts say, under the promise that they carry, and with this seal or with none. It takes all as it is, and
    /// verifies no block. `Range` where the bytes pass the size of the chunk, and `BadLine` where the digests are not as many as
    /// the blocks, or the seal is not one of this replica. It takes no memory.
    pub fn of_parts(
        alloc: Global,
        sizes: Sizes,
        stands: SealedImage,
        seal: Option<Seal>,
    ) -> Result<Replica, Refusal>
        ensures { PartsMake seal (stands_of sizes.block sizes.chunk stands) result }
    {
        let live = match Live::carried(alloc, sizes, stands) {
            Ok(live) => live,
            Err(refused) => return Err(refused.refusal),
        };
        if !belongs_in(&live, &seal) {
            return Err(Refusal::BadLine);
        }
        Ok(Replica { live, seal })
    }

    /// What takes the replica back to where it was sealed, where it is sealed.
    pub fn seal_parts(&self) -> Option<&Seal>
        ensures seen { seen_in self.now.held (option_copied result) ≡ self.now.sealed }
        ensures belongs { BelongsIn self.now.held (option_copied result) }
    {
        self.seal.as_ref()
    }

    /// The stored bytes. No block is verified: what is sent of a replica is `image`.
    pub fn bytes(&self) -> &[u8]
        ensures { result.now ≡ self.now.held.chunk.bytes }
    {
        self.live.blocks().stored()
    }

    /// The bytes, count and requests as they stand, which go on without the replica. No block is verified: what is sent of a
    /// replica is `image`. It takes no memory.
    pub fn into_image(self) -> Image
        ensures { result ≡ image_of self.held }
    {
        let Self { live, seal: _ } = self;
        live.into_image()
    }

    /// What a copy carries of the replica as it stands, sealed or not. Every block is verified first: `Damaged` names the lowest
    /// that fails.
    pub fn image(&self) -> Result<Image, Refusal>
        ensures { Makes (image self.now) result }
    {
        self.live.image()
    }

    /// What undoing gives, as a copy carries it beside the image, with the promise and the digests as sealed. The replica stays
    /// sealed as it is. `BadLine` where it is not sealed, and `Damaged` with the lowest block that undoing gives without its
    /// sealed digest, as `roll_back` is refused.
    pub fn sealed_image(&self) -> Result<SealedImage, Refusal>
        ensures { Makes (sealed_image self.now) result }
    {
        match &self.seal {
            Some(seal) => sealed_image(&self.live, seal),
            None => Err(Refusal::BadLine),
        }
    }

    /// Verifies every block: it is refused exactly as `copy` would be, but never for memory. It takes no memory.
    pub fn verify(&self) -> Result<(), Refusal>
        ensures { (stamp : Stamp) → Foretells (copied stamp self.now.held) result }
    {
        self.live.verify()
    }

    /// A replica of the same bytes, count and requests, which has promised a stamp and is not sealed. Every block is verified
    /// first: `Damaged` names the lowest that fails.
    pub fn copy(&self, stamp: Stamp) -> Result<Replica, Refusal>
        ensures { Makes (with_seal None (copied stamp self.now.held)) result }
    {
        Ok(Replica {
            live: self.live.copy(stamp)?,
            seal: None,
        })
    }

    /// Promises to take no edit below a stamp. `Old` where a greater one is promised. It takes no memory.
    pub fn promise(&mut self, stamp: Stamp) -> Result<(), Refusal>
        ensures { Does (promise stamp self.old) result self.old self.new }
    {
        self.live.promise(stamp)
    }

    /// Applies an edit. `Stamp` with the promise where the stamp is not the promised one, `Gap` with the count where the
    /// number is not the count and 1, `Old` where the request's number is not above the client's last applied one, then
    /// `Range` and `Damaged` as the chunk decides. All but `Damaged` are answered whatever memory there is. A sealed replica
    /// keeps what undoing gives. What takes it back holds the bytes that it overwrites and the digests of the blocks that it
    /// touches, as they were.
    pub fn apply(
        &mut self,
        stamp: Stamp,
        number: u64,
        req: ReqId,
        op: Op,
        bytes: &[u8],
    ) -> Result<ReplicaInverse, Refusal>
        ensures edit { Follows (apply stamp number req op bytes.now self.old) result self.old self.new }
        ensures judged { Refuses (foreseen stamp number req op bytes.now self.old.held) result }
        ensures undo { IfOk result (λ i. undo i self.new ≡ Ok (holding self.old.held self.new)) }
        ensures inverse { IfOk result (λ i. i ≡ inverse_of req op bytes.now self.old.held) }
        ensures intact { KeepsIntact result self.old.held.chunk self.new.held.chunk }
    {
        match &mut self.seal {
            Some(seal) => apply_sealed(&mut self.live, seal, stamp, number, req, op, bytes),
            None => self.live.apply(stamp, number, req, op, bytes),
        }
    }

    /// Takes the last edit back, and leaves what undoing all gives. `BadLine` where the count is not that which the edit left,
    /// or the inverse does not fit the chunk; on a sealed replica also at its sealed count, for a client that no edit has
    /// changed since, where a client would be left without a request that had one then, in a block that no edit has touched
    /// since, and below the sealed length. It takes no memory.
    pub fn undo(&mut self, inverse: &ReplicaInverse) -> Result<(), Refusal>
        ensures { Does (undo inverse.now self.old) result self.old self.new }
    {
        match &self.seal {
            Some(seal) => undo_sealed(&mut self.live, seal, inverse),
            None => self.live.undo(inverse),
        }
    }

    /// Judges an edit by the chunk alone, whatever its stamp, number and request: it is refused `Range` or `Damaged` exactly as
    /// an edit of this kind and these bytes would be. A server refuses an edit so before it looks for a number for it. It takes
    /// no memory.
    pub fn judge(&self, op: Op, bytes: &[u8]) -> Result<(), Refusal>
        ensures { Foretells (edited op bytes.now self.now.held.chunk) result }
    {
        self.live.judge_edit(op, bytes)
    }

    /// Seals the replica as it stands, in place of an earlier seal.
    pub fn seal(&mut self) -> Result<(), AllocError>
        ensures ok { OnOk result (self.new ≡ seal self.old) }
        ensures err { OnErr result (self.new ≡ self.old) }
    {
        let prepared = self.prepare_seal()?;
        self.take_seal(prepared);
        Ok(())
    }

    /// What seals the replica as it stands. It changes nothing.
    pub fn prepare_seal(&self) -> Result<PreparedSeal, AllocError>
        ensures { IfOk result (λ prepared. prepared ≡ self.now.held) }
    {
        PreparedSeal::of(&self.live)
    }

    /// Seals the replica by what was prepared of it as it stands, in place of an earlier seal. It takes no memory.
    pub fn take_seal(&mut self, prepared: PreparedSeal)
        requires { prepared ≡ self.old.held }
        ensures { self.new ≡ seal self.old }
    {
        self.seal = Some(prepared.into_seal());
    }

    /// Whether the replica is sealed.
    pub fn is_sealed(&self) -> bool
        ensures { result ≡ is_some self.now.sealed }
    {
        self.seal.is_some()
    }

    /// The promise that stood when the replica was sealed, if it is.
    pub fn sealed_at(&self) -> Option<Stamp>
        ensures { result ≡ sealed_at self.now }
    {
        match &self.seal {
            Some(seal) => Some(seal.stamp),
            None => None,
        }
    }

    /// How many bytes the first images of the seal hold: never more than were sealed, and 0 without a seal.
    pub fn image_bytes(&self) -> u64
        ensures bytes { result ≡ images_of self.now.sealed }
        ensures at_most { result ≤ sealed_length self.now.sealed }
    {
        match &self.seal {
            Some(seal) => image_bytes(&self.live, seal),
            None => 0,
        }
    }

    /// Forgets the seal.
    pub fn unseal(&mut self)
        ensures { self.new ≡ unseal self.old }
    {
        self.seal = None;
    }

    /// Takes the replica back to where it was sealed: the bytes, digests, count and requests as sealed stand again, under a
    /// promise, and the seal goes. The promise that was made before counts for nothing. `Damaged` names the lowest block that
    /// undoing gives without its sealed digest, and the replica is handed back as it was; `BadLine` where it is not sealed. It
    /// takes no memory.
    pub fn roll_back(self, promise: Stamp) -> Result<Replica, Refused<Replica>>
        ensures { HandsBack self (roll_back promise self) result }
    {
        let Replica { live, seal } = self;
        match seal {
            Some(seal) => match live.blocks().damaged_before(&seal.images) {
                Some(block) => {
                    let given = Replica {
                        live,
                        seal: Some(seal),
                    };
                    Err(Refused {
                        refusal: Refusal::Damaged(block),
                        given,
                    })
                }
                None => Ok(Replica {
                    live: live.restored(promise, seal.images, seal.count, seal.first),
                    seal: None,
                }),
            },
            None => Err(Refused {
                refusal: Refusal::BadLine,
                given: Replica { live, seal: None },
            }),
        }
    }

    /// The stored bytes of a range, as `Blocks::read` gives them.
    pub fn read(&self, offset: u64, many: u64) -> Result<&[u8], Refusal>
        ensures { Answers (λ part. part.now) (blocks.read self.now.held.chunk offset many) result }
    {
        self.live.read(offset, many)
    }

    /// How many bytes are stored.
    pub fn len(&self) -> u64
        ensures { result ≡ length self.now.held.chunk.bytes }
    {
        self.live.len()
    }

    /// The most bytes of the chunk.
    pub fn capacity(&self) -> u64
        ensures { result ≡ self.now.held.chunk.chunk }
    {
        self.live.capacity()
    }

    /// Whether the chunk is of these sizes.
    pub fn has_sizes(&self, sizes: Sizes) -> bool
        ensures { result ≡ ((self.now.held.chunk.block == sizes.block) && (self.now.held.chunk.chunk == sizes.chunk)) }
    {
        self.live.blocks().has_sizes(sizes)
    }

    /// Every replica is whole. A caller whose proof asks this of a replica calls it; it changes nothing.
    pub fn whole(&self)
        ensures { IsWhole self.now }
    {
        let _capacity = self.live.capacity();
    }

    /// How many edits are applied.
    pub fn count(&self) -> u64
        ensures { result ≡ self.now.held.count }
    {
        self.live.count()
    }

    /// The stamp below which no edit is taken.
    pub fn promised(&self) -> Stamp
        ensures { result ≡ self.now.held.promise }
    {
        self.live.promised()
    }

    /// A client's last applied request.
    pub fn done(&self, client: ClientId) -> Option<Done>
        ensures { result ≡ fin.get self.now.held.done client.0 }
    {
        self.live.done(client)
    }

    /// Each client's last applied request.
    pub fn done_table(&self) -> &DoneTable
        ensures { result.now ≡ self.now.held.done }
    {
        self.live.done_table()
    }

    /// The stored digests, one for each block.
    pub fn digests(&self) -> &[Digest]
        ensures { result.now ≡ self.now.held.chunk.digests }
    {
        self.live.digests()
    }

    /// The stored digest of a block, whose bytes are verified first; no other block is. `Range` where there is no such block, and
    /// `Damaged` where its bytes have another digest. It takes no memory.
    pub fn digest(&self, block: u64) -> Result<Digest, Refusal>
        ensures { Answers (λ digest. digest) (blocks.digest self.now.held.chunk block) result }
    {
        self.live.digest(block)
    }

    /// Whether each block has its stored digest.
    pub fn is_intact(&self) -> bool
        ensures { result ≡ are_digests self.now.held.chunk.block self.now.held.chunk.bytes self.now.held.chunk.digests }
    {
        self.live.is_intact()
    }

    /// Adds 1 modulo 256 to the first byte of a block and leaves its digest. `Range` where there is no such block. Every
    /// other block stays. It reaches what undoing gives where no edit has touched the block since the seal.
    pub fn damage(&mut self, block: u64) -> Result<(), Refusal>
        ensures damage { Does (damage block self.old) result self.old self.new }
        ensures others { KeepsOthers result block self.old.held.chunk self.new.held.chunk }
    {
        match &self.seal {
            Some(seal) => damage_sealed(&mut self.live, seal, block),
            None => self.live.damage(block),
        }
    }
}
