ghost use Rattle.std.specs.Prelude.{◌≡◌, ◌<◌, ◌+◌, ◌-◌, ◌==◌, IfOk, OnOk, OnErr, IfErr, length, Ok, Err, Some, None};
ghost use Rattle.std.specs.FinMap as fin;
ghost use Rattle.gs_block.specs.Stored.{Stored, IsStored, are_digests};
ghost use Rattle.gs_block.specs.Edits as blocks;
ghost use Rattle.gs_block.specs.Edits.{unless_damaged};
ghost use Rattle.gs_block.specs.Inverses as inverses;
ghost use Rattle.gs_block.specs.Kept.{KeepsIntact, KeepsOutside, KeepsOthers};
ghost use Rattle.gs_base.specs.Calls.{Follows, Does, Foretells, Judges, Answers, Makes, Refuses, HandsBack, MakesOf};
ghost use Rattle.gs_block.specs.Images.{AreFirst, undone};
ghost use Rattle.gs_replica.specs.Held.{Held};
ghost use Rattle.gs_replica.specs.Edits.{fresh, promise, apply, judged, foreseen, is_outside, is_old, edited, outcome_of, with_edit, damage, held_of, copied, start_of, end_of, done_by};
ghost use Rattle.gs_base.specs.declared.numbers.Stamp.{Stamp};
ghost use Rattle.gs_base.specs.Stamps.{is_same};
ghost use Rattle.gs_replica.specs.Undo.{undo, inverse_of};
ghost use Rattle.gs_replica.specs.First.{done_before};
ghost use Rattle.gs_replica.specs.Inside.{HasSealed, DamagesTheSealed, carried_of};
ghost use Rattle.gs_replica.specs.Seals.{lowest_damaged};
ghost use Rattle.gs_replica.specs.Copies.{SealedImage, image_of};

use crate::done::DoneTable;
use crate::first::FirstEntries;
use crate::image::{Image, SealedImage};
use crate::op::{Done, EditOutcome, Op};
use gs_base::{ClientId, Refusal, Refused, ReqId, Stamp};
use gs_block::{BlockInverse, BlockParts, Blocks, Digest, Images, Sizes};
use std::alloc::Global;
use std::marker::Model;

/// The part of a replica that edits change.
#[derive(Debug, Drop)]
pub(crate) struct Live {
    blocks: Blocks,
    count: u64,
    done: DoneTable,
    promise: Stamp,
}

impl Model for Live {
    ghost use Rattle.gs_replica.specs.Held.{Held, coded_held};

    ghost Value = { Held };

    ghost coded = { coded_held };

    ghost view = { λ r. record { chunk = r.blocks; count = r.count; done = r.done; promise = r.promise } };
}

/// What takes an edit of a replica back: the bytes that it overwrote, the count that it left, and the client's request
/// before it.
#[derive(Debug)]
pub struct ReplicaInverse {
    pub(crate) blocks: BlockInverse,
    pub(crate) count: u64,
    pub(crate) client: ClientId,
    pub(crate) before: Option<Done>,
}

impl Drop for ReplicaInverse {
    fn drop(self) {
        let Self {
            blocks: _,
            count: _,
            client: _,
            before: _,
        } = self;
    }
}

fn is_same(stamp: Stamp, other: Stamp) -> bool
    ensures { result ≡ is_same stamp other }
{
    stamp.epoch == other.epoch && stamp.version == other.version
}

impl Live {
    /// A replica without edits, which has promised a stamp.
    pub(crate) fn new(alloc: Global, sizes: Sizes, stamp: Stamp) -> Live
        ensures { result ≡ fresh sizes.block sizes.chunk stamp }
    {
        Live {
            blocks: Blocks::new(alloc, sizes),
            count: 0,
            done: DoneTable::new(alloc),
            promise: stamp,
        }
    }

    /// A replica of an image, which has promised a stamp. `Range` where its bytes pass the size of the chunk.
    pub(crate) fn of(
        alloc: Global,
        sizes: Sizes,
        stamp: Stamp,
        image: Image,
    ) -> Result<Live, Refused<Image>>
        ensures { MakesOf image (held_of stamp image.count image.done (blocks.chunk_of sizes.block sizes.chunk image.bytes)) result }
    {
        let Image { bytes, count, done } = image;
        match Blocks::of(alloc, sizes, bytes) {
            Ok(blocks) => Ok(Live {
                blocks,
                count,
                done,
                promise: stamp,
            }),
            Err(refused) => Err(Refused {
                refusal: refused.refusal,
                given: Image {
                    bytes: refused.given,
                    count,
                    done,
                },
            }),
        }
    }

    /// A replica as a sealed image says, with its digests as they are carried. `Range` where its bytes pass the size of the
    /// chunk, and `BadLine` where its digests are not as many as the blocks. It takes no memory.
    pub(crate) fn carried(
        alloc: Global,
        sizes: Sizes,
        sealed: SealedImage,
    ) -> Result<Live, Refused<SealedImage>>
        ensures made { HandsBack sealed (held_of sealed.stamp sealed.image.count sealed.image.done (blocks.carried sizes.block sizes.chunk sealed.image.bytes sealed.digests)) result }
        ensures same { IfOk result (λ live. carried_of live ≡ sealed) }
    {
        let SealedImage {
            image,
            stamp,
            digests,
        } = sealed;
        let Image { bytes, count, done } = image;
        match Blocks::carried(alloc, sizes, BlockParts { bytes, digests }) {
            Ok(blocks) => Ok(Live {
                blocks,
                count,
                done,
                promise: stamp,
            }),
            Err(refused) => Err(Refused {
                refusal: refused.refusal,
                given: sealed_image_of(refused.given, count, done, stamp),
            }),
        }
    }

    /// The sealed image as which a replica stands that is sealed there.
    pub(crate) fn into_sealed_image(self) -> SealedImage
        ensures { result ≡ carried_of self }
    {
        sealed_image_of(
            self.blocks.into_parts(),
            self.count,
            self.done,
            self.promise,
        )
    }

    /// What stands, without its digests. No block is verified.
    pub(crate) fn into_image(self) -> Image
        ensures { result ≡ image_of self }
    {
        Image {
            bytes: self.blocks.into_parts().bytes,
            count: self.count,
            done: self.done,
        }
    }

    /// What a copy carries of the replica as it stands. Every block is verified first: `Damaged` names the lowest that fails.
    pub(crate) fn image(&self) -> Result<Image, Refusal>
        ensures { Makes (unless_damaged (lowest_damaged self.now.chunk) (image_of self.now)) result }
    {
        Ok(Image {
            bytes: self.blocks.copy_bytes()?,
            count: self.count,
            done: self.done.copy()?,
        })
    }

    /// Verifies every block, as `Blocks::verify` does.
    pub(crate) fn verify(&self) -> Result<(), Refusal>
        ensures { (stamp : Stamp) → Foretells (copied stamp self.now) result }
    {
        self.blocks.verify()
    }

    /// A replica of the same bytes, count and requests, which has promised a stamp. Every block is verified first:
    /// `Damaged` names the lowest that fails.
    pub(crate) fn copy(&self, stamp: Stamp) -> Result<Live, Refusal>
        ensures { Makes (copied stamp self.now) result }
    {
        Ok(Live {
            blocks: self.blocks.copy()?,
            count: self.count,
            done: self.done.copy()?,
            promise: stamp,
        })
    }

    /// Promises to take no edit below a stamp. `Old` where a greater one is promised. It takes no memory.
    pub(crate) fn promise(&mut self, stamp: Stamp) -> Result<(), Refusal>
        ensures { Does (promise stamp self.old) result self.old self.new }
    {
        if stamp.is_before(self.promise) {
            return Err(Refusal::Old);
        }
        self.promise = stamp;
        Ok(())
    }

    /// Applies an edit. `Stamp` with the promise where the stamp is not the promised one, `Gap` with the count where the
    /// number is not the count and 1, `Old` where the request's number is not above the client's last applied one, then
    /// `Range` and `Damaged` as the chunk decides. All but `Damaged` are answered whatever memory there is.
    pub(crate) fn apply(
        &mut self,
        stamp: Stamp,
        number: u64,
        req: ReqId,
        op: Op,
        bytes: &[u8],
    ) -> Result<ReplicaInverse, Refusal>
        ensures edit { Follows (apply stamp number req op bytes.now self.old) result self.old self.new }
        ensures judged { Refuses (foreseen stamp number req op bytes.now self.old) result }
        ensures undo { IfOk result (λ i. undo i self.new ≡ Ok self.old) }
        ensures intact { KeepsIntact result self.old.chunk self.new.chunk }
        ensures inverse { IfOk result (λ i. i ≡ inverse_of req op bytes.now self.old) }
        ensures span { IfOk result (λ i. i.blocks ≡ inverses.inverse_of self.old.chunk (start_of op self.old.chunk) (end_of op bytes.now self.old.chunk)) }
        ensures outside { KeepsOutside result (start_of op self.old.chunk) (end_of op bytes.now self.old.chunk) self.old.chunk self.new.chunk }
        ensures back { IfOk result (λ i. inverses.undo i.blocks self.new.chunk ≡ Ok self.old.chunk) }
        ensures count { OnOk result (self.new.count ≡ self.old.count + 1) }
        ensures refused { OnErr result (self.new ≡ self.old) }
    {
        self.foresee(stamp, number, req, op, bytes)?;
        self.take(number, req, op, bytes)
    }

    /// Whether an edit has no bytes, or would end past the size of the chunk.
    fn is_outside(&self, op: Op, bytes: &[u8]) -> bool
        ensures { result ≡ is_outside op bytes.now self.now.chunk }
    {
        match op {
            Op::Write(offset) => self.blocks.is_outside(offset, bytes),
            Op::Append => self.blocks.is_outside(self.blocks.len(), bytes),
            Op::Pad => false,
        }
    }

    /// Judges an edit by its stamp, number, request and length, as `apply` says. It takes no memory.
    pub(crate) fn foresee(
        &self,
        stamp: Stamp,
        number: u64,
        req: ReqId,
        op: Op,
        bytes: &[u8],
    ) -> Result<(), Refusal>
        ensures judged { Judges (foreseen stamp number req op bytes.now self.now) result }
        ensures accepted { OnOk result (judged stamp number req self.now ≡ None) }
        ensures next { OnOk result (number ≡ self.now.count + 1) }
        ensures told { IfErr result (λ refusal. foreseen stamp number req op bytes.now self.now ≡ Some refusal) }
        ensures refused { IfErr result (λ refusal. apply stamp number req op bytes.now self.now ≡ Err refusal) }
    {
        self.judge(stamp, number, req)?;
        if self.is_outside(op, bytes) {
            return Err(Refusal::Range);
        }
        Ok(())
    }

    /// Judges an edit by its stamp, number and request.
    fn judge(&self, stamp: Stamp, number: u64, req: ReqId) -> Result<(), Refusal>
        ensures judged { Judges (judged stamp number req self.now) result }
        ensures accepted { OnOk result (judged stamp number req self.now ≡ None) }
        ensures next { OnOk result (number ≡ self.now.count + 1) }
    {
        if !is_same(stamp, self.promise) {
            return Err(Refusal::Stamp(self.promise));
        }
        if number == 0 || number - 1 != self.count {
            return Err(Refusal::Gap(self.count));
        }
        if is_old(req.number, self.done.get(req.client)) {
            return Err(Refusal::Old);
        }
        Ok(())
    }

    /// Judges an edit by the chunk alone. It takes no memory.
    pub(crate) fn judge_edit(&self, op: Op, bytes: &[u8]) -> Result<(), Refusal>
        ensures { Foretells (edited op bytes.now self.now.chunk) result }
    {
        match op {
            Op::Write(offset) => self.blocks.judge_write(offset, bytes),
            Op::Append => self.blocks.judge_append(bytes),
            Op::Pad => self.blocks.judge_pad(),
        }
    }

    /// Applies an edit that is judged.
    pub(crate) fn take(
        &mut self,
        number: u64,
        req: ReqId,
        op: Op,
        bytes: &[u8],
    ) -> Result<ReplicaInverse, Refusal>
        requires { number ≡ self.old.count + 1 }
        ensures edit { Follows (with_edit self.old req op (edited op bytes.now self.old.chunk)) result self.old self.new }
        ensures undo { IfOk result (λ i. undo i self.new ≡ Ok self.old) }
        ensures inverse { IfOk result (λ i. i ≡ inverse_of req op bytes.now self.old) }
        ensures intact { KeepsIntact result self.old.chunk self.new.chunk }
        ensures span { IfOk result (λ i. i.blocks ≡ inverses.inverse_of self.old.chunk (start_of op self.old.chunk) (end_of op bytes.now self.old.chunk)) }
        ensures outside { KeepsOutside result (start_of op self.old.chunk) (end_of op bytes.now self.old.chunk) self.old.chunk self.new.chunk }
        ensures back { IfOk result (λ i. inverses.undo i.blocks self.new.chunk ≡ Ok self.old.chunk) }
        ensures count { OnOk result (self.new.count ≡ self.old.count + 1) }
        ensures done { OnOk result (self.new.done ≡ fin.insert self.old.done req.client.0 (done_by req.number op self.old.chunk)) }
        ensures client { IfOk result (λ i. i.client ≡ req.client) }
        ensures before { IfOk result (λ i. i.before ≡ fin.get self.old.done req.client.0) }
        ensures refused { OnErr result (self.new ≡ self.old) }
    {
        let before = self.done.get(req.client);
        let outcome = outcome_of(op, self.blocks.len());
        let blocks = edit(&mut self.blocks, op, bytes)?;
        let done = Done {
            number: req.number,
            outcome,
        };
        match self.done.put(req.client, done) {
            Ok(()) => {}
            Err(refused) => {
                take_back(&mut self.blocks, &blocks);
                return Err(Refusal::from(refused));
            }
        }
        self.count = number;
        Ok(ReplicaInverse {
            blocks,
            count: number,
            client: req.client,
            before,
        })
    }

    /// Takes the last edit back. `BadLine` where the count is not that which the edit left, or the inverse does not fit the
    /// chunk. It takes no memory.
    pub(crate) fn undo(&mut self, inverse: &ReplicaInverse) -> Result<(), Refusal>
        ensures { Does (undo inverse.now self.old) result self.old self.new }
    {
        if self.count != inverse.count
            || self.count == 0
            || self.done.get(inverse.client).is_none()
        {
            return Err(Refusal::BadLine);
        }
        self.blocks.undo(&inverse.blocks)?;
        self.done.restore(inverse.client, inverse.before);
        self.count -= 1;
        Ok(())
    }

    /// What undoing all edits since a seal gives, under a promise. No block is verified. It takes no memory.
    pub(crate) fn restored(
        self,
        promise: Stamp,
        images: Images,
        count: u64,
        first: FirstEntries,
    ) -> Live
        requires first { AreFirst images self.chunk }
        requires has { HasSealed first self.done }
        ensures { result ≡ record { chunk = undone images self.chunk; count = count; done = done_before first self.done; promise = promise } }
    {
        let mut blocks = self.blocks;
        let mut done = self.done;
        blocks.restore(images);
        done.put_back(first);
        Live {
            blocks,
            count,
            done,
            promise,
        }
    }

    /// The stored bytes of a range, as `Blocks::read` gives them.
    pub(crate) fn read(&self, offset: u64, many: u64) -> Result<&[u8], Refusal>
        ensures { Answers (λ part. part.now) (blocks.read self.now.chunk offset many) result }
    {
        self.blocks.read(offset, many)
    }

    /// The most bytes of the chunk.
    pub(crate) fn capacity(&self) -> u64
        ensures size { result ≡ self.now.chunk.chunk }
        ensures stored { IsStored self.now.chunk }
    {
        self.blocks.capacity()
    }

    /// The stored bytes in blocks.
    pub(crate) fn blocks(&self) -> &Blocks
        ensures { result.now ≡ self.now.chunk }
    {
        &self.blocks
    }

    /// How many bytes are stored.
    pub(crate) fn len(&self) -> u64
        ensures { result ≡ length self.now.chunk.bytes }
    {
        self.blocks.len()
    }

    /// How many edits are applied.
    pub(crate) fn count(&self) -> u64
        ensures { result ≡ self.now.count }
    {
        self.count
    }

    /// The stamp below which no edit is taken.
    pub(crate) fn promised(&self) -> Stamp
        ensures { result ≡ self.now.promise }
    {
        self.promise
    }

    /// A client's last applied request.
    pub(crate) fn done(&self, client: ClientId) -> Option<Done>
        ensures { result ≡ fin.get self.now.done client.0 }
    {
        self.done.get(client)
    }

    /// Each client's last applied request.
    pub(crate) fn done_table(&self) -> &DoneTable
        ensures { result.now ≡ self.now.done }
    {
        &self.done
    }

    /// The stored digests, one for each block.
    pub(crate) fn digests(&self) -> &[Digest]
        ensures { result.now ≡ self.now.chunk.digests }
    {
        self.blocks.digests()
    }

    /// The stored digest of a block, as `Blocks::digest` gives it.
    pub(crate) fn digest(&self, block: u64) -> Result<Digest, Refusal>
        ensures { Answers (λ digest. digest) (blocks.digest self.now.chunk block) result }
    {
        self.blocks.digest(block)
    }

    /// Whether each block has its stored digest.
    pub(crate) fn is_intact(&self) -> bool
        ensures { result ≡ are_digests self.now.chunk.block self.now.chunk.bytes self.now.chunk.digests }
    {
        self.blocks.matches(self.blocks.digests())
    }

    /// Adds 1 modulo 256 to the first byte of a block and leaves its digest. `Range` where there is no such block.
    pub(crate) fn damage(&mut self, block: u64) -> Result<(), Refusal>
        ensures damage { Does (damage block self.old) result self.old self.new }
        ensures others { KeepsOthers result block self.old.chunk self.new.chunk }
        ensures done { self.new.done ≡ self.old.done }
        ensures images { DamagesTheSealed result block self.old.chunk self.new.chunk }
    {
        self.blocks.damage(block)
    }
}

/// The sealed image of these bytes and digests.
fn sealed_image_of(parts: BlockParts, count: u64, done: DoneTable, stamp: Stamp) -> SealedImage
    ensures { result ≡ record { image = record { bytes = parts.bytes.items; count = count; done = done }; stamp = stamp; digests = parts.digests.items } }
{
    SealedImage {
        image: Image {
            bytes: parts.bytes,
            count,
            done,
        },
        stamp,
        digests: parts.digests,
    }
}

/// Whether a request's number is not above the client's last.
fn is_old(number: u64, last: Option<Done>) -> bool
    ensures { result ≡ is_old number last }
{
    match last {
        Some(done) => number <= done.number,
        None => false,
    }
}

fn outcome_of(op: Op, len: u64) -> EditOutcome
    ensures { (s : Stored) → len ≡ length s.bytes → result ≡ outcome_of op s }
{
    match op {
        Op::Write(_) => EditOutcome::Written,
        Op::Append => EditOutcome::Appended(len),
        Op::Pad => EditOutcome::Padded,
    }
}

/// The edit of the chunk.
fn edit(blocks: &mut Blocks, op: Op, bytes: &[u8]) -> Result<BlockInverse, Refusal>
    ensures edit { Follows (edited op bytes.now blocks.old) result blocks.old blocks.new }
    ensures undo { IfOk result (λ i. inverses.undo i blocks.new ≡ Ok blocks.old) }
    ensures intact { KeepsIntact result blocks.old blocks.new }
    ensures span { IfOk result (λ i. i ≡ inverses.inverse_of blocks.old (start_of op blocks.old) (end_of op bytes.now blocks.old)) }
    ensures outside { KeepsOutside result (start_of op blocks.old) (end_of op bytes.now blocks.old) blocks.old blocks.new }
{
    match op {
        Op::Write(offset) => blocks.write(offset, bytes),
        Op::Append => blocks.append(bytes),
        Op::Pad => blocks.pad(),
    }
}

/// Takes an edit back that its inverse fits.
fn take_back(blocks: &mut Blocks, inverse: &BlockInverse)
    ensures { (s : Stored) → inverses.undo inverse.now blocks.old ≡ Ok s → blocks.new ≡ s }
{
    let _undone = blocks.undo(inverse);
}
