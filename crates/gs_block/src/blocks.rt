ghost use Rattle.std.specs.Prelude.{◌≡◌, ◌≤◌, ◌<◌, ◌+◌, ◌-◌, ◌/◌, ◌*◌, ◌↔◌, ◌==◌, ◌||◌, ◌&&◌, nat_le, IfOk, OnOk, IsTrue, replicate, false, length, take, drop, min, max, Ok};
ghost use Rattle.gs_block.specs.Chunk.{written};
ghost use Rattle.gs_block.specs.Stored.{Stored, IsStored, empty, digests_of, first_damaged, are_digests};
ghost use Rattle.gs_block.specs.Edits.{changed, chunk_of, carried, copied, copied_bytes, is_outside, out_of_range, write, append, pad, read, digest, damage, damaged_between};
ghost use Rattle.gs_block.specs.Inverses.{fits, undo, inverse_of};
ghost use Rattle.gs_base.specs.Calls.{Follows, Does, Foretells, Answers, Makes, Gives, Refuses, HandsBack, MakesOf};
ghost use Rattle.gs_block.specs.Kept.{KeepsIntact, KeepsOutside, KeepsOthers};
ghost use Rattle.gs_block.specs.Images.{Images, AreFirst, begun, undone, touched, damage_before};

use crate::digests::{
    Digest, are_digests, count_of, digests_of, first_damaged, first_damaged_between, hasher_to,
    is_intact,
};
use crate::images::{Images, SealedBytes, first_damaged_before, no_images, put_back};
use crate::inverse::BlockInverse;
use crate::parts::{copy_of_part, put_over, write_anew};
use crate::sizes::Sizes;
use gs_base::{Refusal, Refused};
use std::alloc::{AllocError, Global};
use std::marker::Model;

/// The bytes of a chunk and the digests of its blocks, without the chunk.
#[derive(Debug, Drop)]
pub struct BlockParts {
    pub bytes: Vec<u8>,
    pub digests: Vec<Digest>,
}

/// The bytes of a chunk in blocks, each with its digest.
#[derive(Debug)]
pub struct Blocks {
    alloc: Global,
    block: usize,
    chunk: usize,
    bytes: Vec<u8>,
    digests: Vec<Digest>,
}

impl Drop for Blocks {
    fn drop(self) {
        let Self {
            alloc: _,
            block: _,
            chunk: _,
            bytes: _,
            digests: _,
        } = self;
    }
}

impl Model for Blocks {
    ghost use Rattle.gs_block.specs.Stored.{Stored, IsStored};

    ghost Value = { Stored };

    ghost view = { λ b. record { block = b.block; chunk = b.chunk; bytes = b.bytes.items; digests = b.digests.items } };

    ghost invariant = { λ b. IsStored (record { block = b.block; chunk = b.chunk; bytes = b.bytes.items; digests = b.digests.items }) };
}

impl Blocks {
    /// A chunk of no bytes yet.
    pub fn new(alloc: Global, sizes: Sizes) -> Blocks
        ensures { result ≡ empty sizes.block sizes.chunk }
    {
        Blocks {
            alloc,
            block: sizes.block as usize,
            chunk: sizes.chunk as usize,
            bytes: Vec::new(alloc),
            digests: Vec::new(alloc),
        }
    }

    /// A chunk of these bytes, with their digests. It takes the bytes as they are and copies none. `Range` where they pass the
    /// size of the chunk.
    pub fn of(alloc: Global, sizes: Sizes, bytes: Vec<u8>) -> Result<Blocks, Refused<Vec<u8>>>
        ensures { MakesOf bytes (chunk_of sizes.block sizes.chunk bytes.items) result }
    {
        let block = sizes.block as usize;
        let chunk = sizes.chunk as usize;
        if bytes.len() > chunk {
            return Err(Refused {
                refusal: Refusal::Range,
                given: bytes,
            });
        }
        match digests_of(alloc, &bytes, block) {
            Ok(digests) => Ok(Blocks {
                alloc,
                block,
                chunk,
                bytes,
                digests,
            }),
            Err(refused) => Err(Refused {
                refusal: Refusal::from(refused),
                given: bytes,
            }),
        }
    }

    /// A chunk of these bytes under these digests. It takes both as they are: it copies no byte and digests none, so a block
    /// that has not its digest shows when it is verified. `Range` where the bytes pass the size of the chunk, and `BadLine`
    /// where the digests are not as many as the blocks.
    pub fn carried(
        alloc: Global,
        sizes: Sizes,
        parts: BlockParts,
    ) -> Result<Blocks, Refused<BlockParts>>
        ensures { HandsBack parts (carried sizes.block sizes.chunk parts.bytes.items parts.digests.items) result }
    {
        if let Err(refusal) = Blocks::judge_parts(sizes, &parts.bytes, &parts.digests) {
            return Err(Refused {
                refusal,
                given: parts,
            });
        }
        Ok(Blocks {
            alloc,
            block: sizes.block as usize,
            chunk: sizes.chunk as usize,
            bytes: parts.bytes,
            digests: parts.digests,
        })
    }

    /// Judges bytes without taking them: they are refused exactly as `of` would refuse them, but never for memory.
    pub fn judge_bytes(sizes: Sizes, bytes: &[u8]) -> Result<(), Refusal>
        ensures { Foretells (chunk_of sizes.block sizes.chunk bytes.now) result }
    {
        if bytes.len() > sizes.chunk as usize {
            return Err(Refusal::Range);
        }
        Ok(())
    }

    /// Judges bytes under digests without taking them: they are refused exactly as `carried` would refuse them.
    pub fn judge_parts(sizes: Sizes, bytes: &[u8], digests: &[Digest]) -> Result<(), Refusal>
        ensures { Foretells (carried sizes.block sizes.chunk bytes.now digests.now) result }
    {
        Blocks::judge_bytes(sizes, bytes)?;
        if digests.len() != count_of(sizes.block as usize, bytes.len()) {
            return Err(Refusal::BadLine);
        }
        Ok(())
    }

    /// The bytes and the digests, which go on without the chunk. No block is verified.
    pub fn into_parts(self) -> BlockParts
        ensures bytes { result.bytes.items ≡ self.bytes }
        ensures digests { result.digests.items ≡ self.digests }
    {
        let Self {
            alloc: _,
            block: _,
            chunk: _,
            bytes,
            digests,
        } = self;
        BlockParts { bytes, digests }
    }

    /// Verifies every block: `Damaged` names the lowest that fails. It takes no memory.
    pub fn verify(&self) -> Result<(), Refusal>
        ensures { Foretells (copied self.now) result }
    {
        let count = self.digests.len();
        match first_damaged(&self.bytes, self.block, &self.digests, 0, count) {
            Some(index) => Err(Refusal::Damaged(index as u64)),
            None => Ok(()),
        }
    }

    /// A chunk of the same bytes. Every block is verified first: `Damaged` names the lowest that fails.
    pub fn copy(&self) -> Result<Blocks, Refusal>
        ensures { Makes (copied self.now) result }
    {
        self.verify()?;
        Ok(Blocks {
            alloc: self.alloc,
            block: self.block,
            chunk: self.chunk,
            bytes: Vec::from_slice(self.alloc, &self.bytes)?,
            digests: Vec::from_slice(self.alloc, &self.digests)?,
        })
    }

    /// A copy of the bytes alone. Every block is verified first: `Damaged` names the lowest that fails.
    pub fn copy_bytes(&self) -> Result<Vec<u8>, Refusal>
        ensures { Gives (λ bytes. bytes.items) (copied_bytes self.now) result }
    {
        self.verify()?;
        Ok(Vec::from_slice(self.alloc, &self.bytes)?)
    }

    /// What takes back an edit of the bytes from `at` on and below `end`.
    #[tactic(auto, using(crate::proofs::Counts::first_counted))]
    fn inverse(&self, at: usize, end: usize) -> Result<BlockInverse, AllocError>
        requires within { at ≤ length self.now.bytes }
        requires order { at ≤ end }
        requires fits { end ≤ self.now.chunk }
        ensures { IfOk result (λ i. i ≡ inverse_of self.now at end) }
    {
        let held = self.bytes.len();
        let first = at / self.block;
        let last = count_of(self.block, end);
        let bytes = copy_of_part(self.alloc, &self.bytes, at, end)?;
        let digests = copy_of_part(self.alloc, &self.digests, first, last)?;
        Ok(BlockInverse {
            at,
            old_length: held,
            new_length: held.max(end),
            bytes,
            digests,
        })
    }

    /// Writes a piece at an offset. First it verifies each stored block with a byte from the lesser of the offset and the
    /// end on and below the end of the piece.
    fn put(&mut self, offset: usize, piece: &[u8]) -> Result<BlockInverse, Refusal>
        requires { offset + length piece.now ≤ self.old.chunk }
        ensures edit { Follows (changed self.old (min offset (length self.old.bytes)) (offset + length piece.now) (written offset piece.now self.old.bytes)) result self.old self.new }
        ensures inverse { IfOk result (λ i. i ≡ inverse_of self.old (min offset (length self.old.bytes)) (offset + length piece.now)) }
        ensures undo { IfOk result (λ i. undo i self.new ≡ Ok self.old) }
        ensures intact { KeepsIntact result self.old self.new }
        ensures outside { KeepsOutside result (min offset (length self.old.bytes)) (offset + length piece.now) self.old self.new }
    {
        let at = offset.min(self.bytes.len());
        let end = offset + piece.len();
        let hasher = hasher_to(&self.bytes, self.block, at);
        let copy = hasher.clone()?;
        match first_damaged_between(copy, &self.bytes, self.block, &self.digests, at, end) {
            Some(index) => return Err(Refusal::Damaged(index as u64)),
            None => {}
        }
        let inverse = self.inverse(at, end)?;
        write_anew(
            hasher,
            &mut self.bytes,
            self.block,
            &mut self.digests,
            offset,
            piece,
        )?;
        Ok(inverse)
    }

    /// Whether a piece has no bytes, or would end past the size of the chunk if it was written at an offset.
    pub fn is_outside(&self, offset: u64, piece: &[u8]) -> bool
        ensures { result ≡ is_outside self.now offset piece.now }
    {
        piece.is_empty() || offset.saturating_add(piece.len() as u64) > self.chunk as u64
    }

    /// Writes a piece at an offset, with zeros before it where the offset lies past the end. `Range` for no bytes, and where
    /// the piece would end past the size of the chunk, whatever memory there is. Each stored block with a byte from the lesser of the offset and the
    /// end on and below the end of the piece is verified first: `Damaged` names the lowest that fails. After the
    /// GFS paper on data integrity, where a write verifies the first and the last block of its range; here it verifies all.
    pub fn write(&mut self, offset: u64, piece: &[u8]) -> Result<BlockInverse, Refusal>
        ensures edit { Follows (write self.old offset piece.now) result self.old self.new }
        ensures range { Refuses (out_of_range self.old offset piece.now) result }
        ensures inverse { IfOk result (λ i. i ≡ inverse_of self.old (min offset (length self.old.bytes)) (offset + length piece.now)) }
        ensures undo { IfOk result (λ i. undo i self.new ≡ Ok self.old) }
        ensures intact { KeepsIntact result self.old self.new }
        ensures outside { KeepsOutside result (min offset (length self.old.bytes)) (offset + length piece.now) self.old self.new }
    {
        if self.is_outside(offset, piece) {
            return Err(Refusal::Range);
        }
        self.put(offset as usize, piece)
    }

    /// Writes a piece at the end. `Range` for no bytes, and where the piece does not fit, whatever memory there is. The last block is verified first if
    /// it is short.
    pub fn append(&mut self, piece: &[u8]) -> Result<BlockInverse, Refusal>
        ensures edit { Follows (append self.old piece.now) result self.old self.new }
        ensures range { Refuses (out_of_range self.old (length self.old.bytes) piece.now) result }
        ensures inverse { IfOk result (λ i. i ≡ inverse_of self.old (length self.old.bytes) (length self.old.bytes + length piece.now)) }
        ensures undo { IfOk result (λ i. undo i self.new ≡ Ok self.old) }
        ensures intact { KeepsIntact result self.old self.new }
        ensures outside { KeepsOutside result (length self.old.bytes) (length self.old.bytes + length piece.now) self.old self.new }
    {
        let held = self.bytes.len();
        if self.is_outside(held as u64, piece) {
            return Err(Refusal::Range);
        }
        self.put(held, piece)
    }

    /// Fills the chunk up with zeros. A full chunk stays as it is. The last block is verified first if it is short.
    pub fn pad(&mut self) -> Result<BlockInverse, Refusal>
        ensures edit { Follows (pad self.old) result self.old self.new }
        ensures inverse { IfOk result (λ i. i ≡ inverse_of self.old (length self.old.bytes) self.old.chunk) }
        ensures undo { IfOk result (λ i. undo i self.new ≡ Ok self.old) }
        ensures intact { KeepsIntact result self.old self.new }
        ensures outside { KeepsOutside result (length self.old.bytes) self.old.chunk self.old self.new }
    {
        let held = self.bytes.len();
        if held == self.chunk {
            return Ok(self.inverse(held, held)?);
        }
        let chunk = self.chunk;
        self.put(chunk, &[])
    }

    /// Judges a write without making it: it is refused exactly as `write` would be, but never for memory. It takes no memory.
    pub fn judge_write(&self, offset: u64, piece: &[u8]) -> Result<(), Refusal>
        ensures { Foretells (write self.now offset piece.now) result }
    {
        if self.is_outside(offset, piece) {
            return Err(Refusal::Range);
        }
        let offset = offset as usize;
        let at = offset.min(self.bytes.len());
        match self.damaged_between(at, offset + piece.len()) {
            Some(block) => Err(Refusal::Damaged(block)),
            None => Ok(()),
        }
    }

    /// Judges an append without making it: it is refused exactly as `append` would be, but never for memory. It takes no
    /// memory.
    pub fn judge_append(&self, piece: &[u8]) -> Result<(), Refusal>
        ensures { Foretells (append self.now piece.now) result }
    {
        let held = self.bytes.len();
        if self.is_outside(held as u64, piece) {
            return Err(Refusal::Range);
        }
        match self.damaged_between(held, held + piece.len()) {
            Some(block) => Err(Refusal::Damaged(block)),
            None => Ok(()),
        }
    }

    /// Judges a padding without making it: it is refused exactly as `pad` would be, but never for memory. It takes no memory.
    pub fn judge_pad(&self) -> Result<(), Refusal>
        ensures { Foretells (pad self.now) result }
    {
        let held = self.bytes.len();
        if held == self.chunk {
            return Ok(());
        }
        match self.damaged_between(held, self.chunk) {
            Some(block) => Err(Refusal::Damaged(block)),
            None => Ok(()),
        }
    }

    /// The lowest stored block without its digest, of those with a byte from `at` on and below `end`.
    #[tactic(auto, unfolding(crate::specs::Edits::damaged_between))]
    fn damaged_between(&self, at: usize, end: usize) -> Option<u64>
        requires { end ≤ self.now.chunk }
        ensures { result ≡ damaged_between self.now at end }
    {
        let first = at / self.block;
        let last = count_of(self.block, end).min(self.digests.len());
        match first_damaged(&self.bytes, self.block, &self.digests, first, last) {
            Some(index) => Some(index as u64),
            None => None,
        }
    }

    /// Begins the first images of the chunk as it stands. No block has one yet.
    pub fn seal(&self) -> Result<Images, AllocError>
        ensures begun { IfOk result (λ images. images ≡ begun self.now) }
        ensures first { IfOk result (λ images. AreFirst images self.now) }
        ensures undone { IfOk result (λ images. undone images self.now ≡ self.now) }
        ensures touched { IfOk result (λ images. touched images ≡ replicate (length self.now.digests) false) }
    {
        let digests = Vec::from_slice(self.alloc, &self.digests)?;
        let blocks = no_images(self.alloc, digests.len())?;
        Ok(Images {
            alloc: self.alloc,
            long: self.bytes.len(),
            digests,
            blocks,
        })
    }

    /// The lowest block that undoing all edits since the seal gives without its sealed digest.
    pub fn damaged_before(&self, images: &Images) -> Option<u64>
        requires { AreFirst images.now self.now }
        ensures { result ≡ first_damaged self.now.block (undone images.now self.now).bytes images.now.digests 0 (length images.now.digests) }
    {
        let sealed = SealedBytes {
            bytes: &self.bytes,
            size: self.block,
            long: images.long,
        };
        let found = first_damaged_before(&images.blocks, sealed, &images.digests);
        match found {
            Some(index) => Some(index as u64),
            None => None,
        }
    }

    /// What undoing all edits since the seal gives, as a chunk of its own. Every block of it is verified first: `Damaged` names
    /// the lowest without its sealed digest.
    pub fn copy_before(&self, images: &Images) -> Result<Blocks, Refusal>
        requires { AreFirst images.now self.now }
        ensures { Makes (copied (undone images.now self.now)) result }
    {
        match self.damaged_before(images) {
            Some(block) => return Err(Refusal::Damaged(block)),
            None => {}
        }
        let mut bytes = Vec::from_slice(self.alloc, &self.bytes[..images.long])?;
        put_back(&mut bytes, self.block, images.long, &images.blocks);
        Ok(Blocks {
            alloc: self.alloc,
            block: self.block,
            chunk: self.chunk,
            bytes,
            digests: Vec::from_slice(self.alloc, &images.digests)?,
        })
    }

    /// Undoes all edits since the seal: puts the first images into their places, cuts to the sealed length and takes the
    /// sealed digests. No block is verified. It takes no memory.
    pub fn restore(&mut self, images: Images)
        requires { AreFirst images self.old }
        ensures { self.new ≡ undone images self.old }
    {
        put_back(&mut self.bytes, self.block, images.long, &images.blocks);
        self.digests = images.digests;
    }

    /// Whether an inverse can be taken back: the length is that which the edit left, and what the inverse holds lies below
    /// the length that the edit found.
    #[tactic(auto, unfolding(crate::specs::Inverses::fits))]
    pub(crate) fn fits(&self, inverse: &BlockInverse) -> bool
        ensures { result ≡ fits inverse.now self.now }
    {
        self.bytes.len() == inverse.new_length
            && inverse.old_length <= inverse.new_length
            && is_within(inverse.at, inverse.bytes.len(), inverse.old_length)
            && is_within(
                inverse.at / self.block,
                inverse.digests.len(),
                count_of(self.block, inverse.old_length),
            )
    }

    /// Takes an edit back: puts the bytes that it overwrote and the digests of the blocks that it touched in their places,
    /// and cuts to the length before it. No block is verified, so damage since the edit still shows. It takes no memory.
    /// `BadLine` where the inverse does not fit, as when another edit has been taken since that changed the length.
    pub fn undo(&mut self, inverse: &BlockInverse) -> Result<(), Refusal>
        ensures { Does (undo inverse.now self.old) result self.old self.new }
    {
        if !self.fits(inverse) {
            return Err(Refusal::BadLine);
        }
        put_over(&mut self.bytes, inverse.at, &inverse.bytes);
        self.bytes.truncate(inverse.old_length);
        put_over(&mut self.digests, inverse.at / self.block, &inverse.digests);
        self.digests
            .truncate(count_of(self.block, inverse.old_length));
        Ok(())
    }

    /// The stored bytes of a range, which are fewer where the bytes end in it or before it. `Range` where the range passes
    /// the size of the chunk. Each stored block with a byte of the range is verified first: `Damaged` names the lowest that
    /// fails.
    pub fn read(&self, offset: u64, many: u64) -> Result<&[u8], Refusal>
        ensures { Answers (λ part. part.now) (read self.now offset many) result }
    {
        if offset.saturating_add(many) > self.chunk as u64 {
            return Err(Refusal::Range);
        }
        let start = offset as usize;
        let end = (start + many as usize).min(self.bytes.len());
        if end <= start {
            return Ok(&self.bytes[..0]);
        }
        match self.damaged_between(start, end) {
            Some(block) => Err(Refusal::Damaged(block)),
            None => Ok(part_of(&self.bytes, start, end)),
        }
    }

    /// Whether the chunk is of these sizes.
    pub fn has_sizes(&self, sizes: Sizes) -> bool
        ensures { result ≡ ((self.now.block == sizes.block) && (self.now.chunk == sizes.chunk)) }
    {
        self.block as u64 == sizes.block && self.chunk as u64 == sizes.chunk
    }

    /// The bytes of a block.
    pub(crate) fn block_size(&self) -> usize
        ensures size { result ≡ self.now.block }
        ensures stored { IsStored self.now }
    {
        self.block
    }

    /// The most bytes of the chunk.
    pub fn capacity(&self) -> u64
        ensures size { result ≡ self.now.chunk }
        ensures stored { IsStored self.now }
    {
        self.chunk as u64
    }

    /// The stored bytes. No block is verified.
    pub fn stored(&self) -> &[u8]
        ensures { result.now ≡ self.now.bytes }
    {
        &self.bytes
    }

    /// How many bytes are stored.
    pub fn len(&self) -> u64
        ensures { result ≡ length self.now.bytes }
    {
        self.bytes.len() as u64
    }

    pub fn is_empty(&self) -> bool
        ensures { result ≡ (length self.now.bytes == 0) }
    {
        self.bytes.is_empty()
    }

    /// The stored digests, one for each block.
    pub fn digests(&self) -> &[Digest]
        ensures { result.now ≡ self.now.digests }
    {
        &self.digests
    }

    /// The stored digest of a block, whose bytes are verified first; no other block is. `Range` where there is no such block, and
    /// `Damaged` where its bytes have another digest. It takes no memory.
    pub fn digest(&self, block: u64) -> Result<Digest, Refusal>
        ensures { Answers (λ digest. digest) (digest self.now block) result }
    {
        let index = block as usize;
        if index >= self.digests.len() {
            return Err(Refusal::Range);
        }
        if !is_intact(&self.bytes, self.block, &self.digests, index) {
            return Err(Refusal::Damaged(block));
        }
        Ok(self.digests[index])
    }

    /// Whether these are the digests of the bytes, block by block.
    pub fn matches(&self, digests: &[Digest]) -> bool
        ensures test { result ≡ are_digests self.now.block self.now.bytes digests.now }
        ensures digests { IsTrue result ↔ (digests.now ≡ digests_of self.now.block self.now.bytes) }
    {
        are_digests(&self.bytes, self.block, digests)
    }

    /// Adds 1 modulo 256 to the first byte of a block and leaves the digest, as a fault of a disk would. `Range` where there
    /// is no such block.
    #[tactic(auto, using(crate::proofs::Counts::starts))]
    pub fn damage(&mut self, block: u64) -> Result<(), Refusal>
        ensures damage { Does (damage self.old block) result self.old self.new }
        ensures others { KeepsOthers result block self.old self.new }
        ensures images { (i : Images) → AreFirst i self.old → OnOk result ((undone i self.new ≡ damage_before block (touched i) (undone i self.old)) × AreFirst i self.new) }
    {
        let index = block as usize;
        if index >= self.digests.len() {
            return Err(Refusal::Range);
        }
        let first = index * self.block;
        self.bytes[first] = self.bytes[first].wrapping_add(1);
        Ok(())
    }
}

/// The bytes from one place on and below another.
fn part_of(bytes: &[u8], start: usize, end: usize) -> &[u8]
    requires order { start ≤ end }
    requires within { end ≤ length bytes.now }
    ensures { result.now ≡ take (end - start) (drop start bytes.now) }
{
    &bytes[start..end]
}

/// Whether as many items from `start` on end at or before `end`.
fn is_within(start: usize, many: usize, end: usize) -> bool
    ensures { result ≡ nat_le (start + many) end }
{
    many <= end && start <= end - many
}
