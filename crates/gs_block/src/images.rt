ghost use Rattle.std.specs.Prelude.{true, [], ◌≡◌, ◌↔◌, IsTrue, ◌≤◌, ◌<◌, ◌+◌, ◌-◌, ◌*◌, List, ℕ, IfOk, length, map, min, not, replicate, is_some, Option, Some, None, slice_index_or};
ghost use Rattle.gs_block.specs.Stored.{Stored, count_of, is_intact, first_damaged};
ghost use Rattle.sha2.specs.Sha256.{sha256};
ghost use Rattle.gs_block.specs.Kept.{Outside};
ghost use Rattle.gs_block.specs.Images.{Images, Missing, AreFirst, IsImage, touched, all_touched, covers, bytes_before, block_before, missing_of, copies_from, image_bytes, missing, UndoesTheSame, TouchesItsSpan, CoversItsInverse, StaysWhenUndone};
ghost use Rattle.gs_block.specs.Inside.{image_or, put_image, or_else, kept_images, AreWhole};

use crate::blocks::Blocks;
use crate::digests::{Digest, count_of, digest_of, is_same};
use crate::inverse::BlockInverse;
use crate::parts::put_over;
use std::alloc::{AllocError, Global};
use std::marker::Model;

/// The bytes of a block as they were sealed.
#[derive(Debug, Drop)]
pub struct Image {
    bytes: Vec<u8>,
}

impl Model for Image {
    ghost use Rattle.std.specs.Prelude.{List, ℕ};

    ghost Value = { List ℕ };

    ghost view = { λ i. i.bytes.items };
}

impl Image {
    /// An image of these bytes. It takes them as they are.
    pub fn new(bytes: Vec<u8>) -> Image
        ensures { result ≡ bytes.items }
    {
        Image { bytes }
    }

    pub fn bytes(&self) -> &[u8]
        ensures { result.now ≡ self.now }
    {
        &self.bytes
    }
}

/// What takes a chunk back to where it was sealed: its length and digests then, and the first image of each sealed block
/// that an edit has touched since.
#[derive(Debug, Drop)]
pub struct Images {
    pub(crate) alloc: Global,
    pub(crate) long: usize,
    pub(crate) digests: Vec<Digest>,
    pub(crate) blocks: Vec<Option<Image>>,
}

impl Model for Images {
    ghost use Rattle.gs_block.specs.Images.{Images};

    ghost Value = { Images };

    ghost view = { λ i. record { long = i.long; digests = i.digests.items; blocks = i.blocks.items } };
}

/// Copies of blocks that an edit is to touch and that have no image yet.
#[derive(Debug, Drop)]
pub struct Missing {
    first: usize,
    copies: Vec<Option<Image>>,
}

impl Model for Missing {
    ghost use Rattle.gs_block.specs.Images.{Missing};

    ghost Value = { Missing };

    ghost view = { λ m. record { first = m.first; copies = m.copies.items } };
}

impl Images {
    /// Images of so many sealed bytes, with their digests as sealed and what images their blocks have. It takes all as it is.
    pub fn of(alloc: Global, long: u64, digests: Vec<Digest>, blocks: Vec<Option<Image>>) -> Images
        ensures { result ≡ record { long = long; digests = digests.items; blocks = blocks.items } }
    {
        Images {
            alloc,
            long: long as usize,
            digests,
            blocks,
        }
    }

    /// How many bytes were sealed.
    pub fn long(&self) -> u64
        ensures { result ≡ self.now.long }
    {
        self.long as u64
    }

    /// The digests as sealed, one for each sealed block.
    pub fn digests(&self) -> &[Digest]
        ensures { result.now ≡ self.now.digests }
    {
        &self.digests
    }

    /// Of each sealed block its first image, where an edit has touched it since.
    pub fn blocks(&self) -> &[Option<Image>]
        ensures { result.now ≡ self.now.blocks }
    {
        &self.blocks
    }

    /// Whether the images are those of a chunk: it has at least the sealed bytes, as many digests and images are there as
    /// sealed blocks, and each image is as long as its block was sealed. It takes no memory.
    pub fn are_first(&self, blocks: &Blocks) -> bool
        ensures { IsTrue result ↔ AreFirst self.now blocks.now }
    {
        let size = blocks.block_size();
        if self.long as u64 > blocks.len() {
            return false;
        }
        let count = count_of(size, self.long);
        if self.digests.len() != count || self.blocks.len() != count {
            return false;
        }
        are_whole(&self.blocks, size, self.long)
    }

    /// Copies of the sealed blocks that have a byte from `start` on and below `end`, and no image yet.
    pub fn missing(&self, blocks: &Blocks, start: u64, end: u64) -> Result<Missing, AllocError>
        requires first { AreFirst self.now blocks.now }
        requires within { start ≤ length blocks.now.bytes }
        ensures missing { IfOk result (λ m. m ≡ missing self.now blocks.now start end) }
        ensures within { IfOk result (λ m. length m.copies ≤ length self.now.blocks - m.first) }
    {
        let size = blocks.block_size();
        let first = start as usize / size;
        let last = count_of(size, end.min(self.long as u64) as usize);
        let sealed = SealedBytes {
            bytes: blocks.stored(),
            size,
            long: self.long,
        };
        let copies = missing_copies(self.alloc, &self.blocks, sealed, first, last)?;
        Ok(Missing { first, copies })
    }

    /// Takes the copies that were missing before an edit as images. What undoing gives stays, since the edit left the bytes
    /// outside its span. It takes no memory.
    pub fn keep(&mut self, copies: Missing)
        requires { length copies.copies ≤ length self.old.blocks - copies.first }
        ensures undone { UndoesTheSame self.old copies self.new }
        ensures first { (s new : Stored) → (start end : ℕ) → AreFirst self.old s → copies ≡ missing self.old s start end → Outside start end s new → AreFirst self.new new }
        ensures touched { TouchesItsSpan self.old copies self.new }
        ensures covers { CoversItsInverse self.old copies self.new }
    {
        keep_copies(&mut self.blocks, copies.first, copies.copies);
    }

    /// How many bytes the images hold: never more than were sealed.
    pub fn held(&self, blocks: &Blocks) -> u64
        requires { AreFirst self.now blocks.now }
        ensures bytes { result ≡ image_bytes blocks.now.block self.now.long 0 (touched self.now) }
        ensures at_most { result ≤ self.now.long }
    {
        held_bytes(&self.blocks, blocks.block_size(), self.long) as u64
    }

    /// Whether an inverse fits, puts bytes into blocks with an image alone, and cuts nothing that is sealed. Then what undoing
    /// gives stays when it is taken back.
    pub fn covers(&self, blocks: &Blocks, inverse: &BlockInverse) -> bool
        ensures test { result ≡ covers self.now.long (touched self.now) inverse.now blocks.now }
        ensures keeps { StaysWhenUndone self.now inverse.now blocks.now result }
    {
        if !blocks.fits(inverse) {
            return false;
        }
        if inverse.old_length < self.long {
            return false;
        }
        let size = blocks.block_size();
        let end = inverse.at + inverse.bytes.len();
        are_touched(&self.blocks, inverse.at / size, count_of(size, end))
    }
}

/// No image of so many blocks.
pub(crate) fn no_images(alloc: Global, many: usize) -> Result<Vec<Option<Image>>, AllocError>
    ensures { IfOk result (λ images. images.items ≡ replicate many None) }
{
    let mut images = Vec::new(alloc);
    for _ in 0..many {
        images.push(None)?;
    }
    Ok(images)
}

/// How many bytes an image has, if it is there.
fn len_of(image: &Option<Image>) -> usize
    ensures { result ≡ length (image_or image.now []) }
{
    match image {
        Some(image) => image.bytes.len(),
        None => 0,
    }
}

/// How many bytes the images hold.
fn held_bytes(images: &[Option<Image>], size: usize, long: usize) -> usize
    requires some { 1 ≤ size }
    requires whole { (k : ℕ) → k < length images.now → IsImage (min size (long - k * size)) (slice_index_or images.now k None) }
    ensures bytes { result ≡ image_bytes size long 0 (map is_some images.now) }
    ensures at_most { result ≤ long }
{
    let mut many = 0;
    for index in 0..images.len() {
        many += len_of(&images[index]);
    }
    many
}

/// Whether an image is as long as its block was sealed, if it is there.
fn is_whole(image: &Option<Image>, many: usize) -> bool
    ensures { IsTrue result ↔ IsImage many image.now }
{
    match image {
        Some(image) => image.bytes.len() == many,
        None => true,
    }
}

/// Whether each image is as long as its block was sealed.
fn are_whole(images: &[Option<Image>], size: usize, long: usize) -> bool
    requires some { 1 ≤ size }
    requires counted { length images.now ≡ count_of size long }
    ensures { IsTrue result ↔ AreWhole images.now size long }
{
    for index in 0..images.len() {
        let many = size.min(long - index * size);
        if !is_whole(&images[index], many) {
            return false;
        }
    }
    true
}

/// Whether each sealed block from `first` on and below `last` has an image.
#[tactic(auto, using(crate::proofs::Undoing::touched_more, crate::proofs::Undoing::touched_here, crate::proofs::Undoing::touched_none))]
fn are_touched(images: &[Option<Image>], first: usize, last: usize) -> bool
    ensures { result ≡ all_touched (map is_some images.now) first (last - first) }
{
    for index in first..last {
        if is_untouched(images, index) {
            return false;
        }
    }
    true
}

/// Whether a block is sealed and has no image.
fn is_untouched(images: &[Option<Image>], index: usize) -> bool
    ensures { result ≡ not (slice_index_or (map is_some images.now) index true) }
{
    index < images.len() && images[index].is_none()
}

/// Stored bytes in blocks, of which the first are sealed.
#[derive(Clone, Copy)]
pub(crate) struct SealedBytes<'a> {
    pub(crate) bytes: &'a [u8],
    pub(crate) size: usize,
    /// How many are sealed.
    pub(crate) long: usize,
    ghost some: { 1 ≤ size },
    ghost size_fits: { size ≤ 65536 },
    ghost bytes_fit: { length bytes.now ≤ 67108864 },
    ghost within: { long ≤ length bytes.now },
}

/// The bytes of a block as far as they are sealed.
#[tactic(auto, using(crate::proofs::Counts::starts), unfolding(crate::specs::Images::block_before))]
fn sealed_part(sealed: SealedBytes<'_>, index: usize) -> &[u8]
    requires counted { index < count_of sealed.size sealed.long }
    ensures { result.now ≡ block_before sealed.entry.size sealed.entry.long index sealed.entry.bytes.now }
{
    let start = index * sealed.size;
    let end = (start + sealed.size).min(sealed.long);
    &sealed.bytes[start..end]
}

/// A copy of a block as far as it is sealed.
fn image_of(alloc: Global, sealed: SealedBytes<'_>, index: usize) -> Result<Image, AllocError>
    requires counted { index < count_of sealed.size sealed.long }
    ensures { IfOk result (λ image. image ≡ block_before sealed.entry.size sealed.entry.long index sealed.entry.bytes.now) }
{
    Ok(Image {
        bytes: Vec::from_slice(alloc, sealed_part(sealed, index))?,
    })
}

/// The digest of a block as undoing gives it.
fn digest_before(image: &Option<Image>, sealed: SealedBytes<'_>, index: usize) -> Digest
    requires counted { index < count_of sealed.size sealed.long }
    ensures { result ≡ sha256 (image_or image.now (block_before sealed.entry.size sealed.entry.long index sealed.entry.bytes.now)) }
{
    match image {
        Some(image) => digest_of(&image.bytes),
        None => digest_of(sealed_part(sealed, index)),
    }
}

/// Whether a block as undoing gives it has its sealed digest.
fn is_intact_before(
    images: &[Option<Image>],
    sealed: SealedBytes<'_>,
    digests: &[Digest],
    index: usize,
) -> bool
    requires counted { length images.now ≡ count_of sealed.size sealed.long }
    requires each { length digests.now ≡ count_of sealed.size sealed.long }
    requires below { index < length digests.now }
    requires whole { (k : ℕ) → k < length images.now → IsImage (min sealed.size (sealed.long - k * sealed.size)) (slice_index_or images.now k None) }
    ensures { result ≡ is_intact sealed.entry.size (bytes_before sealed.entry.size images.now sealed.entry.long sealed.entry.bytes.now) digests.now index }
{
    let digest = digest_before(&images[index], sealed, index);
    is_same(&digest, &digests[index])
}

/// The lowest sealed block that undoing gives without its digest.
#[tactic(auto, using(crate::proofs::Verified::damaged_more, crate::proofs::Verified::damaged_here, crate::proofs::Verified::damaged_none))]
pub(crate) fn first_damaged_before(
    images: &[Option<Image>],
    sealed: SealedBytes<'_>,
    digests: &[Digest],
) -> Option<usize>
    requires counted { length images.now ≡ count_of sealed.size sealed.long }
    requires each { length digests.now ≡ count_of sealed.size sealed.long }
    requires whole { (k : ℕ) → k < length images.now → IsImage (min sealed.size (sealed.long - k * sealed.size)) (slice_index_or images.now k None) }
    ensures { result ≡ first_damaged sealed.entry.size (bytes_before sealed.entry.size images.now sealed.entry.long sealed.entry.bytes.now) digests.now 0 (length digests.now) }
{
    for index in 0..digests.len() {
        if !is_intact_before(images, sealed, digests, index) {
            return Some(index);
        }
    }
    None
}

/// Puts an image into its place, where there is one.
fn put_image(bytes: &mut Vec<u8>, at: usize, image: &Option<Image>)
    requires { at + length (image_or image.now []) ≤ length bytes.old.items }
    ensures { bytes.new.items ≡ put_image bytes.old.items at image.now }
{
    match image {
        Some(image) => put_over(bytes, at, &image.bytes),
        None => {}
    }
}

/// Puts the images into their places and cuts to the sealed length.
pub(crate) fn put_back(bytes: &mut Vec<u8>, size: usize, long: usize, images: &[Option<Image>])
    requires some { 1 ≤ size }
    requires size_fits { size ≤ 65536 }
    requires bytes_fit { length bytes.old.items ≤ 67108864 }
    requires within { long ≤ length bytes.old.items }
    requires counted { length images.now ≡ count_of size long }
    requires whole { (k : ℕ) → k < length images.now → IsImage (min size (long - k * size)) (slice_index_or images.now k None) }
    ensures { bytes.new.items ≡ bytes_before size images.now long bytes.old.items }
{
    for index in 0..images.len() {
        put_image(bytes, index * size, &images[index]);
    }
    bytes.truncate(long);
}

/// A copy of a block as far as it is sealed, where it has no image.
fn missing_copy(
    alloc: Global,
    image: &Option<Image>,
    sealed: SealedBytes<'_>,
    index: usize,
) -> Result<Option<Image>, AllocError>
    requires counted { index < count_of sealed.size sealed.long }
    ensures { IfOk result (λ copy. copy ≡ missing_of image.now (block_before sealed.entry.size sealed.entry.long index sealed.entry.bytes.now)) }
{
    match image {
        Some(_image) => Ok(None),
        None => Ok(Some(image_of(alloc, sealed, index)?)),
    }
}

/// Copies of the blocks from `first` on and below `last` that have no image.
fn missing_copies(
    alloc: Global,
    images: &[Option<Image>],
    sealed: SealedBytes<'_>,
    first: usize,
    last: usize,
) -> Result<Vec<Option<Image>>, AllocError>
    requires counted { length images.now ≡ count_of sealed.size sealed.long }
    requires below { last ≤ length images.now }
    ensures { IfOk result (λ copies. copies.items ≡ copies_from sealed.entry.size sealed.entry.long images.now sealed.entry.bytes.now first (last - first)) }
{
    let mut copies = Vec::new(alloc);
    for index in first..last {
        let copy = missing_copy(alloc, &images[index], sealed, index)?;
        copies.push(copy)?;
    }
    Ok(copies)
}

/// Puts copies into their places from `first` on, where there is one.
fn keep_copies(images: &mut [Option<Image>], first: usize, copies: Vec<Option<Image>>)
    requires { length copies.items ≤ length images.old - first }
    ensures { images.new ≡ kept_images images.old first copies.items }
{
    let mut index = first;
    for copy in copies {
        put_copy(&mut images[index], copy);
        index += 1;
    }
}

/// Puts a copy into its place, where there is one.
fn put_copy(image: &mut Option<Image>, copy: Option<Image>)
    ensures { image.new ≡ or_else copy image.old }
{
    if copy.is_some() {
        *image = copy;
    }
}
