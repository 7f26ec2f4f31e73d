ghost use Rattle.std.specs.Prelude.{◌≡◌, ◌↔◌, IsTrue, ◌≤◌, ◌+◌, ◌==◌, ℕ, IfOk, Some, Ok, Result, length, min};
ghost use Rattle.gs_block.specs.Stored.{IsStored};
ghost use Rattle.gs_replica.specs.Edits.{start_of, end_of};
ghost use Rattle.gs_replica.specs.Edits as edits;
ghost use Rattle.gs_block.specs.Kept.{KeepsIntact, KeepsOthers};
ghost use Rattle.gs_replica.specs.Undo.{inverse_of};
ghost use Rattle.gs_base.specs.Calls.{Follows, Does, Makes, Refuses};
ghost use Rattle.gs_replica.specs.Seals.{images_of, sealed_length, apply, undo, damage, holding};
ghost use Rattle.gs_replica.specs.Copies.{sealed_image_of};
ghost use Rattle.gs_replica.specs.View.{seen, state_of, Belongs, BelongsIn, Seals};

use crate::first::FirstEntries;
use crate::image::{Image, SealedImage};
use crate::live::{Live, ReplicaInverse};
use crate::op::Op;
use gs_base::{Refusal, ReqId, Stamp};
use gs_block::{BlockParts, Blocks, Images};
use std::alloc::AllocError;

/// What takes a replica back to where it was sealed.
#[derive(Debug, Drop)]
pub struct Seal {
    pub(crate) stamp: Stamp,
    pub(crate) count: u64,
    pub(crate) images: Images,
    pub(crate) first: FirstEntries,
}

impl Seal {
    /// What takes a replica back to where it had made this promise and applied so many edits. It takes all as it is.
    pub fn new(stamp: Stamp, count: u64, images: Images, first: FirstEntries) -> Seal
        ensures { result ≡ record { stamp = stamp; count = count; images = images; first = first } }
    {
        Seal {
            stamp,
            count,
            images,
            first,
        }
    }

    /// The promise that stood when the replica was sealed.
    pub fn stamp(&self) -> Stamp
        ensures { result ≡ self.now.stamp }
    {
        self.stamp
    }

    /// How many edits were applied then.
    pub fn count(&self) -> u64
        ensures { result ≡ self.now.count }
    {
        self.count
    }

    /// The first images of the blocks.
    pub fn images(&self) -> &Images
        ensures { result.now ≡ self.now.images }
    {
        &self.images
    }

    /// The first entries of the clients.
    pub fn first(&self) -> &FirstEntries
        ensures { result.now ≡ self.now.first }
    {
        &self.first
    }
}

/// Whether a seal is one of a replica: its images are of its chunk, it is of no later count, and each client that had a request
/// then has one.
fn belongs(live: &Live, seal: &Seal) -> bool
    ensures { IsTrue result ↔ Belongs live.now seal.now }
{
    if !seal.images.are_first(live.blocks()) {
        return false;
    }
    if seal.count > live.count() {
        return false;
    }
    live.done_table().has_sealed(&seal.first)
}

/// Whether a seal is one of a replica, where there is one.
pub(crate) fn belongs_in(live: &Live, seal: &Option<Seal>) -> bool
    ensures { IsTrue result ↔ BelongsIn live.now seal.now }
{
    match seal {
        Some(seal) => belongs(live, seal),
        None => true,
    }
}

/// The first images and entries of a replica as it stands: none yet.
pub(crate) fn begin(live: &Live) -> Result<Seal, AllocError>
    ensures { IfOk result (λ seal. Seals live.now seal) }
{
    Ok(Seal {
        stamp: live.promised(),
        count: live.count(),
        images: live.blocks().seal()?,
        first: live.done_table().seal(),
    })
}

/// Applies an edit to a sealed replica. It is judged before anything is copied. The images of the blocks that it is the first
/// to touch are copied before it and taken up after it; its client's first entry is taken before it, and forgotten where the
/// edit is refused.
pub(crate) fn apply_sealed(
    live: &mut Live,
    seal: &mut Seal,
    stamp: Stamp,
    number: u64,
    req: ReqId,
    op: Op,
    bytes: &[u8],
) -> Result<ReplicaInverse, Refusal>
    requires belongs { Belongs live.old seal.old }
    ensures edit { Follows (apply stamp number req op bytes.now (state_of live.old seal.old)) result (state_of live.old seal.old) (state_of live.new seal.new) }
    ensures judged { Refuses (edits.foreseen stamp number req op bytes.now live.old) result }
    ensures undo { IfOk result (λ i. undo i (state_of live.new seal.new) ≡ Ok (holding live.old (state_of live.new seal.new))) }
    ensures inverse { IfOk result (λ i. i ≡ inverse_of req op bytes.now live.old) }
    ensures intact { KeepsIntact result live.old.chunk live.new.chunk }
    ensures belongs { Belongs live.new seal.new }
{
    live.foresee(stamp, number, req, op, bytes)?;
    let (start, end) = span(live.blocks(), op, bytes);
    let missing = seal.images.missing(live.blocks(), start, end)?;
    let is_first = seal.first.keep(req.client, live.done(req.client))?;
    match live.take(number, req, op, bytes) {
        Ok(inverse) => {
            seal.images.keep(missing);
            Ok(inverse)
        }
        Err(refusal) => {
            seal.first.take_back(req.client, is_first);
            Err(refusal)
        }
    }
}

/// The places between which an edit changes bytes.
fn span(blocks: &Blocks, op: Op, bytes: &[u8]) -> (u64, u64)
    ensures start { result.0 ≡ start_of op blocks.now }
    ensures end { (long : ℕ) → long ≤ 67108864 → min result.1 long ≡ min (end_of op bytes.now blocks.now) long }
    ensures stored { IsStored blocks.now }
    ensures within { start_of op blocks.now ≤ length blocks.now.bytes }
    ensures order { start_of op blocks.now ≤ end_of op bytes.now blocks.now }
{
    let held = blocks.len();
    let capacity = blocks.capacity();
    let many = bytes.len() as u64;
    match op {
        Op::Write(offset) => (offset.min(held), offset.saturating_add(many)),
        Op::Append => (held, held + many),
        Op::Pad => (held, capacity),
    }
}

/// Whether a replica has its sealed count.
fn is_at(live: &Live, seal: &Seal) -> bool
    ensures { result ≡ (live.now.count == seal.now.count) }
{
    live.count() == seal.count
}

/// Takes the last edit of a sealed replica back, and leaves its images.
pub(crate) fn undo_sealed(
    live: &mut Live,
    seal: &Seal,
    inverse: &ReplicaInverse,
) -> Result<(), Refusal>
    requires belongs { Belongs live.old seal.now }
    ensures undo { Does (undo inverse.now (state_of live.old seal.now)) result (state_of live.old seal.now) (state_of live.new seal.now) }
    ensures belongs { Belongs live.new seal.now }
{
    if is_at(live, seal) {
        return Err(Refusal::BadLine);
    }
    if !seal.first.fits(inverse.client, inverse.before) {
        return Err(Refusal::BadLine);
    }
    if !seal.images.covers(live.blocks(), &inverse.blocks) {
        return Err(Refusal::BadLine);
    }
    live.undo(inverse)
}

/// Adds 1 modulo 256 to the first byte of a block of a sealed replica.
pub(crate) fn damage_sealed(live: &mut Live, seal: &Seal, block: u64) -> Result<(), Refusal>
    requires belongs { Belongs live.old seal.now }
    ensures damage { Does (damage block (state_of live.old seal.now)) result (state_of live.old seal.now) (state_of live.new seal.now) }
    ensures others { KeepsOthers result block live.old.chunk live.new.chunk }
    ensures belongs { Belongs live.new seal.now }
{
    live.damage(block)
}

/// What undoing gives, as a copy carries it. Every block of it is verified first: `Damaged` names the lowest without its
/// sealed digest.
pub(crate) fn sealed_image(live: &Live, seal: &Seal) -> Result<SealedImage, Refusal>
    requires belongs { Belongs live.now seal.now }
    ensures { Makes (sealed_image_of (Some (seen live.now seal.now))) result }
{
    let BlockParts { bytes, digests } = live.blocks().copy_before(&seal.images)?.into_parts();
    let image = Image {
        bytes,
        count: seal.count,
        done: live.done_table().copy_before(&seal.first)?,
    };
    Ok(SealedImage {
        image,
        stamp: seal.stamp,
        digests,
    })
}

/// How many bytes the first images hold.
pub(crate) fn image_bytes(live: &Live, seal: &Seal) -> u64
    requires belongs { Belongs live.now seal.now }
    ensures bytes { result ≡ images_of (Some (seen live.now seal.now)) }
    ensures at_most { result ≤ sealed_length (Some (seen live.now seal.now)) }
{
    seal.images.held(live.blocks())
}
