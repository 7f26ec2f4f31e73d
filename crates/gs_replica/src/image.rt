ghost use Rattle.std.specs.Prelude.{◌≡◌, ◌↔◌, IsTrue, IfOk};
ghost use Rattle.gs_base.specs.declared.numbers.Stamp.{Stamp};
ghost use Rattle.gs_base.specs.Calls.{Foretells};
ghost use Rattle.gs_replica.specs.Copies.{of_image, of_sealed};

use crate::done::DoneTable;
use gs_base::{Refusal, Stamp};
use gs_block::{Blocks, Digest, Sizes};
use std::alloc::{AllocError, Global};
use std::marker::Model;

/// What a copy carries of a replica as it stands: its bytes, how many edits it has applied, and each client's last applied
/// request.
#[derive(Debug, Drop)]
pub struct Image {
    pub(crate) bytes: Vec<u8>,
    pub(crate) count: u64,
    pub(crate) done: DoneTable,
}

impl Model for Image {
    ghost use Rattle.gs_replica.specs.Copies.{Image, coded_image};

    ghost Value = { Image };

    ghost coded = { coded_image };

    ghost view = { λ i. record { bytes = i.bytes.items; count = i.count; done = i.done } };
}

impl Image {
    /// An image of these bytes, this count and these requests.
    pub fn new(bytes: Vec<u8>, count: u64, done: DoneTable) -> Image
        ensures { result ≡ record { bytes = bytes.items; count = count; done = done } }
    {
        Image { bytes, count, done }
    }

    /// Whether a replica of these sizes can be made of the image: it is refused `Range` exactly as `Replica::of` would be. It
    /// takes no memory.
    pub fn judge(&self, sizes: Sizes) -> Result<(), Refusal>
        ensures { (stamp : Stamp) → Foretells (of_image sizes.block sizes.chunk stamp self.now) result }
    {
        Blocks::judge_bytes(sizes, &self.bytes)
    }

    /// A copy of the image.
    pub fn copy(&self, alloc: Global) -> Result<Image, AllocError>
        ensures { IfOk result (λ image. image ≡ self.now) }
    {
        Ok(Image {
            bytes: Vec::from_slice(alloc, &self.bytes)?,
            count: self.count,
            done: self.done.copy()?,
        })
    }

    /// Whether another image is the same.
    pub fn is_same(&self, other: &Image) -> bool
        ensures { IsTrue result ↔ (self.now ≡ other.now) }
    {
        self.count == other.count
            && self.bytes.as_slice() == other.bytes.as_slice()
            && self.done.is_same(&other.done)
    }

    pub fn bytes(&self) -> &[u8]
        ensures { result.now ≡ self.now.bytes }
    {
        &self.bytes
    }

    /// How many edits are applied.
    pub fn count(&self) -> u64
        ensures { result ≡ self.now.count }
    {
        self.count
    }

    /// Each client's last applied request.
    pub fn done_table(&self) -> &DoneTable
        ensures { result.now ≡ self.now.done }
    {
        &self.done
    }
}

/// What a copy carries beside the image of a sealed replica: what undoing gives, the promise that stood when it was sealed,
/// and the digests as sealed.
#[derive(Debug, Drop)]
pub struct SealedImage {
    pub(crate) image: Image,
    pub(crate) stamp: Stamp,
    pub(crate) digests: Vec<Digest>,
}

impl Model for SealedImage {
    ghost use Rattle.gs_replica.specs.Copies.{SealedImage, coded_sealed_image};

    ghost Value = { SealedImage };

    ghost coded = { coded_sealed_image };

    ghost view = { λ i. record { image = i.image; stamp = i.stamp; digests = i.digests.items } };
}

impl SealedImage {
    /// An image that was sealed under a promise, with its digests then.
    pub fn new(image: Image, stamp: Stamp, digests: Vec<Digest>) -> SealedImage
        ensures { result ≡ record { image = image; stamp = stamp; digests = digests.items } }
    {
        SealedImage {
            image,
            stamp,
            digests,
        }
    }

    /// Whether a replica of these sizes can be made of the image: it is refused `Range` and `BadLine` exactly as
    /// `Replica::of_sealed` would be. It takes no memory.
    pub fn judge(&self, sizes: Sizes) -> Result<(), Refusal>
        ensures { Foretells (of_sealed sizes.block sizes.chunk self.now) result }
    {
        Blocks::judge_parts(sizes, &self.image.bytes, &self.digests)
    }

    /// A copy of the image.
    pub fn copy(&self, alloc: Global) -> Result<SealedImage, AllocError>
        ensures { IfOk result (λ image. image ≡ self.now) }
    {
        Ok(SealedImage {
            image: self.image.copy(alloc)?,
            stamp: self.stamp,
            digests: Vec::from_slice(alloc, &self.digests)?,
        })
    }

    /// Whether another image is the same.
    pub fn is_same(&self, other: &SealedImage) -> bool
        ensures { IsTrue result ↔ (self.now ≡ other.now) }
    {
        self.stamp == other.stamp
            && are_same(&self.digests, &other.digests)
            && self.image.is_same(&other.image)
    }

    /// What undoing gives.
    pub fn image(&self) -> &Image
        ensures { result.now ≡ self.now.image }
    {
        &self.image
    }

    /// The promise that stood when the replica was sealed.
    pub fn stamp(&self) -> Stamp
        ensures { result ≡ self.now.stamp }
    {
        self.stamp
    }

    /// The sealed digests, one for each block.
    pub fn digests(&self) -> &[Digest]
        ensures { result.now ≡ self.now.digests }
    {
        &self.digests
    }
}

/// Whether digests are the same in the same order.
fn are_same(left: &[Digest], right: &[Digest]) -> bool
    ensures { IsTrue result ↔ (left.now ≡ right.now) }
{
    left == right
}
