// An image as its parts.
ghost use Rattle.std.specs.Prelude.{◌≡◌, ◌⊎◌, IfErr};
ghost use Rattle.gs_image.specs.Refused.{IsNoImage, Reads};
ghost use Rattle.gs_image.specs.inner.Found.{FindsEnd, FindsFront, FindsPart, FindsParts};

use crate::fault::ImageFault;
use byteorder::{BigEndian, ByteOrder};
use sha2::{Digest as _, Sha256};
use std::alloc::Global;

/// How many parts there are, and the bytes behind that.
#[derive(Clone, Copy)]
struct Front<'a> {
    count: u64,
    rest: &'a [u8],
}

/// A part, and the bytes behind it.
#[derive(Clone, Copy)]
struct Part<'a> {
    bytes: &'a [u8],
    rest: &'a [u8],
}

/// All parts, and the bytes behind them.
#[derive(Drop)]
struct Parts<'a> {
    parts: Vec<&'a [u8]>,
    rest: &'a [u8],
}

/// What stands in front of the parts.
fn front_of(bytes: &[u8]) -> Result<Front<'_>, ImageFault>
    ensures { FindsFront result bytes.now }
{
    if bytes.len() < 27 {
        return Err(ImageFault::ShortFront);
    }
    if &bytes[..17] != b"chunkstore image ".as_slice() {
        return Err(ImageFault::Magic);
    }
    if &bytes[17..19] != b"1\n".as_slice() {
        return Err(ImageFault::Version);
    }
    Ok(Front {
        count: BigEndian::read_u64(&bytes[19..]),
        rest: &bytes[27..],
    })
}

/// The part at the front, which is the one of this number.
fn part_at(bytes: &[u8], index: u64) -> Result<Part<'_>, ImageFault>
    ensures { FindsPart index result bytes.now }
{
    if bytes.len() < 40 {
        return Err(ImageFault::PartLength(index));
    }
    let length = BigEndian::read_u64(bytes) as usize;
    if bytes.len() - 40 < length {
        return Err(ImageFault::PartLength(index));
    }
    let part = &bytes[8..8 + length];
    let digest: [u8; 32] = Sha256::digest(part);
    if &bytes[8 + length..40 + length] != digest.as_slice() {
        return Err(ImageFault::PartDigest(index));
    }
    Ok(Part {
        bytes: part,
        rest: &bytes[40 + length..],
    })
}

/// So many parts.
fn parts_at(alloc: Global, bytes: &[u8], count: u64) -> Result<Parts<'_>, ImageFault>
    ensures { FindsParts count result bytes.now }
{
    let mut parts = Vec::new(alloc);
    let mut rest = bytes;
    for index in 0..count {
        let found = part_at(rest, index)?;
        parts.push(found.bytes)?;
        rest = found.rest;
    }
    Ok(Parts { parts, rest })
}

/// Judges what stands behind all parts.
fn judge_end(before: &[u8], rest: &[u8]) -> Result<(), ImageFault>
    ensures { FindsEnd result before.now rest.now }
{
    if rest.len() < 32 {
        return Err(ImageFault::ShortEnd);
    }
    let digest: [u8; 32] = Sha256::digest(before);
    if &rest[..32] != digest.as_slice() {
        return Err(ImageFault::Digest);
    }
    if rest.len() > 32 {
        return Err(ImageFault::Behind);
    }
    Ok(())
}

/// The parts of an image, with why bytes are none.
fn read_parts(alloc: Global, bytes: &[u8]) -> Result<Vec<&[u8]>, ImageFault>
    ensures { Reads result bytes.now }
{
    let front = front_of(bytes)?;
    let found = parts_at(alloc, front.rest, front.count)?;
    let before = &bytes[..bytes.len() - found.rest.len()];
    judge_end(before, found.rest)?;
    Ok(found.parts)
}

/// The parts of an image, which point into it: no byte is copied. What is refused is the image of no parts, and the fault says
/// what is wrong with the first thing that is.
pub fn read(alloc: Global, bytes: &[u8]) -> Result<Vec<&[u8]>, ImageFault>
    ensures read { Reads result bytes.now }
    ensures refused { IfErr result (λ f. (f ≡ ImageFault.Memory) ⊎ IsNoImage bytes.now) }
{
    read_parts(alloc, bytes)
}
