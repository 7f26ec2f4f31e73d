// Parts as an image.
ghost use Rattle.std.specs.Prelude.{◌≡◌, ◌≤◌, ◌++◌, ◌∷◌, [], length, take, drop, IfOk, OnOk};
ghost use Rattle.gs_image.specs.Images.{AreParts, number, part_written, written};

use byteorder::{BigEndian, ByteOrder};
use sha2::{Digest as _, Sha256};
use std::alloc::{AllocError, Global};
use std::marker::Model;

/// What stands before the number of parts.
const FIRST_LINE: &[u8; 19] = b"chunkstore image 1\n";

/// Writes an image, part by part, and holds the parts so far. A call that finds no memory uses it up.
#[derive(Drop)]
pub struct ImageWriter {
    bytes: Vec<u8>,
    count: u64,
}

impl Model for ImageWriter {
    ghost use Rattle.std.specs.Prelude.{ℕ, List};
    ghost use Rattle.gs_image.specs.inner.Held.{IsHeld, held};

    ghost Value = { List (List ℕ) };

    ghost view = { λ w. held w.count w.bytes.items };

    ghost invariant = { λ w. IsHeld w.count w.bytes.items };
}

/// Puts a part at the end.
fn put_part(bytes: &mut Vec<u8>, part: &[u8]) -> Result<(), AllocError>
    ensures { OnOk result (bytes.new.items ≡ bytes.old.items ++ part_written part.now) }
{
    let mut length = [0; 8];
    BigEndian::write_u64(&mut length, part.len() as u64);
    let digest: [u8; 32] = Sha256::digest(part);
    bytes.extend_from_slice(&length)?;
    bytes.extend_from_slice(part)?;
    bytes.extend_from_slice(&digest)?;
    Ok(())
}

/// Puts the number of parts in its place.
fn put_count(bytes: &mut [u8], count: u64)
    requires { 27 ≤ length bytes.old }
    ensures { bytes.new ≡ take 19 bytes.old ++ (number count ++ drop 27 bytes.old) }
{
    BigEndian::write_u64(&mut bytes[19..], count);
}

impl ImageWriter {
    /// One without a part.
    pub fn new(alloc: Global) -> Result<ImageWriter, AllocError>
        ensures { IfOk result (λ w. w ≡ []) }
    {
        let mut bytes = Vec::new(alloc);
        bytes.extend_from_slice(FIRST_LINE)?;
        bytes.extend_from_slice(&[0; 8])?;
        Ok(ImageWriter { bytes, count: 0 })
    }

    /// With a part more.
    pub fn with(self, part: &[u8]) -> Result<ImageWriter, AllocError>
        ensures { IfOk result (λ w. w ≡ self ++ part.now ∷ []) }
    {
        let ImageWriter { mut bytes, count } = self;
        put_part(&mut bytes, part)?;
        Ok(ImageWriter {
            bytes,
            count: count + 1,
        })
    }

    /// The image of the parts.
    pub fn finish(self) -> Result<Vec<u8>, AllocError>
        ensures image { IfOk result (λ bytes. bytes.items ≡ written self) }
        ensures parts { IfOk result (λ bytes. AreParts self) }
    {
        let ImageWriter { mut bytes, count } = self;
        put_count(&mut bytes, count);
        let digest: [u8; 32] = Sha256::digest(bytes.as_slice());
        bytes.extend_from_slice(&digest)?;
        Ok(bytes)
    }
}
