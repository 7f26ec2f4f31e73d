ghost use Rattle.std.specs.Prelude.{◌≡◌, ◌≤◌, ◌<◌, ◌+◌, ◌-◌, ◌*◌, ◌/◌, ◌%◌, ◌++◌, length, take, drop, replicate, if◌then◌else◌, is_ok, min, IfOk};
ghost use Rattle.sha2.specs.Hashers.{Holds256};
ghost use Rattle.gs_block.specs.Chunk.{written};
ghost use Rattle.gs_block.specs.Stored.{count_of};
ghost use Rattle.gs_block.specs.Inverses.{replaced};
ghost use Rattle.gs_block.specs.Inside.{digests_anew};

use crate::digests::{Digest, count_of, digest_anew};
use sha2::Sha256;
use std::alloc::{AllocError, Global};

/// Puts items over as many others.
pub(crate) fn put_over<T: Copy + Drop>(items: &mut Vec<T>, at: usize, piece: &[T])
    requires { at + length piece.now ≤ length items.old.items }
    ensures { items.new.items ≡ replaced items.old.items at piece.now }
{
    items[at..at + piece.len()].copy_from_slice(piece);
}

/// A copy of the items from one place on and below another, as far as there are items.
pub(crate) fn copy_of_part<T: Copy + Drop>(
    alloc: Global,
    items: &[T],
    start: usize,
    end: usize,
) -> Result<Vec<T>, AllocError>
    requires order { start ≤ end }
    requires within { start ≤ length items.now }
    ensures { IfOk result (λ part. part.items ≡ take (end - start) (drop start items.now)) }
{
    let end = end.min(items.len());
    Vec::from_slice(alloc, &items[start..end])
}

/// Makes room for so many bytes and blocks: zeros behind what stands there.
fn grow(
    bytes: &mut Vec<u8>,
    digests: &mut Vec<Digest>,
    long: usize,
    count: usize,
) -> Result<(), AllocError>
    ensures bytes { bytes.new.items ≡ (if is_ok result then bytes.old.items ++ replicate (long - length bytes.old.items) 0 else bytes.old.items) }
    ensures digests { digests.new.items ≡ (if is_ok result then digests.old.items ++ replicate (count - length digests.old.items) (replicate 32 0) else digests.old.items) }
{
    let (held, known) = (bytes.len(), digests.len());
    digests.resize(count.max(known), [0; 32])?;
    match bytes.resize(long.max(held), 0) {
        Ok(()) => Ok(()),
        Err(refused) => {
            digests.truncate(known);
            Err(refused)
        }
    }
}

/// Writes a piece at an offset and takes the digests of the blocks anew that have a byte from `at` on and below its end. The
/// hasher holds what stands before `at` in its block.
pub(crate) fn write_anew(
    hasher: Sha256,
    bytes: &mut Vec<u8>,
    size: usize,
    digests: &mut Vec<Digest>,
    offset: usize,
    piece: &[u8],
) -> Result<(), AllocError>
    requires some { 1 ≤ size }
    requires size_fits { size ≤ 65536 }
    requires bytes_fit { length bytes.old.items ≤ 67108864 }
    requires end_fits { offset + length piece.now ≤ 67108864 }
    requires each { length digests.old.items ≡ count_of size (length bytes.old.items) }
    requires hasher { Holds256 hasher (take (min offset (length bytes.old.items) % size) (drop (min offset (length bytes.old.items) / size * size) bytes.old.items)) }
    ensures bytes { bytes.new.items ≡ (if is_ok result then written offset piece.now bytes.old.items else bytes.old.items) }
    ensures digests { digests.new.items ≡ (if is_ok result then digests_anew size offset piece.now bytes.old.items digests.old.items else digests.old.items) }
    ensures each { length digests.new.items ≡ count_of size (length bytes.new.items) }
{
    let at = offset.min(bytes.len());
    let end = offset + piece.len();
    grow(bytes, digests, end, count_of(size, end))?;
    put_over(bytes, offset, piece);
    digest_anew(hasher, bytes, size, digests, at, end);
    Ok(())
}
