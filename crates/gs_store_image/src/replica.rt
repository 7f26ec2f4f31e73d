// A replica as it stands, and its seal, where it is sealed.
ghost use Rattle.gs_fields.specs.Work.{DecodesAs, Puts};
ghost use Rattle.gs_replica.specs.Parts.{stands_as};
ghost use Rattle.gs_store_image.specs.Encoding.{parts, counted, told, blocks, digests};
ghost use Rattle.gs_store_image.specs.Encoding as written;
ghost use Rattle.gs_store_image.specs.Writable.{AreParts, AreCounted, AreTold, AreBlocks, AreDigests, IsTold};
ghost use Rattle.gs_store_image.specs.Reading.{blocks_at, parts_at, replica_at};

use crate::seal::{put_seal_of, read_seal_in};
use crate::table::{put_table, read_table};
use gs_base::Stamp;
use gs_block::{Digest, Sizes};
use gs_fields::{Cursor, Fault, Field, put_bytes, put_long_list, read_bytes, read_long_list};
use gs_replica::{Image, Replica, SealedImage};
use std::alloc::Global;

/// Takes the bytes and the digests at the front.
#[tactic(auto, using(crate::proofs::Replicas::as_it_is), unfolding(crate::specs::Reading::blocks_at))]
fn read_blocks(alloc: Global, cursor: &mut Cursor<'_>) -> Result<(Vec<u8>, Vec<Digest>), Fault>
    ensures { DecodesAs (λ b. (b.0.items, b.1.items)) result cursor.new.rest.now (blocks_at cursor.old.rest.now) }
{
    let bytes = Vec::from_slice(alloc, read_bytes(alloc, cursor)?)?;
    let digests = read_long_list(alloc, cursor)?;
    Ok((bytes, digests))
}

/// Takes the parts of a replica at the front.
#[tactic(auto, unfolding(crate::specs::Reading::parts_at))]
fn read_parts(alloc: Global, cursor: &mut Cursor<'_>) -> Result<SealedImage, Fault>
    ensures { DecodesAs (λ i. i) result cursor.new.rest.now (parts_at cursor.old.rest.now) }
{
    let stamp = Stamp::read(alloc, cursor)?;
    let count = u64::read(alloc, cursor)?;
    let done = read_table(alloc, cursor)?;
    let (bytes, digests) = read_blocks(alloc, cursor)?;
    Ok(SealedImage::new(Image::new(bytes, count, done), stamp, digests))
}

/// Takes a replica at the front, in a chunk of these sizes. `Form` also where the bytes pass the size of the chunk, where the
/// digests are not as many as the blocks, and where the seal is not one of what stands. No block is verified.
#[tactic(auto, unfolding(crate::specs::Reading::replica_at))]
pub fn read_replica(alloc: Global, sizes: Sizes, cursor: &mut Cursor<'_>) -> Result<Replica, Fault>
    ensures { DecodesAs (λ r. r) result cursor.new.rest.now (replica_at sizes.block sizes.chunk cursor.old.rest.now) }
{
    let stands = read_parts(alloc, cursor)?;
    let seal = read_seal_in(alloc, cursor)?;
    match Replica::of_parts(alloc, sizes, stands, seal) {
        Ok(replica) => Ok(replica),
        Err(_refusal) => Err(Fault::Form),
    }
}

/// Writes digests at the end.
#[tactic(auto, using(crate::proofs::Replicas::as_it_is))]
pub(crate) fn put_digests(list: &[Digest], alloc: Global, out: &mut Vec<u8>) -> Result<(), Fault>
    ensures { Puts (AreDigests list.now) (digests list.now) out.old.items out.new.items result }
{
    put_long_list(list, alloc, out)
}

/// Writes the bytes and the digests of a replica at the end.
fn put_blocks(replica: &Replica, alloc: Global, out: &mut Vec<u8>) -> Result<(), Fault>
    ensures { Puts (AreBlocks (stands_as replica.now.held)) (blocks (stands_as replica.now.held)) out.old.items out.new.items result }
{
    put_bytes(replica.bytes(), alloc, out)?;
    put_digests(replica.digests(), alloc, out)
}

/// Writes at the end what a replica has behind its count.
fn put_told(replica: &Replica, alloc: Global, out: &mut Vec<u8>) -> Result<(), Fault>
    ensures { Puts (AreTold (stands_as replica.now.held)) (told (stands_as replica.now.held)) out.old.items out.new.items result }
{
    put_table(replica.done_table(), alloc, out)?;
    put_blocks(replica, alloc, out)
}

/// Writes at the end what a replica has behind its promise.
fn put_counted(replica: &Replica, alloc: Global, out: &mut Vec<u8>) -> Result<(), Fault>
    ensures { Puts (AreCounted (stands_as replica.now.held)) (counted (stands_as replica.now.held)) out.old.items out.new.items result }
{
    replica.count().put(alloc, out)?;
    put_told(replica, alloc, out)
}

/// Writes at the end a replica as it stands, without its seal.
fn put_parts(replica: &Replica, alloc: Global, out: &mut Vec<u8>) -> Result<(), Fault>
    ensures { Puts (AreParts (stands_as replica.now.held)) (parts (stands_as replica.now.held)) out.old.items out.new.items result }
{
    replica.promised().put(alloc, out)?;
    put_counted(replica, alloc, out)
}

/// Writes a replica at the end, with its seal, where it is sealed. No block is verified.
pub fn put_replica(replica: &Replica, alloc: Global, out: &mut Vec<u8>) -> Result<(), Fault>
    ensures { Puts (IsTold replica.now) (written.replica replica.now) out.old.items out.new.items result }
{
    put_parts(replica, alloc, out)?;
    put_seal_of(replica, alloc, out)
}
