// First images of blocks, with the length and the digests as sealed.
ghost use Rattle.std.specs.Prelude.{◌++◌, flat_map};
ghost use Rattle.std.specs.List.{AllByRecursion};
ghost use Rattle.gs_fields.specs.Encoding.{long_bytes, long_list, option};
ghost use Rattle.gs_fields.specs.Reading.{times, long_bytes_at, long_list_at, option_at};
ghost use Rattle.gs_fields.specs.Work.{DecodesAs, Puts};
ghost use Rattle.gs_fields.specs.Writable.{AreLongBytes, AreLongItems, IsOption};
ghost use Rattle.gs_store_image.specs.Encoding as written;
ghost use Rattle.gs_store_image.specs.Writable.{AreDigests, AreImages};
ghost use Rattle.gs_store_image.specs.Reading.{images_at};

use crate::replica::put_digests;
use gs_block::{Image, Images};
use gs_fields::{Cursor, Fault, Field, put_bytes, read_bytes, read_long_list};
use std::alloc::Global;

/// Takes the first image of a block at the front, if it has one.
#[tactic(auto, unfolding(gs_fields::specs::Reading::option_at))]
fn read_image(alloc: Global, cursor: &mut Cursor<'_>) -> Result<Option<Image>, Fault>
    ensures { DecodesAs (λ i. i) result cursor.new.rest.now (option_at long_bytes_at cursor.old.rest.now) }
{
    match u8::read(alloc, cursor)? {
        0 => Ok(None),
        1 => {
            let bytes = Vec::from_slice(alloc, read_bytes(alloc, cursor)?)?;
            Ok(Some(Image::new(bytes)))
        }
        _ => Err(Fault::Form),
    }
}

/// Takes the first images of so many blocks from the front.
fn read_blocks(
    alloc: Global,
    cursor: &mut Cursor<'_>,
    count: u64,
) -> Result<Vec<Option<Image>>, Fault>
    ensures { DecodesAs (λ v. v.items) result cursor.new.rest.now (times (option_at long_bytes_at) count cursor.old.rest.now) }
{
    let mut blocks = Vec::new(alloc);
    for _ in 0..count {
        let image = read_image(alloc, cursor)?;
        blocks.push(image)?;
    }
    Ok(blocks)
}

/// Takes the first images of blocks at the front.
#[tactic(auto, unfolding(gs_fields::specs::Reading::long_list_at))]
fn read_all_blocks(alloc: Global, cursor: &mut Cursor<'_>) -> Result<Vec<Option<Image>>, Fault>
    ensures { DecodesAs (λ v. v.items) result cursor.new.rest.now (long_list_at (option_at long_bytes_at) cursor.old.rest.now) }
{
    let count = u64::read(alloc, cursor)?;
    read_blocks(alloc, cursor, count)
}

/// Takes images at the front.
#[tactic(auto, using(crate::proofs::Replicas::as_it_is), unfolding(crate::specs::Reading::images_at))]
pub(crate) fn read_images(alloc: Global, cursor: &mut Cursor<'_>) -> Result<Images, Fault>
    ensures { DecodesAs (λ i. i) result cursor.new.rest.now (images_at cursor.old.rest.now) }
{
    let long = u64::read(alloc, cursor)?;
    let digests = read_long_list(alloc, cursor)?;
    let blocks = read_all_blocks(alloc, cursor)?;
    Ok(Images::of(alloc, long, digests, blocks))
}

/// Writes at the end the first image of a block, if it has one.
fn put_image(image: &Option<Image>, alloc: Global, out: &mut Vec<u8>) -> Result<(), Fault>
    ensures { Puts (IsOption AreLongBytes image.now) (option long_bytes image.now) out.old.items out.new.items result }
{
    match image {
        None => {
            out.push(0)?;
            Ok(())
        }
        Some(image) => {
            out.push(1)?;
            put_bytes(image.bytes(), alloc, out)
        }
    }
}

/// Writes the first images of blocks at the end, without their count.
fn put_blocks(blocks: &[Option<Image>], alloc: Global, out: &mut Vec<u8>) -> Result<(), Fault>
    ensures { Puts (AllByRecursion (IsOption AreLongBytes) blocks.now) (flat_map (option long_bytes) blocks.now) out.old.items out.new.items result }
{
    for image in blocks {
        put_image(image, alloc, out)?;
    }
    Ok(())
}

/// Writes the first images of blocks at the end.
fn put_all_blocks(blocks: &[Option<Image>], alloc: Global, out: &mut Vec<u8>) -> Result<(), Fault>
    ensures { Puts (AreLongItems (IsOption AreLongBytes) blocks.now) (long_list (option long_bytes) blocks.now) out.old.items out.new.items result }
{
    let count = blocks.len() as u64;
    count.put(alloc, out)?;
    put_blocks(blocks, alloc, out)
}

/// Writes the digests and the first images at the end.
fn put_sealed(images: &Images, alloc: Global, out: &mut Vec<u8>) -> Result<(), Fault>
    ensures { Puts (AreDigests images.now.digests × AreLongItems (IsOption AreLongBytes) images.now.blocks) (written.digests images.now.digests ++ long_list (option long_bytes) images.now.blocks) out.old.items out.new.items result }
{
    put_digests(images.digests(), alloc, out)?;
    put_all_blocks(images.blocks(), alloc, out)
}

/// Writes images at the end.
pub(crate) fn put_images(images: &Images, alloc: Global, out: &mut Vec<u8>) -> Result<(), Fault>
    ensures { Puts (AreImages images.now) (written.images images.now) out.old.items out.new.items result }
{
    images.long().put(alloc, out)?;
    put_sealed(images, alloc, out)
}
