// What takes a replica back to where it was sealed.
ghost use Rattle.gs_fields.specs.Encoding.{option};
ghost use Rattle.gs_fields.specs.Reading.{option_at};
ghost use Rattle.gs_fields.specs.Work.{DecodesAs, Puts};
ghost use Rattle.gs_fields.specs.Writable.{IsOption};
ghost use Rattle.gs_store_image.specs.Encoding.{taken_back, seal_counted, seals_of};
ghost use Rattle.gs_store_image.specs.Encoding as written;
ghost use Rattle.gs_store_image.specs.Writable.{IsTakenBack, IsSealCounted, IsSeal};
ghost use Rattle.gs_store_image.specs.Reading.{seal_at};

use crate::first::{put_first, read_first};
use crate::images::{put_images, read_images};
use gs_base::Stamp;
use gs_fields::{Cursor, Fault, Field};
use gs_replica::{Replica, Seal};
use std::alloc::Global;

/// Takes a seal at the front.
#[tactic(auto, unfolding(crate::specs::Reading::seal_at))]
fn read_seal(alloc: Global, cursor: &mut Cursor<'_>) -> Result<Seal, Fault>
    ensures { DecodesAs (λ s. s) result cursor.new.rest.now (seal_at cursor.old.rest.now) }
{
    let stamp = Stamp::read(alloc, cursor)?;
    let count = u64::read(alloc, cursor)?;
    let images = read_images(alloc, cursor)?;
    let first = read_first(alloc, cursor)?;
    Ok(Seal::new(stamp, count, images, first))
}

/// Takes at the front a seal, if there is one.
#[tactic(auto, unfolding(gs_fields::specs::Reading::option_at))]
pub(crate) fn read_seal_in(alloc: Global, cursor: &mut Cursor<'_>) -> Result<Option<Seal>, Fault>
    ensures { DecodesAs (λ s. s) result cursor.new.rest.now (option_at seal_at cursor.old.rest.now) }
{
    match u8::read(alloc, cursor)? {
        0 => Ok(None),
        1 => Ok(Some(read_seal(alloc, cursor)?)),
        _ => Err(Fault::Form),
    }
}

/// Writes the images and the first entries of a seal at the end.
fn put_taken_back(seal: &Seal, alloc: Global, out: &mut Vec<u8>) -> Result<(), Fault>
    ensures { Puts (IsTakenBack seal.now) (taken_back seal.now) out.old.items out.new.items result }
{
    put_images(seal.images(), alloc, out)?;
    put_first(seal.first(), alloc, out)
}

/// Writes at the end what a seal has behind its stamp.
fn put_seal_counted(seal: &Seal, alloc: Global, out: &mut Vec<u8>) -> Result<(), Fault>
    ensures { Puts (IsSealCounted seal.now) (seal_counted seal.now) out.old.items out.new.items result }
{
    seal.count().put(alloc, out)?;
    put_taken_back(seal, alloc, out)
}

/// Writes a seal at the end.
fn put_seal(seal: &Seal, alloc: Global, out: &mut Vec<u8>) -> Result<(), Fault>
    ensures { Puts (IsSeal seal.now) (written.seal seal.now) out.old.items out.new.items result }
{
    seal.stamp().put(alloc, out)?;
    put_seal_counted(seal, alloc, out)
}

/// Writes the seal of a replica at the end, where it is sealed.
pub(crate) fn put_seal_of(replica: &Replica, alloc: Global, out: &mut Vec<u8>) -> Result<(), Fault>
    ensures { Puts (IsOption IsSeal (seals_of replica.now.sealed)) (option written.seal (seals_of replica.now.sealed)) out.old.items out.new.items result }
{
    match replica.seal_parts() {
        None => {
            out.push(0)?;
            Ok(())
        }
        Some(seal) => {
            out.push(1)?;
            put_seal(seal, alloc, out)
        }
    }
}
