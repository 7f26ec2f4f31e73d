// Texts and bytes, with their length in front.
ghost use Rattle.gs_fields.specs.Reading.{text_at, long_bytes_at};
ghost use Rattle.gs_fields.specs.Work.{DecodesAs, Puts};
ghost use Rattle.gs_fields.specs.Encoding.{text, long_bytes};
ghost use Rattle.gs_fields.specs.Writable.{IsText, AreLongBytes};

use crate::fault::Fault;
use crate::field::{Cursor, Field, read_u16, take};
use std::alloc::Global;

/// Takes the text at the front, whose length has two bytes.
#[tactic(auto, unfolding(crate::specs::Reading::text_at))]
pub fn read_text<'a>(cursor: &mut Cursor<'a>) -> Result<&'a str, Fault>
    ensures { DecodesAs (λ x. x.now) result cursor.new.rest.now (text_at cursor.old.rest.now) }
{
    let length = read_u16(cursor)?;
    let text = take(cursor, usize::from(length))?;
    match str::from_utf8(text) {
        Ok(text) => Ok(text),
        Err(_) => Err(Fault::Form),
    }
}

/// Writes a text at the end, if its length fits two bytes.
#[tactic(auto, using(crate::proofs::Steps::told_utf8))]
pub fn put_text(out: &mut Vec<u8>, content: &str) -> Result<(), Fault>
    ensures { Puts (IsText content.now) (text content.now) out.old.items out.new.items result }
{
    if content.len() > 65535 {
        return Err(Fault::Form);
    }
    out.extend_from_slice(&(content.len() as u16).to_be_bytes())?;
    out.extend_from_slice(content.as_bytes())?;
    Ok(())
}

/// Takes the bytes at the front, whose length has eight bytes.
#[tactic(auto, unfolding(crate::specs::Reading::long_bytes_at))]
pub fn read_bytes<'a>(alloc: Global, cursor: &mut Cursor<'a>) -> Result<&'a [u8], Fault>
    ensures { DecodesAs (λ x. x.now) result cursor.new.rest.now (long_bytes_at cursor.old.rest.now) }
{
    let length = u64::read(alloc, cursor)?;
    take(cursor, length as usize)
}

/// Writes bytes at the end, behind their length.
pub fn put_bytes(bytes: &[u8], alloc: Global, out: &mut Vec<u8>) -> Result<(), Fault>
    ensures { Puts (AreLongBytes bytes.now) (long_bytes bytes.now) out.old.items out.new.items result }
{
    let length = bytes.len() as u64;
    length.put(alloc, out)?;
    out.extend_from_slice(bytes)?;
    Ok(())
}
