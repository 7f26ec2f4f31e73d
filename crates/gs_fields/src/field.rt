// Fields, and those of one number.
ghost use Rattle.std.specs.Prelude.{◌<◌, ◌^◌, List, ℕ, take};
ghost use Rattle.std.specs.Int.{w16, w32, w64};
ghost use Rattle.byteorder.specs.Endian.{big_bytes};
ghost use Rattle.gs_fields.specs.Encoding.{number};
ghost use Rattle.gs_fields.specs.Reading.{Reader, byte_at, number_at, bytes_at};
ghost use Rattle.gs_fields.specs.Laws.{Reads};
ghost use Rattle.gs_fields.specs.Work.{DecodesAs, Puts};

use crate::fault::Fault;
use std::alloc::Global;

/// What is left of some bytes.
#[derive(Drop)]
pub struct Cursor<'a> {
    pub rest: &'a [u8],
}

/// What is written as bytes, and read from the front of bytes.
pub trait Field: Sized {
    /// What is seen of a value.
    ghost Plain: { Type 0 };

    ghost plain: { Self → Plain };

    /// What can be written.
    ghost Is: { Plain → Type 0 };

    ghost written: { Plain → List ℕ };

    ghost reading: { Reader Plain };

    /// Takes the value at the front.
    fn read(alloc: Global, cursor: &mut Cursor<'_>) -> Result<Self, Fault>
        ensures { DecodesAs plain result cursor.new.rest.now (reading cursor.old.rest.now) };

    /// Writes the value at the end.
    fn put(&self, alloc: Global, out: &mut Vec<u8>) -> Result<(), Fault>
        ensures { Puts (Is (plain self.now)) (written (plain self.now)) out.old.items out.new.items result };

    /// It is read as it is written.
    ghost reads: { Reads Is written reading };
}

/// Takes as many bytes from the front.
#[tactic(auto, unfolding(crate::specs::Reading::bytes_at))]
pub fn take<'a>(cursor: &mut Cursor<'a>, n: usize) -> Result<&'a [u8], Fault>
    ensures { DecodesAs (λ x. x.now) result cursor.new.rest.now (bytes_at n cursor.old.rest.now) }
{
    if cursor.rest.len() < n {
        return Err(Fault::Form);
    }
    let (front, rest) = cursor.rest.split_at(n);
    cursor.rest = rest;
    Ok(front)
}

/// Takes a number of two bytes from the front.
#[tactic(auto, unfolding(crate::specs::Reading::number_at, crate::specs::Reading::bytes_at))]
pub(crate) fn read_u16(cursor: &mut Cursor<'_>) -> Result<u16, Fault>
    ensures { DecodesAs (λ n. n) result cursor.new.rest.now (number_at w16 cursor.old.rest.now) }
{
    let front = take(cursor, 2)?;
    Ok(u16::from_be_bytes([front[0], front[1]]))
}

impl Field for u8 {
    ghost use Rattle.std.specs.Prelude.{ℕ, ◌<◌, ◌∷◌, []};
    ghost use Rattle.gs_fields.specs.Reading.{byte_at};
    ghost use Rattle.gs_fields.specs.Laws.{reads_byte};

    ghost Plain = { ℕ };

    ghost plain = { λ n. n };

    ghost Is = { λ n. n < 256 };

    ghost written = { λ n. n ∷ [] };

    ghost reading = { byte_at };

    #[tactic(auto, unfolding(crate::specs::Reading::byte_at))]
    fn read(_alloc: Global, cursor: &mut Cursor<'_>) -> Result<u8, Fault> {
        match cursor.rest {
            [first, rest @ ..] => {
                cursor.rest = rest;
                Ok(*first)
            }
            [] => Err(Fault::Form),
        }
    }

    fn put(&self, _alloc: Global, out: &mut Vec<u8>) -> Result<(), Fault> {
        out.push(*self)?;
        Ok(())
    }

    ghost reads = { reads_byte };
}

impl Field for u32 {
    ghost use Rattle.std.specs.Prelude.{ℕ, ◌<◌, ◌^◌};
    ghost use Rattle.std.specs.Int.{w32};
    ghost use Rattle.byteorder.specs.Endian.{big_bytes};
    ghost use Rattle.gs_fields.specs.Reading.{number_at};
    ghost use Rattle.gs_fields.specs.Laws.{n32};

    ghost Plain = { ℕ };

    ghost plain = { λ n. n };

    ghost Is = { λ n. n < 2 ^ 32 };

    ghost written = { big_bytes 4 };

    ghost reading = { number_at w32 };

    #[tactic(auto, unfolding(crate::specs::Reading::number_at, crate::specs::Reading::bytes_at))]
    fn read(_alloc: Global, cursor: &mut Cursor<'_>) -> Result<u32, Fault> {
        let front = take(cursor, 4)?;
        let number = u32::from_be_bytes([front[0], front[1], front[2], front[3]]);
        Ok(number)
    }

    fn put(&self, _alloc: Global, out: &mut Vec<u8>) -> Result<(), Fault> {
        out.extend_from_slice(&self.to_be_bytes())?;
        Ok(())
    }

    ghost reads = { n32 };
}

impl Field for u64 {
    ghost use Rattle.std.specs.Prelude.{ℕ};
    ghost use Rattle.std.specs.Int.{w64};
    ghost use Rattle.gs_base.specs.Told.{IsNumber};
    ghost use Rattle.gs_fields.specs.Encoding.{number};
    ghost use Rattle.gs_fields.specs.Reading.{number_at};
    ghost use Rattle.gs_fields.specs.Laws.{n64};

    ghost Plain = { ℕ };

    ghost plain = { λ n. n };

    ghost Is = { IsNumber };

    ghost written = { number };

    ghost reading = { number_at w64 };

    #[tactic(auto, unfolding(crate::specs::Reading::number_at, crate::specs::Reading::bytes_at))]
    fn read(_alloc: Global, cursor: &mut Cursor<'_>) -> Result<u64, Fault> {
        let front = take(cursor, 8)?;
        let number = u64::from_be_bytes([
            front[0], front[1], front[2], front[3], front[4], front[5], front[6], front[7],
        ]);
        Ok(number)
    }

    fn put(&self, _alloc: Global, out: &mut Vec<u8>) -> Result<(), Fault> {
        out.extend_from_slice(&self.to_be_bytes())?;
        Ok(())
    }

    ghost reads = { n64 };
}
