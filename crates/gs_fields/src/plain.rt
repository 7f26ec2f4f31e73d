// Fields that are made of others.
use crate::fault::Fault;
use crate::field::{Cursor, Field, take};
use crate::lists::{put_long_list, read_long_list};
use gs_base::Stamp;
use std::alloc::Global;

impl Field for bool {
    ghost use Rattle.std.specs.Prelude.{⊤, Bool};
    ghost use Rattle.gs_fields.specs.Encoding.{flag};
    ghost use Rattle.gs_fields.specs.Reading.{flag_at};
    ghost use Rattle.gs_fields.specs.Laws.{reads_flag};

    ghost Plain = { Bool };

    ghost plain = { λ b. b };

    ghost Is = { λ b. ⊤ };

    ghost written = { flag };

    ghost reading = { flag_at };

    #[tactic(auto, unfolding(crate::specs::Reading::flag_at))]
    fn read(alloc: Global, cursor: &mut Cursor<'_>) -> Result<bool, Fault> {
        match u8::read(alloc, cursor)? {
            0 => Ok(false),
            1 => Ok(true),
            _ => Err(Fault::Form),
        }
    }

    fn put(&self, _alloc: Global, out: &mut Vec<u8>) -> Result<(), Fault> {
        let number = if *self { 1 } else { 0 };
        out.push(number)?;
        Ok(())
    }

    ghost reads = { reads_flag };
}

/// A digest: 32 bytes, without their length.
impl Field for [u8; 32] {
    ghost use Rattle.std.specs.Prelude.{◌≡◌, List, ℕ, length};
    ghost use Rattle.gs_fields.specs.Reading.{bytes_at};
    ghost use Rattle.gs_fields.specs.Laws.{reads_bytes};

    ghost Plain = { List ℕ };

    ghost plain = { λ d. d };

    ghost Is = { λ d. length d ≡ 32 };

    ghost written = { λ d. d };

    ghost reading = { bytes_at 32 };

    #[tactic(auto, unfolding(crate::specs::Reading::bytes_at))]
    fn read(_alloc: Global, cursor: &mut Cursor<'_>) -> Result<[u8; 32], Fault> {
        let front = take(cursor, 32)?;
        let mut digest = [0; 32];
        digest.copy_from_slice(front);
        Ok(digest)
    }

    fn put(&self, _alloc: Global, out: &mut Vec<u8>) -> Result<(), Fault> {
        out.extend_from_slice(self)?;
        Ok(())
    }

    ghost reads = { reads_bytes 32 };
}

impl Field for Stamp {
    ghost use Rattle.gs_base.specs.declared.numbers.Stamp.{Stamp as AnyStamp};
    ghost use Rattle.gs_fields.specs.Encoding.{stamp};
    ghost use Rattle.gs_fields.specs.Writable.{IsStamp};
    ghost use Rattle.gs_fields.specs.Reading.{stamp_at};
    ghost use Rattle.gs_fields.specs.Laws.{reads_stamp};

    ghost Plain = { AnyStamp };

    ghost plain = { λ s. s };

    ghost Is = { IsStamp };

    ghost written = { stamp };

    ghost reading = { stamp_at };

    #[tactic(auto, unfolding(crate::specs::Reading::stamp_at))]
    fn read(alloc: Global, cursor: &mut Cursor<'_>) -> Result<Stamp, Fault> {
        let epoch = u64::read(alloc, cursor)?;
        let version = u64::read(alloc, cursor)?;
        Ok(Stamp { epoch, version })
    }

    fn put(&self, alloc: Global, out: &mut Vec<u8>) -> Result<(), Fault> {
        self.epoch.put(alloc, out)?;
        self.version.put(alloc, out)
    }

    ghost reads = { reads_stamp };
}

impl<A: Field + Drop, B: Field + Drop> Field for (A, B) {
    ghost use Rattle.std.specs.Prelude.{◌++◌};
    ghost use Rattle.gs_fields.specs.Reading.{both};
    ghost use Rattle.gs_fields.specs.Laws.{reads_both};

    ghost Plain = { A.Plain × B.Plain };

    ghost plain = { λ x. (A.plain x.0, B.plain x.1) };

    ghost Is = { λ x. A.Is x.0 × B.Is x.1 };

    ghost written = { λ x. A.written x.0 ++ B.written x.1 };

    ghost reading = { both A.reading B.reading };

    fn read(alloc: Global, cursor: &mut Cursor<'_>) -> Result<(A, B), Fault> {
        let first = A::read(alloc, cursor)?;
        let second = B::read(alloc, cursor)?;
        Ok((first, second))
    }

    fn put(&self, alloc: Global, out: &mut Vec<u8>) -> Result<(), Fault> {
        self.0.put(alloc, out)?;
        self.1.put(alloc, out)
    }

    ghost reads = { reads_both A.reads B.reads };
}

impl<A: Field + Drop> Field for Option<A> {
    ghost use Rattle.std.specs.Prelude.{Option};
    ghost use Rattle.gs_fields.specs.Encoding.{option, seen_option};
    ghost use Rattle.gs_fields.specs.Writable.{IsOption};
    ghost use Rattle.gs_fields.specs.Reading.{option_at};
    ghost use Rattle.gs_fields.specs.Laws.{reads_option};

    ghost Plain = { Option A.Plain };

    ghost plain = { seen_option A.plain };

    ghost Is = { IsOption A.Is };

    ghost written = { option A.written };

    ghost reading = { option_at A.reading };

    #[tactic(auto, unfolding(crate::specs::Reading::option_at))]
    fn read(alloc: Global, cursor: &mut Cursor<'_>) -> Result<Option<A>, Fault> {
        match u8::read(alloc, cursor)? {
            0 => Ok(None),
            1 => {
                let some = A::read(alloc, cursor)?;
                Ok(Some(some))
            }
            _ => Err(Fault::Form),
        }
    }

    fn put(&self, alloc: Global, out: &mut Vec<u8>) -> Result<(), Fault> {
        match self {
            None => {
                out.push(0)?;
                Ok(())
            }
            Some(some) => {
                out.push(1)?;
                some.put(alloc, out)
            }
        }
    }

    ghost reads = { reads_option A.reads };
}

impl<A: Field + Drop> Field for Vec<A> {
    ghost use Rattle.std.specs.Prelude.{List, map};
    ghost use Rattle.gs_fields.specs.Encoding.{long_list};
    ghost use Rattle.gs_fields.specs.Writable.{AreLongItems};
    ghost use Rattle.gs_fields.specs.Reading.{long_list_at};
    ghost use Rattle.gs_fields.specs.Laws.{reads_long_list};

    ghost Plain = { List A.Plain };

    ghost plain = { λ v. map A.plain v.items };

    ghost Is = { AreLongItems A.Is };

    ghost written = { long_list A.written };

    ghost reading = { long_list_at A.reading };

    fn read(alloc: Global, cursor: &mut Cursor<'_>) -> Result<Vec<A>, Fault> {
        read_long_list(alloc, cursor)
    }

    fn put(&self, alloc: Global, out: &mut Vec<u8>) -> Result<(), Fault> {
        put_long_list(self, alloc, out)
    }

    ghost reads = { reads_long_list A.reads };
}
