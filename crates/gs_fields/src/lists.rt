// Lists: how many items there are, and the items.
ghost use Rattle.std.specs.Prelude.{map, flat_map};
ghost use Rattle.std.specs.List.{AllByRecursion};
ghost use Rattle.gs_fields.specs.Encoding.{list, long_list};
ghost use Rattle.gs_fields.specs.Writable.{AreItems, AreLongItems};
ghost use Rattle.gs_fields.specs.Reading.{times, list_at, long_list_at};
ghost use Rattle.gs_fields.specs.Work.{DecodesAs, Puts};

use crate::fault::Fault;
use crate::field::{Cursor, Field};
use std::alloc::Global;

/// Takes as many items from the front. Room is asked for item by item, so a count alone takes none.
pub fn read_items<T: Field + Drop>(
    alloc: Global,
    cursor: &mut Cursor<'_>,
    count: u64,
) -> Result<Vec<T>, Fault>
    ensures { DecodesAs (λ v. map T.plain v.items) result cursor.new.rest.now (times T.reading count cursor.old.rest.now) }
{
    let mut items = Vec::new(alloc);
    for _ in 0..count {
        let item = T::read(alloc, cursor)?;
        items.push(item)?;
    }
    Ok(items)
}

/// Takes the list at the front, whose count has four bytes.
#[tactic(auto, unfolding(crate::specs::Reading::list_at))]
pub fn read_list<T: Field + Drop>(alloc: Global, cursor: &mut Cursor<'_>) -> Result<Vec<T>, Fault>
    ensures { DecodesAs (λ v. map T.plain v.items) result cursor.new.rest.now (list_at T.reading cursor.old.rest.now) }
{
    let count = u32::read(alloc, cursor)?;
    read_items(alloc, cursor, u64::from(count))
}

/// Takes the list at the front, whose count has eight bytes.
#[tactic(auto, unfolding(crate::specs::Reading::long_list_at))]
pub fn read_long_list<T: Field + Drop>(
    alloc: Global,
    cursor: &mut Cursor<'_>,
) -> Result<Vec<T>, Fault>
    ensures { DecodesAs (λ v. map T.plain v.items) result cursor.new.rest.now (long_list_at T.reading cursor.old.rest.now) }
{
    let count = u64::read(alloc, cursor)?;
    read_items(alloc, cursor, count)
}

/// Writes items at the end, without their count.
pub fn put_items<T: Field>(items: &[T], alloc: Global, out: &mut Vec<u8>) -> Result<(), Fault>
    ensures { Puts (AllByRecursion T.Is (map T.plain items.now)) (flat_map T.written (map T.plain items.now)) out.old.items out.new.items result }
{
    for item in items {
        item.put(alloc, out)?;
    }
    Ok(())
}

/// Writes a list at the end, if four bytes tell its count.
pub fn put_list<T: Field>(items: &[T], alloc: Global, out: &mut Vec<u8>) -> Result<(), Fault>
    ensures { Puts (AreItems T.Is (map T.plain items.now)) (list T.written (map T.plain items.now)) out.old.items out.new.items result }
{
    let Ok(count) = u32::try_from(items.len()) else {
        return Err(Fault::Form);
    };
    count.put(alloc, out)?;
    put_items(items, alloc, out)
}

/// Writes a list at the end, whose count has eight bytes.
pub fn put_long_list<T: Field>(items: &[T], alloc: Global, out: &mut Vec<u8>) -> Result<(), Fault>
    ensures { Puts (AreLongItems T.Is (map T.plain items.now)) (long_list T.written (map T.plain items.now)) out.old.items out.new.items result }
{
    let count = items.len() as u64;
    count.put(alloc, out)?;
    put_items(items, alloc, out)
}
