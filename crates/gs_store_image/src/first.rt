// The requests of clients as they were when a replica was sealed, the clients rising.
ghost use Rattle.std.specs.Prelude.{◌≡◌, IfOk, map};
ghost use Rattle.std.specs.FinMap as fin;
ghost use Rattle.gs_fields.specs.Encoding.{seen_option};
ghost use Rattle.gs_fields.specs.Work.{DecodesAs, Puts};
ghost use Rattle.gs_store_image.specs.Encoding.{first_entries};
ghost use Rattle.gs_store_image.specs.Writable.{AreFirstEntries};
ghost use Rattle.gs_store_image.specs.Reading.{first_at};

use crate::done::DoneField;
use crate::table::rises;
use gs_base::ClientId;
use gs_fields::{Cursor, Fault, put_long_list, read_long_list};
use gs_replica::{Done, FirstEntries};
use std::alloc::{AllocError, Global};

/// A request as a field, if there is one.
fn field_of(before: Option<Done>) -> Option<DoneField>
    ensures { seen_option (λ d. d.done) result ≡ before }
{
    match before {
        Some(done) => Some(DoneField { done }),
        None => None,
    }
}

/// The request of a field, if there is one.
fn done_of(field: Option<DoneField>) -> Option<Done>
    ensures { result ≡ seen_option (λ d. d.done) field }
{
    match field {
        Some(field) => Some(field.done),
        None => None,
    }
}

/// The first entries, in the order of the clients.
fn entries_of(
    alloc: Global,
    first: &FirstEntries,
) -> Result<Vec<(u32, Option<DoneField>)>, AllocError>
    ensures { IfOk result (λ v. map (λ e. (e.0, seen_option (λ d. d.done) e.1)) v.items ≡ fin.entries first.now) }
{
    let mut entries = Vec::new(alloc);
    for (client, before) in first.iter() {
        entries.push((*client, field_of(*before)))?;
    }
    Ok(entries)
}

/// The first entries of these. Where a client stands twice, its first one holds.
fn first_of(alloc: Global, entries: &[(u32, Option<DoneField>)]) -> Result<FirstEntries, AllocError>
    ensures { IfOk result (λ f. f ≡ fin.from_entries (map (λ e. (e.0, seen_option (λ d. d.done) e.1)) entries.now)) }
{
    let mut first = FirstEntries::new(alloc);
    for (client, before) in entries.iter().rev() {
        first.put(ClientId(*client), done_of(*before))?;
    }
    Ok(first)
}

/// Takes the first entries at the front.
#[tactic(auto, unfolding(crate::specs::Reading::first_at))]
pub(crate) fn read_first(alloc: Global, cursor: &mut Cursor<'_>) -> Result<FirstEntries, Fault>
    ensures { DecodesAs (λ f. f) result cursor.new.rest.now (first_at cursor.old.rest.now) }
{
    let entries: Vec<(u32, Option<DoneField>)> = read_long_list(alloc, cursor)?;
    if !rises(&entries) {
        return Err(Fault::Form);
    }
    Ok(first_of(alloc, &entries)?)
}

/// Writes first entries at the end.
pub(crate) fn put_first(first: &FirstEntries, alloc: Global, out: &mut Vec<u8>) -> Result<(), Fault>
    ensures { Puts (AreFirstEntries first.now) (first_entries first.now) out.old.items out.new.items result }
{
    let entries = entries_of(alloc, first)?;
    put_long_list(&entries, alloc, out)
}
