// Each client's last request, the clients rising.
ghost use Rattle.std.specs.Prelude.{◌≡◌, IfOk, map};
ghost use Rattle.std.specs.FinMap as fin;
ghost use Rattle.gs_fields.specs.Work.{DecodesAs, Puts};
ghost use Rattle.gs_store_image.specs.Encoding.{table};
ghost use Rattle.gs_store_image.specs.Writable.{IsTable};
ghost use Rattle.gs_store_image.specs.Reading.{rises, table_at};

use crate::done::DoneField;
use gs_base::ClientId;
use gs_fields::{Cursor, Fault, Field, put_long_list, read_long_list};
use gs_replica::DoneTable;
use std::alloc::{AllocError, Global};

/// The requests of a table, in the order of the clients.
fn entries_of(alloc: Global, table: &DoneTable) -> Result<Vec<(u32, DoneField)>, AllocError>
    ensures { IfOk result (λ v. map (λ e. (e.0, e.1.done)) v.items ≡ fin.entries table.now) }
{
    let mut entries = Vec::new(alloc);
    for (client, done) in table.iter() {
        entries.push((*client, DoneField { done: *done }))?;
    }
    Ok(entries)
}

/// Whether each client is below the next.
pub(crate) fn rises<F: Field>(entries: &[(u32, F)]) -> bool
    ensures { result ≡ rises (map (λ e. (e.0, F.plain e.1)) entries.now) }
{
    let Some((first, rest)) = entries.split_first() else {
        return true;
    };
    let mut last = first.0;
    for entry in rest {
        if last >= entry.0 {
            return false;
        }
        last = entry.0;
    }
    true
}

/// The table of these requests. Where a client stands twice, its first request holds.
fn table_of(alloc: Global, entries: &[(u32, DoneField)]) -> Result<DoneTable, AllocError>
    ensures { IfOk result (λ t. t ≡ fin.from_entries (map (λ e. (e.0, e.1.done)) entries.now)) }
{
    let mut table = DoneTable::new(alloc);
    for (client, field) in entries.iter().rev() {
        table.put(ClientId(*client), field.done)?;
    }
    Ok(table)
}

/// Takes the table at the front.
#[tactic(auto, unfolding(crate::specs::Reading::table_at))]
pub(crate) fn read_table(alloc: Global, cursor: &mut Cursor<'_>) -> Result<DoneTable, Fault>
    ensures { DecodesAs (λ t. t) result cursor.new.rest.now (table_at cursor.old.rest.now) }
{
    let entries: Vec<(u32, DoneField)> = read_long_list(alloc, cursor)?;
    if !rises(&entries) {
        return Err(Fault::Form);
    }
    Ok(table_of(alloc, &entries)?)
}

/// Writes a table at the end.
pub(crate) fn put_table(requests: &DoneTable, alloc: Global, out: &mut Vec<u8>) -> Result<(), Fault>
    ensures { Puts (IsTable requests.now) (table requests.now) out.old.items out.new.items result }
{
    let entries = entries_of(alloc, requests)?;
    put_long_list(&entries, alloc, out)
}
