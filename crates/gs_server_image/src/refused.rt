// Of each client its edit that was refused last, the clients rising.
ghost use Rattle.std.specs.Prelude.{◌≡◌, IfOk, flat_map, length, map};
ghost use Rattle.std.specs.FinMap as fin;
ghost use Rattle.std.specs.List.{AllByRecursion};
ghost use Rattle.gs_base.specs.Told.{IsNumber};
ghost use Rattle.gs_base_table.specs.Slots.{live};
ghost use Rattle.gs_fields.specs.Encoding.{number};
ghost use Rattle.gs_fields.specs.Work.{DecodesAs, Puts};
ghost use Rattle.gs_server.specs.Servers.{client_cmp};
ghost use Rattle.gs_server_image.specs.Encoding as written;
ghost use Rattle.gs_server_image.specs.Encoding.{entries};
ghost use Rattle.gs_server_image.specs.Writable.{IsEntry, AreRefused};
ghost use Rattle.gs_server_image.specs.Reading.{map_of, refused_at};
ghost use Rattle.gs_store_image.specs.Reading.{rises};

use crate::kept::{KeptField, put_kept};
use gs_base::ClientId;
use gs_base_table::Table;
use gs_fields::{Cursor, Fault, Field, read_long_list};
use gs_server::{KeptRefusal, Server};
use std::alloc::{AllocError, Global};

/// Whether each client is below the next.
fn clients_rise(entries: &[(u32, KeptField)]) -> bool
    ensures { result ≡ rises (map (λ e. (e.0, e.1.kept)) entries.now) }
{
    let Some((first, rest)) = entries.split_first() else {
        return true;
    };
    let mut last = first.0;
    for entry in rest {
        if last >= entry.0 {
            return false;
        }
        last = entry.0;
    }
    true
}

/// The table of these entries. Where a client stands twice, its first one holds.
fn table_of(
    alloc: Global,
    entries: Vec<(u32, KeptField)>,
) -> Result<Table<ClientId, KeptRefusal>, AllocError>
    ensures { IfOk result (λ t. live client_cmp t ≡ map_of (map (λ e. (e.0, e.1.kept)) entries.items)) }
{
    let mut table = Table::new(alloc);
    let mut left = entries;
    while let Some((client, field)) = left.pop() {
        table.reserve(ClientId(client))?;
        table.put(ClientId(client), field.kept);
    }
    Ok(table)
}

/// Takes at the front what is kept of all clients.
#[tactic(auto, unfolding(crate::specs::Reading::refused_at))]
pub(crate) fn read_refused(
    alloc: Global,
    cursor: &mut Cursor<'_>,
) -> Result<Table<ClientId, KeptRefusal>, Fault>
    ensures { DecodesAs (λ t. live client_cmp t) result cursor.new.rest.now (refused_at cursor.old.rest.now) }
{
    let entries: Vec<(u32, KeptField)> = read_long_list(alloc, cursor)?;
    if !clients_rise(&entries) {
        return Err(Fault::Form);
    }
    Ok(table_of(alloc, entries)?)
}

/// The clients of whom something is kept.
fn clients_of(alloc: Global, server: &Server) -> Result<Vec<u32>, AllocError>
    ensures { IfOk result (λ v. v.items ≡ map (λ e. e.0.0) (fin.entries server.now.kept.refused)) }
{
    let mut clients = Vec::new(alloc);
    for (client, _kept) in server.refusals() {
        clients.push(client.0)?;
    }
    Ok(clients)
}

/// Writes at the end how many clients there are.
fn put_count(clients: &[u32], alloc: Global, out: &mut Vec<u8>) -> Result<(), Fault>
    ensures { Puts (IsNumber (length clients.now)) (number (length clients.now)) out.old.items out.new.items result }
{
    let count = clients.len() as u64;
    count.put(alloc, out)
}

/// Writes at the end a client and what is kept of it.
fn put_entry(
    client: ClientId,
    kept: &KeptRefusal,
    alloc: Global,
    out: &mut Vec<u8>,
) -> Result<(), Fault>
    ensures { Puts (IsEntry (client.0, kept.now)) (written.entry (client.0, kept.now)) out.old.items out.new.items result }
{
    client.0.put(alloc, out)?;
    put_kept(kept, alloc, out)
}

/// Writes at the end what is kept of each client, without their count.
fn put_each(server: &Server, alloc: Global, out: &mut Vec<u8>) -> Result<(), Fault>
    ensures { Puts (AllByRecursion IsEntry (entries server.now.kept.refused)) (flat_map written.entry (entries server.now.kept.refused)) out.old.items out.new.items result }
{
    for (client, kept) in server.refusals() {
        put_entry(client, kept, alloc, out)?;
    }
    Ok(())
}

/// Writes at the end what is kept of all clients.
pub(crate) fn put_refused(server: &Server, alloc: Global, out: &mut Vec<u8>) -> Result<(), Fault>
    ensures { Puts (AreRefused server.now.kept.refused) (written.refused server.now.kept.refused) out.old.items out.new.items result }
{
    let clients = clients_of(alloc, server)?;
    put_count(clients.as_slice(), alloc, out)?;
    put_each(server, alloc, out)
}
