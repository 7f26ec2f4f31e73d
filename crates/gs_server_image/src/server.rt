// A server: its store, and what it refused.
ghost use Rattle.gs_fields.specs.Work.{DecodesAs, Puts};
ghost use Rattle.gs_server_image.specs.Encoding as written;
ghost use Rattle.gs_server_image.specs.Writable.{IsServerTold};
ghost use Rattle.gs_server_image.specs.Reading.{server_at};

use crate::refused::{put_refused, read_refused};
use gs_base::ServerId;
use gs_block::Sizes;
use gs_fields::{Cursor, Fault};
use gs_server::Server;
use gs_store_image::{put_store, read_store};
use std::alloc::Global;

/// Takes a server at the front, of this number and for chunks of these sizes. It holds no lease, and nothing is pushed to it. `Form`
/// as in `read_store`, and where the clients do not rise.
#[tactic(auto, unfolding(crate::specs::Reading::server_at))]
pub fn read_server(
    alloc: Global,
    id: ServerId,
    sizes: Sizes,
    cursor: &mut Cursor<'_>,
) -> Result<Server, Fault>
    ensures { DecodesAs (λ s. s) result cursor.new.rest.now (server_at id sizes.block sizes.chunk cursor.old.rest.now) }
{
    let store = read_store(alloc, sizes, cursor)?;
    let refused = read_refused(alloc, cursor)?;
    Ok(Server::of(alloc, id, store, refused))
}

/// Writes a server at the end, without what a restart drops: its leases, and the bytes that were pushed. Its number and its sizes
/// aren't written: who reads it knows them.
pub fn put_server(server: &Server, alloc: Global, out: &mut Vec<u8>) -> Result<(), Fault>
    ensures { Puts (IsServerTold server.now) (written.server server.now) out.old.items out.new.items result }
{
    put_store(server.store(), alloc, out)?;
    put_refused(server, alloc, out)
}
