// The servers of a store, a part each.
ghost use Rattle.std.specs.Prelude.{◌≡◌, ◌<◌, length, map};
ghost use Rattle.std.specs.List.{AllByRecursion};
ghost use Rattle.gs_parts_image.specs.Reading.{servers_in};
ghost use Rattle.gs_fields.specs.Reading.{whole};
ghost use Rattle.gs_fields.specs.Work.{Makes};
ghost use Rattle.gs_parts_image.specs.Work.{FindsAs, PutsParts, bytes_of, pointed};
ghost use Rattle.gs_server_image.specs.Encoding as written;
ghost use Rattle.gs_server_image.specs.Reading.{server_at};
ghost use Rattle.gs_server_image.specs.Writable.{IsServerTold};

use gs_base::{Config, ServerId};
use gs_block::Sizes;
use gs_fields::{Cursor, Fault};
use gs_server::Server;
use gs_server_image::{put_server, read_server};
use std::alloc::Global;

/// The server of which these are the bytes, all of them.
fn server_in(alloc: Global, id: ServerId, sizes: Sizes, part: &[u8]) -> Result<Server, Fault>
    ensures { FindsAs (λ s. s) result (whole (server_at id sizes.block sizes.chunk part.now)) }
{
    let mut cursor = Cursor { rest: part };
    let server = read_server(alloc, id, sizes, &mut cursor)?;
    if !cursor.rest.is_empty() {
        return Err(Fault::Form);
    }
    Ok(server)
}

/// The server of a number below that of the servers, of which these are the bytes.
fn numbered(alloc: Global, config: Config, number: u64, part: &[u8]) -> Result<Server, Fault>
    requires { number < config.servers }
    ensures { FindsAs (λ s. s) result (whole (server_at number config.block config.chunk part.now)) }
{
    let id = ServerId::new(number).unwrap();
    server_in(alloc, id, Sizes::of(config), part)
}

/// The servers of a store of these sizes, of which there is a part each.
pub(crate) fn servers_in(
    alloc: Global,
    config: Config,
    parts: &[&[u8]],
) -> Result<Vec<Server>, Fault>
    requires { length parts.now ≡ config.servers }
    ensures { FindsAs (λ v. v.items) result (servers_in config.block config.chunk 0 (pointed parts.now)) }
{
    let mut servers = Vec::new(alloc);
    let mut number = 0;
    for part in parts {
        let server = numbered(alloc, config, number, *part)?;
        servers.push(server)?;
        number += 1;
    }
    Ok(servers)
}

/// The bytes of a server.
fn part_of(alloc: Global, server: &Server) -> Result<Vec<u8>, Fault>
    ensures { Makes (IsServerTold server.now) (written.server server.now) result }
{
    let mut part = Vec::new(alloc);
    put_server(server, alloc, &mut part)?;
    Ok(part)
}

/// Puts a part for each server behind those that there are.
pub(crate) fn put_servers(
    servers: &[Server],
    alloc: Global,
    parts: &mut Vec<Vec<u8>>,
) -> Result<(), Fault>
    ensures { PutsParts (AllByRecursion IsServerTold servers.now) (map written.server servers.now) (bytes_of parts.old.items) (bytes_of parts.new.items) result }
{
    for server in servers {
        let part = part_of(alloc, server)?;
        parts.push(part)?;
    }
    Ok(())
}
