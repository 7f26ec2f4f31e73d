// The parts together.
ghost use Rattle.gs_parts_image.specs.Encoding.{parts};
ghost use Rattle.gs_parts_image.specs.Reading.{store_in};
ghost use Rattle.gs_parts_image.specs.Stores.{head_of, store_with};
ghost use Rattle.gs_parts_image.specs.Work.{FindsAs, MakesParts, found, pointed};
ghost use Rattle.gs_parts_image.specs.Writable.{IsStoreTold};

use crate::head::{Head, head_in, head_part};
use crate::servers::{put_servers, servers_in};
use gs_fields::Fault;
use gs_server::Server;
use std::alloc::Global;

/// What was read of parts. The bytes of the disks are those of their parts: none is copied.
#[derive(Drop)]
pub struct FoundStore<'a> {
    pub head: Head,
    pub first: &'a [u8],
    pub second: &'a [u8],
    pub servers: Vec<Server>,
}

/// The parts of an image, of a head, of the bytes of both disks, and of servers. `Form` exactly where as many bytes as a field has
/// don't tell of them. What a restart drops of the servers isn't written.
pub fn put_parts(
    alloc: Global,
    head: Head,
    disks: (&[u8], &[u8]),
    servers: &[Server],
) -> Result<Vec<Vec<u8>>, Fault>
    ensures { MakesParts (IsStoreTold (store_with (head_of head) disks.entry.0.now disks.entry.1.now servers.now)) (parts (store_with (head_of head) disks.entry.0.now disks.entry.1.now servers.now)) result }
{
    let mut parts = Vec::new(alloc);
    parts.push(head_part(alloc, head)?)?;
    parts.push(Vec::from_slice(alloc, disks.0)?)?;
    parts.push(Vec::from_slice(alloc, disks.1)?)?;
    put_servers(servers, alloc, &mut parts)?;
    Ok(parts)
}

/// The store whose image has these parts. `Form` exactly where they are the parts of no image: bytes are lacking or left, there is no
/// store of the sizes, or there are other servers than these say.
#[tactic(auto, unfolding(crate::specs::Reading::store_in))]
pub fn read_parts<'a>(alloc: Global, parts: &[&'a [u8]]) -> Result<FoundStore<'a>, Fault>
    ensures { FindsAs found result (store_in (pointed parts.now)) }
{
    let [head, first, second, servers @ ..] = parts else {
        return Err(Fault::Form);
    };
    let head = head_in(alloc, *head)?;
    if servers.len() as u64 != head.config.servers {
        return Err(Fault::Form);
    }
    let servers = servers_in(alloc, head.config, servers)?;
    Ok(FoundStore {
        head,
        first: *first,
        second: *second,
        servers,
    })
}
