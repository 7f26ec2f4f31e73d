// A desk of parts.
ghost use Rattle.std.specs.Prelude.{◌≡◌, ◌∷◌, [], IfOk};
ghost use Rattle.gs_client.specs.Nodes.{resting};
ghost use Rattle.gs_desk_image.specs.Desks.{IsDeskOf, Rests, one, store_of};
ghost use Rattle.gs_journal.specs.Memory.{bytes_of};
ghost use Rattle.gs_nodes.specs.Nodes.{nodes_of};
ghost use Rattle.gs_nodes.specs.declared.place.MasterPlace.TheVariants.{Closed};
ghost use Rattle.gs_parts_image.specs.Reading.{store_in};
ghost use Rattle.gs_parts_image.specs.Stores.{head_of, store_with};
ghost use Rattle.gs_parts_image.specs.Work.{pointed};

use gs_base::{ClientId, Moment, ReqId};
use gs_client::{Client, ClientNode};
use gs_fields::Fault;
use gs_journal::MemoryDisk;
use gs_nodes::{MasterPlace, Nodes};
use gs_parts_image::{FoundStore, Head, read_parts};
use gs_server::Server;
use gs_shell_calls::Caller;
use gs_shell_desk::{Desk, Wire};
use std::alloc::{AllocError, Global};
use std::collections::VecDeque;

/// The nodes of a store at rest.
fn nodes_with(
    alloc: Global,
    head: Head,
    disks: (MemoryDisk, MemoryDisk),
    servers: Vec<Server>,
) -> Result<Nodes<MemoryDisk>, AllocError>
    ensures { IfOk result (λ n. nodes_of n ≡ record { config = head.config; master = Closed disks.0 disks.1; servers = servers.items; clients = resting one head.last ∷ [] }) }
{
    let mut clients = Vec::new(alloc);
    clients.push(ClientNode::resting(ClientId(1), head.last))?;
    let (first, second) = disks;
    Ok(Nodes {
        alloc,
        config: head.config,
        master: MasterPlace::Closed { first, second },
        servers,
        clients,
    })
}

/// A desk at rest.
fn desk_with(
    alloc: Global,
    head: Head,
    disks: (MemoryDisk, MemoryDisk),
    servers: Vec<Server>,
) -> Result<Desk<MemoryDisk>, AllocError>
    ensures seen { IfOk result (λ d. store_of d ≡ store_with (head_of head) (bytes_of disks.0) (bytes_of disks.1) servers.items) }
    ensures rests { IfOk result Rests }
{
    let nodes = nodes_with(alloc, head, disks, servers)?;
    let last = ReqId {
        client: ClientId(1),
        number: head.last,
    };
    let client = Client::resting(alloc, last, head.config);
    let wire = Wire {
        alloc,
        nodes,
        moment: Moment(head.moment),
        queue: VecDeque::new(alloc),
        held_kind: None,
        held: Vec::new(alloc),
        drops: head.drops,
        is_short: head.is_short,
        trace: None,
    };
    Ok(Desk {
        caller: Caller { alloc, client },
        wire,
    })
}

/// A disk with these bytes.
fn disk_of(alloc: Global, part: &[u8]) -> Result<MemoryDisk, AllocError>
    ensures { IfOk result (λ d. bytes_of d ≡ part.now) }
{
    Ok(MemoryDisk::new(Vec::from_slice(alloc, part)?))
}

/// The desk whose image has these parts. It rests: a restart of the master opens its disks, and says whether they hold a journal. `Form`
/// exactly where they are the parts of no image: bytes are lacking or left, there is no store of the sizes, or there are other servers
/// than these say.
pub fn desk_of(alloc: Global, parts: &[&[u8]]) -> Result<Desk<MemoryDisk>, Fault>
    ensures { IsDeskOf (store_in (pointed parts.now)) result }
{
    let FoundStore {
        head,
        first,
        second,
        servers,
    } = read_parts(alloc, parts)?;
    let disks = (disk_of(alloc, first)?, disk_of(alloc, second)?);
    Ok(desk_with(alloc, head, disks, servers)?)
}
