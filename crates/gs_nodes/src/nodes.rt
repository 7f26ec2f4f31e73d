ghost use Rattle.std.specs.Prelude.{◌≡◌, IfOk, IfErr, Ok};
ghost use Rattle.gs_nodes.specs.Nodes.{new_clients, new_nodes, new_servers, nodes_of};
ghost use Rattle.gs_nodes.specs.Crashing.{SurvivesAt, SurvivesUnopened};
ghost use Rattle.gs_nodes.specs.Happenings.{Opens, WhyNotBegun};
ghost use Rattle.gs_nodes.specs.NewDisks.{AreEmpty};

use crate::place::MasterPlace;
use crate::restarting::LIMIT;
use gs_base::{ClientId, Config, Refusal, ServerId};
use gs_client::ClientNode;
use gs_journal::{Disk, MemoryDisk, Unopened};
use gs_master::{Master, Started, Turn};
use gs_server::Server;
use std::alloc::{AllocError, Global};

/// The nodes of a store.
pub struct Nodes<D: Disk> {
    pub alloc: Global,
    pub config: Config,
    pub master: MasterPlace<D>,
    /// The servers by their numbers.
    pub servers: Vec<Server>,
    /// The clients, which are numbered from 1 upwards.
    pub clients: Vec<ClientNode>,
}

impl<D: Disk + Drop> Drop for Nodes<D> {
    fn drop(self) {
        let Self {
            alloc: _,
            config: _,
            master: _,
            servers: _,
            clients: _,
        } = self;
    }
}

/// As many servers as there are, which have heard nothing.
#[tactic(auto, using(crate::proofs::Starting::one_more_server))]
fn new_servers(alloc: Global, config: Config) -> Result<Vec<Server>, AllocError>
    ensures { IfOk result (λ servers. servers.items ≡ new_servers config) }
{
    let mut servers = Vec::new(alloc);
    for number in 0..config.servers {
        let id = ServerId::new(number).unwrap();
        servers.push(Server::new(alloc, config, id)?)?;
    }
    Ok(servers)
}

/// So many clients, who have asked nothing.
#[tactic(auto, using(crate::proofs::Starting::one_more_client))]
fn new_clients(alloc: Global, many: u32) -> Result<Vec<ClientNode>, AllocError>
    ensures { IfOk result (λ clients. clients.items ≡ new_clients many) }
{
    let mut clients = Vec::new(alloc);
    for before in 0..many {
        clients.push(ClientNode::new(ClientId(before + 1)))?;
    }
    Ok(clients)
}

/// The servers of a store and so many clients, none of which has heard anything.
fn silent_nodes(
    alloc: Global,
    config: Config,
    clients: u32,
) -> Result<(Vec<Server>, Vec<ClientNode>), AllocError>
    ensures { IfOk result (λ n. (n.0.items ≡ new_servers config) × (n.1.items ≡ new_clients clients)) }
{
    Ok((new_servers(alloc, config)?, new_clients(alloc, clients)?))
}

/// The disks in memory of a new store's journal: nothing is on them.
pub fn empty_disks(alloc: Global) -> (MemoryDisk, MemoryDisk)
    ensures { AreEmpty result }
{
    let first = MemoryDisk::new(Vec::new(alloc));
    let second = MemoryDisk::new(Vec::new(alloc));
    (first, second)
}

impl<D: Disk + Drop> Nodes<D> {
    /// The nodes of a store over the disks of a journal, with so many clients. New disks are those of a new store. What the
    /// master sends first is told beside it. Where memory is wanting, or the disks can't be opened, they are handed back. What a crash leaves
    /// in the midst of that or behind it is said as of a restart.
    pub fn new(
        alloc: Global,
        config: Config,
        clients: u32,
        disks: (D, D),
    ) -> Result<(Nodes<D>, Turn), Unopened<D>>
        ensures nodes { IfOk result (λ w. nodes_of w.0 ≡ new_nodes config clients w.0.master) }
        ensures master { IfOk result (λ w. Opens D.seen D.failures config disks (Ok w.1) w.0.master) }
        ensures refused { IfErr result (WhyNotBegun D.seen D.failures config disks) }
        ensures survives { IfOk result (λ w. SurvivesAt D.seen D.may_leave D.moment D.left_since disks w.0.master) }
        ensures survives_refused { IfErr result (λ u. SurvivesUnopened D.seen D.may_leave D.moment D.left_since disks u.first u.second) }
    {
        let (first, second) = disks;
        let Ok((servers, clients)) = silent_nodes(alloc, config, clients) else {
            let refusal = Refusal::Memory;
            return Err(Unopened {
                refusal,
                first,
                second,
            });
        };
        let Started { master, sent } = Master::open(alloc, config, first, second, LIMIT)?;
        let nodes = Nodes {
            alloc,
            config,
            master: MasterPlace::Standing(master),
            servers,
            clients,
        };
        Ok((nodes, Turn { sent, said: None }))
    }
}
