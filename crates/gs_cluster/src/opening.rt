// The nodes of a store as they begin, each with a channel into it.
ghost use Rattle.std.specs.Prelude.{◌≡◌, ◌<◌, ◌++◌, [], false, IfErr, IfOk, OnOk, vec_capacity, vec_len};
ghost use Rattle.gs_cluster.specs.Opened.{IsNew, WhyNotOpened};
ghost use Rattle.gs_cluster.specs.inner.Seeds.{HasMaster, client_rows, row_of, rows_of, server_rows};
ghost use Rattle.gs_msg.specs.declared.node.NodeId.TheVariants as ids;
ghost use Rattle.gs_nodes.specs.Happenings.{WhyNotBegun};

use gs_base::{ClientId, Config, Refusal, ServerId};
use gs_client::ClientNode;
use gs_cluster_channel::Line;
use gs_cluster_core::Role;
use gs_cluster_history::Turn;
use gs_cluster_threads::Seed;
use gs_journal::{Disk, Unopened};
use gs_master::{Master, Started};
use gs_msg::NodeId;
use gs_nodes::MasterPlace;
use gs_server::Server;
use std::alloc::{AllocError, Global};

/// How many clients a cluster has at most.
pub const CLIENTS: u32 = 16;

/// How much of the master's journal may be written before it takes a checkpoint, in bytes: as of a store on one thread.
const LIMIT: u32 = 1_073_741_824;

/// A store that has begun new, with a channel into each of its nodes. Nothing runs yet.
#[derive(Drop)]
pub struct Opened<D: Disk + Drop> {
    pub config: Config,
    pub seeds: Vec<Seed<Role<D>>>,
    /// Whether its nodes are to keep notes of what happens to them, so that it can go on on one thread when its threads have ended.
    pub are_noted: bool,
}

/// A node with a new channel into it, which sends nothing at first.
fn seed_of<D: Disk + Drop>(
    alloc: Global,
    me: NodeId,
    core: Role<D>,
) -> Result<Seed<Role<D>>, AllocError>
    ensures { IfOk result (λ s. row_of s ≡ (me, (core, []))) }
{
    let line = Line::open(alloc, me)?;
    let turn = Turn {
        sent: Vec::new(alloc),
        said: None,
    };
    Ok(Seed { line, core, turn })
}

/// As many servers as there are, which have heard nothing.
fn seed_servers<D: Disk + Drop>(
    alloc: Global,
    config: Config,
    seeds: &mut Vec<Seed<Role<D>>>,
) -> Result<(), AllocError>
    ensures { OnOk result (rows_of seeds.new.items ≡ rows_of seeds.old.items ++ server_rows config config.servers) }
{
    for number in 0..config.servers {
        let id = ServerId::new(number).unwrap();
        let core = Role::Server(Server::new(alloc, config, id)?);
        seeds.push(seed_of(alloc, NodeId::Server(id), core)?)?;
    }
    Ok(())
}

/// So many clients, who have asked nothing.
fn seed_clients<D: Disk + Drop>(
    alloc: Global,
    many: u32,
    seeds: &mut Vec<Seed<Role<D>>>,
) -> Result<(), AllocError>
    ensures { OnOk result (rows_of seeds.new.items ≡ rows_of seeds.old.items ++ client_rows many) }
{
    for before in 0..many {
        let id = ClientId(before + 1);
        let core = Role::Client(ClientNode::new(id));
        seeds.push(seed_of(alloc, NodeId::Client(id), core)?)?;
    }
    Ok(())
}

/// All that takes memory but the master itself: the channel into it, and the servers and the clients, with room for one more.
fn all_but_master<D: Disk + Drop>(
    alloc: Global,
    config: Config,
    clients: u32,
) -> Result<(Line, Vec<Seed<Role<D>>>), AllocError>
    ensures line { IfOk result (λ r. r.0.me ≡ ids.Master) }
    ensures rows { IfOk result (λ r. rows_of r.1.items ≡ server_rows config config.servers ++ client_rows clients) }
    ensures room { IfOk result (λ r. vec_len r.1 < vec_capacity r.1) }
{
    let line = Line::open(alloc, NodeId::Master)?;
    let mut seeds = Vec::new(alloc);
    seed_servers(alloc, config, &mut seeds)?;
    seed_clients(alloc, clients, &mut seeds)?;
    seeds.reserve(1)?;
    Ok((line, seeds))
}

/// The master that the disks tell, and behind it these nodes. Where it can't be opened the disks are handed back.
fn with_master<D: Disk + Drop>(
    alloc: Global,
    config: Config,
    line: Line,
    behind: Vec<Seed<Role<D>>>,
    disks: (D, D),
) -> Result<Vec<Seed<Role<D>>>, Unopened<D>>
    requires line { line.me ≡ ids.Master }
    requires room { vec_len behind < vec_capacity behind }
    ensures master { IfOk result (λ seeds. HasMaster D.seen D.failures config disks (rows_of behind.items) seeds.items) }
    ensures refused { IfErr result (WhyNotBegun D.seen D.failures config disks) }
{
    let (first, second) = disks;
    let Started { master, sent } = Master::open(alloc, config, first, second, LIMIT)?;
    let core = Role::Master(MasterPlace::Standing(master));
    let turn = Turn { sent, said: None };
    let mut seeds = behind;
    let Ok(()) = seeds.insert(0, Seed { line, core, turn }) else {
        unreachable!()
    };
    Ok(seeds)
}

/// These disks, as they are, with why they weren't opened.
fn handed_back<D: Disk>(refusal: Refusal, disks: (D, D)) -> Unopened<D>
    ensures refusal { result.refusal ≡ refusal }
    ensures disks { (result.first ≡ disks.0) × (result.second ≡ disks.1) }
{
    let (first, second) = disks;
    Unopened {
        refusal,
        first,
        second,
    }
}

impl<D: Disk + Drop> Opened<D> {
    /// A store over the disks of a journal, with 1 to 16 clients. New disks are those of a new store. Its nodes keep no notes, unless that is
    /// set. `Config` where there are no clients, or more, whatever the disks are; else it is refused where memory is wanting, or the disks
    /// can't be opened. The disks are handed back.
    pub fn new(
        alloc: Global,
        config: Config,
        clients: u32,
        disks: (D, D),
    ) -> Result<Opened<D>, Unopened<D>>
        ensures config { IfOk result (λ opened. opened.config ≡ config) }
        ensures new { IfOk result (λ opened. IsNew D.seen D.failures (record { config = config; clients = clients; texts = (D.seen disks.0, D.seen disks.1) }) opened.seeds.items) }
        ensures unnoted { IfOk result (λ opened. opened.are_noted ≡ false) }
        ensures refused { IfErr result (WhyNotOpened D.seen D.failures config clients disks) }
    {
        if clients == 0 || clients > CLIENTS {
            return Err(handed_back(Refusal::Config, disks));
        }
        let Ok((line, behind)) = all_but_master(alloc, config, clients) else {
            return Err(handed_back(Refusal::Memory, disks));
        };
        let seeds = with_master(alloc, config, line, behind, disks)?;
        Ok(Opened {
            config,
            seeds,
            are_noted: false,
        })
    }
}
