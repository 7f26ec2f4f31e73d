ghost use Rattle.gs_cluster_history.specs.Logs.{told};
ghost use Rattle.gs_cluster_core.specs.Roles.{ActsAs, ClientActs, ClientTakes, ClientTurns, HearsAs, MasterActs, MasterTakes, ServerActs, ServerTakes};
ghost use Rattle.gs_nodes.specs.Happenings.{ServerDoes};
ghost use Rattle.gs_server.specs.Servers as servers;
ghost use Rattle.gs_world.specs.Histories.{told as told_by_master};
ghost use Rattle.std.specs.Prelude.{◌≡◌};

use gs_base::{Moment, Refusal};
use gs_client::ClientNode;
use gs_cluster_history::{Core, Took, Turn};
use gs_journal::Disk;
use gs_msg::{Event, Happening, Message, Sent, StoreNode};
use gs_nodes::{MasterPlace, turn_of};
use gs_server::Server;
use std::alloc::Global;

/// What a node of a store is.
#[derive(Drop)]
pub enum Role<D: Disk + Drop> {
    Master(MasterPlace<D>),
    Server(Server),
    Client(ClientNode),
}

fn turn_from(done: Result<gs_nodes::Turn, Refusal>) -> Result<Turn, Refusal>
    ensures { told result ≡ told_by_master done }
{
    let gs_nodes::Turn { sent, said } = done?;
    Ok(Turn { sent, said })
}

fn master_hears<D: Disk + Drop>(
    alloc: Global,
    master: &mut MasterPlace<D>,
    message: Message,
    moment: Moment,
) -> Result<Turn, Refusal>
    ensures { MasterTakes D.seen D.failures message moment master.old (told result) master.new }
{
    turn_from(master.hear(alloc, message, moment))
}

fn server_handles(
    server: &mut Server,
    message: Message,
    moment: Moment,
) -> Result<gs_nodes::Turn, Refusal>
    ensures { ServerDoes (servers.handle server.old message moment) server.old result server.new }
{
    match server.handle(message, moment) {
        Ok(turn) => Ok(turn_of(turn)),
        Err(refusal) => Err(refusal),
    }
}

fn server_ticks(server: &mut Server, moment: Moment) -> Result<gs_nodes::Turn, Refusal>
    ensures { ServerDoes (servers.tick server.old moment) server.old result server.new }
{
    match server.tick(moment) {
        Ok(turn) => Ok(turn_of(turn)),
        Err(refusal) => Err(refusal),
    }
}

fn server_hears(server: &mut Server, message: Message, moment: Moment) -> Result<Turn, Refusal>
    ensures { ServerTakes (servers.handle server.old message moment) server.old (told result) server.new }
{
    turn_from(server_handles(server, message, moment))
}

fn client_turn(
    alloc: Global,
    client: &mut ClientNode,
    message: Message,
) -> Result<gs_nodes::Turn, Refusal>
    ensures { ClientTurns message client.old result client.new }
{
    let said = client.hear(message.body).err();
    let sent = Vec::new(alloc);
    Ok(gs_nodes::Turn { sent, said })
}

fn client_hears(alloc: Global, client: &mut ClientNode, message: Message) -> Result<Turn, Refusal>
    ensures { ClientTakes message client.old (told result) client.new }
{
    turn_from(client_turn(alloc, client, message))
}

fn master_acts<D: Disk + Drop>(
    alloc: Global,
    master: &mut MasterPlace<D>,
    event: Event,
) -> Result<Turn, Refusal>
    ensures { MasterActs D.seen D.failures event.moment event.happening master.old (told result) master.new }
{
    match event.happening {
        Happening::Tick(StoreNode::Master) => turn_from(master.tick(alloc, event.moment)),
        _ => Err(Refusal::Stray),
    }
}

fn server_acts(server: &mut Server, event: Event) -> Result<Turn, Refusal>
    ensures { ServerActs event.moment event.happening server.old (told result) server.new }
{
    match event.happening {
        Happening::Tick(StoreNode::Server(_)) => { turn_from(server_ticks(server, event.moment)) }
        _ => Err(Refusal::Stray),
    }
}

fn client_acts(alloc: Global, client: &mut ClientNode, event: Event) -> Result<Turn, Refusal>
    ensures { ClientActs event.happening client.old (told result) client.new }
{
    match event.happening {
        Happening::Ask { req, request } => {
            let sent = client.ask(alloc, req.number, request)?;
            Ok(Turn { sent, said: None })
        }
        _ => Err(Refusal::Stray),
    }
}

/// A node hears a message that was sent.
fn hear<D: Disk + Drop>(alloc: Global, role: &mut Role<D>, sent: Sent) -> Result<Turn, Refusal>
    ensures { HearsAs D.seen D.failures sent role.old (told result) role.new }
{
    let Sent {
        moment,
        message,
        ..
    } = sent;
    match role {
        Role::Master(master) => master_hears(alloc, master, message, moment),
        Role::Server(server) => server_hears(server, message, moment),
        Role::Client(client) => client_hears(alloc, client, message),
    }
}

/// A node does something by itself. `Stray` where it is nothing that such a node does.
fn act<D: Disk + Drop>(alloc: Global, role: &mut Role<D>, event: Event) -> Result<Turn, Refusal>
    ensures { ActsAs D.seen D.failures event.moment event.happening role.old (told result) role.new }
{
    match role {
        Role::Master(master) => master_acts(alloc, master, event),
        Role::Server(server) => server_acts(server, event),
        Role::Client(client) => client_acts(alloc, client, event),
    }
}

impl<D: Disk + Drop> Core for Role<D> {
    ghost use Rattle.gs_cluster_core.specs.Roles.{DoesAs, StartsAs};

    ghost Starts = { StartsAs D.seen D.failures };

    ghost Does = { DoesAs D.seen D.failures };

    fn take(&mut self, alloc: Global, took: Took) -> Result<Turn, Refusal> {
        match took {
            Took::Heard(sent) => hear(alloc, self, sent),
            Took::Did(event) => act(alloc, self, event),
        }
    }

    fn is_waiting(&self) -> bool {
        match self {
            Role::Master(master) => master.is_moving(),
            Role::Server(server) => server.is_waiting(),
            Role::Client(_) => false,
        }
    }
}
