// What happens at the nodes.
ghost use Rattle.std.specs.Prelude.{◌≡◌, ◌∷◌, [], IfOk};
ghost use Rattle.gs_base.specs.Calls.{Does};
ghost use Rattle.gs_world.specs.Crashing.{SurvivesAtNode, leaves_of, left_of, moment_of};
ghost use Rattle.gs_world.specs.Histories.{arms, AsksAt, Befalls, Beats, FailsDisk, Restarts, Ticks, failures_of, fault_at, seen_of, silent, told};
ghost use Rattle.gs_server.specs.Servers as servers;
ghost use Rattle.gs_nodes.specs.Nodes.{nodes_of};

use gs_base::{Handle, Moment, Refusal, ReqId, ServerId};
use gs_journal::{Disk, FailingDisk, Fault};
use gs_msg::{DiskId, Message, Request, StoreNode};
use gs_nodes::{Nodes, Turn};
use std::alloc::{AllocError, Global};

/// Nothing goes out, and nothing is said.
fn quiet(alloc: Global, done: Result<(), Refusal>) -> Result<Turn, Refusal>
    ensures { told result ≡ silent done }
{
    done?;
    Ok(Turn {
        sent: Vec::new(alloc),
        said: None,
    })
}

/// One message goes out.
fn one(alloc: Global, message: Message) -> Result<Vec<Message>, AllocError>
    ensures { IfOk result (λ sent. sent.items ≡ message ∷ []) }
{
    let mut sent = Vec::new(alloc);
    sent.push(message)?;
    Ok(sent)
}

/// The fault of a disk that fails at the call of this number, counted from 1.
fn fault_at(call: u64) -> Fault
    ensures { result ≡ fault_at call }
{
    if call == 0 {
        return Fault::Never;
    }
    Fault::Fail(call - 1)
}

/// A client asks under a number.
pub(crate) fn ask<D: Disk + Drop>(
    nodes: &mut Nodes<FailingDisk<D>>,
    req: ReqId,
    request: Request,
) -> Result<Turn, Refusal>
    ensures { AsksAt req request (nodes_of nodes.old) (told result) (nodes_of nodes.new) }
{
    let sent = nodes.ask(req, request)?;
    Ok(Turn { sent, said: None })
}

pub(crate) fn tick<D: Disk + Drop>(
    nodes: &mut Nodes<FailingDisk<D>>,
    moment: Moment,
    node: StoreNode,
) -> Result<Turn, Refusal>
    ensures { Ticks (seen_of D.seen) (failures_of D.failures) arms moment node (nodes_of nodes.old) (told result) (nodes_of nodes.new) }
{
    match node {
        StoreNode::Master => nodes.tick_master(moment),
        StoreNode::Server(server) => nodes.tick_server(server, moment),
    }
}

pub(crate) fn beat<D: Disk + Drop>(
    nodes: &Nodes<FailingDisk<D>>,
    server: ServerId,
) -> Result<Turn, Refusal>
    ensures { Beats server (nodes_of nodes.now) (told result) (nodes_of nodes.now) }
{
    let report = nodes.beat(server)?;
    match one(nodes.alloc, report) {
        Ok(sent) => Ok(Turn { sent, said: None }),
        Err(_) => Err(Refusal::Memory),
    }
}

pub(crate) fn restart<D: Disk + Drop>(
    nodes: &mut Nodes<FailingDisk<D>>,
    node: StoreNode,
) -> Result<Turn, Refusal>
    ensures restarts { Restarts (seen_of D.seen) (failures_of D.failures) arms node (nodes_of nodes.old) (told result) (nodes_of nodes.new) }
    ensures survives { SurvivesAtNode (seen_of D.seen) (leaves_of D.may_leave) (moment_of D.moment) (left_of D.left_since) node nodes.old.master nodes.new.master }
{
    match node {
        StoreNode::Master => nodes.restart_master(),
        StoreNode::Server(server) => {
            let done = nodes.restart_server(server);
            quiet(nodes.alloc, done)
        }
    }
}

pub(crate) fn lose<D: Disk + Drop>(
    nodes: &mut Nodes<FailingDisk<D>>,
    server: ServerId,
    handle: Handle,
) -> Result<Turn, Refusal>
    ensures { Befalls server (λ s done after. Does (servers.lose handle s) done s after) (nodes_of nodes.old) (told result) (nodes_of nodes.new) }
{
    let done = nodes.lose(server, handle);
    quiet(nodes.alloc, done)
}

pub(crate) fn damage<D: Disk + Drop>(
    nodes: &mut Nodes<FailingDisk<D>>,
    server: ServerId,
    handle: Handle,
    block: u64,
) -> Result<Turn, Refusal>
    ensures { Befalls server (λ s done after. Does (servers.damage handle block s) done s after) (nodes_of nodes.old) (told result) (nodes_of nodes.new) }
{
    let done = nodes.damage(server, handle, block);
    quiet(nodes.alloc, done)
}

pub(crate) fn fail_disk<D: Disk + Drop>(
    nodes: &mut Nodes<FailingDisk<D>>,
    disk: DiskId,
    call: u64,
) -> Result<Turn, Refusal>
    ensures { FailsDisk (seen_of D.seen) (failures_of D.failures) arms disk call (nodes_of nodes.old) (told result) (nodes_of nodes.new) }
{
    match disk {
        DiskId::First => nodes.arm_first(fault_at(call)),
        DiskId::Second => nodes.arm_second(fault_at(call)),
    }
    quiet(nodes.alloc, Ok(()))
}
