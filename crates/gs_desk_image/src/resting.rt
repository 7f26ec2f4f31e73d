// Whether a desk rests, and how the disks of its master are closed.
ghost use Rattle.std.specs.Prelude.{◌≡◌};
ghost use Rattle.gs_desk_image.specs.Desks.{asks_nothing, closed, is_closed, is_resting};
ghost use Rattle.gs_nodes.specs.Nodes.{with_master};
ghost use Rattle.gs_shell_desk.specs.Ways.{way_of, with_nodes};

use gs_client::ClientNode;
use gs_journal::Disk;
use gs_nodes::MasterPlace;
use gs_shell_desk::Desk;
use std::mem;

/// Whether the only client waits for nothing, and has heard nothing since.
fn asks_nothing(clients: &[ClientNode]) -> bool
    ensures { result ≡ asks_nothing clients.now }
{
    match clients {
        [node] => node.waits_for().is_none() && node.reply().is_none(),
        _ => false,
    }
}

/// Whether the disks of a master wait to be opened.
fn is_closed<D: Disk>(place: &MasterPlace<D>) -> bool
    ensures { result ≡ is_closed place.now }
{
    match place {
        MasterPlace::Closed { .. } => true,
        _ => false,
    }
}

/// Whether a desk rests: nothing is under way or held back, its client waits for nothing, and the disks of its master wait to be
/// opened.
pub fn is_resting<D: Disk + Drop>(desk: &Desk<D>) -> bool
    ensures { result ≡ is_resting desk.now }
{
    let wire = &desk.wire;
    is_closed(&wire.nodes.master)
        && wire.queue.is_empty()
        && wire.held_kind.is_none()
        && wire.held.is_empty()
        && asks_nothing(&wire.nodes.clients)
}

/// Closes the disks of the master, which loses what it keeps in memory alone. They wait to be opened, as behind a restart that was
/// refused: until the master is restarted each call is `Device`. It takes no memory.
pub fn close<D: Disk + Drop>(desk: &mut Desk<D>)
    ensures client { desk.new.caller.client ≡ desk.old.caller.client }
    ensures way { way_of desk.new.wire ≡ with_nodes (with_master (closed desk.old.wire.nodes.master) (way_of desk.old.wire).nodes) (way_of desk.old.wire) }
{
    let place = mem::replace(&mut desk.wire.nodes.master, MasterPlace::Away);
    let Some((first, second)) = place.into_disks() else {
        return;
    };
    let place = MasterPlace::Closed { first, second };
    drop(mem::replace(&mut desk.wire.nodes.master, place));
}
