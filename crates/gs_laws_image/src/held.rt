// Whether a store in memory is read again of its image.
ghost use Rattle.std.specs.List.{AllByRecursion};
ghost use Rattle.gs_laws_image.specs.Laws.{IsHeldAgain};
ghost use Rattle.gs_laws_image.specs.Slots.{IsServerHeld};

use gs_block::promises::configurations_have_sizes;
use gs_journal::MemoryDisk;
use gs_server::Server;
use gs_server_image::is_server_held;
use gs_shell_desk::Desk;

/// Each server in memory is read again as it is behind a restart, where it can be written.
fn are_servers_held(servers: &[Server])
    ensures { AllByRecursion IsServerHeld servers.now }
{
    for server in servers.iter() {
        is_server_held(server);
    }
}

/// The store that a desk's image tells of is read again as it is written, where it can be written and a restart has nothing to drop of its servers. It is
/// said of a desk whose disks are closed, and to which lines have led, from a new store or from an image. A caller whose proof asks this of a
/// desk calls it; it changes nothing.
pub fn is_desk_held(desk: &Desk<MemoryDisk>)
    ensures { IsHeldAgain desk.now }
{
    configurations_have_sizes();
    are_servers_held(&desk.wire.nodes.servers);
}
