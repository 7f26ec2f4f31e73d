// What stands in memory is read again, where it can be written.
ghost use Rattle.gs_server.specs.Servers.{restart};
ghost use Rattle.gs_server_image.specs.Writable.{IsServerTold, IsServer};
ghost use Rattle.gs_store_image.specs.StoreWritable.{AreSlotsOf};

use gs_server::Server;
use gs_store_image::is_store_held;

/// Each server in memory is read again as it is behind a restart, where it can be written and each of its slots is one of a store of its
/// sizes. A caller whose proof asks this of a server calls it; it changes nothing.
pub fn is_server_held(server: &Server)
    ensures { IsServerTold server.now → AreSlotsOf server.now.block server.now.chunk server.now.kept.slots → IsServer server.now.me server.now.block server.now.chunk (restart server.now) }
{
    is_store_held(server.store());
}
