// What the nodes of a cluster have come to, as the nodes of a store.
ghost use Rattle.std.specs.Prelude.{◌≡◌, ◌≢◌, [], IfOk};
ghost use Rattle.gs_cluster.specs.inner.Members.{AreOf, cores_of, masters_in};
ghost use Rattle.gs_nodes.specs.Nodes.{Nodes as TheNodes, nodes_of};

use gs_base::Config;
use gs_cluster_core::Role;
use gs_cluster_threads::Member;
use gs_journal::Disk;
use gs_nodes::Nodes;
use std::alloc::{AllocError, Global};

/// The nodes of a store that are these members.
pub(crate) fn nodes_from<D: Disk + Drop>(
    alloc: Global,
    config: Config,
    members: Vec<Member<Role<D>>>,
) -> Result<Nodes<D>, AllocError>
    requires { masters_in (cores_of members.items) ≢ [] }
    ensures { IfOk result (λ nodes. (n : TheNodes D) → n.config ≡ config → AreOf n (cores_of members.items) → nodes_of nodes ≡ n) }
{
    let mut masters = Vec::new(alloc);
    let mut servers = Vec::new(alloc);
    let mut clients = Vec::new(alloc);
    for member in members {
        let Member { me: _, core } = member;
        match core {
            Role::Master(place) => masters.push(place)?,
            Role::Server(server) => servers.push(server)?,
            Role::Client(client) => clients.push(client)?,
        }
    }
    let Some(master) = masters.pop() else {
        unreachable!()
    };
    Ok(Nodes {
        alloc,
        config,
        master,
        servers,
        clients,
    })
}
