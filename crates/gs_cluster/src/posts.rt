// What all nodes of a cluster have sent, as a store has it.
ghost use Rattle.std.specs.Prelude.{◌≡◌, ◌<◌, ◌++◌, ◌∷◌, false, IfOk, length, vec_len};
ghost use Rattle.gs_world.specs.Sent.{Sent as TheSent, all_posts};

use crate::cluster::parted;
use gs_msg::Outbox;
use gs_world::Posts;
use std::alloc::{AllocError, Global};

/// What was sent, by the outboxes of the master, of so many servers, and of the clients, in the order of their numbers.
pub(crate) fn posts_from(
    alloc: Global,
    servers: usize,
    outboxes: Vec<Outbox>,
) -> Result<Posts, AllocError>
    requires { servers < vec_len outboxes }
    ensures { IfOk result (λ posts. (s : TheSent) → all_posts outboxes.items ≡ s.master ∷ (s.servers ++ s.clients) → length s.servers ≡ servers → s.has_lost ≡ false → posts ≡ s) }
{
    let (store, clients) = parted(alloc, servers + 1, outboxes)?;
    let (masters, servers) = parted(alloc, 1, store)?;
    let mut masters = masters;
    let Some(master) = masters.pop() else {
        unreachable!()
    };
    Ok(Posts::of(master, servers, clients))
}
