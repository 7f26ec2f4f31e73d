// What a member makes of a forward.
ghost use Rattle.std.specs.Prelude.{◌≡◌};
ghost use Rattle.gs_msg.specs.declared.body.Body.TheVariants.{About};
ghost use Rattle.gs_msg.specs.declared.chunk.Chunk.TheVariants.{Ack};
ghost use Rattle.gs_server_lease.specs.Forwarding.{count_under};
ghost use Rattle.gs_server_lease.specs.Leases.{tell};

use crate::lease::tell;
use gs_base::{Handle, Refusal, ServerId, Stamp};
use gs_msg::{Body, Chunk, Message, NodeId};

/// How many edits the live replica of a member has applied, if it may take a forward of this stamp. `NoReplica` where none is live,
/// and `Stamp` with the member's promise where the forward is of another stamp.
pub fn count_under(stamp: Stamp, promise: Stamp, count: Option<u64>) -> Result<u64, Refusal>
    ensures { result ≡ count_under stamp promise count }
{
    let Some(count) = count else {
        return Err(Refusal::NoReplica);
    };
    if stamp != promise {
        return Err(Refusal::Stamp(promise));
    }
    Ok(count)
}

/// By what a member tells the primary that forwarded an edit how many edits its replica has applied.
pub fn acknowledgement(
    me: ServerId,
    handle: Handle,
    to: NodeId,
    stamp: Stamp,
    count: u64,
) -> Message
    ensures { result ≡ tell me to (About handle (Ack stamp count)) }
{
    tell(me, to, Body::About(handle, Chunk::Ack { stamp, count }))
}
