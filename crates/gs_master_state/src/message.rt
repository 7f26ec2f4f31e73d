// Messages of the master.
ghost use Rattle.std.specs.Prelude.{◌≡◌, IfOk};
ghost use Rattle.gs_master_spec.specs.Hearing.{behind, next_epoch};
ghost use Rattle.gs_master_state.specs.inner.Recorded.{durable_of};
ghost use Rattle.gs_master_spec.specs.State.{post};

use crate::recorded::Recorded;
use gs_base::ServerId;
use gs_msg::{Body, Message, NodeId};
use std::alloc::AllocError;

pub fn post(to: NodeId, body: Body) -> Message
    ensures { result ≡ post to body }
{
    let from = NodeId::Master;
    Message { from, to, body }
}

impl Recorded {
    /// How its epoch ended, for a server that is behind.
    pub fn next_epoch(&self, server: ServerId, epoch: u64) -> Result<Vec<Message>, AllocError>
        ensures { IfOk result (λ sent. sent.items ≡ next_epoch (durable_of self.now) server epoch) }
    {
        let Some(end) = self.ends.get(epoch as usize) else {
            return Ok(Vec::new(self.alloc));
        };
        let told = Body::Epoch {
            epoch: epoch + 1,
            end: *end,
        };
        Ok(vec![in self.alloc; post(NodeId::Server(server), told)]?)
    }
}
