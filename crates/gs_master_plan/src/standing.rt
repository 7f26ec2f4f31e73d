ghost use Rattle.std.specs.Prelude.{◌≡◌};
ghost use Rattle.std.specs.Option.{option_copied};
ghost use Rattle.gs_master_plan.specs.inner.Planning.{state_of};
ghost use Rattle.gs_master_spec.specs.Replies.{is_later};
ghost use Rattle.gs_master_spec.specs.State.{last_reply};

use gs_base::{ClientId, ReqId};
use gs_master_spec::reply::KeptReply;
use gs_master_state::fault::Fault;
use gs_master_state::log::Log;
use gs_master_state::memory::Memory;
use gs_master_state::recorded::Recorded;

/// The master as a planner sees it, which changes nothing.
#[derive(Clone, Copy)]
pub struct Standing<'a> {
    pub recorded: &'a Recorded,
    pub memory: &'a Memory,
    pub log: Log,
    pub fault: &'a Fault,
}

impl<'a> Standing<'a> {
    /// The last reply to a client.
    pub fn last_reply(&self, client: ClientId) -> Option<&'a KeptReply>
        ensures { option_copied result ≡ last_reply (state_of self.entry.now) client }
    {
        let recorded = self.recorded.replies.get(client);
        let kept = self.memory.reply(client);
        match (recorded, kept) {
            (Some(reply), Some(other)) if reply.number < other.number => Some(other),
            (Some(reply), _) => Some(reply),
            (None, kept) => kept,
        }
    }

    /// Whether a request is later than the one of its client that was answered last.
    pub fn is_later(&self, req: ReqId) -> bool
        ensures { result ≡ is_later (last_reply (state_of self.entry.now) req.client) req.number }
    {
        match self.last_reply(req.client) {
            Some(reply) => reply.number < req.number,
            None => true,
        }
    }
}
