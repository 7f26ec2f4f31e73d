ghost use Rattle.std.specs.Prelude.{◌≡◌, IfOk};

use gs_base::{Refusal, ReqId};
use gs_msg::{Answer, Given, Request};
use gs_replica::EditOutcome;
use std::alloc::{AllocError, Global};

/// What comes back for a request.
#[derive(Debug, Drop)]
pub enum Reply {
    /// What the master answers to a call.
    Answer(Answer),
    /// What an edit answers.
    Outcome(EditOutcome),
    /// What a fetch gives.
    Given(Given),
    Refused(Refusal),
    /// Nothing came back.
    Lost,
}

impl Reply {
    /// The same, in memory of its own.
    pub fn copy(&self, alloc: Global) -> Result<Reply, AllocError>
        ensures { IfOk result (λ reply. reply ≡ self.now) }
    {
        Ok(match self {
            Reply::Answer(answer) => Reply::Answer(answer.copy(alloc)?),
            Reply::Outcome(outcome) => Reply::Outcome(*outcome),
            Reply::Given(given) => Reply::Given(given.copy(alloc)?),
            Reply::Refused(refusal) => Reply::Refused(refusal.copy(alloc)?),
            Reply::Lost => Reply::Lost,
        })
    }
}

/// What carries a client's requests to the nodes of a store, and their answers back.
pub trait Link {
    ghost use Rattle.gs_base.specs.declared.numbers.ReqId.{ReqId};
    ghost use Rattle.gs_msg.specs.declared.event.Request.{Request};
    ghost use Rattle.gs_client.specs.declared.link.Reply.{Reply};

    /// Whether a request under this number gets this reply, and what the link is then.
    ghost Carries: { Self → ReqId → Request → Reply → Self → Type 0 };

    /// Carries one request to its reply. The request is handed over, so that its bytes needn't be copied.
    fn request(&mut self, req: ReqId, request: Request) -> Reply
        ensures { Carries self.old req request result self.new };
}
