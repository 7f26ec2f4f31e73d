ghost use Rattle.std.specs.Prelude.{◌≡◌, ◌<◌, ◌↔◌, IsTrue, IfOk};

use crate::message::Message;
use crate::node::NodeId;
use gs_base::Moment;
use std::alloc::{AllocError, Global};

/// A message on its way between nodes that run at once, with what its receiver has to know of it.
#[derive(Debug, Drop)]
pub struct Sent {
    pub from: NodeId,
    /// Its place in the list of what that node has sent, from 0.
    pub place: u64,
    /// The clock of the node that sent it, in the event that did. A node that takes it has a greater clock, so it is never the
    /// last of all.
    pub clock: u64,
    /// The moment of that event.
    pub moment: Moment,
    pub message: Message,
    pub ghost early: { clock < 18446744073709551615 },
}

impl Sent {
    /// Whether another is the same.
    pub fn is_same(&self, other: &Sent) -> bool
        ensures { IsTrue result ↔ (self.now ≡ other.now) }
    {
        self.from == other.from
            && self.place == other.place
            && self.clock == other.clock
            && self.moment == other.moment
            && self.message.is_same(&other.message)
    }

    /// The same, in memory of its own.
    pub fn copy(&self, alloc: Global) -> Result<Sent, AllocError>
        ensures { IfOk result (λ sent. sent ≡ self.now) }
    {
        Ok(Sent {
            from: self.from,
            place: self.place,
            clock: self.clock,
            moment: self.moment,
            message: self.message.copy(alloc)?,
        })
    }
}
