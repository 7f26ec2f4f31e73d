ghost use Rattle.std.specs.Prelude.{◌≡◌, ◌↔◌, IsTrue, IfOk};

use crate::body::Body;
use crate::node::NodeId;
use std::alloc::{AllocError, Global};

/// A message from one node to another.
#[derive(Debug, Drop)]
pub struct Message {
    pub from: NodeId,
    pub to: NodeId,
    pub body: Body,
}

impl Message {
    /// Whether another message is the same.
    pub fn is_same(&self, other: &Message) -> bool
        ensures { IsTrue result ↔ (self.now ≡ other.now) }
    {
        self.from == other.from && self.to == other.to && self.body.is_same(&other.body)
    }

    /// The same message, in memory of its own.
    pub fn copy(&self, alloc: Global) -> Result<Message, AllocError>
        ensures { IfOk result (λ message. message ≡ self.now) }
    {
        Ok(Message {
            from: self.from,
            to: self.to,
            body: self.body.copy(alloc)?,
        })
    }
}

/// A message by its sender and its place in the list of what that sender has sent, from 0.
#[derive(Clone, Copy, Debug, PartialEq, Eq)]
pub struct MsgId {
    pub sender: NodeId,
    pub place: u64,
}
