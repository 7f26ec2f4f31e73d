ghost use Rattle.std.specs.Prelude.{◌≡◌, ◌-◌};
ghost use Rattle.gs_world.specs.Outcomes.{id_at};

use gs_base::Refusal;
use gs_msg::{MsgId, NodeId};

/// What is told of an event. The messages that the node sent at it stand one behind the other among all that it has sent; those for which
/// memory is wanting are lost, and no ids are left out for them.
#[derive(Debug, Drop)]
pub struct Outcome {
    /// The node that the event was at.
    pub by: NodeId,
    /// The refusal with which the event was met, if it was.
    pub said: Result<(), Refusal>,
    /// The place of the first message that the node sent at the event, if it sent one.
    pub first: u64,
    /// The place behind the last one.
    pub end: u64,
}

impl Outcome {
    /// How many messages the node sent at the event.
    pub fn count(&self) -> u64
        ensures { result ≡ self.now.end - self.now.first }
    {
        self.end.saturating_sub(self.first)
    }

    /// The id of a message that the node sent at the event, of which the first is that of 0.
    pub fn id(&self, nth: u64) -> Option<MsgId>
        ensures { result ≡ id_at self.now nth }
    {
        if nth >= self.count() {
            return None;
        }
        Some(MsgId {
            sender: self.by,
            place: self.first + nth,
        })
    }
}
