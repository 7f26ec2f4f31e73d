ghost use Rattle.std.specs.Prelude.{◌≡◌, ◌≤◌, ◌+◌, ◌++◌, ◌∷◌, [], IfOk};

use gs_msg::Message;
use std::alloc::{AllocError, Global};
use std::marker::Model;

/// Messages that are to be sent, in order. Room for them is made first, so that putting one takes no memory.
#[derive(Drop)]
pub(crate) struct Sending {
    messages: Vec<Message>,
}

impl Model for Sending {
    ghost use Rattle.std.specs.Prelude.{◌-◌};
    ghost use Rattle.std.specs.Vec.{vec_len, vec_capacity};
    ghost use Rattle.gs_server.specs.inner.Rooms.{Room, coded_room};

    ghost Value = { Room };

    ghost coded = { coded_room };

    ghost view = { λ s. record { messages = s.messages.items; room = vec_capacity s.messages - vec_len s.messages } };
}

impl Sending {
    /// No messages yet, and room for so many.
    pub(crate) fn with_room(alloc: Global, count: usize) -> Result<Sending, AllocError>
        ensures none { IfOk result (λ s. s.messages ≡ []) }
        ensures room { IfOk result (λ s. s.room ≡ count) }
    {
        Ok(Sending {
            messages: Vec::with_capacity(alloc, count)?,
        })
    }

    /// Puts one more, for which there is room.
    pub(crate) fn put(&mut self, message: Message)
        requires room { 1 ≤ self.old.room }
        ensures messages { self.new.messages ≡ self.old.messages ++ message ∷ [] }
        ensures left { self.old.room ≤ self.new.room + 1 }
    {
        self.messages.push(message).unwrap();
    }

    pub(crate) fn into_messages(self) -> Vec<Message>
        ensures { result.items ≡ self.messages }
    {
        self.messages
    }
}
