ghost use Rattle.std.specs.Prelude.{◌≡◌, [], Some, None};

use gs_base::Refusal;
use gs_msg::Message;
use std::alloc::Global;

/// What a server sends because of an event, and the refusal with which it met what it was sent.
#[derive(Debug, Drop)]
pub struct Turn {
    pub sent: Vec<Message>,
    pub said: Option<Refusal>,
}

/// A client's edit that was refused last.
#[derive(Debug, Drop)]
pub struct KeptRefusal {
    /// The number of the client's request.
    pub number: u64,
    pub refusal: Refusal,
}

impl Turn {
    /// Nothing is sent, and nothing was refused. It takes no memory.
    pub(crate) fn silent(alloc: Global) -> Turn
        ensures sent { result.sent.items ≡ [] }
        ensures said { result.said ≡ None }
    {
        Turn {
            sent: Vec::new(alloc),
            said: None,
        }
    }

    /// A refusal that no message carries. It takes no memory.
    pub(crate) fn refused(alloc: Global, refusal: Refusal) -> Turn
        ensures sent { result.sent.items ≡ [] }
        ensures said { result.said ≡ Some refusal }
    {
        Turn {
            sent: Vec::new(alloc),
            said: Some(refusal),
        }
    }
}
