use crate::note::Note;
use gs_base::Refusal;
use gs_msg::Message;

/// What a node does at an event: what it sends, and the refusal with which it met what it heard, if it did.
#[derive(Debug, Drop)]
pub struct Turn {
    pub sent: Vec<Message>,
    pub said: Option<Refusal>,
}

/// An event of a node, behind it: what it took, at which clock, and what came of it.
#[derive(Drop)]
pub struct Deed {
    pub note: Note,
    pub clock: u64,
    pub done: Result<Turn, Refusal>,
}
