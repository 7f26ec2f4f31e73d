use gs_msg::{Event, Sent};

/// What a node takes: a message that was sent to it, or an event of its own.
#[derive(Debug, Drop)]
pub enum Took {
    Heard(Sent),
    Did(Event),
}
