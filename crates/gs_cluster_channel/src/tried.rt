use gs_msg::Sent;

/// What came of a message that was to be sent.
#[derive(Debug, Drop)]
pub enum Tried {
    /// It is in the channel.
    Put,
    /// There was no room for it, or no memory: it is handed back.
    Back(Sent),
    /// Nobody receives any more.
    Lost,
}
