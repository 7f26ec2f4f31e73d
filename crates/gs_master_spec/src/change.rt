use crate::asking::Asking;
use crate::pending::{Pending, Waiting};
use crate::reply::KeptReply;
use gs_base::{ClientId, Handle, ReqId, ServerId};
use gs_msg::Items;

/// A change of what the master keeps in memory alone.
#[derive(Drop)]
pub enum Change {
    /// This is asked for a chunk now, or answered.
    Ask(Handle, Asking),
    /// The chunk is settled: nothing is asked for it any more.
    Settled(Handle),
    /// A chunk is new: it has no place in a file yet.
    Enter(Handle),
    /// A new chunk has its place.
    Place(Handle),
    /// A new chunk is no more.
    Lose(Handle),
    /// Nothing is asked for these chunks any more, which are forgotten.
    Forget(Items<Handle>),
    /// A call begins to wait. It takes its locks.
    Begin(Pending),
    /// A call waits for something else now.
    Wait(ReqId, Waiting),
    /// A call has ended. Its locks are released.
    End(ReqId),
    /// An upgrade is being prepared, or isn't.
    Prepare(bool),
    /// The reply is the last to a client.
    Keep(ClientId, KeptReply),
    /// A server has these chunks as they were sealed.
    Restored(ServerId, Items<Handle>),
    /// A rollback is done: nothing is asked for any chunk, and no chunk is new.
    RolledBack,
}
