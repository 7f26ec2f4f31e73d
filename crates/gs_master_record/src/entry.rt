use crate::checkpoint::Checkpoint;
use gs_base::{Handle, Members, Moment, Refusal, ReqId, ServerId};
use gs_edit::Edit;
use gs_lease::View;

/// A view of a chunk as a journal tells it.
#[derive(Clone, Copy, Debug, PartialEq, Eq)]
pub struct SettledView {
    pub handle: Handle,
    pub view: View,
}

/// Which servers answered that they have a chunk as it stood at prepare.
#[derive(Clone, Copy, Debug, PartialEq, Eq)]
pub struct Answered {
    pub handle: Handle,
    pub members: Members,
}

/// An entry of the master's journal. The epoch of an entry is the one that the master is in once the entry is written:
/// an even one is ordinary, an odd one is that of an upgrade. Only `Prepare`, `Finalize` and `RollbackBegin` begin an epoch.
#[derive(Drop)]
pub enum Entry {
    /// An edit of the names was accepted. Client 0 under number 0 is the master itself.
    Edit {
        by: ReqId,
        edit: Edit,
    },
    /// A request was refused, and the refusal is kept.
    Said {
        to: ReqId,
        refusal: Refusal,
    },
    /// A view of a chunk is begun with this version.
    Propose {
        handle: Handle,
        version: u64,
    },
    /// A view of a chunk is settled.
    Settle(SettledView),
    /// An upgrade is prepared. This epoch is the odd one that begins with it, by one greater than the epoch before.
    /// `chunks` is how many chunks are listed.
    Prepare {
        epoch: u64,
        moment: Moment,
        chunks: u32,
    },
    /// An upgrade is finalized. This epoch is the even one that begins with it, by one greater than the upgrade's.
    Finalize {
        epoch: u64,
    },
    /// The rollback of an upgrade is begun. This epoch is the even one that begins with it, by one greater than the
    /// upgrade's.
    RollbackBegin {
        epoch: u64,
    },
    /// The rollback of an upgrade is done. This epoch is the one that began with the rollback, and it goes on.
    RollbackCommit {
        epoch: u64,
        answered: Vec<Answered>,
    },
    /// What the entries before it come to. It stands first on its disk.
    Checkpoint(Checkpoint),
    /// A server holds a copy of a chunk with its sealed image.
    Holder {
        handle: Handle,
        server: ServerId,
    },
}
