use crate::entry::SettledView;
use gs_base::{EpochEnd, Handle, Members, Refusal, ReqId};
use gs_edit::ListedInverse;
use gs_tree::TreeEntry;

/// What the master is at with an upgrade. While it prepares one, no checkpoint is written.
#[derive(Clone, Copy, Debug, PartialEq, Eq)]
pub enum Phase {
    Ordinary,
    /// An upgrade stands.
    Upgrade,
    /// A rollback is begun.
    Rolling,
}

/// How often a chunk is referenced.
#[derive(Clone, Copy, Debug, PartialEq, Eq)]
pub struct Reference {
    pub handle: Handle,
    pub count: u32,
}

/// The settled view of a chunk, and whether another is begun.
#[derive(Clone, Copy, Debug, PartialEq, Eq)]
pub struct SettledEntry {
    pub settled: SettledView,
    pub is_moving: bool,
}

/// How a request was answered.
#[derive(Drop)]
pub enum KeptOutcome {
    /// It was accepted, with this text as its answer.
    Accepted(String),
    Refused(Refusal),
}

/// A kept reply: the last of a client.
#[derive(Drop)]
pub struct Reply {
    pub to: ReqId,
    pub outcome: KeptOutcome,
}

/// The view of a chunk as it stood at prepare, and who holds a copy with its sealed image since.
#[derive(Clone, Copy, Debug, PartialEq, Eq)]
pub struct PreparedView {
    pub settled: SettledView,
    pub holders: Members,
}

/// All that the master keeps over a restart, in one entry. It can be written only where its lists stand in the order that
/// is told of each. None has two items of one path, chunk or client.
///
/// A counter stands at the value that is given next, from 1 on. Once 18,446,744,073,709,551,615 was given, it stands at 0:
/// no value is left, and whoever asks for one is refused `Exhausted`.
#[derive(Drop)]
pub struct Checkpoint {
    /// The handle of the next chunk, or 0 where none is left.
    pub next_handle: u64,
    /// The version of the next view, or 0 where none is left.
    pub next_version: u64,
    /// The number of the next deletion, or 0 where none is left.
    pub next_hidden: u64,
    pub epoch: u64,
    pub phase: Phase,
    /// How the epochs before this one ended, the first epoch's first.
    pub ends: Vec<EpochEnd>,
    /// In the order of the bytes of their paths' texts.
    pub tree: Vec<TreeEntry>,
    /// Ascending by handle.
    pub references: Vec<Reference>,
    /// Ascending by handle.
    pub settled: Vec<SettledEntry>,
    /// Ascending by client.
    pub replies: Vec<Reply>,
    /// Ascending by handle.
    pub prepared: Vec<PreparedView>,
    /// What takes back the edits since prepare, in the order of the edits.
    pub inverses: Vec<ListedInverse>,
}
