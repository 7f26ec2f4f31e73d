ghost use Rattle.std.specs.Prelude.{◌≡◌, ◌↔◌, IsTrue, IfOk};

use crate::call::same_path;
use crate::lists::{Items, Names};
use crate::same::{same_chunks, same_view};
use gs_base::{Handle, Members, ServerId};
use gs_lease::View;
use gs_path::Path;
use std::alloc::{AllocError, Global};

/// What the master is at with an upgrade.
#[derive(Clone, Copy, Debug, PartialEq, Eq)]
pub enum Phase {
    Ordinary,
    /// An upgrade is being prepared.
    Preparing,
    /// An upgrade stands.
    Upgrade,
    /// A rollback is begun.
    Rolling,
}

/// What is known of a chunk of a file.
#[derive(Clone, Copy, Debug, PartialEq, Eq)]
pub struct ChunkStatus {
    pub handle: Handle,
    /// How often the chunk is referenced.
    pub references: u32,
    /// The members of the settled view.
    pub members: Members,
}

/// What stands at a path.
#[derive(Debug, Drop)]
pub enum Status {
    Directory,
    /// A file, with its chunks in order.
    File(Items<ChunkStatus>),
}

impl Items<ChunkStatus> {
    /// Whether another list is the same.
    pub fn is_same(&self, other: &Self) -> bool
        ensures { IsTrue result ↔ (self.now ≡ other.now) }
    {
        same_chunks(self.as_slice(), other.as_slice())
    }
}

impl Status {
    /// Whether another status is the same.
    pub fn is_same(&self, other: &Status) -> bool
        ensures { IsTrue result ↔ (self.now ≡ other.now) }
    {
        match (self, other) {
            (Status::Directory, Status::Directory) => true,
            (Status::File(left), Status::File(right)) => left.is_same(right),
            _ => false,
        }
    }

    /// The same status, in memory of its own.
    pub fn copy(&self, alloc: Global) -> Result<Status, AllocError>
        ensures { IfOk result (λ status. status ≡ self.now) }
    {
        Ok(match self {
            Status::Directory => Status::Directory,
            Status::File(chunks) => Status::File(chunks.copy(alloc)?),
        })
    }
}

/// A chunk of which a server has a copy now.
#[derive(Clone, Copy, Debug, PartialEq, Eq)]
pub struct Copied {
    pub handle: Handle,
    pub server: ServerId,
}

/// What the master answers to a call that it accepts.
#[derive(Debug, Drop)]
pub enum Answer {
    Nothing,
    /// The hidden path of what was deleted, or the path of what was undeleted.
    Path(Path),
    /// Nothing stood at the path that was to be deleted.
    Absent,
    Names(Names),
    Status(Status),
    /// Where a chunk is, and the epoch of the master.
    Location {
        handle: Handle,
        view: View,
        epoch: u64,
    },
    /// How many paths a scan removed, and how many chunks it forgot.
    Scanned {
        removed: u64,
        forgotten: u64,
    },
    /// The copy that was made, if one was.
    Copied(Option<Copied>),
    Epoch(u64),
    Phase {
        phase: Phase,
        epoch: u64,
    },
}

impl Answer {
    /// Whether another answer is the same.
    pub fn is_same(&self, other: &Answer) -> bool
        ensures { IsTrue result ↔ (self.now ≡ other.now) }
    {
        match (self, other) {
            (Answer::Nothing, Answer::Nothing) | (Answer::Absent, Answer::Absent) => true,
            (Answer::Path(left), Answer::Path(right)) => same_path(left, right),
            (Answer::Names(left), Answer::Names(right)) => left.is_same(right),
            (Answer::Status(left), Answer::Status(right)) => left.is_same(right),
            (
                Answer::Location {
                    handle,
                    view,
                    epoch,
                },
                Answer::Location {
                    handle: other_handle,
                    view: other_view,
                    epoch: other_epoch,
                },
            ) => handle == other_handle && same_view(view, other_view) && epoch == other_epoch,
            (
                Answer::Scanned { removed, forgotten },
                Answer::Scanned {
                    removed: other_removed,
                    forgotten: other_forgotten,
                },
            ) => removed == other_removed && forgotten == other_forgotten,
            (Answer::Copied(left), Answer::Copied(right)) => left == right,
            (Answer::Epoch(left), Answer::Epoch(right)) => left == right,
            (
                Answer::Phase { phase, epoch },
                Answer::Phase {
                    phase: other_phase,
                    epoch: other_epoch,
                },
            ) => phase == other_phase && epoch == other_epoch,
            _ => false,
        }
    }

    /// The same answer, in memory of its own.
    pub fn copy(&self, alloc: Global) -> Result<Answer, AllocError>
        ensures { IfOk result (λ answer. answer ≡ self.now) }
    {
        Ok(match self {
            Answer::Nothing => Answer::Nothing,
            Answer::Path(path) => Answer::Path(path.copy(alloc)?),
            Answer::Absent => Answer::Absent,
            Answer::Names(names) => Answer::Names(names.copy(alloc)?),
            Answer::Status(status) => Answer::Status(status.copy(alloc)?),
            Answer::Location {
                handle,
                view,
                epoch,
            } => Answer::Location {
                handle: *handle,
                view: *view,
                epoch: *epoch,
            },
            Answer::Scanned { removed, forgotten } => Answer::Scanned {
                removed: *removed,
                forgotten: *forgotten,
            },
            Answer::Copied(copied) => Answer::Copied(*copied),
            Answer::Epoch(epoch) => Answer::Epoch(*epoch),
            Answer::Phase { phase, epoch } => Answer::Phase {
                phase: *phase,
                epoch: *epoch,
            },
        })
    }
}
