ghost use Rattle.std.specs.Prelude.{◌≡◌, ◌↔◌, IsTrue, IfOk};

use gs_base::Stamp;
use gs_path::Path;
use std::alloc::{AllocError, Global};

/// What a client asks of the master. An index is a chunk's place in its file, from 0.
#[derive(Debug, Drop)]
pub enum Call {
    Mkdirs(Path),
    Create(Path),
    Rename {
        from: Path,
        to: Path,
    },
    Delete {
        path: Path,
        recursive: bool,
    },
    Undelete(Path),
    Snapshot {
        from: Path,
        to: Path,
    },
    List(Path),
    Status(Path),
    FindForReading {
        path: Path,
        index: u64,
    },
    /// With the stamp under which the client was refused, if it was.
    FindForWriting {
        path: Path,
        index: u64,
        refused: Option<Stamp>,
    },
    Extend {
        path: Path,
        index: u64,
    },
    Scan,
    Replicate,
    Query,
    PrepareBegin,
    PrepareCommit,
    PrepareAbort,
    Finalize,
    RollbackBegin,
    RollbackCommit,
}

impl Call {
    /// Whether another call is the same.
    pub fn is_same(&self, other: &Call) -> bool
        ensures { IsTrue result ↔ (self.now ≡ other.now) }
    {
        match (self, other) {
            (Call::Mkdirs(left), Call::Mkdirs(right))
            | (Call::Create(left), Call::Create(right))
            | (Call::Undelete(left), Call::Undelete(right))
            | (Call::List(left), Call::List(right))
            | (Call::Status(left), Call::Status(right)) => same_path(left, right),
            (
                Call::Rename { from, to },
                Call::Rename {
                    from: other_from,
                    to: other_to,
                },
            )
            | (
                Call::Snapshot { from, to },
                Call::Snapshot {
                    from: other_from,
                    to: other_to,
                },
            ) => { same_path(from, other_from) && same_path(to, other_to) }
            (
                Call::Delete { path, recursive },
                Call::Delete {
                    path: other_path,
                    recursive: other_recursive,
                },
            ) => recursive == other_recursive && same_path(path, other_path),
            (
                Call::FindForReading { path, index },
                Call::FindForReading {
                    path: other_path,
                    index: other_index,
                },
            )
            | (
                Call::Extend { path, index },
                Call::Extend {
                    path: other_path,
                    index: other_index,
                },
            ) => index == other_index && same_path(path, other_path),
            (
                Call::FindForWriting {
                    path,
                    index,
                    refused,
                },
                Call::FindForWriting {
                    path: other_path,
                    index: other_index,
                    refused: other_refused,
                },
            ) => index == other_index && refused == other_refused && same_path(path, other_path),
            (Call::Scan, Call::Scan)
            | (Call::Replicate, Call::Replicate)
            | (Call::Query, Call::Query)
            | (Call::PrepareBegin, Call::PrepareBegin)
            | (Call::PrepareCommit, Call::PrepareCommit)
            | (Call::PrepareAbort, Call::PrepareAbort)
            | (Call::Finalize, Call::Finalize)
            | (Call::RollbackBegin, Call::RollbackBegin)
            | (Call::RollbackCommit, Call::RollbackCommit) => true,
            _ => false,
        }
    }

    /// The same call, in memory of its own.
    pub fn copy(&self, alloc: Global) -> Result<Call, AllocError>
        ensures { IfOk result (λ call. call ≡ self.now) }
    {
        Ok(match self {
            Call::Mkdirs(path) => Call::Mkdirs(path.copy(alloc)?),
            Call::Create(path) => Call::Create(path.copy(alloc)?),
            Call::Rename { from, to } => Call::Rename {
                from: from.copy(alloc)?,
                to: to.copy(alloc)?,
            },
            Call::Delete { path, recursive } => Call::Delete {
                path: path.copy(alloc)?,
                recursive: *recursive,
            },
            Call::Undelete(path) => Call::Undelete(path.copy(alloc)?),
            Call::Snapshot { from, to } => Call::Snapshot {
                from: from.copy(alloc)?,
                to: to.copy(alloc)?,
            },
            Call::List(path) => Call::List(path.copy(alloc)?),
            Call::Status(path) => Call::Status(path.copy(alloc)?),
            Call::FindForReading { path, index } => Call::FindForReading {
                path: path.copy(alloc)?,
                index: *index,
            },
            Call::FindForWriting {
                path,
                index,
                refused,
            } => Call::FindForWriting {
                path: path.copy(alloc)?,
                index: *index,
                refused: *refused,
            },
            Call::Extend { path, index } => Call::Extend {
                path: path.copy(alloc)?,
                index: *index,
            },
            Call::Scan => Call::Scan,
            Call::Replicate => Call::Replicate,
            Call::Query => Call::Query,
            Call::PrepareBegin => Call::PrepareBegin,
            Call::PrepareCommit => Call::PrepareCommit,
            Call::PrepareAbort => Call::PrepareAbort,
            Call::Finalize => Call::Finalize,
            Call::RollbackBegin => Call::RollbackBegin,
            Call::RollbackCommit => Call::RollbackCommit,
        })
    }
}

pub(crate) fn same_path(left: &Path, right: &Path) -> bool
    ensures { IsTrue result ↔ (left.now ≡ right.now) }
{
    left == right
}
