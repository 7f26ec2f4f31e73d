ghost use Rattle.std.specs.Prelude.{◌≡◌, ◌++◌, OnOk, IfOk, flat_map};
ghost use Rattle.gs_master_spec.specs.Volatile.{above, paths_of, reads_of, writes_of};

use gs_base::{Handle, ReqId, ServerId};
use gs_path::Path;
use std::alloc::{AllocError, Global};

/// What a call waits for. An index is a chunk's place in its file, from 0.
#[derive(Debug, Drop)]
pub enum Waiting {
    /// That a new chunk is settled, which is then added to the file.
    Extend {
        path: Path,
        chunk: Handle,
    },
    /// That the chunk is settled with a lease.
    Lease {
        path: Path,
        index: u64,
        chunk: Handle,
    },
    /// That a chunk of several references is settled without a primary. It is then copied.
    Quiet {
        path: Path,
        index: u64,
        chunk: Handle,
    },
    /// That a copy of a chunk is settled, which then takes the chunk's place in the file.
    Copy {
        path: Path,
        index: u64,
        old: Handle,
        new: Handle,
    },
    /// That every visible chunk of the source is quiet.
    Snapshot {
        from: Path,
        to: Path,
    },
    /// That a chunk is settled with another member.
    Replicate {
        chunk: Handle,
        target: ServerId,
    },
}

/// A call that lasts several events.
#[derive(Debug, Drop)]
pub struct Pending {
    pub req: ReqId,
    pub waits: Waiting,
}

/// Adds the paths above a path, the root first.
#[tactic(auto, using(crate::proofs::Above::above_next))]
fn add_above(paths: &mut Vec<Path>, alloc: Global, path: &Path) -> Result<(), AllocError>
    ensures { OnOk result (paths.new.items ≡ paths.old.items ++ above path.now) }
{
    let mut front = Path::root(alloc);
    for name in path.elements() {
        paths.push(front.copy(alloc)?)?;
        front.push(name.copy(alloc)?)?;
    }
    Ok(())
}

impl Waiting {
    /// The paths that a call reads while it waits, those above its own too.
    pub fn reads(&self, alloc: Global) -> Result<Vec<Path>, AllocError>
        ensures { IfOk result (λ paths. paths.items ≡ flat_map above (paths_of self.now) ++ reads_of self.now) }
    {
        let mut paths = Vec::new(alloc);
        match self {
            Waiting::Extend { path, .. }
            | Waiting::Quiet { path, .. }
            | Waiting::Copy { path, .. } => add_above(&mut paths, alloc, path)?,
            Waiting::Lease { path, .. } => {
                add_above(&mut paths, alloc, path)?;
                paths.push(path.copy(alloc)?)?;
            }
            Waiting::Snapshot { from, to } => {
                add_above(&mut paths, alloc, from)?;
                add_above(&mut paths, alloc, to)?;
            }
            Waiting::Replicate { .. } => {}
        }
        Ok(paths)
    }

    /// The paths that a call writes while it waits.
    pub fn writes(&self, alloc: Global) -> Result<Vec<Path>, AllocError>
        ensures { IfOk result (λ paths. paths.items ≡ writes_of self.now) }
    {
        let mut paths = Vec::new(alloc);
        match self {
            Waiting::Extend { path, .. }
            | Waiting::Quiet { path, .. }
            | Waiting::Copy { path, .. } => paths.push(path.copy(alloc)?)?,
            Waiting::Snapshot { from, to } => {
                paths.push(from.copy(alloc)?)?;
                paths.push(to.copy(alloc)?)?;
            }
            Waiting::Lease { .. } | Waiting::Replicate { .. } => {}
        }
        Ok(paths)
    }

    /// The same, in memory of its own.
    pub fn copy(&self, alloc: Global) -> Result<Waiting, AllocError>
        ensures { IfOk result (λ waits. waits ≡ self.now) }
    {
        Ok(match self {
            Waiting::Extend { path, chunk } => Waiting::Extend {
                path: path.copy(alloc)?,
                chunk: *chunk,
            },
            Waiting::Lease { path, index, chunk } => Waiting::Lease {
                path: path.copy(alloc)?,
                index: *index,
                chunk: *chunk,
            },
            Waiting::Quiet { path, index, chunk } => Waiting::Quiet {
                path: path.copy(alloc)?,
                index: *index,
                chunk: *chunk,
            },
            Waiting::Copy {
                path,
                index,
                old,
                new,
            } => Waiting::Copy {
                path: path.copy(alloc)?,
                index: *index,
                old: *old,
                new: *new,
            },
            Waiting::Snapshot { from, to } => Waiting::Snapshot {
                from: from.copy(alloc)?,
                to: to.copy(alloc)?,
            },
            Waiting::Replicate { chunk, target } => Waiting::Replicate {
                chunk: *chunk,
                target: *target,
            },
        })
    }
}

impl Pending {
    /// The same, in memory of its own.
    pub fn copy(&self, alloc: Global) -> Result<Pending, AllocError>
        ensures { IfOk result (λ pending. pending ≡ self.now) }
    {
        let req = self.req;
        let waits = self.waits.copy(alloc)?;
        Ok(Pending { req, waits })
    }
}

/// The same calls, in memory of their own.
pub fn copied(alloc: Global, pending: &[Pending]) -> Result<Vec<Pending>, AllocError>
    ensures { IfOk result (λ copies. copies.items ≡ pending.now) }
{
    let mut copies = Vec::with_capacity(alloc, pending.len())?;
    for one in pending {
        copies.push(one.copy(alloc)?)?;
    }
    Ok(copies)
}
