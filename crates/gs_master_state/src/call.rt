// The paths that a call writes.
ghost use Rattle.std.specs.Prelude.{[], if◌then◌else◌, ◌==◌, ◌∷◌, ◌≡◌, IfOk, length, slice_get};
ghost use Rattle.std.specs.FinMap as fin;
ghost use Rattle.gs_edit.specs.Plain.{unhide_target};
ghost use Rattle.gs_master_spec.specs.Calls.{chunks_at, gets_chunk, is_shared_in, missing, writes_of_call};
ghost use Rattle.gs_master_state.specs.inner.Judging.{leading};
ghost use Rattle.gs_master_state.specs.inner.Recorded.{durable_of};
ghost use Rattle.gs_tree.specs.Edits.{old_name, target_of};

use crate::file::old_path;
use crate::inverse::target_of;
use crate::recorded::Recorded;
use gs_msg::Call;
use gs_path::Path;
use gs_tree::{Status, made_paths};
use std::alloc::{AllocError, Global};

/// The most chunks of a file.
pub const MOST_CHUNKS: u64 = 4096;

impl Recorded {
    /// How many of these paths stand before the first that doesn't.
    fn leading(&self, paths: &[Path]) -> usize
        ensures { result ≡ leading (fin.get (durable_of self.now).names.tree) paths.now }
    {
        let mut count = 0;
        for path in paths {
            if self.names.status(path).is_err() {
                return count;
            }
            count += 1;
        }
        count
    }

    /// The paths that are made where a path is.
    fn missing(&self, path: &Path) -> Result<Vec<Path>, AllocError>
        ensures { IfOk result (λ paths. paths.items ≡ missing (durable_of self.now).names path.now) }
    {
        let fronts = made_paths(self.alloc, path, 0)?;
        made_paths(self.alloc, path, self.leading(&fronts))
    }

    /// Whether the chunk at a place of a file stands in several places.
    fn is_shared_at(&self, path: &Path, index: u64) -> bool
        ensures { result ≡ is_shared_in (durable_of self.now).names (slice_get (chunks_at (durable_of self.now).names path.now) index) }
    {
        match self.names.status(path) {
            Ok(Status::File(chunks)) => match chunks.get(index as usize) {
                Some(chunk) => self.is_shared(*chunk),
                None => false,
            },
            _ => false,
        }
    }

    /// Whether a file gets a chunk more at a place: the one behind its last, while it may have another.
    fn gets_chunk(&self, path: &Path, index: u64) -> bool
        ensures { result ≡ gets_chunk (fin.get (durable_of self.now).names.tree path.now) index }
    {
        match self.names.status(path) {
            Ok(Status::File(chunks)) => index < MOST_CHUNKS && index == chunks.len() as u64,
            _ => false,
        }
    }

    /// The paths that are written where a file is made.
    fn made(&self, path: &Path) -> Result<Vec<Path>, AllocError>
        ensures { IfOk result (λ paths. paths.items ≡ path.now ∷ missing (durable_of self.now).names path.now) }
    {
        let mut paths = self.missing(path)?;
        paths.insert(0, path.copy(self.alloc)?)?;
        Ok(paths)
    }

    /// The paths that are written where one is moved.
    fn moved(&self, from: &Path, to: &Path) -> Result<Vec<Path>, AllocError>
        ensures { IfOk result (λ paths. paths.items ≡ from.now ∷ target_of (fin.get (durable_of self.now).names.tree) from.now to.now ∷ []) }
    {
        let target = target_of(self.alloc, &self.names, from, to)?;
        both(self.alloc, from.copy(self.alloc)?, target)
    }

    /// The paths that a call writes.
    pub fn writes_of_call(&self, call: &Call) -> Result<Vec<Path>, AllocError>
        ensures { IfOk result (λ paths. paths.items ≡ writes_of_call (durable_of self.now).names call.now) }
    {
        match call {
            Call::Mkdirs(path) => self.missing(path),
            Call::Create(path) => self.made(path),
            Call::Rename { from, to } => self.moved(from, to),
            Call::Delete { path, .. } => one_if(self.alloc, true, path),
            Call::Undelete(path) => undeleted(self.alloc, path),
            Call::Snapshot { from, to } => copied(self.alloc, from, to),
            Call::FindForWriting { path, index, .. } => {
                one_if(self.alloc, self.is_shared_at(path, *index), path)
            }
            Call::Extend { path, index } => {
                one_if(self.alloc, self.gets_chunk(path, *index), path)
            }
            _ => Ok(Vec::new(self.alloc)),
        }
    }
}

/// A path, if it is written.
fn one_if(alloc: Global, is_written: bool, path: &Path) -> Result<Vec<Path>, AllocError>
    ensures { IfOk result (λ paths. paths.items ≡ (if is_written then path.now ∷ [] else [])) }
{
    let mut paths = Vec::new(alloc);
    if is_written {
        paths.push(path.copy(alloc)?)?;
    }
    Ok(paths)
}

/// Two paths.
fn both(alloc: Global, first: Path, second: Path) -> Result<Vec<Path>, AllocError>
    ensures { IfOk result (λ paths. paths.items ≡ first ∷ second ∷ []) }
{
    let mut paths = Vec::new(alloc);
    paths.push(first)?;
    paths.push(second)?;
    Ok(paths)
}

/// The paths that are written where a deleted entry returns.
fn undeleted(alloc: Global, path: &Path) -> Result<Vec<Path>, AllocError>
    ensures { IfOk result (λ paths. paths.items ≡ path.now ∷ unhide_target path.now (old_name path.now) ∷ []) }
{
    let old = old_path(alloc, path)?;
    both(alloc, path.copy(alloc)?, old)
}

/// The paths that are written where a tree is copied.
fn copied(alloc: Global, from: &Path, to: &Path) -> Result<Vec<Path>, AllocError>
    ensures { IfOk result (λ paths. paths.items ≡ from.now ∷ to.now ∷ []) }
{
    both(alloc, from.copy(alloc)?, to.copy(alloc)?)
}
