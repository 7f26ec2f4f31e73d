//! The chunks of files.
ghost use Rattle.std.specs.Prelude.{◌≡◌, true, IfOk};
ghost use Rattle.gs_tree.specs.Find.{at};
ghost use Rattle.gs_tree.specs.Edits.{add_chunk, set_chunk, is_file};
ghost use Rattle.gs_tree.specs.Inverses.{TakesBack, IsChanged};
ghost use Rattle.gs_tree.specs.Follows.{FollowsPlain};
ghost use Rattle.gs_tree.specs.inner.Steps.{SwapsChunk};

use crate::inverse::TreeInverse;
use crate::node::{Node, Sort};
use gs_base::{Handle, Refusal};
use gs_path::Path;
use std::alloc::Global;

/// Adds a chunk to a file.
pub(crate) fn add_chunk_in(
    root: &mut Node,
    alloc: Global,
    path: &Path,
    chunk: Handle,
) -> Result<TreeInverse, Refusal>
    ensures edit { FollowsPlain (add_chunk (at root.old) path.now chunk) result (at root.old) (at root.new) }
    ensures undo { IfOk result (λ i. TakesBack i (at root.old) (at root.new)) }
    ensures inverse { IfOk result (λ i. i ≡ TreeInverse.Added path.now) }
{
    match root.sort_at(path.elements()) {
        Sort::Missing => return Err(Refusal::NotFound),
        Sort::Dir => return Err(Refusal::IsADirectory),
        Sort::File => {}
    }
    let copy = path.copy(alloc)?;
    let mut chunks = root.exchange(path.elements(), Vec::new(alloc));
    let added = chunks.push(chunk).is_ok();
    let _ = root.exchange(path.elements(), chunks);
    if !added {
        return Err(Refusal::Memory);
    }
    Ok(TreeInverse::Added(copy))
}

/// Puts a chunk in the place of one of a file's, and answers that. Range where the file has no such chunk.
pub(crate) fn swap_chunk(
    root: &mut Node,
    alloc: Global,
    path: &Path,
    index: usize,
    chunk: Handle,
) -> Result<Handle, Refusal>
    requires { is_file (at root.old path.now) ≡ true }
    ensures { SwapsChunk path.now index chunk (at root.old) result (at root.new) }
{
    let mut chunks = root.exchange(path.elements(), Vec::new(alloc));
    if index >= chunks.len() {
        let _ = root.exchange(path.elements(), chunks);
        return Err(Refusal::Range);
    }
    let had = chunks[index];
    chunks[index] = chunk;
    let _ = root.exchange(path.elements(), chunks);
    Ok(had)
}

/// Changes a chunk of a file.
pub(crate) fn set_chunk_in(
    root: &mut Node,
    alloc: Global,
    path: &Path,
    index: usize,
    chunk: Handle,
) -> Result<TreeInverse, Refusal>
    ensures edit { FollowsPlain (set_chunk (at root.old) path.now index chunk) result (at root.old) (at root.new) }
    ensures undo { IfOk result (λ i. TakesBack i (at root.old) (at root.new)) }
    ensures inverse { IfOk result (λ i. IsChanged (at root.old) path.now index i) }
{
    match root.sort_at(path.elements()) {
        Sort::Missing => return Err(Refusal::NotFound),
        Sort::Dir => return Err(Refusal::IsADirectory),
        Sort::File => {}
    }
    let copy = path.copy(alloc)?;
    match swap_chunk(root, alloc, path, index, chunk) {
        Ok(old) => Ok(TreeInverse::Changed(copy, index, old)),
        Err(refusal) => Err(refusal),
    }
}
