//! Edits that are taken back.
ghost use Rattle.std.specs.Prelude.{◌≡◌, IfErr, MatchBool};
ghost use Rattle.gs_tree.specs.Find.{at};
ghost use Rattle.gs_tree.specs.Plain.{part_at};
ghost use Rattle.gs_tree.specs.Inverses.{IsBlankRow};
ghost use Rattle.gs_tree.specs.Follows.{Undoes};

use crate::file_chunks::swap_chunk;
use crate::inverse::TreeInverse;
use crate::node::{Leaf, Node, Sort};
use gs_base::{Handle, Refusal};
use gs_path::{Name, Path};
use std::alloc::Global;

/// Takes out what was made, if it stands there and nothing else under it.
pub(crate) fn unmake(root: &mut Node, path: &Path, above: usize) -> Result<(), Refusal>
    ensures undo { Undoes (TreeInverse.Made path.now above) (at root.old) result (at root.new) }
    ensures memory { IfErr result (λ e. e ≡ Refusal.BadLine) }
{
    if above >= path.elements().len() {
        return Ok(());
    }
    let (first, below) = path.elements().split_at(above + 1);
    if !is_row_at(root, first, below) {
        return Err(Refusal::BadLine);
    }
    let _ = root.prune(first);
    Ok(())
}

/// Whether there is a row of directories from a path on with a blank end, and nothing else.
fn is_row_at(root: &Node, first: &[Name], below: &[Name]) -> bool
    ensures { MatchBool result (IsBlankRow (part_at first.now (at root.now)) below.now) (IsBlankRow (part_at first.now (at root.now)) below.now → ⊥) }
{
    match root.find(first) {
        Some(node) => node.is_blank_row(below),
        None => false,
    }
}

/// Moves what came from a path back to it, if that is free under a directory that doesn't move.
pub(crate) fn move_back(
    root: &mut Node,
    alloc: Global,
    from: &Path,
    to: &Path,
) -> Result<(), Refusal>
    ensures { Undoes (TreeInverse.Moved from.now to.now) (at root.old) result (at root.new) }
{
    if from.starts_with(to) {
        return Err(Refusal::BadLine);
    }
    let Some((name, parent)) = from.elements().split_last() else {
        return Err(Refusal::BadLine);
    };
    match root.sort_at(parent) {
        Sort::Dir => {}
        Sort::Missing | Sort::File => return Err(Refusal::BadLine),
    }
    let Some(node) = root.replace(to.elements(), Node::new(alloc, Leaf::Dir)) else {
        return Err(Refusal::BadLine);
    };
    let Ok(name) = name.copy(alloc) else {
        root.put(to.elements(), node);
        return Err(Refusal::Memory);
    };
    match root.relocate(to.elements(), parent, name, from.elements(), node) {
        Ok(true) => Ok(()),
        Ok(false) => Err(Refusal::BadLine),
        Err(_) => Err(Refusal::Memory),
    }
}

/// Puts what was removed back, if its place is free under a directory.
pub(crate) fn plant(root: &mut Node, alloc: Global, path: &Path, node: &Node) -> Result<(), Refusal>
    ensures { Undoes (TreeInverse.Removed path.now node.now) (at root.old) result (at root.new) }
{
    match root.sort_at(path.elements()) {
        Sort::Missing => {}
        Sort::Dir | Sort::File => return Err(Refusal::BadLine),
    }
    let Some((name, parent)) = path.elements().split_last() else {
        return Err(Refusal::BadLine);
    };
    match root.sort_at(parent) {
        Sort::Dir => {}
        Sort::Missing | Sort::File => return Err(Refusal::BadLine),
    }
    let name = name.copy(alloc)?;
    let copy = node.copy(alloc)?;
    root.graft(parent, name, copy)?;
    Ok(())
}

/// Takes out the last chunk of a file.
pub(crate) fn drop_chunk(root: &mut Node, alloc: Global, path: &Path) -> Result<(), Refusal>
    ensures undo { Undoes (TreeInverse.Added path.now) (at root.old) result (at root.new) }
    ensures memory { IfErr result (λ e. e ≡ Refusal.BadLine) }
{
    match root.sort_at(path.elements()) {
        Sort::File => {}
        Sort::Missing | Sort::Dir => return Err(Refusal::BadLine),
    }
    let mut chunks = root.exchange(path.elements(), Vec::new(alloc));
    let dropped = chunks.pop();
    let _ = root.exchange(path.elements(), chunks);
    match dropped {
        Some(_) => Ok(()),
        None => Err(Refusal::BadLine),
    }
}

/// Puts the chunk back that a file had at a place.
pub(crate) fn reset_chunk(
    root: &mut Node,
    alloc: Global,
    path: &Path,
    index: usize,
    chunk: Handle,
) -> Result<(), Refusal>
    ensures undo { Undoes (TreeInverse.Changed path.now index chunk) (at root.old) result (at root.new) }
    ensures memory { IfErr result (λ e. e ≡ Refusal.BadLine) }
{
    match root.sort_at(path.elements()) {
        Sort::File => {}
        Sort::Missing | Sort::Dir => return Err(Refusal::BadLine),
    }
    match swap_chunk(root, alloc, path, index, chunk) {
        Ok(_) => Ok(()),
        Err(_) => Err(Refusal::BadLine),
    }
}

/// Takes out a copy.
pub(crate) fn drop_copy(root: &mut Node, path: &Path) -> Result<(), Refusal>
    ensures undo { Undoes (TreeInverse.Copied path.now) (at root.old) result (at root.new) }
    ensures memory { IfErr result (λ e. e ≡ Refusal.BadLine) }
{
    if path.elements().is_empty() {
        return Err(Refusal::BadLine);
    }
    match root.sort_at(path.elements()) {
        Sort::Missing => return Err(Refusal::BadLine),
        Sort::Dir | Sort::File => {}
    }
    let _ = root.prune(path.elements());
    Ok(())
}
