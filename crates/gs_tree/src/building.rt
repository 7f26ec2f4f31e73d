//! A tree, or a part of one, made of entries in any order.
ghost use Rattle.std.specs.Prelude.{◌≡◌, ◌≤◌, ◌+◌, ◌==◌, ℕ, length, nat_le, true};
ghost use Rattle.std.specs.List.{list_all};
ghost use Rattle.gs_tree.specs.Find.{at};
ghost use Rattle.gs_tree.specs.Build.{row_of_entry, rows_of_entries, path_of_entry, kind_of_entry, is_inside};
ghost use Rattle.gs_tree.specs.inner.Building.{IsFilled, FillsLevel, AddsBelow, BuildsPart};

use crate::entry::TreeEntry;
use crate::node::{Node, Sort};
use crate::tree::TOO_MANY_ELEMENTS;
use gs_base::Refusal;
use gs_path::Path;
use std::alloc::Global;

/// Whether each path has more elements than this, and few enough.
fn are_inside(least: usize, entries: &[TreeEntry]) -> bool
    ensures { result ≡ list_all (λ r. is_inside least r.0) (rows_of_entries entries.now) }
{
    for entry in entries {
        let length = entry.path().elements().len();
        if length <= least || length >= TOO_MANY_ELEMENTS {
            return false;
        }
    }
    true
}

/// The most elements of a path, or this.
fn longest(least: usize, entries: &[TreeEntry]) -> usize
    ensures least { least ≤ result }
    ensures all { list_all (λ r. nat_le (length r.0) result) (rows_of_entries entries.now) ≡ true }
    ensures no_more { (n : ℕ) → least ≤ n → list_all (λ r. nat_le (length r.0) n) (rows_of_entries entries.now) ≡ true → result ≤ n }
{
    let mut most = least;
    for entry in entries {
        most = most.max(entry.path().elements().len());
    }
    most
}

/// Whether a path has one more element than this.
pub(crate) fn is_next(path: &Path, most: usize) -> bool
    ensures { result ≡ (length path.now == most + 1) }
{
    let length = path.elements().len();
    length > most && length - 1 == most
}

/// Puts one more entry at its place below a path, which the node stands at. BadLine where its path isn't below that one, or
/// its place isn't free under a directory.
fn add_entry(root: &mut Node, alloc: Global, top: &Path, entry: &TreeEntry) -> Result<(), Refusal>
    ensures { AddsBelow (at root.old) top.now (path_of_entry entry.now) (kind_of_entry entry.now) result (at root.new) }
{
    let Some(path) = entry.path().below(top) else {
        return Err(Refusal::BadLine);
    };
    let Some((name, parent)) = path.split_last() else {
        return Err(Refusal::BadLine);
    };
    match root.sort_at(path) {
        Sort::Missing => {}
        Sort::Dir | Sort::File => return Err(Refusal::BadLine),
    }
    match root.sort_at(parent) {
        Sort::Dir => {}
        Sort::Missing | Sort::File => return Err(Refusal::BadLine),
    }
    let name = name.copy(alloc)?;
    let node = entry.node(alloc)?;
    root.graft(parent, name, node)?;
    Ok(())
}

/// Puts the entries of one more element than stand at their places below the first entry's.
fn add_level(
    root: &mut Node,
    alloc: Global,
    first: &TreeEntry,
    entries: &[TreeEntry],
    most: usize,
) -> Result<(), Refusal>
    requires { IsFilled (row_of_entry first.now) (rows_of_entries entries.now) most (at root.old) }
    ensures { FillsLevel (row_of_entry first.now) (rows_of_entries entries.now) most result (at root.new) }
{
    for entry in entries {
        if is_next(entry.path(), most) {
            add_entry(root, alloc, first.path(), entry)?;
        }
    }
    Ok(())
}

/// What stands at the first entry's path and below it, seen from there, of the others in any order.
pub(crate) fn built(
    alloc: Global,
    first: &TreeEntry,
    entries: &[TreeEntry],
) -> Result<Node, Refusal>
    ensures { BuildsPart (row_of_entry first.now) (rows_of_entries entries.now) result }
{
    let least = first.path().elements().len();
    if least >= TOO_MANY_ELEMENTS {
        return Err(Refusal::BadLine);
    }
    if !are_inside(least, entries) {
        return Err(Refusal::BadLine);
    }
    let mut root = first.node(alloc)?;
    for most in least..longest(least, entries) {
        add_level(&mut root, alloc, first, entries, most)?;
    }
    Ok(root)
}
