//! What is copied.
ghost use Rattle.std.specs.Prelude.{◌≡◌, [], false, true, is_some, IfOk, IfErr, Some};
ghost use Rattle.gs_path.specs.Path.{begins};
ghost use Rattle.gs_tree.specs.Find.{at};
ghost use Rattle.gs_tree.specs.Plain.{Same, IsFree, part_at};
ghost use Rattle.gs_tree.specs.Entry.{Dir};
ghost use Rattle.gs_tree.specs.Edits.{visible, parent};
ghost use Rattle.gs_tree.specs.Inverses.{TakesBack};
ghost use Rattle.gs_tree.specs.inner.Steps.{FollowsSnapshot, PutsCopy};

use crate::inverse::TreeInverse;
use crate::moving::test_place;
use crate::node::{Node, Sort};
use crate::tree::TOO_MANY_ELEMENTS;
use gs_base::Refusal;
use gs_path::Path;
use std::alloc::Global;

/// A copy of what is visible at a path.
fn visible_at(root: &Node, alloc: Global, path: &Path) -> Result<Node, Refusal>
    requires { is_some (at root.now path.now) ≡ true }
    ensures same { IfOk result (λ n. Same (at n) (visible (part_at path.now (at root.now)))) }
    ensures err { IfErr result (λ e. e ≡ Refusal.Memory) }
{
    match root.find(path.elements()) {
        Some(node) => Ok(node.copy_visible(alloc)?),
        None => Err(Refusal::Memory),
    }
}

/// Puts a copy of what is visible at a path to a target, after the tests.
pub(crate) fn snapshot_in(
    root: &mut Node,
    alloc: Global,
    from: &Path,
    to: &Path,
) -> Result<TreeInverse, Refusal>
    ensures edit { FollowsSnapshot from.now to.now result (at root.old) (at root.new) }
    ensures undo { IfOk result (λ i. TakesBack i (at root.old) (at root.new)) }
    ensures inverse { IfOk result (λ i. i ≡ TreeInverse.Copied to.now) }
    ensures apart { IfOk result (λ _. (begins from.now to.now ≡ false) × (begins to.now from.now ≡ false)) }
{
    if from.elements().is_empty() {
        return Err(Refusal::IsRoot);
    }
    match root.sort_at(from.elements()) {
        Sort::Missing => return Err(Refusal::NotFound),
        Sort::Dir | Sort::File => {}
    }
    test_place(root, from, to)?;
    let copy = visible_at(root, alloc, from)?;
    put_copy(root, alloc, to, copy)
}

/// Puts a copy to a free place under a directory, if all its paths are short enough there.
fn put_copy(root: &mut Node, alloc: Global, to: &Path, copy: Node) -> Result<TreeInverse, Refusal>
    requires free { IsFree (at root.old) to.now }
    requires dir { at root.old (parent to.now) ≡ Some Dir }
    requires stands { is_some (at copy []) ≡ true }
    ensures edit { PutsCopy (at copy) to.now result (at root.old) (at root.new) }
    ensures undo { IfOk result (λ i. TakesBack i (at root.old) (at root.new)) }
    ensures inverse { IfOk result (λ i. i ≡ TreeInverse.Copied to.now) }
{
    let Some((name, parent)) = to.elements().split_last() else {
        return Err(Refusal::Memory);
    };
    if !copy.is_below(TOO_MANY_ELEMENTS.saturating_sub(to.elements().len())) {
        return Err(Refusal::BadPath);
    }
    let target = to.copy(alloc)?;
    let name = name.copy(alloc)?;
    root.graft(parent, name, copy)?;
    Ok(TreeInverse::Copied(target))
}
