//! What is removed for good.
ghost use Rattle.std.specs.Prelude.{IfErr, IfOk};
ghost use Rattle.gs_tree.specs.Find.{at};
ghost use Rattle.gs_tree.specs.Edits.{remove};
ghost use Rattle.gs_tree.specs.Inverses.{TakesBack, IsRemoved};
ghost use Rattle.gs_tree.specs.Follows.{FollowsPlain};
ghost use Rattle.gs_tree.specs.Places.{IsNotTakenOut, IsTakenOut, put_back};
ghost use Rattle.gs_tree.specs.Plain.{Same};

use crate::inverse::TreeInverse;
use crate::moving::hidden_by;
use crate::node::{Leaf, Node, Sort};
use gs_base::Refusal;
use gs_path::Path;
use std::alloc::Global;

/// Takes out what is hidden at a path.
pub(crate) fn remove_in(root: &mut Node, alloc: Global, path: &Path) -> Result<TreeInverse, Refusal>
    ensures edit { FollowsPlain (remove (at root.old) path.now) result (at root.old) (at root.new) }
    ensures undo { IfOk result (λ i. TakesBack i (at root.old) (at root.new)) }
    ensures inverse { IfOk result (λ i. IsRemoved (at root.old) path.now i) }
{
    let hidden = hidden_by(alloc, path)?;
    if hidden.is_none() {
        return Err(Refusal::NotHidden);
    }
    match root.sort_at(path.elements()) {
        Sort::Missing => return Err(Refusal::NotFound),
        Sort::Dir | Sort::File => {}
    }
    let source = path.copy(alloc)?;
    match root.prune(path.elements()) {
        Some(node) => Ok(TreeInverse::Removed(source, node)),
        None => Err(Refusal::NotFound),
    }
}

/// The same, but an empty directory keeps its place.
pub(crate) fn remove_to_place(root: &mut Node, alloc: Global, path: &Path) -> Result<Node, Refusal>
    ensures made { IfOk result (λ node. IsTakenOut path.now (at node) (at root.old) (at root.new)) }
    ensures refused { IfErr result (λ e. IsNotTakenOut path.now (at root.old) e (at root.new)) }
{
    let hidden = hidden_by(alloc, path)?;
    if hidden.is_none() {
        return Err(Refusal::NotHidden);
    }
    match root.replace(path.elements(), Node::new(alloc, Leaf::Dir)) {
        Some(node) => Ok(node),
        None => Err(Refusal::NotFound),
    }
}

/// What was taken out stands again in the place that was kept. The root stays, and nothing changes where nothing stands there.
pub(crate) fn put_back_in(root: &mut Node, path: &Path, node: Node)
    ensures { Same (at root.new) (put_back path.now (at node) (at root.old)) }
{
    if path.is_root() {
        return;
    }
    let _ = root.replace(path.elements(), node);
}
