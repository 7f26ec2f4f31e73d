//! Directories and files that are made.
ghost use Rattle.std.specs.Prelude.{◌≡◌, true, is_some, IfOk};
ghost use Rattle.gs_tree.specs.Find.{at};
ghost use Rattle.gs_tree.specs.Edits.{mkdirs, create};
ghost use Rattle.gs_tree.specs.inner.Steps.{MakesLeaf};
ghost use Rattle.gs_tree.specs.inner.Sort.{entry_of_leaf};
ghost use Rattle.gs_tree.specs.Inverses.{TakesBack, LeavesChunks, IsMade};
ghost use Rattle.gs_tree.specs.Follows.{FollowsPlain};

use crate::inverse::TreeInverse;
use crate::node::{Leaf, Node, Sort};
use gs_base::Refusal;
use gs_path::Path;
use std::alloc::Global;

/// Makes a leaf where nothing stands. Answers what takes that back, or nothing where something stands there.
fn make(
    root: &mut Node,
    alloc: Global,
    path: &Path,
    leaf: Leaf,
) -> Result<Option<TreeInverse>, Refusal>
    ensures { MakesLeaf (at root.old) path.now (entry_of_leaf leaf) result (at root.new) }
{
    let copy = path.copy(alloc)?;
    let made = root.sow(alloc, path.elements(), leaf)?;
    if made == 0 {
        return Ok(None);
    }
    let above = path.elements().len() - made;
    Ok(Some(TreeInverse::Made(copy, above)))
}

/// Makes a directory with each directory above it that is missing.
pub(crate) fn mkdirs_in(root: &mut Node, alloc: Global, path: &Path) -> Result<TreeInverse, Refusal>
    ensures edit { FollowsPlain (mkdirs (at root.old) path.now) result (at root.old) (at root.new) }
    ensures undo { IfOk result (λ i. TakesBack i (at root.old) (at root.new)) }
    ensures inverse { IfOk result (λ i. LeavesChunks i) }
    ensures kind { IfOk result (λ i. IsMade i) }
{
    let made = make(root, alloc, path, Leaf::Dir)?;
    match made {
        Some(inverse) => Ok(inverse),
        None => found(root, alloc, path),
    }
}

/// What comes of making a directory where something stands: a directory is accepted.
fn found(root: &Node, alloc: Global, path: &Path) -> Result<TreeInverse, Refusal>
    requires { is_some (at root.now path.now) ≡ true }
    ensures edit { FollowsPlain (mkdirs (at root.now) path.now) result (at root.now) (at root.now) }
    ensures undo { IfOk result (λ i. TakesBack i (at root.now) (at root.now)) }
    ensures inverse { IfOk result (λ i. LeavesChunks i) }
    ensures kind { IfOk result (λ i. IsMade i) }
{
    match root.sort_at(path.elements()) {
        Sort::Dir => {
            let above = path.elements().len();
            Ok(TreeInverse::Made(path.copy(alloc)?, above))
        }
        Sort::File | Sort::Missing => Err(Refusal::Exists),
    }
}

/// Makes a file of no chunk with each directory above it that is missing.
pub(crate) fn create_in(root: &mut Node, alloc: Global, path: &Path) -> Result<TreeInverse, Refusal>
    ensures edit { FollowsPlain (create (at root.old) path.now) result (at root.old) (at root.new) }
    ensures undo { IfOk result (λ i. TakesBack i (at root.old) (at root.new)) }
    ensures inverse { IfOk result (λ i. LeavesChunks i) }
    ensures kind { IfOk result (λ i. IsMade i) }
{
    match make(root, alloc, path, Leaf::File) {
        Ok(Some(inverse)) => Ok(inverse),
        Ok(None) => Err(Refusal::Exists),
        Err(refusal) => Err(refusal),
    }
}
