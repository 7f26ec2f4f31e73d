//! What is moved: renamed, hidden, and taken out of hiding.
ghost use Rattle.std.specs.Prelude.{◌≡◌, ◌≢◌, ◌⊎◌, ◌-◌, [], true, false, ℕ, is_some, IfOk, OnOk, IfErr};
ghost use Rattle.gs_path.specs.Path.{begins};
ghost use Rattle.gs_tree.specs.Find.{at, DirsAbove};
ghost use Rattle.gs_tree.specs.Places.{KeepsPlace, given_up, returned, without_place};
ghost use Rattle.gs_tree.specs.Plain.{Plain, Same, part_at, rooted, with_at};
ghost use Rattle.gs_tree.specs.Edits.{hide, unhide, beside, renamed_beside, old_name, target_of};
ghost use Rattle.gs_tree.specs.Inverses.{TakesBack, LeavesChunks, IsMoved};
ghost use Rattle.gs_tree.specs.Follows.{FollowsPlain, Moves};
ghost use Rattle.gs_tree.specs.inner.Sort.{sort_of};
ghost use Rattle.gs_tree.specs.inner.Steps.{TestsPlace, TestsApart, TestsParent, TestsTarget, IsElsewhere, IsKnown, IsAim, FollowsAim, AimsAtTarget, FollowsRename};

use crate::inverse::TreeInverse;
use crate::node::{Leaf, Node, Sort};
use crate::tree::TOO_MANY_ELEMENTS;
use gs_base::{Moment, Refusal};
use gs_path::{Name, Path};
use std::alloc::{AllocError, Global};

/// The tests on a place to which something is moved or copied, but for the length of the paths there.
pub(crate) fn test_place(root: &Node, from: &Path, target: &Path) -> Result<(), Refusal>
    ensures { TestsPlace (at root.now) from.now target.now result }
{
    test_apart(from, target)?;
    match root.sort_at(target.elements()) {
        Sort::Missing => test_parent(root, target),
        Sort::Dir | Sort::File => Err(Refusal::Exists),
    }
}

/// Whether a target is neither the source nor under it.
fn test_apart(from: &Path, target: &Path) -> Result<(), Refusal>
    ensures { TestsApart from.now target.now result }
{
    let Some(below) = target.below(from) else {
        return Ok(());
    };
    if below.is_empty() {
        return Err(Refusal::Exists);
    }
    Err(Refusal::IntoItself)
}

/// Whether a free target is under a directory.
fn test_parent(root: &Node, target: &Path) -> Result<(), Refusal>
    ensures { TestsParent (at root.now) target.now result }
{
    let Some((_, parent)) = target.elements().split_last() else {
        return Err(Refusal::NotFound);
    };
    match root.sort_at(parent) {
        Sort::Missing => Err(Refusal::NotFound),
        Sort::File => Err(Refusal::NotADirectory),
        Sort::Dir => Ok(()),
    }
}

/// The tests on a move's target but for the length of the paths there, and for what stands there if it is under a
/// directory that was found where the move was to lead. Nothing under the source is looked up.
fn test_target(root: &Node, from: &Path, target: &Path, found: Sort) -> Result<(), Refusal>
    ensures { (m : Plain ℕ) → IsElsewhere from.now m (at root.now) → IsKnown m target.now found → TestsTarget m from.now target.now result }
{
    test_apart(from, target)?;
    match found {
        Sort::Missing => test_parent(root, target),
        Sort::File => Err(Refusal::Exists),
        Sort::Dir => Ok(()),
    }
}

/// A tree in which what stands at a path is moved to another, in the place of what stands there.
pub(crate) fn with_moved(
    mut root: Node,
    alloc: Global,
    from: &Path,
    to: &Path,
) -> Result<Node, Refusal>
    ensures { Moves from.now to.now (at root) result (λ n. at n) }
{
    if from.elements().is_empty() {
        return Err(Refusal::BadLine);
    }
    let Some(node) = root.prune(from.elements()) else {
        return Err(Refusal::BadLine);
    };
    let Some((name, parent)) = to.elements().split_last() else {
        return Err(Refusal::BadLine);
    };
    match root.sort_at(parent) {
        Sort::Dir => {}
        Sort::Missing | Sort::File => return Err(Refusal::BadLine),
    }
    let name = name.copy(alloc)?;
    root.graft(parent, name, node)?;
    Ok(root)
}

/// A move that goes through where nothing stands at its target: its two paths, and the target's last element.
struct Aim {
    source: Path,
    target: Path,
    name: Name,
}

/// Makes a move of a node that was replaced at a path by an empty directory: it goes to its target, and the directory keeps
/// its place; or it goes back if it isn't to move or nothing can be put there.
fn settle(
    root: &mut Node,
    path: &Path,
    node: Node,
    aim: Result<Aim, Refusal>,
) -> Result<TreeInverse, Refusal>
    requires root { path.now ≢ [] }
    requires place { Same (part_at path.now (at root.old)) rooted }
    requires node { is_some (at node []) ≡ true }
    requires above { DirsAbove (with_at path.now (at node) (at root.old)) path.now }
    requires aim { IfOk aim (λ a. IsAim (with_at path.now (at node) (at root.old)) path.now a.source a.target a.name) }
    ensures edit { FollowsAim (with_at path.now (at node) (at root.old)) path.now aim (λ a. a.target) result (given_up result (at root.new)) }
    ensures undo { IfOk result (λ i. TakesBack i (with_at path.now (at node) (at root.old)) (given_up result (at root.new))) }
    ensures place { IfOk result (λ i. KeepsPlace i (at root.new)) }
    ensures inverse { IfOk result (λ i. LeavesChunks i) }
    ensures kind { IfOk result (λ i. IsMoved i) }
{
    let from = path.elements();
    let Aim {
        source,
        target,
        name,
    } = match aim {
        Ok(aim) => aim,
        Err(refusal) => {
            root.put(from, node);
            return Err(refusal);
        }
    };
    let to = target.elements();
    let Some((_, parent)) = to.split_last() else {
        return Err(Refusal::NotFound);
    };
    if !root.land(from, parent, name, to, node)? {
        return Err(Refusal::Exists);
    }
    Ok(TreeInverse::Moved(source, target))
}

/// Where a rename leads: to what was found, or to the source's name under it if that is a directory.
fn target_of(alloc: Global, from: &Path, to: &Path, found: Sort) -> Result<Path, AllocError>
    requires { from.now ≢ [] }
    ensures { (m : Plain ℕ) → found ≡ sort_of (m to.now) → IfOk result (λ t. t ≡ target_of m from.now to.now) }
{
    match found {
        Sort::Dir => {}
        Sort::Missing | Sort::File => return to.copy(alloc),
    }
    let Some((name, _)) = from.elements().split_last() else {
        return to.copy(alloc);
    };
    to.join(alloc, name)
}

/// A rename of a node that was replaced at a path, where it is known what was found at the other.
fn aim_at(
    root: &Node,
    alloc: Global,
    from: &Path,
    node: &Node,
    to: &Path,
    found: Sort,
) -> Result<Aim, Refusal>
    requires root { from.now ≢ [] }
    requires found { found ≡ sort_of (with_at from.now (at node.now) (at root.now) to.now) }
    ensures aim { IfOk result (λ a. IsAim (with_at from.now (at node.now) (at root.now)) from.now a.source a.target a.name) }
    ensures edit { AimsAtTarget (with_at from.now (at node.now) (at root.now)) from.now to.now result (λ a. a.target) }
{
    let target = target_of(alloc, from, to, found)?;
    test_target(root, from, &target, found)?;
    let Some((name, _)) = target.elements().split_last() else {
        return Err(Refusal::Exists);
    };
    if !node.is_below(TOO_MANY_ELEMENTS.saturating_sub(target.elements().len())) {
        match root.sort_at(target.elements()) {
            Sort::Missing => return Err(Refusal::BadPath),
            Sort::Dir | Sort::File => return Err(Refusal::Exists),
        }
    }
    let source = from.copy(alloc)?;
    let name = name.copy(alloc)?;
    Ok(Aim {
        source,
        target,
        name,
    })
}

/// Moves what stands at a path. An empty directory keeps its place.
pub(crate) fn rename_in(
    root: &mut Node,
    alloc: Global,
    from: &Path,
    to: &Path,
) -> Result<TreeInverse, Refusal>
    ensures edit { FollowsRename from.now to.now result (at root.old) (given_up result (at root.new)) }
    ensures undo { IfOk result (λ i. TakesBack i (at root.old) (given_up result (at root.new))) }
    ensures place { IfOk result (λ i. KeepsPlace i (at root.new)) }
    ensures inverse { IfOk result (λ i. LeavesChunks i) }
    ensures kind { IfOk result (λ i. IsMoved i) }
{
    if from.elements().is_empty() {
        return Err(Refusal::IsRoot);
    }
    let found = root.sort_at(to.elements());
    let Some(node) = root.replace(from.elements(), Node::new(alloc, Leaf::Dir)) else {
        return Err(Refusal::NotFound);
    };
    let aim = aim_at(root, alloc, from, &node, to, found);
    settle(root, from, node, aim)
}

/// Moves what stands at a path to another name beside it. An empty directory keeps its place.
fn rename_beside(
    root: &mut Node,
    alloc: Global,
    path: &Path,
    name: Name,
) -> Result<TreeInverse, Refusal>
    requires { path.now ≢ [] }
    ensures edit { FollowsPlain (renamed_beside (at root.old) path.now name) result (at root.old) (given_up result (at root.new)) }
    ensures undo { IfOk result (λ i. TakesBack i (at root.old) (given_up result (at root.new))) }
    ensures place { IfOk result (λ i. KeepsPlace i (at root.new)) }
    ensures inverse { IfOk result (λ i. LeavesChunks i) }
    ensures kind { IfOk result (λ i. IsMoved i) }
{
    let Some(node) = root.replace(path.elements(), Node::new(alloc, Leaf::Dir)) else {
        return Err(Refusal::NotFound);
    };
    let aim = aim_beside(alloc, path, name);
    settle(root, path, node, aim)
}

/// A move to another name beside a path.
fn aim_beside(alloc: Global, path: &Path, name: Name) -> Result<Aim, Refusal>
    requires { path.now ≢ [] }
    ensures source { IfOk result (λ a. a.source ≡ path.now) }
    ensures target { IfOk result (λ a. a.target ≡ beside path.now name) }
    ensures name { IfOk result (λ a. a.name ≡ name) }
    ensures other { OnOk result (begins path.now (beside path.now name) ≡ false) }
    ensures err { IfErr result (λ e. (e ≡ Refusal.Memory) ⊎ ((e ≡ Refusal.Exists) × (beside path.now name ≡ path.now))) }
{
    let Some((old, _)) = path.elements().split_last() else {
        return Err(Refusal::NotFound);
    };
    if *old == name {
        return Err(Refusal::Exists);
    }
    let target = with_name(alloc, path, &name)?;
    let source = path.copy(alloc)?;
    Ok(Aim {
        source,
        target,
        name,
    })
}

/// The path with another last element.
fn with_name(alloc: Global, path: &Path, name: &Name) -> Result<Path, AllocError>
    ensures { IfOk result (λ target. target ≡ beside path.now name.now) }
{
    let Some(mut target) = path.parent(alloc)? else {
        return Path::root(alloc).join(alloc, name);
    };
    target.push(name.copy(alloc)?)?;
    Ok(target)
}

/// Moves what stands at a path to a hidden name beside it. An empty directory keeps its place.
pub(crate) fn hide_in(
    root: &mut Node,
    alloc: Global,
    path: &Path,
    moment: Moment,
    number: u64,
) -> Result<TreeInverse, Refusal>
    ensures edit { FollowsPlain (hide (at root.old) path.now moment.0 number) result (at root.old) (given_up result (at root.new)) }
    ensures undo { IfOk result (λ i. TakesBack i (at root.old) (given_up result (at root.new))) }
    ensures place { IfOk result (λ i. KeepsPlace i (at root.new)) }
    ensures inverse { IfOk result (λ i. LeavesChunks i) }
    ensures kind { IfOk result (λ i. IsMoved i) }
{
    let Some((name, _)) = path.elements().split_last() else {
        return Err(Refusal::IsRoot);
    };
    let hidden = Name::hidden(alloc, moment, number, name)?;
    rename_beside(root, alloc, path, hidden)
}

/// Moves what is hidden at a path back to its old name. An empty directory keeps its place.
pub(crate) fn unhide_in(root: &mut Node, alloc: Global, path: &Path) -> Result<TreeInverse, Refusal>
    ensures edit { FollowsPlain (unhide (at root.old) path.now) result (at root.old) (given_up result (at root.new)) }
    ensures undo { IfOk result (λ i. TakesBack i (at root.old) (given_up result (at root.new))) }
    ensures place { IfOk result (λ i. KeepsPlace i (at root.new)) }
    ensures inverse { IfOk result (λ i. LeavesChunks i) }
    ensures kind { IfOk result (λ i. IsMoved i) }
{
    match hidden_by(alloc, path)? {
        Some(name) => rename_beside(root, alloc, path, name),
        None => Err(Refusal::NotHidden),
    }
}

/// The place from which something was moved is given up.
pub(crate) fn give_up(
    root: &mut Node,
    made: Result<TreeInverse, Refusal>,
) -> Result<TreeInverse, Refusal>
    requires { IfOk made (λ i. KeepsPlace i (at root.old)) }
    ensures made { result ≡ made }
    ensures now { Same (at root.new) (given_up made (at root.old)) }
{
    let inverse = made?;
    if let TreeInverse::Moved(from, _) = &inverse {
        give_up_place(root, from);
    }
    Ok(inverse)
}

/// What stands at a path, with all under it, is taken out. The root stays.
pub(crate) fn give_up_place(root: &mut Node, path: &Path)
    ensures { Same (at root.new) (without_place path.now (at root.old)) }
{
    if path.is_root() {
        return;
    }
    let _ = root.prune(path.elements());
}

/// What was moved goes back to the place that was kept, which takes no memory. Nothing changes where nothing stands at one of
/// the paths, or one begins with the other.
pub(crate) fn return_to(root: &mut Node, alloc: Global, from: &Path, to: &Path)
    ensures { Same (at root.new) (returned from.now to.now (at root.old)) }
{
    if from.starts_with(to) || to.starts_with(from) {
        return;
    }
    match root.sort_at(from.elements()) {
        Sort::Missing => return,
        Sort::Dir | Sort::File => {}
    }
    let Some(node) = root.replace(to.elements(), Node::new(alloc, Leaf::Dir)) else {
        return;
    };
    root.put(from.elements(), node);
    let _ = root.prune(to.elements());
}

/// The old name of what is hidden at a path.
pub(crate) fn hidden_by(alloc: Global, path: &Path) -> Result<Option<Name>, AllocError>
    ensures old { IfOk result (λ name. name ≡ old_name path.now) }
    ensures root { IfOk result (λ name. is_some name ≡ true → path.now ≢ []) }
{
    let Some((name, _)) = path.elements().split_last() else {
        return Ok(None);
    };
    match name.hidden_parts(alloc)? {
        Some(parts) => Ok(Some(parts.old)),
        None => Ok(None),
    }
}
