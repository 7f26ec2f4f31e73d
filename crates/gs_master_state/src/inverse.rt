// What takes edits back: how it is come by, and copied.
ghost use Rattle.std.specs.Prelude.{◌≡◌, IfOk, map, option_map, Some};
ghost use Rattle.std.specs.FinMap as fin;
ghost use Rattle.gs_master_record.specs.Plain.{Hide, plain_edit, plain_inverse, plain_node, Remove, Rename, Unhide};
ghost use Rattle.gs_master_state.specs.inner.Judging.{said_target};
ghost use Rattle.gs_master_state.specs.inner.Recorded.{alone, durable_of, IsToldBack};
ghost use Rattle.gs_master_spec.specs.Undoing.{inverse_of};
ghost use Rattle.gs_tree.specs.Edits.{stood, target_of};
ghost use Rattle.gs_tree.specs.Find.{at};
ghost use Rattle.gs_tree.specs.Lists.{made_paths};

use crate::file::{hidden_path, old_path};
use crate::held_names::HeldNames;
use crate::recorded::Recorded;
use gs_base::Moment;
use gs_edit::{Edit, ListedInverse};
use gs_master_order::by_text;
use gs_master_record::Phase;
use gs_path::Path;
use gs_tree::{Status, TreeEntry, made_paths};
use std::alloc::{AllocError, Global};

/// What takes a deletion back.
fn hidden_back(
    alloc: Global,
    path: &Path,
    moment: Moment,
    number: u64,
) -> Result<ListedInverse, AllocError>
    ensures { IfOk result (λ inverse. Some (plain_inverse inverse) ≡ alone (Hide path.now moment.0 number)) }
{
    let hidden = hidden_path(alloc, path, moment, number)?;
    Ok(ListedInverse::Hide(hidden, path.copy(alloc)?))
}

/// What takes the return of a deleted entry back.
fn unhidden_back(alloc: Global, path: &Path) -> Result<ListedInverse, AllocError>
    ensures { IfOk result (λ inverse. Some (plain_inverse inverse) ≡ alone (Unhide path.now)) }
{
    let old = old_path(alloc, path)?;
    Ok(ListedInverse::Unhide(old, path.copy(alloc)?))
}

/// Where a rename puts what it moves: into the directory that stands at the target, or else at the target.
pub fn target_of(
    alloc: Global,
    names: &HeldNames,
    from: &Path,
    to: &Path,
) -> Result<Path, AllocError>
    ensures { IfOk result (λ target. target ≡ target_of (fin.get names.now.names.tree) from.now to.now) }
{
    let mut target = to.copy(alloc)?;
    let Ok(Status::Dir) = names.status(to) else {
        return Ok(target);
    };
    let Some((name, _)) = from.elements().split_last() else {
        return Ok(target);
    };
    target.push(name.copy(alloc)?)?;
    Ok(target)
}

/// What takes a rename back that these names allow.
pub fn renamed_back(
    alloc: Global,
    names: &HeldNames,
    from: &Path,
    to: &Path,
) -> Result<ListedInverse, AllocError>
    ensures { IfOk result (λ inverse. plain_inverse inverse ≡ inverse_of (Rename from.now to.now) (fin.entries names.now.names.tree)) }
{
    let target = target_of(alloc, names, from, to)?;
    Ok(ListedInverse::Rename(target, from.copy(alloc)?))
}

/// What takes an edit back, where the edit alone says it: for a directory or a file that is made, a rename and a removal the
/// names are needed too.
pub fn taken_back(alloc: Global, edit: &Edit) -> Result<Option<ListedInverse>, AllocError>
    ensures { IfOk result (λ inverse. option_map plain_inverse inverse ≡ alone (plain_edit edit.now)) }
{
    let inverse = match edit {
        Edit::Mkdirs(_) | Edit::Create(_) | Edit::Rename(_, _) | Edit::Remove(_) => {
            return Ok(None);
        }
        Edit::Hide(path, moment, number) => hidden_back(alloc, path, *moment, *number)?,
        Edit::Unhide(path) => unhidden_back(alloc, path)?,
        Edit::AddChunk(path, _) => ListedInverse::AddChunk(path.copy(alloc)?),
        Edit::Cow(path, index, old, _) => ListedInverse::Cow(path.copy(alloc)?, *index, *old),
        Edit::Snapshot(_, to) => ListedInverse::Snapshot(to.copy(alloc)?),
        Edit::Forget(chunks) => ListedInverse::Forget(Vec::from_slice(alloc, chunks)?),
    };
    Ok(Some(inverse))
}

/// Of how many elements the longest front of a path is at which something stands.
fn stood(alloc: Global, names: &HeldNames, path: &Path) -> Result<usize, AllocError>
    ensures { IfOk result (λ above. above ≡ stood (fin.get names.now.names.tree) path.now) }
{
    let elements = path.elements();
    let mut front = Path::root(alloc);
    for (above, name) in elements.iter().enumerate() {
        front.push(name.copy(alloc)?)?;
        if names.status(&front).is_err() {
            return Ok(above);
        }
    }
    Ok(elements.len())
}

/// The paths that are made down to a path: those at which nothing stands.
fn missing_paths(alloc: Global, names: &HeldNames, path: &Path) -> Result<Vec<Path>, AllocError>
    ensures { IfOk result (λ paths. paths.items ≡ made_paths path.now (stood (at (fin.entries names.now.names.tree)) path.now)) }
{
    let above = stood(alloc, names, path)?;
    made_paths(alloc, path, above)
}

/// What takes a removal back: all that stands at the path and below it.
fn removed_back(alloc: Global, names: &HeldNames, path: &Path) -> Result<ListedInverse, AllocError>
    ensures { IfOk result (λ inverse. plain_inverse inverse ≡ inverse_of (Remove path.now) (fin.entries names.now.names.tree)) }
{
    let entries = names.entries_under(alloc, path)?;
    Ok(ListedInverse::Remove(by_text(alloc, entries)?))
}

impl Recorded {
    /// The target that the edit of a rename says: where that puts what it moves. Where a directory stands there too the edit is
    /// refused, and says its target as it was asked.
    pub fn said_target(&self, from: &Path, to: &Path) -> Result<Path, AllocError>
        ensures { IfOk result (λ target. target ≡ said_target (fin.get (durable_of self.now).names.tree) from.now to.now) }
    {
        let target = target_of(self.alloc, &self.names, from, to)?;
        match self.names.status(&target) {
            Ok(Status::Dir) => to.copy(self.alloc),
            _ => Ok(target),
        }
    }

    /// What takes an edit back that these names allow.
    fn back(&self, edit: &Edit) -> Result<Option<ListedInverse>, AllocError>
        ensures { IfOk result (λ inverse. option_map plain_inverse inverse ≡ Some (inverse_of (plain_edit edit.now) (fin.entries (durable_of self.now).names.tree))) }
    {
        let alloc = self.alloc;
        let names = &self.names;
        let inverse = match edit {
            Edit::Mkdirs(path) => ListedInverse::Mkdirs(missing_paths(alloc, names, path)?),
            Edit::Create(path) => ListedInverse::Create(missing_paths(alloc, names, path)?),
            Edit::Rename(from, to) => renamed_back(alloc, names, from, to)?,
            Edit::Remove(path) => removed_back(alloc, names, path)?,
            Edit::Hide(_, _, _)
            | Edit::Unhide(_)
            | Edit::AddChunk(_, _)
            | Edit::Cow(_, _, _, _)
            | Edit::Snapshot(_, _)
            | Edit::Forget(_) => return taken_back(alloc, edit),
        };
        Ok(Some(inverse))
    }

    /// What takes an edit back, as it is kept with the edit while an upgrade stands. The edit isn't made yet.
    pub fn inverse_list(&self, edit: &Edit) -> Result<Option<ListedInverse>, AllocError>
        ensures { IfOk result (λ inverse. IsToldBack (durable_of self.now) (plain_edit edit.now) inverse) }
    {
        match self.phase {
            Phase::Upgrade => self.back(edit),
            Phase::Ordinary | Phase::Rolling => Ok(None),
        }
    }
}

fn copied_paths(alloc: Global, paths: &[Path]) -> Result<Vec<Path>, AllocError>
    ensures { IfOk result (λ copies. copies.items ≡ paths.now) }
{
    let mut copies = Vec::new(alloc);
    for path in paths {
        copies.push(path.copy(alloc)?)?;
    }
    Ok(copies)
}

fn copied_entry(alloc: Global, entry: &TreeEntry) -> Result<TreeEntry, AllocError>
    ensures { IfOk result (λ copy. plain_node copy ≡ plain_node entry.now) }
{
    match entry {
        TreeEntry::Dir(path) => Ok(TreeEntry::Dir(path.copy(alloc)?)),
        TreeEntry::File(path, chunks) => {
            let path = path.copy(alloc)?;
            Ok(TreeEntry::File(path, Vec::from_slice(alloc, chunks)?))
        }
    }
}

fn copied_entries(alloc: Global, entries: &[TreeEntry]) -> Result<Vec<TreeEntry>, AllocError>
    ensures { IfOk result (λ copies. map plain_node copies.items ≡ map plain_node entries.now) }
{
    let mut copies = Vec::new(alloc);
    for entry in entries {
        copies.push(copied_entry(alloc, entry)?)?;
    }
    Ok(copies)
}

fn copied_inverse(alloc: Global, inverse: &ListedInverse) -> Result<ListedInverse, AllocError>
    ensures { IfOk result (λ copy. plain_inverse copy ≡ plain_inverse inverse.now) }
{
    match inverse {
        ListedInverse::Mkdirs(paths) => Ok(ListedInverse::Mkdirs(copied_paths(alloc, paths)?)),
        ListedInverse::Create(paths) => Ok(ListedInverse::Create(copied_paths(alloc, paths)?)),
        ListedInverse::Rename(to, from) => {
            Ok(ListedInverse::Rename(to.copy(alloc)?, from.copy(alloc)?))
        }
        ListedInverse::Hide(to, from) => Ok(ListedInverse::Hide(
            to.copy(alloc)?,
            from.copy(alloc)?,
        )),
        ListedInverse::Unhide(to, from) => {
            Ok(ListedInverse::Unhide(to.copy(alloc)?, from.copy(alloc)?))
        }
        ListedInverse::Remove(entries) => Ok(ListedInverse::Remove(copied_entries(
            alloc, entries,
        )?)),
        ListedInverse::AddChunk(path) => Ok(ListedInverse::AddChunk(path.copy(alloc)?)),
        ListedInverse::Cow(path, index, chunk) => {
            Ok(ListedInverse::Cow(path.copy(alloc)?, *index, *chunk))
        }
        ListedInverse::Snapshot(path) => Ok(ListedInverse::Snapshot(path.copy(alloc)?)),
        ListedInverse::Forget(chunks) => Ok(ListedInverse::Forget(Vec::from_slice(alloc, chunks)?)),
    }
}

/// The same list, in memory of its own.
pub fn copied_inverses(
    alloc: Global,
    inverses: &[ListedInverse],
) -> Result<Vec<ListedInverse>, AllocError>
    ensures { IfOk result (λ copies. map plain_inverse copies.items ≡ map plain_inverse inverses.now) }
{
    let mut copies = Vec::new(alloc);
    for inverse in inverses {
        copies.push(copied_inverse(alloc, inverse)?)?;
    }
    Ok(copies)
}
