//! Inverses of edits as plain lists.
ghost use Rattle.std.specs.Prelude.{◌≡◌, true};
ghost use Rattle.gs_tree.specs.declared.inverse.TreeInverse.TheVariants as changes;
ghost use Rattle.gs_edit.specs.Listed.{kind_of, kind_of_list, is_listed, has_short_paths, ListsAs, GivesInverse, IsListOf, IsMadeOfList, DoesTheSame};
ghost use Rattle.gs_edit.specs.Laws.{ListsOfShortNamesAreShort};

use crate::edit::{Edit, Inverse};
use crate::names::kept;
use gs_base::{Handle, Refusal};
use gs_path::Path;
use gs_tree::{Node, TreeEntry, TreeInverse, made_paths};
use std::alloc::Global;

/// Which of the ten edits an edit is.
#[derive(Debug, Clone, Copy, PartialEq, Eq)]
pub enum EditKind {
    Mkdirs,
    Create,
    Rename,
    Hide,
    Unhide,
    Remove,
    AddChunk,
    Cow,
    Snapshot,
    Forget,
}

/// What takes an edit back, as plain lists: the form in which it can be written down. Each is named after its edit.
#[derive(Drop)]
pub enum ListedInverse {
    /// The paths that were made, each behind its parent. None where all stood.
    Mkdirs(Vec<Path>),
    /// The paths that were made, the file's last.
    Create(Vec<Path>),
    /// What stands at the first path came from the second.
    Rename(Path, Path),
    /// What stands at the first path, which is hidden, came from the second.
    Hide(Path, Path),
    /// What stands at the first path came from the second, which is hidden.
    Unhide(Path, Path),
    /// What stood there: at a path, then below it in the order of the bytes of the paths' texts.
    Remove(Vec<TreeEntry>),
    /// The file to which a chunk was added.
    AddChunk(Path),
    /// The file of which a chunk was changed, the chunk's place, and which stood there.
    Cow(Path, usize, Handle),
    /// Where the copy stands.
    Snapshot(Path),
    /// The chunks that were listed without references.
    Forget(Vec<Handle>),
}

impl Edit {
    pub fn kind(&self) -> EditKind
        ensures { result ≡ kind_of self.now }
    {
        match self {
            Edit::Mkdirs(_) => EditKind::Mkdirs,
            Edit::Create(_) => EditKind::Create,
            Edit::Rename(_, _) => EditKind::Rename,
            Edit::Hide(_, _, _) => EditKind::Hide,
            Edit::Unhide(_) => EditKind::Unhide,
            Edit::Remove(_) => EditKind::Remove,
            Edit::AddChunk(_, _) => EditKind::AddChunk,
            Edit::Cow(_, _, _, _) => EditKind::Cow,
            Edit::Snapshot(_, _) => EditKind::Snapshot,
            Edit::Forget(_) => EditKind::Forget,
        }
    }
}

/// The list of the paths that an edit made.
fn list_made(
    alloc: Global,
    path: &Path,
    above: usize,
    kind: EditKind,
) -> Result<ListedInverse, Refusal>
    ensures { ListsAs kind (Inverse.Tree (changes.Made path.now above)) result }
{
    match kind {
        EditKind::Mkdirs => Ok(ListedInverse::Mkdirs(made_paths(alloc, path, above)?)),
        EditKind::Create => Ok(ListedInverse::Create(made_paths(alloc, path, above)?)),
        _ => Err(Refusal::BadLine),
    }
}

/// Where an edit moved something, and from where.
fn list_moved(
    alloc: Global,
    from: &Path,
    to: &Path,
    kind: EditKind,
) -> Result<ListedInverse, Refusal>
    ensures { ListsAs kind (Inverse.Tree (changes.Moved from.now to.now)) result }
{
    match kind {
        EditKind::Rename => Ok(ListedInverse::Rename(to.copy(alloc)?, from.copy(alloc)?)),
        EditKind::Hide => Ok(ListedInverse::Hide(to.copy(alloc)?, from.copy(alloc)?)),
        EditKind::Unhide => Ok(ListedInverse::Unhide(to.copy(alloc)?, from.copy(alloc)?)),
        _ => Err(Refusal::BadLine),
    }
}

/// The entries that an edit removed.
fn list_removed(
    alloc: Global,
    path: &Path,
    node: &Node,
    kind: EditKind,
) -> Result<ListedInverse, Refusal>
    ensures { ListsAs kind (Inverse.Tree (changes.Removed path.now node.now)) result }
{
    match kind {
        EditKind::Remove => Ok(ListedInverse::Remove(node.entries(alloc, path)?)),
        _ => Err(Refusal::BadLine),
    }
}

/// The list of an inverse of an edit of the tree.
fn list_tree(alloc: Global, inverse: &TreeInverse, kind: EditKind) -> Result<ListedInverse, Refusal>
    ensures { ListsAs kind (Inverse.Tree inverse.now) result }
{
    match inverse {
        TreeInverse::Made(path, above) => list_made(alloc, path, *above, kind),
        TreeInverse::Moved(from, to) => list_moved(alloc, from, to, kind),
        TreeInverse::Removed(path, node) => list_removed(alloc, path, node, kind),
        TreeInverse::Added(path) => list_added(alloc, path, kind),
        TreeInverse::Changed(path, index, chunk) => {
            list_changed(alloc, path, *index, *chunk, kind)
        },
        TreeInverse::Copied(path) => list_copied(alloc, path, kind),
    }
}

/// The file to which an edit added a chunk.
fn list_added(alloc: Global, path: &Path, kind: EditKind) -> Result<ListedInverse, Refusal>
    ensures { ListsAs kind (Inverse.Tree (changes.Added path.now)) result }
{
    match kind {
        EditKind::AddChunk => Ok(ListedInverse::AddChunk(path.copy(alloc)?)),
        _ => Err(Refusal::BadLine),
    }
}

/// The chunk that an edit changed.
fn list_changed(
    alloc: Global,
    path: &Path,
    index: usize,
    chunk: Handle,
    kind: EditKind,
) -> Result<ListedInverse, Refusal>
    ensures { ListsAs kind (Inverse.Tree (changes.Changed path.now index chunk)) result }
{
    match kind {
        EditKind::Cow => Ok(ListedInverse::Cow(path.copy(alloc)?, index, chunk)),
        _ => Err(Refusal::BadLine),
    }
}

/// Where an edit put a copy.
fn list_copied(alloc: Global, path: &Path, kind: EditKind) -> Result<ListedInverse, Refusal>
    ensures { ListsAs kind (Inverse.Tree (changes.Copied path.now)) result }
{
    match kind {
        EditKind::Snapshot => Ok(ListedInverse::Snapshot(path.copy(alloc)?)),
        _ => Err(Refusal::BadLine),
    }
}

impl Inverse {
    /// The list of this, as what takes an edit of a kind back. BadLine where it takes no edit of that kind back, which is
    /// judged before anything is copied; what `Names::apply` answers takes one of its edit's kind back. It copies what it
    /// lists.
    pub fn listed(&self, alloc: Global, kind: EditKind) -> Result<ListedInverse, Refusal>
        ensures { ListsAs kind self.now result }
    {
        match self {
            Inverse::Tree(inverse) => list_tree(alloc, inverse, kind),
            Inverse::Remember(chunks) => match kind {
                EditKind::Forget => Ok(ListedInverse::Forget(Vec::from_slice(alloc, chunks)?)),
                _ => Err(Refusal::BadLine),
            },
        }
    }
}

/// What moves something back.
fn moved_back(alloc: Global, from: &Path, to: &Path) -> Result<Inverse, Refusal>
    ensures { GivesInverse (ListedInverse.Rename to.now from.now) result }
{
    let from = from.copy(alloc)?;
    let to = to.copy(alloc)?;
    Ok(Inverse::Tree(TreeInverse::Moved(from, to)))
}

impl ListedInverse {
    /// Which edit it takes back.
    pub fn kind(&self) -> EditKind
        ensures { result ≡ kind_of_list self.now }
    {
        match self {
            ListedInverse::Mkdirs(_) => EditKind::Mkdirs,
            ListedInverse::Create(_) => EditKind::Create,
            ListedInverse::Rename(_, _) => EditKind::Rename,
            ListedInverse::Hide(_, _) => EditKind::Hide,
            ListedInverse::Unhide(_, _) => EditKind::Unhide,
            ListedInverse::Remove(_) => EditKind::Remove,
            ListedInverse::AddChunk(_) => EditKind::AddChunk,
            ListedInverse::Cow(_, _, _) => EditKind::Cow,
            ListedInverse::Snapshot(_) => EditKind::Snapshot,
            ListedInverse::Forget(_) => EditKind::Forget,
        }
    }

    /// The inverse of which this is the list. BadLine where it is the list of none: paths that were made have to be the
    /// parents of the next, the root not among them; what was removed has to be a first entry and what stands below its
    /// path, in any order, with paths of at most 64 elements. Paths that were made are judged before anything is copied, and
    /// of what was removed the numbers of the paths' elements. It copies what is listed.
    pub fn inverse(&self, alloc: Global) -> Result<Inverse, Refusal>
        ensures { GivesInverse self.now result }
    {
        match self {
            ListedInverse::Mkdirs(paths) => kept(TreeInverse::of_made(alloc, paths)),
            ListedInverse::Create(paths) => kept(TreeInverse::of_made(alloc, paths)),
            ListedInverse::Rename(to, from) => moved_back(alloc, from, to),
            ListedInverse::Hide(to, from) => moved_back(alloc, from, to),
            ListedInverse::Unhide(to, from) => moved_back(alloc, from, to),
            ListedInverse::Remove(entries) => kept(TreeInverse::of_removed(alloc, entries)),
            ListedInverse::AddChunk(path) => {
                Ok(Inverse::Tree(TreeInverse::Added(path.copy(alloc)?)))
            },
            ListedInverse::Cow(path, index, chunk) => {
                Ok(Inverse::Tree(TreeInverse::Changed(path.copy(alloc)?, *index, *chunk)))
            },
            ListedInverse::Snapshot(path) => {
                Ok(Inverse::Tree(TreeInverse::Copied(path.copy(alloc)?)))
            },
            ListedInverse::Forget(chunks) => {
                Ok(Inverse::Remember(Vec::from_slice(alloc, chunks)?))
            },
        }
    }
}

/// An inverse that is written as a list and made of it again fits the same names and leads to the same. Its list is one of an
/// inverse, if no path that it removed has more than 64 elements; where the names had none before the edit, it hasn't.
pub fn listed_inverses_undo_the_same()
    ensures list { (i : Inverse) (list : ListedInverse) → IsListOf i list → has_short_paths list ≡ true → is_listed list ≡ true }
    ensures short { ListsOfShortNamesAreShort }
    ensures same { (i j : Inverse) (list : ListedInverse) → IsListOf i list → IsMadeOfList list j → DoesTheSame i j }
{}
