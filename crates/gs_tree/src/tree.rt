ghost use Rattle.std.specs.Prelude.{◌≡◌, [], false, IfOk, IfErr, MatchBool, Some};
ghost use Rattle.std.specs.FinMap as fin_map;
ghost use Rattle.gs_path.specs.Path.{begins};
ghost use Rattle.gs_tree.specs.Find.{at, is_too_deep, is_copied_too_deep};
ghost use Rattle.gs_tree.specs.Places.{KeepsPlace, FollowsButPlace, IsNotTakenOut, IsTakenOut, given_up, put_back, returned, without_place};
ghost use Rattle.gs_tree.specs.Plain.{Same, part_at, rooted};
ghost use Rattle.gs_tree.specs.Entry.{Dir};
ghost use Rattle.gs_tree.specs.Edits.{mkdirs, create, rename, hide, unhide, remove, add_chunk, set_chunk, snapshot};
ghost use Rattle.gs_tree.specs.Inverses.{TakesBack, LeavesChunks, IsMade, IsMoved, IsChanged, IsRemoved, takes_memory, removed_chunks};
ghost use Rattle.gs_tree.specs.Follows.{FollowsPlain, Moves, Undoes};
ghost use Rattle.gs_tree.specs.Listing.{HasVisible, HasVisibleBut, Lists, StandsAs};
ghost use Rattle.gs_tree.specs.Chunks.{chunks_under, part_chunks, rows_under, visible_chunks_under};
ghost use Rattle.std.specs.List.{list_all};
ghost use Rattle.gs_tree.specs.Build.{rooted_rows, is_short, is_tree, rows_of_entries, Builds};

use crate::building::built;
use crate::entry::TreeEntry;
use crate::file_chunks::{add_chunk_in, set_chunk_in};
use crate::inverse::TreeInverse;
use crate::listing::list_in;
use crate::making::{create_in, mkdirs_in};
use crate::moving::{give_up, give_up_place, hide_in, rename_in, return_to, unhide_in, with_moved};
use crate::node::{Leaf, Listed, Node};
use crate::removing::{put_back_in, remove_in, remove_to_place};
use crate::snapshots::snapshot_in;
use crate::undoing::{drop_chunk, drop_copy, move_back, plant, reset_chunk, unmake};
use gs_base::{Handle, Moment, Refusal};
use gs_path::{Name, Path};
use std::alloc::{AllocError, Global};
use std::marker::Model;

/// The most elements of a path in a tree, and one more.
pub(crate) const TOO_MANY_ELEMENTS: usize = 65;

/// What stands at a path.
#[derive(Clone, Copy)]
pub enum Status<'a> {
    Dir,
    /// The chunks of a file, in order.
    File(&'a [Handle]),
}

/// A tree of directories and files. It begins with the root, a directory that always stands.
pub struct Tree {
    alloc: Global,
    root: Node,
}

impl Drop for Tree {
    fn drop(self) {
        let Self { alloc: _, root: _ } = self;
    }
}

impl Model for Tree {
    ghost use Rattle.std.specs.FinMap as fin_map;
    ghost use Rattle.std.specs.Prelude.{ℕ};
    ghost use Rattle.gs_path.specs.Path.{path_cmp, coded_path};
    ghost use Rattle.gs_tree.specs.Entry.{Entry, coded_entry};

    ghost Value = { fin_map.FinMap path_cmp (Entry ℕ) };

    ghost coded = { fin_map.code coded_path coded_entry };

    ghost view = { λ a. fin_map.from_entries a.root };

    ghost use Rattle.std.specs.Prelude.{◌≡◌, [], Some};
    ghost use Rattle.gs_tree.specs.Find.{at};
    ghost use Rattle.gs_tree.specs.Entry.{Dir};

    ghost invariant = { λ a. at a.root [] ≡ Some Dir };
}

impl Tree {
    pub fn new(alloc: Global) -> Tree
        ensures { Same (fin_map.get result) rooted }
    {
        Tree {
            alloc,
            root: Node::new(alloc, Leaf::Dir),
        }
    }

    /// Makes a directory and each directory above it that is missing (Hadoop's `FileSystem`, `mkdirs`). A directory that
    /// stands there already is accepted. Exists where a file stands there, NotADirectory where a file stands above.
    pub fn mkdirs(&mut self, path: &Path) -> Result<TreeInverse, Refusal>
        ensures edit { FollowsPlain (mkdirs (fin_map.get self.old) path.now) result (fin_map.get self.old) (fin_map.get self.new) }
        ensures undo { IfOk result (λ i. TakesBack i (fin_map.get self.old) (fin_map.get self.new)) }
        ensures inverse { IfOk result (λ i. LeavesChunks i) }
        ensures kind { IfOk result (λ i. IsMade i) }
    {
        mkdirs_in(&mut self.root, self.alloc, path)
    }

    /// Makes a file of no chunk and each directory above it that is missing. Exists where something stands there,
    /// NotADirectory where a file stands above.
    pub fn create(&mut self, path: &Path) -> Result<TreeInverse, Refusal>
        ensures edit { FollowsPlain (create (fin_map.get self.old) path.now) result (fin_map.get self.old) (fin_map.get self.new) }
        ensures undo { IfOk result (λ i. TakesBack i (fin_map.get self.old) (fin_map.get self.new)) }
        ensures inverse { IfOk result (λ i. LeavesChunks i) }
        ensures kind { IfOk result (λ i. IsMade i) }
    {
        create_in(&mut self.root, self.alloc, path)
    }

    /// Moves what stands at a path, with all under it (Hadoop's `FileSystem`, `rename`). If a directory stands at `to`,
    /// the target is the source's name under it. It costs the depth of the paths; only where that leaves the length of
    /// the paths open, what lies under the source is gone through.
    pub fn rename(&mut self, from: &Path, to: &Path) -> Result<TreeInverse, Refusal>
        ensures edit { FollowsPlain (rename (is_too_deep (fin_map.entries self.old) from.now) (fin_map.get self.old) from.now to.now) result (fin_map.get self.old) (fin_map.get self.new) }
        ensures undo { IfOk result (λ i. TakesBack i (fin_map.get self.old) (fin_map.get self.new)) }
        ensures inverse { IfOk result (λ i. LeavesChunks i) }
        ensures kind { IfOk result (λ i. IsMoved i) }
    {
        let made = rename_in(&mut self.root, self.alloc, from, to);
        give_up(&mut self.root, made)
    }

    /// The same, but where it is made an empty directory keeps the source's place, until `give_up_place` takes it out or
    /// `return_to_place` takes the move back. Neither takes memory.
    pub fn rename_keeping_place(&mut self, from: &Path, to: &Path) -> Result<TreeInverse, Refusal>
        ensures edit { FollowsButPlace (rename (is_too_deep (fin_map.entries self.old) from.now) (fin_map.get self.old) from.now to.now) result (fin_map.get self.old) (fin_map.get self.new) }
        ensures undo { IfOk result (λ i. TakesBack i (fin_map.get self.old) (given_up result (fin_map.get self.new))) }
        ensures place { IfOk result (λ i. KeepsPlace i (fin_map.get self.new)) }
        ensures inverse { IfOk result (λ i. LeavesChunks i) }
        ensures kind { IfOk result (λ i. IsMoved i) }
    {
        rename_in(&mut self.root, self.alloc, from, to)
    }

    /// The tree in which what stands at a path is moved to another, in the place of what stands there. It is for a move
    /// that was made on an equal tree, and tests nothing that that has tested. BadLine where nothing stands at the path,
    /// where no directory is above the other that isn't moved itself, or where one of them is the root. Where it is
    /// refused the tree is gone.
    pub fn with_moved(self, from: &Path, to: &Path) -> Result<Tree, Refusal>
        ensures { Moves from.now to.now (fin_map.get self) result (λ t. fin_map.get t) }
    {
        let Tree { alloc, root } = self;
        match with_moved(root, alloc, from, to) {
            Ok(root) => Ok(Tree { alloc, root }),
            Err(refusal) => Err(refusal),
        }
    }

    /// Moves what stands at a path to its hidden name (GFS, garbage collection), with all under it.
    pub fn hide(&mut self, path: &Path, moment: Moment, number: u64) -> Result<TreeInverse, Refusal>
        ensures edit { FollowsPlain (hide (fin_map.get self.old) path.now moment.0 number) result (fin_map.get self.old) (fin_map.get self.new) }
        ensures undo { IfOk result (λ i. TakesBack i (fin_map.get self.old) (fin_map.get self.new)) }
        ensures inverse { IfOk result (λ i. LeavesChunks i) }
        ensures kind { IfOk result (λ i. IsMoved i) }
    {
        let made = hide_in(&mut self.root, self.alloc, path, moment, number);
        give_up(&mut self.root, made)
    }

    /// The same, with an empty directory in its place (see `rename_keeping_place`).
    pub fn hide_keeping_place(
        &mut self,
        path: &Path,
        moment: Moment,
        number: u64,
    ) -> Result<TreeInverse, Refusal>
        ensures edit { FollowsPlain (hide (fin_map.get self.old) path.now moment.0 number) result (fin_map.get self.old) (given_up result (fin_map.get self.new)) }
        ensures undo { IfOk result (λ i. TakesBack i (fin_map.get self.old) (given_up result (fin_map.get self.new))) }
        ensures place { IfOk result (λ i. KeepsPlace i (fin_map.get self.new)) }
        ensures inverse { IfOk result (λ i. LeavesChunks i) }
        ensures kind { IfOk result (λ i. IsMoved i) }
    {
        hide_in(&mut self.root, self.alloc, path, moment, number)
    }

    /// Moves what was hidden back to its old name. NotHidden where the last element of the path isn't a hidden name,
    /// Exists where something stands at the old one.
    pub fn unhide(&mut self, path: &Path) -> Result<TreeInverse, Refusal>
        ensures edit { FollowsPlain (unhide (fin_map.get self.old) path.now) result (fin_map.get self.old) (fin_map.get self.new) }
        ensures undo { IfOk result (λ i. TakesBack i (fin_map.get self.old) (fin_map.get self.new)) }
        ensures inverse { IfOk result (λ i. LeavesChunks i) }
        ensures kind { IfOk result (λ i. IsMoved i) }
    {
        let made = unhide_in(&mut self.root, self.alloc, path);
        give_up(&mut self.root, made)
    }

    /// The same, with an empty directory in its place (see `rename_keeping_place`).
    pub fn unhide_keeping_place(&mut self, path: &Path) -> Result<TreeInverse, Refusal>
        ensures edit { FollowsPlain (unhide (fin_map.get self.old) path.now) result (fin_map.get self.old) (given_up result (fin_map.get self.new)) }
        ensures undo { IfOk result (λ i. TakesBack i (fin_map.get self.old) (given_up result (fin_map.get self.new))) }
        ensures place { IfOk result (λ i. KeepsPlace i (fin_map.get self.new)) }
        ensures inverse { IfOk result (λ i. LeavesChunks i) }
        ensures kind { IfOk result (λ i. IsMoved i) }
    {
        unhide_in(&mut self.root, self.alloc, path)
    }

    /// Takes out what keeps the place of a move, with all under it, which takes no memory. The root stays.
    pub fn give_up_place(&mut self, path: &Path)
        ensures { Same (fin_map.get self.new) (without_place path.now (fin_map.get self.old)) }
    {
        give_up_place(&mut self.root, path);
    }

    /// Takes a move back whose place is kept, which takes no memory. Nothing changes where nothing stands at one of the
    /// paths, or one begins with the other.
    pub fn return_to_place(&mut self, from: &Path, to: &Path)
        ensures { Same (fin_map.get self.new) (returned from.now to.now (fin_map.get self.old)) }
    {
        return_to(&mut self.root, self.alloc, from, to);
    }

    /// Takes out what was hidden (GFS, garbage collection), with all under it. It costs the depth of the path; the inverse keeps
    /// what was taken out.
    pub fn remove(&mut self, path: &Path) -> Result<TreeInverse, Refusal>
        ensures edit { FollowsPlain (remove (fin_map.get self.old) path.now) result (fin_map.get self.old) (fin_map.get self.new) }
        ensures undo { IfOk result (λ i. TakesBack i (fin_map.get self.old) (fin_map.get self.new)) }
        ensures inverse { IfOk result (λ i. IsRemoved (fin_map.get self.old) path.now i) }
        ensures chunks { IfOk result (λ i. removed_chunks i ≡ chunks_under path.now (fin_map.entries self.old)) }
    {
        remove_in(&mut self.root, self.alloc, path)
    }

    /// The same, but an empty directory keeps the place of what is taken out, until `give_up_place` takes it out or
    /// `put_back` takes the removal back. Neither takes memory.
    pub fn remove_keeping_place(&mut self, path: &Path) -> Result<Node, Refusal>
        ensures made { IfOk result (λ node. IsTakenOut path.now (at node) (fin_map.get self.old) (fin_map.get self.new)) }
        ensures refused { IfErr result (λ e. IsNotTakenOut path.now (fin_map.get self.old) e (fin_map.get self.new)) }
        ensures chunks { IfOk result (λ node. part_chunks node ≡ chunks_under path.now (fin_map.entries self.old)) }
    {
        remove_to_place(&mut self.root, self.alloc, path)
    }

    /// Puts what was taken out back in the place that was kept, which takes no memory. The root stays, and nothing changes
    /// where nothing stands at the path.
    pub fn put_back(&mut self, path: &Path, node: Node)
        ensures { Same (fin_map.get self.new) (put_back path.now (at node) (fin_map.get self.old)) }
    {
        put_back_in(&mut self.root, path, node);
    }

    /// Adds a chunk at the end of a file.
    pub fn add_chunk(&mut self, path: &Path, chunk: Handle) -> Result<TreeInverse, Refusal>
        ensures edit { FollowsPlain (add_chunk (fin_map.get self.old) path.now chunk) result (fin_map.get self.old) (fin_map.get self.new) }
        ensures undo { IfOk result (λ i. TakesBack i (fin_map.get self.old) (fin_map.get self.new)) }
        ensures inverse { IfOk result (λ i. i ≡ TreeInverse.Added path.now) }
    {
        add_chunk_in(&mut self.root, self.alloc, path, chunk)
    }

    /// Puts another chunk in the place of one of a file's. Range where the file has none at that place.
    pub fn set_chunk(
        &mut self,
        path: &Path,
        index: usize,
        chunk: Handle,
    ) -> Result<TreeInverse, Refusal>
        ensures edit { FollowsPlain (set_chunk (fin_map.get self.old) path.now index chunk) result (fin_map.get self.old) (fin_map.get self.new) }
        ensures undo { IfOk result (λ i. TakesBack i (fin_map.get self.old) (fin_map.get self.new)) }
        ensures inverse { IfOk result (λ i. IsChanged (fin_map.get self.old) path.now index i) }
    {
        set_chunk_in(&mut self.root, self.alloc, path, index, chunk)
    }

    /// Copies what stands at a path with all that is visible under it (GFS, snapshots). A file's copy has the same
    /// chunks, and neither path begins with the other. It costs what is copied.
    pub fn snapshot(&mut self, from: &Path, to: &Path) -> Result<TreeInverse, Refusal>
        ensures edit { FollowsPlain (snapshot (is_copied_too_deep (fin_map.entries self.old) from.now) (fin_map.get self.old) from.now to.now) result (fin_map.get self.old) (fin_map.get self.new) }
        ensures undo { IfOk result (λ i. TakesBack i (fin_map.get self.old) (fin_map.get self.new)) }
        ensures inverse { IfOk result (λ i. i ≡ TreeInverse.Copied to.now) }
        ensures apart { IfOk result (λ _. (begins from.now to.now ≡ false) × (begins to.now from.now ≡ false)) }
        ensures chunks { IfOk result (λ _. chunks_under to.now (fin_map.entries self.new) ≡ visible_chunks_under from.now (fin_map.entries self.old)) }
    {
        snapshot_in(&mut self.root, self.alloc, from, to)
    }

    /// Takes an edit back. BadLine where the inverse doesn't fit; Memory only where something is moved back or planted
    /// again.
    pub fn undo(&mut self, inverse: &TreeInverse) -> Result<(), Refusal>
        ensures undo { Undoes inverse.now (fin_map.get self.old) result (fin_map.get self.new) }
        ensures memory { IfErr result (λ e. takes_memory inverse.now ≡ false → e ≡ Refusal.BadLine) }
    {
        match inverse {
            TreeInverse::Made(path, above) => unmake(&mut self.root, path, *above),
            TreeInverse::Moved(from, to) => move_back(&mut self.root, self.alloc, from, to),
            TreeInverse::Removed(path, node) => plant(&mut self.root, self.alloc, path, node),
            TreeInverse::Added(path) => drop_chunk(&mut self.root, self.alloc, path),
            TreeInverse::Changed(path, index, chunk) => {
                reset_chunk(&mut self.root, self.alloc, path, *index, *chunk)
            }
            TreeInverse::Copied(path) => drop_copy(&mut self.root, path),
        }
    }

    /// The visible children of a directory, in the order of their names, or a file's own name.
    pub fn list(&self, path: &Path) -> Result<Vec<Listed>, Refusal>
        ensures { Lists (fin_map.get self.now) path.now result }
    {
        list_in(&self.root, self.alloc, path)
    }

    /// What stands at a path. It takes no memory.
    pub fn status(&self, path: &Path) -> Result<Status<'_>, Refusal>
        ensures { StandsAs (fin_map.get self.now path.now) result }
    {
        let Some(node) = self.root.find(path.elements()) else {
            return Err(Refusal::NotFound);
        };
        match node.chunks() {
            Some(chunks) => Ok(Status::File(chunks)),
            None => Ok(Status::Dir),
        }
    }

    /// Whether a directory at a path has a visible child. It takes no memory.
    pub fn has_visible(&self, path: &Path) -> bool
        ensures { MatchBool result (HasVisible (part_at path.now (fin_map.get self.now))) (HasVisible (part_at path.now (fin_map.get self.now)) → ⊥) }
    {
        match self.root.find(path.elements()) {
            Some(node) => node.has_visible(),
            None => false,
        }
    }

    /// The same of a child of another name.
    pub fn has_visible_but(&self, path: &Path, name: &Name) -> bool
        ensures { MatchBool result (HasVisibleBut name.now (part_at path.now (fin_map.get self.now))) (HasVisibleBut name.now (part_at path.now (fin_map.get self.now)) → ⊥) }
    {
        match self.root.find(path.elements()) {
            Some(node) => node.has_visible_but(name),
            None => false,
        }
    }

    /// The chunks of the files at and under a path, in the order of the paths, each as often as the files have it. None
    /// where nothing stands at the path.
    pub fn chunks_under(&self, alloc: Global, path: &Path) -> Result<Vec<Handle>, AllocError>
        ensures { IfOk result (λ found. found.items ≡ chunks_under path.now (fin_map.entries self.now)) }
    {
        match self.root.find(path.elements()) {
            Some(node) => node.all_chunks(alloc),
            None => Ok(Vec::new(alloc)),
        }
    }

    /// The same of the files that a snapshot of the path copies: those without a hidden element below it.
    pub fn visible_chunks_under(
        &self,
        alloc: Global,
        path: &Path,
    ) -> Result<Vec<Handle>, AllocError>
        ensures { IfOk result (λ found. found.items ≡ visible_chunks_under path.now (fin_map.entries self.now)) }
    {
        match self.root.find(path.elements()) {
            Some(node) => node.visible_chunks(alloc),
            None => Ok(Vec::new(alloc)),
        }
    }

    /// What stands at each path but the root, in the order of the paths.
    pub fn entries(&self, alloc: Global) -> Result<Vec<TreeEntry>, AllocError>
        ensures rows { IfOk result (λ listed. rooted_rows (rows_of_entries listed.items) ≡ fin_map.entries self.now) }
        ensures tree { IfOk result (λ listed. list_all (λ r. is_short r.0) (fin_map.entries self.now) ≡ is_tree (rows_of_entries listed.items)) }
    {
        let mut listed = Vec::new(alloc);
        self.root
            .list_below(alloc, &Path::root(alloc), &mut listed)?;
        Ok(listed)
    }

    /// What stands at a path and below it, in the order of the paths. It costs the depth of the path and what is listed.
    pub fn entries_under(&self, alloc: Global, path: &Path) -> Result<Vec<TreeEntry>, AllocError>
        ensures { IfOk result (λ listed. rows_of_entries listed.items ≡ rows_under path.now (fin_map.entries self.now)) }
    {
        match self.root.find(path.elements()) {
            Some(node) => node.entries_by_path(alloc, path),
            None => Ok(Vec::new(alloc)),
        }
    }

    /// The tree of these entries, in any order, and the root. BadLine where they aren't those of a tree: no path may stand
    /// twice, nor the root's among them, and each has at most 64 elements and a directory among them as its parent. It
    /// goes through the entries once for each length of a path, and takes no memory but the tree's.
    pub fn of(alloc: Global, entries: &[TreeEntry]) -> Result<Tree, Refusal>
        ensures { Builds (rows_of_entries entries.now) result }
    {
        let root = TreeEntry::Dir(Path::root(alloc));
        match built(alloc, &root, entries) {
            Ok(root) => Ok(Tree { alloc, root }),
            Err(refusal) => Err(refusal),
        }
    }

    /// The same tree, in memory of its own.
    pub fn copy(&self) -> Result<Tree, AllocError>
        ensures { IfOk result (λ tree. tree ≡ self.now) }
    {
        Ok(Tree {
            alloc: self.alloc,
            root: self.root.copy(self.alloc)?,
        })
    }
}
