//! Inverses as plain lists, the form in which they can be written down.
ghost use Rattle.std.specs.Prelude.{◌≡◌, [], drop, IfOk, is_some, true};
ghost use Rattle.gs_tree.specs.Find.{at};
ghost use Rattle.gs_tree.specs.Build.{rows_of_entries, path_of_entry, prefixed, IsSound};
ghost use Rattle.std.specs.List.Sorted.{IsSortedByKey};
ghost use Rattle.gs_path.specs.Path.{text_cmp};
ghost use Rattle.gs_tree.specs.Lists.{made_paths, is_child, top_path, IsPartList, GivesMade, GivesRemoved};

use crate::building::{built, is_next};
use crate::entry::TreeEntry;
use crate::inverse::TreeInverse;
use crate::node::Node;
use crate::texts::by_text;
use gs_base::Refusal;
use gs_path::Path;
use std::alloc::{AllocError, Global};

/// The paths that an edit made which left `Made(path, above)`: those down to the path that have more than `above`
/// elements, each behind its parent.
pub fn made_paths(alloc: Global, path: &Path, above: usize) -> Result<Vec<Path>, AllocError>
    ensures { IfOk result (λ paths. paths.items ≡ made_paths path.now above) }
{
    let mut paths = Vec::new(alloc);
    let mut front = Path::root(alloc);
    for name in path.elements() {
        front.push(name.copy(alloc)?)?;
        if front.elements().len() > above {
            paths.push(front.copy(alloc)?)?;
        }
    }
    Ok(paths)
}

/// Whether a path is another with one more element.
fn is_child(front: &Path, path: &Path) -> bool
    ensures { result ≡ is_child front.now path.now }
{
    path.starts_with(front) && is_next(path, front.elements().len())
}

impl TreeInverse {
    /// What takes these paths out again, which an edit made. BadLine where no edit makes just these: each has to be the
    /// parent of the next, and none is the root. It is judged before memory is wanted. Of no path, it changes nothing, and
    /// wants no memory.
    pub fn of_made(alloc: Global, paths: &[Path]) -> Result<TreeInverse, Refusal>
        ensures { GivesMade paths.now result }
    {
        let [first, rest @ ..] = paths else {
            return Ok(TreeInverse::Made(Path::root(alloc), 0));
        };
        if first.elements().is_empty() {
            return Err(Refusal::BadLine);
        }
        let mut last = first;
        for path in rest {
            if !is_child(last, path) {
                return Err(Refusal::BadLine);
            }
            last = path;
        }
        Ok(TreeInverse::Made(last.copy(alloc)?, first.elements().len() - 1))
    }

    /// What puts these entries back, which were removed: the first, and those below its path in any order. BadLine where
    /// they aren't what stands at a path and below it. The numbers of their paths' elements are judged before memory is
    /// wanted, the rest while the entries are put at their places.
    pub fn of_removed(alloc: Global, entries: &[TreeEntry]) -> Result<TreeInverse, Refusal>
        ensures { GivesRemoved (rows_of_entries entries.now) result }
    {
        let [first, rest @ ..] = entries else {
            return Err(Refusal::BadLine);
        };
        let node = built(alloc, first, rest)?;
        Ok(TreeInverse::Removed(first.path().copy(alloc)?, node))
    }
}

impl Node {
    /// The entries of this, which stands at a path: its own first, then those below it in the order of the bytes of their
    /// paths' texts.
    pub fn entries(&self, alloc: Global, path: &Path) -> Result<Vec<TreeEntry>, AllocError>
        ensures rows { IfOk result (λ listed. IsPartList path.now self.now (rows_of_entries listed.items)) }
        ensures order { IfOk result (λ listed. IsSortedByKey path_of_entry text_cmp (drop 1 listed.items)) }
        ensures top { IfOk result (λ _. top_path self.now ≡ []) }
        ensures stands { IfOk result (λ _. is_some (at self.now []) ≡ true) }
        ensures sound { IfOk result (λ _. IsSound self.now) }
    {
        let own = self.own_entry(alloc, path)?;
        let mut below = Vec::new(alloc);
        self.list_below(alloc, path, &mut below)?;
        let mut listed = by_text(alloc, below)?;
        listed.insert(0, own)?;
        Ok(listed)
    }

    /// The same in the order of the paths.
    pub(crate) fn entries_by_path(
        &self,
        alloc: Global,
        path: &Path,
    ) -> Result<Vec<TreeEntry>, AllocError>
        ensures rows { IfOk result (λ listed. rows_of_entries listed.items ≡ prefixed path.now self.now) }
        ensures sound { IfOk result (λ _. IsSound self.now) }
    {
        let mut listed = Vec::new(alloc);
        listed.push(self.own_entry(alloc, path)?)?;
        self.list_below(alloc, path, &mut listed)?;
        Ok(listed)
    }
}
