ghost use Rattle.std.specs.Prelude.{◌≡◌, ◌≢◌, ◌<◌, ◌≤◌, [], false, true, is_some, ◌∷◌, ◌++◌, option_copied, is_ok, if◌then◌else◌, IfOk, OnOk, IfErr, MatchBool, length, not, option_and_then};
ghost use Rattle.std.specs.List.{list_all, list_any};
ghost use Rattle.std.specs.BTreeMap.{keys, Updates, IsOrdered};
ghost use Rattle.gs_path.specs.Element.{is_hidden};
ghost use Rattle.gs_path.specs.Path.{Path as AnyPath, begins, same_name, name_cmp};
ghost use Rattle.gs_tree.specs.Entry.{Dir, File, chunks_of};
ghost use Rattle.gs_tree.specs.Plain.{with_at, without, IsFree, Same};
ghost use Rattle.gs_tree.specs.Find.{at, IsPartAt, DirsAbove, IsBelow};
ghost use Rattle.gs_tree.specs.Edits.{is_dir, is_file, chunks_in, with_chunks, visible};
ghost use Rattle.gs_tree.specs.Plain.{kept};
ghost use Rattle.gs_tree.specs.inner.Sort.{sort_of, entry_of_leaf};
ghost use Rattle.gs_tree.specs.Inverses.{row_of, IsBlankRow};
ghost use Rattle.gs_tree.specs.inner.Steps.{Lands, Relocates, Sown};
ghost use Rattle.gs_tree.specs.Listing.{IsListing, HasVisible, HasVisibleBut, is_visible_but};
ghost use Rattle.std.specs.FinMap.{is_sorted};
ghost use Rattle.gs_path.specs.Path.{path_cmp};
ghost use Rattle.gs_tree.specs.Chunks.{all_chunks, part_chunks, visible_under, kept_rows};
ghost use Rattle.gs_tree.specs.Build.{rows_of_entries, path_of_entry, kind_of_entry, prefixed, below_root, IsSound};
ghost use Rattle.gs_tree.specs.Lists.{top_path};

use crate::entry::TreeEntry;
use gs_base::{Handle, Refusal};
use gs_path::{Name, Path};
use std::alloc::{AllocError, AllocFailed, Global};
use std::collections::BTreeMap;
use std::marker::Model;
use std::mem;

/// What kind of thing stands at a path.
#[derive(Clone, Copy, Debug, PartialEq, Eq)]
pub enum Sort {
    Missing,
    Dir,
    File,
}

/// What is made: an empty directory, or a file of no chunk.
#[derive(Clone, Copy, Debug, PartialEq, Eq)]
pub enum Leaf {
    Dir,
    File,
}

/// A visible child of a directory.
#[derive(Debug, Drop)]
pub struct Listed {
    pub name: Name,
    pub is_dir: bool,
}

/// A directory or a file, with all under it.
#[cycle(node)]
#[derive(Drop)]
pub struct Node {
    kind: Kind,
    /// No path below has more elements, where this is below 255.
    reach: u8,
}

#[cycle(node)]
#[derive(Drop)]
enum Kind {
    File(Vec<Handle>),
    Dir(BTreeMap<Name, Node>),
}

impl Model for Node {
    ghost use Rattle.std.specs.Prelude.{List, ℕ, length};
    ghost use Rattle.std.specs.Coded.{coded_list, coded×};
    ghost use Rattle.gs_path.specs.Path.{coded_path};
    ghost use Rattle.gs_tree.specs.Entry.{Entry, coded_entry};

    ghost Value = { List (List (List ℕ) × Entry ℕ) };

    ghost coded = { coded_list (coded× coded_path coded_entry) };

    ghost use Rattle.gs_tree.specs.Rows.{rows_of, IsNode};

    ghost view = { λ a. rows_of a.kind };

    ghost invariant = { λ a. IsNode a.reach a.kind };

    ghost size = { length };

    ghost use Rattle.gs_tree.specs.Falls.{deep_le-length-rows};

    ghost size_decreases = { λ a h. deep_le-length-rows a.kind };
}

ghost use Rattle.gs_tree.specs.Rows.{Reaches};

/// The number of the elements, or 255 where there are more.
fn reach_of(elements: &[Name]) -> u8
    ensures { result < 255 → length elements.now ≤ result }
{
    u8::try_from(elements.len()).unwrap_or(u8::MAX)
}

impl Node {
    /// An empty directory, or a file of no chunk.
    pub(crate) fn new(alloc: Global, leaf: Leaf) -> Node
        ensures { result ≡ ([], entry_of_leaf leaf) ∷ [] }
    {
        let kind = match leaf {
            Leaf::Dir => Kind::Dir(BTreeMap::new(alloc)),
            Leaf::File => Kind::File(Vec::new(alloc)),
        };
        Node { kind, reach: 0 }
    }

    /// A file of these chunks.
    pub(crate) fn file(alloc: Global, chunks: &[Handle]) -> Result<Node, AllocError>
        ensures { IfOk result (λ node. node ≡ ([], File chunks.now) ∷ []) }
    {
        Ok(Node {
            kind: Kind::File(Vec::from_slice(alloc, chunks)?),
            reach: 0,
        })
    }

    /// The least number that is known for the lengths of the paths below, or 255.
    fn reach(&self) -> u8
        ensures bound { Reaches result (at self.now) }
        ensures stands { is_some (at self.now []) ≡ true }
    {
        self.reach
    }

    /// What stands at a path below.
    pub(crate) fn find(&self, path: &[Name]) -> Option<&Node>
        ensures part { IsPartAt (at self.now) path.now (option_copied result) }
        ensures above { is_some result ≡ true → DirsAbove (at self.now) path.now }
    {
        match path {
            [] => Some(self),
            [first, rest @ ..] => match &self.kind {
                Kind::File(_) => None,
                Kind::Dir(children) => match children.get(first) {
                    None => None,
                    Some(child) => child.find(rest),
                },
            },
        }
    }

    /// What kind of thing this is.
    fn sort(&self) -> Sort
        ensures sort { result ≡ sort_of (at self.now []) }
        ensures stands { result ≢ Sort.Missing }
    {
        match &self.kind {
            Kind::File(_) => Sort::File,
            Kind::Dir(_) => Sort::Dir,
        }
    }

    /// Whether this is a directory.
    pub(crate) fn is_dir(&self) -> bool
        ensures dir { result ≡ is_dir (at self.now []) }
        ensures stands { is_some (at self.now []) ≡ true }
    {
        match &self.kind {
            Kind::File(_) => false,
            Kind::Dir(_) => true,
        }
    }

    /// What kind of thing stands at a path.
    pub(crate) fn sort_at(&self, path: &[Name]) -> Sort
        ensures sort { result ≡ sort_of (at self.now path.now) }
        ensures free { result ≡ Sort.Missing → IsFree (at self.now) path.now }
        ensures above { result ≢ Sort.Missing → DirsAbove (at self.now) path.now }
    {
        match self.find(path) {
            None => Sort::Missing,
            Some(node) => node.sort(),
        }
    }

    /// Puts a node under a directory, in the place of what stands there, and answers that, or the node where memory is
    /// wanting.
    pub(crate) fn graft(
        &mut self,
        parent: &[Name],
        name: Name,
        node: Node,
    ) -> Result<Option<Node>, AllocFailed<Node>>
        requires { at self.old parent.now ≡ Some Dir }
        ensures now { (q : AnyPath) → at self.new q ≡ (if is_ok result then with_at (parent.now ++ name ∷ []) (at node) (at self.old) q else at self.old q) }
        ensures stood { IfOk result (λ stood. IsPartAt (at self.old) (parent.now ++ name ∷ []) stood) }
        ensures found { IfOk result (λ stood. is_some stood ≡ is_some (at self.old (parent.now ++ name ∷ []))) }
        ensures returned { IfErr result (λ failed. failed.value ≡ node) }
    {
        let Kind::Dir(children) = &mut self.kind else {
            return Ok(None);
        };
        let [first, rest @ ..] = parent else {
            let reach = node.reach().saturating_add(1);
            let stood = match children.insert(name, node) {
                Ok(stood) => stood,
                Err(failed) => {
                    let (_, node) = failed.value;
                    return Err(AllocFailed { value: node });
                }
            };
            self.reach = self.reach.max(reach);
            return Ok(stood);
        };
        let Some(child) = children.get_mut(first) else {
            return Ok(None);
        };
        let grafted = child.graft(rest, name, node);
        let reach = child.reach().saturating_add(1);
        self.reach = self.reach.max(reach);
        grafted
    }

    /// Takes out a node with all under it.
    pub(crate) fn prune(&mut self, path: &[Name]) -> Option<Node>
        requires { path.now ≢ [] }
        ensures part { IsPartAt (at self.old) path.now result }
        ensures rest { (q : AnyPath) → at self.new q ≡ without path.now (at self.old) q }
    {
        let Kind::Dir(children) = &mut self.kind else {
            return None;
        };
        let [first, rest @ ..] = path else {
            return None;
        };
        if rest.is_empty() {
            return children.remove(first);
        }
        let Some(child) = children.get_mut(first) else {
            return None;
        };
        child.prune(rest)
    }

    /// Puts a node in the place of what stands at a path and answers that, which takes no memory. Nothing changes where
    /// nothing stands there.
    pub(crate) fn replace(&mut self, path: &[Name], node: Node) -> Option<Node>
        ensures part { IsPartAt (at self.old) path.now result }
        ensures found { is_some result ≡ is_some (at self.old path.now) }
        ensures above { is_some result ≡ true → DirsAbove (at self.old) path.now }
        ensures now { (q : AnyPath) → at self.new q ≡ (if is_some result then with_at path.now (at node) (at self.old) q else at self.old q) }
    {
        let [first, rest @ ..] = path else {
            return Some(mem::replace(self, node));
        };
        let Kind::Dir(children) = &mut self.kind else {
            return None;
        };
        let Some(child) = children.get_mut(first) else {
            return None;
        };
        let had = child.replace(rest, node);
        let reach = child.reach().saturating_add(1);
        self.reach = self.reach.max(reach);
        had
    }

    /// Puts a node in the place of what stands at a path, which takes no memory.
    pub(crate) fn put(&mut self, path: &[Name], node: Node)
        requires { at self.old path.now ≢ None }
        ensures { (q : AnyPath) → at self.new q ≡ with_at path.now (at node) (at self.old) q }
    {
        let _ = self.replace(path, node);
    }

    /// Gives a file other chunks and answers those that it had, which takes no memory.
    pub(crate) fn exchange(&mut self, path: &[Name], chunks: Vec<Handle>) -> Vec<Handle>
        requires { is_file (at self.old path.now) ≡ true }
        ensures had { result.items ≡ chunks_in (at self.old path.now) }
        ensures has { (q : AnyPath) → at self.new q ≡ with_chunks path.now chunks.items (at self.old) q }
    {
        let [first, rest @ ..] = path else {
            return self.exchange_own(chunks);
        };
        let Kind::Dir(children) = &mut self.kind else {
            return chunks;
        };
        let Some(child) = children.get_mut(first) else {
            return chunks;
        };
        let had = child.exchange(rest, chunks);
        let reach = child.reach().saturating_add(1);
        self.reach = self.reach.max(reach);
        had
    }

    /// The same of the file that this is.
    fn exchange_own(&mut self, chunks: Vec<Handle>) -> Vec<Handle>
        requires { is_file (at self.old []) ≡ true }
        ensures had { result.items ≡ chunks_in (at self.old []) }
        ensures has { (q : AnyPath) → at self.new q ≡ with_chunks [] chunks.items (at self.old) q }
    {
        match &mut self.kind {
            Kind::File(own) => mem::replace(own, chunks),
            Kind::Dir(_) => chunks,
        }
    }

    /// Puts a node that was replaced at a path at a place under a directory, if nothing stands there. Otherwise it goes
    /// back. Answers whether the place was free.
    pub(crate) fn land(
        &mut self,
        from: &[Name],
        parent: &[Name],
        name: Name,
        to: &[Name],
        node: Node,
    ) -> Result<bool, AllocError>
        requires target { to.now ≡ parent.now ++ name ∷ [] }
        requires dir { at self.old parent.now ≡ Some Dir }
        requires stands { is_some (at self.old from.now) ≡ true }
        requires node { is_some (at node []) ≡ true }
        requires apart { begins from.now to.now ≡ false }
        ensures { Lands (at self.old) (at node) from.now to.now result (at self.new) }
    {
        let stood = match self.graft(parent, name, node) {
            Ok(stood) => stood,
            Err(failed) => {
                self.put(from, failed.value);
                return Err(AllocError);
            }
        };
        let Some(stood) = stood else {
            return Ok(true);
        };
        if let Some(node) = self.replace(to, stood) {
            self.put(from, node);
        }
        Ok(false)
    }

    /// The same, which then takes out what replaced the node, if it was put there.
    pub(crate) fn relocate(
        &mut self,
        from: &[Name],
        parent: &[Name],
        name: Name,
        to: &[Name],
        node: Node,
    ) -> Result<bool, AllocError>
        requires target { to.now ≡ parent.now ++ name ∷ [] }
        requires dir { at self.old parent.now ≡ Some Dir }
        requires stands { is_some (at self.old from.now) ≡ true }
        requires node { is_some (at node []) ≡ true }
        requires root { from.now ≢ [] }
        requires apart { begins from.now to.now ≡ false }
        ensures { Relocates (with_at from.now (at node) (at self.old)) from.now to.now result (at self.new) }
    {
        if !self.land(from, parent, name, to, node)? {
            return Ok(false);
        }
        let _ = self.prune(from);
        Ok(true)
    }

    /// Puts a leaf at a path where nothing stands there, and makes each directory above it that is missing. Answers how
    /// many paths were made.
    pub(crate) fn sow(&mut self, alloc: Global, path: &[Name], leaf: Leaf) -> Result<usize, Refusal>
        ensures { Sown (at self.old) path.now (entry_of_leaf leaf) result (at self.new) }
    {
        let Kind::Dir(children) = &mut self.kind else {
            if path.is_empty() {
                return Ok(0);
            }
            return Err(Refusal::NotADirectory);
        };
        let [first, rest @ ..] = path else {
            return Ok(0);
        };
        if let Some(child) = children.get_mut(first) {
            let made = child.sow(alloc, rest, leaf);
            let reach = child.reach().saturating_add(1);
            self.reach = self.reach.max(reach);
            return made;
        }
        let name = first.copy(alloc)?;
        let below = row(alloc, rest, leaf)?;
        children.insert(name, below)?;
        self.reach = self.reach.max(reach_of(path));
        Ok(path.len())
    }
}

impl Node {
    /// Whether each path below has fewer elements than this. It goes down only where the node's own number leaves it
    /// open.
    pub(crate) fn is_below(&self, limit: usize) -> bool
        ensures { MatchBool result (IsBelow limit (at self.now)) (IsBelow limit (at self.now) → ⊥) }
    {
        if self.reach < u8::MAX && usize::from(self.reach) < limit {
            return true;
        }
        if limit == 0 {
            return false;
        }
        let Kind::Dir(children) = &self.kind else {
            return true;
        };
        for child in children.values() {
            if !child.is_below(limit - 1) {
                return false;
            }
        }
        true
    }

    /// Whether this is a row of directories along the path with an empty directory or a file of no chunk at its end, and
    /// nothing else.
    pub(crate) fn is_blank_row(&self, path: &[Name]) -> bool
        ensures { MatchBool result (IsBlankRow (at self.now) path.now) (IsBlankRow (at self.now) path.now → ⊥) }
    {
        match (&self.kind, path) {
            (Kind::File(handles), []) => handles.is_empty(),
            (Kind::Dir(children), []) => children.is_empty(),
            (Kind::File(_), _) => false,
            (Kind::Dir(children), [first, rest @ ..]) => match children.get(first) {
                Some(child) => all_named(children, first) && child.is_blank_row(rest),
                None => false,
            },
        }
    }

    /// The visible children of a directory, in the order of their names.
    pub(crate) fn list(&self, alloc: Global) -> Result<Vec<Listed>, AllocError>
        ensures { IfOk result (λ listed. IsListing (at self.now) listed.items) }
    {
        let mut listed = Vec::new(alloc);
        let Kind::Dir(children) = &self.kind else {
            return Ok(listed);
        };
        for (name, child) in children {
            if !name.is_hidden() {
                let name = name.copy(alloc)?;
                let is_dir = child.is_dir();
                listed.push(Listed { name, is_dir })?;
            }
        }
        Ok(listed)
    }

    /// Whether a directory has a visible child of another name.
    pub(crate) fn has_visible_but(&self, name: &Name) -> bool
        ensures { MatchBool result (HasVisibleBut name.now (at self.now)) (HasVisibleBut name.now (at self.now) → ⊥) }
    {
        match &self.kind {
            Kind::File(_) => false,
            Kind::Dir(children) => any_visible_but(children, name),
        }
    }

    /// Whether a directory has a visible child.
    pub(crate) fn has_visible(&self) -> bool
        ensures { MatchBool result (HasVisible (at self.now)) (HasVisible (at self.now) → ⊥) }
    {
        match &self.kind {
            Kind::File(_) => false,
            Kind::Dir(children) => any_visible(children),
        }
    }

    /// The chunks of a file.
    pub(crate) fn chunks(&self) -> Option<&[Handle]>
        ensures chunks { option_copied result ≡ option_and_then chunks_of (at self.now []) }
        ensures stands { is_some (at self.now []) ≡ true }
    {
        match &self.kind {
            Kind::File(handles) => Some(handles),
            Kind::Dir(_) => None,
        }
    }

    /// The chunks of all files at and under this, in the order of the paths.
    pub fn all_chunks(&self, alloc: Global) -> Result<Vec<Handle>, AllocError>
        ensures { IfOk result (λ found. found.items ≡ part_chunks self.now) }
    {
        let mut found = Vec::new(alloc);
        self.collect(&mut found, true)?;
        Ok(found)
    }

    /// The chunks of the files at and under this that have no hidden element below this, in the order of the paths.
    pub(crate) fn visible_chunks(&self, alloc: Global) -> Result<Vec<Handle>, AllocError>
        ensures { IfOk result (λ found. found.items ≡ part_chunks (visible_under [] self.now)) }
    {
        let mut found = Vec::new(alloc);
        self.collect(&mut found, false)?;
        Ok(found)
    }

    /// Adds the chunks of all files, or of the visible ones.
    fn collect(&self, found: &mut Vec<Handle>, all: bool) -> Result<(), AllocError>
        ensures chunks { OnOk result (found.new.items ≡ found.old.items ++ all_chunks (kept_rows all self.now)) }
        ensures rise { OnOk result (is_sorted path_cmp (kept_rows all self.now) ≡ true) }
    {
        let children = match &self.kind {
            Kind::File(handles) => {
                found.extend_from_slice(handles)?;
                return Ok(());
            }
            Kind::Dir(children) => children,
        };
        for (name, child) in children {
            if all || !name.is_hidden() {
                child.collect(found, all)?;
            }
        }
        Ok(())
    }

    /// Adds what stands below this, which stands at a path, in the order of the paths.
    pub(crate) fn list_below(
        &self,
        alloc: Global,
        path: &Path,
        listed: &mut Vec<TreeEntry>,
    ) -> Result<(), AllocError>
        ensures rows { OnOk result (rows_of_entries listed.new.items ≡ rows_of_entries listed.old.items ++ prefixed path.now (below_root self.now)) }
        ensures sound { OnOk result (IsSound self.now) }
    {
        let Kind::Dir(children) = &self.kind else {
            return Ok(());
        };
        for (name, child) in children {
            let path = path.join(alloc, name)?;
            let entry = child.own_entry(alloc, &path)?;
            listed.push(entry)?;
            child.list_below(alloc, &path, listed)?;
        }
        Ok(())
    }

    /// The entry of this, which stands at a path.
    pub(crate) fn own_entry(&self, alloc: Global, path: &Path) -> Result<TreeEntry, AllocError>
        ensures row { IfOk result (λ e. prefixed path.now self.now ≡ (path_of_entry e, kind_of_entry e) ∷ prefixed path.now (below_root self.now)) }
        ensures top { IfOk result (λ _. top_path self.now ≡ []) }
        ensures stands { IfOk result (λ _. is_some (at self.now []) ≡ true) }
    {
        let path = path.copy(alloc)?;
        match &self.kind {
            Kind::File(handles) => Ok(TreeEntry::File(path, Vec::from_slice(alloc, handles)?)),
            Kind::Dir(_) => Ok(TreeEntry::Dir(path)),
        }
    }

    /// The same tree, in memory of its own.
    pub(crate) fn copy(&self, alloc: Global) -> Result<Node, AllocError>
        ensures same { IfOk result (λ n. Same (at n) (at self.now)) }
        ensures stands { IfOk result (λ n. is_some (at n []) ≡ true) }
    {
        self.copy_kept(alloc, true)
    }

    /// All but the hidden children, and theirs, in memory of its own.
    pub(crate) fn copy_visible(&self, alloc: Global) -> Result<Node, AllocError>
        ensures same { IfOk result (λ n. Same (at n) (visible (at self.now))) }
        ensures stands { IfOk result (λ n. is_some (at n []) ≡ true) }
    {
        self.copy_kept(alloc, false)
    }

    /// A copy of all, or of what is visible.
    fn copy_kept(&self, alloc: Global, all: bool) -> Result<Node, AllocError>
        ensures same { IfOk result (λ n. Same (at n) (kept all (at self.now))) }
        ensures stands { IfOk result (λ n. is_some (at n []) ≡ true) }
    {
        let children = match &self.kind {
            Kind::File(handles) => {
                return Ok(Node {
                    kind: Kind::File(Vec::from_slice(alloc, handles)?),
                    reach: self.reach,
                });
            }
            Kind::Dir(children) => children,
        };
        let mut copies = BTreeMap::new(alloc);
        for (name, child) in children {
            if all || !name.is_hidden() {
                let name = name.copy(alloc)?;
                let copy = child.copy_kept(alloc, all)?;
                add_child(&mut copies, name, copy)?;
            }
        }
        Ok(Node {
            kind: Kind::Dir(copies),
            reach: self.reach,
        })
    }
}

/// Puts a child into a directory.
fn add_child(children: &mut BTreeMap<Name, Node>, name: Name, child: Node) -> Result<(), AllocError>
    ensures updates { OnOk result (Updates name_cmp children.old children.new name (Some child)) }
    ensures ordered { IsOrdered name_cmp children.new }
{
    children.insert(name, child)?;
    Ok(())
}

/// Whether each child has this name.
fn all_named(children: &BTreeMap<Name, Node>, name: &Name) -> bool
    ensures { result ≡ list_all (λ k. same_name k name.now) (keys children.now) }
{
    children.keys().all(|key| key == name)
}

/// Whether some child is visible.
fn any_visible(children: &BTreeMap<Name, Node>) -> bool
    ensures { result ≡ list_any (λ k. not (is_hidden k)) (keys children.now) }
{
    children.keys().any(|key| !key.is_hidden())
}

/// Whether some child of another name is visible.
fn any_visible_but(children: &BTreeMap<Name, Node>, name: &Name) -> bool
    ensures { result ≡ list_any (is_visible_but name.now) (keys children.now) }
{
    children.keys().any(|key| key != name && !key.is_hidden())
}

/// Directories in a row, one for each name but the last, and a leaf at its end.
fn row(alloc: Global, names: &[Name], leaf: Leaf) -> Result<Node, AllocError>
    ensures { IfOk result (λ n. Same (at n) (row_of names.now (entry_of_leaf leaf))) }
{
    let [first, rest @ ..] = names else {
        return Ok(Node::new(alloc, leaf));
    };
    let mut children = BTreeMap::new(alloc);
    let name = first.copy(alloc)?;
    let below = row(alloc, rest, leaf)?;
    children.insert(name, below)?;
    Ok(Node {
        kind: Kind::Dir(children),
        reach: reach_of(names),
    })
}
