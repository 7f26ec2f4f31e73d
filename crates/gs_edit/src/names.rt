ghost use Rattle.std.specs.Prelude.{◌≡◌, ◌&&◌, ℕ, Vec, Err, Ok, true, false, not, ◌==◌, IfOk, IfErr, is_none, slice_get};
ghost use Rattle.gs_edit.specs.Edits.{holds_chunk, has_reference};
ghost use Rattle.std.specs.FinMap as fin_map;
ghost use Rattle.gs_tree.specs.Edits.{chunks_in};
ghost use Rattle.gs_edit.specs.Edits.{Applies, AppliesRows, KeepsRefs};
ghost use Rattle.gs_edit.specs.Names.{NamesTakenBack, Undoes, TakesOneBack, MovesNames, last_chunk, returned as counts_returned, is_one, has_room, kept_of, GivesNames, takes_memory, wants_memory};
ghost use Rattle.gs_edit.specs.View.{names_of};
ghost use Rattle.gs_edit.specs.Listed.{kind_of, is_of_kind};
ghost use Rattle.gs_edit.specs.declared.listed.EditKind.TheVariants as kinds;
ghost use Rattle.gs_edit.specs.Scan.{Scans};
ghost use Rattle.gs_edit.specs.Places.{AppliesMove, IsClosed, IsNotRemoved, TakesOut, is_move};
ghost use Rattle.gs_tree.specs.Inverses.{IsMoved, TakesBack};
ghost use Rattle.gs_refs.specs.Counts.{Counts, raised_each};
ghost use Rattle.gs_tree.specs.Find.{at};
ghost use Rattle.gs_tree.specs.Places.{KeepsPlace, given_up, put_back, returned, without_place};
ghost use Rattle.gs_tree.specs.Plain.{Same};
ghost use Rattle.gs_edit.specs.View.{NamesView};

use crate::edit::{Edit, Inverse};
use crate::scan::{Scan, what_goes};
use gs_base::{Handle, Moment, Refusal};
use gs_path::Path;
use gs_refs::Refs;
use gs_tree::{Node, Status, Tree, TreeInverse};
use std::alloc::{AllocError, Global};
use std::marker::Model;

/// What was taken out of names, and the chunks that stood in it.
#[derive(Drop)]
pub struct TakenOut {
    pub node: Node,
    pub chunks: Vec<Handle>,
}

/// What takes an edit back that leaves the references.
pub(crate) fn kept(made: Result<TreeInverse, Refusal>) -> Result<Inverse, Refusal>
    ensures { result ≡ kept_of made }
{
    match made {
        Ok(inverse) => Ok(Inverse::Tree(inverse)),
        Err(refusal) => Err(refusal),
    }
}

/// Makes an edit.
fn apply_in(
    tree: &mut Tree,
    refs: &mut Refs,
    alloc: Global,
    edit: &Edit,
) -> Result<Inverse, Refusal>
    ensures edit { Applies edit.now (names_of tree.old refs.old) result (names_of tree.new refs.new) }
    ensures undo { IfOk result (λ i. NamesTakenBack i (names_of tree.old refs.old) (names_of tree.new refs.new)) }
    ensures kind { IfOk result (λ i. is_of_kind (kind_of edit.now) i ≡ true) }
{
    match edit {
        Edit::Mkdirs(path) => kept(tree.mkdirs(path)),
        Edit::Create(path) => kept(tree.create(path)),
        Edit::Rename(from, to) => kept(tree.rename(from, to)),
        Edit::Hide(path, moment, number) => kept(tree.hide(path, *moment, *number)),
        Edit::Unhide(path) => kept(tree.unhide(path)),
        Edit::Remove(path) => remove(tree, refs, alloc, path),
        Edit::AddChunk(path, chunk) => add_chunk(tree, refs, path, *chunk),
        Edit::Cow(path, index, old, new) => change_chunk(tree, refs, path, *index, *old, *new),
        Edit::Snapshot(from, to) => snapshot(tree, refs, alloc, from, to),
        Edit::Forget(chunks) => forget(tree, refs, alloc, chunks),
    }
}

/// Makes a move, and keeps its place.
fn move_in(tree: &mut Tree, edit: &Edit) -> Result<TreeInverse, Refusal>
    ensures edit { AppliesMove edit.now tree.old result tree.new }
    ensures undo { IfOk result (λ i. TakesBack i (fin_map.get tree.old) (given_up result (fin_map.get tree.new))) }
    ensures place { IfOk result (λ i. KeepsPlace i (fin_map.get tree.new)) }
    ensures kind { IfOk result (λ i. IsMoved i) }
    ensures other { is_move edit.now ≡ false → (result ≡ Err Refusal.BadLine) × (tree.new ≡ tree.old) }
{
    match edit {
        Edit::Rename(from, to) => tree.rename_keeping_place(from, to),
        Edit::Hide(path, moment, number) => tree.hide_keeping_place(path, *moment, *number),
        Edit::Unhide(path) => tree.unhide_keeping_place(path),
        Edit::Mkdirs(_)
        | Edit::Create(_)
        | Edit::Remove(_)
        | Edit::AddChunk(_, _)
        | Edit::Cow(_, _, _, _)
        | Edit::Snapshot(_, _)
        | Edit::Forget(_) => Err(Refusal::BadLine),
    }
}

/// Adds a chunk to a file, and lists it.
fn add_chunk(
    tree: &mut Tree,
    refs: &mut Refs,
    path: &Path,
    chunk: Handle,
) -> Result<Inverse, Refusal>
    ensures edit { Applies (Edit.AddChunk path.now chunk) (names_of tree.old refs.old) result (names_of tree.new refs.new) }
    ensures undo { IfOk result (λ i. NamesTakenBack i (names_of tree.old refs.old) (names_of tree.new refs.new)) }
    ensures kind { IfOk result (λ i. is_of_kind kinds.AddChunk i ≡ true) }
{
    if refs.count(chunk).is_some() {
        return Err(Refusal::BadLine);
    }
    refs.raise(chunk)?;
    match tree.add_chunk(path, chunk) {
        Ok(inverse) => Ok(Inverse::Tree(inverse)),
        Err(refusal) => {
            let _ = refs.unlist(chunk);
            Err(refusal)
        }
    }
}

/// Puts a chunk in the place of one of a file's, and lists it. The other has one reference less.
fn change_chunk(
    tree: &mut Tree,
    refs: &mut Refs,
    path: &Path,
    index: usize,
    old: Handle,
    new: Handle,
) -> Result<Inverse, Refusal>
    ensures edit { Applies (Edit.Cow path.now index old new) (names_of tree.old refs.old) result (names_of tree.new refs.new) }
    ensures undo { IfOk result (λ i. NamesTakenBack i (names_of tree.old refs.old) (names_of tree.new refs.new)) }
    ensures kind { IfOk result (λ i. is_of_kind kinds.Cow i ≡ true) }
{
    if !may_change(tree, refs, path, index, old, new) {
        return Err(Refusal::BadLine);
    }
    refs.raise(new)?;
    match tree.set_chunk(path, index, new) {
        Ok(inverse) => {
            let _ = refs.lower(old);
            Ok(Inverse::Tree(inverse))
        }
        Err(refusal) => {
            let _ = refs.unlist(new);
            Err(refusal)
        }
    }
}

/// Takes out what is hidden at a path. Its chunks have a reference less for each time that they stood there.
fn remove(tree: &mut Tree, refs: &mut Refs, alloc: Global, path: &Path) -> Result<Inverse, Refusal>
    ensures edit { Applies (Edit.Remove path.now) (names_of tree.old refs.old) result (names_of tree.new refs.new) }
    ensures undo { IfOk result (λ i. NamesTakenBack i (names_of tree.old refs.old) (names_of tree.new refs.new)) }
    ensures kind { IfOk result (λ i. is_of_kind kinds.Remove i ≡ true) }
{
    let chunks = tree.chunks_under(alloc, path)?;
    match refs.lower_each(&chunks) {
        Ok(()) => {}
        Err(_) => return Err(Refusal::BadLine),
    }
    match tree.remove(path) {
        Ok(inverse) => Ok(Inverse::Tree(inverse)),
        Err(refusal) => {
            let _ = refs.raise_each(&chunks);
            Err(refusal)
        }
    }
}

/// The same, but an empty directory keeps the place of what is taken out.
fn remove_to_place(
    tree: &mut Tree,
    refs: &mut Refs,
    alloc: Global,
    path: &Path,
) -> Result<TakenOut, Refusal>
    ensures made { IfOk result (λ out. TakesOut path.now (names_of tree.old refs.old) out.node out.chunks.items (names_of tree.new refs.new)) }
    ensures refused { IfErr result (λ e. IsNotRemoved path.now (names_of tree.old refs.old) e (names_of tree.new refs.new)) }
{
    let chunks = tree.chunks_under(alloc, path)?;
    match refs.lower_each(&chunks) {
        Ok(()) => {}
        Err(_) => return Err(Refusal::BadLine),
    }
    match tree.remove_keeping_place(path) {
        Ok(node) => Ok(TakenOut { node, chunks }),
        Err(refusal) => {
            let _ = refs.raise_each(&chunks);
            Err(refusal)
        }
    }
}

/// Copies what is visible at a path. Its chunks have a reference more for each time that they stand there.
fn snapshot(
    tree: &mut Tree,
    refs: &mut Refs,
    alloc: Global,
    from: &Path,
    to: &Path,
) -> Result<Inverse, Refusal>
    ensures edit { Applies (Edit.Snapshot from.now to.now) (names_of tree.old refs.old) result (names_of tree.new refs.new) }
    ensures undo { IfOk result (λ i. NamesTakenBack i (names_of tree.old refs.old) (names_of tree.new refs.new)) }
    ensures kind { IfOk result (λ i. is_of_kind kinds.Snapshot i ≡ true) }
{
    let chunks = tree.visible_chunks_under(alloc, from)?;
    let inverse = tree.snapshot(from, to)?;
    match refs.raise_each(&chunks) {
        Ok(()) => Ok(Inverse::Tree(inverse)),
        Err(refusal) => {
            let _ = tree.undo(&inverse);
            Err(refusal)
        }
    }
}

/// Lists chunks without references no more.
fn forget(
    tree: &mut Tree,
    refs: &mut Refs,
    alloc: Global,
    chunks: &[Handle],
) -> Result<Inverse, Refusal>
    ensures edit { (listed : Vec ℕ Global) → listed.items ≡ chunks.now → Applies (Edit.Forget listed) (names_of tree.old refs.old) result (names_of tree.new refs.new) }
    ensures undo { IfOk result (λ i. NamesTakenBack i (names_of tree.old refs.old) (names_of tree.new refs.new)) }
    ensures kind { IfOk result (λ i. is_of_kind kinds.Forget i ≡ true) }
{
    let copy = Vec::from_slice(alloc, chunks)?;
    match refs.take_out_each(chunks) {
        Ok(()) => Ok(Inverse::Remember(copy)),
        Err(refusal) => Err(refusal),
    }
}

/// Whether a chunk isn't listed, and another has a reference and the place that is told, if there is one.
fn may_change(tree: &Tree, refs: &Refs, path: &Path, index: usize, old: Handle, new: Handle) -> bool
    ensures { result ≡ (is_none (fin_map.get refs.now new) && (holds_chunk (slice_get (chunks_in (fin_map.get tree.now path.now)) index) old && has_reference (fin_map.get refs.now old))) }
{
    refs.count(new).is_none() && holds(tree, path, index, old) && is_referred_to(refs, old)
}

/// Whether a chunk has a reference.
fn is_referred_to(refs: &Refs, chunk: Handle) -> bool
    ensures { result ≡ has_reference (fin_map.get refs.now chunk) }
{
    match refs.count(chunk) {
        Some(count) => count > 0,
        None => false,
    }
}

/// Whether a file has a chunk at a place, or no chunk there.
fn holds(tree: &Tree, path: &Path, index: usize, chunk: Handle) -> bool
    ensures { result ≡ holds_chunk (slice_get (chunks_in (fin_map.get tree.now path.now)) index) chunk }
{
    match chunk_at(tree, path, index) {
        Some(own) => own == chunk,
        None => true,
    }
}

/// The chunk that a file has at a place.
fn chunk_at(tree: &Tree, path: &Path, index: usize) -> Option<Handle>
    ensures { result ≡ slice_get (chunks_in (fin_map.get tree.now path.now)) index }
{
    match tree.status(path) {
        Ok(Status::File(chunks)) => chunks.get(index).copied(),
        Ok(Status::Dir) => None,
        Err(_) => None,
    }
}

/// The last chunk of a file.
fn last_chunk_of(tree: &Tree, path: &Path) -> Option<Handle>
    ensures { result ≡ last_chunk (chunks_in (fin_map.get tree.now path.now)) }
{
    match tree.status(path) {
        Ok(Status::File(chunks)) => chunks.last().copied(),
        Ok(Status::Dir) => None,
        Err(_) => None,
    }
}

/// Takes an edit of the tree back.
fn undo_in(
    tree: &mut Tree,
    refs: &mut Refs,
    alloc: Global,
    inverse: &TreeInverse,
) -> Result<(), Refusal>
    ensures undo { TakesOneBack inverse.now (names_of tree.old refs.old) result (names_of tree.new refs.new) }
    ensures memory { IfErr result (λ e. wants_memory inverse.now ≡ false → e ≡ Refusal.BadLine) }
{
    match inverse {
        TreeInverse::Made(..) | TreeInverse::Moved(..) => tree.undo(inverse),
        TreeInverse::Added(path) => undo_add(tree, refs, inverse, path),
        TreeInverse::Changed(path, index, old) => undo_change(
            tree, refs, inverse, path, *index, *old,
        ),
        TreeInverse::Removed(path, node) => undo_remove(tree, refs, alloc, inverse, path, node),
        TreeInverse::Copied(path) => undo_snapshot(tree, refs, alloc, inverse, path),
    }
}

/// Puts what was removed back. Its chunks have a reference again for each time that they stand there.
fn undo_remove(
    tree: &mut Tree,
    refs: &mut Refs,
    alloc: Global,
    inverse: &TreeInverse,
    path: &Path,
    node: &Node,
) -> Result<(), Refusal>
    requires { inverse.now ≡ TreeInverse.Removed path.now node.now }
    ensures { TakesOneBack inverse.now (names_of tree.old refs.old) result (names_of tree.new refs.new) }
{
    let planted = node.all_chunks(alloc)?;
    match refs.raise_each(&planted) {
        Ok(()) => {}
        Err(_) => return Err(Refusal::BadLine),
    }
    match tree.undo(inverse) {
        Ok(()) => Ok(()),
        Err(refusal) => {
            let _ = refs.lower_each(&planted);
            Err(refusal)
        }
    }
}

/// Takes a copy out. Its chunks have a reference less for each time that they stood there.
fn undo_snapshot(
    tree: &mut Tree,
    refs: &mut Refs,
    alloc: Global,
    inverse: &TreeInverse,
    path: &Path,
) -> Result<(), Refusal>
    requires { inverse.now ≡ TreeInverse.Copied path.now }
    ensures { TakesOneBack inverse.now (names_of tree.old refs.old) result (names_of tree.new refs.new) }
{
    let copied = tree.chunks_under(alloc, path)?;
    match refs.lower_each(&copied) {
        Ok(()) => {}
        Err(_) => return Err(Refusal::BadLine),
    }
    match tree.undo(inverse) {
        Ok(()) => Ok(()),
        Err(refusal) => {
            let _ = refs.raise_each(&copied);
            Err(refusal)
        }
    }
}

/// Takes the last chunk of a file out, and lists it no more.
fn undo_add(
    tree: &mut Tree,
    refs: &mut Refs,
    inverse: &TreeInverse,
    path: &Path,
) -> Result<(), Refusal>
    requires { inverse.now ≡ TreeInverse.Added path.now }
    ensures undo { TakesOneBack inverse.now (names_of tree.old refs.old) result (names_of tree.new refs.new) }
    ensures memory { IfErr result (λ e. e ≡ Refusal.BadLine) }
{
    let Some(chunk) = last_chunk_of(tree, path) else {
        return Err(Refusal::BadLine);
    };
    if refs.count(chunk) != Some(1) {
        return Err(Refusal::BadLine);
    }
    match tree.undo(inverse) {
        Ok(()) => {
            let _ = refs.unlist(chunk);
            Ok(())
        }
        Err(refusal) => Err(refusal),
    }
}

/// Puts a chunk back that a file had at a place. The one that stands there is listed no more.
fn undo_change(
    tree: &mut Tree,
    refs: &mut Refs,
    inverse: &TreeInverse,
    path: &Path,
    index: usize,
    old: Handle,
) -> Result<(), Refusal>
    requires { inverse.now ≡ TreeInverse.Changed path.now index old }
    ensures undo { TakesOneBack inverse.now (names_of tree.old refs.old) result (names_of tree.new refs.new) }
    ensures memory { IfErr result (λ e. e ≡ Refusal.BadLine) }
{
    let Some(chunk) = chunk_at(tree, path, index) else {
        return Err(Refusal::BadLine);
    };
    if !may_return(refs, chunk, old) {
        return Err(Refusal::BadLine);
    }
    match tree.undo(inverse) {
        Ok(()) => {
            give_back(refs, chunk, old);
            Ok(())
        }
        Err(refusal) => Err(refusal),
    }
}

/// Whether a chunk of one reference can give it to another that is listed.
fn may_return(refs: &Refs, chunk: Handle, old: Handle) -> bool
    ensures { result ≡ (is_one (fin_map.get refs.now chunk) && (not (chunk == old) && has_room (fin_map.get refs.now old))) }
{
    if refs.count(chunk) != Some(1) || chunk == old {
        return false;
    }
    match refs.count(old) {
        None => false,
        Some(count) => count < u32::MAX,
    }
}

/// Gives the one reference of a chunk to another, and lists the first no more.
fn give_back(refs: &mut Refs, chunk: Handle, old: Handle)
    requires { (is_one (fin_map.get refs.old chunk) && (not (chunk == old) && has_room (fin_map.get refs.old old))) ≡ true }
    ensures { refs.new ≡ counts_returned refs.old chunk old }
{
    let _ = refs.unlist(chunk);
    let _ = refs.raise(old);
}

/// The tree of a store, and of each chunk how often it stands in it.
pub struct Names {
    alloc: Global,
    tree: Tree,
    refs: Refs,
}

impl Drop for Names {
    fn drop(self) {
        let Self {
            alloc: _,
            tree: _,
            refs: _,
        } = self;
    }
}

impl Model for Names {
    ghost use Rattle.gs_edit.specs.View.{NamesView, coded_names};

    ghost Value = { NamesView };

    ghost coded = { coded_names };

    ghost view = { λ a. record { tree = a.tree; refs = a.refs } };
}

impl Names {
    ghost use Rattle.gs_edit.specs.Names.{blank};

    /// The root alone, and no chunk.
    pub fn new(alloc: Global) -> Names
        ensures { result ≡ blank }
    {
        Names {
            alloc,
            tree: Tree::new(alloc),
            refs: Refs::new(alloc),
        }
    }

    /// The names of a tree and of counts. BadLine where a chunk's count isn't how often it stands in the tree's files.
    pub fn of(alloc: Global, tree: Tree, refs: Refs) -> Result<Names, Refusal>
        ensures { GivesNames (names_of tree refs) result }
    {
        let chunks = tree.chunks_under(alloc, &Path::root(alloc))?;
        if !refs.counts(alloc, &chunks)? {
            return Err(Refusal::BadLine);
        }
        Ok(Names { alloc, tree, refs })
    }

    pub fn tree(&self) -> &Tree
        ensures { result.now ≡ self.now.tree }
    {
        &self.tree
    }

    pub fn refs(&self) -> &Refs
        ensures { result.now ≡ self.now.refs }
    {
        &self.refs
    }

    /// Makes an edit, and answers what takes it back. BadLine where the edit isn't given what it asks for: a chunk that
    /// isn't listed yet, the chunk of a place, chunks without references, a reference for each time that a chunk stands
    /// in what is removed. Else the refusals are those of the tree's call, in its order, then those of the counts:
    /// Exhausted where a snapshot would refer to a chunk more often than a count can say. Every refusal, Memory too, leaves
    /// the names as they were.
    pub fn apply(&mut self, edit: &Edit) -> Result<Inverse, Refusal>
        ensures edit { Applies edit.now self.old result self.new }

        // Of the tree alone, where the edit leaves the counts.
        ensures rows { KeepsRefs edit.now → AppliesRows edit.now (fin_map.entries self.old.tree) result (fin_map.entries self.new.tree) }

        // What takes the edit back fits the new names, and leads from them to the old.
        ensures undo { IfOk result (λ i. NamesTakenBack i self.old self.new) }

        // It is of the edit's kind, so that it can be listed.
        ensures kind { IfOk result (λ i. is_of_kind (kind_of edit.now) i ≡ true) }
    {
        apply_in(&mut self.tree, &mut self.refs, self.alloc, edit)
    }

    /// Takes an edit back. BadLine where the inverse doesn't fit, by path, handle or count; on names that its edit has
    /// just left, Memory alone. What was made, added or changed is taken back without memory.
    pub fn undo(&mut self, inverse: &Inverse) -> Result<(), Refusal>
        ensures undo { Undoes inverse.now self.old result self.new }
        ensures memory { IfErr result (λ e. takes_memory inverse.now ≡ false → e ≡ Refusal.BadLine) }
    {
        match inverse {
            Inverse::Tree(inverse) => {
                undo_in(&mut self.tree, &mut self.refs, self.alloc, inverse)
            },
            Inverse::Remember(chunks) => self.refs.put_back_each(self.alloc, chunks),
        }
    }

    /// Makes a move as `apply` does, but an empty directory keeps the source's place, until `give_up_place` takes it out or
    /// `return_to_place` takes the move back. Neither takes memory. BadLine for an edit that moves nothing.
    pub fn move_keeping_place(&mut self, edit: &Edit) -> Result<TreeInverse, Refusal>
        ensures edit { is_move edit.now ≡ true → (after : NamesView) → IsClosed result self.new after → Applies edit.now self.old result after }
        ensures undo { IfOk result (λ i. (after : NamesView) → IsClosed result self.new after → NamesTakenBack (Inverse.Tree i) self.old after) }
        ensures place { IfOk result (λ i. KeepsPlace i (fin_map.get self.new.tree)) }
        ensures kind { IfOk result (λ i. IsMoved i) }
        ensures other { is_move edit.now ≡ false → (result ≡ Err Refusal.BadLine) × (self.new ≡ self.old) }
    {
        move_in(&mut self.tree, edit)
    }

    /// Takes out what keeps the place of a move, with all under it. The root stays. It is for an empty directory: the counts
    /// stay as they are.
    pub fn give_up_place(&mut self, path: &Path)
        ensures tree { Same (fin_map.get self.new.tree) (without_place path.now (fin_map.get self.old.tree)) }
        ensures refs { self.new.refs ≡ self.old.refs }
    {
        self.tree.give_up_place(path);
    }

    /// Takes a move back whose place is kept. Nothing changes where nothing stands at one of the paths, or one begins with the
    /// other. It is for a place that an empty directory keeps: the counts stay as they are.
    pub fn return_to_place(&mut self, from: &Path, to: &Path)
        ensures tree { Same (fin_map.get self.new.tree) (returned from.now to.now (fin_map.get self.old.tree)) }
        ensures refs { self.new.refs ≡ self.old.refs }
    {
        self.tree.return_to_place(from, to);
    }

    /// Removes as `apply` does, but an empty directory keeps the place of what is taken out, until `give_up_place` takes it
    /// out or `put_back` takes the removal back. Neither takes memory.
    pub fn remove_keeping_place(&mut self, path: &Path) -> Result<TakenOut, Refusal>
        ensures made { IfOk result (λ out. TakesOut path.now self.old out.node out.chunks.items self.new) }
        ensures refused { IfErr result (λ e. IsNotRemoved path.now self.old e self.new) }
    {
        remove_to_place(&mut self.tree, &mut self.refs, self.alloc, path)
    }

    /// Takes a removal back whose place is kept: what was taken out stands there again, and its chunks have their references.
    /// The root stays, and the tree does where nothing stands at the path.
    pub fn put_back(&mut self, path: &Path, out: TakenOut)
        ensures tree { Same (fin_map.get self.new.tree) (put_back path.now (at out.node) (fin_map.get self.old.tree)) }
        ensures refs { (counts : Counts) → raised_each self.old.refs out.chunks.items ≡ Ok counts → self.new.refs ≡ counts }
    {
        let TakenOut { node, chunks } = out;
        let _ = self.refs.raise_each(&chunks);
        self.tree.put_back(path, node);
    }

    /// The names with what stands at a path moved to another (`Tree::with_moved`): a move that was made on equal names is
    /// made again. The counts stay as they are, so nothing may stand at the other path that has chunks. BadLine as there;
    /// where it is refused the names are gone.
    pub fn with_moved(self, from: &Path, to: &Path) -> Result<Names, Refusal>
        ensures { MovesNames from.now to.now self result }
    {
        let Names { alloc, tree, refs } = self;
        match tree.with_moved(from, to) {
            Ok(tree) => Ok(Names { alloc, tree, refs }),
            Err(refusal) => Err(refusal),
        }
    }

    /// What a scan at a moment takes out: what was deleted more than 259,200 seconds before it, and then each chunk that is
    /// left without a reference. It changes nothing; `promises` says what its edits make of the names. BadLine where a chunk
    /// stands in what goes more often than its count says.
    pub fn scan(&self, moment: Moment) -> Result<Scan, Refusal>
        ensures { Scans moment.0 (fin_map.entries self.now.tree) self.now.refs result }
    {
        what_goes(self.alloc, &self.tree, &self.refs, moment)
    }

    /// The same names, in memory of their own.
    pub fn copy(&self) -> Result<Names, AllocError>
        ensures { IfOk result (λ names. names ≡ self.now) }
    {
        Ok(Names {
            alloc: self.alloc,
            tree: self.tree.copy()?,
            refs: self.refs.copy(self.alloc)?,
        })
    }
}
