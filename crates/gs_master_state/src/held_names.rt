// The names, of which an edit is made so that it can be taken back without memory: in place, or on a copy that stands by.
ghost use Rattle.std.specs.Prelude.{[], ◌∷◌, ◌≡◌, ◌≢◌, None, Ok, OnOk, Some, IfOk, IfErr, IfSome, MatchBool, false, not, true};
ghost use Rattle.std.specs.List.{list_all, list_any};
ghost use Rattle.gs_path.specs.Path.{begins};
ghost use Rattle.gs_edit.specs.Edits.{Applies, renamed};
ghost use Rattle.gs_edit.specs.Listed.{is_of_kind, kind_of};
ghost use Rattle.gs_edit.specs.Names.{NamesTakenBack, takes_memory};
ghost use Rattle.gs_edit.specs.Scan.{Scans};
ghost use Rattle.gs_edit.specs.View.{NamesView};
ghost use Rattle.gs_edit.specs.declared.edit.Inverse.{Inverse};
ghost use Rattle.gs_master_record.specs.Plain.{plain_edit};
ghost use Rattle.std.specs.FinMap as fin_map;
ghost use Rattle.gs_edit.specs.Places.{IsNotRemoved, is_move};
ghost use Rattle.gs_master_state.specs.inner.Held.{ArePlaces, AreSeen, IsLedBy, KeepsAll, StandsBy, all_but_last, is_at, still, without_kept};
ghost use Rattle.gs_master_state.specs.inner.TakingBack.{AreNamesBefore, ArePlacesBefore, HasPlaceBack, IsLastPlace, is_kept, is_made_in_place, places_before, wants_copy};
ghost use Rattle.gs_tree.specs.Build.{is_short, is_tree, rooted_rows, rows_of_entries};
ghost use Rattle.gs_tree.specs.Chunks.{rows_under, visible_chunks_under};
ghost use Rattle.gs_tree.specs.Listing.{HasVisible, Lists, StandsAs};
ghost use Rattle.gs_tree.specs.Plain.{part_at};
ghost use Rattle.gs_master_state.specs.inner.Trying.{refusal_of};
ghost use Rattle.gs_master_spec.specs.Undoing.{edited_names};

use crate::places::Places;
use crate::undo::{Following, MovedNames, NamesBefore, RemovedNames, StoodNames};
use gs_base::{Handle, Moment, Refusal};
use gs_base_table::Table;
use gs_edit::{Edit, Inverse, Names, Scan};
use gs_path::Path;
use gs_refs::Refs;
use gs_tree::{Listed, Status, TreeEntry, TreeInverse};
use std::alloc::{AllocError, Global};
use std::marker::Model;
use std::mem;

/// Whether an edit's inverse takes it back without memory.
fn is_made_in_place(edit: &Edit) -> bool
    ensures value { result ≡ is_made_in_place (plain_edit edit.now) }
    ensures memory { (inverse : Inverse) → result ≡ true → is_of_kind (kind_of edit.now) inverse ≡ true → takes_memory inverse ≡ false }
{
    match edit {
        Edit::Mkdirs(_) | Edit::Create(_) | Edit::AddChunk(_, _) | Edit::Cow(_, _, _, _) => true,
        Edit::Rename(_, _)
        | Edit::Hide(_, _, _)
        | Edit::Unhide(_)
        | Edit::Remove(_)
        | Edit::Snapshot(_, _)
        | Edit::Forget(_) => false,
    }
}

/// Places that are kept in names are given up.
fn give_up_each(names: &mut Names, places: &[Path])
    requires { ArePlaces places.now names.old }
    ensures { names.new ≡ without_kept places.now names.old }
{
    for place in places {
        names.give_up_place(place);
    }
}

/// Names without the places that are kept in them.
fn without_places(mut names: Names, places: &[Path]) -> Names
    requires { ArePlaces places.now names }
    ensures { result ≡ without_kept places.now names }
{
    give_up_each(&mut names, places);
    names
}

/// Whether an edit moves something.
fn is_move(edit: &Edit) -> bool
    ensures moves { result ≡ is_move edit.now }
    ensures copies { result ≡ true → wants_copy (plain_edit edit.now) ≡ false }
{
    match edit {
        Edit::Rename(_, _) | Edit::Hide(_, _, _) | Edit::Unhide(_) => true,
        Edit::Mkdirs(_)
        | Edit::Create(_)
        | Edit::Remove(_)
        | Edit::AddChunk(_, _)
        | Edit::Cow(_, _, _, _)
        | Edit::Snapshot(_, _)
        | Edit::Forget(_) => false,
    }
}

/// An edit that was made on a copy and isn't a move, in memory of its own. Of chunks that are forgotten there is none.
fn copied(alloc: Global, edit: &Edit) -> Result<Following, AllocError>
    ensures { IfOk result (λ copy. (before after : NamesView) → edited_names (plain_edit edit.now) before ≡ Ok after → IsLedBy copy before after) }
{
    let copy = match edit {
        Edit::Remove(path) => Edit::Remove(path.copy(alloc)?),
        Edit::Snapshot(from, to) => Edit::Snapshot(from.copy(alloc)?, to.copy(alloc)?),
        Edit::Mkdirs(_)
        | Edit::Create(_)
        | Edit::Rename(_, _)
        | Edit::Hide(_, _, _)
        | Edit::Unhide(_)
        | Edit::AddChunk(_, _)
        | Edit::Cow(_, _, _, _)
        | Edit::Forget(_) => return Ok(Following::Never),
    };
    Ok(Following::Edit(copy))
}

/// How names follow an edit: by its copy, or, where that is a move, by the move alone.
fn following(copy: Following, inverse: Inverse) -> Following
    ensures { (before after : NamesView) → IsLedBy copy before after → NamesTakenBack inverse before after → IsLedBy result before after }
{
    let Following::Never = copy else {
        return copy;
    };
    let Inverse::Tree(inverse) = inverse else {
        return Following::Never;
    };
    let TreeInverse::Moved(from, to) = inverse else {
        return Following::Never;
    };
    Following::Move(from, to)
}

/// The same edit on what stands by. Where memory is wanting nothing stands by any more.
fn followed(spare: Option<Names>, edit: &Edit) -> Option<Names>
    ensures { (before after : NamesView) → StandsBy spare before → edited_names (plain_edit edit.now) before ≡ Ok after → StandsBy result after }
{
    let mut spare = spare?;
    match made(&mut spare, edit) {
        Ok(()) => Some(spare),
        Err(_) => None,
    }
}

/// Names on which an edit is made that was made on equal ones. Where memory is wanting for it none come back.
fn led(names: Names, following: &Following) -> Option<Names>
    ensures { (after : NamesView) → IsLedBy following.now names after → StandsBy result after }
{
    match following {
        Following::Never => None,
        Following::Edit(edit) => followed(Some(names), edit),
        Following::Move(from, to) => match names.with_moved(from, to) {
            Ok(names) => Some(names),
            Err(_) => None,
        },
    }
}

/// Makes an edit.
fn made(names: &mut Names, edit: &Edit) -> Result<(), Refusal>
    ensures { Applies edit.now names.old result names.new }
{
    match names.apply(edit) {
        Ok(inverse) => {
            drop(inverse);
            Ok(())
        }
        Err(refusal) => Err(refusal),
    }
}

/// An edit is taken back. Where memory is wanting for that no names come back.
fn taken_back(mut names: Names, inverse: &Inverse) -> Option<Names>
    ensures { (stood : NamesView) → NamesTakenBack inverse.now stood names → StandsBy result stood }
{
    match names.undo(inverse) {
        Ok(()) => Some(names),
        Err(_) => None,
    }
}

/// What is told of a refusal: that of the edit, but for want of memory.
fn told(refusal: Refusal) -> Result<Option<Refusal>, Refusal>
    ensures told { IfOk result (λ told. (told ≡ Some refusal) × (refusal ≢ Refusal.Memory)) }
    ensures memory { IfErr result (λ e. e ≡ Refusal.Memory) }
{
    match refusal {
        Refusal::Memory => Err(Refusal::Memory),
        refusal => Ok(Some(refusal)),
    }
}

/// Why names refuse an edit, if they do. What comes back is equal to them, if something does: an edit that is made is taken back.
fn judged(mut names: Names, edit: &Edit) -> (Option<Names>, Result<Option<Refusal>, Refusal>)
    ensures judged { IfOk result.1 (λ refusal. refusal ≡ refusal_of (edited_names (plain_edit edit.now) names)) }
    ensures memory { IfErr result.1 (λ refusal. refusal ≡ Refusal.Memory) }
    ensures stays { StandsBy result.0 names }
{
    match names.apply(edit) {
        Ok(inverse) => {
            let back = taken_back(names, &inverse);
            drop(inverse);
            (back, Ok(None))
        }
        Err(refusal) => (Some(names), told(refusal)),
    }
}

/// The same of an edit that is taken back without memory, on the names themselves.
fn judged_in_place(names: &mut Names, edit: &Edit) -> Result<Option<Refusal>, Refusal>
    requires { is_made_in_place (plain_edit edit.now) ≡ true }
    ensures judged { IfOk result (λ refusal. refusal ≡ refusal_of (edited_names (plain_edit edit.now) names.old)) }
    ensures memory { IfErr result (λ refusal. refusal ≡ Refusal.Memory) }
    ensures stays { names.new ≡ names.old }
{
    match names.apply(edit) {
        Ok(inverse) => {
            undo(names, &inverse);
            drop(inverse);
            Ok(None)
        }
        Err(refusal) => told(refusal),
    }
}

/// The same of a move, which goes back to its place.
fn judged_move(names: &mut Names, edit: &Edit) -> Result<Option<Refusal>, Refusal>
    requires { is_move edit.now ≡ true }
    ensures judged { IfOk result (λ refusal. refusal ≡ refusal_of (edited_names (plain_edit edit.now) names.old)) }
    ensures memory { IfErr result (λ refusal. refusal ≡ Refusal.Memory) }
    ensures stays { names.new ≡ names.old }
{
    let inverse = match names.move_keeping_place(edit) {
        Ok(inverse) => inverse,
        Err(refusal) => return told(refusal),
    };
    let TreeInverse::Moved(from, to) = inverse else {
        return Err(Refusal::Memory);
    };
    names.return_to_place(&from, &to);
    Ok(None)
}

/// An edit is taken back that wants no memory for it.
fn undo(names: &mut Names, inverse: &Inverse)
    ensures { (stood : NamesView) → NamesTakenBack inverse.now stood names.old → takes_memory inverse.now ≡ false → names.new ≡ stood }
{
    let _undone = names.undo(inverse);
}

/// The names, perhaps with the places that empty directories keep for what was moved or removed last, and perhaps a copy of
/// them that stands by. They are seen as the names alone, without these directories.
///
/// An edit that can be taken back without memory is made in place. So is a move or a removal: until it stands, its place is
/// kept, so that what left it can go back there. The first edit of any other kind copies the names. From then on each edit
/// is made on both, a move the second time without its tests, so a further one costs its path and not the names. Where
/// memory is wanting for the copy it goes, and a later edit copies the names again.
///
/// While places are kept, which is until their event ends, a removal is made in place if none of them lies at or under its
/// path. Each other edit is made on a copy, and what lists entries or chunks copies the names.
pub struct HeldNames {
    alloc: Global,
    names: Names,
    places: Places,
    spare: Option<Names>,
    visible: Option<Table<Handle, bool>>,
}

impl Drop for HeldNames {
    fn drop(self) {
        let Self {
            alloc: _,
            names: _,
            places: _,
            spare: _,
            visible: _,
        } = self;
    }
}

impl Model for HeldNames {
    ghost use Rattle.gs_master_state.specs.inner.Held.{HeldView, IsSeen, KeepsAll, StandsBy, coded_held, without_kept};

    ghost Value = { HeldView };

    ghost coded = { coded_held };

    ghost view = { λ a. record { names = without_kept a.places.items a.names; places = a.places.items } };

    ghost invariant = { λ a. KeepsAll a.places.items a.names × StandsBy a.spare (without_kept a.places.items a.names) × IsSeen a.visible (without_kept a.places.items a.names) };
}

impl HeldNames {
    /// Names of which no place is kept and no copy stands by.
    pub fn new(alloc: Global, names: Names) -> HeldNames
        ensures { result ≡ still names }
    {
        HeldNames {
            alloc,
            names,
            places: Places::new(alloc),
            spare: None,
            visible: None,
        }
    }

    /// The chunks of files that no hidden name is above, where they were kept since the names were as they are.
    pub fn visible(&self) -> Option<&Table<Handle, bool>>
        ensures { IfSome result (λ chunks. AreSeen self.now.names chunks.now) }
    {
        self.visible.as_ref()
    }

    /// These chunks are kept until an edit is made.
    pub fn keep_visible(&mut self, chunks: Table<Handle, bool>)
        requires { AreSeen self.old.names chunks }
        ensures { self.new ≡ self.old }
    {
        self.visible = Some(chunks);
    }

    pub fn refs(&self) -> &Refs
        ensures { result.now ≡ self.now.names.refs }
    {
        self.names.refs()
    }

    /// The same names, in memory of their own.
    pub fn copy(&self) -> Result<Names, AllocError>
        ensures { IfOk result (λ names. names ≡ self.now.names) }
    {
        let names = self.names.copy()?;
        Ok(without_places(names, self.places.as_slice()))
    }

    /// Whether a place that is kept is at a path.
    fn is_place(&self, path: &Path) -> bool
        ensures { result ≡ is_at self.now.places path.now }
    {
        self.places.as_slice().iter().any(|place| path == place)
    }

    /// Whether a place that is kept is at or under a path.
    fn is_over(&self, path: &Path) -> bool
        ensures { result ≡ list_any (begins path.now) self.now.places }
    {
        self.places.is_over(path)
    }

    /// Whether none is.
    fn is_apart(&self, path: &Path) -> bool
        ensures { result ≡ not (list_any (begins path.now) self.now.places) }
    {
        !self.is_over(path)
    }

    /// What stands at a path, as in the tree (`Tree::status`). It takes no memory.
    pub fn status(&self, path: &Path) -> Result<Status<'_>, Refusal>
        ensures { StandsAs (fin_map.get self.now.names.tree path.now) result }
    {
        let tree = self.names.tree();
        if self.is_place(path) {
            return Err(Refusal::NotFound);
        }
        tree.status(path)
    }

    /// Whether a directory at a path has a visible child. It takes no memory.
    pub fn has_visible(&self, path: &Path) -> bool
        ensures { MatchBool result (HasVisible (part_at path.now (fin_map.get self.now.names.tree))) (HasVisible (part_at path.now (fin_map.get self.now.names.tree)) → ⊥) }
    {
        let tree = self.names.tree();
        let Some(place) = self.places.as_slice().first() else {
            return tree.has_visible(path);
        };
        let Some((name, parent)) = place.elements().split_last() else {
            return tree.has_visible(path);
        };
        if parent == path.elements() {
            tree.has_visible_but(path, name)
        } else {
            tree.has_visible(path)
        }
    }

    /// What is listed at a path, as of the tree (`Tree::list`).
    pub fn list(&self, path: &Path) -> Result<Vec<Listed>, Refusal>
        ensures { Lists (fin_map.get self.now.names.tree) path.now result }
    {
        if self.places.is_empty() {
            return self.names.tree().list(path);
        }
        let names = self.copy()?;
        names.tree().list(path)
    }

    /// The chunks of the files at and under a path that no hidden name is above, as of the tree
    /// (`Tree::visible_chunks_under`).
    pub fn visible_chunks_under(
        &self,
        alloc: Global,
        path: &Path,
    ) -> Result<Vec<Handle>, AllocError>
        ensures { IfOk result (λ found. found.items ≡ visible_chunks_under path.now (fin_map.entries self.now.names.tree)) }
    {
        if self.places.is_empty() {
            return self.names.tree().visible_chunks_under(alloc, path);
        }
        let names = self.copy()?;
        names.tree().visible_chunks_under(alloc, path)
    }

    /// What stands at each path but the root, in the order of the paths.
    pub fn entries(&self, alloc: Global) -> Result<Vec<TreeEntry>, AllocError>
        ensures rows { IfOk result (λ listed. rooted_rows (rows_of_entries listed.items) ≡ fin_map.entries self.now.names.tree) }
        ensures tree { IfOk result (λ listed. list_all (λ r. is_short r.0) (fin_map.entries self.now.names.tree) ≡ is_tree (rows_of_entries listed.items)) }
    {
        if self.places.is_empty() {
            return self.names.tree().entries(alloc);
        }
        let names = self.copy()?;
        names.tree().entries(alloc)
    }

    /// What stands at a path and below it, in the order of the paths.
    pub fn entries_under(&self, alloc: Global, path: &Path) -> Result<Vec<TreeEntry>, AllocError>
        ensures { IfOk result (λ listed. rows_of_entries listed.items ≡ rows_under path.now (fin_map.entries self.now.names.tree)) }
    {
        if self.is_apart(path) {
            return self.names.tree().entries_under(alloc, path);
        }
        let names = self.copy()?;
        names.tree().entries_under(alloc, path)
    }

    /// What a scan at a moment takes out, as of the names.
    pub fn scan(&self, moment: Moment) -> Result<Scan, Refusal>
        ensures { Scans moment.0 (fin_map.entries self.now.names.tree) self.now.names.refs result }
    {
        if self.places.is_empty() {
            return self.names.scan(moment);
        }
        let names = self.copy()?;
        names.scan(moment)
    }

    /// The places that are kept are given up: what left them stays away.
    pub fn give_up_places(&mut self)
        ensures { self.new ≡ still self.old.names }
    {
        if self.places.is_empty() {
            return;
        }
        self.visible = None;
        let places = mem::replace(&mut self.places, Places::new(self.alloc));
        give_up_each(&mut self.names, places.as_slice());
    }

    /// Makes an edit in place, and answers what takes it back.
    pub fn apply(&mut self, edit: &Edit) -> Result<Inverse, Refusal>
        ensures edit { Applies edit.now self.old.names result self.new.names }
        ensures undo { IfOk result (λ i. NamesTakenBack i self.old.names self.new.names) }
        ensures kind { IfOk result (λ i. is_of_kind (kind_of edit.now) i ≡ true) }
        ensures places { self.new.places ≡ [] }
    {
        self.give_up_places();
        self.apply_in_place(edit)
    }

    /// The same where no place is kept.
    fn apply_in_place(&mut self, edit: &Edit) -> Result<Inverse, Refusal>
        requires { self.old.places ≡ [] }
        ensures edit { Applies edit.now self.old.names result self.new.names }
        ensures undo { IfOk result (λ i. NamesTakenBack i self.old.names self.new.names) }
        ensures kind { IfOk result (λ i. is_of_kind (kind_of edit.now) i ≡ true) }
        ensures places { self.new.places ≡ [] }
    {
        self.visible = None;
        match self.names.apply(edit) {
            Ok(inverse) => {
                self.spare = followed(self.spare.take(), edit);
                Ok(inverse)
            }
            Err(refusal) => Err(refusal),
        }
    }

    /// What stands by, or a copy. Nothing stands by any more.
    fn take_spare(&mut self) -> Result<Names, AllocError>
        ensures spare { IfOk result (λ spare. spare ≡ self.old.names) }
        ensures stays { self.new ≡ self.old }
    {
        match self.spare.take() {
            Some(spare) => Ok(spare),
            None => self.copy(),
        }
    }

    /// Names to which an edit has led take the place of those that stood. Nothing stands by then.
    fn exchange(&mut self, names: Names, following: Following) -> NamesBefore
        ensures now { self.new ≡ still names }
        ensures back { IsLedBy following self.old.names names → AreNamesBefore result self.old.names names }
        ensures places { ArePlacesBefore result self.old.places [] }
        ensures kept { is_kept result ≡ true }
    {
        self.spare = None;
        self.visible = None;
        NamesBefore::Kept(StoodNames {
            names: mem::replace(&mut self.names, names),
            places: mem::replace(&mut self.places, Places::new(self.alloc)),
            following,
        })
    }

    /// Makes an edit on a copy of the names, and keeps those that stood.
    fn enter_on_copy(&mut self, edit: &Edit) -> Result<NamesBefore, Refusal>
        ensures edit { Applies edit.now self.old.names result self.new.names }
        ensures back { IfOk result (λ before. AreNamesBefore before self.old.names self.new.names) }
        ensures places { IfOk result (λ before. ArePlacesBefore before self.old.places self.new.places) }
        ensures refused { IfErr result (λ _. self.new ≡ self.old) }
        ensures kept { IfOk result (λ before. is_kept before ≡ true) }
    {
        let copy = copied(self.alloc, edit)?;
        let mut spare = self.take_spare()?;
        match spare.apply(edit) {
            Ok(inverse) => Ok(self.exchange(spare, following(copy, inverse))),
            Err(refusal) => {
                self.spare = Some(spare);
                Err(refusal)
            }
        }
    }

    /// Makes a move in place, and keeps its place until it stands. What stood by is kept for then.
    fn enter_move(&mut self, edit: &Edit) -> Result<NamesBefore, Refusal>
        requires places { self.old.places ≡ [] }
        requires edit { is_move edit.now ≡ true }
        ensures edit { Applies edit.now self.old.names result self.new.names }
        ensures back { IfOk result (λ before. AreNamesBefore before self.old.names self.new.names) }
        ensures places { IfOk result (λ before. ArePlacesBefore before self.old.places self.new.places) }
        ensures refused { IfErr result (λ _. self.new ≡ self.old) }
        ensures kept { IfOk result (λ before. is_kept before ≡ false) }
    {
        // What is moved may be hidden from here on.
        self.visible = None;
        let inverse = match self.names.move_keeping_place(edit) {
            Ok(inverse) => inverse,
            Err(refusal) => return Err(refusal),
        };
        let TreeInverse::Moved(from, to) = inverse else {
            return Err(Refusal::Memory);
        };
        let Ok(places) = Places::one(self.alloc, &from) else {
            self.names.return_to_place(&from, &to);
            return Err(Refusal::Memory);
        };
        self.places = places;
        let spare = self.spare.take();
        Ok(NamesBefore::Moved(MovedNames { from, to, spare }))
    }

    /// Takes out what is hidden at a path in place, and keeps its place until that stands. What stands by follows.
    fn enter_removal(&mut self, edit: &Edit, path: &Path) -> Result<NamesBefore, Refusal>
        requires edit { edit.now ≡ Edit.Remove path.now }
        requires apart { list_any (begins path.now) self.old.places ≡ false }
        ensures edit { OnOk result (renamed edit.now self.old.names ≡ Ok (fin_map.entries self.new.names.tree, self.new.names.refs)) }
        ensures back { IfOk result (λ before. AreNamesBefore before self.old.names self.new.names) }
        ensures places { IfOk result (λ before. ArePlacesBefore before self.old.places self.new.places) }
        ensures kept { IfOk result (λ before. is_kept before ≡ false) }
        ensures refused { IfErr result (λ _. self.new ≡ self.old) }
        ensures first { self.old.places ≡ [] → IfErr result (λ e. IsNotRemoved path.now self.old.names e self.new.names) }
    {
        let kept = path.copy(self.alloc)?;
        let path = path.copy(self.alloc)?;
        self.places.push(kept)?;
        let out = match self.names.remove_keeping_place(&path) {
            Ok(out) => out,
            Err(refusal) => {
                self.places.pop();
                return Err(refusal);
            }
        };
        self.visible = None;
        let beside = self.spare.take();
        self.spare = followed(beside, edit);
        Ok(NamesBefore::Removed(RemovedNames { path, out }))
    }

    /// Makes a removal: in place where no place that is kept is at or under its path, and else on a copy. Behind other places
    /// a copy says why it is refused.
    fn enter_remove(&mut self, edit: &Edit, path: &Path) -> Result<NamesBefore, Refusal>
        requires { edit.now ≡ Edit.Remove path.now }
        ensures edit { Applies edit.now self.old.names result self.new.names }
        ensures back { IfOk result (λ before. AreNamesBefore before self.old.names self.new.names) }
        ensures places { IfOk result (λ before. ArePlacesBefore before self.old.places self.new.places) }
        ensures refused { IfErr result (λ _. self.new ≡ self.old) }
        ensures copies { self.old.places ≡ [] → IfOk result (λ before. is_kept before ≡ false) }
    {
        if !self.is_apart(path) {
            return self.enter_on_copy(edit);
        }
        match self.enter_removal(edit, path) {
            Ok(before) => return Ok(before),
            Err(refusal) => {
                if self.places.is_empty() {
                    return Err(refusal);
                }
            }
        }
        self.enter_on_copy(edit)
    }

    /// Makes an edit: in place where its inverse takes it back without memory, where it is a move and no place is kept yet, or
    /// where it is a removal apart from the places that are; and else on a copy.
    pub fn enter(&mut self, edit: &Edit) -> Result<NamesBefore, Refusal>
        ensures edit { Applies edit.now self.old.names result self.new.names }
        ensures back { IfOk result (λ before. AreNamesBefore before self.old.names self.new.names) }
        ensures places { IfOk result (λ before. ArePlacesBefore before self.old.places self.new.places) }
        ensures refused { IfErr result (λ _. self.new ≡ self.old) }
        ensures copies { self.old.places ≡ [] → IfOk result (λ before. is_kept before ≡ wants_copy (plain_edit edit.now)) }
    {
        if let Edit::Remove(path) = edit {
            return self.enter_remove(edit, path);
        }
        if !self.places.is_empty() {
            return self.enter_on_copy(edit);
        }
        if is_move(edit) {
            return self.enter_move(edit);
        }
        if !is_made_in_place(edit) {
            return self.enter_on_copy(edit);
        }
        match self.apply_in_place(edit) {
            Ok(inverse) => Ok(NamesBefore::Undone(inverse)),
            Err(refusal) => Err(refusal),
        }
    }

    /// The names stand again as they stood, with the places that were kept then.
    pub fn put_back(&mut self, before: NamesBefore)
        requires { HasPlaceBack self.old.places before }
        ensures names { (stood : NamesView) → AreNamesBefore before stood self.old.names → self.new.names ≡ stood }
        ensures places { self.new.places ≡ places_before before self.old.places }
    {
        match before {
            NamesBefore::Undone(inverse) => {
                self.spare = None;
                self.visible = None;
                undo(&mut self.names, &inverse);
            }
            NamesBefore::Moved(moved) => self.move_back(moved),
            NamesBefore::Removed(removed) => self.put_removed_back(removed),
            NamesBefore::Kept(stood) => self.put_stood_back(stood),
        }
    }

    /// Names that were kept stand again, with the places that were kept in them.
    fn put_stood_back(&mut self, stood: StoodNames)
        requires { KeepsAll stood.places.items stood.names }
        ensures names { self.new.names ≡ without_kept stood.places.items stood.names }
        ensures places { self.new.places ≡ stood.places.items }
    {
        let StoodNames {
            names,
            places,
            following,
        } = stood;
        drop(following);
        self.spare = None;
        self.visible = None;
        self.names = names;
        self.places = places;
    }

    /// What was removed stands again in its place.
    fn put_removed_back(&mut self, removed: RemovedNames)
        requires { IsLastPlace self.old.places removed.path }
        ensures names { (stood : NamesView) → AreNamesBefore (NamesBefore.Removed removed) stood self.old.names → self.new.names ≡ stood }
        ensures places { self.new.places ≡ all_but_last self.old.places }
    {
        let RemovedNames { path, out } = removed;
        self.spare = None;
        self.visible = None;
        self.places.pop();
        self.names.put_back(&path, out);
    }

    /// What was moved goes back to its place.
    fn move_back(&mut self, moved: MovedNames)
        requires { self.old.places ≡ moved.from ∷ [] }
        ensures names { (stood : NamesView) → AreNamesBefore (NamesBefore.Moved moved) stood self.old.names → self.new.names ≡ stood }
        ensures places { self.new.places ≡ [] }
    {
        let MovedNames { from, to, spare } = moved;
        drop(spare);
        self.spare = None;
        self.visible = None;
        self.places = Places::new(self.alloc);
        self.names.return_to_place(&from, &to);
    }

    /// An edit stands. The names that stood before it follow it, and stand by from then on.
    pub fn follow(&mut self, before: NamesBefore)
        requires { (stood : NamesView) × AreNamesBefore before stood self.old.names }
        ensures { self.new ≡ self.old }
    {
        match before {
            NamesBefore::Undone(inverse) => drop(inverse),
            NamesBefore::Moved(moved) => {
                let MovedNames { from, to, spare } = moved;
                if let Some(spare) = spare {
                    self.spare = led(spare, &Following::Move(from, to));
                }
            }
            NamesBefore::Removed(removed) => drop(removed),
            NamesBefore::Kept(stood) => {
                let StoodNames {
                    names,
                    places,
                    following,
                } = stood;
                self.spare = led(without_places(names, places.as_slice()), &following);
            }
        }
    }

    /// Why the names refuse an edit, if they do. They stay as they are.
    pub fn judge(&mut self, edit: &Edit) -> Result<Option<Refusal>, Refusal>
        ensures judged { IfOk result (λ refusal. refusal ≡ refusal_of (edited_names (plain_edit edit.now) self.old.names)) }
        ensures memory { IfErr result (λ refusal. refusal ≡ Refusal.Memory) }
        ensures stays { self.new ≡ self.old }
    {
        if self.places.is_empty() && is_made_in_place(edit) {
            self.visible = None;
            return judged_in_place(&mut self.names, edit);
        }
        if self.places.is_empty() && is_move(edit) {
            self.visible = None;
            return judged_move(&mut self.names, edit);
        }
        let spare = self.take_spare()?;
        let (spare, judged) = judged(spare, edit);
        self.spare = spare;
        judged
    }
}
