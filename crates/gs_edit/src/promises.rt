//! What holds of all names, whatever edits are made of them.

ghost use Rattle.std.specs.Prelude.{◌≡◌, ℕ, false, true, is_some, Result, Err};
ghost use Rattle.std.specs.List.{list_any};
ghost use Rattle.std.specs.FinMap.{entries};
ghost use Rattle.gs_base.specs.declared.refusal.Refusal.{Refusal};
ghost use Rattle.gs_base.specs.declared.refusal.Refusal.TheVariants.{Memory};
ghost use Rattle.gs_path.specs.Path.{Path};
ghost use Rattle.gs_tree.specs.Find.{Rows, at, is_too_deep, is_copied_too_deep};
ghost use Rattle.gs_tree.specs.Edits.{mkdirs, create, rename, hide, unhide, remove, add_chunk, set_chunk, snapshot};
ghost use Rattle.gs_tree.specs.Commands.{IsClosed};
ghost use Rattle.gs_edit.specs.View.{NamesView};
ghost use Rattle.gs_edit.specs.Names.{NamesTakenBack, Undoes, IsCounted, blank};
ghost use Rattle.gs_edit.specs.Plain.{mkdirs_rows, create_rows, rename_rows, hide_rows, unhide_rows, remove_rows, add_chunk_rows, set_chunk_rows, snapshot_rows};
ghost use Rattle.gs_edit.specs.Mapped.{Tables, mapped_rows, mapped_edit};
ghost use Rattle.gs_edit.specs.Scan.{is_over, left, Scans, removal_cmp, length_then_text_cmp, is_without_slashes};
ghost use Rattle.gs_edit.specs.declared.edit.Inverse.{Inverse};
ghost use Rattle.gs_edit.specs.Laws.{ScansSweep, EditsOfScansAreAccepted, ForgottenChunksStandNowhere, SweptNamesHaveNothingToGo, ChangedChunksFollowTexts};

/// Each chunk's count is how often it stands in the tree's files: in new names, and where it is so, after every edit that has
/// an inverse, and after every inverse that is undone or refused.
pub fn counts_stay_true()
    ensures begin { IsCounted blank }
    ensures edit { (inverse : Inverse) (old new : NamesView) → NamesTakenBack inverse old new → IsCounted old → IsCounted new }
    ensures undo { (inverse : Inverse) (old new : NamesView) (result : Result (Unit {0}) Refusal) → Undoes inverse old result new → IsCounted old → IsCounted new }
{}

/// What a scan finds can be done: where each chunk's count is how often it stands in the tree's files, its edits are
/// accepted one after the other, so that none in its turn is refused but for want of memory, and neither is the scan.
/// Afterwards all that goes is out, a chunk is listed exactly where a file has it, and a scan at the same moment finds
/// nothing. The chunks that are forgotten are the listed ones that stand in none of the files that are left. Where something
/// stands above all that stands, no element of a path that is left is over.
pub fn scans_take_out_what_goes()
    ensures accepted { ScansSweep }
    ensures turn { EditsOfScansAreAccepted }
    ensures forgotten { ForgottenChunksStandNowhere }
    ensures refused { (moment : ℕ) (names : NamesView) (e : Refusal) → IsCounted names → Scans moment (entries names.tree) names.refs (Err e) → e ≡ Memory }
    ensures again { SweptNamesHaveNothingToGo }
    ensures over { (moment : ℕ) (old : Rows ℕ) (path : Path) → IsClosed (at old) → is_some (at (left moment old) path) ≡ true → list_any (is_over moment) path ≡ false }
{}

/// Of paths without a slash in an element the order of removals is that of the numbers of elements, then of the texts.
pub fn removals_stand_by_their_texts()
    ensures { (p q : Path) → is_without_slashes p ≡ true → is_without_slashes q ≡ true → removal_cmp p q ≡ length_then_text_cmp p q }
{}

/// The rows of an edit are the plain tree's command, written down: they rise and have at each path what the command leaves
/// there, or the refusal is the command's. It holds of any rows and any payload, be it handles or the texts of chunks.
pub fn rows_are_the_plain_tree<A>()
    ensures mkdirs { (rows : Rows A) (p : Path) → Tables (mkdirs (at rows) p) (mkdirs_rows rows p) }
    ensures create { (rows : Rows A) (p : Path) → Tables (create (at rows) p) (create_rows rows p) }
    ensures rename { (rows : Rows A) (from to : Path) → Tables (rename (is_too_deep rows from) (at rows) from to) (rename_rows rows from to) }
    ensures hide { (rows : Rows A) (p : Path) (moment number : ℕ) → Tables (hide (at rows) p moment number) (hide_rows rows p moment number) }
    ensures unhide { (rows : Rows A) (p : Path) → Tables (unhide (at rows) p) (unhide_rows rows p) }
    ensures remove { (rows : Rows A) (p : Path) → Tables (remove (at rows) p) (remove_rows rows p) }
    ensures add_chunk { (rows : Rows A) (p : Path) (chunk : A) → Tables (add_chunk (at rows) p chunk) (add_chunk_rows rows p chunk) }
    ensures set_chunk { (rows : Rows A) (p : Path) (index : ℕ) (chunk : A) → Tables (set_chunk (at rows) p index chunk) (set_chunk_rows rows p index chunk) }
    ensures snapshot { (rows : Rows A) (from to : Path) → Tables (snapshot (is_copied_too_deep rows from) (at rows) from to) (snapshot_rows rows from to) }
{}

/// The rows of an edit follow a map over the payload: it looks at no chunk. So rows with the texts of chunks in the place of
/// their handles go through the same edits.
pub fn rows_follow_chunks<A, B>()
    ensures mkdirs { (text : A → B) (rows : Rows A) (p : Path) → mkdirs_rows (mapped_rows text rows) p ≡ mapped_edit text (mkdirs_rows rows p) }
    ensures create { (text : A → B) (rows : Rows A) (p : Path) → create_rows (mapped_rows text rows) p ≡ mapped_edit text (create_rows rows p) }
    ensures rename { (text : A → B) (rows : Rows A) (from to : Path) → rename_rows (mapped_rows text rows) from to ≡ mapped_edit text (rename_rows rows from to) }
    ensures hide { (text : A → B) (rows : Rows A) (p : Path) (moment number : ℕ) → hide_rows (mapped_rows text rows) p moment number ≡ mapped_edit text (hide_rows rows p moment number) }
    ensures unhide { (text : A → B) (rows : Rows A) (p : Path) → unhide_rows (mapped_rows text rows) p ≡ mapped_edit text (unhide_rows rows p) }
    ensures remove { (text : A → B) (rows : Rows A) (p : Path) → remove_rows (mapped_rows text rows) p ≡ mapped_edit text (remove_rows rows p) }
    ensures add_chunk { (text : A → B) (rows : Rows A) (p : Path) (chunk : A) → add_chunk_rows (mapped_rows text rows) p (text chunk) ≡ mapped_edit text (add_chunk_rows rows p chunk) }
    ensures set_chunk { ChangedChunksFollowTexts A B }
    ensures snapshot { (text : A → B) (rows : Rows A) (from to : Path) → snapshot_rows (mapped_rows text rows) from to ≡ mapped_edit text (snapshot_rows rows from to) }
{}
