// Snapshots: their edit, and the files that they wait for.
ghost use Rattle.std.specs.Prelude.{◌≡◌, false, IfOk, IfSome, true};
ghost use Rattle.std.specs.FinMap as fin;
ghost use Rattle.std.specs.List.{list_all, list_any};
ghost use Rattle.gs_edit.specs.declared.edit.Edit.TheVariants as edits;
ghost use Rattle.gs_path.specs.Element.{is_hidden};
ghost use Rattle.gs_master_plan.specs.inner.Holding.{holds_up, is_visible_below};
ghost use Rattle.gs_master_plan.specs.inner.Planning.{state_of};
ghost use Rattle.gs_master_spec.specs.Settling.{is_quiet_at, source_chunks};
ghost use Rattle.gs_tree.specs.Edits.{chunks_in};

use crate::standing::Standing;
use gs_edit::Edit;
use gs_path::{Name, Path};
use gs_tree::{Status, TreeEntry};
use std::alloc::AllocError;

/// Whether one of these names begins as the names of deleted entries do.
fn is_any_hidden(names: &[Name]) -> bool
    ensures { result ≡ list_any is_hidden names.now }
{
    names.iter().any(|name| name.is_hidden())
}

/// Whether a snapshot of a source copies what stands at a path.
fn is_visible_below(from: &Path, file: &Path) -> bool
    ensures { result ≡ is_visible_below from.now file.now }
{
    match file.below(from) {
        Some(rest) => !is_any_hidden(rest),
        None => false,
    }
}

/// The number of a file's last chunk, and 0 of anything else.
fn last_number(entry: &TreeEntry) -> u64 {
    match entry {
        TreeEntry::File(_, chunks) => chunks.last().map_or(0, |chunk| chunk.number()),
        TreeEntry::Dir(_) => 0,
    }
}

impl<'a> Standing<'a> {
    /// Whether each chunk of a file is quiet. What is no file has none.
    fn is_file_quiet(&self, file: &Path) -> bool
        ensures { result ≡ list_all (is_quiet_at (state_of self.entry.now)) (chunks_in (fin.get (state_of self.entry.now).durable.names.tree file.now)) }
    {
        match self.recorded.names.status(file) {
            Ok(Status::File(chunks)) => self.are_quiet(chunks),
            _ => true,
        }
    }

    /// The edit of a snapshot. It can't be had while a chunk of its source is leased or moving.
    pub fn snapshot_edit(&self, from: Path, to: Path) -> Edit
        requires quiet { list_all (is_quiet_at (state_of self.now)) (source_chunks (state_of self.now) from) ≡ true }
        ensures { result ≡ edits.Snapshot from to }
    {
        Edit::Snapshot(from, to)
    }

    /// Whether a file holds up the snapshot of a source: it is copied, and a chunk of it isn't quiet. It costs the file's own
    /// chunks, however many the source has.
    pub fn holds_up(&self, from: &Path, file: &Path) -> bool
        ensures value { result ≡ holds_up (state_of self.entry.now) from.now file.now }
        ensures waits { result ≡ true → list_all (is_quiet_at (state_of self.entry.now)) (source_chunks (state_of self.entry.now) from.now) ≡ false }
    {
        is_visible_below(from, file) && !self.is_file_quiet(file)
    }

    /// A file that holds up the snapshot of a source. Of several it is the one whose last chunk is the newest, since chunks are
    /// made quiet in their order.
    pub fn held_up_by(&self, from: &Path) -> Result<Option<Path>, AllocError>
        ensures { IfOk result (λ found. IfSome found (λ file. holds_up (state_of self.entry.now) from.now file ≡ true)) }
    {
        let alloc = self.recorded.alloc;
        let entries = self.recorded.names.entries_under(alloc, from)?;
        let mut found: Option<&Path> = None;
        let mut newest = 0;
        for entry in &entries {
            let number = last_number(entry);
            if newest < number && self.holds_up(from, entry.path()) {
                newest = number;
                found = Some(entry.path());
            }
        }
        match found {
            Some(file) => Ok(Some(file.copy(alloc)?)),
            None => Ok(None),
        }
    }
}
