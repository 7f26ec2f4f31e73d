// The journal's room, and whether records that aren't made yet fit there.
ghost use Rattle.std.specs.Prelude.{◌*◌, ◌++◌, ◌+◌, ◌<◌, ◌≡◌, ◌≤◌, false, IfOk, length, map, nat_le};
ghost use Rattle.std.specs.List.{list_any};
ghost use Rattle.gs_journal.specs.Journal.{checkpoint_size, last_generation};
ghost use Rattle.gs_master_record.specs.Encoding.{edit, path};
ghost use Rattle.gs_master_record.specs.Plain.{plain, plain_edit};
ghost use Rattle.gs_master_spec.specs.Applied.{is_whole_entry};
ghost use Rattle.gs_master_spec.specs.Handling.{log_with};
ghost use Rattle.gs_master_state.specs.inner.Plans.{log_of};
ghost use Rattle.gs_master_state.specs.inner.Room.{IsBehind};
ghost use Rattle.gs_master_spec.specs.State.{fits, size_of};

use gs_edit::Edit;
use gs_master_record::Entry;
use gs_path::Path;
use std::alloc::{AllocError, Global};

/// How many bytes a disk with one checkpoint has more than its body.
pub const AROUND: u64 = 20;

/// The room of the journal: how many records stand behind the last checkpoint, the bytes of the disk that counts, how many it
/// may have, and its generation.
#[derive(Clone, Copy)]
pub struct Log {
    pub records: u64,
    pub size: u64,
    pub limit: u64,
    pub generation: u64,
}

impl Log {
    /// Whether so many bytes more are within the limit.
    pub fn has_room(self, bytes: u64) -> bool
        ensures { result ≡ nat_le (self.size + bytes) self.limit }
    {
        match self.limit.checked_sub(self.size) {
            Some(room) => bytes <= room,
            None => false,
        }
    }

    /// A record of so many bytes stands behind the others. There is room for it.
    pub fn add(&mut self, bytes: u64)
        requires room { self.old.size + bytes ≤ self.old.limit }
        requires counted { self.old.records ≤ self.old.size }
        requires some { 1 ≤ bytes }
        ensures added { self.new ≡ record self.old { records = self.old.records + 1; size = self.old.size + bytes } }
        ensures counted { self.new.records ≤ self.new.size }
    {
        self.records += 1;
        self.size += bytes;
    }

    /// Whether there is room for so many proposals, of which each takes 22 bytes.
    pub fn has_room_for_proposals(self, many: usize) -> bool
        ensures { result ≡ nat_le (self.size + many * 22) self.limit }
    {
        match (many as u64).checked_mul(22) {
            Some(bytes) => self.has_room(bytes),
            None => false,
        }
    }

    /// The journal's room with a checkpoint of this body alone.
    pub fn anew(self, body: &[u8]) -> Log
        requires generation { self.generation < last_generation }
        requires fits { checkpoint_size body.now ≤ self.limit }
        ensures { log_of result ≡ log_with (log_of self) body.now }
    {
        Log {
            records: 0,
            size: body.len() as u64 + AROUND,
            limit: self.limit,
            generation: self.generation + 1,
        }
    }
}

/// What is left behind so many bytes.
fn behind(room: Option<u64>, bytes: u64) -> Option<u64>
    ensures { IsBehind room bytes result }
{
    room?.checked_sub(bytes)
}

/// What is left behind so many items of so many bytes each.
fn behind_items(room: Option<u64>, items: usize, each: u64) -> Option<u64>
    ensures { IsBehind room (items * each) result }
{
    let bytes = (items as u64).checked_mul(each)?;
    behind(room, bytes)
}

/// What is left behind a path.
fn behind_path(room: Option<u64>, alloc: Global, place: &Path) -> Result<Option<u64>, AllocError>
    ensures { IfOk result (IsBehind room (length (path place.now))) }
{
    let text = place.text(alloc)?;
    Ok(behind(behind(room, 2), text.len() as u64))
}

/// What is left behind an edit of two paths.
fn behind_two(
    room: Option<u64>,
    alloc: Global,
    from: &Path,
    to: &Path,
) -> Result<Option<u64>, AllocError>
    ensures { IfOk result (IsBehind room (length (path from.now ++ path to.now) + 1)) }
{
    let room = behind_path(behind(room, 1), alloc, from)?;
    behind_path(room, alloc, to)
}

/// What is left behind an edit.
fn behind_edit(room: Option<u64>, alloc: Global, told: &Edit) -> Result<Option<u64>, AllocError>
    ensures { IfOk result (IsBehind room (length (edit (plain_edit told.now)))) }
{
    match told {
        Edit::Mkdirs(path) => behind_path(behind(room, 1), alloc, path),
        Edit::Create(path) => behind_path(behind(room, 1), alloc, path),
        Edit::Rename(from, to) => behind_two(room, alloc, from, to),
        Edit::Hide(path, _, _) => behind_path(behind(room, 17), alloc, path),
        Edit::Unhide(path) => behind_path(behind(room, 1), alloc, path),
        Edit::Remove(path) => behind_path(behind(room, 1), alloc, path),
        Edit::AddChunk(path, _) => behind_path(behind(room, 9), alloc, path),
        Edit::Cow(path, _, _, _) => behind_path(behind(room, 21), alloc, path),
        Edit::Snapshot(from, to) => behind_two(room, alloc, from, to),
        Edit::Forget(chunks) => Ok(behind_items(behind(room, 5), chunks.len(), 8)),
    }
}

/// What is left behind the record of an entry. It is no checkpoint.
pub fn behind_entry(
    room: Option<u64>,
    alloc: Global,
    entry: &Entry,
) -> Result<Option<u64>, AllocError>
    requires { is_whole_entry (plain entry.now) ≡ false }
    ensures { IfOk result (IsBehind room (size_of (plain entry.now))) }
{
    match entry {
        Entry::Edit { by: _, edit } => behind_edit(behind(room, 18), alloc, edit),
        Entry::Said { to: _, refusal } => {
            let detail = refusal.detail(alloc)?;
            Ok(behind(behind(room, 21), detail.len() as u64))
        }
        Entry::Propose { .. } => Ok(behind(room, 22)),
        Entry::Settle(_) => Ok(behind(room, 49)),
        Entry::Prepare { .. } => Ok(behind(room, 26)),
        Entry::Finalize { .. } | Entry::RollbackBegin { .. } => Ok(behind(room, 14)),
        Entry::RollbackCommit { epoch: _, answered } => {
            Ok(behind_items(behind(room, 18), answered.len(), 10))
        }
        Entry::Holder { .. } => Ok(behind(room, 15)),
        Entry::Checkpoint(_) => Ok(room),
    }
}

impl Log {
    /// Whether there is room for these records. None is a checkpoint.
    pub fn fits(self, alloc: Global, records: &[Entry]) -> Result<bool, AllocError>
        requires { list_any is_whole_entry (map plain records.now) ≡ false }
        ensures { IfOk result (λ has_room. has_room ≡ fits (log_of self) (map plain records.now)) }
    {
        let mut room = self.limit.checked_sub(self.size);
        for entry in records {
            room = behind_entry(room, alloc, entry)?;
        }
        Ok(room.is_some())
    }
}
