// Edits of the names.
ghost use Rattle.std.specs.Prelude.{◌≡◌};
ghost use Rattle.gs_master_record.specs.Plain.{plain_edit};
ghost use Rattle.gs_master_record.specs.Encoding.{edit_tag, edit_fields};
ghost use Rattle.gs_master_record.specs.Writable.{IsEdit};
ghost use Rattle.gs_master_record.specs.inner.Reading.{edit_of_chunks_at, edit_fields_at};
ghost use Rattle.gs_master_record.specs.inner.Work.{DecodesAs, Puts};

use crate::fault::Fault;
use crate::field::{Cursor, Field};
use crate::lists::{put_handles, read_handles};
use gs_base::{Handle, Moment};
use gs_edit::Edit;
use gs_path::Path;
use std::alloc::Global;

/// Takes the fields of an edit that tells a moment, a number or chunks beside its path.
#[tactic(auto, unfolding(crate::specs::inner::Reading::edit_of_chunks_at))]
fn read_edit_of_chunks(alloc: Global, cursor: &mut Cursor<'_>, tag: u8) -> Result<Edit, Fault>
    ensures { DecodesAs plain_edit result cursor.new.rest.now (edit_of_chunks_at tag cursor.old.rest.now) }
{
    match tag {
        4 => {
            let (path, (moment, number)) = <(Path, (Moment, u64))>::read(alloc, cursor)?;
            Ok(Edit::Hide(path, moment, number))
        }
        7 => {
            let (path, chunk) = <(Path, Handle)>::read(alloc, cursor)?;
            Ok(Edit::AddChunk(path, chunk))
        }
        8 => {
            let (path, (index, (old, new))) = <(Path, (u32, (Handle, Handle)))>::read(
                alloc, cursor,
            )?;
            Ok(Edit::Cow(path, index as usize, old, new))
        }
        10 => {
            let chunks = read_handles(alloc, cursor)?;
            Ok(Edit::Forget(chunks))
        }
        _ => Err(Fault::Form),
    }
}

/// Takes the fields of an edit.
#[tactic(auto, unfolding(crate::specs::inner::Reading::edit_fields_at))]
fn read_fields(alloc: Global, cursor: &mut Cursor<'_>, tag: u8) -> Result<Edit, Fault>
    ensures { DecodesAs plain_edit result cursor.new.rest.now (edit_fields_at tag cursor.old.rest.now) }
{
    match tag {
        1 => Ok(Edit::Mkdirs(Path::read(alloc, cursor)?)),
        2 => Ok(Edit::Create(Path::read(alloc, cursor)?)),
        3 => {
            let (from, to) = <(Path, Path)>::read(alloc, cursor)?;
            Ok(Edit::Rename(from, to))
        }
        5 => Ok(Edit::Unhide(Path::read(alloc, cursor)?)),
        6 => Ok(Edit::Remove(Path::read(alloc, cursor)?)),
        9 => {
            let (from, to) = <(Path, Path)>::read(alloc, cursor)?;
            Ok(Edit::Snapshot(from, to))
        }
        _ => read_edit_of_chunks(alloc, cursor, tag),
    }
}

fn tag_of(edit: &Edit) -> u8
    ensures { result ≡ edit_tag (plain_edit edit.now) }
{
    match edit {
        Edit::Mkdirs(_) => 1,
        Edit::Create(_) => 2,
        Edit::Rename(_, _) => 3,
        Edit::Hide(_, _, _) => 4,
        Edit::Unhide(_) => 5,
        Edit::Remove(_) => 6,
        Edit::AddChunk(_, _) => 7,
        Edit::Cow(_, _, _, _) => 8,
        Edit::Snapshot(_, _) => 9,
        Edit::Forget(_) => 10,
    }
}

/// Writes the fields of an edit at the end.
fn put_fields(edit: &Edit, alloc: Global, out: &mut Vec<u8>) -> Result<(), Fault>
    ensures { Puts (IsEdit (plain_edit edit.now)) (edit_fields (plain_edit edit.now)) out.old.items out.new.items result }
{
    match edit {
        Edit::Mkdirs(path) | Edit::Create(path) | Edit::Unhide(path) | Edit::Remove(path) => {
            path.put(alloc, out)
        }
        Edit::Rename(from, to) | Edit::Snapshot(from, to) => {
            from.put(alloc, out)?;
            to.put(alloc, out)
        }
        Edit::Hide(path, moment, number) => {
            path.put(alloc, out)?;
            moment.put(alloc, out)?;
            number.put(alloc, out)
        }
        Edit::AddChunk(path, chunk) => {
            path.put(alloc, out)?;
            chunk.put(alloc, out)
        }
        Edit::Cow(path, index, old, new) => {
            let Ok(index) = u32::try_from(*index) else {
                return Err(Fault::Form);
            };
            path.put(alloc, out)?;
            index.put(alloc, out)?;
            old.put(alloc, out)?;
            new.put(alloc, out)
        }
        Edit::Forget(chunks) => put_handles(chunks, alloc, out),
    }
}

impl Field for Edit {
    ghost use Rattle.gs_master_record.specs.Plain.{PlainEdit, plain_edit};
    ghost use Rattle.gs_master_record.specs.Encoding.{edit};
    ghost use Rattle.gs_master_record.specs.Writable.{IsEdit};
    ghost use Rattle.gs_master_record.specs.inner.Reading.{edit_at};

    ghost Plain = { PlainEdit };

    ghost plain = { plain_edit };

    ghost Is = { IsEdit };

    ghost written = { edit };

    ghost reading = { edit_at };

    #[tactic(auto, unfolding(crate::specs::inner::Reading::edit_at))]
    fn read(alloc: Global, cursor: &mut Cursor<'_>) -> Result<Edit, Fault> {
        let tag = u8::read(alloc, cursor)?;
        read_fields(alloc, cursor, tag)
    }

    fn put(&self, alloc: Global, out: &mut Vec<u8>) -> Result<(), Fault> {
        out.push(tag_of(self))?;
        put_fields(self, alloc, out)
    }
}
