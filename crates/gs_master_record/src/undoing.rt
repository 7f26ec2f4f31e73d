// Entries of a checkpoint's tree, and what takes edits back.
ghost use Rattle.std.specs.Prelude.{◌≡◌};
ghost use Rattle.gs_master_record.specs.Encoding.{tree_entry, inverse_tag, inverse_fields, path};
ghost use Rattle.gs_master_record.specs.Plain.{plain_inverse, plain_node};
ghost use Rattle.gs_master_record.specs.Writable.{IsInverse, IsTreeEntry};
ghost use Rattle.gs_master_record.specs.inner.Reading.{inverse_of_chunks_at, inverse_fields_at};
ghost use Rattle.gs_master_record.specs.inner.Work.{DecodesAs, Puts};

use crate::fault::Fault;
use crate::field::{Cursor, Field};
use crate::lists::{put_handles, put_list, put_paths, read_handles, read_list, read_paths};
use gs_base::Handle;
use gs_edit::ListedInverse;
use gs_path::Path;
use gs_tree::TreeEntry;
use std::alloc::Global;

impl Field for TreeEntry {
    ghost use Rattle.gs_master_record.specs.Plain.{PlainNode, plain_node};
    ghost use Rattle.gs_master_record.specs.Encoding.{tree_entry};
    ghost use Rattle.gs_master_record.specs.Writable.{IsTreeEntry};
    ghost use Rattle.gs_master_record.specs.inner.Reading.{tree_entry_at};

    ghost Plain = { PlainNode };

    ghost plain = { plain_node };

    ghost Is = { IsTreeEntry };

    ghost written = { tree_entry };

    ghost reading = { tree_entry_at };

    #[tactic(auto, unfolding(crate::specs::inner::Reading::tree_entry_at, crate::specs::inner::Reading::node_at))]
    fn read(alloc: Global, cursor: &mut Cursor<'_>) -> Result<TreeEntry, Fault> {
        let path = Path::read(alloc, cursor)?;
        match u8::read(alloc, cursor)? {
            0 => Ok(TreeEntry::Dir(path)),
            1 => {
                let chunks = read_handles(alloc, cursor)?;
                Ok(TreeEntry::File(path, chunks))
            }
            _ => Err(Fault::Form),
        }
    }

    fn put(&self, alloc: Global, out: &mut Vec<u8>) -> Result<(), Fault> {
        match self {
            TreeEntry::Dir(path) => {
                path.put(alloc, out)?;
                out.push(0)?;
                Ok(())
            }
            TreeEntry::File(path, chunks) => {
                path.put(alloc, out)?;
                out.push(1)?;
                put_handles(chunks, alloc, out)
            }
        }
    }
}

/// Takes the fields of an inverse of an edit of chunks.
#[tactic(auto, unfolding(crate::specs::inner::Reading::inverse_of_chunks_at))]
fn read_inverse_of_chunks(
    alloc: Global,
    cursor: &mut Cursor<'_>,
    tag: u8,
) -> Result<ListedInverse, Fault>
    ensures { DecodesAs plain_inverse result cursor.new.rest.now (inverse_of_chunks_at tag cursor.old.rest.now) }
{
    match tag {
        6 => {
            let entries = read_list(alloc, cursor)?;
            Ok(ListedInverse::Remove(entries))
        }
        7 => Ok(ListedInverse::AddChunk(Path::read(alloc, cursor)?)),
        8 => {
            let (path, (index, old)) = <(Path, (u32, Handle))>::read(alloc, cursor)?;
            Ok(ListedInverse::Cow(path, index as usize, old))
        }
        9 => Ok(ListedInverse::Snapshot(Path::read(alloc, cursor)?)),
        10 => {
            let chunks = read_handles(alloc, cursor)?;
            Ok(ListedInverse::Forget(chunks))
        }
        _ => Err(Fault::Form),
    }
}

/// Takes the fields of an inverse.
#[tactic(auto, unfolding(crate::specs::inner::Reading::inverse_fields_at))]
fn read_fields(alloc: Global, cursor: &mut Cursor<'_>, tag: u8) -> Result<ListedInverse, Fault>
    ensures { DecodesAs plain_inverse result cursor.new.rest.now (inverse_fields_at tag cursor.old.rest.now) }
{
    match tag {
        1 => Ok(ListedInverse::Mkdirs(read_paths(alloc, cursor)?)),
        2 => Ok(ListedInverse::Create(read_paths(alloc, cursor)?)),
        3 => {
            let (now, before) = <(Path, Path)>::read(alloc, cursor)?;
            Ok(ListedInverse::Rename(now, before))
        }
        4 => {
            let (now, before) = <(Path, Path)>::read(alloc, cursor)?;
            Ok(ListedInverse::Hide(now, before))
        }
        5 => {
            let (now, before) = <(Path, Path)>::read(alloc, cursor)?;
            Ok(ListedInverse::Unhide(now, before))
        }
        _ => read_inverse_of_chunks(alloc, cursor, tag),
    }
}

fn tag_of(inverse: &ListedInverse) -> u8
    ensures { result ≡ inverse_tag (plain_inverse inverse.now) }
{
    match inverse {
        ListedInverse::Mkdirs(_) => 1,
        ListedInverse::Create(_) => 2,
        ListedInverse::Rename(_, _) => 3,
        ListedInverse::Hide(_, _) => 4,
        ListedInverse::Unhide(_, _) => 5,
        ListedInverse::Remove(_) => 6,
        ListedInverse::AddChunk(_) => 7,
        ListedInverse::Cow(_, _, _) => 8,
        ListedInverse::Snapshot(_) => 9,
        ListedInverse::Forget(_) => 10,
    }
}

/// Writes the fields of an inverse at the end.
fn put_fields(inverse: &ListedInverse, alloc: Global, out: &mut Vec<u8>) -> Result<(), Fault>
    ensures { Puts (IsInverse (plain_inverse inverse.now)) (inverse_fields (plain_inverse inverse.now)) out.old.items out.new.items result }
{
    match inverse {
        ListedInverse::Mkdirs(paths) | ListedInverse::Create(paths) => {
            put_paths(paths, alloc, out)
        }
        ListedInverse::Rename(now, before)
        | ListedInverse::Hide(now, before)
        | ListedInverse::Unhide(now, before) => {
            now.put(alloc, out)?;
            before.put(alloc, out)
        }
        ListedInverse::Remove(entries) => put_list(entries, alloc, out),
        ListedInverse::AddChunk(path) | ListedInverse::Snapshot(path) => path.put(alloc, out),
        ListedInverse::Cow(path, index, old) => {
            let Ok(index) = u32::try_from(*index) else {
                return Err(Fault::Form);
            };
            path.put(alloc, out)?;
            index.put(alloc, out)?;
            old.put(alloc, out)
        }
        ListedInverse::Forget(chunks) => put_handles(chunks, alloc, out),
    }
}

impl Field for ListedInverse {
    ghost use Rattle.gs_master_record.specs.Plain.{PlainInverse, plain_inverse};
    ghost use Rattle.gs_master_record.specs.Encoding.{inverse};
    ghost use Rattle.gs_master_record.specs.Writable.{IsInverse};
    ghost use Rattle.gs_master_record.specs.inner.Reading.{inverse_at};

    ghost Plain = { PlainInverse };

    ghost plain = { plain_inverse };

    ghost Is = { IsInverse };

    ghost written = { inverse };

    ghost reading = { inverse_at };

    #[tactic(auto, unfolding(crate::specs::inner::Reading::inverse_at))]
    fn read(alloc: Global, cursor: &mut Cursor<'_>) -> Result<ListedInverse, Fault> {
        let tag = u8::read(alloc, cursor)?;
        read_fields(alloc, cursor, tag)
    }

    fn put(&self, alloc: Global, out: &mut Vec<u8>) -> Result<(), Fault> {
        out.push(tag_of(self))?;
        put_fields(self, alloc, out)
    }
}
