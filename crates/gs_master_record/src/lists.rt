// Lists: how many items there are, and the items.
ghost use Rattle.std.specs.Prelude.{◌≡◌, map, ⊤, IfOk};
ghost use Rattle.gs_journal.specs.declared.version.Version.TheVariants.{Two};
ghost use Rattle.gs_master_record.specs.Encoding.{list, number, answered, path, epoch_end, reference, settled_entry, prepared_view};
ghost use Rattle.gs_master_record.specs.Writable.{AreItems, IsHandle, IsAnswered, IsPath, IsReference, IsSettledEntry, IsPreparedView};
ghost use Rattle.gs_master_record.specs.inner.Reading.{times, list_at, handle_at, answered_at, path_at, end_at, reference_at, settled_entry_at, prepared_list_at};
ghost use Rattle.gs_master_record.specs.inner.Work.{DecodesAs, Puts};

use crate::checkpoint::{PreparedView, Reference, SettledEntry};
use crate::entry::{Answered, SettledView};
use crate::fault::Fault;
use crate::field::{Cursor, Field};
use gs_base::{EpochEnd, Handle, Members};
use gs_journal::Version;
use gs_path::Path;
use std::alloc::{AllocError, Global};

/// Takes as many items from the front. Room is asked for item by item, so a count alone takes none.
fn read_items<T: Field + Drop>(
    alloc: Global,
    cursor: &mut Cursor<'_>,
    count: u32,
) -> Result<Vec<T>, Fault>
    ensures { DecodesAs (λ v. map T.plain v.items) result cursor.new.rest.now (times T.reading count cursor.old.rest.now) }
{
    let mut items = Vec::new(alloc);
    for _ in 0..count {
        let item = T::read(alloc, cursor)?;
        items.push(item)?;
    }
    Ok(items)
}

/// Takes the list at the front.
#[tactic(auto, unfolding(crate::specs::inner::Reading::list_at))]
pub(crate) fn read_list<T: Field + Drop>(
    alloc: Global,
    cursor: &mut Cursor<'_>,
) -> Result<Vec<T>, Fault>
    ensures { DecodesAs (λ v. map T.plain v.items) result cursor.new.rest.now (list_at T.reading cursor.old.rest.now) }
{
    let count = u32::read(alloc, cursor)?;
    read_items(alloc, cursor, count)
}

/// Writes a list at the end.
pub(crate) fn put_list<T: Field>(items: &[T], alloc: Global, out: &mut Vec<u8>) -> Result<(), Fault>
    ensures { Puts (AreItems T.Is (map T.plain items.now)) (list T.written (map T.plain items.now)) out.old.items out.new.items result }
{
    let Ok(count) = u32::try_from(items.len()) else {
        return Err(Fault::Form);
    };
    count.put(alloc, out)?;
    for item in items {
        item.put(alloc, out)?;
    }
    Ok(())
}

/// Takes a list of chunks from the front.
#[tactic(auto, using(crate::proofs::Loops::as_it_is))]
pub(crate) fn read_handles(alloc: Global, cursor: &mut Cursor<'_>) -> Result<Vec<Handle>, Fault>
    ensures { DecodesAs (λ v. v.items) result cursor.new.rest.now (list_at handle_at cursor.old.rest.now) }
{
    read_list(alloc, cursor)
}

/// Writes a list of chunks at the end.
#[tactic(auto, using(crate::proofs::Loops::as_it_is))]
pub(crate) fn put_handles(chunks: &[Handle], alloc: Global, out: &mut Vec<u8>) -> Result<(), Fault>
    ensures { Puts (AreItems IsHandle chunks.now) (list number chunks.now) out.old.items out.new.items result }
{
    put_list(chunks, alloc, out)
}

/// Takes a list of answers from the front.
#[tactic(auto, using(crate::proofs::Loops::as_it_is))]
pub(crate) fn read_answered(alloc: Global, cursor: &mut Cursor<'_>) -> Result<Vec<Answered>, Fault>
    ensures { DecodesAs (λ v. v.items) result cursor.new.rest.now (list_at answered_at cursor.old.rest.now) }
{
    read_list(alloc, cursor)
}

/// Writes a list of answers at the end.
#[tactic(auto, using(crate::proofs::Loops::as_it_is))]
pub(crate) fn put_answered(
    answers: &[Answered],
    alloc: Global,
    out: &mut Vec<u8>,
) -> Result<(), Fault>
    ensures { Puts (AreItems IsAnswered answers.now) (list answered answers.now) out.old.items out.new.items result }
{
    put_list(answers, alloc, out)
}

/// Takes a list of paths from the front.
#[tactic(auto, using(crate::proofs::Loops::as_it_is))]
pub(crate) fn read_paths(alloc: Global, cursor: &mut Cursor<'_>) -> Result<Vec<Path>, Fault>
    ensures { DecodesAs (λ v. v.items) result cursor.new.rest.now (list_at path_at cursor.old.rest.now) }
{
    read_list(alloc, cursor)
}

/// Writes a list of paths at the end.
#[tactic(auto, using(crate::proofs::Loops::as_it_is))]
pub(crate) fn put_paths(paths: &[Path], alloc: Global, out: &mut Vec<u8>) -> Result<(), Fault>
    ensures { Puts (AreItems (IsPath) paths.now) (list (path) paths.now) out.old.items out.new.items result }
{
    put_list(paths, alloc, out)
}

/// Takes a list of ends of epochs from the front.
#[tactic(auto, using(crate::proofs::Loops::as_it_is))]
pub(crate) fn read_ends(alloc: Global, cursor: &mut Cursor<'_>) -> Result<Vec<EpochEnd>, Fault>
    ensures { DecodesAs (λ v. v.items) result cursor.new.rest.now (list_at end_at cursor.old.rest.now) }
{
    read_list(alloc, cursor)
}

/// Writes a list of ends of epochs at the end.
#[tactic(auto, using(crate::proofs::Loops::as_it_is))]
pub(crate) fn put_ends(ends: &[EpochEnd], alloc: Global, out: &mut Vec<u8>) -> Result<(), Fault>
    ensures { Puts (AreItems (λ e. ⊤) ends.now) (list (epoch_end) ends.now) out.old.items out.new.items result }
{
    put_list(ends, alloc, out)
}

/// Takes a list of references from the front.
#[tactic(auto, using(crate::proofs::Loops::as_it_is))]
pub(crate) fn read_references(
    alloc: Global,
    cursor: &mut Cursor<'_>,
) -> Result<Vec<Reference>, Fault>
    ensures { DecodesAs (λ v. v.items) result cursor.new.rest.now (list_at reference_at cursor.old.rest.now) }
{
    read_list(alloc, cursor)
}

/// Writes a list of references at the end.
#[tactic(auto, using(crate::proofs::Loops::as_it_is))]
pub(crate) fn put_references(
    references: &[Reference],
    alloc: Global,
    out: &mut Vec<u8>,
) -> Result<(), Fault>
    ensures { Puts (AreItems (IsReference) references.now) (list (reference) references.now) out.old.items out.new.items result }
{
    put_list(references, alloc, out)
}

/// Takes a list of settled views from the front.
#[tactic(auto, using(crate::proofs::Loops::as_it_is))]
pub(crate) fn read_entries(
    alloc: Global,
    cursor: &mut Cursor<'_>,
) -> Result<Vec<SettledEntry>, Fault>
    ensures { DecodesAs (λ v. v.items) result cursor.new.rest.now (list_at settled_entry_at cursor.old.rest.now) }
{
    read_list(alloc, cursor)
}

/// Writes a list of settled views at the end.
#[tactic(auto, using(crate::proofs::Loops::as_it_is))]
pub(crate) fn put_entries(
    entries: &[SettledEntry],
    alloc: Global,
    out: &mut Vec<u8>,
) -> Result<(), Fault>
    ensures { Puts (AreItems (IsSettledEntry) entries.now) (list (settled_entry) entries.now) out.old.items out.new.items result }
{
    put_list(entries, alloc, out)
}

/// Writes a list of prepared views at the end, with their holders.
#[tactic(auto, using(crate::proofs::Loops::as_it_is))]
pub(crate) fn put_prepared(
    views: &[PreparedView],
    alloc: Global,
    out: &mut Vec<u8>,
) -> Result<(), Fault>
    ensures { Puts (AreItems (IsPreparedView Two) views.now) (list (prepared_view Two) views.now) out.old.items out.new.items result }
{
    put_list(views, alloc, out)
}

/// Takes a list of prepared views from the front. In a journal of version 1 they have no holders.
#[tactic(auto, using(crate::proofs::Loops::as_it_is), unfolding(crate::specs::inner::Reading::prepared_list_at))]
pub(crate) fn read_prepared(
    alloc: Global,
    cursor: &mut Cursor<'_>,
    version: Version,
) -> Result<Vec<PreparedView>, Fault>
    ensures { DecodesAs (λ v. v.items) result cursor.new.rest.now (prepared_list_at version cursor.old.rest.now) }
{
    match version {
        Version::One => {
            let views = read_list::<Unheld>(alloc, cursor)?;
            Ok(held_by_none(alloc, &views)?)
        }
        Version::Two => read_list(alloc, cursor),
    }
}

/// A prepared view as a journal of version 1 tells it.
#[derive(Clone, Copy, Drop)]
struct Unheld {
    view: PreparedView,
}

impl Field for Unheld {
    ghost use Rattle.gs_journal.specs.declared.version.Version.TheVariants.{One};
    ghost use Rattle.gs_master_record.specs.declared.checkpoint.PreparedView.{PreparedView as AnyPrepared};
    ghost use Rattle.gs_master_record.specs.Encoding.{settled};
    ghost use Rattle.gs_master_record.specs.Writable.{IsSettled};
    ghost use Rattle.gs_master_record.specs.inner.Reading.{unheld_at};

    ghost Plain = { AnyPrepared };

    ghost plain = { λ u. u.view };

    ghost Is = { λ v. IsSettled v.settled };

    ghost written = { λ v. settled v.settled };

    ghost reading = { unheld_at };

    #[tactic(auto, unfolding(crate::specs::inner::Reading::unheld_at))]
    fn read(alloc: Global, cursor: &mut Cursor<'_>) -> Result<Unheld, Fault> {
        let settled = SettledView::read(alloc, cursor)?;
        let holders = Members::none();
        let view = PreparedView { settled, holders };
        Ok(Unheld { view })
    }

    fn put(&self, alloc: Global, out: &mut Vec<u8>) -> Result<(), Fault> {
        self.view.settled.put(alloc, out)
    }
}

/// The views themselves.
fn held_by_none(alloc: Global, views: &[Unheld]) -> Result<Vec<PreparedView>, AllocError>
    ensures { IfOk result (λ v. v.items ≡ map (λ u. u.view) views.now) }
{
    let mut all = Vec::new(alloc);
    for unheld in views {
        all.push(unheld.view)?;
    }
    Ok(all)
}
