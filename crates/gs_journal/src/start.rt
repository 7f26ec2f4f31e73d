// How two disks are opened.
ghost use Rattle.std.specs.Prelude.{◌≡◌, ◌≢◌, ◌+◌, ◌++◌, ◌∷◌, ◌<◌, [], true, false, IfOk, IfErr, OnOk, List, ℕ};
ghost use Rattle.gs_base.specs.declared.refusal.Refusal.TheVariants.{Device, Memory};
ghost use Rattle.gs_journal_disk.specs.Disk.{Only, LeavesPairs};
ghost use Rattle.gs_journal.specs.Records.{generation_standing, header, is_begun, second_counts, standing};
ghost use Rattle.gs_journal.specs.Forms.{is_text};
ghost use Rattle.gs_journal.specs.Journal.{WhyClosed, MightHaveStood};
ghost use Rattle.gs_journal.specs.inner.Places.{FindsPlace, IsFresh, IsReady, ReadRefuses, IsLikeFirst, IsLikeSecond};
ghost use Rattle.gs_journal_disk.specs.Stage.{LeavesOnly};
ghost use Rattle.gs_journal.specs.declared.version.Version.TheVariants.{Two};

use crate::ends::{make, repair};
use crate::frame::HEADER;
use crate::place::Place;
use crate::version::Version;
use byteorder::{BigEndian, ByteOrder};
use gs_base::Refusal;
use gs_journal_disk::Disk;
use gs_journal_disk::stage::settle_both;
use std::alloc::Global;

/// What is written behind the header gate of a new disk: the mark, the generation, a gate, and the bytes behind it.
pub(crate) fn begin(
    alloc: Global,
    generation: u64,
    gate: u8,
    behind: &[u8],
) -> Result<Vec<u8>, Refusal>
    ensures text { IfOk result (λ text. 1 ∷ text.items ≡ header Two generation ++ gate ∷ behind.now) }
    ensures refused { IfErr result (λ e. e ≡ Memory) }
{
    let mut head = [b'G', b'S', b'J', b'2', 0, 0, 0, 0, 0, 0, 0, 0];
    BigEndian::write_u64(&mut head[4..], generation);
    let mut text = Vec::new(alloc);
    text.extend_from_slice(&head)?;
    text.push(gate)?;
    text.extend_from_slice(behind)?;
    Ok(text)
}

/// All the bytes of a disk.
pub(crate) fn read_all<D: Disk>(alloc: Global, disk: &mut D) -> Result<Vec<u8>, Refusal>
    requires durable { Only (D.seen disk.old) (D.may_leave disk.old) }
    ensures bytes { IfOk result (λ bytes. bytes.items ≡ D.seen disk.old) }
    ensures seen { D.seen disk.new ≡ D.seen disk.old }
    ensures durable { Only (D.seen disk.new) (D.may_leave disk.new) }
    ensures any_moment { LeavesOnly D.moment D.left_since disk.old disk.new (D.may_leave disk.old) }
    ensures cause { ReadRefuses (D.failures disk.old) (D.failures disk.new) result }
{
    let size = disk.length()?;
    let mut bytes = vec![in alloc; 0u8; size]?;
    disk.read(0, &mut bytes)?;
    Ok(bytes)
}

/// Puts both disks to rest as they are, and finds the one that counts.
pub(crate) fn survey<D: Disk>(
    alloc: Global,
    first: &mut D,
    second: &mut D,
) -> Result<Option<Place>, Refusal>
    ensures seen_first { D.seen first.new ≡ D.seen first.old }
    ensures seen_second { D.seen second.new ≡ D.seen second.old }
    ensures durable_first { OnOk result (Only (D.seen first.new) (D.may_leave first.new)) }
    ensures durable_second { OnOk result (Only (D.seen second.new) (D.may_leave second.new)) }
    ensures place { IfOk result (λ o. FindsPlace o (D.seen first.old) (D.seen second.old)) }
    ensures form { OnOk result (is_text (standing (D.seen first.old) (D.seen second.old)) ≡ true) }
    ensures left_first { LeavesOnly D.moment D.left_since first.old first.new (D.may_leave first.old) }
    ensures left_second { LeavesOnly D.moment D.left_since second.old second.new (D.may_leave second.old) }
    ensures failures { OnOk result (D.failures first.new + D.failures second.new ≡ D.failures first.old + D.failures second.old) }
    ensures refused { IfErr result (WhyClosed (standing (D.seen first.old) (D.seen second.old))
        (D.failures first.old + D.failures second.old) (D.failures first.new + D.failures second.new)) }
{
    settle_both(first, second)?;
    let first_bytes = read_all(alloc, first)?;
    let second_bytes = read_all(alloc, second)?;
    let place = Place::of(&first_bytes, &second_bytes)?;
    Ok(place)
}

/// Makes the first disk of a new journal.
pub(crate) fn make_first<D: Disk>(alloc: Global, disk: &mut D) -> Result<Place, Refusal>
    requires unbegun { is_begun (D.seen disk.old) ≡ false }
    requires durable { Only (D.seen disk.old) (D.may_leave disk.old) }
    ensures seen { OnOk result (D.seen disk.new ≡ header Two 1 ++ 0 ∷ []) }
    ensures place { IfOk result (λ p. IsFresh p) }
    ensures durable { OnOk result (Only (D.seen disk.new) (D.may_leave disk.new)) }
    ensures any_moment { (second : List ℕ) → second_counts (D.seen disk.old) second ≡ false
        → LeavesOnly D.moment D.left_since disk.old disk.new (IsLikeFirst (D.seen disk.old) second) }
    ensures unchanged { IfErr result (λ e. e ≢ Device → D.seen disk.new ≡ D.seen disk.old) }
    ensures cause { ReadRefuses (D.failures disk.old) (D.failures disk.new) result }
{
    let text = begin(alloc, 1, 0, &[])?;
    make(disk, &text)?;
    Ok(Place {
        is_second: false,
        version: Version::Two,
        generation: 1,
        end: HEADER,
        has_gate: true,
    })
}

/// Puts the end of the disk that counts right, or makes the first disk where none counts.
pub(crate) fn put_right<D: Disk>(
    alloc: Global,
    first: &mut D,
    second: &mut D,
    place: Option<Place>,
) -> Result<Place, Refusal>
    requires place { FindsPlace place (D.seen first.old) (D.seen second.old) }
    requires durable_first { Only (D.seen first.old) (D.may_leave first.old) }
    requires durable_second { Only (D.seen second.old) (D.may_leave second.old) }
    ensures ready { IfOk result (λ p. IsReady p (D.seen first.new) (D.seen second.new)) }
    ensures generation { IfOk result (λ p. p.generation ≡ generation_standing (D.seen first.old) (D.seen second.old)) }
    ensures same { standing (D.seen first.new) (D.seen second.new) ≡ standing (D.seen first.old) (D.seen second.old) }
    ensures kept { generation_standing (D.seen first.new) (D.seen second.new) ≡ generation_standing (D.seen first.old) (D.seen second.old) }
    ensures durable_first { OnOk result (Only (D.seen first.new) (D.may_leave first.new)) }
    ensures durable_second { OnOk result (Only (D.seen second.new) (D.may_leave second.new)) }
    ensures left_first { LeavesOnly D.moment D.left_since first.old first.new (IsLikeFirst (D.seen first.old) (D.seen second.old)) }
    ensures left_second { LeavesOnly D.moment D.left_since second.old second.new (IsLikeSecond (D.seen second.old)) }
    ensures unchanged { IfErr result (λ e. e ≢ Device → (D.seen first.new ≡ D.seen first.old) × (D.seen second.new ≡ D.seen second.old)) }
    ensures cause { ReadRefuses (D.failures first.old + D.failures second.old) (D.failures first.new + D.failures second.new) result }
{
    let Some(place) = place else {
        let place = make_first(alloc, first)?;
        return Ok(place);
    };
    if place.is_second {
        repair(second, place.end, place.has_gate)?;
        return Ok(place);
    }
    repair(first, place.end, place.has_gate)?;
    Ok(place)
}

/// Opens two disks: finds the one that counts, and puts its end right, or makes the first where none counts.
pub(crate) fn start<D: Disk>(alloc: Global, first: &mut D, second: &mut D) -> Result<Place, Refusal>
    ensures ready { IfOk result (λ p. IsReady p (D.seen first.new) (D.seen second.new)) }
    ensures generation { IfOk result (λ p. p.generation ≡ generation_standing (D.seen first.old) (D.seen second.old)) }
    ensures same { standing (D.seen first.new) (D.seen second.new) ≡ standing (D.seen first.old) (D.seen second.old) }
    ensures kept { generation_standing (D.seen first.new) (D.seen second.new) ≡ generation_standing (D.seen first.old) (D.seen second.old) }
    ensures form { OnOk result (is_text (standing (D.seen first.old) (D.seen second.old)) ≡ true) }
    ensures durable_first { OnOk result (Only (D.seen first.new) (D.may_leave first.new)) }
    ensures durable_second { OnOk result (Only (D.seen second.new) (D.may_leave second.new)) }
    ensures any_moment { LeavesPairs D.moment D.left_since first.old second.old first.new second.new
        (λ a b. MightHaveStood (D.may_leave first.old) (D.may_leave second.old) (standing a b)) }
    ensures failures { OnOk result (D.failures first.new + D.failures second.new ≡ D.failures first.old + D.failures second.old) }
    ensures refused { IfErr result (WhyClosed (standing (D.seen first.old) (D.seen second.old))
        (D.failures first.old + D.failures second.old) (D.failures first.new + D.failures second.new)) }
    ensures unchanged { IfErr result (λ e. e ≢ Device → (D.seen first.new ≡ D.seen first.old) × (D.seen second.new ≡ D.seen second.old)) }
{
    let place = survey(alloc, first, second)?;
    let place = put_right(alloc, first, second, place)?;
    Ok(place)
}
