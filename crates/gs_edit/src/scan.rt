//! What a scan takes out of a tree.
ghost use Rattle.std.specs.Prelude.{◌≡◌, ◌+◌, nat_lt, IfOk, map, filter, refl};
ghost use Rattle.std.specs.FinMap as fin_map;
ghost use Rattle.std.specs.List.{flat_map};
ghost use Rattle.std.specs.List.Sorted.{IsPermutation, IsSorted};
ghost use Rattle.std.specs.Ordering.{eq_by_cmp, as_partial_cmp};
ghost use Rattle.std.specs.Cmp.{partial_order_from_total, eq_by_cmp_equiv, partial_equiv_from_equiv};
ghost use Rattle.gs_tree.specs.Build.{path_of_entry};
ghost use Rattle.gs_tree.specs.Find.{at};
ghost use Rattle.gs_tree.specs.Chunks.{chunks_under};
ghost use Rattle.gs_refs.specs.Counts.{GivesOrMemory, lowered_each};
ghost use Rattle.gs_edit.specs.Scan.{kept_for, is_over, goes, removal_cmp, removal_total, AreRemoved, Scans};

use gs_base::{Handle, Moment, Refusal};
use gs_path::{Name, Path};
use gs_refs::Refs;
use gs_tree::{Tree, TreeEntry};
use std::alloc::{AllocError, Global};
use std::cmp::Ordering;
use std::marker::Model;

/// What a scan takes out.
#[derive(Drop)]
pub struct Scan {
    /// The hidden paths that it removes, in the order of removals: those with fewer elements first, then by the bytes of
    /// their texts. None lies under another.
    pub removed: Vec<Path>,
    /// The chunks that are left without references then, ascending.
    pub forgotten: Vec<Handle>,
}

/// How long what was deleted is kept, in seconds.
const KEPT_FOR: u64 = 259_200;

/// A path, and what it is ordered by among removals.
#[derive(Drop)]
struct Removal {
    elements: usize,
    text: String,
    path: Path,
}

impl Model for Removal {
    ghost use Rattle.std.specs.Prelude.{List, ℕ, ◌≡◌, length, string_bytes};
    ghost use Rattle.gs_path.specs.Path.{path_text};

    ghost Value = { List (List ℕ) };

    ghost view = { λ r. r.path };

    ghost invariant = { λ r. (r.elements ≡ length r.path) × (string_bytes r.text ≡ path_text r.path) };
}

impl Removal {
    fn of(alloc: Global, path: &Path) -> Result<Removal, AllocError>
        ensures { IfOk result (λ removal. removal ≡ path.now) }
    {
        Ok(Removal {
            elements: path.elements().len(),
            text: path.text(alloc)?,
            path: path.copy(alloc)?,
        })
    }

    fn into_path(self) -> Path
        ensures { result ≡ self }
    {
        self.path
    }
}

impl PartialEq for Removal {
    ghost eq = { eq_by_cmp removal_cmp };

    ghost laws = { partial_equiv_from_equiv (eq_by_cmp_equiv removal_total) };

    fn eq(&self, other: &Removal) -> bool {
        self.cmp(other) == Ordering::Equal
    }
}

impl Eq for Removal {
    ghost laws = { eq_by_cmp_equiv removal_total };
}

impl PartialOrd for Removal {
    ghost partial_cmp = { as_partial_cmp removal_cmp };

    ghost laws = { partial_order_from_total removal_total };

    fn partial_cmp(&self, other: &Removal) -> Option<Ordering> {
        Some(self.cmp(other))
    }
}

impl Ord for Removal {
    ghost cmp = { removal_cmp };

    ghost total = { removal_total };

    ghost matches_partial_cmp = { λ x y. refl };

    ghost matches_eq = { λ x y. refl };

    fn cmp(&self, other: &Removal) -> Ordering {
        let by_length = self.elements.cmp(&other.elements);
        let by_text = self.text.cmp(&other.text);
        let by_elements = self.path.cmp(&other.path);
        by_length.then(by_text).then(by_elements)
    }
}

/// Whether what was deleted at a moment isn't kept any more at another.
fn is_past(deleted: Moment, moment: Moment) -> bool
    ensures { result ≡ nat_lt (deleted.0 + kept_for) moment.0 }
{
    deleted.0.saturating_add(KEPT_FOR) < moment.0
}

/// Whether a name is that of something deleted longer before a moment than it is kept.
fn is_over(alloc: Global, name: &Name, moment: Moment) -> Result<bool, AllocError>
    ensures { IfOk result (λ over. over ≡ is_over moment.0 name.now) }
{
    match name.hidden_parts(alloc)? {
        Some(parts) => Ok(is_past(parts.moment, moment)),
        None => Ok(false),
    }
}

/// Whether the last element is over, and none above it.
fn goes(alloc: Global, elements: &[Name], moment: Moment) -> Result<bool, AllocError>
    ensures { IfOk result (λ over. over ≡ goes moment.0 elements.now) }
{
    let Some((last, above)) = elements.split_last() else {
        return Ok(false);
    };
    for name in above {
        if is_over(alloc, name, moment)? {
            return Ok(false);
        }
    }
    is_over(alloc, last, moment)
}

/// What goes by itself, as it stands in the list.
fn removals(
    alloc: Global,
    entries: &[TreeEntry],
    moment: Moment,
) -> Result<Vec<Removal>, AllocError>
    ensures { IfOk result (λ found. found.items ≡ filter (goes moment.0) (map path_of_entry entries.now)) }
{
    let mut found = Vec::new(alloc);
    for entry in entries {
        if goes(alloc, entry.path().elements(), moment)? {
            found.push(Removal::of(alloc, entry.path())?)?;
        }
    }
    Ok(found)
}

/// The paths in the order of removals.
fn in_order(alloc: Global, mut found: Vec<Removal>) -> Result<Vec<Path>, AllocError>
    ensures { IfOk result (λ paths. IsPermutation found.items paths.items × IsSorted removal_cmp paths.items) }
{
    found.sort()?;
    let mut paths = Vec::new(alloc);
    for removal in found {
        paths.push(removal.into_path())?;
    }
    Ok(paths)
}

/// The paths of a tree that a scan at a moment removes, in their order.
fn scan_paths(alloc: Global, tree: &Tree, moment: Moment) -> Result<Vec<Path>, AllocError>
    ensures { IfOk result (λ paths. AreRemoved moment.0 (at (fin_map.entries tree.now)) paths.items) }
{
    let entries = tree.entries(alloc)?;
    let found = removals(alloc, &entries, moment)?;
    in_order(alloc, found)
}

/// The counts once all under these paths is removed.
fn counts_without(alloc: Global, tree: &Tree, refs: &Refs, paths: &[Path]) -> Result<Refs, Refusal>
    ensures { GivesOrMemory (lowered_each refs.now (flat_map (λ p. chunks_under p (fin_map.entries tree.now)) paths.now)) result }
{
    let mut rest = refs.copy(alloc)?;
    for path in paths {
        let chunks = tree.chunks_under(alloc, path)?;
        rest.lower_each(&chunks)?;
    }
    Ok(rest)
}

/// What a scan at a moment takes out.
pub(crate) fn what_goes(
    alloc: Global,
    tree: &Tree,
    refs: &Refs,
    moment: Moment,
) -> Result<Scan, Refusal>
    ensures { Scans moment.0 (fin_map.entries tree.now) refs.now result }
{
    let removed = scan_paths(alloc, tree, moment)?;
    let rest = counts_without(alloc, tree, refs, &removed)?;
    let forgotten = rest.orphans(alloc)?;
    Ok(Scan { removed, forgotten })
}
