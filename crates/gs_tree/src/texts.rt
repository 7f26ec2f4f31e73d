//! Entries in the order of their paths' texts.
ghost use Rattle.std.specs.Prelude.{◌≡◌, IfOk, refl};
ghost use Rattle.std.specs.Cmp.{partial_order_from_total, eq_by_cmp_equiv, partial_equiv_from_equiv};
ghost use Rattle.std.specs.Ordering.{eq_by_cmp, as_partial_cmp};
ghost use Rattle.std.specs.List.Sorted.{IsPermutation, IsSortedByKey};
ghost use Rattle.gs_path.specs.Path.{text_cmp};
ghost use Rattle.gs_tree.specs.Build.{path_of_entry};
ghost use Rattle.gs_tree.specs.inner.Texts.{entry_cmp, entries_total};

use crate::entry::TreeEntry;
use std::alloc::{AllocError, Global};
use std::cmp::Ordering;
use std::marker::Model;

/// An entry with the text of its path. They are ordered by the bytes of the texts.
#[derive(Drop)]
struct Texted {
    text: String,
    entry: TreeEntry,
}

impl Model for Texted {
    ghost use Rattle.gs_tree.specs.declared.entry.TreeEntry.{TreeEntry};
    ghost use Rattle.gs_tree.specs.contracts.entry.TreeEntry as entry_code;

    ghost Value = { TreeEntry };

    ghost coded = { entry_code.the_row.coded };

    ghost view = { λ a. a.entry };

    ghost use Rattle.std.specs.Prelude.{◌≡◌, string_bytes};
    ghost use Rattle.gs_path.specs.Path.{path_text};
    ghost use Rattle.gs_tree.specs.Build.{path_of_entry};

    ghost invariant = { λ a. string_bytes a.text ≡ path_text (path_of_entry a.entry) };
}

impl PartialEq for Texted {
    ghost eq = { eq_by_cmp entry_cmp };

    ghost laws = { partial_equiv_from_equiv (eq_by_cmp_equiv entries_total) };

    fn eq(&self, other: &Texted) -> bool {
        self.cmp(other) == Ordering::Equal
    }
}

impl Eq for Texted {
    ghost laws = { eq_by_cmp_equiv entries_total };
}

impl PartialOrd for Texted {
    ghost partial_cmp = { as_partial_cmp entry_cmp };

    ghost laws = { partial_order_from_total entries_total };

    fn partial_cmp(&self, other: &Texted) -> Option<Ordering> {
        Some(self.cmp(other))
    }
}

impl Ord for Texted {
    ghost cmp = { entry_cmp };

    ghost total = { entries_total };

    ghost matches_partial_cmp = { λ x y. refl };

    ghost matches_eq = { λ x y. refl };

    fn cmp(&self, other: &Texted) -> Ordering {
        self.text.cmp(&other.text)
    }
}

impl Texted {
    fn new(alloc: Global, entry: TreeEntry) -> Result<Texted, AllocError>
        ensures { IfOk result (λ made. made ≡ entry) }
    {
        let text = entry.path().text(alloc)?;
        Ok(Texted { text, entry })
    }

    fn into_entry(self) -> TreeEntry
        ensures { result ≡ self }
    {
        self.entry
    }
}

/// Each entry with its text.
fn with_texts(alloc: Global, entries: Vec<TreeEntry>) -> Result<Vec<Texted>, AllocError>
    ensures { IfOk result (λ all. all.items ≡ entries.items) }
{
    let mut all = Vec::new(alloc);
    for entry in entries {
        all.push(Texted::new(alloc, entry)?)?;
    }
    Ok(all)
}

/// The entries without their texts.
fn without_texts(alloc: Global, all: Vec<Texted>) -> Result<Vec<TreeEntry>, AllocError>
    ensures { IfOk result (λ entries. entries.items ≡ all.items) }
{
    let mut entries = Vec::new(alloc);
    for item in all {
        entries.push(item.into_entry())?;
    }
    Ok(entries)
}

/// The same entries, by the bytes of their paths' texts.
pub(crate) fn by_text(alloc: Global, entries: Vec<TreeEntry>) -> Result<Vec<TreeEntry>, AllocError>
    ensures same { IfOk result (λ sorted. IsPermutation entries.items sorted.items) }
    ensures order { IfOk result (λ sorted. IsSortedByKey path_of_entry text_cmp sorted.items) }
{
    let mut all = with_texts(alloc, entries)?;
    all.sort_unstable();
    without_texts(alloc, all)
}
