//! Entries of a tree in the order of the bytes of their paths' texts, each text once, as a checkpoint and the list of a removal tell
//! them. It is a crate of its own for the checker's time alone: its wrong body is tried sooner in a small crate.
#![tactic(auto)]

ghost use Rattle.std.specs.Prelude.{◌≡◌, IfOk, OnOk, map, refl};
ghost use Rattle.std.specs.Cmp.{partial_order_from_total, eq_by_cmp_equiv, partial_equiv_from_equiv};
ghost use Rattle.std.specs.FinMap as fin;
ghost use Rattle.std.specs.Ordering.{eq_by_cmp, as_partial_cmp};
ghost use Rattle.gs_path.specs.Path.{text_cmp};
ghost use Rattle.gs_master_record.specs.Plain.{plain_node};
ghost use Rattle.gs_tree.specs.Build.{kind_of_entry, path_of_entry, rows_of_entries};
ghost use Rattle.gs_tree.specs.Entry.{chunks_of};
ghost use Rattle.gs_master_order.specs.Order.{by_text};
ghost use Rattle.gs_master_order.specs.inner.Texts.{nodes_of, plain_chunks, text_total};

use gs_base::Handle;
use gs_path::Path;
use gs_tree::TreeEntry;
use std::alloc::{AllocError, Global};
use std::cmp::Ordering;
use std::collections::BTreeMap;
use std::marker::Model;

/// A path with its text. Such paths are ordered by the bytes of the texts.
#[derive(Drop)]
struct Texted {
    text: String,
    path: Path,
}

impl Model for Texted {
    ghost use Rattle.std.specs.Prelude.{List, ℕ, ◌≡◌, string_bytes};
    ghost use Rattle.gs_path.specs.Path.{path_text};

    ghost Value = { List (List ℕ) };

    ghost view = { λ a. a.path };

    ghost invariant = { λ a. string_bytes a.text ≡ path_text a.path };
}

impl PartialEq for Texted {
    ghost eq = { eq_by_cmp text_cmp };

    ghost laws = { partial_equiv_from_equiv (eq_by_cmp_equiv text_total) };

    fn eq(&self, other: &Texted) -> bool {
        self.cmp(other) == Ordering::Equal
    }
}

impl Eq for Texted {
    ghost laws = { eq_by_cmp_equiv text_total };
}

impl PartialOrd for Texted {
    ghost partial_cmp = { as_partial_cmp text_cmp };

    ghost laws = { partial_order_from_total text_total };

    fn partial_cmp(&self, other: &Texted) -> Option<Ordering> {
        Some(self.cmp(other))
    }
}

impl Ord for Texted {
    ghost cmp = { text_cmp };

    ghost total = { text_total };

    ghost matches_partial_cmp = { λ x y. refl };

    ghost matches_eq = { λ x y. refl };

    fn cmp(&self, other: &Texted) -> Ordering {
        self.text.cmp(&other.text)
    }
}

impl Texted {
    fn of(alloc: Global, path: Path) -> Result<Texted, AllocError>
        ensures { IfOk result (λ made. made ≡ path) }
    {
        let text = path.text(alloc)?;
        Ok(Texted { text, path })
    }

    /// The entry of the path: a file with these chunks, or a directory.
    fn entry(self, chunks: Option<Vec<Handle>>) -> TreeEntry
        ensures { plain_node result ≡ (self, plain_chunks chunks) }
    {
        match chunks {
            Some(chunks) => TreeEntry::File(self.path, chunks),
            None => TreeEntry::Dir(self.path),
        }
    }
}

/// The path of an entry, and the chunks of a file.
fn parts_of(entry: TreeEntry) -> (Path, Option<Vec<Handle>>)
    ensures path { result.0 ≡ path_of_entry entry }
    ensures chunks { plain_chunks result.1 ≡ chunks_of (kind_of_entry entry) }
{
    match entry {
        TreeEntry::Dir(path) => (path, None),
        TreeEntry::File(path, chunks) => (path, Some(chunks)),
    }
}

/// Puts an entry in its place.
fn put(
    alloc: Global,
    nodes: &mut BTreeMap<Texted, Option<Vec<Handle>>>,
    entry: TreeEntry,
) -> Result<(), AllocError>
    ensures { OnOk result (nodes_of nodes.new.entries ≡ fin.put text_cmp (path_of_entry entry) (chunks_of (kind_of_entry entry)) (nodes_of nodes.old.entries)) }
{
    let (path, chunks) = parts_of(entry);
    let path = Texted::of(alloc, path)?;
    nodes.insert(path, chunks)?;
    Ok(())
}

/// What was put, as a list of entries.
fn listed(
    alloc: Global,
    nodes: BTreeMap<Texted, Option<Vec<Handle>>>,
) -> Result<Vec<TreeEntry>, AllocError>
    ensures { IfOk result (λ listed. map plain_node listed.items ≡ nodes_of nodes.entries) }
{
    let mut listed = Vec::new(alloc);
    for (path, chunks) in nodes {
        listed.push(path.entry(chunks))?;
    }
    Ok(listed)
}

/// The entries in the order of the bytes of their paths' texts, each text once: of several entries with one text it gives
/// what the first of them is. It takes the memory of the texts beside theirs.
pub fn by_text(alloc: Global, entries: Vec<TreeEntry>) -> Result<Vec<TreeEntry>, AllocError>
    ensures { IfOk result (λ sorted. map plain_node sorted.items ≡ by_text (rows_of_entries entries.items)) }
{
    let mut left = entries;
    let mut nodes = BTreeMap::new(alloc);
    while let Some(entry) = left.pop() {
        put(alloc, &mut nodes, entry)?;
    }
    listed(alloc, nodes)
}
