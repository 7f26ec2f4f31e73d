// Paths in the order in which they came, of which it is soon known whether one lies at or under another path.
ghost use Rattle.std.specs.Prelude.{List, ◌≡◌, ◌∷◌, ◌++◌, [], IfOk, OnOk, OnErr, IsTrue, ◌↔◌};
ghost use Rattle.std.specs.List.{list_any};
ghost use Rattle.gs_path.specs.Path.{Path, begins};
ghost use Rattle.gs_master_state.specs.inner.Held.{all_but_last};
ghost use Rattle.gs_master_state.specs.inner.Places.{HasJust};

use crate::edit::push_within;
use gs_path::Path;
use std::alloc::{AllocError, Global};
use std::collections::BTreeSet;
use std::marker::Model;

/// Paths in the order in which they came.
///
/// A set of them is kept beside, so that a path that is as long as the longest of them isn't compared with each. It is kept
/// until one of several is taken out, and as long as there is memory for it.
pub struct Places {
    alloc: Global,
    paths: Vec<Path>,
    among: Option<BTreeSet<Path>>,
    longest: usize,
}

impl Drop for Places {
    fn drop(self) {
        let Self {
            alloc: _,
            paths: _,
            among: _,
            longest: _,
        } = self;
    }
}

impl Model for Places {
    ghost use Rattle.gs_master_state.specs.inner.Places.{AreWithin, HasJust, Paths, coded_paths};

    ghost Value = { Paths };

    ghost coded = { coded_paths };

    ghost view = { λ a. record { items = a.paths.items } };

    ghost invariant = { λ a. HasJust a.among a.paths.items × AreWithin a.longest a.paths.items };
}

impl Places {
    pub fn new(alloc: Global) -> Places
        ensures items { result.items ≡ [] }
    {
        Places {
            alloc,
            paths: Vec::new(alloc),
            among: Some(BTreeSet::new(alloc)),
            longest: 0,
        }
    }

    /// A path alone, in memory of its own. No set is kept of it.
    pub fn one(alloc: Global, path: &Path) -> Result<Places, AllocError>
        ensures { IfOk result (λ places. places.items ≡ path.now ∷ []) }
    {
        let path = path.copy(alloc)?;
        let mut paths = Vec::new(alloc);
        let longest = path.elements().len();
        paths.reserve(1)?;
        push_within(&mut paths, path);
        Ok(Places {
            alloc,
            paths,
            among: None,
            longest,
        })
    }

    pub fn as_slice(&self) -> &[Path]
        ensures { result.now ≡ self.now.items }
    {
        self.paths.as_slice()
    }

    pub fn is_empty(&self) -> bool
        ensures { IsTrue result ↔ (self.now.items ≡ []) }
    {
        self.paths.is_empty()
    }

    /// Whether one of them is at or under a path.
    pub fn is_over(&self, path: &Path) -> bool
        ensures { result ≡ list_any (begins path.now) self.now.items }
    {
        if self.longest <= path.elements().len() {
            if let Some(among) = &self.among {
                return among.contains(path);
            }
        }
        self.paths.iter().any(|place| place.starts_with(path))
    }

    /// One more, behind the others.
    pub fn push(&mut self, path: Path) -> Result<(), AllocError>
        ensures pushed { OnOk result (self.new.items ≡ self.old.items ++ path ∷ []) }
        ensures stays { OnErr result (self.new ≡ self.old) }
    {
        self.paths.reserve(1)?;
        self.among = with_path(self.alloc, self.among.take(), &path);
        self.longest = self.longest.max(path.elements().len());
        push_within(&mut self.paths, path);
        Ok(())
    }

    /// The last is taken out.
    pub fn pop(&mut self)
        ensures { self.new.items ≡ all_but_last self.old.items }
    {
        if self.paths.len() <= 1 {
            *self = Places::new(self.alloc);
            return;
        }
        self.among = None;
        let _last = self.paths.pop();
    }
}

/// A set with one more path. Where memory is wanting for it there is none any more.
fn with_path(alloc: Global, among: Option<BTreeSet<Path>>, path: &Path) -> Option<BTreeSet<Path>>
    ensures { (paths : List Path) → HasJust among paths → HasJust result (paths ++ path.now ∷ []) }
{
    let mut among = among?;
    let Ok(copy) = path.copy(alloc) else {
        return None;
    };
    match among.insert(copy) {
        Ok(_) => Some(among),
        Err(_) => None,
    }
}
