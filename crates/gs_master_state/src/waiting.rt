// Calls that wait: their lowest path, and the chunks that moved for one that ends.
ghost use Rattle.std.specs.Prelude.{◌≡◌, IfOk, option_map, Some, string_bytes};
ghost use Rattle.std.specs.Option.{option_to_list};
ghost use Rattle.gs_base.specs.Members.{is_member};
ghost use Rattle.gs_path.specs.Path.{path_text};
ghost use Rattle.gs_master_state.specs.inner.Judging.{lower_each, lower_text};
ghost use Rattle.gs_master_state.specs.inner.Memories.{volatile_of};
ghost use Rattle.gs_master_spec.specs.Upgrades.{lowest_path, pending_paths};
ghost use Rattle.gs_master_spec.specs.Volatile.{let_go, let_go_of, paths_of};

use crate::memory::Memory;
use gs_base::{Handle, ReqId};
use gs_master_spec::asking::Asking;
use gs_master_spec::change::Change;
use gs_master_spec::pending::Waiting;
use gs_path::Path;
use std::alloc::{AllocError, Global};
use std::cmp::Ordering;

/// The lower of two texts.
fn lower_text(text: String, lowest: Option<String>) -> String
    ensures { string_bytes result ≡ lower_text (string_bytes text) (option_map string_bytes lowest) }
{
    match lowest {
        Some(other) if text.cmp(&other) != Ordering::Less => other,
        _ => text,
    }
}

/// The lower of a path's text and another.
fn and_path(
    alloc: Global,
    path: &Path,
    lowest: Option<String>,
) -> Result<Option<String>, AllocError>
    ensures { IfOk result (λ text. option_map string_bytes text ≡ Some (lower_text (path_text path.now) (option_map string_bytes lowest))) }
{
    Ok(Some(lower_text(path.text(alloc)?, lowest)))
}

/// The lowest text of the paths that a call waits for, and another.
fn and_paths(
    alloc: Global,
    waits: &Waiting,
    lowest: Option<String>,
) -> Result<Option<String>, AllocError>
    ensures { IfOk result (λ text. option_map string_bytes text ≡ lower_each (paths_of waits.now) (option_map string_bytes lowest)) }
{
    match waits {
        Waiting::Extend { path, .. }
        | Waiting::Lease { path, .. }
        | Waiting::Quiet { path, .. }
        | Waiting::Copy { path, .. } => and_path(alloc, path, lowest),
        Waiting::Snapshot { from, to } => {
            let lowest = and_path(alloc, to, lowest)?;
            and_path(alloc, from, lowest)
        }
        Waiting::Replicate { .. } => Ok(lowest),
    }
}

impl Memory {
    /// The lowest text of the paths of calls that wait.
    pub fn lowest_pending(&self) -> Result<Option<String>, AllocError>
        ensures { IfOk result (λ text. option_map string_bytes text ≡ option_map path_text (lowest_path (pending_paths (volatile_of self.now).pending))) }
    {
        let mut lowest = None;
        let mut left = self.pending.len();
        while left > 0 {
            left -= 1;
            lowest = and_paths(self.alloc, &self.pending[left].waits, lowest)?;
        }
        Ok(lowest)
    }

    /// Whether a chunk has no place in a file yet.
    pub fn is_new(&self, chunk: Handle) -> bool
        ensures { result ≡ is_member (volatile_of self.now).unplaced chunk }
    {
        self.unplaced.iter().any(|new| *new == chunk)
    }

    /// Whether a restart took out a chunk.
    pub fn is_taken_out(&self, chunk: Handle) -> bool
        ensures { result ≡ is_member (volatile_of self.now).taken_out chunk }
    {
        self.taken_out.iter().any(|out| *out == chunk)
    }

    /// What becomes of a chunk that moves, once a call ends: a new one is no more, any other moves on by itself.
    fn let_go_of(&self, req: ReqId, chunk: Handle, asking: &Asking) -> Option<Change>
        ensures { option_to_list result ≡ let_go_of (volatile_of self.now).unplaced req (chunk, asking.now) }
    {
        if !asking.is_for(req) {
            return None;
        }
        if self.is_new(chunk) {
            return Some(Change::Lose(chunk));
        }
        Some(Change::Ask(
            chunk,
            Asking {
                call: None,
                ..*asking
            },
        ))
    }

    /// What becomes of the chunks that move, once a call ends.
    pub fn let_go(&self, req: ReqId) -> Result<Vec<Change>, AllocError>
        ensures { IfOk result (λ changes. changes.items ≡ let_go (volatile_of self.now) req) }
    {
        let mut changes = Vec::new(self.alloc);
        for (chunk, asking) in self.moving.iter() {
            if let Some(change) = self.let_go_of(req, chunk, asking) {
                changes.push(change)?;
            }
        }
        Ok(changes)
    }
}
