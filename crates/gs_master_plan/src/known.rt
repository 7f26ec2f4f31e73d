// What is known of chunks, and which of them aren't quiet or are wanted.
ghost use Rattle.std.specs.Prelude.{[], ◌&&◌, ◌++◌, ◌≡◌, filter, IfOk, not, true, option_and_then, option_map};
ghost use Rattle.std.specs.FinMap as fin;
ghost use Rattle.std.specs.List.{list_all, list_any};
ghost use Rattle.gs_lease.specs.Views.{as_view};
ghost use Rattle.gs_master_plan.specs.inner.Planning.{state_of};
ghost use Rattle.gs_master_spec.specs.Chunks.{Chunk, chunk_at, has_entry, is_quiet};
ghost use Rattle.gs_master_state.specs.inner.Knowing.{known_of};
ghost use Rattle.gs_master_spec.specs.Quieted.{TellsQuiet};
ghost use Rattle.gs_master_spec.specs.Settling.{is_quiet_at, quiet_view_at, requests_of, source_chunks};
ghost use Rattle.gs_master_state.specs.inner.Surveying.{chunk_set, has_unquiet};
ghost use Rattle.gs_master_spec.specs.Upgrades.{all_unquiet, chunk_count};
ghost use Rattle.gs_master_spec.specs.Working.{ascending, is_wanted_at, unquiet};

use crate::standing::Standing;
use gs_base::{Handle, Refusal, ReqId};
use gs_lease::{AllQuiet, Quiet};
use gs_master_spec::asking::Asking;
use gs_master_state::known::{Known, chunk_set, is_settled};
use gs_path::Path;
use std::alloc::{AllocError, Global};

impl<'a> Standing<'a> {
    /// Whether the master knows a chunk: it stands in a file or stood there, or is new.
    pub fn has_entry(&self, chunk: Handle) -> bool
        ensures { result ≡ has_entry (state_of self.entry.now) chunk }
    {
        self.recorded.is_listed(chunk) || self.memory.is_new(chunk)
    }

    /// What the master knows of a chunk, if it does.
    #[tactic(auto, unfolding(gs_master_spec::specs::Chunks::chunk_at))]
    pub fn chunk_at(&self, chunk: Handle) -> Option<Known>
        ensures { option_map known_of result ≡ chunk_at (state_of self.entry.now) chunk }
    {
        if !self.has_entry(chunk) {
            return None;
        }
        let settled = self.recorded.settled(chunk);
        let asking = self.memory.asking(chunk).copied();
        Some(Known { settled, asking })
    }

    /// What is asked for a chunk that the master knows.
    #[tactic(auto, unfolding(gs_master_spec::specs::Chunks::chunk_at))]
    pub fn asking_at(&self, chunk: Handle) -> Option<Asking>
        ensures { result ≡ option_and_then (λ (c : Chunk). c.asking) (chunk_at (state_of self.entry.now) chunk) }
    {
        if !self.has_entry(chunk) {
            return None;
        }
        self.memory.asking(chunk).copied()
    }

    /// Whether a chunk that the master knows is quiet.
    pub fn is_quiet_at(&self, chunk: Handle) -> bool
        ensures { result ≡ is_quiet_at (state_of self.entry.now) chunk }
    {
        match self.chunk_at(chunk) {
            Some(known) => known.is_quiet(),
            None => false,
        }
    }

    /// A chunk that is quiet, as the master's table of leases has it: it isn't leased, and no view is proposed for it.
    #[tactic(auto, unfolding(gs_master_spec::specs::Chunks::chunk_at))]
    pub fn quiet_at(&self, chunk: Handle) -> Option<&'a Quiet>
        ensures { option_map (λ quiet. as_view quiet.now) result ≡ quiet_view_at (state_of self.entry.now) chunk }
    {
        if !self.has_entry(chunk) || self.memory.asking(chunk).is_some() {
            return None;
        }
        self.recorded.quiet(chunk)
    }

    /// Whether a call that waits moves a chunk.
    fn is_wanted_at(&self, chunk: Handle) -> bool
        ensures { result ≡ is_wanted_at (state_of self.entry.now) chunk }
    {
        match self.chunk_at(chunk) {
            Some(known) => known.is_wanted(),
            None => false,
        }
    }

    /// Whether a call that waits moves one of these chunks.
    pub fn is_any_wanted(&self, chunks: &[Handle]) -> bool
        ensures { result ≡ list_any (is_wanted_at (state_of self.entry.now)) chunks.now }
    {
        for chunk in chunks {
            if self.is_wanted_at(*chunk) {
                return true;
            }
        }
        false
    }

    /// The chunks of the source of a snapshot that aren't quiet, ascending.
    pub fn unquiet(&self, from: &Path) -> Result<Vec<Handle>, AllocError>
        ensures value { IfOk result (λ chunks. chunks.items ≡ unquiet (state_of self.entry.now) from.now) }
        ensures none { IfOk result (λ chunks. chunks.items ≡ [] → list_all (is_quiet_at (state_of self.entry.now)) (source_chunks (state_of self.entry.now) from.now) ≡ true) }
    {
        let alloc = self.recorded.alloc;
        let chunks = self.recorded.names.visible_chunks_under(alloc, from)?;
        let unquiet = self.unquiet_of(&chunks)?;
        ascending(alloc, &unquiet)
    }

    /// Those of some chunks that aren't quiet.
    fn unquiet_of(&self, chunks: &[Handle]) -> Result<Vec<Handle>, AllocError>
        ensures { IfOk result (λ unquiet. unquiet.items ≡ filter (λ chunk. not (is_quiet_at (state_of self.entry.now) chunk)) chunks.now) }
    {
        let mut unquiet = Vec::new(self.recorded.alloc);
        for chunk in chunks {
            if !self.is_quiet_at(*chunk) {
                unquiet.push(*chunk)?;
            }
        }
        Ok(unquiet)
    }

    /// Whether the master knows a chunk, and it isn't quiet.
    fn has_unquiet(&self, chunk: Handle) -> bool
        ensures { result ≡ has_unquiet (state_of self.entry.now) chunk }
    {
        self.has_entry(chunk) && !self.is_quiet_at(chunk)
    }

    /// The settled chunks that the master knows and that aren't quiet.
    fn settled_unquiet(&self) -> Result<Vec<Handle>, AllocError>
        ensures { IfOk result (λ chunks. chunks.items ≡ filter (has_unquiet (state_of self.entry.now)) (fin.keys (state_of self.entry.now).durable.chunks)) }
    {
        let mut unquiet = Vec::new(self.recorded.alloc);
        for (chunk, lease) in self.recorded.leases.iter() {
            if is_settled(lease) && self.has_unquiet(chunk) {
                unquiet.push(chunk)?;
            }
        }
        Ok(unquiet)
    }

    /// These chunks, and those for which something is asked and that aren't quiet.
    fn and_moving(&self, unquiet: Vec<Handle>) -> Result<Vec<Handle>, AllocError>
        ensures { IfOk result (λ chunks. chunks.items ≡ unquiet.items ++ filter (has_unquiet (state_of self.entry.now)) (fin.keys (state_of self.entry.now).volatile.moving)) }
    {
        let mut unquiet = unquiet;
        for (chunk, _) in self.memory.moving.iter() {
            if self.has_unquiet(chunk) {
                unquiet.push(chunk)?;
            }
        }
        Ok(unquiet)
    }

    /// Every chunk that is leased or moving, ascending.
    pub fn all_unquiet(&self) -> Result<Vec<Handle>, AllocError>
        ensures { IfOk result (λ chunks. chunks.items ≡ all_unquiet (state_of self.entry.now)) }
    {
        let settled = self.settled_unquiet()?;
        let unquiet = self.and_moving(settled)?;
        ascending(self.recorded.alloc, &unquiet)
    }

    /// The table of leases, if every chunk of it is quiet. `NotQuiet` with the lowest that isn't. What is asked in memory isn't
    /// looked at. It takes no memory.
    pub fn all_quiet(&self) -> Result<AllQuiet, Refusal>
        ensures { TellsQuiet (state_of self.entry.now) result }
    {
        self.recorded.leases.all_quiet()
    }

    /// How many chunks the master knows, as far as four bytes can say.
    pub fn chunk_count(&self) -> u32
        ensures { result ≡ chunk_count (state_of self.entry.now) }
    {
        let mut count: u32 = 0;
        for (chunk, lease) in self.recorded.leases.iter() {
            if is_settled(lease) && self.has_entry(chunk) {
                count = count.saturating_add(1);
            }
        }
        count
    }

    /// The requests of all calls that wait.
    pub fn requests(&self) -> Result<Vec<ReqId>, AllocError>
        ensures { IfOk result (λ requests. requests.items ≡ requests_of (state_of self.entry.now).volatile.pending) }
    {
        let mut requests = Vec::new(self.recorded.alloc);
        for pending in &self.memory.pending {
            requests.push(pending.req)?;
        }
        Ok(requests)
    }
}

/// The same in their order.
pub fn ascending(alloc: Global, chunks: &[Handle]) -> Result<Vec<Handle>, AllocError>
    ensures { IfOk result (λ once. once.items ≡ ascending chunks.now) }
{
    let set = chunk_set(alloc, chunks)?;
    let mut once = Vec::new(alloc);
    for (chunk, _) in set.iter() {
        once.push(chunk)?;
    }
    Ok(once)
}
