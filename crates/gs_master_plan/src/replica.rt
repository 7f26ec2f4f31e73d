// Which chunk needs a replica most, and on which servers replicas are put.
ghost use Rattle.std.specs.Prelude.{◌<◌, ◌^◌, ◌≡◌, IfOk, None, slice_index, ℕ};
ghost use Rattle.std.specs.FinMap as fin;
ghost use Rattle.std.specs.Ordering.{nat_cmp};
ghost use Rattle.gs_place.specs.Needs.{most_needed_of};
ghost use Rattle.gs_master_plan.specs.inner.Healing.{first_in_use, is_in_use};
ghost use Rattle.gs_master_plan.specs.inner.Planning.{state_of};
ghost use Rattle.gs_master_spec.specs.Beginning.{counted_views, is_counted, targets_for};
ghost use Rattle.gs_master_spec.specs.Chunks.{has_entry};
ghost use Rattle.gs_master_state.specs.inner.Surveying.{AreCounts, AreVisible, CountsMembers, need_by, view_by_lease, view_where};
ghost use Rattle.gs_master_spec.specs.Working.{needs_of};
ghost use Rattle.gs_base_table.specs.Slots.{live};

use crate::standing::Standing;
use gs_base::{Config, Handle, Members, ServerId};
use gs_base_table::Table;
use gs_lease::{Lease, Told, View};
use gs_place::{Need, Needed, targets};
use std::alloc::AllocError;

impl<'a> Standing<'a> {
    /// The settled view of a chunk that the master knows.
    fn known_view(&self, chunk: Handle, lease: &Lease) -> Option<View>
        ensures { result ≡ view_where (has_entry (state_of self.entry.now)) (chunk, lease.now) }
    {
        if self.has_entry(chunk) {
            view_by_lease(lease)
        } else {
            None
        }
    }

    /// What a chunk with so many members needs. Which chunks are visible is told.
    fn need_of(&self, chunk: Handle, members: u64, visible: &Table<Handle, bool>) -> Need
        requires { AreVisible (fin.entries (state_of self.now).durable.names.tree) (live nat_cmp visible.now) }
        ensures { result ≡ need_by (state_of self.entry.now).durable chunk members }
    {
        Need {
            handle: chunk,
            references: self.recorded.references(chunk),
            is_visible: visible.get(chunk).is_some(),
            members,
        }
    }

    /// The chunk that needs a replica most, found chunk by chunk.
    fn most_of_all(&self, config: &Config, visible: &Table<Handle, bool>) -> Option<Handle>
        requires { AreVisible (fin.entries (state_of self.now).durable.names.tree) (live nat_cmp visible.now) }
        ensures { result ≡ most_needed_of config.now.replicas (needs_of (state_of self.entry.now)) }
    {
        let mut needed = Needed::new(config);
        for (chunk, lease) in self.recorded.leases.iter() {
            if let Some(view) = self.known_view(chunk, lease) {
                let members = view.members.len() as u64;
                needed.offer(self.need_of(chunk, members, visible));
            }
        }
        needed.handle()
    }

    /// Whether the master knows a chunk and a file has it.
    fn is_in_use(&self, chunk: Handle) -> bool
        ensures { result ≡ is_in_use (state_of self.entry.now) chunk }
    {
        self.has_entry(chunk) && 0 < self.recorded.references(chunk)
    }

    /// The first of some chunks that is in use and stands at a visible path. If there is none, the first that is in use.
    fn first_in_use(
        &self,
        chunks: &Table<Handle, bool>,
        visible: &Table<Handle, bool>,
    ) -> Option<Handle>
        requires { AreVisible (fin.entries (state_of self.now).durable.names.tree) (live nat_cmp visible.now) }
        ensures { result ≡ first_in_use (state_of self.entry.now) None (fin.keys (live nat_cmp chunks.now)) }
    {
        let mut hidden = None;
        for (chunk, _) in chunks.iter() {
            if self.is_in_use(chunk) {
                if visible.get(chunk).is_some() {
                    return Some(chunk);
                }
                hidden = hidden.or(Some(chunk));
            }
        }
        hidden
    }

    /// The chunk that needs a replica most. Those with the fewest members are looked at first, where the table of leases keeps them.
    fn most_by_members(&self, config: &Config, visible: &Table<Handle, bool>) -> Option<Handle>
        requires { AreVisible (fin.entries (state_of self.now).durable.names.tree) (live nat_cmp visible.now) }
        ensures { result ≡ most_needed_of config.now.replicas (needs_of (state_of self.entry.now)) }
    {
        for members in 1..config.replicas {
            let Some(chunks) = self.recorded.leases.with_members(members as usize) else {
                return self.most_of_all(config, visible);
            };
            if let Some(chunk) = self.first_in_use(chunks, visible) {
                return Some(chunk);
            }
        }
        None
    }

    /// The chunk that needs a replica most.
    pub fn most_needed(&self, config: &Config) -> Result<Option<Handle>, AllocError>
        ensures { IfOk result (λ most. most ≡ most_needed_of config.now.replicas (needs_of (state_of self.entry.now))) }
    {
        if let Some(visible) = self.recorded.names.visible() {
            return Ok(self.most_by_members(config, visible));
        }
        let visible = self.recorded.visible_chunks()?;
        Ok(self.most_by_members(config, &visible))
    }
}

/// The settled view of a lease.
#[tactic(auto, using(gs_master_state::proofs::Surveys::view_told))]
pub(crate) fn view_by_lease(lease: &Lease) -> Option<View>
    ensures { result ≡ view_by_lease lease.now }
{
    Told::of(lease).settled
}

/// Counts a view at each of its members.
fn count_members(counts: &mut [u64; 16], members: Members)
    requires { (server : ℕ) → server < 16 → slice_index counts.old server < 2 ^ 63 }
    ensures { CountsMembers members counts.old counts.new }
{
    for number in 0..16 {
        let server = ServerId::new(number).unwrap();
        if members.contains(server) {
            counts[number as usize] += 1;
        }
    }
}

impl<'a> Standing<'a> {
    /// The settled view of a chunk, unless a restart took the chunk out.
    fn counted_view(&self, chunk: Handle, lease: &Lease) -> Option<View>
        ensures { result ≡ view_where (is_counted (state_of self.entry.now)) (chunk, lease.now) }
    {
        if self.recorded.is_listed(chunk) || !self.memory.is_taken_out(chunk) {
            view_by_lease(lease)
        } else {
            None
        }
    }

    /// The same counts, found chunk by chunk.
    fn counts_by_chunk(&self) -> [u64; 16]
        ensures { AreCounts (counted_views (state_of self.entry.now)) result }
    {
        let mut counts = [0; 16];
        for (chunk, lease) in self.recorded.leases.iter() {
            if let Some(view) = self.counted_view(chunk, lease) {
                count_members(&mut counts, view.members);
            }
        }
        counts
    }

    /// Of how many settled views each server is a member. Each chunk is looked at only where a restart took some out.
    fn replica_counts(&self) -> [u64; 16]
        ensures { AreCounts (counted_views (state_of self.entry.now)) result }
    {
        if self.memory.taken_out.is_empty() {
            self.recorded.leases.replica_counts()
        } else {
            self.counts_by_chunk()
        }
    }

    /// As many servers as are wanted for replicas of a chunk that has these members now, if there are so many.
    pub fn targets_for(&self, config: &Config, present: Members, wanted: u64) -> Option<Members>
        ensures { result ≡ targets_for config.now (counted_views (state_of self.entry.now)) present wanted }
    {
        let counts = self.replica_counts();
        targets(config, &counts, present, wanted).ok()
    }
}
