ghost use Rattle.std.specs.Prelude.{◌≡◌, ◌<◌, ◌&&◌, None, option_map, vec_len, vec_capacity};
ghost use Rattle.std.specs.FinMap as fin;
ghost use Rattle.std.specs.Ordering.{nat_cmp};
ghost use Rattle.gs_base_table.specs.Slots.{KeepsRoom};
ghost use Rattle.gs_master_spec.specs.Applied.{are_at_rest, follows_view, is_fresh, is_next_epoch, is_since, is_sound, may_be_settled, may_propose, raised, view_in, with_epoch};
ghost use Rattle.gs_master_spec.specs.Chunks.{was_proposed};
ghost use Rattle.gs_base.specs.Numbers.{last_number};
ghost use Rattle.gs_lease.specs.Views.{as_view};
ghost use Rattle.gs_master_spec.specs.Durable.{start, after_number, is_given, is_listed, kept_before, prepared_view, upgrade_epoch};
ghost use Rattle.gs_master_state.specs.inner.Recorded.{RoomToKeep, durable_of, rests, settled_by};
ghost use Rattle.gs_master_spec.specs.Replies.{is_later};
ghost use Rattle.gs_master_spec.specs.Settling.{quiet_view};

use crate::held_names::HeldNames;
use gs_base::{ClientId, EpochEnd, Handle, Members, ReqId};
use gs_base_table::Table;
use gs_edit::{ListedInverse, Names};
use gs_lease::{Lease, Quiet, Told, View};
use gs_lease_table::LeaseTable;
use gs_master_record::{Phase, SettledView};
use gs_master_spec::asking::Prepared;
use gs_master_spec::reply::KeptReply;
use std::alloc::Global;

/// What the records of the journal come to. A restart reads it from them again.
pub struct Recorded {
    pub alloc: Global,
    pub names: HeldNames,
    /// The chunks that were settled, by their states. A new one isn't there before it is.
    pub leases: LeaseTable,
    /// The handle of the next chunk, or 0 where none is left. The other counters go the same way.
    pub next_handle: u64,
    pub next_version: u64,
    pub next_hidden: u64,
    pub epoch: u64,
    pub phase: Phase,
    pub ends: Vec<EpochEnd>,
    pub replies: Table<ClientId, KeptReply>,
    pub inverses: Vec<ListedInverse>,
    pub prepared: Table<Handle, Prepared>,
}

impl Drop for Recorded {
    fn drop(self) {
        let Self {
            alloc: _,
            names: _,
            leases: _,
            next_handle: _,
            next_version: _,
            next_hidden: _,
            epoch: _,
            phase: _,
            ends: _,
            replies: _,
            inverses: _,
            prepared: _,
        } = self;
    }
}

impl Recorded {
    /// A new store.
    #[tactic(auto, using(crate::proofs::Recording::chunks_empty))]
    pub fn new(alloc: Global) -> Recorded
        ensures { durable_of result ≡ start }
    {
        Recorded {
            alloc,
            names: HeldNames::new(alloc, Names::new(alloc)),
            leases: LeaseTable::new(alloc),
            next_handle: 1,
            next_version: 1,
            next_hidden: 1,
            epoch: 0,
            phase: Phase::Ordinary,
            ends: Vec::new(alloc),
            replies: Table::new(alloc),
            inverses: Vec::new(alloc),
            prepared: Table::new(alloc),
        }
    }

    /// Whether a request is later than the one of its client that was answered last.
    pub fn is_later(&self, to: ReqId) -> bool
        ensures { result ≡ is_later (fin.get (durable_of self.now).replies to.client) to.number }
    {
        match self.replies.get(to.client) {
            Some(reply) => reply.number < to.number,
            None => true,
        }
    }

    /// Whether this is the epoch behind the one that stands.
    pub fn is_next_epoch(&self, epoch: u64) -> bool
        ensures { result ≡ is_next_epoch (durable_of self.now).epoch epoch }
    {
        self.epoch.checked_add(1) == Some(epoch)
    }

    /// The next epoch begins. There is room for how this one ends.
    pub fn end_epoch(&mut self, end: EpochEnd, phase: Phase)
        requires room { vec_len self.old.ends < vec_capacity self.old.ends }
        requires more { self.old.epoch < last_number }
        ensures value { durable_of self.new ≡ with_epoch (durable_of self.old) end phase }
        ensures leases { self.new.leases ≡ self.old.leases }
        ensures replies { self.new.replies ≡ self.old.replies }
        ensures prepared { self.new.prepared ≡ self.old.prepared }
        ensures names { self.new.names ≡ self.old.names }
    {
        let _pushed = self.ends.push(end);
        self.epoch += 1;
        self.phase = phase;
    }

    /// The settled view of a chunk.
    #[tactic(auto, using(crate::proofs::Recording::get_chunks))]
    pub fn view(&self, chunk: Handle) -> Option<View>
        ensures { result ≡ view_in (fin.get (durable_of self.now).chunks chunk) }
    {
        Told::of(self.leases.get(chunk)?).settled
    }

    /// Whether another view of a settled chunk was proposed since.
    #[tactic(auto, using(crate::proofs::Recording::get_chunks))]
    pub fn is_proposed(&self, chunk: Handle) -> bool
        ensures { result ≡ was_proposed (fin.get (durable_of self.now).chunks chunk) }
    {
        let Some(lease) = self.leases.get(chunk) else {
            return false;
        };
        let told = Told::of(lease);
        told.settled.is_some() && told.proposed.is_some()
    }

    /// A chunk of which no member takes an edit, as the table of leases has it: its settled view has no primary, and no other was proposed
    /// since.
    #[tactic(auto, using(crate::proofs::Recording::get_chunks))]
    pub fn quiet(&self, chunk: Handle) -> Option<&Quiet>
        ensures { option_map (λ quiet. as_view quiet.now) result ≡ quiet_view (record { settled = fin.get (durable_of self.entry.now).chunks chunk; asking = None }) }
    {
        match self.leases.get(chunk)? {
            Lease::Quiet(quiet) => Some(quiet),
            Lease::Leased(leased) => {
                let _term = leased.term();
                None
            }
            Lease::Moving(_) => None,
        }
    }

    /// The epoch of the upgrade that stands, also while it is rolled back.
    fn upgrade_epoch(&self) -> Option<u64>
        ensures { result ≡ upgrade_epoch (durable_of self.now).phase (durable_of self.now).epoch }
    {
        match self.phase {
            Phase::Ordinary => None,
            Phase::Upgrade => Some(self.epoch),
            Phase::Rolling => Some(self.epoch.saturating_sub(1)),
        }
    }

    /// The view of a chunk as it stood at prepare, with its holders, while an upgrade stands.
    pub fn prepared_view(&self, chunk: Handle) -> Option<Prepared>
        ensures { result ≡ prepared_view (durable_of self.now) chunk }
    {
        let upgrade = self.upgrade_epoch()?;
        if let Some(kept) = self.prepared.get(chunk) {
            return Some(*kept);
        }
        let view = self.view(chunk)?;
        if view.stamp.epoch >= upgrade {
            return None;
        }
        Some(Prepared {
            view,
            holders: Members::none(),
        })
    }

    /// Before a chunk changes, its prepared view is kept. There is room for it.
    pub fn keep_prepared(&mut self, chunk: Handle)
        requires { RoomToKeep self.old.phase self.old.prepared chunk }
        ensures value { durable_of self.new ≡ record (durable_of self.old) { prepared = kept_before (durable_of self.old) chunk } }
        ensures leases { self.new.leases ≡ self.old.leases }
        ensures replies { self.new.replies ≡ self.old.replies }
        ensures inverses { self.new.inverses ≡ self.old.inverses }
        ensures room { KeepsRoom nat_cmp self.old.prepared self.new.prepared }
        ensures names { self.new.names ≡ self.old.names }
    {
        if let Some(prepared) = self.prepared_view(chunk) {
            self.prepared.put(
                chunk,
                Prepared {
                    view: prepared.view,
                    holders: prepared.holders,
                },
            );
        }
    }

    /// Whether a view of a chunk may be proposed under this version.
    pub fn may_propose(&self, chunk: Handle, version: u64) -> bool
        ensures { result ≡ may_propose (durable_of self.now).phase (durable_of self.now).next_handle (durable_of self.now).next_version chunk version (fin.get (durable_of self.now).chunks chunk) }
    {
        if self.phase == Phase::Rolling || !is_fresh(self.next_version, version) {
            return false;
        }
        self.view(chunk).is_some() || is_fresh(self.next_handle, chunk.number())
    }

    /// Whether a view has a stamp that may follow what is settled of its chunk.
    fn may_follow(&self, settled: &SettledView) -> bool
        ensures { result ≡ (follows_view (fin.get (durable_of self.now).chunks settled.now.handle) settled.now.view.stamp && is_since (upgrade_epoch (durable_of self.now).phase (durable_of self.now).epoch) (fin.get (durable_of self.now).chunks settled.now.handle) settled.now.view.stamp) }
    {
        let stamp = settled.view.stamp;
        match self.view(settled.handle) {
            Some(view) => self.is_proposed(settled.handle) && view.stamp < stamp,
            None => match self.upgrade_epoch() {
                Some(upgrade) => upgrade <= stamp.epoch,
                None => true,
            },
        }
    }

    /// Whether a view may be settled.
    pub fn may_be_settled(&self, settled: &SettledView) -> bool
        ensures { result ≡ may_be_settled (durable_of self.now) settled.now }
    {
        let view = settled.view;
        if !is_given(self.next_handle, settled.handle.number())
            || !is_given(self.next_version, view.stamp.version)
        {
            return false;
        }
        view.stamp.epoch <= self.epoch && is_sound(&view) && self.may_follow(settled)
    }

    /// Whether a file has the chunk, or had it.
    pub fn is_listed(&self, chunk: Handle) -> bool
        ensures { result ≡ is_listed (durable_of self.now) chunk }
    {
        self.names.refs().count(chunk).is_some()
    }

    /// Whether each listed chunk has no primary, and no view is proposed for it.
    pub fn are_at_rest(&self) -> bool
        ensures { result ≡ are_at_rest (durable_of self.now) }
    {
        for (chunk, lease) in self.leases.iter() {
            if self.is_listed(chunk) && !is_at_rest(lease) {
                return false;
            }
        }
        true
    }
}

/// Whether a chunk has no primary, and no view is proposed for it. A new one is nobody's yet.
fn is_at_rest(lease: &Lease) -> bool
    ensures { result ≡ rests (settled_by lease.now) }
{
    let Told { settled, proposed } = Told::of(lease);
    let Some(view) = settled else {
        return true;
    };
    let term = view.term;
    proposed.is_none() && term.is_none()
}

/// Whether a counter has given a value.
pub fn is_given(next: u64, number: u64) -> bool
    ensures { result ≡ is_given next number }
{
    0 < number && (next == 0 || number < next)
}

/// Whether a counter hasn't given a value yet.
pub fn is_fresh(next: u64, number: u64) -> bool
    ensures { result ≡ is_fresh next number }
{
    0 < number && !is_given(next, number)
}

/// A counter behind the value that it gave last.
pub fn after_number(number: u64) -> u64
    ensures { result ≡ after_number number }
{
    number.checked_add(1).unwrap_or(0)
}

/// A counter behind a value, if it hasn't given it yet.
pub fn raised(next: u64, number: u64) -> u64
    ensures { result ≡ raised next number }
{
    if is_fresh(next, number) {
        after_number(number)
    } else {
        next
    }
}

/// Whether a view has members, and its primary is one of them if it has one.
fn is_sound(view: &View) -> bool
    ensures { result ≡ is_sound view.now }
{
    let members = view.members;
    if members.is_empty() {
        return false;
    }
    match view.term {
        Some(term) => members.contains(term.primary),
        None => true,
    }
}
