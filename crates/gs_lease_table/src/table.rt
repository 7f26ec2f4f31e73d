ghost use Rattle.std.specs.Prelude.{◌≡◌, ◌<◌, ◌^◌, ◌==◌, IfOk, IfSome, MatchResult, OnOk, OnSome, None, true, ℕ, length, map};
ghost use Rattle.std.specs.Option.{option_copied};
ghost use Rattle.std.specs.FinMap as fin;
ghost use Rattle.std.specs.List.{list_any};
ghost use Rattle.std.specs.List.Sorted.{IsStrictlySortedBy};
ghost use Rattle.std.specs.Ordering.{nat_cmp};
ghost use Rattle.gs_lease.specs.Chunks.{IsAllQuiet, RefusedFor};
ghost use Rattle.gs_lease.specs.declared.lease.Lease.{Lease as AnyLease};
ghost use Rattle.gs_base_table.specs.Slots.{GivesUpRoom, HasRoom, KeepsRoom, live};
ghost use Rattle.gs_lease_table.specs.Settlings.{EachTellsSettled, MayTellSettled, tells_settled};
ghost use Rattle.gs_base.specs.Members.{is_member};
ghost use Rattle.gs_lease_table.specs.Groups.{AreThose};
ghost use Rattle.gs_lease_table.specs.Tallies.{AreReplicas, has_primary, settled_members};

use crate::groups::{Groups, MEMBERLESS, PRIMARIES};
use crate::tally::{Brief, Tally, are_few, told_briefly};
use gs_base::{Handle, Refusal, ServerId};
use gs_base_table::{Entries, Table};
use gs_lease::{AllQuiet, Lease};
use std::alloc::{AllocError, Global};
use std::marker::Model;

/// The leases of a master's chunks, each of which tells a settled view: a [`Table`] that keeps count of the settled views of which
/// each server is a member, and of those that have a primary. Beside it stand sets of the chunks that each server has, of those that have
/// a primary, and of those that have so many members. A change costs what a table's costs and a look at each of these; none looks at
/// another chunk. Where memory is wanting for a set they all go, and nothing else comes of that.
pub struct LeaseTable {
    leases: Table<Handle, Lease>,
    tally: Tally,
    groups: Groups,
}

impl Drop for LeaseTable {
    fn drop(self) {
        let Self {
            leases: _,
            tally: _,
            groups: _,
        } = self;
    }
}

impl Model for LeaseTable {
    ghost use Rattle.std.specs.Prelude.{List, Option, ℕ};
    ghost use Rattle.std.specs.FinMap as fin;
    ghost use Rattle.std.specs.Ordering.{nat_cmp};
    ghost use Rattle.gs_lease.specs.declared.lease.Lease.{Lease};
    ghost use Rattle.gs_base_table.specs.Slots.{live};
    ghost use Rattle.gs_lease_table.specs.Settlings.{EachTellsSettled};
    ghost use Rattle.gs_lease_table.specs.Tallies.{IsTallyOf};
    ghost use Rattle.gs_lease_table.specs.Groups.{AreGroupsOf};

    ghost Value = { List (ℕ × Option Lease) };

    ghost view = { λ t. t.leases };

    ghost invariant = { λ t. IsTallyOf (fin.entries (live nat_cmp t.leases)) t.tally × EachTellsSettled (live nat_cmp t.leases) × AreGroupsOf (live nat_cmp t.leases) t.groups.sets.items };
}

impl LeaseTable {
    pub fn new(alloc: Global) -> LeaseTable
        ensures { live nat_cmp result ≡ fin.empty }
    {
        LeaseTable {
            leases: Table::new(alloc),
            tally: Tally {
                replicas: [0; 16],
                primaries: 0,
            },
            groups: Groups::new(alloc),
        }
    }

    /// Of how many settled views each server is a member, by the servers' numbers. It looks at no lease.
    pub fn replica_counts(&self) -> [u64; 16]
        ensures { AreReplicas (fin.entries (live nat_cmp self.now)) result }
    {
        self.tally.replicas
    }

    /// Whether some settled view has a primary. It looks at no lease.
    pub fn has_primary(&self) -> bool
        ensures { result ≡ list_any (λ (e : ℕ × AnyLease). has_primary e.1) (fin.entries (live nat_cmp self.now)) }
    {
        0 < self.tally.primaries
    }

    /// The chunks of whose settled views a server is a member. There are none of any group where memory was wanting for one.
    pub fn on_server(&self, server: ServerId) -> Option<&Table<Handle, bool>>
        ensures { IfSome result (λ chunks. AreThose (λ lease. is_member (settled_members lease) server) (live nat_cmp self.now) (live nat_cmp chunks.now)) }
    {
        self.groups.get(server.number() as usize)
    }

    /// The chunks whose settled views have a primary.
    pub fn with_primary(&self) -> Option<&Table<Handle, bool>>
        ensures { IfSome result (λ chunks. AreThose has_primary (live nat_cmp self.now) (live nat_cmp chunks.now)) }
    {
        self.groups.get(PRIMARIES)
    }

    /// The chunks whose settled views have so many members, which are at most 16.
    pub fn with_members(&self, many: usize) -> Option<&Table<Handle, bool>>
        ensures { IfSome result (λ chunks. AreThose (λ lease. length (settled_members lease) == many) (live nat_cmp self.now) (live nat_cmp chunks.now)) }
    {
        self.groups.get(many.checked_add(MEMBERLESS)?)
    }

    /// This table, if every chunk of it is quiet. `NotQuiet` with the lowest that isn't. It takes no memory.
    pub fn all_quiet(&self) -> Result<AllQuiet, Refusal>
        ensures same { IfOk result (λ quiet. quiet ≡ live nat_cmp self.now) }
        ensures quiet { MatchResult result (λ _. IsAllQuiet (live nat_cmp self.now)) (RefusedFor (live nat_cmp self.now)) }
        ensures settled { EachTellsSettled (live nat_cmp self.now) }
    {
        AllQuiet::of(&self.leases)
    }

    /// What stands at a chunk. A chunk at which something stands has room.
    pub fn get(&self, chunk: Handle) -> Option<&Lease>
        ensures value { option_copied result ≡ fin.get (live nat_cmp self.now) chunk }
        ensures room { OnSome result (HasRoom nat_cmp self.now chunk) }
    {
        self.leases.get(chunk)
    }

    /// What lives, in the order of the chunks.
    pub fn iter(&self) -> Entries<'_, Handle, Lease>
        ensures entries { result ≡ fin.entries (live nat_cmp self.entry.now) }
        ensures ordered { IsStrictlySortedBy nat_cmp (map (λ entry. entry.0) result) }
        ensures fits { length result < 2 ^ 63 }
    {
        self.leases.iter()
    }

    /// Makes room for a chunk.
    pub fn reserve(&mut self, chunk: Handle) -> Result<(), AllocError>
        ensures same { live nat_cmp self.new ≡ live nat_cmp self.old }
        ensures ok { OnOk result (HasRoom nat_cmp self.new chunk) }
        ensures keeps { KeepsRoom nat_cmp self.old self.new }
    {
        self.leases.reserve(chunk)
    }

    /// Puts a lease at a chunk that has room, and answers what stood there. It takes no memory.
    pub fn exchange(&mut self, chunk: Handle, lease: Lease) -> Option<Lease>
        requires room { HasRoom nat_cmp self.old chunk }
        requires settled { tells_settled lease ≡ true }
        ensures value { result ≡ fin.get (live nat_cmp self.old) chunk }
        ensures stood { MayTellSettled result }
        ensures put { live nat_cmp self.new ≡ fin.insert (live nat_cmp self.old) chunk lease }
        ensures keeps { KeepsRoom nat_cmp self.old self.new }
    {
        are_few(&self.leases);
        let after = Some(Brief::of(&lease));
        let stood = self.leases.replace(chunk, lease);
        let before = told_briefly(&stood);
        self.tally.exchange(&before, &after);
        self.groups.exchange(chunk, &before, &after);
        stood
    }

    /// The same, where what stood there isn't wanted any more.
    pub fn put(&mut self, chunk: Handle, lease: Lease)
        requires room { HasRoom nat_cmp self.old chunk }
        requires settled { tells_settled lease ≡ true }
        ensures put { live nat_cmp self.new ≡ fin.insert (live nat_cmp self.old) chunk lease }
        ensures keeps { KeepsRoom nat_cmp self.old self.new }
    {
        let _before = self.exchange(chunk, lease);
    }

    /// Takes out what stands at a chunk, and leaves its room. It takes no memory.
    pub fn take(&mut self, chunk: Handle) -> Option<Lease>
        ensures value { result ≡ fin.get (live nat_cmp self.old) chunk }
        ensures stood { MayTellSettled result }
        ensures taken { live nat_cmp self.new ≡ fin.remove (live nat_cmp self.old) chunk }
        ensures keeps { KeepsRoom nat_cmp self.old self.new }
    {
        let lease = self.leases.take(chunk)?;
        let before = Some(Brief::of(&lease));
        self.tally.subtract(&before);
        self.groups.exchange(chunk, &before, &None);
        Some(lease)
    }

    /// Takes out what stands at a chunk, and gives up its room. It takes no memory.
    pub fn remove(&mut self, chunk: Handle) -> Option<Lease>
        ensures value { result ≡ fin.get (live nat_cmp self.old) chunk }
        ensures removed { live nat_cmp self.new ≡ fin.remove (live nat_cmp self.old) chunk }
        ensures room { GivesUpRoom nat_cmp self.old self.new chunk }
    {
        let lease = self.leases.remove(chunk)?;
        let before = Some(Brief::of(&lease));
        self.tally.subtract(&before);
        self.groups.exchange(chunk, &before, &None);
        Some(lease)
    }

    /// Gives up the room of a chunk at which nothing stands. It takes no memory.
    pub fn release(&mut self, chunk: Handle)
        ensures same { live nat_cmp self.new ≡ live nat_cmp self.old }
        ensures empty { fin.get (live nat_cmp self.old) chunk ≡ None → GivesUpRoom nat_cmp self.old self.new chunk }
        ensures kept { OnSome (fin.get (live nat_cmp self.old) chunk) (self.new ≡ self.old) }
    {
        self.leases.release(chunk);
    }
}
