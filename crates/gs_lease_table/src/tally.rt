// What is counted of leases.
ghost use Rattle.std.specs.Prelude.{◌≡◌, ◌≢◌, ◌<◌, ◌^◌, MatchBool, ℕ, length, slice_index};
ghost use Rattle.std.specs.FinMap as fin;
ghost use Rattle.std.specs.Ordering.{nat_cmp};
ghost use Rattle.gs_base_table.specs.Slots.{live};
ghost use Rattle.gs_lease_table.specs.Tallies.{AddsMembers, Adds, CanCount, Exchanges, HasCounted, HasMembers, brief_of, briefs_of, primaries_of};

use gs_base::{Handle, Members, ServerId};
use gs_base_table::Table;
use gs_lease::{Lease, Told};

/// Of how many settled views each server is a member, and how many have a primary.
#[derive(Drop)]
pub(crate) struct Tally {
    pub(crate) replicas: [u64; 16],
    pub(crate) primaries: u64,
}

/// One more for each of these members.
fn add_members(counts: &mut [u64; 16], members: Members)
    requires { (server : ℕ) → server < 16 → slice_index counts.old server < 2 ^ 63 }
    ensures { AddsMembers members counts.old counts.new }
{
    for number in 0..16 {
        let server = ServerId::new(number).unwrap();
        if members.contains(server) {
            counts[number as usize] += 1;
        }
    }
}

/// One less for each of these members, all of whom are counted.
fn subtract_members(counts: &mut [u64; 16], members: Members)
    requires { HasMembers members counts.old }
    ensures { AddsMembers members counts.new counts.old }
{
    for number in 0..16 {
        let server = ServerId::new(number).unwrap();
        if members.contains(server) {
            counts[number as usize] -= 1;
        }
    }
}

/// What decides where a chunk counts: the members of its settled view, how many they are, and whether it has a primary.
#[derive(Clone, Copy)]
pub(crate) struct Brief {
    pub(crate) members: Members,
    pub(crate) many: usize,
    pub(crate) is_leased: bool,
}

impl Brief {
    /// That of a lease. A chunk without a settled view has no member.
    pub(crate) fn of(lease: &Lease) -> Brief
        ensures { result ≡ brief_of lease.now }
    {
        match Told::of(lease).settled {
            Some(view) => Brief {
                members: view.members,
                many: view.members.len(),
                is_leased: view.term.is_some(),
            },
            None => Brief {
                members: Members::none(),
                many: 0,
                is_leased: false,
            },
        }
    }

    fn is(&self, other: &Brief) -> bool
        ensures { MatchBool result (self.now ≡ other.now) (self.now ≢ other.now) }
    {
        self.members.bits() == other.members.bits()
            && self.many == other.many
            && self.is_leased == other.is_leased
    }

    /// 1 where there is a primary.
    fn primaries(&self) -> u64
        ensures { result ≡ primaries_of self.now }
    {
        if self.is_leased { 1 } else { 0 }
    }
}

/// That of a lease, if there is one.
pub(crate) fn told_briefly(lease: &Option<Lease>) -> Option<Brief>
    ensures { result ≡ briefs_of lease.now }
{
    match lease {
        Some(lease) => Some(Brief::of(lease)),
        None => None,
    }
}

/// Whether nothing changes.
pub(crate) fn stays(before: &Option<Brief>, after: &Option<Brief>) -> bool
    ensures { MatchBool result (before.now ≡ after.now) (before.now ≢ after.now) }
{
    match (before, after) {
        (Some(before), Some(after)) => before.is(after),
        (None, None) => true,
        _ => false,
    }
}

impl Tally {
    /// A lease more, if there is one.
    fn add(&mut self, brief: &Option<Brief>)
        requires { CanCount self.old }
        ensures { Adds brief.now self.old self.new }
    {
        let Some(brief) = brief else {
            return;
        };
        add_members(&mut self.replicas, brief.members);
        self.primaries += brief.primaries();
    }

    /// A lease less, if there is one. It is counted.
    pub(crate) fn subtract(&mut self, brief: &Option<Brief>)
        requires { HasCounted brief.now self.old }
        ensures { Adds brief.now self.new self.old }
    {
        let Some(brief) = brief else {
            return;
        };
        subtract_members(&mut self.replicas, brief.members);
        self.primaries -= brief.primaries();
    }

    /// A lease in the place of another one, which is counted.
    pub(crate) fn exchange(&mut self, before: &Option<Brief>, after: &Option<Brief>)
        requires room { CanCount self.old }
        requires counted { HasCounted before.now self.old }
        ensures { Exchanges before.now after.now self.old self.new }
    {
        if stays(before, after) {
            return;
        }
        self.subtract(before);
        self.add(after);
    }
}

/// A table has fewer leases than a count can tell.
pub(crate) fn are_few(leases: &Table<Handle, Lease>)
    ensures { length (fin.entries (live nat_cmp leases.now)) < 2 ^ 63 }
{
    let _all = leases.iter();
}
