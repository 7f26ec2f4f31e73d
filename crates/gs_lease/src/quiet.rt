ghost use Rattle.std.specs.Prelude.{◌≡◌, IfOk, MatchOption, MatchResult};
ghost use Rattle.std.specs.Ordering.{nat_cmp};
ghost use Rattle.gs_base_table.specs.Slots.{live};
ghost use Rattle.gs_lease.specs.Chunks.{is_quiet, IsAllQuiet, IsLowestNotQuiet, RefusedFor};

use crate::lease::Lease;
use gs_base::{Handle, Refusal};
use gs_base_table::Table;
use std::marker::Model;
use std::snapshot::Snapshot;

/// A table of which every chunk is quiet. It is seen as what lives in that table, and holds no copy of it.
#[derive(Drop)]
pub struct AllQuiet {
    of: Snapshot<Table<Handle, Lease>>,
}

impl Model for AllQuiet {
    ghost use Rattle.std.specs.Ordering.{nat_cmp};
    ghost use Rattle.std.specs.FinMap as fin;
    ghost use Rattle.std.specs.Coded.{coded_ℕ};
    ghost use Rattle.gs_base_table.specs.Slots.{live};
    ghost use Rattle.gs_lease.specs.declared.lease.Lease.{Lease as AnyLease};
    ghost use Rattle.gs_lease.specs.Chunks.{IsAllQuiet};
    ghost use Rattle.gs_lease.specs.contracts.lease.Lease as lease_code;

    ghost Value = { fin.FinMap nat_cmp AnyLease };

    ghost coded = { fin.code coded_ℕ lease_code.the_row.coded };

    ghost view = { λ a. live nat_cmp a.of.value };

    ghost invariant = { λ a. IsAllQuiet (live nat_cmp a.of.value) };
}

impl AllQuiet {
    /// The table, if every chunk of it is quiet. `NotQuiet` with the lowest that isn't. It takes no memory.
    pub fn of(table: &Table<Handle, Lease>) -> Result<AllQuiet, Refusal>
        ensures same { IfOk result (λ quiet. quiet ≡ live nat_cmp table.now) }
        ensures quiet { MatchResult result (λ _. IsAllQuiet (live nat_cmp table.now)) (RefusedFor (live nat_cmp table.now)) }
    {
        match first_not_quiet(table) {
            Some(handle) => Err(Refusal::NotQuiet(handle)),
            None => Ok(AllQuiet {
                of: Snapshot::of(table),
            }),
        }
    }

    /// That every chunk is quiet.
    pub fn tell(&self)
        ensures { IsAllQuiet self.now }
    {
        let _of = &self.of;
    }
}

fn first_not_quiet(table: &Table<Handle, Lease>) -> Option<Handle>
    ensures { MatchOption result (IsAllQuiet (live nat_cmp table.now)) (IsLowestNotQuiet (live nat_cmp table.now)) }
{
    for (handle, lease) in table.iter() {
        if !is_quiet(lease) {
            return Some(handle);
        }
    }
    None
}

fn is_quiet(lease: &Lease) -> bool
    ensures { result ≡ is_quiet lease.now }
{
    matches!(lease, Lease::Quiet(_))
}
