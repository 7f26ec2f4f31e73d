// The leases that a server holds, by handle.
ghost use Rattle.std.specs.Prelude.{◌≡◌, Some, None, OnSome, OnOk, OnErr, IfOk, IfErr};
ghost use Rattle.std.specs.FinMap as fin;
ghost use Rattle.std.specs.Ordering.{nat_cmp};
ghost use Rattle.gs_base_table.specs.Slots.{live, GivesUpRoom, HasRoom};
ghost use Rattle.gs_base.specs.declared.refusal.Refusal.TheVariants.{Memory};
ghost use Rattle.gs_server_lease.specs.Leases.{PrimaryLease, settled, with_told, renews};
ghost use Rattle.gs_server.specs.inner.Spending.{GivesUpEach, over_of, without};

use gs_base::{Handle, Moment, Refusal};
use gs_base_table::Table;
use gs_server_lease::{PrimaryLease, RoomyLease, ToldCounts};
use std::alloc::{AllocError, Global};

/// Spends the lease of a handle, and gives up its room. It takes no memory.
pub(crate) fn spend(leases: &mut Table<Handle, PrimaryLease>, handle: Handle)
    ensures spent { live nat_cmp leases.new ≡ fin.remove (live nat_cmp leases.old) handle }
    ensures room { GivesUpRoom nat_cmp leases.old leases.new handle }
{
    leases.remove(handle);
}

/// The handles whose leases are over at a moment, ascending.
pub(crate) fn over(
    alloc: Global,
    leases: &Table<Handle, PrimaryLease>,
    moment: Moment,
) -> Result<Vec<Handle>, AllocError>
    ensures { IfOk result (λ handles. handles.items ≡ over_of moment (fin.entries (live nat_cmp leases.now))) }
{
    let mut handles = Vec::new(alloc);
    for (handle, lease) in leases.iter() {
        if lease.is_over(moment) {
            handles.push(handle)?;
        }
    }
    Ok(handles)
}

/// Spends the leases of these handles, and gives up their room. It takes no memory.
pub(crate) fn spend_each(leases: &mut Table<Handle, PrimaryLease>, handles: &[Handle])
    ensures spent { live nat_cmp leases.new ≡ without handles.now (live nat_cmp leases.old) }
    ensures room { GivesUpEach leases.old leases.new handles.now }
{
    for handle in handles {
        spend(leases, *handle);
    }
}

/// Takes the lease of a handle out, and leaves its room. It takes no memory.
fn take_out(leases: &mut Table<Handle, PrimaryLease>, handle: Handle) -> Option<PrimaryLease>
    ensures value { result ≡ fin.get (live nat_cmp leases.old) handle }
    ensures taken { OnSome result (live nat_cmp leases.new ≡ fin.remove (live nat_cmp leases.old) handle) }
    ensures room { OnSome result (HasRoom nat_cmp leases.new handle) }
    ensures none { result ≡ None → leases.new ≡ leases.old }
{
    if leases.get(handle).is_none() {
        return None;
    }
    leases.take(handle)
}

/// Takes counts that servers have told of a handle, and gives up each edit that every member has then. It takes no memory.
pub(crate) fn settle(leases: &mut Table<Handle, PrimaryLease>, handle: Handle, told: ToldCounts)
    ensures { (l : PrimaryLease) → fin.get (live nat_cmp leases.old) handle ≡ Some l → live nat_cmp leases.new ≡ fin.insert (live nat_cmp leases.old) handle (settled (with_told told l)) }
{
    if let Some(mut lease) = take_out(leases, handle) {
        lease.settle(told);
        leases.put(handle, lease);
    }
}

/// Gives the lease of a handle the greater end of the two. It takes no memory.
pub(crate) fn renew(leases: &mut Table<Handle, PrimaryLease>, handle: Handle, end: Moment)
    ensures { (l : PrimaryLease) → fin.get (live nat_cmp leases.old) handle ≡ Some l → live nat_cmp leases.new ≡ fin.insert (live nat_cmp leases.old) handle (renews end l) }
{
    if let Some(lease) = take_out(leases, handle) {
        leases.put(handle, lease.renew(end));
    }
}

/// Takes the lease of a handle out, with room for one more edit, and leaves its own room. `NotPrimary` where none is held.
pub(crate) fn take_roomy(
    leases: &mut Table<Handle, PrimaryLease>,
    handle: Handle,
) -> Result<RoomyLease, Refusal>
    ensures value { IfOk result (λ lease. fin.get (live nat_cmp leases.old) handle ≡ Some lease) }
    ensures taken { OnOk result (live nat_cmp leases.new ≡ fin.remove (live nat_cmp leases.old) handle) }
    ensures room { OnOk result (HasRoom nat_cmp leases.new handle) }
    ensures refused { IfErr result (λ refusal. (l : PrimaryLease) → fin.get (live nat_cmp leases.old) handle ≡ Some l → refusal ≡ Memory) }
    ensures same { OnErr result (live nat_cmp leases.new ≡ live nat_cmp leases.old) }
{
    let Some(lease) = take_out(leases, handle) else {
        return Err(Refusal::NotPrimary);
    };
    match lease.with_room() {
        Ok(roomy) => Ok(roomy),
        Err(lease) => {
            leases.put(handle, lease);
            Err(Refusal::Memory)
        }
    }
}
