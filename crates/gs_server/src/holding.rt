ghost use Rattle.std.specs.Prelude.{◌≡◌, None, Ok};
ghost use Rattle.std.specs.FinMap as fin;
ghost use Rattle.gs_base.specs.Calls.{Judges};
ghost use Rattle.gs_store.specs.Stores.{slot_of};
ghost use Rattle.gs_server.specs.Servers.{ServerSteps, step_of, here_of, place_of, store_of};
ghost use Rattle.gs_server.specs.Holding.{grant, renewed, ack, nack, is_held, unless_leased, wants_bytes};

use crate::leases::{renew, settle};
use crate::server::Server;
use crate::turn::Turn;
use gs_base::{Handle, Moment, Refusal, ServerId, Stamp};
use gs_lease::Grant;
use gs_server_lease::PrimaryLease;

impl Server {
    fn is_held(&self, handle: Handle, stamp: Stamp) -> bool
        ensures { result ≡ is_held stamp (fin.get self.now.dropped.leases handle) }
    {
        match self.leases.get(handle) {
            Some(lease) => lease.stamp() == stamp,
            None => false,
        }
    }

    /// `NotPrimary` where no lease of the handle is held, and `Stamp` with the promise where it is of another stamp.
    fn check_lease(&self, handle: Handle, stamp: Stamp) -> Result<(), Refusal>
        ensures { Judges (unless_leased stamp (slot_of handle (store_of self.now)) (fin.get self.now.dropped.leases handle)) result }
    {
        let Some(lease) = self.leases.get(handle) else {
            return Err(Refusal::NotPrimary);
        };
        if stamp != lease.stamp() {
            return Err(Refusal::Stamp(self.store.promised(handle)));
        }
        Ok(())
    }

    /// Takes a lease. One that is held stays as it is, and one that is spent is never taken again.
    pub(crate) fn grant(
        &mut self,
        handle: Handle,
        given: Grant,
        moment: Moment,
    ) -> Result<Turn, Refusal>
        ensures { ServerSteps (step_of handle None (grant (here_of self.old moment handle None) (place_of handle self.old) given) self.old) result self.old self.new }
    {
        let stamp = given.stamp;
        if let Err(refusal) = self.store.check_epoch(stamp.epoch) {
            return Ok(Turn::refused(self.alloc, refusal));
        }
        if let Err(refusal) = self.store.check_grant(handle, stamp) {
            return Ok(Turn::refused(self.alloc, refusal));
        }
        if self.is_held(handle, stamp) {
            return Ok(Turn::silent(self.alloc));
        }
        if self.store.is_taken(handle, stamp) {
            return Ok(Turn::refused(self.alloc, Refusal::Old));
        }
        self.leases.reserve(handle)?;
        if let Err(refusal) = self.store.take_lease(handle, stamp) {
            return Ok(Turn::refused(self.alloc, refusal));
        }
        self.leases
            .put(handle, PrimaryLease::granted(self.alloc, given));
        Ok(Turn::silent(self.alloc))
    }

    /// Gives a lease the greater end.
    pub(crate) fn renewed(&mut self, handle: Handle, stamp: Stamp, end: Moment) -> Turn
        ensures { ServerSteps (step_of handle None (renewed (place_of handle self.old) stamp end) self.old) (Ok result) self.old self.new }
    {
        if let Err(refusal) = self.check_lease(handle, stamp) {
            return Turn::refused(self.alloc, refusal);
        }
        renew(&mut self.leases, handle, end);
        Turn::silent(self.alloc)
    }

    /// A member tells its count, and each client is told whose edit every member has now.
    pub(crate) fn ack(
        &mut self,
        handle: Handle,
        server: ServerId,
        stamp: Stamp,
        count: u64,
        moment: Moment,
    ) -> Result<Turn, Refusal>
        ensures { ServerSteps (step_of handle None (ack (here_of self.old moment handle None) (place_of handle self.old) server stamp count) self.old) result self.old self.new }
    {
        if let Err(refusal) = self.check_lease(handle, stamp) {
            return Ok(Turn::refused(self.alloc, refusal));
        }
        let mut sent = Vec::new(self.alloc);
        if let Some(lease) = self.leases.get(handle) {
            let told = lease.told_with(server, count);
            lease.dones(self.id, told, &mut sent)?;
            settle(&mut self.leases, handle, told);
        }
        Ok(Turn { sent, said: None })
    }

    /// A member that hasn't the bytes of an edit gets them.
    pub(crate) fn nack(
        &mut self,
        handle: Handle,
        server: ServerId,
        stamp: Stamp,
        refusal: &Refusal,
        moment: Moment,
    ) -> Result<Turn, Refusal>
        ensures { ServerSteps (step_of handle None (nack (here_of self.old moment handle None) (place_of handle self.old) server stamp refusal.now) self.old) result self.old self.new }
    {
        if let Err(refusal) = self.check_lease(handle, stamp) {
            return Ok(Turn::refused(self.alloc, refusal));
        }
        let mut sent = Vec::new(self.alloc);
        if wants_bytes(refusal) {
            if let Some(lease) = self.leases.get(handle) {
                lease.supply(self.alloc, self.id, handle, server, &mut sent)?;
            }
        }
        Ok(Turn { sent, said: None })
    }
}

fn wants_bytes(refusal: &Refusal) -> bool
    ensures { result ≡ wants_bytes refusal.now }
{
    match refusal {
        Refusal::NoData => true,
        _ => false,
    }
}
