ghost use Rattle.std.specs.Prelude.{◌≡◌, None, Ok, Err};
ghost use Rattle.gs_base.specs.declared.refusal.Refusal.TheVariants.{Memory};
ghost use Rattle.gs_server.specs.Servers.{ServerSteps, step_of, here_of, place_of};
ghost use Rattle.gs_server.specs.Promises.{create, advance, drop_replica, unpromised};

use crate::leases::spend;
use crate::sending::Sending;
use crate::server::Server;
use crate::turn::Turn;
use gs_base::{Handle, Moment, Refusal, Stamp};
use gs_msg::{Chunk, NodeId};

impl Server {
    /// Says that a stamp isn't promised. Where the refusal is want of memory nothing is said, and it is handed on.
    pub(crate) fn unpromise(
        &mut self,
        handle: Handle,
        stamp: Stamp,
        refusal: Refusal,
        moment: Moment,
    ) -> Result<Turn, Refusal>
        ensures step { ServerSteps (step_of handle None (unpromised (here_of self.old moment handle None) (place_of handle self.old) stamp refusal) self.old) result self.old self.new }
        ensures lacking { refusal ≡ Memory → result ≡ Err Memory }
        ensures unchanged { refusal ≡ Memory → self.new ≡ self.old }
    {
        if let Refusal::Memory = refusal {
            return Err(Refusal::Memory);
        }
        let told = refusal.copy(self.alloc)?;
        let unpromised = Chunk::Unpromised {
            stamp,
            refusal: told,
        };
        let answer = self.about(handle, NodeId::Master, unpromised);
        self.refuse(handle, answer, refusal)
    }

    /// Makes an empty replica.
    pub(crate) fn create(
        &mut self,
        handle: Handle,
        stamp: Stamp,
        moment: Moment,
    ) -> Result<Turn, Refusal>
        ensures { ServerSteps (step_of handle None (create (here_of self.old moment handle None) (place_of handle self.old) stamp) self.old) result self.old self.new }
    {
        if let Err(refusal) = self.store.check_epoch(stamp.epoch) {
            return self.unpromise(handle, stamp, refusal, moment);
        }
        let sent = Sending::with_room(self.alloc, 1)?;
        match self.store.create(handle, stamp) {
            Ok(()) => Ok(self.promise(handle, stamp, sent)),
            Err(refusal) => self.unpromise(handle, stamp, refusal, moment),
        }
    }

    /// Raises the promise.
    pub(crate) fn advance(
        &mut self,
        handle: Handle,
        stamp: Stamp,
        moment: Moment,
    ) -> Result<Turn, Refusal>
        ensures { ServerSteps (step_of handle None (advance (here_of self.old moment handle None) (place_of handle self.old) stamp) self.old) result self.old self.new }
    {
        if let Err(refusal) = self.store.check_epoch(stamp.epoch) {
            return self.unpromise(handle, stamp, refusal, moment);
        }
        let sent = Sending::with_room(self.alloc, 1)?;
        match self.store.advance(handle, stamp) {
            Ok(()) => Ok(self.promise(handle, stamp, sent)),
            Err(refusal) => self.unpromise(handle, stamp, refusal, moment),
        }
    }

    /// Removes the replica, and any lease with it. Nobody is answered.
    pub(crate) fn drop_replica(
        &mut self,
        handle: Handle,
        epoch: u64,
        promise: Stamp,
        moment: Moment,
    ) -> Turn
        ensures { ServerSteps (step_of handle None (drop_replica (here_of self.old moment handle None) (place_of handle self.old) epoch promise) self.old) (Ok result) self.old self.new }
    {
        if let Err(refusal) = self.store.check_epoch(epoch) {
            return Turn::refused(self.alloc, refusal);
        }
        match self.store.drop_replica(handle, promise) {
            Ok(()) => {
                spend(&mut self.leases, handle);
                Turn::silent(self.alloc)
            }
            Err(refusal) => Turn::refused(self.alloc, refusal),
        }
    }
}
