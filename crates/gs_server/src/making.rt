ghost use Rattle.std.specs.Prelude.{◌≡◌, Err};
ghost use Rattle.gs_base.specs.declared.refusal.Refusal.TheVariants.{Memory};
ghost use Rattle.gs_server.specs.Servers.{ServerSteps, make_copy};
ghost use Rattle.gs_server.specs.inner.Answering.{not_copied_by};

use crate::sending::Sending;
use crate::server::Server;
use crate::turn::Turn;
use gs_base::{Handle, Moment, Refusal, Stamp};
use gs_msg::{Chunk, NodeId};

impl Server {
    /// Says that no copy is made under a new handle. A damaged block is one of the old handle. Want of memory is handed on.
    fn refuse_copy(
        &mut self,
        handle: Handle,
        new_handle: Handle,
        stamp: Stamp,
        refusal: Refusal,
    ) -> Result<Turn, Refusal>
        ensures step { ServerSteps (not_copied_by handle new_handle stamp refusal self.old) result self.old self.new }
        ensures lacking { refusal ≡ Memory → result ≡ Err Memory }
        ensures unchanged { refusal ≡ Memory → self.new ≡ self.old }
    {
        if let Refusal::Memory = refusal {
            return Err(Refusal::Memory);
        }
        let told = refusal.copy(self.alloc)?;
        let unpromised = Chunk::Unpromised {
            stamp,
            refusal: told,
        };
        let answer = self.about(new_handle, NodeId::Master, unpromised);
        self.refuse(handle, answer, refusal)
    }

    /// Makes a copy of a replica under a new handle.
    pub(crate) fn make_copy(
        &mut self,
        handle: Handle,
        at: Stamp,
        new_handle: Handle,
        stamp: Stamp,
        moment: Moment,
    ) -> Result<Turn, Refusal>
        ensures { ServerSteps (make_copy self.old handle at new_handle stamp moment) result self.old self.new }
    {
        if let Err(refusal) = self.store.check_epoch(stamp.epoch) {
            return self.refuse_copy(handle, new_handle, stamp, refusal);
        }
        let sent = Sending::with_room(self.alloc, 1)?;
        match self.store.make_copy(handle, at, new_handle, stamp) {
            Ok(()) => Ok(self.promise(new_handle, stamp, sent)),
            Err(refusal) => self.refuse_copy(handle, new_handle, stamp, refusal),
        }
    }
}
