ghost use Rattle.std.specs.Prelude.{None};
ghost use Rattle.gs_server.specs.Servers.{ServerSteps, step_of, here_of, place_of};
ghost use Rattle.gs_server.specs.Promises.{copy_out, copy_in};

use crate::sending::Sending;
use crate::server::Server;
use crate::turn::Turn;
use gs_base::{Handle, Moment, Refusal, Refused, ServerId, Stamp};
use gs_msg::{Chunk, NodeId};
use gs_store::CopyImages;

impl Server {
    /// Sends a copy of the live replica to another server, where it is asked for with the sealed image.
    pub(crate) fn copy_out(
        &mut self,
        handle: Handle,
        stamp: Stamp,
        target: ServerId,
        with_sealed: bool,
        moment: Moment,
    ) -> Result<Turn, Refusal>
        ensures { ServerSteps (step_of handle None (copy_out (here_of self.old moment handle None) (place_of handle self.old) stamp target with_sealed) self.old) result self.old self.new }
    {
        if let Err(refusal) = self.store.check_epoch(stamp.epoch) {
            return self.unpromise(handle, stamp, refusal, moment);
        }
        match self.store.copy_out(handle, stamp, with_sealed) {
            Ok(copy) => {
                let CopyImages { image, sealed } = copy;
                let said = Chunk::CopyIn {
                    stamp,
                    image,
                    sealed,
                };
                let mut sent = Vec::new(self.alloc);
                sent.push(self.about(handle, NodeId::Server(target), said))?;
                Ok(Turn { sent, said: None })
            }
            Err(refusal) => self.unpromise(handle, stamp, refusal, moment),
        }
    }

    /// Makes live what a copy carries. Refused, it is gone.
    pub(crate) fn copy_in(
        &mut self,
        handle: Handle,
        stamp: Stamp,
        given: CopyImages,
        moment: Moment,
    ) -> Result<Turn, Refusal>
        ensures { ServerSteps (step_of handle None (copy_in (here_of self.old moment handle None) (place_of handle self.old) stamp given.image given.sealed) self.old) result self.old self.new }
    {
        if let Err(refusal) = self.store.check_epoch(stamp.epoch) {
            drop(given);
            return self.unpromise(handle, stamp, refusal, moment);
        }
        let sent = match Sending::with_room(self.alloc, 1) {
            Ok(sent) => sent,
            Err(error) => {
                drop(given);
                return Err(error.into());
            }
        };
        match self.store.copy_in(handle, stamp, given) {
            Ok(()) => Ok(self.promise(handle, stamp, sent)),
            Err(refused) => {
                let Refused { refusal, given } = refused;
                drop(given);
                drop(sent);
                self.unpromise(handle, stamp, refusal, moment)
            }
        }
    }
}
