ghost use Rattle.std.specs.Prelude.{◌≡◌, None, Err, Ok};
ghost use Rattle.gs_base.specs.declared.refusal.Refusal.TheVariants.{Memory};
ghost use Rattle.gs_base.specs.Calls.{Makes};
ghost use Rattle.gs_store.specs.Stores.{slot_of};
ghost use Rattle.gs_msg.specs.declared.body.Body.TheVariants.{Bytes as Told};
ghost use Rattle.gs_msg.specs.declared.node.NodeId.TheVariants.{Client};
ghost use Rattle.gs_server_lease.specs.Leases.{tell};
ghost use Rattle.gs_server.specs.Fetches.{fetch, given, refuses};
ghost use Rattle.gs_server.specs.Servers.{ServerSteps, step_of, here_of, place_of, store_of};

use crate::server::Server;
use crate::turn::Turn;
use gs_base::{Handle, Moment, Refusal, ReqId, Stamp};
use gs_msg::{Asked, Body, Bytes, Given, Message, NodeId};
use gs_server_lease::tell;

impl Server {
    fn answer_fetch(&self, req: ReqId, found: Result<Given, Refusal>) -> Message
        ensures { result ≡ tell self.now.me (Client req.client) (Told req found) }
    {
        tell(
            self.id,
            NodeId::Client(req.client),
            Body::Bytes { req, result: found },
        )
    }

    /// What is asked of the live replica, in memory of its own.
    fn given(&self, handle: Handle, stamp: Stamp, asked: Asked) -> Result<Given, Refusal>
        ensures { Makes (given stamp asked (slot_of handle (store_of self.now))) result }
    {
        match asked {
            Asked::Bytes { offset, length } => {
                let part = self.store.read(handle, stamp, offset, length)?;
                let bytes = Vec::from_slice(self.alloc, part)?;
                Ok(Given::Bytes(Bytes::new(bytes)))
            }
            Asked::Length => Ok(Given::Length(self.store.len(handle, stamp)?)),
            Asked::Digest(block) => match self.store.digest(handle, stamp, block) {
                Ok(digest) => Ok(Given::Digest(digest)),
                Err(refusal) => Err(refusal),
            },
        }
    }

    /// Refuses a fetch. Want of memory is handed on.
    fn refuse_fetch(
        &mut self,
        handle: Handle,
        req: ReqId,
        refusal: Refusal,
        moment: Moment,
    ) -> Result<Turn, Refusal>
        ensures step { ServerSteps (step_of handle None (refuses (here_of self.old moment handle None) (place_of handle self.old) req refusal) self.old) result self.old self.new }
        ensures lacking { refusal ≡ Memory → result ≡ Err Memory }
        ensures unchanged { refusal ≡ Memory → self.new ≡ self.old }
    {
        if let Refusal::Memory = refusal {
            return Err(Refusal::Memory);
        }
        let told = refusal.copy(self.alloc)?;
        let answer = self.answer_fetch(req, Err(told));
        self.refuse(handle, answer, refusal)
    }

    /// Gives a client what it asks of a replica.
    pub(crate) fn fetch(
        &mut self,
        handle: Handle,
        req: ReqId,
        stamp: Stamp,
        epoch: u64,
        asked: Asked,
        moment: Moment,
    ) -> Result<Turn, Refusal>
        ensures { ServerSteps (step_of handle None (fetch (here_of self.old moment handle None) (place_of handle self.old) req stamp epoch asked) self.old) result self.old self.new }
    {
        if let Err(refusal) = self.store.check_epoch(epoch) {
            return self.refuse_fetch(handle, req, refusal, moment);
        }
        match self.given(handle, stamp, asked) {
            Ok(given) => {
                let mut sent = Vec::new(self.alloc);
                sent.push(self.answer_fetch(req, Ok(given)))?;
                Ok(Turn { sent, said: None })
            }
            Err(refusal) => self.refuse_fetch(handle, req, refusal, moment),
        }
    }
}
