ghost use Rattle.std.specs.Prelude.{◌≡◌, Err};
ghost use Rattle.gs_base.specs.declared.refusal.Refusal.TheVariants.{Memory};
ghost use Rattle.gs_store.specs.Slots.{count_of};
ghost use Rattle.gs_store.specs.Stores.{slot_of};
ghost use Rattle.gs_server.specs.Places.{count_or_none};
ghost use Rattle.gs_server.specs.Servers.{ServerSteps, store_of};
ghost use Rattle.gs_server.specs.inner.Answering.{declined_by};
ghost use Rattle.gs_server.specs.inner.Applying.{forwarded_of, taken_of};

use crate::applying::{Numbered, apply};
use crate::sending::Sending;
use crate::server::Server;
use crate::turn::Turn;
use gs_base::{Handle, Moment, Refusal, Stamp};
use gs_msg::{Bytes, Chunk, NodeId};
use gs_server_lease::{acknowledgement, count_under};

impl Server {
    /// How many edits the live replica has applied, and 0 where none is live.
    pub(crate) fn count(&self, handle: Handle) -> u64
        ensures { result ≡ count_or_none (count_of (slot_of handle (store_of self.now)).live) }
    {
        self.store.count(handle).unwrap_or(0)
    }

    /// Says that an edit isn't taken. Want of memory is handed on.
    fn decline(
        &mut self,
        handle: Handle,
        from: NodeId,
        stamp: Stamp,
        refusal: Refusal,
    ) -> Result<Turn, Refusal>
        ensures step { ServerSteps (declined_by handle from stamp refusal self.old) result self.old self.new }
        ensures lacking { refusal ≡ Memory → result ≡ Err Memory }
        ensures unchanged { refusal ≡ Memory → self.new ≡ self.old }
    {
        if let Refusal::Memory = refusal {
            return Err(Refusal::Memory);
        }
        let told = refusal.copy(self.alloc)?;
        let declined = Chunk::Nack {
            stamp,
            refusal: told,
        };
        let answer = self.about(handle, from, declined);
        self.refuse(handle, answer, refusal)
    }

    /// Applies the next edit of the live replica.
    fn take_next(
        &mut self,
        handle: Handle,
        from: NodeId,
        edit: Numbered,
        carried: Option<Bytes>,
    ) -> Result<Turn, Refusal>
        ensures { ServerSteps (taken_of handle from edit carried self.old) result self.old self.new }
    {
        let mut sent = Sending::with_room(self.alloc, 1)?;
        match apply(&mut self.store, handle, edit, carried) {
            Ok(()) => {
                sent.put(acknowledgement(self.id, handle, from, edit.stamp, edit.number));
                Ok(Turn {
                    sent: sent.into_messages(),
                    said: None,
                })
            }
            Err(refusal) => self.decline(handle, from, edit.stamp, refusal),
        }
    }

    /// Applies an edit that the primary has numbered, and tells the primary what the live replica has, or why it has it not.
    pub(crate) fn forward(
        &mut self,
        handle: Handle,
        from: NodeId,
        edit: Numbered,
        carried: Option<Bytes>,
        moment: Moment,
    ) -> Result<Turn, Refusal>
        ensures { ServerSteps (forwarded_of handle from edit carried moment self.old) result self.old self.new }
    {
        let (promise, applied) = self.promise_and_count(handle);
        let count = match count_under(edit.stamp, promise, applied) {
            Ok(count) => count,
            Err(refusal) => return self.decline(handle, from, edit.stamp, refusal),
        };
        if edit.number <= count {
            let mut sent = Vec::new(self.alloc);
            sent.push(acknowledgement(self.id, handle, from, edit.stamp, count))?;
            return Ok(Turn { sent, said: None });
        }
        if count + 1 < edit.number {
            return self.decline(handle, from, edit.stamp, Refusal::Gap(count));
        }
        self.take_next(handle, from, edit, carried)
    }
}
