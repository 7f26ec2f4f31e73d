ghost use Rattle.std.specs.Prelude.{◌≡◌, Some, Ok, IfOk, option_map};
ghost use Rattle.std.specs.Option.{option_copied};
ghost use Rattle.gs_base.specs.Calls.{Follows, FollowsOf, Refuses};
ghost use Rattle.gs_store.specs.Buffers.{pushed};
ghost use Rattle.gs_store.specs.Stores.{push, take_pushed, apply_pushed, foreseen_pushed, restarted};

use crate::store::Store;
use gs_base::{Handle, Refusal, Refused, ReqId, Stamp};
use gs_replica::Op;

impl Store {
    /// Keeps the bytes of a request until an edit uses them, in place of those that it had, as the newest. Of 65 requests the
    /// oldest one's bytes go. Where there is no memory it hands back the bytes.
    pub fn push(&mut self, req: ReqId, bytes: Vec<u8>) -> Result<(), Refused<Vec<u8>>>
        ensures { FollowsOf bytes (Ok (push req bytes.items self.old)) result self.old self.new }
    {
        self.buffer.push(req, bytes)
    }

    /// The bytes that were pushed for a request and that no edit has used.
    pub fn pushed(&self, req: ReqId) -> Option<&[u8]>
        ensures { option_copied result ≡ pushed req self.now.buffer }
    {
        self.buffer.get(req)
    }

    /// Takes the bytes of a request out. It takes no memory.
    pub fn take_pushed(&mut self, req: ReqId) -> Option<Vec<u8>>
        ensures taken { option_map (λ bytes. bytes.items) result ≡ pushed req self.old.buffer }
        ensures without { self.new ≡ take_pushed req self.old }
    {
        self.buffer.take(req)
    }

    /// Applies an edit to a handle's live replica with the bytes that were pushed for its request, as `apply` does, and takes
    /// them out. `NoData` where there are none. Refused, it leaves them. All but `Damaged` are answered whatever memory there
    /// is.
    pub fn apply_pushed(
        &mut self,
        handle: Handle,
        stamp: Stamp,
        number: u64,
        req: ReqId,
        op: Op,
    ) -> Result<Vec<u8>, Refusal>
        ensures edit { Follows (apply_pushed handle stamp number req op self.old) result self.old self.new }
        ensures taken { IfOk result (λ bytes. pushed req self.old.buffer ≡ Some bytes.items) }
        ensures judged { Refuses (foreseen_pushed handle stamp number req op self.old) result }
    {
        let Some(bytes) = self.buffer.get(req) else {
            return Err(Refusal::NoData);
        };
        let Some(place) = self.places.get(handle) else {
            return Err(Refusal::NoReplica);
        };
        if let Err(refusal) = self.slots[*place].apply(stamp, number, req, op, bytes) {
            return Err(refusal);
        }
        Ok(self.buffer.take(req).unwrap())
    }

    /// Drops what a restart of the server drops: the bytes that were pushed. It takes no memory.
    pub fn restart(&mut self)
        ensures { self.new ≡ restarted self.old }
    {
        self.buffer.clear();
    }
}
