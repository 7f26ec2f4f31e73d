ghost use Rattle.std.specs.Prelude.{◌≡◌};
ghost use Rattle.gs_base.specs.Calls.{Follows, Foretells, Refuses, Answers};
ghost use Rattle.gs_store.specs.Serving.{apply, foreseen, edited_in, read, text_length, digest, done_in};

use crate::slot::Slot;
use gs_base::{ClientId, Refusal, ReqId, Stamp};
use gs_block::Digest;
use gs_replica::{Done, Op};

impl Slot {
    /// Applies an edit to the live replica, as `Replica::apply` does. `NoReplica` where none is live. All but `Damaged` are
    /// answered whatever memory there is.
    pub fn apply(
        &mut self,
        stamp: Stamp,
        number: u64,
        req: ReqId,
        op: Op,
        bytes: &[u8],
    ) -> Result<(), Refusal>
        ensures edit { Follows (apply stamp number req op bytes.now self.old) result self.old self.new }
        ensures judged { Refuses (foreseen stamp number req op bytes.now self.old.live) result }
    {
        let Some(live) = &mut self.live else {
            return Err(Refusal::NoReplica);
        };
        live.replica.apply(stamp, number, req, op, bytes)?;
        Ok(())
    }

    /// Judges an edit by the chunk alone, as `Replica::judge` does. `NoReplica` where none is live. It takes no memory.
    pub fn judge(&self, op: Op, bytes: &[u8]) -> Result<(), Refusal>
        ensures { Foretells (edited_in op bytes.now self.now.live) result }
    {
        match &self.live {
            Some(live) => live.replica.judge(op, bytes),
            None => Err(Refusal::NoReplica),
        }
    }

    /// The stored bytes of a range of the live replica, as `Replica::read` gives them. `NoReplica` where none is live, `Old`
    /// where the promise is below the stamp, `Range` past the size of the chunk, and `Damaged` where the replica is bad.
    pub fn read(&self, stamp: Stamp, offset: u64, many: u64) -> Result<&[u8], Refusal>
        ensures { Answers (λ part. part.now) (read stamp offset many self.now) result }
    {
        let Some(live) = &self.live else {
            return Err(Refusal::NoReplica);
        };
        if self.promise.is_before(stamp) {
            return Err(Refusal::Old);
        }
        let capacity = live.replica.capacity();
        let Some(end) = offset.checked_add(many) else {
            return Err(Refusal::Range);
        };
        if capacity < end {
            return Err(Refusal::Range);
        }
        if let Some(block) = live.bad {
            return Err(Refusal::Damaged(block));
        }
        live.replica.read(offset, many)
    }

    /// How many bytes the live replica stores, also where it is bad. `NoReplica` where none is live, and `Old` where the
    /// promise is below the stamp.
    pub fn len(&self, stamp: Stamp) -> Result<u64, Refusal>
        ensures { Answers (λ many. many) (text_length stamp self.now) result }
    {
        let Some(live) = &self.live else {
            return Err(Refusal::NoReplica);
        };
        if self.promise.is_before(stamp) {
            return Err(Refusal::Old);
        }
        Ok(live.replica.len())
    }

    /// The stored digest of a block, whose bytes are verified first; no other block is, so a replica that another block marks as
    /// bad gives it. `NoReplica` where none is live, `Old` where the promise is below the stamp, `Range` where there is no such
    /// block, and `Damaged` where its bytes have another digest. It takes no memory.
    pub fn digest(&self, stamp: Stamp, block: u64) -> Result<Digest, Refusal>
        ensures { Answers (λ digest. digest) (digest stamp block self.now) result }
    {
        let Some(live) = &self.live else {
            return Err(Refusal::NoReplica);
        };
        if self.promise.is_before(stamp) {
            return Err(Refusal::Old);
        }
        live.replica.digest(block)
    }

    /// A client's last request that the live replica has applied.
    pub fn done(&self, client: ClientId) -> Option<Done>
        ensures { result ≡ done_in self.now.live client.0 }
    {
        match &self.live {
            Some(live) => live.replica.done(client),
            None => None,
        }
    }
}
