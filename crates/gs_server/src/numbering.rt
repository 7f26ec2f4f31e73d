ghost use Rattle.std.specs.Prelude.{◌≡◌, true, false, Some, None, IfOk};
ghost use Rattle.std.specs.Option.{option_copied};
ghost use Rattle.std.specs.FinMap as fin;
ghost use Rattle.gs_replica.specs.Edits.{is_old};
ghost use Rattle.gs_replica.specs.declared.op.EditOutcome.TheVariants.{Padded};
ghost use Rattle.gs_store.specs.Buffers.{pushed};
ghost use Rattle.gs_store.specs.Serving.{done_in, length_in};
ghost use Rattle.gs_store.specs.Stores.{slot_of};
ghost use Rattle.gs_store.specs.Whole.{LiveUnder};
ghost use Rattle.gs_server_lease.specs.Leases.{PrimaryLease};
ghost use Rattle.gs_server.specs.Edits.{bytes_of, unless_numbered};
ghost use Rattle.gs_server.specs.Servers.{ServerSteps, here_of, place_of, store_of};
ghost use Rattle.gs_server.specs.inner.Answering.{repeated_by};
ghost use Rattle.gs_server.specs.inner.Numbering.{told_of, numbered_by, refused_at_last, new_edit_of, NumbersIfReady};

use crate::applying::{Numbered, apply_buffered};
use crate::leases::take_roomy;
use crate::server::Server;
use crate::turn::Turn;
use gs_base::{Handle, Moment, Refusal, ReqId, Stamp};
use gs_msg::{Bytes, Message, Op};
use gs_replica::EditOutcome;
use gs_server_lease::{Open, is_passed, is_too_long, numbered_op, outcome_at};
use std::alloc::AllocError;

/// An edit that a client asks for.
#[derive(Clone, Copy)]
pub(crate) struct NewEdit {
    pub(crate) req: ReqId,
    pub(crate) stamp: Stamp,
    pub(crate) op: Op,
}

impl Server {
    /// The bytes of an edit among those that were pushed. A pad has none of its own, and wants none.
    fn bytes_for(&self, req: ReqId, op: Op) -> Option<&[u8]>
        ensures { option_copied result ≡ bytes_of op None (pushed req self.entry.now.dropped.buffer) }
    {
        if let Op::Pad = op {
            return Some(&[]);
        }
        let bytes = self.store.pushed(req)?;
        if bytes.len() as u64 == op.length() {
            Some(bytes)
        } else {
            None
        }
    }

    /// How an edit that wasn't heard before is refused before anything is asked of the replica's bytes, where a chunk has this
    /// size.
    fn unless_numbered(
        &self,
        chunk: u64,
        handle: Handle,
        edit: NewEdit,
        moment: Moment,
    ) -> Option<Refusal>
        requires { chunk ≡ self.now.chunk }
        ensures { result ≡ unless_numbered (here_of self.now moment handle (Some edit.req)) (place_of handle self.now) edit.stamp edit.op }
    {
        let (promise, count) = self.promise_and_count(handle);
        if count.is_none() {
            return Some(Refusal::NoReplica);
        }
        let Some(lease) = self.leases.get(handle) else {
            return Some(Refusal::NotPrimary);
        };
        if edit.stamp != lease.stamp() || lease.stamp() != promise {
            return Some(Refusal::Stamp(promise));
        }
        if lease.is_over(moment) {
            return Some(Refusal::LeaseOver);
        }
        if self.bytes_for(edit.req, edit.op).is_none() {
            return Some(Refusal::NoData);
        }
        if is_too_long(chunk, edit.op) {
            return Some(Refusal::TooLong);
        }
        None
    }

    /// How an edit is refused for which no number is left.
    fn refusal_at_last(&self, handle: Handle, req: ReqId, op: Op) -> Refusal
        ensures { result ≡ refused_at_last op (slot_of handle (store_of self.now)).live (bytes_of op None (pushed req self.now.dropped.buffer)) }
    {
        let Some(bytes) = self.bytes_for(req, op) else {
            return Refusal::NoData;
        };
        match self.store.judge(handle, op.in_replica(), bytes) {
            Ok(()) => Refusal::Exhausted,
            Err(refusal) => refusal,
        }
    }

    /// A live replica stands under the promise. A caller whose proof asks this calls it; it changes nothing.
    fn check_promise(&self, handle: Handle)
        ensures { LiveUnder (slot_of handle (store_of self.now)).promise (slot_of handle (store_of self.now)).live }
    {
        if let Some(slot) = self.store.slot(handle) {
            slot.whole();
        }
    }

    /// A full chunk is passed without an edit.
    fn pass(&self, req: ReqId) -> Result<Turn, Refusal>
        ensures { ServerSteps (repeated_by req Padded true self.now) result self.now self.now }
    {
        let mut sent = Vec::new(self.alloc);
        sent.push(self.answer_edit(req, Ok(EditOutcome::Padded)))?;
        Ok(Turn { sent, said: None })
    }

    /// How many bytes the live replica stores, and 0 where none is live.
    fn stored(&self, handle: Handle) -> u64
        ensures { result ≡ length_in (slot_of handle (store_of self.now)).live }
    {
        match self.store.slot(handle) {
            Some(slot) => match slot.live() {
                Some(live) => live.replica().len(),
                None => 0,
            },
            None => 0,
        }
    }

    /// What is told of an edit where it is numbered: the other members get it, and its client hears of it where there are none.
    fn numbering_told(
        &self,
        handle: Handle,
        number: u64,
        edit: &Open,
    ) -> Result<Vec<Message>, AllocError>
        ensures { IfOk result (λ sent. (l : PrimaryLease) → fin.get self.now.dropped.leases handle ≡ Some l → sent.items ≡ told_of self.now.me handle l number edit.now) }
    {
        let mut sent = Vec::new(self.alloc);
        let Some(lease) = self.leases.get(handle) else {
            return Ok(sent);
        };
        lease.forwards(self.id, handle, number, edit, &mut sent)?;
        lease.done_at_once(self.id, number, edit, &mut sent)?;
        Ok(sent)
    }

    /// Numbers an edit: it is applied with the bytes that were pushed for it, waits for the other members, and is told. What it
    /// wants of memory is there before anything changes.
    fn number(&mut self, handle: Handle, edit: Numbered) -> Result<Turn, Refusal>
        ensures { (l : PrimaryLease) → fin.get self.old.dropped.leases handle ≡ Some l → ServerSteps (numbered_by handle l edit self.old) result self.old self.new }
    {
        let Numbered {
            number,
            req,
            op,
            ..
        } = edit;
        let outcome = outcome_at(self.stored(handle), op);
        let mut open = Open {
            req,
            op,
            bytes: Bytes::new(Vec::new(self.alloc)),
            outcome,
        };
        let sent = self.numbering_told(handle, number, &open)?;
        let lease = take_roomy(&mut self.leases, handle)?;
        match apply_buffered(&mut self.store, self.alloc, handle, edit) {
            Ok(bytes) => {
                open.bytes = bytes;
                self.leases.put(handle, lease.open(self.id, number, open));
                Ok(Turn { sent, said: None })
            }
            Err(refusal) => {
                self.leases.put(handle, lease.into_lease());
                self.refuse_edit(handle, req, refusal)
            }
        }
    }

    /// Numbers an edit next, which stands under the lease that is held and is no pad of a full chunk. `Exhausted` where no number
    /// is left, behind what the replica refuses.
    fn number_next(&mut self, handle: Handle, edit: NewEdit) -> Result<Turn, Refusal>
        ensures { NumbersIfReady handle edit result self.old self.new }
    {
        let NewEdit { req, stamp, op } = edit;
        let Some(number) = self.count(handle).checked_add(1) else {
            self.check_promise(handle);
            let refusal = self.refusal_at_last(handle, req, op);
            return self.refuse_edit(handle, req, refusal);
        };
        let numbered = Numbered {
            stamp,
            number,
            req,
            op,
        };
        self.number(handle, numbered)
    }

    /// Numbers an edit that wasn't heard before, where a chunk has this size. Refused, that is kept for its client.
    pub(crate) fn new_edit(
        &mut self,
        chunk: u64,
        handle: Handle,
        edit: NewEdit,
        moment: Moment,
    ) -> Result<Turn, Refusal>
        requires chunk { chunk ≡ self.old.chunk }
        requires above { is_old edit.req.number (done_in (slot_of handle (store_of self.old)).live edit.req.client.0) ≡ false }
        ensures { ServerSteps (new_edit_of handle edit moment self.old) result self.old self.new }
    {
        if let Some(refusal) = self.unless_numbered(chunk, handle, edit, moment) {
            return self.refuse_edit(handle, edit.req, refusal);
        }
        let stored = self.stored(handle);
        if is_passed(chunk, stored, edit.op) {
            return self.pass(edit.req);
        }
        let op = numbered_op(chunk, stored, edit.op);
        self.number_next(handle, NewEdit { op, ..edit })
    }
}
