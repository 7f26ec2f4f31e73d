// An edit that a message tells, applied to a live replica.
ghost use Rattle.std.specs.Prelude.{◌≡◌, ◌≢◌, ℕ, List, Option, Some, None, IfOk};
ghost use Rattle.gs_msg.specs.declared.op.Op.TheVariants.{Pad};
ghost use Rattle.gs_base.specs.Calls.{Follows};
ghost use Rattle.gs_store.specs.Buffers.{pushed};
ghost use Rattle.gs_server.specs.Edits.{bytes_of};
ghost use Rattle.gs_server.specs.inner.Applying.{applied_of};

use gs_base::{Handle, Refusal, ReqId, Stamp};
use gs_msg::{Bytes, Op};
use gs_store::Store;
use std::alloc::Global;

/// An edit with its number.
#[derive(Clone, Copy)]
pub(crate) struct Numbered {
    pub(crate) stamp: Stamp,
    pub(crate) number: u64,
    pub(crate) req: ReqId,
    pub(crate) op: Op,
}

/// Applies an edit with the bytes that it carries, or else with those that were pushed for its request, which leave the buffer.
/// `NoData` where there are none, or not as many as it says.
pub(crate) fn apply(
    store: &mut Store,
    handle: Handle,
    edit: Numbered,
    carried: Option<Bytes>,
) -> Result<(), Refusal>
    ensures { Follows (applied_of handle edit carried store.old) result store.old store.new }
{
    if let Op::Pad = edit.op {
        return apply_pad(store, handle, edit);
    }
    match carried {
        Some(bytes) => apply_carried(store, handle, edit, &bytes),
        None => match apply_pushed(store, handle, edit) {
            Ok(_) => Ok(()),
            Err(refusal) => Err(refusal),
        },
    }
}

/// Applies an edit with the bytes that were pushed for its request, and gives them: they leave the buffer. `NoData` where there
/// are none, or not as many as it says.
pub(crate) fn apply_buffered(
    store: &mut Store,
    alloc: Global,
    handle: Handle,
    edit: Numbered,
) -> Result<Bytes, Refusal>
    ensures edit { Follows (applied_of handle edit None store.old) result store.old store.new }
    ensures bytes { IfOk result (λ bytes. bytes_of edit.op None (pushed edit.req store.old.buffer) ≡ Some bytes) }
{
    if let Op::Pad = edit.op {
        return match apply_pad(store, handle, edit) {
            Ok(()) => Ok(Bytes::new(Vec::new(alloc))),
            Err(refusal) => Err(refusal),
        };
    }
    apply_pushed(store, handle, edit)
}

fn apply_pad(store: &mut Store, handle: Handle, edit: Numbered) -> Result<(), Refusal>
    requires { edit.op ≡ Pad }
    ensures { (carried : Option (List ℕ)) → Follows (applied_of handle edit carried store.old) result store.old store.new }
{
    store.apply(
        handle,
        edit.stamp,
        edit.number,
        edit.req,
        edit.op.in_replica(),
        &[],
    )
}

fn apply_carried(
    store: &mut Store,
    handle: Handle,
    edit: Numbered,
    bytes: &Bytes,
) -> Result<(), Refusal>
    requires { edit.op ≢ Pad }
    ensures { Follows (applied_of handle edit (Some bytes.now) store.old) result store.old store.new }
{
    if bytes.as_slice().len() as u64 != edit.op.length() {
        return Err(Refusal::NoData);
    }
    let op = edit.op.in_replica();
    match store.apply(
        handle,
        edit.stamp,
        edit.number,
        edit.req,
        op,
        bytes.as_slice(),
    ) {
        Ok(()) => {
            store.take_pushed(edit.req);
            Ok(())
        }
        Err(refusal) => Err(refusal),
    }
}

fn apply_pushed(store: &mut Store, handle: Handle, edit: Numbered) -> Result<Bytes, Refusal>
    requires { edit.op ≢ Pad }
    ensures edit { Follows (applied_of handle edit None store.old) result store.old store.new }
    ensures bytes { IfOk result (λ bytes. bytes_of edit.op None (pushed edit.req store.old.buffer) ≡ Some bytes) }
{
    let Some(bytes) = store.pushed(edit.req) else {
        return Err(Refusal::NoData);
    };
    if bytes.len() as u64 != edit.op.length() {
        return Err(Refusal::NoData);
    }
    let op = edit.op.in_replica();
    match store.apply_pushed(handle, edit.stamp, edit.number, edit.req, op) {
        Ok(bytes) => Ok(Bytes::new(bytes)),
        Err(refusal) => Err(refusal),
    }
}
