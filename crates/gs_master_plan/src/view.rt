// Views that are begun, and views that are settled.
ghost use Rattle.std.specs.Prelude.{[], ◌∷◌, ◌≡◌, IfOk, map, Some};
ghost use Rattle.std.specs.Option.{option_to_list};
ghost use Rattle.gs_lease.specs.Views.{as_view};
ghost use Rattle.gs_lease.specs.declared.view.Purpose.TheVariants as purposes;
ghost use Rattle.gs_msg.specs.declared.body.Body.TheVariants as bodies;
ghost use Rattle.gs_msg.specs.declared.chunk.Chunk.TheVariants as chunks;
ghost use Rattle.gs_msg.specs.declared.node.NodeId.TheVariants as nodes;
ghost use Rattle.gs_master_plan.specs.inner.Planning.{state_of};
ghost use Rattle.gs_master_plan.specs.inner.Refusing.{settled_so};
ghost use Rattle.gs_master_record.specs.Plain as entries;
ghost use Rattle.gs_master_record.specs.Plain.{plain};
ghost use Rattle.gs_master_spec.specs.Beginning.{begin_at, begin_plan, copy_plan, create_plan, members_at, next_stamp};
ghost use Rattle.gs_master_spec.specs.Chunks.{asking_for, chunk_at};
ghost use Rattle.gs_master_spec.specs.Hearing.{ask_plan, send_plan};
ghost use Rattle.gs_master_state.specs.inner.Plans.{plan_of};
ghost use Rattle.gs_master_spec.specs.Settling.{grants, own_request, replace_plan};
ghost use Rattle.gs_master_spec.specs.State.{about, post, to_each};
ghost use Rattle.gs_master_spec.specs.Working.{begin_pending};
ghost use Rattle.gs_master_spec.specs.declared.change.Change.TheVariants as changes;

use crate::message::{about, to_each};
use crate::standing::Standing;
use gs_base::{ClientId, Handle, Members, ReqId, ServerId, Stamp};
use gs_edit::Edit;
use gs_lease::{Grant, Purpose, Quiet, View};
use gs_master_guard::sealing::is_holder;
use gs_master_record::Entry;
use gs_master_spec::asking::Asking;
use gs_master_spec::change::Change;
use gs_master_spec::pending::{Pending, Waiting};
use gs_master_state::plan::{Plan, push_change};
use gs_msg::{Body, Chunk, Message};
use gs_path::Path;
use std::alloc::{AllocError, Global};

/// The record of a view that is begun.
fn proposed(alloc: Global, handle: Handle, version: u64) -> Result<Vec<Entry>, AllocError>
    ensures { IfOk result (λ records. map plain records.items ≡ entries.Propose handle version ∷ []) }
{
    Ok(vec![in alloc; Entry::Propose { handle, version }]?)
}

/// A chunk is asked for.
fn asked(alloc: Global, chunk: Handle, asking: &Asking) -> Result<Vec<Change>, AllocError>
    ensures { IfOk result (λ changed. changed.items ≡ changes.Ask chunk asking.now ∷ []) }
{
    Ok(vec![in alloc; Change::Ask(chunk, *asking)]?)
}

/// A chunk is new, and is asked for.
fn entered(
    alloc: Global,
    chunk: Handle,
    targets: Members,
    stamp: Stamp,
    call: ReqId,
) -> Result<Vec<Change>, AllocError>
    ensures { IfOk result (λ changed. changed.items ≡ changes.Enter chunk ∷ changes.Ask chunk (asking_for stamp purposes.Quiet targets (Some call)) ∷ []) }
{
    let asking = Asking::of(stamp, Purpose::Quiet, targets, Some(call));
    let mut changes = asked(alloc, chunk, &asking)?;
    changes.insert(0, Change::Enter(chunk))?;
    Ok(changes)
}

/// The members of a chunk are told to raise their promises.
fn advanced(
    alloc: Global,
    chunk: Handle,
    members: Members,
    stamp: Stamp,
) -> Result<Vec<Message>, AllocError>
    ensures { IfOk result (λ sent. sent.items ≡ to_each members (about chunk (chunks.Advance stamp))) }
{
    let body = Body::About(chunk, Chunk::Advance(stamp));
    let sent = to_each(alloc, members, &body);
    drop(body);
    sent
}

/// The targets of a new chunk are told to make empty replicas.
fn created(
    alloc: Global,
    chunk: Handle,
    targets: Members,
    stamp: Stamp,
) -> Result<Vec<Message>, AllocError>
    ensures { IfOk result (λ sent. sent.items ≡ to_each targets (about chunk (chunks.Create stamp))) }
{
    let body = Body::About(chunk, Chunk::Create(stamp));
    let sent = to_each(alloc, targets, &body);
    drop(body);
    sent
}

/// The members of a chunk are told to copy it under a new handle.
fn copied(
    alloc: Global,
    handle: Handle,
    view: &View,
    new_handle: Handle,
    stamp: Stamp,
) -> Result<Vec<Message>, AllocError>
    ensures { IfOk result (λ sent. sent.items ≡ to_each view.now.members (λ server. post (nodes.Server server) (bodies.MakeCopy handle view.now.stamp new_handle stamp))) }
{
    let body = Body::MakeCopy {
        handle,
        at: view.stamp,
        new_handle,
        stamp,
    };
    let sent = to_each(alloc, view.members, &body);
    drop(body);
    sent
}

/// A view of a settled chunk is begun on its members.
pub fn begin_plan(
    alloc: Global,
    stamp: Stamp,
    chunk: Handle,
    members: Members,
    purpose: Purpose,
    call: Option<ReqId>,
) -> Result<Plan, AllocError>
    ensures { IfOk result (λ plan. plan_of plan ≡ begin_plan stamp chunk members purpose call) }
{
    let asking = Asking::of(stamp, purpose, members, call);
    Ok(Plan {
        records: proposed(alloc, chunk, stamp.version)?,
        changes: asked(alloc, chunk, &asking)?,
        sent: advanced(alloc, chunk, members, stamp)?,
        said: None,
    })
}

/// The first view of a new chunk is begun.
pub fn create_plan(
    alloc: Global,
    stamp: Stamp,
    chunk: Handle,
    targets: Members,
    call: ReqId,
) -> Result<Plan, AllocError>
    ensures { IfOk result (λ plan. plan_of plan ≡ create_plan stamp chunk targets call) }
{
    Ok(Plan {
        records: proposed(alloc, chunk, stamp.version)?,
        changes: entered(alloc, chunk, targets, stamp, call)?,
        sent: created(alloc, chunk, targets, stamp)?,
        said: None,
    })
}

/// A new chunk is made as a copy of a quiet one, where each of its members has it. One that is leased can't be given.
pub fn copy_plan(
    alloc: Global,
    stamp: Stamp,
    old: Handle,
    quiet: &Quiet,
    new: Handle,
    call: ReqId,
) -> Result<Plan, AllocError>
    ensures { IfOk result (λ plan. plan_of plan ≡ copy_plan stamp old (as_view quiet.now) new call) }
{
    let view = quiet.view();
    Ok(Plan {
        records: proposed(alloc, new, stamp.version)?,
        changes: entered(alloc, new, view.members, stamp, call)?,
        sent: copied(alloc, old, &view, new, stamp)?,
        said: None,
    })
}

/// A call begins to wait.
pub fn begin_pending(alloc: Global, req: ReqId, waits: Waiting) -> Result<Plan, AllocError>
    ensures { IfOk result (λ plan. plan_of plan ≡ begin_pending req waits) }
{
    let mut plan = Plan::nothing(alloc);
    push_change(&mut plan.changes, Change::Begin(Pending { req, waits }))?;
    Ok(plan)
}

impl<'a> Standing<'a> {
    /// The members of the settled view of a chunk, if the master knows it and it has one.
    fn members_at(&self, chunk: Handle) -> Members
        ensures { result ≡ members_at (chunk_at (state_of self.entry.now) chunk) }
    {
        match self.chunk_at(chunk) {
            Some(known) => known.members(),
            None => Members::none(),
        }
    }

    /// A view of a chunk is begun on its members.
    pub fn begin_at(
        &self,
        chunk: Handle,
        purpose: Purpose,
        call: Option<ReqId>,
    ) -> Result<Plan, AllocError>
        ensures { IfOk result (λ plan. plan_of plan ≡ begin_at (state_of self.entry.now) chunk purpose call) }
    {
        let members = self.members_at(chunk);
        let stamp = self.recorded.next_stamp();
        begin_plan(self.recorded.alloc, stamp, chunk, members, purpose, call)
    }
}

/// The master's own request, under which it records edits of its own.
pub fn own_request() -> ReqId
    ensures { result ≡ own_request }
{
    ReqId {
        client: ClientId(0),
        number: 0,
    }
}

/// An answer is kept.
pub fn ask_plan(alloc: Global, chunk: Handle, asking: Asking) -> Result<Plan, AllocError>
    ensures { IfOk result (λ plan. plan_of plan ≡ ask_plan chunk asking) }
{
    let mut plan = Plan::nothing(alloc);
    push_change(&mut plan.changes, Change::Ask(chunk, asking))?;
    Ok(plan)
}

/// A member is told to send its copy to the target, with its sealed image or without.
pub fn send_plan(
    alloc: Global,
    chunk: Handle,
    asking: &Asking,
    source: ServerId,
    target: ServerId,
    with_sealed: bool,
) -> Result<Plan, AllocError>
    ensures { IfOk result (λ plan. plan_of plan ≡ send_plan chunk asking.now source target with_sealed) }
{
    let said = Chunk::CopyOut {
        stamp: asking.stamp,
        target,
        with_sealed,
    };
    let sent_for = Asking {
        source: Some(source),
        ..*asking
    };
    let mut plan = ask_plan(alloc, chunk, sent_for)?;
    plan.sent.push(about(chunk, said, source))?;
    Ok(plan)
}

/// A copy takes a chunk's place in a file.
pub fn replace_plan(
    alloc: Global,
    path: Path,
    index: usize,
    old: Handle,
    new: Handle,
) -> Result<Plan, AllocError>
    ensures { IfOk result (λ plan. plan_of plan ≡ replace_plan path index old new) }
{
    let by = own_request();
    let edit = Edit::Cow(path, index, old, new);
    Ok(Plan {
        records: vec![in alloc; Entry::Edit { by, edit }]?,
        changes: vec![in alloc; Change::Place(new)]?,
        sent: Vec::new(alloc),
        said: None,
    })
}

/// The grant of a lease to its primary, if the view has one.
pub fn grant(chunk: Handle, view: &View) -> Option<Message>
    ensures { option_to_list result ≡ grants chunk view.now }
{
    let term = view.term?;
    let grant = Grant {
        stamp: view.stamp,
        members: view.members,
        end: term.end,
    };
    Some(about(chunk, Chunk::Grant(grant), term.primary))
}

/// The same as a list.
fn grants(alloc: Global, chunk: Handle, view: &View) -> Result<Vec<Message>, AllocError>
    ensures { IfOk result (λ sent. sent.items ≡ grants chunk view.now) }
{
    let mut sent = Vec::new(alloc);
    if let Some(message) = grant(chunk, view) {
        sent.push(message)?;
    }
    Ok(sent)
}

impl<'a> Standing<'a> {
    /// A view of a chunk is settled, and its lease goes to its primary.
    pub fn settle_plan(
        &self,
        chunk: Handle,
        asking: &Asking,
        carried: bool,
        view: &View,
    ) -> Result<Plan, AllocError>
        ensures { IfOk result (λ plan. plan_of plan ≡ settled_so (state_of self.entry.now) chunk asking.now carried view.now) }
    {
        let alloc = self.recorded.alloc;
        let prepared = self.recorded.prepared_view(chunk);
        let holds = is_holder(asking, self.recorded.phase, prepared, carried, view);
        Ok(Plan {
            records: asking.settling(alloc, holds, chunk, view)?,
            changes: vec![in alloc; Change::Settled(chunk)]?,
            sent: grants(alloc, chunk, view)?,
            said: None,
        })
    }
}
