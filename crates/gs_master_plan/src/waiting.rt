// Calls that wait: which of them a chunk concerns, how they go on, and how they end.
ghost use Rattle.std.specs.Prelude.{◌≡◌, IfOk, None, Some};
ghost use Rattle.std.specs.List.{list_all};
ghost use Rattle.gs_base.specs.Members.{is_member};
ghost use Rattle.gs_lease.specs.Views.{as_view};
ghost use Rattle.gs_lease.specs.declared.view.Purpose.TheVariants as purposes;
ghost use Rattle.gs_master_plan.specs.inner.Planning.{state_of};
ghost use Rattle.gs_master_spec.specs.Beginning.{begin_at, copy_plan, next_stamp, waits_on};
ghost use Rattle.gs_master_state.specs.inner.Plans.{plan_of};
ghost use Rattle.gs_master_spec.specs.Settling.{concerned, is_copied_by, is_quiet_at, source_chunks};
ghost use Rattle.gs_master_spec.specs.State.{end_changes, refusal_plan};
ghost use Rattle.gs_master_spec.specs.Volatile.{is_call, let_go};
ghost use Rattle.gs_master_spec.specs.declared.pending.Waiting.TheVariants as waits;

use crate::standing::Standing;
use crate::view::copy_plan;
use gs_base::{Handle, Refusal, ReqId};
use gs_lease::{Purpose, Quiet};
use gs_master_spec::change::Change;
use gs_master_spec::pending::{Pending, Waiting};
use gs_master_state::plan::Plan;
use gs_path::Path;
use std::alloc::AllocError;

/// Whether a request is this call.
fn is_call(req: ReqId, call: Option<ReqId>) -> bool
    ensures { result ≡ is_call req call }
{
    call == Some(req)
}

/// Whether a chunk is one of these.
fn is_among(chunks: &[Handle], chunk: Handle) -> bool
    ensures { result ≡ is_member chunks.now chunk }
{
    chunks.iter().any(|other| *other == chunk)
}

impl<'a> Standing<'a> {
    /// The chunks that a snapshot copies.
    fn source_chunks(&self, from: &Path) -> Result<Vec<Handle>, AllocError>
        ensures { IfOk result (λ chunks. chunks.items ≡ source_chunks (state_of self.entry.now) from.now) }
    {
        self.recorded
            .names
            .visible_chunks_under(self.recorded.alloc, from)
    }

    /// Whether each of these chunks is quiet.
    pub(crate) fn are_quiet(&self, chunks: &[Handle]) -> bool
        ensures { result ≡ list_all (is_quiet_at (state_of self.entry.now)) chunks.now }
    {
        for chunk in chunks {
            if !self.is_quiet_at(*chunk) {
                return false;
            }
        }
        true
    }

    /// Whether each chunk that a snapshot copies is quiet.
    pub fn is_source_quiet(&self, from: &Path) -> Result<bool, AllocError>
        ensures { IfOk result (λ quiet. quiet ≡ list_all (is_quiet_at (state_of self.entry.now)) (source_chunks (state_of self.entry.now) from.now)) }
    {
        let chunks = self.source_chunks(from)?;
        Ok(self.are_quiet(&chunks))
    }

    /// Whether a call that waits is a snapshot that copies a chunk.
    fn is_copied_by(&self, chunk: Handle, waits: &Waiting) -> Result<bool, AllocError>
        ensures { IfOk result (λ copied. copied ≡ is_copied_by (state_of self.entry.now) chunk waits.now) }
    {
        match waits {
            Waiting::Snapshot { from, .. } => {
                let chunks = self.source_chunks(from)?;
                Ok(is_among(&chunks, chunk))
            },
            _ => Ok(false),
        }
    }

    /// The call that moves a chunk, and each snapshot that copies it, in the order in which they began.
    pub fn concerned(&self, chunk: Handle, call: Option<ReqId>) -> Result<Vec<Pending>, AllocError>
        ensures { IfOk result (λ calls. calls.items ≡ concerned (state_of self.entry.now) chunk call) }
    {
        let alloc = self.recorded.alloc;
        let mut calls = Vec::new(alloc);
        for one in &self.memory.pending {
            if is_call(one.req, call) || self.is_copied_by(chunk, &one.waits)? {
                calls.push(one.copy(alloc)?)?;
            }
        }
        Ok(calls)
    }

    /// A lease of a chunk is asked for, and the call waits for it.
    pub fn lease_plan(
        &self,
        req: ReqId,
        path: Path,
        index: u64,
        chunk: Handle,
    ) -> Result<Plan, AllocError>
        ensures { IfOk result (λ plan. plan_of plan ≡ waits_on (begin_at (state_of self.entry.now) chunk purposes.Lease (Some req)) req (waits.Lease path index chunk)) }
    {
        let begun = self.begin_at(chunk, Purpose::Lease, Some(req))?;
        begun.waits_on(req, Waiting::Lease { path, index, chunk })
    }

    /// The members of a quiet chunk are told to copy it under a new handle, and the call waits for the copy.
    pub fn copying_plan(
        &self,
        req: ReqId,
        path: Path,
        index: u64,
        old: Handle,
        quiet: &Quiet,
        new: Handle,
    ) -> Result<Plan, AllocError>
        ensures { IfOk result (λ plan. plan_of plan ≡ waits_on (copy_plan (next_stamp (state_of self.entry.now).durable) old (as_view quiet.now) new req) req (waits.Copy path index old new)) }
    {
        let stamp = self.recorded.next_stamp();
        let begun = copy_plan(self.recorded.alloc, stamp, old, quiet, new, req)?;
        begun.waits_on(
            req,
            Waiting::Copy {
                path,
                index,
                old,
                new,
            },
        )
    }

    /// A call that waits is refused, and ends.
    pub fn end_refused(&self, req: ReqId, refusal: Refusal) -> Result<Plan, AllocError>
        ensures { IfOk result (λ plan. plan_of plan ≡ refusal_plan (state_of self.entry.now) req refusal (end_changes (state_of self.entry.now) req) None) }
    {
        let changes = self.end_changes(req)?;
        self.refusal_plan(req, refusal, changes, None)
    }

    /// A call that waited ends.
    pub fn end_changes(&self, req: ReqId) -> Result<Vec<Change>, AllocError>
        ensures { IfOk result (λ changes. changes.items ≡ end_changes (state_of self.entry.now) req) }
    {
        let mut changes = self.memory.let_go(req)?;
        changes.push(Change::End(req))?;
        Ok(changes)
    }
}
