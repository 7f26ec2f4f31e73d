// What a scan takes out.
ghost use Rattle.std.specs.Prelude.{◌++◌, ◌≡◌, IfOk, List, map, ℕ};
ghost use Rattle.std.specs.Ordering.{nat_cmp};
ghost use Rattle.gs_base.specs.Members.{is_member};
ghost use Rattle.gs_master_plan.specs.inner.Planning.{state_of};
ghost use Rattle.gs_master_record.specs.Plain.{Edited, plain, plain_edit, Remove};
ghost use Rattle.gs_master_state.specs.inner.Plans.{plan_of};
ghost use Rattle.gs_master_spec.specs.Settling.{own_request};
ghost use Rattle.gs_master_state.specs.inner.Surveying.{AreIn};
ghost use Rattle.gs_master_spec.specs.Working.{forget_if, scan_edits, scan_plan, waiting_for, waits_for_any};
ghost use Rattle.gs_base_table.specs.Slots.{live};

use crate::standing::Standing;
use crate::view::own_request;
use gs_base::{Handle, ReqId};
use gs_base_table::Table;
use gs_edit::Edit;
use gs_master_record::Entry;
use gs_master_spec::change::Change;
use gs_master_spec::pending::Waiting;
use gs_master_state::known::chunk_set;
use gs_master_state::plan::Plan;
use gs_msg::Items;
use gs_path::Path;
use std::alloc::{AllocError, Global};

/// An edit of the master's own, as a record.
fn own(edit: Edit) -> Entry
    ensures { plain result ≡ Edited own_request (plain_edit edit) }
{
    let by = own_request();
    Entry::Edit { by, edit }
}

/// The records of the removal of these paths.
fn removals(alloc: Global, removed: Vec<Path>) -> Result<Vec<Entry>, AllocError>
    ensures { IfOk result (λ records. map plain records.items ≡ map (Edited own_request) (map (λ path. Remove path) removed.items)) }
{
    let mut records = Vec::new(alloc);
    for path in removed {
        records.push(own(Edit::Remove(path)))?;
    }
    Ok(records)
}

/// These records, and that of what is forgotten, if anything is.
fn and_forgotten(records: Vec<Entry>, forgotten: Vec<Handle>) -> Result<Vec<Entry>, AllocError>
    ensures { IfOk result (λ all. map plain all.items ≡ map plain records.items ++ map (Edited own_request) (forget_if forgotten.items)) }
{
    let mut records = records;
    if forgotten.is_empty() {
        return Ok(records);
    }
    records.push(own(Edit::Forget(forgotten)))?;
    Ok(records)
}

/// The records of a scan.
fn scan_records(
    alloc: Global,
    removed: Vec<Path>,
    forgotten: Vec<Handle>,
) -> Result<Vec<Entry>, AllocError>
    ensures { IfOk result (λ all. map plain all.items ≡ map (Edited own_request) (scan_edits removed.items forgotten.items)) }
{
    let records = removals(alloc, removed)?;
    and_forgotten(records, forgotten)
}

/// What has been deleted long enough goes, then each chunk without a reference.
pub fn scan_plan(
    alloc: Global,
    removed: Vec<Path>,
    forgotten: Vec<Handle>,
) -> Result<Plan, AllocError>
    ensures { IfOk result (λ plan. plan_of plan ≡ scan_plan removed.items forgotten.items) }
{
    let chunks = Items::new(Vec::from_slice(alloc, &forgotten)?);
    Ok(Plan {
        records: scan_records(alloc, removed, forgotten)?,
        changes: vec![in alloc; Change::Forget(chunks)]?,
        sent: Vec::new(alloc),
        said: None,
    })
}

/// Whether a chunk is one of these.
#[tactic(auto, using(gs_master_state::proofs::ChunkSets::is_in))]
fn is_in(chunks: &Table<Handle, bool>, chunk: Handle) -> bool
    ensures { (listed : List ℕ) → AreIn listed (live nat_cmp chunks.now) → result ≡ is_member listed chunk }
{
    chunks.get(chunk).is_some()
}

/// Whether a call waits for one of these chunks.
fn waits_for_any(chunks: &Table<Handle, bool>, waits: &Waiting) -> bool
    ensures { (listed : List ℕ) → AreIn listed (live nat_cmp chunks.now) → result ≡ waits_for_any listed waits.now }
{
    match waits {
        Waiting::Extend { chunk, .. } => is_in(chunks, *chunk),
        Waiting::Lease { chunk, .. } => is_in(chunks, *chunk),
        Waiting::Quiet { chunk, .. } => is_in(chunks, *chunk),
        Waiting::Replicate { chunk, .. } => is_in(chunks, *chunk),
        Waiting::Copy { old, new, .. } => is_in(chunks, *old) || is_in(chunks, *new),
        Waiting::Snapshot { .. } => false,
    }
}

impl<'a> Standing<'a> {
    /// The calls that wait for one of these chunks.
    pub fn waiting_for(&self, chunks: &[Handle]) -> Result<Vec<ReqId>, AllocError>
        ensures { IfOk result (λ requests. requests.items ≡ waiting_for (state_of self.entry.now) chunks.now) }
    {
        let alloc = self.recorded.alloc;
        let set = chunk_set(alloc, chunks)?;
        let mut requests = Vec::new(alloc);
        for pending in &self.memory.pending {
            if waits_for_any(&set, &pending.waits) {
                requests.push(pending.req)?;
            }
        }
        Ok(requests)
    }
}
