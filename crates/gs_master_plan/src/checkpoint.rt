// A checkpoint behind the records of an event: when it is due, what it takes, and what it doesn't tell.
ghost use Rattle.std.specs.Prelude.{◌<◌, ◌≡◌, IfOk, is_some, None};
ghost use Rattle.gs_journal.specs.Journal.{last_generation};
ghost use Rattle.gs_master_plan.specs.inner.Planning.{state_of};
ghost use Rattle.gs_master_plan.specs.Renewable.{MakesRenewal, refusal_beforehand};
ghost use Rattle.gs_master_spec.specs.Handling.{awaits_first, checkpoint_tests, due, unlisted, without_place};
ghost use Rattle.gs_master_spec.specs.State.{first_of, is_failed};
ghost use Rattle.gs_master_state.specs.inner.Surveying.{awaiting};

use crate::standing::Standing;
use gs_base::{Handle, Refusal};
use gs_journal::{Disk, Draft, Journal};
use gs_master_record::Entry;
use gs_master_state::known::is_settled;
use gs_master_state::log::{AROUND, Log};
use std::alloc::AllocError;

/// So many records make the next tick write a checkpoint.
const MANY_RECORDS: u64 = 4096;

/// All that a checkpoint takes: its bytes, the journal's room behind it, the chunks of which it doesn't tell, and of the new
/// chunks those that are settled and those that wait still. Once it is made, no memory is wanted.
#[derive(Drop)]
pub struct Renewal {
    pub entry: Entry,
    pub draft: Draft,
    pub log: Log,
    pub unlisted: Vec<Handle>,
    pub placed: Vec<Handle>,
    pub awaiting: Vec<Handle>,
}

impl<'a> Standing<'a> {
    /// Whether so many records stand that the next tick writes a checkpoint.
    pub fn is_due(&self) -> bool
        ensures { result ≡ due (state_of self.entry.now) }
    {
        MANY_RECORDS <= self.log.records && !self.memory.is_preparing()
    }

    /// Why no checkpoint is written, as far as that is known before one is made.
    fn refusal_beforehand(&self) -> Option<Refusal>
        ensures left { result ≡ None → self.entry.now.log.generation < last_generation }
        ensures first { result ≡ refusal_beforehand (state_of self.entry.now) }
    {
        if self.fault.is_failed() {
            return Some(Refusal::Device);
        }
        if self.memory.is_preparing() {
            return Some(Refusal::Preparing);
        }
        if self.log.generation == u64::MAX {
            return Some(Refusal::Exhausted);
        }
        None
    }

    /// Why no checkpoint of this body is written.
    fn checkpoint_refusal(&self, body: &[u8]) -> Option<Refusal>
        ensures left { result ≡ None → self.entry.now.log.generation < last_generation }
        ensures first { result ≡ first_of (checkpoint_tests (is_failed (state_of self.entry.now).fault) (state_of self.entry.now).volatile.is_preparing (state_of self.entry.now).log body.now) }
    {
        if let Some(refusal) = self.refusal_beforehand() {
            return Some(refusal);
        }
        if self.log.limit < body.len() as u64 + AROUND {
            return Some(Refusal::Full);
        }
        None
    }

    /// The chunks of which a checkpoint doesn't tell, and of the new chunks those that are settled and those that wait still.
    fn untold(&self) -> Result<(Vec<Handle>, Vec<Handle>, Vec<Handle>), AllocError>
        ensures unlisted { IfOk result (λ chunks. chunks.0.items ≡ unlisted (state_of self.entry.now).durable) }
        ensures placed { IfOk result (λ chunks. chunks.1.items ≡ without_place (state_of self.entry.now)) }
        ensures awaiting { IfOk result (λ chunks. chunks.2.items ≡ awaiting (state_of self.entry.now)) }
    {
        let unlisted = self.recorded.unlisted()?;
        let placed = self.without_place()?;
        Ok((unlisted, placed, self.awaiting()?))
    }

    /// All that a checkpoint of what stands takes, or why none is written: `Device`, then `Preparing`, then `Exhausted`, whatever memory
    /// there is, and then `Full`. `Memory` may hide `Full` alone, for the room that a checkpoint takes is known once it is made. `Memory` too
    /// where one can't be written down, which is never so of what its records have come to.
    pub fn renewal<D: Disk>(&self, journal: &Journal<D>) -> Result<Renewal, Refusal>
        ensures { MakesRenewal (state_of self.entry.now) journal.now result }
    {
        if let Some(known) = self.refusal_beforehand() {
            return Err(known);
        }
        let alloc = self.recorded.alloc;
        let entry = Entry::Checkpoint(self.recorded.checkpoint()?);
        let encoded = match entry.encode(alloc) {
            Ok(encoded) => encoded,
            Err(_) => {
                drop(entry);
                return Err(Refusal::Memory);
            }
        };
        if let Some(refusal) = self.checkpoint_refusal(encoded.body()) {
            drop(encoded);
            drop(entry);
            return Err(refusal);
        }
        let draft = match journal.draft(alloc, encoded.body()) {
            Ok(draft) => draft,
            Err(_) => {
                drop(encoded);
                drop(entry);
                return Err(Refusal::Memory);
            }
        };
        let log = self.log.anew(encoded.body());
        drop(encoded);
        let Ok((unlisted, placed, awaiting)) = self.untold() else {
            drop(draft);
            drop(entry);
            return Err(Refusal::Memory);
        };
        Ok(Renewal {
            entry,
            draft,
            log,
            unlisted,
            placed,
            awaiting,
        })
    }

    /// The new chunks that were settled and got no place.
    pub fn without_place(&self) -> Result<Vec<Handle>, AllocError>
        ensures { IfOk result (λ chunks. chunks.items ≡ without_place (state_of self.entry.now)) }
    {
        let mut chunks = Vec::new(self.recorded.alloc);
        for chunk in &self.memory.unplaced {
            if self.recorded.is_settled(*chunk) {
                chunks.push(*chunk)?;
            }
        }
        Ok(chunks)
    }

    /// Whether a new chunk waits for its first view.
    fn awaits_first(&self, chunk: Handle) -> bool
        ensures { result ≡ awaits_first (state_of self.entry.now) chunk }
    {
        !self.recorded.is_settled(chunk) && self.memory.asking(chunk).is_some()
    }

    /// The new chunks that wait for their first view.
    pub fn awaiting(&self) -> Result<Vec<Handle>, AllocError>
        ensures { IfOk result (λ chunks. chunks.items ≡ awaiting (state_of self.entry.now)) }
    {
        let mut chunks = Vec::new(self.recorded.alloc);
        for chunk in &self.memory.unplaced {
            if self.awaits_first(*chunk) {
                chunks.push(*chunk)?;
            }
        }
        Ok(chunks)
    }
}
