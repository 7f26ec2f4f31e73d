// The last request of a client, and what it answered.
ghost use Rattle.std.specs.Prelude.{◌≡◌, ◌++◌, ◌∷◌, []};
ghost use Rattle.gs_fields.specs.Encoding.{number};
ghost use Rattle.gs_fields.specs.Work.{Puts};
ghost use Rattle.gs_store_image.specs.Writable.{IsOutcome};
ghost use Rattle.gs_store_image.specs.Reading.{outcome_of};
ghost use Rattle.gs_store_image.specs.Encoding.{outcome_fields};

use gs_fields::{Cursor, Fault, Field};
use gs_replica::{Done, EditOutcome};
use std::alloc::Global;

/// A client's last applied request, as a field.
#[derive(Clone, Copy, Drop)]
pub(crate) struct DoneField {
    pub(crate) done: Done,
}

/// What a byte and an offset tell.
fn outcome_of(tag: u8, offset: u64) -> Option<EditOutcome>
    ensures { result ≡ outcome_of (tag, offset) }
{
    match tag {
        0 => {
            if offset == 0 {
                Some(EditOutcome::Written)
            } else {
                None
            }
        }
        1 => Some(EditOutcome::Appended(offset)),
        2 => {
            if offset == 0 {
                Some(EditOutcome::Padded)
            } else {
                None
            }
        }
        _ => None,
    }
}

/// The byte and the offset that tell what was answered.
fn fields_of(outcome: EditOutcome) -> (u8, u64)
    ensures { result ≡ outcome_fields outcome }
{
    match outcome {
        EditOutcome::Written => (0, 0),
        EditOutcome::Appended(offset) => (1, offset),
        EditOutcome::Padded => (2, 0),
    }
}

/// Writes at the end what was answered.
fn put_outcome(outcome: EditOutcome, alloc: Global, out: &mut Vec<u8>) -> Result<(), Fault>
    ensures { Puts (IsOutcome outcome) (((outcome_fields outcome).0 ∷ []) ++ number (outcome_fields outcome).1) out.old.items out.new.items result }
{
    let fields = fields_of(outcome);
    out.push(fields.0)?;
    fields.1.put(alloc, out)
}

impl Field for DoneField {
    ghost use Rattle.gs_replica.specs.declared.op.Done.{Done as AnyDone};
    ghost use Rattle.gs_store_image.specs.Encoding.{done};
    ghost use Rattle.gs_store_image.specs.Writable.{IsDone};
    ghost use Rattle.gs_store_image.specs.Reading.{done_at};
    ghost use Rattle.gs_store_image.specs.Laws.{reads_done};

    ghost Plain = { AnyDone };

    ghost plain = { λ d. d.done };

    ghost Is = { IsDone };

    ghost written = { done };

    ghost reading = { done_at };

    #[tactic(auto, unfolding(crate::specs::Reading::done_at))]
    fn read(alloc: Global, cursor: &mut Cursor<'_>) -> Result<DoneField, Fault> {
        let number = u64::read(alloc, cursor)?;
        let tag = u8::read(alloc, cursor)?;
        let offset = u64::read(alloc, cursor)?;
        match outcome_of(tag, offset) {
            Some(outcome) => {
                let done = Done { number, outcome };
                Ok(DoneField { done })
            }
            None => Err(Fault::Form),
        }
    }

    fn put(&self, alloc: Global, out: &mut Vec<u8>) -> Result<(), Fault> {
        self.done.number.put(alloc, out)?;
        put_outcome(self.done.outcome, alloc, out)
    }

    ghost reads = { reads_done };
}
