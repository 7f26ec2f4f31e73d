// The small parts of a checkpoint.
use crate::checkpoint::{KeptOutcome, Phase, PreparedView, Reference, Reply, SettledEntry};
use crate::entry::SettledView;
use crate::fault::Fault;
use crate::field::{Cursor, Field};
use crate::ids::{put_text, read_text};
use gs_base::{EpochEnd, Handle, Members, Refusal, ReqId};
use std::alloc::Global;

impl Field for Phase {
    ghost use Rattle.std.specs.Prelude.{⊤};
    ghost use Rattle.gs_master_record.specs.declared.checkpoint.Phase.{Phase as AnyPhase};
    ghost use Rattle.gs_master_record.specs.Encoding.{phase};
    ghost use Rattle.gs_master_record.specs.inner.Reading.{phase_at};

    ghost Plain = { AnyPhase };

    ghost plain = { λ p. p };

    ghost Is = { λ p. ⊤ };

    ghost written = { phase };

    ghost reading = { phase_at };

    #[tactic(auto, unfolding(crate::specs::inner::Reading::phase_at))]
    fn read(alloc: Global, cursor: &mut Cursor<'_>) -> Result<Phase, Fault> {
        match u8::read(alloc, cursor)? {
            0 => Ok(Phase::Ordinary),
            2 => Ok(Phase::Upgrade),
            3 => Ok(Phase::Rolling),
            _ => Err(Fault::Form),
        }
    }

    fn put(&self, _alloc: Global, out: &mut Vec<u8>) -> Result<(), Fault> {
        let number = match self {
            Phase::Ordinary => 0,
            Phase::Upgrade => 2,
            Phase::Rolling => 3,
        };
        out.push(number)?;
        Ok(())
    }
}

impl Field for EpochEnd {
    ghost use Rattle.std.specs.Prelude.{⊤};
    ghost use Rattle.gs_base.specs.declared.epoch.EpochEnd.{EpochEnd as AnyEnd};
    ghost use Rattle.gs_master_record.specs.Encoding.{epoch_end};
    ghost use Rattle.gs_master_record.specs.inner.Reading.{end_at};

    ghost Plain = { AnyEnd };

    ghost plain = { λ e. e };

    ghost Is = { λ e. ⊤ };

    ghost written = { epoch_end };

    ghost reading = { end_at };

    #[tactic(auto, unfolding(crate::specs::inner::Reading::end_at))]
    fn read(alloc: Global, cursor: &mut Cursor<'_>) -> Result<EpochEnd, Fault> {
        match u8::read(alloc, cursor)? {
            1 => Ok(EpochEnd::Prepare),
            2 => Ok(EpochEnd::Finalize),
            3 => Ok(EpochEnd::Rollback),
            _ => Err(Fault::Form),
        }
    }

    fn put(&self, _alloc: Global, out: &mut Vec<u8>) -> Result<(), Fault> {
        let number = match self {
            EpochEnd::Prepare => 1,
            EpochEnd::Finalize => 2,
            EpochEnd::Rollback => 3,
        };
        out.push(number)?;
        Ok(())
    }
}

impl Field for bool {
    ghost use Rattle.std.specs.Prelude.{⊤, Bool};
    ghost use Rattle.gs_master_record.specs.Encoding.{flag};
    ghost use Rattle.gs_master_record.specs.inner.Reading.{flag_at};

    ghost Plain = { Bool };

    ghost plain = { λ b. b };

    ghost Is = { λ b. ⊤ };

    ghost written = { flag };

    ghost reading = { flag_at };

    #[tactic(auto, unfolding(crate::specs::inner::Reading::flag_at))]
    fn read(alloc: Global, cursor: &mut Cursor<'_>) -> Result<bool, Fault> {
        match u8::read(alloc, cursor)? {
            0 => Ok(false),
            1 => Ok(true),
            _ => Err(Fault::Form),
        }
    }

    fn put(&self, _alloc: Global, out: &mut Vec<u8>) -> Result<(), Fault> {
        let number = if *self { 1 } else { 0 };
        out.push(number)?;
        Ok(())
    }
}

impl Field for Reference {
    ghost use Rattle.gs_master_record.specs.declared.checkpoint.Reference.{Reference as AnyReference};
    ghost use Rattle.gs_master_record.specs.Encoding.{reference};
    ghost use Rattle.gs_master_record.specs.Writable.{IsReference};
    ghost use Rattle.gs_master_record.specs.inner.Reading.{reference_at};

    ghost Plain = { AnyReference };

    ghost plain = { λ r. r };

    ghost Is = { IsReference };

    ghost written = { reference };

    ghost reading = { reference_at };

    #[tactic(auto, unfolding(crate::specs::inner::Reading::reference_at))]
    fn read(alloc: Global, cursor: &mut Cursor<'_>) -> Result<Reference, Fault> {
        let handle = Handle::read(alloc, cursor)?;
        let count = u32::read(alloc, cursor)?;
        Ok(Reference { handle, count })
    }

    fn put(&self, alloc: Global, out: &mut Vec<u8>) -> Result<(), Fault> {
        self.handle.put(alloc, out)?;
        self.count.put(alloc, out)
    }
}

impl Field for SettledEntry {
    ghost use Rattle.gs_master_record.specs.declared.checkpoint.SettledEntry.{SettledEntry as AnySettledEntry};
    ghost use Rattle.gs_master_record.specs.Encoding.{settled_entry};
    ghost use Rattle.gs_master_record.specs.Writable.{IsSettledEntry};
    ghost use Rattle.gs_master_record.specs.inner.Reading.{settled_entry_at};

    ghost Plain = { AnySettledEntry };

    ghost plain = { λ s. s };

    ghost Is = { IsSettledEntry };

    ghost written = { settled_entry };

    ghost reading = { settled_entry_at };

    #[tactic(auto, unfolding(crate::specs::inner::Reading::settled_entry_at))]
    fn read(alloc: Global, cursor: &mut Cursor<'_>) -> Result<SettledEntry, Fault> {
        let settled = SettledView::read(alloc, cursor)?;
        let is_moving = bool::read(alloc, cursor)?;
        Ok(SettledEntry { settled, is_moving })
    }

    fn put(&self, alloc: Global, out: &mut Vec<u8>) -> Result<(), Fault> {
        self.settled.put(alloc, out)?;
        self.is_moving.put(alloc, out)
    }
}

impl Field for KeptOutcome {
    ghost use Rattle.gs_master_record.specs.Plain.{PlainOutcome, plain_outcome};
    ghost use Rattle.gs_master_record.specs.Encoding.{outcome};
    ghost use Rattle.gs_master_record.specs.Writable.{IsOutcome};
    ghost use Rattle.gs_master_record.specs.inner.Reading.{outcome_at};

    ghost Plain = { PlainOutcome };

    ghost plain = { plain_outcome };

    ghost Is = { IsOutcome };

    ghost written = { outcome };

    ghost reading = { outcome_at };

    #[tactic(auto, unfolding(crate::specs::inner::Reading::outcome_at))]
    fn read(alloc: Global, cursor: &mut Cursor<'_>) -> Result<KeptOutcome, Fault> {
        let number = u8::read(alloc, cursor)?;
        let text = read_text(cursor)?;
        if number == 0 {
            return Ok(KeptOutcome::Accepted(String::from_str(alloc, text)?));
        }
        match Refusal::told(alloc, number, text)? {
            Some(refusal) => Ok(KeptOutcome::Refused(refusal)),
            None => Err(Fault::Form),
        }
    }

    fn put(&self, alloc: Global, out: &mut Vec<u8>) -> Result<(), Fault> {
        match self {
            KeptOutcome::Accepted(answer) => {
                out.push(0)?;
                put_text(out, answer)
            }
            KeptOutcome::Refused(refusal) => refusal.put(alloc, out),
        }
    }
}

impl Field for Reply {
    ghost use Rattle.gs_master_record.specs.Plain.{PlainReply, plain_reply};
    ghost use Rattle.gs_master_record.specs.Encoding.{reply};
    ghost use Rattle.gs_master_record.specs.Writable.{IsReply};
    ghost use Rattle.gs_master_record.specs.inner.Reading.{reply_at};

    ghost Plain = { PlainReply };

    ghost plain = { plain_reply };

    ghost Is = { IsReply };

    ghost written = { reply };

    ghost reading = { reply_at };

    #[tactic(auto, unfolding(crate::specs::inner::Reading::reply_at))]
    fn read(alloc: Global, cursor: &mut Cursor<'_>) -> Result<Reply, Fault> {
        let to = ReqId::read(alloc, cursor)?;
        let outcome = KeptOutcome::read(alloc, cursor)?;
        Ok(Reply { to, outcome })
    }

    fn put(&self, alloc: Global, out: &mut Vec<u8>) -> Result<(), Fault> {
        self.to.put(alloc, out)?;
        self.outcome.put(alloc, out)
    }
}

impl Field for PreparedView {
    ghost use Rattle.gs_journal.specs.declared.version.Version.TheVariants.{Two};
    ghost use Rattle.gs_master_record.specs.declared.checkpoint.PreparedView.{PreparedView as AnyPrepared};
    ghost use Rattle.gs_master_record.specs.Encoding.{prepared_view};
    ghost use Rattle.gs_master_record.specs.Writable.{IsPreparedView};
    ghost use Rattle.gs_master_record.specs.inner.Reading.{held_at};

    ghost Plain = { AnyPrepared };

    ghost plain = { λ v. v };

    ghost Is = { IsPreparedView Two };

    ghost written = { prepared_view Two };

    ghost reading = { held_at };

    #[tactic(auto, unfolding(crate::specs::inner::Reading::held_at))]
    fn read(alloc: Global, cursor: &mut Cursor<'_>) -> Result<PreparedView, Fault> {
        let settled = SettledView::read(alloc, cursor)?;
        let holders = Members::read(alloc, cursor)?;
        Ok(PreparedView { settled, holders })
    }

    fn put(&self, alloc: Global, out: &mut Vec<u8>) -> Result<(), Fault> {
        self.settled.put(alloc, out)?;
        self.holders.put(alloc, out)
    }
}
