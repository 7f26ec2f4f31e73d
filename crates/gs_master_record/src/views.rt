// Fields of a settled view, and what else tells of chunks.

use crate::entry::{Answered, SettledView};
use crate::fault::Fault;
use crate::field::{Cursor, Field};
use gs_base::{Handle, Members, Moment, ServerId, Stamp};
use gs_lease::{Term, View};
use std::alloc::Global;

/// The byte in a primary's place where there is none.
const NO_PRIMARY: u8 = 255;

impl Field for Option<Term> {
    ghost use Rattle.std.specs.Prelude.{Option};
    ghost use Rattle.gs_lease.specs.declared.view.Term.{Term as AnyTerm};
    ghost use Rattle.gs_master_record.specs.Encoding.{term};
    ghost use Rattle.gs_master_record.specs.Writable.{IsTerm};
    ghost use Rattle.gs_master_record.specs.inner.Reading.{term_at};

    ghost Plain = { Option AnyTerm };

    ghost plain = { λ t. t };

    ghost Is = { IsTerm };

    ghost written = { term };

    ghost reading = { term_at };

    #[tactic(auto, unfolding(crate::specs::inner::Reading::term_at))]
    fn read(alloc: Global, cursor: &mut Cursor<'_>) -> Result<Option<Term>, Fault> {
        let primary = u8::read(alloc, cursor)?;
        let end = u64::read(alloc, cursor)?;
        if primary == NO_PRIMARY {
            return if end == 0 { Ok(None) } else { Err(Fault::Form) };
        }
        let Some(primary) = ServerId::new(u64::from(primary)) else {
            return Err(Fault::Form);
        };
        let end = Moment(end);
        Ok(Some(Term { primary, end }))
    }

    fn put(&self, alloc: Global, out: &mut Vec<u8>) -> Result<(), Fault> {
        match self {
            Some(term) => {
                term.primary.put(alloc, out)?;
                term.end.put(alloc, out)
            }
            None => {
                out.push(NO_PRIMARY)?;
                0u64.put(alloc, out)
            }
        }
    }
}

impl Field for SettledView {
    ghost use Rattle.gs_master_record.specs.declared.entry.SettledView.{SettledView as AnySettled};
    ghost use Rattle.gs_master_record.specs.Encoding.{settled};
    ghost use Rattle.gs_master_record.specs.Writable.{IsSettled};
    ghost use Rattle.gs_master_record.specs.inner.Reading.{settled_at};

    ghost Plain = { AnySettled };

    ghost plain = { λ v. v };

    ghost Is = { IsSettled };

    ghost written = { settled };

    ghost reading = { settled_at };

    #[tactic(auto, unfolding(crate::specs::inner::Reading::settled_at))]
    fn read(alloc: Global, cursor: &mut Cursor<'_>) -> Result<SettledView, Fault> {
        let handle = Handle::read(alloc, cursor)?;
        let epoch = u64::read(alloc, cursor)?;
        let version = u64::read(alloc, cursor)?;
        let count = u64::read(alloc, cursor)?;
        let members = Members::read(alloc, cursor)?;
        let term = <Option<Term>>::read(alloc, cursor)?;
        let stamp = Stamp { epoch, version };
        let view = View {
            stamp,
            count,
            members,
            term,
        };
        Ok(SettledView { handle, view })
    }

    fn put(&self, alloc: Global, out: &mut Vec<u8>) -> Result<(), Fault> {
        self.handle.put(alloc, out)?;
        self.view.stamp.epoch.put(alloc, out)?;
        self.view.stamp.version.put(alloc, out)?;
        self.view.count.put(alloc, out)?;
        self.view.members.put(alloc, out)?;
        self.view.term.put(alloc, out)
    }
}

impl Field for Answered {
    ghost use Rattle.gs_master_record.specs.declared.entry.Answered.{Answered as AnyAnswered};
    ghost use Rattle.gs_master_record.specs.Encoding.{answered};
    ghost use Rattle.gs_master_record.specs.Writable.{IsAnswered};
    ghost use Rattle.gs_master_record.specs.inner.Reading.{answered_at};

    ghost Plain = { AnyAnswered };

    ghost plain = { λ a. a };

    ghost Is = { IsAnswered };

    ghost written = { answered };

    ghost reading = { answered_at };

    #[tactic(auto, unfolding(crate::specs::inner::Reading::answered_at))]
    fn read(alloc: Global, cursor: &mut Cursor<'_>) -> Result<Answered, Fault> {
        let handle = Handle::read(alloc, cursor)?;
        let members = Members::read(alloc, cursor)?;
        Ok(Answered { handle, members })
    }

    fn put(&self, alloc: Global, out: &mut Vec<u8>) -> Result<(), Fault> {
        self.handle.put(alloc, out)?;
        self.members.put(alloc, out)
    }
}
