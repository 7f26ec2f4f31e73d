// A client's edit that was refused last.
ghost use Rattle.gs_fields.specs.Work.{DecodesAs, Puts};
ghost use Rattle.gs_server_image.specs.Encoding as written;
ghost use Rattle.gs_server_image.specs.Writable.{IsTold, IsKept};
ghost use Rattle.gs_server_image.specs.Reading.{refusal_at};

use gs_base::Refusal;
use gs_base::promises::are_same;
use gs_fields::{Cursor, Fault, Field, put_text, read_text};
use gs_server::KeptRefusal;
use std::alloc::Global;

/// What is kept of a client, as a field.
#[derive(Drop)]
pub(crate) struct KeptField {
    pub(crate) kept: KeptRefusal,
}

/// Takes a refusal at the front: its number, and its detail as its line has it.
#[tactic(auto, unfolding(crate::specs::Reading::refusal_at))]
fn read_refusal(alloc: Global, cursor: &mut Cursor<'_>) -> Result<Refusal, Fault>
    ensures { DecodesAs (λ r. r) result cursor.new.rest.now (refusal_at cursor.old.rest.now) }
{
    let number = u8::read(alloc, cursor)?;
    let detail = read_text(cursor)?;
    match Refusal::told(alloc, number, detail)? {
        Some(refusal) => Ok(refusal),
        None => Err(Fault::Form),
    }
}

/// Writes a refusal at the end.
fn put_refusal(refusal: &Refusal, alloc: Global, out: &mut Vec<u8>) -> Result<(), Fault>
    ensures { Puts (IsTold refusal.now) (written.refusal refusal.now) out.old.items out.new.items result }
{
    let detail = refusal.detail(alloc)?;
    let number = refusal.number();
    let Some(again) = Refusal::told(alloc, number, &detail)? else {
        return Err(Fault::Form);
    };
    if !are_same(&again, refusal) {
        return Err(Fault::Form);
    }
    out.push(number)?;
    put_text(out, &detail)
}

/// Writes at the end what is kept of a client.
pub(crate) fn put_kept(kept: &KeptRefusal, alloc: Global, out: &mut Vec<u8>) -> Result<(), Fault>
    ensures { Puts (IsKept kept.now) (written.kept kept.now) out.old.items out.new.items result }
{
    kept.number.put(alloc, out)?;
    put_refusal(&kept.refusal, alloc, out)
}

impl Field for KeptField {
    ghost use Rattle.gs_server.specs.declared.turn.KeptRefusal.{KeptRefusal as AnyKept};
    ghost use Rattle.gs_server_image.specs.Encoding.{kept};
    ghost use Rattle.gs_server_image.specs.Writable.{IsKept};
    ghost use Rattle.gs_server_image.specs.Reading.{kept_at};
    ghost use Rattle.gs_server_image.specs.Laws.{reads_kept};

    ghost Plain = { AnyKept };

    ghost plain = { λ k. k.kept };

    ghost Is = { IsKept };

    ghost written = { kept };

    ghost reading = { kept_at };

    #[tactic(auto, unfolding(crate::specs::Reading::kept_at))]
    fn read(alloc: Global, cursor: &mut Cursor<'_>) -> Result<KeptField, Fault> {
        let number = u64::read(alloc, cursor)?;
        let refusal = read_refusal(alloc, cursor)?;
        let kept = KeptRefusal { number, refusal };
        Ok(KeptField { kept })
    }

    fn put(&self, alloc: Global, out: &mut Vec<u8>) -> Result<(), Fault> {
        put_kept(&self.kept, alloc, out)
    }

    ghost reads = { reads_kept };
}
