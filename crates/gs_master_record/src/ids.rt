// Fields that name something: chunks, servers, requests, paths, and why a request was refused.
ghost use Rattle.gs_master_record.specs.inner.Reading.{text_at};
ghost use Rattle.gs_master_record.specs.inner.Work.{DecodesAs, Puts};
ghost use Rattle.gs_master_record.specs.Encoding.{text};
ghost use Rattle.gs_master_record.specs.Writable.{IsText};

use crate::fault::Fault;
use crate::field::{Cursor, Field, read_u16, take};
use gs_base::promises::are_same;
use gs_base::{ClientId, Handle, Members, Moment, Refusal, ReqId, ServerId};
use gs_path::Path;
use std::alloc::Global;

impl Field for Handle {
    ghost use Rattle.std.specs.Prelude.{ℕ};
    ghost use Rattle.gs_master_record.specs.Encoding.{number};
    ghost use Rattle.gs_master_record.specs.Writable.{IsHandle};
    ghost use Rattle.gs_master_record.specs.inner.Reading.{handle_at};

    ghost Plain = { ℕ };

    ghost plain = { λ h. h };

    ghost Is = { IsHandle };

    ghost written = { number };

    ghost reading = { handle_at };

    #[tactic(auto, unfolding(crate::specs::inner::Reading::handle_at))]
    fn read(alloc: Global, cursor: &mut Cursor<'_>) -> Result<Handle, Fault> {
        let number = u64::read(alloc, cursor)?;
        match Handle::new(number) {
            Some(handle) => Ok(handle),
            None => Err(Fault::Form),
        }
    }

    fn put(&self, alloc: Global, out: &mut Vec<u8>) -> Result<(), Fault> {
        self.number().put(alloc, out)
    }
}

impl Field for ServerId {
    ghost use Rattle.std.specs.Prelude.{ℕ, ◌∷◌, []};
    ghost use Rattle.gs_master_record.specs.Writable.{IsServer};
    ghost use Rattle.gs_master_record.specs.inner.Reading.{server_at};

    ghost Plain = { ℕ };

    ghost plain = { λ s. s };

    ghost Is = { IsServer };

    ghost written = { λ s. s ∷ [] };

    ghost reading = { server_at };

    #[tactic(auto, unfolding(crate::specs::inner::Reading::server_at))]
    fn read(alloc: Global, cursor: &mut Cursor<'_>) -> Result<ServerId, Fault> {
        let number = u8::read(alloc, cursor)?;
        match ServerId::new(u64::from(number)) {
            Some(server) => Ok(server),
            None => Err(Fault::Form),
        }
    }

    fn put(&self, alloc: Global, out: &mut Vec<u8>) -> Result<(), Fault> {
        self.number().put(alloc, out)
    }
}

impl Field for Members {
    ghost use Rattle.std.specs.Prelude.{ℕ, List};
    ghost use Rattle.gs_master_record.specs.Encoding.{members};
    ghost use Rattle.gs_master_record.specs.Writable.{AreServers};
    ghost use Rattle.gs_master_record.specs.inner.Reading.{members_at};

    ghost Plain = { List ℕ };

    ghost plain = { λ m. m };

    ghost Is = { AreServers };

    ghost written = { members };

    ghost reading = { members_at };

    #[tactic(auto, unfolding(crate::specs::inner::Reading::members_at))]
    fn read(_alloc: Global, cursor: &mut Cursor<'_>) -> Result<Members, Fault> {
        let bits = read_u16(cursor)?;
        Ok(Members::from_bits(bits))
    }

    fn put(&self, _alloc: Global, out: &mut Vec<u8>) -> Result<(), Fault> {
        out.extend_from_slice(&self.bits().to_be_bytes())?;
        Ok(())
    }
}

impl Field for Moment {
    ghost use Rattle.std.specs.Prelude.{ℕ};
    ghost use Rattle.std.specs.Int.{w64};
    ghost use Rattle.gs_base.specs.Told.{IsNumber};
    ghost use Rattle.gs_master_record.specs.Encoding.{number};
    ghost use Rattle.gs_master_record.specs.inner.Reading.{number_at};

    ghost Plain = { ℕ };

    ghost plain = { λ m. m.0 };

    ghost Is = { IsNumber };

    ghost written = { number };

    ghost reading = { number_at w64 };

    fn read(alloc: Global, cursor: &mut Cursor<'_>) -> Result<Moment, Fault> {
        let moment = u64::read(alloc, cursor)?;
        Ok(Moment(moment))
    }

    fn put(&self, alloc: Global, out: &mut Vec<u8>) -> Result<(), Fault> {
        self.0.put(alloc, out)
    }
}

impl Field for ReqId {
    ghost use Rattle.gs_base.specs.declared.numbers.ReqId.{ReqId as AnyRequest};
    ghost use Rattle.gs_master_record.specs.Encoding.{request};
    ghost use Rattle.gs_master_record.specs.Writable.{IsRequest};
    ghost use Rattle.gs_master_record.specs.inner.Reading.{request_at};

    ghost Plain = { AnyRequest };

    ghost plain = { λ r. r };

    ghost Is = { IsRequest };

    ghost written = { request };

    ghost reading = { request_at };

    #[tactic(auto, unfolding(crate::specs::inner::Reading::request_at))]
    fn read(alloc: Global, cursor: &mut Cursor<'_>) -> Result<ReqId, Fault> {
        let client = u32::read(alloc, cursor)?;
        let number = u64::read(alloc, cursor)?;
        let client = ClientId(client);
        Ok(ReqId { client, number })
    }

    fn put(&self, alloc: Global, out: &mut Vec<u8>) -> Result<(), Fault> {
        self.client.0.put(alloc, out)?;
        self.number.put(alloc, out)
    }
}

/// Takes the text at the front.
#[tactic(auto, unfolding(crate::specs::inner::Reading::text_at))]
pub(crate) fn read_text<'a>(cursor: &mut Cursor<'a>) -> Result<&'a str, Fault>
    ensures { DecodesAs (λ x. x.now) result cursor.new.rest.now (text_at cursor.old.rest.now) }
{
    let length = read_u16(cursor)?;
    let text = take(cursor, usize::from(length))?;
    match str::from_utf8(text) {
        Ok(text) => Ok(text),
        Err(_) => Err(Fault::Form),
    }
}

/// Writes a text at the end, if its length fits two bytes.
#[tactic(auto, using(crate::proofs::Codes::told_utf8))]
pub(crate) fn put_text(out: &mut Vec<u8>, content: &str) -> Result<(), Fault>
    ensures { Puts (IsText content.now) (text content.now) out.old.items out.new.items result }
{
    if content.len() > 65535 {
        return Err(Fault::Form);
    }
    out.extend_from_slice(&(content.len() as u16).to_be_bytes())?;
    out.extend_from_slice(content.as_bytes())?;
    Ok(())
}

impl Field for Path {
    ghost use Rattle.gs_path.specs.Path.{Path as AnyPath};
    ghost use Rattle.gs_master_record.specs.Encoding.{path};
    ghost use Rattle.gs_master_record.specs.Writable.{IsPath};
    ghost use Rattle.gs_master_record.specs.inner.Reading.{path_at};

    ghost Plain = { AnyPath };

    ghost plain = { λ p. p };

    ghost Is = { IsPath };

    ghost written = { path };

    ghost reading = { path_at };

    #[tactic(auto, unfolding(crate::specs::inner::Reading::path_at))]
    fn read(alloc: Global, cursor: &mut Cursor<'_>) -> Result<Path, Fault> {
        let text = read_text(cursor)?;
        match Path::parse_hidden(alloc, text) {
            Ok(path) => Ok(path),
            Err(Refusal::Memory) => Err(Fault::Memory),
            Err(_) => Err(Fault::Form),
        }
    }

    fn put(&self, _alloc: Global, out: &mut Vec<u8>) -> Result<(), Fault> {
        let len = self.text_len();
        if len > 65535 || !self.is_readable() {
            return Err(Fault::Form);
        }
        out.extend_from_slice(&(len as u16).to_be_bytes())?;
        self.put_text(out)?;
        Ok(())
    }
}

impl Field for Refusal {
    ghost use Rattle.gs_base.specs.declared.refusal.Refusal.{Refusal as AnyRefusal};
    ghost use Rattle.gs_master_record.specs.Encoding.{refusal};
    ghost use Rattle.gs_master_record.specs.Writable.{IsWritable};
    ghost use Rattle.gs_master_record.specs.inner.Reading.{refusal_at};

    ghost Plain = { AnyRefusal };

    ghost plain = { λ r. r };

    ghost Is = { IsWritable };

    ghost written = { refusal };

    ghost reading = { refusal_at };

    #[tactic(auto, unfolding(crate::specs::inner::Reading::refusal_at))]
    fn read(alloc: Global, cursor: &mut Cursor<'_>) -> Result<Refusal, Fault> {
        let number = u8::read(alloc, cursor)?;
        let detail = read_text(cursor)?;
        match Refusal::told(alloc, number, detail)? {
            Some(refusal) => Ok(refusal),
            None => Err(Fault::Form),
        }
    }

    fn put(&self, alloc: Global, out: &mut Vec<u8>) -> Result<(), Fault> {
        let detail = self.detail(alloc)?;
        let number = self.number();
        let Some(again) = Refusal::told(alloc, number, &detail)? else {
            return Err(Fault::Form);
        };
        if !are_same(&again, self) {
            return Err(Fault::Form);
        }
        out.push(number)?;
        put_text(out, &detail)
    }
}
