// A record.
ghost use Rattle.std.specs.Prelude.{◌≡◌, ◌<◌, ◌≤◌, ◌^◌, ◌+◌, ◌++◌, length, drop, IfOk, IfErr};
ghost use Rattle.gs_base.specs.declared.refusal.Refusal.TheVariants.{Memory};

use byteorder::{BigEndian, ByteOrder};
use gs_base::Refusal;
use std::alloc::Global;
use std::marker::Model;

/// How many bytes of a record's frame stand before its body: four of its length, and its kind.
pub const HEAD_BYTES: usize = 5;

/// A record: a kind and a body of fewer than 4,294,967,296 bytes. It holds the bytes that `append` writes.
#[derive(Debug)]
pub struct Record {
    bytes: Vec<u8>,
}

impl Drop for Record {
    fn drop(self) {
        let Self { bytes: _ } = self;
    }
}

impl Model for Record {
    ghost use Rattle.std.specs.Prelude.{◌≡◌, ◌<◌, ◌^◌, ◌++◌, [], ◌∷◌, length};
    ghost use Rattle.gs_journal.specs.Records.{Entry, frame, entry_of};

    ghost Value = { Entry };

    ghost view = { λ r. entry_of r.bytes.items };

    ghost invariant = { λ r. (r.bytes.items ≡ frame (entry_of r.bytes.items) ++ 0 ∷ []) × (length (entry_of r.bytes.items).1 < 2 ^ 32) };
}

/// Puts bytes in the place of as many at the front.
fn put_front(bytes: &mut [u8], front: &[u8])
    requires { length front.now ≤ length bytes.old }
    ensures { bytes.new ≡ front.now ++ drop (length front.now) bytes.old }
{
    bytes[..front.len()].copy_from_slice(front);
}

impl Record {
    ghost use Rattle.gs_journal.specs.Records.{frame};
    ghost use Rattle.std.specs.Prelude.{◌++◌, [], ◌∷◌, drop};

    /// A record of this kind and body. It refuses `Memory` alone.
    pub fn new(alloc: Global, kind: u8, body: &[u8]) -> Result<Record, Refusal>
        requires { length body.now < 2 ^ 32 }
        ensures made { IfOk result (λ r. r ≡ (kind, body.now)) }
        ensures refused { IfErr result (λ e. e ≡ Memory) }
    {
        let mut head = [0, 0, 0, 0, kind];
        BigEndian::write_u32(&mut head, body.len() as u32);
        let mut bytes = Vec::with_capacity(alloc, body.len() + 6)?;
        bytes.extend_from_slice(&head)?;
        bytes.extend_from_slice(body)?;
        bytes.push(0)?;
        Ok(Record { bytes })
    }

    /// A record of this kind whose body stands in `bytes` behind `HEAD_BYTES` bytes. These hold whatever they do, and its
    /// length and kind are put in their place, so that a body which is written behind them isn't copied. It refuses `Memory`
    /// alone.
    pub fn behind_head(kind: u8, mut bytes: Vec<u8>) -> Result<Record, Refusal>
        requires head { 5 ≤ length bytes.items }
        requires size { length (drop 5 bytes.items) < 2 ^ 32 }
        ensures made { IfOk result (λ r. r ≡ (kind, drop 5 bytes.items)) }
        ensures refused { IfErr result (λ e. e ≡ Memory) }
    {
        let mut head = [0, 0, 0, 0, kind];
        BigEndian::write_u32(&mut head, (bytes.len() - HEAD_BYTES) as u32);
        put_front(&mut bytes, &head);
        bytes.push(0)?;
        Ok(Record { bytes })
    }

    /// The number of the record's kind.
    pub fn kind(&self) -> u8
        ensures { result ≡ self.now.0 }
    {
        self.bytes[4]
    }

    /// The bytes of the record's body.
    pub fn body(&self) -> &[u8]
        ensures { result.now ≡ self.now.1 }
    {
        &self.bytes[5..self.bytes.len() - 1]
    }

    /// What is written behind the gate: the length of the body, the kind, the body, and a closed gate.
    pub(crate) fn bytes(&self) -> &[u8]
        ensures written { result.now ≡ frame self.now ++ 0 ∷ [] }
        ensures fits { length self.now.1 < 2 ^ 32 }
    {
        &self.bytes
    }
}
