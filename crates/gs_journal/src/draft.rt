// A checkpoint that is made and not yet written.
ghost use Rattle.std.specs.Prelude.{◌≡◌, ◌<◌, ◌^◌, ◌+◌, ◌==◌, ◌++◌, [], ◌∷◌, length, true, IfOk, IfErr};
ghost use Rattle.gs_base.specs.declared.refusal.Refusal.TheVariants.{Memory};
ghost use Rattle.gs_journal.specs.Records.{frame, header};
ghost use Rattle.gs_journal.specs.declared.version.Version.TheVariants.{Two};

use crate::record::Record;
use crate::start::begin;
use gs_base::Refusal;
use std::alloc::Global;
use std::marker::Model;

/// The kind of a checkpoint.
const CHECKPOINT: u8 = 9;

/// A checkpoint that is made and not yet written: all the bytes of its disk, which is to be of one generation.
#[derive(Debug)]
pub struct Draft {
    generation: u64,
    entry: Record,
    bytes: Vec<u8>,
}

impl Drop for Draft {
    fn drop(self) {
        let Self {
            generation: _,
            entry: _,
            bytes: _,
        } = self;
    }
}

impl Model for Draft {
    ghost use Rattle.std.specs.Prelude.{◌≡◌, ◌++◌, [], ◌∷◌};
    ghost use Rattle.gs_journal.specs.Drafts.{Drafted};
    ghost use Rattle.gs_journal.specs.Records.{frame, header};
    ghost use Rattle.gs_journal.specs.declared.version.Version.TheVariants.{Two};

    ghost Value = { Drafted };

    ghost view = { λ d. record { body = d.entry.1; generation = d.generation } };

    ghost invariant = { λ d. (d.entry.0 ≡ 9) × (1 ∷ d.bytes.items ≡ header Two d.generation ++ 1 ∷ (frame d.entry ++ 0 ∷ [])) };
}

impl Draft {
    /// A checkpoint of this body, for a disk of this generation.
    pub(crate) fn new(alloc: Global, generation: u64, body: &[u8]) -> Result<Draft, Refusal>
        requires { length body.now < 2 ^ 32 }
        ensures made { IfOk result (λ d. d ≡ record { body = body.now; generation = generation }) }
        ensures refused { IfErr result (λ e. e ≡ Memory) }
    {
        let entry = Record::new(alloc, CHECKPOINT, body)?;
        let bytes = begin(alloc, generation, 1, entry.bytes())?;
        Ok(Draft {
            generation,
            entry,
            bytes,
        })
    }

    /// Whether its generation is the one behind this one.
    pub(crate) fn is_behind(&self, generation: u64) -> bool
        ensures behind { result ≡ (self.now.generation == generation + 1) }
        ensures next { result ≡ true → generation + 1 < 2 ^ 64 }
    {
        0 < self.generation && self.generation - 1 == generation
    }

    /// The record, which is a checkpoint of its body.
    pub(crate) fn entry(&self) -> &Record
        ensures { result.now ≡ (9, self.now.body) }
    {
        &self.entry
    }

    /// What is written behind the header gate of its disk.
    pub(crate) fn bytes(&self) -> &[u8]
        ensures { 1 ∷ result.now ≡ header Two self.now.generation ++ 1 ∷ (frame (9, self.now.body) ++ 0 ∷ []) }
    {
        &self.bytes
    }
}
