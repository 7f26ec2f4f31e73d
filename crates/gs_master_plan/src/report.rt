// What follows of a report.
ghost use Rattle.std.specs.Prelude.{◌&&◌, ◌≡◌, filter, IfOk, List};
ghost use Rattle.std.specs.FinMap as fin;
ghost use Rattle.std.specs.Ordering.{nat_cmp};
ghost use Rattle.gs_msg.specs.declared.body.Reported.{Reported as AnyReported};
ghost use Rattle.gs_master_plan.specs.inner.Planning.{state_of};
ghost use Rattle.gs_master_spec.specs.Chunks.{chunk_at};
ghost use Rattle.gs_master_spec.specs.Hearing.{drops, is_lost_at, is_stray, lost};
ghost use Rattle.gs_master_state.specs.inner.Surveying.{AreSound, is_lost, sound_handles};
ghost use Rattle.gs_base_table.specs.Slots.{live};

use crate::message::about;
use crate::standing::Standing;
use gs_base::{Handle, ServerId};
use gs_base_table::Table;
use gs_master_state::known::{chunk_set, is_settled};
use gs_msg::{Chunk, Message, Reported};
use std::alloc::{AllocError, Global};

/// The chunks that are told as sound.
fn sound_handles(alloc: Global, reported: &[Reported]) -> Result<Vec<Handle>, AllocError>
    ensures { IfOk result (λ handles. handles.items ≡ sound_handles reported.now) }
{
    let mut sound = Vec::new(alloc);
    for replica in reported {
        if !replica.is_bad {
            sound.push(replica.handle)?;
        }
    }
    Ok(sound)
}

/// The same as a set.
fn sound_chunks(alloc: Global, reported: &[Reported]) -> Result<Table<Handle, bool>, AllocError>
    ensures { IfOk result (λ sound. AreSound reported.now (live nat_cmp sound)) }
{
    let handles = sound_handles(alloc, reported)?;
    chunk_set(alloc, &handles)
}

impl<'a> Standing<'a> {
    /// Whether a replica is one of which nothing is known, or that isn't at home.
    fn is_stray(&self, chunk: Handle, server: ServerId) -> bool
        ensures { result ≡ is_stray (chunk_at (state_of self.entry.now) chunk) server }
    {
        match self.chunk_at(chunk) {
            Some(known) => !known.is_at_home(server),
            None => true,
        }
    }

    /// The server is told to drop the replicas of which nothing is known, and those that aren't at home.
    pub fn drops(&self, server: ServerId, reported: &[Reported]) -> Result<Vec<Message>, AllocError>
        ensures { IfOk result (λ sent. sent.items ≡ drops (state_of self.entry.now) server reported.now) }
    {
        let mut sent = Vec::new(self.recorded.alloc);
        for replica in reported {
            if self.is_stray(replica.handle, server) {
                let drop = Chunk::Drop {
                    epoch: self.recorded.epoch,
                    promise: replica.promise,
                };
                sent.push(about(replica.handle, drop, server))?;
            }
        }
        Ok(sent)
    }

    /// Whether a server is a member of a settled chunk.
    pub fn is_lost_at(&self, server: ServerId, chunk: Handle) -> bool
        ensures { result ≡ is_lost_at server (chunk_at (state_of self.entry.now) chunk) }
    {
        match self.chunk_at(chunk) {
            Some(known) => known.is_settled_on(server),
            None => false,
        }
    }

    /// The same, where the chunk isn't told as sound.
    fn is_lost(&self, server: ServerId, chunk: Handle, sound: &Table<Handle, bool>) -> bool
        ensures { (reported : List AnyReported) → AreSound reported (live nat_cmp sound.now) → result ≡ is_lost (state_of self.entry.now) server reported chunk }
    {
        self.is_lost_at(server, chunk) && sound.get(chunk).is_none()
    }

    /// Those of some chunks that the server has lost.
    fn lost_of(
        &self,
        server: ServerId,
        reported: &[Reported],
        chunks: &Table<Handle, bool>,
        sound: &Table<Handle, bool>,
    ) -> Result<Vec<Handle>, AllocError>
        requires { AreSound reported.now (live nat_cmp sound.now) }
        ensures { IfOk result (λ lost. lost.items ≡ filter (is_lost (state_of self.entry.now) server reported.now) (fin.keys (live nat_cmp chunks.now))) }
    {
        let mut lost = Vec::new(self.recorded.alloc);
        for (chunk, _) in chunks.iter() {
            if self.is_lost(server, chunk, sound) {
                lost.push(chunk)?;
            }
        }
        Ok(lost)
    }

    /// Those of all chunks.
    fn lost_of_all(
        &self,
        server: ServerId,
        reported: &[Reported],
        sound: &Table<Handle, bool>,
    ) -> Result<Vec<Handle>, AllocError>
        requires { AreSound reported.now (live nat_cmp sound.now) }
        ensures { IfOk result (λ chunks. chunks.items ≡ lost (state_of self.entry.now) server reported.now) }
    {
        let mut lost = Vec::new(self.recorded.alloc);
        for (chunk, lease) in self.recorded.leases.iter() {
            if is_settled(lease) && self.is_lost(server, chunk, sound) {
                lost.push(chunk)?;
            }
        }
        Ok(lost)
    }

    /// The settled chunks of which the server is a member and doesn't tell that they are sound, ascending. Only those of which it is a
    /// member are looked at, where the table of leases keeps them.
    #[tactic(auto, using(crate::proofs::Losing::lost_in))]
    pub fn lost(&self, server: ServerId, reported: &[Reported]) -> Result<Vec<Handle>, AllocError>
        ensures { IfOk result (λ chunks. chunks.items ≡ lost (state_of self.entry.now) server reported.now) }
    {
        let sound = sound_chunks(self.recorded.alloc, reported)?;
        match self.recorded.leases.on_server(server) {
            Some(chunks) => self.lost_of(server, reported, chunks, &sound),
            None => self.lost_of_all(server, reported, &sound),
        }
    }
}
