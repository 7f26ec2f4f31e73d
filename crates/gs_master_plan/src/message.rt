// Messages to clients and servers, and those of a tick.
ghost use Rattle.std.specs.Prelude.{◌≡◌, flat_map, IfOk};
ghost use Rattle.std.specs.FinMap as fin;
ghost use Rattle.std.specs.Option.{option_to_list};
ghost use Rattle.std.specs.Ordering.{nat_cmp};
ghost use Rattle.gs_base_table.specs.Slots.{live};
ghost use Rattle.gs_msg.specs.declared.node.NodeId.TheVariants as nodes;
ghost use Rattle.gs_master_plan.specs.inner.Planning.{state_of};
ghost use Rattle.gs_master_spec.specs.Chunks.{chunk_at};
ghost use Rattle.gs_master_spec.specs.Handling.{granted_at, proposals};
ghost use Rattle.gs_master_spec.specs.Hearing.{is_leased_under};
ghost use Rattle.gs_master_spec.specs.State.{about, post, reply_to, to_each};

use crate::standing::Standing;
use crate::view::grant;
use gs_base::{Handle, Members, Refusal, ReqId, ServerId, Stamp};
use gs_base_table::Table;
use gs_master_state::known::is_settled;
use gs_master_state::message::post;
use gs_msg::{Answer, Body, Chunk, Message, NodeId};
use std::alloc::{AllocError, Global};

/// What is said about a chunk to a server.
pub fn about(chunk: Handle, said: Chunk, server: ServerId) -> Message
    ensures { result ≡ about chunk said server }
{
    post(NodeId::Server(server), Body::About(chunk, said))
}

/// The reply to a request.
pub fn reply_to(req: ReqId, answered: Result<Answer, Refusal>) -> Message
    ensures { result ≡ reply_to req answered }
{
    let result = answered;
    post(NodeId::Client(req.client), Body::Reply { req, result })
}

/// The same to each of these servers, ascending.
pub fn to_each(alloc: Global, servers: Members, body: &Body) -> Result<Vec<Message>, AllocError>
    ensures { IfOk result (λ messages. messages.items ≡ to_each servers (λ server. post (nodes.Server server) body.now)) }
{
    let mut messages = Vec::new(alloc);
    for server in servers {
        messages.push(post(NodeId::Server(server), body.copy(alloc)?))?;
    }
    Ok(messages)
}

impl<'a> Standing<'a> {
    /// The chunks for which a view is proposed, each with its stamp, ascending.
    pub fn proposals(&self) -> Result<Vec<(Handle, Stamp)>, AllocError>
        ensures { IfOk result (λ asked. asked.items ≡ proposals (state_of self.entry.now)) }
    {
        let mut asked = Vec::new(self.recorded.alloc);
        for (chunk, asking) in self.memory.moving.iter() {
            asked.push((chunk, asking.stamp))?;
        }
        Ok(asked)
    }

    /// The grant of a lease that stands, to its primary.
    fn granted_at(&self, chunk: Handle) -> Option<Message>
        ensures { option_to_list result ≡ granted_at chunk (chunk_at (state_of self.entry.now) chunk) }
    {
        let Some(known) = self.chunk_at(chunk) else {
            return None;
        };
        if !known.is_leased() {
            return None;
        }
        match known.view() {
            Some(view) => grant(chunk, &view),
            None => None,
        }
    }

    /// The settled chunks, ascending.
    fn settled_chunks(&self) -> Result<Vec<Handle>, AllocError>
        ensures { IfOk result (λ chunks. chunks.items ≡ fin.keys (state_of self.entry.now).durable.chunks) }
    {
        let mut chunks = Vec::new(self.recorded.alloc);
        for (chunk, lease) in self.recorded.leases.iter() {
            if is_settled(lease) {
                chunks.push(chunk)?;
            }
        }
        Ok(chunks)
    }

    /// The grants of these leases, if they stand, in this order.
    fn granted_of(&self, chunks: &[Handle]) -> Result<Vec<Message>, AllocError>
        ensures { IfOk result (λ sent. sent.items ≡ flat_map (λ chunk. granted_at chunk (chunk_at (state_of self.entry.now) chunk)) chunks.now) }
    {
        let mut sent = Vec::new(self.recorded.alloc);
        for chunk in chunks {
            if let Some(message) = self.granted_at(*chunk) {
                sent.push(message)?;
            }
        }
        Ok(sent)
    }

    /// The chunks that have a primary, ascending, where the table of leases keeps them. Else the settled ones.
    fn perhaps_granted(&self) -> Result<Vec<Handle>, AllocError>
        ensures { IfOk result (λ chunks. flat_map (λ chunk. granted_at chunk (chunk_at (state_of self.entry.now) chunk)) chunks.items ≡ flat_map (λ chunk. granted_at chunk (chunk_at (state_of self.entry.now) chunk)) (fin.keys (state_of self.entry.now).durable.chunks)) }
    {
        match self.recorded.leases.with_primary() {
            Some(chunks) => keys_of(self.recorded.alloc, chunks),
            None => self.settled_chunks(),
        }
    }

    /// The grants of all leases that stand, ascending. Only chunks that have a primary are looked at.
    pub fn grants(&self) -> Result<Vec<Message>, AllocError>
        ensures { IfOk result (λ sent. sent.items ≡ flat_map (λ chunk. granted_at chunk (chunk_at (state_of self.entry.now) chunk)) (fin.keys (state_of self.entry.now).durable.chunks)) }
    {
        if !self.recorded.leases.has_primary() {
            return Ok(Vec::new(self.recorded.alloc));
        }
        let chunks = self.perhaps_granted()?;
        self.granted_of(&chunks)
    }

    /// Whether a chunk is leased under this stamp.
    pub fn is_leased_under(&self, stamp: Stamp, chunk: Handle) -> bool
        ensures { result ≡ is_leased_under stamp (chunk_at (state_of self.entry.now) chunk) }
    {
        let Some(known) = self.chunk_at(chunk) else {
            return false;
        };
        match known.view() {
            Some(view) => known.is_leased() && view.stamp == stamp,
            None => false,
        }
    }
}

/// The chunks of a set, ascending.
fn keys_of(alloc: Global, chunks: &Table<Handle, bool>) -> Result<Vec<Handle>, AllocError>
    ensures { IfOk result (λ keys. keys.items ≡ fin.keys (live nat_cmp chunks.now)) }
{
    let mut keys = Vec::new(alloc);
    for (chunk, _) in chunks.iter() {
        keys.push(chunk)?;
    }
    Ok(keys)
}
