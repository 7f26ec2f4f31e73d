ghost use Rattle.std.specs.Prelude.{◌≡◌, true, false, OnErr};
ghost use Rattle.gs_server.specs.Servers.{ServerSteps, handle, handle_chunk, takes_memory, is_of_server, chunk_takes_memory};
ghost use Rattle.gs_server.specs.inner.Hearing.{hears_ack, hears_nack};
ghost use Rattle.gs_server.specs.inner.Kinds.{is_of_replica};

use crate::applying::Numbered;
use crate::server::Server;
use crate::turn::Turn;
use gs_base::{Handle, Moment, Refusal, Stamp};
use gs_msg::{Body, Chunk, Message, NodeId};
use gs_store::CopyImages;

impl Server {
    /// What is done about a message. Want of memory leaves the server as it was, and nothing is sent. A drop, a renewal and what
    /// isn't for a server are answered whatever memory there is. Over each run of a whole store, what servers have of an upgrade that is
    /// taken back, and what they tell of it, is `survivors_keep_what_stood_at_the_prepare` and `one_survivor_is_enough` of `gs_laws_chunks`;
    /// what they have of edits and reads is `done_edits_stay` and `reads_are_legal`.
    pub fn handle(&mut self, message: Message, moment: Moment) -> Result<Turn, Refusal>
        ensures step { ServerSteps (handle self.old message moment) result self.old self.new }
        ensures lacking { OnErr result (takes_memory message ≡ true) }
    {
        let Message { from, body, .. } = message;
        match body {
            Body::About(handle, chunk) => self.handle_chunk(handle, from, chunk, moment),
            Body::Push { req, bytes } => self.push(req, bytes),
            Body::MakeCopy {
                handle,
                at,
                new_handle,
                stamp,
            } => self.make_copy(handle, at, new_handle, stamp, moment),
            Body::Epoch { epoch, end } => self.learn(epoch, end),
            Body::Call { .. }
            | Body::Reply { .. }
            | Body::Done { .. }
            | Body::Bytes { .. }
            | Body::Report { .. }
            | Body::Learned { .. }
            | Body::Behind { .. } => {
                drop(body);
                Ok(Turn::refused(self.alloc, Refusal::Stray))
            }
        }
    }

    /// What is done about a message that speaks of one chunk.
    fn handle_chunk(
        &mut self,
        handle: Handle,
        from: NodeId,
        chunk: Chunk,
        moment: Moment,
    ) -> Result<Turn, Refusal>
        ensures step { ServerSteps (handle_chunk self.old from handle chunk moment) result self.old self.new }
        ensures lacking { OnErr result (chunk_takes_memory from chunk ≡ true) }
    {
        match chunk {
            Chunk::Create(stamp) => self.create(handle, stamp, moment),
            Chunk::Advance(stamp) => self.advance(handle, stamp, moment),
            Chunk::Drop { epoch, promise } => {
                Ok(self.drop_replica(handle, epoch, promise, moment))
            }
            Chunk::Fetch {
                req,
                stamp,
                epoch,
                asked,
            } => self.fetch(handle, req, stamp, epoch, asked, moment),
            Chunk::CopyOut {
                stamp,
                target,
                with_sealed,
            } => self.copy_out(handle, stamp, target, with_sealed, moment),
            Chunk::CopyIn {
                stamp,
                image,
                sealed,
            } => self.copy_in(handle, stamp, CopyImages { image, sealed }, moment),
            chunk => self.handle_leased(handle, from, chunk, moment),
        }
    }

    /// What is done about a message that speaks of a lease, or of the edits under it. Any other is for another kind of node.
    fn handle_leased(
        &mut self,
        handle: Handle,
        from: NodeId,
        chunk: Chunk,
        moment: Moment,
    ) -> Result<Turn, Refusal>
        requires { is_of_replica chunk ≡ false }
        ensures step { ServerSteps (handle_chunk self.old from handle chunk moment) result self.old self.new }
        ensures lacking { OnErr result (chunk_takes_memory from chunk ≡ true) }
    {
        match chunk {
            Chunk::Grant(given) => self.grant(handle, given, moment),
            Chunk::Renewed { stamp, end } => Ok(self.renewed(handle, stamp, end)),
            Chunk::Edit { req, stamp, op } => self.edit(handle, req, stamp, op, moment),
            Chunk::Forward {
                stamp,
                number,
                req,
                op,
                bytes,
            } => {
                let edit = Numbered {
                    stamp,
                    number,
                    req,
                    op,
                };
                self.forward(handle, from, edit, bytes, moment)
            }
            Chunk::Ack { stamp, count } => self.hear_ack(handle, from, stamp, count, moment),
            Chunk::Nack { stamp, refusal } => self.hear_nack(handle, from, stamp, &refusal, moment),
            _ => {
                drop(chunk);
                Ok(Turn::refused(self.alloc, Refusal::Stray))
            }
        }
    }

    /// A count is told by a server, for no other node is a member of a lease.
    fn hear_ack(
        &mut self,
        handle: Handle,
        from: NodeId,
        stamp: Stamp,
        count: u64,
        moment: Moment,
    ) -> Result<Turn, Refusal>
        ensures step { ServerSteps (hears_ack handle from stamp count moment self.old) result self.old self.new }
        ensures lacking { OnErr result (is_of_server from ≡ true) }
    {
        match from {
            NodeId::Server(server) => self.ack(handle, server, stamp, count, moment),
            NodeId::Master | NodeId::Client(_) => Ok(Turn::refused(self.alloc, Refusal::Stray)),
        }
    }

    /// An edit is refused by a server.
    fn hear_nack(
        &mut self,
        handle: Handle,
        from: NodeId,
        stamp: Stamp,
        refusal: &Refusal,
        moment: Moment,
    ) -> Result<Turn, Refusal>
        ensures step { ServerSteps (hears_nack handle from stamp refusal.now moment self.old) result self.old self.new }
        ensures lacking { OnErr result (is_of_server from ≡ true) }
    {
        match from {
            NodeId::Server(server) => self.nack(handle, server, stamp, refusal, moment),
            NodeId::Master | NodeId::Client(_) => Ok(Turn::refused(self.alloc, Refusal::Stray)),
        }
    }
}
