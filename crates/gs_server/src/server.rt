ghost use Rattle.std.specs.Prelude.{◌≡◌, ◌≤◌, [], None, IfOk};
ghost use Rattle.gs_server.specs.Places.{damaged_block, marked_by};
ghost use Rattle.gs_server.specs.Servers.{new, of_parts, client_cmp, ServerSteps, store_of, with_store, change_slot};
ghost use Rattle.std.specs.FinMap as fin;
ghost use Rattle.gs_store.specs.Slots.{count_of};
ghost use Rattle.gs_store.specs.Stores.{slot_of};
ghost use Rattle.gs_base_table.specs.Slots.{live};
ghost use Rattle.gs_server_lease.specs.Leases.{tell};
ghost use Rattle.gs_server.specs.inner.Answering.{refused_by, promised_by};
ghost use Rattle.gs_msg.specs.declared.body.Body.TheVariants.{About};

use crate::leases::spend;
use crate::sending::Sending;
use crate::turn::{KeptRefusal, Turn};
use gs_base::{ClientId, Config, Handle, Refusal, ServerId, Stamp};
use gs_base_table::{Entries, Table};
use gs_block::Sizes;
use gs_msg::{Body, Chunk, Message, NodeId};
use gs_server_lease::{PrimaryLease, tell};
use gs_store::Store;
use std::alloc::{AllocError, Global};
use std::marker::Model;

/// A chunkserver. What it keeps over a restart is in its store, but for the pushed bytes there, and in its kept refusals.
pub struct Server {
    pub(crate) alloc: Global,
    pub(crate) id: ServerId,
    pub(crate) store: Store,
    pub(crate) leases: Table<Handle, PrimaryLease>,
    pub(crate) refused: Table<ClientId, KeptRefusal>,
}

impl Drop for Server {
    fn drop(self) {
        let Self {
            alloc: _,
            id: _,
            store: _,
            leases: _,
            refused: _,
        } = self;
    }
}

impl Model for Server {
    ghost use Rattle.std.specs.Ordering.{nat_cmp};
    ghost use Rattle.gs_base_table.specs.Slots.{live};
    ghost use Rattle.gs_server.specs.Servers.{Server, coded_server, client_cmp};

    ghost Value = { Server };

    ghost coded = { coded_server };

    ghost view = { λ s. record { me = s.id; block = s.store.block; chunk = s.store.chunk; kept = record { epoch = s.store.epoch; slots = s.store.slots; refused = live client_cmp s.refused }; dropped = record { leases = live nat_cmp s.leases; buffer = s.store.buffer } } };
}

impl Server {
    /// A server that has heard nothing, in epoch 0.
    pub fn new(alloc: Global, config: Config, id: ServerId) -> Result<Server, AllocError>
        ensures { IfOk result (λ server. server ≡ new id config.block config.chunk) }
    {
        Ok(Server {
            alloc,
            id,
            store: Store::new(alloc, Sizes::of(config))?,
            leases: Table::new(alloc),
            refused: Table::new(alloc),
        })
    }

    /// A server of this store and these kept refusals, which holds no lease. It takes no memory.
    pub fn of(
        alloc: Global,
        id: ServerId,
        store: Store,
        refused: Table<ClientId, KeptRefusal>,
    ) -> Server
        ensures { result ≡ of_parts id store (live client_cmp refused) }
    {
        Server {
            alloc,
            id,
            store,
            leases: Table::new(alloc),
            refused,
        }
    }

    /// What is kept of the chunks, and the bytes that were pushed.
    pub fn store(&self) -> &Store
        ensures { result.now ≡ store_of self.now }
    {
        &self.store
    }

    /// Of each client its edit that was refused last, in the order of the clients. It takes no memory.
    pub fn refusals(&self) -> Entries<'_, ClientId, KeptRefusal>
        ensures { result ≡ fin.entries self.entry.now.kept.refused }
    {
        self.refused.iter()
    }

    /// The promise of a handle, and how many edits its live replica has applied, if there is one.
    pub(crate) fn promise_and_count(&self, handle: Handle) -> (Stamp, Option<u64>)
        ensures promise { result.0 ≡ (slot_of handle (store_of self.now)).promise }
        ensures count { result.1 ≡ count_of (slot_of handle (store_of self.now)).live }
    {
        match self.store.slot(handle) {
            Some(slot) => (slot.promised(), slot.count()),
            None => (self.store.promised(handle), None),
        }
    }

    /// What is told of a chunk.
    pub(crate) fn about(&self, handle: Handle, to: NodeId, said: Chunk) -> Message
        ensures { result ≡ tell self.now.me to (About handle said) }
    {
        tell(self.id, to, Body::About(handle, said))
    }

    /// Refuses a message by an answer. A block without its digest marks the replica of the handle, and the master is told of it
    /// behind the answer.
    pub(crate) fn refuse(
        &mut self,
        handle: Handle,
        answer: Message,
        refusal: Refusal,
    ) -> Result<Turn, Refusal>
        ensures { ServerSteps (refused_by handle answer refusal self.old) result self.old self.new }
    {
        let sent = self.refusal_told(handle, answer, &refusal)?;
        self.mark_by(handle, &refusal);
        Ok(Turn {
            sent,
            said: Some(refusal),
        })
    }

    /// An answer by which a message is refused, and behind it what the master is told of a block without its digest.
    pub(crate) fn refusal_told(
        &self,
        handle: Handle,
        answer: Message,
        refusal: &Refusal,
    ) -> Result<Vec<Message>, AllocError>
        ensures { IfOk result (λ sent. sent.items ≡ (refused_by handle answer refusal.now self.now).sent) }
    {
        let mut sent = match Vec::with_capacity(self.alloc, 2) {
            Ok(sent) => sent,
            Err(error) => {
                drop(answer);
                return Err(error);
            }
        };
        sent.push(answer)?;
        if damaged_block(refusal).is_some() {
            let promise = self.store.promised(handle);
            sent.push(self.about(handle, NodeId::Master, Chunk::Bad(promise)))?;
        }
        Ok(sent)
    }

    /// Marks the replica of the handle where the refusal is for a block without its digest. It takes no memory.
    pub(crate) fn mark_by(&mut self, handle: Handle, refusal: &Refusal)
        ensures { self.new ≡ with_store (change_slot handle (marked_by (damaged_block refusal.now)) (store_of self.old)) self.old }
    {
        if let Some(block) = damaged_block(refusal) {
            self.store.mark_bad(handle, block);
        }
    }

    /// The lease of a handle is spent where its stamp isn't the promise any more. It takes no memory.
    fn spend_below(&mut self, handle: Handle)
        ensures { self.new ≡ (promised_by handle (record { epoch = 0; version = 0 }) self.old).after }
    {
        let Some(lease) = self.leases.get(handle) else {
            return;
        };
        if lease.stamp() != self.store.promised(handle) {
            spend(&mut self.leases, handle);
        }
    }

    /// What follows where a call on a slot was accepted: the promise is told, for which there is room. It takes no memory.
    pub(crate) fn promise(&mut self, handle: Handle, stamp: Stamp, mut sent: Sending) -> Turn
        requires room { 1 ≤ sent.room }
        requires none { sent.messages ≡ [] }
        ensures after { self.new ≡ (promised_by handle stamp self.old).after }
        ensures sent { result.sent.items ≡ (promised_by handle stamp self.old).sent }
        ensures said { result.said ≡ None }
    {
        let (count, carried) = match self.store.slot(handle) {
            Some(slot) => (slot.count().unwrap_or(0), slot.is_carried()),
            None => (0, false),
        };
        let promised = Chunk::Promised {
            stamp,
            count,
            carried,
        };
        sent.put(self.about(handle, NodeId::Master, promised));
        self.spend_below(handle);
        Turn {
            sent: sent.into_messages(),
            said: None,
        }
    }
}

fn damaged_block(refusal: &Refusal) -> Option<u64>
    ensures { result ≡ damaged_block refusal.now }
{
    match refusal {
        Refusal::Damaged(block) => Some(*block),
        _ => None,
    }
}
