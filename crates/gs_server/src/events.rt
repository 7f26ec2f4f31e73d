ghost use Rattle.std.specs.Prelude.{◌≡◌, IfOk, map};
ghost use Rattle.gs_base.specs.Calls.{Does};
ghost use Rattle.gs_server.specs.Servers.{ServerSteps, push, lose, damage, restart, beat, reported};
ghost use Rattle.gs_store.specs.Stores.{report};

use crate::server::Server;
use crate::turn::Turn;
use gs_base::{Handle, Refusal, ReqId};
use gs_base_table::Table;
use gs_msg::{Body, Bytes, Items, Message, NodeId, Reported};
use gs_server_lease::tell;
use gs_store::Store;
use std::alloc::{AllocError, Global};

impl Server {
    /// Keeps the bytes of a request until an edit uses them.
    pub(crate) fn push(&mut self, req: ReqId, bytes: Bytes) -> Result<Turn, Refusal>
        ensures { ServerSteps (push self.old req bytes) result self.old self.new }
    {
        self.store.push(req, bytes.into_vec())?;
        Ok(Turn::silent(self.alloc))
    }

    /// Loses what is live of a handle and what stands in its trash. A lease stays. `NoReplica` where there is neither. It takes
    /// no memory.
    pub fn lose(&mut self, handle: Handle) -> Result<(), Refusal>
        ensures { Does (lose handle self.old) result self.old self.new }
    {
        self.store.lose(handle)
    }

    /// Damages a block of what is live of a handle, or else of what stands in its trash: its first byte is another, its digest
    /// stays. `NoReplica` where there is neither, and `Range` where there is no such block. It takes no memory.
    pub fn damage(&mut self, handle: Handle, block: u64) -> Result<(), Refusal>
        ensures { Does (damage handle block self.old) result self.old self.new }
    {
        self.store.damage(handle, block)
    }

    /// Drops the leases and the pushed bytes, and keeps all else. It takes no memory.
    pub fn restart(&mut self)
        ensures { self.new ≡ restart self.old }
    {
        self.store.restart();
        self.leases = Table::new(self.alloc);
    }

    /// The live replicas, ascending by handle, as the master is told of them.
    pub fn beat(&self) -> Result<Message, AllocError>
        ensures { IfOk result (λ message. message ≡ beat self.now) }
    {
        let replicas = reports(self.alloc, &self.store)?;
        let report = Body::Report {
            epoch: self.store.epoch(),
            replicas: Items::new(replicas),
        };
        Ok(tell(self.id, NodeId::Master, report))
    }
}

fn reports(alloc: Global, store: &Store) -> Result<Vec<Reported>, AllocError>
    ensures { IfOk result (λ replicas. replicas.items ≡ map reported (report store.now)) }
{
    let mut replicas = Vec::new(alloc);
    for found in store.report() {
        replicas.push(Reported {
            handle: found.handle,
            promise: found.promise,
            is_bad: found.is_bad,
        })?;
    }
    Ok(replicas)
}
