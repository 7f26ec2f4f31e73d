// What happens to nodes beside messages and restarts.
ghost use Rattle.std.specs.Prelude.{◌≡◌, ◌⊎◌, Ok, Err, MatchOption, slice_get};
ghost use Rattle.gs_base.specs.declared.refusal.Refusal.TheVariants as refusals;
ghost use Rattle.gs_base.specs.Calls.{Does};
ghost use Rattle.gs_server.specs.Servers as servers;
ghost use Rattle.gs_nodes.specs.Happenings.{AtServer, MasterTicks, ServerDoes};
ghost use Rattle.gs_nodes.specs.Nodes.{nodes_of, with_master};

use crate::delivering::turn_of;
use crate::nodes::Nodes;
use gs_base::{Handle, Moment, Refusal, ServerId};
use gs_journal::Disk;
use gs_master::Turn;
use gs_msg::Message;

impl<D: Disk + Drop> Nodes<D> {
    /// The master does what it does from time to time. A refusal changes nothing.
    pub fn tick_master(&mut self, moment: Moment) -> Result<Turn, Refusal>
        ensures others { nodes_of self.new ≡ with_master self.new.master (nodes_of self.old) }
        ensures master { MasterTicks D.seen D.failures moment self.old.master result self.new.master }
    {
        self.master.tick(self.alloc, moment)
    }

    /// A server does what it does from time to time. `Range` where there is no such server; a refusal changes nothing.
    pub fn tick_server(&mut self, server: ServerId, moment: Moment) -> Result<Turn, Refusal>
        ensures { AtServer server (λ s. ServerDoes (servers.tick s moment) s) (nodes_of self.old) result (nodes_of self.new) }
    {
        match self.servers.get_mut(server.number() as usize) {
            Some(server) => match server.tick(moment) {
                Ok(turn) => Ok(turn_of(turn)),
                Err(refusal) => Err(refusal),
            },
            None => Err(Refusal::Range),
        }
    }

    /// What a server reports of its replicas. Nothing changes. `Range` where there is no such server.
    pub fn beat(&self, server: ServerId) -> Result<Message, Refusal>
        ensures { MatchOption (slice_get self.now.servers.items server) (result ≡ Err refusals.Range) (λ s. (result ≡ Ok (servers.beat s)) ⊎ (result ≡ Err refusals.Memory)) }
    {
        match self.servers.get(server.number() as usize) {
            Some(server) => match server.beat() {
                Ok(message) => Ok(message),
                Err(_) => Err(Refusal::Memory),
            },
            None => Err(Refusal::Range),
        }
    }

    /// A server loses its replicas of a chunk: `NoReplica` where it has none. `Range` where there is no such server.
    pub fn lose(&mut self, server: ServerId, handle: Handle) -> Result<(), Refusal>
        ensures { AtServer server (λ s result new. Does (servers.lose handle s) result s new) (nodes_of self.old) result (nodes_of self.new) }
    {
        match self.servers.get_mut(server.number() as usize) {
            Some(server) => server.lose(handle),
            None => Err(Refusal::Range),
        }
    }

    /// A byte of a block of a replica changes on its server: `NoReplica` where it has none, `Range` where there is no such block
    /// or no such server.
    pub fn damage(&mut self, server: ServerId, handle: Handle, block: u64) -> Result<(), Refusal>
        ensures { AtServer server (λ s result new. Does (servers.damage handle block s) result s new) (nodes_of self.old) result (nodes_of self.new) }
    {
        match self.servers.get_mut(server.number() as usize) {
            Some(server) => server.damage(handle, block),
            None => Err(Refusal::Range),
        }
    }
}
