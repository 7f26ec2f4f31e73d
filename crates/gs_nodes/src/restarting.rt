// Restarts.
ghost use Rattle.std.specs.Prelude.{◌≡◌, Ok};
ghost use Rattle.gs_server.specs.Servers as servers;
ghost use Rattle.gs_nodes.specs.Crashing.{StandsAt, SurvivesAt, SurvivesRestart};
ghost use Rattle.gs_nodes.specs.Happenings.{AtServer, Opens, Reopens, disks_of};
ghost use Rattle.gs_nodes.specs.Nodes.{nodes_of, with_master};

use crate::nodes::Nodes;
use crate::place::MasterPlace;
use gs_base::{Config, Refusal, ServerId};
use gs_journal::{Disk, Unopened};
use gs_master::{Master, Started, Turn};
use std::alloc::Global;
use std::mem;

/// The most bytes of a disk of the journal.
pub(crate) const LIMIT: u32 = 1_073_741_824;

/// Opens the disks of a journal, or hands them back.
fn opened<D: Disk>(
    alloc: Global,
    config: Config,
    disks: (D, D),
) -> (MasterPlace<D>, Result<Turn, Refusal>)
    ensures opens { Opens D.seen D.failures config disks result.1 result.0 }
    ensures survives { SurvivesAt D.seen D.may_leave D.moment D.left_since disks result.0 }
{
    let (first, second) = disks;
    match Master::open(alloc, config, first, second, LIMIT) {
        Ok(started) => {
            let Started { master, sent } = started;
            let said = None;
            (MasterPlace::Standing(master), Ok(Turn { sent, said }))
        }
        Err(unopened) => {
            let Unopened {
                refusal,
                first,
                second,
            } = unopened;
            (MasterPlace::Closed { first, second }, Err(refusal))
        }
    }
}

impl<D: Disk> MasterPlace<D> {
    /// The disks of the master's journal, the first one first. While none has failed a crash leaves on them what the journal tells.
    pub fn into_disks(self) -> Option<(D, D)>
        ensures disks { result ≡ disks_of self }
        ensures stood { StandsAt D.seen D.may_leave D.moment D.left_since self }
    {
        match self {
            MasterPlace::Standing(master) => Some(master.into_disks()),
            MasterPlace::Closed { first, second } => Some((first, second)),
            MasterPlace::Away => None,
        }
    }
}

impl<D: Disk + Drop> Nodes<D> {
    /// The master loses what it keeps in memory alone: its disks are opened again. Where that is refused they wait, and each call
    /// is `Device`, until the next restart.
    ///
    /// A crash in the midst of it, or behind one that was refused, leaves what one before might have left, or what the disks told, or in the
    /// place of a journal of the first version its checkpoint; one behind it leaves what the journal of the new master tells. Where it is
    /// refused, and no disk of the old master had failed, a crash leaves what its journal told; so also behind refusals that follow
    /// (`a_refused_restart_leaves_what_stood`).
    #[tactic(auto, using(crate::proofs::Surviving::survives_restart))]
    pub fn restart_master(&mut self) -> Result<Turn, Refusal>
        ensures others { nodes_of self.new ≡ with_master self.new.master (nodes_of self.old) }
        ensures master { Reopens D.seen D.failures self.old.config self.old.master result self.new.master }
        ensures survives { SurvivesRestart D.seen D.may_leave D.moment D.left_since self.old.master self.new.master }
    {
        let old = mem::replace(&mut self.master, MasterPlace::Away);
        let Some(disks) = old.into_disks() else {
            return Err(Refusal::Device);
        };
        let (master, turn) = opened(self.alloc, self.config, disks);
        drop(mem::replace(&mut self.master, master));
        turn
    }

    /// A server drops its leases and the bytes that were pushed to it. `Range` where there is no such server.
    pub fn restart_server(&mut self, server: ServerId) -> Result<(), Refusal>
        ensures { AtServer server (λ s result new. (result ≡ Ok tt) × (new ≡ servers.restart s)) (nodes_of self.old) result (nodes_of self.new) }
    {
        match self.servers.get_mut(server.number() as usize) {
            Some(server) => {
                server.restart();
                Ok(())
            }
            None => Err(Refusal::Range),
        }
    }
}
