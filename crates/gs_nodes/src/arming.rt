// Disks of the master's journal that are made to fail.
ghost use Rattle.std.specs.Prelude.{◌≡◌};
ghost use Rattle.gs_nodes.specs.Arming.{armed_first, armed_second};
ghost use Rattle.gs_nodes.specs.Nodes.{nodes_of, with_master};

use crate::nodes::Nodes;
use crate::place::MasterPlace;
use gs_journal::{Disk, FailingDisk, Fault};

impl<D: Disk> Nodes<FailingDisk<D>> {
    /// Gives the first disk of the master's journal a fault in place of the one that it has.
    pub fn arm_first(&mut self, fault: Fault)
        ensures { nodes_of self.new ≡ with_master (armed_first fault self.old.master) (nodes_of self.old) }
    {
        match &mut self.master {
            MasterPlace::Standing(master) => master.arm_first(fault),
            MasterPlace::Closed { first, .. } => first.arm(fault),
            MasterPlace::Away => {}
        }
    }

    /// Gives the second disk of the master's journal a fault in place of the one that it has.
    pub fn arm_second(&mut self, fault: Fault)
        ensures { nodes_of self.new ≡ with_master (armed_second fault self.old.master) (nodes_of self.old) }
    {
        match &mut self.master {
            MasterPlace::Standing(master) => master.arm_second(fault),
            MasterPlace::Closed { second, .. } => second.arm(fault),
            MasterPlace::Away => {}
        }
    }
}
