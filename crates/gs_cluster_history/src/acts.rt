use crate::took::Took;
use crate::turn::Turn;
use gs_base::Refusal;
use std::alloc::Global;

/// What a node is, apart from its history: how it may begin, and what it does with what it takes.
pub trait Core {
    ghost use Rattle.std.specs.Prelude.{List};
    ghost use Rattle.gs_msg.specs.declared.message.Message.{Message};
    ghost use Rattle.gs_msg.specs.declared.node.NodeId.{NodeId};
    ghost use Rattle.gs_cluster_history.specs.declared.took.Took.{Took};
    ghost use Rattle.gs_cluster_history.specs.Histories.{Upshot};
    ghost use Rattle.gs_cluster_history.specs.Logs.{told};
    ghost use Rattle.gs_cluster_history.specs.Setting.{Setting};

    /// Whether a node of this number begins so in a cluster, and sends this at first.
    ghost Starts: { Setting → NodeId → Self → List Message → Type 0 };

    /// What comes of what a node takes: what it is before, what it sends and says, and what it is after.
    ghost Does: { Took → Self → Upshot → Self → Type 0 };

    /// Takes a message or an event of its own.
    fn take(&mut self, alloc: Global, took: Took) -> Result<Turn, Refusal>
        ensures { Does took self.old (told result) self.new };

    /// Whether something waits that a tick of its clock may move on.
    fn is_waiting(&self) -> bool;
}
