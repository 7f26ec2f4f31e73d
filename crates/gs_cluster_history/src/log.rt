// What went by at a node, which stands in proofs alone.
ghost use Rattle.std.specs.Prelude.{◌≡◌, [], ◌∷◌, ◌++◌, List};
ghost use Rattle.std.specs.Coded.{coded_list};
ghost use base.Fml.{ftrue};
ghost use Rattle.gs_cluster_history.specs.Coding.{coded_entry, coded_listed};
ghost use Rattle.gs_cluster_history.specs.Histories.{Entry, Listed};
ghost use Rattle.gs_cluster_history.specs.Logs.{entry_of, first_sent, sent_at};

use crate::turn::{Deed, Turn};
use std::marker::Model;

/// The history of a node, and all that it has sent. At run time it is nothing.
#[derive(Drop)]
pub struct Log {
    pub ghost entries: { List Entry } by { coded_list coded_entry },
    pub ghost sent: { List Listed } by { coded_list coded_listed },
}

impl Model for Log {
    ghost also_owns = { λ _. ftrue };
}

unsafe impl Send for Log {}

impl Log {
    /// Of a node that has done nothing.
    pub fn new() -> Log
        ensures { (result.entries ≡ []) × (result.sent ≡ []) }
    {
        Log {}
    }

    /// With what a node sends at first, before any event.
    pub fn first(&self, _turn: &Turn) -> Log
        ensures { (result.entries ≡ self.now.entries) × (result.sent ≡ self.now.sent ++ first_sent _turn.now) }
    {
        Log {}
    }

    /// With one event more, and what is sent at it.
    pub fn then(&self, _deed: &Deed) -> Log
        ensures { (result.entries ≡ self.now.entries ++ entry_of _deed.now ∷ []) × (result.sent ≡ self.now.sent ++ sent_at (entry_of _deed.now)) }
    {
        Log {}
    }
}
