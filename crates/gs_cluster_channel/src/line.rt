ghost use Rattle.std.specs.Prelude.{◌≡◌, IfOk};
ghost use Rattle.crossbeam_channel.specs.Claims.{view, IsSeatAt};
ghost use Rattle.crossbeam_channel.specs.Ends.{sends_on, receives_on};
ghost use Rattle.gs_cluster_channel.specs.Carried.{whole};

use crate::hand::{Carries, Hand};
use crossbeam_channel::{Pass, RuledReceiver, RuledSender, bounded_with};
use gs_msg::{NodeId, Sent};
use std::alloc::{AllocError, Global};

/// A sender's end.
pub type Outlet = RuledSender<Sent, Hand, Carries>;

/// The receiver's end.
pub type Inlet = RuledReceiver<Sent, Hand, Carries>;

/// How many messages a channel holds at most.
pub const CAPACITY: usize = 1024;

/// A channel into this node, which has no name yet, with the whole pass to it.
#[derive(Drop)]
pub struct Line {
    pub me: NodeId,
    pub outlet: Outlet,
    pub inlet: Inlet,
    pub pass: Pass<Sent, Hand>,
    pub ghost seat: { IsSeatAt (sends_on outlet) pass },
    pub ghost ends: { receives_on inlet ≡ sends_on outlet },
    pub ghost all: { view pass ≡ whole },
}

impl Line {
    /// A new channel, with nothing in it.
    pub fn open(alloc: Global, me: NodeId) -> Result<Line, AllocError>
        ensures { IfOk result (λ line. line.me ≡ me) }
    {
        let (outlet, inlet, pass) = bounded_with::<Sent, Hand, Carries, Global>(alloc, CAPACITY)?;
        Ok(Line {
            me,
            outlet,
            inlet,
            pass,
        })
    }
}
