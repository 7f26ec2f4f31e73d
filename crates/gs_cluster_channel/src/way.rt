ghost use Rattle.std.specs.Prelude.{◌≡◌, []};
ghost use Rattle.crossbeam_channel.specs.Claims.{view, IsSeatAt};
ghost use Rattle.crossbeam_channel.specs.Ends.{sends_on};
ghost use Rattle.gs_cluster_channel.specs.Carried.{hand};
ghost use Rattle.gs_cluster_channel.specs.Named.{IsNamed};
ghost use Rattle.gs_cluster_channel.specs.Settled.{puts};
ghost use Rattle.gs_cluster_channel.specs.Tried.{IsBack, was_put};

use crate::hand::Hand;
use crate::line::Outlet;
use crate::naming::Naming;
use crate::steps::try_put;
use crate::tried::Tried;
use crossbeam_channel::Pass;
use gs_msg::{NodeId, Sent};
use std::marker::{Model, PhantomData};
use std::sync::Wait;

/// A sender's end of the channel into this node, with one part of the pass.
#[derive(Drop)]
pub struct Way<N: Naming> {
    pub(crate) to: NodeId,
    pub(crate) outlet: Outlet,
    pub(crate) pass: Pass<Sent, Hand>,
    pub(crate) of: PhantomData<N>,
}

impl<N: Naming> Model for Way<N> {
    ghost use Rattle.std.specs.Prelude.{◌≡◌};
    ghost use Rattle.crossbeam_channel.specs.Claims.{IsSeatAt};
    ghost use Rattle.crossbeam_channel.specs.Ends.{sends_on};
    ghost use Rattle.gs_cluster_channel.specs.Named.{IsNamed, known};
    ghost use Rattle.gs_cluster_channel.specs.Settled.{Putting, coded_putting};

    ghost Value = { Putting };

    ghost coded = { coded_putting };

    ghost view = { λ w. record { to = w.to; put = (known w.pass).put } };

    ghost invariant = { λ w. IsSeatAt (sends_on w.outlet) w.pass × ((known w.pass).parts ≡ 1) × IsNamed N.names w.to w.pass };
}

impl<N: Naming> Way<N> {
    pub(crate) fn new(to: NodeId, outlet: Outlet, pass: Pass<Sent, Hand>) -> Way<N>
        requires seat { IsSeatAt (sends_on outlet) pass }
        requires part { view pass ≡ hand 1 0 [] [] }
        requires named { IsNamed N.names to pass }
        ensures { result ≡ record { to = to; put = [] } }
    {
        Way {
            to,
            outlet,
            pass,
            of: PhantomData,
        }
    }

    /// The node that it leads into.
    pub fn to(&self) -> NodeId
        ensures { result ≡ self.now.to }
    {
        self.to
    }

    /// Tries to send: not where the channel is full, or nobody receives any more.
    pub fn put<R: Wait>(&mut self, rt: &R, sent: Sent) -> Tried
        ensures put { self.new ≡ puts (was_put result) sent self.old }
        ensures back { IsBack sent result }
    {
        let Way {
            to: _,
            outlet,
            pass,
            of: _,
        } = self;
        try_put(rt, outlet, pass, sent)
    }
}
