ghost use Rattle.std.specs.Prelude.{◌≡◌, ◌+◌, ◌<◌, ◌↔◌, IfOk, IsTrue, OnErr, OnOk, [], true, vec_len};
ghost use Rattle.gs_cluster_history.specs.Histories.{Among};
ghost use Rattle.gs_cluster_channel.specs.Named.{IsNamed};
ghost use Rattle.gs_cluster_channel.specs.Settled.{AllGoTo, PutBy, hears, less_one};
ghost use Rattle.gs_msg.specs.declared.sent.Sent.{Sent};

use crate::hand::Hand;
use crate::line::{Inlet, Line, Outlet};
use crate::naming::Naming;
use crate::steps::{cut_part, join, learn_total, learn_two_ears, try_take};
use crate::way::Way;
use crossbeam_channel::Pass;
use gs_msg::{NodeId, Sent};
use std::alloc::AllocError;
use std::marker::{Model, PhantomData};
use std::sync::Wait;

/// The receiver's end of the channel into this node. It puts nothing.
#[derive(Drop)]
pub struct Ear<N: Naming> {
    pub(crate) me: NodeId,
    pub(crate) parts: u64,
    pub(crate) outlet: Outlet,
    pub(crate) inlet: Inlet,
    pub(crate) pass: Pass<Sent, Hand>,
    pub(crate) of: PhantomData<N>,
}

impl<N: Naming> Model for Ear<N> {
    ghost use Rattle.std.specs.Prelude.{◌≡◌, []};
    ghost use Rattle.crossbeam_channel.specs.Claims.{IsSeatAt};
    ghost use Rattle.crossbeam_channel.specs.Ends.{sends_on, receives_on};
    ghost use Rattle.gs_cluster_channel.specs.Carried.{hand};
    ghost use Rattle.gs_cluster_channel.specs.Named.{IsNamed, known};
    ghost use Rattle.gs_cluster_channel.specs.Settled.{Hearing, coded_hearing};

    ghost Value = { Hearing };

    ghost coded = { coded_hearing };

    ghost view = { λ e. record { me = e.me; parts = e.parts; taken = (known e.pass).taken } };

    ghost invariant = { λ e. IsSeatAt (sends_on e.outlet) e.pass × (receives_on e.inlet ≡ sends_on e.outlet) × ((known e.pass).parts ≡ e.parts) × ((known e.pass).ears ≡ 1) × ((known e.pass).put ≡ []) × IsNamed N.names e.me e.pass };
}

impl<N: Naming> Ear<N> {
    /// The receiver's end of a channel that is named, with the whole pass to it.
    pub fn new(line: Line) -> Ear<N>
        requires { IsNamed N.names line.me line.pass }
        ensures { result ≡ record { me = line.me; parts = 1024; taken = [] } }
    {
        let Line {
            me,
            outlet,
            inlet,
            pass,
        } = line;
        Ear {
            me,
            parts: 1024,
            outlet,
            inlet,
            pass,
            of: PhantomData,
        }
    }

    /// Cuts a way into the node off. Where memory is wanting nothing changes.
    pub fn way(&mut self) -> Result<Way<N>, AllocError>
        requires { 1 < self.old.parts }
        ensures ok { OnOk result (self.new ≡ less_one self.old) }
        ensures err { OnErr result (self.new ≡ self.old) }
        ensures way { IfOk result (λ way. way ≡ record { to = self.old.me; put = [] }) }
    {
        let Ear {
            me,
            parts,
            outlet,
            inlet: _,
            pass,
            of: _,
        } = self;
        let theirs = outlet.try_clone()?;
        let to = *me;
        *parts -= 1;
        let part = cut_part(outlet, pass);
        Ok(Way::new(to, theirs, part))
    }

    /// Its node.
    pub fn me(&self) -> NodeId
        ensures { result ≡ self.now.me }
    {
        self.me
    }

    /// Takes the message that has waited longest, if there is one.
    pub fn take<R: Wait>(&mut self, rt: &R) -> Option<Sent>
        ensures { self.new ≡ hears result self.old }
    {
        let Ear {
            me: _,
            parts: _,
            outlet: _,
            inlet,
            pass,
            of: _,
        } = self;
        try_take(rt, inlet, pass)
    }
}

/// All that an ear has taken was put by these ways into its node, where they have every part between them. Else it is false.
pub fn settle<N: Naming>(ear: Ear<N>, ways: Vec<Way<N>>) -> bool
    requires { AllGoTo ear.me ways.items }
    ensures all { IsTrue result ↔ (ear.parts + vec_len ways ≡ 1024) }
    ensures put { result ≡ true → (x : Sent) → Among ear.taken x → PutBy ways.items x }
{
    let Ear {
        me: _,
        parts,
        outlet,
        inlet: _,
        mut pass,
        of: _,
    } = ear;
    if parts > 1024 || ways.len() as u64 != 1024 - parts {
        return false;
    }
    for way in ways {
        let Way {
            to: _,
            outlet: _,
            pass: other,
            of: _,
        } = way;
        join(&outlet, &mut pass, other);
    }
    learn_total(&outlet, &mut pass);
    true
}

/// No two ears are of one node.
pub fn two_ears<N: Naming>(first: Ear<N>, second: Ear<N>)
    requires { first.me ≡ second.me }
    ensures { ⊥ }
{
    let Ear {
        me: _,
        parts: _,
        outlet,
        inlet: _,
        mut pass,
        of: _,
    } = first;
    let Ear {
        me: _,
        parts: _,
        outlet: _,
        inlet: _,
        pass: other,
        of: _,
    } = second;
    join(&outlet, &mut pass, other);
    learn_two_ears(&outlet, &mut pass);
}
