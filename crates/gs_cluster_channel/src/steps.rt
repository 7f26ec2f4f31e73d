// The steps of a channel under its rule: all else goes by these.
ghost use Rattle.std.specs.Prelude.{◌≡◌, ◌-◌, ◌<◌, ◌≤◌, []};
ghost use Rattle.crossbeam_channel.specs.Claims.{view, IsSeatAt};
ghost use Rattle.crossbeam_channel.specs.Ends.{sends_on, receives_on};
ghost use Rattle.gs_cluster_channel.specs.Carried.{HasPut, HasTaken, hand, joined};
ghost use Rattle.gs_cluster_channel.specs.Tried.{IsBack, was_put};
ghost use Rattle.gs_cluster_history.specs.Histories.{Among};
ghost use Rattle.gs_msg.specs.declared.sent.Sent.{Sent};

use crate::hand::{Cut, Hand, Joined, Puts, Takes, Total, TwoEars};
use crate::line::{Inlet, Outlet};
use crate::tried::Tried;
use crossbeam_channel::{Pass, TrySendError};
use gs_msg::Sent;
use std::sync::Wait;

pub(crate) fn try_put<R: Wait>(
    rt: &R,
    outlet: &Outlet,
    pass: &mut Pass<Sent, Hand>,
    sent: Sent,
) -> Tried
    requires seat { IsSeatAt (sends_on outlet.now) pass.old }
    requires part { 0 < (view pass.old).parts }
    ensures seat { IsSeatAt (sends_on outlet.now) pass.new }
    ensures put { HasPut (was_put result) sent (view pass.old) (view pass.new) }
    ensures back { IsBack sent result }
{
    match outlet.try_send_as::<Puts, R>(rt, pass, sent) {
        Ok(()) => Tried::Put,
        Err(TrySendError::Disconnected(_)) => Tried::Lost,
        Err(TrySendError::Full(back)) => Tried::Back(back),
        Err(TrySendError::OutOfMemory(back)) => Tried::Back(back),
    }
}

pub(crate) fn try_take<R: Wait>(rt: &R, inlet: &Inlet, pass: &mut Pass<Sent, Hand>) -> Option<Sent>
    requires seat { IsSeatAt (receives_on inlet.now) pass.old }
    ensures seat { IsSeatAt (receives_on inlet.now) pass.new }
    ensures taken { HasTaken result (view pass.old) (view pass.new) }
{
    inlet.try_recv_as::<Takes, R>(rt, pass).ok()
}

/// A pass gets all that another of the same channel has.
pub(crate) fn join(outlet: &Outlet, pass: &mut Pass<Sent, Hand>, other: Pass<Sent, Hand>)
    requires seat { IsSeatAt (sends_on outlet.now) pass.old × IsSeatAt (sends_on outlet.now) other }
    ensures seat { IsSeatAt (sends_on outlet.now) pass.new }
    ensures joined { view pass.new ≡ joined (view pass.old) (view other) }
{
    outlet.absorb::<Joined>(pass, other);
}

pub(crate) fn learn_total(outlet: &Outlet, pass: &mut Pass<Sent, Hand>)
    requires seat { IsSeatAt (sends_on outlet.now) pass.old }
    requires all { (view pass.old).parts ≡ 1024 }
    ensures { (x : Sent) → Among (view pass.old).taken x → Among (view pass.old).put x }
{
    outlet.learn_as::<Total>(pass);
}

pub(crate) fn learn_two_ears(outlet: &Outlet, pass: &mut Pass<Sent, Hand>)
    requires seat { IsSeatAt (sends_on outlet.now) pass.old }
    requires two { 2 ≤ (view pass.old).ears }
    ensures { ⊥ }
{
    outlet.learn_as::<TwoEars>(pass);
}

pub(crate) fn cut_part(outlet: &Outlet, pass: &mut Pass<Sent, Hand>) -> Pass<Sent, Hand>
    requires seat { IsSeatAt (sends_on outlet.now) pass.old }
    requires more { 1 < (view pass.old).parts }
    ensures seat { IsSeatAt (sends_on outlet.now) pass.new × IsSeatAt (sends_on outlet.now) result }
    ensures left { view pass.new ≡ hand ((view pass.old).parts - 1) (view pass.old).ears (view pass.old).put (view pass.old).taken }
    ensures right { view result ≡ hand 1 0 [] [] }
{
    outlet.another::<Cut>(pass)
}
