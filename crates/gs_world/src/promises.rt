//! What holds of every run of a store.

ghost use Rattle.gs_world.specs.Laws.{AllStandWhereNoneIsLost, EventsAreSteps, RunsKeepThatOneWasLost, RunsKeepTheNodes, RunsKeepWhatWasSent, ServersAreReached, ServersGoOn};

use gs_block::promises::configurations_have_sizes;

/// Whatever happens, but for messages that are forgotten, each message that was sent stays so, at its place. There are as many nodes as before, of the same configuration.
pub fn what_was_sent_stays<D>()
    ensures sent { RunsKeepWhatWasSent D }
    ensures nodes { RunsKeepTheNodes D }
{}

/// Where no message was lost, all that a node has to send at an event stands behind what it has sent, in order. Once one was lost that
/// stays told: so where nothing is lost behind a run, nothing was lost on the way.
pub fn no_message_is_lost_unseen<D>()
    ensures sent { AllStandWhereNoneIsLost }
    ensures stays { RunsKeepThatOneWasLost D }
{}

/// Events that happen one after the other, whatever each is met by, are steps: so the laws of all steps hold of what a run makes.
pub fn events_are_steps<D>()
    ensures { EventsAreSteps D }
{}

/// Whatever happens in a store, what becomes of a server is events of its own, and each message among them was sent to it. So what
/// holds over each run of a server's events holds of each server in each run of a store.
pub fn servers_go_on_by_their_events<D>()
    ensures { ServersGoOn D }
{}

/// Each server of a store that has begun new is one that has begun with nothing, behind events of its own, whatever has happened. So the
/// laws of such servers hold of it.
pub fn each_server_is_reached<D>()
    ensures { ServersAreReached D }
{
    configurations_have_sizes();
}
