//! What a `World` makes is a run as the laws over runs have it.

ghost use Rattle.std.specs.Prelude.{ℕ, IfOk};
ghost use Rattle.std.specs.List.{AllByRecursion};
ghost use Rattle.gs_base.specs.Told.{IsNumber};
ghost use Rattle.gs_base.specs.declared.config.Config.{Config};
ghost use Rattle.gs_journal.specs.Memory.{bytes_of, times_failed};
ghost use Rattle.gs_nodes.specs.NewDisks.{OverEmpty};
ghost use Rattle.gs_journal.specs.Faults.{Failing};
ghost use Rattle.gs_world.specs.Beginning.{new_disks};
ghost use Rattle.gs_world.specs.Histories.{arms, failures_of, history_of, seen_of};
ghost use Rattle.gs_world.specs.Runs.{AreOutcomes};
ghost use Rattle.gs_laws_world.specs.worlds.Worlds.{AsksByTheRules, AsksUnderANumber, EachBegins, EachGoesOn, EachReplies, EachSteps, HasNumbers, IsReachedSo};

use gs_base::{Config, Refusal, ReqId};
use gs_journal::{Disk, MemoryDisk};
use gs_msg::{Event, Happening};
use gs_world::{Outcome, World};
use std::alloc::{AllocError, Global};

/// A store that begins is a run without steps, and what is done with it leads on by steps of that run: one event or many, and a client's reply that is taken out. So the laws of runs hold of each store of
/// `World` of which no message was forgotten, whose events are within their types.
pub fn each_world_is_reached<D>()
    ensures begins { EachBegins D }
    ensures run { EachGoesOn D }
    ensures step { EachSteps D }
    ensures replies { EachReplies D }
{}

/// The number of a request has 64 bits.
fn has_a_number(req: &ReqId)
    ensures { IsNumber req.now.number }
{
    let _number = req.number;
}

/// What a client asks is under such a number.
fn asks_under_a_number(happening: &Happening)
    ensures { AsksUnderANumber happening.now }
{
    match happening {
        Happening::Ask { req, request: _ } => has_a_number(req),
        _ => {}
    }
}

/// The numbers of an event have 64 bits.
fn has_numbers(event: &Event)
    ensures { HasNumbers event.now }
{
    let _moment = event.moment.0;
    asks_under_a_number(&event.happening);
}

/// Events of their Rust type have numbers of 64 bits.
fn have_numbers(events: &[Event])
    ensures { AllByRecursion HasNumbers events.now }
{
    for event in events.iter() {
        has_numbers(event);
    }
}

/// A new store, as `World::new` begins it: it is a run without steps.
pub fn new_world(alloc: Global, config: Config) -> Result<World<MemoryDisk>, Refusal>
    ensures { IfOk result (λ world. OverEmpty (λ disks. IsReachedSo (seen_of bytes_of) (failures_of times_failed) arms config 1 (new_disks disks) (history_of world))) }
{
    World::new(alloc, config)
}

/// Events one after the other, as `World::run` does them: after them the store is reached, where it was before, and where what clients ask may be asked. That the paths of a call are by the rules, and the place of
/// a chunk has 32 bits, is the one thing that the Rust types don't say.
pub fn run_world<D: Disk + Drop>(
    world: &mut World<D>,
    events: Vec<Event>,
) -> Result<Vec<Outcome>, AllocError>
    ensures reached { (config : Config) (clients : ℕ) (disks : Failing D × Failing D) → IsReachedSo (seen_of D.seen) (failures_of D.failures) arms config clients disks (history_of world.old) → AllByRecursion AsksByTheRules events.items
        → IsReachedSo (seen_of D.seen) (failures_of D.failures) arms config clients disks (history_of world.new) }
    ensures outcomes { IfOk result (λ outcomes. AreOutcomes (seen_of D.seen) (failures_of D.failures) arms events.items outcomes.items (history_of world.old) (history_of world.new)) }
{
    have_numbers(&events);
    world.run(events)
}
