//! For which calls the master of a store does what it does. It is said over each run of the store, whatever disks of the master fail.

ghost use Rattle.std.specs.Prelude.{List, ℕ};
ghost use Rattle.gs_msg.specs.declared.event.DiskId.{DiskId};
ghost use Rattle.gs_nodes.specs.declared.place.MasterPlace.{MasterPlace};
ghost use Rattle.gs_world.specs.Histories.{arms, failures_of, seen_of};
ghost use Rattle.gs_laws_chunks.specs.accounts.Running.{Setup};
ghost use Rattle.gs_laws_world.specs.steady.Unarmed.{unarmed};
ghost use Rattle.gs_laws_chunks.specs.calls.Asked.{ArmsAlone, CallsWaitAsSent, EndsAreCalled, RecordsAreForCalls, TurnsAreForCalls};
ghost use Rattle.gs_laws_chunks.specs.calls.Fresh.{CallsAreUsed, EditsAreUsed, LocationsAreToldSince};
ghost use Rattle.gs_laws_chunks.specs.calls.One.{RequestsAreOneCall};
ghost use Rattle.gs_laws_chunks.specs.calls.Reached.{ReachedHaveRun};
ghost use Rattle.gs_laws_chunks.specs.calls.Told.{DisksWereTold, KeptWereTold, NewWereToldSince, RepliesWereTold, ToldStoodThere};

use gs_block::promises::configurations_have_sizes;
use gs_laws_server::a_message_edits_a_replica_by_what_it_says;

/// A store may arrange failures of disks. That changes nothing that its disks tell, and nothing that the master has in memory. Nor does a store that arranges none.
fn failures_that_are_arranged_change_nothing<D>()
    ensures arms { (seen : D → List ℕ) (failures : D → ℕ) → ArmsAlone (seen_of seen) (failures_of failures) arms }
    ensures unarmed { (seen : D → List ℕ) (failures : D → ℕ) → ArmsAlone seen failures unarmed }
{}

/// A store that is reached with the account of its run has come there by a run as the laws here take it. So they hold of it, beside what is said of its plain view.
fn a_reached_store_has_run<D>()
    ensures { (x : Setup D) → ReachedHaveRun x }
{}

/// In each world of each run, each call that waits at a master was sent to it, and waits at the place that it named. This is said of a master of which no disk has failed.
/// What such a master tells, records and leaves waiting in the turn of a step is for the call that comes, or for one that was sent before and has waited.
/// So is each record that stands after a step, also where a disk fails at the step, after some of the records of its turn. No others ever stand.
/// A record may tell that an epoch has ended, or that a rollback is done. Then just the call for that comes at the step, and it is answered the epoch of the record, and nothing else.
fn each_step_is_for_its_calls<D>()
    ensures waits { (seen : D → List ℕ) (failures : D → ℕ) (armed : DiskId → ℕ → MasterPlace D → MasterPlace D) → CallsWaitAsSent seen failures armed }
    ensures turns { (seen : D → List ℕ) (failures : D → ℕ) (armed : DiskId → ℕ → MasterPlace D → MasterPlace D) → TurnsAreForCalls seen failures armed }
    ensures records { (seen : D → List ℕ) (failures : D → ℕ) (armed : DiskId → ℕ → MasterPlace D → MasterPlace D) → RecordsAreForCalls seen failures armed }
    ensures ends { (seen : D → List ℕ) (failures : D → ℕ) (armed : DiskId → ℕ → MasterPlace D → MasterPlace D) → EndsAreCalled seen failures armed }
{
    configurations_have_sizes();
}

/// All that is ever called in a run under one request is one call. A client takes a number for it that it hasn't had, and nobody else calls.
fn each_request_is_one_call<D>()
    ensures { (seen : D → List ℕ) (failures : D → ℕ) (armed : DiskId → ℕ → MasterPlace D → MasterPlace D) → RequestsAreOneCall seen failures armed }
{
    configurations_have_sizes();
}

/// A reply of a run may tell where a chunk is. It was told so in the turn of a step of that very run, to a call of this very request that was sent before that step.
/// This holds whether the reply is sent then, or is kept and given again, also after failures of disks and restarts. A request that nobody had called yet at some world of the run is told so at a step since.
/// Right after the move that tells so, the chunk stood at the path and the index that the call named, on the view that is told. The view has a primary where the chunk is to be written.
/// These are the names to which so many of the records of that turn lead.
fn each_location_is_of_the_place_that_its_client_asked<D>()
    ensures replies { (seen : D → List ℕ) (failures : D → ℕ) (armed : DiskId → ℕ → MasterPlace D → MasterPlace D) → RepliesWereTold seen failures armed }
    ensures stood { ToldStoodThere D }
    ensures kept { (seen : D → List ℕ) (failures : D → ℕ) (armed : DiskId → ℕ → MasterPlace D → MasterPlace D) → KeptWereTold seen failures armed }
    ensures disks { (seen : D → List ℕ) (failures : D → ℕ) (armed : DiskId → ℕ → MasterPlace D → MasterPlace D) → DisksWereTold seen failures armed }
    ensures since { (seen : D → List ℕ) (failures : D → ℕ) (armed : DiskId → ℕ → MasterPlace D → MasterPlace D) → NewWereToldSince seen failures armed }
{
    configurations_have_sizes();
}

/// Nothing is asked under a number that its client hasn't used yet: no message asks for an edit under it, and none calls. So if a client hasn't used a number in a world of a run, and has a location as its reply to that number later, it was told so at a step since.
fn a_number_that_was_not_used_is_nowhere<D>()
    ensures edits { (x : Setup D) → EditsAreUsed x }
    ensures calls { (seen : D → List ℕ) (failures : D → ℕ) (armed : DiskId → ℕ → MasterPlace D → MasterPlace D) → CallsAreUsed seen failures armed }
    ensures locations { (seen : D → List ℕ) (failures : D → ℕ) (armed : DiskId → ℕ → MasterPlace D → MasterPlace D) → LocationsAreToldSince seen failures armed }
{
    configurations_have_sizes();
    a_message_edits_a_replica_by_what_it_says();
}
