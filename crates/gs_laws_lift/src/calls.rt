//! For which call the master does what it does: what it records, and where it says that a chunk is.

ghost use Rattle.gs_laws_lift.specs.calls.Ended.{EndsAreAnswered, ScansAreExact};
ghost use Rattle.gs_laws_lift.specs.calls.Events.{CutsAreAskedFor, EventsAreAskedFor, RunsAreAskedFor, StepsAreAskedFor};
ghost use Rattle.gs_laws_lift.specs.calls.Recorded.{RecordsAreFor};
ghost use Rattle.gs_laws_lift.specs.calls.Told.{KeptAreFor, PartsTellFor, SentAreFor};
ghost use Rattle.gs_laws_lift.specs.calls.Waits.{AskedGrow, AskedStart, AskedStay};

/// Each call that waits was heard, has the locks of its file, and waits at the place that it named.
/// A call to find a chunk for writing waits for the chunk that stands there, or for its copy.
/// A call to extend a file waits to add a chunk after the last one. The file has as many chunks still as the call named.
/// This stays through each turn, and where more calls were heard. It holds at a start.
fn calls_wait_at_the_place_that_they_named()
    ensures stays { AskedStay }
    ensures starts { AskedStart }
    ensures grows { AskedGrow }
{}

/// A reply that is sent or kept may tell where a chunk is. Either it was told before, or a move of the turn tells it.
/// In the second case a call of this request was heard, now or before: to find a chunk for reading or writing, or to extend a file.
/// After that move the chunk stands at the place of the file that the call named. The view is its settled one, and the epoch is the one that stands.
/// The view has a primary where the call is to find the chunk for writing.
/// The same holds of replies that stand where a disk fails, by some of the turn's records.
fn a_location_is_of_the_place_that_was_asked()
    ensures sent { SentAreFor }
    ensures kept { KeptAreFor }
    ensures parts { PartsTellFor }
{}

/// An edit of the tree is the one that a call of its request asks for, now or before it waited.
/// A chunk is added to a file for a call to extend that file, after as many chunks as the call named.
/// A chunk takes the place of another for a call to find that place for writing.
/// What is removed or forgotten is so by a scan that is called.
/// A prepare, a finalize, and the beginning and the commit of a rollback are recorded where just that is called, and the call is new.
/// Of records of refusals, views, holders and checkpoints nothing is said here.
fn each_record_is_for_its_call()
    ensures { RecordsAreFor }
{}

/// This holds of each call that doesn't wait, whatever the master has met before.
/// A call that leaves its record to commit a prepare, to finalize, or to begin or commit a rollback is answered the epoch of that record, and nothing else. So one that is refused has left none.
/// A call to scan removes just what is over at its moment, and forgets just what is left without a reference then. It answers how many these are. Or it removes and forgets nothing.
fn what_ends_an_epoch_is_answered_and_scans_are_exact()
    ensures ends { EndsAreAnswered }
    ensures scans { ScansAreExact }
{}

/// All this holds of each event of a steady master: every message, whoever sends it, each tick, a checkpoint and a restart.
/// It holds of a tick also where memory is wanting for the checkpoint that is due, and of each event of every run.
/// Where a disk fails at a record, it holds of the records before that one, and of that one.
fn each_event_is_for_its_calls()
    ensures events { EventsAreAskedFor }
    ensures steps { StepsAreAskedFor }
    ensures cuts { CutsAreAskedFor }
    ensures runs { RunsAreAskedFor }
{}
