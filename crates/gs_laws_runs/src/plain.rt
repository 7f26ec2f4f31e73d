//! A run of a store, whatever disks of its master fail, where all that is asked is within its types and different blocks have different digests, is a run of the plain machine: what a store shows is a tree of texts, those
//! that are settled by the account of the run, and while an upgrade stands the tree of its prepare; each step is commands that lead from what was shown to what is. So an upgrade that is rolled back leads back to what was
//! shown right behind its prepare, and replicas of members have those texts. Once a disk has failed, what is shown goes by what the disks tell.

ghost use Rattle.gs_laws_chunks.specs.accounts.Back.{GivesReplicasBack, NoOtherText};
ghost use Rattle.gs_laws_chunks.specs.accounts.Running.{Setup};
ghost use Rattle.gs_laws_runs.specs.plain.Back.{RollbacksGoBackPlainly};
ghost use Rattle.gs_laws_runs.specs.plain.Done.{DoneAreMade, ToldAreMade};
ghost use Rattle.gs_laws_runs.specs.plain.Fresh.{AddedAreAsMade, CopiesAreOfPlaces, NewAreAsMade, PlacesAreHeld};
ghost use Rattle.gs_laws_runs.specs.plain.Over.{OverMakesNoEdits, RefusedMakeNoEdits};
ghost use Rattle.gs_laws_runs.specs.plain.Plainly.{BeginsPlain, EditsOnePlace, RunsArePlain, StepsArePlain};
ghost use Rattle.gs_laws_runs.specs.plain.Stepping.{CommitsLead, FinalizesLead, GrowingStepsLead, PreparesLead, StepsOfAccountsLead};
ghost use Rattle.gs_laws_runs.specs.plain.Told.{PutWereTold, SettledWereMade, WaitingWereTold};

use gs_block::promises::configurations_have_sizes;
use gs_laws_chunks::{a_rollback_gives_back_what_was_settled, each_rollback_is_of_a_prepare};
use gs_laws_server::a_message_edits_a_replica_by_what_it_says;

/// A step leads from the plain view before it to that behind it, where more is settled of chunks that stand at one place each, its records change no text
/// but at a rollback, and what is told of the texts behind them is what is settled then, and what was at the last prepare.
fn a_step_leads_from_plain_view_to_plain_view()
    ensures { StepsOfAccountsLead }
{}

/// Where a step neither begins nor ends an upgrade, what was settled of each chunk is a beginning of what is settled then, and the account keeps what it
/// has of the last prepare, it leads from plain view to plain view.
fn a_step_within_an_epoch_leads()
    ensures { GrowingStepsLead }
{}

/// So do the steps at which an upgrade is prepared, finalized and rolled back, each by one record: at a prepare what the account has
/// of each chunk has the text that is settled, and behind a rollback the text of each chunk is that of the prepare.
fn each_end_of_an_upgrade_leads()
    ensures prepares { PreparesLead }
    ensures finalizes { FinalizesLead }
    ensures commits { CommitsLead }
{}

/// At each step of a run edits are settled of no chunk that stands at more than one place of the tree: so no other text changes with one.
pub fn edits_come_to_one_place_each<D>()
    ensures { (x : Setup D) → EditsOnePlace x }
{
    configurations_have_sizes();
    a_message_edits_a_replica_by_what_it_says();
    each_rollback_is_of_a_prepare::<D>();
    a_rollback_gives_back_what_was_settled::<D>();
}

/// Of a chunk that no file has just those edits are settled of which it is a copy, and none where it is no copy, whatever has happened since it was made; and so it is at a step that puts it into
/// a file, but where a rollback is committed.
fn new_chunks_are_as_they_were_made<D>()
    ensures new { (x : Setup D) → NewAreAsMade x }
    ensures added { (x : Setup D) → AddedAreAsMade x }
{
    configurations_have_sizes();
    a_message_edits_a_replica_by_what_it_says();
}

/// A call that waits, at a master of which no disk has failed, to copy a chunk at a place of a file, or for that copy, holds the place in each world of a run: no other call waits so at that file; and while one waits for its
/// copy, nobody may write the chunk until the copy has come there.
fn places_that_are_copied_are_held<D>()
    ensures { (x : Setup D) → PlacesAreHeld x }
{}

/// Whatever disks of the master fail in a run, for a chunk of which a view is settled a message was sent that makes it on a server without edits, or as a copy: a server that was told neither keeps nothing of it, and
/// promises nothing. One that a call is to put in the place of another is made nowhere; so once a view of it is settled it was told to be a copy, and so was each that a step puts in the place of another, before that step.
pub(crate) fn copies_were_told_to_be_such<D>()
    ensures settled { (x : Setup D) → SettledWereMade x }
    ensures waiting { (x : Setup D) → WaitingWereTold x }
    ensures put { (x : Setup D) → PutWereTold x }
{
    configurations_have_sizes();
    a_message_edits_a_replica_by_what_it_says();
}

/// Where a call waits for a copy that was told to a server, and the chunk whose place it is to take stands there still, it is a copy of that chunk; and all that is settled of the chunk is what is copied.
pub fn copies_are_of_what_stands_at_their_places<D>()
    ensures { (x : Setup D) → CopiesAreOfPlaces x }
{
    configurations_have_sizes();
    a_message_edits_a_replica_by_what_it_says();
}

/// A new store shows the machine that has done nothing. Whatever disks of the master fail in a run, each step is commands of the plain machine, by its records and by the edits that are settled at it: at a prepare one of
/// them keeps the tree that stands behind the step, and at the commit of a rollback one puts back what was kept. Where a disk fails at a turn, those of its records are commands that stand: the first ones, perhaps none, or
/// all. A master of which one has failed commands nothing more, and neither does a restart. So is each run of such steps, and commands lead from what was shown to what is.
pub fn a_run_is_a_run_of_the_plain_machine<D>()
    ensures begins { (x : Setup D) → BeginsPlain x }
    ensures steps { (x : Setup D) → StepsArePlain x }
    ensures runs { (x : Setup D) → RunsArePlain x }
{
    configurations_have_sizes();
    a_message_edits_a_replica_by_what_it_says();
    each_rollback_is_of_a_prepare::<D>();
    a_rollback_gives_back_what_was_settled::<D>();
}

/// In a run that begins before anybody asks for an edit, and ends when its client has been told done, the edit is made at one step: it is settled of its chunk right after the step, and wasn't before. It is the one that was asked for, behind the edits
/// before it, and its client is told what it comes to there. Wherever a file had the chunk before the step, it is a command of the plain machine at that path and index, unless a rollback is committed at that step.
/// So it is where a client hasn't used a number yet at the beginning, and at the end has what an edit came to as the reply to that number.
/// Two kinds of edits are left aside: a record that has passed a full chunk, of which nothing is made, and an edit whose chunk no file has any more, or whose upgrade was rolled back.
pub fn a_done_edit_is_made_at_its_place<D>()
    ensures done { (x : Setup D) → DoneAreMade x }
    ensures told { (x : Setup D) → ToldAreMade x }
{
    configurations_have_sizes();
    a_message_edits_a_replica_by_what_it_says();
    each_rollback_is_of_a_prepare::<D>();
    a_rollback_gives_back_what_was_settled::<D>();
}

/// A rollback that is done leads back to the last prepare that was accepted. Right behind that the tree that stood was kept; from there on the run is commands that edit names and texts alone, so it is kept still; and
/// behind the rollback it stands, with the text of each file, and none is kept. These are the texts by the account of the run; and each member of a chunk's view behind the rollback that would have named the chunk on the
/// way, and of which nothing was lost or damaged since, has just that text, live; and none that is sound has another, then or later, until its server makes a greater promise.
pub fn a_rollback_shows_what_its_prepare_showed<D>()
    ensures shown { (x : Setup D) → RollbacksGoBackPlainly x }
    ensures replicas { (x : Setup D) → GivesReplicasBack x }
    ensures text { (x : Setup D) → NoOtherText x }
{
    configurations_have_sizes();
    a_message_edits_a_replica_by_what_it_says();
    each_rollback_is_of_a_prepare::<D>();
    a_rollback_gives_back_what_was_settled::<D>();
}

/// Once a request is over at a master of which no disk has failed, and a record has told its answer, as one tells a refusal wherever there is room, no step of the run makes an edit for it, whatever comes: its own call once
/// more, deliveries of any message ever sent, ticks, restarts, and failing disks. And a step at which the master refuses a request, whether it hears it then or the request has waited, writes no edit of it, whatever disk
/// fails.
pub fn a_request_that_is_over_makes_no_edit_in_a_run<D>()
    ensures over { (x : Setup D) → OverMakesNoEdits x }
    ensures refused { (x : Setup D) → RefusedMakeNoEdits x }
{
    configurations_have_sizes();
    a_message_edits_a_replica_by_what_it_says();
}
