//! What holds of every master: laws of what it keeps, over all records and all calls, and over every run of events from a new store.
//! Records fit what they meet and keep what stands, a restart opens what was durable, and a rollback leads back to the prepare.
#![tactic(auto)]

ghost use Rattle.std.specs.Prelude.{◌≡◌, List, None, Some, false};
ghost use Rattle.gs_master_spec.specs.Applied.{is_whole_entry};
ghost use Rattle.std.specs.FinMap as fin;
ghost use Rattle.gs_base.specs.declared.numbers.ClientId.{ClientId};
ghost use Rattle.gs_master_record.specs.Plain.{PlainCheckpoint, PlainEntry};
ghost use Rattle.gs_master_state.specs.Checkpoints.{read_with};
ghost use Rattle.gs_master_spec.specs.Whole.{told_replies, whole_of};
ghost use Rattle.gs_master_spec.specs.declared.reply.KeptReply.{KeptReply};
ghost use Rattle.gs_master_state.specs.inner.Recorded.{SayAlone};
ghost use Rattle.gs_laws_master.specs.Copying.{CopiesAtRest, StepsCopyAtRest};
ghost use Rattle.gs_laws_master.specs.Counting.{CountsKnown, CountsViews, NewOrOut};
ghost use Rattle.gs_laws_master.specs.Membered.{EventsKeepMembers, EventsKeepMembersAtPlaces, RecordsKeepMembers, RunsHaveMembers, SettledHaveMembers, StepsKeepMembersAtPlaces, TellsMembers};
ghost use Rattle.gs_laws_master.specs.Numbered.{EventsKeepNumbers, LeadsToNumbers, RecordsKeepNumbers, RunsKeepNumbers, TellsNumbers};
ghost use Rattle.gs_laws_master.specs.Promises.{AllMessagesFit, AnswersExactly, BeginsWithAll, CallsFit, CallsKeep, CheckpointFits, CommitsExactly, IsToldAgain, KeepsAll, KeepsGiven, KeepsPrepared, LeadsBack, LeadsToKept, LockedElse, LockedExactly, MadeOfTheMost, MessagesFit, MessagesKeep, NothingAtTicks, NothingWhileRolling, PreparesByOneRecord, ProposesFresh, ProposesFreshAtTicks, RefusesInOrder, RefusedAtLocks, RefusedFits, RefusedLeavesAll, RenameRecordsResolved, ResolvedGoesBackAlike, ResolvedMakesTheSame, ResolvesOnce, RollsBack, StartsWell, StepsAtTicksFit, TellsAll, TellsCounters, IsTakenUnlessFailed};
ghost use Rattle.gs_laws_master.specs.Reached.{DisksHold, DisksHoldAtPlaces, DisksHoldAtStepPlaces, OpensFirm, RecoversFirm, RollsBackThrough, RunsRecoverFromLast, SameFromLast};
ghost use Rattle.gs_laws_master.specs.Resting.{PreparesExactly, TakesPrepares};
ghost use Rattle.gs_laws_master.specs.Rooms.{LogsStayWithin, MessagesCopyStill, MessagesCounted, MessagesHaveRoom, OthersLeave, RestartsForget, RunsStayWithin, StepsHaveRoom, StepsLeave, TellsAdd, TellsOf, TellsSince, TicksCopyStill, TicksCounted, TicksHaveRoom, TicksLeave};
ghost use Rattle.gs_laws_master.specs.Standing.{EventsFit, FirmGoesOn, OlderAreOver, OverMakeNothing, RefusedAreOver, RunsFit, RunsRecover, StartsFirm};
ghost use Rattle.gs_laws_master.specs.Written.{AllStepsWritten, AllStepsWrittenAtPlaces, CheckpointsWritten, EventsWritten, EventsWrittenAtPlaces, MessagesWritten, RunsWritten, StartsSteady, StepsWritten};
ghost use Rattle.gs_master_spec.specs.Undoing.{EditsAsTold};

/// While a rollback is begun and not done, no view is begun, and no replica is dropped, whatever message comes and at each
/// tick.
pub fn nothing_is_begun_or_dropped_while_rolling_back()
    ensures messages { NothingWhileRolling }
    ensures ticks { NothingAtTicks }
{}

/// Each version that is proposed is above all that were given before the event, whatever message comes and at each tick.
fn a_proposed_version_is_above_all_before_it()
    ensures messages { ProposesFresh }
    ensures ticks { ProposesFreshAtTicks }
{}

/// The edit of the names that a record tells is the edit that was recorded.
fn edits_are_as_they_are_told()
    ensures { EditsAsTold }
{}

/// A view is made of those that answered the most edits, and one of them was asked: the target of a copy alone makes none.
fn views_are_of_those_with_the_most_edits()
    ensures { MadeOfTheMost }
{}

/// A prepare that is accepted adds one record of 26 bytes and nothing else: that of a prepare, with the next epoch, the moment and
/// how many chunks the master knows. One that is refused adds at most its refusal.
fn a_prepare_adds_one_record()
    ensures { PreparesByOneRecord }
{}

/// A prepare is committed exactly where it was begun, each chunk that the master knows is at rest, and an epoch is left: nothing is asked
/// for a chunk at rest, no other view of it is proposed, and none has its lease; and where its record has room. Else it is refused, and which
/// refusal comes is said of each: that an upgrade stands, that no prepare was begun, the lowest chunk that isn't at rest, that no epoch is
/// left, or that there is no room, in this order. A new such call comes to these tests wherever no disk has failed and no rollback is begun.
fn a_prepare_is_accepted_exactly_where_all_is_quiet()
    ensures order { PreparesExactly }
    ensures taken { TakesPrepares }
{}

/// A call that is refused by the event that brings it leaves the master as it was, in the journal and in memory, but for the kept reply:
/// its refusal, of which a record of its own tells, or which is kept in memory alone. And the refusal is sent to its client, and nothing
/// else is sent.
fn a_refused_call_leaves_all_but_its_reply()
    ensures { RefusedLeavesAll }
{}

/// A call is over where it, or a later one of its client, has been answered, and it doesn't wait. So it is behind the event that refuses it, but for a disk that has failed, a
/// number that is too old, and want of memory. One whose number is below that of the last reply to its client is refused so (19), and over too. And where it comes again it changes nothing then.
fn a_call_that_was_answered_is_over()
    ensures refused { RefusedAreOver }
    ensures older { OlderAreOver }
    ensures again { OverMakeNothing }
{}

/// Before its own tests a new call is refused as `Locked` exactly where a lock of a call that waits is in the way of what it reads or
/// writes, no disk has failed, no rollback stands against it, and no prepare; and then that is what becomes of it. Beside that only finding
/// for writing, a snapshot and a replicate are refused so, where a chunk of theirs moves for another call.
fn a_call_is_locked_exactly_at_a_conflict()
    ensures exactly { LockedExactly }
    ensures taken { RefusedAtLocks }
    ensures alone { LockedElse }
{}

/// A rename is recorded with its target resolved. Where it is accepted nothing stands there, so the recorded rename makes the same names
/// as the one that was asked, and is taken back alike.
fn a_renames_record_tells_the_edit_that_was_asked()
    ensures once { ResolvesOnce }
    ensures names { ResolvedMakesTheSame }
    ensures back { ResolvedGoesBackAlike }
    ensures recorded { RenameRecordsResolved }
{}

/// The records of a call that is refused by the event that brings it fit what they meet and give what is durable afterwards, and
/// they keep what stands.
fn a_refused_call_fits()
    ensures { RefusedFits }
{}

/// The records of each call fit what they meet and give what is durable afterwards, whatever is answered. They keep what stands,
/// where the paths and the numbers that the call's edit says can be told.
fn each_call_fits()
    ensures fit { CallsFit }
    ensures kept { CallsKeep }
{}

/// The same of each message but an answer to a proposal: so of each call, and of what a server reports, has learned, asks to renew or
/// finds damaged.
fn each_message_but_an_answer_fits()
    ensures fit { MessagesFit }
    ensures kept { MessagesKeep }
{}

/// The records of every message fit what they meet and give what is durable afterwards, where the calls that wait may go on; and so
/// do those of each step of a tick.
fn each_message_fits()
    ensures messages { AllMessagesFit }
    ensures ticks { StepsAtTicksFit }
{}

/// A new store is kept and sane, and its calls may go on.
fn a_new_store_starts_well()
    ensures { StartsWell }
{}

/// A new store is firm.
fn a_new_store_is_firm()
    ensures { StartsFirm }
{}

/// What stands, with counters that can be told, is opened as a firm master: so is whatever records lead to from a new store, where each
/// checkpoint among them is that of something that stood, also where they are written anew, as those of a journal of version 1 are.
fn an_opened_master_is_firm()
    ensures opened { OpensFirm }
    ensures recovered { RecoversFirm }
{}

/// The calls of a firm master may go on.
fn a_firm_master_may_go_on()
    ensures { FirmGoesOn }
{}

/// Each event finds a firm master and leaves it firm: every message, whoever sends it, each whole tick, a checkpoint, and a restart on
/// what the journal tells. Its records fit what they meet, and give what is durable afterwards.
fn each_event_fits()
    ensures { EventsFit }
{}

/// Each server that a firm master tells to make a copy of a chunk, by whatever message and at each step of a tick, has the chunk by its
/// settled view, whose stamp it is told; and in the state that is left the chunk is at rest: no other view of it is proposed, none has its
/// lease, and nothing is asked for it.
fn copies_on_write_are_of_chunks_at_rest()
    ensures messages { CopiesAtRest }
    ensures steps { StepsCopyAtRest }
{}

/// The chunks that placement counts are those that the master knows: in a firm master a settled chunk that stands in no file, and never did,
/// is new exactly where no restart took it out. And a master is firm at the start, once it is opened, and behind each event.
fn placement_counts_what_is_known()
    ensures either { NewOrOut }
    ensures counted { CountsKnown }
    ensures views { CountsViews }
{}

/// The records of every message are none, or have room in the log that it meets; so have those of each step of a tick, and of all its steps
/// together. So no event and no run takes the log beyond its limit, a checkpoint neither.
fn each_event_has_room()
    ensures messages { MessagesHaveRoom }
    ensures steps { StepsHaveRoom }
    ensures ticks { TicksHaveRoom }
    ensures within { LogsStayWithin }
    ensures runs { RunsStayWithin }
{}

/// A master's log counts each record of a message, whoever sends it, and of all steps of a tick, and none of these is a checkpoint.
fn logs_count_their_records()
    ensures messages { MessagesCounted }
    ensures ticks { TicksCounted }
{}

/// Each record of each message can be written, whoever sends it, and so can each of each step of a tick, and of all its steps together, and that
/// of a checkpoint: where the master is firm and all that it keeps is within its types, and its journal's limit has 32 bits. So it is of what is
/// left, behind each event and each run from a new store; and of the master that a restart opens on the records of an event before a place of
/// it, whichever, also where a tick's checkpoint is wanting. What comes is within its types too, and a chunk that is found for writing stands at
/// a place in its file that 32 bits can say.
fn each_record_can_be_written()
    ensures start { StartsSteady }
    ensures messages { MessagesWritten }
    ensures steps { StepsWritten }
    ensures ticks { AllStepsWritten }
    ensures checkpoints { CheckpointsWritten }
    ensures events { EventsWritten }
    ensures places { EventsWrittenAtPlaces }
    ensures step_places { AllStepsWrittenAtPlaces }
    ensures runs { RunsWritten }
{}

/// Who has told that it has a chunk as it was sealed is who has said so in the epoch of the rollback that is begun, since it was begun: such
/// a message adds its server for the chunks that it names. Every other message, each tick and a tick's steps alone leave who has told, but
/// the commit of the rollback, behind which nobody has; a restart forgets it; and where no rollback is begun nobody has told of anything.
fn who_has_told_is_who_has_learned()
    ensures added { TellsAdd }
    ensures of_each { TellsOf }
    ensures others { OthersLeave }
    ensures ticks { TicksLeave }
    ensures steps { StepsLeave }
    ensures restarts { RestartsForget }
    ensures since { TellsSince }
{}

/// Each snapshot that is recorded, by whatever message and at each tick, copies only chunks that are still in what is durable as its record
/// meets it: no other view is proposed for such a chunk, and none has its lease.
fn snapshots_copy_what_is_still()
    ensures messages { MessagesCopyStill }
    ensures ticks { TicksCopyStill }
{}

/// Over every run from a new store all records fit, and together they lead from a new store to what is durable; and the master is firm
/// in the end. So a restart on these records opens what was durable. The paths in calls are paths by the rules, and the numbers in
/// messages and of moments are of 64 bits, as the types have it; a device that fails and memory that is wanting are not in it.
fn every_run_fits()
    ensures fit { RunsFit }
    ensures again { RunsRecover }
{}

/// A restart reads the records from the last checkpoint on, which is all that a disk holds, as it would read all: what it opens is the same,
/// wherever all fit. So a restart at the end of any run from a new store opens what was durable, from these alone; and from event to event, also behind restarts,
/// what a disk holds comes to what is durable. Where it holds only an event's records before a place, whichever, it comes to what these make,
/// also where a tick's checkpoint is wanting.
fn a_restart_reads_the_last_checkpoint()
    ensures alike { SameFromLast }
    ensures runs { RunsRecoverFromLast }
    ensures disks { DisksHold }
    ensures places { DisksHoldAtPlaces }
    ensures step_places { DisksHoldAtStepPlaces }
{}

/// The record of a checkpoint fits, and gives what stood but for chunks that stand in no file and never did.
fn a_checkpoint_fits()
    ensures { CheckpointFits }
{}

/// Once a prepare is recorded, nothing is to be taken back, and each settled chunk's view is its prepared one, which its members alone
/// hold; no other chunk has one.
fn a_prepare_begins_with_all_that_stands()
    ensures { BeginsWithAll }
{}

/// No record but a checkpoint takes a counter behind a value that was given, or the epoch back.
fn counters_never_fall()
    ensures { (entry : PlainEntry) → KeepsGiven entry }
{}

/// The number that each standing hidden name tells was given, now and in the names to which a rollback would lead back: each record that can
/// be written keeps it, the checkpoint of what stands tells it, and so it is of whatever such records lead to from a new store. Each event of a
/// firm master keeps it too, so it is so at the end of every run from a new store: no name stands with the number of a deletion to come.
fn hidden_names_tell_numbers_that_were_given()
    ensures records { RecordsKeepNumbers }
    ensures checkpoints { TellsNumbers }
    ensures all { LeadsToNumbers }
    ensures events { EventsKeepNumbers }
    ensures runs { RunsKeepNumbers }
{}

/// Each settled view has a member, but for that of a chunk which is listed without a reference: each record keeps it, the checkpoint of what
/// stands tells it, each event of a steady master keeps it, also its records before a place, whichever, and so it is at the end of every run from
/// a new store. A rollback may be committed though nobody has told of a chunk without a reference, which gets none while it has no member.
fn settled_chunks_have_members()
    ensures settled { SettledHaveMembers }
    ensures records { RecordsKeepMembers }
    ensures checkpoints { TellsMembers }
    ensures events { EventsKeepMembers }
    ensures places { EventsKeepMembersAtPlaces }
    ensures step_places { StepsKeepMembersAtPlaces }
    ensures runs { RunsHaveMembers }
{}

/// A checkpoint of what stands tells its counters and its epoch.
fn a_checkpoint_tells_the_counters()
    ensures { TellsCounters }
{}

/// While an upgrade stands each record but a checkpoint leaves the prepared view of each chunk and the servers that hold it, also those of
/// one which is forgotten, until the upgrade is finalized or rolled back; a record that a server holds a chunk as it stood adds this server
/// alone. A chunk that had no prepared view gets none.
fn prepared_views_stay()
    ensures { (entry : PlainEntry) → KeepsPrepared entry }
{}

/// While an upgrade stands each record that goes on within it leaves the names to which the inverses lead: those of the prepare.
fn inverses_lead_back()
    ensures { (entry : PlainEntry) → LeadsBack entry }
{}

/// Each record but a checkpoint keeps what stands, wherever it can be written and fits. So records lead from a new store to what
/// stands, where each checkpoint among them is that of something that stood.
fn records_keep_what_stands()
    ensures each { (entry : PlainEntry) → is_whole_entry entry ≡ false → KeepsAll entry }
    ensures all { LeadsToKept }
{}

/// A rollback that is done leads back to the names of the prepare. Each chunk that was listed then is quiet under version 0 of the
/// rollback's epoch, without a primary, with the count of edits that it had at the prepare, on exactly those servers that have answered by
/// the rollback's record; and no other chunk is settled. So it is whatever records but checkpoints went on between.
fn a_rollback_leads_back_to_the_prepare()
    ensures { RollsBack }
{}

/// The same where checkpoints are written between, each of what stands then: a rollback leads back to the prepare also through these.
fn a_rollback_leads_back_through_checkpoints()
    ensures { RollsBackThrough }
{}

/// A rollback is committed exactly where it was begun, its edits can be taken back, and each chunk that had a reference at the prepare
/// was told of by a server that had it then: a member of its prepared view, or one that was sent it since with its sealed image; and where
/// its record has room. Else it is refused, and which refusal comes is said of each: that no rollback was begun, that its edits can't be
/// taken back, the lowest chunk that lacks such a server, or that there is no room, in this order. The record of the commit tells of each
/// chunk that was listed at the prepare exactly those servers; and behind it nothing is asked for any chunk. A new call of that is judged
/// so whatever locks stand and whatever is prepared, but for a disk that has failed.
fn a_rollback_is_committed_exactly_where_all_is_restored()
    ensures can { CommitsExactly }
    ensures order { RefusesInOrder }
    ensures answers { AnswersExactly }
    ensures taken { IsTakenUnlessFailed }
{}

/// The checkpoint of what stands tells it, but for chunks that stand in no file and never did. So it is of what records lead to
/// from a new store, where each checkpoint among them is that of something that stood.
fn a_checkpoint_tells_what_stands()
    ensures stands { TellsAll }
    ensures again { IsToldAgain }
{}

/// What takes a deletion, a return, a chunk that is added or changed, a copy or what is forgotten back is said by the edit alone.
fn some_edits_say_what_takes_them_back()
    ensures { SayAlone }
{}

/// What is read from a checkpoint with the replies that it tells is what it says, and one whose replies tell nothing says
/// nothing.
fn a_checkpoint_is_read_with_its_replies()
    ensures told { (c : PlainCheckpoint) (replies : List (ClientId × KeptReply)) → told_replies c.replies ≡ Some replies → whole_of c ≡ read_with c (fin.from_entries replies) }
    ensures none { (c : PlainCheckpoint) → told_replies c.replies ≡ None → whole_of c ≡ None }
{}
