//! What goes along with a run of a store beside its nodes: which edits its chunks have in each view, which of them are settled, and what of a prepare stands unharmed (an account). Then what holds of its chunks
//! over every run: what their replicas stand for, which edits stay, what reads give, and what servers keep of a prepare; and what an upgrade promises, of the names too: an accepted rollback gives
//! back what stood at the last accepted prepare.

ghost use Rattle.std.specs.Prelude.{List, ℕ, ◌≡◌, Bool, [], true};
ghost use Rattle.gs_base.specs.declared.config.Config.{Config};
ghost use Rattle.gs_base.specs.declared.numbers.ReqId.{ReqId};
ghost use Rattle.gs_laws_chunks.specs.accounts.Rising.{EpochsNeverFall};
ghost use Rattle.gs_laws_chunks.specs.accounts.Running.{Setup, BlocksAmong, FirstIsOne, HaveAccounts, NextIsOne, ReachedStaySound};
ghost use Rattle.gs_laws_chunks.specs.accounts.SeenThrough.{EachIsSeenThrough, EachSeesOnThrough, ReachedStayThrough};
ghost use Rattle.gs_laws_chunks.specs.accounts.Agreeing.{BirthsAgree, BlanksStay, ListsStayOn, MastersAgree, MastersKeepLists, ServersAgree, ServersKeepLists, StillAgree, StillKeepsLists};
ghost use Rattle.gs_laws_chunks.specs.accounts.Reached.{EachIsARun, EachIsARunThrough, EachLeadsOn, EachLeadsOnThrough};
ghost use Rattle.gs_laws_chunks.specs.accounts.Copying.{CopiesAreOfViews, CopiesInherit};
ghost use Rattle.gs_laws_chunks.specs.accounts.Acknowledged.{DoneStays, RepeatsAreAlike};
ghost use Rattle.gs_laws_chunks.specs.accounts.Asked.{EditsWereAsked};
ghost use Rattle.gs_laws_chunks.specs.accounts.Joining.{StoresAgreeFirst, StoresAgreeOn};
ghost use Rattle.gs_laws_chunks.specs.accounts.OnePlace.{EditsHaveOnePlace};
ghost use Rattle.gs_laws_chunks.specs.accounts.Ending.{PreparesEndEdits, ViewsEndEdits};
ghost use Rattle.gs_laws_chunks.specs.accounts.Others.{OthersWereCopied};
ghost use Rattle.gs_laws_chunks.specs.accounts.Outcomes.{EditsComeTo};
ghost use Rattle.gs_laws_chunks.specs.accounts.ViewsRise.{LocationsAreNotAbove, ViewsRise};
ghost use Rattle.gs_laws_chunks.specs.accounts.Overtaking.{EditsOvertake, EditsStandInOrder, SettledOvertake};
ghost use Rattle.gs_laws_chunks.specs.accounts.Reading.{BytesAreFetched, LocationsWereLookedUp, ReadsAreLegal};
ghost use Rattle.gs_laws_chunks.specs.accounts.Sealing.{RolledBackStay, SurvivorsKeepTheirText, SurvivorsName};
ghost use Rattle.gs_laws_chunks.specs.accounts.Standing.{QuietStaysStill, ReplicasStand};
ghost use Rattle.gs_laws_chunks.specs.accounts.Durables.{ToldIsHad};
ghost use Rattle.gs_laws_chunks.specs.accounts.Seeing.{EachIsSeen, EachSeesOn, StoresStayIntact};
ghost use Rattle.gs_laws_chunks.specs.accounts.Accepting.{CommitsAreDecided, CommitsDoOneThing, MembersHaveNamed, NoneGoesBackUnnamed, OneSurvivorIsEnough, SurvivorsAreAccepted};
ghost use Rattle.gs_laws_chunks.specs.accounts.Back.{EachIsOfAPrepare, GivesBytesBack, GivesNamesBack, GivesNamesTold, GivesNoOtherBack, GivesReplicasBack, GivesSettledBack, KeepsBytes, NoOtherText, ToldBytesBack, ToldKeepsBytes, ToldNamesBack};
ghost use Rattle.gs_block.specs.Written.{HasBlocks};
ghost use Rattle.gs_laws_chunks.specs.accounts.Reaching.{EachWorldHasAnAccount};

use gs_block::promises::configurations_have_sizes;
use gs_laws_server::{a_message_edits_a_replica_by_what_it_says, an_event_calls_what_it_says};

/// Each run of a store has an account: what its records tell, and beside that which edits its chunks have in each view, and which of them are settled. There is one alone. So it is whatever disks of the master
/// fail, in its restarts or at its records, as often as they may: once one has failed the account goes by what the disks tell, which is one thing. A setup says whether disks may fail in its runs.
pub fn runs_have_accounts<D>()
    ensures some { (x : Setup D) → HaveAccounts x }
    ensures first { (x : Setup D) → FirstIsOne x }
    ensures next { (x : Setup D) → NextIsOne x }
{}

/// Behind each run in which no disk may fail the master stands firm, or its disks wait and tell one; all that was sent keeps to its types; and in each step none fails.
fn runs_stay_sound<D>()
    ensures { (x : Setup D) → ReachedStaySound x }
{}

/// A store of `World` that is reached by events within their types, over disks that said nothing, is reached by a run in which disks may fail (`each_world_is_reached` of `gs_laws_world` says which are reached so). So what holds of each
/// store that is reached holds of it, where different blocks that its servers ever had have different digests.
pub fn each_world_has_an_account<D>()
    ensures { EachWorldHasAnAccount D }
{}

/// Where the empty block is among some, and each block of a text up to its end, so is whatever is cut out at any place of a block.
fn blocks_that_stand_are_all_blocks()
    ensures { (size : ℕ) (among : List ℕ → Bool) (bytes : List ℕ) → among [] ≡ true → BlocksAmong size among bytes → HasBlocks size among bytes }
{}

/// Each chunk of a store is a run of its machine: behind each run of a store that has begun new, in which no disk of the master fails and all that is asked is within its types, each chunk
/// is not born yet, or a world of its machine, which is reached from its birth, shows the store as it is then: what each server keeps of it, the master's part, and all that was ever said.
/// Copies among them. Different blocks of the run are to have different digests. From one world of a run to a later one the machine of each chunk leads on, from the same birth. So it is where disks of the master
/// fail, of the store as it is left: once one has failed, what the disks tell is all that is left of the master.
pub(crate) fn each_chunk_of_a_store_is_a_run_of_its_machine<D>()
    ensures reached { (x : Setup D) → EachIsARun x }
    ensures onward { (x : Setup D) → EachLeadsOn x }
    ensures left { (x : Setup D) → EachIsARunThrough x }
    ensures left_onward { (x : Setup D) → EachLeadsOnThrough x }
{
    configurations_have_sizes();
    a_message_edits_a_replica_by_what_it_says();
}

/// What an account has of the records is what is durable at the master, as long as no disk fails.
fn what_the_records_tell_is_what_the_master_has<D>()
    ensures { (seen : D → List ℕ) → ToldIsHad seen }
{}

/// The account of a run agrees with the machine of each chunk: its lists are those of the views that stood, its counts those that were reached, what it has of a prepare is
/// the prepared list, and what is told to be copied is a list that it has. It goes on so at each step.
fn accounts_agree_with_machines<D>()
    ensures servers { (seen : D → List ℕ) (config : Config) (bytes : ReqId → List ℕ) → ServersAgree seen config bytes }
    ensures masters { (seen : D → List ℕ) (config : Config) (bytes : ReqId → List ℕ) → MastersAgree seen config bytes }
    ensures still { (config : Config) (bytes : ReqId → List ℕ) → StillAgree D config bytes }
    ensures blank { BlanksStay D }
    ensures births { (config : Config) (bytes : ReqId → List ℕ) → BirthsAgree D config bytes }
{
    a_message_edits_a_replica_by_what_it_says();
}

/// What an account has of a view that stood as the machine has it, it has so behind each step, and from world to world.
fn what_accounts_have_as_machines_stays<D>()
    ensures servers { (seen : D → List ℕ) (config : Config) (bytes : ReqId → List ℕ) → ServersKeepLists seen config bytes }
    ensures masters { (seen : D → List ℕ) (config : Config) (bytes : ReqId → List ℕ) → MastersKeepLists seen config bytes }
    ensures still { StillKeepsLists D }
    ensures onward { ListsStayOn }
{
    a_message_edits_a_replica_by_what_it_says();
}

/// The account of a run of a store agrees with the machines of all its chunks when the store begins new, and behind each step where it did so before it. A copy was born with
/// what the account has of the view that it is a copy of.
fn accounts_of_stores_agree_with_machines<D>()
    ensures first { (x : Setup D) (bytes : ReqId → List ℕ) → StoresAgreeFirst x bytes }
    ensures steps { (x : Setup D) (bytes : ReqId → List ℕ) → StoresAgreeOn x bytes }
{
    a_message_edits_a_replica_by_what_it_says();
}

/// Who survives by the account of a run, of those from whom a rollback may take a chunk, is intact in the chunk's machine, behind each step of a store at which it was so before it.
fn accounts_tell_who_is_intact<D>()
    ensures { (x : Setup D) (bytes : ReqId → List ℕ) → StoresStayIntact x bytes }
{}

/// Behind each run of a store that has begun new, in which no disk of the master fails and all that is asked is within its types, where different blocks have different digests: each chunk is not
/// born yet, or a machine of it shows the store; the account of the run agrees with the machines, and who survives by it is intact in them. In a later world of the run each
/// chunk that lived leads on, and what the account had of its views it has still.
fn all_chunks_are_seen<D>()
    ensures reached { (x : Setup D) → EachIsSeen x }
    ensures onward { (x : Setup D) → EachSeesOn x }
{
    configurations_have_sizes();
    a_message_edits_a_replica_by_what_it_says();
}

/// So it is whatever disks of the master fail, as often as they may. Behind each run the master stands, or its disks tell what one may stand on that is started again. Once a disk has failed
/// what they tell is all that is left of the master, and the account goes by that: then too each chunk is not born yet, or a machine of it shows the store; the account agrees with the machines, and
/// who survives by it is intact in them; and in a later world of the run each chunk that lived leads on. So behind a failure what stood before it stands, with so many records of the event at which it failed.
fn all_chunks_are_seen_whatever_disks_fail<D>()
    ensures stays { (x : Setup D) → ReachedStayThrough x }
    ensures reached { (x : Setup D) → EachIsSeenThrough x }
    ensures onward { (x : Setup D) → EachSeesOnThrough x }
{
    configurations_have_sizes();
    a_message_edits_a_replica_by_what_it_says();
}

/// Behind each run of a store, each live replica stands for a beginning of a list: it has applied that many edits of one view's list, from the first on, has as many bytes as they leave, and each of its blocks
/// that has its digest holds theirs. The list is the chunk's own, or, until a view of a copy is settled, that of which it is a copy. Here and below a run is one that has begun new, all that is asked in it
/// is within its types, and different blocks have different digests; whatever disks of the master fail in it, but where it is said that none may.
pub fn replicas_stand_for_beginnings_of_lists<D>()
    ensures { (x : Setup D) → ReplicasStand x }
{
    configurations_have_sizes();
    a_message_edits_a_replica_by_what_it_says();
}

/// Behind each run each member of a quiet chunk, of which the view was settled without a primary and no other is proposed, while no rollback is going on, has as many edits as the view counts, under its stamp, if it has a live
/// replica, and they are all that is settled. No message that was ever sent makes it take another edit.
pub fn quiet_chunks_are_still<D>()
    ensures { (x : Setup D) → QuietStaysStill x }
{
    configurations_have_sizes();
    a_message_edits_a_replica_by_what_it_says();
    an_event_calls_what_it_says();
}

/// Each edit in each list that the account of a run has, of whichever chunk and view, is one that was asked for: a message was sent that asks for it, and it is what is numbered for that operation behind the edits
/// before it, with the bytes that were pushed, or a pad where its record didn't fit. All that was ever sent for its request asks for the same, and names the same chunk and the same stamp; and bytes were pushed for it,
/// unless it is a pad. No record is longer than a quarter of a chunk.
pub fn each_edit_was_asked_for<D>()
    ensures { (x : Setup D) → EditsWereAsked x }
{
    configurations_have_sizes();
    a_message_edits_a_replica_by_what_it_says();
}

/// An edit that a client was told done was numbered under the stamp that it was asked for under, once; or it is a record that passed a full chunk: the full text is of the view under whose stamp it was asked
/// for, and no list of that chunk has an edit of its request, then or later. No record is longer than a quarter of a chunk. What was numbered is the edit that was asked for: of this chunk, with the bytes that
/// were pushed, or a pad where its record didn't fit behind the edits before it. It is settled then and in each later world of the run in which a file has the chunk, or had it, at the same place, behind the
/// same edits, unless the upgrade within which it was numbered was rolled back. Whoever is told twice that the edit of one request is done is told the same outcome.
pub fn done_edits_stay<D>()
    ensures stays { (x : Setup D) → DoneStays x }
    ensures repeats { (x : Setup D) → RepeatsAreAlike x }
{
    configurations_have_sizes();
    a_message_edits_a_replica_by_what_it_says();
}

/// An edit is what was asked for, behind the edits before it, and so is what its client is told: a write is that write; a record that fits stands right after the text, and its client is told where that ended; one that doesn't fit fills the chunk up.
fn an_edit_comes_to_what_was_asked_for()
    ensures { EditsComeTo }
{}

/// An edit that was asked for of a chunk has one place in it. Each list of the chunk that has the edit has it there, behind the same edits: that of any stamp, in any world of a run, whatever was rolled back in between.
fn each_edit_has_one_place<D>()
    ensures { (x : Setup D) → EditsHaveOnePlace x }
{
    configurations_have_sizes();
    a_message_edits_a_replica_by_what_it_says();
}

/// The edits of one client stand in each list of a chunk in the order of its requests' numbers. So an edit overtakes: once it stands in a list, no edit that its client asked for before it comes to any list that
/// has it, but those that stood in front of it already. And once it is settled, none of them gets settled while it stays so.
fn edits_of_a_client_stand_in_its_order<D>()
    ensures order { (x : Setup D) → EditsStandInOrder x }
    ensures overtakes { (x : Setup D) → EditsOvertake x }
    ensures settled { (x : Setup D) → SettledOvertake x }
{
    configurations_have_sizes();
    a_message_edits_a_replica_by_what_it_says();
}

/// An accepted prepare ends what was asked for before it: while that upgrade stands, or is rolled back, no edit is settled that was asked for under a stamp of an earlier epoch, but those that were settled at the prepare.
fn a_prepare_ends_what_was_asked_before_it<D>()
    ensures { (x : Setup D) → PreparesEndEdits x }
{
    configurations_have_sizes();
    a_message_edits_a_replica_by_what_it_says();
}

/// An edit that was asked for of another chunk stands in a list of a chunk only where it was copied: the chunk is a copy, and what was copied has it at the same place. So to a copy nothing comes that is asked for of its source.
fn edits_of_other_chunks_were_copied<D>()
    ensures { (x : Setup D) → OthersWereCopied x }
{
    configurations_have_sizes();
    a_message_edits_a_replica_by_what_it_says();
}

/// A settled view without a primary ends what was asked for under its stamp and under earlier ones: no such edit is settled later that isn't settled then, unless the epoch of the view was ended by a rollback. It is of a chunk that a file has then.
fn a_view_without_a_primary_ends_what_was_asked_before_it<D>()
    ensures { (x : Setup D) → ViewsEndEdits x }
{
    configurations_have_sizes();
    a_message_edits_a_replica_by_what_it_says();
}

/// The settled view of a chunk is of no lower stamp later. So no view that a client was ever told is of a stamp above that of the settled one.
fn settled_views_rise<D>()
    ensures rise { (x : Setup D) → ViewsRise x }
    ensures told { (x : Setup D) → LocationsAreNotAbove x }
{
    configurations_have_sizes();
    a_message_edits_a_replica_by_what_it_says();
}

/// Whatever has happened since a chunk was looked up, a member of the view that was told gives a read in that epoch the part that was asked for of the text of a beginning of the list of this view or a later one, with all
/// edits that were settled at the look-up; or it refuses. And whatever is given at any event is given by a server that is asked for that request then, and is the
/// part asked for of the text of a beginning of a list: nothing else is ever read. That list is the chunk's own, or, until the first view of a copy is settled, that of which it is one.
pub fn reads_are_legal<D>()
    ensures legal { (x : Setup D) → ReadsAreLegal x }
    ensures fetched { (x : Setup D) → BytesAreFetched x }
{
    configurations_have_sizes();
    a_message_edits_a_replica_by_what_it_says();
}

/// While an upgrade stands, and while it is rolled back, each server that survives keeps the text of the prepare: live under the stamp of then until it learns of the prepare, sealed while it knows of the upgrade, and
/// live under the first stamp of the rollback's epoch once it has learned of that. And it names the chunk where it learns of the rollback, and where it is told so again. One that has
/// rolled back keeps that text behind the commit too, whatever happens, until it makes a greater promise, or its replica is lost, damaged or dropped.
pub fn survivors_keep_what_stood_at_the_prepare<D>()
    ensures keep { (x : Setup D) → SurvivorsKeepTheirText x }
    ensures name { (x : Setup D) → SurvivorsName x }
    ensures stay { (x : Setup D) → RolledBackStay x }
{
    configurations_have_sizes();
    a_message_edits_a_replica_by_what_it_says();
}

/// Each view of a chunk that a client was ever told was looked up: to the same store leads a run that passes a world in which the call that is answered had been sent. The records told there that a file has the chunk, or
/// had it, that this is its settled view, and that this is the epoch; and nothing was rolled back. It needn't be where the client was first told: an answer that is kept may be sent later, when another view has been settled, and by a master of which
/// a disk has failed. Where one fails at the turn of a look-up, the caller is told that it is unsure, and of no chunk.
fn locations_were_looked_up<D>()
    ensures { (x : Setup D) → LocationsWereLookedUp x }
{
    configurations_have_sizes();
    a_message_edits_a_replica_by_what_it_says();
}

/// A chunk that is a copy, once a view of it is settled, has settled all edits that the chunk of which it is one has under the stamp that was copied, and they stand first. It is so in each
/// world of each run, also of a chunk that no file has any more; and of the edits that were under that stamp in an earlier world of the run in which it was a copy. That stamp is the one of a view of its source
/// that was settled right before or right behind the step at which the chunk became a copy, and in which nobody might number; and the source has no other edits under it than it had then, among them all that it had settled in it.
pub fn copies_inherit<D>()
    ensures inherit { (x : Setup D) → CopiesInherit x }
    ensures views { (x : Setup D) → CopiesAreOfViews x }
{
    configurations_have_sizes();
    a_message_edits_a_replica_by_what_it_says();
}

/// An accepted rollback gives back the names of the last accepted prepare: the tree with the handles of its files, and how often each stands there; whatever has happened between, at whichever nodes. No more is
/// asked of a run than that all that is asked is within its types, and in the clause by accounts that digests tell blocks apart; disks of the master may fail as they like. Where one fails at the record of a commit, the rollback is done if that record stands: it is told
/// where the master is started again.
pub fn an_accepted_rollback_gives_the_names_back<D>()
    ensures kept { (x : Setup D) → GivesNamesBack x }
    ensures told { (x : Setup D) → ToldNamesBack x }
    ensures accounts { (x : Setup D) → GivesNamesTold x }
{}

/// No rollback is done unless each chunk that stood in a file at the prepare was named, since the master was restarted last, by a server that had it by its view of then or was recorded as a holder since.
/// Behind one each such chunk has a member, and each member is a server that has named it so; nobody leads its view, which has the first stamp of the epoch.
pub fn no_rollback_is_done_unnamed<D>()
    ensures named { (x : Setup D) → NoneGoesBackUnnamed x }
    ensures members { (x : Setup D) → MembersHaveNamed x }
{}

/// A client's new call to commit a rollback is accepted only where each chunk that stood in a file at the prepare was named, and the rollback is done then. Else it is refused for the lowest such chunk that
/// wasn't named, or for want of room in the journal or of memory; and the rollback goes on as it was, with nothing else durable than the refusal of this request, where that is kept. So it is whatever disks have failed before, if none
/// has since the master was opened and none fails at the call. And whichever fail, even then: what is told stays, or the refusal is kept beside it, or the rollback is done, and all was named.
pub fn a_commit_is_decided_by_what_was_named<D>()
    ensures decided { (x : Setup D) → CommitsAreDecided x }
    ensures whatever_fails { (x : Setup D) → CommitsDoOneThing x }
{
    configurations_have_sizes();
    a_message_edits_a_replica_by_what_it_says();
}

/// While a rollback goes on one survivor that has answered is enough for a chunk: what a survivor of the chunk has told that it has learned of the rollback, in a message that the master took, names the chunk, whenever
/// it was sent, if the master wasn't restarted since it took that. So where each chunk that stood in a file at the prepare has such a survivor, all were named, as a commit asks for; and a client's new
/// call to commit is accepted, but for want of room in the journal or of memory, and where a disk of the master has failed since it was opened or fails at the call.
pub fn one_survivor_is_enough<D>()
    ensures named { (x : Setup D) → OneSurvivorIsEnough x }
    ensures accepted { (x : Setup D) → SurvivorsAreAccepted x }
{
    configurations_have_sizes();
    a_message_edits_a_replica_by_what_it_says();
}

/// A store at which a rollback is done is reached by a run in which its prepare was accepted, with no upgrade ended between. It needn't be the given run. So what holds of rollbacks of prepared upgrades holds of each that is done.
pub fn each_rollback_is_of_a_prepare<D>()
    ensures { (x : Setup D) → EachIsOfAPrepare x }
{}

/// Each chunk that a file had at the prepare, or before, has a settled view behind the commit of a rollback, no other chunk has one, and what is settled of it is what was settled of it right behind the prepare. And then and
/// later, whatever happens, a replica of a member of that view that is live, each block with its digest, has just the text of that, until its server makes a greater promise. And each member has such a
/// replica right behind the commit that would have named the chunk on the way, and of which nothing was lost or damaged since.
pub fn a_rollback_gives_back_what_was_settled<D>()
    ensures settled { (x : Setup D) → GivesSettledBack x }
    ensures others { (x : Setup D) → GivesNoOtherBack x }
    ensures text { (x : Setup D) → NoOtherText x }
    ensures replicas { (x : Setup D) → GivesReplicasBack x }
{
    configurations_have_sizes();
    a_message_edits_a_replica_by_what_it_says();
}

/// An accepted rollback gives back what stood at the last accepted prepare, by what the nodes have alone: the names are those of the prepare; and where digests tell blocks apart, of each chunk what a sound replica of a member had right behind
/// the prepare is what each sound replica of a member has behind the rollback; whatever has happened between. And each member has it, live, whose server would have named the chunk on the way, and of which nothing
/// was lost or damaged since.
/// So it is in each run, whatever disks of the master fail. It is said of what a sound master keeps; and of what is told: by it, or, once a disk has failed, by its disks. So a commit at whose record a disk failed has
/// given back all that if the record stands, also before the master is started again, which then opens what was told.
pub fn a_rollback_gives_back_names_and_bytes<D>()
    ensures names { (x : Setup D) → GivesNamesBack x }
    ensures bytes { (x : Setup D) → GivesBytesBack x }
    ensures kept { (x : Setup D) → KeepsBytes x }
    ensures told_names { (x : Setup D) → ToldNamesBack x }
    ensures told_bytes { (x : Setup D) → ToldBytesBack x }
    ensures told_kept { (x : Setup D) → ToldKeepsBytes x }
{
    configurations_have_sizes();
    a_message_edits_a_replica_by_what_it_says();
}

/// Epochs never fall over a run, whatever disks of the master fail in it; and where the epoch is the same at two places of it, so is the phase, or a rollback was committed between. It is said of what is told: by a master of which no disk has failed, or
/// else by its disks.
pub fn epochs_never_fall<D>()
    ensures { (x : Setup D) → EpochsNeverFall x }
{}
