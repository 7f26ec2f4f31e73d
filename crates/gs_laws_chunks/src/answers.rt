//! Which calls clients have made: of each reply that there is in a store its client has asked, and each answer that a client takes was made for its call, since it asked.

ghost use Rattle.std.specs.Prelude.{List, ℕ};
ghost use Rattle.gs_msg.specs.declared.event.DiskId.{DiskId};
ghost use Rattle.gs_nodes.specs.declared.place.MasterPlace.{MasterPlace};
ghost use Rattle.gs_laws_chunks.specs.answers.Alone.{LoneAnswersAreMade, LoneCallsAreForTheMaster, LoneRefusalsAreMade};
ghost use Rattle.gs_laws_chunks.specs.answers.Answered.{AnswersAreMade};
ghost use Rattle.gs_laws_chunks.specs.answers.Asked.{BeginsAsked, ScriptsAsked, StaysAsked, StaysAskedUnarmed};
ghost use Rattle.gs_laws_chunks.specs.answers.Behind.{ListsAreByCommits};
ghost use Rattle.gs_laws_chunks.specs.answers.Calm.{CommitsAreCalm, StaysCalm};
ghost use Rattle.gs_laws_chunks.specs.answers.Changed.{ChangesAreNeverOld, ChangesLeaveStill, ChangesStayCalm, ChangesStayUnderWay, RefusedChangesLeaveStill};
ghost use Rattle.gs_laws_chunks.specs.answers.OfTree.{BeginsSparing, RequestsAreForServers, ScriptsSparing, StaysSparing};
ghost use Rattle.gs_laws_chunks.specs.answers.Replied.{BeginsReplied, StaysReplied};
ghost use Rattle.gs_laws_chunks.specs.answers.Resting.{StaysStill};
ghost use Rattle.gs_laws_chunks.specs.answers.Served.{BeginsServed, CallsAreForTheMaster, RefusalsAreMade, ScriptsServed, StaysServed};

use gs_block::promises::configurations_have_sizes;

/// Each call that was ever sent is its client's own, under a number that it has asked under; and so is each reply that was ever sent, each that the master keeps, in memory, on record or by what its disks tell, and each
/// call that waits. So it is over every run of a store that has begun new, in which all that is asked is within its types, whatever comes, how often, and in which order, whatever begins again, and whatever disks fail; and so it is of what a script leaves.
/// So a number that a client hasn't asked under yet is fresh: there is nothing of it in the store.
fn of_each_reply_its_client_has_asked<D>()
    ensures begun { (seen : D → List ℕ) → BeginsAsked seen }
    ensures kept { StaysAsked D }
    ensures unarmed { StaysAskedUnarmed D }
    ensures scripts { ScriptsAsked D }
{
    configurations_have_sizes();
}

/// An answer that a client gets to a call that is answered at once was made for this very call, since the client asked: at one event, at which the call came to a standing master as new to it, and that answered so. So
/// no answer is older than its call, whatever messages come, how often, and in which order. And each world on the way to that event, and from it on, is one that the run passes.
/// The master isn't started again meanwhile, and no failure of a disk is arranged.
fn an_answer_is_made_for_its_call<D>()
    ensures { (seen : D → List ℕ) (failures : D → ℕ) (armed : DiskId → ℕ → MasterPlace D → MasterPlace D) → AnswersAreMade seen failures armed }
{}

/// Each message that asks a server for an edit, or for a part of a chunk, is of a request that its client has asked. So is each by which a server tells what an edit came to, or what a part is; and so is each edit that waits at a server for the members of its chunk.
/// So it is over each run of a store that has begun new, in which all that is asked is within its types, whatever disks of the master fail; and so it is of what a script leaves.
fn of_each_request_to_a_server_its_client_has_asked<D>()
    ensures begun { (seen : D → List ℕ) (failures : D → ℕ) (armed : DiskId → ℕ → MasterPlace D → MasterPlace D) → BeginsServed seen failures armed }
    ensures kept { (seen : D → List ℕ) (failures : D → ℕ) (armed : DiskId → ℕ → MasterPlace D → MasterPlace D) → StaysServed seen failures armed }
    ensures scripts { ScriptsServed D }
{
    configurations_have_sizes();
}

/// A refusal that a client gets to a call that is answered at once was told in the turn of that very call, since the client asked. Or the master tells it without judging the call: a disk has failed (32), or one fails at the record of the refusal (29).
/// No server says anything of the number of a call. The master isn't started again meanwhile, and no failure of a disk is arranged.
fn a_refusal_is_made_for_its_call<D>()
    ensures { (seen : D → List ℕ) (failures : D → ℕ) (armed : DiskId → ℕ → MasterPlace D → MasterPlace D) → RefusalsAreMade seen failures armed }
{}

/// A client that has asked a call which is answered at once has no reply of a server to it: neither what an edit came to nor a part of a chunk. So what it has is an answer or a refusal, and the master has said that.
/// Each message says what it is in reply to, and each number is asked under once. The master isn't started again meanwhile, and no failure of a disk is arranged.
fn no_server_answers_a_call<D>()
    ensures { (seen : D → List ℕ) (failures : D → ℕ) (armed : DiskId → ℕ → MasterPlace D → MasterPlace D) → CallsAreForTheMaster seen failures armed }
{}

/// Whatever a client has as its reply, a message was sent that says it, for the number that the client has used last: an answer, what an edit came to, a part of a chunk, or a refusal. So it is over each run, whatever comes, and in which order.
fn each_reply_was_sent_for_its_request<D>()
    ensures begun { (seen : D → List ℕ) (failures : D → ℕ) (armed : DiskId → ℕ → MasterPlace D → MasterPlace D) → BeginsReplied seen failures armed }
    ensures kept { (seen : D → List ℕ) (failures : D → ℕ) (armed : DiskId → ℕ → MasterPlace D → MasterPlace D) → StaysReplied seen failures armed }
{}

/// No server refuses by what the tree refuses by, neither an edit nor a fetch: by what a path is, by what stands at it or doesn't (1 to 9), or since that isn't hidden (38). No message that was ever sent tells it of the one or the other, and no server keeps such a refusal.
/// So it is over each run of a store that has begun new, in which all that is asked is within its types, whatever disks of the master fail; and so it is of what a script leaves.
fn no_server_refuses_by_what_the_tree_refuses_by<D>()
    ensures begun { (seen : D → List ℕ) (failures : D → ℕ) (armed : DiskId → ℕ → MasterPlace D → MasterPlace D) → BeginsSparing seen failures armed }
    ensures kept { (seen : D → List ℕ) (failures : D → ℕ) (armed : DiskId → ℕ → MasterPlace D → MasterPlace D) → StaysSparing seen failures armed }
    ensures scripts { ScriptsSparing D }
{
    configurations_have_sizes();
}

/// A client that has asked for an edit, or for a part of a chunk, and for nothing else since, has no answer of the master as its reply, and no refusal by the tree. The master isn't started again meanwhile, and no failure of a disk is arranged. Of other refusals of the master it isn't said.
fn the_master_replies_to_calls_alone<D>()
    ensures { (seen : D → List ℕ) (failures : D → ℕ) (armed : DiskId → ℕ → MasterPlace D → MasterPlace D) → RequestsAreForServers seen failures armed }
{}

/// As long as a client only looks, whatever else comes, the names, the number of the next deletion, the phase and the epoch of the master stand where no call waits, and all that was called before has a number that the client has had: nothing of before changes them.
fn names_stand_while_a_client_looks<D>()
    ensures { (seen : D → List ℕ) (failures : D → ℕ) (armed : DiskId → ℕ → MasterPlace D → MasterPlace D) → StaysStill seen failures armed }
{}

/// As long as a client only looks no prepare is begun at the master, unless a disk of it fails, where none is, no call waits, and all that was called before has a number that the client has had. So it is right after the event at which the commit of a prepare, or of a rollback, is answered.
fn no_prepare_is_begun_while_a_client_looks<D>()
    ensures stays { (seen : D → List ℕ) (failures : D → ℕ) (armed : DiskId → ℕ → MasterPlace D → MasterPlace D) → StaysCalm seen failures armed }
    ensures commits { (seen : D → List ℕ) (failures : D → ℕ) (armed : DiskId → ℕ → MasterPlace D → MasterPlace D) → CommitsAreCalm seen failures armed }
{}

/// A client that is the only one has the answer to its commit of a prepare, or of a rollback, and lists a path then, and asks nothing else between but look-ups. What it gets is the listing by the names that stood right behind the event
/// at which its commit was accepted, whatever else comes, and whatever disks fail.
fn what_is_listed_behind_a_commit_is_by_the_names_then<D>()
    ensures { (seen : D → List ℕ) (failures : D → ℕ) (armed : DiskId → ℕ → MasterPlace D → MasterPlace D) → ListsAreByCommits seen failures armed }
{}

/// The same three laws hold of each call that is answered by itself: of which each new one gets one reply by the event that brings it, while no other call is answered, and none begins to wait. So they hold of a new directory, a new file, a rename, a deletion and an undelete too.
/// An answer was made for its call, since the client asked. A refusal was told in the turn of its call, or the master tells it without judging the call. And the client has no reply of a server.
fn a_call_that_is_answered_by_itself_has_its_reply<D>()
    ensures answers { (seen : D → List ℕ) (failures : D → ℕ) (armed : DiskId → ℕ → MasterPlace D → MasterPlace D) → LoneAnswersAreMade seen failures armed }
    ensures refusals { (seen : D → List ℕ) (failures : D → ℕ) (armed : DiskId → ℕ → MasterPlace D → MasterPlace D) → LoneRefusalsAreMade seen failures armed }
    ensures servers { (seen : D → List ℕ) (failures : D → ℕ) (armed : DiskId → ℕ → MasterPlace D → MasterPlace D) → LoneCallsAreForTheMaster seen failures armed }
{}

/// A client asks for a new directory, a new file, a rename, a deletion or an undelete where no call waits, and all that was called before has a number that it has had. As long as it asks nothing else but look-ups, the old names stand at the master, or the new ones with the number of the call had.
/// Once it has the answer, the new names stand, with the phase and the epoch of before, no call waits, and all that was called has a number that the client has had. Once it has a refusal that is kept and is sure, the old names stand so. No prepare is begun meanwhile, unless a disk fails, where none was.
/// It isn't refused since its request is an old one (19), as long as the client asks nothing else. A deletion takes the number of the next one. Where all steps since it was asked are at one moment, it is of that moment.
/// So it is whatever else comes, how often, and in which order, and whatever disks fail.
fn a_change_of_the_tree_leaves_a_store_still<D>()
    ensures under_way { (seen : D → List ℕ) (failures : D → ℕ) (armed : DiskId → ℕ → MasterPlace D → MasterPlace D) → ChangesStayUnderWay seen failures armed }
    ensures answered { (seen : D → List ℕ) (failures : D → ℕ) (armed : DiskId → ℕ → MasterPlace D → MasterPlace D) → ChangesLeaveStill seen failures armed }
    ensures refused { (seen : D → List ℕ) (failures : D → ℕ) (armed : DiskId → ℕ → MasterPlace D → MasterPlace D) → RefusedChangesLeaveStill seen failures armed }
    ensures new { (seen : D → List ℕ) (failures : D → ℕ) (armed : DiskId → ℕ → MasterPlace D → MasterPlace D) → ChangesAreNeverOld seen failures armed }
    ensures calm { (seen : D → List ℕ) (failures : D → ℕ) (armed : DiskId → ℕ → MasterPlace D → MasterPlace D) → ChangesStayCalm seen failures armed }
{}
