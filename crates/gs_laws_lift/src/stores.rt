//! The chunks of a store: what happens to the store is, for each chunk, a run of the machine of that chunk.

ghost use Rattle.std.specs.Prelude.{◌≡◌, ℕ, Bool, List, Some};
ghost use Rattle.gs_msg.specs.declared.event.DiskId.{DiskId};
ghost use Rattle.gs_nodes.specs.declared.place.MasterPlace.{MasterPlace};
ghost use Rattle.gs_msg.specs.declared.event.Request.{Request};
ghost use Rattle.gs_world.specs.Histories.{History, arms, seen_of};
ghost use Rattle.gs_base.specs.declared.config.Config.{Config};
ghost use Rattle.gs_base.specs.declared.numbers.ReqId.{ReqId};
ghost use Rattle.gs_laws_chunk.specs.machine.Laws.{settled};
ghost use Rattle.gs_laws_parts.specs.server.Requests.{Asked, IsOfOneEdit, bytes_in, named};
ghost use Rattle.gs_laws_lift.specs.stores.Saying.{PushRight};
ghost use Rattle.gs_laws_lift.specs.stores.Going.{AllSent};
ghost use Rattle.gs_laws_lift.specs.stores.Asking.{AreAskedIn, AreAskedOver, AskOn, StayAsked};
ghost use Rattle.gs_laws_lift.specs.stores.Waiting.{WaitsGoOn};
ghost use Rattle.gs_laws_lift.specs.stores.Passing.{PassedHasNone};
ghost use Rattle.gs_laws_lift.specs.stores.Telling.{TellsFirst};
ghost use Rattle.gs_laws_lift.specs.stores.Numbered.{ListsAreElsewhere, NewbornsAreNumbered, NoneIsEarlier, NumberedIsFirst, NumberingGoesOn};
ghost use Rattle.gs_laws_lift.specs.stores.Owning.{AskingGoesOn, NewbornsAsked, NewbornsOwn, OwningGoesOn};
ghost use Rattle.gs_laws_lift.specs.stores.Doing.{MastersDo};
ghost use Rattle.gs_laws_lift.specs.stores.Running.{LastsArmed, UnknownArmed};
ghost use Rattle.gs_laws_lift.specs.stores.Marking.{WholeMembersAreMarked};
ghost use Rattle.gs_laws_lift.specs.stores.Left.{MastersDoAll};
ghost use Rattle.gs_laws_lift.specs.stores.LeftRunning.{ArmsLeft};
ghost use Rattle.gs_laws_lift.specs.stores.LeftTelling.{AreAskedOverAll, AskOnAll};
ghost use Rattle.gs_laws_lift.specs.stores.Living.{ShowsArmed};
ghost use Rattle.gs_laws_lift.specs.stores.Laws.{StepsAreAtOneNode, ChunksBeginUnborn, ChunksGoOnWithMachines, ChunksLiveOverRuns, ChunksLiveOnward, ReplicasStandForLists, ListsTellWhatIsSettled, NewStoresAreUnasked, FirstAnswersAreDone, FurtherAnswersAreDone, TellingBeginsWithMachines, TellingGoesWithMachines, TellingRunsWithMachines, ChunksGoOnWhateverFails, ChunksLiveWhateverFails, ChunksLiveOnWhateverFails, TellingBeginsWhateverFails, TellingGoesOnWhateverFails, TellingRunsWhateverFails};

use gs_block::promises::configurations_have_sizes;

/// Each step of a store is something at one server, at the master, or elsewhere, where only clients say something.
fn each_step_is_at_one_node<D>()
    ensures { StepsAreAtOneNode D }
{}

/// Where no disk fails, what the master does at a step is a chain of moves from where it stands, or from what it is started again on, of which all stands and all
/// is sent; or its disks wait, and tell what they told; or nothing changes.
fn what_the_master_does_is_a_chain_of_moves<D>()
    ensures { (seen : D → List ℕ) (failures : D → ℕ) (armed : DiskId → ℕ → MasterPlace D → MasterPlace D) → MastersDo seen failures armed }
{}

/// Whatever step a store makes, at a server, at the master or elsewhere, as long as no disk of the master fails, all chunks go on with their machines: the
/// machine of a chunk that lives leads on, by what happened at that server or by what the master did, to a world that shows the store then; one that isn't
/// born stays so, or is born, empty or as a copy of another. So it is from the beginning of a store on, in which no chunk is born.
fn all_chunks_go_on_with_their_machines<D>()
    ensures begins { ChunksBeginUnborn D }
    ensures step { ChunksGoOnWithMachines D }
{
    configurations_have_sizes();
}

/// A failure of a disk that is made to come later changes nothing that is shown of the master, and leaves it firm.
fn a_failure_to_come_changes_nothing_that_is_shown<D>()
    ensures shown { (seen : D → List ℕ) → ShowsArmed (seen_of seen) arms }
    ensures firm { (seen : D → List ℕ) → LastsArmed (seen_of seen) arms }
    ensures unknown { (seen : D → List ℕ) → UnknownArmed (seen_of seen) arms }
{}

/// Each chunk of a store is a run of its machine: over each run of a store that has begun new, in which no disk of the master fails, it is not born yet, or a
/// world that the machine reaches from the chunk's birth shows the store as it is then; and from any world of a store on the machine of each chunk that lives
/// leads to the one that shows the last, from the same birth.
fn all_chunks_live_over_each_run<D>()
    ensures reached { ChunksLiveOverRuns D }
    ensures onward { ChunksLiveOnward D }
{
    configurations_have_sizes();
}

/// A member of the settled view whose live replica is whole when an upgrade is prepared is intact behind that in the machine of the chunk: what it has sealed
/// before can't be rolled back to any more.
fn a_whole_member_is_marked_at_a_prepare()
    ensures { (config : Config) (bytes : ReqId → List ℕ) → WholeMembersAreMarked config bytes }
{}

/// Where the lists and the counts that are told of a chunk beside the nodes agree with what its machine knows, the edits of each live replica
/// are the first ones of one of these lists, and what is settled by them is what is settled in the machine.
fn lists_that_agree_tell_what_replicas_stand_for()
    ensures stands { ReplicasStandForLists }
    ensures settled { ListsTellWhatIsSettled }
{}

/// One request of a store has one edit. Each client asks its requests under numbers of its own, whatever it hears; and the servers and the master push no bytes and
/// ask for no edit, as long as no disk of the master fails. So behind any steps there is what each client has asked, to which more is added by and by: all that
/// was ever sent for a request is of that one; what is pushed are the bytes of its edit, and an edit that is asked for is its own, under its one stamp.
fn each_request_of_a_store_has_one_edit<D>()
    ensures begins { NewStoresAreUnasked D }
    ensures goes_on { (seen : D → List ℕ) (failures : D → ℕ) (armed : DiskId → ℕ → MasterPlace D → MasterPlace D) → AskOn seen failures armed }
    ensures runs { (seen : D → List ℕ) (failures : D → ℕ) (armed : DiskId → ℕ → MasterPlace D → MasterPlace D) → AreAskedOver seen failures armed }
    ensures stays { (old new : ℕ → Asked) → StayAsked old new → (req : ReqId) (request : Request) → named old req ≡ Some request → named new req ≡ Some request }
    ensures one { (asked : ℕ → Asked) (h : History D) → AreAskedIn asked h → AllSent (IsOfOneEdit asked) h.sent }
    ensures pushed { (asked : ℕ → Asked) (h : History D) → AreAskedIn asked h → AllSent (PushRight (bytes_in asked)) h.sent }
{}

/// Each edit of which a client is told that it is done is done in the machine of a chunk, at its place in a list of a view, or a full chunk has passed it on there; and
/// its request asks for an edit of that chunk. So it stays wherever the machines go, and it is so behind each step by which all chunks of a store go on together: only a
/// server that hears about a chunk tells so, to those whose edits wait there and to those who ask again, and the machine of that chunk has them; of a chunk of which the
/// server keeps nothing no edit is done.
fn each_edit_that_is_told_done_is_done_in_a_machine<D>()
    ensures begins { FirstAnswersAreDone D }
    ensures waits { (seen : D → List ℕ) (failures : D → ℕ) (armed : DiskId → ℕ → MasterPlace D → MasterPlace D) (asked : ℕ → Asked) → WaitsGoOn seen failures armed asked }
    ensures answers { FurtherAnswersAreDone D }
{}

/// Each edit of a chunk's lists was numbered in the view of the one stamp under which its request asked for it, but those with which the chunk was born: the list of that
/// view has it at the same place, behind the same edits. So no list of a lower stamp has an edit of that request,
/// nor has any that of a request for another chunk, unless the chunk was born with it.
fn each_edit_was_numbered_under_the_stamp_of_its_request<D>()
    ensures newborn { (seen : D → List ℕ) (config : Config) (bytes : ReqId → List ℕ) (asked : ℕ → Asked) → NewbornsAreNumbered seen config bytes asked }
    ensures goes_on { (seen : D → List ℕ) (config : Config) (bytes : ReqId → List ℕ) (asked : ℕ → Asked) → NumberingGoesOn seen config bytes asked }
    ensures first { (asked : ℕ → Asked) → NumberedIsFirst asked }
    ensures none_earlier { (asked : ℕ → Asked) → NoneIsEarlier asked }
    ensures elsewhere { (asked : ℕ → Asked) → ListsAreElsewhere asked }
{}

/// Each edit of a chunk's lists is the one that its request asks for: what a primary numbers for that operation behind the edits before it, with the bytes of the request; and a
/// message that asks for it was sent. So it stays at each step of a store in which all that was sent for a request is of its one edit, and a chunk that is born with such edits has no others.
fn each_edit_is_the_one_that_was_asked_for<D>()
    ensures newborn { (seen : D → List ℕ) (config : Config) (bytes : ReqId → List ℕ) (asked : ℕ → Asked) → NewbornsOwn seen config bytes asked }
    ensures goes_on { (seen : D → List ℕ) (config : Config) (bytes : ReqId → List ℕ) (asked : ℕ → Asked) → OwningGoesOn seen config bytes asked }
    ensures newborn_asked { (seen : D → List ℕ) (config : Config) (bytes : ReqId → List ℕ) → NewbornsAsked seen config bytes }
    ensures asked_on { (seen : D → List ℕ) (config : Config) (bytes : ReqId → List ℕ) (asked : ℕ → Asked) → AskingGoesOn seen config bytes asked }
{}

/// What clients have asked and were told goes along with the machines of a store's chunks: when a store begins new, at each step, and over each run in which no
/// disk of the master fails, what a client was told done is done in the machine of a chunk of which it has asked for an edit, and each edit of a chunk's lists was
/// numbered under the stamp of its request, but those with which the chunk was born: a copy is born with edits that were asked for of other chunks, under stamps
/// below those of its own views. So each edit that was asked for of the chunk stands first in the view of its stamp; and each edit of a list is the one that its request asks for,
/// and a message that asks for it was sent. Where a full chunk has passed on what a request asks for, no list has an edit of that request.
fn what_clients_are_told_goes_along_with_the_machines<D>()
    ensures begins { TellingBeginsWithMachines D }
    ensures step { TellingGoesWithMachines D }
    ensures runs { TellingRunsWithMachines D }
    ensures first { (seen : D → List ℕ) (config : Config) (bytes : ReqId → List ℕ) (among : List ℕ → Bool) (asked : ℕ → Asked) → TellsFirst seen config bytes asked among }
    ensures passed { (seen : D → List ℕ) (config : Config) (bytes : ReqId → List ℕ) (asked : ℕ → Asked) → PassedHasNone seen config bytes asked }
{
    configurations_have_sizes();
}

/// All chunks of a store go on with their machines over each step, whatever disk of the master fails at it, and so over each run. Once one has failed, what the disks
/// tell is all that is left of the master, as where they wait for it: so the machine of each chunk shows it. Where one fails at a turn, so many of its records stand,
/// perhaps all, and nobody is told anything but the caller, that it is unsure; the machine leads on by events of the master's part to where what they lead to is shown, or
/// the chunk is born by them. A master of which a disk has failed changes nothing of what is left, or in memory, and answers calls alone: by the reply that it keeps, that a
/// call is an older one, or that a disk has failed; and a restart leads from there as from any disks. What is left of the master is to last: its disks tell what a master
/// may stand on.
fn all_chunks_live_whatever_disks_fail<D>()
    ensures does { (seen : D → List ℕ) (failures : D → ℕ) (armed : DiskId → ℕ → MasterPlace D → MasterPlace D) → MastersDoAll seen failures armed }
    ensures step { ChunksGoOnWhateverFails D }
    ensures reached { ChunksLiveWhateverFails D }
    ensures onward { ChunksLiveOnWhateverFails D }
    ensures arms { (seen : D → List ℕ) → ArmsLeft (seen_of seen) arms }
{
    configurations_have_sizes();
}

/// What clients have asked and were told goes along with the machines of a store's chunks over each step and each run, whatever disks of the master fail: a master of
/// which a disk fails tells callers alone, and asks for no edit. So behind any run all that was ever sent for a request is of its one edit, and what a client was told
/// done is done in the machine of a chunk, also where disks have failed since.
fn what_clients_are_told_goes_along_whatever_disks_fail<D>()
    ensures asks { (seen : D → List ℕ) (failures : D → ℕ) (armed : DiskId → ℕ → MasterPlace D → MasterPlace D) → AskOnAll seen failures armed }
    ensures over { (seen : D → List ℕ) (failures : D → ℕ) (armed : DiskId → ℕ → MasterPlace D → MasterPlace D) → AreAskedOverAll seen failures armed }
    ensures begins { TellingBeginsWhateverFails D }
    ensures step { TellingGoesOnWhateverFails D }
    ensures runs { TellingRunsWhateverFails D }
{
    configurations_have_sizes();
}
