//! What holds of each server, whatever messages come.

ghost use Rattle.std.specs.Prelude.{◌≡◌, ◌≤◌, ◌+◌, ℕ, false, List, [], Some, None, is_some, Ok};
ghost use Rattle.gs_base.specs.declared.numbers.Moment.{Moment};
ghost use Rattle.gs_base.specs.declared.numbers.Stamp.{Stamp};
ghost use Rattle.gs_base.specs.declared.numbers.ReqId.{ReqId};
ghost use Rattle.gs_base.specs.declared.epoch.EpochEnd.{EpochEnd};
ghost use Rattle.gs_lease.specs.declared.held.Grant.{Grant};
ghost use Rattle.gs_msg.specs.declared.op.Op.{Op};
ghost use Rattle.gs_base.specs.Stamps.{is_same};
ghost use Rattle.gs_msg.specs.declared.node.NodeId.{NodeId};
ghost use Rattle.gs_msg.specs.declared.chunk.Chunk.{Chunk};
ghost use Rattle.gs_store.specs.Slots.{Slot};
ghost use Rattle.gs_store.specs.Stores as stores;
ghost use Rattle.gs_server_lease.specs.Leases.{PrimaryLease};
ghost use Rattle.gs_server.specs.Places.{Place, Here, SlotBecomes, after};
ghost use Rattle.gs_server.specs.Edits.{edit};
ghost use Rattle.gs_server.specs.Holding.{grant, ack};
ghost use Rattle.gs_server.specs.Servers.{Server, store_of, place_of, restart, request_in, about_chunk, handle_chunk, make_copy, learn, tick};
ghost use Rattle.gs_server.specs.Lifts.{ticked, restarted, gone_on};
ghost use Rattle.gs_base.specs.Stamps.{is_before};
ghost use Rattle.gs_store.specs.Whole.{Reaches, IsWholeSlot};
ghost use Rattle.gs_store.specs.StoreCalls.{names};
ghost use Rattle.gs_server.specs.Runs.{Event, behind, behind_all, slot_in, IsByOneCall, IsByCalls, IsReached, rolled_back};
ghost use Rattle.gs_server.specs.Promises as promising;
ghost use Rattle.gs_server.specs.Stated.{DoneAtOnceIsToldByAll, DoneAtOnceIsUnderALease, DoneLaterIsToldByAll, ForwardsAreOfThePromise, LeasesAreTakenOnce, NewPromisesSpendTheLease, NumbersRise, RefusedEpochsLeaveTheServer, RepeatsAreKnownToAll, RollbacksGoBack, RollbacksMakeLive, RollbacksStartTheEpoch, SpentLeasesStaySpent, UnfitAppendsArePads, UnfitAppendsGoAsPads};
ghost use Rattle.gs_server.specs.Laws.{IsHeldFor, IsSpent, LeavesIfRefused, LeavesIfNotCopied, LeavesTheRest, LeavesAllBut, edit_in};

/// No edit is numbered but under a lease that is held, that is of the promise and of the stamp that is asked for, and whose end
/// has not come.
pub fn edits_are_numbered_under_a_lease()
    ensures { (h : Here) (p : Place) (req : ReqId) (stamp : Stamp) (op : Op) (s : Slot) → (edit h p req stamp op).slot ≡ SlotBecomes s → IsHeldFor h.moment stamp p }
{}

/// A client's last request in the done table is no new edit, and neither is a lower one.
pub fn a_request_is_numbered_once()
    ensures { NumbersRise }
{}

/// A member takes a forward under the stamp that it has promised, and under no other.
pub fn no_forward_is_taken_below_the_promise()
    ensures { ForwardsAreOfThePromise }
{}

/// A grant of the lease that was taken last changes nothing: while the lease is held it stays as it is, and once it is spent it
/// isn't taken again, also behind a restart. Neither does a grant of another stamp than the promise.
pub fn a_spent_lease_is_not_taken_again()
    ensures grant { (h : Here) (p : Place) (given : Grant) → p.slot.taken ≡ Some given.stamp → after p (grant h p given) ≡ p }
    ensures below { (h : Here) (p : Place) (given : Grant) → is_same given.stamp p.slot.promise ≡ false → after p (grant h p given) ≡ p }
    ensures restart { (handle : ℕ) (s : Server) (stamp : Stamp) → (place_of handle s).slot.taken ≡ Some stamp → IsSpent stamp (place_of handle (restart s)) }
{}

/// A message about a chunk that is refused leaves what is kept of the chunk, but that a damaged block by which it is refused may mark
/// its replica as bad; it leaves the lease, and the pushed bytes. Only an edit that is refused changes which refusal is kept of a
/// client. A copy under a new handle that is refused leaves the new chunk, and of the old one as much.
pub fn a_refused_message_leaves_the_chunk()
    ensures chunk { (h : Here) (p : Place) (from : NodeId) (chunk : Chunk) → LeavesIfRefused (edit_in chunk) (about_chunk h p from chunk) }
    ensures copy { (h : Here) (source : Place) (at : Stamp) (new : Here) (target : Place) (stamp : Stamp) → LeavesIfNotCopied (promising.make_copy h source at new target stamp) }
{}

/// An epoch that isn't refused leaves the store as the store learns it, and a refused one leaves the server.
pub fn a_server_learns_as_its_store_does()
    ensures learned { (epoch : ℕ) (end : EpochEnd) (s : Server) → (learn s epoch end).said ≡ None → stores.learn epoch end (store_of s) ≡ Ok (store_of (learn s epoch end).after) }
    ensures refused { RefusedEpochsLeaveTheServer }
{}

/// A new edit that is numbered tells its client that it is done only where every member has told a count that reaches its number,
/// and an acknowledgement does so of the edits that waited. A record that a full chunk passes on isn't numbered.
pub fn edits_are_done_where_all_have_them()
    ensures at_once { DoneAtOnceIsToldByAll }
    ensures numbered { DoneAtOnceIsUnderALease }
    ensures later { DoneLaterIsToldByAll }
    ensures unleased { (h : Here) (p : Place) (server : ℕ) (stamp : Stamp) (count : ℕ) → p.lease ≡ None → (ack h p server stamp count).sent ≡ [] }
{}

/// A client's last edit is answered as done again only where every member is known to have it: under a lease of the promise under
/// which it doesn't wait.
pub fn repeats_are_done_where_all_have_them()
    ensures { RepeatsAreKnownToAll }
{}

/// An append that doesn't fit is numbered as a pad, goes to the other members as that pad, and is told its client as padded.
pub fn an_append_that_does_not_fit_is_a_pad()
    ensures slot { UnfitAppendsArePads }
    ensures sent { UnfitAppendsGoAsPads }
{}

/// A message about a chunk changes what is kept of that chunk and of no other, and of the rest at most what is kept of the client
/// of its request, and the bytes that were pushed for the request. A copy under a new handle changes no third chunk, and nothing of
/// the rest.
pub fn a_message_about_a_chunk_leaves_the_others()
    ensures chunk { (s : Server) (from : NodeId) (handle : ℕ) (chunk : Chunk) (moment : Moment) → LeavesTheRest handle (request_in chunk) s (handle_chunk s from handle chunk moment).after }
    ensures copy { (s : Server) (handle new_handle : ℕ) (at stamp : Stamp) (moment : Moment) → LeavesAllBut handle new_handle s (make_copy s handle at new_handle stamp moment).after }
{}

/// What touches every chunk is one function on the place of each: at a tick a lease that is over is spent, at a restart each
/// lease, and the next epoch takes the slot on, where a rollback spends the lease.
pub fn each_place_goes_on()
    ensures tick { (handle : ℕ) (s : Server) (moment : Moment) → place_of handle (tick s moment).after ≡ ticked moment (place_of handle s) }
    ensures restart { (handle : ℕ) (s : Server) → place_of handle (restart s) ≡ restarted (place_of handle s) }
    ensures learn { (handle epoch : ℕ) (end : EpochEnd) (s : Server) → epoch ≡ s.kept.epoch + 1 → place_of handle (learn s epoch end).after ≡ gone_on end epoch (place_of handle s) }
{}

/// Whatever happens to a server, what becomes of a chunk's slot is what calls of the slot make of it: one call at an event, or none.
/// So what holds over each run of a slot's calls holds over each run of a server's messages, ticks, restarts, losses and damage.
pub fn events_are_calls_of_slots()
    ensures event { (handle : ℕ) (e : Event) (s : Server) → IsByOneCall handle s (behind e s) }
    ensures run { (handle : ℕ) (events : List Event) (s : Server) → IsByCalls handle s (behind_all events s) }
{}

/// No promise of a server falls, whatever happens to it, and neither does its epoch.
pub fn no_promise_falls()
    ensures promise { (handle : ℕ) (events : List Event) (s : Server) → is_before (slot_in handle (behind_all events s)).promise (slot_in handle s).promise ≡ false }
    ensures epoch { (events : List Event) (s : Server) → s.kept.epoch ≤ (behind_all events s).kept.epoch }
{}

/// A lease that an event takes is taken once for good: whatever happens behind it, no event takes that lease again.
pub fn leases_are_taken_once_for_good()
    ensures { LeasesAreTakenOnce }
{}

/// What a chunk's live replica stood for as its server was told of a prepare is what a rollback makes live, if it makes anything live,
/// without a damaged block, whatever happened between, but for the ends of epochs, a loss of the chunk, and copies of it that carry
/// sealed images. It does make it live where no block was damaged at the prepare and damage since was of blocks that edits had touched.
pub fn a_rollback_makes_live_what_was_sealed()
    ensures stands { RollbacksGoBack }
    ensures live { RollbacksMakeLive }
{}

/// At each server that began with nothing, whatever happened to it since: a lease that it holds is the one that was taken last of the
/// chunk and is of the promise, the promise reaches the stamp that was taken last, and no promise is of an epoch above the server's. So
/// an event that changes a promise spends the lease.
pub fn leases_and_promises_are_in_order()
    ensures held { (handle : ℕ) (s : Server) (l : PrimaryLease) → IsReached s → (place_of handle s).lease ≡ Some l → (slot_in handle s).taken ≡ Some l.grant.stamp }
    ensures promised { (handle : ℕ) (s : Server) (l : PrimaryLease) → IsReached s → (place_of handle s).lease ≡ Some l → l.grant.stamp ≡ (slot_in handle s).promise }
    ensures spent { NewPromisesSpendTheLease }
    ensures reached { (handle : ℕ) (s : Server) → IsReached s → Reaches (slot_in handle s).promise (slot_in handle s).taken }
    ensures epoch { (handle : ℕ) (s : Server) → IsReached s → (slot_in handle s).promise.epoch ≤ s.kept.epoch }
{}

/// A lease that is spent is never held again, whatever happens: no messages, ticks or restarts bring it back.
pub fn a_spent_lease_is_never_held_again()
    ensures { SpentLeasesStaySpent }
{}

/// Each chunk is whole at each server that began with nothing, whatever came to it: its live replica is under the promise, what is in the
/// trash is sealed and stands beside no other sealed image, and each replica, and what undoing gives of it, has sizes that chunks
/// have and one digest for each block.
pub fn each_chunk_is_whole()
    ensures { (handle : ℕ) (s : Server) → IsReached s → IsWholeSlot (slot_in handle s) }
{}

/// What a rollback makes live is under the first stamp of its epoch, whatever happened before, and a server names exactly these
/// chunks.
pub fn a_rollback_names_what_it_makes_live()
    ensures promise { RollbacksStartTheEpoch }
    ensures named { (handle : ℕ) (s : Server) → IsReached s → names handle (s.kept.epoch + 1) (store_of (rolled_back s)) ≡ is_some (slot_in handle (rolled_back s)).live }
{}
