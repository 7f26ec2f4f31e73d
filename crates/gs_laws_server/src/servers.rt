//! The laws of a chunkserver over all messages.

ghost use Rattle.std.specs.Prelude.{◌≡◌, ℕ, Bool, false, List, length, Some, Ok, IfOk};
ghost use Rattle.std.specs.List.{AllByRecursion};
ghost use Rattle.gs_base.specs.declared.numbers.Stamp.{Stamp};
ghost use Rattle.gs_base.specs.declared.numbers.Moment.{Moment};
ghost use Rattle.gs_base.specs.Stamps.{is_before};
ghost use Rattle.gs_base.specs.Told.{IsNumber};
ghost use Rattle.gs_replica.specs.Held.{Held};
ghost use Rattle.gs_msg.specs.declared.chunk.Chunk.TheVariants.{Promised};
ghost use Rattle.gs_msg.specs.declared.body.Body.TheVariants.{About};
ghost use Rattle.gs_msg.specs.declared.message.Message.{Message};
ghost use Rattle.gs_store.specs.Slots.{Slot, create};
ghost use Rattle.gs_store.specs.Moves.{take_copy};
ghost use Rattle.gs_server_lease.specs.Leases.{PrimaryLease};
ghost use Rattle.gs_server.specs.Edits.{edit, forward};
ghost use Rattle.gs_server.specs.Servers.{Server, handle, place_of};
ghost use Rattle.gs_server.specs.Runs.{Event, behind, behind_all, slot_in, BecomesBy, IsReached, rolled_back};
ghost use Rattle.gs_laws_server.specs.servers.Calling.{call_by};
ghost use Rattle.gs_laws_server.specs.servers.Counted.{IsCountedServer, IsCountedBody, IsCountedMessage, GoesCounted, HearsCounted};
ghost use Rattle.gs_laws_server.specs.servers.Waiting.{AreRising};
ghost use Rattle.gs_laws_server.specs.servers.Sealing.{HasSizes};
ghost use Rattle.gs_laws_server.specs.servers.Laws.{ForwardsAreTaken, EditsAreNumbered, FittingForwardsAreTaken, FittingEditsAreNumbered, ReplicasStandBehindAnEvent, ReplicasStandBehindARun, ReplicasLiveThroughout, BlocksHoldBehindAnEvent, BlocksHoldBehindARun, CreatedBlocksHold, UndamagedBlocksHold, CreatedReplicasStand, SentCopiesAreExact, TakenCopiesStand, CopiesOfChunksStand, RolledBackReplicasStand, WaitingEditsAreDone, EditsAreDoneAtOnce, EditsOfOneMemberAreDone, RepeatedEditsAreDone, OtherAcknowledgementsChangeNothing, RefusedMessagesLeaveTheServer, MessagesMakeWhatTheySay, OutboxesAreCounted, SealedImagesStand, SparedImagesStay, CarriedImagesComeBack, SparedImagesComeBack, CreatesAgainLeaveThePlace, CopiesAgainLeaveThePlace, DropsLeaveNoLease};
ghost use Rattle.gs_server.specs.Servers as servers;

use gs_server::promises::a_refused_message_leaves_the_chunk;

/// A message edits a replica by what it says. A forward that changes a chunk is its replica's next edit, applied under the stamp and the
/// number of the message, with the operation that it says and the bytes that it carries or that were pushed; it is acknowledged to its
/// sender under both, and nothing else is sent. A client's edit is its replica's next one too, under the stamp of the lease that is held; the
/// same edit, under the same number, waits under that lease and goes to the other members. And where the replica takes it, a forward of the
/// promise that is the next one and whose bytes are there is taken, and a client's new edit is numbered under a lease of the promise.
pub fn a_message_edits_a_replica_by_what_it_says()
    ensures forward { ForwardsAreTaken }
    ensures edit { EditsAreNumbered }
    ensures taken { FittingForwardsAreTaken }
    ensures numbered { FittingEditsAreNumbered }
{}

/// Whatever happens to a server, what becomes of a chunk's slot is what one call of it makes, and it is said which: the one that a message
/// about the chunk asks for, where the message changes the slot; the mark of a block by which a message is refused; the copy of a replica
/// that a message brings under the chunk's handle; the end of an epoch; a loss, or damage. Otherwise the slot stays.
pub fn an_event_calls_what_it_says()
    ensures { (handle : ℕ) (e : Event) (s : Server) → BecomesBy s.block s.chunk (slot_in handle s) (call_by handle e s) (slot_in handle (behind e s)) }
{}

/// What a live replica stands for goes on. An event behind which a chunk's replica is live leaves the list of edits for which it stood, or
/// lengthens it by exactly the one edit that the event applies, but where the replica is made anew: by a create or a copy under a stamp above
/// the promise, or by a rollback. The same over a run of events, and a replica that is live at the end of such a run was live throughout. At
/// each edit that is applied, digests are to tell the replica's blocks from those of its list, where they differ.
fn what_a_replica_stands_for_goes_on()
    ensures event { ReplicasStandBehindAnEvent }
    ensures run { ReplicasStandBehindARun }
    ensures lived { ReplicasLiveThroughout }
{}

/// Block by block, at a server: a block of a chunk's live replica that holds what the replica's list of edits gives of it holds it behind
/// each event that keeps the replica, whatever other blocks are damaged, but for damage of that very block. The same over a run of events. So
/// a block that wasn't damaged since the replica was made holds what the edits give: a create makes a replica of which each block is so, and
/// so is each block of an undamaged one, where digests tell.
fn a_block_that_is_not_damaged_holds_what_its_edits_give()
    ensures event { BlocksHoldBehindAnEvent }
    ensures run { BlocksHoldBehindARun }
    ensures created { CreatedBlocksHold }
    ensures undamaged { UndamagedBlocksHold }
{}

/// What is made anew of a chunk stands for what it is made of. A create that is accepted, under a stamp above the promise, makes a replica of
/// no edits. A copy that is sent carries exactly what the edits of its source give, and its sealed image where that is asked for and has each
/// block; one that is taken, under a stamp above the promise, stands for the edits that give its image. A copy under a new handle stands for
/// the edits of the old one, and what a rollback makes live for those that were sealed. No block of these is damaged. Each server that began
/// with nothing has sizes at which this holds.
fn what_is_made_anew_stands_for_what_it_is_made_of()
    ensures created { CreatedReplicasStand }
    ensures sent { SentCopiesAreExact }
    ensures taken { TakenCopiesStand }
    ensures copied { CopiesOfChunksStand }
    ensures rolled_back { RolledBackReplicasStand }
    ensures sizes { (s : Server) → IsReached s → HasSizes s }
{}

/// Edits that all members have are done. An acknowledgement under the stamp of the lease that is held tells the client of each edit that
/// waits, whose number every member has told of once the acknowledgement is heard. An edit of which every member has told where it is numbered
/// is done at once: so is each where the server is the only member. A client's last edit that comes again is answered as done where every
/// member is known to have it. An acknowledgement under any other stamp sends nothing, and changes nothing of the chunk.
fn edits_that_all_have_are_done()
    ensures later { WaitingEditsAreDone }
    ensures at_once { EditsAreDoneAtOnce }
    ensures alone { EditsOfOneMemberAreDone }
    ensures repeat { RepeatedEditsAreDone }
    ensures other { OtherAcknowledgementsChangeNothing }
{}

/// A refused message leaves the server: all that it keeps is the same, but that a damaged block by which the message is refused may mark the
/// replica that it is of as bad, and that the refusal of an edit may be kept for its client, under the edit's number. A message that is for
/// another kind of node, and an epoch that is refused, leave all.
fn a_refused_message_leaves_the_server()
    ensures { RefusedMessagesLeaveTheServer }
{
    a_refused_message_leaves_the_chunk();
}

/// A message about a chunk makes of what is kept of the chunk exactly what its part says.
fn a_message_about_a_chunk_makes_what_it_says()
    ensures { MessagesMakeWhatTheySay }
{}

/// At each server that began with nothing, whatever happened to it since: the numbers of the edits that wait under a lease rise, so the first
/// of them is the lowest, and each is at most the count of the live replica, if there is one. What members have told is kept of 16 servers.
fn outboxes_are_in_order()
    ensures rising { (handle : ℕ) (s : Server) (l : PrimaryLease) → IsReached s → (place_of handle s).lease ≡ Some l → AreRising l.outbox }
    ensures counted { OutboxesAreCounted }
    ensures told { (handle : ℕ) (s : Server) (l : PrimaryLease) → IsReached s → (place_of handle s).lease ≡ Some l → length l.told ≡ 16 }
{}

/// What is sealed of a chunk stays on a server: what it stood for when it was sealed it stands for behind each run of events that keeps the
/// seal, and where damage was of blocks that edits had touched, a copy carries the same image. So an accepted copy under a stamp above the
/// promise that carries a sealed image, then such a run, and then a rollback make live, if anything, what the image stood for, without a
/// damaged block; and they do make it live where damage was of blocks that edits had touched.
fn sealed_images_stay_on_a_server()
    ensures stood { SealedImagesStand }
    ensures spared { SparedImagesStay }
    ensures copied { CarriedImagesComeBack }
    ensures live { SparedImagesComeBack }
{}

/// What is promised again leaves what stands. A create, a copy for another handle and a copy that is sent, under a stamp that isn't above
/// the promise, leave the slot as it is, if they are accepted at all. At each server that began with nothing, a message by which a chunk is
/// created or a copy of it is sent, under such a stamp, leaves the lease too.
fn what_is_promised_again_leaves_what_stands()
    ensures created { (block chunk : ℕ) (stamp : Stamp) (s s2 : Slot) → is_before s.promise stamp ≡ false → create block chunk stamp s ≡ Ok s2 → s2 ≡ s }
    ensures taken { (h : Held) (s s2 : Slot) → is_before s.promise h.promise ≡ false → take_copy h s ≡ Ok s2 → s2 ≡ s }
    ensures create { CreatesAgainLeaveThePlace }
    ensures copy { CopiesAgainLeaveThePlace }
{}

/// A drop that is accepted leaves neither a live replica nor a lease of the chunk.
fn a_dropped_replica_leaves_no_lease()
    ensures { DropsLeaveNoLease }
{}

/// Each server counts edits in 64 bits. Where all counts that a server keeps are numbers of 64 bits, and those that it hears, each event
/// leaves it so, and those that it sends are: a primary refuses the edit behind the last count, a member applies the number that it is sent,
/// a rollback gives the count that was sealed, and a copy that of its image. A new server counts nothing. So what it promises can be told.
fn each_server_counts_in_64_bits()
    ensures heard { (s : Server) (message : Message) (moment : Moment) → IsCountedServer s → IsCountedMessage message → GoesCounted (servers.handle s message moment) }
    ensures ticked { (s : Server) (moment : Moment) → IsCountedServer s → GoesCounted (servers.tick s moment) }
    ensures beats { (s : Server) → IsCountedMessage (servers.beat s) }
    ensures restarted { (s : Server) → IsCountedServer s → IsCountedServer (servers.restart s) }
    ensures lost { (handle : ℕ) (s : Server) → IsCountedServer s → IfOk (servers.lose handle s) IsCountedServer }
    ensures damaged { (handle : ℕ) (block : ℕ) (s : Server) → IsCountedServer s → IfOk (servers.damage handle block s) IsCountedServer }
    ensures run { (events : List Event) (s : Server) → AllByRecursion HearsCounted events → IsCountedServer s → IsCountedServer (behind_all events s) }
    ensures new { (me : ℕ) (block : ℕ) (chunk : ℕ) → IsCountedServer (servers.new me block chunk) }
    ensures told { (handle : ℕ) (stamp : Stamp) (count : ℕ) (carried : Bool) → IsCountedBody (About handle (Promised stamp count carried)) → IsNumber count }
{}
