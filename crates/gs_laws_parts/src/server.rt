//! A chunkserver, seen by one chunk: whatever happens at it is some events of the machine of that chunk.

ghost use Rattle.std.specs.Prelude.{◌≡◌, ◌≤◌, ℕ, Bool, true, List, [], ◌∷◌, Option, Some, Ok, is_some, Contains};
ghost use Rattle.gs_base.specs.declared.epoch.EpochEnd.{EpochEnd};
ghost use Rattle.gs_base.specs.declared.numbers.Moment.{Moment};
ghost use Rattle.gs_base.specs.declared.numbers.ClientId.{ClientId};
ghost use Rattle.gs_store.specs.Stores.{named};
ghost use Rattle.gs_laws_parts.specs.server.Holding.{HoldsFirst};
ghost use Rattle.gs_server.specs.Edits.{edit};
ghost use Rattle.gs_store.specs.Slots.{Live};
ghost use Rattle.gs_store.specs.Learning.{is_sound};
ghost use Rattle.gs_server.specs.Lifts.{ticked, restarted};
ghost use Rattle.gs_server.specs.Servers.{Server, handle, tick, restart, beat};
ghost use Rattle.gs_laws_chunk.specs.machine.Lists.{ListsAreOld};
ghost use Rattle.gs_laws_parts.specs.server.Among.{ListsAmong};
ghost use Rattle.gs_laws_parts.specs.server.Harm.{intact_behind};
ghost use Rattle.gs_laws_parts.specs.server.Unborn.{KeepsNothing, SaysNothing, StaysUnborn, IsTimely};
ghost use Rattle.gs_laws_chunk.specs.machine.Stamps.{epoch_of};
ghost use Rattle.gs_laws_chunk.specs.machine.Machine.{ChunkWorld, WasTold, Create};
ghost use Rattle.gs_laws_chunk.specs.machine.Events.{born, marked, Leads};
ghost use Rattle.gs_laws_chunk.specs.machine.Laws.{Birth, world_of, IsReached};
ghost use Rattle.gs_msg.specs.declared.message.Message.{Message};
ghost use Rattle.gs_msg.specs.declared.body.Body.{Body};
ghost use Rattle.gs_msg.specs.declared.event.Request.{Request};
ghost use Rattle.gs_client.specs.Nodes.{Node, silent, asks, hears, given_up};
ghost use Rattle.gs_laws_parts.specs.server.Requests.{Asked, AreOnce, HasAsked, IsSentFor, IsOfOneEdit, AreAsked};
ghost use Rattle.gs_store.specs.Standing.{LiveUndamaged};
ghost use Rattle.gs_store.specs.Calls.{Call};
ghost use Rattle.gs_server.specs.Runs.{Event as Happening, IsReached as HasBegun, Loses, Damages, behind, slot_in};
ghost use Rattle.gs_laws_parts.specs.server.Showing.{Setting, ShowsMember};
ghost use Rattle.gs_laws_parts.specs.server.Beside.{IsWholeAt};
ghost use Rattle.gs_laws_parts.specs.server.Telling.{ServersTell};
ghost use Rattle.gs_laws_parts.specs.server.Moving.{LeadsWhole, EpochsAreKnown};
ghost use Rattle.gs_laws_parts.specs.server.Laws.{MessagesAreSteps, EpochEndsAreSteps, NamingIsAStep, RestartsAreSteps, LeaseEndsAreSteps, LossesAreSteps, DamageIsAStep, ReportsAreSteps, WhatIsHeardIsSteps, ServersRestartInSteps, BeatsAreSteps, TicksAreSteps, ServersLoseInSteps, ServersAreDamagedInSteps, ReadsAreOfMembers, IntactServersName, QuietChunksAreHeldWhole, WhatIsReadIsLegal, SurvivingServersKeep, SurvivingServersName, WhatSurvivesIsIntact, ServersAreShown, ServersGoThroughSteps, ServersFollowTheMaster, MarkedServersAreWhole, MarkedMembersAreLive, StoresShowServers, StoresGoThroughSteps, StoresFollowTheMaster, StoresTakeWhatIsTold, StoresBeginAtBirth, WhatIsUnsaidStaysUnborn, NewbornsAreShown, AcknowledgementsAnswer, NumberedEditsAreAnswered, AnsweredGoesOn, AnsweredIsSettled, NoCopyIsBeforeBirth, CopiesBringTheirLists, EventsOfOthersShowServers, ServersBesideAreShown, ServersMarkedAreShown, WhatWasSaidIsSaidStill, EditedBlocksAreOfReplicas, BlocksStayAmong, BlocksAmongAreTold, DigestsTellServersApart, StepsKeepListsAmong, CopiesKeepListsAmong, WhatIsAskedIsNew, WhatIsSentWasAsked, ClientsAskOn, ClientsStayAsked, OthersAskNothing};

/// A message about a chunk is some events of the chunk's machine. Where a server hears it that is shown as a member of the machine, and what
/// it says is among what is said in the machine, events of that member lead to where the server is shown as it is then, and so is all that it
/// sends: promises, copies, drops, leases, a client's edit that is numbered and goes to the members, a forward that is applied, and counts that
/// are told. Any message that is refused is none. Digests are to tell what the server keeps from what it stands for; bytes that were pushed are
/// those of the request; and where the server numbers edits, its replica has the whole list of the view.
fn a_message_about_a_chunk_is_steps_of_its_machine()
    ensures { MessagesAreSteps }
{}

/// So is the end of an epoch. Where a server goes on to the next one, its chunk is prepared, finalized or rolled back in the machine; a rollback
/// fails there only where the member isn't intact. A server of an epoch before the chunk's birth goes on without the machine. And behind it the
/// chunk is named in the machine where the server names it.
fn the_end_of_an_epoch_is_a_step_of_each_chunk()
    ensures learned { EpochEndsAreSteps }
    ensures named { NamingIsAStep }
{}

/// And so is what happens without a message: a restart, and the end of a lease, by which it is spent; a loss, and damage; and a report. Damage of a
/// live replica that is later than what was sealed at the last prepare leaves the member intact.
fn what_happens_without_a_message_is_a_step_of_the_chunk()
    ensures restart { RestartsAreSteps }
    ensures over { LeaseEndsAreSteps }
    ensures lost { LossesAreSteps }
    ensures damaged { DamageIsAStep }
    ensures reported { ReportsAreSteps }
{}

/// What a server does is, for each chunk, some events of the machine of that chunk: at any message for it, if
/// what the message says of the chunk is among what is said in the machine; at a tick, a restart, a loss and damage; and at a beat. They lead to
/// where the server is shown as it is then, and all that it sends; nothing else of the machine changes, but that what is said and the lists of
/// views grow, by edits that its replica takes; and but at a loss and at damage of its replica the member stays intact. A message about another
/// chunk is no event. A copy of another chunk under the handle of this one brings the list for which that
/// one's replica stands at the server.
fn what_a_server_does_is_steps_of_each_chunk()
    ensures heard { WhatIsHeardIsSteps }
    ensures restarted { ServersRestartInSteps }
    ensures beats { BeatsAreSteps }
    ensures ticked { TicksAreSteps }
    ensures lost { ServersLoseInSteps }
    ensures damaged { ServersAreDamagedInSteps }
{}

/// What a client reads of a chunk is what the member's live edits give, in the epoch that it asks for and under no lesser promise than the stamp
/// that it was told. And a server that is intact names the chunk in the epoch of a
/// rollback wherever its member can.
fn what_a_server_gives_is_of_its_member()
    ensures reads { ReadsAreOfMembers }
    ensures names { IntactServersName }
{}

/// What a server holds live of a chunk are the first edits of one view's list. Of a quiet chunk each member that wasn't lost holds the whole list,
/// as many edits as the view counts, as long as it is under that view's stamp, whatever happens. And what a client reads that was told a view, of
/// a member of it, is legal: of the first edits of that view's list or of a later one's, with all that were settled when it was told.
fn what_a_server_holds_is_of_a_view()
    ensures first { (c : Setting) (chunk : ℕ) (w : ChunkWorld) (s : Server) → IsReached w → ShowsMember c chunk w s → is_some (slot_in chunk s).live ≡ true → HoldsFirst c chunk w s }
    ensures all { QuietChunksAreHeldWhole }
    ensures read { WhatIsReadIsLegal }
{}

/// A server that survives an upgrade keeps what was prepared: by the epoch that it knows, its live replica or what it has sealed stands for the
/// prepared list, without a damaged block. And while the upgrade is rolled back, once it knows of that it names the chunk.
fn a_surviving_server_keeps_what_was_prepared()
    ensures keeps { SurvivingServersKeep }
    ensures names { SurvivingServersName }
{}

/// What an account says is intact at a server while an upgrade stands is so in the machine of the chunk. A loss harms what the server has to keep,
/// and so does damage, unless it strikes a later replica than the sealed one; all else that happens at a server spares it, and a copy that carries
/// a sealed image and raises the promise brings it. Where nothing happens at a server, the account says what it said; and a replica that the
/// account calls whole is live, and no block of it is damaged.
fn what_survives_is_intact()
    ensures survives { WhatSurvivesIsIntact }
    ensures still { (so_far : Bool) (upgrade : ℕ) (chunk : ℕ) (call : Option Call) (s : Server) → intact_behind so_far (Some upgrade) chunk call (Some s) (Some s) ≡ true → so_far ≡ true }
    ensures whole { (live : Option Live) → is_sound live ≡ true → LiveUndamaged live × (is_some live ≡ true) }
{}

/// Servers of a store are members of a chunk's machine throughout. Each is as the laws of one server ask for; where one of them makes a step they all
/// are shown behind it, and so they are where the master goes on. At a prepare those of them may be marked that are whole.
fn servers_are_members_throughout()
    ensures shown { ServersAreShown }
    ensures steps { ServersGoThroughSteps }
    ensures led { ServersFollowTheMaster }
    ensures begun { (e : Happening) (s : Server) → HasBegun s → HasBegun (behind e s) }
    ensures whole { MarkedServersAreWhole }
    ensures live { MarkedMembersAreLive }
{}

/// What a run keeps of one chunk at its servers begins where the chunk is born, and goes on: at a step of a server, at the master's events, and where clients send. It asks of the run
/// that digests tell apart the blocks that servers keep, and nothing else.
fn stores_go_on()
    ensures shown { StoresShowServers }
    ensures steps { StoresGoThroughSteps }
    ensures led { StoresFollowTheMaster }
    ensures told { StoresTakeWhatIsTold }
    ensures born { StoresBeginAtBirth }
{}

/// A chunk that is unborn is nothing at a server: it keeps nothing of it and says nothing of it, whatever happens, unless it hears of it. So where a
/// chunk is born, in the greatest epoch that any server knows or a later one, each server is shown as a member of its machine, and all that was said
/// before tells nothing of it.
fn a_chunk_that_is_unborn_is_nothing_at_a_server()
    ensures heard { WhatIsUnsaidStaysUnborn }
    ensures restarted { (chunk : ℕ) (s : Server) → KeepsNothing chunk s → StaysUnborn chunk (restart s) [] }
    ensures beats { (chunk : ℕ) (s : Server) → KeepsNothing chunk s → StaysUnborn chunk s (beat s ∷ []) }
    ensures ticked { (chunk : ℕ) (s : Server) (moment : Moment) → KeepsNothing chunk s → StaysUnborn chunk (tick s moment).after (tick s moment).sent }
    ensures lost { (chunk : ℕ) (s : Server) (handle : ℕ) → KeepsNothing chunk s → StaysUnborn chunk (behind (Loses handle) s) [] }
    ensures damaged { (chunk : ℕ) (s : Server) (handle : ℕ) (block : ℕ) → KeepsNothing chunk s → StaysUnborn chunk (behind (Damages handle block) s) [] }
    ensures born { NewbornsAreShown }
    ensures told { (c : Setting) (chunk : ℕ) (w : ChunkWorld) (m : Message) → SaysNothing chunk m.body → IsTimely c m.body → ServersTell c chunk w m }
{}

/// Edits that every member has are answered in the machine. Where an acknowledgement tells clients that their edits are done, each of them is done
/// in the machine, at its place in the list of the view, and what its client is told is the outcome of the text before it. So is a client's
/// edit that all have where it is numbered, and its last one that comes again; or a full chunk passes a record on, which is told as filled up
/// without being an edit, and none of the edits that fill it is of its request. So it stays wherever the machine goes on; and an edit that is answered is settled, and stays unless a rollback undoes it.
fn edits_that_all_have_are_answered()
    ensures acknowledged { AcknowledgementsAnswer }
    ensures edited { NumberedEditsAreAnswered }
    ensures goes_on { AnsweredGoesOn }
    ensures stays { AnsweredIsSettled }
{}

/// What these laws take to be so of a server is so in every world of the machine: where it holds a lease its replica has the whole list of the
/// view, and it was told of epochs as they began. Nothing is brought to it under a stamp from before the chunk's birth. And a copy of a quiet chunk
/// under a new handle brings the list for which the old one's replica stands there, however late it comes.
fn what_is_taken_of_a_server_is_so()
    ensures whole { (w : ChunkWorld) (me : ℕ) → IsReached w → LeadsWhole w me }
    ensures known { (w : ChunkWorld) → IsReached w → EpochsAreKnown w }
    ensures created { (b : Birth) (w : ChunkWorld) → Leads (world_of b) w → (to : ℕ) (t : ℕ) → WasTold w to (Create t) → b.epoch ≤ epoch_of t }
    ensures brought { NoCopyIsBeforeBirth }
    ensures copied { CopiesBringTheirLists }
{}

/// A server to which nothing happens is shown still wherever the machine goes on: by an event of another server, or of the master, or by
/// many; and what was said of the chunk is said still. At a prepare a server may be marked whole that is so: a member of the settled view, with
/// a live replica of which no block is damaged. Such a member lags behind no rollback, so that what it has sealed before doesn't count.
fn a_server_to_which_nothing_happens_is_shown_still()
    ensures event { EventsOfOthersShowServers }
    ensures beside { ServersBesideAreShown }
    ensures marked { ServersMarkedAreShown }
    ensures live { (c : Setting) (chunk : ℕ) (w : ChunkWorld) (s : Server) → ShowsMember c chunk w s → IsWholeAt chunk w s → is_some (w.members s.me).live ≡ true }
    ensures told { WhatWasSaidIsSaidStill }
{}

/// Each block of the text that a list of edits gives was a block of a replica. An accepted edit of a replica that stands for a list leaves each
/// block of the list's text as it was, or as the replica has it then: so where all blocks of replicas are among some that digests tell apart,
/// those of lists are, and digests tell what a replica keeps from what it stands for.
fn blocks_of_lists_are_blocks_of_replicas()
    ensures edit { EditedBlocksAreOfReplicas }
    ensures among { BlocksStayAmong }
    ensures told { BlocksAmongAreTold }
{}

/// Digests tell what servers keep from what that stands for, where all blocks that servers ever keep are among some that digests tell apart. For
/// then the blocks of all lists of views are among them: so it stays at a server's step, if it is so of what the server keeps behind it, and
/// where lists are made of old ones, as the master makes them.
fn digests_tell_what_servers_keep()
    ensures apart { DigestsTellServersApart }
    ensures steps { StepsKeepListsAmong }
    ensures old { (among : List ℕ → Bool) (c : Setting) (w last : ChunkWorld) → ListsAreOld w last → ListsAmong among c w → ListsAmong among c last }
    ensures copied { CopiesKeepListsAmong }
    ensures new { (among : List ℕ → Bool) (c : Setting) (epoch : ℕ) (how : ℕ → EpochEnd) → among [] ≡ true → ListsAmong among c (born epoch how []) }
{}

/// One request has one edit. A client asks each request under a number of its own, above those before, so that no two of its requests have one
/// number; what it hears changes nothing of that. So all that clients ever send for a request is of one request: what is pushed are the bytes of
/// its edit, and where an edit is asked for, it is its own. So it is of all clients of a store, whatever they ask and hear, and others send.
fn one_request_has_one_edit()
    ensures begins { (id : ClientId) → HasAsked id.0 [] (silent id) }
    ensures asks { WhatIsAskedIsNew }
    ensures hears { (id : ℕ) (asked : Asked) (n n2 : Node) (body : Body) → HasAsked id asked n → hears body n ≡ Ok n2 → HasAsked id asked n2 }
    ensures gives_up { (id : ℕ) (asked : Asked) (n : Node) → HasAsked id asked n → HasAsked id asked (given_up n) }
    ensures sends { WhatIsSentWasAsked }
    ensures stays { (asked more : ℕ → Asked) (m : Message) → ((id : ℕ) (e : ℕ × Request) → Contains (asked id) e → Contains (more id) e) → IsSentFor asked m → IsSentFor more m }
    ensures one { (asked : ℕ → Asked) → ((id : ℕ) → AreOnce (asked id)) → (m : Message) → IsSentFor asked m → IsOfOneEdit asked m }
    ensures none { (clients : ℕ → Option Node) → ((id : ℕ) (n : Node) → clients id ≡ Some n → HasAsked id [] n) → AreAsked clients (λ _. []) [] }
    ensures clients { ClientsAskOn }
    ensures goes_on { ClientsStayAsked }
    ensures others { OthersAskNothing }
    ensures all { (clients : ℕ → Option Node) (asked : ℕ → Asked) (sent : List Message) (m : Message) → AreAsked clients asked sent → Contains sent m → IsOfOneEdit asked m }
{}
