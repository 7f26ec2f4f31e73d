//! What the master does, move by move: each event is a chain of a few kinds of moves, each under its guard.

ghost use Rattle.gs_base.specs.declared.config.Config.{Config};
ghost use Rattle.gs_laws_moves.specs.moves.Asked.{EachMoveAsksSo, SettlesByAnswers, StartsAskedSo, StaysAskedSo};
ghost use Rattle.gs_laws_moves.specs.moves.Called.{LocatedWereCalled, WaitingWereHeard};
ghost use Rattle.gs_laws_moves.specs.moves.Epochs.{EpochsGo, EventsEndOnce, OnceStands, TicksEndOnce, WithinStays};
ghost use Rattle.gs_laws_moves.specs.moves.ForCalls.{EventsAreFor, EventsStandFor, TicksAreFor};
ghost use Rattle.gs_laws_moves.specs.moves.Guards.{Heard, IsMade};
ghost use Rattle.gs_laws_moves.specs.moves.Laws.{ChainsStand, CutsAreBeginnings, CutsStand, EventsAreChains, EventsStand, TicksAreChains};
ghost use Rattle.gs_laws_moves.specs.moves.Locations.{KeptWereLocated, LocatedAreRight, SentWereLocated};
ghost use Rattle.gs_laws_moves.specs.moves.Moved.{EachMoveAwaits, EachMovedSo, KnownAreSought, PreparesQuiet, StartsAwaited, StaysAwaited};
ghost use Rattle.gs_laws_moves.specs.moves.Over.{OverMakesNoEdit, OverMakesNoEditLater, RefusedAreTold, RefusedMakesNoEdit};
ghost use Rattle.gs_laws_moves.specs.moves.Places.{EditsSpare};
ghost use Rattle.gs_laws_moves.specs.moves.Rows.{CopiesAreListed, CopiesAreNew, EachRowGoes, EpochsLeave, ListedStay, NewAreUnled, RowsGoOver};
ghost use Rattle.gs_laws_moves.specs.moves.Shared.{EachMoveSharesSo, StartsSharedSo, StaysSharedSo};
ghost use Rattle.gs_laws_moves.specs.moves.FindingQuiet.{CopiesFindQuiet};

/// Each event of a firm master is a chain of moves: every message, whoever sends it, each tick, a checkpoint, and a restart. Each move is made
/// under its guard, in the state that the moves before it leave; its records fit what they meet; and each message that it sends is right in the
/// state that it leaves. Nothing else is sent.
fn each_event_is_a_chain_of_moves()
    ensures { EventsAreChains }
{}

/// An event ends one epoch at most, by one move, and settles and proposes nothing beside: behind that move calls that wait are refused, and servers are told. A scan, too, is done by
/// itself: behind it calls are refused or answered. So is what a tick does before it writes a checkpoint. A look-up that is answered at once is all of its turn. What is durable stands before and behind each move of it, where its records
/// can all be written. And it is told how each such turn changes the epoch and the phase: not at all, where no move is alone.
fn an_event_ends_one_epoch_at_most()
    ensures events { EventsEndOnce }
    ensures stands { OnceStands }
    ensures within { WithinStays }
    ensures ticks { TicksEndOnce }
    ensures epochs { EpochsGo }
{}

/// Each move of an event of a firm master is made for a call: for the one that is heard in the event and is new, or for one that has waited for just this.
/// A move that ends an epoch, scans, or begins or gives up a prepare is made for that very call.
/// Views that are proposed for no call, reports and ticks are not said to have one.
fn each_move_is_made_for_a_call()
    ensures events { EventsAreFor }
    ensures ticks { TicksAreFor }
    ensures stand { EventsStandFor }
{}

/// So is what a tick does before it writes a checkpoint that is due: where memory is wanting for that one, the tick is done without it.
fn a_tick_without_its_checkpoint_is_a_chain_of_moves()
    ensures { TicksAreChains }
{}

/// In each state of a chain whose records can be written, what is durable stands: so of each event of a steady master, and where a chain is cut.
fn what_is_durable_stands_before_and_behind_each_move()
    ensures chains { ChainsStand }
    ensures events { EventsStand }
    ensures cuts { CutsStand }
{}

/// Where a chain is cut at a record, since its append failed, the records before it are those of some moves that were made, and a beginning of
/// those of the next one, whose record it is.
fn a_chain_that_is_cut_is_a_beginning_of_one()
    ensures { (config : Config) (heard : Heard) → CutsAreBeginnings (IsMade config heard) }
{}

/// What is asked for a chunk is asked of the members of its settled view, if it has one; the target of a copy is none of those that are asked, and
/// its source is one. Each count that is in memory was promised by one of them, for the stamp that is asked for; and each server of which it is
/// kept that it has the chunk as it was sealed has learned the epoch that stands, and named the chunk. So it stays over each move and each event.
fn what_is_in_memory_was_asked_and_said()
    ensures moves { EachMoveAsksSo }
    ensures stays { StaysAskedSo }
    ensures starts { StartsAskedSo }
{}

/// What a move makes of one chunk: under the stamp of what is asked for it, it was asked before, or a view of it is proposed by this move, under the
/// next stamp; and an entry that is gone stays gone, but for a rollback that is committed.
fn each_move_goes_on_with_a_chunk()
    ensures { EachMovedSo }
{}

/// A new chunk that isn't settled is asked for, over each move and each event; so each chunk that the master knows is settled or asked for.
fn a_new_chunk_is_settled_or_asked_for()
    ensures moves { EachMoveAwaits }
    ensures stays { StaysAwaited }
    ensures starts { StartsAwaited }
    ensures known { KnownAreSought }
{}

/// Each member of a view that is settled was asked, or is the target of the copy, and has promised the view's stamp with the view's count; and
/// one of them was asked.
fn a_view_is_settled_by_what_was_promised()
    ensures { SettlesByAnswers }
{}

/// Where a prepare is committed, each chunk that the master knows is quiet.
fn a_prepare_finds_each_chunk_quiet()
    ensures { PreparesQuiet }
{}

/// Wherever a firm master settles a chunk, by answers whose counts are numbers of 64 bits, a call that has waited to copy it finds it quiet, on the
/// view on which it was settled, whatever the calls before it do: so none is refused since its chunk isn't quiet.
fn a_call_that_waits_to_copy_a_chunk_finds_it_quiet()
    ensures { CopiesFindQuiet }
{}

/// A chunk with two references or more has no lease, and none is asked for it, over each move and each event. So a copy on write is made of a chunk
/// that nobody may write.
fn a_shared_chunk_is_not_leased()
    ensures moves { EachMoveSharesSo }
    ensures stays { StaysSharedSo }
    ensures starts { StartsSharedSo }
{}

/// What moves make of a chunk's row and of its entry: but for a rollback that is committed, an entry that is gone stays gone, one that stays keeps its row, and the view of a row was there
/// before, or has a member. What a file has or had stays such, but where chunks are forgotten; none other is leased when it is settled, and none other is copied, and a copy is made under a handle that was not given before.
fn what_moves_make_of_a_row()
    ensures moves { EachRowGoes }
    ensures chains { RowsGoOver }
    ensures listed { ListedStay }
    ensures epochs { EpochsLeave }
    ensures unled { NewAreUnled }
    ensures copies { CopiesAreListed }
    ensures fresh { CopiesAreNew }
{}

/// What stands at a path stays there, with all its chunks, through each edit that moves, hides or removes nothing that stands there or above it, and adds or
/// replaces no chunk of its own.
fn an_edit_leaves_what_it_does_not_touch()
    ensures { EditsSpare }
{}

/// Where a client is told that a chunk is, by a reply that is kept or sent, it was told before, or a move of the chain tells so. Behind that move a file has the chunk, or had it; this is its settled view, and this
/// the epoch; and nothing is rolled back.
fn a_location_was_looked_up()
    ensures kept { KeptWereLocated }
    ensures sent { SentWereLocated }
    ensures right { LocatedAreRight }
{}

/// Where calls that wait, and one that is heard, are of some kind, those that wait behind a chain are of it too, and so is each call to which a move of it tells where a chunk is: nobody is told so who has not called.
fn a_location_answers_a_call()
    ensures waiting { WaitingWereHeard }
    ensures located { LocatedWereCalled }
{}

/// Once a request is over, since it or a later one of its client was answered and it doesn't wait, no event makes an edit for it, whatever comes, and it stays over: so over every list of
/// events, where none restarts the master; and over every list, where a record has told the answer. A refusal is told by a record where there is room. And an event that refuses a request, whether it brings it or
/// the request has waited, makes no edit for it, neither before nor behind the refusal, and leaves it over.
fn a_request_that_is_over_makes_no_edit()
    ensures event { OverMakesNoEdit }
    ensures later { OverMakesNoEditLater }
    ensures told { RefusedAreTold }
    ensures refused { RefusedMakesNoEdit }
{}
