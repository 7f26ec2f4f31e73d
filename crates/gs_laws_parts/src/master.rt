//! The store's master seen by one chunk: its moves are events of the machine of that chunk.

ghost use Rattle.gs_laws_parts.specs.master.Bearing.{ChainsGoUnborn, EventsCutGoUnborn, EventsGoUnborn, WrittenChainsGoUnborn, WrittenCutsGoUnborn};
ghost use Rattle.gs_laws_parts.specs.master.Births.{CopiesAreBirths, MakesAreBirths, ProposalsAreBirths};
ghost use Rattle.gs_laws_parts.specs.master.Families.{FamiliesCut, FamiliesGo, FamilyLists, StartsUnborn, WrittenFamiliesGo};
ghost use Rattle.gs_laws_parts.specs.master.Laws.{RestartsReach};
ghost use Rattle.gs_laws_parts.specs.master.Locating.{KeptAreLookedUp, MovesLocate, SentAreLookedUp, SettledStay};
ghost use Rattle.gs_laws_parts.specs.master.Rows.{FamiliesGoByRows};
ghost use Rattle.gs_laws_parts.specs.master.Unborn.{EachMoveGoesUnborn, RestartsUnborn};
ghost use Rattle.gs_laws_parts.specs.master.Chains.{ChainsFollow, CutsFollow, EventsCutFollow, EventsFollow, MastersLeave, MovesFollow, PartsFollow, RestartsFollow, TicksFollow, WrittenChainsFollow, MastersSpare};

/// A master that is started again on what it kept is reached by events of its part alone, whatever was in memory: nobody is asked any more, and
/// a chunk that stands in no file is forgotten.
fn a_restart_is_events_of_each_chunk()
    ensures { RestartsReach }
{}

/// Where a new chunk is made, or copied from another, a machine of it is born in the epoch that stands: with no edits, or with any that it is given,
/// which are to be those of the other. Events of it lead to where the state is shown, and all is told that is sent. So it is where the record of the
/// proposal is all that stands.
fn a_new_chunk_is_a_birth()
    ensures makes { MakesAreBirths }
    ensures copies { CopiesAreBirths }
    ensures proposals { ProposalsAreBirths }
{}

/// Where the master's state is shown in the machine of a chunk, each move of the master is some events of it, and so is each chain of moves: they
/// lead to where the state behind it is shown, and with it each message that it sends. So is the master that is started again behind the records
/// before any place of a chain, and so is each event of a steady master, and one at a record of which its append fails.
fn each_event_of_the_master_is_events_of_each_chunk()
    ensures moves { MovesFollow }
    ensures chains { ChainsFollow }
    ensures cuts { CutsFollow }
    ensures restarts { RestartsFollow }
    ensures events { EventsFollow }
    ensures failed { EventsCutFollow }
    ensures written { WrittenChainsFollow }
    ensures parts { PartsFollow }
    ensures ticks { TicksFollow }
{}

/// The events of a move, of a chain or of an event are all of the master's part. So what each server has reached, promised and learned stays as it is
/// known, and the list of each view is made of the first edits of a list of before.
fn what_the_master_leaves_of_a_chunk()
    ensures { MastersLeave }
{}

/// Where no epoch is begun by a prepare, the master's events leave each server as it is, also for what only the proof sees.
fn who_is_not_marked_stays()
    ensures { MastersSpare }
{}

/// Of a chunk whose handle wasn't given the master knows nothing, and it says nothing of it, through each move but the one that gives the handle: at
/// that the chunk is born. Servers are to say nothing of it before, as they do who were told nothing. So it is over each event of a steady master, also
/// over one at a record of which its append fails: the chunk stays so, or a machine of it is born in its course, and goes on.
fn a_chunk_is_born_where_its_handle_is_given()
    ensures moves { EachMoveGoesUnborn }
    ensures restarts { RestartsUnborn }
    ensures chains { ChainsGoUnborn }
    ensures events { EventsGoUnborn }
    ensures failed { EventsCutGoUnborn }
    ensures written { WrittenChainsGoUnborn }
    ensures cut { WrittenCutsGoUnborn }
{}

/// So it is of all chunks together over each chain of moves: each goes on, is born, or isn't born yet; and whoever is told to copy a chunk under a new
/// handle is told in the machine of the new one that it has the list of the old one, which stays as it is. So the first edits of each list are none, or
/// those of one of before. So it is where the master is started again on some of the records. In a new store no chunk is born.
fn all_chunks_go_on_together()
    ensures chains { FamiliesGo }
    ensures lists { FamilyLists }
    ensures written { WrittenFamiliesGo }
    ensures cut { FamiliesCut }
    ensures start { StartsUnborn }
{}

/// So it is over each turn of the master that ends one epoch at most, with what the rows that it keeps tell of each chunk: a view that appears is a later one, and where a rollback is
/// committed each view that it gives back is told, and no other. Each chunk that is copied was known before, and is copied under a view that stood then, or was settled since.
fn all_chunks_go_on_by_their_rows()
    ensures { FamiliesGoByRows }
{}

/// A chunk that a file has, and that is settled with no other view proposed, is settled on the same view behind a chain of moves of which none is alone.
fn what_is_settled_stays_within_a_turn()
    ensures { SettledStay }
{}

/// Where a move tells a client that a chunk is on a view, so it is still behind its turn, as what is durable there tells: a file has the chunk, or had it, this is its settled view, and this the epoch; and nothing
/// is rolled back. So it is of each such reply that a turn keeps or sends, if it wasn't kept before.
fn what_is_told_of_a_chunk_is_so_behind_the_turn()
    ensures moves { MovesLocate }
    ensures kept { KeptAreLookedUp }
    ensures sent { SentAreLookedUp }
{}
