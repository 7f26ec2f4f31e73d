//! What holds of one chunk, whatever happens to it: over every run of its machine, whose worlds are its servers' replicas as lists of
//! edits, the master's part, and all that was ever said of it.

ghost use Rattle.std.specs.Prelude.{◌≡◌, ℕ, Bool, true, List, Option};
ghost use Rattle.gs_base.specs.declared.numbers.ReqId.{ReqId};
ghost use Rattle.gs_base.specs.declared.numbers.Stamp.{Stamp};
ghost use Rattle.gs_replica.specs.Stands.{Edit};
ghost use Rattle.gs_laws_chunk.specs.machine.Machine.{ChunkWorld};
ghost use Rattle.gs_laws_chunk.specs.machine.Events.{Event, CommitsRollback, Can, Leads};
ghost use Rattle.gs_laws_chunk.specs.machine.Acting.{OthersStay};
ghost use Rattle.gs_laws_chunk.specs.machine.Lists.{ListsAreOfViews, ListsAreOld, MastersListsAreOld};
ghost use Rattle.gs_laws_chunk.specs.machine.Mastering.{MastersCommit, MastersForget, MastersKeepPrepared, MastersPeople, MastersPrepare, MastersSettleOnce, MastersStayCalm, MembersStood};
ghost use Rattle.gs_laws_chunk.specs.machine.Numbering.{BornNumbered, MastersNumber, ServersNumber, StaysBehind};
ghost use Rattle.gs_laws_chunk.specs.machine.Owning.{BeginningsOwn, BornOwn, MastersOwn, ServersOwn};
ghost use Rattle.gs_laws_chunk.specs.machine.Rolling.{LearnersAreIntact, RolledAreHeld, RolledAreFirst, SurvivorsAreBack};
ghost use Rattle.gs_laws_chunk.specs.machine.Resting.{LeasesRest, EpochsAreTold, BornFirst, MembersHaveLearned, PeopledStood, PreparedViewsRest, PromisesRest, NoneIsAhead};
ghost use Rattle.gs_laws_chunk.specs.machine.Laws.{Birth, world_of, IsReached, EachStands, QuietIsStill, QuietStays, SurvivorsKeep, SurvivorsName, SurvivorsWereCurrent, CurrentStillKeep, GivesBack, QuietIsSettled, SettlesOn, AcknowledgedStays, SettledStays, KnownInherits, ReadsAreLegal, Agrees, ReachedWithin, StaysKnown, RollbacksGiveBackExactly};
ghost use Rattle.gs_laws_chunk.specs.machine.Worked as written;
ghost use Rattle.gs_laws_chunk.specs.machine.Carried as carried;

/// A replica stands for the list of a view: each live replica, each sealed image, and what each copy carries, is the first edits of one
/// view's list, and what is forwarded is its list's. Under a view in which nobody may number, each member that was not lost since it
/// promised has the whole list, and no message that was ever sent changes it; so it stays while the member promises that view.
fn a_replica_stands_for_the_list_of_a_view()
    ensures stands { (w : ChunkWorld) → IsReached w → EachStands w }
    ensures quiet { (w : ChunkWorld) → IsReached w → QuietIsStill w }
    ensures stays { (w last : ChunkWorld) → IsReached w → Leads w last → QuietStays w last }
{}

/// A survivor keeps what was prepared, through views that change, copies, drops, and messages of every epoch: until it learns of the
/// prepare its live replica is the prepared list under the prepared stamp; then its image is; and where it has learned of the rollback,
/// its live replica again, under the first stamp of that epoch, so that it can name the chunk. So it is until the next prepare, however
/// late it learns.
fn a_survivor_keeps_what_was_prepared()
    ensures seals { (w : ChunkWorld) → IsReached w → SurvivorsKeep w }
    ensures named { (w : ChunkWorld) → IsReached w → SurvivorsName w }
    ensures current { (w : ChunkWorld) → IsReached w → SurvivorsWereCurrent w }
    ensures late { (w : ChunkWorld) → IsReached w → CurrentStillKeep w }
{}

/// A rollback gives back what stood at the prepare: behind a commit that keeps the chunk its list is the prepared one, and so is each
/// member's replica under the first stamp of the epoch; and the edits that are settled then are exactly those that were settled when the
/// prepare was accepted, whatever happened between.
fn a_rollback_gives_back_what_stood()
    ensures back { (w : ChunkWorld) (members : List ℕ) → IsReached w → Can w (CommitsRollback members true) → GivesBack w members }
    ensures exact { RollbacksGiveBackExactly }
{}

/// An edit that a client was told is done is settled, once, and it stays, with the same edits before it and in each member's replica,
/// unless a rollback that was accepted undid its view; and so does each edit that is settled, and the list with which a chunk was born.
fn settled_edits_stay()
    ensures acknowledged { (w last : ChunkWorld) → IsReached w → Leads w last → AcknowledgedStays w last }
    ensures settled { (w last : ChunkWorld) → IsReached w → Leads w last → SettledStays w last }
    ensures inherits { (b : Birth) (w : ChunkWorld) → Leads (world_of b) w → KnownInherits b.origin w }
{}

/// Settled edits go on: each event adds edits behind those that are settled. Only a rollback that is committed takes some back, and then
/// those of the prepare are settled. Where nobody may number, all edits of the settled view are.
fn settled_edits_go_on()
    ensures settles { (w : ChunkWorld) (e : Event) → IsReached w → Can w e → SettlesOn w e }
    ensures quiet { (w : ChunkWorld) → IsReached w → QuietIsSettled w }
{}

/// Reads are legal. A reader is told the settled view while no rollback is begun; whenever later a member of that view, still in the epoch
/// of then and under no lesser promise, gives of what is live, those are the first edits of the list of that view or of a later one, and
/// they begin with all that was settled when the view was told.
pub fn reads_are_legal()
    ensures { (w last : ChunkWorld) → IsReached w → Leads w last → ReadsAreLegal w last }
{}

/// What is known of a chunk is what its nodes have, and it stays: lists of views that were settled only get longer, and behind a view in
/// which nobody may number they stay as they are.
fn what_is_known_stays()
    ensures agrees { (w : ChunkWorld) → IsReached w → Agrees w }
    ensures within { (w : ChunkWorld) → IsReached w → ReachedWithin w }
    ensures stays { (w last : ChunkWorld) → IsReached w → Leads w last → StaysKnown w last }
{}

/// A server may rest on what it is told. Where it holds a lease, its replica has the whole list of the lease's view, which was settled and
/// of which it is a member. What it is told of an epoch is how the epoch began. Nothing reaches it under a stamp from before the chunk's
/// birth. Each member of the settled view has promised it; and while no rollback is begun, none has promised more than was proposed, and
/// no member of the settled view lags behind a rollback.
fn a_server_may_rest_on_what_it_is_told()
    ensures leases { (w : ChunkWorld) → IsReached w → LeasesRest w }
    ensures told { (w : ChunkWorld) → IsReached w → EpochsAreTold w }
    ensures born { (b : Birth) (w : ChunkWorld) → Leads (world_of b) w → BornFirst b.epoch w }
    ensures learned { (w : ChunkWorld) → IsReached w → MembersHaveLearned w }
    ensures promises { (w : ChunkWorld) → IsReached w → PromisesRest w }
    ensures stood { (w : ChunkWorld) → IsReached w → PeopledStood w }
    ensures ahead { (w : ChunkWorld) → IsReached w → NoneIsAhead w }
    ensures prepared { (w : ChunkWorld) → IsReached w → PreparedViewsRest w }
{}

/// An event leaves each server as it is but the one at which it happens. The master's events leave them all, but that a prepare marks
/// those that are whole.
fn an_event_leaves_the_others()
    ensures { (w : ChunkWorld) (e : Event) → OthersStay w e }
{}

/// The master makes lists of old ones: behind each of its events the first edits of a list are the first ones of a list of before; and so they
/// are behind many.
fn the_master_makes_lists_of_old_ones()
    ensures event { (w : ChunkWorld) (e : Event) → MastersListsAreOld w e }
    ensures same { (w : ChunkWorld) → ListsAreOld w w }
    ensures then { (w mid last : ChunkWorld) → ListsAreOld w mid → ListsAreOld mid last → ListsAreOld w last }
{}

/// A list is that of a view that stood, behind the birth; that of any other stamp has the edits of the birth, or none.
fn lists_are_of_views()
    ensures { (b : Birth) (w : ChunkWorld) → Leads (world_of b) w → ListsAreOfViews b w }
{}

/// In a run of events of the master alone, as one of its turns is, at most one view of the chunk is settled, since nobody has promised a stamp that is
/// proposed in it: the one that had been proposed last. Its list is the first edits of that of the view before, as many as it begins with; all other lists
/// stay. Where a rollback is committed the list that was prepared is that of the view of version 0, or the chunk has none. A chunk that isn't known is settled no
/// more; and a view that is settled has a member, while one that has members stood. Where a rollback is over it was committed, none begins within an epoch, and a
/// prepare finds what was known before it.
fn the_master_settles_one_view_at_most()
    ensures once { MastersSettleOnce }
    ensures forgets { MastersForget }
    ensures people { MastersPeople }
    ensures prepared { MastersKeepPrepared }
    ensures calm { MastersStayCalm }
    ensures commits { MastersCommit }
    ensures prepares { MastersPrepare }
    ensures stood { MembersStood }
{}

/// What has been rolled back stays until the rollback is committed: a server that makes its image live as it learns of it is intact from then on;
/// it keeps its epoch and its promise; what is live of it is under the first stamp of the epoch, and stays just that, unless it is lost or damaged. So a survivor that was neither since it learned is live with just the prepared list at the commit
/// and behind it.
fn what_is_rolled_back_stays()
    ensures intact { (w : ChunkWorld) → LearnersAreIntact w }
    ensures first { (w : ChunkWorld) → IsReached w → RolledAreFirst w }
    ensures held { (w last : ChunkWorld) → IsReached w → Leads w last → RolledAreHeld w last }
    ensures back { (w last : ChunkWorld) → IsReached w → Leads w last → SurvivorsAreBack w last }
{}

/// The laws speak of runs that there are: a chunk that is written, prepared, written again and rolled back; and one of which a server loses its replica
/// within the upgrade, a third is sent a copy with the image that was sealed, and gives back what stood at the prepare when all others have lost it.
fn worked_runs_are_runs_of_the_machine()
    ensures written { IsReached written.rolled_back }
    ensures carried { IsReached carried.rolled_back }
{}

/// Each edit of a list was numbered in a view, under the stamp that it was asked for under, but those with which the chunk was born: it stands in the list of that
/// view at the same place, behind the same edits, and the list is of that stamp or of a later one. So it stays where the master's events lead, which make lists of
/// old ones, and where servers number edits under the stamps that they are asked for under. And a stamp that the last one proposed isn't below stays one that no later view's is below.
fn each_edit_was_numbered_in_a_view()
    ensures born { (under : ReqId → Option Stamp) (b : Birth) → BornNumbered under b }
    ensures masters { (under : ReqId → Option Stamp) (origin : List Edit) (w v : ChunkWorld) → MastersNumber under origin w v }
    ensures servers { (under : ReqId → Option Stamp) (origin : List Edit) (w v : ChunkWorld) → ServersNumber under origin w v }
    ensures behind { (w v : ChunkWorld) → StaysBehind w v }
{}

/// What a test tells of each edit of a list by the edits before it, it tells of each edit of a beginning of the list. So it stays where the master's events lead, which make
/// lists of beginnings of old ones, and where servers add edits of which it tells so; and a chunk that is born with such edits has no others.
fn what_holds_of_edits_by_those_before_them_stays()
    ensures beginnings { (own : List Edit → Edit → Bool) → BeginningsOwn (λ before edit. own before edit ≡ true) }
    ensures born { (own : List Edit → Edit → Bool) (b : Birth) → BornOwn (λ before edit. own before edit ≡ true) b }
    ensures masters { (own : List Edit → Edit → Bool) (w v : ChunkWorld) → MastersOwn (λ before edit. own before edit ≡ true) w v }
    ensures servers { (own : List Edit → Edit → Bool) (w v : ChunkWorld) → ServersOwn (λ before edit. own before edit ≡ true) w v }
{}
