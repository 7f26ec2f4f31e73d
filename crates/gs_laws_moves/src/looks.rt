//! What look-ups of files are answered, and that no chunk gets a primary while clients only look.

ghost use Rattle.gs_laws_moves.specs.looks.Looked.{LocationsAreAnswered, LocationsTellChunks, StatusesAreAnswered, StatusesTellFiles};
ghost use Rattle.gs_laws_moves.specs.looks.Unled.{CheckpointsLeaveUnled, MessagesLeaveUnled, PreparesLeaveUnled, RollbacksLeaveUnled, StepsLeaveUnled, TicksLeaveUnled};

/// What a new status, or a new finding for reading, is answered is by the names and the settled views that stand then; and where it is answered no disk has failed, and no rollback is begun. The chunks that a status tells of a file
/// are those of the file at its path, in their order. A location tells the chunk at this place of the file at the path, the view that it is settled on, and the epoch.
fn files_are_looked_up_by_names_and_views()
    ensures statuses { StatusesAreAnswered }
    ensures files { StatusesTellFiles }
    ensures locations { LocationsAreAnswered }
    ensures chunks { LocationsTellChunks }
{}

/// Where no chunk of a file has a primary, no view of one is proposed for a lease, and no call waits, so it stays at each event but a call that is new and no look-up: whatever else comes, at each tick, at what a tick
/// does before the checkpoint that is due, and at a checkpoint; also where a disk fails at a record of it, and by what some of its records lead to.
fn no_chunk_is_leased_while_clients_look()
    ensures messages { MessagesLeaveUnled }
    ensures ticks { TicksLeaveUnled }
    ensures steps { StepsLeaveUnled }
    ensures checkpoints { CheckpointsLeaveUnled }
{}

/// Where no call waits, and a commit of a prepare is accepted: behind it no chunk of a file has a primary, no view of one is proposed for a lease, and still no call waits. So it is behind a commit of a rollback whose record fits what is durable.
fn no_chunk_is_leased_behind_a_commit()
    ensures prepares { PreparesLeaveUnled }
    ensures rollbacks { RollbacksLeaveUnled }
{}
