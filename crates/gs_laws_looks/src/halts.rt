//! What a client that only looks is told of files behind a commit.

ghost use Rattle.std.specs.Prelude.{List, ℕ};
ghost use Rattle.gs_msg.specs.declared.event.DiskId.{DiskId};
ghost use Rattle.gs_nodes.specs.declared.place.MasterPlace.{MasterPlace};
ghost use Rattle.gs_laws_looks.specs.halts.Looked.{AnswersAreByNames, LooksAreByNames};
ghost use Rattle.gs_laws_looks.specs.halts.Unled.{CommitsHalt, CommitsLeaveUnled, StaysHalted, StaysUnled};

/// As long as a client only looks, no chunk of a file gets a primary where none has one, no call waits, and all that was called before has a number that the client has had: neither at the master nor by what its disks tell,
/// whatever else comes, and whatever disks fail, by themselves or as it was arranged before. Meanwhile the master isn't started again, and no failure of a disk is arranged.
fn no_chunk_is_leased_while_a_client_looks<D>()
    ensures quiet { (seen : D → List ℕ) (failures : D → ℕ) (armed : DiskId → ℕ → MasterPlace D → MasterPlace D) → StaysUnled seen failures armed }
    ensures halted { (seen : D → List ℕ) (failures : D → ℕ) (armed : DiskId → ℕ → MasterPlace D → MasterPlace D) → StaysHalted seen failures armed }
{}

/// Behind the event at which the commit of a prepare, or of a rollback, is answered, no chunk of a file has a primary. So where the only client has that answer, and asks nothing else but look-ups meanwhile, the store is halted
/// on what the master stood on right behind that event. Meanwhile the master isn't started again, and no failure of a disk is arranged; one that was arranged before may come.
fn a_commit_halts_a_store<D>()
    ensures unled { (seen : D → List ℕ) (failures : D → ℕ) (armed : DiskId → ℕ → MasterPlace D → MasterPlace D) → CommitsLeaveUnled seen failures armed }
    ensures halts { (seen : D → List ℕ) (failures : D → ℕ) (armed : DiskId → ℕ → MasterPlace D → MasterPlace D) → CommitsHalt seen failures armed }
{}

/// In a halted store the status of a path is answered by the names on which it has halted, and so is where a chunk of a file is: by the view that it is settled on, which has no primary, and in the epoch of then.
fn files_are_looked_up_by_the_names_of_a_halt<D>()
    ensures events { (seen : D → List ℕ) (failures : D → ℕ) (armed : DiskId → ℕ → MasterPlace D → MasterPlace D) → LooksAreByNames seen failures armed }
    ensures answers { (seen : D → List ℕ) (failures : D → ℕ) (armed : DiskId → ℕ → MasterPlace D → MasterPlace D) → AnswersAreByNames seen failures armed }
{}
