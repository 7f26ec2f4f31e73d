//! What stands of new chunks that calls wait for: which of them are copies, and of what.

ghost use Rattle.gs_laws_lift.specs.copies.Told.{NewStay, PutAreNew};
ghost use Rattle.gs_laws_lift.specs.copies.Held.{HeldStarts, HeldStays};
ghost use Rattle.gs_laws_lift.specs.copies.Made.{CopiesAreUnmade, UnmadeStays};

/// A new chunk for which a call waits to put it at the end of a file was told to no server as a copy; one for which a call waits to put it in the place of another was told as a copy of that alone; and one whose handle
/// isn't given was told as a copy of none: so it stays through each turn. So it is of what a turn puts into a file; that was in no file, and is in one behind the turn.
fn new_chunks_are_told_as_calls_wait_for_them()
    ensures stays { NewStay }
    ensures put { PutAreNew }
{}

/// A call that waits to copy a chunk at a place of a file, or for that copy, has the locks of its path, and no other call holds a place of that file. The chunk stands at the place, till the copy that
/// the call waits for has come there; and while it is copied nobody has its lease, and none is asked for it. So it stays through each turn, and so it is at a start.
fn a_place_that_a_call_copies_is_held()
    ensures stays { HeldStays }
    ensures starts { HeldStarts }
{}

/// A new chunk for which a call waits to put it in the place of another, as a copy of that, is made without edits on no server, and nor is one whose handle isn't given: so it stays through each turn. So what a
/// turn puts in the place of another chunk was made nowhere; it was in no file, and is in one behind the turn.
fn a_copy_is_created_nowhere()
    ensures stays { UnmadeStays }
    ensures puts { CopiesAreUnmade }
{}
