//! What holds of all locks.

ghost use Rattle.std.specs.Prelude.{◌≡◌, ◌++◌, List};
ghost use Rattle.gs_base.specs.declared.numbers.ReqId.{ReqId};
ghost use Rattle.gs_path.specs.Path.{Path};
ghost use Rattle.gs_lock.specs.declared.lock.Lock.{Lock};
ghost use Rattle.gs_lock.specs.Locks.{stands_in_the_way, is_conflict, all_beginnings};

/// A lock is in the way exactly where locking these paths, and for reading all that is above them, is refused.
pub fn what_is_in_the_way_conflicts()
    ensures { (locks : List Lock) (op : ReqId) (reads writes : List Path) → stands_in_the_way locks op reads writes ≡ is_conflict locks op (all_beginnings (reads ++ writes)) writes }
{}
