// Laws of restarts.
ghost use Rattle.gs_nodes.specs.Crashing.{RefusalsLeave};

use gs_journal::Disk;

/// Where disks couldn't be opened a crash leaves the text that it would have left before, if that is of version 2: so also behind several
/// restarts that are refused.
pub fn a_refused_restart_leaves_what_stood<D: Disk>()
    ensures { RefusalsLeave D.seen D.may_leave D.moment D.left_since }
{}
