// What has to hold before an event's records are written.
ghost use Rattle.std.specs.Prelude.{◌≡◌, false, map, IfOk};
ghost use Rattle.std.specs.List.{list_any};
ghost use Rattle.gs_master_record.specs.Plain.{plain};
ghost use Rattle.gs_master_spec.specs.Applied.{is_whole_entry};
ghost use Rattle.gs_master_state.specs.inner.Plans.{log_of};
ghost use Rattle.gs_master_spec.specs.State.{fits};

use gs_master_record::Entry;
use gs_master_state::log::Log;
use std::alloc::{AllocError, Global};

/// Whether a journal has room for all these records, which is judged before the first is written. None is a checkpoint.
pub fn has_room(log: Log, alloc: Global, records: &[Entry]) -> Result<bool, AllocError>
    requires { list_any is_whole_entry (map plain records.now) ≡ false }
    ensures { IfOk result (λ has_room. has_room ≡ fits (log_of log) (map plain records.now)) }
{
    log.fits(alloc, records)
}
