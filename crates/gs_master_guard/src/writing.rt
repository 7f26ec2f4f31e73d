// What has to hold before a chunk is written to.
ghost use Rattle.std.specs.Prelude.{◌≡◌};
ghost use Rattle.gs_master_spec.specs.Calls.{is_shared};
ghost use Rattle.gs_master_state.specs.inner.Recorded.{durable_of};

use gs_base::Handle;
use gs_master_state::recorded::Recorded;

/// Whether a chunk has to be copied before it is leased, since it stands in several places.
pub fn has_to_be_copied(recorded: &Recorded, chunk: Handle) -> bool
    ensures { result ≡ is_shared (durable_of recorded.now).names chunk }
{
    recorded.is_shared(chunk)
}
