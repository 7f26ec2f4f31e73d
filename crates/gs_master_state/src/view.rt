// Views: which versions and handles are left for them.
ghost use Rattle.std.specs.Prelude.{◌≡◌, IfSome, is_some};
ghost use Rattle.gs_master_spec.specs.Beginning.{has_handle, has_versions, next_stamp};
ghost use Rattle.gs_master_state.specs.inner.Recorded.{durable_of};

use crate::recorded::Recorded;
use gs_base::{Handle, Stamp};

impl Recorded {
    /// Whether so many versions are left.
    pub fn has_versions(&self, many: u64) -> bool
        ensures { result ≡ has_versions (durable_of self.now) many }
    {
        if self.next_version == 0 || many == 0 {
            return many == 0;
        }
        many - 1 <= u64::MAX - self.next_version
    }

    /// The stamp of the view that is begun next.
    pub fn next_stamp(&self) -> Stamp
        ensures { result ≡ next_stamp (durable_of self.now) }
    {
        Stamp {
            epoch: self.epoch,
            version: self.next_version,
        }
    }

    /// The handle of the next chunk, if one is left.
    pub fn next_handle(&self) -> Option<Handle>
        ensures some { is_some result ≡ has_handle (durable_of self.now) }
        ensures handle { IfSome result (λ handle. handle ≡ (durable_of self.now).next_handle) }
    {
        Handle::new(self.next_handle)
    }
}
