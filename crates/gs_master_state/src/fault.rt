ghost use Rattle.std.specs.Prelude.{◌≡◌};
ghost use Rattle.gs_master_spec.specs.State.{is_failed, is_unopened};
ghost use Rattle.gs_master_state.specs.inner.Plans.{fault_of};

use gs_master_record::Entry;

/// Whether a disk has failed since the journal was opened, or in the opening itself, and which record was being written then. It
/// stands or doesn't, which the next opening tells.
#[derive(Drop)]
pub enum Fault {
    Sound,
    Failed(Option<Entry>),
    Unopened(Option<Entry>),
}

impl Fault {
    pub fn is_failed(&self) -> bool
        ensures { result ≡ is_failed (fault_of self.now) }
    {
        match self {
            Fault::Sound => false,
            Fault::Failed(_) | Fault::Unopened(_) => true,
        }
    }

    pub fn is_unopened(&self) -> bool
        ensures { result ≡ is_unopened (fault_of self.now) }
    {
        match self {
            Fault::Sound | Fault::Failed(_) => false,
            Fault::Unopened(_) => true,
        }
    }
}
