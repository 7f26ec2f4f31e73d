ghost use Rattle.std.specs.Prelude.{◌≡◌};
ghost use Rattle.gs_master_record.specs.declared.fault.Fault.TheVariants.{Memory};

use gs_base::Refusal;
use std::alloc::{AllocError, AllocFailed};

/// Why nothing was read or written.
#[derive(Clone, Copy, Debug, Drop)]
pub(crate) enum Fault {
    Memory,
    /// The bytes are of no entry, or the entry can't be written.
    Form,
}

impl From<AllocError> for Fault {
    ghost from_gives = { λ _ e. e ≡ Memory };

    fn from(_error: AllocError) -> Fault {
        Fault::Memory
    }
}

impl<T: Drop> From<AllocFailed<T>> for Fault {
    ghost from_gives = { λ _ e. e ≡ Memory };

    fn from(_error: AllocFailed<T>) -> Fault {
        Fault::Memory
    }
}

impl From<Fault> for Refusal {
    ghost use Rattle.std.specs.Prelude.{◌≡◌};
    ghost use Rattle.gs_master_record.specs.Answers.{refusal_of};

    ghost from_gives = { λ fault e. e ≡ refusal_of fault };

    fn from(fault: Fault) -> Refusal {
        match fault {
            Fault::Memory => Refusal::Memory,
            Fault::Form => Refusal::BadLine,
        }
    }
}
