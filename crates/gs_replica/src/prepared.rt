ghost use Rattle.std.specs.Prelude.{◌≡◌, IfOk};

use crate::live::Live;
use crate::seal::{Seal, begin};
use std::alloc::AllocError;
use std::marker::Model;
use std::snapshot::Snapshot;

/// What seals a replica, made beforehand. It is seen as the replica of which it was made, and holds no copy of it.
pub struct PreparedSeal {
    of: Snapshot<Live>,
    seal: Seal,
}

impl Drop for PreparedSeal {
    fn drop(self) {
        let Self { of: _, seal: _ } = self;
    }
}

impl Model for PreparedSeal {
    ghost use Rattle.gs_replica.specs.Held.{Held, coded_held};
    ghost use Rattle.gs_replica.specs.View.{Seals};

    ghost Value = { Held };

    ghost coded = { coded_held };

    ghost view = { λ p. p.of.value };

    ghost invariant = { λ p. Seals p.of.value p.seal };
}

impl PreparedSeal {
    ghost use Rattle.gs_replica.specs.View.{Seals};

    /// What seals this replica as it stands.
    pub(crate) fn of(live: &Live) -> Result<PreparedSeal, AllocError>
        ensures { IfOk result (λ prepared. prepared ≡ live.now) }
    {
        Ok(PreparedSeal {
            of: Snapshot::of(live),
            seal: begin(live)?,
        })
    }

    pub(crate) fn into_seal(self) -> Seal
        ensures { Seals self result }
    {
        let PreparedSeal { of: _of, seal } = self;
        seal
    }
}
