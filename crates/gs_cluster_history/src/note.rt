// What was taken, which stands in proofs alone.
ghost use Rattle.std.specs.Prelude.{◌≡◌};
ghost use base.Fml.{ftrue};
ghost use Rattle.gs_cluster_history.specs.declared.took.Took.{Took};
ghost use Rattle.gs_cluster_history.specs.contracts.took.Took as took_code;

use crate::took::Took;
use std::marker::Model;

/// What a node has taken. At run time it is nothing.
#[derive(Drop)]
pub struct Note {
    pub ghost took: { Took } by { took_code.the_row.coded },
}

impl Model for Note {
    ghost also_owns = { λ _. ftrue };
}

unsafe impl Send for Note {}

impl Note {
    pub fn of(_took: &Took) -> Note
        ensures { result.took ≡ _took.now }
    {
        Note {}
    }
}
