// What a disk in memory has held.
ghost use Rattle.std.specs.Prelude.{◌≡◌, ◌∷◌, suc};
ghost use Rattle.gs_journal.specs.inner.History.{contents, failures_of};

use std::alloc::Global;
use std::snapshot::Snapshot;

/// What a disk has held before, and how often it has failed, for contracts alone: nothing of it is kept.
#[derive(Drop)]
pub(crate) enum History {
    Start,
    Held(Snapshot<Vec<u8>>, Snapshot<History>),
    Failed(Snapshot<History>),
}

impl History {
    /// The disk held these bytes.
    pub(crate) fn hold(&mut self, bytes: &Vec<u8>)
        ensures held { contents self.new ≡ bytes.now.items ∷ contents self.old }
        ensures failures { failures_of self.new ≡ failures_of self.old }
    {
        let before = Snapshot::of(self);
        *self = History::Held(Snapshot::of(bytes), before);
    }

    /// The disk failed.
    pub(crate) fn fail(&mut self)
        ensures held { contents self.new ≡ contents self.old }
        ensures failures { failures_of self.new ≡ suc (failures_of self.old) }
    {
        let before = Snapshot::of(self);
        *self = History::Failed(before);
    }
}
