// What most runs are given: a log that doesn't fail, and nobody who is told.
use gs_keep::{Progress, Replayed};
use gs_keep_log::Fault;

/// What a call of the log does that doesn't fail.
pub(crate) const NO_FAULT: Fault = Fault {
    calls: u64::MAX,
    count: 0,
};

/// Nobody who is told.
#[derive(Drop)]
pub(crate) struct Nobody;

impl Progress for Nobody {
    fn measured(&mut self, _rest: u64) {}

    fn passed(&mut self, _lines: u64) {}

    fn ended(&mut self, _replayed: Replayed) {}

    fn cut(&mut self) {}
}
