//! Every moment of a run over a log: a run over a log that stops, so that nothing more is done with it from some moment on.
#![tactic(auto)]

mod stopping;
mod until;

pub use stopping::StoppingLog;
pub use until::keep_until;
