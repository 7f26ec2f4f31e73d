use crate::again::ReplayFault;
use thiserror::Error;

/// Why a run ends before its input does, with the text for standard error.
#[derive(Clone, Copy, Debug, PartialEq, Eq, Error)]
pub enum KeepFault {
    /// Of the lines that were run since the last answers nothing is logged or answered.
    #[error("memory is lacking for an answer")]
    Memory,
    #[error("the input can't be read")]
    Read,
    #[error("the last line of the input lacks its end and isn't run")]
    Unended,
    #[error("there are more lines than can be counted")]
    TooMany,
    #[error("the output can't be written")]
    Write,
    /// Lines couldn't be appended to the log, or not be synced.
    #[error("the log can't be written")]
    Log,
}

/// Why a run over a log ends before its input does, with the text for standard error.
#[derive(Clone, Copy, Debug, PartialEq, Eq, Error)]
pub enum StoreFault {
    /// The lines of the log can't be run again. Nothing is read of the input, and the log isn't changed.
    #[error("{0}")]
    Replay(ReplayFault),
    /// What stands in the log after what is run again can't be put aside. Nothing is read of the input, and the log isn't changed.
    #[error("what stands after the lines that were answered can't be put aside")]
    Aside,
    /// The log can't be cut behind what is run again. Nothing is read of the input.
    #[error("the log can't be written")]
    Cut,
    /// No mark can be put behind lines that have none. Nothing is read of the input.
    #[error("{0}")]
    Begin(KeepFault),
    #[error("{0}")]
    Serve(KeepFault),
}
