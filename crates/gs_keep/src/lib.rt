//! A store that outlives its process: its lines are logged in batches, each closed by a mark, before they are answered, and a log's lines
//! are run again at the start. It does so whatever answers the lines, and whatever the log is kept in.
#![tactic(auto)]

mod again;
mod batch;
mod fault;
mod keeping;
mod promises;
mod rest;
mod sending;
mod source;
mod standing;
mod starting;
mod turns;
mod whole;

pub use again::{Progress, ReplayFault, Replayed, Wrong, replay};
pub use fault::{KeepFault, StoreFault};
pub use keeping::Keeping;
pub use promises::{
    a_log_goes_on_where_another_has_ended, a_machine_without_lines_of_its_own_sends_all_answers,
};
pub use rest::Rest;
pub use sending::Answers;
pub use source::{Aside, Made, Making, Source};
pub use standing::{FirstLineFault, Standing, StandingFault, found_in};
pub use starting::{Ended, StartFault, start};
pub use turns::serve;
pub use whole::{First, keep_on};
