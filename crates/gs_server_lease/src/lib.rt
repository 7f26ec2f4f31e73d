//! The lease at its primary, with the edits that wait for its members, and the rules of an edit's number, each a function by itself. It
//! is a crate of its own for the checker's time alone: wrong bodies are tried sooner in a small crate.
#![tactic(auto)]

mod forwarding;
mod lease;
mod numbering;
mod recency;

pub use forwarding::{acknowledgement, count_under};
pub use lease::{Open, PrimaryLease, RoomyLease, ToldCounts, tell};
pub use numbering::{is_passed, is_too_long, numbered_op, outcome_at};
pub use recency::Recency;
