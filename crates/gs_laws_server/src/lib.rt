//! The laws of a chunkserver over all messages: which call of a chunk's slot each event makes, what a replica stands for after it, when
//! edits are done, and what a refusal leaves.
#![tactic(auto)]

mod refusals;
mod servers;

pub use refusals::{a_refused_edit_is_never_numbered, refusals_are_told_where_edits_are_refused};
pub use servers::{a_message_edits_a_replica_by_what_it_says, an_event_calls_what_it_says};
