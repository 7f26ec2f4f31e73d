//! What holds of the chunks of a store over every run, in the words of an account (ghost history that no code keeps): what replicas
//! stand for, which edits stay, what reads give, and what an upgrade promises. With it stands which calls clients have answers to,
//! and that what the lines of a script make of a store is such a run.
#![tactic(auto)]

mod accounts;
mod answers;
mod calls;
mod desks;
mod members;
mod refusals;
mod replicas;

pub use accounts::{
    a_commit_is_decided_by_what_was_named, a_rollback_gives_back_names_and_bytes,
    a_rollback_gives_back_what_was_settled, an_accepted_rollback_gives_the_names_back,
    copies_inherit, done_edits_stay, each_edit_was_asked_for, each_rollback_is_of_a_prepare,
    each_world_has_an_account, epochs_never_fall, no_rollback_is_done_unnamed,
    one_survivor_is_enough, quiet_chunks_are_still, reads_are_legal,
    replicas_stand_for_beginnings_of_lists, runs_have_accounts,
    survivors_keep_what_stood_at_the_prepare,
};
pub use desks::each_script_asks_within_its_types;
pub use members::{
    a_rollback_leaves_members_with_the_bytes, a_rollback_leaves_members_with_the_bytes_of_then,
};
pub use refusals::an_edit_that_was_told_refused_is_settled_nowhere;
