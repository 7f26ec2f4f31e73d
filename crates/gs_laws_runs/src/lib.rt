//! A run of a store is a run of the plain machine, whatever disks of its master fail, and a rollback leads back to what was shown at
//! its prepare. What the master answers to calls of the tree is what that machine answers.
#![tactic(auto)]

mod plain;
mod replies;

pub use plain::{
    a_done_edit_is_made_at_its_place, a_request_that_is_over_makes_no_edit_in_a_run,
    a_rollback_shows_what_its_prepare_showed, a_run_is_a_run_of_the_plain_machine,
    copies_are_of_what_stands_at_their_places, edits_come_to_one_place_each,
};
pub use replies::replies_are_the_plain_machines;
