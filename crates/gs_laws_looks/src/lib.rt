//! What clients look up, list and read right after an accepted rollback is what it was right after its prepare. It is said of what
//! nodes answer, of a client at a store, and of what a desk carries for one.
#![tactic(auto)]

mod carrying;
mod clients;
mod fetching;
mod halts;
mod leaders;
mod lists;
mod reads;
mod rollbacks;

pub use clients::readers_ask_under_locations_that_they_were_told;
pub use lists::{
    epochs_that_are_answered_are_numbers,
    what_is_listed_behind_a_rollback_is_what_was_listed_behind_its_prepare,
};
pub use reads::what_is_read_behind_a_rollback_is_what_was_read_behind_its_prepare;
