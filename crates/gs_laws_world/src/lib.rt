//! What holds of the nodes of a store over every run: the master stands firm while no disk of it fails, lasts through failures, and a
//! restart opens what stood. A store that is asked within its types keeps them.
#![tactic(auto)]

mod lasting;
mod steady;
mod worlds;

pub use lasting::{a_restart_opens_what_stood, disks_of_the_same_bytes_are_opened_alike};
pub use steady::a_master_lasts_through_failures;
pub use worlds::{each_world_is_reached, new_world, run_world};
