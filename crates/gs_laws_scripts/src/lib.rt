//! The theorems about scripts. What a script answers is a function of its input; scripts of the tree and of upgrades are answered as by
//! the plain machine; and `ls`, `read` and `digest` answer right after a rollback what they answered right after its prepare.
//! A plain machine says what each line may be answered; what follows from that is proved, and that a store answers so isn't yet.
#![tactic(auto)]

mod answers;
mod bytes;
mod explained;
mod lists;
mod plain;
mod reads;
mod runs;
mod stops;

pub use answers::a_script_answers_its_input;
pub use bytes::{run_by_a_function, run_explained, run_listing, run_plainly, run_twice};
pub use explained::{
    calm_lines_after_a_commit_are_explained, calm_lines_of_a_new_store_are_explained,
    lines_after_a_commit_are_explained, scripts_of_the_tree_are_explained,
};
pub use lists::what_a_script_lists_behind_a_rollback_is_what_it_listed_behind_its_prepare;
pub use plain::scripts_are_answered_as_by_the_plain_machine;
pub use reads::what_a_script_reads_behind_a_rollback_is_what_it_read_behind_its_prepare;
pub use runs::each_script_is_reached;
pub use stops::a_stopped_script_answers_the_beginning_of_its_input;
