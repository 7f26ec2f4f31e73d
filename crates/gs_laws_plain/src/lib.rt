//! The plain machine: a tree whose files are lists of texts, which copies the whole tree at a prepare. What the master's records say is
//! commands of it. What the master answers to calls of the tree, to those that have waited too, is what the plain tree answers.
#![tactic(auto)]

mod calm;
mod commands;
mod replies;

pub use commands::calls_of_the_tree_do_what_they_answer;
