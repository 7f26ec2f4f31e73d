//! What the master plans upon each piece of news, as its definitions say, and what it judges before. It borrows the whole master and
//! changes nothing. It, `gs_master_state` and `gs_master` are crates of their own for the checker's time alone.
#![tactic(auto)]

pub mod call;
pub mod checkpoint;
mod known;
pub mod message;
mod replica;
mod report;
pub mod scan;
pub mod standing;
mod tree;
mod upgrade;
pub mod view;
mod waiting;
