//! What the master keeps, on record and in memory. Each record and each change is entered as defined, and taken back exactly and
//! without memory. It, `gs_master_plan` and `gs_master` are crates of their own for the checker's time alone.
#![tactic(auto)]

mod answer;
pub mod call;
mod checkpoint;
pub mod edit;
mod entry;
mod event;
pub mod fault;
pub mod file;
pub mod held_names;
mod inverse;
pub mod known;
pub mod log;
pub mod memory;
pub mod message;
pub mod places;
pub mod plan;
pub mod recorded;
pub mod restart;
pub mod tracked;
pub mod undo;
mod upgrade;
mod view;
mod waiting;
