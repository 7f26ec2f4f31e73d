//! Histories of nodes that run at once: what each took and did, by its clock, and how histories that match are merged into one run. At
//! run time a history is nothing.
#![tactic(auto)]

mod acts;
mod log;
mod note;
pub mod promises;
mod took;
mod turn;

pub use acts::Core;
pub use log::Log;
pub use note::Note;
pub use took::Took;
pub use turn::{Deed, Turn};
