//! What a line asks of a store, over any link, as a dialogue, and the texts of the answers.
#![tactic(auto)]

mod answer;
mod caller;
mod files;
mod texts;
mod trees;
mod upgrades;

pub use answer::{Answer, done, number};
pub use caller::Caller;
pub use texts::text;
