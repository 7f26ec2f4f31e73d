//! A map in which room is made for a key first, so that putting a value there takes no memory. `reserve` makes room or is refused;
//! `put`, `replace` and `take` then can't be. `remove` and `release` give room up.
#![tactic(auto)]

mod entries;
mod key;
mod table;

pub use entries::Entries;
pub use key::Key;
pub use table::Table;
