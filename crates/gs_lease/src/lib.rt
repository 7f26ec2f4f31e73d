//! Leases as types: what a chunk's state at the master allows, and what a primary holds. Each state is a value that its next step uses
//! up. `AllQuiet` says of a table that every chunk of it is quiet.
#![tactic(auto)]

mod held;
mod lease;
pub mod promises;
mod quiet;
mod told;
mod view;

pub use gs_base_table::Table;
pub use held::{Grant, Held, Spent};
pub use lease::{Lease, Leased, Moving, Quiet, Settled, is_any_asked, restore};
pub use quiet::AllQuiet;
pub use told::Told;
pub use view::{Proposed, Purpose, QuietView, Term, View};
