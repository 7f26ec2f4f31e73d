//! What every node speaks of: numbers and counters, requests and stamps, sets of servers, the sizes of a store, and why a call is
//! refused. Each of the 38 refusals has its number, its name and its line, and is found again by number and detail. Counters end at the
//! greatest `u64` and then answer `Exhausted`.
#![tactic(auto)]

mod config;
mod epoch;
mod members;
mod numbers;
pub mod promises;
mod refusal;
mod refused;
mod told;

pub use config::Config;
pub use epoch::EpochEnd;
pub use members::{Members, MembersIter};
pub use numbers::{ClientId, Handle, Moment, ReqId, ServerId, Stamp, next_number};
pub use refusal::{PathText, Refusal};
pub use refused::Refused;
