//! The chunks of a store: whatever step a store makes, each chunk goes on with its machine. With it stands which chunks that calls wait
//! for are copies, and of what; and that what the master does is for the call that asked.
#![tactic(auto)]

mod calls;
mod copies;
mod stores;
