//! What a master keeps and does, as definitions, with the plain types that these name: what has to be believed of a master stands here.
//! They say what a record makes of what it keeps, what each message, tick, checkpoint and restart comes to, and what a disk that fails
//! may leave.
#![tactic(auto)]

pub mod asking;
pub mod change;
pub mod pending;
pub mod reply;
