//! Tests of a store whose nodes run in threads. They stand here since a crate with tests is proved twice. Each waits for no more than
//! its threads.
#![tactic(auto)]

#[cfg(test)]
mod by_hand;
#[cfg(test)]
mod callers;
#[cfg(test)]
mod gate;
#[cfg(test)]
mod opening;
#[cfg(test)]
mod script;
#[cfg(test)]
mod whole;
