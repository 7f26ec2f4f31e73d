//! What a refusal of a client's call comes from, if it tells little by itself: that no replica was reached (28), or that it isn't sure
//! whether a change stands (29). It is said over any link.
#![tactic(auto)]

pub mod promises;
