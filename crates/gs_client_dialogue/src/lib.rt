//! Calls that make several requests, each by the answers before it: what they ask, and what they come to. There is no code here: its
//! definitions are those in which a client's calls are written, and its lemmas lead from one to the other.
#![tactic(auto)]
