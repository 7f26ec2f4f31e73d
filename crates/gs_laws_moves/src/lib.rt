//! What the master does, move by move: each event is a chain of moves of 23 kinds, each under its guard. On that rest what becomes of a
//! prepare, whom the master answers, what look-ups are answered, and that a refused request makes no edit.
#![tactic(auto)]

mod answers;
mod looks;
mod moves;
mod upgrades;
