//! Tests that try more than one contract says: outside examples of digests, a journal's bytes, what whole scripts and deep paths are answered, and an
//! example of the store as a library. They speak to public calls alone. They stand here since a crate with tests is proved twice; the
//! tests of each part stand beside the gate.
#![tactic(auto)]

#[cfg(test)]
mod deep;
#[cfg(test)]
mod example;
#[cfg(test)]
mod journal;
#[cfg(test)]
mod shell;
