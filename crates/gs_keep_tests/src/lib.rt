//! Tests of a store that is kept, over a log in memory: what each crash leaves goes on as if nothing had been.
#![tactic(auto)]

#[cfg(test)]
mod counting;
#[cfg(test)]
mod crashes;
#[cfg(test)]
mod plain;
#[cfg(test)]
mod starts;
