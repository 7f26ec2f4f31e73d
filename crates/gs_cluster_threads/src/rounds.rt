// How far the nodes on threads have come to rest.
use std::alloc::{AllocError, Global};
use std::sync::atomic::{AtomicU64, Ordering};

/// Behind so many rounds what a node sent has been handled, and what that brought about at its receivers, and so on. No chain of
/// messages is longer that leads from a node back to it.
const CHAIN: u64 = 8;

/// Rounds in which the threads look at the nodes. A round is over when in it each node was seen with no message waiting for it. A node
/// that is at work isn't seen so. So in the round behind the one in which a message was sent it is taken, and its receiver is done with it.
#[derive(Drop)]
pub struct Rounds {
    round: AtomicU64,
    idle: Vec<AtomicU64>,
}

impl Rounds {
    /// The first round of so many nodes.
    pub(crate) fn new(alloc: Global, many: usize) -> Result<Rounds, AllocError> {
        let mut idle = Vec::new(alloc);
        for _ in 0..many {
            idle.push(AtomicU64::new(0))?;
        }
        Ok(Rounds {
            round: AtomicU64::new(1),
            idle,
        })
    }

    /// The round that goes on.
    pub fn now(&self) -> u64 {
        self.round.load(Ordering::SeqCst)
    }

    /// Whether all that a node sent up to this round is done, with what came of it.
    pub fn are_behind(&self, round: u64) -> bool {
        self.now() >= round.saturating_add(CHAIN)
    }

    /// Whether each node was seen in this round, or behind it, with no message waiting.
    fn were_all_idle(&self, round: u64) -> bool {
        for seen in &self.idle {
            if seen.load(Ordering::SeqCst) < round {
                return false;
            }
        }
        true
    }

    /// The node at this place was looked at in this round, and no message waited for it. The last one that is seen so ends the round.
    pub(crate) fn saw_idle(&self, at: usize, round: u64) {
        let Some(seen) = self.idle.get(at) else {
            return;
        };
        if seen.load(Ordering::SeqCst) >= round {
            return;
        }
        seen.store(round, Ordering::SeqCst);
        if self.were_all_idle(round) {
            let next = round.saturating_add(1);
            let _ended = self
                .round
                .compare_exchange(round, next, Ordering::SeqCst, Ordering::SeqCst);
        }
    }
}
