// What the threads of a node see of the cluster.
use crate::rounds::Rounds;
use gs_cluster_node::Gate;
use std::alloc::{AllocError, Global};
use std::sync::Arc;
use std::sync::atomic::{AtomicBool, Ordering};

/// What the two threads of a node see of the cluster: the gate, whether they are to end, the rounds, and the node's place in these.
#[derive(Drop)]
pub(crate) struct Watch<G: Gate + Drop> {
    pub(crate) gate: Arc<G, Global>,
    pub(crate) end: Arc<AtomicBool, Global>,
    pub(crate) rounds: Arc<Rounds, Global>,
    pub(crate) at: usize,
}

impl<G: Gate + Drop> Watch<G> {
    /// Over so many nodes, at the first place.
    pub(crate) fn new(alloc: Global, gate: G, many: usize) -> Result<Watch<G>, AllocError> {
        let rounds = Rounds::new(alloc, many)?;
        Ok(Watch {
            gate: Arc::new(alloc, gate)?,
            end: Arc::new(alloc, AtomicBool::new(false))?,
            rounds: Arc::new(alloc, rounds)?,
            at: 0,
        })
    }

    /// The same at another place.
    pub(crate) fn from(&self, at: usize) -> Result<Watch<G>, AllocError> {
        Ok(Watch {
            gate: Arc::try_clone(&self.gate)?,
            end: Arc::try_clone(&self.end)?,
            rounds: Arc::try_clone(&self.rounds)?,
            at,
        })
    }

    pub(crate) fn is_over(&self) -> bool {
        self.end.load(Ordering::SeqCst)
    }
}
