//! Shows that each node of a store may go into another thread, under a lock: a master with all that it keeps, a server or a client.
#![tactic(auto)]

use gs_cluster_core::Role;
use gs_cluster_history::Core;
use gs_journal_disk::Disk;
use std::alloc::{AllocError, Global};
use std::sync::{Arc, Mutex, Wait};
use std::thread;
use std::thread::Threads;

fn is_waiting<D: Disk + Drop, R: Wait>(rt: &R, at: &Mutex<Role<D>>) -> bool {
    at.lock(rt).is_waiting()
}

/// Another thread looks whether something waits in a node that stands behind a lock.
#[tactic(auto, using(crate::proofs::Roles::role))]
pub fn is_waiting_there<D: Disk + Drop + Send + 'static, R: Threads + Wait + Copy + Send + 'static>(
    rt: &R,
    at: Arc<Mutex<Role<D>>, Global>,
) -> Result<bool, AllocError> {
    let own = *rt;
    let handle = thread::spawn(rt, move || is_waiting(&own, &*at))?;
    Ok(handle.join(rt))
}
