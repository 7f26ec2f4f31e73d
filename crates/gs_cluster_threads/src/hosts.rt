ghost use Rattle.std.specs.Prelude.{◌≡◌, ◌+◌, ◌≤◌, IfOk, OnOk, vec_capacity, vec_len};
ghost use Rattle.gs_cluster_history.specs.Setting.{all_ids};
ghost use Rattle.gs_cluster_threads.specs.Gathered.{Gathers};

use crate::gathering::{Gathered, gather};
use crate::rounds::Rounds;
use crate::watch::Watch;
use crate::work::host;
use gs_base::Refusal;
use gs_cluster_history::Core;
use gs_cluster_node::{Gate, Node, Plan};
use std::alloc::{AllocError, Global};
use std::sync::atomic::{AtomicBool, Ordering};
use std::sync::{Arc, Wait};
use std::thread;
use std::thread::{JoinHandle, Threads};
use std::time::Clock;

/// Nodes on threads: two threads share each. Where it is let go, its threads end.
pub struct Hosts<N: Plan, C: Core + Drop> {
    alloc: Global,
    end: Arc<AtomicBool, Global>,
    rounds: Arc<Rounds, Global>,
    pub handles: Vec<JoinHandle<Node<N, C>>>,
}

impl<N: Plan, C: Core + Drop> Drop for Hosts<N, C> {
    fn drop(self) {
        let Self {
            alloc: _,
            end,
            rounds: _,
            handles: _,
        } = self;
        end.store(true, Ordering::SeqCst);
    }
}

/// A thread with a node, which it gives back when the cluster ends.
fn host_of<
    N: Plan + Send + Sync + 'static,
    C: Core + Drop + Send + 'static,
    R: Threads + Wait + Clock + Copy + Send + Sync + 'static,
    G: Gate + Send + Sync + Drop + 'static,
>(
    rt: &R,
    alloc: Global,
    watch: Watch<G>,
    node: Node<N, C>,
) -> Result<JoinHandle<Node<N, C>>, AllocError> {
    let own = *rt;
    let handle = thread::spawn(rt, move || host(&own, alloc, &watch, node))?;
    Ok(handle)
}

/// Starts a thread for each node, behind those that are there. Where memory or a thread is wanting, no more are started.
fn host_all<
    N: Plan + Send + Sync + 'static,
    C: Core + Drop + Send + 'static,
    R: Threads + Wait + Clock + Copy + Send + Sync + 'static,
    G: Gate + Send + Sync + Drop + 'static,
>(
    rt: &R,
    alloc: Global,
    watch: &Watch<G>,
    nodes: Vec<Node<N, C>>,
    handles: &mut Vec<JoinHandle<Node<N, C>>>,
) -> Result<(), AllocError>
    requires room { vec_len handles.old + vec_len nodes ≤ vec_capacity handles.old }
    ensures { OnOk result (vec_len handles.new ≡ vec_len handles.old + vec_len nodes) }
{
    for node in nodes {
        let own = watch.from(handles.len())?;
        let handle = host_of(rt, alloc, own, node)?;
        handles.push_reserved(handle);
    }
    Ok(())
}

/// Ends threads, and drops their nodes.
fn end_all<N: Plan, C: Core + Drop, R: Threads>(
    rt: &R,
    end: &AtomicBool,
    handles: Vec<JoinHandle<Node<N, C>>>,
) {
    end.store(true, Ordering::SeqCst);
    for handle in handles {
        drop(handle.join(rt));
    }
}

impl<N: Plan + Send + Sync + 'static, C: Core + Drop + Send + 'static> Hosts<N, C> {
    /// Starts the threads of nodes. Where memory or a thread is wanting, those that were started end.
    pub fn start<
        R: Threads + Wait + Clock + Copy + Send + Sync + 'static,
        G: Gate + Send + Sync + Drop + 'static,
    >(rt: &R, alloc: Global, gate: G, nodes: Vec<Node<N, C>>) -> Result<Hosts<N, C>, AllocError>
        ensures { IfOk result (λ hosts. vec_len hosts.handles ≡ vec_len nodes) }
    {
        let watch = Watch::new(alloc, gate, nodes.len())?;
        let end = Arc::try_clone(&watch.end)?;
        let rounds = Arc::try_clone(&watch.rounds)?;
        let mut handles = Vec::with_capacity(alloc, nodes.len())?;
        match host_all(rt, alloc, &watch, nodes, &mut handles) {
            Ok(()) => Ok(Hosts {
                alloc,
                end,
                rounds,
                handles,
            }),
            Err(refused) => {
                end_all(rt, &end, handles);
                Err(refused)
            }
        }
    }

    /// The rounds in which its threads look at the nodes.
    pub fn rounds(&self) -> Result<Arc<Rounds, Global>, AllocError> {
        Arc::try_clone(&self.rounds)
    }

    /// Ends the threads, and gives what all nodes have come to, those of the callers among them, and what each has noted. It is given only where none is
    /// missing; `Stray` only where they aren't as many as there are.
    pub fn finish<R: Threads + Wait>(
        self,
        rt: &R,
        callers: Vec<Node<N, C>>,
    ) -> Result<Gathered<C>, Refusal>
        ensures { Gathers C.Does (C.Starts N.setting) (all_ids N.setting) (vec_len self.handles + vec_len callers) callers.items result }
    {
        let Hosts {
            alloc,
            end,
            rounds: _,
            handles,
        } = self;
        let mut nodes = callers;
        let Ok(()) = nodes.reserve(handles.len()) else {
            end_all(rt, &end, handles);
            return Err(Refusal::Memory);
        };
        end.store(true, Ordering::SeqCst);
        for handle in handles {
            nodes.push_reserved(handle.join(rt));
        }
        gather(alloc, nodes)
    }
}
