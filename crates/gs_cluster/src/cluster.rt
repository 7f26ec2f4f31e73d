ghost use Rattle.std.specs.Prelude.{◌≡◌, ◌+◌, ◌++◌, ◌≤◌, All, IfOk, length, map, vec_len};
ghost use Rattle.gs_cluster.specs.Finished.{Finished, FinishedIfNoted};
ghost use Rattle.gs_cluster.specs.Opened.{IsNew, names_of};
ghost use Rattle.gs_cluster.specs.Calling.{fresh_clients};
ghost use Rattle.gs_cluster.specs.declared.caller.Caller.{Caller as ACaller};
ghost use Rattle.gs_cluster_core.specs.Roles.{DoesAs, StartsAs};
ghost use Rattle.gs_cluster_history.specs.Setting.{all_ids};
ghost use Rattle.gs_cluster_threads.specs.Gathered.{Gathers};

use crate::caller::Caller;
use crate::gathering::{Whole, whole_of};
use crate::nodes::nodes_from;
use crate::opening::Opened;
use crate::patience::Patience;
use gs_base::{Config, Moment, Refusal};
use gs_cluster_core::Role;
use gs_cluster_core::promises::matching_histories_are_a_run_of_the_store;
use gs_cluster_history::Core;
use gs_cluster_node::{Gate, Node, Plan};
use gs_cluster_threads::{Gathered, Hosts, Rounds, wire};
use gs_journal::Disk;
use gs_nodes::Nodes;
use std::alloc::{AllocError, Global};
use std::sync::{Arc, Wait};
use std::thread::Threads;
use std::time::Clock;

/// The master and the servers of a store, each on two threads.
#[derive(Drop)]
pub struct Cluster<N: Plan, D: Disk + Drop>
where
    Role<D>: Core,
{
    alloc: Global,
    config: Config,
    are_noted: bool,
    pub hosts: Hosts<N, Role<D>>,
    ghost sizes: { config ≡ N.setting.config },
    pub ghost many: { vec_len hosts.handles + N.setting.clients ≡ length (all_ids N.setting) },
}

/// So many first items, and those behind them.
pub(crate) fn parted<T: Drop>(
    alloc: Global,
    many: usize,
    items: Vec<T>,
) -> Result<(Vec<T>, Vec<T>), AllocError>
    requires { many ≤ vec_len items }
    ensures all { IfOk result (λ p. p.0.items ++ p.1.items ≡ items.items) }
    ensures many { IfOk result (λ p. vec_len p.0 ≡ many) }
{
    let mut first = Vec::new(alloc);
    let mut rest = Vec::new(alloc);
    for item in items {
        if first.len() < many {
            first.push(item)?;
        } else {
            rest.push(item)?;
        }
    }
    Ok((first, rest))
}

/// The nodes of clients, which stand behind the others, go to callers at moment 0.
fn callers_of<N: Plan, D: Disk + Drop, R: Wait + Clock + Copy + Drop>(
    rt: &R,
    alloc: Global,
    rounds: &Arc<Rounds, Global>,
    nodes: Vec<Node<N, Role<D>>>,
) -> Result<Vec<Caller<N, D, R>>, AllocError>
    ensures nodes { IfOk result (λ v. map (λ (c : ACaller N D R). c.node) v.items ≡ nodes.items) }
    ensures moments { IfOk result (λ v. All (λ (c : ACaller N D R). c.moment ≡ record { 0 = 0 }) v.items) }
{
    let mut callers = Vec::new(alloc);
    for node in nodes {
        let rounds = Arc::try_clone(rounds)?;
        callers.push(Caller {
            rt: *rt,
            alloc,
            node,
            moment: Moment(0),
            rounds,
            patience: Patience::new(),
        })?;
    }
    Ok(callers)
}

/// The nodes of callers.
fn nodes_of<N: Plan, D: Disk + Drop, R: Wait + Clock + Drop>(
    alloc: Global,
    callers: Vec<Caller<N, D, R>>,
) -> Result<Vec<Node<N, Role<D>>>, AllocError>
    ensures { IfOk result (λ v. v.items ≡ map (λ (c : ACaller N D R). c.node) callers.items) }
{
    let mut nodes = Vec::new(alloc);
    for caller in callers {
        let Caller {
            rt: _,
            alloc: _,
            node,
            moment: _,
            rounds: _,
            patience: _,
        } = caller;
        nodes.push(node)?;
    }
    Ok(nodes)
}

/// Ends threads, and gives what their nodes and those of these callers have come to.
fn ended<
    N: Plan + Send + Sync + 'static,
    D: Disk + Drop + Send + 'static,
    R: Threads + Wait + Clock + Drop,
>(
    rt: &R,
    alloc: Global,
    hosts: Hosts<N, Role<D>>,
    callers: Vec<Caller<N, D, R>>,
) -> Result<Gathered<Role<D>>, Refusal>
    ensures { Gathers (DoesAs D.seen D.failures) (StartsAs D.seen D.failures N.setting) (all_ids N.setting) (vec_len hosts.handles + length (map (λ (c : ACaller N D R). c.node) callers.items)) (map (λ (c : ACaller N D R). c.node) callers.items) result }
{
    let of_callers = nodes_of(alloc, callers)?;
    hosts.finish(rt, of_callers)
}

impl<N: Plan + Send + Sync + 'static, D: Disk + Drop + Send + 'static> Cluster<N, D> {
    /// Starts a store that has begun new: two threads share its master, and two each server; the clients are the callers', at moment 0. The gate
    /// is told of each step of a node. Where memory or a thread is wanting, the threads that were started end.
    pub fn start<
        R: Threads + Wait + Clock + Copy + Drop + Send + Sync + 'static,
        G: Gate + Send + Sync + Drop + 'static,
    >(
        rt: &R,
        alloc: Global,
        gate: G,
        opened: Opened<D>,
    ) -> Result<(Cluster<N, D>, Vec<Caller<N, D, R>>), AllocError>
        requires names { N.names ≡ names_of N.setting.config.servers opened.seeds.items }
        requires config { opened.config ≡ N.setting.config }
        requires new { IsNew D.seen D.failures N.setting opened.seeds.items }
        ensures noted { IfOk result (λ started. started.0.are_noted ≡ opened.are_noted) }
        ensures clients { IfOk result (λ started. map (λ (c : ACaller N D R). c.node) started.1.items ≡ fresh_clients N.setting.clients) }
        ensures moments { IfOk result (λ started. All (λ (c : ACaller N D R). c.moment ≡ record { 0 = 0 }) started.1.items) }
    {
        let Opened {
            config,
            seeds,
            are_noted,
        } = opened;
        let nodes = wire(rt, alloc, are_noted, seeds)?;
        let (keepers, clients) = parted(alloc, config.servers as usize + 1, nodes)?;
        let hosts = Hosts::start(rt, alloc, gate, keepers)?;
        let rounds = hosts.rounds()?;
        let callers = callers_of(rt, alloc, &rounds, clients)?;
        let cluster = Cluster {
            alloc,
            config,
            are_noted,
            hosts,
        };
        Ok((cluster, callers))
    }

    /// Ends the threads, and gives the nodes as they have become, the clients of the callers among them: what each has taken, in the order of
    /// the clocks, is a run of a store from its beginning to these nodes. It is given only where no caller is missing; `Stray` only where they
    /// aren't as many as the clients.
    pub fn finish<R: Threads + Wait + Clock + Drop>(
        self,
        rt: &R,
        callers: Vec<Caller<N, D, R>>,
    ) -> Result<Nodes<D>, Refusal>
        ensures { Finished D.seen D.failures N.setting (map (λ (c : ACaller N D R). c.node) callers.items) result }
    {
        let Cluster {
            alloc,
            config,
            are_noted: _,
            hosts,
        } = self;
        let Gathered { members, notes: _ } = ended(rt, alloc, hosts, callers)?;
        matching_histories_are_a_run_of_the_store::<D>();
        Ok(nodes_from(alloc, config, members)?)
    }

    /// Ends the threads as `finish` does, of nodes that were to keep notes, and gives with the nodes all that they have ever sent, and the events
    /// that led to them: in the order of the clocks they are a run of a store from its beginning to this one. Where no notes were wanted there
    /// is none. `Memory` too where memory was wanting for a note. Either is given only where no caller is missing.
    pub fn finish_whole<R: Threads + Wait + Clock + Drop>(
        self,
        rt: &R,
        callers: Vec<Caller<N, D, R>>,
    ) -> Result<Option<Whole<D>>, Refusal>
        ensures { FinishedIfNoted D.seen D.failures N.setting (map (λ (c : ACaller N D R). c.node) callers.items) self.are_noted N.setting.clients result }
    {
        let Cluster {
            alloc,
            config,
            are_noted,
            hosts,
        } = self;
        let gathered = ended(rt, alloc, hosts, callers)?;
        if !are_noted {
            return Ok(None);
        }
        match whole_of::<N, D>(alloc, config, gathered) {
            Ok(whole) => Ok(Some(whole)),
            Err(refusal) => Err(refusal),
        }
    }
}
