// Nodes that may begin, joined by channels.
ghost use Rattle.std.specs.Prelude.{◌≡◌, ◌-◌, ◌<◌, IfOk, List, length, map, vec_len};
ghost use Rattle.gs_cluster_channel.specs.Settled.{Putting};
ghost use Rattle.gs_cluster_channel.specs.Named.{IsNamed};
ghost use Rattle.gs_cluster_history.specs.Histories.{Among};
ghost use Rattle.gs_cluster_history.specs.Setting.{all_ids};
ghost use Rattle.gs_cluster_node.specs.Nodes.{HaveSentNothing, leads_of};
ghost use Rattle.gs_cluster_threads.specs.Wired.{MayBegin, fresh, numbers_of};
ghost use Rattle.gs_cluster_threads.specs.inner.Berths.{Fits, berthed, begun, with_parts, way_into};
ghost use Rattle.gs_cluster_threads.specs.declared.wiring.Berth.{Berth as ABerth};
ghost use Rattle.gs_cluster_threads.specs.declared.wiring.Seed.{Seed as ASeed};

use gs_cluster_channel::{Ear, Line, Way};
use gs_cluster_history::{Core, Turn};
use gs_cluster_node::{Node, Plan};
use std::alloc::{AllocError, Global};
use std::marker::Model;
use std::sync::Wait;

/// A node that may begin: the channel into it, which names its number, what it is, and what it sends at first.
#[derive(Drop)]
pub struct Seed<C: Core + Drop> {
    pub line: Line,
    pub core: C,
    pub turn: Turn,
}

/// A node that hears, and has no ways yet.
#[derive(Drop)]
struct Berth<N: Plan, C: Core + Drop> {
    ear: Ear<N>,
    core: C,
    turn: Turn,
}

/// The ways of one node.
#[derive(Drop)]
pub(crate) struct Row<N: Plan> {
    pub(crate) ways: Vec<Way<N>>,
}

impl<N: Plan> Model for Row<N> {
    ghost use Rattle.std.specs.Prelude.{List};
    ghost use Rattle.std.specs.Coded.{coded_list};
    ghost use Rattle.gs_cluster_channel.specs.Settled.{Putting, coded_putting};

    ghost Value = { List Putting };

    ghost coded = { coded_list coded_putting };

    ghost view = { λ r. r.ways.items };
}

impl<N: Plan> Row<N> {
    pub(crate) fn new(ways: Vec<Way<N>>) -> Row<N>
        ensures { result ≡ ways.items }
    {
        Row { ways }
    }

    pub(crate) fn into_ways(self) -> Vec<Way<N>>
        ensures { result.items ≡ self }
    {
        let Row { ways } = self;
        ways
    }
}

fn berths_of<N: Plan, C: Core + Drop>(
    alloc: Global,
    seeds: Vec<Seed<C>>,
) -> Result<Vec<Berth<N, C>>, AllocError>
    requires { (s : ASeed C) → Among seeds.items s → IsNamed N.names s.line.me s.line.pass }
    ensures { IfOk result (λ v. v.items ≡ map (berthed 1024) seeds.items) }
{
    let mut berths = Vec::new(alloc);
    for seed in seeds {
        let Seed { line, core, turn } = seed;
        let ear = Ear::new(line);
        berths.push(Berth { ear, core, turn })?;
    }
    Ok(berths)
}

/// A way into each node, cut off the channel into it.
fn row_of<N: Plan, C: Core + Drop>(
    alloc: Global,
    parts: u64,
    berths: Vec<Berth<N, C>>,
) -> Result<(Vec<Berth<N, C>>, Row<N>), AllocError>
    requires some { 1 < parts }
    requires each { (b : ABerth N C) → Among berths.items b → b.ear.parts ≡ parts }
    ensures berths { IfOk result (λ r. r.0.items ≡ map (with_parts (parts - 1)) berths.items) }
    ensures row { IfOk result (λ r. r.1 ≡ map way_into berths.items) }
{
    let mut left = Vec::new(alloc);
    let mut ways = Vec::new(alloc);
    for berth in berths {
        let Berth {
            mut ear,
            core,
            turn,
        } = berth;
        ways.push(ear.way()?)?;
        left.push(Berth { ear, core, turn })?;
    }
    Ok((left, Row::new(ways)))
}

/// The ways of each node.
fn rows_of<N: Plan, C: Core + Drop>(
    alloc: Global,
    berths: Vec<Berth<N, C>>,
) -> Result<(Vec<Berth<N, C>>, Vec<Row<N>>), AllocError>
    requires few { vec_len berths < 1024 }
    requires each { (b : ABerth N C) → Among berths.items b → b.ear.parts ≡ 1024 }
    ensures berths { IfOk result (λ r. r.0.items ≡ map (with_parts (1024 - vec_len berths)) berths.items) }
    ensures rows { IfOk result (λ r. vec_len r.1 ≡ vec_len berths) }
    ensures row { IfOk result (λ r. (w : List Putting) → Among r.1.items w → w ≡ map way_into berths.items) }
{
    let many = berths.len() as u64;
    let mut berths = berths;
    let mut rows = Vec::new(alloc);
    for cut in 0..many {
        let (left, row) = row_of(alloc, 1024 - cut, berths)?;
        berths = left;
        rows.push(row)?;
    }
    Ok((berths, rows))
}

/// The nodes, each with its ways.
fn nodes_of<N: Plan, C: Core + Drop, R: Wait>(
    rt: &R,
    alloc: Global,
    are_noted: bool,
    berths: Vec<Berth<N, C>>,
    rows: Vec<Row<N>>,
) -> Result<Vec<Node<N, C>>, AllocError>
    requires many { vec_len rows ≡ vec_len berths }
    requires rows { (w : List Putting) → Among rows.items w → (leads_of w ≡ all_ids N.setting) × HaveSentNothing w }
    requires berths { (b : ABerth N C) → Among berths.items b → Fits (C.Starts N.setting) (all_ids N.setting) b }
    ensures { IfOk result (λ v. v.items ≡ map begun berths.items) }
{
    let mut rows = rows;
    let mut nodes = Vec::new(alloc);
    for berth in berths {
        let Some(row) = rows.pop() else {
            unreachable!()
        };
        let Berth { ear, core, turn } = berth;
        let me = ear.me();
        let ways = row.into_ways();
        let node = Node::new(rt, alloc, are_noted, me, core, turn, ways, ear);
        nodes.push(node)?;
    }
    Ok(nodes)
}

/// All nodes of a cluster, in the order of their numbers. None of them has taken anything; what they send at first is on its way. They
/// keep notes where that is said.
pub fn wire<N: Plan, C: Core + Drop, R: Wait>(
    rt: &R,
    alloc: Global,
    are_noted: bool,
    seeds: Vec<Seed<C>>,
) -> Result<Vec<Node<N, C>>, AllocError>
    requires all { numbers_of seeds.items ≡ all_ids N.setting }
    requires few { length (all_ids N.setting) < 1024 }
    requires begin { (s : ASeed C) → Among seeds.items s → MayBegin (C.Starts N.setting) N.names s }
    ensures { IfOk result (λ nodes. nodes.items ≡ map fresh seeds.items) }
{
    let berths = berths_of(alloc, seeds)?;
    let (berths, rows) = rows_of(alloc, berths)?;
    nodes_of(rt, alloc, are_noted, berths, rows)
}
