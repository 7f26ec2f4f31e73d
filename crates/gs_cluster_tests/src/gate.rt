ghost use Rattle.gs_cluster.specs.Opened.{IsNew, names_of};
ghost use Rattle.gs_journal.specs.Memory.{bytes_of, times_failed};
ghost use Rattle.std.specs.Prelude.{◌≡◌};

use crate::opening::opened_over_empty;
use gs_base::{ClientId, Config, Refusal};
use gs_cluster::{Cluster, Opened};
use gs_cluster_node::{Gate, Plan};
use gs_journal::MemoryDisk;
use gs_msg::NodeId;
use gs_shell_calls::Caller;
use gs_shell_script::Answering;
use gs_shell_threads::Desk;
use std::alloc::Global;
use std::marker::Brand;
use std::sync::atomic::{AtomicBool, Ordering};
use std::sync::{Arc, Wait};
use std::test::Fail;
use std::thread;
use std::thread::Threads;
use std::time::Clock;

/// How often a step that is held looks whether it may go on.
const TURNS: u64 = 100_000_000;

/// Which steps have begun, which have left, and which were let go.
#[derive(Drop)]
struct Steps {
    server_began: AtomicBool,
    server_left: AtomicBool,
    master_left: AtomicBool,
    other_went: AtomicBool,
    server_went: AtomicBool,
    master_went: AtomicBool,
}

/// The first step of server 1 is held until server 0 has begun one, which is held, its lock taken, until server 1 has left that step; and
/// the master, as it leaves its step 3, until its step 4 has left.
#[derive(Drop)]
struct Held {
    steps: Arc<Steps, Global>,
}

/// Waits until something is so, and notes that it was.
fn wait_for(is: &AtomicBool, went: &AtomicBool) {
    for turn in 0..TURNS {
        if is.load(Ordering::SeqCst) {
            went.store(true, Ordering::SeqCst);
            return;
        }
        if turn % 64 == 0 {
            thread::yield_now();
        }
    }
}

impl Gate for Held {
    fn enter(&self, node: NodeId, step: u64) {
        let NodeId::Server(server) = node else {
            return;
        };
        if server.number() == 0 && step == 0 {
            self.steps.server_began.store(true, Ordering::SeqCst);
            wait_for(&self.steps.server_left, &self.steps.server_went);
        }
        if server.number() == 1 && step == 0 {
            wait_for(&self.steps.server_began, &self.steps.other_went);
        }
    }

    fn leave(&self, node: NodeId, step: u64) {
        match node {
            NodeId::Server(server) => {
                if server.number() == 1 {
                    self.steps.server_left.store(true, Ordering::SeqCst);
                }
            }
            NodeId::Master => {
                if step == 4 {
                    self.steps.master_left.store(true, Ordering::SeqCst);
                }
                if step == 3 {
                    wait_for(&self.steps.master_left, &self.steps.master_went);
                }
            }
            NodeId::Client(_) => {}
        }
    }
}

/// What a write of a byte comes to in a cluster with this gate, and the reading of it.
fn written<
    N: Plan + Send + Sync + 'static,
    T: Threads + Wait + Clock + Copy + Drop + Send + Sync + 'static,
>(rt: &T, alloc: Global, gate: Held, opened: Opened<MemoryDisk>) -> Result<String, Refusal>
    requires names { N.names ≡ names_of N.setting.config.servers opened.seeds.items }
    requires config { opened.config ≡ N.setting.config }
    requires new { IsNew bytes_of times_failed N.setting opened.seeds.items }
{
    let config = opened.config;
    let (cluster, mut callers) = Cluster::<N, MemoryDisk>::start(rt, alloc, gate, opened)?;
    let Some(link) = callers.pop() else {
        return Err(Refusal::Stray);
    };
    let caller = Caller::new(alloc, ClientId(1), config);
    let mut desk = Desk { caller, link };
    let mut answers = desk.answer(alloc, b"create /f")?;
    for line in [b"write /f 0 61".as_slice(), b"read /f 0 2".as_slice()] {
        answers.push('\n')?;
        answers.push_str(&desk.answer(alloc, line)?)?;
    }
    let Desk { caller: _, link } = desk;
    callers.push(link)?;
    let _ = cluster.finish(rt, callers)?;
    Ok(answers)
}

#[test]
fn steps_of_two_nodes_and_of_two_threads_of_one_node_overlap(rt: HostRuntime) -> Result<(), Fail> {
    let alloc = rt.alloc();
    let config = Config::new(3, 1, 3, 4, 16)?;
    let steps = Arc::new(
        alloc,
        Steps {
            server_began: AtomicBool::new(false),
            server_left: AtomicBool::new(false),
            master_left: AtomicBool::new(false),
            other_went: AtomicBool::new(false),
            server_went: AtomicBool::new(false),
            master_went: AtomicBool::new(false),
        },
    )?;
    let gate = Held {
        steps: Arc::try_clone(&steps)?,
    };
    let opened = opened_over_empty(alloc, config, 1)?;
    let answers = written::<Brand, HostRuntime>(&rt, alloc, gate, opened)?;
    assert_eq!(rt; answers.as_str(), "ok\nok\nok 61");
    assert!(rt; steps.other_went.load(Ordering::SeqCst));
    assert!(rt; steps.server_went.load(Ordering::SeqCst));
    assert!(rt; steps.master_went.load(Ordering::SeqCst));
    Ok(())
}
