//! The shell of a store whose nodes run in threads: a script's lines in, their answers out. Its desk asks over a caller, and asks again
//! for a commit that can't be yet.
#![tactic(auto)]

ghost use Rattle.std.specs.Prelude.{◌≡◌, [], IfErr, IfSome, OnOk};
ghost use Rattle.gs_cluster.specs.Opened.{IsNew, names_of};
ghost use Rattle.gs_journal.specs.Memory.{bytes_of, times_failed};
ghost use Rattle.gs_nodes.specs.NewDisks.{OverEmpty};
ghost use Rattle.gs_shell_threads.specs.Serving.{ServeFails, Serves, WhyNoStore};
ghost use Rattle.std.specs.declared.marker.Brand.{Brand as TheBrand};

mod answering;
mod desk;

pub use desk::Desk;
use gs_base::{ClientId, Config, Refusal};
use gs_cluster::{Cluster, Opened};
use gs_cluster_node::{Gate, Open, Plan};
use gs_journal::{Disk, MemoryDisk};
use gs_nodes::empty_disks;
use gs_shell_calls::Caller;
use gs_shell_script::RunFault;
use std::alloc::Global;
use std::io::{BufRead, Write};
use std::marker::Brand;
use std::sync::Wait;
use std::thread::Threads;
use std::time::Clock;

/// Starts a store that has begun new, answers each line of the reader, and ends it.
fn serve<
    N: Plan + Send + Sync + 'static,
    D: Disk + Drop + Send + 'static,
    T: Threads + Wait + Clock + Copy + Drop + Send + Sync + 'static,
    G: Gate + Drop + Send + Sync + 'static,
    R: BufRead,
    W: Write,
>(
    rt: &T,
    alloc: Global,
    gate: G,
    opened: Opened<D>,
    reader: &mut R,
    writer: &mut W,
) -> Result<(), RunFault>
    requires names { N.names ≡ names_of N.setting.config.servers opened.seeds.items }
    requires config { opened.config ≡ N.setting.config }
    requires new { IsNew D.seen D.failures N.setting opened.seeds.items }
    requires one { N.setting.clients ≡ 1 }
    ensures ok { OnOk result (IfSome (R.remaining reader.old) (λ input. Serves N T D.seen D.failures N.setting input (W.contents writer.old) (W.contents writer.new))) }
    ensures err { IfErr result (λ e.
        ServeFails N T D.seen D.failures N.setting (λ refusal. refusal ≡ Refusal.Memory) e (R.remaining reader.old) (R.remaining reader.new) (W.contents writer.old) (W.contents writer.new)) }
{
    let config = opened.config;
    let (cluster, mut callers) = match Cluster::<N, D>::start(rt, alloc, gate, opened) {
        Ok(started) => started,
        Err(_) => return Err(RunFault::Refused(Refusal::Memory)),
    };
    let Some(link) = callers.pop() else {
        unreachable!()
    };
    let caller = Caller::new(alloc, ClientId(1), config);
    let mut desk = Desk { caller, link };
    let result = gs_shell_script::run(alloc, &mut desk, reader, writer);
    let Desk { caller: _, link } = desk;
    callers.push_reserved(link);
    match cluster.finish(rt, callers) {
        Ok(_) => result,
        Err(refusal) => Err(RunFault::Refused(refusal)),
    }
}

/// Begins a new store, the disks of whose master's journal are in memory, with its master and each server in threads of their own, and
/// answers each line of the reader by one line to the writer, as [`gs_shell_script::run`] does.
///
/// A line is answered when all that it asks of the nodes has come back, however long they work on it. Where nothing comes of a request, since a
/// node has no memory for it, it is given up when nothing is under way any more. Lines about nodes and messages (`hold`, `deliver`, `beat`,
/// `tick`, `restart`, `lose`, `damage`) are `refused 34 BadLine`. Where a prepare or a rollback can't be committed yet, since a
/// chunk isn't quiet or nobody has named it, the commit is asked for again, up to 10,000 times in all.
///
/// A read or a write that fails ends the run as [`gs_shell_script::run`] says; the store is ended then too. Where memory or a thread is
/// wanting for the nodes the fault is `Refused`, and nothing is read or written. Where memory is wanting to end the store, the fault is
/// `Refused(Memory)` in place of what the lines ended with, and they are answered.
pub fn run_threads<
    T: Threads + Wait + Clock + Copy + Drop + Send + Sync + 'static,
    R: BufRead,
    W: Write,
>(rt: &T, alloc: Global, config: Config, reader: &mut R, writer: &mut W) -> Result<(), RunFault>
    ensures ok { OnOk result (IfSome (R.remaining reader.old) (λ input.
        Serves TheBrand T bytes_of times_failed (record { config = config; clients = 1; texts = ([], []) }) input (W.contents writer.old) (W.contents writer.new))) }
    ensures err { IfErr result (λ e. OverEmpty (λ disks.
        ServeFails TheBrand T bytes_of times_failed (record { config = config; clients = 1; texts = ([], []) }) (WhyNoStore bytes_of times_failed config disks) e (R.remaining reader.old) (R.remaining reader.new) (W.contents writer.old) (W.contents writer.new))) }
{
    let disks = empty_disks(alloc);
    let opened = match Opened::new(alloc, config, 1, disks) {
        Ok(opened) => opened,
        Err(unopened) => return Err(RunFault::Refused(unopened.refusal)),
    };
    serve::<Brand, MemoryDisk, T, Open, R, W>(rt, alloc, Open, opened, reader, writer)
}
