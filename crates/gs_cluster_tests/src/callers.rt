ghost use Rattle.gs_cluster.specs.Opened.{IsNew, names_of};
ghost use Rattle.gs_journal.specs.Memory.{bytes_of, times_failed};
ghost use Rattle.std.specs.Prelude.{◌≡◌};

use crate::opening::opened_over_empty;
use crate::whole::{delivered, many_sent, sends_the_same};
use gs_base::{ClientId, Config, Moment, Refusal};
use gs_cluster::{Caller, Cluster, Opened, Whole};
use gs_cluster_node::{Open, Plan};
use gs_journal::{MemoryDisk, Unopened};
use gs_nodes::{Nodes, empty_disks};
use gs_path::Path;
use gs_shell_desk::{Desk as OneThread, Wire};
use gs_shell_script::Answering;
use gs_shell_threads::Desk;
use std::alloc::{AllocError, Global};
use std::collections::VecDeque;
use std::marker::Brand;
use std::sync::Wait;
use std::test::Fail;
use std::thread;
use std::thread::{JoinHandle, Threads};
use std::time::Clock;

/// How many writes each caller makes.
const WRITES: u64 = 50;

/// A path of 64 elements, the most that one has that is read.
const DEEPEST: &'static str =
    "/d/d/d/d/d/d/d/d/d/d/d/d/d/d/d/d/d/d/d/d/d/d/d/d/d/d/d/d/d/d/d/d/d/d/d/d/d/d/d/d/d/d/d/d/d/d/d/d/d/d/d/d/d/d/d/d/d/d/d/d/d/d/d/d";

/// What a caller was answered: how many lines were accepted, how many were unsure, and whether a read gave all that was written in the end.
#[derive(Drop)]
struct Tally {
    accepted: u64,
    unsure: u64,
    is_read: bool,
}

/// A caller that has asked all, with what it was answered.
#[derive(Drop)]
struct Done<N: Plan, T: Wait + Clock + Drop> {
    desk: Desk<N, MemoryDisk, T>,
    tally: Tally,
}

/// Asks until it is accepted, a thousand times at most.
fn ask_until<N: Plan, T: Wait + Clock + Drop>(
    alloc: Global,
    desk: &mut Desk<N, MemoryDisk, T>,
    line: &[u8],
    tally: &mut Tally,
) -> Result<(), AllocError> {
    for _ in 0..1_000 {
        let answer = desk.answer(alloc, line)?;
        if answer.as_str() == "ok" {
            tally.accepted = tally.accepted.saturating_add(1);
            return Ok(());
        }
        if answer.as_str().starts_with("refused 29") {
            tally.unsure = tally.unsure.saturating_add(1);
        }
    }
    Ok(())
}

/// Writes many bytes into a file of its own, one after the other, and reads it.
fn write_many<N: Plan, T: Wait + Clock + Drop>(
    alloc: Global,
    config: Config,
    number: u32,
    link: Caller<N, MemoryDisk, T>,
) -> Result<Done<N, T>, AllocError> {
    let mut tally = Tally {
        accepted: 0,
        unsure: 0,
        is_read: false,
    };
    let caller = gs_shell_calls::Caller::new(alloc, ClientId(number), config);
    let mut desk = Desk { caller, link };
    let create = format!(in alloc; "create /f{number}")?;
    ask_until(alloc, &mut desk, create.as_bytes(), &mut tally)?;
    let byte = format!(in alloc; "6{number}")?;
    let mut written = String::from_str(alloc, "ok ")?;
    for at in 0..WRITES {
        let write = format!(in alloc; "write /f{number} {at} {byte}")?;
        ask_until(alloc, &mut desk, write.as_bytes(), &mut tally)?;
        written.push_str(&byte)?;
    }
    let read = format!(in alloc; "read /f{number} 0 64")?;
    let answer = desk.answer(alloc, read.as_bytes())?;
    tally.is_read = answer.as_str() == written.as_str();
    Ok(Done { desk, tally })
}

/// A thread in which a caller writes.
fn writer<
    N: Plan + Send + Sync + 'static,
    T: Threads + Wait + Clock + Copy + Drop + Send + Sync + 'static,
>(
    rt: &T,
    alloc: Global,
    config: Config,
    number: u32,
    link: Caller<N, MemoryDisk, T>,
) -> Result<JoinHandle<Result<Done<N, T>, AllocError>>, AllocError> {
    let handle = thread::spawn(rt, move || write_many(alloc, config, number, link))?;
    Ok(handle)
}

/// A store on one thread of nodes that ran in threads, and the client that asks it.
fn desk_of(
    alloc: Global,
    nodes: Nodes<MemoryDisk>,
    caller: gs_shell_calls::Caller,
) -> OneThread<MemoryDisk> {
    OneThread {
        caller,
        wire: Wire {
            alloc,
            nodes,
            moment: Moment(0),
            queue: VecDeque::new(alloc),
            held_kind: None,
            held: Vec::new(alloc),
            drops: 0,
            is_short: false,
            trace: None,
        },
    }
}

/// What the nodes answer when the master has begun again.
fn answers_later(
    alloc: Global,
    nodes: Nodes<MemoryDisk>,
    caller: gs_shell_calls::Caller,
) -> Result<String, AllocError> {
    let mut desk = desk_of(alloc, nodes, caller);
    let mut text = desk.answer(alloc, b"restart master")?;
    text.push(' ')?;
    text.push_str(&desk.answer(alloc, b"read /f3 48 9")?)?;
    Ok(text)
}

/// Threads in which callers write, each into a file of its own.
fn writers<
    N: Plan + Send + Sync + 'static,
    T: Threads + Wait + Clock + Copy + Drop + Send + Sync + 'static,
>(
    rt: &T,
    alloc: Global,
    config: Config,
    links: Vec<Caller<N, MemoryDisk, T>>,
) -> Result<Vec<JoinHandle<Result<Done<N, T>, AllocError>>>, AllocError> {
    let mut handles = Vec::new(alloc);
    let mut number: u32 = 0;
    for link in links {
        number = number.wrapping_add(1);
        handles.push(writer(rt, alloc, config, number, link)?)?;
    }
    Ok(handles)
}

/// What all callers were answered, and they themselves, the last of them first.
#[derive(Drop)]
struct Told<N: Plan, T: Wait + Clock + Drop> {
    accepted: u64,
    unsure: u64,
    /// How many have read back all that they have written.
    read: u64,
    links: Vec<Caller<N, MemoryDisk, T>>,
    /// The one that was numbered first.
    first: Option<gs_shell_calls::Caller>,
}

/// Waits until all have written.
fn told_by<N: Plan, T: Threads + Wait + Clock + Drop>(
    rt: &T,
    alloc: Global,
    handles: Vec<JoinHandle<Result<Done<N, T>, AllocError>>>,
) -> Result<Told<N, T>, AllocError> {
    let mut handles = handles;
    let mut told = Told {
        accepted: 0,
        unsure: 0,
        read: 0,
        links: Vec::new(alloc),
        first: None,
    };
    while let Some(handle) = handles.pop() {
        let Done { desk, tally } = handle.join(rt)?;
        told.accepted = told.accepted.saturating_add(tally.accepted);
        told.unsure = told.unsure.saturating_add(tally.unsure);
        told.read = told.read.saturating_add(u64::from(tally.is_read));
        let Desk { caller, link } = desk;
        told.links.push(link)?;
        told.first = Some(caller);
    }
    Ok(told)
}

/// What four callers were answered, what the cluster comes to, and one of the clients.
#[derive(Drop)]
struct Written {
    accepted: u64,
    unsure: u64,
    read: u64,
    whole: Whole<MemoryDisk>,
    caller: gs_shell_calls::Caller,
}

/// Four callers write at once, and are handed back in another order.
fn four_write<
    N: Plan + Send + Sync + 'static,
    T: Threads + Wait + Clock + Copy + Drop + Send + Sync + 'static,
>(rt: &T, alloc: Global, opened: Opened<MemoryDisk>) -> Result<Written, Refusal>
    requires names { N.names ≡ names_of N.setting.config.servers opened.seeds.items }
    requires config { opened.config ≡ N.setting.config }
    requires new { IsNew bytes_of times_failed N.setting opened.seeds.items }
{
    let config = opened.config;
    let (cluster, links) = Cluster::<N, MemoryDisk>::start(rt, alloc, Open, opened)?;
    let handles = writers(rt, alloc, config, links)?;
    let Told {
        accepted,
        unsure,
        read,
        links,
        first,
    } = told_by(rt, alloc, handles)?;
    let (Some(whole), Some(caller)) = (cluster.finish_whole(rt, links)?, first) else {
        return Err(Refusal::Stray);
    };
    Ok(Written {
        accepted,
        unsure,
        read,
        whole,
        caller,
    })
}

/// All is accepted in the end, and reads back. The nodes go on on one thread, where the master begins again; and the events that the
/// cluster gives, run by a new store on one thread, send what was sent in it. Three quarters of those messages, at least, come in them.
#[test]
fn four_callers_write_at_once(rt: HostRuntime) -> Result<(), Fail> {
    let alloc = rt.alloc();
    let config = Config::new(3, 1, 3, 64, 256)?;
    let mut opened = opened_over_empty(alloc, config, 4)?;
    opened.are_noted = true;
    let Written {
        accepted,
        unsure,
        read,
        whole,
        caller,
    } = four_write::<Brand, HostRuntime>(&rt, alloc, opened)?;
    assert_eq!(rt; accepted, 204);
    assert_eq!(rt; unsure, 0);
    assert_eq!(rt; read, 4);
    let Whole {
        nodes,
        sent,
        events,
    } = whole;
    let later = answers_later(alloc, nodes, caller)?;
    assert_eq!(rt; later.as_str(), "ok ok 6363");
    let came = delivered(alloc, &sent, &events)?;
    assert!(rt; came.saturating_mul(4) >= many_sent(&sent).saturating_mul(3));
    assert!(rt; sends_the_same(alloc, config, &sent, events)?);
    Ok(())
}

/// What a cluster comes to without its caller.
fn finished_alone<
    N: Plan + Send + Sync + 'static,
    T: Threads + Wait + Clock + Copy + Drop + Send + Sync + 'static,
>(rt: &T, alloc: Global, opened: Opened<MemoryDisk>) -> Result<bool, Refusal>
    requires names { N.names ≡ names_of N.setting.config.servers opened.seeds.items }
    requires config { opened.config ≡ N.setting.config }
    requires new { IsNew bytes_of times_failed N.setting opened.seeds.items }
{
    let (cluster, callers) = Cluster::<N, MemoryDisk>::start(rt, alloc, Open, opened)?;
    drop(callers);
    Ok(matches!(
        cluster.finish::<T>(rt, Vec::new(alloc)),
        Err(Refusal::Stray)
    ))
}

#[test]
fn a_caller_that_is_missing_is_missed(rt: HostRuntime) -> Result<(), Fail> {
    let alloc = rt.alloc();
    let config = Config::new(1, 1, 1, 4, 16)?;
    let opened = opened_over_empty(alloc, config, 1)?;
    assert!(rt; finished_alone::<Brand, HostRuntime>(&rt, alloc, opened)?);
    Ok(())
}

/// Whether a call that names a path of 65 elements is refused for that, and one that names a path of 64 is taken.
fn takes_64<N: Plan, T: Wait + Clock + Drop>(
    alloc: Global,
    config: Config,
    link: &mut Caller<N, MemoryDisk, T>,
) -> Result<bool, Refusal> {
    let mut caller = gs_shell_calls::Caller::new(alloc, ClientId(1), config);
    let path = Path::parse(alloc, DEEPEST)?;
    let Some(name) = path.name() else {
        return Ok(false);
    };
    let deep = path.join(alloc, name)?;
    let refused = caller.client.mkdirs(link, deep);
    let taken = caller.client.mkdirs(link, path);
    Ok(matches!(refused, Err(Refusal::BadPath)) && taken.is_ok())
}

/// The same of the one caller of a cluster, which is finished behind it.
fn cluster_takes_64<
    N: Plan + Send + Sync + 'static,
    T: Threads + Wait + Clock + Copy + Drop + Send + Sync + 'static,
>(rt: &T, alloc: Global, opened: Opened<MemoryDisk>) -> Result<bool, Refusal>
    requires names { N.names ≡ names_of N.setting.config.servers opened.seeds.items }
    requires config { opened.config ≡ N.setting.config }
    requires new { IsNew bytes_of times_failed N.setting opened.seeds.items }
{
    let config = opened.config;
    let (cluster, callers) = Cluster::<N, MemoryDisk>::start(rt, alloc, Open, opened)?;
    let mut callers = callers;
    let Some(link) = callers.first_mut() else {
        return Err(Refusal::Stray);
    };
    let takes = takes_64(alloc, config, link)?;
    let _nodes = cluster.finish(rt, callers)?;
    Ok(takes)
}

#[test]
fn a_path_of_65_elements_is_refused(rt: HostRuntime) -> Result<(), Fail> {
    let alloc = rt.alloc();
    let config = Config::new(1, 1, 1, 4, 16)?;
    let opened = opened_over_empty(alloc, config, 1)?;
    assert!(rt; cluster_takes_64::<Brand, HostRuntime>(&rt, alloc, opened)?);
    Ok(())
}

/// Too few and too many are refused. The disks that come back are opened with as many as there may be.
#[test]
fn there_are_one_to_sixteen_clients(rt: HostRuntime) -> Result<(), Fail> {
    let alloc = rt.alloc();
    let config = Config::new(1, 1, 1, 4, 16)?;
    for clients in [0, 17] {
        let refused = Opened::new(alloc, config, clients, empty_disks(alloc)).err();
        let Some(
            Unopened {
                refusal,
                first,
                second,
            },
        ) = refused
        else {
            return Err(Fail::new("they were taken"));
        };
        assert!(rt; matches!(refusal, Refusal::Config));
        assert!(rt; Opened::new(alloc, config, 16, (first, second)).is_ok());
    }
    Ok(())
}
