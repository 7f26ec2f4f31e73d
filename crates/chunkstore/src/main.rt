//! The program: a store's shell over standard input and standard output. It reads the command line, then runs `gs_shell::run_telling`,
//! or with `--threads` `run_threads` of `gs_shell_threads`. The status is 0 at the end of the input, 2 if the words are refused, and 1 if the
//! run can't begin, doesn't end well, or a read or a write fails.
#![tactic(auto)]

use gs_base::{Config, Refusal};
use gs_shell::{RunFault, Trouble};
use gs_shell_command::configured;
use gs_shell_threads::run_threads;
use std::io::{self, BufReader, BufWriter};
use std::process::ExitCode;
use std::sync::Wait;
use std::thread::Threads;
use std::time::Clock;

/// Says on standard error what went wrong within the store.
fn tell(rt: &impl Eprint, trouble: &Trouble) {
    if trouble.was_short {
        let _ = eprintln!(rt; "chunkstore: no memory was left for something within the store");
    }
    if trouble.has_disk_failed {
        let _ = eprintln!(rt; "chunkstore: a disk of the store has failed");
    }
}

/// Answers standard input on standard output, by a new store whose journal is kept in memory, and says on standard error what went
/// wrong within it.
fn serve(rt: &(impl Input + Print + Eprint + AllocGlobal), config: Config) -> Result<(), RunFault> {
    let alloc = rt.alloc();
    let Ok(mut reader) = BufReader::new(alloc, rt.reader()) else {
        return Err(RunFault::Refused(Refusal::Memory));
    };
    let Ok(mut writer) = BufWriter::new(alloc, io::writer(rt)) else {
        return Err(RunFault::Refused(Refusal::Memory));
    };
    let (result, trouble) = gs_shell::run_telling(alloc, config, &mut reader, &mut writer);
    tell(rt, &trouble);
    result
}

/// So too, by a store whose nodes run in threads.
fn serve_in_threads<
    R: Input + Print + AllocGlobal + Threads + Wait + Clock + Copy + Drop + Send + Sync + 'static,
>(rt: &R, config: Config) -> Result<(), RunFault> {
    let alloc = rt.alloc();
    let Ok(mut reader) = BufReader::new(alloc, rt.reader()) else {
        return Err(RunFault::Refused(Refusal::Memory));
    };
    let Ok(mut writer) = BufWriter::new(alloc, io::writer(rt)) else {
        return Err(RunFault::Refused(Refusal::Memory));
    };
    run_threads(rt, alloc, config, &mut reader, &mut writer)
}

/// The status is 0 at the end of the input, 1 where a read or a write fails or the run can't begin, and 2 where the words of
/// the command line are refused. Then nothing is read, and nothing stands on standard output.
fn main(rt: HostRuntime) -> ExitCode {
    let (config, has_threads) = match configured(&rt, "chunkstore") {
        Ok(asked) => asked,
        Err(status) => return status,
    };
    let served = if has_threads {
        serve_in_threads(&rt, config)
    } else {
        serve(&rt, config)
    };
    match served {
        Ok(()) => ExitCode::SUCCESS,
        Err(fault) => {
            let _ = eprintln!(rt; "chunkstore: {fault}");
            ExitCode::FAILURE
        }
    }
}
