//! The store's shell, which also tells what its nodes say to one another. After the answer to each line it tells every message that was
//! sent since the line before, and at the end what stands on the disks of the master's journal.
#![tactic(auto)]

mod disks;

use gs_base::{Config, Refusal};
use gs_journal::MemoryDisk;
use gs_nodes::MasterPlace;
use gs_shell_command::configured;
use gs_shell_desk::Desk;
use gs_shell_line::{Line, next_line};
use gs_shell_script::{RunFault, flush, write_answer, write_line};
use std::alloc::{AllocError, Global};
use std::io::{self, BufRead, BufReader, BufWriter, Write};
use std::mem;
use std::process::ExitCode;

/// A message as it is told, behind the number of its line.
fn told_text(alloc: Global, number: u64, text: &str) -> Result<String, AllocError> {
    format!(in alloc; "{number} {text}")
}

/// Writes what was sent since the answer before. A message for whose text memory is wanting is left out.
fn write_trace<W: Write>(
    alloc: Global,
    desk: &mut Desk<MemoryDisk>,
    number: u64,
    writer: &mut W,
) -> Result<(), RunFault> {
    for text in desk.take_trace().unwrap_or(Vec::new(alloc)) {
        if let Ok(told) = told_text(alloc, number, &text) {
            write_line(writer, &told)?;
        }
    }
    Ok(())
}

/// Answers the next line, with its messages behind it, and flushes both. Says whether there was one.
fn turn<R: BufRead, W: Write>(
    alloc: Global,
    desk: &mut Desk<MemoryDisk>,
    number: u64,
    reader: &mut R,
    writer: &mut W,
) -> Result<bool, RunFault> {
    let Ok(next) = next_line(alloc, reader) else {
        return Err(RunFault::Read);
    };
    if matches!(next.line, Line::End) {
        return Ok(false);
    }
    write_answer(alloc, desk, writer, &next.line)?;
    write_trace(alloc, desk, number, writer)?;
    flush(writer)?;
    Ok(true)
}

/// Answers each line of the reader, with its messages behind it.
fn answer_all<R: BufRead, W: Write>(
    alloc: Global,
    desk: &mut Desk<MemoryDisk>,
    reader: &mut R,
    writer: &mut W,
) -> Result<(), RunFault> {
    for number in 1..u64::MAX {
        if !turn(alloc, desk, number, reader, writer)? {
            break;
        }
    }
    Ok(())
}

/// Tells what stands on two disks.
fn tell_both<W: Write>(
    alloc: Global,
    first: &[u8],
    second: &[u8],
    writer: &mut W,
) -> Result<(), RunFault> {
    disks::tell(alloc, 1, first, writer)?;
    disks::tell(alloc, 2, second, writer)
}

/// Tells the disks of the master's journal.
fn tell_disks<W: Write>(
    alloc: Global,
    master: MasterPlace<MemoryDisk>,
    writer: &mut W,
) -> Result<(), RunFault> {
    match master.into_disks() {
        Some((first, second)) => tell_both(alloc, first.bytes(), second.bytes(), writer),
        None => Ok(()),
    }
}

/// Answers each line of the reader, with its messages behind it, and tells the disks at the end.
fn run<R: BufRead, W: Write>(
    alloc: Global,
    desk: &mut Desk<MemoryDisk>,
    reader: &mut R,
    writer: &mut W,
) -> Result<(), RunFault> {
    answer_all(alloc, desk, reader, writer)?;
    let master = mem::replace(&mut desk.wire.nodes.master, MasterPlace::Away);
    tell_disks(alloc, master, writer)?;
    flush(writer)
}

/// A disk in memory with nothing on it.
fn empty_disk(alloc: Global) -> MemoryDisk {
    MemoryDisk::new(Vec::new(alloc))
}

/// Answers standard input on standard output.
fn serve(rt: &(impl Input + Print + AllocGlobal), config: Config) -> Result<(), RunFault> {
    let alloc = rt.alloc();
    let Ok(mut reader) = BufReader::new(alloc, rt.reader()) else {
        return Err(RunFault::Refused(Refusal::Memory));
    };
    let Ok(mut writer) = BufWriter::new(alloc, io::writer(rt)) else {
        return Err(RunFault::Refused(Refusal::Memory));
    };
    let disks = (empty_disk(alloc), empty_disk(alloc));
    let mut desk = match Desk::new(alloc, config, disks) {
        Ok(desk) => desk,
        Err(unopened) => return Err(RunFault::Refused(unopened.refusal)),
    };
    desk.start_trace();
    run(alloc, &mut desk, &mut reader, &mut writer)
}

/// The status is 0 at the end of the input, 1 where a read or a write fails or the run can't begin, and 2 where the words of
/// the command line are refused.
fn main(rt: HostRuntime) -> ExitCode {
    let config = match configured(&rt, "chunktrace") {
        Ok((config, _)) => config,
        Err(status) => return status,
    };
    match serve(&rt, config) {
        Ok(()) => ExitCode::SUCCESS,
        Err(fault) => {
            let _ = eprintln!(rt; "chunktrace: {fault}");
            ExitCode::FAILURE
        }
    }
}
