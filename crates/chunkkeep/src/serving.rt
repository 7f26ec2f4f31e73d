// What a file keeps is run again, and then lines are answered.
ghost use Rattle.std.specs.Prelude.{◌≡◌, false, is_some, IfOk};

use crate::INPUT_BYTES;
use crate::fault::Fault;
use crate::memory_desk::MemoryDesk;
use crate::opening::{FileSource, FirstLine, Opener, first_line, why_unrun};
use crate::patient::Patient;
use crate::tail::Tail;
use crate::telling::Teller;
use gs_keep::{Answers, Ended, StartFault, start};
use gs_keep_file::{FileLog, LogFile, NamedFile, Opened};
use gs_keep_mark::Ledger;
use gs_keep_options::Asked;
use gs_shell_line::EndedLines;
use std::fs::File;
use std::io::{self, BufReader, BufWriter};
use std::rt::{Clock, Files};

/// A file that is open, with what its first line says, if it can be read.
#[derive(Drop)]
pub(crate) struct Begun<'a, R> {
    pub(crate) log: FileLog<NamedFile<'a, R>>,
    pub(crate) source: FileSource,
    pub(crate) first: Option<FirstLine>,
}

/// What a run has come to.
#[derive(Drop)]
pub(crate) struct Stood<'a, R> {
    pub(crate) log: FileLog<NamedFile<'a, R>>,
    pub(crate) machine: MemoryDesk,
    pub(crate) ledger: Ledger,
}

impl<'a, R: AllocGlobal> Begun<'a, R> {
    pub(crate) fn new(rt: &R, opened: Opened<'a, R>) -> Begun<'a, R>
        requires { is_some opened.log.fault ≡ false }
        ensures { is_some result.log.fault ≡ false }
    {
        let Opened { log, reader } = opened;
        let mut source = FileSource::new(reader);
        let first = first_line(rt.alloc(), &mut source);
        Begun { log, source, first }
    }
}

/// Cuts a file behind what was synced last, where a write or a sync behind that failed, and says so. Answers whether that was done, or
/// needn't be.
pub(crate) fn give_up<F: LogFile>(rt: &(impl Eprint), path: &str, log: &mut FileLog<F>) -> bool {
    match log.give_up() {
        Ok(None) => true,
        Ok(Some(len)) => {
            let _ = eprintln!(rt;
                "chunkkeep: {path}: it is cut to {len} bytes, behind all that was answered"
            );
            true
        }
        Err(fault) => {
            let _ = eprintln!(rt;
                "chunkkeep: {path}: what stands behind the lines that were answered can't be cut off: {fault}"
            );
            false
        }
    }
}

/// Goes on with what a file keeps: its lines are run again, and none is answered.
pub(crate) fn run_alone<'a, R: Files<File = File> + Eprint + Clock + AllocGlobal>(
    rt: &'a R,
    asked: &'a Asked,
    begun: Begun<'a, R>,
) -> Result<Stood<'a, R>, Fault>
    requires { is_some begun.log.fault ≡ false }
    ensures { IfOk result (λ stood. is_some stood.log.fault ≡ false) }
{
    let alloc = rt.alloc();
    let path = asked.path.as_str();
    let Begun {
        mut log,
        mut source,
        first: _,
    } = begun;
    let mut rest = Tail::new(rt, alloc, path);
    match start(
        alloc,
        &mut log,
        &mut source,
        &Opener::new(rt, asked),
        &mut rest,
        &mut Teller::new(rt, path),
        &mut EndedLines::new(io::empty()),
        &mut Answers::new(io::sink()),
    ) {
        Ok(Ended { machine, ledger }) => Ok(Stood {
            log,
            machine,
            ledger,
        }),
        Err(StartFault::Standing(fault)) => Err(why_unrun(alloc, &mut source, fault)),
        Err(StartFault::Run(fault)) => {
            let _ = give_up(rt, path, &mut log);
            Err(Fault::of_run(fault, log, rest.into_fault()))
        }
    }
}

// The checker takes no function over any reader here, so both call the start.
/// Goes on with what a file keeps: its lines are run again, and then standard input is answered on standard output.
pub(crate) fn run_input<'a, R: Files<File = File> + Input + Print + Eprint + Clock + AllocGlobal>(
    rt: &'a R,
    asked: &'a Asked,
    begun: Begun<'a, R>,
) -> Result<Stood<'a, R>, Fault>
    requires { is_some begun.log.fault ≡ false }
    ensures { IfOk result (λ stood. is_some stood.log.fault ≡ false) }
{
    let alloc = rt.alloc();
    let path = asked.path.as_str();
    let input = Patient::new(rt, rt.reader());
    let Ok(reader) = BufReader::with_capacity(alloc, INPUT_BYTES, input) else {
        return Err(Fault::Memory);
    };
    let Ok(writer) = BufWriter::new(alloc, io::writer(rt)) else {
        return Err(Fault::Memory);
    };
    let Begun {
        mut log,
        mut source,
        first: _,
    } = begun;
    let mut rest = Tail::new(rt, alloc, path);
    match start(
        alloc,
        &mut log,
        &mut source,
        &Opener::new(rt, asked),
        &mut rest,
        &mut Teller::new(rt, path),
        &mut EndedLines::new(reader),
        &mut Answers::new(writer),
    ) {
        Ok(Ended { machine, ledger }) => Ok(Stood {
            log,
            machine,
            ledger,
        }),
        Err(StartFault::Standing(fault)) => Err(why_unrun(alloc, &mut source, fault)),
        Err(StartFault::Run(fault)) => {
            let _ = give_up(rt, path, &mut log);
            Err(Fault::of_run(fault, log, rest.into_fault()))
        }
    }
}
