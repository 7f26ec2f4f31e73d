// What stands in a log is found out, from what it is read from alone.
ghost use Rattle.std.specs.Prelude.{◌≡◌, ℕ, List, take, drop, IfErr, IfOk, IfSome};
ghost use Rattle.gs_shell_line.specs.Ended.{remaining};
ghost use Rattle.gs_keep_measure.specs.Measure.{Measures};
ghost use Rattle.gs_keep_measure.specs.Measure as measuring;
ghost use Rattle.gs_keep.specs.Starting.{IsHead, LacksHead, Refuses, Stands};

use crate::source::{Made, Making, Source};
use gs_keep_measure::{
    Extent, ExtentFault, Measure, MeasureFault, TailFault, extent_of, measure_all, tail_fault,
};
use gs_shell_line::{EndedLine, EndedLines};
use std::alloc::Global;
use std::io::{self, BufRead, Read};

/// What stands in a log.
#[derive(Drop)]
pub struct Standing<M> {
    /// The machine that its first line makes.
    pub machine: M,
    /// Whether it is of the second form.
    pub is_second: bool,
    /// How many lines the logs before have.
    pub before: u64,
    /// Its first line, with its end.
    pub head: Vec<u8>,
    pub measure: Measure,
    /// How much of it is run again.
    pub extent: Extent,
    /// What stands after that.
    pub tail: Vec<u8>,
}

/// Why the first line of a log isn't given.
#[derive(Debug, Drop)]
pub enum FirstLineFault {
    Read(io::Error),
    Memory,
    /// It lacks its end, or is longer than a line may be.
    NoLine,
}

/// Why nothing of a log is run again.
#[derive(Debug, Drop)]
pub enum StandingFault<E> {
    Read(io::Error),
    Measure(MeasureFault),
    FirstLine(FirstLineFault),
    /// Its first line is refused.
    Head(E),
    Extent(ExtentFault),
    /// It was cut while it was read.
    Shorter,
    /// What stands after so many lines isn't what a crash leaves.
    Tail(TailFault, u64),
}

/// Measures the first bytes of a log, so many.
fn measured<S: Source>(alloc: Global, source: &mut S, len: u64) -> Result<Measure, MeasureFault>
    ensures measure { IfOk result (λ measure. IfSome (S.bytes source.old) (λ text. Measures (take len text) measure)) }
    ensures refused { IfErr result (λ e. IfSome (S.bytes source.old) (λ text. measuring.Refuses e (take len text))) }
    ensures same { S.bytes source.new ≡ S.bytes source.old }
{
    match source.part(alloc, 0, len) {
        Ok(reader) => measure_all(alloc, &mut EndedLines::new(reader)),
        Err(error) => Err(MeasureFault::Read(error)),
    }
}

/// The next line of a log, with its end.
fn line_of<B: BufRead>(alloc: Global, lines: &mut EndedLines<B>) -> Result<Vec<u8>, FirstLineFault>
    ensures line { IfOk result (λ line. IfSome (remaining B.remaining lines.old) (λ xs. IsHead xs line.items)) }
    ensures lacks { IfErr result (λ e. IfSome (remaining B.remaining lines.old) (λ xs. LacksHead e xs)) }
{
    match lines.next(alloc) {
        Ok(next) => match next.line {
            EndedLine::Text(line) => Ok(line),
            EndedLine::NoMemory => Err(FirstLineFault::Memory),
            _ => Err(FirstLineFault::NoLine),
        },
        Err(error) => Err(FirstLineFault::Read(error)),
    }
}

/// The first line of a log's first bytes, with its end.
fn head_of<S: Source>(alloc: Global, source: &mut S, len: u64) -> Result<Vec<u8>, FirstLineFault>
    ensures head { IfOk result (λ head. IfSome (S.bytes source.old) (λ text. IsHead (take len text) head.items)) }
    ensures lacks { IfErr result (λ e. IfSome (S.bytes source.old) (λ text. LacksHead e (take len text))) }
    ensures same { S.bytes source.new ≡ S.bytes source.old }
{
    match source.part(alloc, 0, len) {
        Ok(reader) => line_of(alloc, &mut EndedLines::new(reader)),
        Err(error) => Err(FirstLineFault::Read(error)),
    }
}

/// What stands in a log from one place on, up to another.
fn tail_of<S: Source>(alloc: Global, source: &mut S, from: u64, to: u64) -> io::Result<Vec<u8>>
    ensures tail { IfOk result (λ tail. IfSome (S.bytes source.old) (λ text. tail.items ≡ drop from (take to text))) }
    ensures same { S.bytes source.new ≡ S.bytes source.old }
{
    let mut reader = source.part(alloc, from, to)?;
    let mut tail = Vec::new(alloc);
    reader.read_to_end(&mut tail)?;
    Ok(tail)
}

/// How far a log has whole lines and marks, its first line, and the machine that this makes.
#[derive(Drop)]
struct Opening<M> {
    measure: Measure,
    head: Vec<u8>,
    made: Made<M>,
}

/// Measures a log's first bytes, so many, and makes a machine for their first line.
fn opened<S: Source, H: Making>(
    alloc: Global,
    source: &mut S,
    making: &H,
    len: u64,
) -> Result<Opening<H::Machine>, StandingFault<H::Fault>>
    ensures measure { IfOk result (λ opened. IfSome (S.bytes source.old) (λ text. Measures (take len text) opened.measure)) }
    ensures head { IfOk result (λ opened. IfSome (S.bytes source.old) (λ text. IsHead (take len text) opened.head.items)) }
    ensures begins { IfOk result (λ opened. H.Begins making.now opened.head.items opened.made.is_second opened.made.before opened.made.machine) }
    ensures refuses { IfErr result (λ e. IfSome (S.bytes source.old) (λ text. Refuses (H.Begins making.now) (H.Refuses making.now) e (take len text))) }
    ensures same { S.bytes source.new ≡ S.bytes source.old }
{
    let measure = match measured(alloc, source, len) {
        Ok(measure) => measure,
        Err(fault) => return Err(StandingFault::Measure(fault)),
    };
    let head = match head_of(alloc, source, len) {
        Ok(head) => head,
        Err(fault) => return Err(StandingFault::FirstLine(fault)),
    };
    match making.make(alloc, &head) {
        Ok(made) => Ok(Opening {
            measure,
            head,
            made,
        }),
        Err(fault) => Err(StandingFault::Head(fault)),
    }
}

/// Finds out what stands in a log: how far it has whole lines and marks, what machine its first line makes, how much of it is run again, and
/// what stands after that. It is refused where a crash doesn't leave that.
pub fn found_in<S: Source, H: Making>(
    alloc: Global,
    source: &mut S,
    making: &H,
) -> Result<Standing<H::Machine>, StandingFault<H::Fault>>
    ensures stands { IfOk result (λ s. IfSome (S.bytes source.old) (λ text. Stands text s.measure s.is_second s.head.items s.extent s.tail.items)) }
    ensures begins { IfOk result (λ s. H.Begins making.now s.head.items s.is_second s.before s.machine) }
    ensures refuses { IfErr result (λ e. IfSome (S.bytes source.old) (λ text. Refuses (H.Begins making.now) (H.Refuses making.now) e text)) }
    ensures same { S.bytes source.new ≡ S.bytes source.old }
{
    let len = match source.len() {
        Ok(len) => len,
        Err(error) => return Err(StandingFault::Read(error)),
    };
    let Opening {
        measure,
        head,
        made,
    } = match opened(alloc, source, making, len) {
        Ok(opened) => opened,
        Err(fault) => return Err(fault),
    };
    let extent = match extent_of(made.is_second, measure, head.len() as u64, len) {
        Ok(extent) => extent,
        Err(fault) => return Err(StandingFault::Extent(fault)),
    };
    let tail = match tail_of(alloc, source, extent.whole, len) {
        Ok(tail) => tail,
        Err(error) => return Err(StandingFault::Read(error)),
    };
    if tail.len() as u64 != extent.rest {
        return Err(StandingFault::Shorter);
    }
    if let Some(fault) = tail_fault(made.is_second, measure, &head, &tail) {
        return Err(StandingFault::Tail(fault, extent.lines));
    }
    Ok(Standing {
        machine: made.machine,
        is_second: made.is_second,
        before: made.before,
        head,
        measure,
        extent,
        tail,
    })
}
