//! How far a log has whole lines, and marks.
#![tactic(auto)]

ghost use Rattle.std.specs.Prelude.{◌≡◌, ◌≤◌, ◌+◌, ◌<◌, List, ℕ, false, true, length, IfErr, IfOk, IfSome, MatchOption};
ghost use Rattle.std.specs.Io.BufRead.{drop_through, take_through};
ghost use Rattle.gs_shell_line.specs.Ended.{HasNoMore, remaining};
ghost use Rattle.gs_keep_mark.specs.Marks.{is_whole_mark};
ghost use Rattle.gs_keep_measure.specs.Measure.{IsTold, Measures, Refuses, is_nearly_mark, may_stand};
ghost use Rattle.gs_keep_measure.specs.Steps.{CantTake, RefusesNext, Takes, TakesOne};

mod extent;
mod tail;

pub use extent::{Extent, ExtentFault, MOST_BEHIND, extent_of};
use gs_keep_mark::is_whole_mark;
use gs_shell_line::{EndedLine, EndedLines};
use std::alloc::Global;
use std::io::{self, BufRead};
pub use tail::{TailFault, tail_fault};

/// How far a log has whole lines, and marks. A line that is longer than a line may be isn't whole, and none counts that stands after it.
#[derive(Clone, Copy, Debug, PartialEq, Eq)]
pub struct Measure {
    /// The bytes up to and with the last mark, or 0 where there is none.
    pub marked: u64,
    /// How many lines these are.
    pub marked_lines: u64,
    /// The bytes up to and with the last whole line.
    pub whole: u64,
    /// How many lines these are.
    pub whole_lines: u64,
    /// Whether a line is longer than a line may be.
    pub is_lost: bool,
}

/// Why a log isn't measured.
#[derive(Debug, Drop)]
pub enum MeasureFault {
    Read(io::Error),
    /// Memory is lacking for a line.
    Memory,
    /// A mark stands after a line that is longer than a line may be, or there are more bytes than can be counted.
    Damaged,
}

/// The measure of a text with a whole line more. Nothing where a mark stands after a line that is too long, or no more can be counted.
fn with_line(now: Measure, line: &[u8]) -> Option<Measure>
    ensures { MatchOption result (CantTake now line.now) (λ more. Takes now more line.now) }
{
    let is_mark = is_whole_mark(line);
    if now.is_lost {
        return if is_mark { None } else { Some(now) };
    }
    let whole = now.whole.checked_add(line.len() as u64)?;
    let whole_lines = now.whole_lines.checked_add(1)?;
    if is_mark {
        return Some(Measure {
            marked: whole,
            marked_lines: whole_lines,
            whole,
            whole_lines,
            is_lost: false,
        });
    }
    Some(Measure {
        marked: now.marked,
        marked_lines: now.marked_lines,
        whole,
        whole_lines,
        is_lost: false,
    })
}

/// Measures the next line. Nothing where there is none, or the last one lacks its end.
fn measure_one<B: BufRead>(
    alloc: Global,
    reader: &mut EndedLines<B>,
    now: Measure,
) -> Result<Option<Measure>, MeasureFault>
    ensures more { IfOk result (λ more. IfSome (remaining B.remaining reader.old) (λ xs. TakesOne more xs (remaining B.remaining reader.new) now)) }
    ensures refused { IfErr result (λ e. IfSome (remaining B.remaining reader.old) (λ xs. RefusesNext e xs now)) }
    ensures unread { IfErr result (λ e. IsTold e (HasNoMore reader.new)) }
{
    let next = match reader.next(alloc) {
        Ok(next) => next,
        Err(error) => return Err(MeasureFault::Read(error)),
    };
    match next.line {
        EndedLine::End | EndedLine::Unended => Ok(None),
        EndedLine::NoMemory => Err(MeasureFault::Memory),
        EndedLine::TooLong => Ok(Some(Measure {
            marked: now.marked,
            marked_lines: now.marked_lines,
            whole: now.whole,
            whole_lines: now.whole_lines,
            is_lost: true,
        })),
        EndedLine::Text(line) => match with_line(now, &line) {
            Some(more) => Ok(Some(more)),
            None => Err(MeasureFault::Damaged),
        },
    }
}

/// Measures all that the reader has left.
pub fn measure_all<B: BufRead>(
    alloc: Global,
    reader: &mut EndedLines<B>,
) -> Result<Measure, MeasureFault>
    ensures measure { IfOk result (λ m. IfSome (remaining B.remaining reader.old) (λ text. Measures text m)) }
    ensures refused { IfErr result (λ e. IfSome (remaining B.remaining reader.old) (λ text. Refuses e text)) }
    ensures unread { IfErr result (λ e. IsTold e (HasNoMore reader.new)) }
{
    let mut now = Measure {
        marked: 0,
        marked_lines: 0,
        whole: 0,
        whole_lines: 0,
        is_lost: false,
    };
    for count in 0..u64::MAX {
        match measure_one(alloc, reader, now)? {
            Some(more) => now = more,
            None => return Ok(now),
        }
    }
    Err(MeasureFault::Damaged)
}

/// Whether a byte may stand in a mark at a place.
fn may_stand(place: usize, byte: u8) -> bool
    ensures { result ≡ may_stand place byte }
{
    if place == 0 {
        return byte == b'#';
    }
    if place == 1 || place == 22 || place == 87 {
        return byte == b' ';
    }
    if place == 152 {
        return byte == b'\n';
    }
    if place <= 21 {
        return byte >= b'0' && byte <= b'9';
    }
    (byte >= b'0' && byte <= b'9') || (byte >= b'a' && byte <= b'f')
}

/// Whether bytes are a mark by their form, but for one byte at most: if a log ends so, a bit of its last mark may have flipped.
pub fn is_nearly_mark(bytes: &[u8]) -> bool
    ensures { result ≡ is_nearly_mark bytes.now }
{
    if bytes.len() != 153 {
        return false;
    }
    let mut wrong: u64 = 0;
    for place in 0..153usize {
        if !may_stand(place, bytes[place]) {
            wrong += 1;
        }
    }
    wrong <= 1
}
