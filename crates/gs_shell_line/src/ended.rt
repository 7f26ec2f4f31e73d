// The lines of a reader with their ends. A last line that lacks its own is told apart.
ghost use Rattle.std.specs.Prelude.{◌≡◌, ℕ, List, true, false, IfOk, OnOk, OnErr, IfErr, IfSome};
ghost use Rattle.std.specs.IoError.{error_kind};
ghost use Rattle.std.specs.Io.BufRead.{ends_with_byte, strip_last, take_through, drop_through, DropsThrough};
ghost use Rattle.gs_shell_line.specs.Line.{HasLineEnd, Holds, StaysInLine, content};
ghost use Rattle.gs_shell_line.specs.Ended.{IsEndedLine, remaining};
ghost use Rattle.gs_shell_line.specs.Reads.{HasEnded};

use crate::MOST_BYTES;
use crate::taken::{Reads, Taken, take_line};
use std::alloc::Global;
use std::io::{self, BufRead};

/// What stands next in a reader, where a line is one only with its end.
#[derive(Debug, PartialEq, Eq, Drop)]
pub enum EndedLine {
    /// No byte is left.
    End,
    /// The bytes of a line with its `\n`.
    Text(Vec<u8>),
    /// The last line, which lacks its `\n`.
    Unended,
    /// A line of more than `MOST_BYTES` without its end, which is passed over.
    TooLong,
    /// A line that memory was lacking for, which is passed over.
    NoMemory,
}

/// What stood next in a reader that is left behind it.
#[derive(Debug, PartialEq, Eq, Drop)]
pub struct NextEnded {
    pub line: EndedLine,
    /// Whether the reader already holds the whole of the line behind it, with its `\n`: then that is read without waiting for
    /// input.
    pub is_next_at_hand: bool,
}

/// A reader of lines with their ends, which knows whether a read has failed.
#[derive(Drop)]
pub struct EndedLines<B> {
    reader: B,
    reads: Reads,
}

fn ends_with(bytes: &[u8], byte: u8) -> bool
    ensures { result ≡ ends_with_byte byte bytes.now }
{
    let n = bytes.len();
    n > 0 && bytes[n - 1] == byte
}

/// The bytes without the last one, if it is `byte`.
fn without(bytes: &[u8], byte: u8) -> &[u8]
    ensures { result.now ≡ strip_last byte bytes.now }
{
    let n = bytes.len();
    if n == 0 {
        return bytes;
    }
    if bytes[n - 1] != byte {
        return bytes;
    }
    &bytes[..n - 1]
}

/// A line without its `\n`, and without the one `\r` right before that.
pub fn content_of(line: &[u8]) -> &[u8]
    ensures { result.now ≡ content line.now }
{
    if ends_with(line, b'\n') {
        return without(without(line, b'\n'), b'\r');
    }
    line
}

/// What stands next, once the line is read with its end.
fn finished(taken: Taken) -> EndedLine
    ensures { (done : List ℕ) → Holds taken done → IsEndedLine done result }
{
    match taken {
        Taken::Held(bytes) => {
            if bytes.is_empty() {
                return EndedLine::End;
            }
            if !ends_with(&bytes, b'\n') {
                return EndedLine::Unended;
            }
            if content_of(&bytes).len() > MOST_BYTES {
                return EndedLine::TooLong;
            }
            EndedLine::Text(bytes)
        }
        Taken::Long => EndedLine::TooLong,
        Taken::Lost => EndedLine::NoMemory,
    }
}

impl<B: BufRead> EndedLines<B> {
    /// The lines of a reader, of which no read has failed.
    pub fn new(reader: B) -> EndedLines<B>
        ensures remaining { remaining B.remaining result ≡ B.remaining reader }
        ensures reads { (result.reads.count ≡ 0) × (result.reads.has_failed ≡ false) }
    {
        EndedLines {
            reader,
            reads: Reads::new(),
        }
    }

    /// What stands next in the reader, which is left behind it, and whether the line behind that is at hand too. No more than a line's
    /// `MOST_BYTES` and two bytes of its end are held at any time.
    ///
    /// A read that was interrupted is made again. Any other read that fails is the error, also in the midst of a line: what
    /// was read of that line is lost, and the reader is left within it. Once 18,446,744,073,709,551,615 reads were made the error is
    /// `TimedOut`.
    pub fn next(&mut self, alloc: Global) -> io::Result<NextEnded>
        ensures line { IfOk result (λ next. IfSome (remaining B.remaining self.old) (λ xs. IsEndedLine (take_through 10 xs) next.line)) }
        ensures rest { OnOk result (DropsThrough (remaining B.remaining self.old) (remaining B.remaining self.new) 10) }
        ensures at_hand { IfOk result (λ next. IfSome (remaining B.remaining self.old) (λ xs. next.is_next_at_hand ≡ true → HasLineEnd (drop_through 10 xs))) }
        ensures err { OnErr result (StaysInLine (remaining B.remaining self.old) (remaining B.remaining self.new)) }
        ensures good { OnOk result (self.new.reads.has_failed ≡ self.old.reads.has_failed) }
        ensures ended { OnErr result (HasEnded self.new.reads) }
    {
        let part = take_line(alloc, &mut self.reader, &mut self.reads)?;
        Ok(NextEnded {
            line: finished(part.taken),
            is_next_at_hand: part.is_next_at_hand,
        })
    }
}
