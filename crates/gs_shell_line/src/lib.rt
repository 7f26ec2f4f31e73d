//! The lines of a reader, each held in bounded memory. A line is at most 1 MiB long.
#![tactic(auto)]

ghost use Rattle.std.specs.Prelude.{◌≡◌, ◌≢◌, ◌-◌, ◌<◌, ◌≤◌, ◌++◌, ◌==◌, ℕ, List, true, All, IfOk, IfErr, OnOk, OnErr, IfSome, OnSome, take, length};
ghost use Rattle.std.specs.List.{list_any};
ghost use Rattle.std.specs.IoError.{error_kind};
ghost use Rattle.std.specs.Io.BufRead.{ends_with_byte, strip_last, take_through, drop_through, DropsThrough};
ghost use Rattle.gs_shell_line.specs.Line.{HasLineEnd, Holds, IsLine, TakesPart, StaysInLine};

use std::alloc::Global;
use std::io::{self, BufRead, ErrorKind};

mod ended;
mod taken;

pub use ended::{EndedLine, EndedLines, NextEnded, content_of};
use taken::{Reads, Taken, take_line};

/// The most bytes of a line that is held, without the line's end.
pub const MOST_BYTES: usize = 1_048_576;

/// What stands next in a reader.
#[derive(Debug, PartialEq, Eq, Drop)]
pub enum Line {
    /// No byte is left.
    End,
    /// The bytes of a line without its `\n`, and without the one `\r` right before it. The last line of a reader may lack
    /// its `\n`, and then keeps a `\r`.
    Text(Vec<u8>),
    /// A line of more than `MOST_BYTES`, which is passed over.
    TooLong,
    /// A line that memory was lacking for, which is passed over.
    NoMemory,
}

/// What stood next in a reader that is left behind it.
#[derive(Debug, PartialEq, Eq, Drop)]
pub struct Next {
    pub line: Line,
    /// Whether the reader already holds the whole of the line behind it, with its `\n`: then that is read without waiting for
    /// input.
    pub is_next_at_hand: bool,
}

/// Removes the last byte if it is `byte`, and says whether it did.
fn pop_if_last(bytes: &mut Vec<u8>, byte: u8) -> bool
    ensures popped { result ≡ ends_with_byte byte bytes.old.items }
    ensures items { bytes.new.items ≡ strip_last byte bytes.old.items }
{
    let n = bytes.len();
    if n == 0 {
        return false;
    }
    if bytes[n - 1] != byte {
        return false;
    }
    bytes.truncate(n - 1);
    true
}

/// What stands next, once the line is read with its end.
fn finished(taken: Taken) -> Line
    ensures { (done : List ℕ) → Holds taken done → IsLine done result }
{
    match taken {
        Taken::Held(mut bytes) => {
            if bytes.is_empty() {
                return Line::End;
            }
            if pop_if_last(&mut bytes, b'\n') {
                pop_if_last(&mut bytes, b'\r');
            }
            if bytes.len() > MOST_BYTES {
                return Line::TooLong;
            }
            Line::Text(bytes)
        }
        Taken::Long => Line::TooLong,
        Taken::Lost => Line::NoMemory,
    }
}

/// What stands next in the reader, which is left behind it, and whether the line behind that is at hand too. A line ends at
/// `\n`, or where the reader does. No more than a line's `MOST_BYTES` and two bytes of its end are held at any time.
///
/// A read that was interrupted is made again. Any other read that fails is the error, also in the midst of a line: what
/// was read of that line is lost, and the reader is left within it. After 18,446,744,073,709,551,615 reads for one line
/// the error is `TimedOut`.
pub fn next_line<B: BufRead>(alloc: Global, reader: &mut B) -> io::Result<Next>
    ensures line { IfOk result (λ next. IfSome (B.remaining reader.old) (λ xs. IsLine (take_through 10 xs) next.line)) }
    ensures rest { OnOk result (DropsThrough (B.remaining reader.old) (B.remaining reader.new) 10) }
    ensures at_hand { IfOk result (λ next. IfSome (B.remaining reader.old) (λ xs. next.is_next_at_hand ≡ true → HasLineEnd (drop_through 10 xs))) }
    ensures err { OnErr result (StaysInLine (B.remaining reader.old) (B.remaining reader.new)) }
    ensures retried { IfErr result (λ e. error_kind e ≢ ErrorKind.Interrupted) }
{
    let part = take_line(alloc, reader, &mut Reads::new())?;
    Ok(Next {
        line: finished(part.taken),
        is_next_at_hand: part.is_next_at_hand,
    })
}
