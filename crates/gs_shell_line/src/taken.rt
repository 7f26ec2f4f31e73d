// What stands next in a reader is taken from it, up to and with a line's end.
ghost use Rattle.std.specs.Prelude.{◌≡◌, ◌≢◌, ◌-◌, ◌+◌, ◌<◌, ◌≤◌, ◌++◌, ◌==◌, [], ℕ, List, true, false, All, IfOk, IfErr, OnOk, OnErr, IfSome, OnSome, take, length};
ghost use Rattle.std.specs.List.{list_any};
ghost use Rattle.std.specs.IoError.{error_kind};
ghost use Rattle.std.specs.Io.BufRead.{take_through, drop_through, DropsThrough};
ghost use Rattle.gs_shell_line.specs.Line.{HasLineEnd, Holds, TakesPart, StaysInLine};
ghost use Rattle.gs_shell_line.specs.Reads.{HasEnded, MakesRead, ReadFails};

use crate::MOST_BYTES;
use std::alloc::Global;
use std::io::{self, BufRead, ErrorKind};

/// The reads that were made of a reader.
#[derive(Clone, Copy, Debug, PartialEq, Eq)]
pub(crate) struct Reads {
    count: u64,
    /// Whether one of them has failed, otherwise than by an interruption.
    has_failed: bool,
}

/// A line as far as it is read.
#[derive(Debug, Drop)]
pub(crate) enum Taken {
    Held(Vec<u8>),
    Long,
    Lost,
}

/// A line with one more part of it.
#[derive(Debug, Drop)]
pub(crate) struct Part {
    pub(crate) taken: Taken,
    /// Whether the line is read with its end.
    pub(crate) is_done: bool,
    /// Whether what the reader showed holds the end of the line behind it, too.
    pub(crate) is_next_at_hand: bool,
}

impl Reads {
    /// None was made.
    pub(crate) fn new() -> Reads
        ensures { (result.count ≡ 0) × (result.has_failed ≡ false) }
    {
        Reads {
            count: 0,
            has_failed: false,
        }
    }
}

/// The length up to and including the first `byte`, or the whole length.
fn len_through(bytes: &[u8], byte: u8) -> usize
    ensures bound { result ≤ length bytes.now }
    ensures some { 0 < length bytes.now → 0 < result }
    ensures before { All (λ x. x ≢ byte) (take (result - 1) bytes.now) }
{
    let mut i = 0;
    while i < bytes.len() {
        if bytes[i] == byte {
            return i + 1;
        }
        i += 1;
    }
    i
}

/// Whether a line ends within the bytes.
fn has_line_end(bytes: &[u8]) -> bool
    ensures { result ≡ list_any (λ x. x == 10) bytes.now }
{
    bytes.contains(&b'\n')
}

/// The line with some more of its bytes. Once it can't be a line that is held, its bytes are let go.
fn with_part(taken: Taken, part: &[u8]) -> Taken
    ensures { (done : List ℕ) → Holds taken done → Holds result (done ++ part.now) }
{
    match taken {
        Taken::Held(mut bytes) => {
            if part.len() > MOST_BYTES + 2 || bytes.len() > MOST_BYTES + 2 - part.len() {
                return Taken::Long;
            }
            match bytes.extend_from_slice(part) {
                Ok(()) => Taken::Held(bytes),
                Err(_) => Taken::Lost,
            }
        }
        Taken::Long => Taken::Long,
        Taken::Lost => Taken::Lost,
    }
}

/// Takes what the reader shows, up to and including the line's end.
fn take_part<B: BufRead>(reader: &mut B, reads: &mut Reads, taken: Taken) -> io::Result<Part>
    requires room { reads.old.count < 18446744073709551615 }
    ensures ok { IfOk result (λ p. (part : List ℕ) × TakesPart (B.remaining reader.old) (B.remaining reader.new) p.is_done part
        × ((done : List ℕ) → Holds taken done → Holds p.taken (done ++ part))) }
    ensures at_hand { IfOk result (λ p. OnSome (B.remaining reader.old) (p.is_next_at_hand ≡ true → IfSome (B.remaining reader.new) HasLineEnd)) }
    ensures err { OnErr result (StaysInLine (B.remaining reader.old) (B.remaining reader.new)) }
    ensures made { OnOk result (MakesRead reads.old reads.new) }
    ensures failed { OnErr result (ReadFails reads.old reads.new) }
    ensures retried { IfErr result (λ e. error_kind e ≢ ErrorKind.Interrupted) }
{
    reads.count += 1;
    let available = match reader.fill_buf() {
        Ok(available) => available,
        Err(e) => {
            return if e.kind() == ErrorKind::Interrupted {
                Ok(Part {
                    taken,
                    is_done: false,
                    is_next_at_hand: false,
                })
            } else {
                reads.has_failed = true;
                Err(e)
            };
        }
    };
    let end = len_through(available, b'\n');
    let is_done = end == 0 || available[end - 1] == b'\n';
    let is_next_at_hand = has_line_end(&available[end..]);
    let taken = with_part(taken, &available[..end]);
    reader.consume(end);
    Ok(Part {
        taken,
        is_done,
        is_next_at_hand,
    })
}

/// Takes what stands next in the reader, which is left behind it. No more than a line's `MOST_BYTES` and two bytes of its end are held at
/// any time. A read that was interrupted is made again. Once 18,446,744,073,709,551,615 reads were made the error is `TimedOut`.
pub(crate) fn take_line<B: BufRead>(
    alloc: Global,
    reader: &mut B,
    reads: &mut Reads,
) -> io::Result<Part>
    ensures line { IfOk result (λ p. IfSome (B.remaining reader.old) (λ xs. Holds p.taken (take_through 10 xs))) }
    ensures rest { OnOk result (DropsThrough (B.remaining reader.old) (B.remaining reader.new) 10) }
    ensures at_hand { IfOk result (λ p. IfSome (B.remaining reader.old) (λ xs. p.is_next_at_hand ≡ true → HasLineEnd (drop_through 10 xs))) }
    ensures err { OnErr result (StaysInLine (B.remaining reader.old) (B.remaining reader.new)) }
    ensures good { OnOk result (reads.new.has_failed ≡ reads.old.has_failed) }
    ensures ended { OnErr result (HasEnded reads.new) }
    ensures retried { IfErr result (λ e. error_kind e ≢ ErrorKind.Interrupted) }
{
    let mut taken = Taken::Held(Vec::new(alloc));
    while reads.count < u64::MAX {
        let part = take_part(reader, reads, taken)?;
        if part.is_done {
            return Ok(part);
        }
        taken = part.taken;
    }
    Err(io::Error::from(ErrorKind::TimedOut))
}
