//! Answers a script line by line, whatever it is that answers a line.
#![tactic(auto)]

ghost use Rattle.std.specs.Prelude.{◌≡◌, ◌≢◌, ◌≤◌, ◌++◌, ◌∷◌, List, ℕ, [], length, take, IfOk, OnOk, IfErr, OnErr, IfSome, string_bytes};
ghost use Rattle.std.specs.Io.KnownBytes.{Appends, Keeps};
ghost use Rattle.gs_shell_line.specs.Line.{IsLine};
ghost use Rattle.gs_shell_script.specs.Run.{AnswersLine, AppendsBeginning, Turns, TurnFails, Writes, RunFails, memory_text};

use gs_base::Refusal;
use gs_shell_line::{Line, Next};
use std::alloc::{AllocError, Global};
use std::io::{BufRead, ErrorKind, Write};
use thiserror::Error;

/// Why a run ends before its input does, with the text for standard error.
#[derive(Debug, Drop, Error)]
pub enum RunFault {
    #[error("the input can't be read")]
    Read,
    #[error("the output can't be written")]
    Write,
    /// The run can't begin.
    #[error("{0}")]
    Refused(Refusal),
}

/// What answers a line.
pub trait Answering {
    ghost use Rattle.std.specs.Prelude.{ℕ, List, IfOk, OnErr, string_bytes};
    ghost use Rattle.gs_shell_script.specs.Run.{memory_text};

    /// Whether this text may be the answer to a line given without its end, and what answers then.
    ghost Answers: { Self → List ℕ → List ℕ → Self → Type 0 };

    /// The answer to a line given without its end. `Err` where memory is lacking for it: then the answer is
    /// `refused 33 Memory`.
    fn answer(&mut self, alloc: Global, line: &[u8]) -> Result<String, AllocError>
        ensures ok { IfOk result (λ text. Answers self.old line.now (string_bytes text) self.new) }
        ensures err { OnErr result (Answers self.old line.now memory_text self.new) };
}

/// The answer to what stands next in the input, which isn't its end. `Err` where memory is lacking for it: then the answer
/// is `MEMORY`.
fn answer_line<M: Answering>(
    alloc: Global,
    machine: &mut M,
    line: &Line,
) -> Result<String, AllocError>
    requires { line.now ≢ Line.End }
    ensures ok { IfOk result (λ text. (whole : List ℕ) → IsLine whole line.now → AnswersLine M.Answers machine.old whole (string_bytes text) machine.new) }
    ensures err { OnErr result ((whole : List ℕ) → IsLine whole line.now → AnswersLine M.Answers machine.old whole memory_text machine.new) }
{
    match line {
        Line::Text(bytes) => machine.answer(alloc, bytes),
        Line::TooLong => Refusal::BadLine.line(alloc),
        Line::NoMemory => Err(AllocError),
        Line::End => unreachable!(),
    }
}

/// The answer where memory was lacking for another.
pub const MEMORY: &str = "refused 33 Memory";

/// Writes bytes until all are written or the writer takes no more, and says how many were written.
fn write_out<W: Write>(writer: &mut W, bytes: &[u8]) -> usize
    ensures bound { result ≤ length bytes.now }
    ensures bytes { Appends (W.contents writer.old) (W.contents writer.new) (take result bytes.now) }
{
    let mut written = 0;
    for _ in 0..u64::MAX {
        if written == bytes.len() {
            return written;
        }
        match writer.write(&bytes[written..]) {
            Ok(0) => return written,
            Ok(count) => written += count,
            Err(error) if error.kind() == ErrorKind::Interrupted => {}
            Err(_) => return written,
        }
    }
    written
}

/// Writes a text as a line. The writer isn't flushed.
pub fn write_line<W: Write>(writer: &mut W, text: &str) -> Result<(), RunFault>
    ensures ok { OnOk result (Appends (W.contents writer.old) (W.contents writer.new) (text.now ++ 10 ∷ [])) }
    ensures err { OnErr result (AppendsBeginning (W.contents writer.old) (W.contents writer.new) (text.now ++ 10 ∷ [])) }
    ensures fault { IfErr result (λ e. e ≡ RunFault.Write) }
{
    if write_out(writer, text.as_bytes()) < text.len() || write_out(writer, b"\n") < 1 {
        return Err(RunFault::Write);
    }
    Ok(())
}

/// Flushes what is written.
pub fn flush<W: Write>(writer: &mut W) -> Result<(), RunFault>
    ensures contents { Keeps (W.contents writer.old) (W.contents writer.new) }
    ensures fault { IfErr result (λ e. e ≡ RunFault.Write) }
{
    writer.flush().map_err(|_| RunFault::Write)
}

/// Writes the answer to what stands next in the input, which isn't its end. The writer isn't flushed.
pub fn write_answer<M: Answering, W: Write>(
    alloc: Global,
    machine: &mut M,
    writer: &mut W,
    line: &Line,
) -> Result<(), RunFault>
    requires { line.now ≢ Line.End }
    ensures ok { OnOk result ((whole : List ℕ) → IsLine whole line.now → (text : List ℕ) × AnswersLine M.Answers machine.old whole text machine.new
        × Appends (W.contents writer.old) (W.contents writer.new) (text ++ 10 ∷ [])) }
    ensures err { OnErr result ((whole : List ℕ) → IsLine whole line.now → (text : List ℕ) × AnswersLine M.Answers machine.old whole text machine.new
        × AppendsBeginning (W.contents writer.old) (W.contents writer.new) (text ++ 10 ∷ [])) }
    ensures fault { IfErr result (λ e. e ≡ RunFault.Write) }
{
    match answer_line(alloc, machine, line) {
        Ok(text) => write_line(writer, &text),
        Err(_) => write_line(writer, MEMORY),
    }
}

/// Writes the answer to what stands next in the input, which isn't its end, and flushes it unless the line behind that is
/// at hand.
fn reply<M: Answering, W: Write>(
    alloc: Global,
    machine: &mut M,
    writer: &mut W,
    next: &Next,
) -> Result<(), RunFault>
    requires { next.now.line ≢ Line.End }
    ensures ok { OnOk result ((whole : List ℕ) → IsLine whole next.now.line → (text : List ℕ) × AnswersLine M.Answers machine.old whole text machine.new
        × Appends (W.contents writer.old) (W.contents writer.new) (text ++ 10 ∷ [])) }
    ensures err { OnErr result ((whole : List ℕ) → IsLine whole next.now.line → (text : List ℕ) × AnswersLine M.Answers machine.old whole text machine.new
        × AppendsBeginning (W.contents writer.old) (W.contents writer.new) (text ++ 10 ∷ [])) }
    ensures fault { IfErr result (λ e. e ≡ RunFault.Write) }
{
    write_answer(alloc, machine, writer, &next.line)?;
    if next.is_next_at_hand {
        return Ok(());
    }
    flush(writer)
}

/// Answers the next line. Says whether there was one.
fn turn<M: Answering, R: BufRead, W: Write>(
    alloc: Global,
    machine: &mut M,
    reader: &mut R,
    writer: &mut W,
) -> Result<bool, RunFault>
    ensures ok { IfOk result (λ more. IfSome (R.remaining reader.old) (λ xs.
        Turns M.Answers xs (R.remaining reader.new) (W.contents writer.old) (W.contents writer.new) machine.old machine.new more)) }
    ensures err { IfErr result (λ e.
        TurnFails M.Answers e (R.remaining reader.old) (R.remaining reader.new) (W.contents writer.old) (W.contents writer.new) machine.old machine.new) }
{
    let Ok(next) = gs_shell_line::next_line(alloc, reader) else {
        return Err(RunFault::Read);
    };
    if matches!(next.line, Line::End) {
        return Ok(false);
    }
    reply(alloc, machine, writer, &next)?;
    Ok(true)
}

/// Answers each line of the reader by one line to the writer. A line ends at `\n`, and a `\r` right before that belongs to
/// its end. One that is longer than a line may be is refused as `BadLine`.
///
/// Behind an answer the writer is flushed unless the reader already holds the whole of the next line, with its `\n`. So all
/// that is answered is flushed before the run may have to wait for input, and at the end of the input; where many lines come
/// at once, their answers leave together.
///
/// Where memory is lacking, the answer is `refused 33 Memory`, and the run goes on. A read or a write that fails ends it:
/// the fault is `Read` or `Write`, and never `Refused`. Of the line that a failed read stands in, nothing is answered. A
/// write fails that gives an error other than an interruption, or takes nothing, and so does a flush that gives an error: what
/// stands written is the answers to the lines before, and then a beginning of the answer to the line that was read last, which
/// the machine has answered. What the writer holds in a buffer of its own counts as written. After 18,446,744,073,709,551,615
/// lines the fault is `Read`.
pub fn run<M: Answering, R: BufRead, W: Write>(
    alloc: Global,
    machine: &mut M,
    reader: &mut R,
    writer: &mut W,
) -> Result<(), RunFault>
    ensures ok { OnOk result (IfSome (R.remaining reader.old) (λ input.
        Writes M.Answers machine.old input (W.contents writer.old) (W.contents writer.new) machine.new)) }
    ensures err { IfErr result (λ e.
        RunFails M.Answers e machine.old (R.remaining reader.old) (R.remaining reader.new) (W.contents writer.old) (W.contents writer.new) machine.new) }
{
    for _ in 0..u64::MAX {
        if !turn(alloc, machine, reader, writer)? {
            return Ok(());
        }
    }
    Err(RunFault::Read)
}
