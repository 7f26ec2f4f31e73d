// The lines of a log are run again.
ghost use Rattle.std.specs.Prelude.{◌≡◌, ◌≢◌, ◌≤◌, ◌∷◌, true, false, List, ℕ, length, take, IfOk, IfErr, IfSome, OnOk, OnErr, string_bytes};
ghost use Rattle.std.specs.Io.BufRead.{ends_with_byte};
ghost use Rattle.gs_shell_line.specs.Line.{content, longest_line};
ghost use Rattle.gs_shell_script.specs.Run.{bad_line_text, memory_text};
ghost use Rattle.gs_shell_line.specs.Ended.{HasNoMore, remaining};
ghost use Rattle.gs_keep_mark.specs.Ledgers.{IsLedger, is_full};
ghost use Rattle.gs_keep_mark.specs.Marks.{Totals, mark_of, passed, starts_mark};
ghost use Rattle.gs_keep.specs.Replaying.{Differs, RefusesLine, RefusesMark, RefusesOne, RefusesText, ReplayFails, Replays, ReplaysOne, ReplaysText, RunsLine};

use crate::batch::{BAD_LINE, text_of};
use crate::keeping::Keeping;
use gs_keep_mark::{Ledger, is_mark};
use gs_shell_line::{EndedLine, EndedLines, content_of};
use gs_shell_script::MEMORY;
use std::alloc::{AllocError, Global};
use std::io::BufRead;
use thiserror::Error;

/// What of a mark isn't as it has to be.
#[derive(Clone, Copy, Debug, PartialEq, Eq, Error)]
pub enum Wrong {
    #[error("the count of the lines before it")]
    Count,
    #[error("the text before it")]
    Text,
    #[error("what the lines before it are answered")]
    Answers,
}

/// Why the lines of a log can't be run again.
#[derive(Clone, Copy, Debug, PartialEq, Eq, Error)]
pub enum ReplayFault {
    #[error("the log can't be read")]
    Read,
    #[error("memory is lacking for a line of the log")]
    Memory,
    /// The line behind so many is none of the grammar.
    #[error("the line behind {0} lines of the log is none of a script")]
    BadLine(u64),
    /// The line behind so many is not the mark that it has to be.
    #[error("the mark behind {0} lines of the log says otherwise of {1}")]
    Mark(u64, Wrong),
    #[error("there are more lines than can be counted")]
    TooMany,
}

/// What was run again.
#[derive(Clone, Copy, Debug, PartialEq, Eq)]
pub struct Replayed {
    /// How many lines, without the marks.
    pub lines: u64,
    /// How many marks.
    pub marks: u64,
    /// Whether no mark stands behind the last of them.
    pub is_open: bool,
}

/// Whoever is told how far a log has been run again.
pub trait Progress {
    /// What is run again is known, and so many bytes stand after it.
    fn measured(&mut self, rest: u64);

    /// So many lines have been run.
    fn passed(&mut self, lines: u64);

    /// All have been.
    fn ended(&mut self, replayed: Replayed);

    /// What stood behind them is cut off.
    fn cut(&mut self);
}

/// What comes of the next line.
#[derive(Clone, Copy, Debug, PartialEq, Eq)]
pub(crate) enum Replaying {
    End,
    Line,
    Mark,
}

/// Whether an answer says that memory was lacking.
pub(crate) fn says_memory(answer: &Result<String, AllocError>) -> bool
    ensures ok { IfOk answer.now (λ text. result ≡ false → string_bytes text ≢ memory_text) }
    ensures err { OnErr answer.now (result ≡ true) }
{
    match answer {
        Ok(text) => text.as_str() == MEMORY,
        Err(_) => true,
    }
}

/// Whether an answer refuses a line as none of the grammar.
fn says_bad_line(answer: &Result<String, AllocError>) -> bool
    ensures { IfOk answer.now (λ text. result ≡ false → string_bytes text ≢ bad_line_text) }
{
    match answer {
        Ok(text) => text.as_str() == BAD_LINE,
        Err(_) => false,
    }
}

/// Refuses a line that is none of the grammar.
fn check_line<M: Keeping>(
    alloc: Global,
    machine: &M,
    line: &[u8],
    number: u64,
) -> Result<(), ReplayFault>
    ensures ok { OnOk result (M.is_kept line.now ≡ true) }
    ensures err { IfErr result (λ e. RefusesLine M.is_kept number e line.now) }
{
    match machine.keeps(alloc, line) {
        Ok(true) => Ok(()),
        Ok(false) => Err(ReplayFault::BadLine(number)),
        Err(_) => Err(ReplayFault::Memory),
    }
}

/// Runs one line that was logged. An answer for want of memory isn't that of then, since a line that is answered so isn't logged. Most
/// answers are given to lines of the grammar alone, so the line is only read once more where its own may be given to another.
fn run_logged<M: Keeping>(
    alloc: Global,
    machine: &mut M,
    ledger: &mut Ledger,
    line: &[u8],
    number: u64,
) -> Result<(), ReplayFault>
    requires room { is_full ledger.old ≡ false }
    ensures ok { OnOk result (length (content line.now) ≤ longest_line → ends_with_byte 10 line.now ≡ true → RunsLine M.Answers M.is_kept line.now machine.old machine.new ledger.old ledger.new) }
    ensures err { IfErr result (λ e. RefusesLine M.is_kept number e (content line.now)) }
{
    let answer = machine.answer(alloc, content_of(line));
    if says_memory(&answer) {
        return Err(ReplayFault::Memory);
    }
    if says_bad_line(&answer) {
        check_line(alloc, machine, content_of(line), number)?;
    }
    ledger.note(line, text_of(&answer).as_bytes());
    Ok(())
}

/// At most so many of the first bytes.
fn front(bytes: &[u8], most: usize) -> &[u8]
    ensures { result.now ≡ take most bytes.now }
{
    match bytes.get(..most) {
        Some(front) => front,
        None => bytes,
    }
}

/// The first part of a line that isn't as in the mark that it has to be.
fn wrong_of(line: &[u8], mark: &[u8]) -> Wrong
    requires { line.now ≢ mark.now }
    ensures { Differs result line.now mark.now }
{
    if front(line, 22) != front(mark, 22) {
        return Wrong::Count;
    }
    if front(line, 87) != front(mark, 87) {
        return Wrong::Text;
    }
    Wrong::Answers
}

/// Takes a line as the mark that is to stand next.
fn pass_mark(
    alloc: Global,
    ledger: &mut Ledger,
    line: &[u8],
    number: u64,
) -> Result<(), ReplayFault>
    ensures ok { OnOk result ((t : Totals) → IsLedger ledger.old t → (line.now ≡ mark_of t) × IsLedger ledger.new (passed t)) }
    ensures err { IfErr result (λ e. RefusesMark number e line.now ledger.old) }
{
    let Ok(mark) = ledger.mark(alloc) else {
        return Err(ReplayFault::Memory);
    };
    if line != mark.as_slice() {
        return Err(ReplayFault::Mark(number, wrong_of(line, &mark)));
    }
    ledger.pass(line);
    Ok(())
}

/// Runs a line again, or takes it as a mark.
fn replay_text<M: Keeping>(
    alloc: Global,
    machine: &mut M,
    ledger: &mut Ledger,
    line: &[u8],
    number: u64,
) -> Result<Replaying, ReplayFault>
    requires room { is_full ledger.old ≡ false }
    ensures ok { IfOk result (λ one. length (content line.now) ≤ longest_line → ends_with_byte 10 line.now ≡ true → ReplaysText M.Answers M.is_kept one line.now ledger.old ledger.new machine.old machine.new) }
    ensures err { IfErr result (λ e. RefusesText M.is_kept number e line.now ledger.old) }
{
    if is_mark(line) {
        return match pass_mark(alloc, ledger, line, number) {
            Ok(()) => Ok(Replaying::Mark),
            Err(fault) => Err(fault),
        };
    }
    match run_logged(alloc, machine, ledger, line, number) {
        Ok(()) => Ok(Replaying::Line),
        Err(fault) => Err(fault),
    }
}

/// Runs the next line again, or takes it as a mark.
fn replay_one<M: Keeping, B: BufRead>(
    alloc: Global,
    machine: &mut M,
    ledger: &mut Ledger,
    logged: &mut EndedLines<B>,
    number: u64,
) -> Result<Replaying, ReplayFault>
    ensures ok { IfOk result (λ one. IfSome (remaining B.remaining logged.old) (λ xs. ReplaysOne M.Answers M.is_kept one xs (remaining B.remaining logged.new) ledger.old ledger.new machine.old machine.new)) }
    ensures err { IfErr result (λ e. IfSome (remaining B.remaining logged.old) (λ xs. RefusesOne M.is_kept number e xs ledger.old)) }
    ensures unread { IfErr result (λ e. e ≡ ReplayFault.Read → HasNoMore logged.new) }
{
    if ledger.is_full() {
        return Err(ReplayFault::TooMany);
    }
    let Ok(next) = logged.next(alloc) else {
        return Err(ReplayFault::Read);
    };
    match next.line {
        EndedLine::End => Ok(Replaying::End),
        EndedLine::Text(line) => replay_text(alloc, machine, ledger, &line, number),
        EndedLine::NoMemory => Err(ReplayFault::Memory),
        EndedLine::Unended => Err(ReplayFault::BadLine(number)),
        EndedLine::TooLong => Err(ReplayFault::BadLine(number)),
    }
}

/// Runs each line of the reader, and throws its answer away. Each mark has to be the one that the ledger gives behind the lines before it
/// and what they are answered now, byte for byte. A line that a machine wouldn't act on, that is longer than a line may be or lacks its
/// end is refused as `BadLine`, with how many stand before it, marks too. Where memory is lacking to hold a line, or to tell that it is
/// one, or the log can't be read, the lines behind it aren't run. In each of these cases the machine is to be thrown away.
pub fn replay<M: Keeping, B: BufRead, P: Progress>(
    alloc: Global,
    machine: &mut M,
    ledger: &mut Ledger,
    logged: &mut EndedLines<B>,
    progress: &mut P,
) -> Result<Replayed, ReplayFault>
    ensures ok { IfOk result (λ done. IfSome (remaining B.remaining logged.old) (λ script. Replays M.Answers M.is_kept machine.old script done ledger.old ledger.new machine.new)) }
    ensures err { IfErr result (λ e. IfSome (remaining B.remaining logged.old) (λ script. ReplayFails M.Answers M.is_kept e machine.old script ledger.old)) }
    ensures unread { IfErr result (λ e. e ≡ ReplayFault.Read → HasNoMore logged.new) }
{
    let mut lines = 0;
    let mut marks = 0;
    let mut is_open = false;
    for number in 0..u64::MAX {
        match replay_one(alloc, machine, ledger, logged, number)? {
            Replaying::End => {
                return Ok(Replayed {
                    lines,
                    marks,
                    is_open,
                });
            }
            Replaying::Line => {
                lines += 1;
                is_open = true;
                progress.passed(lines);
            }
            Replaying::Mark => {
                marks += 1;
                is_open = false;
            }
        }
    }
    Err(ReplayFault::TooMany)
}
