// The lines that come together are run, one after another. What has to be logged of them and their answers are held until then.
ghost use Rattle.std.specs.Prelude.{◌≡◌, ◌≢◌, ◌<◌, ◌≤◌, ◌++◌, ◌∷◌, [], ℕ, List, true, false, length, Some, IfOk, OnOk, OnErr, IfSome, string_bytes};
ghost use Rattle.std.specs.Io.BufRead.{ends_with_byte};
ghost use Rattle.gs_shell_line.specs.Line.{content, longest_line};
ghost use Rattle.gs_shell_script.specs.Run.{memory_text};
ghost use Rattle.gs_shell_line.specs.Ended.{HasNoMore, IsEndedLine, remaining};
ghost use Rattle.gs_keep_mark.specs.Ledgers.{is_full};
ghost use Rattle.gs_keep.specs.Running.{Gathers, RunsDue, RunsOne, RunsOwn, Takes};

use crate::again::says_memory;
use crate::keeping::Keeping;
use gs_keep_mark::Ledger;
use gs_shell_line::{EndedLine, EndedLines, content_of};
use gs_shell_script::MEMORY;
use std::alloc::{AllocError, Global};
use std::io::BufRead;

/// The bytes that are logged at a time, and those that are answered: no more lines are run once there are so many.
const MOST_BYTES: usize = 1_048_576;

/// No more lines of the machine's own are run at a time, even if one more is due.
const MOST_OWN: u64 = 32;

/// The answer to a line that is longer than a line may be.
pub(crate) const BAD_LINE: &str = "refused 34 BadLine";

/// Lines that were run, and wait for their answers to go out.
#[derive(Drop)]
pub(crate) struct Batch {
    /// What has to be logged of them.
    pub(crate) bytes: Vec<u8>,
    /// Their answers, each with its end.
    pub(crate) answers: Vec<u8>,
}

/// The answer to a line of the input that is turned away.
const TURNED_AWAY: &str = "refused 39 NeedsLab";

/// What is known of the reader behind the lines that were run.
#[derive(Clone, Copy, Debug, PartialEq, Eq)]
pub(crate) enum Gathered {
    /// There may be more lines.
    Some,
    /// The input has ended.
    All,
    /// The last line lacks its end, and isn't run.
    Unended,
    /// A read failed.
    Failed,
    /// No more lines can be counted.
    Full,
}

/// The text of an answer.
pub(crate) fn text_of(answer: &Result<String, AllocError>) -> &str
    ensures ok { IfOk answer.now (λ text. result.now ≡ string_bytes text) }
    ensures err { OnErr answer.now (result.now ≡ memory_text) }
{
    match answer {
        Ok(text) => text.as_str(),
        Err(_) => MEMORY,
    }
}

/// Puts an answer with its end behind the others.
fn put_answer(answers: &mut Vec<u8>, text: &str) -> Result<(), AllocError>
    ensures { OnOk result (answers.new.items ≡ answers.old.items ++ (text.now ++ 10 ∷ [])) }
{
    answers.extend_from_slice(text.as_bytes())?;
    answers.extend_from_slice(b"\n")
}

/// Runs a line that has to be logged. `Err` where its answer says that memory was lacking: it isn't known what it has come to then, so
/// the run is to end before anything of it is logged.
fn run_kept<M: Keeping>(
    alloc: Global,
    machine: &mut M,
    ledger: &mut Ledger,
    line: &[u8],
    batch: &mut Batch,
) -> Result<(), AllocError>
    requires room { is_full ledger.old ≡ false }
    requires kept { M.is_kept (content line.now) ≡ true }
    requires taken { M.is_turned_away machine.old (content line.now) ≡ false }
    ensures { OnOk result (length (content line.now) ≤ longest_line → ends_with_byte 10 line.now ≡ true → RunsOne M.Answers M.is_kept M.is_turned_away M.own line.now machine.old machine.new batch.old.bytes.items batch.new.bytes.items
        batch.old.answers.items batch.new.answers.items ledger.old ledger.new) }
{
    if batch.bytes.extend_from_slice(line).is_err() {
        return put_answer(&mut batch.answers, MEMORY);
    }
    let answer = machine.answer(alloc, content_of(line));
    if says_memory(&answer) {
        return Err(AllocError);
    }
    let text = text_of(&answer);
    ledger.note(line, text.as_bytes());
    put_answer(&mut batch.answers, text)
}

/// Runs a line that isn't logged.
fn run_other<M: Keeping>(
    alloc: Global,
    machine: &mut M,
    line: &[u8],
    answers: &mut Vec<u8>,
) -> Result<(), AllocError>
    requires other { M.is_kept (content line.now) ≡ false }
    requires taken { M.is_turned_away machine.old (content line.now) ≡ false }
    ensures { OnOk result (length (content line.now) ≤ longest_line → (bytes : List ℕ) (ledger : Ledger) → RunsOne M.Answers M.is_kept M.is_turned_away M.own line.now machine.old machine.new bytes bytes
        answers.old.items answers.new.items ledger ledger) }
{
    let answer = machine.answer(alloc, content_of(line));
    put_answer(answers, text_of(&answer))
}

/// Runs a line that isn't too long, unless it is turned away.
fn run_text<M: Keeping>(
    alloc: Global,
    machine: &mut M,
    ledger: &mut Ledger,
    line: &[u8],
    batch: &mut Batch,
) -> Result<(), AllocError>
    requires room { is_full ledger.old ≡ false }
    ensures { OnOk result (length (content line.now) ≤ longest_line → ends_with_byte 10 line.now ≡ true → RunsOne M.Answers M.is_kept M.is_turned_away M.own line.now machine.old machine.new batch.old.bytes.items batch.new.bytes.items
        batch.old.answers.items batch.new.answers.items ledger.old ledger.new) }
{
    let Ok(is_turned_away) = machine.turns_away(alloc, content_of(line)) else {
        return put_answer(&mut batch.answers, MEMORY);
    };
    if is_turned_away {
        return put_answer(&mut batch.answers, TURNED_AWAY);
    }
    match machine.keeps(alloc, content_of(line)) {
        Ok(true) => run_kept(alloc, machine, ledger, line, batch),
        Ok(false) => run_other(alloc, machine, line, &mut batch.answers),
        Err(_) => put_answer(&mut batch.answers, MEMORY),
    }
}

/// Runs a line. Where memory is lacking to hold or to log it, nothing of it happens, and its answer says so.
fn run_line<M: Keeping>(
    alloc: Global,
    machine: &mut M,
    ledger: &mut Ledger,
    line: &EndedLine,
    batch: &mut Batch,
) -> Result<(), AllocError>
    requires room { is_full ledger.old ≡ false }
    ensures { OnOk result ((whole : List ℕ) → IsEndedLine whole line.now → RunsOne M.Answers M.is_kept M.is_turned_away M.own whole machine.old machine.new
        batch.old.bytes.items batch.new.bytes.items batch.old.answers.items batch.new.answers.items ledger.old ledger.new) }
{
    match line {
        EndedLine::Text(line) => run_text(alloc, machine, ledger, line, batch),
        EndedLine::TooLong => put_answer(&mut batch.answers, BAD_LINE),
        _ => put_answer(&mut batch.answers, MEMORY),
    }
}

/// Runs a line of the machine's own, and puts it behind what has to be logged. Its answer isn't sent. `Err` where memory is lacking for it:
/// the run is to end then before anything of the batch is logged.
fn run_own<M: Keeping>(
    alloc: Global,
    machine: &mut M,
    ledger: &mut Ledger,
    line: &[u8],
    bytes: &mut Vec<u8>,
) -> Result<(), AllocError>
    requires room { is_full ledger.old ≡ false }
    requires own { M.own machine.old ≡ Some line.now }
    ensures { OnOk result (RunsOwn M.Answers M.is_kept M.is_turned_away M.own machine.old machine.new bytes.old.items bytes.new.items ledger.old ledger.new) }
{
    bytes.extend_from_slice(line)?;
    let reply = machine.answer(alloc, content_of(line));
    if says_memory(&reply) {
        return Err(AllocError);
    }
    ledger.note(line, text_of(&reply).as_bytes());
    Ok(())
}

/// Runs the lines of the machine's own that are due, one after another.
fn run_due<M: Keeping>(
    alloc: Global,
    machine: &mut M,
    ledger: &mut Ledger,
    bytes: &mut Vec<u8>,
) -> Result<(), AllocError>
    ensures { OnOk result (RunsDue M.Answers M.is_kept M.is_turned_away M.own machine.old machine.new bytes.old.items bytes.new.items ledger.old ledger.new) }
{
    for count in 0..MOST_OWN {
        if ledger.is_full() {
            return Ok(());
        }
        let Some(line) = machine.own_line() else {
            return Ok(());
        };
        run_own(alloc, machine, ledger, line, bytes)?;
    }
    Ok(())
}

impl Batch {
    pub(crate) fn new(alloc: Global) -> Batch
        ensures { (result.bytes.items ≡ []) × (result.answers.items ≡ []) }
    {
        Batch {
            bytes: Vec::new(alloc),
            answers: Vec::new(alloc),
        }
    }

    pub(crate) fn clear(&mut self)
        ensures { (self.new.bytes.items ≡ []) × (self.new.answers.items ≡ []) }
    {
        self.bytes.clear();
        self.answers.clear();
    }

    /// Whether one line more is run before these are answered, which is at hand or not.
    fn takes_more(&self, is_next_at_hand: bool) -> bool {
        is_next_at_hand && self.bytes.len() < MOST_BYTES && self.answers.len() < MOST_BYTES
    }

    /// Runs lines of the input: one, unless it has ended, and those behind it that the reader holds already, as long as they and their
    /// answers are few. `Err` where memory was lacking for the answer to a line that was run.
    fn take<M: Keeping, R: BufRead>(
        &mut self,
        alloc: Global,
        machine: &mut M,
        ledger: &mut Ledger,
        reader: &mut EndedLines<R>,
    ) -> Result<Gathered, AllocError>
        requires bytes { self.old.bytes.items ≡ [] }
        requires answers { self.old.answers.items ≡ [] }
        ensures gathers { IfOk result (λ gathered. IfSome (remaining R.remaining reader.old) (λ xs. Takes M.Answers M.is_kept M.is_turned_away M.own gathered xs (remaining R.remaining reader.new)
            machine.old machine.new self.new.bytes.items self.new.answers.items ledger.old ledger.new)) }
        ensures unread { IfOk result (λ gathered. gathered ≡ Gathered.Failed → HasNoMore reader.new) }
    {
        for count in 0..u64::MAX {
            if ledger.is_full() {
                return Ok(Gathered::Full);
            }
            let Ok(next) = reader.next(alloc) else {
                return Ok(Gathered::Failed);
            };
            match next.line {
                EndedLine::End => return Ok(Gathered::All),
                EndedLine::Unended => return Ok(Gathered::Unended),
                line => run_line(alloc, machine, ledger, &line, self)?,
            }
            if !self.takes_more(next.is_next_at_hand) {
                return Ok(Gathered::Some);
            }
        }
        Ok(Gathered::Some)
    }

    /// Runs lines of the input, and then those of the machine's own that are due. `Err` where memory was lacking for the answer to one of them.
    pub(crate) fn gather<M: Keeping, R: BufRead>(
        &mut self,
        alloc: Global,
        machine: &mut M,
        ledger: &mut Ledger,
        reader: &mut EndedLines<R>,
    ) -> Result<Gathered, AllocError>
        requires bytes { self.old.bytes.items ≡ [] }
        requires answers { self.old.answers.items ≡ [] }
        ensures gathers { IfOk result (λ gathered. IfSome (remaining R.remaining reader.old) (λ xs. Gathers M.Answers M.is_kept M.is_turned_away M.own gathered xs (remaining R.remaining reader.new)
            machine.old machine.new self.new.bytes.items self.new.answers.items ledger.old ledger.new)) }
        ensures unread { IfOk result (λ gathered. gathered ≡ Gathered.Failed → HasNoMore reader.new) }
    {
        let gathered = self.take(alloc, machine, ledger, reader)?;
        run_due(alloc, machine, ledger, &mut self.bytes)?;
        Ok(gathered)
    }
}
