// A run over a log: its lines are run again, and then the input's are kept.
ghost use Rattle.std.specs.Prelude.{◌≡◌, ◌≤◌, false, length, IfErr, IfOk, IfSome, OnOk, OnErr, is_err};
ghost use Rattle.gs_keep_log.specs.Log.{LogDoes, shortened, whole};
ghost use Rattle.gs_shell_line.specs.Ended.{HasNoMore, remaining};
ghost use Rattle.gs_keep.specs.Sending.{HasStopped, sent};
ghost use Rattle.gs_keep.specs.Keeping.{AsideAs, IsTold, IsUntouched, KeepsOn, LeavesFront, LeavesRest, ReadsLog, StoreFails, blames_log};

use crate::again::{Progress, replay};
use crate::fault::StoreFault;
use crate::keeping::Keeping;
use crate::rest::Rest;
use crate::sending::Answers;
use crate::turns::{close, serve};
use gs_keep_log::{Failed, Log};
use gs_keep_mark::Ledger;
use gs_shell_line::EndedLines;
use std::alloc::Global;
use std::io::{BufRead, Write};

/// How a log begins.
#[derive(Clone, Copy)]
pub struct First<'a> {
    /// Its first line, with its end.
    pub head: &'a [u8],
    /// How many lines the logs before have: 0 for a log that begins a new store.
    pub before: u64,
}

/// Cuts a log behind its first bytes, and waits until each crash leaves these.
fn cut<L: Log>(log: &mut L, len: u64) -> Result<(), Failed>
    requires goes_on { L.has_failed log.old ≡ false }
    requires within { IfSome (L.holds log.old) (λ h. len ≤ length (whole h)) }
    ensures ok { OnOk result (LogDoes (shortened len) (L.holds log.old) (L.holds log.new)) }
    ensures err { OnErr result (LeavesFront len (L.holds log.old) (L.holds log.new)) }
    ensures failed { L.has_failed log.new ≡ is_err result }
{
    log.cut(len)
}

/// Goes on with the store that a log has kept. `first` says how the log begins, and `logged` gives what stands behind its first line up to
/// the log's first `len` bytes. The lines are run again, on a machine that stands where the lines before have led, and each mark has to be
/// what it is by the lines, how many are before, and what they are answered now. Then `rest` is put aside, which is all that stands after the first `len` bytes, and only then the log is
/// cut there. That is where the last mark ends. Of a log of form 1, which has no mark, it is where the last whole line ends, and then a mark
/// is put there and synced. Then the input is answered as [`serve`] says, each line logged before it is answered.
///
/// So what is answered is the end of what the machine answers to the log's lines and the input's, one behind the other, but for what it
/// answers to lines of its own; and what the log holds at the end stands for the store: run again from the beginning it leads there. Where
/// a call fails, whatever a crash leaves has all that was answered, for good, and any bytes behind it: what a start makes of these says
/// `a_start_runs_what_was_answered` of `gs_keep_mark`.
///
/// What is given back is the log's ledger, which tells of all that the log holds then. So whoever calls may serve more lines with the same
/// machine, log and ledger, or begin a new log from what they have come to.
///
/// Where the lines can't be run again, or what stands after them not be put aside, the log isn't changed. Then, and where it can't be cut,
/// nothing of the input is read.
pub fn keep_on<M: Keeping, L: Log, B: BufRead, A: Rest, R: BufRead, W: Write, P: Progress>(
    alloc: Global,
    machine: &mut M,
    log: &mut L,
    first: First<'_>,
    len: u64,
    logged: &mut EndedLines<B>,
    rest: &mut A,
    progress: &mut P,
    reader: &mut EndedLines<R>,
    writer: &mut Answers<W>,
) -> Result<Ledger, StoreFault>
    requires goes_on { L.has_failed log.old ≡ false }
    requires within { IfSome (L.holds log.old) (λ h. len ≤ length (whole h)) }
    requires logged { ReadsLog first.head.now len (L.holds log.old) (remaining B.remaining logged.old) }
    requires rest { LeavesRest len (L.holds log.old) (A.bytes rest.old) }
    ensures ok { IfOk result (λ ledger. IfSome (remaining B.remaining logged.old) (λ script. IfSome (remaining R.remaining reader.old) (λ input.
        KeepsOn M.Answers M.is_kept M.is_turned_away M.own machine.old first.entry.head.now first.entry.before script input len (L.holds log.old) (L.holds log.new) (sent W.contents writer.old) (sent W.contents writer.new) ledger machine.new))) }
    ensures err { IfErr result (λ e. IfSome (remaining B.remaining logged.old) (λ script. IfSome (remaining R.remaining reader.old) (λ input.
        StoreFails M.Answers M.is_kept M.is_turned_away M.own e machine.old first.entry.head.now first.entry.before script input (remaining R.remaining reader.new) len (L.holds log.old) (L.holds log.new) (sent W.contents writer.old) (sent W.contents writer.new) machine.new))) }
    ensures untouched { IfErr result (λ e. IsUntouched e (log.new ≡ log.old)) }
    ensures aside { AsideAs result (A.is_alone rest.new) }
    ensures same { A.bytes rest.new ≡ A.bytes rest.old }
    ensures failed { L.has_failed log.new ≡ blames_log result }
    ensures told { IfErr result (λ e. IsTold e (HasNoMore logged.new) (HasNoMore reader.new) (HasStopped writer.new)) }
{
    let mut ledger = Ledger::of(first.head, first.before);
    let replayed = match replay(alloc, machine, &mut ledger, logged, progress) {
        Ok(replayed) => replayed,
        Err(fault) => return Err(StoreFault::Replay(fault)),
    };
    progress.ended(replayed);
    if rest.put_aside().is_err() {
        return Err(StoreFault::Aside);
    }
    if cut(log, len).is_err() {
        return Err(StoreFault::Cut);
    }
    progress.cut();
    if let Err(fault) = close(alloc, log, &mut ledger, replayed.is_open) {
        return Err(StoreFault::Begin(fault));
    }
    match serve(alloc, machine, log, &mut ledger, reader, writer) {
        Ok(()) => Ok(ledger),
        Err(fault) => Err(StoreFault::Serve(fault)),
    }
}
