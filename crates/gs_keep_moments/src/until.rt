// A run over a log that stops.
ghost use Rattle.std.specs.Prelude.{◌≡◌, ◌≤◌, ◌||◌, false, length, IfSome};
ghost use Rattle.gs_keep_log.specs.Log.{whole};
ghost use Rattle.gs_shell_line.specs.Ended.{remaining};
ghost use Rattle.gs_keep.specs.Keeping.{LeavesRest, ReadsLog};
ghost use Rattle.gs_keep.specs.Sending.{sent};
ghost use Rattle.gs_keep_moments.specs.Moments.{AtMoment};

use crate::stopping::StoppingLog;
use gs_keep::{Answers, First, Keeping, Progress, Rest, StoreFault, keep_on};
use gs_keep_log::Log;
use gs_keep_mark::Ledger;
use gs_shell_line::EndedLines;
use std::alloc::Global;
use std::io::{BufRead, Write};

/// Goes on with the store that a log has kept, as [`keep_on`] does, until so many appends and syncs of the log have passed. So what is
/// said of the log and of the answers then is said of each moment of a run between two such calls, and of those in the midst of one that
/// the log below fails in: what has gone out is a beginning of the answers to lines that each crash leaves, with their marks.
pub fn keep_until<M: Keeping, L: Log, B: BufRead, A: Rest, R: BufRead, W: Write, P: Progress>(
    alloc: Global,
    machine: &mut M,
    log: &mut StoppingLog<L>,
    first: First<'_>,
    len: u64,
    logged: &mut EndedLines<B>,
    rest: &mut A,
    progress: &mut P,
    reader: &mut EndedLines<R>,
    writer: &mut Answers<W>,
) -> Result<Ledger, StoreFault>
    requires goes_on { (log.old.has_stopped || L.has_failed log.old.log) ≡ false }
    requires within { IfSome (L.holds log.old.log) (λ h. len ≤ length (whole h)) }
    requires logged { ReadsLog first.head.now len (L.holds log.old.log) (remaining B.remaining logged.old) }
    requires rest { LeavesRest len (L.holds log.old.log) (A.bytes rest.old) }
    ensures { IfSome (L.holds log.old.log) (λ h. IfSome (remaining B.remaining logged.old) (λ script. IfSome (remaining R.remaining reader.old) (λ input.
        AtMoment M.Answers M.is_kept M.is_turned_away M.own machine.old first.entry.head.now first.entry.before script input len (L.holds log.old.log) (L.holds log.new.log) (sent W.contents writer.old) (sent W.contents writer.new)))) }
{
    keep_on(
        alloc, machine, log, first, len, logged, rest, progress, reader, writer,
    )
}
