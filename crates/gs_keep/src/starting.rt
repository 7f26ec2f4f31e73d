// A start of a store that a log has kept, from the log as it stands.
ghost use Rattle.std.specs.Prelude.{◌≡◌, false, Some, IfErr, IfOk, IfSome};
ghost use Rattle.gs_keep_log.specs.Log.{whole};
ghost use Rattle.gs_shell_line.specs.Ended.{HasNoMore, remaining};
ghost use Rattle.gs_keep.specs.Sending.{HasStopped, sent};
ghost use Rattle.gs_keep.specs.Starting.{IsTold, IsUntouched, StartFails, Starts, blames_log};

use crate::again::Progress;
use crate::fault::StoreFault;
use crate::sending::Answers;
use crate::source::{Aside, Making, Source};
use crate::standing::{Standing, StandingFault, found_in};
use crate::whole::{First, keep_on};
use gs_keep_log::Log;
use gs_keep_mark::Ledger;
use gs_shell_line::EndedLines;
use std::alloc::Global;
use std::io::{BufRead, Write};

/// Why a start of a log ends before the input does.
#[derive(Debug, Drop)]
pub enum StartFault<E> {
    /// Nothing of the log is run again, and it isn't changed.
    Standing(StandingFault<E>),
    Run(StoreFault),
}

/// What a start has come to behind the input.
#[derive(Drop)]
pub struct Ended<M> {
    /// The machine, as it stands behind the last line.
    pub machine: M,
    /// What the log's marks tell of, up to its end.
    pub ledger: Ledger,
}

/// Goes on with the store that a log has kept, whatever stands in it. The log is locked, and `source` gives what stands in it.
///
/// Of the log nothing is changed before all of it is measured, its first line is taken, what is run again is run, each mark of it compared, and
/// what stands after that put aside. Then that is cut off, and the input is answered, as [`keep_on`] says. With what is given back [`serve`](crate::serve)
/// answers more lines over the same log.
pub fn start<L: Log, S: Source, H: Making, A: Aside, R: BufRead, W: Write, P: Progress>(
    alloc: Global,
    log: &mut L,
    source: &mut S,
    making: &H,
    aside: &mut A,
    progress: &mut P,
    reader: &mut EndedLines<R>,
    writer: &mut Answers<W>,
) -> Result<Ended<H::Machine>, StartFault<H::Fault>>
    requires goes_on { L.has_failed log.old ≡ false }
    requires same { IfSome (L.holds log.old) (λ h. S.bytes source.old ≡ Some (whole h)) }
    ensures ok { IfOk result (λ ended. IfSome (L.holds log.old) (λ h. IfSome (remaining R.remaining reader.old) (λ input.
        Starts H.Machine.Answers H.Machine.is_kept H.Machine.is_turned_away H.Machine.own (H.Begins making.now) (whole h) input (L.holds log.old) (L.holds log.new)
        (sent W.contents writer.old) (sent W.contents writer.new) (A.bytes aside.new) (A.is_alone aside.new) ended.ledger ended.machine))) }
    ensures err { IfErr result (λ e. IfSome (L.holds log.old) (λ h. IfSome (remaining R.remaining reader.old) (λ input.
        StartFails H.Machine.Answers H.Machine.is_kept H.Machine.is_turned_away H.Machine.own (H.Begins making.now) (H.Refuses making.now) e (whole h) input
        (remaining R.remaining reader.new) (L.holds log.old) (L.holds log.new)
        (sent W.contents writer.old) (sent W.contents writer.new) (A.bytes aside.new) (A.is_alone aside.new)))) }
    ensures untouched { IfErr result (λ e. IsUntouched e (log.new ≡ log.old)) }
    ensures failed { L.has_failed log.new ≡ blames_log result }
    ensures told { IfErr result (λ e. IsTold e (HasNoMore reader.new) (HasStopped writer.new)) }
{
    let found = match found_in(alloc, source, making) {
        Ok(found) => found,
        Err(fault) => return Err(StartFault::Standing(fault)),
    };
    let Standing {
        mut machine,
        is_second: _,
        before,
        head,
        measure: _,
        extent,
        tail,
    } = found;
    let part = match source.part(alloc, head.len() as u64, extent.whole) {
        Ok(part) => part,
        Err(error) => return Err(StartFault::Standing(StandingFault::Read(error))),
    };
    let mut logged = EndedLines::new(part);
    progress.measured(extent.rest);
    aside.hold(tail);
    match keep_on(
        alloc,
        &mut machine,
        log,
        First {
            head: &head,
            before,
        },
        extent.whole,
        &mut logged,
        aside,
        progress,
        reader,
        writer,
    ) {
        Ok(ledger) => Ok(Ended { machine, ledger }),
        Err(fault) => Err(StartFault::Run(fault)),
    }
}
