// A run: lines are run, logged with their mark and then answered, over and over.
ghost use Rattle.std.specs.Prelude.{◌≡◌, [], List, ℕ, Bool, false, IfOk, IfErr, OnOk, IfSome};
ghost use Rattle.gs_shell_line.specs.Ended.{HasNoMore, remaining};
ghost use Rattle.gs_keep.specs.Sending.{HasStopped, sent};
ghost use Rattle.gs_keep.specs.Serving.{Closes, Ends, Fails, Keeps, Rounds, SealFails, Seals, ServesAll, blames_log};

use crate::batch::{Batch, Gathered};
use crate::fault::KeepFault;
use crate::keeping::Keeping;
use crate::sending::Answers;
use gs_keep_log::Log;
use gs_keep_mark::Ledger;
use gs_shell_line::EndedLines;
use std::alloc::Global;
use std::io::{BufRead, Write};

/// Puts the mark behind some bytes, appends all to the log, and syncs it.
fn seal<L: Log>(
    alloc: Global,
    log: &mut L,
    ledger: &mut Ledger,
    bytes: &mut Vec<u8>,
) -> Result<(), KeepFault>
    requires { L.has_failed log.old ≡ false }
    ensures ok { OnOk result (Seals ledger.old ledger.new (L.holds log.old) (L.holds log.new) bytes.old.items) }
    ensures err { IfErr result (λ e. SealFails e ledger.old (L.holds log.old) (L.holds log.new) bytes.old.items) }
    ensures failed { L.has_failed log.new ≡ blames_log result }
{
    let Ok(mark) = ledger.mark(alloc) else {
        return Err(KeepFault::Memory);
    };
    if bytes.extend_from_slice(&mark).is_err() {
        return Err(KeepFault::Memory);
    }
    if log.append(bytes).is_err() {
        return Err(KeepFault::Log);
    }
    if log.sync().is_err() {
        return Err(KeepFault::Log);
    }
    ledger.pass(&mark);
    Ok(())
}

/// Puts a mark behind lines that have none, if there are such lines.
pub(crate) fn close<L: Log>(
    alloc: Global,
    log: &mut L,
    ledger: &mut Ledger,
    is_open: bool,
) -> Result<(), KeepFault>
    requires { L.has_failed log.old ≡ false }
    ensures ok { OnOk result (Closes is_open ledger.old ledger.new (L.holds log.old) (L.holds log.new)) }
    ensures err { IfErr result (λ e. SealFails e ledger.old (L.holds log.old) (L.holds log.new) []) }
    ensures failed { L.has_failed log.new ≡ blames_log result }
{
    if !is_open {
        return Ok(());
    }
    let mut bytes = Vec::new(alloc);
    seal(alloc, log, ledger, &mut bytes)
}

/// Logs lines with their mark, if there are any.
fn keep<L: Log>(
    alloc: Global,
    log: &mut L,
    ledger: &mut Ledger,
    bytes: &mut Vec<u8>,
) -> Result<(), KeepFault>
    requires { L.has_failed log.old ≡ false }
    ensures ok { OnOk result (Keeps ledger.old ledger.new (L.holds log.old) (L.holds log.new) bytes.old.items) }
    ensures err { IfErr result (λ e. SealFails e ledger.old (L.holds log.old) (L.holds log.new) bytes.old.items) }
    ensures failed { L.has_failed log.new ≡ blames_log result }
{
    if bytes.is_empty() {
        return Ok(());
    }
    seal(alloc, log, ledger, bytes)
}

/// What comes of a round whose lines are answered.
fn ended(gathered: Gathered) -> Result<bool, KeepFault>
    ensures { Ends gathered result }
{
    match gathered {
        Gathered::Some => Ok(true),
        Gathered::All => Ok(false),
        Gathered::Unended => Err(KeepFault::Unended),
        Gathered::Failed => Err(KeepFault::Read),
        Gathered::Full => Err(KeepFault::TooMany),
    }
}

/// Runs lines, logs them with their mark and then answers them. Says whether there may be more.
fn round<M: Keeping, L: Log, R: BufRead, W: Write>(
    alloc: Global,
    machine: &mut M,
    log: &mut L,
    ledger: &mut Ledger,
    reader: &mut EndedLines<R>,
    writer: &mut Answers<W>,
) -> Result<bool, KeepFault>
    requires { L.has_failed log.old ≡ false }
    ensures ok { IfOk result (λ more. IfSome (remaining R.remaining reader.old) (λ xs.
        Rounds M.Answers M.is_kept M.is_turned_away M.own machine.old more xs (remaining R.remaining reader.new) (L.holds log.old) (L.holds log.new) (sent W.contents writer.old) (sent W.contents writer.new)
        ledger.old ledger.new machine.new)) }
    ensures err { IfErr result (λ e. IfSome (remaining R.remaining reader.old) (λ xs.
        Fails M.Answers M.is_kept M.is_turned_away M.own e machine.old xs (remaining R.remaining reader.new) (L.holds log.old) (L.holds log.new) (sent W.contents writer.old) (sent W.contents writer.new) ledger.old machine.new)) }
    ensures failed { L.has_failed log.new ≡ blames_log result }
    ensures unread { IfErr result (λ e. e ≡ KeepFault.Read → HasNoMore reader.new) }
    ensures unsent { IfErr result (λ e. e ≡ KeepFault.Write → HasStopped writer.new) }
{
    let mut batch = Batch::new(alloc);
    let Ok(gathered) = batch.gather(alloc, machine, ledger, reader) else {
        return Err(KeepFault::Memory);
    };
    if let Err(fault) = keep(alloc, log, ledger, &mut batch.bytes) {
        return Err(fault);
    }
    if let Err(fault) = writer.send(&batch.answers) {
        return Err(fault);
    }
    ended(gathered)
}

/// Answers each line of the reader by one line to the writer, as `gs_shell_script::run` does, where each line that may change the
/// machine is in the log with its answer's digest, and synced, before it is answered. The ledger has to be that of the log.
///
/// Lines that come together are run one after another: one line, and those behind it that the reader holds already with their `\n`, as
/// long as what has to be logged of them and their answers are less than some mebibytes. Then those that have to be logged are appended
/// with a mark behind them and synced, and then the answers go out and the writer is flushed. So a line that ends the process is in no log.
///
/// Where memory is lacking to hold a line, or to log it, nothing of it happens, and its answer is `refused 33 Memory`. Where it is lacking
/// for the answer to a line that was run, or for the mark, the run ends, and nothing that was run since the last answers is logged or
/// answered. A read, a write or a call of the log that fails ends the run. The lines that were read before a failed read are logged and
/// answered, and so are those before a last line that lacks its end, which isn't run. Where a write fails, the lines that were run are
/// logged, also those that aren't answered. Where the log fails, any bytes may stand behind what it held, and none of the lines is
/// answered. After 18,446,744,073,709,551,615 lines the fault is `TooMany`.
///
/// Behind the lines that come together the machine's own are run, as long as one is due, up to 32. They are logged with them, before the
/// mark, and their answers aren't sent. Where memory is lacking for one of them the run ends, as above.
pub fn serve<M: Keeping, L: Log, R: BufRead, W: Write>(
    alloc: Global,
    machine: &mut M,
    log: &mut L,
    ledger: &mut Ledger,
    reader: &mut EndedLines<R>,
    writer: &mut Answers<W>,
) -> Result<(), KeepFault>
    requires { L.has_failed log.old ≡ false }
    ensures ok { OnOk result (IfSome (remaining R.remaining reader.old) (λ input.
        ServesAll M.Answers M.is_kept M.is_turned_away M.own machine.old input (L.holds log.old) (L.holds log.new) (sent W.contents writer.old) (sent W.contents writer.new) ledger.old ledger.new machine.new)) }
    ensures err { IfErr result (λ e. IfSome (remaining R.remaining reader.old) (λ input.
        Fails M.Answers M.is_kept M.is_turned_away M.own e machine.old input (remaining R.remaining reader.new) (L.holds log.old) (L.holds log.new) (sent W.contents writer.old) (sent W.contents writer.new) ledger.old machine.new)) }
    ensures failed { L.has_failed log.new ≡ blames_log result }
    ensures unread { IfErr result (λ e. e ≡ KeepFault.Read → HasNoMore reader.new) }
    ensures unsent { IfErr result (λ e. e ≡ KeepFault.Write → HasStopped writer.new) }
{
    for count in 0..u64::MAX {
        if !round(alloc, machine, log, ledger, reader, writer)? {
            return Ok(());
        }
    }
    Err(KeepFault::TooMany)
}
