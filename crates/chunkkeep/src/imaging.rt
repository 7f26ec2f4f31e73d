// When an image is taken, and what comes of one that isn't.
ghost use Rattle.std.specs.Prelude.{◌≡◌, false, is_some, IfOk};

use crate::beside::image_name;
use crate::fault::Fault;
use crate::opening::{FirstLine, need_file, opened};
use crate::serving::{Begun, Stood, give_up, run_alone, run_input};
use crate::taking::{Untaken, check_names, take};
use gs_keep_file::sync_folder;
use gs_keep_head::Form;
use gs_keep_image::is_due;
use gs_keep_options::Asked;
use std::fs::{self, File};
use std::rt::{Clock, Files};

/// How many bytes the image has from which a log begins: none, where it begins from none.
fn image_len<R: Files + AllocGlobal>(rt: &R, path: &str, first: &FirstLine) -> u64 {
    let Form::Three(before) = first.head.form else {
        return 0;
    };
    let Ok(name) = image_name(rt.alloc(), path, before.image) else {
        return u64::MAX;
    };
    match fs::metadata(rt, name.as_str()) {
        Ok(found) => found.len(),
        Err(_) => 0,
    }
}

/// Whether an image is to be taken of a file of so many bytes.
fn is_long<R: Files + AllocGlobal>(rt: &R, asked: &Asked, first: &FirstLine, len: u64) -> bool {
    let grown = len.saturating_sub(first.len);
    is_due(asked.mode.times(), grown, image_len(rt, &asked.path, first))
}

/// Takes an image of what a run has come to, and says so. Where none is taken, what was written for it is cut off the log.
fn write_down<'a, R: Files<File = File> + Eprint + AllocGlobal>(
    rt: &R,
    asked: &Asked,
    first: &FirstLine,
    stood: Stood<'a, R>,
) -> Result<(), Untaken>
    requires { is_some stood.log.fault ≡ false }
{
    let path = asked.path.as_str();
    let Stood {
        mut log,
        machine,
        mut ledger,
    } = stood;
    match take(rt, path, &first.head, machine, &mut log, &mut ledger) {
        Ok(number) => {
            let lines = ledger.lines();
            let _ = eprintln!(rt;
                "chunkkeep: {path}: image {number} is taken behind {lines} lines, and the log begins from it"
            );
            Ok(())
        }
        Err(untaken) => {
            if give_up(rt, path, &mut log) {
                return Err(untaken.of_log(log.into_fault()));
            }
            Err(Untaken::Uncut)
        }
    }
}

/// Takes an image by itself. That none is taken is told, and it ends no run, but where lines may stand in the log of which that isn't known.
fn write_down_itself<'a, R: Files<File = File> + Eprint + AllocGlobal>(
    rt: &R,
    asked: &Asked,
    first: &FirstLine,
    stood: Stood<'a, R>,
) -> Result<(), Fault>
    requires { is_some stood.log.fault ≡ false }
{
    match write_down(rt, asked, first, stood) {
        Ok(()) => Ok(()),
        Err(Untaken::Uncut) => Err(Fault::Untaken(Untaken::Uncut)),
        Err(untaken) => {
            let path = asked.path.as_str();
            let _ = eprintln!(rt; "chunkkeep: {path}: no image is taken: {untaken}");
            Ok(())
        }
    }
}

/// A file that is open, or made. If it begins from an image, a crash leaves its name.
fn begun<'a, R: Files<File = File> + AllocGlobal>(
    rt: &'a R,
    asked: &'a Asked,
) -> Result<Begun<'a, R>, Fault>
    ensures { IfOk result (λ begun. is_some begun.log.fault ≡ false) }
{
    let begun = Begun::new(rt, opened(rt, asked)?);
    if let Some(FirstLine { head, .. }) = begun.first {
        if let Form::Three(_) = head.form {
            sync_folder(rt, &asked.path).map_err(Fault::Folder)?;
        }
    }
    Ok(begun)
}

/// Whether a file is so long that an image is due, and a new log may follow on it: else its lines aren't run for that alone.
fn may_write_down<'a, R: Files<File = File> + AllocGlobal>(
    rt: &R,
    asked: &Asked,
    first: &FirstLine,
    found: &Begun<'a, R>,
) -> bool {
    let path = asked.path.as_str();
    is_long(rt, asked, first, found.log.len())
        && check_names(rt.alloc(), path, &first.head, &found.log).is_ok()
}

/// A file that is so long already that an image is taken of it before the input is read, as a run leaves it that didn't end by itself, is
/// opened again behind that.
fn written_down_first<'a, R: Files<File = File> + Eprint + Clock + AllocGlobal>(
    rt: &'a R,
    asked: &'a Asked,
    found: Begun<'a, R>,
) -> Result<Begun<'a, R>, Fault>
    requires { is_some found.log.fault ≡ false }
    ensures { IfOk result (λ begun. is_some begun.log.fault ≡ false) }
{
    let Some(first) = found.first else {
        return Ok(found);
    };
    if !may_write_down(rt, asked, &first, &found) {
        return Ok(found);
    }
    let stood = run_alone(rt, asked, found)?;
    // What stood behind the lines that were answered is cut off by now.
    if is_long(rt, asked, &first, stood.log.len()) {
        write_down_itself(rt, asked, &first, stood)?;
    } else {
        drop(stood);
    }
    begun(rt, asked)
}

/// Opens a file, or makes it, runs again what it keeps, and answers standard input. Behind that an image is taken, if the file has become so
/// long.
pub(crate) fn serve<'a, R: Files<File = File> + Input + Print + Eprint + Clock + AllocGlobal>(
    rt: &'a R,
    asked: &'a Asked,
) -> Result<(), Fault> {
    let found = begun(rt, asked)?;
    let found = written_down_first(rt, asked, found)?;
    let first = found.first;
    let stood = run_input(rt, asked, found)?;
    let Some(first) = first else {
        return Ok(());
    };
    if is_long(rt, asked, &first, stood.log.len()) {
        return write_down_itself(rt, asked, &first, stood);
    }
    Ok(())
}

/// Runs again what a file keeps, and takes an image of that.
pub(crate) fn image<'a, R: Files<File = File> + Eprint + Clock + AllocGlobal>(
    rt: &'a R,
    asked: &'a Asked,
) -> Result<(), Fault> {
    need_file(rt, &asked.path)?;
    let found = begun(rt, asked)?;
    let first = found.first;
    let stood = run_alone(rt, asked, found)?;
    let Some(first) = first else {
        return Err(Fault::Other);
    };
    match write_down(rt, asked, &first, stood) {
        Ok(()) => Ok(()),
        Err(untaken) => Err(Fault::Untaken(untaken)),
    }
}
