// Bytes that are to be cut off a log are put aside, in a file beside its name.
ghost use Rattle.std.specs.Prelude.{◌≡◌, IfOk};
ghost use Rattle.gs_keep_file.specs.Standard.{IsBeyond};

use crate::opening::{OpenFault, beyond_standard, check_kind, folder_of};
use std::alloc::{AllocError, Global};
use std::fs::{self, File, OpenOptions, TryLockError};
use std::io::{self, ErrorKind, Write};
use std::rt::Files;

/// How many files of one log stand beside it at most.
const MOST_ASIDE: u32 = 10_000;

/// The name of the file beside a log that gets what is cut off it, by its number from 1.
fn name_aside(alloc: Global, path: &str, number: u32) -> Result<String, AllocError> {
    if number == 1 {
        return format!(in alloc; "{path}.cut");
    }
    format!(in alloc; "{path}.cut.{number}")
}

/// Writes bytes into a file that is new, and waits until a crash leaves them under its name.
fn put<R: Files<File = File>>(rt: &R, path: &str, mut file: File, bytes: &[u8]) -> io::Result<()> {
    file.write_all(bytes)?;
    file.sync_all()?;
    File::open(rt, folder_of(path))?.sync_all()
}

/// Makes the first file beside a log that isn't there yet.
fn made_aside<R: Files<File = File> + AllocGlobal>(
    rt: &R,
    path: &str,
) -> io::Result<(String, File)> {
    for number in 1..=MOST_ASIDE {
        let name = name_aside(rt.alloc(), path, number)?;
        match OpenOptions::new()
            .write(true)
            .create_new(true)
            .open(rt, name.as_str())
        {
            Ok(file) => return Ok((name, file)),
            Err(error) if error.kind() == ErrorKind::AlreadyExists => {}
            Err(error) => return Err(error),
        }
    }
    Err(io::Error::from(ErrorKind::AlreadyExists))
}

/// Puts bytes into a new file beside a log, `FILE.cut` or `FILE.cut.2` and so on, and waits until a crash leaves them there. Answers the
/// name of the file. Where it fails, no such file is left.
pub fn put_aside<R: Files<File = File> + AllocGlobal>(
    rt: &R,
    path: &str,
    bytes: &[u8],
) -> io::Result<String> {
    let (name, file) = made_aside(rt, path)?;
    match put(rt, path, file, bytes) {
        Ok(()) => Ok(name),
        Err(error) => {
            let _ = fs::remove_file(rt, name.as_str());
            Err(error)
        }
    }
}

/// Opens a log's file for reading alone. Where `is_shared` says so, it is locked so that others may read it too, and nobody writes it: as
/// long as another process has it to write it, that is refused.
pub fn open_to_read<R: Files<File = File>>(
    rt: &R,
    path: &str,
    is_shared: bool,
) -> Result<File, OpenFault>
    ensures { IfOk result (λ f. IsBeyond f) }
{
    // What is no ordinary file isn't opened: that might wait for ever.
    check_kind(rt, &fs::metadata(rt, path)?)?;
    let file = beyond_standard(File::open(rt, path)?)?;
    if !is_shared {
        return Ok(file);
    }
    match file.try_lock_shared() {
        Ok(()) => Ok(file),
        Err(TryLockError::WouldBlock) => Err(OpenFault::InUse),
        Err(TryLockError::Error(error)) => Err(OpenFault::System(error)),
    }
}
