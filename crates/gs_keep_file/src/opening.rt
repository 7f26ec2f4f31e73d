ghost use Rattle.std.specs.Prelude.{◌≡◌, None, IfOk};
ghost use Rattle.gs_keep_file.specs.Standard.{IsBeyond};

use crate::file::FileFault;
use crate::log::FileLog;
use crate::named::{Identity, NamedFile};
use crate::standard::{is_beyond, is_standard_error, standard_name};
use std::fs::{self, File, Metadata, OpenOptions, TryLockError};
use std::io::{self, ErrorKind};
use std::path::Path;
use std::rt::Files;
use thiserror::Error;

/// Why a file can't be a log, with the text for standard error, behind the file's name.
#[derive(Debug, Drop, Error)]
pub enum OpenFault {
    #[error("another process has it")]
    InUse,
    /// Which of standard input and output it is.
    #[error("it is {0} too")]
    Standard(&'static str),
    /// So a text on standard error would be written into it.
    #[error("it is standard error too")]
    StandardError,
    #[error("it can't be opened: it is no ordinary file")]
    NotOrdinary,
    #[error("it can't be opened: standard input, output or error is closed, and the null device can't be opened in its place")]
    NoPlaceholder,
    #[error("it can't be opened: another file got its name meanwhile")]
    Replaced,
    /// What stands under the name beside it, under which it would be made.
    #[error("it can't be made: {0} stands there and isn't a beginning of it; look at that file, and take it away")]
    Beside(String),
    #[error("it can't be made: {0}")]
    Make(io::Error),
    #[error("it can't be opened: {0}")]
    System(io::Error),
}

impl From<io::Error> for OpenFault {
    fn from(error: io::Error) -> OpenFault {
        OpenFault::System(error)
    }
}

/// A log in a file that is locked, with another open file to read it from.
#[derive(Drop)]
pub struct Opened<'a, R> {
    pub log: FileLog<NamedFile<'a, R>>,
    /// At the beginning of the file, for reading alone. Its position is its own.
    pub reader: File,
}

/// What stands under a name.
#[derive(Clone, Copy, Debug, PartialEq, Eq)]
pub enum Standing {
    Nothing,
    /// A symbolic link to a name under which nothing stands.
    Dangling,
    Something,
}

/// What stands under a name.
pub fn what_stands<R: Files>(rt: &R, path: &str) -> io::Result<Standing> {
    let found = match fs::symlink_metadata(rt, path) {
        Ok(found) => found,
        Err(error) if error.kind() == ErrorKind::NotFound => return Ok(Standing::Nothing),
        Err(error) => return Err(error),
    };
    if found.is_symlink() && !fs::exists(rt, path)? {
        return Ok(Standing::Dangling);
    }
    Ok(Standing::Something)
}

/// The folder that a file stands in.
pub(crate) fn folder_of(path: &str) -> Path<'_> {
    match Path::new(path).parent() {
        Some(parent) if !parent.as_str().is_empty() => parent,
        _ => Path::new("."),
    }
}

/// Takes away the second name that a file has from when it was made, once a crash leaves the first one.
fn take_second_name<R: Files<File = File>>(
    rt: &R,
    path: &str,
    beside: &str,
    identity: Identity,
) -> io::Result<()> {
    if let Ok(true) = has_name(rt, beside, identity) {
        File::open(rt, folder_of(path))?.sync_all()?;
        let _ = fs::remove_file(rt, beside);
    }
    Ok(())
}

/// Locks a file for this process alone.
fn lock(file: &File) -> Result<(), OpenFault> {
    match file.try_lock() {
        Ok(()) => Ok(()),
        Err(TryLockError::WouldBlock) => Err(OpenFault::InUse),
        Err(TryLockError::Error(error)) => Err(OpenFault::System(error)),
    }
}

/// Refuses a file that is open in the place of standard input, output or error.
pub(crate) fn beyond_standard(file: File) -> Result<File, OpenFault>
    ensures { IfOk result (λ f. IsBeyond f) }
{
    if is_beyond(&file) {
        return Ok(file);
    }
    Err(OpenFault::NoPlaceholder)
}

/// Refuses what is no ordinary file, and what is one of standard input, output and error too.
pub(crate) fn check_kind<R: Files>(rt: &R, found: &Metadata) -> Result<(), OpenFault> {
    if !found.is_file() {
        return Err(OpenFault::NotOrdinary);
    }
    let identity = Identity::of(found);
    if is_standard_error(rt, identity) {
        return Err(OpenFault::StandardError);
    }
    match standard_name(rt, identity) {
        Some(name) => Err(OpenFault::Standard(name)),
        None => Ok(()),
    }
}

/// Opens a file to read and append to, and locks it. Where `may_make` says so, one that isn't there is made.
pub(crate) fn locked<R: Files<File = File>>(
    rt: &R,
    path: &str,
    may_make: bool,
) -> Result<File, OpenFault>
    ensures { IfOk result (λ f. IsBeyond f) }
{
    // What is no ordinary file isn't opened: that might wait for ever.
    if let Ok(found) = fs::metadata(rt, path) {
        check_kind(rt, &found)?;
    }
    let file = OpenOptions::new()
        .read(true)
        .append(true)
        .create(may_make)
        .open(rt, path)?;
    let file = beyond_standard(file)?;
    check_kind(rt, &file.metadata()?)?;
    lock(&file)?;
    Ok(file)
}

/// Whether a file has the name.
pub(crate) fn has_name<R: Files>(rt: &R, path: &str, identity: Identity) -> io::Result<bool> {
    match fs::metadata(rt, path) {
        Ok(found) => Ok(Identity::of(&found) == identity),
        Err(error) if error.kind() == ErrorKind::NotFound => Ok(false),
        Err(error) => Err(error),
    }
}

/// A log in a file that is locked, and a second open file to read it from.
pub(crate) fn opened_from<'a, R: Files<File = File>>(
    rt: &'a R,
    path: &'a str,
    file: File,
) -> Result<Opened<'a, R>, OpenFault>
    requires { IsBeyond file }
    ensures fault { IfOk result (λ opened. opened.log.fault ≡ None) }
    ensures log { IfOk result (λ opened. IsBeyond opened.log.file.file) }
    ensures reader { IfOk result (λ opened. IsBeyond opened.reader) }
{
    let found = file.metadata()?;
    let identity = Identity::of(&found);
    let reader = beyond_standard(File::open(rt, path)?)?;
    if Identity::of(&reader.metadata()?) != identity {
        return Err(OpenFault::Replaced);
    }
    Ok(Opened {
        log: FileLog::new(NamedFile::new(rt, path, file, identity), found.len()),
        reader,
    })
}

/// Opens the file of a log and locks it. As long as the log lives, no other process that opens the file so gets it. No byte of it is
/// changed. A second name that it has from when it was made, `beside`, is taken away.
pub fn open<'a, R: Files<File = File>>(
    rt: &'a R,
    path: &'a str,
    beside: &str,
) -> Result<Opened<'a, R>, OpenFault>
    ensures fault { IfOk result (λ opened. opened.log.fault ≡ None) }
    ensures log { IfOk result (λ opened. IsBeyond opened.log.file.file) }
    ensures reader { IfOk result (λ opened. IsBeyond opened.reader) }
{
    let file = locked(rt, path, false)?;
    let identity = Identity::of(&file.metadata()?);
    take_second_name(rt, path, beside, identity)?;
    opened_from(rt, path, file)
}
