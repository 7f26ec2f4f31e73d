// A log's file is made beside its name, and gets the name once its first line is on the disk.
ghost use Rattle.std.specs.Prelude.{◌≡◌, None, IfOk, length};
ghost use Rattle.gs_keep_file.specs.Making.{is_begun_by};
ghost use Rattle.gs_keep_file.specs.Standard.{IsBeyond};

use crate::named::Identity;
use crate::opening::{OpenFault, Opened, folder_of, has_name, locked, opened_from};
use std::alloc::Global;
use std::fs::{self, File};
use std::io::{self, ErrorKind, Read, Write};
use std::rt::Files;

/// The first text of a log's file.
#[derive(Clone, Copy)]
pub struct FirstText<'a> {
    /// The beginning that each run would write.
    pub fixed: &'a [u8],
    /// What stands after that, which each run draws anew.
    pub drawn: &'a [u8],
}

impl FirstText<'_> {
    /// Whether bytes are a beginning of the text, or of one that another run has drawn: they end within what is fixed, or go on after that
    /// and are no longer than the text.
    fn is_begun_by(&self, bytes: &[u8]) -> bool
        ensures { result ≡ is_begun_by self.now.fixed.now (length self.now.drawn.now) bytes.now }
    {
        if bytes.len() <= self.fixed.len() {
            return self.fixed.starts_with(bytes);
        }
        bytes.starts_with(self.fixed) && bytes.len() - self.fixed.len() <= self.drawn.len()
    }
}

/// Whether a file holds a beginning of the text, or of one that another run has drawn, and nothing else.
fn is_begun(alloc: Global, mut file: &File, text: &FirstText<'_>) -> io::Result<bool> {
    let mut bytes = Vec::new(alloc);
    let len = text.fixed.len().saturating_add(text.drawn.len());
    let most = (len as u64).saturating_add(1);
    file.take(most).read_to_end(&mut bytes)?;
    Ok(text.is_begun_by(&bytes))
}

/// Puts a text into a file in place of what stands there, and waits until it is on the disk.
pub(crate) fn put_text(mut file: &File, text: &FirstText<'_>) -> io::Result<()> {
    file.set_len(0)?;
    file.write_all(text.fixed)?;
    file.write_all(text.drawn)?;
    file.sync_all()
}

/// Gives a file its name, if nothing has that yet, and says whether it has the one beside it too.
fn give_name<R: Files>(rt: &R, beside: &str, path: &str) -> io::Result<bool> {
    match fs::hard_link(rt, beside, path) {
        Ok(()) => Ok(true),
        // A file system may have no second names. Whoever else would make the file waits for its lock.
        Err(error)
            if error.kind() == ErrorKind::PermissionDenied
                || error.kind() == ErrorKind::Unsupported => {
            if fs::symlink_metadata(rt, path).is_ok() {
                return Err(io::Error::from(ErrorKind::AlreadyExists));
            }
            fs::rename(rt, beside, path)?;
            Ok(false)
        }
        Err(error) => Err(error),
    }
}

/// Writes the first text of a file that stands beside its name, and gives it the name. The other name is taken away once a crash leaves
/// this one.
fn named<R: Files<File = File>>(
    rt: &R,
    path: &str,
    beside: &str,
    file: &File,
    text: &FirstText<'_>,
) -> io::Result<()> {
    let folder = File::open(rt, folder_of(path))?;
    put_text(file, text)?;
    let has_both = give_name(rt, beside, path)?;
    folder.sync_all()?;
    if has_both {
        // If it stays, the next start takes it away.
        let _ = fs::remove_file(rt, beside);
    }
    Ok(())
}

/// What stands beside the name isn't a beginning of the file.
fn is_in_the_way(alloc: Global, beside: &str) -> OpenFault {
    match String::from_str(alloc, beside) {
        Ok(name) => OpenFault::Beside(name),
        Err(_) => OpenFault::Make(io::Error::from(ErrorKind::OutOfMemory)),
    }
}

/// Whether a name is that of a symbolic link.
fn is_link<R: Files>(rt: &R, path: &str) -> bool {
    match fs::symlink_metadata(rt, path) {
        Ok(found) => found.is_symlink(),
        Err(_) => false,
    }
}

/// The file beside the name, locked. Refused where it holds anything but a beginning of the text, or of one that another run has drawn.
pub(crate) fn begun<R: Files<File = File> + AllocGlobal>(
    rt: &R,
    beside: &str,
    text: &FirstText<'_>,
) -> Result<File, OpenFault>
    ensures { IfOk result (λ f. IsBeyond f) }
{
    if is_link(rt, beside) {
        return Err(is_in_the_way(rt.alloc(), beside));
    }
    let file = locked(rt, beside, true)?;
    // Another process may have made the file meanwhile.
    if !has_name(rt, beside, Identity::of(&file.metadata()?))? {
        return Err(OpenFault::InUse);
    }
    if !is_begun(rt.alloc(), &file, text)? {
        return Err(is_in_the_way(rt.alloc(), beside));
    }
    Ok(file)
}

/// Makes the file of a log where nothing stands under its name, with a first text, and locks it. It is made under the name `beside`, and
/// gets its own once the text is on the disk, so a crash leaves the whole text or no file of that name. What a crash left under the name
/// `beside` is written anew, if it is a beginning of the same text or of one of which only what is drawn differs.
pub fn make<'a, R: Files<File = File> + AllocGlobal>(
    rt: &'a R,
    path: &'a str,
    beside: &str,
    text: &FirstText<'_>,
) -> Result<Opened<'a, R>, OpenFault>
    ensures fault { IfOk result (λ opened. opened.log.fault ≡ None) }
    ensures log { IfOk result (λ opened. IsBeyond opened.log.file.file) }
    ensures reader { IfOk result (λ opened. IsBeyond opened.reader) }
{
    let file = begun(rt, beside, text)?;
    let identity = Identity::of(&file.metadata()?);
    if let Err(error) = named(rt, path, beside, &file, text) {
        // If the file has both names, the next start looks after the folder and takes one away.
        if let Ok(false) = has_name(rt, path, identity) {
            let _ = fs::remove_file(rt, beside);
        }
        return Err(OpenFault::Make(error));
    }
    opened_from(rt, path, file)
}
