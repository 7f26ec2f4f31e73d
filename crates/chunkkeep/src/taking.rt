// An image of the store is taken at the end of a run, and a new log begins from it.
ghost use Rattle.std.specs.Prelude.{◌≡◌, false, is_some, OnOk};

use crate::beside::{before_name, image_name, new_name};
use crate::loading::whole_file;
use crate::memory_desk::MemoryDesk;
use crate::opening::first_text;
use gs_keep::{Answers, KeepFault, serve};
use gs_keep_file::{FileFault, FileLog, LogNames, NamedFile, RenewFault, StepFault, take_away};
use gs_keep_head::{Before, Form, HeadLine, SUM_BYTES, head};
use gs_keep_image::Image;
use gs_keep_log::Log;
use gs_keep_mark::Ledger;
use gs_shell_line::EndedLines;
use sha2::{Digest as _, Sha256};
use std::alloc::{AllocError, Global};
use std::collections::VecDeque;
use std::fs::File;
use std::io::{self, Write};
use std::rt::Files;
use thiserror::Error;

/// The line that opens the disks of a master.
pub(crate) const OPENS: &str = "restart master";

/// Why no image is taken, with the text for standard error.
#[derive(Debug, Drop, Error)]
pub(crate) enum Untaken {
    #[error("memory is lacking")]
    Memory,
    #[error("messages are held back, or wait for an answer")]
    Unrest,
    #[error("there are more images than can be counted")]
    TooMany,
    #[error("it is a symbolic link; name the file to which it leads")]
    Linked,
    #[error("{0} stands there and isn't this log; look at that file, and take it away")]
    InTheWay(String),
    #[error("{name} can't be looked for: {error}")]
    Look { name: String, error: io::Error },
    #[error("the lines that bring the store to rest can't be kept: {0}")]
    Lines(KeepFault),
    #[error("the lines that bring the store to rest can't be written: {0}")]
    Log(FileFault),
    #[error("a line that brings the store to rest isn't answered `ok`")]
    Unrun,
    #[error("the master's disks can't be opened again")]
    Master,
    #[error("the store can't be told by an image")]
    Form,
    #[error("{name}: {fault}")]
    Image { name: String, fault: StepFault },
    #[error("{0}")]
    Renew(RenewFault),
    /// Lines that were kept for it can't be cut off, and aren't known to be on the disk.
    #[error("what was written for it can't be cut off")]
    Uncut,
}

impl Untaken {
    /// With why a call of the log failed, if one has.
    pub(crate) fn of_log(self, fault: Option<FileFault>) -> Untaken {
        match (self, fault) {
            (Untaken::Lines(KeepFault::Log), Some(fault)) => Untaken::Log(fault),
            (untaken, _) => untaken,
        }
    }
}

impl From<AllocError> for Untaken {
    fn from(_error: AllocError) -> Untaken {
        Untaken::Memory
    }
}

/// The names of the files of an image.
#[derive(Drop)]
struct Names {
    image: String,
    /// Under which the image is written.
    image_new: String,
    /// Under which the new log is begun.
    new: String,
    /// Which the log before keeps.
    before: String,
}

impl Names {
    fn new(alloc: Global, path: &str, number: u64) -> Result<Names, AllocError> {
        let image = image_name(alloc, path, number)?;
        Ok(Names {
            image_new: new_name(alloc, &image)?,
            image,
            new: new_name(alloc, path)?,
            before: before_name(alloc, path, number)?,
        })
    }
}

/// A line that has the nodes tick, so that the journal is written anew if it is long, and one for each server that restarts it, each with
/// its end.
fn restarts(alloc: Global, servers: u64) -> Result<String, AllocError> {
    let mut lines = String::from_str(alloc, "tick\n")?;
    for server in 0..servers {
        lines.push_str(&format!(in alloc; "restart {server}\n")?)?;
    }
    Ok(lines)
}

/// So many answers that are `ok`, each with its end.
fn oks(alloc: Global, count: u64) -> Result<String, AllocError> {
    let mut answers = String::new(alloc);
    for _ in 0..count {
        answers.push_str("ok\n")?;
    }
    Ok(answers)
}

/// Keeps so many lines that the program itself asks. Each has to be answered `ok`.
fn keep_lines<L: Log>(
    alloc: Global,
    machine: &mut MemoryDesk,
    log: &mut L,
    ledger: &mut Ledger,
    lines: &str,
    count: u64,
) -> Result<(), Untaken>
    requires { L.has_failed log.old ≡ false }
    ensures { OnOk result (L.has_failed log.new ≡ false) }
{
    let wanted = oks(alloc, count)?;
    let mut queue = VecDeque::new(alloc);
    if queue.write_all(lines.as_bytes()).is_err() {
        return Err(Untaken::Memory);
    }
    let mut answers: Vec<u8> = Vec::new(alloc);
    let mut reader = EndedLines::new(queue);
    let mut writer = Answers::new(&mut answers);
    match serve(alloc, machine, log, ledger, &mut reader, &mut writer) {
        Ok(()) => {}
        Err(KeepFault::Memory) => return Err(Untaken::Memory),
        Err(fault) => return Err(Untaken::Lines(fault)),
    }
    drop(writer);
    if answers.as_slice() != wanted.as_bytes() {
        return Err(Untaken::Unrun);
    }
    Ok(())
}

/// The image of a store that is brought to rest by lines of the log: each server is restarted before, and its master behind.
fn written_down<L: Log>(
    alloc: Global,
    machine: MemoryDesk,
    log: &mut L,
    ledger: &mut Ledger,
    servers: u64,
) -> Result<Image, Untaken>
    requires { L.has_failed log.old ≡ false }
{
    let mut taking = machine.for_lab();
    let lines = restarts(alloc, servers)?;
    keep_lines(
        alloc,
        &mut taking,
        log,
        ledger,
        &lines,
        servers.saturating_add(1),
    )?;
    let mut closed = taking.closed();
    let image = closed.image(alloc);
    let line = format!(in alloc; "{OPENS}\n")?;
    keep_lines(alloc, &mut closed, log, ledger, &line, 1)?;
    if !closed.is_open() {
        return Err(Untaken::Master);
    }
    image
}

/// The number of the image behind the one that a log begins from, if it does.
fn next_number(head: &HeadLine) -> Result<u64, Untaken> {
    let last = match head.form {
        Form::Three(before) => before.image,
        _ => 0,
    };
    match last.checked_add(1) {
        Some(number) => Ok(number),
        None => Err(Untaken::TooMany),
    }
}

/// The first line of a log that begins from an image, with its end.
fn next_line(alloc: Global, last: &HeadLine, before: Before) -> Result<String, AllocError> {
    let mut line = head(alloc, Form::Three(before), &last.config, last.name)?;
    line.push('\n')?;
    Ok(line)
}

/// What the marks of a log tell, for the first line of the one that goes on from an image of it.
fn told(ledger: &Ledger, number: u64, sum: [u8; 32]) -> Result<Before, AllocError> {
    Ok(Before {
        image: number,
        sum,
        lines: ledger.lines(),
        text: ledger.text()?,
        answers: ledger.answers()?,
    })
}

/// Whether the image that a log begins from can be read and has the digest that the log tells, if it begins from one. The log before it and the
/// image before are needed as long as it isn't so.
fn is_sound<R: Files<File = File> + AllocGlobal>(rt: &R, path: &str, head: &HeadLine) -> bool {
    let Form::Three(before) = head.form else {
        return true;
    };
    let Ok(name) = image_name(rt.alloc(), path, before.image) else {
        return false;
    };
    let Ok(bytes) = whole_file(rt, &name) else {
        return false;
    };
    let at = bytes.len().saturating_sub(SUM_BYTES);
    let mut hasher = Sha256::new();
    hasher.update(&bytes[..at]);
    let digest: [u8; SUM_BYTES] = hasher.finalize();
    digest == before.sum && bytes[at..] == before.sum[..]
}

/// Takes away what isn't needed behind an image of this number: the images before the one before it, and the logs before its own, as far back
/// as one of them stands.
fn take_older<R: Files>(rt: &R, alloc: Global, path: &str, number: u64) -> Result<(), AllocError> {
    for back in 1..number {
        let at = number - back;
        let before = take_away(rt, &before_name(alloc, path, at)?);
        let image = take_away(rt, &image_name(alloc, path, at - 1)?);
        if !matches!(before, Ok(true)) && !matches!(image, Ok(true)) {
            return Ok(());
        }
    }
    Ok(())
}

/// Looks whether a new log may follow on this one: its name is the file's own, and the name that it is to keep is free.
pub(crate) fn check_names<R: Files<File = File> + AllocGlobal>(
    alloc: Global,
    path: &str,
    head: &HeadLine,
    log: &FileLog<NamedFile<'_, R>>,
) -> Result<(), Untaken> {
    let name = before_name(alloc, path, next_number(head)?)?;
    let looked = match log.is_linked() {
        Ok(true) => return Err(Untaken::Linked),
        Ok(false) => log.may_keep(&name),
        Err(error) => Err(error),
    };
    match looked {
        Ok(true) => Ok(()),
        Ok(false) => Err(Untaken::InTheWay(name)),
        Err(error) => Err(Untaken::Look { name, error }),
    }
}

/// Writes an image under its name, and lets a new log begin from it.
fn put_image<R: Files<File = File> + AllocGlobal>(
    log: &FileLog<NamedFile<'_, R>>,
    names: Names,
    image: Image,
    line: &str,
) -> Result<(), Untaken> {
    if let Err(fault) = log.put_beside(&names.image, &names.image_new, &image.bytes) {
        return Err(Untaken::Image {
            name: names.image,
            fault,
        });
    }
    drop(image);
    let log_names = LogNames {
        beside: &names.new,
        before: &names.before,
    };
    match log.renew(&log_names, &first_text(line, " image ")) {
        Ok(()) => Ok(()),
        Err(fault) => Err(Untaken::Renew(fault)),
    }
}

/// Takes an image of a store whose log has ended, and lets a new log begin from it. Gives the image's number.
pub(crate) fn take<R: Files<File = File> + AllocGlobal>(
    rt: &R,
    path: &str,
    head: &HeadLine,
    machine: MemoryDesk,
    log: &mut FileLog<NamedFile<'_, R>>,
    ledger: &mut Ledger,
) -> Result<u64, Untaken>
    requires { is_some log.old.fault ≡ false }
{
    let alloc = rt.alloc();
    if !machine.may_rest() {
        return Err(Untaken::Unrest);
    }
    let number = next_number(head)?;
    let names = Names::new(alloc, path, number)?;
    check_names(alloc, path, head, log)?;
    let image = written_down(alloc, machine, log, ledger, head.config.servers)?;
    let line = next_line(alloc, head, told(ledger, number, image.sum)?)?;
    put_image(log, names, image, &line)?;
    if is_sound(rt, path, head) {
        // What stays is taken away behind the next image.
        let _ = take_older(rt, alloc, path, number);
    }
    Ok(number)
}
