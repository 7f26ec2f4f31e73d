// A log that begins from an image is given the desk that this tells, or else what the log before comes to.
use crate::beside::{before_name, image_name};
use crate::fault::Fault;
use crate::memory_desk::MemoryDesk;
use crate::opening::{FileSource, head_of, why_unrun};
use crate::telling::Teller;
use gs_keep::{Made, Making, Source as _, Standing, found_in, replay};
use gs_keep_file::{OpenFault, open_to_read};
use gs_keep_head::{Before, Form, HeadLine};
use gs_keep_image::{LoadFault, desk_of};
use gs_keep_mark::Ledger;
use gs_shell_line::EndedLines;
use std::alloc::Global;
use std::fs::File;
use std::io::{self, ErrorKind, Read};
use std::rt::{Clock, Files};
use thiserror::Error;

/// Why an image isn't read, with the text for standard error, behind the image's name.
#[derive(Debug, Drop, Error)]
pub(crate) enum Unread {
    #[error("memory is lacking to read it")]
    Memory,
    #[error("{0}")]
    Opening(OpenFault),
    #[error("it can't be read: {0}")]
    Read(io::Error),
    #[error("{0}")]
    Load(LoadFault),
    #[error("the disks of its master hold no journal")]
    Master,
}

/// A log beside which its image and the log before stand, and whether lines that harm a store are taken.
#[derive(Drop)]
pub(crate) struct Kept<'a, R> {
    pub(crate) rt: &'a R,
    pub(crate) path: &'a str,
    pub(crate) is_lab: bool,
}

/// All bytes of a file.
pub(crate) fn whole_file<R: Files<File = File> + AllocGlobal>(
    rt: &R,
    name: &str,
) -> Result<Vec<u8>, Unread> {
    let mut file = open_to_read(rt, name, false).map_err(Unread::Opening)?;
    let mut bytes = Vec::new(rt.alloc());
    match file.read_to_end(&mut bytes) {
        Ok(_) => Ok(bytes),
        Err(error) if error.kind() == ErrorKind::OutOfMemory => Err(Unread::Memory),
        Err(error) => Err(Unread::Read(error)),
    }
}

/// The desk that an image tells, for a log with this first line.
fn image_desk<R: Files<File = File> + AllocGlobal>(
    kept: &Kept<'_, R>,
    name: &str,
    head: &HeadLine,
    before: &Before,
) -> Result<MemoryDesk, Unread> {
    let alloc = kept.rt.alloc();
    let bytes = whole_file(kept.rt, name)?;
    match desk_of(alloc, &bytes, &head.config, &before.sum) {
        Ok(desk) => MemoryDesk::from_image(alloc, desk, kept.is_lab),
        Err(LoadFault::Memory) => Err(Unread::Memory),
        Err(fault) => Err(Unread::Load(fault)),
    }
}

/// What makes a desk for the log before another one. If that begins from an image too, it has to stand.
#[derive(Drop)]
struct BeforeOpener<'a, R> {
    kept: &'a Kept<'a, R>,
}

impl<R: Files<File = File> + AllocGlobal> Making for BeforeOpener<'_, R> {
    type Machine = MemoryDesk;

    type Fault = Fault;

    ghost Begins = { λ opener head is_second before desk. Unit {0} };

    ghost Refuses = { λ opener head fault. Unit {0} };

    fn make(&self, alloc: Global, line: &[u8]) -> Result<Made<MemoryDesk>, Fault> {
        let head = head_of(alloc, line)?;
        let Form::Three(before) = head.form else {
            return new_desk(alloc, &head, self.kept.is_lab);
        };
        let Ok(name) = image_name(alloc, self.kept.path, before.image) else {
            return Err(Fault::Memory);
        };
        match image_desk(self.kept, &name, &head, &before) {
            Ok(machine) => Ok(Made {
                machine,
                is_second: true,
                before: before.lines,
            }),
            Err(Unread::Memory) => Err(Fault::Memory),
            Err(unread) => Err(Fault::Unread { name, unread }),
        }
    }
}

/// A new desk for a log that begins from no image.
pub(crate) fn new_desk(
    alloc: Global,
    head: &HeadLine,
    is_lab: bool,
) -> Result<Made<MemoryDesk>, Fault> {
    Ok(Made {
        machine: MemoryDesk::new(alloc, head.config, is_lab)?,
        is_second: head.form == Form::Two,
        before: 0,
    })
}

/// Refuses a log of which the ledger tells otherwise than a first line tells of the log before.
fn check_told(ledger: &Ledger, before: &Before) -> Result<(), Fault> {
    let (Ok(text), Ok(answers)) = (ledger.text(), ledger.answers()) else {
        return Err(Fault::Memory);
    };
    if ledger.lines() == before.lines && text == before.text && answers == before.answers {
        return Ok(());
    }
    Err(Fault::NotBefore)
}

/// Runs all lines of a log again, which has to be the one that a first line tells of.
fn run_before<R: Files<File = File> + Eprint + Clock + AllocGlobal>(
    rt: &R,
    name: &str,
    source: &mut FileSource,
    standing: Standing<MemoryDesk>,
    before: &Before,
) -> Result<MemoryDesk, Fault> {
    let Standing {
        mut machine,
        before: count,
        head,
        extent,
        ..
    } = standing;
    let part = source
        .part(rt.alloc(), head.len() as u64, extent.whole)
        .map_err(Fault::of_read)?;
    let mut ledger = Ledger::of(&head, count);
    let mut teller = Teller::new(rt, name);
    if let Err(fault) = replay(
        rt.alloc(),
        &mut machine,
        &mut ledger,
        &mut EndedLines::new(part),
        &mut teller,
    ) {
        return Err(Fault::of_replay(fault));
    }
    if extent.rest > 0 {
        return Err(Fault::NotBefore);
    }
    check_told(&ledger, before)?;
    Ok(machine)
}

/// What the log before comes to. It has to end with what the first line of the log tells of it.
fn before_desk<R: Files<File = File> + Eprint + Clock + AllocGlobal>(
    kept: &Kept<'_, R>,
    name: &str,
    before: &Before,
) -> Result<MemoryDesk, Fault> {
    let file = open_to_read(kept.rt, name, false).map_err(Fault::Opening)?;
    let mut source = FileSource::new(file);
    let alloc = kept.rt.alloc();
    let standing = match found_in(alloc, &mut source, &BeforeOpener { kept }) {
        Ok(standing) => standing,
        Err(fault) => return Err(why_unrun(alloc, &mut source, fault)),
    };
    run_before(kept.rt, name, &mut source, standing, before)
}

/// What the log before comes to, where its image isn't read.
fn instead<R: Files<File = File> + Eprint + Clock + AllocGlobal>(
    kept: &Kept<'_, R>,
    before: &Before,
    image: String,
    unread: Unread,
) -> Result<MemoryDesk, Fault> {
    let alloc = kept.rt.alloc();
    let path = kept.path;
    let Ok(name) = before_name(alloc, path, before.image) else {
        return Err(Fault::Memory);
    };
    let _ = eprintln!(kept.rt;
        "chunkkeep: {path}: the image {image} isn't read: {unread}. The log before, {name}, is run again"
    );
    match before_desk(kept, &name, before) {
        Ok(desk) => Ok(desk),
        Err(Fault::Memory) => Err(Fault::Memory),
        Err(fault) => match format!(in alloc; "{fault}") {
            Ok(reason) => Err(Fault::NoBeginning {
                image,
                unread,
                name,
                reason,
            }),
            Err(_) => Err(Fault::Memory),
        },
    }
}

/// The desk from which a log begins: that of its image, or else what the log before comes to.
pub(crate) fn begun_desk<R: Files<File = File> + Eprint + Clock + AllocGlobal>(
    kept: &Kept<'_, R>,
    head: &HeadLine,
    before: &Before,
) -> Result<MemoryDesk, Fault> {
    let Ok(name) = image_name(kept.rt.alloc(), kept.path, before.image) else {
        return Err(Fault::Memory);
    };
    match image_desk(kept, &name, head, before) {
        Ok(desk) => Ok(desk),
        Err(Unread::Memory) => Err(Fault::Memory),
        Err(unread) => instead(kept, before, name, unread),
    }
}
