ghost use Rattle.std.specs.Prelude.{◌≡◌, false, IfOk, is_some};

use crate::beside::{before_name, new_name};
use crate::drawing::drawn_name;
use crate::fault::Fault;
use crate::loading::{Kept, begun_desk, new_desk};
use crate::memory_desk::MemoryDesk;
use gs_base::Config;
use gs_keep::{FirstLineFault, Made, Making, Source, Standing, StandingFault, found_in};
use gs_keep_file::{FirstText, Opened, Standing as Stands, make, open, open_to_read, what_stands};
use gs_keep_head::{Form, HeadFault, HeadLine, LogName, head, read_head};
use gs_keep_mark::is_mark;
use gs_keep_measure::Extent;
use gs_keep_options::{Asked, Sizes};
use gs_shell_line::{EndedLine, EndedLines, Line, content_of, next_line};
use std::alloc::{AllocError, Global};
use std::fs::File;
use std::io::{self, BufReader, ErrorKind, Read, Seek, SeekFrom, Take};
use std::rt::{Clock, Files};

/// The bytes of the file that are read at a time.
const FILE_BYTES: usize = 65_536;

/// What the beginning of each first line is.
const HEAD_WORD: &[u8] = b"chunkkeep ";

/// What a store's file is read from. Its position is its own.
#[derive(Drop)]
pub(crate) struct FileSource {
    file: File,
}

impl FileSource {
    pub(crate) fn new(file: File) -> FileSource {
        FileSource { file }
    }
}

impl Source for FileSource {
    ghost use Rattle.std.specs.Prelude.{None};

    type Reader = BufReader<Take<File>>;

    ghost bytes = { λ source. None };

    fn len(&mut self) -> io::Result<u64> {
        self.file.seek(SeekFrom::End(0))
    }

    fn part(&mut self, alloc: Global, from: u64, to: u64) -> io::Result<BufReader<Take<File>>> {
        self.file.seek(SeekFrom::Start(from))?;
        let part = self.file.try_clone()?.take(to.saturating_sub(from));
        BufReader::with_capacity(alloc, FILE_BYTES, part)
    }
}

/// What makes a desk by the first line of a file, if that is one of a store of the sizes that are asked for.
#[derive(Drop)]
pub(crate) struct Opener<'a, R> {
    sizes: Sizes,
    kept: Kept<'a, R>,
}

impl<'a, R> Opener<'a, R> {
    pub(crate) fn new(rt: &'a R, asked: &'a Asked) -> Opener<'a, R> {
        Opener {
            sizes: asked.sizes,
            kept: Kept {
                rt,
                path: asked.path.as_str(),
                is_lab: asked.mode.is_lab,
            },
        }
    }
}

impl<R: Files<File = File> + Eprint + Clock + AllocGlobal> Making for Opener<'_, R> {
    type Machine = MemoryDesk;

    type Fault = Fault;

    ghost Begins = { λ opener head is_second before desk. Unit {0} };

    ghost Refuses = { λ opener head fault. Unit {0} };

    fn make(&self, alloc: Global, line: &[u8]) -> Result<Made<MemoryDesk>, Fault> {
        let head = head_of(alloc, line)?;
        compare(&self.sizes, &head.config)?;
        let Form::Three(before) = head.form else {
            return new_desk(alloc, &head, self.kept.is_lab);
        };
        Ok(Made {
            machine: begun_desk(&self.kept, &head, &before)?,
            is_second: true,
            before: before.lines,
        })
    }
}

/// Refuses sizes that are asked for and aren't the store's.
fn compare(sizes: &Sizes, config: &Config) -> Result<(), Fault> {
    match sizes.difference(config) {
        Some(difference) => Err(Fault::Differs {
            name: difference.name,
            size: difference.size,
        }),
        None => Ok(()),
    }
}

/// What a first line says.
pub(crate) fn head_of(alloc: Global, line: &[u8]) -> Result<HeadLine, Fault> {
    match read_head(alloc, content_of(line)) {
        Ok(head) => Ok(head),
        Err(HeadFault::Memory) => Err(Fault::Memory),
        Err(HeadFault::Version) => Err(Fault::OtherVersion),
        Err(HeadFault::Other) => Err(Fault::Other),
    }
}

/// The first line of a log that has a name, with its end.
fn head_line(alloc: Global, config: &Config, name: LogName) -> Result<String, AllocError> {
    let mut text = head(alloc, Form::Two, config, Some(name))?;
    text.push('\n')?;
    Ok(text)
}

/// The first line of a log. What stands after a text of it may be another one in each run.
pub(crate) fn first_text<'a>(line: &'a str, text: &str) -> FirstText<'a> {
    let at = match line.find(text) {
        Some(at) => at.saturating_add(text.len()),
        None => line.len(),
    };
    let (fixed, drawn) = line.as_bytes().split_at(at.min(line.len()));
    FirstText { fixed, drawn }
}

/// What the first line of a file says, and how many bytes it has.
#[derive(Clone, Copy)]
pub(crate) struct FirstLine {
    pub(crate) head: HeadLine,
    pub(crate) len: u64,
}

/// The first line of a file, if it is one and can be read. A start says why not.
pub(crate) fn first_line(alloc: Global, source: &mut FileSource) -> Option<FirstLine> {
    let part = source.part(alloc, 0, u64::MAX).ok()?;
    let next = EndedLines::new(part).next(alloc).ok()?;
    match next.line {
        EndedLine::Text(line) => Some(FirstLine {
            head: head_of(alloc, &line).ok()?,
            len: line.len() as u64,
        }),
        _ => None,
    }
}

/// Why a file in which no line ends is refused.
fn unfinished(alloc: Global, source: &mut FileSource) -> Fault {
    let mut lines = match source.part(alloc, 0, u64::MAX) {
        Ok(lines) => lines,
        Err(error) => return Fault::of_read(error),
    };
    match next_line(alloc, &mut lines) {
        Ok(next) => match next.line {
            Line::End => Fault::Empty,
            Line::Text(left) if HEAD_WORD.starts_with(&left) || left.starts_with(HEAD_WORD) => {
                Fault::Unfinished
            }
            Line::NoMemory => Fault::Memory,
            _ => Fault::Other,
        },
        Err(error) => Fault::Read(error),
    }
}

/// Why nothing of a file is run again.
pub(crate) fn why_unrun(
    alloc: Global,
    source: &mut FileSource,
    fault: StandingFault<Fault>,
) -> Fault {
    match fault {
        StandingFault::FirstLine(FirstLineFault::NoLine) => unfinished(alloc, source),
        fault => Fault::of_standing(fault),
    }
}

/// How many bytes the first lines of a file have, so many.
fn first_lines(
    alloc: Global,
    source: &mut FileSource,
    extent: Extent,
    count: u64,
) -> Result<u64, Fault> {
    if count == 0 || count > extent.lines {
        return Err(Fault::NoLine(extent.lines, count));
    }
    let part = source.part(alloc, 0, extent.whole).map_err(Fault::of_read)?;
    let mut lines = EndedLines::new(part);
    let mut len: u64 = 0;
    for _ in 0..count {
        match lines.next(alloc).map_err(Fault::Read)?.line {
            EndedLine::Text(line) => len = len.saturating_add(line.len() as u64),
            EndedLine::NoMemory => return Err(Fault::Memory),
            _ => return Err(Fault::Shorter),
        }
    }
    Ok(len)
}

/// How many bytes a file has up to a line, which is counted as marks count lines: none of them is one, and `before` stand before the file.
fn counted_lines(
    alloc: Global,
    source: &mut FileSource,
    extent: Extent,
    before: u64,
    count: u64,
) -> Result<u64, Fault> {
    let part = source.part(alloc, 0, extent.whole).map_err(Fault::of_read)?;
    let mut lines = EndedLines::new(part);
    let mut len: u64 = 0;
    let mut at = before;
    for number in 0..extent.lines {
        let EndedLine::Text(line) = lines.next(alloc).map_err(Fault::Read)?.line else {
            return Err(Fault::Shorter);
        };
        let is_counted = number > 0 && !is_mark(&line);
        if is_counted && at == count {
            return Ok(len);
        }
        at = at.saturating_add(u64::from(is_counted));
        len = len.saturating_add(line.len() as u64);
    }
    if at == count {
        return Ok(len);
    }
    Err(Fault::NoLine(at, count))
}

/// How many bytes a file has up to a line. In a file that begins from an image lines are counted as its marks count them.
fn len_up_to(
    alloc: Global,
    source: &mut FileSource,
    extent: Extent,
    line: UpTo<'_>,
) -> Result<u64, Fault> {
    let Form::Three(before) = line.form else {
        return first_lines(alloc, source, extent, line.count);
    };
    if line.count < before.lines {
        return match before_name(alloc, line.path, before.image) {
            Ok(name) => Err(Fault::BeforeImage {
                line: line.count,
                name,
            }),
            Err(_) => Err(Fault::Memory),
        };
    }
    counted_lines(alloc, source, extent, before.lines, line.count)
}

/// A line up to which a file is read.
#[derive(Clone, Copy)]
struct UpTo<'a> {
    path: &'a str,
    form: Form,
    count: u64,
}

/// What a file holds, and what is run again of it.
#[derive(Drop)]
pub(crate) struct Held {
    pub(crate) standing: Standing<MemoryDesk>,
    /// What its first line says.
    pub(crate) head: HeadLine,
    pub(crate) lines: EndedLines<BufReader<Take<File>>>,
}

/// Reads what a file holds, as a start does. With `upto` it is read up to that line alone.
fn held_by<R: Files<File = File> + Eprint + Clock + AllocGlobal>(
    rt: &R,
    file: File,
    asked: &Asked,
    upto: Option<u64>,
) -> Result<Held, Fault> {
    let alloc = rt.alloc();
    let mut source = FileSource::new(file);
    let standing = match found_in(alloc, &mut source, &Opener::new(rt, asked)) {
        Ok(standing) => standing,
        Err(fault) => return Err(why_unrun(alloc, &mut source, fault)),
    };
    let head = head_of(alloc, &standing.head)?;
    let len = match upto {
        Some(count) => {
            let line = UpTo {
                path: asked.path.as_str(),
                form: head.form,
                count,
            };
            len_up_to(alloc, &mut source, standing.extent, line)?
        }
        None => standing.extent.whole,
    };
    let part = source
        .part(alloc, standing.head.len() as u64, len)
        .map_err(Fault::of_read)?;
    Ok(Held {
        head,
        standing,
        lines: EndedLines::new(part),
    })
}

/// Makes the file of a new store where nothing stands.
fn made<'a, R: Files<File = File> + AllocGlobal>(
    rt: &'a R,
    asked: &'a Asked,
    beside: &str,
) -> Result<Opened<'a, R>, Fault>
    ensures { IfOk result (λ opened. is_some opened.log.fault ≡ false) }
{
    if asked.is_existing {
        return Err(Fault::NotThere);
    }
    let Ok(config) = asked.sizes.config() else {
        return Err(Fault::NoStore);
    };
    let name = match drawn_name(rt) {
        Ok(name) => name,
        Err(error) => return Err(Fault::Name(error)),
    };
    let Ok(line) = head_line(rt.alloc(), &config, name) else {
        return Err(Fault::Memory);
    };
    match make(rt, &asked.path, beside, &first_text(&line, " name ")) {
        Ok(opened) => Ok(opened),
        Err(fault) => Err(Fault::Opening(fault)),
    }
}

/// Opens the file of a store that stands there.
fn existing<'a, R: Files<File = File>>(
    rt: &'a R,
    asked: &'a Asked,
    beside: &str,
) -> Result<Opened<'a, R>, Fault>
    ensures { IfOk result (λ opened. is_some opened.log.fault ≡ false) }
{
    match open(rt, &asked.path, beside) {
        Ok(opened) => Ok(opened),
        Err(fault) => Err(Fault::Opening(fault)),
    }
}

/// Opens the file that is asked for, or makes it. It is locked.
pub(crate) fn opened<'a, R: Files<File = File> + AllocGlobal>(
    rt: &'a R,
    asked: &'a Asked,
) -> Result<Opened<'a, R>, Fault>
    ensures { IfOk result (λ opened. is_some opened.log.fault ≡ false) }
{
    let Ok(beside) = new_name(rt.alloc(), &asked.path) else {
        return Err(Fault::Memory);
    };
    match what_stands(rt, &asked.path) {
        Ok(Stands::Nothing) => made(rt, asked, &beside),
        Ok(Stands::Dangling) => Err(Fault::Dangling),
        Ok(Stands::Something) => existing(rt, asked, &beside),
        Err(error) => Err(Fault::Open(error)),
    }
}

/// Refuses a name under which no file stands.
pub(crate) fn need_file<R: Files>(rt: &R, path: &str) -> Result<(), Fault> {
    match what_stands(rt, path) {
        Ok(Stands::Nothing) => Err(Fault::Absent),
        Ok(Stands::Dangling) => Err(Fault::Dangling),
        Ok(Stands::Something) => Ok(()),
        Err(error) => Err(Fault::Open(error)),
    }
}

/// Opens the file that is asked for to read it alone, locked for that or not, and reads what it holds, or what it holds up to a line.
pub(crate) fn looked_at<R: Files<File = File> + Eprint + Clock + AllocGlobal>(
    rt: &R,
    asked: &Asked,
    is_shared: bool,
    upto: Option<u64>,
) -> Result<Held, Fault> {
    need_file(rt, &asked.path)?;
    match open_to_read(rt, &asked.path, is_shared) {
        Ok(reader) => held_by(rt, reader, asked, upto),
        Err(fault) => Err(Fault::Opening(fault)),
    }
}
