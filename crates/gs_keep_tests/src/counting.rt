// A machine that counts, which has lines of its own, and a log in memory that it is kept in.
ghost use Rattle.std.specs.Prelude.{◌≡◌, List, ℕ};
ghost use Rattle.gs_keep_tests.specs.Counting.{is_counted};

use crate::plain::{NO_FAULT, Nobody};
use gs_base::Refusal;
use gs_keep::{
    Answers, Aside, Ended, Keeping, Made, Making, Rest, Source, StartFault, serve, start,
};
use gs_keep_log::{Failed, MemoryLog};
use gs_shell_line::EndedLines;
use gs_shell_script::Answering;
use std::alloc::{AllocError, Global};
use std::io::{self, BufReader};
use std::test::Fail;

/// A machine that counts lines which begin with `a`: the answer is how many there were, in this log and before it. Once so many were counted
/// since the last line of its own one is due, which begins with `t`.
#[derive(Drop)]
pub(crate) struct Counter {
    pub(crate) count: u64,
    since: u64,
    every: u64,
}

/// Whether a line may change it.
fn is_counted(line: &[u8]) -> bool
    ensures { result ≡ is_counted line.now }
{
    line.first() == Some(&b'a') || line.first() == Some(&b't')
}

impl Answering for Counter {
    ghost use Rattle.gs_keep_tests.specs.Counting.{MayAnswer};

    ghost Answers = { λ old line text new. MayAnswer old line text new };

    fn answer(&mut self, alloc: Global, line: &[u8]) -> Result<String, AllocError> {
        if !is_counted(line) {
            return Refusal::BadLine.line(alloc);
        }
        if line.first() == Some(&b't') {
            self.since = 0;
            return String::from_str(alloc, "ok");
        }
        self.count = self.count.saturating_add(1);
        self.since = self.since.saturating_add(1);
        let count = self.count;
        format!(in alloc; "{count}")
    }
}

impl Keeping for Counter {
    ghost use Rattle.std.specs.Prelude.{false};
    ghost use Rattle.gs_keep_tests.specs.Counting.{changes_nothing, due_line, is_counted, is_refused, marks_are_none, own_lines_stand};

    ghost is_kept = { is_counted };

    ghost is_turned_away = { λ counter line. false };

    ghost own = { λ counter. due_line counter.every counter.since };

    ghost own_lines_stand = { λ counter line due. own_lines_stand counter counter.every counter.since line due };

    ghost changes_nothing = { λ old new line text. changes_nothing old new line text };

    ghost is_refused = { λ old new line text. is_refused old new line text };

    ghost marks_are_none = { λ line. marks_are_none line };

    fn keeps(&self, _alloc: Global, line: &[u8]) -> Result<bool, AllocError> {
        Ok(is_counted(line))
    }

    fn turns_away(&self, _alloc: Global, _line: &[u8]) -> Result<bool, AllocError> {
        Ok(false)
    }

    fn own_line(&self) -> Option<&'static [u8]> {
        if self.every <= self.since {
            Some(b"tick\n")
        } else {
            None
        }
    }
}

/// Makes a machine for a log whose first line is a digit: how many lines the logs before have.
#[derive(Clone, Copy)]
struct Counting {
    every: u64,
}

impl Making for Counting {
    ghost use Rattle.std.specs.Prelude.{◌≡◌};

    type Machine = Counter;

    type Fault = Refusal;

    ghost Begins = { λ counting head is_second before counter. counter.count ≡ before };

    ghost Refuses = { λ counting head fault. Unit {0} };

    fn make(&self, _alloc: Global, head: &[u8]) -> Result<Made<Counter>, Refusal> {
        let before = match head.first() {
            Some(digit @ b'0'..=b'9') => (*digit - b'0') as u64,
            _ => return Err(Refusal::BadLine),
        };
        Ok(Made {
            machine: Counter {
                count: before,
                since: 0,
                every: self.every,
            },
            is_second: true,
            before,
        })
    }
}

/// What a log in memory is read from.
#[derive(Clone, Copy)]
struct Text<'a> {
    bytes: &'a [u8],
}

impl<'a> Source for Text<'a> {
    ghost use Rattle.std.specs.Prelude.{Some};

    type Reader = &'a [u8];

    ghost bytes = { λ text. Some text.bytes.now };

    fn len(&mut self) -> io::Result<u64> {
        Ok(self.bytes.len() as u64)
    }

    fn part(&mut self, _alloc: Global, from: u64, to: u64) -> io::Result<&'a [u8]> {
        let front = match self.bytes.get(..to as usize) {
            Some(front) => front,
            None => self.bytes,
        };
        match front.get(from as usize..) {
            Some(part) => Ok(part),
            None => Ok(&[]),
        }
    }
}

/// What stands in a log after what is run again.
#[derive(Drop)]
struct Held {
    bytes: Vec<u8>,
}

impl Rest for Held {
    ghost use Rattle.std.specs.Prelude.{false};

    ghost bytes = { λ rest. rest.bytes.items };

    ghost is_alone = { λ rest. false };

    fn put_aside(&mut self) -> Result<(), Failed> {
        Ok(())
    }
}

impl Aside for Held {
    fn hold(&mut self, bytes: Vec<u8>) {
        self.bytes = bytes;
    }
}

/// What a start of a log comes to, what it answers, and the log then.
#[derive(Drop)]
pub(crate) struct Begun {
    pub(crate) outcome: Result<Ended<Counter>, StartFault<Refusal>>,
    pub(crate) answers: Vec<u8>,
    pub(crate) log: MemoryLog,
}

/// Starts a log, with a line of the machine's own due for each so many lines, and answers an input of which so many bytes come at once.
pub(crate) fn run_from(
    alloc: Global,
    logged: &[u8],
    every: u64,
    input: &[u8],
    most: usize,
) -> Result<Begun, Fail> {
    let mut log = MemoryLog::new(alloc, Vec::from_slice(alloc, logged)?, NO_FAULT);
    let mut aside = Held {
        bytes: Vec::new(alloc),
    };
    let reader = BufReader::with_capacity(alloc, most, input)?;
    let mut answers = Vec::new(alloc);
    let outcome = start(
        alloc,
        &mut log,
        &mut Text { bytes: logged },
        &Counting { every },
        &mut aside,
        &mut Nobody,
        &mut EndedLines::new(reader),
        &mut Answers::new(&mut answers),
    );
    Ok(Begun {
        outcome,
        answers,
        log,
    })
}

/// What is answered to two inputs, and the log then.
#[derive(Drop)]
pub(crate) struct Served {
    pub(crate) answers: Vec<u8>,
    pub(crate) log: MemoryLog,
}

/// Starts a log, and answers a second input with what the start gives back.
pub(crate) fn run_on(
    alloc: Global,
    logged: &[u8],
    every: u64,
    first: &[u8],
    second: &[u8],
) -> Result<Served, Fail> {
    let mut log = MemoryLog::new(alloc, Vec::from_slice(alloc, logged)?, NO_FAULT);
    let mut aside = Held {
        bytes: Vec::new(alloc),
    };
    let mut answers = Vec::new(alloc);
    let mut writer = Answers::new(&mut answers);
    let Ended {
        mut machine,
        mut ledger,
    } = start(
        alloc,
        &mut log,
        &mut Text { bytes: logged },
        &Counting { every },
        &mut aside,
        &mut Nobody,
        &mut EndedLines::new(first),
        &mut writer,
    )?;
    serve(
        alloc,
        &mut machine,
        &mut log,
        &mut ledger,
        &mut EndedLines::new(second),
        &mut writer,
    )?;
    Ok(Served { answers, log })
}
