use crate::plain::{NO_FAULT, Nobody};
use gs_base::{Config, Refusal};
use gs_keep::{Answers, First, Rest, keep_on};
use gs_keep_desk::KeptDesk;
use gs_keep_log::{Failed, Fault, MemoryLog};
use gs_keep_mark::is_mark;
use gs_keep_measure::measure_all;
use gs_nodes::empty_disks;
use gs_shell_desk::Desk;
use gs_shell_line::{EndedLine, EndedLines};
use std::alloc::{AllocError, Global};
use std::io::{self, BufReader};
use std::test::Fail;

/// A script, and what a store answers to it.
#[derive(Clone, Copy)]
struct Told<'a> {
    script: &'a [u8],
    answers: &'a [u8],
}

const SHORT: Told<'static> = Told {
    script: b"mkdir /a\ncreate /a/f\nappend /a/f 6162\nrollingUpgrade prepare\nappend /a/f 63\nread /a/f 0 9\nrollingUpgrade rollback\nread /a/f 0 9\n",
    answers: b"ok\nok\nok 0\nok 1\nok 2\nok 616263\nok 2\nok 6162\n",
};

/// What may stand in place of what wasn't synced.
const GARBAGE: &[u8] =
    b"mkdir /other\nrm -r /a\nappend /a/f 6162\nno line\nrollingUpgrade finalize\nmkdir /another\nrm -r /a\nappend /a/f 6162\nno line\nat 7\n";

const ZEROS: &[u8] = &[0; 256];

/// The lines of a long script.
const LINES: u64 = 10_000;

/// The places where its log is cut.
const PLACES: usize = 200;

/// The parts that what isn't synced is left in.
const PARTS: usize = 11;

/// Nothing stands after what is run again.
#[derive(Drop)]
struct NoRest;

impl Rest for NoRest {
    ghost use Rattle.std.specs.Prelude.{[], false};

    ghost bytes = { λ rest. [] };

    ghost is_alone = { λ rest. false };

    fn put_aside(&mut self) -> Result<(), Failed> {
        Ok(())
    }
}

/// What a run answered, and its log.
#[derive(Drop)]
struct Ran {
    answers: Vec<u8>,
    log: MemoryLog,
}

/// Goes on from a log that ends with a mark, with lines of which so many bytes come at once.
fn kept_on(
    alloc: Global,
    logged: &[u8],
    input: &[u8],
    most: usize,
    fault: Fault,
) -> Result<Ran, Fail> {
    let config = Config::new(3, 1, 3, 4, 16)?;
    let mut desk = match Desk::new(alloc, config, empty_disks(alloc)) {
        Ok(desk) => KeptDesk::new(desk, false),
        Err(unopened) => return Err(Fail::from(unopened.refusal)),
    };
    let mut log = MemoryLog::new(alloc, Vec::from_slice(alloc, logged)?, fault);
    let mut lines = EndedLines::new(logged);
    let reader = BufReader::with_capacity(alloc, most, input)?;
    let mut answers = Vec::new(alloc);
    let len = logged.len() as u64;
    let _ = keep_on(
        alloc,
        &mut desk,
        &mut log,
        First {
            head: b"",
            before: 0,
        },
        len,
        &mut lines,
        &mut NoRest,
        &mut Nobody,
        &mut EndedLines::new(reader),
        &mut Answers::new(&mut answers),
    );
    Ok(Ran { answers, log })
}

/// How many lines end in a text.
fn lines_in(text: &[u8]) -> usize {
    text.iter().filter(|byte| **byte == b'\n').count()
}

/// The lines of a log without its marks.
fn unmarked(alloc: Global, log: &[u8]) -> Result<Vec<u8>, Fail> {
    let mut left = EndedLines::new(log);
    let mut lines = Vec::new(alloc);
    for _ in 0..log.len() {
        match left.next(alloc)?.line {
            EndedLine::Text(line) if is_mark(&line) => {}
            EndedLine::Text(line) => lines.extend_from_slice(&line)?,
            _ => return Ok(lines),
        }
    }
    Ok(lines)
}

/// What is wrong where a crash leaves this of a log, once so much was answered.
fn fault_behind(
    alloc: Global,
    told: Told<'_>,
    left: &[u8],
    answered: &[u8],
) -> Result<&'static str, Fail> {
    let Ok(measure) = measure_all(alloc, &mut EndedLines::new(left)) else {
        return Ok("the log can't be measured");
    };
    let Some(logged) = left.get(..measure.marked as usize) else {
        return Ok("the log is measured wrongly");
    };
    let lines = unmarked(alloc, logged)?;
    if !told.script.starts_with(&lines) || !told.answers.starts_with(answered) {
        return Ok("the log or the answers differ");
    }
    if lines_in(&lines) < lines_in(answered) {
        return Ok("a line was answered that a start doesn't run");
    }
    let Some(rest) = told.script.get(lines.len()..) else {
        return Ok("the log has more than the script");
    };
    let again = kept_on(alloc, logged, rest, 64, NO_FAULT)?;
    if !told.answers.ends_with(&again.answers)
        || lines_in(&lines).saturating_add(lines_in(&again.answers)) != lines_in(told.answers)
    {
        return Ok("it doesn't go on as if nothing had been");
    }
    Ok("")
}

/// What is wrong where a call of the log fails, whatever a crash leaves then.
fn fault_at(alloc: Global, most: usize, fault: Fault) -> Result<&'static str, Fail> {
    let ran = kept_on(alloc, b"", SHORT.script, most, fault)?;
    for part in 0..=PARTS {
        let count = ran.log.unsynced().saturating_mul(part) / PARTS;
        for left in [
            ran.log.left(count)?,
            ran.log.left_with(GARBAGE.get(..count).unwrap_or(GARBAGE))?,
            ran.log.left_with(ZEROS.get(..count).unwrap_or(ZEROS))?,
        ] {
            let wrong = fault_behind(alloc, SHORT, &left, &ran.answers)?;
            if !wrong.is_empty() {
                return Ok(wrong);
            }
        }
    }
    Ok("")
}

/// How many of the lines are answered where that many calls of the log pass.
fn answered_behind(alloc: Global, most: usize, calls: u64) -> Result<usize, Fail> {
    let ran = kept_on(alloc, b"", SHORT.script, most, Fault { calls, count: 0 })?;
    Ok(lines_in(&ran.answers))
}

// The lines come one by one, some at a time, and all at once. Each append and each sync fails, with nothing of it done, some or all, and a
// crash leaves some lengths of what isn't synced, as it was written or otherwise. There are just so many calls: one less, and lines aren't answered.
#[test]
fn each_crash_is_gone_on_from(rt: HostRuntime) -> Result<(), Fail> {
    let lines = lines_in(SHORT.answers);
    for (most, calls) in [(8, 17), (40, 9), (1_000, 3)] {
        assert_eq!(rt; answered_behind(rt.alloc(), most, calls)?, lines, "{most}");
        assert!(rt;
            answered_behind(rt.alloc(), most, calls - 1)? < lines,
            "{most}"
        );
        for calls in 0..calls {
            for count in [0, 7, usize::MAX] {
                let fault = Fault { calls, count };
                assert_eq!(rt;
                    fault_at(rt.alloc(), most, fault)?,
                    "",
                    "{most} {calls} {count}"
                );
            }
        }
    }
    Ok(())
}

// A line that harms the store isn't taken, and isn't logged. One that has all nodes tick is.
#[test]
fn a_line_that_harms_is_turned_away(rt: HostRuntime) -> Result<(), Fail> {
    let ran = kept_on(
        rt.alloc(),
        b"",
        b"restart master\ntick\nmkdir /a\n",
        64,
        NO_FAULT,
    )?;
    assert!(rt; ran.answers.starts_with(b"refused 39 NeedsLab\nok\nok\n"));
    let log = ran.log.left(0)?;
    assert!(rt; unmarked(rt.alloc(), &log)?.starts_with(b"tick\nmkdir /a\n"));
    Ok(())
}

/// A line of a long script: files of a directory, some of which get bytes, are read or moved, upgrades that are rolled back, and
/// between them moments, which cost least.
fn long_line(alloc: Global, number: u64) -> Result<String, AllocError> {
    let file = number / 100 * 100 + 11;
    match (number % 2_500, number % 100) {
        (0, _) => format!(in alloc; "mkdir /a\n"),
        (1_000, _) => format!(in alloc; "rollingUpgrade prepare\n"),
        (2_000, _) => format!(in alloc; "rollingUpgrade rollback\n"),
        (_, 11 | 31 | 51) => format!(in alloc; "create /a/{number}\n"),
        (_, 13) => format!(in alloc; "append /a/{file} 6162\n"),
        (_, 15) => format!(in alloc; "read /a/{file} 0 9\n"),
        (_, 17) => format!(in alloc; "mv /a/{file} /a/m{file}\n"),
        _ => format!(in alloc; "at {number}\n"),
    }
}

fn long_script(alloc: Global) -> Result<Vec<u8>, AllocError> {
    let mut script = Vec::new(alloc);
    for number in 0..LINES {
        script.extend_from_slice(long_line(alloc, number)?.as_bytes())?;
    }
    Ok(script)
}

/// How many of the bytes are left where they are cut at a place, within a line or not.
fn cut_at(bytes: &[u8], place: usize) -> usize {
    (bytes.len() / PLACES)
        .saturating_mul(place)
        .saturating_add(place)
}

// A log of 10,000 lines is cut at each of 200 places, opened again and gone on with.
#[test]
fn a_long_log_is_gone_on_from_wherever_it_is_cut(rt: HostRuntime) -> Result<(), Fail> {
    let script = long_script(rt.alloc())?;
    let ran = kept_on(rt.alloc(), b"", &script, 4_096, NO_FAULT)?;
    let log = ran.log.left(0)?;
    let told = Told {
        script: &script,
        answers: &ran.answers,
    };
    assert_eq!(rt; lines_in(told.answers) as u64, LINES);
    assert_eq!(rt; unmarked(rt.alloc(), &log)?.len(), script.len());
    for place in 0..PLACES {
        let left = log.get(..cut_at(&log, place)).unwrap_or(&log);
        assert_eq!(rt; fault_behind(rt.alloc(), told, left, b"")?, "", "{place}");
    }
    Ok(())
}
