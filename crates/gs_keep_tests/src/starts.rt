// Starts of logs of a machine that has lines of its own, and of logs that have lines before them.
use crate::counting::{Begun, run_from, run_on};
use gs_keep::{Ended, ReplayFault, StartFault, StoreFault, Wrong};
use gs_keep_mark::{Ledger, is_mark};
use gs_shell_line::{EndedLine, EndedLines};
use std::alloc::{AllocError, Global};
use std::test::Fail;

/// No line of the machine's own is ever due.
const NEVER: u64 = u64::MAX;

/// A run over a log: how often a line of the machine's own is due, the lines that are sent, and their answers.
struct Run {
    every: u64,
    input: &'static [u8],
    answers: &'static [u8],
}

/// The first line of a log, how many bytes of the lines come at once, two runs over it, and what stands in it then, as `told` has it.
struct Row {
    head: &'static [u8],
    most: usize,
    first: Run,
    second: Run,
    log: &'static [u8],
}

const ROWS: [Row; 6] = [
    // A line of the machine's own stands behind those of the input that come together, before their mark. It isn't answered, and a start runs it.
    Row {
        head: b"0\n",
        most: 64,
        first: Run {
            every: 2,
            input: b"a\na\na\na\na\n",
            answers: b"1\n2\n3\n4\n5\n",
        },
        second: Run {
            every: 2,
            input: b"",
            answers: b"",
        },
        log: b"0\na\na\na\na\na\ntick\n# 06\n",
    },
    // So it is where they come one by one. A start comes to where the count stood: behind the next line one is due.
    Row {
        head: b"0\n",
        most: 2,
        first: Run {
            every: 2,
            input: b"a\na\nb\na\n",
            answers: b"1\n2\nrefused 34 BadLine\n3\n",
        },
        second: Run {
            every: 2,
            input: b"a\n",
            answers: b"4\n",
        },
        log: b"0\na\n# 01\na\ntick\n# 03\na\n# 04\na\ntick\n# 06\n",
    },
    // A log that lacks such lines gets one behind the first batch.
    Row {
        head: b"0\n",
        most: 64,
        first: Run {
            every: NEVER,
            input: b"a\na\na\n",
            answers: b"1\n2\n3\n",
        },
        second: Run {
            every: 2,
            input: b"a\n",
            answers: b"4\n",
        },
        log: b"0\na\na\na\n# 03\na\ntick\n# 05\n",
    },
    // So it does where nothing is sent.
    Row {
        head: b"0\n",
        most: 64,
        first: Run {
            every: NEVER,
            input: b"a\na\na\n",
            answers: b"1\n2\n3\n",
        },
        second: Run {
            every: 2,
            input: b"",
            answers: b"",
        },
        log: b"0\na\na\na\n# 03\ntick\n# 04\n",
    },
    // Marks count on from the lines before.
    Row {
        head: b"7\n",
        most: 64,
        first: Run {
            every: NEVER,
            input: b"a\na\n",
            answers: b"8\n9\n",
        },
        second: Run {
            every: NEVER,
            input: b"a\n",
            answers: b"10\n",
        },
        log: b"7\na\na\n# 09\na\n# 10\n",
    },
    // So do they where a start has nothing to run.
    Row {
        head: b"7\n",
        most: 2,
        first: Run {
            every: 1,
            input: b"",
            answers: b"",
        },
        second: Run {
            every: 1,
            input: b"a\n",
            answers: b"8\n",
        },
        log: b"7\na\ntick\n# 09\n",
    },
];

/// A log's lines, each mark as `# ` and the last two digits of its count.
fn told(alloc: Global, log: &[u8]) -> Result<Vec<u8>, Fail> {
    let mut left = EndedLines::new(log);
    let mut lines = Vec::new(alloc);
    for _ in 0..log.len() {
        match left.next(alloc)?.line {
            EndedLine::Text(line) if is_mark(&line) => {
                lines.extend_from_slice(b"# ")?;
                lines.extend_from_slice(line.get(20..22).unwrap_or(b"?"))?;
                lines.push(b'\n')?;
            }
            EndedLine::Text(line) => lines.extend_from_slice(&line)?,
            _ => return Ok(lines),
        }
    }
    Ok(lines)
}

/// The log that a run leaves, if it answers as it has to.
fn log_behind(alloc: Global, logged: &[u8], run: &Run, most: usize) -> Result<Vec<u8>, Fail> {
    let ran = run_from(alloc, logged, run.every, run.input, most)?;
    ran.outcome?;
    if ran.answers.as_slice() != run.answers {
        return Err(Fail::new("it answers otherwise"));
    }
    Ok(ran.log.left(0)?)
}

// A log is begun, and started again.
#[test]
fn a_start_goes_on_where_a_run_has_ended(rt: HostRuntime) -> Result<(), Fail> {
    let alloc = rt.alloc();
    for row in &ROWS {
        let first = log_behind(alloc, row.head, &row.first, row.most)?;
        let second = log_behind(alloc, &first, &row.second, row.most)?;
        let stands = told(alloc, &second)?;
        assert_eq!(rt; stands.as_slice(), row.log);
    }
    Ok(())
}

/// Puts 32 lines of the machine's own and their mark behind what a log is told to hold.
fn put_32(lines: &mut Vec<u8>, mark: &[u8]) -> Result<(), AllocError> {
    for _ in 0..32 {
        lines.extend_from_slice(b"tick\n")?;
    }
    lines.extend_from_slice(mark)
}

// Where a line of the machine's own stays due, 32 are run behind the lines that come together, 32 at the end of the input, and 32 by a start.
#[test]
fn no_more_than_32_lines_of_its_own_are_run_at_a_time(rt: HostRuntime) -> Result<(), Fail> {
    let alloc = rt.alloc();
    let ran = run_from(alloc, b"0\n", 0, b"a\na\n", 64)?;
    let Ended { machine, ledger } = ran.outcome?;
    assert_eq!(rt; machine.count, 2);
    assert_eq!(rt; ledger.lines(), 2 + 2 * 32);
    let log = ran.log.left(0)?;
    let again = run_from(alloc, &log, 0, b"", 64)?;
    let Ended { machine, ledger } = again.outcome?;
    assert_eq!(rt; machine.count, 2);
    assert_eq!(rt; ledger.lines(), 2 + 3 * 32);
    let mut lines = Vec::from_slice(alloc, b"0\na\na\n")?;
    put_32(&mut lines, b"# 34\n")?;
    put_32(&mut lines, b"# 66\n")?;
    assert_eq!(rt; told(alloc, &log)?, lines);
    put_32(&mut lines, b"# 98\n")?;
    assert_eq!(rt; told(alloc, &again.log.left(0)?)?, lines);
    Ok(())
}

// A first line that says that more lines are before, or less, is refused by the first mark.
#[test]
fn another_count_of_lines_before_is_refused(rt: HostRuntime) -> Result<(), Fail> {
    let alloc = rt.alloc();
    let mut log = run_from(alloc, b"7\n", NEVER, b"a\na\n", 64)?.log.left(0)?;
    for digit in [b'0', b'6', b'8'] {
        if let Some(first) = log.first_mut() {
            *first = digit;
        }
        let ran = run_from(alloc, &log, NEVER, b"a\n", 64)?;
        assert!(rt;
            matches!(
                ran.outcome,
                Err(StartFault::Run(StoreFault::Replay(ReplayFault::Mark(2, Wrong::Count))))
            )
        );
        assert!(rt; ran.answers.is_empty());
        assert_eq!(rt; ran.log.left(0)?, log);
    }
    Ok(())
}

// With what a start gives back more lines are served: the log and the answers are as if it had been started once more.
#[test]
fn what_a_start_gives_back_is_gone_on_with(rt: HostRuntime) -> Result<(), Fail> {
    let alloc = rt.alloc();
    for (head, every) in [(b"0\n", NEVER), (b"7\n", NEVER), (b"7\n", 2)] {
        let once = run_from(alloc, head, every, b"a\na\na\n", 64)?.log.left(0)?;
        let twice = run_from(alloc, &once, every, b"a\nb\na\n", 64)?;
        let served = run_on(alloc, head, every, b"a\na\na\n", b"a\nb\na\n")?;
        assert_eq!(rt; served.log.left(0)?, twice.log.left(0)?);
        assert!(rt; served.answers.ends_with(&twice.answers));
    }
    Ok(())
}

// What a start gives back tells of the log as it stands then.
#[test]
fn a_ledger_tells_of_all_that_a_log_holds(rt: HostRuntime) -> Result<(), Fail> {
    let alloc = rt.alloc();
    let log = run_from(alloc, b"7\n", NEVER, b"a\n", 64)?.log.left(0)?;
    let Begun { outcome, log, .. } = run_from(alloc, &log, NEVER, b"a\n", 64)?;
    let Ended { machine, ledger } = outcome?;
    assert_eq!(rt; machine.count, 9);
    assert_eq!(rt; ledger.lines(), 9);
    assert_eq!(rt; ledger.text()?, Ledger::of(&log.left(0)?, 0).text()?);
    assert_eq!(rt; ledger.answers()?, Ledger::of(b"8\n9\n", 0).text()?);
    Ok(())
}
