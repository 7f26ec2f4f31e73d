// What stands in a log after what is run again.
ghost use Rattle.std.specs.Prelude.{◌≡◌, ◌≤◌, ◌+◌, ◌-◌, true, length, take, drop};
ghost use Rattle.std.specs.List.{list_all, list_any};
ghost use Rattle.std.specs.Io.BufRead.{drop_through, take_through};
ghost use Rattle.gs_shell_script.specs.Run.{lines_of};
ghost use Rattle.gs_keep_measure.specs.Measure.{is_nearly_mark};
ghost use Rattle.gs_keep_measure.specs.Tail.{begins_mark, early_from, is_returned, last_bytes, line_len, tail_fault};

use crate::{Measure, is_nearly_mark};
use gs_shell_line::content_of;

/// Why what stands after the last mark isn't what a crash leaves.
#[derive(Clone, Copy, Debug, PartialEq, Eq)]
pub enum TailFault {
    /// Lines that were written otherwise end with a `\r` and a `\n`, marks too.
    Returns,
    /// The line after so many of it begins as a mark, and others stand after it.
    Mark(u64),
    /// It ends with what is a mark but for one byte.
    Damaged,
    /// In a log that has no mark yet a line is longer than a line may be.
    Long,
}

/// The length up to and with the first `\n`, or the whole length.
fn line_len(bytes: &[u8]) -> usize
    ensures value { result ≡ line_len bytes.now }
    ensures bound { result ≤ length bytes.now }
{
    let mut rest = bytes;
    let mut count = 0;
    while let Some((first, more)) = rest.split_first() {
        count += 1;
        if *first == b'\n' {
            return count;
        }
        rest = more;
    }
    count
}

/// A line with its end, and what stands after it.
#[derive(Clone, Copy)]
struct Divided<'a> {
    line: &'a [u8],
    rest: &'a [u8],
}

/// The first line, and what stands after it.
fn next_line(bytes: &[u8]) -> Divided<'_>
    ensures line { result.line.now ≡ take_through 10 bytes.now }
    ensures rest { result.rest.now ≡ drop_through 10 bytes.now }
{
    let (line, rest) = bytes.split_at(line_len(bytes));
    Divided { line, rest }
}

/// Whether a line ends with a `\r` and a `\n`.
fn is_returned(line: &[u8]) -> bool
    ensures { result ≡ is_returned line.now }
{
    content_of(line).len() + 2 == line.len()
}

/// Whether a line begins as a mark: by a `#`, a space and a digit.
fn begins_mark(line: &[u8]) -> bool
    ensures { result ≡ begins_mark line.now }
{
    line.len() > 2 && line[0] == b'#' && line[1] == b' ' && line[2] >= b'0' && line[2] <= b'9'
}

/// Whether each line ends with a `\r` and a `\n`.
fn all_returned(bytes: &[u8]) -> bool
    ensures { result ≡ list_all is_returned (lines_of bytes.now) }
{
    let mut rest = bytes;
    while !rest.is_empty() {
        let next = next_line(rest);
        if !is_returned(next.line) {
            return false;
        }
        rest = next.rest;
    }
    true
}

/// Whether a line begins as a mark.
fn has_mark(bytes: &[u8]) -> bool
    ensures { result ≡ list_any begins_mark (lines_of bytes.now) }
{
    let mut rest = bytes;
    while !rest.is_empty() {
        let next = next_line(rest);
        if begins_mark(next.line) {
            return true;
        }
        rest = next.rest;
    }
    false
}

/// How many lines stand before the first that begins as a mark and isn't the last one, if there is such a line.
fn early_mark(bytes: &[u8]) -> Option<u64>
    ensures { result ≡ early_from 0 (lines_of bytes.now) }
{
    let mut rest = bytes;
    for count in 0..bytes.len() {
        let next = next_line(rest);
        if next.rest.is_empty() {
            return None;
        }
        if begins_mark(next.line) {
            return Some(count as u64);
        }
        rest = next.rest;
    }
    None
}

/// As many bytes as a mark has, of the last ones, or all of them.
fn last_bytes(bytes: &[u8]) -> &[u8]
    ensures { result.now ≡ last_bytes bytes.now }
{
    &bytes[bytes.len().saturating_sub(153)..]
}

/// Why what stands in a log after what is run again isn't what a crash leaves of a batch that waited for its sync. `head` is the first line of
/// the log with its end.
pub fn tail_fault(is_second: bool, measure: Measure, head: &[u8], tail: &[u8]) -> Option<TailFault>
    ensures { result ≡ tail_fault is_second measure head.now tail.now }
{
    if is_second && is_returned(head) {
        return Some(TailFault::Returns);
    }
    if all_returned(tail) && has_mark(tail) {
        return Some(TailFault::Returns);
    }
    if let Some(count) = early_mark(tail) {
        return Some(TailFault::Mark(count));
    }
    if is_nearly_mark(last_bytes(tail)) {
        return Some(TailFault::Damaged);
    }
    if !is_second && measure.marked == 0 && tail.contains(&b'\n') {
        return Some(TailFault::Long);
    }
    None
}
