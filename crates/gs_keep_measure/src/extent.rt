// How much of a log is run again.
ghost use Rattle.std.specs.Prelude.{◌≡◌};
ghost use Rattle.gs_keep_measure.specs.Extent.{Extends, lines_again, run_again};

use crate::Measure;

/// The most bytes that a crash may leave after the last mark: above those of a batch with its mark, which has at most one line after a
/// mebibyte of lines.
pub const MOST_BEHIND: u64 = 4_194_304;

/// How much of a log is run again.
#[derive(Clone, Copy, Debug, PartialEq, Eq)]
pub struct Extent {
    /// The bytes that are run again, and those of the first line.
    pub whole: u64,
    /// How many lines these are, with the first line and the marks.
    pub lines: u64,
    /// The bytes after them.
    pub rest: u64,
}

/// Why a log isn't run again.
#[derive(Clone, Copy, Debug, PartialEq, Eq)]
pub enum ExtentFault {
    /// It was cut while it was measured.
    Shorter,
    /// So many bytes stand after what would be run again, and a crash leaves fewer.
    Unmarked(u64),
}

/// The bytes that are run again, and those of the first line.
fn run_again(is_second: bool, measure: Measure, head_len: u64) -> u64
    ensures { result ≡ run_again is_second measure head_len }
{
    if measure.marked > 0 {
        return measure.marked;
    }
    if is_second { head_len } else { measure.whole }
}

/// How many lines these are.
fn lines_again(is_second: bool, measure: Measure) -> u64
    ensures { result ≡ lines_again is_second measure }
{
    if measure.marked > 0 {
        return measure.marked_lines;
    }
    if is_second { 1 } else { measure.whole_lines }
}

/// How much of a log of so many bytes is run again, with a first line of `head_len` bytes: all up to the last mark. In a log of form 1, which isn't the second
/// form, these are all whole lines as long as it has no mark.
pub fn extent_of(
    is_second: bool,
    measure: Measure,
    head_len: u64,
    len: u64,
) -> Result<Extent, ExtentFault>
    ensures { Extends result is_second measure head_len len }
{
    let whole = run_again(is_second, measure, head_len);
    if len < whole {
        return Err(ExtentFault::Shorter);
    }
    let rest = len - whole;
    if rest > MOST_BEHIND {
        return Err(ExtentFault::Unmarked(rest));
    }
    Ok(Extent {
        whole,
        lines: lines_again(is_second, measure),
        rest,
    })
}
