// When a kept store has its nodes tick by a line of its own.
ghost use Rattle.std.specs.Prelude.{◌≡◌, ◌+◌, ℕ, length};
ghost use Rattle.gs_keep_desk.specs.Ticks.{bytes_of_a_line, is_passed_over, since_tick, up_to_due};

/// So many bytes of lines behind a tick the next one is due.
pub(crate) const BYTES_BETWEEN_TICKS: u64 = 67_108_864;

/// What a line counts beside its bytes.
const BYTES_OF_A_LINE: u64 = 256;

/// The line that has all nodes tick, without its end.
const TICK: &[u8] = b"tick";

/// The answer to a line that is none of the grammar.
const BAD_LINE: &[u8] = b"refused 34 BadLine";

/// The answer to a line for which memory is lacking.
const LACKING: &[u8] = b"refused 33 Memory";

/// Whether a line with this answer counts for nothing: it is none of the grammar, or memory was lacking for it.
fn is_passed_over(text: &[u8]) -> bool
    ensures { result ≡ is_passed_over text.now }
{
    text == BAD_LINE || text == LACKING
}

/// What lines count with a line more. No more is counted once a tick is due.
fn with_line(since: u64, line: &[u8]) -> u64
    ensures { result ≡ up_to_due (since + (length line.now + bytes_of_a_line)) }
{
    let count = since as u128 + (line.len() as u128 + BYTES_OF_A_LINE as u128);
    if count < BYTES_BETWEEN_TICKS as u128 {
        count as u64
    } else {
        BYTES_BETWEEN_TICKS
    }
}

/// What the lines behind the last tick count, with a line more that was answered so.
pub(crate) fn since_tick(since: u64, line: &[u8], text: &[u8]) -> u64
    ensures { result ≡ since_tick since line.now text.now }
{
    if is_passed_over(text) {
        since
    } else if line == TICK {
        0
    } else {
        with_line(since, line)
    }
}
