// The edit that a primary numbers, and what it answers.
ghost use Rattle.std.specs.Prelude.{◌≡◌, ◌+◌, not, nat_lt};
ghost use Rattle.gs_server_lease.specs.Numbering.{outcome_at, is_too_long, numbered_op, is_passed};

use gs_msg::Op;
use gs_replica::EditOutcome;

/// What an edit answers at a chunk in which so many bytes are stored before it.
pub fn outcome_at(stored: u64, op: Op) -> EditOutcome
    ensures { result ≡ outcome_at stored op }
{
    match op {
        Op::Write { .. } => EditOutcome::Written,
        Op::Append { .. } => EditOutcome::Appended(stored),
        Op::Pad => EditOutcome::Padded,
    }
}

/// Whether so many bytes more fit into a chunk of this size.
fn fits(chunk: u64, stored: u64, many: u64) -> bool
    ensures { result ≡ not (nat_lt chunk (stored + many)) }
{
    match stored.checked_add(many) {
        Some(end) => end <= chunk,
        None => false,
    }
}

/// Whether an edit appends a record that is longer than a quarter of a chunk of so many bytes. Such a record isn't numbered.
pub fn is_too_long(chunk: u64, op: Op) -> bool
    ensures { result ≡ is_too_long chunk op }
{
    match op {
        Op::Append { length } => length > chunk / 4,
        Op::Write { .. } | Op::Pad => false,
    }
}

/// The edit that is numbered in place of the one that is asked for, where so many of a chunk's bytes are stored: a pad where an
/// append doesn't fit.
pub fn numbered_op(chunk: u64, stored: u64, op: Op) -> Op
    ensures { result ≡ numbered_op chunk stored op }
{
    match op {
        Op::Append { length } if !fits(chunk, stored, length) => Op::Pad,
        op => op,
    }
}

/// Whether nothing is numbered, since an append meets a chunk all of whose bytes are stored.
pub fn is_passed(chunk: u64, stored: u64, op: Op) -> bool
    ensures { result ≡ is_passed chunk stored op }
{
    match op {
        Op::Append { length } => stored == chunk && !fits(chunk, stored, length),
        Op::Write { .. } | Op::Pad => false,
    }
}
