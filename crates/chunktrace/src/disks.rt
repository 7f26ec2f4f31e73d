// What stands on a disk of the master's journal.
ghost use Rattle.std.specs.Prelude.{◌≤◌, IfSome, length};

use gs_shell_script::{MEMORY, RunFault, write_line};
use std::alloc::{AllocError, Global};
use std::io::Write;

/// The gate, the mark and the generation.
const HEADER: usize = 13;

/// The gate, the length of the body, and the kind.
const FRAME: usize = 6;

/// How many bytes the record takes with which these begin, if they begin with one that is whole and whose gate is open.
fn record_length(bytes: &[u8]) -> Option<usize>
    ensures { IfSome result (λ many. many ≤ length bytes.now) }
{
    if bytes.len() < FRAME || bytes[0] != 1 {
        return None;
    }
    let body = u32::from_be_bytes([bytes[1], bytes[2], bytes[3], bytes[4]]) as usize;
    let length = body.checked_add(FRAME)?;
    if length > bytes.len() {
        return None;
    }
    Some(length)
}

/// A line of a name and bytes in hex, or `-` where there are none.
fn hex_text(alloc: Global, name: &str, bytes: &[u8]) -> Result<String, AllocError> {
    if bytes.is_empty() {
        return format!(in alloc; "{name} -");
    }
    let hex = hex::encode(alloc, bytes)?;
    format!(in alloc; "{name} {hex}")
}

/// Writes a line of hex, or that memory is wanting for it.
fn write_hex<W: Write>(
    alloc: Global,
    name: &str,
    bytes: &[u8],
    writer: &mut W,
) -> Result<(), RunFault> {
    match hex_text(alloc, name, bytes) {
        Ok(text) => write_line(writer, &text),
        Err(_) => write_line(writer, MEMORY),
    }
}

/// Tells the header of a disk, each of its records, and the rest, in hex.
pub(crate) fn tell<W: Write>(
    alloc: Global,
    number: u8,
    bytes: &[u8],
    writer: &mut W,
) -> Result<(), RunFault> {
    let (header, mut rest) = bytes.split_at(HEADER.min(bytes.len()));
    let name = if number == 1 { "disk 1" } else { "disk 2" };
    write_hex(alloc, name, header, writer)?;
    for _ in 0..u64::MAX {
        let Some(length) = record_length(rest) else {
            break;
        };
        let (record, behind) = rest.split_at(length);
        write_hex(alloc, "record", record, writer)?;
        rest = behind;
    }
    write_hex(alloc, "end", rest, writer)
}
