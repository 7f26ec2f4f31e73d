//! The pieces that a read has of the chunks of a file.
ghost use Rattle.std.specs.Prelude.{◌≡◌, ◌≤◌, ◌*◌, ◌++◌, OnOk, if◌then◌else◌};
ghost use Rattle.gs_client_part.specs.Reading.{filled, piece_end, span};

use gs_msg::Bytes;
use std::alloc::AllocError;

/// How many bytes so many chunks have.
pub fn bytes_of(chunks: u64, size: u64) -> u64
    requires few { chunks ≤ 4096 }
    requires bounded { size ≤ 67108864 }
    ensures is { result ≡ chunks * size }
    ensures few { result ≤ 274877906944 }
{
    chunks * size
}

/// How many chunks lie between two places of a file.
pub fn span(size: u64, offset: u64, end: u64) -> u64
    requires { 1 ≤ size }
    ensures { result ≡ span size offset end }
{
    if offset < end {
        return (end - 1) / size + 1 - offset / size;
    }
    0
}

/// Adds bytes to those that were read. The first ones aren't copied.
fn add_bytes(read: &mut Vec<u8>, bytes: Bytes) -> Result<(), AllocError>
    ensures { OnOk result (read.new.items ≡ read.old.items ++ bytes) }
{
    if read.is_empty() {
        *read = bytes.into_vec();
        return Ok(());
    }
    read.extend_from_slice(bytes.as_slice())
}

/// Adds what was read of a chunk, with zeros behind it up to so many bytes.
fn add_filled(read: &mut Vec<u8>, bytes: Bytes, many: usize) -> Result<(), AllocError>
    requires { many ≤ 67108864 }
    ensures { OnOk result (read.new.items ≡ read.old.items ++ filled many bytes) }
{
    let missing = many.saturating_sub(bytes.as_slice().len());
    add_bytes(read, bytes)?;
    let held = read.len();
    read.resize(held + missing, 0)
}

/// Adds what was read of a chunk. Behind what a chunk stores that isn't the last one stand zeros.
pub fn add_piece(
    read: &mut Vec<u8>,
    bytes: Bytes,
    many: u64,
    is_last: bool,
) -> Result<(), AllocError>
    requires { many ≤ 67108864 }
    ensures { OnOk result (read.new.items ≡ read.old.items ++ (if is_last then bytes else filled many bytes)) }
{
    if is_last {
        return add_bytes(read, bytes);
    }
    add_filled(read, bytes, many as usize)
}

/// Where a read that ends so leaves the chunk of this index.
pub fn piece_end(size: u64, end: u64, index: u64) -> u64
    requires few { index ≤ 4096 }
    requires bounded { size ≤ 67108864 }
    ensures is { result ≡ piece_end size end index }
    ensures within { result ≤ size }
{
    size.min(end.saturating_sub(bytes_of(index, size)))
}
