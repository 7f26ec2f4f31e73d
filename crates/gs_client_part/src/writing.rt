//! The parts of a write, each of one chunk, and the place of a record.
ghost use Rattle.std.specs.Prelude.{◌≡◌, ◌≤◌, ◌/◌, false};
ghost use Rattle.gs_client_part.specs.Writing as parts;

use gs_base::Refusal;
use gs_path::Path;

/// The most chunks of a file.
pub const MOST_CHUNKS: u64 = 4096;

/// Bytes for a place of a file of chunks of this size.
#[derive(Clone, Copy)]
pub struct Write<'w> {
    /// The bytes of a chunk.
    pub size: u64,
    pub path: &'w Path,
    /// Where the first byte goes, from the file's begin.
    pub offset: u64,
    pub bytes: &'w [u8],
    pub ghost some: { 1 ≤ size },
    pub ghost bounded: { size ≤ 67108864 },
}

/// Whether a write has no bytes, or goes too far.
pub fn is_out(write: &Write<'_>) -> bool
    ensures { result ≡ parts.is_out write.now.size write.now.offset write.now.bytes.now }
{
    let length = write.bytes.len() as u64;
    let most = MOST_CHUNKS * write.size;
    length == 0 || write.offset > most || length > most - write.offset
}

/// How many chunks a file has that ends where a write ends.
pub fn chunks_to(write: &Write<'_>) -> u64
    requires { parts.is_out write.now.size write.now.offset write.now.bytes.now ≡ false }
    ensures is { result ≡ parts.chunks_to write.now.size write.now.offset write.now.bytes.now }
    ensures few { result ≤ 4096 }
    ensures past { write.now.offset / write.now.size ≤ result }
    ensures near { write.now.offset ≤ 274877906944 }
{
    (write.offset + write.bytes.len() as u64 - 1) / write.size + 1
}

/// How many parts a write has.
pub fn part_count(write: &Write<'_>) -> u64
    requires { parts.is_out write.now.size write.now.offset write.now.bytes.now ≡ false }
    ensures is { result ≡ parts.part_count write.now.size write.now.offset write.now.bytes.now }
    ensures few { result ≤ 4096 }
{
    chunks_to(write) - write.offset / write.size
}

/// Where a part of a write begins in its chunk.
pub fn part_start(write: &Write<'_>, i: u64) -> u64
    ensures { result ≡ parts.part_start write.now.size write.now.offset i }
{
    if i == 0 {
        return write.offset % write.size;
    }
    0
}

/// The bytes of a part.
pub fn part_bytes<'w>(write: &Write<'w>, i: u64) -> &'w [u8]
    requires { i ≤ 4096 }
    ensures { result.now ≡ parts.part_bytes write.now.size write.now.offset write.now.bytes.now i }
{
    let skip = write.offset % write.size;
    let to = ((i + 1) * write.size - skip).min(write.bytes.len() as u64);
    let from = (i * write.size).saturating_sub(skip).min(to);
    &write.bytes[from as usize..to as usize]
}

/// Where in its file a record stands that a member put there in the chunk of this index. `Stray` for a place behind the chunk.
pub fn place(size: u64, index: u64, offset: u64) -> Result<u64, Refusal>
    requires bounded { size ≤ 67108864 }
    requires few { index ≤ 4096 }
    ensures { result ≡ parts.placed size index offset }
{
    if offset < size {
        return Ok(index * size + offset);
    }
    Err(Refusal::Stray)
}
