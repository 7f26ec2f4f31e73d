//! What is appended to a file.
ghost use Rattle.std.specs.Prelude.{◌≤◌};

use gs_path::Path;

/// A record for the end of a file of chunks of this size.
#[derive(Clone, Copy)]
pub(crate) struct Record<'r> {
    pub(crate) size: u64,
    pub(crate) path: &'r Path,
    pub(crate) bytes: &'r [u8],
    pub(crate) ghost bounded: { size ≤ 67108864 },
}
