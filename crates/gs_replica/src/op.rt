/// An edit of a chunk. The bytes of a write or an append stand beside it.
#[derive(Clone, Copy, Debug, PartialEq, Eq)]
pub enum Op {
    /// Bytes at an offset of the chunk.
    Write(u64),
    /// Bytes at the end.
    Append,
    /// Zeros up to the size of the chunk.
    Pad,
}

/// What an edit answered.
#[derive(Clone, Copy, Debug, PartialEq, Eq)]
pub enum EditOutcome {
    Written,
    /// The offset of the chunk at which the bytes stand.
    Appended(u64),
    Padded,
}

/// The greatest number of a client's requests that was applied, and what it answered.
#[derive(Clone, Copy, Debug, PartialEq, Eq)]
pub struct Done {
    pub number: u64,
    pub outcome: EditOutcome,
}
