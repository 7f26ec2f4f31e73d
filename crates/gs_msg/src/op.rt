ghost use Rattle.std.specs.Prelude.{◌≡◌};
ghost use Rattle.gs_msg.specs.Ops.{in_replica, length_of};

/// An edit of a chunk as a message tells it. It has the length of its bytes, which stand beside it or come by themselves.
#[derive(Clone, Copy, Debug, PartialEq, Eq)]
pub enum Op {
    /// Bytes at an offset of the chunk.
    Write { offset: u64, length: u64 },
    /// Bytes at the end.
    Append { length: u64 },
    /// Zeros up to the size of the chunk.
    Pad,
}

impl Op {
    /// The edit as a replica applies it.
    pub fn in_replica(self) -> gs_replica::Op
        ensures { result ≡ in_replica self }
    {
        match self {
            Op::Write { offset, .. } => gs_replica::Op::Write(offset),
            Op::Append { .. } => gs_replica::Op::Append,
            Op::Pad => gs_replica::Op::Pad,
        }
    }

    /// How many bytes the edit has.
    pub fn length(self) -> u64
        ensures { result ≡ length_of self }
    {
        match self {
            Op::Write { length, .. } | Op::Append { length } => length,
            Op::Pad => 0,
        }
    }
}
