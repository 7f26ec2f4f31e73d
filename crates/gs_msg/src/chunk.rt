ghost use Rattle.std.specs.Prelude.{◌≡◌, ◌↔◌, IsTrue, IfOk};
ghost use Rattle.gs_msg.specs.Bodies.{chunk_kind};

use crate::kind::Kind;
use crate::lists::Bytes;
use crate::op::Op;
use crate::same::same_grant;
use gs_base::promises::are_same;
use gs_base::{Moment, Refusal, ReqId, ServerId, Stamp};
use gs_lease::Grant;
use gs_replica::{Image, SealedImage};
use std::alloc::{AllocError, Global};

/// What a client asks of a replica.
#[derive(Clone, Copy, Debug, PartialEq, Eq)]
pub enum Asked {
    /// Bytes at an offset of the chunk.
    Bytes { offset: u64, length: u64 },
    /// How many bytes there are.
    Length,
    /// The digest of this block.
    Digest(u64),
}

/// What is said about one chunk.
#[derive(Debug, Drop)]
pub enum Chunk {
    /// To make an empty replica.
    Create(Stamp),
    /// To raise the promise.
    Advance(Stamp),
    /// A promise is given: how many edits are applied, and whether the copy of this stamp carried its sealed image.
    Promised {
        stamp: Stamp,
        count: u64,
        carried: bool,
    },
    Unpromised {
        stamp: Stamp,
        refusal: Refusal,
    },
    Grant(Grant),
    Renew(Stamp),
    Renewed {
        stamp: Stamp,
        end: Moment,
    },
    /// An edit of a client for the primary to number. Its bytes were pushed.
    Edit {
        req: ReqId,
        stamp: Stamp,
        op: Op,
    },
    /// A numbered edit for a member to apply, perhaps with its bytes.
    Forward {
        stamp: Stamp,
        number: u64,
        req: ReqId,
        op: Op,
        bytes: Option<Bytes>,
    },
    /// How many edits a member has applied.
    Ack {
        stamp: Stamp,
        count: u64,
    },
    Nack {
        stamp: Stamp,
        refusal: Refusal,
    },
    Fetch {
        req: ReqId,
        stamp: Stamp,
        epoch: u64,
        asked: Asked,
    },
    /// To send a copy to another server, with the sealed image or without.
    CopyOut {
        stamp: Stamp,
        target: ServerId,
        with_sealed: bool,
    },
    CopyIn {
        stamp: Stamp,
        image: Image,
        sealed: Option<SealedImage>,
    },
    /// To remove a replica that has this promise.
    Drop {
        epoch: u64,
        promise: Stamp,
    },
    /// A block hasn't its digest.
    Bad(Stamp),
}

impl Chunk {
    pub fn kind(&self) -> Kind
        ensures { result ≡ chunk_kind self.now }
    {
        match self {
            Chunk::Create(_) => Kind::Create,
            Chunk::Advance(_) => Kind::Advance,
            Chunk::Promised { .. } => Kind::Promised,
            Chunk::Unpromised { .. } => Kind::Unpromised,
            Chunk::Grant(_) => Kind::Grant,
            Chunk::Renew(_) => Kind::Renew,
            Chunk::Renewed { .. } => Kind::Renewed,
            Chunk::Edit { .. } => Kind::Edit,
            Chunk::Forward { .. } => Kind::Forward,
            Chunk::Ack { .. } => Kind::Ack,
            Chunk::Nack { .. } => Kind::Nack,
            Chunk::Fetch { .. } => Kind::Fetch,
            Chunk::CopyOut { .. } => Kind::CopyOut,
            Chunk::CopyIn { .. } => Kind::CopyIn,
            Chunk::Drop { .. } => Kind::Drop,
            Chunk::Bad(_) => Kind::Bad,
        }
    }

    /// Whether another is the same.
    pub fn is_same(&self, other: &Chunk) -> bool
        ensures { IsTrue result ↔ (self.now ≡ other.now) }
    {
        match (self, other) {
            (Chunk::Create(left), Chunk::Create(right))
            | (Chunk::Advance(left), Chunk::Advance(right))
            | (Chunk::Renew(left), Chunk::Renew(right))
            | (Chunk::Bad(left), Chunk::Bad(right)) => left == right,
            (
                Chunk::Promised {
                    stamp,
                    count,
                    carried,
                },
                Chunk::Promised {
                    stamp: other_stamp,
                    count: other_count,
                    carried: other_carried,
                },
            ) => stamp == other_stamp && count == other_count && carried == other_carried,
            (
                Chunk::Unpromised { stamp, refusal },
                Chunk::Unpromised {
                    stamp: other_stamp,
                    refusal: other_refusal,
                },
            )
            | (
                Chunk::Nack { stamp, refusal },
                Chunk::Nack {
                    stamp: other_stamp,
                    refusal: other_refusal,
                },
            ) => stamp == other_stamp && are_same(refusal, other_refusal),
            (Chunk::Grant(left), Chunk::Grant(right)) => same_grant(left, right),
            (
                Chunk::Renewed { stamp, end },
                Chunk::Renewed {
                    stamp: other_stamp,
                    end: other_end,
                },
            ) => stamp == other_stamp && end == other_end,
            (
                Chunk::Edit { req, stamp, op },
                Chunk::Edit {
                    req: other_req,
                    stamp: other_stamp,
                    op: other_op,
                },
            ) => req == other_req && stamp == other_stamp && op == other_op,
            (
                Chunk::Forward {
                    stamp,
                    number,
                    req,
                    op,
                    bytes,
                },
                Chunk::Forward {
                    stamp: other_stamp,
                    number: other_number,
                    req: other_req,
                    op: other_op,
                    bytes: other_bytes,
                },
            ) => {
                stamp == other_stamp
                    && number == other_number
                    && req == other_req
                    && op == other_op
                    && same_bytes(bytes, other_bytes)
            }
            (
                Chunk::Ack { stamp, count },
                Chunk::Ack {
                    stamp: other_stamp,
                    count: other_count,
                },
            ) => stamp == other_stamp && count == other_count,
            (
                Chunk::Fetch {
                    req,
                    stamp,
                    epoch,
                    asked,
                },
                Chunk::Fetch {
                    req: other_req,
                    stamp: other_stamp,
                    epoch: other_epoch,
                    asked: other_asked,
                },
            ) => req == other_req
                && stamp == other_stamp
                && epoch == other_epoch
                && asked == other_asked,
            (
                Chunk::CopyOut {
                    stamp,
                    target,
                    with_sealed,
                },
                Chunk::CopyOut {
                    stamp: other_stamp,
                    target: other_target,
                    with_sealed: other_with,
                },
            ) => stamp == other_stamp && target == other_target && with_sealed == other_with,
            (
                Chunk::CopyIn {
                    stamp,
                    image,
                    sealed,
                },
                Chunk::CopyIn {
                    stamp: other_stamp,
                    image: other_image,
                    sealed: other_sealed,
                },
            ) => stamp == other_stamp
                && image.is_same(other_image)
                && same_sealed(sealed, other_sealed),
            (
                Chunk::Drop { epoch, promise },
                Chunk::Drop {
                    epoch: other_epoch,
                    promise: other_promise,
                },
            ) => epoch == other_epoch && promise == other_promise,
            _ => false,
        }
    }

    /// The same, in memory of its own.
    pub fn copy(&self, alloc: Global) -> Result<Chunk, AllocError>
        ensures { IfOk result (λ chunk. chunk ≡ self.now) }
    {
        Ok(match self {
            Chunk::Create(stamp) => Chunk::Create(*stamp),
            Chunk::Advance(stamp) => Chunk::Advance(*stamp),
            Chunk::Promised {
                stamp,
                count,
                carried,
            } => Chunk::Promised {
                stamp: *stamp,
                count: *count,
                carried: *carried,
            },
            Chunk::Unpromised { stamp, refusal } => Chunk::Unpromised {
                stamp: *stamp,
                refusal: refusal.copy(alloc)?,
            },
            Chunk::Grant(grant) => Chunk::Grant(*grant),
            Chunk::Renew(stamp) => Chunk::Renew(*stamp),
            Chunk::Renewed { stamp, end } => Chunk::Renewed {
                stamp: *stamp,
                end: *end,
            },
            Chunk::Edit { req, stamp, op } => Chunk::Edit {
                req: *req,
                stamp: *stamp,
                op: *op,
            },
            Chunk::Forward {
                stamp,
                number,
                req,
                op,
                bytes,
            } => Chunk::Forward {
                stamp: *stamp,
                number: *number,
                req: *req,
                op: *op,
                bytes: copied_bytes(alloc, bytes)?,
            },
            Chunk::Ack { stamp, count } => Chunk::Ack {
                stamp: *stamp,
                count: *count,
            },
            Chunk::Nack { stamp, refusal } => Chunk::Nack {
                stamp: *stamp,
                refusal: refusal.copy(alloc)?,
            },
            Chunk::Fetch {
                req,
                stamp,
                epoch,
                asked,
            } => Chunk::Fetch {
                req: *req,
                stamp: *stamp,
                epoch: *epoch,
                asked: *asked,
            },
            Chunk::CopyOut {
                stamp,
                target,
                with_sealed,
            } => Chunk::CopyOut {
                stamp: *stamp,
                target: *target,
                with_sealed: *with_sealed,
            },
            Chunk::CopyIn {
                stamp,
                image,
                sealed,
            } => Chunk::CopyIn {
                stamp: *stamp,
                image: image.copy(alloc)?,
                sealed: copied_sealed(alloc, sealed)?,
            },
            Chunk::Drop { epoch, promise } => Chunk::Drop {
                epoch: *epoch,
                promise: *promise,
            },
            Chunk::Bad(stamp) => Chunk::Bad(*stamp),
        })
    }
}

fn copied_bytes(alloc: Global, bytes: &Option<Bytes>) -> Result<Option<Bytes>, AllocError>
    ensures { IfOk result (λ copy. copy ≡ bytes.now) }
{
    Ok(match bytes {
        Some(bytes) => Some(bytes.copy(alloc)?),
        None => None,
    })
}

fn copied_sealed(
    alloc: Global,
    sealed: &Option<SealedImage>,
) -> Result<Option<SealedImage>, AllocError>
    ensures { IfOk result (λ copy. copy ≡ sealed.now) }
{
    Ok(match sealed {
        Some(sealed) => Some(sealed.copy(alloc)?),
        None => None,
    })
}

fn same_bytes(left: &Option<Bytes>, right: &Option<Bytes>) -> bool
    ensures { IsTrue result ↔ (left.now ≡ right.now) }
{
    match (left, right) {
        (Some(left), Some(right)) => left.is_same(right),
        (None, None) => true,
        _ => false,
    }
}

fn same_sealed(left: &Option<SealedImage>, right: &Option<SealedImage>) -> bool
    ensures { IsTrue result ↔ (left.now ≡ right.now) }
{
    match (left, right) {
        (Some(left), Some(right)) => left.is_same(right),
        (None, None) => true,
        _ => false,
    }
}
