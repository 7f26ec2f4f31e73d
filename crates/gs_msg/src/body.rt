ghost use Rattle.std.specs.Prelude.{◌≡◌, ◌↔◌, IsTrue, IfOk};
ghost use Rattle.gs_msg.specs.Bodies.{kind_of};

use crate::answer::Answer;
use crate::call::Call;
use crate::chunk::Chunk;
use crate::kind::Kind;
use crate::lists::{Bytes, Items};
use gs_base::promises::are_same;
use gs_base::{EpochEnd, Handle, Refusal, ReqId, Stamp};
use gs_block::Digest;
use gs_replica::EditOutcome;
use std::alloc::{AllocError, Global};

/// What a server tells of one of its live replicas.
#[derive(Clone, Copy, Debug, PartialEq, Eq)]
pub struct Reported {
    pub handle: Handle,
    pub promise: Stamp,
    /// Whether a block hadn't its digest.
    pub is_bad: bool,
}

/// What a fetch gives.
#[derive(Debug, Drop)]
pub enum Given {
    Bytes(Bytes),
    Length(u64),
    Digest(Digest),
}

impl Items<Reported> {
    /// Whether another list is the same.
    pub fn is_same(&self, other: &Self) -> bool
        ensures { IsTrue result ↔ (self.now ≡ other.now) }
    {
        same_reported(self.as_slice(), other.as_slice())
    }
}

impl Given {
    /// Whether another is the same.
    pub fn is_same(&self, other: &Given) -> bool
        ensures { IsTrue result ↔ (self.now ≡ other.now) }
    {
        match (self, other) {
            (Given::Bytes(left), Given::Bytes(right)) => left.is_same(right),
            (Given::Length(left), Given::Length(right)) => left == right,
            (Given::Digest(left), Given::Digest(right)) => left == right,
            _ => false,
        }
    }

    /// The same, in memory of its own.
    pub fn copy(&self, alloc: Global) -> Result<Given, AllocError>
        ensures { IfOk result (λ given. given ≡ self.now) }
    {
        Ok(match self {
            Given::Bytes(bytes) => Given::Bytes(bytes.copy(alloc)?),
            Given::Length(length) => Given::Length(*length),
            Given::Digest(digest) => Given::Digest(*digest),
        })
    }
}

/// What a message says.
#[derive(Debug, Drop)]
pub enum Body {
    /// What is said about one chunk.
    About(Handle, Chunk),
    Call {
        req: ReqId,
        call: Call,
    },
    Reply {
        req: ReqId,
        result: Result<Answer, Refusal>,
    },
    /// Bytes for an edit that is to come.
    Push {
        req: ReqId,
        bytes: Bytes,
    },
    /// What an edit answered.
    Done {
        req: ReqId,
        result: Result<EditOutcome, Refusal>,
    },
    /// What a fetch gives.
    Bytes {
        req: ReqId,
        result: Result<Given, Refusal>,
    },
    /// To copy a replica of this promise under a new handle, where it stands.
    MakeCopy {
        handle: Handle,
        at: Stamp,
        new_handle: Handle,
        stamp: Stamp,
    },
    /// The live replicas of a server, ascending by handle.
    Report {
        epoch: u64,
        replicas: Items<Reported>,
    },
    /// How the epoch before this one ended.
    Epoch {
        epoch: u64,
        end: EpochEnd,
    },
    /// A server has gone on to an epoch. After a rollback, these are as they were sealed.
    Learned {
        epoch: u64,
        handles: Items<Handle>,
    },
    /// The epoch of a server that is told another.
    Behind {
        epoch: u64,
    },
}

impl Body {
    /// Whether another body is the same.
    pub fn is_same(&self, other: &Body) -> bool
        ensures { IsTrue result ↔ (self.now ≡ other.now) }
    {
        match (self, other) {
            (Body::About(left, said), Body::About(right, other_said)) => {
                left == right && said.is_same(other_said)
            }
            (
                Body::Call { req, call },
                Body::Call {
                    req: other_req,
                    call: other_call,
                },
            ) => { req == other_req && call.is_same(other_call) }
            (
                Body::Reply { req, result },
                Body::Reply {
                    req: other_req,
                    result: other_result,
                },
            ) => { req == other_req && same_answer(result, other_result) }
            (
                Body::Push { req, bytes },
                Body::Push {
                    req: other_req,
                    bytes: other_bytes,
                },
            ) => { req == other_req && bytes.is_same(other_bytes) }
            (
                Body::Done { req, result },
                Body::Done {
                    req: other_req,
                    result: other_result,
                },
            ) => { req == other_req && same_outcome(result, other_result) }
            (
                Body::Bytes { req, result },
                Body::Bytes {
                    req: other_req,
                    result: other_result,
                },
            ) => { req == other_req && same_given(result, other_result) }
            (
                Body::MakeCopy {
                    handle,
                    at,
                    new_handle,
                    stamp,
                },
                Body::MakeCopy {
                    handle: other_handle,
                    at: other_at,
                    new_handle: other_new,
                    stamp: other_stamp,
                },
            ) => handle == other_handle
                && at == other_at
                && new_handle == other_new
                && stamp == other_stamp,
            (
                Body::Report { epoch, replicas },
                Body::Report {
                    epoch: other_epoch,
                    replicas: other_replicas,
                },
            ) => epoch == other_epoch && replicas.is_same(other_replicas),
            (
                Body::Epoch { epoch, end },
                Body::Epoch {
                    epoch: other_epoch,
                    end: other_end,
                },
            ) => { epoch == other_epoch && end == other_end }
            (
                Body::Learned { epoch, handles },
                Body::Learned {
                    epoch: other_epoch,
                    handles: other_handles,
                },
            ) => epoch == other_epoch && handles.is_same(other_handles),
            (Body::Behind { epoch }, Body::Behind { epoch: other_epoch }) => epoch == other_epoch,
            _ => false,
        }
    }

    pub fn kind(&self) -> Kind
        ensures { result ≡ kind_of self.now }
    {
        match self {
            Body::About(_, chunk) => chunk.kind(),
            Body::Call { .. } => Kind::Call,
            Body::Reply { .. } => Kind::Reply,
            Body::Push { .. } => Kind::Push,
            Body::Done { .. } => Kind::Done,
            Body::Bytes { .. } => Kind::Bytes,
            Body::MakeCopy { .. } => Kind::MakeCopy,
            Body::Report { .. } => Kind::Report,
            Body::Epoch { .. } => Kind::Epoch,
            Body::Learned { .. } => Kind::Learned,
            Body::Behind { .. } => Kind::Behind,
        }
    }

    /// The same, in memory of its own.
    pub fn copy(&self, alloc: Global) -> Result<Body, AllocError>
        ensures { IfOk result (λ body. body ≡ self.now) }
    {
        Ok(match self {
            Body::About(handle, chunk) => Body::About(*handle, chunk.copy(alloc)?),
            Body::Call { req, call } => Body::Call {
                req: *req,
                call: call.copy(alloc)?,
            },
            Body::Reply { req, result } => Body::Reply {
                req: *req,
                result: copied_answer(alloc, result)?,
            },
            Body::Push { req, bytes } => Body::Push {
                req: *req,
                bytes: bytes.copy(alloc)?,
            },
            Body::Done { req, result } => Body::Done {
                req: *req,
                result: copied_outcome(alloc, result)?,
            },
            Body::Bytes { req, result } => Body::Bytes {
                req: *req,
                result: copied_given(alloc, result)?,
            },
            Body::MakeCopy {
                handle,
                at,
                new_handle,
                stamp,
            } => Body::MakeCopy {
                handle: *handle,
                at: *at,
                new_handle: *new_handle,
                stamp: *stamp,
            },
            Body::Report { epoch, replicas } => Body::Report {
                epoch: *epoch,
                replicas: replicas.copy(alloc)?,
            },
            Body::Epoch { epoch, end } => Body::Epoch {
                epoch: *epoch,
                end: *end,
            },
            Body::Learned { epoch, handles } => Body::Learned {
                epoch: *epoch,
                handles: handles.copy(alloc)?,
            },
            Body::Behind { epoch } => Body::Behind { epoch: *epoch },
        })
    }
}

fn copied_answer(
    alloc: Global,
    told: &Result<Answer, Refusal>,
) -> Result<Result<Answer, Refusal>, AllocError>
    ensures { IfOk result (λ copy. copy ≡ told.now) }
{
    Ok(match told {
        Ok(answer) => Ok(answer.copy(alloc)?),
        Err(refusal) => Err(refusal.copy(alloc)?),
    })
}

fn copied_outcome(
    alloc: Global,
    told: &Result<EditOutcome, Refusal>,
) -> Result<Result<EditOutcome, Refusal>, AllocError>
    ensures { IfOk result (λ copy. copy ≡ told.now) }
{
    Ok(match told {
        Ok(outcome) => Ok(*outcome),
        Err(refusal) => Err(refusal.copy(alloc)?),
    })
}

fn copied_given(
    alloc: Global,
    told: &Result<Given, Refusal>,
) -> Result<Result<Given, Refusal>, AllocError>
    ensures { IfOk result (λ copy. copy ≡ told.now) }
{
    Ok(match told {
        Ok(given) => Ok(given.copy(alloc)?),
        Err(refusal) => Err(refusal.copy(alloc)?),
    })
}

fn same_reported(left: &[Reported], right: &[Reported]) -> bool
    ensures { IsTrue result ↔ (left.now ≡ right.now) }
{
    left == right
}

fn same_answer(left: &Result<Answer, Refusal>, right: &Result<Answer, Refusal>) -> bool
    ensures { IsTrue result ↔ (left.now ≡ right.now) }
{
    match (left, right) {
        (Ok(left), Ok(right)) => left.is_same(right),
        (Err(left), Err(right)) => are_same(left, right),
        _ => false,
    }
}

fn same_outcome(left: &Result<EditOutcome, Refusal>, right: &Result<EditOutcome, Refusal>) -> bool
    ensures { IsTrue result ↔ (left.now ≡ right.now) }
{
    match (left, right) {
        (Ok(left), Ok(right)) => left == right,
        (Err(left), Err(right)) => are_same(left, right),
        _ => false,
    }
}

fn same_given(left: &Result<Given, Refusal>, right: &Result<Given, Refusal>) -> bool
    ensures { IsTrue result ↔ (left.now ≡ right.now) }
{
    match (left, right) {
        (Ok(left), Ok(right)) => left.is_same(right),
        (Err(left), Err(right)) => are_same(left, right),
        _ => false,
    }
}
