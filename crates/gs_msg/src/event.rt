ghost use Rattle.std.specs.Prelude.{◌≡◌, ◌↔◌, IsTrue, IfOk};

use crate::call::Call;
use crate::chunk::Asked;
use crate::lists::Bytes;
use crate::message::MsgId;
use crate::node::StoreNode;
use crate::op::Op;
use gs_base::{Handle, Members, Moment, ReqId, ServerId, Stamp};
use std::alloc::{AllocError, Global};

/// What a client asks under one number.
#[derive(Debug, Drop)]
pub enum Request {
    /// A call of the master.
    Call(Call),
    /// An edit of a chunk: its bytes go to every member, ascending, and then the edit to the primary, all under the one number.
    Write {
        handle: Handle,
        members: Members,
        primary: ServerId,
        stamp: Stamp,
        op: Op,
        bytes: Bytes,
    },
    /// What a client reads of a replica.
    Fetch {
        to: ServerId,
        handle: Handle,
        stamp: Stamp,
        epoch: u64,
        asked: Asked,
    },
}

impl Request {
    /// Whether another is the same.
    pub fn is_same(&self, other: &Request) -> bool
        ensures { IsTrue result ↔ (self.now ≡ other.now) }
    {
        match (self, other) {
            (Request::Call(left), Request::Call(right)) => left.is_same(right),
            (
                Request::Write {
                    handle,
                    members,
                    primary,
                    stamp,
                    op,
                    bytes,
                },
                Request::Write {
                    handle: other_handle,
                    members: other_members,
                    primary: other_primary,
                    stamp: other_stamp,
                    op: other_op,
                    bytes: other_bytes,
                },
            ) => {
                handle == other_handle
                    && members == other_members
                    && primary == other_primary
                    && stamp == other_stamp
                    && op == other_op
                    && bytes.is_same(other_bytes)
            }
            (
                Request::Fetch {
                    to,
                    handle,
                    stamp,
                    epoch,
                    asked,
                },
                Request::Fetch {
                    to: other_to,
                    handle: other_handle,
                    stamp: other_stamp,
                    epoch: other_epoch,
                    asked: other_asked,
                },
            ) => {
                to == other_to
                    && handle == other_handle
                    && stamp == other_stamp
                    && epoch == other_epoch
                    && asked == other_asked
            }
            _ => false,
        }
    }

    /// The same, in memory of its own.
    pub fn copy(&self, alloc: Global) -> Result<Request, AllocError>
        ensures { IfOk result (λ request. request ≡ self.now) }
    {
        Ok(match self {
            Request::Call(call) => Request::Call(call.copy(alloc)?),
            Request::Write {
                handle,
                members,
                primary,
                stamp,
                op,
                bytes,
            } => Request::Write {
                handle: *handle,
                members: *members,
                primary: *primary,
                stamp: *stamp,
                op: *op,
                bytes: bytes.copy(alloc)?,
            },
            Request::Fetch {
                to,
                handle,
                stamp,
                epoch,
                asked,
            } => Request::Fetch {
                to: *to,
                handle: *handle,
                stamp: *stamp,
                epoch: *epoch,
                asked: *asked,
            },
        })
    }
}

/// One of the two disks of the master's journal.
#[derive(Clone, Copy, Debug, PartialEq, Eq)]
pub enum DiskId {
    First,
    Second,
}

/// What happens in a store.
#[derive(Debug, Drop)]
pub enum Happening {
    /// A client sends a request under a number above those that it used before.
    Ask {
        req: ReqId,
        request: Request,
    },
    /// A message that was sent comes to its receiver, perhaps once more.
    Deliver(MsgId),
    /// A node does what it does from time to time.
    Tick(StoreNode),
    /// A server reports its replicas.
    Beat(ServerId),
    /// A node loses what it keeps in memory alone.
    Restart(StoreNode),
    /// A server loses its replicas of a chunk.
    Lose {
        server: ServerId,
        handle: Handle,
    },
    /// A byte of a block of a replica changes on its server.
    Damage {
        server: ServerId,
        handle: Handle,
        block: u64,
    },
    /// One of the master's disks fails at the call of this number, counted from 1 from here on, and at no other.
    FailDisk {
        disk: DiskId,
        call: u64,
    },
}

impl Happening {
    /// Whether another is the same.
    pub fn is_same(&self, other: &Happening) -> bool
        ensures { IsTrue result ↔ (self.now ≡ other.now) }
    {
        match (self, other) {
            (
                Happening::Ask { req, request },
                Happening::Ask {
                    req: other_req,
                    request: other_request,
                },
            ) => req == other_req && request.is_same(other_request),
            (Happening::Deliver(left), Happening::Deliver(right)) => left == right,
            (Happening::Tick(left), Happening::Tick(right))
            | (Happening::Restart(left), Happening::Restart(right)) => left == right,
            (Happening::Beat(left), Happening::Beat(right)) => left == right,
            (
                Happening::Lose { server, handle },
                Happening::Lose {
                    server: other_server,
                    handle: other_handle,
                },
            ) => server == other_server && handle == other_handle,
            (
                Happening::Damage {
                    server,
                    handle,
                    block,
                },
                Happening::Damage {
                    server: other_server,
                    handle: other_handle,
                    block: other_block,
                },
            ) => server == other_server && handle == other_handle && block == other_block,
            (
                Happening::FailDisk { disk, call },
                Happening::FailDisk {
                    disk: other_disk,
                    call: other_call,
                },
            ) => disk == other_disk && call == other_call,
            _ => false,
        }
    }

    /// The same, in memory of its own.
    pub fn copy(&self, alloc: Global) -> Result<Happening, AllocError>
        ensures { IfOk result (λ happening. happening ≡ self.now) }
    {
        Ok(match self {
            Happening::Ask { req, request } => Happening::Ask {
                req: *req,
                request: request.copy(alloc)?,
            },
            Happening::Deliver(message) => Happening::Deliver(*message),
            Happening::Tick(node) => Happening::Tick(*node),
            Happening::Beat(server) => Happening::Beat(*server),
            Happening::Restart(node) => Happening::Restart(*node),
            Happening::Lose { server, handle } => Happening::Lose {
                server: *server,
                handle: *handle,
            },
            Happening::Damage {
                server,
                handle,
                block,
            } => Happening::Damage {
                server: *server,
                handle: *handle,
                block: *block,
            },
            Happening::FailDisk { disk, call } => Happening::FailDisk {
                disk: *disk,
                call: *call,
            },
        })
    }
}

/// What happens, and when. Moments may go back.
#[derive(Debug, Drop)]
pub struct Event {
    pub moment: Moment,
    pub happening: Happening,
}

impl Event {
    /// Whether another event is the same.
    pub fn is_same(&self, other: &Event) -> bool
        ensures { IsTrue result ↔ (self.now ≡ other.now) }
    {
        self.moment == other.moment && self.happening.is_same(&other.happening)
    }

    /// The same event, in memory of its own.
    pub fn copy(&self, alloc: Global) -> Result<Event, AllocError>
        ensures { IfOk result (λ event. event ≡ self.now) }
    {
        Ok(Event {
            moment: self.moment,
            happening: self.happening.copy(alloc)?,
        })
    }
}
