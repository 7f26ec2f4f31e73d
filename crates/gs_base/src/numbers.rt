ghost use Rattle.std.specs.Prelude.{◌≡◌, ◌<◌, ◌≤◌, ℕ, ◌↔◌, IsSome, IfSome, IfOk};
ghost use Rattle.gs_base.specs.Numbers.{IsNext, stamp_text};

use crate::refusal::Refusal;
use std::fmt;
use std::marker::Model;

/// The number after this one. Every counter of a store ends at the greatest `u64`, and after that value the answer is
/// `Exhausted`. It takes no memory.
pub fn next_number(number: u64) -> Result<u64, Refusal>
    ensures { IsNext number result (λ next. next) }
{
    match number.checked_add(1) {
        Some(next) => Ok(next),
        None => Err(Refusal::Exhausted),
    }
}

/// One of the chunkservers of a store, of which there are at most 16, counted from 0.
#[derive(Clone, Copy, Debug, PartialEq, Eq, PartialOrd, Ord, Hash)]
pub struct ServerId {
    number: u8,
}

impl Model for ServerId {
    ghost use Rattle.std.specs.Prelude.{ℕ, ◌<◌};

    ghost Value = { ℕ };

    ghost view = { λ s. s.number };

    ghost invariant = { λ s. s.number < 16 };

    ghost inverse = { λ n. record { number = n } };
}

impl ServerId {
    /// The server of this number, if it is below 16.
    pub fn new(number: u64) -> Option<ServerId>
        ensures some { IsSome result ↔ (number < 16) }
        ensures number { IfSome result (λ server. server ≡ number) }
    {
        if number < 16 {
            return Some(ServerId {
                number: number as u8,
            });
        }
        None
    }

    pub fn number(self) -> u8
        ensures number { result ≡ self }
        ensures below { result < 16 }
    {
        self.number
    }
}

impl fmt::Display for ServerId {
    ghost use Rattle.std.specs.Prelude.{Some, decimal};

    ghost output = { λ s. Some (decimal s) };

    fn fmt<W: fmt::Write>(&self, f: &mut fmt::Formatter<W>) -> fmt::Result {
        let number = self.number;
        write!(f, "{number}")
    }
}

/// The name of a chunk. Handles are counted from 1 and never used again.
#[derive(Clone, Copy, Debug, PartialEq, Eq, PartialOrd, Ord, Hash)]
pub struct Handle {
    number: u64,
}

impl Model for Handle {
    ghost use Rattle.std.specs.Prelude.{ℕ, ◌≤◌};

    ghost Value = { ℕ };

    ghost view = { λ h. h.number };

    ghost invariant = { λ h. 1 ≤ h.number };

    ghost inverse = { λ n. record { number = n } };
}

impl Handle {
    /// The first handle of a store.
    pub fn first() -> Handle
        ensures { result ≡ 1 }
    {
        Handle { number: 1 }
    }

    /// The handle of this number, if it is not 0.
    pub fn new(number: u64) -> Option<Handle>
        ensures some { IsSome result ↔ (1 ≤ number) }
        ensures number { IfSome result (λ handle. handle ≡ number) }
    {
        if number >= 1 {
            return Some(Handle { number });
        }
        None
    }

    pub fn number(self) -> u64
        ensures number { result ≡ self }
        ensures from_one { 1 ≤ result }
    {
        self.number
    }

    /// The handle after this one, or `Exhausted` after the last. It takes no memory.
    pub fn next(self) -> Result<Handle, Refusal>
        ensures { IsNext self result (λ next. next) }
    {
        Ok(Handle {
            number: next_number(self.number)?,
        })
    }
}

impl fmt::Display for Handle {
    ghost use Rattle.std.specs.Prelude.{Some, decimal};

    ghost output = { λ h. Some (decimal h) };

    fn fmt<W: fmt::Write>(&self, f: &mut fmt::Formatter<W>) -> fmt::Result {
        let number = self.number;
        write!(f, "{number}")
    }
}

/// One of the clients of a store.
#[derive(Clone, Copy, Debug, PartialEq, Eq, PartialOrd, Ord, Hash)]
pub struct ClientId(pub u32);

/// A point in time as a node is told of it. Nothing makes one greater than the one before.
#[derive(Clone, Copy, Debug, PartialEq, Eq, PartialOrd, Ord, Hash)]
pub struct Moment(pub u64);

/// The stamp of a view: ordered by epoch first. Versions come from one counter of the master, from 1.
#[derive(Clone, Copy, Debug, PartialEq, Eq, PartialOrd, Ord, Hash)]
pub struct Stamp {
    pub epoch: u64,
    pub version: u64,
}

impl Stamp {
    ghost use Rattle.gs_base.specs.Stamps.{is_before};

    /// Whether this stamp comes before the other: by epoch first.
    pub fn is_before(self, other: Stamp) -> bool
        ensures { result ≡ is_before self other }
    {
        self < other
    }

    /// The stamp of the same epoch with the next version, or `Exhausted` after the last. It takes no memory.
    pub fn next(self) -> Result<Stamp, Refusal>
        ensures version { IsNext self.version result (λ next. next.version) }
        ensures epoch { IfOk result (λ next. next.epoch ≡ self.epoch) }
    {
        Ok(Stamp {
            epoch: self.epoch,
            version: next_number(self.version)?,
        })
    }
}

impl fmt::Display for Stamp {
    ghost use Rattle.std.specs.Prelude.{Some};
    ghost use Rattle.gs_base.specs.Numbers.{stamp_text};

    ghost output = { λ s. Some (stamp_text s) };

    fn fmt<W: fmt::Write>(&self, f: &mut fmt::Formatter<W>) -> fmt::Result {
        let epoch = self.epoch;
        let version = self.version;
        write!(f, "{epoch}.{version}")
    }
}

/// The request of a client. A client numbers its requests from 1 upwards.
#[derive(Clone, Copy, Debug, PartialEq, Eq, PartialOrd, Ord, Hash)]
pub struct ReqId {
    pub client: ClientId,
    pub number: u64,
}

impl ReqId {
    /// The client's request after this one, or `Exhausted` after the last. It takes no memory.
    pub fn next(self) -> Result<ReqId, Refusal>
        ensures number { IsNext self.number result (λ next. next.number) }
        ensures client { IfOk result (λ next. next.client ≡ self.client) }
    {
        Ok(ReqId {
            client: self.client,
            number: next_number(self.number)?,
        })
    }
}

impl fmt::Display for ReqId {
    ghost use Rattle.std.specs.Prelude.{Some};
    ghost use Rattle.gs_base.specs.Texts.{request_text};

    ghost output = { λ r. Some (request_text r) };

    fn fmt<W: fmt::Write>(&self, f: &mut fmt::Formatter<W>) -> fmt::Result {
        let client = self.client.0;
        let number = self.number;
        write!(f, "C{client}/{number}")
    }
}
