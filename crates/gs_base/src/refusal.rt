ghost use Rattle.std.specs.Prelude.{◌≡◌, IfOk, string_bytes};
ghost use Rattle.gs_base.specs.Refusals.{number_of, name_of, refusal_text};

use crate::numbers::{Handle, Stamp};
use std::alloc::{AllocError, AllocFailed, Global};
use std::fmt;
use std::marker::Model;

/// The text of a path, as a refusal names it.
#[derive(Debug)]
pub struct PathText {
    text: String,
}

impl Drop for PathText {
    fn drop(self) {
        let Self { text: _ } = self;
    }
}

impl Model for PathText {
    ghost use Rattle.std.specs.Prelude.{List, ℕ, string_bytes};

    ghost Value = { List ℕ };

    ghost view = { λ p. string_bytes p.text };
}

impl PathText {
    pub fn new(text: String) -> PathText
        ensures { result ≡ string_bytes text }
    {
        PathText { text }
    }

    pub fn as_str(&self) -> &str
        ensures { result.now ≡ self.now }
    {
        self.text.as_str()
    }

    pub fn copy(&self, alloc: Global) -> Result<PathText, AllocError>
        ensures { IfOk result (λ copy. copy ≡ self.now) }
    {
        Ok(PathText {
            text: String::from_str(alloc, &self.text)?,
        })
    }
}

impl PartialEq for PathText {
    ghost use Rattle.std.specs.Cmp.{partial_equiv_from_equiv};
    ghost use Rattle.std.specs.Cmp.Lexicographic.{nat_list_eq_equiv};
    ghost use Rattle.std.specs.Prelude.{nat_eq};
    ghost use Rattle.std.specs.Cmp.Lexicographic.{pointwise};

    ghost eq = { pointwise nat_eq };

    ghost laws = { partial_equiv_from_equiv nat_list_eq_equiv };

    fn eq(&self, other: &PathText) -> bool {
        self.text == other.text
    }
}

impl Eq for PathText {
    ghost use Rattle.std.specs.Cmp.Lexicographic.{nat_list_eq_equiv};

    ghost laws = { nat_list_eq_equiv };
}

/// Why a call was refused. The number and the name of each stand in its line, and behind them its detail where it has
/// one.
#[derive(Debug, Drop)]
pub enum Refusal {
    /// A path breaks the rules of paths.
    BadPath,
    /// An element of a path begins as hidden names do.
    HiddenName,
    /// Nothing stands at the path.
    NotFound,
    /// Something stands at the path already.
    Exists,
    /// A file stands where a directory is needed.
    NotADirectory,
    /// A directory stands where a file is needed.
    IsADirectory,
    /// A directory with visible children is deleted, and not recursively.
    NotEmpty,
    /// The target lies under the source.
    IntoItself,
    /// The root can't be moved, deleted or copied.
    IsRoot,
    /// A pending call holds a lock in conflict, or the chunk's view is changing.
    Locked,
    /// The master is preparing an upgrade.
    Preparing,
    /// The master is rolling back.
    RollingBack,
    /// No upgrade stands, no prepare is begun, or no rollback is.
    NotUpgrading,
    /// An upgrade stands already, or a prepare is begun.
    AlreadyUpgrading,
    /// A chunk isn't quiet: the lowest chunk that isn't quiet.
    NotQuiet(Handle),
    /// A prepared chunk has no answer: the lowest prepared chunk without an answer.
    Unrestored(Handle),
    /// No server is a candidate for a replica.
    NoServer,
    /// A message is of another epoch: the epoch that holds.
    Epoch(u64),
    /// A number or a stamp below one that was taken, or one that is taken for good. Of a fetch: the promise is below the stamp.
    Old,
    /// The server holds no lease.
    NotPrimary,
    /// The moment isn't below the lease's end.
    LeaseOver,
    /// The stamp isn't the promise: the promise that is held.
    Stamp(Stamp),
    /// An edit's number isn't one above the count: the count of edits.
    Gap(u64),
    /// The pushed bytes aren't in the buffer.
    NoData,
    /// An offset, length, block or index is out of range, or a write has no bytes.
    Range,
    /// A record is longer than a quarter of a chunk.
    TooLong,
    /// A block's bytes don't match its digest: the block.
    Damaged(u64),
    /// There is no live replica, or no member answered.
    NoReplica,
    /// A change got no answer, or the disk or memory failed in it: it stands or doesn't.
    Unsure,
    /// The record would pass the journal's limit.
    Full,
    /// A counter stands at its last value.
    Exhausted,
    /// The disk has failed.
    Device,
    /// Memory was refused.
    Memory,
    /// A line isn't of the grammar, a record isn't of its form, or an inverse doesn't fit.
    BadLine,
    /// The sizes aren't a configuration.
    Config,
    /// An upgrade can't be prepared beside a pending call: the lowest path of a pending call.
    Pending(PathText),
    /// A message is for another kind of node, or an answer can't be one to what was asked.
    Stray,
    /// Undelete of a name that isn't hidden.
    NotHidden,
}

impl Refusal {
    /// The number that a refusal is printed with, from 1 to 38.
    pub fn number(&self) -> u8
        ensures { result ≡ number_of self.now }
    {
        match self {
            Refusal::BadPath => 1,
            Refusal::HiddenName => 2,
            Refusal::NotFound => 3,
            Refusal::Exists => 4,
            Refusal::NotADirectory => 5,
            Refusal::IsADirectory => 6,
            Refusal::NotEmpty => 7,
            Refusal::IntoItself => 8,
            Refusal::IsRoot => 9,
            Refusal::Locked => 10,
            Refusal::Preparing => 11,
            Refusal::RollingBack => 12,
            Refusal::NotUpgrading => 13,
            Refusal::AlreadyUpgrading => 14,
            Refusal::NotQuiet(_) => 15,
            Refusal::Unrestored(_) => 16,
            Refusal::NoServer => 17,
            Refusal::Epoch(_) => 18,
            Refusal::Old => 19,
            Refusal::NotPrimary => 20,
            Refusal::LeaseOver => 21,
            Refusal::Stamp(_) => 22,
            Refusal::Gap(_) => 23,
            Refusal::NoData => 24,
            Refusal::Range => 25,
            Refusal::TooLong => 26,
            Refusal::Damaged(_) => 27,
            Refusal::NoReplica => 28,
            Refusal::Unsure => 29,
            Refusal::Full => 30,
            Refusal::Exhausted => 31,
            Refusal::Device => 32,
            Refusal::Memory => 33,
            Refusal::BadLine => 34,
            Refusal::Config => 35,
            Refusal::Pending(_) => 36,
            Refusal::Stray => 37,
            Refusal::NotHidden => 38,
        }
    }

    /// The name that a refusal is printed with.
    pub fn name(&self) -> &'static str
        ensures { result.now ≡ name_of self.now }
    {
        match self {
            Refusal::BadPath => "BadPath",
            Refusal::HiddenName => "HiddenName",
            Refusal::NotFound => "NotFound",
            Refusal::Exists => "Exists",
            Refusal::NotADirectory => "NotADirectory",
            Refusal::IsADirectory => "IsADirectory",
            Refusal::NotEmpty => "NotEmpty",
            Refusal::IntoItself => "IntoItself",
            Refusal::IsRoot => "IsRoot",
            Refusal::Locked => "Locked",
            Refusal::Preparing => "Preparing",
            Refusal::RollingBack => "RollingBack",
            Refusal::NotUpgrading => "NotUpgrading",
            Refusal::AlreadyUpgrading => "AlreadyUpgrading",
            Refusal::NotQuiet(_) => "NotQuiet",
            Refusal::Unrestored(_) => "Unrestored",
            Refusal::NoServer => "NoServer",
            Refusal::Epoch(_) => "Epoch",
            Refusal::Old => "Old",
            Refusal::NotPrimary => "NotPrimary",
            Refusal::LeaseOver => "LeaseOver",
            Refusal::Stamp(_) => "Stamp",
            Refusal::Gap(_) => "Gap",
            Refusal::NoData => "NoData",
            Refusal::Range => "Range",
            Refusal::TooLong => "TooLong",
            Refusal::Damaged(_) => "Damaged",
            Refusal::NoReplica => "NoReplica",
            Refusal::Unsure => "Unsure",
            Refusal::Full => "Full",
            Refusal::Exhausted => "Exhausted",
            Refusal::Device => "Device",
            Refusal::Memory => "Memory",
            Refusal::BadLine => "BadLine",
            Refusal::Config => "Config",
            Refusal::Pending(_) => "Pending",
            Refusal::Stray => "Stray",
            Refusal::NotHidden => "NotHidden",
        }
    }

    /// The line that is printed for a refusal, without its end: `refused 22 Stamp 0.3`.
    pub fn line(&self, alloc: Global) -> Result<String, AllocError>
        ensures { IfOk result (λ line. string_bytes line ≡ refusal_text self.now) }
    {
        self.to_string(alloc)
    }

    pub fn copy(&self, alloc: Global) -> Result<Refusal, AllocError>
        ensures { IfOk result (λ copy. copy ≡ self.now) }
    {
        Ok(match self {
            Refusal::BadPath => Refusal::BadPath,
            Refusal::HiddenName => Refusal::HiddenName,
            Refusal::NotFound => Refusal::NotFound,
            Refusal::Exists => Refusal::Exists,
            Refusal::NotADirectory => Refusal::NotADirectory,
            Refusal::IsADirectory => Refusal::IsADirectory,
            Refusal::NotEmpty => Refusal::NotEmpty,
            Refusal::IntoItself => Refusal::IntoItself,
            Refusal::IsRoot => Refusal::IsRoot,
            Refusal::Locked => Refusal::Locked,
            Refusal::Preparing => Refusal::Preparing,
            Refusal::RollingBack => Refusal::RollingBack,
            Refusal::NotUpgrading => Refusal::NotUpgrading,
            Refusal::AlreadyUpgrading => Refusal::AlreadyUpgrading,
            Refusal::NotQuiet(handle) => Refusal::NotQuiet(*handle),
            Refusal::Unrestored(handle) => Refusal::Unrestored(*handle),
            Refusal::NoServer => Refusal::NoServer,
            Refusal::Epoch(epoch) => Refusal::Epoch(*epoch),
            Refusal::Old => Refusal::Old,
            Refusal::NotPrimary => Refusal::NotPrimary,
            Refusal::LeaseOver => Refusal::LeaseOver,
            Refusal::Stamp(stamp) => Refusal::Stamp(*stamp),
            Refusal::Gap(count) => Refusal::Gap(*count),
            Refusal::NoData => Refusal::NoData,
            Refusal::Range => Refusal::Range,
            Refusal::TooLong => Refusal::TooLong,
            Refusal::Damaged(block) => Refusal::Damaged(*block),
            Refusal::NoReplica => Refusal::NoReplica,
            Refusal::Unsure => Refusal::Unsure,
            Refusal::Full => Refusal::Full,
            Refusal::Exhausted => Refusal::Exhausted,
            Refusal::Device => Refusal::Device,
            Refusal::Memory => Refusal::Memory,
            Refusal::BadLine => Refusal::BadLine,
            Refusal::Config => Refusal::Config,
            Refusal::Pending(path) => Refusal::Pending(path.copy(alloc)?),
            Refusal::Stray => Refusal::Stray,
            Refusal::NotHidden => Refusal::NotHidden,
        })
    }
}

impl fmt::Display for Refusal {
    ghost use Rattle.std.specs.Prelude.{Some};
    ghost use Rattle.gs_base.specs.Refusals.{refusal_text};

    ghost output = { λ r. Some (refusal_text r) };

    fn fmt<W: fmt::Write>(&self, f: &mut fmt::Formatter<W>) -> fmt::Result {
        let number = self.number();
        let name = self.name();
        match self {
            Refusal::NotQuiet(handle) | Refusal::Unrestored(handle) => {
                write!(f, "refused {number} {name} {handle}")
            }
            Refusal::Epoch(detail) | Refusal::Gap(detail) | Refusal::Damaged(detail) => {
                write!(f, "refused {number} {name} {detail}")
            }
            Refusal::Stamp(stamp) => write!(f, "refused {number} {name} {stamp}"),
            Refusal::Pending(path) => {
                let path = path.as_str();
                write!(f, "refused {number} {name} {path}")
            }
            _ => write!(f, "refused {number} {name}"),
        }
    }
}

impl From<AllocError> for Refusal {
    ghost use Rattle.std.specs.Prelude.{◌≡◌};
    ghost use Rattle.gs_base.specs.declared.refusal.Refusal.TheVariants.{Memory};

    ghost from_gives = { λ _ e. e ≡ Memory };

    fn from(_error: AllocError) -> Refusal {
        Refusal::Memory
    }
}

impl<T: Drop> From<AllocFailed<T>> for Refusal {
    ghost use Rattle.std.specs.Prelude.{◌≡◌};
    ghost use Rattle.gs_base.specs.declared.refusal.Refusal.TheVariants.{Memory};

    ghost from_gives = { λ _ e. e ≡ Memory };

    fn from(_error: AllocFailed<T>) -> Refusal {
        Refusal::Memory
    }
}

impl Refusal {
    ghost use Rattle.gs_base.specs.Same.{first_detail, second_detail, path_detail};

    fn numbers(&self) -> (u64, u64)
        ensures { result ≡ (first_detail self.now, second_detail self.now) }
    {
        match self {
            Refusal::NotQuiet(handle) | Refusal::Unrestored(handle) => (handle.number(), 0),
            Refusal::Epoch(detail) | Refusal::Gap(detail) | Refusal::Damaged(detail) => (
                *detail, 0,
            ),
            Refusal::Stamp(stamp) => (stamp.epoch, stamp.version),
            _ => (0, 0),
        }
    }

    fn path(&self) -> &str
        ensures { result.now ≡ path_detail self.entry.now }
    {
        match self {
            Refusal::Pending(path) => path.as_str(),
            _ => "",
        }
    }
}

impl PartialEq for Refusal {
    ghost use Rattle.gs_base.specs.Same.{is_same};
    ghost use Rattle.gs_base.specs.Same.{is_same-equiv};
    ghost use Rattle.std.specs.Cmp.{partial_equiv_from_equiv};

    ghost eq = { is_same };

    ghost laws = { partial_equiv_from_equiv is_same-equiv };

    #[tactic(auto, unfolding(crate::specs::Same::is_same))]
    fn eq(&self, other: &Refusal) -> bool {
        self.number() == other.number()
            && self.numbers() == other.numbers()
            && self.path() == other.path()
    }
}

impl Eq for Refusal {
    ghost use Rattle.gs_base.specs.Same.{is_same-equiv};

    ghost laws = { is_same-equiv };
}
