ghost use Rattle.std.specs.Prelude.{◌≡◌, ◌≢◌, ◌<◌, [], IfOk, string_bytes, decimal};
ghost use Rattle.gs_base.specs.Told.{detail_text, Told, IsNumberIn, IsStampIn};

use crate::numbers::{Handle, Stamp};
use crate::refusal::{PathText, Refusal};
use std::alloc::{AllocError, Global};

impl Refusal {
    /// The detail as the line of a refusal has it, and nothing where it has none.
    pub fn detail(&self, alloc: Global) -> Result<String, AllocError>
        ensures { IfOk result (λ text. string_bytes text ≡ detail_text self.now) }
    {
        match self {
            Refusal::NotQuiet(handle) | Refusal::Unrestored(handle) => handle.to_string(alloc),
            Refusal::Epoch(detail) | Refusal::Gap(detail) | Refusal::Damaged(detail) => {
                detail.to_string(alloc)
            }
            Refusal::Stamp(stamp) => stamp.to_string(alloc),
            Refusal::Pending(path) => String::from_str(alloc, path.as_str()),
            _ => Ok(String::new(alloc)),
        }
    }

    /// The refusal of this number whose detail has this text, if there is one.
    pub fn told(alloc: Global, number: u8, detail: &str) -> Result<Option<Refusal>, AllocError>
        ensures { IfOk result (Told number detail.now) }
    {
        match number {
            22 => Ok(stamp_in(detail).map(Refusal::Stamp)),
            36 => {
                let text = String::from_str(alloc, detail)?;
                Ok(Some(Refusal::Pending(PathText::new(text))))
            }
            _ if detail.is_empty() => Ok(plain(number)),
            _ => Ok(number_in(detail).and_then(|detail| numbered(number, detail))),
        }
    }
}

/// The refusal of a number, if it is one without a detail.
fn plain(number: u8) -> Option<Refusal>
    requires { number ≢ 36 }
    ensures { Told number [] result }
{
    Some(match number {
        1 => Refusal::BadPath,
        2 => Refusal::HiddenName,
        3 => Refusal::NotFound,
        4 => Refusal::Exists,
        5 => Refusal::NotADirectory,
        6 => Refusal::IsADirectory,
        7 => Refusal::NotEmpty,
        8 => Refusal::IntoItself,
        9 => Refusal::IsRoot,
        10 => Refusal::Locked,
        11 => Refusal::Preparing,
        12 => Refusal::RollingBack,
        13 => Refusal::NotUpgrading,
        14 => Refusal::AlreadyUpgrading,
        17 => Refusal::NoServer,
        19 => Refusal::Old,
        20 => Refusal::NotPrimary,
        21 => Refusal::LeaseOver,
        24 => Refusal::NoData,
        25 => Refusal::Range,
        26 => Refusal::TooLong,
        28 => Refusal::NoReplica,
        29 => Refusal::Unsure,
        30 => Refusal::Full,
        31 => Refusal::Exhausted,
        32 => Refusal::Device,
        33 => Refusal::Memory,
        34 => Refusal::BadLine,
        35 => Refusal::Config,
        37 => Refusal::Stray,
        38 => Refusal::NotHidden,
        _ => return None,
    })
}

/// The refusal of a number whose detail is a number.
fn numbered(number: u8, detail: u64) -> Option<Refusal>
    requires stamp { number ≢ 22 }
    requires path { number ≢ 36 }
    ensures { Told number (decimal detail) result }
{
    match number {
        15 => Some(Refusal::NotQuiet(Handle::new(detail)?)),
        16 => Some(Refusal::Unrestored(Handle::new(detail)?)),
        18 => Some(Refusal::Epoch(detail)),
        23 => Some(Refusal::Gap(detail)),
        27 => Some(Refusal::Damaged(detail)),
        _ => None,
    }
}

fn stamp_in(text: &str) -> Option<Stamp>
    ensures { IsStampIn text.now result }
{
    let (epoch, version) = text.split_once('.')?;
    Some(Stamp {
        epoch: number_in(epoch)?,
        version: number_in(version)?,
    })
}

/// The number that is printed so.
fn number_in(text: &str) -> Option<u64>
    ensures { IsNumberIn text.now result }
{
    // Rust's reader of numbers takes a plus, and zeros in front.
    if text.starts_with('+') {
        return None;
    }
    if text.len() > 1 && text.starts_with('0') {
        return None;
    }
    text.parse::<u64>().ok()
}
