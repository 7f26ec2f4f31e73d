ghost use Rattle.std.specs.Prelude.{◌≡◌};
ghost use Rattle.gs_shell_calls.specs.Asked.{answered, at_phase, hidden, scanned};
ghost use Rattle.gs_shell_calls.specs.Asked.{done as is_done};
ghost use Rattle.gs_shell_calls.specs.declared.answer.Answer.TheVariants as answers;

use gs_base::Refusal;
use gs_block::Digest;
use gs_client::Stat;
use gs_msg::{Bytes, Copied, Names, Phase};
use gs_path::Path;

/// What is answered to a line that isn't refused.
#[derive(Debug, Drop)]
pub enum Answer {
    Done,
    /// What `ls` lists.
    Names(Names),
    Stat(Stat),
    /// Where a deleted entry is hidden, or where it stands again.
    Path(Path),
    /// Nothing stood where something was to be deleted.
    Missing,
    /// Where in its file an appended record stands, how many drops a beat brought, or the epoch that holds.
    Number(u64),
    Bytes(Bytes),
    Digest(Digest),
    /// How many paths a scan removed, and how many chunks it forgot.
    Scanned { removed: u64, forgotten: u64 },
    Copied(Option<Copied>),
    Phase { phase: Phase, epoch: u64 },
}

/// The answer to what was done.
pub fn done(came: Result<(), Refusal>) -> Result<Answer, Refusal>
    ensures { result ≡ answered is_done came }
{
    match came {
        Ok(()) => Ok(Answer::Done),
        Err(refusal) => Err(refusal),
    }
}

pub fn number(came: Result<u64, Refusal>) -> Result<Answer, Refusal>
    ensures { result ≡ answered answers.Number came }
{
    match came {
        Ok(number) => Ok(Answer::Number(number)),
        Err(refusal) => Err(refusal),
    }
}

pub(crate) fn names(came: Result<Names, Refusal>) -> Result<Answer, Refusal>
    ensures { result ≡ answered answers.Names came }
{
    match came {
        Ok(names) => Ok(Answer::Names(names)),
        Err(refusal) => Err(refusal),
    }
}

pub(crate) fn stat(came: Result<Stat, Refusal>) -> Result<Answer, Refusal>
    ensures { result ≡ answered answers.Stat came }
{
    match came {
        Ok(stat) => Ok(Answer::Stat(stat)),
        Err(refusal) => Err(refusal),
    }
}

pub(crate) fn path(came: Result<Path, Refusal>) -> Result<Answer, Refusal>
    ensures { result ≡ answered answers.Path came }
{
    match came {
        Ok(path) => Ok(Answer::Path(path)),
        Err(refusal) => Err(refusal),
    }
}

pub(crate) fn hidden(came: Result<Option<Path>, Refusal>) -> Result<Answer, Refusal>
    ensures { result ≡ answered hidden came }
{
    match came {
        Ok(Some(path)) => Ok(Answer::Path(path)),
        Ok(None) => Ok(Answer::Missing),
        Err(refusal) => Err(refusal),
    }
}

pub(crate) fn scanned(came: Result<(u64, u64), Refusal>) -> Result<Answer, Refusal>
    ensures { result ≡ answered scanned came }
{
    match came {
        Ok((removed, forgotten)) => Ok(Answer::Scanned { removed, forgotten }),
        Err(refusal) => Err(refusal),
    }
}

pub(crate) fn copied(came: Result<Option<Copied>, Refusal>) -> Result<Answer, Refusal>
    ensures { result ≡ answered answers.Copied came }
{
    match came {
        Ok(copied) => Ok(Answer::Copied(copied)),
        Err(refusal) => Err(refusal),
    }
}

pub(crate) fn phase(came: Result<(Phase, u64), Refusal>) -> Result<Answer, Refusal>
    ensures { result ≡ answered at_phase came }
{
    match came {
        Ok((phase, epoch)) => Ok(Answer::Phase { phase, epoch }),
        Err(refusal) => Err(refusal),
    }
}

pub(crate) fn bytes(came: Result<Bytes, Refusal>) -> Result<Answer, Refusal>
    ensures { result ≡ answered answers.Bytes came }
{
    match came {
        Ok(bytes) => Ok(Answer::Bytes(bytes)),
        Err(refusal) => Err(refusal),
    }
}

pub(crate) fn digest(came: Result<Digest, Refusal>) -> Result<Answer, Refusal>
    ensures { result ≡ answered answers.Digest came }
{
    match came {
        Ok(digest) => Ok(Answer::Digest(digest)),
        Err(refusal) => Err(refusal),
    }
}
