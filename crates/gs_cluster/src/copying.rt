// Copies of what comes back to a caller.
ghost use Rattle.std.specs.Prelude.{◌≡◌, ◌⊎◌, true, MatchOption};
ghost use Rattle.gs_cluster.specs.Calling.{answer_takes_memory, given_takes_memory, refusal_takes_memory, takes_memory};

use gs_base::Refusal;
use gs_client::Reply;
use gs_msg::{Answer, Given};
use std::alloc::Global;

/// A copy of a refusal that takes no memory.
fn plain_refusal(refusal: &Refusal) -> Option<Refusal>
    ensures { MatchOption result (refusal_takes_memory refusal.now ≡ true) (λ copy. copy ≡ refusal.now) }
{
    Some(match refusal {
        Refusal::BadPath => Refusal::BadPath,
        Refusal::HiddenName => Refusal::HiddenName,
        Refusal::NotFound => Refusal::NotFound,
        Refusal::Exists => Refusal::Exists,
        Refusal::NotADirectory => Refusal::NotADirectory,
        Refusal::IsADirectory => Refusal::IsADirectory,
        Refusal::NotEmpty => Refusal::NotEmpty,
        Refusal::IntoItself => Refusal::IntoItself,
        Refusal::IsRoot => Refusal::IsRoot,
        Refusal::Locked => Refusal::Locked,
        Refusal::Preparing => Refusal::Preparing,
        Refusal::RollingBack => Refusal::RollingBack,
        Refusal::NotUpgrading => Refusal::NotUpgrading,
        Refusal::AlreadyUpgrading => Refusal::AlreadyUpgrading,
        Refusal::NotQuiet(handle) => Refusal::NotQuiet(*handle),
        Refusal::Unrestored(handle) => Refusal::Unrestored(*handle),
        Refusal::NoServer => Refusal::NoServer,
        Refusal::Epoch(epoch) => Refusal::Epoch(*epoch),
        Refusal::Old => Refusal::Old,
        Refusal::NotPrimary => Refusal::NotPrimary,
        Refusal::LeaseOver => Refusal::LeaseOver,
        Refusal::Stamp(stamp) => Refusal::Stamp(*stamp),
        Refusal::Gap(count) => Refusal::Gap(*count),
        Refusal::NoData => Refusal::NoData,
        Refusal::Range => Refusal::Range,
        Refusal::TooLong => Refusal::TooLong,
        Refusal::Damaged(block) => Refusal::Damaged(*block),
        Refusal::NoReplica => Refusal::NoReplica,
        Refusal::Unsure => Refusal::Unsure,
        Refusal::Full => Refusal::Full,
        Refusal::Exhausted => Refusal::Exhausted,
        Refusal::Device => Refusal::Device,
        Refusal::Memory => Refusal::Memory,
        Refusal::BadLine => Refusal::BadLine,
        Refusal::Config => Refusal::Config,
        Refusal::Pending(_) => return None,
        Refusal::Stray => Refusal::Stray,
        Refusal::NotHidden => Refusal::NotHidden,
    })
}

/// A copy of an answer that takes no memory.
fn plain_answer(answer: &Answer) -> Option<Answer>
    ensures { MatchOption result (answer_takes_memory answer.now ≡ true) (λ copy. copy ≡ answer.now) }
{
    Some(match answer {
        Answer::Nothing => Answer::Nothing,
        Answer::Absent => Answer::Absent,
        Answer::Location {
            handle,
            view,
            epoch,
        } => Answer::Location {
            handle: *handle,
            view: *view,
            epoch: *epoch,
        },
        Answer::Scanned { removed, forgotten } => Answer::Scanned {
            removed: *removed,
            forgotten: *forgotten,
        },
        Answer::Copied(copied) => Answer::Copied(*copied),
        Answer::Epoch(epoch) => Answer::Epoch(*epoch),
        Answer::Phase { phase, epoch } => Answer::Phase {
            phase: *phase,
            epoch: *epoch,
        },
        Answer::Path(_) | Answer::Names(_) | Answer::Status(_) => return None,
    })
}

/// A copy of what a fetch gives that takes no memory.
fn plain_given(given: &Given) -> Option<Given>
    ensures { MatchOption result (given_takes_memory given.now ≡ true) (λ copy. copy ≡ given.now) }
{
    match given {
        Given::Bytes(_) => None,
        Given::Length(length) => Some(Given::Length(*length)),
        Given::Digest(digest) => Some(Given::Digest(*digest)),
    }
}

/// A copy of a reply that takes no memory.
fn plain(reply: &Reply) -> Option<Reply>
    ensures { MatchOption result (takes_memory reply.now ≡ true) (λ copy. copy ≡ reply.now) }
{
    match reply {
        Reply::Answer(answer) => Some(Reply::Answer(plain_answer(answer)?)),
        Reply::Outcome(outcome) => Some(Reply::Outcome(*outcome)),
        Reply::Given(given) => Some(Reply::Given(plain_given(given)?)),
        Reply::Refused(refusal) => Some(Reply::Refused(plain_refusal(refusal)?)),
        Reply::Lost => Some(Reply::Lost),
    }
}

/// A copy of a reply, or want of memory for one that takes some.
pub(crate) fn copy_of(alloc: Global, reply: &Reply) -> Reply
    ensures { (result ≡ reply.now) ⊎ ((result ≡ Reply.Refused Refusal.Memory) × (takes_memory reply.now ≡ true)) }
{
    if let Some(copy) = plain(reply) {
        return copy;
    }
    match reply.copy(alloc) {
        Ok(copy) => copy,
        Err(_) => Reply::Refused(Refusal::Memory),
    }
}
