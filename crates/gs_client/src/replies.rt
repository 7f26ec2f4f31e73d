//! What replies say to the client that waits for them.
ghost use Rattle.std.specs.Prelude.{◌≡◌};
ghost use Rattle.gs_client.specs.Replies as says;
ghost use Rattle.gs_client.specs.Trees.{and_then};

use crate::link::Reply;
use gs_base::Refusal;
use gs_block::Digest;
use gs_client_part::Located;
use gs_msg::{Answer, Asked, Bytes, ChunkStatus, Copied, Given, Items, Names, Phase, Status};
use gs_path::Path;
use gs_replica::EditOutcome;

/// The refusal of a request that may have changed something.
fn unsure_or(refusal: Refusal) -> Refusal
    ensures { result ≡ says.unsure_or refusal }
{
    match refusal {
        Refusal::Memory | Refusal::Device => Refusal::Unsure,
        other => other,
    }
}

/// Why a request that may have changed something has no answer of the kind that is waited for.
fn unsettled(reply: Reply) -> Refusal
    ensures { result ≡ says.unsettled reply }
{
    match reply {
        Reply::Refused(refusal) => unsure_or(refusal),
        Reply::Lost => Refusal::Unsure,
        _ => Refusal::Stray,
    }
}

/// What the master says to a call that changes something.
pub(crate) fn changed(reply: Reply) -> Result<Answer, Refusal>
    ensures { result ≡ says.changed reply }
{
    match reply {
        Reply::Answer(answer) => Ok(answer),
        other => Err(unsettled(other)),
    }
}

/// What the master says to a call that only looks.
pub(crate) fn looked(reply: Reply) -> Result<Answer, Refusal>
    ensures { result ≡ says.looked reply }
{
    match reply {
        Reply::Answer(answer) => Ok(answer),
        Reply::Refused(refusal) => Err(refusal),
        Reply::Lost => Err(Refusal::NoReplica),
        _ => Err(Refusal::Stray),
    }
}

pub(crate) fn nothing_in(answer: Result<Answer, Refusal>) -> Result<(), Refusal>
    ensures { result ≡ and_then says.nothing_in answer }
{
    match answer? {
        Answer::Nothing => Ok(()),
        _ => Err(Refusal::Stray),
    }
}

pub(crate) fn path_in(answer: Result<Answer, Refusal>) -> Result<Path, Refusal>
    ensures { result ≡ and_then says.path_in answer }
{
    match answer? {
        Answer::Path(path) => Ok(path),
        _ => Err(Refusal::Stray),
    }
}

pub(crate) fn deleted_in(answer: Result<Answer, Refusal>) -> Result<Option<Path>, Refusal>
    ensures { result ≡ and_then says.deleted_in answer }
{
    match answer? {
        Answer::Path(path) => Ok(Some(path)),
        Answer::Absent => Ok(None),
        _ => Err(Refusal::Stray),
    }
}

pub(crate) fn names_in(answer: Result<Answer, Refusal>) -> Result<Names, Refusal>
    ensures { result ≡ and_then says.names_in answer }
{
    match answer? {
        Answer::Names(names) => Ok(names),
        _ => Err(Refusal::Stray),
    }
}

pub(crate) fn status_in(answer: Result<Answer, Refusal>) -> Result<Status, Refusal>
    ensures { result ≡ and_then says.status_in answer }
{
    match answer? {
        Answer::Status(status) => Ok(status),
        _ => Err(Refusal::Stray),
    }
}

pub(crate) fn chunks_in(status: Status) -> Result<Items<ChunkStatus>, Refusal>
    ensures { result ≡ says.chunks_in status }
{
    match status {
        Status::Directory => Err(Refusal::IsADirectory),
        Status::File(chunks) => Ok(chunks),
    }
}

pub(crate) fn located_in(index: u64, answer: Result<Answer, Refusal>) -> Result<Located, Refusal>
    ensures { result ≡ and_then (says.located_in index) answer }
{
    let answer = answer?;
    match &answer {
        Answer::Location {
            handle,
            view,
            epoch,
        } => Ok(Located {
            index,
            handle: *handle,
            view: *view,
            epoch: *epoch,
        }),
        _ => Err(Refusal::Stray),
    }
}

pub(crate) fn scanned_in(answer: Result<Answer, Refusal>) -> Result<(u64, u64), Refusal>
    ensures { result ≡ and_then says.scanned_in answer }
{
    match answer? {
        Answer::Scanned { removed, forgotten } => Ok((removed, forgotten)),
        _ => Err(Refusal::Stray),
    }
}

pub(crate) fn copied_in(answer: Result<Answer, Refusal>) -> Result<Option<Copied>, Refusal>
    ensures { result ≡ and_then says.copied_in answer }
{
    let answer = answer?;
    match &answer {
        Answer::Copied(copied) => Ok(*copied),
        _ => Err(Refusal::Stray),
    }
}

pub(crate) fn epoch_in(answer: Result<Answer, Refusal>) -> Result<u64, Refusal>
    ensures { result ≡ and_then says.epoch_in answer }
{
    match answer? {
        Answer::Epoch(epoch) => Ok(epoch),
        _ => Err(Refusal::Stray),
    }
}

pub(crate) fn phase_in(answer: Result<Answer, Refusal>) -> Result<(Phase, u64), Refusal>
    ensures { result ≡ and_then says.phase_in answer }
{
    match answer? {
        Answer::Phase { phase, epoch } => Ok((phase, epoch)),
        _ => Err(Refusal::Stray),
    }
}

/// What an edit came to.
pub(crate) fn edited(reply: Reply) -> Result<EditOutcome, Refusal>
    ensures { result ≡ says.edited reply }
{
    match reply {
        Reply::Outcome(outcome) => Ok(outcome),
        other => Err(unsettled(other)),
    }
}

/// What a member gives, or the last refusal so far.
pub(crate) fn given(last: Refusal, reply: Reply) -> Result<Given, Refusal>
    ensures { result ≡ says.given last reply }
{
    match reply {
        Reply::Given(given) => Ok(given),
        Reply::Refused(refusal) => Err(refusal),
        Reply::Lost => Err(last),
        _ => Err(Refusal::Stray),
    }
}

/// The bytes that were asked for, and no more of them.
pub(crate) fn bytes_in(asked: Asked, given: Given) -> Result<Bytes, Refusal>
    ensures { result ≡ says.bytes_in asked given }
{
    match (asked, given) {
        (Asked::Bytes { length, .. }, Given::Bytes(bytes)) => as_many(length, bytes),
        _ => Err(Refusal::Stray),
    }
}

fn as_many(length: u64, bytes: Bytes) -> Result<Bytes, Refusal>
    ensures { result ≡ says.as_many length bytes }
{
    if bytes.as_slice().len() as u64 > length {
        return Err(Refusal::Stray);
    }
    Ok(bytes)
}

pub(crate) fn length_in(given: Given) -> Result<u64, Refusal>
    ensures { result ≡ says.length_in given }
{
    match given {
        Given::Length(length) => Ok(length),
        _ => Err(Refusal::Stray),
    }
}

pub(crate) fn digest_in(given: Given) -> Result<Digest, Refusal>
    ensures { result ≡ says.digest_in given }
{
    match given {
        Given::Digest(digest) => Ok(digest),
        _ => Err(Refusal::Stray),
    }
}

/// Whether an edit that was refused so is tried once more.
pub(crate) fn is_stale(refusal: &Refusal) -> bool
    ensures { result ≡ says.is_stale refusal.now }
{
    matches!(
        refusal,
        Refusal::NotPrimary | Refusal::LeaseOver | Refusal::Stamp(_) | Refusal::NoData
    )
}

/// Whether the location was as good as before.
pub(crate) fn is_location_good(refusal: &Refusal) -> bool
    ensures { result ≡ says.is_location_good refusal.now }
{
    matches!(refusal, Refusal::NoData)
}
