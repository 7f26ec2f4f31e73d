// The texts of answers.
ghost use Rattle.std.specs.Prelude.{◌≡◌, ◌++◌, IfOk, codes, decimal, string_bytes};
ghost use Rattle.gs_msg.specs.Texts.{chunk_status_text, name_text, phase_text};
ghost use Rattle.gs_shell_calls.specs.Texts.{accepted_text, answer_text, bytes_text, chunks_text, copied_text, names_text, stat_text};

use crate::answer::Answer;
use gs_base::Refusal;
use gs_client::Stat;
use gs_msg::{ChunkStatus, Copied, ListedName, Phase};
use std::alloc::{AllocError, Global};

/// One more name, behind a space.
fn push_name(text: &mut String, child: &ListedName) -> Result<(), AllocError>
    ensures { IfOk result (λ _. string_bytes text.new ≡ string_bytes text.old ++ (codes " " ++ name_text child.now)) }
{
    text.push_str(" ")?;
    text.push_str(child.name.as_str())?;
    if child.is_directory {
        text.push_str("/")?;
    }
    Ok(())
}

/// The names of an answer, each behind a space.
fn names_text(alloc: Global, names: &[ListedName]) -> Result<String, AllocError>
    ensures { IfOk result (λ text. string_bytes text ≡ codes "ok" ++ names_text names.now) }
{
    let mut text = String::from_str(alloc, "ok")?;
    for child in names {
        push_name(&mut text, child)?;
    }
    Ok(text)
}

/// What is known of a chunk, behind a space.
fn chunk_text(alloc: Global, chunk: &ChunkStatus) -> Result<String, AllocError>
    ensures { IfOk result (λ text. string_bytes text ≡ codes " " ++ chunk_status_text chunk.now) }
{
    let handle = chunk.handle;
    let references = chunk.references;
    let members = chunk.members;
    format!(in alloc; " {handle}/{references}/{members}")
}

/// A file's length, and for each chunk its handle, how often it is referenced, and its members.
fn file_text(alloc: Global, length: u64, chunks: &[ChunkStatus]) -> Result<String, AllocError>
    ensures { IfOk result (λ text. string_bytes text ≡ codes "ok file " ++ (decimal length ++ chunks_text chunks.now)) }
{
    let mut text = format!(in alloc; "ok file {length}")?;
    for chunk in chunks {
        let part = chunk_text(alloc, chunk)?;
        text.push_str(&part)?;
    }
    Ok(text)
}

fn stat_text(alloc: Global, stat: &Stat) -> Result<String, AllocError>
    ensures { IfOk result (λ text. string_bytes text ≡ stat_text stat.now) }
{
    match stat {
        Stat::Directory => String::from_str(alloc, "ok dir"),
        Stat::File { length, chunks } => file_text(alloc, *length, chunks.as_slice()),
    }
}

/// Bytes in hex, or nothing where there are none.
fn bytes_text(alloc: Global, bytes: &[u8]) -> Result<String, AllocError>
    ensures { IfOk result (λ text. string_bytes text ≡ bytes_text bytes.now) }
{
    if bytes.is_empty() {
        return String::from_str(alloc, "ok");
    }
    let hex = hex::encode(alloc, bytes)?;
    format!(in alloc; "ok {hex}")
}

fn copied_text(alloc: Global, copied: Option<Copied>) -> Result<String, AllocError>
    ensures { IfOk result (λ text. string_bytes text ≡ copied_text copied) }
{
    match copied {
        Some(copied) => {
            let handle = copied.handle;
            let server = copied.server;
            format!(in alloc; "ok {handle} {server}")
        }
        None => String::from_str(alloc, "ok none"),
    }
}

fn phase_name(phase: Phase) -> &'static str
    ensures { result.now ≡ phase_text phase }
{
    match phase {
        Phase::Ordinary => "ordinary",
        Phase::Preparing => "preparing",
        Phase::Upgrade => "upgrade",
        Phase::Rolling => "rolling",
    }
}

fn phase_text(alloc: Global, phase: Phase, epoch: u64) -> Result<String, AllocError>
    ensures { IfOk result (λ text. string_bytes text ≡ codes "ok " ++ (phase_text phase ++ (codes " " ++ decimal epoch))) }
{
    let name = phase_name(phase);
    format!(in alloc; "ok {name} {epoch}")
}

fn accepted_text(alloc: Global, answer: &Answer) -> Result<String, AllocError>
    ensures { IfOk result (λ text. string_bytes text ≡ accepted_text answer.now) }
{
    match answer {
        Answer::Done => String::from_str(alloc, "ok"),
        Answer::Names(names) => names_text(alloc, names.as_slice()),
        Answer::Stat(stat) => stat_text(alloc, stat),
        Answer::Path(path) => {
            let path = path.text(alloc)?;
            format!(in alloc; "ok {path}")
        }
        Answer::Missing => String::from_str(alloc, "ok false"),
        Answer::Number(number) => format!(in alloc; "ok {number}"),
        Answer::Bytes(bytes) => bytes_text(alloc, bytes.as_slice()),
        Answer::Digest(digest) => bytes_text(alloc, digest),
        Answer::Scanned { removed, forgotten } => format!(in alloc; "ok {removed} {forgotten}"),
        Answer::Copied(copied) => copied_text(alloc, *copied),
        Answer::Phase { phase, epoch } => phase_text(alloc, *phase, *epoch),
    }
}

/// The text of what a line came to, without the line's end.
pub fn text(alloc: Global, answer: &Result<Answer, Refusal>) -> Result<String, AllocError>
    ensures { IfOk result (λ text. string_bytes text ≡ answer_text answer.now) }
{
    match answer {
        Ok(answer) => accepted_text(alloc, answer),
        Err(refusal) => refusal.line(alloc),
    }
}
