// Calls and answers of the master as they stand in a line.
ghost use Rattle.std.specs.Prelude.{◌++◌, codes, decimal};
ghost use Rattle.std.specs.Fmt.{WritesOnOk};
ghost use Rattle.gs_path.specs.Path.{path_text};

use crate::answer::{Answer, Phase, Status};
use crate::call::Call;
use crate::text::{PathText, ViewText};
use gs_path::Path;
use std::fmt;

/// Writes a word and a path.
fn write_path<W: fmt::Write>(f: &mut fmt::Formatter<W>, word: &str, path: &Path) -> fmt::Result
    ensures { WritesOnOk W.write_str_gives f.old result (word.now ++ (codes " " ++ path_text path.now)) f.new }
{
    let path = PathText(path);
    write!(f, "{word} {path}")
}

/// Writes a word and two paths.
fn write_paths<W: fmt::Write>(
    f: &mut fmt::Formatter<W>,
    word: &str,
    from: &Path,
    to: &Path,
) -> fmt::Result
    ensures { WritesOnOk W.write_str_gives f.old result (word.now ++ (codes " " ++ (path_text from.now ++ (codes " " ++ path_text to.now)))) f.new }
{
    let from = PathText(from);
    let to = PathText(to);
    write!(f, "{word} {from} {to}")
}

/// Writes a word, a path and an index.
fn write_index<W: fmt::Write>(
    f: &mut fmt::Formatter<W>,
    word: &str,
    path: &Path,
    index: u64,
) -> fmt::Result
    ensures { WritesOnOk W.write_str_gives f.old result (word.now ++ (codes " " ++ (path_text path.now ++ (codes " " ++ decimal index)))) f.new }
{
    let path = PathText(path);
    write!(f, "{word} {path} {index}")
}

impl fmt::Display for Call {
    ghost use Rattle.std.specs.Prelude.{Some};
    ghost use Rattle.gs_msg.specs.Texts.{call_text};

    ghost output = { λ c. Some (call_text c) };

    fn fmt<W: fmt::Write>(&self, f: &mut fmt::Formatter<W>) -> fmt::Result {
        match self {
            Call::Mkdirs(path) => write_path(f, "mkdirs", path),
            Call::Create(path) => write_path(f, "create", path),
            Call::Rename { from, to } => write_paths(f, "rename", from, to),
            Call::Delete { path, recursive } => {
                let path = PathText(path);
                write!(f, "delete {path} {recursive}")
            }
            Call::Undelete(path) => write_path(f, "undelete", path),
            Call::Snapshot { from, to } => write_paths(f, "snapshot", from, to),
            Call::List(path) => write_path(f, "list", path),
            Call::Status(path) => write_path(f, "status", path),
            Call::FindForReading { path, index } => write_index(
                f,
                "find-for-reading",
                path,
                *index,
            ),
            Call::FindForWriting {
                path,
                index,
                refused,
            } => {
                let path = PathText(path);
                match refused {
                    Some(stamp) => write!(f, "find-for-writing {path} {index} {stamp}"),
                    None => write!(f, "find-for-writing {path} {index} -"),
                }
            }
            Call::Extend { path, index } => write_index(f, "extend", path, *index),
            Call::Scan => f.write_str("scan"),
            Call::Replicate => f.write_str("replicate"),
            Call::Query => f.write_str("query"),
            Call::PrepareBegin => f.write_str("prepare-begin"),
            Call::PrepareCommit => f.write_str("prepare-commit"),
            Call::PrepareAbort => f.write_str("prepare-abort"),
            Call::Finalize => f.write_str("finalize"),
            Call::RollbackBegin => f.write_str("rollback-begin"),
            Call::RollbackCommit => f.write_str("rollback-commit"),
        }
    }
}

impl fmt::Display for Phase {
    ghost use Rattle.std.specs.Prelude.{Some};
    ghost use Rattle.gs_msg.specs.Texts.{phase_text};

    ghost output = { λ p. Some (phase_text p) };

    fn fmt<W: fmt::Write>(&self, f: &mut fmt::Formatter<W>) -> fmt::Result {
        match self {
            Phase::Ordinary => f.write_str("ordinary"),
            Phase::Preparing => f.write_str("preparing"),
            Phase::Upgrade => f.write_str("upgrade"),
            Phase::Rolling => f.write_str("rolling"),
        }
    }
}

impl fmt::Display for Status {
    ghost use Rattle.std.specs.Prelude.{Some};
    ghost use Rattle.gs_msg.specs.Texts.{status_text};

    ghost output = { λ s. Some (status_text s) };

    fn fmt<W: fmt::Write>(&self, f: &mut fmt::Formatter<W>) -> fmt::Result {
        match self {
            Status::Directory => f.write_str("dir"),
            Status::File(chunks) => write!(f, "file {chunks}"),
        }
    }
}

impl fmt::Display for Answer {
    ghost use Rattle.std.specs.Prelude.{Some};
    ghost use Rattle.gs_msg.specs.Texts.{answer_text};

    ghost output = { λ a. Some (answer_text a) };

    fn fmt<W: fmt::Write>(&self, f: &mut fmt::Formatter<W>) -> fmt::Result {
        match self {
            Answer::Nothing => f.write_str("ok"),
            Answer::Path(path) => write_path(f, "path", path),
            Answer::Absent => f.write_str("absent"),
            Answer::Names(names) => write!(f, "names {names}"),
            Answer::Status(status) => write!(f, "{status}"),
            Answer::Location {
                handle,
                view,
                epoch,
            } => {
                let view = ViewText(view);
                write!(f, "location {handle} {view} {epoch}")
            }
            Answer::Scanned { removed, forgotten } => write!(f, "scanned {removed} {forgotten}"),
            Answer::Copied(Some(copied)) => {
                let handle = copied.handle;
                let server = copied.server;
                write!(f, "copied {handle} {server}")
            }
            Answer::Copied(None) => f.write_str("none"),
            Answer::Epoch(epoch) => write!(f, "epoch {epoch}"),
            Answer::Phase { phase, epoch } => write!(f, "{phase} {epoch}"),
        }
    }
}
