//! What is read of a file.
ghost use Rattle.std.specs.Prelude.{◌≡◌, ◌≤◌, ◌*◌, ◌/◌, ◌%◌, IfOk, IfSome};
ghost use Rattle.gs_client_dialogue.specs.Dialogues.{FollowsDialogue};
ghost use Rattle.gs_client.specs.Sends.{Sends};
ghost use Rattle.gs_client.specs.Trees.{and_then};
ghost use Rattle.gs_client.specs.Replies.{length_in};
ghost use Rattle.gs_client.specs.Reading.{within, length_call, stored_call, digest_call, stat_call};
ghost use Rattle.gs_client.specs.inner.Asks.{end_of, pieces_of, range_of};

use crate::client::Client;
use crate::link::Link;
use crate::looking::{self, Wanted};
use crate::replies;
use gs_base::Refusal;
use gs_block::Digest;
use gs_client_part::Located;
use gs_client_part::reading::{add_piece, bytes_of, piece_end, span};
use gs_msg::{Asked, Bytes, ChunkStatus, Given, Items, Status};
use gs_path::Path;

/// What stands at a path.
#[derive(Debug, Drop)]
pub enum Stat {
    Directory,
    /// A file, with its length in bytes and its chunks in order.
    File {
        length: u64,
        chunks: Items<ChunkStatus>,
    },
}

/// A file as it is remembered: how many chunks it has, if that is known, and where one of them is.
#[derive(Clone, Copy)]
pub(crate) struct Opened<'p> {
    pub(crate) path: &'p Path,
    pub(crate) opened: Option<u64>,
    pub(crate) known: Option<Located>,
}

/// A file of so many chunks of this size, and where one of them is.
#[derive(Clone, Copy)]
struct Counted<'p> {
    size: u64,
    path: &'p Path,
    chunks: u64,
    known: Option<Located>,
    ghost some: { 1 ≤ size },
    ghost bounded: { size ≤ 67108864 },
    ghost few: { chunks ≤ 4096 },
}

/// A range of a file's bytes, perhaps behind its end.
#[derive(Clone, Copy)]
pub(crate) struct Range {
    pub(crate) offset: u64,
    pub(crate) many: u64,
}

/// How many bytes a chunk stores.
fn length_within(size: u64, given: Given) -> Result<u64, Refusal>
    ensures is { result ≡ and_then (within size) (length_in given) }
    ensures few { IfOk result (λ many. many ≤ size) }
{
    let many = replies::length_in(given)?;
    if many <= size {
        return Ok(many);
    }
    Err(Refusal::Stray)
}

impl Client {
    /// How many bytes a file has.
    fn length<L: Link>(
        &mut self,
        link: &mut L,
        file: &Counted<'_>,
    ) -> Result<(u64, Option<Located>), Refusal>
        ensures is { FollowsDialogue (Sends L.Carries) (length_call file.now.size file.now.path.now file.now.known file.now.chunks) (self.old, link.old) result (self.new, link.new) }
        ensures few { IfOk result (λ l. l.0 ≤ 4096 * file.now.size) }
    {
        if file.chunks == 0 {
            return Ok((0, file.known));
        }
        let last = file.chunks - 1;
        let wanted = Wanted {
            path: file.path,
            index: last,
            asked: Asked::Length,
        };
        let (given, located) = self.fetch(link, wanted, file.known)?;
        let many = length_within(file.size, given)?;
        Ok((bytes_of(last, file.size) + many, Some(located)))
    }

    /// Where a read ends. No length is asked for where it ends in chunks that are full.
    fn end<L: Link>(
        &mut self,
        link: &mut L,
        file: &Counted<'_>,
        range: Range,
    ) -> Result<(u64, Option<Located>), Refusal>
        ensures is { FollowsDialogue (Sends L.Carries) (end_of file.now.size file.now.path.now file.now.known file.now.chunks range) (self.old, link.old) result (self.new, link.new) }
        ensures few { IfOk result (λ e. e.0 ≤ 4096 * file.now.size) }
    {
        let full = bytes_of(file.chunks.saturating_sub(1), file.size);
        let end = range.offset.saturating_add(range.many);
        if end <= full {
            return Ok((end, file.known));
        }
        let (length, known) = self.length(link, file)?;
        if length < range.offset {
            return Err(Refusal::Range);
        }
        Ok((end.min(length), known))
    }

    /// What a member stores of a part of a chunk.
    fn stored<L: Link>(
        &mut self,
        link: &mut L,
        wanted: Wanted<'_>,
        known: Option<Located>,
    ) -> Result<(Bytes, Located), Refusal>
        ensures { FollowsDialogue (Sends L.Carries) (stored_call wanted.entry.path.now known wanted.entry.index wanted.entry.asked) (self.old, link.old) result (self.new, link.new) }
    {
        let asked = wanted.asked;
        let (given, located) = self.fetch(link, wanted, known)?;
        let bytes = replies::bytes_in(asked, given)?;
        Ok((bytes, located))
    }

    /// What its chunks give of a file between two places.
    fn pieces<L: Link>(
        &mut self,
        link: &mut L,
        file: &Counted<'_>,
        offset: u64,
        end: u64,
    ) -> Result<(Bytes, Option<Located>), Refusal>
        requires { end ≤ 4096 * file.now.size }
        ensures { FollowsDialogue (Sends L.Carries) (pieces_of file.now.size file.now.path.now file.now.known file.now.chunks offset end) (self.old, link.old) result (self.new, link.new) }
    {
        let count = span(file.size, offset, end);
        let first = offset / file.size;
        let mut start = offset % file.size;
        let mut known = file.known;
        let mut read = Vec::new(self.alloc);
        for i in 0..count {
            let index = first + i;
            let many = piece_end(file.size, end, index).saturating_sub(start);
            let wanted = Wanted {
                path: file.path,
                index,
                asked: Asked::Bytes {
                    offset: start,
                    length: many,
                },
            };
            let (bytes, located) = self.stored(link, wanted, known)?;
            add_piece(&mut read, bytes, many, index + 1 == file.chunks)?;
            known = Some(located);
            start = 0;
        }
        Ok((Bytes::new(read), known))
    }

    /// What is read of a file, and the location that is remembered then.
    pub(crate) fn read<L: Link>(
        &mut self,
        link: &mut L,
        file: &Opened<'_>,
        range: Range,
    ) -> Result<(Bytes, Option<Located>), Refusal>
        requires { IfSome file.now.opened (λ chunks. chunks ≤ 4096) }
        ensures { FollowsDialogue (Sends L.Carries) (range_of self.old.chunk file.now range) (self.old, link.old) result (self.new, link.new) }
    {
        let size = self.chunk();
        let chunks = self.known(link, file.path, file.opened)?;
        let counted = Counted {
            size,
            path: file.path,
            chunks,
            known: file.known,
        };
        let (end, known) = self.end(link, &counted, range)?;
        let counted = Counted {
            size,
            path: file.path,
            chunks,
            known,
        };
        self.pieces(link, &counted, range.offset, end)
    }

    /// The digest of a block of a chunk, and the location that is remembered then.
    pub(crate) fn digest<L: Link>(
        &mut self,
        link: &mut L,
        file: &Opened<'_>,
        index: u64,
        block: u64,
    ) -> Result<(Digest, Option<Located>), Refusal>
        requires { IfSome file.now.opened (λ chunks. chunks ≤ 4096) }
        ensures { FollowsDialogue (Sends L.Carries) (digest_call file.now.path.now file.now.opened file.now.known index block) (self.old, link.old) result (self.new, link.new) }
    {
        self.known(link, file.path, file.opened)?;
        let wanted = Wanted {
            path: file.path,
            index,
            asked: Asked::Digest(block),
        };
        let (given, located) = self.fetch(link, wanted, file.known)?;
        let digest = replies::digest_in(given)?;
        Ok((digest, Some(located)))
    }

    /// What stands at a path. The length of a file is that of its last chunk, as a member gives it, behind full ones.
    pub fn stat<L: Link>(&mut self, link: &mut L, path: &Path) -> Result<Stat, Refusal>
        ensures { FollowsDialogue (Sends L.Carries) (stat_call self.old.chunk path.now) (self.old, link.old) result (self.new, link.new) }
    {
        let size = self.chunk();
        let chunks = match self.look(link, path)? {
            Status::Directory => return Ok(Stat::Directory),
            Status::File(chunks) => chunks,
        };
        let counted = Counted {
            size,
            path,
            chunks: looking::count_in(chunks.as_slice())?,
            known: None,
        };
        let (length, _) = self.length(link, &counted)?;
        Ok(Stat::File { length, chunks })
    }
}
