//! Open files.
ghost use Rattle.std.specs.Prelude.{◌≡◌};
ghost use Rattle.gs_client_dialogue.specs.Dialogues.{FollowsDialogue};
ghost use Rattle.gs_client.specs.Sends.{Sends};
ghost use Rattle.gs_client.specs.Edits.{Edits};
ghost use Rattle.gs_client.specs.Files.{append_to, digest_of, open_call, read_of, used, write_to, Remembers, with_location};

use crate::client::Client;
use crate::link::Link;
use crate::reading::{Opened, Range};
use crate::record::Record;
use gs_base::Refusal;
use gs_block::Digest;
use gs_client_part::{Located, Write};
use gs_msg::Bytes;
use gs_path::Path;
use std::marker::Model;

/// What a file is open for that may be let go at any time.
#[derive(Debug, Drop)]
pub struct Reading(());

/// What a file is open for that has to be closed.
#[derive(Debug)]
pub struct Writing(());

/// An open file. It keeps how many chunks it was opened with for its first call alone; later calls ask anew.
#[derive(Debug)]
pub struct OpenFile<M> {
    path: Path,
    opened: Option<u64>,
    /// Where a chunk was when it was read last.
    located: Option<Located>,
    /// How many edits were acknowledged.
    edits: u64,
    mode: M,
}

impl<M: Drop> Drop for OpenFile<M> {
    fn drop(self) {
        let Self {
            path: _,
            opened: _,
            located: _,
            edits: _,
            mode: _,
        } = self;
    }
}

impl<M> Model for OpenFile<M> {
    ghost use Rattle.std.specs.Prelude.{IfSome, ◌≤◌};
    ghost use Rattle.gs_client.specs.Opened.{File};

    ghost Value = { File };

    ghost view = { λ f. record { path = f.path; opened = f.opened; located = f.located; edits = f.edits } };

    ghost invariant = { λ f. IfSome f.opened (λ chunks. chunks ≤ 4096) };
}

impl Client {
    /// Opens a file for reading. `NotFound` where nothing stands at the path, `IsADirectory` for a directory.
    pub fn open_read<L: Link>(
        &mut self,
        link: &mut L,
        path: Path,
    ) -> Result<OpenFile<Reading>, Refusal>
        ensures { FollowsDialogue (Sends L.Carries) (open_call path) (self.old, link.old) result (self.new, link.new) }
    {
        let chunks = self.chunks(link, &path)?;
        Ok(OpenFile {
            path,
            opened: Some(chunks),
            located: None,
            edits: 0,
            mode: Reading(()),
        })
    }

    /// Opens a file for writing. `NotFound` where nothing stands at the path, `IsADirectory` for a directory.
    pub fn open_write<L: Link>(
        &mut self,
        link: &mut L,
        path: Path,
    ) -> Result<OpenFile<Writing>, Refusal>
        ensures { FollowsDialogue (Sends L.Carries) (open_call path) (self.old, link.old) result (self.new, link.new) }
    {
        let chunks = self.chunks(link, &path)?;
        Ok(OpenFile {
            path,
            opened: Some(chunks),
            located: None,
            edits: 0,
            mode: Writing(()),
        })
    }
}

impl OpenFile<Reading> {
    /// The bytes from an offset on, at most so many, up to the end of the file. `Range` where the offset lies behind the end.
    pub fn read<L: Link>(
        &mut self,
        client: &mut Client,
        link: &mut L,
        offset: u64,
        many: u64,
    ) -> Result<Bytes, Refusal>
        ensures asks { FollowsDialogue (Sends L.Carries) (read_of client.old.chunk offset many self.old) (client.old, link.old) (with_location result self.new) (client.new, link.new) }
        ensures remembers { Remembers self.old result self.new }
    {
        let file = Opened {
            path: &self.path,
            opened: self.opened,
            known: self.located,
        };
        let read = client.read(link, &file, Range { offset, many });
        self.opened = None;
        self.located = None;
        let (bytes, located) = read?;
        self.located = located;
        Ok(bytes)
    }

    /// The digest of a block of a chunk. `Range` where the file has no such chunk, or the chunk no such block.
    pub fn digest<L: Link>(
        &mut self,
        client: &mut Client,
        link: &mut L,
        index: u64,
        block: u64,
    ) -> Result<Digest, Refusal>
        ensures asks { FollowsDialogue (Sends L.Carries) (digest_of index block self.old) (client.old, link.old) (with_location result self.new) (client.new, link.new) }
        ensures remembers { Remembers self.old result self.new }
    {
        let file = Opened {
            path: &self.path,
            opened: self.opened,
            known: self.located,
        };
        let found = client.digest(link, &file, index, block);
        self.opened = None;
        self.located = None;
        let (digest, located) = found?;
        self.located = located;
        Ok(digest)
    }
}

impl OpenFile<Writing> {
    /// Writes bytes at an offset, one edit for each chunk. `Range` for no bytes, and where a file of 4,096 chunks ends before them.
    /// A part that is refused ends the write; the parts before it stand.
    pub fn write<L: Link>(
        &mut self,
        client: &mut Client,
        link: &mut L,
        offset: u64,
        bytes: &[u8],
    ) -> Result<(), Refusal>
        ensures asks { FollowsDialogue (Edits L.Carries) (write_to client.old.chunk offset bytes.now self.old) (client.old, self.old.edits, link.old) result (client.new, self.new.edits, link.new) }
        ensures counts { self.new ≡ record (used self.old) { edits = self.new.edits } }
    {
        let mut edits = self.edits;
        let write = Write {
            size: client.chunk(),
            path: &self.path,
            offset,
            bytes,
        };
        let result = client.write(link, &mut edits, &write, self.opened);
        self.opened = None;
        self.edits = edits;
        result
    }

    /// Appends a record, and tells where in the file it stands. `Range` for no bytes, and behind 4,096 chunks; `TooLong` for a
    /// record that is longer than a quarter of a chunk.
    pub fn append<L: Link>(
        &mut self,
        client: &mut Client,
        link: &mut L,
        bytes: &[u8],
    ) -> Result<u64, Refusal>
        ensures asks { FollowsDialogue (Edits L.Carries) (append_to client.old.chunk bytes.now self.old) (client.old, self.old.edits, link.old) result (client.new, self.new.edits, link.new) }
        ensures counts { self.new ≡ record (used self.old) { edits = self.new.edits } }
    {
        let mut edits = self.edits;
        let appended = Record {
            size: client.chunk(),
            path: &self.path,
            bytes,
        };
        let result = client.append(link, &mut edits, &appended, self.opened);
        self.opened = None;
        self.edits = edits;
        result
    }

    /// Closes the file, and tells how many of its edits were acknowledged.
    pub fn close(self) -> u64
        ensures { result ≡ self.edits }
    {
        let OpenFile {
            path: _,
            opened: _,
            located: _,
            edits,
            mode: Writing(()),
        } = self;
        edits
    }
}
