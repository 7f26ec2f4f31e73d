//! What is written to a file.
ghost use Rattle.std.specs.Prelude.{◌≡◌, ◌≤◌, ◌<◌, ◌+◌, ◌-◌, ◌*◌, ◌/◌, length, IfSome};
ghost use Rattle.gs_client_dialogue.specs.Dialogues.{FollowsDialogue};
ghost use Rattle.gs_client.specs.Sends.{Sends};
ghost use Rattle.gs_client.specs.Edits.{Edits, with_edit};
ghost use Rattle.gs_client.specs.Writing as calls;
ghost use Rattle.gs_client.specs.inner.Asks.{again_of, append_behind, append_of, part_of, parts_of, write_of, write_part_of};

use crate::client::Client;
use crate::link::Link;
use crate::record::Record;
use crate::replies;
use gs_base::{Refusal, Stamp};
use gs_client_part::writing::{
    MOST_CHUNKS, chunks_to, is_out, part_bytes, part_count, part_start, place,
};
use gs_client_part::{Located, Write};
use gs_msg::{Bytes, Call, Op, Request};
use gs_path::Path;
use gs_replica::EditOutcome;

/// An edit of a chunk of a file.
#[derive(Clone, Copy)]
struct Edit<'e> {
    path: &'e Path,
    index: u64,
    op: Op,
    bytes: &'e [u8],
}

/// How many edits are acknowledged behind one that came to this.
fn with_edit(edited: &Result<EditOutcome, Refusal>, edits: u64) -> u64
    ensures { result ≡ with_edit edited.now edits }
{
    match edited {
        Ok(EditOutcome::Written | EditOutcome::Appended(_)) => edits.saturating_add(1),
        _ => edits,
    }
}

/// The stamp that the next look-up avoids.
fn avoided(refusal: &Refusal, stamp: Stamp) -> Option<Stamp>
    ensures { result ≡ calls.avoided refusal.now stamp }
{
    if replies::is_location_good(refusal) {
        return None;
    }
    Some(stamp)
}

impl Client {
    /// Where a chunk can be written, under another stamp than the one that was refused.
    fn find_for_writing<L: Link>(
        &mut self,
        link: &mut L,
        edit: &Edit<'_>,
        refused: Option<Stamp>,
    ) -> Result<Located, Refusal>
        ensures { FollowsDialogue (Sends L.Carries) (calls.writing_call edit.now.path.now edit.now.index refused) (self.old, link.old) result (self.new, link.new) }
    {
        let request = Request::Call(Call::FindForWriting {
            path: edit.path.copy(self.alloc)?,
            index: edit.index,
            refused,
        });
        replies::located_in(edit.index, replies::looked(self.ask(link, request)))
    }

    /// Sends an edit to where its chunk was found, and counts it if it is acknowledged.
    fn send<L: Link>(
        &mut self,
        link: &mut L,
        edits: &mut u64,
        located: &Located,
        edit: &Edit<'_>,
    ) -> Result<EditOutcome, Refusal>
        ensures { FollowsDialogue (Edits L.Carries) (calls.edit_call located.now edit.now.op edit.now.bytes.now) (self.old, edits.old, link.old) result (self.new, edits.new, link.new) }
    {
        let Some(term) = located.view.term else {
            return Err(Refusal::Stray);
        };
        let request = Request::Write {
            handle: located.handle,
            members: located.view.members,
            primary: term.primary,
            stamp: located.view.stamp,
            op: edit.op,
            bytes: Bytes::new(Vec::from_slice(self.alloc, edit.bytes)?),
        };
        let edited = replies::edited(self.ask(link, request));
        *edits = with_edit(&edited, *edits);
        edited
    }

    /// Tries a refused edit once more, where that may help.
    fn again<L: Link>(
        &mut self,
        link: &mut L,
        edits: &mut u64,
        edit: &Edit<'_>,
        stamp: Stamp,
        refusal: Refusal,
    ) -> Result<EditOutcome, Refusal>
        ensures { FollowsDialogue (Edits L.Carries) (again_of edit.now stamp refusal) (self.old, edits.old, link.old) result (self.new, edits.new, link.new) }
    {
        if !replies::is_stale(&refusal) {
            return Err(refusal);
        }
        let located = self.find_for_writing(link, edit, avoided(&refusal, stamp))?;
        self.send(link, edits, &located, edit)
    }

    /// Looks a chunk up and edits it.
    fn part<L: Link>(
        &mut self,
        link: &mut L,
        edits: &mut u64,
        edit: &Edit<'_>,
    ) -> Result<EditOutcome, Refusal>
        ensures { FollowsDialogue (Edits L.Carries) (part_of edit.now) (self.old, edits.old, link.old) result (self.new, edits.new, link.new) }
    {
        let located = self.find_for_writing(link, edit, None)?;
        let stamp = located.view.stamp;
        match self.send(link, edits, &located, edit) {
            Ok(outcome) => Ok(outcome),
            Err(refusal) => self.again(link, edits, edit, stamp, refusal),
        }
    }

    /// The same for a part of a write.
    fn write_part<L: Link>(
        &mut self,
        link: &mut L,
        edits: &mut u64,
        edit: &Edit<'_>,
    ) -> Result<(), Refusal>
        ensures { FollowsDialogue (Edits L.Carries) (write_part_of edit.now) (self.old, edits.old, link.old) result (self.new, edits.new, link.new) }
    {
        let outcome = self.part(link, edits, edit)?;
        written(outcome)
    }

    /// Adds a chunk to a file.
    fn extend<L: Link>(&mut self, link: &mut L, path: &Path, index: u64) -> Result<Located, Refusal>
        ensures { FollowsDialogue (Sends L.Carries) (calls.extend_call path.now index) (self.old, link.old) result (self.new, link.new) }
    {
        let request = Request::Call(Call::Extend {
            path: path.copy(self.alloc)?,
            index,
        });
        replies::located_in(index, replies::changed(self.ask(link, request)))
    }

    /// Adds so many chunks to a file.
    fn extends<L: Link>(
        &mut self,
        link: &mut L,
        path: &Path,
        from: u64,
        count: u64,
    ) -> Result<(), Refusal>
        requires near { from ≤ 4096 }
        requires few { count ≤ 4096 }
        ensures { FollowsDialogue (Sends L.Carries) (calls.extends_call path.now from count) (self.old, link.old) result (self.new, link.new) }
    {
        for i in 0..count {
            self.extend(link, path, from + i)?;
        }
        Ok(())
    }

    /// Writes the parts of a write, each to its chunk.
    fn parts<L: Link>(
        &mut self,
        link: &mut L,
        edits: &mut u64,
        write: &Write<'_>,
        count: u64,
    ) -> Result<(), Refusal>
        requires near { write.now.offset ≤ 274877906944 }
        requires few { count ≤ 4096 }
        ensures { FollowsDialogue (Edits L.Carries) (parts_of write.now count) (self.old, edits.old, link.old) result (self.new, edits.new, link.new) }
    {
        for i in 0..count {
            let bytes = part_bytes(write, i);
            let part = Edit {
                path: write.path,
                index: write.offset / write.size + i,
                op: Op::Write {
                    offset: part_start(write, i),
                    length: bytes.len() as u64,
                },
                bytes,
            };
            self.write_part(link, edits, &part)?;
        }
        Ok(())
    }

    /// Writes bytes at a place of a file, whose missing chunks are added first.
    pub(crate) fn write<L: Link>(
        &mut self,
        link: &mut L,
        edits: &mut u64,
        write: &Write<'_>,
        opened: Option<u64>,
    ) -> Result<(), Refusal>
        requires { IfSome opened (λ chunks. chunks ≤ 4096) }
        ensures { FollowsDialogue (Edits L.Carries) (write_of write.now opened) (self.old, edits.old, link.old) result (self.new, edits.new, link.new) }
    {
        let chunks = self.known(link, write.path, opened)?;
        if is_out(write) {
            return Err(Refusal::Range);
        }
        let to = chunks_to(write);
        self.extends(link, write.path, chunks, to.saturating_sub(chunks))?;
        self.parts(link, edits, write, part_count(write))
    }

    /// Puts a record into a chunk, or, where that is filled up, into one behind it, as far as a file may go.
    fn append_from<L: Link>(
        &mut self,
        link: &mut L,
        edits: &mut u64,
        appended: &Record<'_>,
        first: u64,
    ) -> Result<u64, Refusal>
        requires { first < 4096 }
        ensures { FollowsDialogue (Edits L.Carries) (append_behind appended.now first) (self.old, edits.old, link.old) result (self.new, edits.new, link.new) }
    {
        for index in first..MOST_CHUNKS {
            let part = Edit {
                path: appended.path,
                index,
                op: Op::Append {
                    length: appended.bytes.len() as u64,
                },
                bytes: appended.bytes,
            };
            match self.part(link, edits, &part)? {
                EditOutcome::Appended(offset) => return place(appended.size, index, offset),
                EditOutcome::Written => return Err(Refusal::Stray),
                EditOutcome::Padded => {}
            }
            if index + 1 == MOST_CHUNKS {
                return Err(Refusal::Range);
            }
            self.extend(link, appended.path, index + 1)?;
        }
        Err(Refusal::Range)
    }

    /// Appends a record to a file, whose first chunk is added where it is missing, and tells where in the file it stands.
    pub(crate) fn append<L: Link>(
        &mut self,
        link: &mut L,
        edits: &mut u64,
        appended: &Record<'_>,
        opened: Option<u64>,
    ) -> Result<u64, Refusal>
        requires { IfSome opened (λ chunks. chunks ≤ 4096) }
        ensures { FollowsDialogue (Edits L.Carries) (append_of appended.now opened) (self.old, edits.old, link.old) result (self.new, edits.new, link.new) }
    {
        let chunks = self.known(link, appended.path, opened)?;
        if appended.bytes.is_empty() {
            return Err(Refusal::Range);
        }
        let missing = 1u64.saturating_sub(chunks);
        self.extends(link, appended.path, 0, missing)?;
        let last = chunks.saturating_sub(1);
        self.append_from(link, edits, appended, last)
    }
}

/// Whether a part was written.
fn written(outcome: EditOutcome) -> Result<(), Refusal>
    ensures { result ≡ calls.written outcome }
{
    match outcome {
        EditOutcome::Written => Ok(()),
        _ => Err(Refusal::Stray),
    }
}
