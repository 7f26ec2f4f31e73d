ghost use Rattle.std.specs.Prelude.{◌≡◌, ◌≤◌};
ghost use Rattle.gs_client_dialogue.specs.Dialogues.{FollowsDialogue};
ghost use Rattle.gs_client.specs.Sends.{Sends};
ghost use Rattle.gs_client.specs.Trees as calls;

use crate::link::{Link, Reply};
use crate::replies;
use gs_base::{ClientId, Config, Refusal, ReqId};
use gs_client_part::numbering::take_next;
use gs_msg::{Call, Copied, Names, Phase, Request, Status};
use gs_path::Path;
use std::alloc::Global;
use std::marker::Model;

/// A client of a store. It numbers its requests from 1 upwards, whatever node they go to; after the last number a call that has to
/// ask answers `Exhausted`.
///
/// A call that changes something answers `Unsure` where no reply came, or the node that met it had no memory or no disk for it: it
/// stands or doesn't. One that only looks answers `NoReplica` where no reply came. `Stray` is for a reply of another kind than the
/// call waits for. All other refusals are those of the nodes. `stat` and the calls of an open file copy paths and bytes into
/// memory of their own, and answer `Memory` where it was refused; the requests that were made before it stand.
#[derive(Debug)]
pub struct Client {
    pub(crate) alloc: Global,
    /// The last request that was sent. Number 0 is of none.
    last: ReqId,
    /// The bytes of a chunk.
    chunk: u64,
}

impl Drop for Client {
    fn drop(self) {
        let Self {
            alloc: _,
            last: _,
            chunk: _,
        } = self;
    }
}

impl Model for Client {
    ghost use Rattle.std.specs.Prelude.{◌≤◌};
    ghost use Rattle.gs_client.specs.Clients.{ClientState};

    ghost Value = { ClientState };

    ghost view = { λ c. record { last = c.last; chunk = c.chunk } };

    ghost invariant = { λ c. (1 ≤ c.chunk) × (c.chunk ≤ 67108864) };
}

impl Client {
    /// A client that has sent nothing yet, of a store of these sizes.
    pub fn new(alloc: Global, id: ClientId, config: Config) -> Client
        ensures { result ≡ record { last = record { client = id; number = 0 }; chunk = config.chunk } }
    {
        Client {
            alloc,
            last: ReqId {
                client: id,
                number: 0,
            },
            chunk: config.chunk,
        }
    }

    /// A client that has sent this request last, of a store of these sizes: as one that is read back from an image.
    pub fn resting(alloc: Global, last: ReqId, config: Config) -> Client
        ensures { result ≡ record { last = last; chunk = config.chunk } }
    {
        Client {
            alloc,
            last,
            chunk: config.chunk,
        }
    }

    /// The request that was sent last. Number 0 is of none.
    pub fn last(&self) -> ReqId
        ensures { result ≡ self.now.last }
    {
        self.last
    }

    /// The bytes of a chunk.
    pub(crate) fn chunk(&self) -> u64
        ensures is { result ≡ self.now.chunk }
        ensures some { 1 ≤ result }
        ensures bounded { result ≤ 67108864 }
    {
        self.chunk
    }

    /// Sends a request under the next number.
    pub(crate) fn ask<L: Link>(&mut self, link: &mut L, request: Request) -> Reply
        ensures { Sends L.Carries (self.old, link.old) request result (self.new, link.new) }
    {
        match take_next(&mut self.last) {
            Ok(req) => link.request(req, request),
            Err(_) => Reply::Refused(Refusal::Exhausted),
        }
    }

    /// Makes a directory with those that are missing above it. An existing directory is accepted.
    pub fn mkdirs<L: Link>(&mut self, link: &mut L, path: Path) -> Result<(), Refusal>
        ensures { FollowsDialogue (Sends L.Carries) (calls.mkdirs_call path) (self.old, link.old) result (self.new, link.new) }
    {
        replies::nothing_in(replies::changed(self.ask(link, Request::Call(Call::Mkdirs(path)))))
    }

    /// Makes an empty file, with the directories that are missing above it.
    pub fn create<L: Link>(&mut self, link: &mut L, path: Path) -> Result<(), Refusal>
        ensures { FollowsDialogue (Sends L.Carries) (calls.create_call path) (self.old, link.old) result (self.new, link.new) }
    {
        replies::nothing_in(replies::changed(self.ask(link, Request::Call(Call::Create(path)))))
    }

    /// Moves what stands at a path, into the target where that is a directory.
    pub fn rename<L: Link>(&mut self, link: &mut L, from: Path, to: Path) -> Result<(), Refusal>
        ensures { FollowsDialogue (Sends L.Carries) (calls.rename_call from to) (self.old, link.old) result (self.new, link.new) }
    {
        replies::nothing_in(replies::changed(self.ask(
            link,
            Request::Call(Call::Rename { from, to }),
        )))
    }

    /// Hides what stands at a path, and tells the path under which it stands then, or none where nothing stood there.
    pub fn delete<L: Link>(
        &mut self,
        link: &mut L,
        path: Path,
        recursive: bool,
    ) -> Result<Option<Path>, Refusal>
        ensures { FollowsDialogue (Sends L.Carries) (calls.delete_call path recursive) (self.old, link.old) result (self.new, link.new) }
    {
        replies::deleted_in(replies::changed(self.ask(
            link,
            Request::Call(Call::Delete { path, recursive }),
        )))
    }

    /// Gives what was deleted its old name again, and tells its path then.
    pub fn undelete<L: Link>(&mut self, link: &mut L, path: Path) -> Result<Path, Refusal>
        ensures { FollowsDialogue (Sends L.Carries) (calls.undelete_call path) (self.old, link.old) result (self.new, link.new) }
    {
        replies::path_in(replies::changed(self.ask(link, Request::Call(Call::Undelete(path)))))
    }

    /// Copies what stands at a path, with all that is visible under it. The copy shares its chunks.
    pub fn snapshot<L: Link>(&mut self, link: &mut L, from: Path, to: Path) -> Result<(), Refusal>
        ensures { FollowsDialogue (Sends L.Carries) (calls.snapshot_call from to) (self.old, link.old) result (self.new, link.new) }
    {
        replies::nothing_in(replies::changed(self.ask(
            link,
            Request::Call(Call::Snapshot { from, to }),
        )))
    }

    /// The visible names in a directory, or a file's own.
    pub fn list<L: Link>(&mut self, link: &mut L, path: Path) -> Result<Names, Refusal>
        ensures { FollowsDialogue (Sends L.Carries) (calls.list_call path) (self.old, link.old) result (self.new, link.new) }
    {
        replies::names_in(replies::looked(self.ask(link, Request::Call(Call::List(path)))))
    }

    /// What stands at a path, with the chunks of a file. No server is asked.
    pub fn status<L: Link>(&mut self, link: &mut L, path: Path) -> Result<Status, Refusal>
        ensures { FollowsDialogue (Sends L.Carries) (calls.status_call path) (self.old, link.old) result (self.new, link.new) }
    {
        replies::status_in(replies::looked(self.ask(link, Request::Call(Call::Status(path)))))
    }

    /// Removes what was deleted long enough ago, and chunks without a reference: how many paths, and how many chunks.
    pub fn scan<L: Link>(&mut self, link: &mut L) -> Result<(u64, u64), Refusal>
        ensures { FollowsDialogue (Sends L.Carries) calls.scan_call (self.old, link.old) result (self.new, link.new) }
    {
        replies::scanned_in(replies::changed(self.ask(link, Request::Call(Call::Scan))))
    }

    /// Copies the chunk that needs it most to one more server, if one does.
    pub fn replicate<L: Link>(&mut self, link: &mut L) -> Result<Option<Copied>, Refusal>
        ensures { FollowsDialogue (Sends L.Carries) calls.replicate_call (self.old, link.old) result (self.new, link.new) }
    {
        replies::copied_in(replies::changed(self.ask(link, Request::Call(Call::Replicate))))
    }

    /// What the master is at with an upgrade, and its epoch.
    pub fn query<L: Link>(&mut self, link: &mut L) -> Result<(Phase, u64), Refusal>
        ensures { FollowsDialogue (Sends L.Carries) calls.query_call (self.old, link.old) result (self.new, link.new) }
    {
        replies::phase_in(replies::looked(self.ask(link, Request::Call(Call::Query))))
    }

    /// Begins to prepare an upgrade. Like the calls below it tells the epoch that holds then.
    pub fn prepare_begin<L: Link>(&mut self, link: &mut L) -> Result<u64, Refusal>
        ensures { FollowsDialogue (Sends L.Carries) calls.prepare_begin_call (self.old, link.old) result (self.new, link.new) }
    {
        replies::epoch_in(replies::changed(self.ask(link, Request::Call(Call::PrepareBegin))))
    }

    /// Makes an upgrade that was begun stand.
    pub fn prepare_commit<L: Link>(&mut self, link: &mut L) -> Result<u64, Refusal>
        ensures { FollowsDialogue (Sends L.Carries) calls.prepare_commit_call (self.old, link.old) result (self.new, link.new) }
    {
        replies::epoch_in(replies::changed(self.ask(link, Request::Call(Call::PrepareCommit))))
    }

    /// Gives up an upgrade that was begun.
    pub fn prepare_abort<L: Link>(&mut self, link: &mut L) -> Result<u64, Refusal>
        ensures { FollowsDialogue (Sends L.Carries) calls.prepare_abort_call (self.old, link.old) result (self.new, link.new) }
    {
        replies::epoch_in(replies::changed(self.ask(link, Request::Call(Call::PrepareAbort))))
    }

    /// Ends an upgrade, and keeps what was changed in it.
    pub fn finalize<L: Link>(&mut self, link: &mut L) -> Result<u64, Refusal>
        ensures { FollowsDialogue (Sends L.Carries) calls.finalize_call (self.old, link.old) result (self.new, link.new) }
    {
        replies::epoch_in(replies::changed(self.ask(link, Request::Call(Call::Finalize))))
    }

    /// Begins to take an upgrade back.
    pub fn rollback_begin<L: Link>(&mut self, link: &mut L) -> Result<u64, Refusal>
        ensures { FollowsDialogue (Sends L.Carries) calls.rollback_begin_call (self.old, link.old) result (self.new, link.new) }
    {
        replies::epoch_in(replies::changed(self.ask(link, Request::Call(Call::RollbackBegin))))
    }

    /// Ends an upgrade, with all as it was when it was prepared.
    pub fn rollback_commit<L: Link>(&mut self, link: &mut L) -> Result<u64, Refusal>
        ensures { FollowsDialogue (Sends L.Carries) calls.rollback_commit_call (self.old, link.old) result (self.new, link.new) }
    {
        replies::epoch_in(replies::changed(self.ask(link, Request::Call(Call::RollbackCommit))))
    }
}
