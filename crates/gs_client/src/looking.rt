//! Where chunks are, and what their members give.
ghost use Rattle.std.specs.Prelude.{◌≡◌, ◌≤◌, IfOk, IfSome};
ghost use Rattle.gs_base.specs.declared.refusal.Refusal.TheVariants.{NoReplica};
ghost use Rattle.gs_msg.specs.declared.call.Call.TheVariants as calls;
ghost use Rattle.gs_client_dialogue.specs.Dialogues.{FollowsDialogue, Grow};
ghost use Rattle.gs_client.specs.Sends.{Sends};
ghost use Rattle.gs_client.specs.Replies.{status_in, chunks_in};
ghost use Rattle.gs_client.specs.Trees.{look, and_then};
ghost use Rattle.gs_client.specs.Looking.{count_in, chunks_call, known_call, find_call, members_call, round_call, anew_call, fetch_call};

use crate::client::Client;
use crate::link::Link;
use crate::replies;
use gs_base::Refusal;
use gs_client_part::Located;
use gs_client_part::writing::MOST_CHUNKS;
use gs_msg::{Asked, Call, ChunkStatus, Given, Request, Status};
use gs_path::Path;

/// What is asked of a chunk of a file.
#[derive(Clone, Copy)]
pub(crate) struct Wanted<'p> {
    pub(crate) path: &'p Path,
    pub(crate) index: u64,
    pub(crate) asked: Asked,
}

/// How many chunks a file has.
pub(crate) fn count_in(chunks: &[ChunkStatus]) -> Result<u64, Refusal>
    ensures is { result ≡ count_in chunks.now }
    ensures few { IfOk result (λ count. count ≤ 4096) }
{
    let count = chunks.len() as u64;
    if count <= MOST_CHUNKS {
        return Ok(count);
    }
    Err(Refusal::Stray)
}

/// How many chunks the file has that stands at a path.
fn count_of(status: Status) -> Result<u64, Refusal>
    ensures is { result ≡ and_then count_in (chunks_in status) }
    ensures few { IfOk result (λ count. count ≤ 4096) }
{
    let chunks = replies::chunks_in(status)?;
    count_in(chunks.as_slice())
}

impl Client {
    /// What stands at a path.
    pub(crate) fn look<L: Link>(&mut self, link: &mut L, path: &Path) -> Result<Status, Refusal>
        ensures { FollowsDialogue (Sends L.Carries) (Grow (look (calls.Status path.now) status_in)) (self.old, link.old) result (self.new, link.new) }
    {
        let request = Request::Call(Call::Status(path.copy(self.alloc)?));
        replies::status_in(replies::looked(self.ask(link, request)))
    }

    /// How many chunks a file has.
    pub(crate) fn chunks<L: Link>(&mut self, link: &mut L, path: &Path) -> Result<u64, Refusal>
        ensures is { FollowsDialogue (Sends L.Carries) (chunks_call path.now) (self.old, link.old) result (self.new, link.new) }
        ensures few { IfOk result (λ count. count ≤ 4096) }
    {
        let status = self.look(link, path)?;
        count_of(status)
    }

    /// How many chunks a file has, which is asked for where it isn't known from its opening.
    pub(crate) fn known<L: Link>(
        &mut self,
        link: &mut L,
        path: &Path,
        opened: Option<u64>,
    ) -> Result<u64, Refusal>
        requires { IfSome opened (λ count. count ≤ 4096) }
        ensures is { FollowsDialogue (Sends L.Carries) (known_call path.now opened) (self.old, link.old) result (self.new, link.new) }
        ensures few { IfOk result (λ count. count ≤ 4096) }
    {
        match opened {
            Some(count) => Ok(count),
            None => self.chunks(link, path),
        }
    }

    /// Where a chunk can be read.
    fn find<L: Link>(&mut self, link: &mut L, path: &Path, index: u64) -> Result<Located, Refusal>
        ensures { FollowsDialogue (Sends L.Carries) (find_call path.now index) (self.old, link.old) result (self.new, link.new) }
    {
        let request = Request::Call(Call::FindForReading {
            path: path.copy(self.alloc)?,
            index,
        });
        replies::located_in(index, replies::looked(self.ask(link, request)))
    }

    /// Asks the members one after another, until one answers.
    fn members<L: Link>(
        &mut self,
        link: &mut L,
        located: &Located,
        asked: Asked,
    ) -> Result<Given, Refusal>
        ensures { FollowsDialogue (Sends L.Carries) (members_call located.now asked located.now.view.members NoReplica) (self.old, link.old) result (self.new, link.new) }
    {
        let mut last = Refusal::NoReplica;
        for member in located.view.members {
            let reply = self.ask(link, located.fetch(member, asked));
            match replies::given(last, reply) {
                Ok(given) => return Ok(given),
                Err(refusal) => last = refusal,
            }
        }
        Err(last)
    }

    fn round<L: Link>(
        &mut self,
        link: &mut L,
        located: &Located,
        asked: Asked,
    ) -> Result<(Given, Located), Refusal>
        ensures { FollowsDialogue (Sends L.Carries) (round_call located.now asked) (self.old, link.old) result (self.new, link.new) }
    {
        let given = self.members(link, located, asked)?;
        Ok((given, *located))
    }

    /// Looks a chunk up, and asks its members.
    fn anew<L: Link>(
        &mut self,
        link: &mut L,
        wanted: Wanted<'_>,
    ) -> Result<(Given, Located), Refusal>
        ensures { FollowsDialogue (Sends L.Carries) (anew_call wanted.entry.path.now wanted.entry.index wanted.entry.asked) (self.old, link.old) result (self.new, link.new) }
    {
        let located = self.find(link, wanted.path, wanted.index)?;
        self.round(link, &located, wanted.asked)
    }

    /// What a member of a chunk gives, and the location under which it did: the one that was known, if it is of this chunk and one
    /// of its members answers.
    pub(crate) fn fetch<L: Link>(
        &mut self,
        link: &mut L,
        wanted: Wanted<'_>,
        known: Option<Located>,
    ) -> Result<(Given, Located), Refusal>
        ensures { FollowsDialogue (Sends L.Carries) (fetch_call wanted.entry.path.now known wanted.entry.index wanted.entry.asked) (self.old, link.old) result (self.new, link.new) }
    {
        let Some(located) = known else {
            return self.anew(link, wanted);
        };
        if located.index != wanted.index {
            return self.anew(link, wanted);
        }
        match self.round(link, &located, wanted.asked) {
            Ok(found) => Ok(found),
            Err(_) => self.anew(link, wanted),
        }
    }
}
