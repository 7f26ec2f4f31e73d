ghost use Rattle.std.specs.Prelude.{◌≡◌, Err, MatchOption};
ghost use Rattle.gs_base.specs.declared.refusal.Refusal.TheVariants as refusals;
ghost use Rattle.gs_shell_calls.specs.Asked.{asked_by};
ghost use Rattle.gs_client.specs.Sends.{Sends};
ghost use Rattle.gs_client_dialogue.specs.Dialogues.{FollowsDialogue};
ghost use Rattle.gs_shell_grammar.specs.Grammar.{request_of};

use crate::answer::Answer;
use gs_base::{ClientId, Config, Refusal};
use gs_client::{Client, Link};
use gs_shell_grammar::Command;
use std::alloc::Global;

/// A client who asks what lines say.
#[derive(Debug)]
pub struct Caller {
    pub alloc: Global,
    pub client: Client,
}

impl Drop for Caller {
    fn drop(self) {
        let Self {
            alloc: _,
            client: _,
        } = self;
    }
}

impl Caller {
    /// One that has asked nothing yet.
    pub fn new(alloc: Global, id: ClientId, config: Config) -> Caller
        ensures { result.client ≡ record { last = record { client = id; number = 0 }; chunk = config.chunk } }
    {
        Caller {
            alloc,
            client: Client::new(alloc, id, config),
        }
    }

    /// What a line comes to that asks something of the store. A refusal `Memory` may leave something of it done. A line that is
    /// about nodes and messages is `BadLine`, and nothing is asked.
    pub fn ask<L: Link>(&mut self, link: &mut L, command: Command<'_>) -> Result<Answer, Refusal>
        ensures { MatchOption (asked_by self.old.client.chunk (request_of command.entry))
            ((result ≡ Err refusals.BadLine) × (self.new.client ≡ self.old.client) × (link.new ≡ link.old))
            (λ call. FollowsDialogue (Sends L.Carries) call (self.old.client, link.old) result (self.new.client, link.new)) }
    {
        match command {
            Command::Mkdir(path) => self.mkdir(link, path),
            Command::Create(path) => self.create(link, path),
            Command::Ls(path) => self.list(link, path),
            Command::Stat(path) => self.stat(link, path),
            Command::Mv(from, to) => self.rename(link, from, to),
            Command::Rm { path, recursive } => self.delete(link, path, recursive),
            Command::Undelete(path) => self.undelete(link, path),
            Command::Snapshot(from, to) => self.snapshot(link, from, to),
            Command::Write {
                path,
                offset,
                bytes,
            } => self.write(link, path, offset, &bytes),
            Command::Append { path, bytes } => self.append(link, path, &bytes),
            Command::Read {
                path,
                offset,
                length,
            } => self.read(link, path, offset, length),
            Command::Digest { path, chunk, block } => self.digest(link, path, chunk, block),
            Command::Scan => self.scan(link),
            Command::Replicate => self.replicate(link),
            Command::Upgrade(upgrade) => self.upgrade(link, upgrade),
            Command::Step(step) => self.upgrade_step(link, step),
            Command::Beat(_)
            | Command::Tick
            | Command::At(_)
            | Command::Restart(_)
            | Command::Lose { .. }
            | Command::Damage { .. }
            | Command::Hold(_)
            | Command::Deliver(_) => Err(Refusal::BadLine),
        }
    }
}
