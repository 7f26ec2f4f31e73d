// The bytes of files.
ghost use Rattle.gs_client.specs.Sends.{Sends};
ghost use Rattle.gs_client_dialogue.specs.Dialogues.{FollowsDialogue};
ghost use Rattle.gs_shell_calls.specs.Asked.{append_to, digest_of, done, given_bytes, given_digest, on, read_of, with_file, write_to};
ghost use Rattle.gs_shell_calls.specs.declared.answer.Answer.TheVariants as answers;
ghost use Rattle.gs_path.specs.Rules.{parse, parse_hidden};

use crate::answer::{self, Answer};
use crate::caller::Caller;
use gs_base::Refusal;
use gs_client::Link;
use gs_path::Path;

impl Caller {
    pub(crate) fn write<L: Link>(
        &mut self,
        link: &mut L,
        path: &str,
        offset: u64,
        bytes: &[u8],
    ) -> Result<Answer, Refusal>
        ensures { FollowsDialogue (Sends L.Carries) (on (parse path.now) (with_file (write_to self.old.client.chunk offset bytes.now)) done) (self.old.client, link.old) result (self.new.client, link.new) }
    {
        let path = Path::parse(self.alloc, path)?;
        answer::done(self.write_file(link, path, offset, bytes))
    }

    fn write_file<L: Link>(
        &mut self,
        link: &mut L,
        path: Path,
        offset: u64,
        bytes: &[u8],
    ) -> Result<(), Refusal>
        ensures { FollowsDialogue (Sends L.Carries) (with_file (write_to self.old.client.chunk offset bytes.now) path) (self.old.client, link.old) result (self.new.client, link.new) }
    {
        let mut file = self.client.open_write(link, path)?;
        let written = file.write(&mut self.client, link, offset, bytes);
        let _edits = file.close();
        written
    }

    pub(crate) fn append<L: Link>(
        &mut self,
        link: &mut L,
        path: &str,
        bytes: &[u8],
    ) -> Result<Answer, Refusal>
        ensures { FollowsDialogue (Sends L.Carries) (on (parse path.now) (with_file (append_to self.old.client.chunk bytes.now)) answers.Number) (self.old.client, link.old) result (self.new.client, link.new) }
    {
        let path = Path::parse(self.alloc, path)?;
        answer::number(self.append_to_file(link, path, bytes))
    }

    fn append_to_file<L: Link>(
        &mut self,
        link: &mut L,
        path: Path,
        bytes: &[u8],
    ) -> Result<u64, Refusal>
        ensures { FollowsDialogue (Sends L.Carries) (with_file (append_to self.old.client.chunk bytes.now) path) (self.old.client, link.old) result (self.new.client, link.new) }
    {
        let mut file = self.client.open_write(link, path)?;
        let appended = file.append(&mut self.client, link, bytes);
        let _edits = file.close();
        appended
    }

    pub(crate) fn read<L: Link>(
        &mut self,
        link: &mut L,
        path: &str,
        offset: u64,
        length: u64,
    ) -> Result<Answer, Refusal>
        ensures { FollowsDialogue (Sends L.Carries) (on (parse_hidden path.now) (with_file (read_of self.old.client.chunk offset length)) given_bytes) (self.old.client, link.old) result (self.new.client, link.new) }
    {
        let path = Path::parse_hidden(self.alloc, path)?;
        let mut file = self.client.open_read(link, path)?;
        answer::bytes(file.read(&mut self.client, link, offset, length))
    }

    pub(crate) fn digest<L: Link>(
        &mut self,
        link: &mut L,
        path: &str,
        chunk: u64,
        block: u64,
    ) -> Result<Answer, Refusal>
        ensures { FollowsDialogue (Sends L.Carries) (on (parse_hidden path.now) (with_file (digest_of chunk block)) given_digest) (self.old.client, link.old) result (self.new.client, link.new) }
    {
        let path = Path::parse_hidden(self.alloc, path)?;
        let mut file = self.client.open_read(link, path)?;
        answer::digest(file.digest(&mut self.client, link, chunk, block))
    }
}
