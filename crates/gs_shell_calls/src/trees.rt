// Calls of the tree.
ghost use Rattle.gs_shell_calls.specs.Asked.{done, hidden, on, on_two};
ghost use Rattle.gs_shell_calls.specs.declared.answer.Answer.TheVariants as answers;
ghost use Rattle.gs_client.specs.Reading.{stat_call};
ghost use Rattle.gs_client.specs.Sends.{Sends};
ghost use Rattle.gs_client.specs.Trees as trees;
ghost use Rattle.gs_client_dialogue.specs.Dialogues.{FollowsDialogue};
ghost use Rattle.gs_path.specs.Rules.{parse, parse_hidden};

use crate::answer::{self, Answer};
use crate::caller::Caller;
use gs_base::Refusal;
use gs_client::Link;
use gs_path::Path;

impl Caller {
    pub(crate) fn mkdir<L: Link>(&mut self, link: &mut L, path: &str) -> Result<Answer, Refusal>
        ensures { FollowsDialogue (Sends L.Carries) (on (parse path.now) trees.mkdirs_call done) (self.old.client, link.old) result (self.new.client, link.new) }
    {
        let path = Path::parse(self.alloc, path)?;
        answer::done(self.client.mkdirs(link, path))
    }

    pub(crate) fn create<L: Link>(&mut self, link: &mut L, path: &str) -> Result<Answer, Refusal>
        ensures { FollowsDialogue (Sends L.Carries) (on (parse path.now) trees.create_call done) (self.old.client, link.old) result (self.new.client, link.new) }
    {
        let path = Path::parse(self.alloc, path)?;
        answer::done(self.client.create(link, path))
    }

    pub(crate) fn list<L: Link>(&mut self, link: &mut L, path: &str) -> Result<Answer, Refusal>
        ensures { FollowsDialogue (Sends L.Carries) (on (parse_hidden path.now) trees.list_call answers.Names) (self.old.client, link.old) result (self.new.client, link.new) }
    {
        let path = Path::parse_hidden(self.alloc, path)?;
        answer::names(self.client.list(link, path))
    }

    pub(crate) fn stat<L: Link>(&mut self, link: &mut L, path: &str) -> Result<Answer, Refusal>
        ensures { FollowsDialogue (Sends L.Carries) (on (parse_hidden path.now) (stat_call self.old.client.chunk) answers.Stat) (self.old.client, link.old) result (self.new.client, link.new) }
    {
        let path = Path::parse_hidden(self.alloc, path)?;
        answer::stat(self.client.stat(link, &path))
    }

    pub(crate) fn rename<L: Link>(
        &mut self,
        link: &mut L,
        from: &str,
        to: &str,
    ) -> Result<Answer, Refusal>
        ensures { FollowsDialogue (Sends L.Carries) (on_two (parse from.now) (parse to.now) trees.rename_call) (self.old.client, link.old) result (self.new.client, link.new) }
    {
        let from = Path::parse(self.alloc, from)?;
        let to = Path::parse(self.alloc, to)?;
        answer::done(self.client.rename(link, from, to))
    }

    pub(crate) fn snapshot<L: Link>(
        &mut self,
        link: &mut L,
        from: &str,
        to: &str,
    ) -> Result<Answer, Refusal>
        ensures { FollowsDialogue (Sends L.Carries) (on_two (parse from.now) (parse to.now) trees.snapshot_call) (self.old.client, link.old) result (self.new.client, link.new) }
    {
        let from = Path::parse(self.alloc, from)?;
        let to = Path::parse(self.alloc, to)?;
        answer::done(self.client.snapshot(link, from, to))
    }

    pub(crate) fn delete<L: Link>(
        &mut self,
        link: &mut L,
        path: &str,
        recursive: bool,
    ) -> Result<Answer, Refusal>
        ensures { FollowsDialogue (Sends L.Carries) (on (parse path.now) (λ path. trees.delete_call path recursive) hidden) (self.old.client, link.old) result (self.new.client, link.new) }
    {
        let path = Path::parse(self.alloc, path)?;
        answer::hidden(self.client.delete(link, path, recursive))
    }

    pub(crate) fn undelete<L: Link>(&mut self, link: &mut L, path: &str) -> Result<Answer, Refusal>
        ensures { FollowsDialogue (Sends L.Carries) (on (parse_hidden path.now) trees.undelete_call answers.Path) (self.old.client, link.old) result (self.new.client, link.new) }
    {
        let path = Path::parse_hidden(self.alloc, path)?;
        answer::path(self.client.undelete(link, path))
    }
}
