// Upgrades, and what the master is asked to look after.
ghost use Rattle.std.specs.Prelude.{◌≡◌, Err};
ghost use Rattle.gs_client.specs.Trees as trees;
ghost use Rattle.gs_client.specs.Sends.{Sends};
ghost use Rattle.gs_client_dialogue.specs.Dialogues.{FollowsDialogue, upon};
ghost use Rattle.gs_shell_calls.specs.Asked.{at_phase, ends_so, is_unquiet, plain, prepare_line, rollback_line, scanned, step_line, unless_quiet, upgrade_line};
ghost use Rattle.gs_shell_calls.specs.declared.answer.Answer.TheVariants as answers;

use crate::answer::{self, Answer};
use crate::caller::Caller;
use gs_base::Refusal;
use gs_client::Link;
use gs_shell_grammar::{Upgrade, UpgradeStep};

/// Whether a chunk isn't quiet.
fn is_unquiet(refusal: &Refusal) -> bool
    ensures { result ≡ is_unquiet refusal.now }
{
    matches!(refusal, Refusal::NotQuiet(_))
}

impl Caller {
    pub(crate) fn scan<L: Link>(&mut self, link: &mut L) -> Result<Answer, Refusal>
        ensures { FollowsDialogue (Sends L.Carries) (plain trees.scan_call scanned) (self.old.client, link.old) result (self.new.client, link.new) }
    {
        answer::scanned(self.client.scan(link))
    }

    pub(crate) fn replicate<L: Link>(&mut self, link: &mut L) -> Result<Answer, Refusal>
        ensures { FollowsDialogue (Sends L.Carries) (plain trees.replicate_call answers.Copied) (self.old.client, link.old) result (self.new.client, link.new) }
    {
        answer::copied(self.client.replicate(link))
    }

    pub(crate) fn upgrade<L: Link>(
        &mut self,
        link: &mut L,
        upgrade: Upgrade,
    ) -> Result<Answer, Refusal>
        ensures { FollowsDialogue (Sends L.Carries) (upgrade_line upgrade) (self.old.client, link.old) result (self.new.client, link.new) }
    {
        match upgrade {
            Upgrade::Query => self.query(link),
            Upgrade::Prepare => self.prepare(link),
            Upgrade::Finalize => answer::number(self.client.finalize(link)),
            Upgrade::Rollback => self.roll_back(link),
        }
    }

    pub(crate) fn upgrade_step<L: Link>(
        &mut self,
        link: &mut L,
        step: UpgradeStep,
    ) -> Result<Answer, Refusal>
        ensures { FollowsDialogue (Sends L.Carries) (step_line step) (self.old.client, link.old) result (self.new.client, link.new) }
    {
        match step {
            UpgradeStep::PrepareBegin => answer::number(self.client.prepare_begin(link)),
            UpgradeStep::PrepareCommit => answer::number(self.client.prepare_commit(link)),
            UpgradeStep::RollbackBegin => answer::number(self.client.rollback_begin(link)),
            UpgradeStep::RollbackCommit => answer::number(self.client.rollback_commit(link)),
        }
    }

    fn query<L: Link>(&mut self, link: &mut L) -> Result<Answer, Refusal>
        ensures { FollowsDialogue (Sends L.Carries) (plain trees.query_call at_phase) (self.old.client, link.old) result (self.new.client, link.new) }
    {
        answer::phase(self.client.query(link))
    }

    fn prepare<L: Link>(&mut self, link: &mut L) -> Result<Answer, Refusal>
        ensures { FollowsDialogue (Sends L.Carries) prepare_line (self.old.client, link.old) result (self.new.client, link.new) }
    {
        match self.client.prepare_begin(link) {
            Ok(_) => self.commit_prepare(link),
            Err(refusal) => Err(refusal),
        }
    }

    fn commit_prepare<L: Link>(&mut self, link: &mut L) -> Result<Answer, Refusal>
        ensures { FollowsDialogue (Sends L.Carries) (upon trees.prepare_commit_call unless_quiet) (self.old.client, link.old) result (self.new.client, link.new) }
    {
        match self.client.prepare_commit(link) {
            Ok(epoch) => Ok(Answer::Number(epoch)),
            Err(refusal) => self.unless_quiet(link, refusal),
        }
    }

    /// Where a chunk isn't quiet, what was begun is given up.
    fn unless_quiet<L: Link>(&mut self, link: &mut L, refusal: Refusal) -> Result<Answer, Refusal>
        ensures { FollowsDialogue (Sends L.Carries) (unless_quiet (Err refusal)) (self.old.client, link.old) result (self.new.client, link.new) }
    {
        if is_unquiet(&refusal) {
            return self.give_up(link, refusal);
        }
        Err(refusal)
    }

    /// Gives up a prepare that was begun, whatever is answered to that.
    fn give_up<L: Link>(&mut self, link: &mut L, refusal: Refusal) -> Result<Answer, Refusal>
        ensures { FollowsDialogue (Sends L.Carries) (upon trees.prepare_abort_call (ends_so (Err refusal))) (self.old.client, link.old) result (self.new.client, link.new) }
    {
        let _given_up = self.client.prepare_abort(link);
        Err(refusal)
    }

    /// Where a chunk has no answer, the rollback stays begun.
    fn roll_back<L: Link>(&mut self, link: &mut L) -> Result<Answer, Refusal>
        ensures { FollowsDialogue (Sends L.Carries) rollback_line (self.old.client, link.old) result (self.new.client, link.new) }
    {
        match self.client.rollback_begin(link) {
            Ok(_) => answer::number(self.client.rollback_commit(link)),
            Err(refusal) => Err(refusal),
        }
    }
}
