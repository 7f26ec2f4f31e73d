ghost use Rattle.gs_shell_grammar.specs.Grammar.{request_of};
ghost use Rattle.gs_client.specs.Sends.{Sends};
ghost use Rattle.gs_client_dialogue.specs.Dialogues.{FollowsDialogue};
ghost use Rattle.gs_cluster.specs.Linked.{carried};
ghost use Rattle.gs_shell_calls.specs.Asked.{step_line};
ghost use Rattle.gs_shell_threads.specs.Asked.{commit_or_give_up, is_for_now, is_refused_unquiet, more_turns, prepare_line, rollback_line, step_in_threads, until, upgrade_in_threads};
ghost use Rattle.gs_shell_threads.specs.Lines.{Comes};
ghost use Rattle.std.specs.Prelude.{◌≡◌};

use gs_base::{Moment, Refusal};
use gs_cluster_node::Plan;
use gs_journal::Disk;
use gs_shell_calls::{Answer, Caller};
use gs_shell_grammar::{Command, Upgrade, UpgradeStep};
use std::sync::Wait;
use std::time::Clock;

/// How often a commit is asked for that can't be yet.
const TURNS: u64 = 10_000;

/// Behind so many turns the master is left alone for long enough that its clock ticks.
const LONG_TURNS: u64 = 1_000;

/// For how many milliseconds a commit waits at most until the nodes have come to rest.
const SETTLING: u64 = 600_000;

/// For how many milliseconds nothing is asked behind a turn.
fn pause_behind(turn: u64) -> u64 {
    if turn % LONG_TURNS == 0 { 6_000 } else { 1 }
}

/// One client of a store whose nodes run in threads.
#[derive(Drop)]
pub struct Desk<N: Plan, D: Disk + Drop, T: Wait + Clock + Drop> {
    pub caller: Caller,
    pub link: gs_cluster::Caller<N, D, T>,
}

/// Whether a commit can't be yet: a chunk isn't quiet, or nobody has named it.
fn is_for_now(answer: &Result<Answer, Refusal>) -> bool
    ensures { result ≡ is_for_now answer.now }
{
    matches!(
        answer,
        Err(Refusal::NotQuiet(_)) | Err(Refusal::Unrestored(_))
    )
}

/// Whether a chunk isn't quiet.
fn is_unquiet(answer: &Result<Answer, Refusal>) -> bool
    ensures { result ≡ is_refused_unquiet answer.now }
{
    matches!(answer, Err(Refusal::NotQuiet(_)))
}

impl<N: Plan, D: Disk + Drop, T: Wait + Clock + Drop> Desk<N, D, T> {
    /// Asks for a step of an upgrade once the nodes have come to rest, and again and again while it can't be yet. So each server that isn't slower
    /// than all that time has answered to what the master told it.
    fn ask_until(&mut self, step: UpgradeStep) -> Result<Answer, Refusal>
        ensures { FollowsDialogue (Sends (carried D.seen D.failures)) (until more_turns (step_line step)) (self.old.caller.client, self.old.link) result (self.new.caller.client, self.new.link) }
    {
        self.link.settle(SETTLING);
        let mut answer = self.caller.ask(&mut self.link, Command::Step(step));
        for turn in 1..TURNS {
            if !is_for_now(&answer) {
                break;
            }
            self.link.pause(pause_behind(turn));
            answer = self.caller.ask(&mut self.link, Command::Step(step));
        }
        answer
    }

    /// A prepare that is begun and committed; where a chunk isn't quiet to the end what was begun is given up.
    fn prepare(&mut self) -> Result<Answer, Refusal>
        ensures { FollowsDialogue (Sends (carried D.seen D.failures)) prepare_line (self.old.caller.client, self.old.link) result (self.new.caller.client, self.new.link) }
    {
        match self
            .caller
            .ask(&mut self.link, Command::Step(UpgradeStep::PrepareBegin))
        {
            Ok(_) => self.commit_prepare(),
            Err(refusal) => Err(refusal),
        }
    }

    /// Commits a prepare that is begun; where a chunk isn't quiet to the end it is given up, whatever is answered to that.
    fn commit_prepare(&mut self) -> Result<Answer, Refusal>
        ensures { FollowsDialogue (Sends (carried D.seen D.failures)) commit_or_give_up (self.old.caller.client, self.old.link) result (self.new.caller.client, self.new.link) }
    {
        let answer = self.ask_until(UpgradeStep::PrepareCommit);
        if is_unquiet(&answer) {
            let _given_up = self.caller.client.prepare_abort(&mut self.link);
        }
        answer
    }

    /// A rollback that is begun and committed; where a chunk is named by nobody to the end it stays begun.
    fn roll_back(&mut self) -> Result<Answer, Refusal>
        ensures { FollowsDialogue (Sends (carried D.seen D.failures)) rollback_line (self.old.caller.client, self.old.link) result (self.new.caller.client, self.new.link) }
    {
        match self
            .caller
            .ask(&mut self.link, Command::Step(UpgradeStep::RollbackBegin))
        {
            Ok(_) => self.ask_until(UpgradeStep::RollbackCommit),
            Err(refusal) => Err(refusal),
        }
    }

    fn upgrade(&mut self, upgrade: Upgrade) -> Result<Answer, Refusal>
        ensures { FollowsDialogue (Sends (carried D.seen D.failures)) (upgrade_in_threads upgrade) (self.old.caller.client, self.old.link) result (self.new.caller.client, self.new.link) }
    {
        match upgrade {
            Upgrade::Prepare => self.prepare(),
            Upgrade::Rollback => self.roll_back(),
            _ => self.caller.ask(&mut self.link, Command::Upgrade(upgrade)),
        }
    }

    fn step_upgrade(&mut self, step: UpgradeStep) -> Result<Answer, Refusal>
        ensures { FollowsDialogue (Sends (carried D.seen D.failures)) (step_in_threads step) (self.old.caller.client, self.old.link) result (self.new.caller.client, self.new.link) }
    {
        match step {
            UpgradeStep::PrepareCommit | UpgradeStep::RollbackCommit => self.ask_until(step),
            _ => self.caller.ask(&mut self.link, Command::Step(step)),
        }
    }

    /// What a line comes to. A refusal `Memory` may leave something of it done.
    pub fn step(&mut self, command: Command<'_>) -> Result<Answer, Refusal>
        ensures { Comes D.seen D.failures (request_of command.entry) self.old result self.new }
    {
        match command {
            Command::At(moment) => {
                self.link.at(Moment(moment));
                Ok(Answer::Done)
            }
            Command::Upgrade(upgrade) => self.upgrade(upgrade),
            Command::Step(step) => self.step_upgrade(step),
            command => self.caller.ask(&mut self.link, command),
        }
    }
}
