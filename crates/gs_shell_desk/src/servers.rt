// What is done to nodes and to messages.
ghost use Rattle.std.specs.Prelude.{◌≡◌, ◌⊎◌, Ok, Err, MatchOption, IfSome, IfNone, true, false};
ghost use Rattle.gs_base.specs.declared.refusal.Refusal.TheVariants as refusals;
ghost use Rattle.gs_shell_desk.specs.Lines.{BeatsAt, Damages, HandsOverAt, Loses, MasterRestarts, NodesDo, Restarts, held_at, is_server};
ghost use Rattle.gs_shell_desk.specs.Ways.{TicksWhole, way_of};
ghost use Rattle.gs_shell_grammar.specs.Grammar as lines;

use crate::desk::Desk;
use crate::wire::Wire;
use gs_base::{Handle, Moment, Refusal, ServerId};
use gs_journal::Disk;
use gs_msg::{Kind, Message};
use gs_shell_calls::Answer;
use gs_shell_grammar::Restarted;

impl<D: Disk + Drop> Desk<D> {
    pub(crate) fn set_moment(&mut self, moment: u64) -> Result<Answer, Refusal>
        ensures client { self.new.caller.client ≡ self.old.caller.client }
        ensures does { NodesDo D.seen D.failures (lines.At moment) (way_of self.old.wire) result (way_of self.new.wire) }
    {
        self.wire.moment = Moment(moment);
        Ok(Answer::Done)
    }

    pub(crate) fn hold(&mut self, kind: Option<Kind>) -> Result<Answer, Refusal>
        ensures client { self.new.caller.client ≡ self.old.caller.client }
        ensures does { NodesDo D.seen D.failures (lines.Hold kind) (way_of self.old.wire) result (way_of self.new.wire) }
    {
        self.wire.held_kind = kind;
        Ok(Answer::Done)
    }

    pub(crate) fn hand_over(&mut self, number: u64) -> Result<Answer, Refusal>
        ensures client { self.new.caller.client ≡ self.old.caller.client }
        ensures does { NodesDo D.seen D.failures (lines.Deliver number) (way_of self.old.wire) result (way_of self.new.wire) }
    {
        gs_shell_calls::done(self.wire.hand_over(number))
    }

    pub(crate) fn beat(&mut self, server: u64) -> Result<Answer, Refusal>
        ensures client { self.new.caller.client ≡ self.old.caller.client }
        ensures does { NodesDo D.seen D.failures (lines.Beat server) (way_of self.old.wire) result (way_of self.new.wire) }
    {
        gs_shell_calls::number(self.wire.beat(server))
    }

    pub(crate) fn tick(&mut self) -> Result<Answer, Refusal>
        ensures client { self.new.caller.client ≡ self.old.caller.client }
        ensures does { NodesDo D.seen D.failures lines.Tick (way_of self.old.wire) result (way_of self.new.wire) }
    {
        self.wire.tick();
        Ok(Answer::Done)
    }

    pub(crate) fn restart(&mut self, node: Restarted) -> Result<Answer, Refusal>
        ensures client { self.new.caller.client ≡ self.old.caller.client }
        ensures does { NodesDo D.seen D.failures (lines.Restart node) (way_of self.old.wire) result (way_of self.new.wire) }
    {
        gs_shell_calls::done(self.wire.restart(node))
    }

    pub(crate) fn lose(&mut self, server: u64, handle: u64) -> Result<Answer, Refusal>
        ensures client { self.new.caller.client ≡ self.old.caller.client }
        ensures does { NodesDo D.seen D.failures (lines.Lose server handle) (way_of self.old.wire) result (way_of self.new.wire) }
    {
        gs_shell_calls::done(self.wire.lose(server, handle))
    }

    pub(crate) fn damage(&mut self, server: u64, handle: u64, block: u64) -> Result<Answer, Refusal>
        ensures client { self.new.caller.client ≡ self.old.caller.client }
        ensures does { NodesDo D.seen D.failures (lines.Damage server handle block) (way_of self.old.wire) result (way_of self.new.wire) }
    {
        gs_shell_calls::done(self.wire.damage(server, handle, block))
    }
}

impl<D: Disk + Drop> Wire<D> {
    /// The server of a number, if there is one.
    fn server(&self, number: u64) -> Option<ServerId>
        ensures some { IfSome result (λ id. (id ≡ number) × (is_server number (way_of self.now) ≡ true)) }
        ensures none { IfNone result (is_server number (way_of self.now) ≡ false) }
    {
        if number >= self.nodes.servers.len() as u64 {
            return None;
        }
        ServerId::new(number)
    }

    /// A copy of what was held back under a number.
    fn held_message(&self, number: u64) -> Result<Message, Refusal>
        ensures { MatchOption (held_at number (way_of self.now).held) (result ≡ Err refusals.Range) (λ message. (result ≡ Ok message) ⊎ (result ≡ Err refusals.Memory)) }
    {
        if number == 0 {
            return Err(Refusal::Range);
        }
        match self.held.get((number - 1) as usize) {
            Some(message) => match message.copy(self.alloc) {
                Ok(message) => Ok(message),
                Err(_) => Err(Refusal::Memory),
            },
            None => Err(Refusal::Range),
        }
    }

    /// Hands over what was held back under a number, once more, and delivers what follows.
    fn hand_over(&mut self, number: u64) -> Result<(), Refusal>
        ensures { HandsOverAt D.seen D.failures number (way_of self.old) result (way_of self.new) }
    {
        let message = match self.held_message(number) {
            Ok(message) => message,
            Err(refusal) => {
                self.note(&refusal);
                return Err(refusal);
            }
        };
        let said = self.deliver(message);
        self.deliver_all();
        said
    }

    /// A server reports, and what follows is delivered. The answer is how many drops that brought.
    fn beat(&mut self, number: u64) -> Result<u64, Refusal>
        ensures { BeatsAt D.seen D.failures number (way_of self.old) result (way_of self.new) }
    {
        let Some(server) = self.server(number) else {
            return Err(Refusal::Range);
        };
        let report = match self.nodes.beat(server) {
            Ok(report) => report,
            Err(refusal) => {
                self.note(&refusal);
                return Err(refusal);
            }
        };
        self.drops = 0;
        self.send(report);
        self.deliver_all();
        Ok(self.drops)
    }

    /// All nodes tick once, the master first, and what follows is delivered. What a node refuses isn't told, but that memory was wanting is noted.
    fn tick(&mut self)
        ensures { TicksWhole D.seen D.failures (way_of self.old) (way_of self.new) }
    {
        self.tick_all();
        self.deliver_all();
    }

    fn restart(&mut self, node: Restarted) -> Result<(), Refusal>
        ensures { Restarts D.seen D.failures node (way_of self.old) result (way_of self.new) }
    {
        match node {
            Restarted::Master => self.restart_master(),
            Restarted::Server(number) => match self.server(number) {
                Some(server) => self.nodes.restart_server(server),
                None => Err(Refusal::Range),
            },
        }
    }

    fn restart_master(&mut self) -> Result<(), Refusal>
        ensures { MasterRestarts D.seen D.failures (way_of self.old) result (way_of self.new) }
    {
        let done = self.nodes.restart_master();
        let said = self.end(done);
        self.deliver_all();
        said
    }

    fn lose(&mut self, number: u64, handle: u64) -> Result<(), Refusal>
        ensures { Loses number handle (way_of self.old) result (way_of self.new) }
    {
        let Some(server) = self.server(number) else {
            return Err(Refusal::Range);
        };
        let Some(handle) = Handle::new(handle) else {
            return Err(Refusal::NoReplica);
        };
        self.nodes.lose(server, handle)
    }

    fn damage(&mut self, number: u64, handle: u64, block: u64) -> Result<(), Refusal>
        ensures { Damages number handle block (way_of self.old) result (way_of self.new) }
    {
        let Some(server) = self.server(number) else {
            return Err(Refusal::Range);
        };
        let Some(handle) = Handle::new(handle) else {
            return Err(Refusal::NoReplica);
        };
        self.nodes.damage(server, handle, block)
    }
}
