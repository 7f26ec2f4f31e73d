ghost use Rattle.std.specs.Prelude.{◌≡◌, IfOk, IfErr};
ghost use Rattle.gs_shell_desk.specs.Lines.{Comes};
ghost use Rattle.gs_shell_desk.specs.Starting.{Starts, begun};
ghost use Rattle.gs_shell_desk.specs.Ways.{way_of};
ghost use Rattle.gs_shell_grammar.specs.Grammar.{request_of};
ghost use Rattle.gs_nodes.specs.Happenings.{WhyNotBegun};
ghost use Rattle.gs_nodes.specs.Nodes.{nodes_of};

use crate::wire::Wire;
use gs_base::{ClientId, Config, Moment, Refusal};
use gs_journal::{Disk, Unopened};
use gs_nodes::Nodes;
use gs_shell_calls::{Answer, Caller};
use gs_shell_grammar::Command;
use std::alloc::Global;
use std::collections::VecDeque;

/// One client of a store, and what carries its requests to the nodes.
pub struct Desk<D: Disk> {
    pub caller: Caller,
    pub wire: Wire<D>,
}

impl<D: Disk + Drop> Drop for Desk<D> {
    fn drop(self) {
        let Self { caller: _, wire: _ } = self;
    }
}

impl<D: Disk + Drop> Wire<D> {
    /// At moment 0, with nothing under way or held back.
    fn begin(alloc: Global, nodes: Nodes<D>) -> Wire<D>
        ensures { way_of result ≡ begun (nodes_of nodes) }
    {
        Wire {
            alloc,
            nodes,
            moment: Moment(0),
            queue: VecDeque::new(alloc),
            held_kind: None,
            held: Vec::new(alloc),
            drops: 0,
            is_short: false,
            trace: None,
        }
    }
}

impl<D: Disk + Drop> Desk<D> {
    /// A store over the disks of a journal, at moment 0, with client 1, who has asked nothing yet. Nothing is held back. New disks
    /// are those of a new store. Where memory is wanting, or the disks can't be opened, they are handed back.
    pub fn new(alloc: Global, config: Config, disks: (D, D)) -> Result<Desk<D>, Unopened<D>>
        ensures starts { IfOk result (λ desk. Starts D.seen D.failures config disks desk) }
        ensures refused { IfErr result (WhyNotBegun D.seen D.failures config disks) }
    {
        let (nodes, turn) = Nodes::new(alloc, config, 1, disks)?;
        let mut wire = Wire::begin(alloc, nodes);
        wire.send_all(turn.sent);
        wire.deliver_all();
        Ok(Desk {
            caller: Caller::new(alloc, ClientId(1), config),
            wire,
        })
    }

    /// From now on the text of each message that is sent is kept.
    pub fn start_trace(&mut self)
        ensures client { self.new.caller.client ≡ self.old.caller.client }
        ensures way { way_of self.new.wire ≡ way_of self.old.wire }
    {
        self.wire.trace = Some(Vec::new(self.wire.alloc));
    }

    /// The texts of the messages that were sent since they were last taken, in order, where they are kept.
    pub fn take_trace(&mut self) -> Option<Vec<String>>
        ensures client { self.new.caller.client ≡ self.old.caller.client }
        ensures way { way_of self.new.wire ≡ way_of self.old.wire }
    {
        let texts = self.wire.trace.take()?;
        self.wire.trace = Some(Vec::new(self.wire.alloc));
        Some(texts)
    }

    /// What a line comes to. A refusal `Memory` may leave something of it done.
    pub fn step(&mut self, command: Command<'_>) -> Result<Answer, Refusal>
        ensures { Comes D.seen D.failures (request_of command.entry) self.old result self.new }
    {
        match command {
            Command::Beat(server) => self.beat(server),
            Command::Tick => self.tick(),
            Command::At(moment) => self.set_moment(moment),
            Command::Restart(node) => self.restart(node),
            Command::Lose { server, handle } => self.lose(server, handle),
            Command::Damage {
                server,
                handle,
                block,
            } => self.damage(server, handle, block),
            Command::Hold(kind) => self.hold(kind),
            Command::Deliver(number) => self.hand_over(number),
            command => self.caller.ask(&mut self.wire, command),
        }
    }
}
