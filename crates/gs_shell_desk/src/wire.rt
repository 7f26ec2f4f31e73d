// What carries a client's requests to the nodes of a store.
ghost use Rattle.std.specs.Prelude.{[], ◌≡◌, ◌<◌, ◌≤◌, fold, None, OnOk, OnErr};
ghost use Rattle.gs_client.specs.declared.link.Reply.{Reply};
ghost use Rattle.gs_msg.specs.declared.event.Request.{Request};
ghost use Rattle.gs_base.specs.declared.numbers.ReqId.{ReqId};
ghost use Rattle.gs_shell_desk.specs.Ways.{AllTick, Carries, DeliversWhole, Ends, Heard, IsAsked, IsDelivered, MasterTicked, Puts, Sends, SendsAll, ServerTicked, ServersTick, Waited, counted, is_drop, noted, shortened_by, way_of};

use gs_base::{ClientId, Moment, Refusal, ReqId, ServerId};
use gs_client::{Link, Reply};
use gs_journal::Disk;
use gs_msg::{Kind, Message, Request};
use gs_nodes::{Nodes, Turn};
use std::alloc::{AllocError, Global};
use std::collections::VecDeque;

/// The nodes of a store, what is under way between them, and what is held back.
pub struct Wire<D: Disk> {
    pub alloc: Global,
    pub nodes: Nodes<D>,
    /// When all happens.
    pub moment: Moment,
    /// What is under way, in the order in which it was sent.
    pub queue: VecDeque<Message>,
    /// Messages of this kind are held back.
    pub held_kind: Option<Kind>,
    /// What was held back, in the order in which it was sent.
    pub held: Vec<Message>,
    /// How many drops were sent since that was counted from.
    pub drops: u64,
    /// Whether memory was wanting for a message, or a node or the client refused something for want of memory, or said that it was wanting.
    pub is_short: bool,
    /// The texts of what was sent since they were taken, where they are kept.
    pub trace: Option<Vec<String>>,
}

impl<D: Disk + Drop> Drop for Wire<D> {
    fn drop(self) {
        let Self {
            alloc: _,
            nodes: _,
            moment: _,
            queue: _,
            held_kind: _,
            held: _,
            drops: _,
            is_short: _,
            trace: _,
        } = self;
    }
}

fn is_drop(kind: Kind) -> bool
    ensures { result ≡ is_drop kind }
{
    matches!(kind, Kind::Drop)
}

impl<D: Disk + Drop> Wire<D> {
    fn keep_text(&mut self, message: &Message) -> Result<(), AllocError>
        ensures { way_of self.new ≡ way_of self.old }
    {
        if let Some(texts) = &mut self.trace {
            texts.push(format!(in self.alloc; "{message}")?)?;
        }
        Ok(())
    }

    /// One more message is under way, or held back.
    fn put(&mut self, message: Message) -> Result<(), AllocError>
        ensures ok { OnOk result (Puts message (way_of self.old) (way_of self.new)) }
        ensures err { OnErr result (way_of self.new ≡ way_of self.old) }
    {
        if self.held_kind == Some(message.body.kind()) {
            self.held.push(message)?;
            return Ok(());
        }
        self.queue.push_back(message)?;
        Ok(())
    }

    /// Notes whether memory was wanting.
    pub(crate) fn note(&mut self, refusal: &Refusal)
        ensures { way_of self.new ≡ shortened_by refusal.now (way_of self.old) }
    {
        if matches!(refusal, Refusal::Memory) {
            self.is_short = true;
        }
    }

    /// Counts a message that is sent, if it is a drop, and keeps its text. Where memory is wanting for that, it isn't kept.
    fn count(&mut self, message: &Message)
        ensures { way_of self.new ≡ counted message.now (way_of self.old) }
    {
        if is_drop(message.body.kind()) {
            self.drops = self.drops.saturating_add(1);
        }
        let _kept = self.keep_text(message);
    }

    /// The same of messages, in order.
    fn count_all(&mut self, sent: &[Message])
        ensures { way_of self.new ≡ fold (λ way message. counted message way) (way_of self.old) sent.now }
    {
        for message in sent {
            self.count(message);
        }
    }

    /// Sends a message. Where memory is wanting for it, it is lost.
    pub(crate) fn send(&mut self, message: Message)
        ensures { Sends message (way_of self.old) (way_of self.new) }
    {
        self.count(&message);
        if self.put(message).is_err() {
            self.is_short = true;
        }
    }

    /// Sends messages one after the other.
    fn send_each(&mut self, sent: Vec<Message>)
        ensures { SendsAll sent.items (way_of self.old) (way_of self.new) }
    {
        for message in sent {
            self.send(message);
        }
    }

    /// Sends messages where none is under way or held back: they are what is under way then, where they stand. It takes no memory.
    fn send_together(&mut self, sent: Vec<Message>)
        requires queue { self.old.queue.items ≡ [] }
        requires kind { self.old.held_kind ≡ None }
        ensures { SendsAll sent.items (way_of self.old) (way_of self.new) }
    {
        self.count_all(&sent);
        self.queue = VecDeque::from_vec(sent);
    }

    /// Sends messages, in order.
    pub(crate) fn send_all(&mut self, sent: Vec<Message>)
        ensures { SendsAll sent.items (way_of self.old) (way_of self.new) }
    {
        if sent.is_empty() {
            drop(sent);
        } else if self.queue.is_empty() && self.held_kind.is_none() {
            self.send_together(sent);
        } else {
            self.send_each(sent);
        }
    }

    /// Notes whether it is said that memory was wanting, as by a tick that leaves a checkpoint out.
    fn note_said(&mut self, said: &Option<Refusal>)
        ensures { way_of self.new ≡ noted said.now (way_of self.old) }
    {
        if let Some(refusal) = said {
            self.note(refusal);
        }
    }

    /// What an event comes to: its messages are sent. The answer is what was said.
    pub(crate) fn end(&mut self, done: Result<Turn, Refusal>) -> Result<(), Refusal>
        ensures { Ends done (way_of self.old) result (way_of self.new) }
    {
        match done {
            Ok(turn) => {
                self.send_all(turn.sent);
                self.note_said(&turn.said);
                match turn.said {
                    Some(refusal) => Err(refusal),
                    None => Ok(()),
                }
            }
            Err(refusal) => {
                self.note(&refusal);
                Err(refusal)
            }
        }
    }

    /// Hands a message to its receiver, and tells with what it was met.
    pub(crate) fn deliver(&mut self, message: Message) -> Result<(), Refusal>
        ensures { IsDelivered D.seen D.failures message (way_of self.old) result (way_of self.new) }
    {
        let done = self.nodes.deliver(message, self.moment);
        self.end(done)
    }

    /// Delivers what is under way, in the order sent, until nothing is.
    pub(crate) fn deliver_all(&mut self)
        ensures { DeliversWhole D.seen D.failures (way_of self.old) (way_of self.new) }
    {
        for _done in 0..u64::MAX {
            let Some(message) = self.queue.pop_front() else {
                return;
            };
            let _said = self.deliver(message);
        }
    }

    fn tick_master(&mut self)
        ensures { MasterTicked D.seen D.failures (way_of self.old) (way_of self.new) }
    {
        let done = self.nodes.tick_master(self.moment);
        let _said = self.end(done);
    }

    /// The server of a number ticks.
    fn tick_server(&mut self, number: u64)
        requires { number < 16 }
        ensures { ServerTicked number (way_of self.old) (way_of self.new) }
    {
        let Some(server) = ServerId::new(number) else {
            unreachable!()
        };
        let done = self.nodes.tick_server(server, self.moment);
        let _said = self.end(done);
    }

    /// So many of the first servers tick once, ascending.
    fn tick_servers(&mut self, many: u64)
        requires { many ≤ 16 }
        ensures { ServersTick many (way_of self.old) (way_of self.new) }
    {
        for number in 0..many {
            self.tick_server(number);
        }
    }

    /// The master and all servers tick once, in this order.
    pub(crate) fn tick_all(&mut self)
        ensures { AllTick D.seen D.failures (way_of self.old) (way_of self.new) }
    {
        let many = self.nodes.servers.len().min(16) as u64;
        self.tick_master();
        self.tick_servers(many);
    }

    /// What came back to a client.
    fn heard(&mut self, client: ClientId) -> Reply
        ensures { Heard client (way_of self.old) result (way_of self.new) }
    {
        match self.nodes.take_reply(client) {
            Some(reply) => reply,
            None => Reply::Lost,
        }
    }

    /// Where a client has no answer, all tick once, and what follows is delivered.
    fn tick_unless_answered(&mut self, client: ClientId)
        ensures { Waited D.seen D.failures client (way_of self.old) (way_of self.new) }
    {
        if self.nodes.is_waiting(client) {
            self.tick_all();
            self.deliver_all();
        }
    }

    /// Sends what a client asked, and delivers until nothing is under way. If there is no answer then, all tick once, and again all is
    /// delivered.
    fn answer(&mut self, client: ClientId, sent: Vec<Message>) -> Reply
        ensures { IsAsked D.seen D.failures client sent.items (way_of self.old) result (way_of self.new) }
    {
        self.send_all(sent);
        self.deliver_all();
        self.tick_unless_answered(client);
        self.heard(client)
    }

    /// Carries what a client asks to its answer.
    fn carry(&mut self, req: ReqId, request: Request) -> Reply
        ensures { Carries D.seen D.failures req request (way_of self.old) result (way_of self.new) }
    {
        match self.nodes.ask(req, request) {
            Ok(sent) => self.answer(req.client, sent),
            Err(refusal) => {
                self.note(&refusal);
                Reply::Refused(refusal)
            }
        }
    }
}

impl<D: Disk + Drop> Link for Wire<D> {
    ghost Carries = { λ old req request reply new. Carries D.seen D.failures req request (way_of old) reply (way_of new) };

    fn request(&mut self, req: ReqId, request: Request) -> Reply {
        self.carry(req, request)
    }
}
