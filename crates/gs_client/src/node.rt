ghost use Rattle.std.specs.Prelude.{◌≡◌, ◌++◌, ◌∷◌, [], OnOk, IfOk, option_copied};
ghost use Rattle.gs_base.specs.Calls.{Does};
ghost use Rattle.gs_client.specs.Nodes.{silent, resting, asks, Asks, hears, given_up, tell, with_bytes, pushes, messages_of, takes};

use crate::link::Reply;
use gs_base::{ClientId, Members, Refusal, ReqId};
use gs_msg::{Body, Bytes, Chunk, Message, NodeId, Op, Request};
use std::alloc::{AllocError, Global};
use std::marker::Model;

/// A client as a node of a store: the number that it used last, what it waits for, and what came back.
#[derive(Debug)]
pub struct ClientNode {
    id: ClientId,
    last: u64,
    waiting: Option<u64>,
    reply: Option<Reply>,
}

impl Drop for ClientNode {
    fn drop(self) {
        let Self {
            id: _,
            last: _,
            waiting: _,
            reply: _,
        } = self;
    }
}

impl Model for ClientNode {
    ghost use Rattle.gs_client.specs.Nodes.{Node, coded_node};

    ghost Value = { Node };

    ghost coded = { coded_node };

    ghost view = { λ n. record { id = n.id; last = n.last; waiting = n.waiting; reply = n.reply } };
}

impl ClientNode {
    pub fn new(id: ClientId) -> ClientNode
        ensures { result ≡ silent id }
    {
        ClientNode {
            id,
            last: 0,
            waiting: None,
            reply: None,
        }
    }

    /// One that has asked under numbers up to the last, and waits for nothing: as a client that is read back from an image.
    pub fn resting(id: ClientId, last: u64) -> ClientNode
        ensures { result ≡ resting id last }
    {
        ClientNode {
            id,
            last,
            waiting: None,
            reply: None,
        }
    }

    /// The request that it waits for, if it does.
    pub fn waits_for(&self) -> Option<u64>
        ensures { result ≡ self.now.waiting }
    {
        self.waiting
    }

    /// Asks under a number, and waits for that alone: the messages that go out, in order. `Old` where the number isn't above
    /// the last.
    pub fn ask(
        &mut self,
        alloc: Global,
        number: u64,
        request: Request,
    ) -> Result<Vec<Message>, Refusal>
        ensures { Asks (asks number request self.old) result self.old self.new }
    {
        if number <= self.last {
            drop(request);
            return Err(Refusal::Old);
        }
        let req = ReqId {
            client: self.id,
            number,
        };
        let sent = messages_of(alloc, req, request)?;
        self.last = number;
        self.waiting = Some(number);
        drop(self.reply.take());
        Ok(sent)
    }

    /// Takes an answer, where it is the first to what it waits for; any other answer is passed over. `Stray` for what no client
    /// is sent. It takes no memory.
    pub fn hear(&mut self, body: Body) -> Result<(), Refusal>
        ensures { Does (hears body self.old) result self.old self.new }
    {
        match body {
            Body::Reply {
                req,
                result: Ok(answer),
            } => self.take(req, Reply::Answer(answer)),
            Body::Done {
                req,
                result: Ok(outcome),
            } => self.take(req, Reply::Outcome(outcome)),
            Body::Bytes {
                req,
                result: Ok(given),
            } => self.take(req, Reply::Given(given)),
            Body::Reply {
                req,
                result: Err(refusal),
            }
            | Body::Done {
                req,
                result: Err(refusal),
            }
            | Body::Bytes {
                req,
                result: Err(refusal),
            } => self.take(req, Reply::Refused(refusal)),
            _ => {
                drop(body);
                return Err(Refusal::Stray);
            }
        }
        Ok(())
    }

    fn take(&mut self, req: ReqId, reply: Reply)
        ensures { self.new ≡ takes req reply self.old }
    {
        if req.client == self.id && self.waiting == Some(req.number) {
            self.waiting = None;
            drop(self.reply.replace(reply));
        } else {
            drop(reply);
        }
    }

    /// What came back since it asked, if something did. It stays until it is taken, or until the next request.
    pub fn reply(&self) -> Option<&Reply>
        ensures { option_copied result ≡ self.now.reply }
    {
        self.reply.as_ref()
    }

    /// What came back since it asked, if something did. It is given once.
    pub fn take_reply(&mut self) -> Option<Reply>
        ensures given { result ≡ self.old.reply }
        ensures new { self.new ≡ given_up self.old }
    {
        self.reply.take()
    }
}

fn tell(req: ReqId, to: NodeId, body: Body) -> Message
    ensures { result ≡ tell req to body }
{
    Message {
        from: NodeId::Client(req.client),
        to,
        body,
    }
}

/// What goes out for a request.
fn messages_of(alloc: Global, req: ReqId, request: Request) -> Result<Vec<Message>, AllocError>
    ensures { IfOk result (λ sent. sent.items ≡ messages_of req request) }
{
    match request {
        Request::Call(call) => alone(alloc, tell(req, NodeId::Master, Body::Call { req, call })),
        Request::Write {
            handle,
            members,
            primary,
            stamp,
            op,
            bytes,
        } => {
            let mut sent = Vec::new(alloc);
            let to = members_with_bytes(members, op);
            push_to_each(alloc, &mut sent, req, to, bytes)?;
            let edit = Chunk::Edit { req, stamp, op };
            sent.push(tell(req, NodeId::Server(primary), Body::About(handle, edit)))?;
            Ok(sent)
        }
        Request::Fetch {
            to,
            handle,
            stamp,
            epoch,
            asked,
        } => {
            let fetch = Chunk::Fetch {
                req,
                stamp,
                epoch,
                asked,
            };
            alone(
                alloc,
                tell(req, NodeId::Server(to), Body::About(handle, fetch)),
            )
        }
    }
}

/// A message that goes out by itself.
fn alone(alloc: Global, message: Message) -> Result<Vec<Message>, AllocError>
    ensures { IfOk result (λ sent. sent.items ≡ message ∷ []) }
{
    let mut sent = Vec::new(alloc);
    sent.push(message)?;
    Ok(sent)
}

/// To whom the bytes of an edit go.
fn members_with_bytes(members: Members, op: Op) -> Members
    ensures { result ≡ with_bytes members op }
{
    match op {
        Op::Write { .. } | Op::Append { .. } => members,
        Op::Pad => Members::none(),
    }
}

/// Sends bytes to each of some servers, ascending. The last one is sent the bytes themselves, the others copies.
fn push_to_each(
    alloc: Global,
    sent: &mut Vec<Message>,
    req: ReqId,
    members: Members,
    bytes: Bytes,
) -> Result<(), AllocError>
    ensures { OnOk result (sent.new.items ≡ sent.old.items ++ pushes req members bytes) }
{
    let mut left = members;
    let Some(mut to) = left.pop_first() else {
        return Ok(());
    };
    for next in left {
        let push = Body::Push {
            req,
            bytes: bytes.copy(alloc)?,
        };
        sent.push(tell(req, NodeId::Server(to), push))?;
        to = next;
    }
    sent.push(tell(req, NodeId::Server(to), Body::Push { req, bytes }))?;
    Ok(())
}
