// What each node has sent.
ghost use Rattle.std.specs.Prelude.{◌≡◌, ◌⊎◌, Ok, Err, IfOk, MatchOption, false, [], option_copied, option_map, replicate};
ghost use Rattle.gs_base.specs.declared.refusal.Refusal.TheVariants as refusals;
ghost use Rattle.gs_msg.specs.Posts.{message_at};
ghost use Rattle.gs_msg.specs.declared.node.NodeId.TheVariants as nodes;
ghost use Rattle.gs_world.specs.Sent.{Appends, Forgets, ForgetsIn, IsPosted, IsPostedIn, all_posts, lost_all, message_of, none_sent, posts_of, sent_by};

use gs_base::{ClientId, Moment, Refusal, ServerId};
use gs_msg::{Message, NodeId, Outbox};
use std::alloc::{AllocError, Global};
use std::marker::Model;

/// What each node of a store has sent, in order.
pub struct Posts {
    master: Outbox,
    /// Of the servers by their numbers.
    servers: Vec<Outbox>,
    /// Of the clients, which are numbered from 1 upwards.
    clients: Vec<Outbox>,
    has_lost: bool,
}

impl Drop for Posts {
    fn drop(self) {
        let Self {
            master: _,
            servers: _,
            clients: _,
            has_lost: _,
        } = self;
    }
}

impl Model for Posts {
    ghost use Rattle.gs_world.specs.Sent.{Sent, all_posts, coded_sent};

    ghost Value = { Sent };

    ghost coded = { coded_sent };

    ghost view = { λ p. record { master = p.master.posts; servers = all_posts p.servers.items; clients = all_posts p.clients.items; has_lost = p.has_lost } };
}

/// The same node.
pub(crate) fn same(node: &NodeId) -> NodeId
    ensures { result ≡ node.now }
{
    *node
}

/// So many nodes that have sent nothing.
fn silent(alloc: Global, many: u64) -> Result<Vec<Outbox>, AllocError>
    ensures { IfOk result (λ outboxes. all_posts outboxes.items ≡ replicate many []) }
{
    let mut outboxes = Vec::new(alloc);
    for _before in 0..many {
        outboxes.push(Outbox::new(alloc))?;
    }
    Ok(outboxes)
}

/// Sends one message after the other. One for which memory is wanting is lost. The answer is whether one ever was.
fn post_all(outbox: &mut Outbox, has_lost: bool, moment: Moment, sent: Vec<Message>) -> bool
    ensures { Appends moment sent.items (outbox.old.posts, has_lost) (outbox.new.posts, result) }
{
    let mut lost = has_lost;
    for message in sent {
        match outbox.post(moment, message) {
            Ok(_) => {}
            Err(_) => lost = true,
        }
    }
    lost
}

/// Messages are lost. The answer is whether one ever was.
#[tactic(auto, using(crate::proofs::Posting::some_lost, crate::proofs::Posting::none_lost))]
fn lose_all(has_lost: bool, sent: Vec<Message>) -> bool
    ensures { result ≡ lost_all sent.items has_lost }
{
    has_lost || !sent.is_empty()
}

/// Sends messages from one of several nodes. Where there is no such node they are lost. The answer is whether one ever was.
fn post_in(
    outboxes: &mut Vec<Outbox>,
    node: usize,
    has_lost: bool,
    moment: Moment,
    sent: Vec<Message>,
) -> bool
    ensures { IsPostedIn node moment sent.items (all_posts outboxes.old.items, has_lost) (all_posts outboxes.new.items, result) }
{
    match outboxes.get_mut(node) {
        Some(outbox) => post_all(outbox, has_lost, moment, sent),
        None => lose_all(has_lost, sent),
    }
}

/// Gives a message of one of several nodes up.
fn forget_in(outboxes: &mut Vec<Outbox>, node: usize, place: u64)
    ensures { ForgetsIn node place (all_posts outboxes.old.items) (all_posts outboxes.new.items) }
{
    if let Some(outbox) = outboxes.get_mut(node) {
        outbox.forget(place);
    }
}

/// The message at a place, if it stands there still.
fn standing(outbox: &Outbox, place: u64) -> Option<&Message>
    ensures { option_copied result ≡ message_at outbox.now.posts place }
{
    match outbox.get(place) {
        Some(post) => post.message.as_ref(),
        None => None,
    }
}

impl Posts {
    /// Of nodes that have sent what stands in these outboxes: the servers' by their numbers, and the clients', of whom the first is
    /// client 1. None of it was lost.
    pub fn of(master: Outbox, servers: Vec<Outbox>, clients: Vec<Outbox>) -> Posts
        ensures { result ≡ record { master = master.posts; servers = all_posts servers.items; clients = all_posts clients.items; has_lost = false } }
    {
        Posts {
            master,
            servers,
            clients,
            has_lost: false,
        }
    }

    /// Of so many servers and clients, none of which has sent anything.
    pub(crate) fn new(alloc: Global, servers: u64, clients: u64) -> Result<Posts, AllocError>
        ensures { IfOk result (λ posts. posts ≡ none_sent servers clients) }
    {
        Ok(Posts {
            master: Outbox::new(alloc),
            servers: silent(alloc, servers)?,
            clients: silent(alloc, clients)?,
            has_lost: false,
        })
    }

    #[tactic(auto, using(crate::proofs::Posting::at_server))]
    fn post_at_server(&mut self, moment: Moment, server: ServerId, sent: Vec<Message>)
        ensures { IsPosted moment (nodes.Server server) sent.items self.old self.new }
    {
        let lost = self.has_lost;
        self.has_lost = post_in(
            &mut self.servers,
            server.number() as usize,
            lost,
            moment,
            sent,
        );
    }

    #[tactic(auto, using(crate::proofs::Posting::at_client, crate::proofs::Posting::at_nobody))]
    fn post_at_client(&mut self, moment: Moment, client: ClientId, sent: Vec<Message>)
        ensures { IsPosted moment (nodes.Client client) sent.items self.old self.new }
    {
        let lost = self.has_lost;
        if client.0 == 0 {
            self.has_lost = lose_all(lost, sent);
            return;
        }
        self.has_lost = post_in(
            &mut self.clients,
            (client.0 - 1) as usize,
            lost,
            moment,
            sent,
        );
    }

    /// A node sends messages. Those for which memory is wanting are lost.
    pub(crate) fn post(&mut self, moment: Moment, by: NodeId, sent: Vec<Message>)
        ensures { IsPosted moment by sent.items self.old self.new }
    {
        match by {
            NodeId::Master => {
                let lost = self.has_lost;
                self.has_lost = post_all(&mut self.master, lost, moment, sent);
            }
            NodeId::Server(server) => self.post_at_server(moment, server, sent),
            NodeId::Client(client) => self.post_at_client(moment, client, sent),
        }
    }

    /// Whether a message was ever lost, since memory was wanting for it or there is no such node.
    pub fn has_lost(&self) -> bool
        ensures { result ≡ self.now.has_lost }
    {
        self.has_lost
    }

    /// What a node has sent, if there is such a node.
    pub fn outbox(&self, by: NodeId) -> Option<&Outbox>
        ensures { option_map (λ o. o.now.posts) result ≡ posts_of self.now by }
    {
        match by {
            NodeId::Master => Some(&self.master),
            NodeId::Server(server) => self.servers.get(server.number() as usize),
            NodeId::Client(client) => {
                if client.0 == 0 {
                    return None;
                }
                self.clients.get((client.0 - 1) as usize)
            }
        }
    }

    /// How many messages a node has sent: none where there is no such node.
    pub fn count(&self, by: NodeId) -> u64
        ensures { result ≡ sent_by self.now by }
    {
        match self.outbox(by) {
            Some(outbox) => outbox.len() as u64,
            None => 0,
        }
    }

    /// A copy of a message that was sent. `Range` where there is no such message, or it has been given up; `Memory` where memory is
    /// wanting for it.
    pub fn copied(&self, alloc: Global, sender: NodeId, place: u64) -> Result<Message, Refusal>
        ensures { MatchOption (message_of self.now (record { sender = sender; place = place })) (result ≡ Err refusals.Range) (λ message. (result ≡ Ok message) ⊎ (result ≡ Err refusals.Memory)) }
    {
        let Some(outbox) = self.outbox(sender) else {
            return Err(Refusal::Range);
        };
        let Some(message) = standing(outbox, place) else {
            return Err(Refusal::Range);
        };
        match message.copy(alloc) {
            Ok(message) => Ok(message),
            Err(_) => Err(Refusal::Memory),
        }
    }

    #[tactic(auto, using(crate::proofs::Posting::forgets_server))]
    fn forget_at_server(&mut self, server: ServerId, place: u64)
        ensures { Forgets (record { sender = nodes.Server server; place = place }) self.old self.new }
    {
        forget_in(&mut self.servers, server.number() as usize, place);
    }

    #[tactic(auto, using(crate::proofs::Posting::forgets_client, crate::proofs::Posting::forgets_nobody))]
    fn forget_at_client(&mut self, client: ClientId, place: u64)
        ensures { Forgets (record { sender = nodes.Client client; place = place }) self.old self.new }
    {
        if client.0 == 0 {
            return;
        }
        forget_in(&mut self.clients, (client.0 - 1) as usize, place);
    }

    /// Gives a message up: it can't be delivered any more. It takes no memory.
    pub(crate) fn forget(&mut self, sender: NodeId, place: u64)
        ensures { Forgets (record { sender = sender; place = place }) self.old self.new }
    {
        match sender {
            NodeId::Master => self.master.forget(place),
            NodeId::Server(server) => self.forget_at_server(server, place),
            NodeId::Client(client) => self.forget_at_client(client, place),
        }
    }
}
