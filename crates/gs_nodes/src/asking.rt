// What clients ask, and what they have heard.
ghost use Rattle.std.specs.Prelude.{◌≡◌, None, Err, false, is_some, MatchOption};
ghost use Rattle.gs_client.specs.Nodes.{given_up};
ghost use Rattle.gs_base.specs.declared.refusal.Refusal.TheVariants as refusals;
ghost use Rattle.gs_nodes.specs.Happenings.{AtClient, ClientAsks, client_in};
ghost use Rattle.gs_nodes.specs.Nodes.{nodes_of};

use crate::nodes::Nodes;
use gs_base::{ClientId, Refusal, ReqId};
use gs_client::Reply;
use gs_journal::Disk;
use gs_msg::{Message, Request};

impl<D: Disk + Drop> Nodes<D> {
    /// A client asks under a number, and waits for the answer to that alone: the messages that go out, in order. A refusal
    /// changes nothing: `Old` where the number isn't above the last one of this client, `Range` where there is no such client,
    /// `Memory` where memory is wanting.
    pub fn ask(&mut self, req: ReqId, request: Request) -> Result<Vec<Message>, Refusal>
        ensures { AtClient req.client (Err refusals.Range) (ClientAsks req.number request) (nodes_of self.old) result (nodes_of self.new) }
    {
        if req.client.0 == 0 {
            drop(request);
            return Err(Refusal::Range);
        }
        match self.clients.get_mut((req.client.0 - 1) as usize) {
            Some(node) => node.ask(self.alloc, req.number, request),
            None => {
                drop(request);
                Err(Refusal::Range)
            }
        }
    }

    /// What came back since a client asked, if something did. It is given once.
    pub fn take_reply(&mut self, client: ClientId) -> Option<Reply>
        ensures { AtClient client None (λ n result new. (result ≡ n.reply) × (new ≡ given_up n)) (nodes_of self.old) result (nodes_of self.new) }
    {
        if client.0 == 0 {
            return None;
        }
        match self.clients.get_mut((client.0 - 1) as usize) {
            Some(node) => node.take_reply(),
            None => None,
        }
    }

    /// Whether a client waits for an answer.
    pub fn is_waiting(&self, client: ClientId) -> bool
        ensures { MatchOption (client_in (nodes_of self.now).clients client) (result ≡ false) (λ n. result ≡ is_some n.waiting) }
    {
        if client.0 == 0 {
            return false;
        }
        match self.clients.get((client.0 - 1) as usize) {
            Some(node) => node.waits_for().is_some(),
            None => false,
        }
    }
}
