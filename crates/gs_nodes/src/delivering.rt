// Messages that come to their receivers.
ghost use Rattle.std.specs.Prelude.{◌≡◌, None};
ghost use Rattle.gs_server.specs.Servers as servers;
ghost use Rattle.gs_nodes.specs.Happenings.{AtClient, AtServer, ClientHears, Delivers, ServerDoes};
ghost use Rattle.gs_nodes.specs.Nodes.{nodes_of};

use crate::nodes::Nodes;
use gs_base::{ClientId, Moment, Refusal, ServerId};
use gs_journal::Disk;
use gs_master::Turn;
use gs_msg::{Body, Message, NodeId};

/// What a server does, as what the master does is told: what it sends, and the refusal that it says, if it says one.
pub fn turn_of(turn: gs_server::Turn) -> Turn
    ensures sent { result.sent ≡ turn.sent }
    ensures said { result.said ≡ turn.said }
{
    let gs_server::Turn { sent, said } = turn;
    Turn { sent, said }
}

fn receiver(message: &Message) -> NodeId
    ensures { result ≡ message.now.to }
{
    message.to
}

impl<D: Disk + Drop> Nodes<D> {
    /// Hands a message to its receiver: what that sends, and the refusal with which it met the message, if it did. An answer to a client
    /// of whom there is none is passed over; a message to a server of whom there is none is refused `Range`.
    ///
    /// A refusal changes nothing: `Memory` where memory is wanting; of the master `Full` and `BadLine` too.
    pub fn deliver(&mut self, message: Message, moment: Moment) -> Result<Turn, Refusal>
        ensures { Delivers D.seen D.failures message moment (nodes_of self.old) result (nodes_of self.new) }
    {
        match receiver(&message) {
            NodeId::Master => self.master.hear(self.alloc, message, moment),
            NodeId::Server(server) => self.at_server(server, message, moment),
            NodeId::Client(client) => {
                let said = self.at_client(client, message.body);
                Ok(Turn {
                    sent: Vec::new(self.alloc),
                    said,
                })
            }
        }
    }

    fn at_server(
        &mut self,
        server: ServerId,
        message: Message,
        moment: Moment,
    ) -> Result<Turn, Refusal>
        ensures { AtServer server (λ s. ServerDoes (servers.handle s message moment) s) (nodes_of self.old) result (nodes_of self.new) }
    {
        match self.servers.get_mut(server.number() as usize) {
            Some(server) => match server.handle(message, moment) {
                Ok(turn) => Ok(turn_of(turn)),
                Err(refusal) => Err(refusal),
            },
            None => {
                drop(message);
                Err(Refusal::Range)
            }
        }
    }

    fn at_client(&mut self, client: ClientId, body: Body) -> Option<Refusal>
        ensures { AtClient client None (ClientHears body) (nodes_of self.old) result (nodes_of self.new) }
    {
        if client.0 == 0 {
            drop(body);
            return None;
        }
        match self.clients.get_mut((client.0 - 1) as usize) {
            Some(node) => match node.hear(body) {
                Ok(()) => None,
                Err(refusal) => Some(refusal),
            },
            None => {
                drop(body);
                None
            }
        }
    }
}
