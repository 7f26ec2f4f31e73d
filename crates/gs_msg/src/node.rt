use gs_base::{ClientId, ServerId};
use std::fmt;

/// Who sends a message, and who gets it.
#[derive(Clone, Copy, Debug, PartialEq, Eq)]
pub enum NodeId {
    Master,
    Server(ServerId),
    Client(ClientId),
}

/// A node that keeps something of the store: the master or a server. A client keeps nothing that a tick or a restart touches.
#[derive(Clone, Copy, Debug, PartialEq, Eq)]
pub enum StoreNode {
    Master,
    Server(ServerId),
}

impl From<StoreNode> for NodeId {
    ghost use Rattle.std.specs.Prelude.{◌≡◌};
    ghost use Rattle.gs_msg.specs.Nodes.{as_node};

    ghost from_gives = { λ keeper node. node ≡ as_node keeper };

    fn from(keeper: StoreNode) -> NodeId {
        match keeper {
            StoreNode::Master => NodeId::Master,
            StoreNode::Server(server) => NodeId::Server(server),
        }
    }
}

impl fmt::Display for NodeId {
    ghost use Rattle.std.specs.Prelude.{Some};
    ghost use Rattle.gs_msg.specs.Nodes.{node_text};

    ghost output = { λ n. Some (node_text n) };

    fn fmt<W: fmt::Write>(&self, f: &mut fmt::Formatter<W>) -> fmt::Result {
        match self {
            NodeId::Master => f.write_str("M"),
            NodeId::Server(server) => write!(f, "S{server}"),
            NodeId::Client(client) => {
                let number = client.0;
                write!(f, "C{number}")
            }
        }
    }
}
