//! What nodes say to one another, as plain data: messages of 26 kinds, calls of the master and answers, the events of a store, and the
//! list of what a node has sent. Each can be copied and compared exactly, and is printed as its line.
#![tactic(auto)]

mod answer;
mod body;
mod call;
mod call_text;
mod chunk;
mod event;
mod kind;
mod lists;
mod message;
mod message_text;
mod node;
mod op;
mod outbox;
pub mod promises;
mod same;
mod sent;
mod text;

pub use answer::{Answer, ChunkStatus, Copied, Phase, Status};
pub use body::{Body, Given, Reported};
pub use call::Call;
pub use chunk::{Asked, Chunk};
pub use event::{DiskId, Event, Happening, Request};
pub use kind::Kind;
pub use lists::{Bytes, Items, ListedName, Names};
pub use message::{Message, MsgId};
pub use node::{NodeId, StoreNode};
pub use op::Op;
pub use outbox::{Outbox, Post};
pub use sent::Sent;
