ghost use Rattle.std.specs.Prelude.{◌≡◌, IfOk};
ghost use Rattle.gs_master_spec.specs.Outcomes.{caller_of};
ghost use Rattle.gs_nodes.specs.Happenings.{MasterHears, MasterTicks, is_moving, refusal_of_call};

use gs_base::{Moment, Refusal};
use gs_journal::Disk;
use gs_master::{Master, Turn};
use gs_msg::{Body, Message, NodeId};
use std::alloc::{AllocError, Global};

/// Where the master is.
#[derive(Drop)]
pub enum MasterPlace<D: Disk> {
    Standing(Master<D>),
    /// Its disks wait to be opened, as behind a restart that was refused.
    Closed { first: D, second: D },
    /// Its disks are being opened.
    Away,
}

/// What a master answers whose disks aren't open: a call is refused.
fn refusal_of_call(alloc: Global, body: &Body) -> Result<Vec<Message>, AllocError>
    ensures { IfOk result (λ sent. sent.items ≡ refusal_of_call (caller_of body.now)) }
{
    let mut sent = Vec::new(alloc);
    if let Body::Call { req, .. } = body {
        let result = Err(Refusal::Device);
        sent.push(Message {
            from: NodeId::Master,
            to: NodeId::Client(req.client),
            body: Body::Reply { req: *req, result },
        })?;
    }
    Ok(sent)
}

impl<D: Disk> MasterPlace<D> {
    /// Hands the master a message, at this moment of its clock. Where its disks aren't open, each call is refused `Device`, and all
    /// else is met by that. A refusal changes nothing, as in [`Master::handle`].
    pub fn hear(&mut self, alloc: Global, message: Message, moment: Moment) -> Result<Turn, Refusal>
        ensures { MasterHears D.seen D.failures message moment self.old result self.new }
    {
        match self {
            MasterPlace::Standing(master) => master.handle(message, moment),
            _ => {
                let answered = refusal_of_call(alloc, &message.body);
                drop(message);
                let sent = answered?;
                let said = Some(Refusal::Device);
                Ok(Turn { sent, said })
            }
        }
    }

    /// The master's clock ticks. Where its disks aren't open it says `Device`. A refusal changes nothing, as in [`Master::tick`].
    pub fn tick(&mut self, alloc: Global, moment: Moment) -> Result<Turn, Refusal>
        ensures { MasterTicks D.seen D.failures moment self.old result self.new }
    {
        match self {
            MasterPlace::Standing(master) => master.tick(moment),
            _ => Ok(Turn {
                sent: Vec::new(alloc),
                said: Some(Refusal::Device),
            }),
        }
    }

    /// Whether a view is proposed for some chunk, which only a master does that stands. It takes no memory.
    pub fn is_moving(&self) -> bool
        ensures { result ≡ is_moving self.now }
    {
        match self {
            MasterPlace::Standing(master) => master.is_moving(),
            _ => false,
        }
    }
}
