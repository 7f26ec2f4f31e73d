// What is told of an upgrade.
ghost use Rattle.std.specs.Prelude.{◌≡◌, IfOk};
ghost use Rattle.gs_master_spec.specs.Upgrades.{tell_all};

use gs_base::{Config, EpochEnd, ServerId};
use gs_master_state::message::post;
use gs_msg::{Body, Message, NodeId};
use std::alloc::{AllocError, Global};

/// How the epoch before this one ended, for every server.
pub fn tell_all(
    alloc: Global,
    config: &Config,
    epoch: u64,
    end: EpochEnd,
) -> Result<Vec<Message>, AllocError>
    ensures { IfOk result (λ sent. sent.items ≡ tell_all config.now epoch end) }
{
    let mut sent = Vec::new(alloc);
    for number in 0..config.servers {
        let server = ServerId::new(number).unwrap();
        sent.push(post(NodeId::Server(server), Body::Epoch { epoch, end }))?;
    }
    Ok(sent)
}
