// Which replies are kept.
ghost use Rattle.std.specs.Prelude.{◌≡◌};
ghost use Rattle.gs_master_spec.specs.State.{is_kept, kept_in_memory};

use gs_base::{Refusal, ReqId};
use gs_master_spec::change::Change;
use gs_master_spec::reply::KeptReply;
use gs_msg::Answer;

/// Whether a refusal is kept, beside being answered.
pub fn is_kept(refusal: &Refusal) -> bool
    ensures { result ≡ is_kept refusal.now }
{
    match refusal {
        Refusal::Old | Refusal::Device | Refusal::Memory => false,
        _ => true,
    }
}

/// A reply that is the last to its client.
pub fn kept_in_memory(req: ReqId, answered: Result<Answer, Refusal>) -> Change
    ensures { result ≡ kept_in_memory req answered }
{
    let number = req.number;
    let result = answered;
    Change::Keep(req.client, KeptReply { number, result })
}
