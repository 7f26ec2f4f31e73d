//! The numbers of a client's requests.
ghost use Rattle.gs_client_part.specs.Numbering.{Takes};

use gs_base::{Refusal, ReqId};

/// Takes the number after the last one, which is the last one then. `Exhausted` where there is none, and nothing changes.
pub fn take_next(last: &mut ReqId) -> Result<ReqId, Refusal>
    ensures { Takes last.old result last.new }
{
    let req = last.next()?;
    *last = req;
    Ok(req)
}
