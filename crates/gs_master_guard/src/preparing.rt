// What is judged of a prepare.
ghost use Rattle.std.specs.Prelude.{◌≡◌, ◌<◌, ◌==◌, [], IfNone};
ghost use Rattle.gs_base.specs.Numbers.{last_number};
ghost use Rattle.gs_master_spec.specs.State.{first_of};
ghost use Rattle.gs_master_spec.specs.Upgrades.{commit_tests};

use gs_base::{Handle, Refusal};
use gs_master_record::Phase;

/// Why an upgrade isn't prepared in this epoch, if it isn't. These are the chunks that aren't quiet, ascending.
pub fn refusal_of_prepare(
    phase: Phase,
    is_preparing: bool,
    unquiet: &[Handle],
    epoch: u64,
) -> Option<Refusal>
    ensures judged { result ≡ first_of (commit_tests phase is_preparing unquiet.now (epoch == last_number)) }
    ensures left { IfNone result (epoch < last_number) }
    ensures quiet { IfNone result (unquiet.now ≡ []) }
{
    if !is_preparing {
        if phase != Phase::Ordinary {
            return Some(Refusal::AlreadyUpgrading);
        }
        return Some(Refusal::NotUpgrading);
    }
    if let Some(chunk) = unquiet.first() {
        return Some(Refusal::NotQuiet(*chunk));
    }
    if epoch == u64::MAX {
        return Some(Refusal::Exhausted);
    }
    None
}
