// What the master leaves alone while it rolls back.
ghost use Rattle.std.specs.Prelude.{◌≡◌, ◌&&◌, ◌==◌};
ghost use Rattle.gs_master_spec.specs.Chunks.{may_begin};

use gs_master_record::Phase;

/// Whether views may be begun, and replicas dropped: not while rolling back.
pub fn may_begin(phase: Phase) -> bool
    ensures { result ≡ may_begin phase }
{
    phase != Phase::Rolling
}

/// Whether what a server of this epoch reports is acted upon by a master in that one.
pub fn may_act_on_report(phase: Phase, told: u64, epoch: u64) -> bool
    ensures { result ≡ (may_begin phase && (told == epoch)) }
{
    may_begin(phase) && told == epoch
}
