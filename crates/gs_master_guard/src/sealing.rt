// Which copies carry their sealed image, and who holds one since.
ghost use Rattle.std.specs.Prelude.{◌≡◌};
ghost use Rattle.std.specs.List.{list_any};
ghost use Rattle.gs_master_spec.specs.Chunks.{is_holder, is_target};
ghost use Rattle.gs_master_spec.specs.Hearing.{is_with_sealed};

use gs_base::{Members, ServerId};
use gs_lease::View;
use gs_master_record::Phase;
use gs_master_spec::asking::{Asking, Prepared};

/// Whether a copy carries its sealed image: an upgrade stands, and its source is a prepared member or a holder.
pub fn is_with_sealed(phase: Phase, prepared: Option<Prepared>, source: ServerId) -> bool
    ensures { result ≡ is_with_sealed phase prepared source }
{
    if phase != Phase::Upgrade {
        return false;
    }
    let Some(Prepared { view, holders }) = prepared else {
        return false;
    };
    view.members.contains(source) || holders.contains(source)
}

/// Whether the target of a copy is one of these.
fn has_target(asking: &Asking, members: Members) -> bool
    ensures { result ≡ list_any (is_target asking.now) members }
{
    let mut left = members;
    while let Some(server) = left.pop_first() {
        if asking.is_target(server) {
            return true;
        }
    }
    false
}

/// Whether the target of a copy is told as a holder where this view is settled: an upgrade stands in which the chunk is prepared, the
/// copy carried its sealed image, and its target is a member.
pub fn is_holder(
    asking: &Asking,
    phase: Phase,
    prepared: Option<Prepared>,
    carried: bool,
    view: &View,
) -> bool
    ensures { result ≡ is_holder phase prepared carried asking.now view.now }
{
    carried && phase == Phase::Upgrade && prepared.is_some() && has_target(asking, view.members)
}
