ghost use Rattle.std.specs.Prelude.{◌≡◌};

use crate::lease::{Lease, Moving, restore};
use crate::view::View;
use gs_base::Stamp;

/// What a journal tells of a chunk.
#[derive(Clone, Copy, Debug, PartialEq, Eq)]
pub struct Told {
    /// The view that was settled last. A new chunk has none.
    pub settled: Option<View>,
    /// The stamp that was proposed last, if it was since.
    pub proposed: Option<Stamp>,
}

impl Told {
    ghost use Rattle.gs_lease.specs.Told.{told_of, chunk_told};

    pub fn of(lease: &Lease) -> Told
        ensures { result ≡ told_of lease.now }
    {
        match lease {
            Lease::Quiet(quiet) => Told {
                settled: Some(quiet.view()),
                proposed: None,
            },
            Lease::Moving(moving) => {
                let moving = moving.proposed();
                Told {
                    settled: moving.settled,
                    proposed: Some(moving.stamp),
                }
            }
            Lease::Leased(leased) => Told {
                settled: Some(leased.view()),
                proposed: None,
            },
        }
    }

    /// The chunk that is told, if one is. Of one that was proposed nobody is asked any more.
    pub fn chunk(self) -> Option<Lease>
        ensures { result ≡ chunk_told self }
    {
        match (self.settled, self.proposed) {
            (Some(view), proposed) => Some(restore(view, proposed)),
            (None, Some(stamp)) => Some(Lease::Moving(Moving::begun_before(stamp))),
            (None, None) => None,
        }
    }
}
