ghost use Rattle.std.specs.Prelude.{◌≡◌};
ghost use Rattle.gs_lease.specs.Primary.{Checks, Expires, renewed};

use gs_base::{Members, Moment, Refusal, Stamp};
use std::marker::Model;

/// What a primary is told of its lease.
#[derive(Clone, Copy, Debug, PartialEq, Eq)]
pub struct Grant {
    pub stamp: Stamp,
    pub members: Members,
    pub end: Moment,
}

/// A lease that a primary holds. No edit is numbered without one. It is used up when it ends.
#[derive(Debug, Drop)]
pub struct Held {
    grant: Grant,
}

impl Model for Held {
    ghost use Rattle.gs_lease.specs.declared.held.Grant.{Grant};

    ghost Value = { Grant };

    ghost view = { λ h. h.grant };
}

/// A lease that is over: its stamp is never held again.
#[derive(Debug, Drop)]
pub struct Spent {
    stamp: Stamp,
}

impl Model for Spent {
    ghost use Rattle.gs_base.specs.declared.numbers.Stamp.{Stamp};

    ghost Value = { Stamp };

    ghost view = { λ s. s.stamp };
}

impl Held {
    pub fn grant(stamp: Stamp, members: Members, end: Moment) -> Held
        ensures { result ≡ record { stamp = stamp; members = members; end = end } }
    {
        Held {
            grant: Grant {
                stamp,
                members,
                end,
            },
        }
    }

    pub fn granted(&self) -> Grant
        ensures { result ≡ self.now }
    {
        self.grant
    }

    /// Whether an edit may be numbered at this moment. `LeaseOver` where it isn't below the end.
    pub fn check(&self, moment: Moment) -> Result<(), Refusal>
        ensures { Checks self.now.end moment result }
    {
        if moment.0 < self.grant.end.0 {
            return Ok(());
        }
        Err(Refusal::LeaseOver)
    }

    /// The lease with the greater end of the two.
    pub fn renew(self, end: Moment) -> Held
        ensures { result ≡ renewed self end }
    {
        let later = Moment(self.grant.end.0.max(end.0));
        let Grant { stamp, members, .. } = self.grant;
        Held::grant(stamp, members, later)
    }

    /// Spends the lease where this moment isn't below its end, and else gives it back.
    pub fn expire(self, moment: Moment) -> Result<Spent, Held>
        ensures { Expires self moment result }
    {
        if self.check(moment).is_ok() {
            return Err(self);
        }
        Ok(self.spend())
    }

    pub fn spend(self) -> Spent
        ensures { result ≡ self.stamp }
    {
        Spent {
            stamp: self.grant.stamp,
        }
    }
}

impl Spent {
    pub fn stamp(&self) -> Stamp
        ensures { result ≡ self.now }
    {
        self.stamp
    }
}
