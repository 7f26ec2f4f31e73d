ghost use Rattle.std.specs.Prelude.{◌≡◌, Some, None, true, []};
ghost use Rattle.gs_lease.specs.Transitions.{begun, begun_new, begun_again, asked_again, Begins, ViewFor, Settles, SettlesAs, term_of, is_any_asked, fits, settled_on, restored};
ghost use Rattle.gs_lease.specs.Views.{as_view};

use crate::view::{Proposed, Purpose, QuietView, Term, View};
use gs_base::{Members, Moment, Refusal, Stamp};
use std::marker::Model;

/// A chunk of which no member takes an edit. Only such a chunk is copied by a snapshot or on write. It is used up by
/// what becomes of it.
#[derive(Debug, Drop)]
pub struct Quiet {
    view: QuietView,
}

impl Model for Quiet {
    ghost use Rattle.gs_lease.specs.declared.view.QuietView.{QuietView};

    ghost Value = { QuietView };

    ghost view = { λ q. q.view };
}

/// A chunk for which a view is proposed.
#[derive(Debug, Drop)]
pub struct Moving {
    proposed: Proposed,
}

impl Model for Moving {
    ghost use Rattle.gs_lease.specs.declared.view.Proposed.{Proposed};

    ghost Value = { Proposed };

    ghost view = { λ m. m.proposed };
}

/// A chunk whose primary may take edits.
#[derive(Debug, Drop)]
pub struct Leased {
    view: View,
    term: Term,
}

impl Model for Leased {
    ghost use Rattle.std.specs.Prelude.{◌≡◌, Some};
    ghost use Rattle.gs_lease.specs.declared.view.View.{View};

    ghost Value = { View };

    ghost view = { λ l. l.view };

    ghost invariant = { λ l. l.view.term ≡ Some l.term };
}

/// What a proposal is settled to.
#[derive(Debug, Drop)]
pub enum Settled {
    Quiet(Quiet),
    Leased(Leased),
}

/// The state of a chunk.
#[derive(Debug, Drop)]
pub enum Lease {
    Quiet(Quiet),
    Moving(Moving),
    Leased(Leased),
}

impl Quiet {
    /// A chunk as a rollback leaves it.
    pub fn rolled_back(stamp: Stamp, count: u64, members: Members) -> Quiet
        ensures { result ≡ record { stamp = stamp; count = count; members = members } }
    {
        Quiet {
            view: QuietView {
                stamp,
                count,
                members,
            },
        }
    }

    /// The view of the chunk, which has no primary.
    pub fn view(&self) -> View
        ensures { result ≡ as_view self.now }
    {
        View::from(self.view)
    }

    /// Proposes a view to the members.
    pub fn begin(self, stamp: Stamp, purpose: Purpose) -> Moving
        ensures { result ≡ begun (as_view self) stamp purpose }
    {
        Moving {
            proposed: begin(View::from(self.view), stamp, purpose),
        }
    }
}

impl Moving {
    /// A new chunk whose first view is proposed to these servers.
    pub fn fresh(stamp: Stamp, targets: Members) -> Moving
        ensures { result ≡ begun_new stamp targets }
    {
        Moving {
            proposed: Proposed {
                settled: None,
                stamp,
                purpose: Purpose::Quiet,
                asked: targets,
            },
        }
    }

    /// A new chunk that was proposed before a restart, of which nobody is asked any more.
    pub(crate) fn begun_before(stamp: Stamp) -> Moving
        ensures { result ≡ record { settled = None; stamp = stamp; purpose = Purpose.Quiet; asked = [] } }
    {
        Moving::fresh(stamp, Members::none())
    }

    pub fn proposed(&self) -> Proposed
        ensures { result ≡ self.now }
    {
        self.proposed
    }

    /// Proposes another view, again to the members of the settled one. `Old` where its stamp isn't above the one that is
    /// proposed.
    pub fn again(self, stamp: Stamp, purpose: Purpose) -> Result<Moving, (Moving, Refusal)>
        ensures { Begins self self.stamp stamp (begun_again self stamp purpose) result }
    {
        if stamp <= self.proposed.stamp {
            return Err((self, Refusal::Old));
        }
        let asked = asked_again(&self.proposed);
        let settled = self.proposed.settled;
        Ok(Moving {
            proposed: Proposed {
                settled,
                stamp,
                purpose,
                asked,
            },
        })
    }

    /// The view that a settling gives on the members that were chosen with their count of edits. A lease goes to the lowest
    /// member, for a term of 60 from this moment. `NoReplica` where no member of it was asked: the target of a copy alone
    /// settles nothing.
    pub fn view_for(&self, choice: (Members, u64), moment: Moment) -> Result<View, Refusal>
        ensures { ViewFor self.now choice.0 choice.1 moment result }
    {
        let (members, count) = choice;
        if !is_any_asked(self.proposed.asked, members) {
            return Err(Refusal::NoReplica);
        }
        let term = term_of(self.proposed.purpose, members, moment);
        Ok(View {
            stamp: self.proposed.stamp,
            count,
            members,
            term,
        })
    }

    /// Settles the chunk on the view that `view_for` gives.
    pub fn settle(
        self,
        choice: (Members, u64),
        moment: Moment,
    ) -> Result<Settled, (Moving, Refusal)>
        ensures { Settles self choice.0 choice.1 moment result }
    {
        match self.view_for(choice, moment) {
            Ok(view) => Ok(on_view(view)),
            Err(refusal) => Err((self, refusal)),
        }
    }

    /// Settles the chunk on the view that a record tells. `BadLine` where the view isn't of the stamp that is proposed, has no
    /// member that was asked, or has a primary where none was proposed. It takes no memory.
    pub fn settle_as(self, view: View) -> Result<Settled, (Moving, Refusal)>
        ensures { SettlesAs self view result }
    {
        if !fits(&self.proposed, &view) {
            return Err((self, Refusal::BadLine));
        }
        Ok(on_view(view))
    }
}

fn term_of(purpose: Purpose, members: Members, moment: Moment) -> Option<Term>
    ensures { result ≡ term_of purpose members moment }
{
    if purpose != Purpose::Lease {
        return None;
    }
    let primary = members.first()?;
    Some(Term {
        primary,
        end: Moment(moment.0.saturating_add(60)),
    })
}

/// Whether one of these members was asked for the view. None settles but then, so the target of a copy, which isn't asked, settles none
/// alone.
pub fn is_any_asked(asked: Members, members: Members) -> bool
    ensures { result ≡ is_any_asked asked members }
{
    let mut left = members;
    while let Some(member) = left.pop_first() {
        if asked.contains(member) {
            return true;
        }
    }
    false
}

/// Whether a view could be what this proposal is settled on.
fn fits(proposed: &Proposed, view: &View) -> bool
    ensures { result ≡ fits proposed.now view.now }
{
    if view.stamp != proposed.stamp || !is_any_asked(proposed.asked, view.members) {
        return false;
    }
    match proposed.purpose {
        Purpose::Lease => view.term.is_some(),
        Purpose::Quiet | Purpose::Copy(_) => view.term.is_none(),
    }
}

fn on_view(view: View) -> Settled
    ensures { result ≡ settled_on view }
{
    let term = view.term;
    match term {
        Some(term) => Settled::Leased(Leased { view, term }),
        None => Settled::Quiet(Quiet {
            view: QuietView {
                stamp: view.stamp,
                count: view.count,
                members: view.members,
            },
        }),
    }
}

impl Leased {
    pub fn view(&self) -> View
        ensures { result ≡ self.now }
    {
        self.view
    }

    pub fn term(&self) -> Term
        ensures { self.now.term ≡ Some result }
    {
        self.term
    }

    /// Proposes a view to the members. `Old` where its stamp isn't above that of the view.
    pub fn revoke(self, stamp: Stamp, purpose: Purpose) -> Result<Moving, (Leased, Refusal)>
        ensures { Begins self self.stamp stamp (begun self stamp purpose) result }
    {
        if stamp <= self.view.stamp {
            return Err((self, Refusal::Old));
        }
        let proposed = begin(self.view, stamp, purpose);
        Ok(Moving { proposed })
    }
}

fn begin(view: View, stamp: Stamp, purpose: Purpose) -> Proposed
    ensures { result ≡ begun view stamp purpose }
{
    let asked = view.members;
    Proposed {
        settled: Some(view),
        stamp,
        purpose,
        asked,
    }
}

fn asked_again(proposed: &Proposed) -> Members
    ensures { result ≡ asked_again proposed.now }
{
    match proposed.settled {
        Some(view) => view.members,
        None => proposed.asked,
    }
}

/// A chunk as the master's journal gives it back: its settled view, and the stamp that was proposed since, if one was.
pub fn restore(view: View, moving: Option<Stamp>) -> Lease
    ensures { result ≡ restored view moving }
{
    if let Some(stamp) = moving {
        return Lease::Moving(Moving {
            proposed: Proposed {
                settled: Some(view),
                stamp,
                purpose: Purpose::Quiet,
                asked: Members::none(),
            },
        });
    }
    Lease::from(on_view(view))
}

impl From<Settled> for Lease {
    ghost use Rattle.std.specs.Prelude.{◌≡◌};
    ghost use Rattle.gs_lease.specs.Transitions.{lease_of};

    ghost from_gives = { λ settled lease. lease ≡ lease_of settled };

    fn from(settled: Settled) -> Lease {
        match settled {
            Settled::Quiet(quiet) => Lease::Quiet(quiet),
            Settled::Leased(leased) => Lease::Leased(leased),
        }
    }
}
