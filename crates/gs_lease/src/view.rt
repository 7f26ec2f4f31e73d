use gs_base::{Members, Moment, ServerId, Stamp};

/// Who numbers the edits of a view, and the moment at which that ends.
#[derive(Clone, Copy, Debug, PartialEq, Eq)]
pub struct Term {
    pub primary: ServerId,
    pub end: Moment,
}

/// A view of a chunk as it was settled.
#[derive(Clone, Copy, Debug, PartialEq, Eq)]
pub struct View {
    pub stamp: Stamp,
    /// How many edits each member had.
    pub count: u64,
    pub members: Members,
    /// The lease that was given with the view, if it was.
    pub term: Option<Term>,
}

/// A view without a primary.
#[derive(Clone, Copy, Debug, PartialEq, Eq)]
pub struct QuietView {
    pub stamp: Stamp,
    /// How many edits each member had.
    pub count: u64,
    pub members: Members,
}

impl From<QuietView> for View {
    ghost use Rattle.std.specs.Prelude.{◌≡◌};
    ghost use Rattle.gs_lease.specs.Views.{as_view};

    ghost from_gives = { λ quiet view. view ≡ as_view quiet };

    fn from(quiet: QuietView) -> View {
        View {
            stamp: quiet.stamp,
            count: quiet.count,
            members: quiet.members,
            term: None,
        }
    }
}

/// What a view is proposed for.
#[derive(Clone, Copy, Debug, PartialEq, Eq)]
pub enum Purpose {
    /// That no member takes an edit.
    Quiet,
    /// That a primary takes edits.
    Lease,
    /// That this server gets a copy. No member takes an edit then.
    Copy(ServerId),
}

/// A view as it is proposed.
#[derive(Clone, Copy, Debug, PartialEq, Eq)]
pub struct Proposed {
    /// The view that holds until the proposed one is settled. A new chunk has none.
    pub settled: Option<View>,
    pub stamp: Stamp,
    pub purpose: Purpose,
    /// The servers whose answers are waited for, besides the target of a copy.
    pub asked: Members,
}
