// What the master knows of a chunk, and sets of chunks.
ghost use Rattle.std.specs.Prelude.{◌&&◌, ◌≡◌, IfOk, is_some, option_map, Some};
ghost use Rattle.std.specs.FinMap as fin;
ghost use Rattle.std.specs.Ordering.{nat_cmp};
ghost use Rattle.gs_master_spec.specs.Chunks.{is_at_home, is_leased, is_moving, is_quiet, is_settled_on, is_wanted, members_of, term_of, view_of, was_proposed};
ghost use Rattle.gs_master_state.specs.inner.Knowing.{known_of, settled_of};
ghost use Rattle.gs_master_state.specs.inner.Recorded.{durable_of, settled_by};
ghost use Rattle.gs_master_state.specs.inner.Surveying.{chunk_set};
ghost use Rattle.gs_master_spec.specs.Working.{may_use};
ghost use Rattle.gs_base_table.specs.Slots.{live};

use crate::recorded::Recorded;
use gs_base::{Handle, Members, Moment, ServerId, Stamp};
use gs_base_table::Table;
use gs_lease::{Lease, Term, Told, View};
use gs_master_spec::asking::Asking;
use std::alloc::{AllocError, Global};

/// The view of a chunk that was settled last, and whether another was proposed since.
#[derive(Clone, Copy, Debug)]
pub struct Settled {
    pub view: View,
    pub is_moving: bool,
}

/// What the master knows of a chunk: the view that was settled last, if one was, and what is asked.
#[derive(Clone, Copy, Debug)]
pub struct Known {
    pub settled: Option<Settled>,
    pub asking: Option<Asking>,
}

impl Known {
    /// Whether a view was proposed since the settled one.
    fn was_proposed(&self) -> bool
        ensures { result ≡ was_proposed (known_of self.now).settled }
    {
        match self.settled {
            Some(settled) => settled.is_moving,
            None => false,
        }
    }

    /// Whether a view is proposed. Perhaps nobody is asked any more.
    pub fn is_moving(&self) -> bool
        ensures { result ≡ is_moving (known_of self.now) }
    {
        self.asking.is_some() || self.was_proposed()
    }

    /// The settled view.
    pub fn view(&self) -> Option<View>
        ensures { result ≡ view_of (known_of self.now) }
    {
        Some(self.settled?.view)
    }

    fn term(&self) -> Option<Term>
        ensures { result ≡ term_of (known_of self.now) }
    {
        self.view()?.term
    }

    /// The members of the settled view.
    pub fn members(&self) -> Members
        ensures { result ≡ members_of (known_of self.now) }
    {
        match self.view() {
            Some(view) => view.members,
            None => Members::none(),
        }
    }

    /// Whether no view is proposed, and the settled one has no primary.
    pub fn is_quiet(&self) -> bool
        ensures { result ≡ is_quiet (known_of self.now) }
    {
        !self.is_moving() && self.term().is_none()
    }

    /// Whether no view is proposed, and the settled one has a primary.
    pub fn is_leased(&self) -> bool
        ensures { result ≡ is_leased (known_of self.now) }
    {
        !self.is_moving() && self.term().is_some()
    }

    /// Whether a call that waits moves the chunk.
    pub fn is_wanted(&self) -> bool
        ensures { result ≡ is_wanted (known_of self.now) }
    {
        match self.asking {
            Some(asking) => asking.call.is_some(),
            None => false,
        }
    }

    /// Whether a server may have a replica: it is a member, or asked, or the target of a copy.
    pub fn is_at_home(&self, server: ServerId) -> bool
        ensures { result ≡ is_at_home (known_of self.now) server }
    {
        if self.members().contains(server) {
            return true;
        }
        match self.asking {
            Some(asking) => asking.asked.contains(server) || asking.is_target(server),
            None => false,
        }
    }

    /// Whether a server is a member, and no view is proposed.
    pub fn is_settled_on(&self, server: ServerId) -> bool
        ensures { result ≡ is_settled_on server (known_of self.now) }
    {
        self.members().contains(server) && !self.is_moving()
    }
}

impl Recorded {
    /// The settled view of a chunk, and whether another was proposed since.
    pub fn settled(&self, chunk: Handle) -> Option<Settled>
        ensures { option_map settled_of result ≡ fin.get (durable_of self.now).chunks chunk }
    {
        let view = self.view(chunk)?;
        let is_moving = self.is_proposed(chunk);
        Some(Settled { view, is_moving })
    }
}

impl Known {
    /// Whether the lease stands, and isn't the one under which the client was refused.
    pub fn may_use(&self, stamp: Option<Stamp>, moment: Moment) -> bool
        ensures { result ≡ (is_leased (known_of self.now) && may_use stamp moment (view_of (known_of self.now))) }
    {
        let Some(view) = self.view() else {
            return false;
        };
        let under = view.stamp;
        let Some(term) = view.term else {
            return false;
        };
        self.is_leased() && moment.0 < term.end.0 && stamp != Some(under)
    }
}

/// Whether a lease tells of a settled view.
#[tactic(auto, using(crate::proofs::Surveys::is_told))]
pub fn is_settled(lease: &Lease) -> bool
    ensures { result ≡ is_some (settled_by lease.now) }
{
    Told::of(lease).settled.is_some()
}

/// These chunks, each once.
pub fn chunk_set(alloc: Global, chunks: &[Handle]) -> Result<Table<Handle, bool>, AllocError>
    ensures { IfOk result (λ set. live nat_cmp set ≡ chunk_set chunks.now) }
{
    let mut set = Table::new(alloc);
    let mut left = chunks.len();
    while left > 0 {
        left -= 1;
        let chunk = chunks[left];
        set.reserve(chunk)?;
        set.put(chunk, true);
    }
    Ok(set)
}
