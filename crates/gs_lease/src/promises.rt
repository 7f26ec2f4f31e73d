//! What holds of every chunk, whatever it goes through.

ghost use Rattle.std.specs.Prelude.{◌≡◌, ℕ, List, false};
ghost use Rattle.gs_base.specs.declared.numbers.Moment.{Moment};
ghost use Rattle.gs_base.specs.declared.numbers.Stamp.{Stamp};
ghost use Rattle.gs_lease.specs.declared.view.View.{View};
ghost use Rattle.gs_lease.specs.declared.view.Proposed.{Proposed};
ghost use Rattle.gs_lease.specs.declared.lease.Lease.{Lease};
ghost use Rattle.gs_lease.specs.declared.lease.Lease.TheVariants as leases;
ghost use Rattle.gs_lease.specs.declared.lease.Settled.TheVariants as settlings;
ghost use Rattle.gs_lease.specs.Transitions.{begun_new, settled_view, settled_on, lease_of, is_for_lease};
ghost use Rattle.gs_lease.specs.Views.{without_term};
ghost use Rattle.gs_lease.specs.Told.{nothing_told, after_proposal, after_settling, told_of};
ghost use Rattle.gs_lease.specs.Promises.{QuietChunksTellTheirProposal, LeasedChunksTellTheirProposal, MovingChunksTellTheirProposal, ToldChunksTellTheSame};

/// What a journal tells of a chunk is what its records tell in turn: a new chunk, one that is begun, begun again, or settled.
pub fn chunks_are_told_by_their_records()
    ensures new { (stamp : Stamp) (targets : List ℕ) → told_of (leases.Moving (begun_new stamp targets)) ≡ after_proposal nothing_told stamp }
    ensures begun_quiet { QuietChunksTellTheirProposal }
    ensures begun_leased { LeasedChunksTellTheirProposal }
    ensures again { MovingChunksTellTheirProposal }
    ensures settled { (lease : Lease) (view : View) → told_of (lease_of (settled_on view)) ≡ after_settling (told_of lease) view }
{}

/// A settling gives a lease where a lease was proposed, and never else.
pub fn only_a_proposed_lease_is_given()
    ensures { (proposed : Proposed) (members : List ℕ) (count : ℕ) (moment : Moment) → is_for_lease proposed.purpose ≡ false
        → settled_on (settled_view proposed members count moment) ≡ settlings.Quiet (without_term (settled_view proposed members count moment)) }
{}

/// A chunk that is told again tells the same.
pub fn told_chunks_tell_the_same()
    ensures { ToldChunksTellTheSame }
{}
