ghost use Rattle.std.specs.Prelude.{◌≡◌, ◌↔◌, IsTrue, Some, None, true};
ghost use Rattle.std.specs.Option.{option_copied};
ghost use Rattle.gs_base.specs.Stamps.{is_before};
ghost use Rattle.gs_base.specs.Calls.{Does, Judges};
ghost use Rattle.gs_store.specs.Slots.{nothing, removed, replaced, create, again, advance, drop_replica, check_grant, is_taken, take_lease, lose, damage, mark_bad, count_of, bad_in, lost, sealed_of, trashed_seal};
ghost use Rattle.gs_store.specs.Whole.{IsWholeSlot, Keeps, LiveUnder, TrashSealed, Reaches, is_sealed, HasSizes, LiveHasSizes, TrashHasSizes, IsSlotOf};
ghost use Rattle.gs_store.specs.Parts.{PartsKeep};
ghost use Rattle.gs_replica.specs.Seals.{stamp_of};

use gs_base::{Refusal, Stamp};
use gs_block::Sizes;
use gs_replica::Replica;
use gs_store_seal::trash_behind;
use std::alloc::Global;
use std::marker::Model;

/// A replica that is live, and the first block that was found without its digest.
#[derive(Debug, Drop)]
pub struct LiveReplica {
    pub(crate) replica: Replica,
    pub(crate) bad: Option<u64>,
}

impl Model for LiveReplica {
    ghost use Rattle.gs_store.specs.Slots.{Live, coded_live};

    ghost Value = { Live };

    ghost coded = { coded_live };

    ghost view = { λ l. record { replica = l.replica; bad = l.bad } };
}

impl LiveReplica {
    /// A live replica, and the block that marks it as bad, if one does.
    pub fn new(replica: Replica, bad: Option<u64>) -> LiveReplica
        ensures { result ≡ record { replica = replica; bad = bad } }
    {
        LiveReplica { replica, bad }
    }

    pub fn replica(&self) -> &Replica
        ensures { result.now ≡ self.now.replica }
    {
        &self.replica
    }

    /// The block that marks it as bad, if one does.
    pub fn bad(&self) -> Option<u64>
        ensures { result ≡ self.now.bad }
    {
        self.bad
    }
}

/// What a slot is made of.
#[derive(Debug, Drop)]
pub struct SlotParts {
    pub promise: Stamp,
    pub carried: bool,
    pub live: Option<LiveReplica>,
    pub trash: Option<Replica>,
    pub taken: Option<Stamp>,
}

/// What a server keeps of one handle. The promise is kept for good, also when the replica goes.
#[derive(Debug)]
pub struct Slot {
    pub(crate) promise: Stamp,
    pub(crate) carried: bool,
    pub(crate) live: Option<LiveReplica>,
    pub(crate) trash: Option<Replica>,
    pub(crate) taken: Option<Stamp>,
}

impl Drop for Slot {
    fn drop(self) {
        let Self {
            promise: _,
            carried: _,
            live: _,
            trash: _,
            taken: _,
        } = self;
    }
}

impl Model for Slot {
    ghost use Rattle.gs_store.specs.Slots.{Slot, coded_slot};
    ghost use Rattle.gs_store.specs.Whole.{Keeps};

    ghost Value = { Slot };

    ghost coded = { coded_slot };

    ghost view = { λ s. record { promise = s.promise; carried = s.carried; live = s.live; trash = s.trash; taken = s.taken } };

    ghost invariant = { λ s. Keeps s.promise s.live s.trash s.taken };
}

impl Slot {
    /// Of a handle of which nothing was heard.
    pub fn new() -> Slot
        ensures { result ≡ nothing }
    {
        Slot {
            promise: Stamp {
                epoch: 0,
                version: 0,
            },
            carried: false,
            live: None,
            trash: None,
            taken: None,
        }
    }

    /// A slot of these parts. `BadLine` where the live replica stands under another promise, where what is in the trash is not
    /// sealed, where both are sealed, and where a lease was taken above the promise. It takes no memory.
    pub fn of(parts: SlotParts) -> Result<Slot, Refusal>
        ensures { PartsKeep parts result }
    {
        if !keeps(&parts) {
            return Err(Refusal::BadLine);
        }
        let SlotParts {
            promise,
            carried,
            live,
            trash,
            taken,
        } = parts;
        Ok(Slot {
            promise,
            carried,
            live,
            trash,
            taken,
        })
    }

    /// Whether the slot is one of a store of these sizes. It takes no memory.
    pub(crate) fn is_of(&self, sizes: Sizes) -> bool
        ensures { IsTrue result ↔ IsSlotOf sizes.block sizes.chunk self.now }
    {
        if !live_has_sizes(&self.live, sizes) {
            return false;
        }
        if !trash_has_sizes(&self.trash, sizes) {
            return false;
        }
        reaches(self.promise, self.sealed_at())
    }

    /// The stamp under which the image of the slot was sealed, if there is one.
    fn sealed_at(&self) -> Option<Stamp>
        ensures { result ≡ stamp_of (sealed_of self.now) }
    {
        match self.sealed() {
            Some(replica) => replica.sealed_at(),
            None => None,
        }
    }

    /// The replica that is live, if one is.
    pub fn live(&self) -> Option<&LiveReplica>
        ensures { option_copied result ≡ self.now.live }
    {
        self.live.as_ref()
    }

    /// The sealed replica that stands in the trash, if one does.
    pub fn trash(&self) -> Option<&Replica>
        ensures { option_copied result ≡ self.now.trash }
    {
        self.trash.as_ref()
    }

    /// The stamp of the lease that was taken last, if one was.
    pub fn taken(&self) -> Option<Stamp>
        ensures { result ≡ self.now.taken }
    {
        self.taken
    }

    /// The stamp below which no edit of the handle is taken.
    pub fn promised(&self) -> Stamp
        ensures { result ≡ self.now.promise }
    {
        self.promise
    }

    /// Whether a copy of the promised stamp carried a sealed image.
    pub fn is_carried(&self) -> bool
        ensures { result ≡ self.now.carried }
    {
        self.carried
    }

    /// How many edits the live replica has applied, if there is one.
    pub fn count(&self) -> Option<u64>
        ensures { result ≡ count_of self.now.live }
    {
        match &self.live {
            Some(live) => Some(live.replica.count()),
            None => None,
        }
    }

    /// The block that marks the live replica as bad, if one does.
    pub fn bad(&self) -> Option<u64>
        ensures { result ≡ bad_in self.now.live }
    {
        match &self.live {
            Some(live) => live.bad,
            None => None,
        }
    }

    /// Every slot is whole. A caller whose proof asks this of a slot calls it; it changes nothing.
    pub fn whole(&self)
        ensures { IsWholeSlot self.now }
    {
        if let Some(live) = &self.live {
            live.replica.whole();
        }
        if let Some(trash) = &self.trash {
            trash.whole();
        }
    }

    /// Makes an empty replica under a stamp above the promise, in place of the one that was live. A stamp that is promised
    /// already is answered again where a replica is live; else it is `Old`. It takes no memory.
    pub fn create(&mut self, alloc: Global, sizes: Sizes, stamp: Stamp) -> Result<(), Refusal>
        ensures { Does (create sizes.block sizes.chunk stamp self.old) result self.old self.new }
    {
        if self.promise.is_before(stamp) {
            self.replace(stamp, false, Replica::new(alloc, sizes, stamp));
            return Ok(());
        }
        self.find_again(stamp)
    }

    /// What a call that is repeated finds.
    pub(crate) fn find_again(&self, stamp: Stamp) -> Result<(), Refusal>
        ensures { Does (again stamp self.now) result self.now self.now }
    {
        if stamp == self.promise && self.live.is_some() {
            return Ok(());
        }
        Err(Refusal::Old)
    }

    /// Puts a replica under a greater promise in place of the one that was live.
    pub(crate) fn replace(&mut self, stamp: Stamp, carried: bool, replica: Replica)
        requires promise { replica.held.promise ≡ stamp }
        requires unsealed { replica.sealed ≡ None }
        requires above { is_before self.old.promise stamp ≡ true }
        ensures { self.new ≡ replaced stamp carried replica self.old }
    {
        self.remove();
        self.promise = stamp;
        self.carried = carried;
        self.live = Some(LiveReplica { replica, bad: None });
    }

    /// Takes the live replica away. What was sealed goes to the trash.
    fn remove(&mut self)
        ensures { self.new ≡ removed self.old }
    {
        if let Some(live) = self.live.take() {
            self.trash = trash_behind(live.replica, self.trash.take());
        }
    }

    /// Raises the promise of the live replica. `NoReplica` where none is live, `Damaged` where it is bad, and `Old` below the
    /// promise. It takes no memory.
    pub fn advance(&mut self, stamp: Stamp) -> Result<(), Refusal>
        ensures { Does (advance stamp self.old) result self.old self.new }
    {
        let Some(live) = &mut self.live else {
            return Err(Refusal::NoReplica);
        };
        if let Some(block) = live.bad {
            return Err(Refusal::Damaged(block));
        }
        live.replica.promise(stamp)?;
        self.carried = self.carried && stamp == self.promise;
        self.promise = stamp;
        Ok(())
    }

    /// Takes the live replica away. `Stamp` with the promise where another is named, and `NoReplica` where none is live. What
    /// was sealed goes to the trash. It takes no memory.
    pub fn drop_replica(&mut self, promise: Stamp) -> Result<(), Refusal>
        ensures { Does (drop_replica promise self.old) result self.old self.new }
    {
        if promise != self.promise {
            return Err(Refusal::Stamp(self.promise));
        }
        if self.live.is_none() {
            return Err(Refusal::NoReplica);
        }
        self.remove();
        Ok(())
    }

    /// Whether a lease of a stamp could be held. `NoReplica` where none is live, and `Stamp` with the promise where the stamp is
    /// another.
    pub fn check_grant(&self, stamp: Stamp) -> Result<(), Refusal>
        ensures { Judges (check_grant stamp self.now) result }
    {
        if self.live.is_none() {
            return Err(Refusal::NoReplica);
        }
        if stamp != self.promise {
            return Err(Refusal::Stamp(self.promise));
        }
        Ok(())
    }

    /// Whether a lease of a stamp was the last one taken.
    pub fn is_taken(&self, stamp: Stamp) -> bool
        ensures { result ≡ is_taken stamp self.now.taken }
    {
        match self.taken {
            Some(taken) => stamp == taken,
            None => false,
        }
    }

    /// Takes a lease of a stamp, once for good. It is refused as `check_grant` is, and `Old` where a lease of the stamp was
    /// the last one taken. It takes no memory.
    pub fn take_lease(&mut self, stamp: Stamp) -> Result<(), Refusal>
        ensures { Does (take_lease stamp self.old) result self.old self.new }
    {
        self.check_grant(stamp)?;
        if self.is_taken(stamp) {
            return Err(Refusal::Old);
        }
        self.taken = Some(stamp);
        Ok(())
    }

    /// Loses the live replica and what stands in the trash. `NoReplica` where there is neither. It takes no memory.
    pub fn lose(&mut self) -> Result<(), Refusal>
        ensures { Does (lose self.old) result self.old self.new }
    {
        if self.live.is_none() && self.trash.is_none() {
            return Err(Refusal::NoReplica);
        }
        self.live = None;
        self.trash = None;
        Ok(())
    }

    /// Damages a block of the live replica, or else of the one in the trash, as `Replica::damage` does. `NoReplica` where there
    /// is neither. It takes no memory.
    pub fn damage(&mut self, block: u64) -> Result<(), Refusal>
        ensures { Does (damage block self.old) result self.old self.new }
    {
        match &mut self.live {
            Some(live) => live.replica.damage(block),
            None => match &mut self.trash {
                Some(trash) => trash.damage(block),
                None => Err(Refusal::NoReplica),
            },
        }
    }

    /// Marks the live replica as bad by a block that was found without its digest. An earlier mark stays.
    pub fn mark_bad(&mut self, block: u64)
        ensures { self.new ≡ mark_bad block self.old }
    {
        if let Some(live) = &mut self.live {
            if live.bad.is_none() {
                live.bad = Some(block);
            }
        }
    }

    /// The sealed replica, wherever it stands.
    pub(crate) fn sealed(&self) -> Option<&Replica>
        ensures { trashed_seal (option_copied result) ≡ sealed_of self.now }
    {
        if let Some(live) = &self.live {
            if live.replica.is_sealed() {
                return Some(&live.replica);
            }
        }
        self.trash.as_ref()
    }

    /// Takes every replica away, and gives the sealed one.
    pub(crate) fn take_sealed(&mut self) -> Option<Replica>
        ensures taken { self.new ≡ lost self.old }
        ensures sealed { trashed_seal result ≡ sealed_of self.old }
    {
        self.remove();
        self.trash.take()
    }
}

/// Whether a slot can be of these parts.
fn keeps(parts: &SlotParts) -> bool
    ensures { IsTrue result ↔ Keeps parts.now.promise parts.now.live parts.now.trash parts.now.taken }
{
    if !is_under(&parts.live, parts.promise) {
        return false;
    }
    if !is_trash(&parts.trash) {
        return false;
    }
    if is_sealed(&parts.live) && parts.trash.is_some() {
        return false;
    }
    reaches(parts.promise, parts.taken)
}

/// Whether stamps are the same.
#[tactic(auto, using(crate::proofs::Parted::decides_stamp))]
fn are_same(stamp: Stamp, other: Stamp) -> bool
    ensures { IsTrue result ↔ (stamp ≡ other) }
{
    stamp == other
}

/// Whether a replica stands under a promise, if there is one.
fn is_under(live: &Option<LiveReplica>, promise: Stamp) -> bool
    ensures { IsTrue result ↔ LiveUnder promise live.now }
{
    match live {
        Some(live) => are_same(live.replica.promised(), promise),
        None => true,
    }
}

/// Whether a replica is sealed, if there is one.
fn is_trash(trash: &Option<Replica>) -> bool
    ensures { IsTrue result ↔ TrashSealed trash.now }
{
    match trash {
        Some(trash) => trash.is_sealed(),
        None => true,
    }
}

/// Whether there is a live replica that is sealed.
fn is_sealed(live: &Option<LiveReplica>) -> bool
    ensures { result ≡ is_sealed live.now }
{
    match live {
        Some(live) => live.replica.is_sealed(),
        None => false,
    }
}

/// Whether a promise reaches a stamp, if there is one.
fn reaches(promise: Stamp, stamp: Option<Stamp>) -> bool
    ensures { IsTrue result ↔ Reaches promise stamp }
{
    match stamp {
        Some(stamp) => !promise.is_before(stamp),
        None => true,
    }
}

/// Whether a replica is of these sizes, and what undoing gives too.
#[tactic(auto, using(crate::proofs::Parted::decides_sizes))]
fn has_sizes(replica: &Replica, sizes: Sizes) -> bool
    ensures { IsTrue result ↔ HasSizes sizes.block sizes.chunk replica.now }
{
    replica.whole();
    replica.has_sizes(sizes)
}

/// Whether a live replica is of these sizes, if there is one.
fn live_has_sizes(live: &Option<LiveReplica>, sizes: Sizes) -> bool
    ensures { IsTrue result ↔ LiveHasSizes sizes.block sizes.chunk live.now }
{
    match live {
        Some(live) => has_sizes(&live.replica, sizes),
        None => true,
    }
}

/// Whether a replica in the trash is of these sizes, if there is one.
fn trash_has_sizes(trash: &Option<Replica>, sizes: Sizes) -> bool
    ensures { IsTrue result ↔ TrashHasSizes sizes.block sizes.chunk trash.now }
{
    match trash {
        Some(trash) => has_sizes(trash, sizes),
        None => true,
    }
}
