ghost use Rattle.std.specs.Prelude.{◌≡◌, ◌≢◌, ◌⊎◌, ◌+◌, IfOk, IfErr, OnOk, map};
ghost use Rattle.gs_base.specs.declared.refusal.Refusal.TheVariants.{Memory, Epoch};
ghost use Rattle.gs_base.specs.declared.epoch.EpochEnd.TheVariants.{Prepare};
ghost use Rattle.gs_store.specs.Learning.{prepared, held_in, finalized, rolled_back};
ghost use Rattle.gs_store.specs.Stores.{Performs, learn};

use crate::learn::PreparedSlot;
use crate::slot::Slot;
use crate::store::Store;
use gs_base::{EpochEnd, Refusal};
use std::alloc::{AllocError, Global};

/// What seals each live replica as it stands.
fn prepare_each(alloc: Global, slots: &[Slot]) -> Result<Vec<PreparedSlot>, AllocError>
    ensures { IfOk result (λ made. made.items ≡ map (λ t. held_in t.live) slots.now) }
{
    let mut made = Vec::with_capacity(alloc, slots.len())?;
    for slot in slots {
        made.push(slot.prepare()?)?;
    }
    Ok(made)
}

/// Seals each live replica by what was prepared of it as it stands. It takes no memory.
fn seal_each(slots: &mut [Slot], mut made: Vec<PreparedSlot>)
    requires { made.items ≡ map (λ t. held_in t.live) slots.old }
    ensures { slots.new ≡ map prepared slots.old }
{
    while let Some(seal) = made.pop() {
        slots[made.len()].take_prepared(seal);
    }
}

/// Forgets what was sealed in each slot. It takes no memory.
fn finalize_each(slots: &mut [Slot])
    ensures { slots.new ≡ map finalized slots.old }
{
    for place in 0..slots.len() {
        slots[place].finalize();
    }
}

/// Makes what was sealed live again in each slot. It takes no memory.
fn roll_back_each(slots: &mut [Slot], epoch: u64)
    ensures { slots.new ≡ map (rolled_back epoch) slots.old }
{
    for place in 0..slots.len() {
        slots[place].roll_back(epoch);
    }
}

impl Store {
    /// `Epoch` with the epoch that stands where another is neither that nor the next.
    pub(crate) fn check_near(&self, epoch: u64) -> Result<(), Refusal>
        ensures ok { OnOk result ((epoch ≡ self.now.epoch) ⊎ (epoch ≡ self.now.epoch + 1)) }
        ensures err { IfErr result (λ e. (e ≡ Epoch self.now.epoch) × (epoch ≢ self.now.epoch) × (epoch ≢ self.now.epoch + 1)) }
    {
        if epoch < self.epoch || epoch - self.epoch > 1 {
            return Err(Refusal::Epoch(self.epoch));
        }
        Ok(())
    }

    /// Goes on to the next epoch, as the one before it ended. What is told of the epoch that stands changes nothing; of any
    /// other than the next it is `Epoch` with the one that stands. At a prepare each live replica is sealed, and memory may
    /// be wanted; at a finalize what was sealed goes; at a rollback it is live again. The last two take no memory. Over each run of a
    /// whole store, what a server keeps so is `survivors_keep_what_stood_at_the_prepare` of `gs_laws_chunks`.
    pub fn learn(&mut self, epoch: u64, end: EpochEnd) -> Result<(), Refusal>
        ensures edit { Performs (learn epoch end self.old) result self.old self.new }
        ensures lacking { IfErr result (λ e. e ≡ Memory → (end ≡ Prepare) × (epoch ≡ self.old.epoch + 1)) }
    {
        self.check_near(epoch)?;
        if epoch == self.epoch {
            return Ok(());
        }
        match end {
            EpochEnd::Prepare => {
                let made = prepare_each(self.alloc, &self.slots)?;
                seal_each(&mut self.slots, made);
            }
            EpochEnd::Finalize => finalize_each(&mut self.slots),
            EpochEnd::Rollback => roll_back_each(&mut self.slots, epoch),
        }
        self.epoch = epoch;
        Ok(())
    }
}
