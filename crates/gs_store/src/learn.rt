ghost use Rattle.std.specs.Prelude.{◌≡◌, IfOk, is_some};
ghost use Rattle.gs_store.specs.Learning.{prepared, held_in, finalized, start_of, rolled_back, is_named};

use crate::slot::{LiveReplica, Slot};
use gs_base::Stamp;
use gs_replica::PreparedSeal;
use gs_store_seal::{is_restored, restore};
use std::alloc::AllocError;
use std::marker::Model;

/// What seals the live replica of a slot, made beforehand. It is seen as the replica of which it was made.
#[derive(Drop)]
pub(crate) struct PreparedSlot {
    seal: Option<PreparedSeal>,
}

impl Model for PreparedSlot {
    ghost use Rattle.std.specs.Prelude.{Option};
    ghost use Rattle.std.specs.Coded.{coded_option};
    ghost use Rattle.gs_replica.specs.Held.{Held, coded_held};

    ghost Value = { Option Held };

    ghost coded = { coded_option coded_held };

    ghost view = { λ p. p.seal };
}

/// The stamp with which an epoch starts.
fn first_stamp(epoch: u64) -> Stamp
    ensures { result ≡ start_of epoch }
{
    Stamp { epoch, version: 0 }
}

impl Slot {
    /// What seals the live replica as it stands. It changes nothing.
    pub(crate) fn prepare(&self) -> Result<PreparedSlot, AllocError>
        ensures { IfOk result (λ made. made ≡ held_in self.now.live) }
    {
        match &self.live {
            Some(live) => Ok(PreparedSlot {
                seal: Some(live.replica.prepare_seal()?),
            }),
            None => Ok(PreparedSlot { seal: None }),
        }
    }

    /// Seals the live replica by what was prepared of it as it stands. It takes no memory.
    pub(crate) fn take_prepared(&mut self, made: PreparedSlot)
        requires { made ≡ held_in self.old.live }
        ensures { self.new ≡ prepared self.old }
    {
        self.trash = None;
        if let Some(live) = &mut self.live {
            if let Some(seal) = made.seal {
                live.replica.take_seal(seal);
            }
        }
    }

    /// Forgets what was sealed. It takes no memory.
    pub fn finalize(&mut self)
        ensures { self.new ≡ finalized self.old }
    {
        self.trash = None;
        if let Some(live) = &mut self.live {
            live.replica.unseal();
        }
    }

    /// Makes what was sealed live again under the first stamp of an epoch, where each block of it has its sealed digest, and
    /// answers whether it did. Every other replica goes. It takes no memory.
    pub fn roll_back(&mut self, epoch: u64) -> bool
        ensures becomes { self.new ≡ rolled_back epoch self.old }
        ensures live { result ≡ is_some self.new.live }
    {
        let Some(sealed) = self.take_sealed() else {
            return false;
        };
        let Ok(replica) = restore(sealed, self.promise, first_stamp(epoch)) else {
            return false;
        };
        self.promise = replica.promised();
        self.carried = false;
        self.live = Some(LiveReplica { replica, bad: None });
        true
    }

    /// Whether the live replica stands under the first stamp of an epoch, each block with its digest.
    pub fn is_named(&self, epoch: u64) -> bool
        ensures { result ≡ is_named epoch self.now }
    {
        match &self.live {
            Some(live) => is_restored(&live.replica, first_stamp(epoch)),
            None => false,
        }
    }
}
