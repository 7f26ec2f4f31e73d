ghost use Rattle.std.specs.Prelude.{◌≡◌};
ghost use Rattle.std.specs.Iterator.{YieldsFirstBy, item_count};
ghost use Rattle.std.specs.FinMap as fin;
ghost use Rattle.gs_store.specs.Stores.{report};

use crate::slot::Slot;
use crate::store::Store;
use gs_base::{Handle, Stamp};
use gs_base_table::Entries;
use std::marker::Model;

/// What is told of a live replica.
#[derive(Clone, Copy, Debug, PartialEq, Eq)]
pub struct ReplicaReport {
    pub handle: Handle,
    pub promise: Stamp,
    /// Whether a block hadn't its digest.
    pub is_bad: bool,
}

/// What is told of each live replica, ascending by handle. It takes no memory.
#[derive(Drop)]
pub struct Reports<'a> {
    places: Entries<'a, Handle, usize>,
    slots: &'a [Slot],
}

impl<'a> Model for Reports<'a> {
    ghost use Rattle.std.specs.Prelude.{List};
    ghost use Rattle.gs_store.specs.declared.report.ReplicaReport.{ReplicaReport};
    ghost use Rattle.gs_store.specs.Reported.{coded_reports};
    ghost use Rattle.gs_store.specs.Stores.{reports_of};
    ghost use Rattle.gs_store.specs.inner.Placed.{entries_at};

    ghost Value = { List ReplicaReport };

    ghost coded = { coded_reports };

    ghost view = { λ r. reports_of (entries_at r.places r.slots.now) };
}

impl<'a> Iterator for Reports<'a> {
    type Item = ReplicaReport;

    ghost next_gives = { YieldsFirstBy (λ report. report) (λ rest. rest) };

    ghost remaining = { item_count (λ rest. rest) };

    fn next(&mut self) -> Option<ReplicaReport> {
        while let Some((handle, place)) = self.places.next() {
            if let Some(slot) = self.slots.get(*place) {
                if let Some(live) = &slot.live {
                    return Some(ReplicaReport {
                        handle,
                        promise: slot.promise,
                        is_bad: live.bad.is_some(),
                    });
                }
            }
        }
        None
    }
}

/// What is kept of each handle, ascending. It takes no memory.
#[derive(Drop)]
pub struct Slots<'a> {
    places: Entries<'a, Handle, usize>,
    slots: &'a [Slot],
}

impl<'a> Model for Slots<'a> {
    ghost use Rattle.std.specs.Prelude.{List, ℕ};
    ghost use Rattle.gs_store.specs.Slots.{Slot};
    ghost use Rattle.gs_store.specs.Reported.{coded_slots};
    ghost use Rattle.gs_store.specs.inner.Placed.{entries_at, AreWithin};

    ghost Value = { List (ℕ × Slot) };

    ghost coded = { coded_slots };

    ghost view = { λ s. entries_at s.places s.slots.now };

    ghost invariant = { λ s. AreWithin s.places s.slots.now };
}

impl<'a> Iterator for Slots<'a> {
    type Item = (Handle, &'a Slot);

    ghost next_gives = { YieldsFirstBy (λ entry. (entry.0, entry.1.now)) (λ rest. rest) };

    ghost remaining = { item_count (λ rest. rest) };

    fn next(&mut self) -> Option<(Handle, &'a Slot)> {
        match self.places.next() {
            Some((handle, place)) => Some((handle, &self.slots[*place])),
            None => None,
        }
    }
}

impl Store {
    /// What is kept of each handle, ascending. It takes no memory.
    pub fn slots(&self) -> Slots<'_>
        ensures { result ≡ fin.entries self.entry.now.slots }
    {
        Slots {
            places: self.places.iter(),
            slots: self.slots.as_slice(),
        }
    }

    /// What is told of each live replica, ascending by handle. It takes no memory.
    pub fn report(&self) -> Reports<'_>
        ensures { result ≡ report self.entry.now }
    {
        Reports {
            places: self.places.iter(),
            slots: self.slots.as_slice(),
        }
    }
}
