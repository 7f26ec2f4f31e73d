// What goes wrong within a store, beside what is answered.
ghost use Rattle.std.specs.Prelude.{◌≡◌};
ghost use Rattle.gs_shell.specs.Telling.{IsTold, has_failed_in, none};
ghost use Rattle.gs_nodes.specs.Happenings.{disks_of};

use crate::watched::Watched;
use gs_journal::Disk;
use gs_nodes::MasterPlace;
use gs_shell_desk::Desk;
use std::mem;

/// What went wrong within a store.
#[derive(Clone, Copy, Debug)]
pub struct Trouble {
    /// No memory was left for a message, or for what a node or the client was to do.
    pub was_short: bool,
    /// A disk of the master's journal has failed.
    pub has_disk_failed: bool,
}

impl Trouble {
    /// Nothing went wrong.
    pub(crate) fn none() -> Trouble
        ensures { result ≡ none }
    {
        Trouble {
            was_short: false,
            has_disk_failed: false,
        }
    }

    /// What went wrong at the store of a desk, which ends.
    pub(crate) fn of<D: Disk + Drop>(mut desk: Desk<Watched<D>>) -> Trouble
        ensures { IsTold result desk }
    {
        let was_short = desk.wire.is_short;
        let place = mem::replace(&mut desk.wire.nodes.master, MasterPlace::Away);
        drop(desk);
        Trouble {
            was_short,
            has_disk_failed: has_failed(place),
        }
    }
}

/// Whether a disk of the master's journal has failed. Disks that are away tell nothing.
fn has_failed<D: Disk + Drop>(place: MasterPlace<Watched<D>>) -> bool
    ensures { result ≡ has_failed_in (disks_of place) }
{
    match place.into_disks() {
        Some((first, second)) => first.has_failed || second.has_failed,
        None => false,
    }
}
