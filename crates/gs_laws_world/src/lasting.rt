//! The master of a store stands firm as long as no disk of it fails, and a restart opens what stood.

ghost use Rattle.gs_laws_world.specs.lasting.Laws.{NewStoresLast, SoundRunsLast, UnarmedSoundRunsLast, RestartsOpenWhatStood, RefusedRestartsWait, WaitingDisksAreOpened, OpeningsAreAlike};

/// As long as no disk of the master fails, the master stands firm, whatever happens, restarts and coming failures among it: its journal is as
/// its disks are seen, and the records there can be read again and tell what is durable. Where memory was wanting for a restart its disks wait,
/// and tell what a master may stand on. So it is of a new store, and behind each step from there, also where no failure can be made to come. It
/// has a premise: what the master hears names paths by the rules and numbers of 64 bits.
fn a_master_stays_firm_while_no_disk_fails<D>()
    ensures begun { NewStoresLast D }
    ensures kept { SoundRunsLast D }
    ensures unarmed { UnarmedSoundRunsLast D }
{}

/// A restart of a master that stands firm opens what stood, and no more: nothing that was in memory alone is left. Where it isn't opened and no
/// disk has failed, its disks wait and tell what stood; and a restart of disks that wait opens what they tell.
pub fn a_restart_opens_what_stood<D>()
    ensures opened { RestartsOpenWhatStood D }
    ensures waits { RefusedRestartsWait D }
    ensures again { WaitingDisksAreOpened D }
{}

/// What a master is opened as stands in the bytes of its two disks alone. Where two pairs of disks have the same bytes and both are opened, by the same
/// sizes, the masters are the same but for the disks themselves, and send the same messages. So a copy of both disks is opened as what it was copied of.
/// An opening may always be refused for want of memory, or where a disk fails in it.
pub fn disks_of_the_same_bytes_are_opened_alike<D, E>()
    ensures { OpeningsAreAlike D E }
{}
