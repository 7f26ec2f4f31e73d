// What takes a record back that was entered, without memory.
ghost use Rattle.std.specs.Prelude.{◌≡◌, List, map};
ghost use Rattle.std.specs.FinMap as fin;
ghost use Rattle.std.specs.Ordering.{nat_cmp};
ghost use Rattle.gs_edit.specs.View.{NamesView};
ghost use Rattle.gs_master_record.specs.Plain.{plain_inverse, PlainInverse};
ghost use Rattle.gs_master_spec.specs.Durable.{Durable};
ghost use Rattle.gs_master_state.specs.inner.Recorded.{durable_of, KeepsRooms};
ghost use Rattle.gs_master_spec.specs.Replies.{client_cmp};
ghost use Rattle.gs_master_state.specs.inner.TakingBack.{AreItemsBefore, AreNamesBefore, HasPlaceBack, IsEditBefore, LeaseAt, leases_before, places_before, RoomAt, RoomBack, RoomForChunk, RoomForChunks, RoomForReply, rooms_before, TakesBack, with_chunk_before, with_chunks_before, with_leases_before, with_moved_before, with_proposal_before, with_reply_before};
ghost use Rattle.gs_base_table.specs.Slots.{HasRoom, KeepsRoom, live, set_live};

use crate::held_names::HeldNames;
use crate::places::Places;
use crate::recorded::Recorded;
use gs_base::{ClientId, Handle};
use gs_base_table::{Key, Table};
use gs_edit::{Edit, Inverse, ListedInverse, Names, TakenOut};
use gs_lease::Lease;
use gs_lease_table::LeaseTable;
use gs_master_record::Phase;
use gs_master_spec::asking::Prepared;
use gs_master_spec::reply::KeptReply;
use gs_path::Path;

/// The reply that stood at a client, if one did.
#[derive(Drop)]
pub struct ReplyBefore {
    pub client: ClientId,
    pub reply: Option<KeptReply>,
}

/// What stood of a chunk for which a view was proposed. It has a lease here if it was settled.
#[derive(Drop)]
pub struct ProposalBefore {
    pub chunk: Handle,
    pub lease: Option<Lease>,
    pub next_handle: u64,
    pub next_version: u64,
}

/// A chunk as it stood, with the prepared view that was kept of it.
#[derive(Drop)]
pub struct ChunkBefore {
    pub chunk: Handle,
    pub lease: Option<Lease>,
    pub prepared: Option<Prepared>,
}

/// How names follow an edit that was made on equal ones.
#[derive(Drop)]
pub enum Following {
    /// They don't.
    Never,
    /// The edit is made on them.
    Edit(Edit),
    /// What stands at the first path is moved to the second.
    Move(Path, Path),
}

/// Names as they stood, and how they follow the edit that was made since.
#[derive(Drop)]
pub struct StoodNames {
    pub names: Names,
    /// The paths that were kept in them.
    pub places: Places,
    pub following: Following,
}

/// A move whose place is kept, and the names that stood by as they stood before it.
#[derive(Drop)]
pub struct MovedNames {
    pub from: Path,
    pub to: Path,
    pub spare: Option<Names>,
}

/// A removal whose place is kept, and what was taken out there.
#[derive(Drop)]
pub struct RemovedNames {
    pub path: Path,
    pub out: TakenOut,
}

/// How the names of before are come by.
#[derive(Drop)]
pub enum NamesBefore {
    /// What was made of them is undone. That takes no memory.
    Undone(Inverse),
    /// What was moved goes back to its place. That takes no memory.
    Moved(MovedNames),
    /// What was removed is put back in its place. That takes no memory.
    Removed(RemovedNames),
    /// They were kept.
    Kept(StoodNames),
}

/// What stood before an edit.
#[derive(Drop)]
pub struct EditBefore {
    pub names: NamesBefore,
    pub forgotten: Vec<ChunkBefore>,
    /// The reply, if another was put in its place.
    pub reply: Option<ReplyBefore>,
    pub next_hidden: u64,
    /// Whether what takes the edit back was put behind the others.
    pub keeps_inverse: bool,
}

/// What was kept since prepare, until it was given up. It was moved here.
#[derive(Drop)]
pub struct KeptBefore {
    pub inverses: Vec<ListedInverse>,
    pub prepared: Table<Handle, Prepared>,
}

/// What stood before an upgrade was prepared or kept.
#[derive(Drop)]
pub struct EpochBefore {
    pub epoch: u64,
    pub phase: Phase,
    pub kept: KeptBefore,
}

/// What stood before a rollback was done. It was moved here.
#[derive(Drop)]
pub struct RollbackBefore {
    pub names: HeldNames,
    pub leases: LeaseTable,
    pub kept: KeptBefore,
}

/// What stood before a record, as far as the record has changed it. It takes the record back, and wants no memory for that.
#[derive(Drop)]
pub enum Undo {
    /// The reply, if another was put in its place.
    Said(Option<ReplyBefore>),
    Propose(ProposalBefore),
    Settle(ChunkBefore),
    Holder(Handle, Option<Prepared>),
    /// The epoch that stood.
    RollbackBegin(u64),
    Edit(EditBefore),
    /// An upgrade was prepared or kept.
    Epoch(EpochBefore),
    RollbackCommit(RollbackBefore),
}

/// Puts a value in the place of another. There is room for it.
pub fn exchange<K: Key + Drop, V: Drop>(table: &mut Table<K, V>, key: K, value: V) -> Option<V>
    requires { HasRoom K.cmp table.old key }
    ensures value { result ≡ fin.get (live K.cmp table.old) key }
    ensures put { live K.cmp table.new ≡ fin.insert (live K.cmp table.old) key value }
    ensures keeps { KeepsRoom K.cmp table.old table.new }
{
    table.replace(key, value)
}

/// What stood at a key stands there again. There is room for it.
fn put_back<K: Key + Drop, V: Drop>(table: &mut Table<K, V>, key: K, before: Option<V>)
    requires { RoomAt K.cmp table.old key before }
    ensures put { live K.cmp table.new ≡ set_live key before (live K.cmp table.old) }
    ensures keeps { KeepsRoom K.cmp table.old table.new }
{
    match before {
        Some(value) => table.put(key, value),
        None => {
            let _taken = table.take(key);
        }
    }
}

/// What stood at a chunk stands there again, or nothing.
fn put_lease_back(leases: &mut LeaseTable, chunk: Handle, before: Option<Lease>)
    requires { LeaseAt leases.old chunk before }
    ensures put { live nat_cmp leases.new ≡ set_live chunk before (live nat_cmp leases.old) }
    ensures keeps { KeepsRoom nat_cmp leases.old leases.new }
{
    match before {
        Some(lease) => leases.put(chunk, lease),
        None => {
            let _taken = leases.take(chunk);
        }
    }
}

/// The reply stands again in whose place another was put.
fn put_reply_back(replies: &mut Table<ClientId, KeptReply>, before: Option<ReplyBefore>)
    requires { RoomForReply replies.old before }
    ensures put { live client_cmp replies.new ≡ with_reply_before before (live client_cmp replies.old) }
    ensures keeps { KeepsRoom client_cmp replies.old replies.new }
{
    if let Some(ReplyBefore { client, reply }) = before {
        put_back(replies, client, reply);
    }
}

/// The lease of a chunk stands again that moves since, if it was settled.
fn put_moved_back(leases: &mut LeaseTable, chunk: Handle, before: Option<Lease>)
    requires { LeaseAt leases.old chunk before }
    ensures put { live nat_cmp leases.new ≡ with_moved_before chunk before (live nat_cmp leases.old) }
    ensures keeps { KeepsRoom nat_cmp leases.old leases.new }
{
    if let Some(lease) = before {
        leases.put(chunk, lease);
    }
}

/// The names stand again as they stood.
fn put_names_back(names: &mut HeldNames, before: NamesBefore)
    requires { HasPlaceBack names.old.places before }
    ensures names { (stood : NamesView) → AreNamesBefore before stood names.old.names → names.new.names ≡ stood }
    ensures places { names.new.places ≡ places_before before names.old.places }
{
    names.put_back(before);
}

/// What takes edits back stands again as it stood, without the last if one was put there.
fn put_inverses_back(inverses: &mut Vec<ListedInverse>, was_put: bool)
    ensures { (stood : List PlainInverse) → AreItemsBefore was_put stood (map plain_inverse inverses.old.items) → map plain_inverse inverses.new.items ≡ stood }
{
    if was_put {
        let _inverse = inverses.pop();
    }
}

impl Recorded {
    /// A proposal is taken back.
    fn take_proposal_back(&mut self, before: ProposalBefore)
        requires { LeaseAt self.old.leases before.chunk before.lease }
        ensures value { durable_of self.new ≡ with_proposal_before before (durable_of self.old) }
        ensures leases { live nat_cmp self.new.leases ≡ with_moved_before before.chunk before.lease (live nat_cmp self.old.leases) }
        ensures keeps { KeepsRooms self.old self.new }
    {
        let ProposalBefore {
            chunk,
            lease,
            next_handle,
            next_version,
        } = before;
        put_moved_back(&mut self.leases, chunk, lease);
        self.next_handle = next_handle;
        self.next_version = next_version;
    }

    /// A chunk stands again as it stood.
    fn put_chunk_back(&mut self, before: ChunkBefore)
        requires { RoomForChunk self.old before }
        ensures value { durable_of self.new ≡ with_chunk_before before (durable_of self.old) }
        ensures leases { live nat_cmp self.new.leases ≡ set_live before.chunk before.lease (live nat_cmp self.old.leases) }
        ensures replies { self.new.replies ≡ self.old.replies }
        ensures inverses { self.new.inverses ≡ self.old.inverses }
        ensures keeps { KeepsRooms self.old self.new }
    {
        let ChunkBefore {
            chunk,
            lease,
            prepared,
        } = before;
        put_lease_back(&mut self.leases, chunk, lease);
        put_back(&mut self.prepared, chunk, prepared);
    }

    /// Chunks stand again as they stood, the last first.
    fn put_chunks_back(&mut self, mut chunks: Vec<ChunkBefore>)
        requires { RoomForChunks self.old chunks.items }
        ensures value { durable_of self.new ≡ with_chunks_before chunks.items (durable_of self.old) }
        ensures leases { live nat_cmp self.new.leases ≡ with_leases_before chunks.items (live nat_cmp self.old.leases) }
        ensures replies { self.new.replies ≡ self.old.replies }
        ensures inverses { self.new.inverses ≡ self.old.inverses }
        ensures keeps { KeepsRooms self.old self.new }
    {
        while let Some(before) = chunks.pop() {
            self.put_chunk_back(before);
        }
    }

    /// The begin of a rollback is taken back.
    fn take_rollback_back(&mut self, epoch: u64)
        ensures value { (before : Durable) → TakesBack (Undo.RollbackBegin epoch) before (durable_of self.old) → durable_of self.new ≡ before }
        ensures leases { self.new.leases ≡ self.old.leases }
        ensures keeps { KeepsRooms self.old self.new }
    {
        let _ended = self.ends.pop();
        self.epoch = epoch;
        self.phase = Phase::Upgrade;
    }

    /// The prepare of an upgrade, or its end, is taken back.
    fn take_epoch_back(&mut self, stood: EpochBefore)
        ensures value { (before : Durable) → TakesBack (Undo.Epoch stood) before (durable_of self.old) → durable_of self.new ≡ before }
        ensures leases { self.new.leases ≡ self.old.leases }
        ensures keeps { KeepsRooms (rooms_before (Undo.Epoch stood) self.old) self.new }
    {
        let EpochBefore { epoch, phase, kept } = stood;
        let _end = self.ends.pop();
        self.epoch = epoch;
        self.phase = phase;
        self.inverses = kept.inverses;
        self.prepared = kept.prepared;
    }

    /// The end of a rollback is taken back.
    fn take_commit_back(&mut self, stood: RollbackBefore)
        ensures value { (before : Durable) → TakesBack (Undo.RollbackCommit stood) before (durable_of self.old) → durable_of self.new ≡ before }
        ensures leases { self.new.leases ≡ stood.leases }
        ensures keeps { KeepsRooms (rooms_before (Undo.RollbackCommit stood) self.old) self.new }
    {
        let RollbackBefore {
            names,
            leases,
            kept,
        } = stood;
        self.names = names;
        self.leases = leases;
        self.phase = Phase::Rolling;
        self.inverses = kept.inverses;
        self.prepared = kept.prepared;
    }

    /// An edit is taken back.
    fn take_edit_back(&mut self, edit: EditBefore)
        requires replies { RoomForReply self.old.replies edit.reply }
        requires chunks { RoomForChunks self.old edit.forgotten.items }
        requires places { HasPlaceBack self.old.names.places edit.names }
        ensures value { (before : Durable) → IsEditBefore edit before (durable_of self.old) → durable_of self.new ≡ before }
        ensures leases { live nat_cmp self.new.leases ≡ with_leases_before edit.forgotten.items (live nat_cmp self.old.leases) }
        ensures keeps { KeepsRooms (rooms_before (Undo.Edit edit) self.old) self.new }
    {
        let EditBefore {
            names,
            forgotten,
            reply,
            next_hidden,
            keeps_inverse,
        } = edit;
        put_names_back(&mut self.names, names);
        self.put_chunks_back(forgotten);
        put_reply_back(&mut self.replies, reply);
        self.next_hidden = next_hidden;
        put_inverses_back(&mut self.inverses, keeps_inverse);
    }

    /// Takes a record back, where this is the last one that was entered. There is room for it, so it takes no memory.
    pub fn take_back(&mut self, undo: Undo)
        requires { RoomBack self.old undo }
        ensures value { (before : Durable) → TakesBack undo before (durable_of self.old) → durable_of self.new ≡ before }
        ensures leases { live nat_cmp self.new.leases ≡ leases_before undo (live nat_cmp self.old.leases) }
        ensures keeps { KeepsRooms (rooms_before undo self.old) self.new }
    {
        match undo {
            Undo::Said(before) => put_reply_back(&mut self.replies, before),
            Undo::Propose(before) => self.take_proposal_back(before),
            Undo::Settle(before) => self.put_chunk_back(before),
            Undo::Holder(chunk, before) => put_back(&mut self.prepared, chunk, before),
            Undo::RollbackBegin(epoch) => self.take_rollback_back(epoch),
            Undo::Edit(before) => self.take_edit_back(before),
            Undo::Epoch(before) => self.take_epoch_back(before),
            Undo::RollbackCommit(before) => self.take_commit_back(before),
        }
    }
}
