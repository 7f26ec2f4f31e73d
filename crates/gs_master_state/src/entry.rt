// Records, entered one after the other so that each can be taken back, and the room that each wants.
ghost use Rattle.std.specs.Prelude.{◌<◌, ◌≡◌, false, IfErr, IfOk, Ok, OnOk, true, vec_capacity, vec_len};
ghost use Rattle.std.specs.FinMap as fin;
ghost use Rattle.std.specs.Ordering.{nat_cmp};
ghost use Rattle.gs_base.specs.declared.numbers.ReqId.{ReqId};
ghost use Rattle.gs_edit.specs.declared.edit.Edit.{Edit};
ghost use Rattle.gs_master_record.specs.Plain as entries;
ghost use Rattle.gs_master_record.specs.Plain.{plain, plain_edit};
ghost use Rattle.gs_master_spec.specs.Applied.{with_proposal, with_reply};
ghost use Rattle.gs_master_state.specs.inner.Recorded.{Applies, durable_of, KeepsRooms, RoomFor, RoomForEach, RoomToKeep};
ghost use Rattle.gs_master_state.specs.inner.Reversing.{AreBack};
ghost use Rattle.gs_master_spec.specs.Replies.{client_cmp};
ghost use Rattle.gs_master_state.specs.inner.TakingBack.{comes_alone, Enters, IsRefused, IsToldFor, IsUndo, LeaseAt, RoomForReply, with_moved_before, with_proposed_before, with_reply_before};
ghost use Rattle.gs_base_table.specs.Slots.{HasRoom, KeepsRoom, live};

use crate::edit::forgotten_by;
use crate::recorded::{Recorded, after_number, raised};
use crate::undo::{ChunkBefore, ProposalBefore, ReplyBefore, Undo, exchange};
use gs_base::{ClientId, Handle, Refusal, ReqId, ServerId, Stamp};
use gs_base_table::Table;
use gs_edit::{Edit, ListedInverse, Names};
use gs_lease::{Lease, restore};
use gs_master_record::{Entry, Phase, SettledView};
use gs_master_spec::asking::Prepared;
use gs_master_spec::reply::KeptReply;
use gs_msg::Answer;
use std::alloc::AllocError;

/// Makes room for the prepared view of a chunk, which is kept while an upgrade stands.
fn reserve_to_keep(
    phase: Phase,
    prepared: &mut Table<Handle, Prepared>,
    chunk: Handle,
) -> Result<(), AllocError>
    ensures same { live nat_cmp prepared.new ≡ live nat_cmp prepared.old }
    ensures room { OnOk result (RoomToKeep phase prepared.new chunk) }
    ensures keeps { KeepsRoom nat_cmp prepared.old prepared.new }
{
    match phase {
        Phase::Ordinary => Ok(()),
        Phase::Upgrade | Phase::Rolling => prepared.reserve(chunk),
    }
}

/// Makes room for the prepared views of chunks.
fn reserve_each(
    phase: Phase,
    prepared: &mut Table<Handle, Prepared>,
    chunks: &[Handle],
) -> Result<(), AllocError>
    ensures same { live nat_cmp prepared.new ≡ live nat_cmp prepared.old }
    ensures room { OnOk result (RoomForEach phase prepared.new chunks.now) }
    ensures keeps { KeepsRoom nat_cmp prepared.old prepared.new }
{
    for chunk in chunks {
        reserve_to_keep(phase, prepared, *chunk)?;
    }
    Ok(())
}

impl Recorded {
    /// Makes room for how an epoch ends.
    fn grow_ends(&mut self) -> Result<(), AllocError>
        ensures same { durable_of self.new ≡ durable_of self.old }
        ensures leases { live nat_cmp self.new.leases ≡ live nat_cmp self.old.leases }
        ensures keeps { KeepsRooms self.old self.new }
        ensures room { OnOk result (vec_len self.new.ends < vec_capacity self.new.ends) }
    {
        self.ends.reserve(1)?;
        Ok(())
    }

    /// Makes room for an edit: for its reply, for what takes it back, and for the prepared views of what it forgets.
    pub fn grow_edit(&mut self, by: ReqId, edit: &Edit) -> Result<(), AllocError>
        ensures same { durable_of self.new ≡ durable_of self.old }
        ensures leases { live nat_cmp self.new.leases ≡ live nat_cmp self.old.leases }
        ensures keeps { KeepsRooms self.old self.new }
        ensures room { OnOk result (RoomFor self.new (entries.Edited by (plain_edit edit.now))) }
    {
        self.replies.reserve(by.client)?;
        self.inverses.reserve(1)?;
        reserve_each(self.phase, &mut self.prepared, forgotten_by(edit))
    }

    /// Makes room for a settled view of a chunk, and for its prepared one.
    fn grow_settling(&mut self, chunk: Handle) -> Result<(), AllocError>
        ensures same { durable_of self.new ≡ durable_of self.old }
        ensures leases { live nat_cmp self.new.leases ≡ live nat_cmp self.old.leases }
        ensures keeps { KeepsRooms self.old self.new }
        ensures chunk { OnOk result (HasRoom nat_cmp self.new.leases chunk) }
        ensures prepared { OnOk result (RoomToKeep self.new.phase self.new.prepared chunk) }
    {
        self.leases.reserve(chunk)?;
        reserve_to_keep(self.phase, &mut self.prepared, chunk)
    }

    /// Makes all room that applying a record will want, but for the names. What stands stays as it is.
    pub fn grow(&mut self, entry: &Entry) -> Result<(), AllocError>
        ensures same { durable_of self.new ≡ durable_of self.old }
        ensures leases { live nat_cmp self.new.leases ≡ live nat_cmp self.old.leases }
        ensures keeps { KeepsRooms self.old self.new }
        ensures room { OnOk result (RoomFor self.new (plain entry.now)) }
    {
        match entry {
            Entry::Edit { by, edit } => self.grow_edit(*by, edit),
            Entry::Said { to, .. } => self.replies.reserve(to.client),
            Entry::Propose { handle, .. } => self.leases.reserve(*handle),
            Entry::Settle(settled) => self.grow_settling(settled.handle),
            Entry::Prepare { .. } | Entry::Finalize { .. } | Entry::RollbackBegin { .. } => {
                self.grow_ends()
            }
            Entry::RollbackCommit { .. } | Entry::Checkpoint(_) => Ok(()),
            Entry::Holder { handle, .. } => {
                reserve_to_keep(self.phase, &mut self.prepared, *handle)
            }
        }
    }
}

/// A reply is kept where no later one is. There is room for its client.
pub fn enter_reply(
    replies: &mut Table<ClientId, KeptReply>,
    to: ReqId,
    answer: Result<Answer, Refusal>,
) -> Option<ReplyBefore>
    requires { HasRoom client_cmp replies.old to.client }
    ensures value { live client_cmp replies.new ≡ with_reply (live client_cmp replies.old) to answer }
    ensures back { live client_cmp replies.old ≡ with_reply_before result (live client_cmp replies.new) }
    ensures room { RoomForReply replies.new result }
    ensures keeps { KeepsRoom client_cmp replies.old replies.new }
{
    if let Some(kept) = replies.get(to.client) {
        if to.number <= kept.number {
            return None;
        }
    }
    let reply = KeptReply {
        number: to.number,
        result: answer,
    };
    let before = exchange(replies, to.client, reply);
    Some(ReplyBefore {
        client: to.client,
        reply: before,
    })
}

/// Whether a record isn't entered with others: a checkpoint takes the place of all.
fn comes_alone(entry: &Entry) -> bool
    ensures { result ≡ comes_alone (plain entry.now) }
{
    matches!(entry, Entry::Checkpoint(_))
}

impl Recorded {
    /// A request was refused. There is room for its client. It may want memory for the refusal.
    #[tactic(auto, unfolding(gs_master_spec::specs::Applied::applied))]
    fn enter_refusal(&mut self, to: ReqId, refusal: &Refusal) -> Result<Undo, Refusal>
        requires { HasRoom client_cmp self.old.replies to.client }
        ensures applied { Enters (entries.Said to refusal.now) result (durable_of self.old) (durable_of self.new) }
        ensures back { IfOk result (λ undo. IsUndo self.old self.new undo) }
        ensures leases { IfErr result (λ _. self.new.leases ≡ self.old.leases) }
        ensures keeps { KeepsRooms self.old self.new }
    {
        let refusal = refusal.copy(self.alloc)?;
        Ok(Undo::Said(enter_reply(&mut self.replies, to, Err(refusal))))
    }

    /// A settled chunk moves, and nobody is asked by that alone; its lease of before is answered. One that isn't settled
    /// stays as it is.
    fn exchange_moving(&mut self, chunk: Handle, stamp: Stamp) -> Option<Lease>
        requires { HasRoom nat_cmp self.old.leases chunk }
        ensures value { durable_of self.new ≡ record (durable_of self.old) { chunks = with_proposal (durable_of self.old) chunk (fin.get (durable_of self.old).chunks chunk) } }
        ensures chunks { (durable_of self.old).chunks ≡ with_proposed_before chunk result (durable_of self.new).chunks }
        ensures leases { live nat_cmp self.old.leases ≡ with_moved_before chunk result (live nat_cmp self.new.leases) }
        ensures room { LeaseAt self.new.leases chunk result }
        ensures keeps { KeepsRooms self.old self.new }
    {
        let view = self.view(chunk)?;
        self.leases.exchange(chunk, restore(view, Some(stamp)))
    }

    /// A view of a chunk is proposed. There is room for the chunk.
    #[tactic(auto, unfolding(gs_master_spec::specs::Applied::applied))]
    fn enter_proposal(&mut self, chunk: Handle, version: u64) -> Result<Undo, Refusal>
        requires { HasRoom nat_cmp self.old.leases chunk }
        ensures applied { Applies (entries.Propose chunk version) result (durable_of self.old) (durable_of self.new) }
        ensures back { IfOk result (λ undo. IsUndo self.old self.new undo) }
        ensures leases { IfErr result (λ _. self.new.leases ≡ self.old.leases) }
        ensures keeps { KeepsRooms self.old self.new }
    {
        if !self.may_propose(chunk, version) {
            return Err(Refusal::BadLine);
        }
        let epoch = self.epoch;
        let before = ProposalBefore {
            chunk,
            lease: self.exchange_moving(chunk, Stamp { epoch, version }),
            next_handle: self.next_handle,
            next_version: self.next_version,
        };
        self.next_handle = raised(self.next_handle, chunk.number());
        self.next_version = after_number(version);
        Ok(Undo::Propose(before))
    }

    /// A view of a chunk is settled. There is room for the chunk, and for its prepared view.
    #[tactic(auto, unfolding(gs_master_spec::specs::Applied::applied))]
    fn enter_view(&mut self, settled: &SettledView) -> Result<Undo, Refusal>
        requires chunk { HasRoom nat_cmp self.old.leases settled.now.handle }
        requires prepared { RoomToKeep self.old.phase self.old.prepared settled.now.handle }
        ensures applied { Applies (entries.Settle settled.now) result (durable_of self.old) (durable_of self.new) }
        ensures back { IfOk result (λ undo. IsUndo self.old self.new undo) }
        ensures leases { IfErr result (λ _. self.new.leases ≡ self.old.leases) }
        ensures keeps { KeepsRooms self.old self.new }
    {
        if !self.may_be_settled(settled) {
            return Err(Refusal::BadLine);
        }
        let chunk = settled.handle;
        let prepared = self.prepared.get(chunk).copied();
        self.keep_prepared(chunk);
        let lease = self.leases.exchange(chunk, restore(settled.view, None));
        Ok(Undo::Settle(ChunkBefore {
            chunk,
            lease,
            prepared,
        }))
    }

    /// A server got a copy of a chunk with its sealed image. There is room for the chunk's prepared view.
    #[tactic(auto, unfolding(gs_master_spec::specs::Applied::applied))]
    fn enter_holder(&mut self, chunk: Handle, server: ServerId) -> Result<Undo, Refusal>
        requires { RoomToKeep self.old.phase self.old.prepared chunk }
        ensures applied { Applies (entries.Holder chunk server) result (durable_of self.old) (durable_of self.new) }
        ensures back { IfOk result (λ undo. IsUndo self.old self.new undo) }
        ensures leases { IfErr result (λ _. self.new.leases ≡ self.old.leases) }
        ensures keeps { KeepsRooms self.old self.new }
    {
        if self.phase != Phase::Upgrade {
            return Err(Refusal::BadLine);
        }
        let Some(Prepared { view, mut holders }) = self.prepared_view(chunk) else {
            return Err(Refusal::BadLine);
        };
        holders.insert(server);
        let before = exchange(&mut self.prepared, chunk, Prepared { view, holders });
        Ok(Undo::Holder(chunk, before))
    }

    /// A record is applied for which there is room. The names to which a rollback leads may be given.
    fn enter_grown(
        &mut self,
        entry: &Entry,
        inverse: Option<ListedInverse>,
        back: Option<Names>,
    ) -> Result<Undo, Refusal>
        requires kind { comes_alone (plain entry.now) ≡ false }
        requires room { RoomFor self.old (plain entry.now) }
        requires told { IsToldFor (durable_of self.old) (plain entry.now) inverse }
        requires given { AreBack (durable_of self.old) back }
        ensures applied { Enters (plain entry.now) result (durable_of self.old) (durable_of self.new) }
        ensures back { IfOk result (λ undo. IsUndo self.old self.new undo) }
        ensures leases { IfErr result (λ _. self.new.leases ≡ self.old.leases) }
        ensures keeps { IfErr result (λ _. KeepsRooms self.old self.new) }
    {
        let mut inverse = inverse;
        let mut back = back;
        let entered = match entry {
            Entry::Edit { by, edit } => self.enter_edit(*by, edit, &mut inverse),
            _ => self.enter_unlike_edit(entry, &mut back),
        };
        drop(inverse);
        drop(back);
        entered
    }

    /// A record that is no edit is applied for which there is room. The names to which a rollback leads may be given, and are
    /// taken then.
    fn enter_unlike_edit(
        &mut self,
        entry: &Entry,
        back: &mut Option<Names>,
    ) -> Result<Undo, Refusal>
        requires kind { comes_alone (plain entry.now) ≡ false }
        requires unlike { (by : ReqId) (edit : Edit) → entry.now ≡ Entry.Edit by edit → ⊥ }
        requires room { RoomFor self.old (plain entry.now) }
        requires given { AreBack (durable_of self.old) back.old }
        ensures applied { Enters (plain entry.now) result (durable_of self.old) (durable_of self.new) }
        ensures back { IfOk result (λ undo. IsUndo self.old self.new undo) }
        ensures leases { IfErr result (λ _. self.new.leases ≡ self.old.leases) }
        ensures keeps { IfErr result (λ _. KeepsRooms self.old self.new) }
    {
        match entry {
            Entry::Edit { .. } => unreachable!(),
            Entry::Said { to, refusal } => self.enter_refusal(*to, refusal),
            Entry::Propose { handle, version } => self.enter_proposal(*handle, *version),
            Entry::Settle(settled) => self.enter_view(settled),
            Entry::Prepare { epoch, .. } => self.enter_prepare(*epoch),
            Entry::Finalize { epoch } => self.enter_finalize(*epoch),
            Entry::RollbackBegin { epoch } => self.enter_rollback(*epoch),
            Entry::RollbackCommit { epoch, answered } => {
                self.enter_commit(*epoch, answered, back.take())
            }
            Entry::Holder { handle, server } => self.enter_holder(*handle, *server),
            Entry::Checkpoint(_) => Err(Refusal::BadLine),
        }
    }

    /// Makes the room that a record wants, and applies it. What it answers takes the record back. `BadLine` where the record
    /// doesn't fit: an edit is refused so too, whatever the names' own refusal is, so calls judge their edits before. Where the
    /// names to which a rollback leads are given, the record of its end copies none.
    pub fn enter(
        &mut self,
        entry: &Entry,
        inverse: Option<ListedInverse>,
        back: Option<Names>,
    ) -> Result<Undo, Refusal>
        requires told { IsToldFor (durable_of self.old) (plain entry.now) inverse }
        requires given { AreBack (durable_of self.old) back }
        ensures applied { comes_alone (plain entry.now) ≡ false → Enters (plain entry.now) result (durable_of self.old) (durable_of self.new) }
        ensures alone { comes_alone (plain entry.now) ≡ true → IsRefused result (durable_of self.old) (durable_of self.new) }
        ensures back { IfOk result (λ undo. IsUndo self.old self.new undo) }
        ensures leases { IfErr result (λ _. live nat_cmp self.new.leases ≡ live nat_cmp self.old.leases) }
        ensures keeps { IfErr result (λ _. KeepsRooms self.old self.new) }
    {
        if comes_alone(entry) {
            return Err(Refusal::BadLine);
        }
        self.grow(entry)?;
        self.enter_grown(entry, inverse, back)
    }
}
