// What is kept in memory alone while an event lasts, with what takes each change of it back.
ghost use Rattle.std.specs.Prelude.{◌≡◌, ◌++◌, ◌∷◌, IfOk, OnOk, fold, is_some, true, false, []};
ghost use Rattle.std.specs.FinMap as fin;
ghost use Rattle.std.specs.Ordering.{nat_cmp};
ghost use Rattle.gs_base_table.specs.Slots.{HasRoom};
ghost use Rattle.gs_master_state.specs.inner.Memories.{KeepsRooms, volatile_of};
ghost use Rattle.gs_master_spec.specs.Replies.{client_cmp};
ghost use Rattle.gs_master_state.specs.inner.Released.{GivesUpEach, HaveNoFreeRoom, ReleasesEach};
ghost use Rattle.gs_master_state.specs.inner.Tracked.{HasRoomBack, HaveRoomBack, rooms_before, slot_back, slots_back};
ghost use Rattle.gs_master_spec.specs.Volatile.{behind_restart, changed, with_restored, without_pending};
ghost use Rattle.gs_master_spec.specs.declared.change.Change.TheVariants as changes;
ghost use Rattle.gs_master_state.specs.declared.tracked.Slot.TheVariants as slots;

use crate::memory::Memory;
use gs_base::{ClientId, Handle, Members, ReqId, ServerId};
use gs_base_table::Table;
use gs_lock::LockTable;
use gs_master_spec::asking::Asking;
use gs_master_spec::change::Change;
use gs_master_spec::pending::{Pending, Waiting, copied};
use gs_master_spec::reply::KeptReply;
use std::alloc::{AllocError, Global};
use std::marker::Model;
use std::mem;

/// What stood at a place that an event has touched.
#[derive(Drop)]
pub enum Slot {
    Asked(Handle, Option<Asking>),
    Replied(ClientId, Option<KeptReply>),
    Restored(Handle, Option<Members>),
    Preparing(bool),
    /// All that was asked and told, before a rollback was done. It was moved here.
    Rolled(Table<Handle, Asking>, Table<Handle, Members>),
}

/// The calls that waited before an event, with their locks, and the chunks that were new.
#[derive(Drop)]
pub struct Calls {
    pending: Vec<Pending>,
    locks: LockTable,
    unplaced: Vec<Handle>,
}

/// What is kept in memory alone. While an event lasts, what stood before is kept too.
pub struct Tracked {
    memory: Memory,
    touched: Vec<Slot>,
    calls: Option<Calls>,
    /// The chunks for which an event asks, or asks no more. Their room stays until it is over.
    asked: Vec<Handle>,
}

impl Drop for Tracked {
    fn drop(self) {
        let Self {
            memory: _,
            touched: _,
            calls: _,
            asked: _,
        } = self;
    }
}

impl Model for Tracked {
    ghost use Rattle.gs_master_state.specs.inner.Tracked.{HaveRoomBack, NowAndBefore, coded_now_and_before, tracked_of};

    ghost Value = { NowAndBefore };

    ghost coded = { coded_now_and_before };

    ghost view = { λ t. tracked_of t.memory t.touched.items t.calls t.asked.items };

    ghost invariant = { λ t. HaveRoomBack t.memory t.touched.items };
}

/// Puts back what was asked for a chunk that has room, or nothing. It takes no memory.
fn ask_again(memory: &mut Memory, chunk: Handle, asked: Option<Asking>)
    requires { HasRoom nat_cmp memory.old.moving chunk }
    ensures value { volatile_of memory.new ≡ slot_back (volatile_of memory.old) (slots.Asked chunk asked) }
    ensures keeps { KeepsRooms memory.old memory.new }
{
    match asked {
        Some(asking) => memory.ask(chunk, asking),
        None => memory.settle(chunk),
    }
}

/// Puts back the last reply to a client that has room, or none. It takes no memory.
fn reply_again(memory: &mut Memory, client: ClientId, replied: Option<KeptReply>)
    requires { HasRoom client_cmp memory.old.replies client }
    ensures value { volatile_of memory.new ≡ slot_back (volatile_of memory.old) (slots.Replied client replied) }
    ensures keeps { KeepsRooms memory.old memory.new }
{
    match replied {
        Some(reply) => memory.keep(client, reply),
        None => {
            let _replied = memory.replies.take(client);
        }
    }
}

/// Puts back who had told of a chunk that has room, or nobody. It takes no memory.
fn restore_again(memory: &mut Memory, chunk: Handle, restored: Option<Members>)
    requires { HasRoom nat_cmp memory.old.restored chunk }
    ensures value { volatile_of memory.new ≡ slot_back (volatile_of memory.old) (slots.Restored chunk restored) }
    ensures keeps { KeepsRooms memory.old memory.new }
{
    match restored {
        Some(servers) => memory.restored.put(chunk, servers),
        None => {
            let _restored = memory.restored.take(chunk);
        }
    }
}

/// Puts back what stood at a place that has room. It takes no memory.
fn put_back(memory: &mut Memory, slot: Slot)
    requires { HasRoomBack memory.old slot }
    ensures value { volatile_of memory.new ≡ slot_back (volatile_of memory.old) slot }
    ensures keeps { KeepsRooms (rooms_before slot memory.old) memory.new }
{
    match slot {
        Slot::Asked(chunk, asked) => ask_again(memory, chunk, asked),
        Slot::Replied(client, replied) => reply_again(memory, client, replied),
        Slot::Restored(chunk, restored) => restore_again(memory, chunk, restored),
        Slot::Preparing(is_preparing) => memory.prepare(is_preparing),
        Slot::Rolled(moving, restored) => {
            memory.moving = moving;
            memory.restored = restored;
        }
    }
}

/// Puts back what stood at all these places, the last one first. It takes no memory.
fn put_all_back(memory: &mut Memory, touched: &mut Vec<Slot>)
    requires { HaveRoomBack memory.old touched.old.items }
    ensures value { volatile_of memory.new ≡ slots_back (volatile_of memory.old) touched.old.items }
    ensures none { touched.new.items ≡ [] }
{
    while let Some(slot) = touched.pop() {
        put_back(memory, slot);
    }
}

/// Gives up the room of those of these chunks for which nothing is asked.
fn release_all(memory: &mut Memory, chunks: &[Handle])
    ensures value { volatile_of memory.new ≡ volatile_of memory.old }
    ensures room { ReleasesEach memory.old.moving memory.new.moving chunks.now }
{
    for chunk in chunks {
        memory.moving.release(*chunk);
    }
}

/// The calls that wait but for one, in memory of their own.
fn others(alloc: Global, pending: &[Pending], req: ReqId) -> Result<Vec<Pending>, AllocError>
    ensures { IfOk result (λ others. others.items ≡ without_pending pending.now req) }
{
    let mut others = Vec::new(alloc);
    for one in pending {
        if one.req != req {
            others.push(one.copy(alloc)?)?;
        }
    }
    Ok(others)
}

/// How many items a list that is done with may have room for, to be used again.
const FEW: usize = 64;

/// Lets the items of a list go. Its room stays for the next event, unless it is more than an event mostly wants.
fn empty<T: Drop>(items: &mut Vec<T>)
    ensures { items.new.items ≡ [] }
{
    items.clear();
    if items.capacity() > FEW {
        items.shrink_to_fit();
    }
}

impl Tracked {
    /// As a restart leaves it that takes these chunks out.
    pub fn new(alloc: Global, taken_out: Vec<Handle>) -> Tracked
        ensures { result ≡ record { now = behind_restart taken_out.items; before = behind_restart taken_out.items; keeps_calls = false; rooms = result.rooms; asked = [] } }
    {
        Tracked {
            memory: Memory::new(alloc, taken_out),
            touched: Vec::new(alloc),
            calls: None,
            asked: Vec::new(alloc),
        }
    }

    pub fn memory(&self) -> &Memory
        ensures { volatile_of result.now ≡ self.now.now }
    {
        &self.memory
    }

    /// Keeps the calls that waited before, unless they are kept already.
    fn keep_calls(&mut self) -> Result<(), AllocError>
        ensures now { self.new.now ≡ self.old.now }
        ensures before { self.new.before ≡ self.old.before }
        ensures kept { OnOk result (self.new.keeps_calls ≡ true) }
    {
        if self.calls.is_some() {
            return Ok(());
        }
        let alloc = self.memory.alloc;
        self.calls = Some(Calls {
            pending: copied(alloc, &self.memory.pending)?,
            locks: self.memory.locks.copy()?,
            unplaced: Vec::from_slice(alloc, &self.memory.unplaced)?,
        });
        Ok(())
    }

    /// Asks for a chunk, or keeps what was answered.
    fn ask(&mut self, chunk: Handle, asking: Asking) -> Result<(), AllocError>
        ensures now { OnOk result (self.new.now ≡ changed self.old.now (changes.Ask chunk asking)) }
        ensures before { self.new.before ≡ self.old.before }
        ensures asked { OnOk result (self.new.asked ≡ self.old.asked ++ chunk ∷ []) }
    {
        self.asked.push(chunk)?;
        self.memory.moving.reserve(chunk)?;
        self.touched.reserve(1)?;
        let asked = self.memory.moving.replace(chunk, asking);
        self.touched.push_reserved(Slot::Asked(chunk, asked));
        Ok(())
    }

    /// Whether something is asked for a chunk.
    fn is_asked(&self, chunk: Handle) -> bool
        ensures { result ≡ is_some (fin.get self.now.now.moving chunk) }
    {
        self.memory.asking(chunk).is_some()
    }

    /// Asks nothing for a chunk any more.
    #[tactic(auto, using(crate::proofs::Tracking::not_asked))]
    fn settle(&mut self, chunk: Handle) -> Result<(), AllocError>
        ensures now { OnOk result (self.new.now ≡ changed self.old.now (changes.Settled chunk)) }
        ensures before { self.new.before ≡ self.old.before }
        ensures calls { self.new.keeps_calls ≡ self.old.keeps_calls }
        ensures asked { is_some (fin.get self.old.now.moving chunk) ≡ true → OnOk result (self.new.asked ≡ self.old.asked ++ chunk ∷ []) }
    {
        if !self.is_asked(chunk) {
            return Ok(());
        }
        self.asked.push(chunk)?;
        self.memory.moving.reserve(chunk)?;
        self.touched.reserve(1)?;
        let asked = self.memory.moving.take(chunk);
        self.touched.push_reserved(Slot::Asked(chunk, asked));
        Ok(())
    }

    /// Asks nothing for these chunks any more, which are forgotten.
    fn forget(&mut self, chunks: &[Handle]) -> Result<(), AllocError>
        ensures now { OnOk result (self.new.now ≡ changed self.old.now (changes.Forget chunks.now)) }
        ensures before { self.new.before ≡ self.old.before }
    {
        for chunk in chunks {
            self.settle(*chunk)?;
        }
        Ok(())
    }

    /// A chunk is new.
    fn enter(&mut self, chunk: Handle) -> Result<(), AllocError>
        ensures now { OnOk result (self.new.now ≡ changed self.old.now (changes.Enter chunk)) }
        ensures before { self.new.before ≡ self.old.before }
    {
        self.keep_calls()?;
        self.memory.unplaced.reserve(1)?;
        self.memory.enter(chunk);
        Ok(())
    }

    /// A new chunk has its place.
    fn place(&mut self, chunk: Handle) -> Result<(), AllocError>
        ensures now { OnOk result (self.new.now ≡ changed self.old.now (changes.Place chunk)) }
        ensures before { self.new.before ≡ self.old.before }
    {
        self.keep_calls()?;
        self.memory.place(chunk);
        Ok(())
    }

    /// A new chunk is no more.
    fn lose(&mut self, chunk: Handle) -> Result<(), AllocError>
        ensures now { OnOk result (self.new.now ≡ changed self.old.now (changes.Lose chunk)) }
        ensures before { self.new.before ≡ self.old.before }
    {
        self.settle(chunk)?;
        self.place(chunk)
    }

    /// A call begins to wait, and takes its locks.
    fn begin(&mut self, pending: Pending) -> Result<(), AllocError>
        ensures now { OnOk result (self.new.now ≡ changed self.old.now (changes.Begin pending)) }
        ensures before { self.new.before ≡ self.old.before }
    {
        self.keep_calls()?;
        let alloc = self.memory.alloc;
        let reads = pending.waits.reads(alloc)?;
        let writes = pending.waits.writes(alloc)?;
        self.memory.pending.reserve(1)?;
        self.memory.locks.lock(pending.req, &reads, &writes)?;
        self.memory.begin(pending);
        Ok(())
    }

    /// A call that waits does so for something else now.
    fn wait(&mut self, req: ReqId, waits: Waiting) -> Result<(), AllocError>
        ensures now { OnOk result (self.new.now ≡ changed self.old.now (changes.Wait req waits)) }
        ensures before { self.new.before ≡ self.old.before }
    {
        self.keep_calls()?;
        self.memory.wait(req, waits);
        Ok(())
    }

    /// Ends a call where the calls that waited before aren't kept yet: they are kept as they stand, and the others are copied.
    fn end_first(&mut self, req: ReqId) -> Result<(), AllocError>
        requires { self.old.keeps_calls ≡ false }
        ensures now { OnOk result (self.new.now ≡ changed self.old.now (changes.End req)) }
        ensures before { self.new.before ≡ self.old.before }
    {
        let alloc = self.memory.alloc;
        let pending = others(alloc, &self.memory.pending, req)?;
        let locks = self.memory.locks.copy_without(req)?;
        let unplaced = Vec::from_slice(alloc, &self.memory.unplaced)?;
        self.calls = Some(Calls {
            pending: mem::replace(&mut self.memory.pending, pending),
            locks: mem::replace(&mut self.memory.locks, locks),
            unplaced,
        });
        Ok(())
    }

    /// Ends a call, and releases its locks.
    fn end(&mut self, req: ReqId) -> Result<(), AllocError>
        ensures now { OnOk result (self.new.now ≡ changed self.old.now (changes.End req)) }
        ensures before { self.new.before ≡ self.old.before }
    {
        if self.calls.is_none() {
            return self.end_first(req);
        }
        self.memory.end(req);
        Ok(())
    }

    /// Begins to prepare, or ends it.
    fn prepare(&mut self, is_preparing: bool) -> Result<(), AllocError>
        ensures now { OnOk result (self.new.now ≡ changed self.old.now (changes.Prepare is_preparing)) }
        ensures before { self.new.before ≡ self.old.before }
    {
        self.touched.reserve(1)?;
        self.touched
            .push_reserved(Slot::Preparing(self.memory.is_preparing));
        self.memory.prepare(is_preparing);
        Ok(())
    }

    /// Keeps a reply to a client.
    fn keep(&mut self, client: ClientId, reply: KeptReply) -> Result<(), AllocError>
        ensures now { OnOk result (self.new.now ≡ changed self.old.now (changes.Keep client reply)) }
        ensures before { self.new.before ≡ self.old.before }
    {
        self.memory.replies.reserve(client)?;
        self.touched.reserve(1)?;
        let replied = self.memory.replies.replace(client, reply);
        self.touched.push_reserved(Slot::Replied(client, replied));
        Ok(())
    }

    /// A server has a chunk as it was sealed.
    fn restore_one(&mut self, server: ServerId, chunk: Handle) -> Result<(), AllocError>
        ensures now { OnOk result (self.new.now ≡ record self.old.now { restored = with_restored server self.old.now.restored chunk }) }
        ensures before { self.new.before ≡ self.old.before }
    {
        self.memory.restored.reserve(chunk)?;
        self.touched.reserve(1)?;
        let mut servers = self.memory.restored_on(chunk);
        servers.insert(server);
        let restored = self.memory.restored.replace(chunk, servers);
        self.touched.push_reserved(Slot::Restored(chunk, restored));
        Ok(())
    }

    /// A server has these chunks as they were sealed.
    fn restore(&mut self, server: ServerId, chunks: &[Handle]) -> Result<(), AllocError>
        ensures now { OnOk result (self.new.now ≡ changed self.old.now (changes.Restored server chunks.now)) }
        ensures before { self.new.before ≡ self.old.before }
    {
        for chunk in chunks {
            self.restore_one(server, *chunk)?;
        }
        Ok(())
    }

    /// A rollback is done: nothing is asked, no chunk is new, and nobody has answered.
    fn roll_back(&mut self) -> Result<(), AllocError>
        ensures now { OnOk result (self.new.now ≡ changed self.old.now changes.RolledBack) }
        ensures before { self.new.before ≡ self.old.before }
    {
        self.keep_calls()?;
        self.touched.reserve(1)?;
        let alloc = self.memory.alloc;
        let moving = mem::replace(&mut self.memory.moving, Table::new(alloc));
        let restored = mem::replace(&mut self.memory.restored, Table::new(alloc));
        self.touched.push_reserved(Slot::Rolled(moving, restored));
        self.memory.unplaced = Vec::new(alloc);
        Ok(())
    }

    /// Makes a change. Where memory is refused it is perhaps made in part: then all is taken back.
    pub fn change(&mut self, change: Change) -> Result<(), AllocError>
        ensures now { OnOk result (self.new.now ≡ changed self.old.now change) }
        ensures before { self.new.before ≡ self.old.before }
    {
        match change {
            Change::Ask(chunk, asking) => self.ask(chunk, asking),
            Change::Settled(chunk) => self.settle(chunk),
            Change::Enter(chunk) => self.enter(chunk),
            Change::Place(chunk) => self.place(chunk),
            Change::Lose(chunk) => self.lose(chunk),
            Change::Forget(chunks) => self.forget(chunks.as_slice()),
            Change::Begin(pending) => self.begin(pending),
            Change::Wait(req, waits) => self.wait(req, waits),
            Change::End(req) => self.end(req),
            Change::Prepare(is_preparing) => self.prepare(is_preparing),
            Change::Keep(client, reply) => self.keep(client, reply),
            Change::Restored(server, chunks) => self.restore(server, chunks.as_slice()),
            Change::RolledBack => self.roll_back(),
        }
    }

    /// Takes all changes of the event back, and gives up the room that was made to ask for chunks. It takes no memory.
    pub fn take_back(&mut self)
        ensures stood { self.new ≡ record { now = self.old.before; before = self.old.before; keeps_calls = false; rooms = self.new.rooms; asked = [] } }
        ensures room { HaveNoFreeRoom self.new.rooms self.old.asked }
    {
        put_all_back(&mut self.memory, &mut self.touched);
        if let Some(calls) = self.calls.take() {
            self.memory.pending = calls.pending;
            self.memory.locks = calls.locks;
            self.memory.unplaced = calls.unplaced;
        }
        self.accept();
    }

    /// The event is over: its changes stay. It gives up the room of the chunks for which nothing is asked any more.
    #[tactic(auto, using(crate::proofs::Tracking::rooms_none))]
    pub fn accept(&mut self)
        ensures stays { self.new ≡ record { now = self.old.now; before = self.old.now; keeps_calls = false; rooms = self.new.rooms; asked = [] } }
        ensures room { ReleasesEach self.old.rooms self.new.rooms self.old.asked }
    {
        self.calls = None;
        empty(&mut self.touched);
        release_all(&mut self.memory, &self.asked);
        empty(&mut self.asked);
    }

    /// The same, behind which a checkpoint is written: of the new chunks these stay, of those that got no place nothing is asked
    /// any more, and of those that a restart took out nothing is left. It takes no memory.
    #[tactic(auto, using(crate::proofs::Tracking::rooms_none))]
    pub fn accept_new(&mut self, placeless: &[Handle], awaiting: Vec<Handle>)
        ensures before { self.new.before ≡ self.new.now }
        ensures calls { self.new.keeps_calls ≡ false }
        ensures asked { self.new.asked ≡ [] }
        ensures now { self.new.now ≡ record self.old.now { moving = fold fin.remove self.old.now.moving placeless.now; unplaced = awaiting.items; taken_out = [] } }
        ensures room { HaveNoFreeRoom self.new.rooms self.old.asked }
        ensures gives { GivesUpEach self.old.rooms self.new.rooms placeless.now }
    {
        self.calls = None;
        self.touched.clear();
        self.memory.keep_new(placeless, awaiting);
        self.accept();
    }
}
