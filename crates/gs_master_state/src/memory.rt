ghost use Rattle.std.specs.Prelude.{◌≡◌, ◌<◌, ◌++◌, ◌∷◌, [], vec_len, vec_capacity, position};
ghost use Rattle.std.specs.Option.{option_copied};
ghost use Rattle.std.specs.Ordering.{nat_cmp};
ghost use Rattle.std.specs.FinMap as fin;
ghost use Rattle.gs_lock.specs.Operations.{same_op};
ghost use Rattle.gs_base_table.specs.Slots.{HasRoom};
ghost use Rattle.gs_master_state.specs.inner.Memories.{KeepsRooms, volatile_of};
ghost use Rattle.gs_master_spec.specs.Replies.{client_cmp};
ghost use Rattle.gs_master_spec.specs.Volatile.{changed, servers_or_none};
ghost use Rattle.gs_master_spec.specs.declared.change.Change.TheVariants as changes;

use gs_base::{ClientId, Handle, Members, ReqId};
use gs_base_table::Table;
use gs_lock::LockTable;
use gs_master_spec::asking::Asking;
use gs_master_spec::pending::{Pending, Waiting};
use gs_master_spec::reply::KeptReply;
use std::alloc::Global;

/// What the master keeps in memory alone. A restart drops it.
pub struct Memory {
    pub alloc: Global,
    pub is_preparing: bool,
    pub moving: Table<Handle, Asking>,
    pub unplaced: Vec<Handle>,
    pub pending: Vec<Pending>,
    pub locks: LockTable,
    pub restored: Table<Handle, Members>,
    pub replies: Table<ClientId, KeptReply>,
    /// The settled chunks that a restart took out, since no file had or has them.
    pub taken_out: Vec<Handle>,
}

impl Drop for Memory {
    fn drop(self) {
        let Self {
            alloc: _,
            is_preparing: _,
            moving: _,
            unplaced: _,
            pending: _,
            locks: _,
            restored: _,
            replies: _,
            taken_out: _,
        } = self;
    }
}

impl Memory {
    ghost use Rattle.gs_master_spec.specs.Volatile.{behind_restart, is_pending};

    /// What stands in memory after a restart that takes these chunks out.
    pub fn new(alloc: Global, taken_out: Vec<Handle>) -> Memory
        ensures { volatile_of result ≡ behind_restart taken_out.items }
    {
        Memory {
            alloc,
            is_preparing: false,
            moving: Table::new(alloc),
            unplaced: Vec::new(alloc),
            pending: Vec::new(alloc),
            locks: LockTable::new(alloc),
            restored: Table::new(alloc),
            replies: Table::new(alloc),
            taken_out,
        }
    }

    /// Whether an upgrade is being prepared.
    pub fn is_preparing(&self) -> bool
        ensures { result ≡ (volatile_of self.now).is_preparing }
    {
        self.is_preparing
    }

    /// What is asked for a chunk.
    pub fn asking(&self, chunk: Handle) -> Option<&Asking>
        ensures { option_copied result ≡ fin.get (volatile_of self.now).moving chunk }
    {
        self.moving.get(chunk)
    }

    /// The last reply to a client that is kept here.
    pub fn reply(&self, client: ClientId) -> Option<&KeptReply>
        ensures { option_copied result ≡ fin.get (volatile_of self.now).replies client }
    {
        self.replies.get(client)
    }

    /// Whether a call waits.
    pub fn is_pending(&self, req: ReqId) -> bool
        ensures { result ≡ is_pending (volatile_of self.now).pending req }
    {
        self.pending.iter().any(|pending| pending.req == req)
    }

    /// Begins to prepare, or ends it.
    pub fn prepare(&mut self, is_preparing: bool)
        ensures changed { volatile_of self.new ≡ changed (volatile_of self.old) (changes.Prepare is_preparing) }
        ensures keeps { KeepsRooms self.old self.new }
    {
        self.is_preparing = is_preparing;
    }

    /// Asks for a chunk that has room, or keeps what was answered.
    pub fn ask(&mut self, chunk: Handle, asking: Asking)
        requires { HasRoom nat_cmp self.old.moving chunk }
        ensures changed { volatile_of self.new ≡ changed (volatile_of self.old) (changes.Ask chunk asking) }
        ensures keeps { KeepsRooms self.old self.new }
    {
        let purpose = asking.purpose;
        self.moving.put(chunk, Asking { purpose, ..asking });
    }

    /// Asks nothing for a chunk any more.
    pub fn settle(&mut self, chunk: Handle)
        ensures changed { volatile_of self.new ≡ changed (volatile_of self.old) (changes.Settled chunk) }
        ensures keeps { KeepsRooms self.old self.new }
    {
        let _asked = self.moving.take(chunk);
    }

    /// A new chunk has its place.
    pub fn place(&mut self, chunk: Handle)
        ensures changed { volatile_of self.new ≡ changed (volatile_of self.old) (changes.Place chunk) }
        ensures keeps { KeepsRooms self.old self.new }
    {
        self.unplaced.retain(|other| *other != chunk);
    }

    /// Ends a call, and releases its locks.
    pub fn end(&mut self, req: ReqId)
        ensures changed { volatile_of self.new ≡ changed (volatile_of self.old) (changes.End req) }
        ensures keeps { KeepsRooms self.old self.new }
    {
        self.pending.retain(|pending| pending.req != req);
        self.locks.release(req);
    }

    /// Keeps a reply to a client that has room.
    pub fn keep(&mut self, client: ClientId, reply: KeptReply)
        requires { HasRoom client_cmp self.old.replies client }
        ensures changed { volatile_of self.new ≡ changed (volatile_of self.old) (changes.Keep client reply) }
        ensures keeps { KeepsRooms self.old self.new }
    {
        self.replies.put(client, reply);
    }

    /// A chunk is new. There is room for it.
    pub fn enter(&mut self, chunk: Handle)
        requires { vec_len self.old.unplaced < vec_capacity self.old.unplaced }
        ensures changed { volatile_of self.new ≡ changed (volatile_of self.old) (changes.Enter chunk) }
        ensures keeps { KeepsRooms self.old self.new }
    {
        let _pushed = self.unplaced.push(chunk);
    }

    fn place_of(&self, req: ReqId) -> Option<usize>
        ensures { result ≡ position (λ p. same_op p.req req) (volatile_of self.now).pending }
    {
        self.pending.iter().position(|pending| pending.req == req)
    }

    /// A call that waits does so for something else now.
    pub fn wait(&mut self, req: ReqId, waits: Waiting)
        ensures changed { volatile_of self.new ≡ changed (volatile_of self.old) (changes.Wait req waits) }
        ensures keeps { KeepsRooms self.old self.new }
    {
        if let Some(place) = self.place_of(req) {
            self.pending[place] = Pending { req, waits };
        }
    }

    /// Who has told of a chunk that it has it as it was sealed.
    pub fn restored_on(&self, chunk: Handle) -> Members
        ensures { result ≡ servers_or_none (fin.get (volatile_of self.now).restored chunk) }
    {
        match self.restored.get(chunk) {
            Some(servers) => *servers,
            None => Members::none(),
        }
    }

    /// A call begins to wait, for which there is room. Its locks are taken already.
    pub fn begin(&mut self, pending: Pending)
        requires { vec_len self.old.pending < vec_capacity self.old.pending }
        ensures changed { volatile_of self.new ≡ record (volatile_of self.old) { pending = (volatile_of self.old).pending ++ pending ∷ [] } }
        ensures keeps { KeepsRooms self.old self.new }
    {
        let _pushed = self.pending.push(pending);
    }
}
