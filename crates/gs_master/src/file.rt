// Calls on a file's chunks, which begin views and wait for them.
ghost use Rattle.std.specs.Prelude.{◌≡◌, Ok, Some};
ghost use Rattle.std.specs.FinMap as fin;
ghost use Rattle.gs_master.specs.Masters.{MasterAnswers};
ghost use Rattle.gs_master.specs.inner.Looking.{found_at};
ghost use Rattle.gs_master.specs.inner.Turns.{GoesBack, IsUnderWay, state_at, EventSteps};
ghost use Rattle.gs_master_spec.specs.Beginning.{begin_at};
ghost use Rattle.gs_master_spec.specs.Chunks.{chunk_at, view_of};
ghost use Rattle.gs_master_spec.specs.Handling.{call_turn};
ghost use Rattle.gs_master_state.specs.inner.Judging.{length_at};
ghost use Rattle.gs_master_state.specs.inner.Knowing.{known_of};
ghost use Rattle.gs_master_spec.specs.Working.{begins, copied_on_write, created_on, extends, leased, may_use, replicated_to, replicates, replicates_chunk};
ghost use Rattle.gs_msg.specs.declared.call.Call.TheVariants as calls;
ghost use Rattle.gs_master_spec.specs.declared.pending.Waiting.TheVariants as waits;

use crate::event::Event;
use crate::master::Master;
use crate::turn::Turn;
use gs_base::{Config, Handle, Members, Moment, Refusal, ReqId, Stamp};
use gs_journal::Disk;
use gs_lease::Purpose;
use gs_master_guard::writing::has_to_be_copied;
use gs_master_plan::view::{copy_plan, create_plan};
use gs_master_spec::pending::Waiting;
use gs_master_state::call::MOST_CHUNKS;
use gs_master_state::known::Known;
use gs_msg::{Answer, Call};
use gs_path::Path;

/// A place of a file for which a call asks, and what stands there.
#[derive(Drop)]
struct Place {
    path: Path,
    index: u64,
    chunk: Handle,
}

impl Event {
    /// A view of a chunk is begun on its members, and the call waits for it.
    fn begin_for(
        &mut self,
        req: ReqId,
        chunk: Handle,
        purpose: Purpose,
        waits: Waiting,
    ) -> Result<(), Refusal>
        requires { IsUnderWay self.old }
        ensures steps { EventSteps (begins (state_at self.old) req (begin_at (state_at self.old) chunk purpose (Some req)) waits) self.old result self.new }
        ensures back { GoesBack self.old self.new }
    {
        if !self.recorded.has_versions(1) {
            return self.refuse(req, Refusal::Exhausted);
        }
        let begun = self.standing().begin_at(chunk, purpose, Some(req))?;
        let plan = begun.waits_from_now(req, waits)?;
        self.carry_out_or_refuse(req, plan)
    }

    /// The lease that stands is told, or a new one is asked for.
    fn lease_place(
        &mut self,
        req: ReqId,
        place: Place,
        refused: Option<Stamp>,
        moment: Moment,
        known: &Known,
    ) -> Result<(), Refusal>
        requires { IsUnderWay self.old }
        ensures steps { EventSteps (leased (state_at self.old) req place.path place.index refused moment place.chunk (known_of known.now)) self.old result self.new }
        ensures back { GoesBack self.old self.new }
    {
        let Place { path, index, chunk } = place;
        if known.may_use(refused, moment) {
            let found = self.recorded.location(chunk);
            return self.look_up(req, found);
        }
        if known.is_wanted() {
            return self.refuse(req, Refusal::Locked);
        }
        let waits = Waiting::Lease { path, index, chunk };
        self.begin_for(req, chunk, Purpose::Lease, waits)
    }

    /// A chunk that stands in several places is copied, where it is quiet, and is made quiet first where it isn't.
    fn copy_on_write(&mut self, req: ReqId, place: Place, known: &Known) -> Result<(), Refusal>
        requires ready { IsUnderWay self.old }
        requires known { chunk_at (state_at self.old) place.chunk ≡ Some (known_of known.now) }
        ensures steps { EventSteps (copied_on_write (state_at self.old) req place.path place.index place.chunk (known_of known.now) (view_of (known_of known.now))) self.old result self.new }
        ensures back { GoesBack self.old self.new }
    {
        if known.view().is_none() {
            return self.refuse(req, Refusal::NoReplica);
        }
        if known.is_wanted() {
            return self.refuse(req, Refusal::Locked);
        }
        let Place { path, index, chunk } = place;
        let standing = self.standing();
        let Some(quiet) = standing.quiet_at(chunk) else {
            let waits = Waiting::Quiet { path, index, chunk };
            return self.begin_for(req, chunk, Purpose::Quiet, waits);
        };
        let Some(new) = self.recorded.next_handle() else {
            return self.refuse(req, Refusal::Exhausted);
        };
        if !self.recorded.has_versions(1) {
            return self.refuse(req, Refusal::Exhausted);
        }
        let stamp = self.recorded.next_stamp();
        let begun = copy_plan(self.alloc, stamp, chunk, quiet, new, req)?;
        let old = chunk;
        let waits = Waiting::Copy {
            path,
            index,
            old,
            new,
        };
        let plan = begun.waits_from_now(req, waits)?;
        self.carry_out_or_refuse(req, plan)
    }

    /// A chunk of a file is found for writing.
    pub fn find_for_writing(
        &mut self,
        req: ReqId,
        path: Path,
        index: u64,
        refused: Option<Stamp>,
        moment: Moment,
    ) -> Result<(), Refusal>
        requires { IsUnderWay self.old }
        ensures steps { EventSteps (found_at (state_at self.old) req path index refused moment) self.old result self.new }
        ensures back { GoesBack self.old self.new }
    {
        let chunk = match self.recorded.found_chunk(&path, index) {
            Ok(chunk) => chunk,
            Err(refusal) => return self.refuse(req, refusal),
        };
        let Some(known) = self.standing().chunk_at(chunk) else {
            return self.refuse(req, Refusal::NoReplica);
        };
        let place = Place { path, index, chunk };
        if has_to_be_copied(&self.recorded, chunk) {
            return self.copy_on_write(req, place, &known);
        }
        self.lease_place(req, place, refused, moment, &known)
    }

    /// A new chunk of a file is made on these servers.
    fn create(&mut self, req: ReqId, path: Path, targets: Members) -> Result<(), Refusal>
        requires { IsUnderWay self.old }
        ensures steps { EventSteps (created_on (state_at self.old) req path (Some targets)) self.old result self.new }
        ensures back { GoesBack self.old self.new }
    {
        let Some(chunk) = self.recorded.next_handle() else {
            return self.refuse(req, Refusal::Exhausted);
        };
        if !self.recorded.has_versions(1) {
            return self.refuse(req, Refusal::Exhausted);
        }
        let stamp = self.recorded.next_stamp();
        let begun = create_plan(self.alloc, stamp, chunk, targets, req)?;
        let plan = begun.waits_from_now(req, Waiting::Extend { path, chunk })?;
        self.carry_out_or_refuse(req, plan)
    }

    /// A file of so many chunks gets one more. Of a place that it has it is told where the chunk is.
    fn extend_at(
        &mut self,
        config: &Config,
        req: ReqId,
        path: Path,
        chunks: u64,
        index: u64,
    ) -> Result<(), Refusal>
        requires ready { IsUnderWay self.old }
        requires file { length_at (fin.get (state_at self.old).durable.names.tree path) ≡ Ok chunks }
        ensures steps { EventSteps (extends config.now (state_at self.old) req path index (fin.get (state_at self.old).durable.names.tree path)) self.old result self.new }
        ensures back { GoesBack self.old self.new }
    {
        if index < chunks {
            return self.find(req, &path, index);
        }
        if chunks < index || MOST_CHUNKS <= index {
            return self.refuse(req, Refusal::Range);
        }
        let none = Members::none();
        match self.standing().targets_for(config, none, config.replicas) {
            Some(targets) => self.create(req, path, targets),
            None => self.refuse(req, Refusal::NoServer),
        }
    }

    /// A file gets a chunk more.
    pub fn extend_file(
        &mut self,
        config: &Config,
        req: ReqId,
        path: Path,
        index: u64,
    ) -> Result<(), Refusal>
        requires { IsUnderWay self.old }
        ensures steps { EventSteps (extends config.now (state_at self.old) req path index (fin.get (state_at self.old).durable.names.tree path)) self.old result self.new }
        ensures back { GoesBack self.old self.new }
    {
        match self.recorded.length_at(&path) {
            Ok(chunks) => self.extend_at(config, req, path, chunks, index),
            Err(refusal) => self.refuse(req, refusal),
        }
    }

    /// A chunk gets a replica on the first of these servers.
    fn replicate_to(
        &mut self,
        req: ReqId,
        chunk: Handle,
        targets: Option<Members>,
    ) -> Result<(), Refusal>
        requires { IsUnderWay self.old }
        ensures steps { EventSteps (replicated_to (state_at self.old) req chunk targets) self.old result self.new }
        ensures back { GoesBack self.old self.new }
    {
        let Some(targets) = targets else {
            return self.refuse(req, Refusal::NoServer);
        };
        let Some(target) = targets.first() else {
            return self.refuse(req, Refusal::NoServer);
        };
        let waits = Waiting::Replicate { chunk, target };
        self.begin_for(req, chunk, Purpose::Copy(target), waits)
    }

    /// A chunk gets a replica, where no other call moves it.
    fn replicate_chunk(&mut self, config: &Config, req: ReqId, chunk: Handle) -> Result<(), Refusal>
        requires { IsUnderWay self.old }
        ensures steps { EventSteps (replicates_chunk config.now (state_at self.old) req chunk (chunk_at (state_at self.old) chunk)) self.old result self.new }
        ensures back { GoesBack self.old self.new }
    {
        let Some(known) = self.standing().chunk_at(chunk) else {
            return self.refuse(req, Refusal::NoReplica);
        };
        if known.is_wanted() {
            return self.refuse(req, Refusal::Locked);
        }
        let targets = self.standing().targets_for(config, known.members(), 1);
        self.replicate_to(req, chunk, targets)
    }

    /// The chunks of visible paths are found, and kept until the names change.
    fn see_visible(&mut self)
        ensures { self.new ≡ self.old }
    {
        self.recorded.see_visible();
    }

    /// The chunk that needs a replica most gets one.
    fn replicate_most_needed(&mut self, config: &Config, req: ReqId) -> Result<(), Refusal>
        requires { IsUnderWay self.old }
        ensures steps { EventSteps (replicates config.now (state_at self.old) req) self.old result self.new }
        ensures back { GoesBack self.old self.new }
    {
        match self.standing().most_needed(config)? {
            Some(chunk) => self.replicate_chunk(config, req, chunk),
            None => self.answer(req, Answer::Copied(None)),
        }
    }

    /// The same. Which chunks are visible is known for the next time too.
    pub fn replicate(&mut self, config: &Config, req: ReqId) -> Result<(), Refusal>
        requires { IsUnderWay self.old }
        ensures steps { EventSteps (replicates config.now (state_at self.old) req) self.old result self.new }
        ensures back { GoesBack self.old self.new }
    {
        self.see_visible();
        self.replicate_most_needed(config, req)
    }
}

impl<D: Disk> Master<D> {
    /// Has the chunk that needs a replica most copied to one more server for a client's request, at this moment, in seconds, as `query` answers one. The
    /// reply comes when the copy does, so this turn may have none. Which chunk and which server are GFS's: the one farthest from the number of
    /// replicas that is wanted, and a rack that has none. Refused 12 while rolling back, 11 while preparing, 10 where another call moves that chunk, 17 where
    /// no server is left for it, 31 where no version is left, 30 where the journal has no room. The answer is the chunk and
    /// the server, or that no chunk needs one.
    pub fn replicate(&mut self, req: ReqId, moment: Moment) -> Result<Turn, Refusal>
        ensures { MasterAnswers D.seen D.failures (Some req) (call_turn self.old.config self.old.state req moment calls.Replicate) self.old result self.new }
    {
        self.answer_call(req, moment, Call::Replicate)
    }
}
