// The checkpoint of all that is recorded, whether one is about one state, and what it doesn't tell and is given up.
ghost use Rattle.std.specs.Prelude.{[], ◌&&◌, ◌≡◌, filter, fold, IfOk, is_some, map, option_map, string_bytes, true};
ghost use Rattle.std.specs.FinMap as fin;
ghost use Rattle.std.specs.List.{list_all, list_any};
ghost use Rattle.std.specs.Ordering.{nat_cmp};
ghost use Rattle.gs_base_table.specs.Slots.{GivesUpRoom};
ghost use Rattle.gs_master_record.specs.Plain.{plain_checkpoint, plain_outcome, plain_reply};
ghost use Rattle.gs_master_record.specs.declared.checkpoint.SettledEntry.{SettledEntry as AnySettledEntry};
ghost use Rattle.gs_master_state.specs.Checkpoints.{listed_view};
ghost use Rattle.gs_master_spec.specs.Durable.{has_its_primary, is_listed, upgrade_epoch};
ghost use Rattle.gs_master_spec.specs.Handling.{unlisted};
ghost use Rattle.gs_master_state.specs.inner.Memories.{volatile_of};
ghost use Rattle.gs_master_state.specs.inner.Recorded.{durable_of, settled_by};
ghost use Rattle.gs_master_state.specs.inner.Released.{GivesUpEach};
ghost use Rattle.gs_master_spec.specs.Replies.{answer_text, outcome_of};
ghost use Rattle.gs_master_spec.specs.Whole.{alternate, are_ends, are_hidden_once, are_prepared, checkpoint_of, has_upgrade, is_hidden_twice, is_phase_behind, is_prepared_before, is_view_given, prepared_entry, reference_of, reply_of, settled_of};

use crate::held_names::HeldNames;
use crate::inverse::copied_inverses;
use crate::known::is_settled;
use crate::memory::Memory;
use crate::recorded::{Recorded, is_given};
use gs_base::{ClientId, EpochEnd, Handle, Refusal, ReqId};
use gs_lease::{Lease, Told, View};
use gs_master_order::by_text;
use gs_master_record::{
    Checkpoint, Extended, KeptOutcome, Phase, PreparedView, Reference, Reply, SettledEntry,
    SettledView,
};
use gs_master_spec::reply::KeptReply;
use gs_msg::Answer;
use gs_path::{Name, Path};
use gs_refs::Refs;
use std::alloc::{AllocError, Global};

fn references(alloc: Global, refs: &Refs) -> Result<Vec<Reference>, AllocError>
    ensures { IfOk result (λ references. references.items ≡ map reference_of (fin.entries refs.now)) }
{
    let entries = refs.entries(alloc)?;
    let mut references = Vec::new(alloc);
    for entry in &entries {
        let (handle, count) = *entry;
        references.push(Reference { handle, count })?;
    }
    Ok(references)
}

/// The text of an answer that a record tells.
pub fn answer_text(alloc: Global, answer: &Answer) -> Result<String, AllocError>
    ensures { IfOk result (λ text. string_bytes text ≡ answer_text answer.now) }
{
    match answer {
        Answer::Path(path) => path.text(alloc),
        Answer::Location {
            handle,
            view,
            epoch,
        } => {
            let settled = SettledView {
                handle: *handle,
                view: *view,
            };
            let extended = Extended {
                settled,
                epoch: *epoch,
            };
            format!(in alloc; "{extended}")
        }
        _ => Ok(String::new(alloc)),
    }
}

fn outcome(alloc: Global, kept: &Result<Answer, Refusal>) -> Result<KeptOutcome, AllocError>
    ensures { IfOk result (λ outcome. plain_outcome outcome ≡ outcome_of kept.now) }
{
    match kept {
        Ok(answer) => Ok(KeptOutcome::Accepted(answer_text(alloc, answer)?)),
        Err(refusal) => Ok(KeptOutcome::Refused(refusal.copy(alloc)?)),
    }
}

fn reply(alloc: Global, client: ClientId, kept: &KeptReply) -> Result<Reply, AllocError>
    ensures { IfOk result (λ reply. plain_reply reply ≡ reply_of (client, kept.now)) }
{
    let number = kept.number;
    Ok(Reply {
        to: ReqId { client, number },
        outcome: outcome(alloc, &kept.result)?,
    })
}

/// The view of a chunk that was settled last, and whether another was proposed since.
fn settled_view(lease: &Lease) -> Option<(View, bool)>
    ensures { result ≡ option_map (λ s. (s.view, s.is_moving)) (settled_by lease.now) }
{
    let Told { settled, proposed } = Told::of(lease);
    Some((settled?, proposed.is_some()))
}

impl Recorded {
    /// The same of a chunk that a file has or had.
    fn listed_view(&self, chunk: Handle, lease: &Lease) -> Option<(View, bool)>
        ensures { result ≡ listed_view (is_listed (durable_of self.now)) (chunk, lease.now) }
    {
        if self.is_listed(chunk) {
            settled_view(lease)
        } else {
            None
        }
    }

    fn settled_entries(&self) -> Result<Vec<SettledEntry>, AllocError>
        ensures { IfOk result (λ listed. listed.items ≡ map settled_of (filter (λ e. is_listed (durable_of self.now) e.0) (fin.entries (durable_of self.now).chunks))) }
    {
        let mut listed = Vec::new(self.alloc);
        for (handle, lease) in self.leases.iter() {
            if let Some((view, is_moving)) = self.listed_view(handle, lease) {
                listed.push(SettledEntry {
                    settled: SettledView { handle, view },
                    is_moving,
                })?;
            }
        }
        Ok(listed)
    }

    fn kept_replies(&self) -> Result<Vec<Reply>, AllocError>
        ensures { IfOk result (λ replies. map plain_reply replies.items ≡ map reply_of (fin.entries (durable_of self.now).replies)) }
    {
        let mut replies = Vec::new(self.alloc);
        for (client, kept) in self.replies.iter() {
            replies.push(reply(self.alloc, client, kept)?)?;
        }
        Ok(replies)
    }

    fn prepared_views(&self) -> Result<Vec<PreparedView>, AllocError>
        ensures { IfOk result (λ views. views.items ≡ map prepared_entry (fin.entries (durable_of self.now).prepared)) }
    {
        let mut views = Vec::new(self.alloc);
        for (handle, prepared) in self.prepared.iter() {
            let view = prepared.view;
            let holders = prepared.holders;
            views.push(PreparedView {
                settled: SettledView { handle, view },
                holders,
            })?;
        }
        Ok(views)
    }

    /// All that is recorded, as one record. It is copied whole.
    #[tactic(auto, unfolding(gs_master_spec::specs::Whole::checkpoint_of))]
    pub fn checkpoint(&self) -> Result<Checkpoint, AllocError>
        ensures { IfOk result (λ checkpoint. plain_checkpoint checkpoint ≡ checkpoint_of (durable_of self.now)) }
    {
        let alloc = self.alloc;
        let entries = self.names.entries(alloc)?;
        Ok(Checkpoint {
            next_handle: self.next_handle,
            next_version: self.next_version,
            next_hidden: self.next_hidden,
            epoch: self.epoch,
            phase: self.phase,
            ends: Vec::from_slice(alloc, &self.ends)?,
            tree: by_text(alloc, entries)?,
            references: references(alloc, self.names.refs())?,
            settled: self.settled_entries()?,
            replies: self.kept_replies()?,
            prepared: self.prepared_views()?,
            inverses: copied_inverses(alloc, &self.inverses)?,
        })
    }
}

/// Whether an upgrade is begun in each ordinary epoch, and ended in each other one. The first is ordinary.
fn alternate(past: &[EpochEnd]) -> bool
    ensures { result ≡ alternate true past.now }
{
    let mut is_ordinary = true;
    for end in past {
        let is_begun = match end {
            EpochEnd::Prepare => true,
            EpochEnd::Finalize | EpochEnd::Rollback => false,
        };
        if is_begun != is_ordinary {
            return false;
        }
        is_ordinary = !is_ordinary;
    }
    true
}

/// Whether a phase may stand behind the last epoch's end.
fn is_phase_behind(last: Option<EpochEnd>, phase: Phase) -> bool
    ensures { result ≡ is_phase_behind last phase }
{
    match last {
        None | Some(EpochEnd::Finalize) => phase == Phase::Ordinary,
        Some(EpochEnd::Prepare) => phase == Phase::Upgrade,
        Some(EpochEnd::Rollback) => phase != Phase::Upgrade,
    }
}

/// Whether epochs may have ended so that this is the epoch, in this phase.
pub fn are_ends(past: &[EpochEnd], epoch: u64, phase: Phase) -> bool
    ensures { result ≡ are_ends past.now epoch phase }
{
    if past.len() as u64 != epoch || !alternate(past) {
        return false;
    }
    is_phase_behind(past.last().copied(), phase)
}

/// Whether a view's primary is one of its members, if it has one.
fn has_its_primary(view: View) -> bool
    ensures { result ≡ has_its_primary view }
{
    let members = view.members;
    match view.term {
        Some(term) => members.contains(term.primary),
        None => true,
    }
}

/// Whether a chunk may have a view.
fn is_view_given(checkpoint: &Checkpoint, chunk: Handle, view: View) -> bool
    ensures { result ≡ is_view_given (plain_checkpoint checkpoint.now) chunk view }
{
    let version = view.stamp.version;
    if !is_given(checkpoint.next_handle, chunk.number()) {
        return false;
    }
    if version != 0 && !is_given(checkpoint.next_version, version) {
        return false;
    }
    view.stamp.epoch <= checkpoint.epoch && has_its_primary(view)
}

/// Whether each chunk may have its settled view.
pub fn are_given(checkpoint: &Checkpoint) -> bool
    ensures { result ≡ list_all (λ (s : AnySettledEntry). is_view_given (plain_checkpoint checkpoint.now) s.settled.handle s.settled.view) (plain_checkpoint checkpoint.now).settled }
{
    for entry in &checkpoint.settled {
        if !is_view_given(checkpoint, entry.settled.handle, entry.settled.view) {
            return false;
        }
    }
    true
}

/// The epoch of the upgrade that stands, also while it is rolled back.
fn upgrade_epoch(phase: Phase, epoch: u64) -> Option<u64>
    ensures { result ≡ upgrade_epoch phase epoch }
{
    match phase {
        Phase::Ordinary => None,
        Phase::Upgrade => Some(epoch),
        Phase::Rolling => Some(epoch.saturating_sub(1)),
    }
}

/// Whether a view was settled before the upgrade, and there is one.
fn is_prepared_before(upgrade: Option<u64>, view: &View) -> bool
    ensures { result ≡ is_prepared_before upgrade view.now }
{
    match upgrade {
        Some(upgrade) => view.stamp.epoch < upgrade,
        None => false,
    }
}

/// Whether a prepared view may be that of its chunk.
fn is_prepared(checkpoint: &Checkpoint, upgrade: Option<u64>, entry: &PreparedView) -> bool
    ensures { result ≡ (is_view_given (plain_checkpoint checkpoint.now) entry.now.settled.handle entry.now.settled.view && is_prepared_before upgrade entry.now.settled.view) }
{
    is_view_given(checkpoint, entry.settled.handle, entry.settled.view)
        && is_prepared_before(upgrade, &entry.settled.view)
}

/// Whether each prepared view may be that of its chunk.
pub fn are_prepared(checkpoint: &Checkpoint) -> bool
    ensures { result ≡ are_prepared (plain_checkpoint checkpoint.now) }
{
    let upgrade = upgrade_epoch(checkpoint.phase, checkpoint.epoch);
    for entry in &checkpoint.prepared {
        if !is_prepared(checkpoint, upgrade, entry) {
            return false;
        }
    }
    true
}

/// Whether there is an upgrade where there is something to take back.
pub fn has_upgrade(checkpoint: &Checkpoint) -> bool
    ensures { result ≡ has_upgrade (plain_checkpoint checkpoint.now) }
{
    upgrade_epoch(checkpoint.phase, checkpoint.epoch).is_some() || checkpoint.inverses.is_empty()
}

/// Whether a name was hidden twice: what it was hidden from looks hidden itself.
fn is_hidden_twice(alloc: Global, name: &Name) -> Result<bool, AllocError>
    ensures { IfOk result (λ twice. twice ≡ is_hidden_twice name.now) }
{
    match name.hidden_parts(alloc)? {
        Some(parts) => Ok(parts.old.is_hidden()),
        None => Ok(false),
    }
}

fn has_hidden_twice(alloc: Global, path: &Path) -> Result<bool, AllocError>
    ensures { IfOk result (λ twice. twice ≡ list_any is_hidden_twice path.now) }
{
    for name in path.elements() {
        if is_hidden_twice(alloc, name)? {
            return Ok(true);
        }
    }
    Ok(false)
}

/// Whether nothing in the tree of names is hidden twice.
pub fn are_hidden_once(alloc: Global, names: &HeldNames) -> Result<bool, AllocError>
    ensures { IfOk result (λ once. once ≡ are_hidden_once (fin.entries names.now.names.tree)) }
{
    let entries = names.entries(alloc)?;
    for entry in &entries {
        if has_hidden_twice(alloc, entry.path())? {
            return Ok(false);
        }
    }
    Ok(true)
}

impl Recorded {
    /// The settled chunks that no file has or had, ascending.
    pub fn unlisted(&self) -> Result<Vec<Handle>, AllocError>
        ensures { IfOk result (λ chunks. chunks.items ≡ unlisted (durable_of self.now)) }
    {
        let mut unlisted = Vec::new(self.alloc);
        for (chunk, lease) in self.leases.iter() {
            if is_settled(lease) && !self.is_listed(chunk) {
                unlisted.push(chunk)?;
            }
        }
        Ok(unlisted)
    }

    /// Gives a chunk up, with its room. It takes no memory.
    fn give_up(&mut self, chunk: Handle)
        ensures value { durable_of self.new ≡ record (durable_of self.old) { chunks = fin.remove (durable_of self.old).chunks chunk } }
        ensures gives { GivesUpRoom nat_cmp self.old.leases self.new.leases chunk }
    {
        let _lease = self.leases.remove(chunk);
    }

    /// Gives chunks up, with their room. It takes no memory.
    pub fn tidy(&mut self, chunks: &[Handle])
        ensures value { durable_of self.new ≡ record (durable_of self.old) { chunks = fold fin.remove (durable_of self.old).chunks chunks.now } }
        ensures gives { GivesUpEach self.old.leases self.new.leases chunks.now }
    {
        for chunk in chunks {
            self.give_up(*chunk);
        }
    }

    /// Whether a chunk is settled.
    pub fn is_settled(&self, chunk: Handle) -> bool
        ensures { result ≡ is_some (fin.get (durable_of self.now).chunks chunk) }
    {
        self.settled(chunk).is_some()
    }
}

impl Memory {
    /// Asks nothing for a chunk any more, and gives up its room. It takes no memory.
    fn ask_no_more(&mut self, chunk: Handle)
        ensures value { volatile_of self.new ≡ record (volatile_of self.old) { moving = fin.remove (volatile_of self.old).moving chunk } }
        ensures gives { GivesUpRoom nat_cmp self.old.moving self.new.moving chunk }
    {
        let _asked = self.moving.remove(chunk);
    }

    /// Of the new chunks these stay, and of those that got no place nothing is asked any more, and their room is given up; of
    /// those that a restart took out nothing is left. It takes no memory.
    pub fn keep_new(&mut self, placeless: &[Handle], awaiting: Vec<Handle>)
        ensures value { volatile_of self.new ≡ record (volatile_of self.old) { moving = fold fin.remove (volatile_of self.old).moving placeless.now; unplaced = awaiting.items; taken_out = [] } }
        ensures gives { GivesUpEach self.old.moving self.new.moving placeless.now }
    {
        for chunk in placeless {
            self.ask_no_more(*chunk);
        }
        self.unplaced = awaiting;
        self.taken_out.clear();
    }
}
