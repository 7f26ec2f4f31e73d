// What the records of a journal come to in memory: what a checkpoint tells, and each record behind it.
ghost use Rattle.std.specs.Prelude.{◌≡◌, IfOk, is_some, map};
ghost use Rattle.std.specs.FinMap as fin;
ghost use Rattle.std.specs.Ordering.{nat_cmp};
ghost use Rattle.gs_master_record.specs.Plain as entries;
ghost use Rattle.gs_master_record.specs.Plain.{plain, plain_checkpoint, plain_edit};
ghost use Rattle.gs_master_spec.specs.Applied.{is_whole_entry, records_behind};
ghost use Rattle.gs_master_state.specs.Checkpoints.{all_told, are_sound, counts_in, have_views, lease_of, Reads, TellsNames, told_chunks, told_prepared, told_with};
ghost use Rattle.gs_master_spec.specs.Durable.{prepared_view};
ghost use Rattle.gs_master_state.specs.inner.Recorded.{chunks_of, durable_of};
ghost use Rattle.gs_master_state.specs.inner.Replaying.{Replays};
ghost use Rattle.gs_master_spec.specs.Replies.{client_cmp};
ghost use Rattle.gs_master_state.specs.inner.TakingBack.{Enters};
ghost use Rattle.gs_master_state.specs.inner.ToldNumbers.{ReadsWhole};
ghost use Rattle.gs_master_spec.specs.Undoing.{all_undone};
ghost use Rattle.gs_master_spec.specs.Whole.{are_all_prepared, are_settled, can_go_back, names_in};
ghost use Rattle.gs_base_table.specs.Slots.{live};

use crate::answer::told_replies;
use crate::checkpoint::{are_ends, are_given, are_hidden_once, are_prepared, has_upgrade};
use crate::held_names::HeldNames;
use crate::inverse::copied_inverses;
use crate::recorded::Recorded;
use gs_base::{ClientId, Handle, Refusal, ReqId};
use gs_base_table::Table;
use gs_edit::{Edit, Names};
use gs_lease::{Lease, Told, restore};
use gs_lease_table::LeaseTable;
use gs_master_record::{Checkpoint, Entry, Phase, PreparedView, Reference, SettledEntry};
use gs_master_spec::asking::Prepared;
use gs_master_spec::reply::KeptReply;
use gs_refs::Refs;
use gs_tree::Tree;
use std::alloc::{AllocError, Global};

/// The counts that are told. Of a chunk that is told twice the first count stands.
fn told_counts(alloc: Global, references: &[Reference]) -> Result<Refs, AllocError>
    ensures { IfOk result (λ refs. refs ≡ counts_in references.now) }
{
    let mut counts = Vec::new(alloc);
    for reference in references {
        counts.push((reference.handle, reference.count))?;
    }
    Refs::of(alloc, &counts)
}

/// Whether each count is the one that stands.
fn are_told(refs: &Refs, references: &[Reference]) -> bool
    ensures { result ≡ all_told refs.now references.now }
{
    for reference in references {
        if refs.count(reference.handle) != Some(reference.count) {
            return false;
        }
    }
    true
}

/// The names that are told. BadLine where the entries aren't those of a tree, or where a count isn't how often its chunk stands
/// in the files, or a chunk of a file isn't counted.
pub fn told_names(alloc: Global, checkpoint: &Checkpoint) -> Result<Names, Refusal>
    ensures { TellsNames (plain_checkpoint checkpoint.now) result }
{
    let tree = match Tree::of(alloc, &checkpoint.tree) {
        Ok(tree) => tree,
        Err(refusal) => return Err(refusal),
    };
    let refs = told_counts(alloc, &checkpoint.references)?;
    if !are_told(&refs, &checkpoint.references) {
        return Err(Refusal::BadLine);
    }
    Names::of(alloc, tree, refs)
}

/// The lease of a chunk as it is told. The stamp of a view that is proposed isn't told: the chunk's own stands for it.
fn lease_of(entry: &SettledEntry) -> Lease
    ensures { result ≡ lease_of entry.now }
{
    let view = entry.settled.view;
    if entry.is_moving {
        restore(view, Some(view.stamp))
    } else {
        restore(view, None)
    }
}

/// The chunks that are told. Of a chunk that is told twice the first view stands.
pub fn told_leases(alloc: Global, entries: &[SettledEntry]) -> Result<LeaseTable, AllocError>
    ensures { IfOk result (λ leases. chunks_of (live nat_cmp leases) ≡ told_chunks entries.now) }
{
    let mut leases = LeaseTable::new(alloc);
    let mut left = entries.len();
    while left > 0 {
        left -= 1;
        let entry = &entries[left];
        let handle = entry.settled.handle;
        leases.reserve(handle)?;
        leases.put(handle, lease_of(entry));
    }
    Ok(leases)
}

/// The prepared views that are told.
pub fn told_prepared(
    alloc: Global,
    entries: &[PreparedView],
) -> Result<Table<Handle, Prepared>, AllocError>
    ensures { IfOk result (λ prepared. live nat_cmp prepared ≡ told_prepared entries.now) }
{
    let mut prepared = Table::new(alloc);
    let mut left = entries.len();
    while left > 0 {
        left -= 1;
        let entry = &entries[left];
        let handle = entry.settled.handle;
        let view = entry.settled.view;
        let holders = entry.holders;
        prepared.reserve(handle)?;
        prepared.put(handle, Prepared { view, holders });
    }
    Ok(prepared)
}

/// Whether a chunk has a settled view.
#[tactic(auto, using(crate::proofs::Recording::get_chunks))]
fn has_view(leases: &LeaseTable, chunk: Handle) -> bool
    ensures { result ≡ is_some (fin.get (chunks_of (live nat_cmp leases.now)) chunk) }
{
    match leases.get(chunk) {
        Some(lease) => Told::of(lease).settled.is_some(),
        None => false,
    }
}

fn have_views(leases: &LeaseTable, references: &[Reference]) -> bool
    ensures { result ≡ have_views (chunks_of (live nat_cmp leases.now)) references.now }
{
    for reference in references {
        if !has_view(leases, reference.handle) {
            return false;
        }
    }
    true
}

/// Whether each counted chunk is settled, by the chunks that the checkpoint tells.
pub fn are_settled(checkpoint: &Checkpoint, leases: &LeaseTable) -> bool
    requires { chunks_of (live nat_cmp leases.now) ≡ told_chunks (plain_checkpoint checkpoint.now).settled }
    ensures { result ≡ are_settled (plain_checkpoint checkpoint.now).references (plain_checkpoint checkpoint.now).settled }
{
    have_views(leases, &checkpoint.references)
}

impl Recorded {
    /// Whether each of these chunks has a prepared view.
    fn are_all_prepared(&self, refs: &Refs) -> Result<bool, AllocError>
        ensures { IfOk result (λ all. all ≡ are_all_prepared (prepared_view (durable_of self.now)) (fin.entries refs.now)) }
    {
        let entries = refs.entries(self.alloc)?;
        for entry in &entries {
            let (chunk, _) = *entry;
            if self.prepared_view(chunk).is_none() {
                return Ok(false);
            }
        }
        Ok(true)
    }

    /// Whether a rollback could be done: the inverses lead back, nothing is hidden twice, now or then, and while an upgrade
    /// stands each chunk of the names then has a prepared view.
    pub fn can_go_back(&self) -> Result<bool, AllocError>
        ensures { IfOk result (λ can. can ≡ can_go_back (durable_of self.now) (all_undone (durable_of self.now).inverses (durable_of self.now).names)) }
    {
        let before = match self.names_back() {
            Ok(before) => HeldNames::new(self.alloc, before),
            Err(Refusal::Memory) => return Err(AllocError),
            Err(_) => return Ok(false),
        };
        if !are_hidden_once(self.alloc, &self.names)? {
            return Ok(false);
        }
        if !are_hidden_once(self.alloc, &before)? {
            return Ok(false);
        }
        if self.phase == Phase::Ordinary {
            return Ok(true);
        }
        self.are_all_prepared(before.refs())
    }
}

/// Whether the views, the ends of the epochs and the inverses of a checkpoint are about one state.
fn are_sound(checkpoint: &Checkpoint) -> bool
    ensures { result ≡ are_sound (plain_checkpoint checkpoint.now) }
{
    are_given(checkpoint)
        && are_ends(&checkpoint.ends, checkpoint.epoch, checkpoint.phase)
        && are_prepared(checkpoint)
        && has_upgrade(checkpoint)
}

/// What a checkpoint tells, once its names and its chunks are read.
fn gathered(
    alloc: Global,
    checkpoint: &Checkpoint,
    names: Names,
    leases: LeaseTable,
    replies: Table<ClientId, KeptReply>,
) -> Result<Recorded, AllocError>
    requires names { names ≡ names_in (plain_checkpoint checkpoint.now) }
    requires leases { chunks_of (live nat_cmp leases) ≡ told_chunks (plain_checkpoint checkpoint.now).settled }
    ensures { IfOk result (λ recorded. durable_of recorded ≡ told_with (plain_checkpoint checkpoint.now) (live client_cmp replies)) }
{
    let ends = Vec::from_slice(alloc, &checkpoint.ends)?;
    let inverses = copied_inverses(alloc, &checkpoint.inverses)?;
    let prepared = told_prepared(alloc, &checkpoint.prepared)?;
    Ok(Recorded {
        alloc,
        names: HeldNames::new(alloc, names),
        leases,
        next_handle: checkpoint.next_handle,
        next_version: checkpoint.next_version,
        next_hidden: checkpoint.next_hidden,
        epoch: checkpoint.epoch,
        phase: checkpoint.phase,
        ends,
        replies,
        inverses,
        prepared,
    })
}

impl Recorded {
    /// What a checkpoint tells, with the replies, which are read from their texts before. BadLine where its lists aren't about
    /// one state, or where a rollback couldn't be done.
    pub fn told(
        alloc: Global,
        checkpoint: &Checkpoint,
        replies: Table<ClientId, KeptReply>,
    ) -> Result<Recorded, Refusal>
        ensures { Reads (plain_checkpoint checkpoint.now) (live client_cmp replies) result }
    {
        if !are_sound(checkpoint) {
            return Err(Refusal::BadLine);
        }
        let names = match told_names(alloc, checkpoint) {
            Ok(names) => names,
            Err(refusal) => return Err(refusal),
        };
        let leases = told_leases(alloc, &checkpoint.settled)?;
        if !are_settled(checkpoint, &leases) {
            return Err(Refusal::BadLine);
        }
        let recorded = gathered(alloc, checkpoint, names, leases, replies)?;
        if !recorded.can_go_back()? {
            return Err(Refusal::BadLine);
        }
        Ok(recorded)
    }

    /// What a checkpoint tells. BadLine where its lists aren't about one state, where a reply's text is that of no answer, or
    /// where a rollback couldn't be done.
    pub fn told_whole(alloc: Global, checkpoint: &Checkpoint) -> Result<Recorded, Refusal>
        ensures { ReadsWhole (plain_checkpoint checkpoint.now) result }
    {
        match told_replies(alloc, &checkpoint.replies)? {
            Some(replies) => Recorded::told(alloc, checkpoint, replies),
            None => Err(Refusal::BadLine),
        }
    }
}

/// Whether a record is a checkpoint.
fn is_whole(entry: &Entry) -> bool
    ensures { result ≡ is_whole_entry (plain entry.now) }
{
    matches!(entry, Entry::Checkpoint(_))
}

/// How many of these records stand behind the last checkpoint among them, or how many there are.
pub fn records_behind(entries: &[Entry]) -> u64
    ensures { result ≡ records_behind (map plain entries.now) }
{
    let mut behind = 0;
    for entry in entries {
        behind = if is_whole(entry) { 0 } else { behind + 1 };
    }
    behind
}

impl Recorded {
    /// An edit is applied, and not taken back any more.
    fn replay_edit(&mut self, by: ReqId, edit: &Edit) -> Result<(), Refusal>
        ensures { Enters (entries.Edited by (plain_edit edit.now)) result (durable_of self.old) (durable_of self.new) }
    {
        let inverse = self.inverse_list(edit)?;
        self.grow_edit(by, edit)?;
        self.edit(by, edit, inverse)
    }

    /// A checkpoint takes the place of all.
    fn replay_checkpoint(&mut self, checkpoint: &Checkpoint) -> Result<(), Refusal>
        ensures { Enters (entries.Whole (plain_checkpoint checkpoint.now)) result (durable_of self.old) (durable_of self.new) }
    {
        match Recorded::told_whole(self.alloc, checkpoint) {
            Ok(told) => {
                *self = told;
                Ok(())
            },
            Err(refusal) => Err(refusal),
        }
    }

    /// A record is applied, and not taken back any more. `BadLine` where it doesn't fit what it meets.
    fn replay(&mut self, entry: &Entry) -> Result<(), Refusal>
        ensures { Enters (plain entry.now) result (durable_of self.old) (durable_of self.new) }
    {
        match entry {
            Entry::Edit { by, edit } => self.replay_edit(*by, edit),
            Entry::Checkpoint(checkpoint) => self.replay_checkpoint(checkpoint),
            _ => {
                drop(self.enter(entry, None, None)?);
                Ok(())
            },
        }
    }

    /// What the records of a journal come to. `BadLine` exactly where one of them doesn't fit what it meets, memory aside.
    pub fn replayed(alloc: Global, entries: &[Entry]) -> Result<Recorded, Refusal>
        ensures { Replays (map plain entries.now) result }
    {
        let mut recorded = Recorded::new(alloc);
        for entry in entries {
            recorded.replay(entry)?;
        }
        Ok(recorded)
    }
}
