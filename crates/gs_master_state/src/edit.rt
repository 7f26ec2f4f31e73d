// What an edit of the names needs, and what it makes of all that is recorded, also so that it can be taken back.
ghost use Rattle.std.specs.Prelude.{[], ◌++◌, ◌+◌, ◌<◌, ◌∷◌, ◌≡◌, ◌≤◌, false, IfErr, IfOk, length, map, true, vec_capacity, vec_len};
ghost use Rattle.std.specs.Ordering.{nat_cmp};
ghost use Rattle.gs_edit.specs.Edits.{Applies};
ghost use Rattle.gs_master_record.specs.Plain as entries;
ghost use Rattle.gs_master_record.specs.Plain.{plain_edit, plain_inverse};
ghost use Rattle.gs_master_spec.specs.Applied.{after_if, chunk_of_edit, forgotten_by, may_edit, names_well, number_of_edit, view_for, with_answer, without_chunks};
ghost use Rattle.gs_master_state.specs.inner.Recorded.{durable_of, inverses_and, IsToldBack, KeepsRooms, RoomForEach, RoomToKeep, unfit};
ghost use Rattle.gs_master_state.specs.inner.Released.{GivesUpEach};
ghost use Rattle.gs_master_spec.specs.Replies.{answer_to, client_cmp};
ghost use Rattle.gs_master_state.specs.inner.TakingBack.{AreItemsBefore, AreNamesBefore, ArePlacesBefore, Enters, IsUndo, RoomForChunk, RoomForChunks, RoomForReply, with_chunk_before, with_chunks_before, with_leases_before, with_reply_before};
ghost use Rattle.gs_base_table.specs.Slots.{GivesUpRoom, HasRoom, KeepsRoom, live, set_live};

use crate::entry::enter_reply;
use crate::file::{hidden_path, is_visible, old_name, old_path};
use crate::held_names::HeldNames;
use crate::recorded::{Recorded, after_number, is_fresh};
use crate::undo::{ChunkBefore, EditBefore, NamesBefore, ReplyBefore, Undo};
use gs_base::{ClientId, Handle, Refusal, ReqId};
use gs_base_table::Table;
use gs_edit::{Edit, ListedInverse};
use gs_lease::View;
use gs_master_record::Phase;
use gs_master_spec::reply::KeptReply;
use gs_msg::Answer;
use std::alloc::{AllocError, Global};

/// Whether the paths of an edit are as calls may name them.
fn names_well(alloc: Global, edit: &Edit) -> Result<bool, AllocError>
    ensures { IfOk result (λ well. well ≡ names_well (plain_edit edit.now)) }
{
    match edit {
        Edit::Mkdirs(path)
        | Edit::Create(path)
        | Edit::Hide(path, _, _)
        | Edit::AddChunk(path, _)
        | Edit::Cow(path, _, _, _) => Ok(is_visible(path)),
        Edit::Rename(from, to) | Edit::Snapshot(from, to) => {
            Ok(is_visible(from) && is_visible(to))
        }
        Edit::Unhide(path) => match old_name(alloc, path)? {
            Some(name) => Ok(!name.is_hidden()),
            None => Ok(true),
        },
        Edit::Remove(_) | Edit::Forget(_) => Ok(true),
    }
}

/// The chunk that an edit puts into a file.
fn chunk_of(edit: &Edit) -> Option<Handle>
    ensures { result ≡ chunk_of_edit (plain_edit edit.now) }
{
    match edit {
        Edit::AddChunk(_, chunk) => Some(*chunk),
        Edit::Cow(_, _, _, new) => Some(*new),
        _ => None,
    }
}

/// The number of a deletion.
fn number_of(edit: &Edit) -> Option<u64>
    ensures { result ≡ number_of_edit (plain_edit edit.now) }
{
    match edit {
        Edit::Hide(_, _, number) => Some(*number),
        _ => None,
    }
}

/// The chunks that an edit forgets.
pub fn forgotten_by(edit: &Edit) -> &[Handle]
    ensures { result.now ≡ forgotten_by (plain_edit edit.now) }
{
    match edit {
        Edit::Forget(chunks) => chunks,
        _ => &[],
    }
}

/// The number of the next deletion behind an edit.
pub fn next_behind(next: u64, edit: &Edit) -> u64
    ensures { result ≡ after_if next (number_of_edit (plain_edit edit.now)) }
{
    match number_of(edit) {
        Some(number) => after_number(number),
        None => next,
    }
}

/// An edit that the names refuse doesn't fit them.
pub fn unfit(refusal: Refusal) -> Refusal
    ensures { result ≡ unfit refusal }
{
    match refusal {
        Refusal::Memory => Refusal::Memory,
        _ => Refusal::BadLine,
    }
}

/// The answer to an accepted edit, where its record tells it.
pub fn answer_to(
    alloc: Global,
    edit: &Edit,
    view: Option<View>,
    epoch: u64,
) -> Result<Option<Answer>, AllocError>
    ensures { IfOk result (λ answer. answer ≡ answer_to (plain_edit edit.now) view epoch) }
{
    match edit {
        Edit::Mkdirs(_) | Edit::Create(_) | Edit::Rename(_, _) | Edit::Snapshot(_, _) => {
            Ok(Some(Answer::Nothing))
        }
        Edit::Hide(path, moment, number) => {
            let hidden = hidden_path(alloc, path, *moment, *number)?;
            Ok(Some(Answer::Path(hidden)))
        }
        Edit::Unhide(path) => {
            let old = old_path(alloc, path)?;
            Ok(Some(Answer::Path(old)))
        }
        Edit::AddChunk(_, chunk) => match view {
            Some(view) => Ok(Some(Answer::Location {
                handle: *chunk,
                view,
                epoch,
            })),
            None => Ok(None),
        },
        Edit::Remove(_) | Edit::Cow(_, _, _, _) | Edit::Forget(_) => Ok(None),
    }
}

impl Recorded {
    /// The settled view of the chunk that an edit puts into a file.
    pub fn view_for(&self, edit: &Edit) -> Option<View>
        ensures { result ≡ view_for (durable_of self.now) (chunk_of_edit (plain_edit edit.now)) }
    {
        self.view(chunk_of(edit)?)
    }

    /// Whether an edit may be recorded, whatever the names say.
    pub fn may_edit(&self, edit: &Edit) -> Result<bool, AllocError>
        ensures { IfOk result (λ may. may ≡ may_edit (durable_of self.now) (plain_edit edit.now)) }
    {
        if self.phase == Phase::Rolling || !names_well(self.alloc, edit)? {
            return Ok(false);
        }
        if chunk_of(edit).is_some() && self.view_for(edit).is_none() {
            return Ok(false);
        }
        match number_of(edit) {
            Some(number) => Ok(is_fresh(self.next_hidden, number)),
            None => Ok(true),
        }
    }

    /// The answer to a request is kept, if its record tells one. There is room for its client.
    fn keep_answer(&mut self, by: ReqId, answer: Option<Answer>)
        requires { HasRoom client_cmp self.old.replies by.client }
        ensures value { durable_of self.new ≡ record (durable_of self.old) { replies = with_answer (durable_of self.old).replies by answer } }
        ensures inverses { self.new.inverses ≡ self.old.inverses }
    {
        let Some(answer) = answer else {
            return;
        };
        if self.is_later(by) {
            let number = by.number;
            self.replies.put(
                by.client,
                KeptReply {
                    number,
                    result: Ok(answer),
                },
            );
        }
    }

    /// A chunk is forgotten, with its room, and its prepared view kept. There is room for that.
    fn forget_chunk(&mut self, chunk: Handle)
        requires { RoomToKeep self.old.phase self.old.prepared chunk }
        ensures value { durable_of self.new ≡ without_chunks (durable_of self.old) (chunk ∷ []) }
        ensures gives { GivesUpRoom nat_cmp self.old.leases self.new.leases chunk }
        ensures replies { self.new.replies ≡ self.old.replies }
        ensures inverses { self.new.inverses ≡ self.old.inverses }
        ensures room { KeepsRoom nat_cmp self.old.prepared self.new.prepared }
    {
        self.keep_prepared(chunk);
        let _forgotten = self.leases.remove(chunk);
    }

    /// Chunks are forgotten, with their room, and their prepared views kept. There is room for those.
    fn forget_chunks(&mut self, chunks: &[Handle])
        requires { RoomForEach self.old.phase self.old.prepared chunks.now }
        ensures value { durable_of self.new ≡ without_chunks (durable_of self.old) chunks.now }
        ensures gives { GivesUpEach self.old.leases self.new.leases chunks.now }
        ensures replies { self.new.replies ≡ self.old.replies }
        ensures inverses { self.new.inverses ≡ self.old.inverses }
    {
        for chunk in chunks {
            self.forget_chunk(*chunk);
        }
    }

    /// What takes an edit back is kept, if it is told. There is room for it.
    fn keep_inverse(&mut self, inverse: Option<ListedInverse>)
        requires { vec_len self.old.inverses < vec_capacity self.old.inverses }
        ensures { durable_of self.new ≡ record (durable_of self.old) { inverses = inverses_and (durable_of self.old).inverses inverse } }
    {
        if let Some(inverse) = inverse {
            let _pushed = self.inverses.push(inverse);
        }
    }

    /// An edit of the names, with what takes it back while an upgrade stands. There is room for the reply, for what takes
    /// it back, and for the prepared views of the chunks that it forgets. It may want memory for the names.
    pub fn edit(
        &mut self,
        by: ReqId,
        edit: &Edit,
        inverse: Option<ListedInverse>,
    ) -> Result<(), Refusal>
        requires replies { HasRoom client_cmp self.old.replies by.client }
        requires inverses { vec_len self.old.inverses < vec_capacity self.old.inverses }
        requires prepared { RoomForEach self.old.phase self.old.prepared (forgotten_by (plain_edit edit.now)) }
        requires back { IsToldBack (durable_of self.old) (plain_edit edit.now) inverse }
        ensures { Enters (entries.Edited by (plain_edit edit.now)) result (durable_of self.old) (durable_of self.new) }
    {
        if !self.may_edit(edit)? {
            return Err(Refusal::BadLine);
        }
        let answer = answer_to(self.alloc, edit, self.view_for(edit), self.epoch)?;
        let next_hidden = next_behind(self.next_hidden, edit);
        let taken_back = match self.names.apply(edit) {
            Ok(inverse) => inverse,
            Err(refusal) => {
                drop(answer);
                drop(inverse);
                return Err(unfit(refusal));
            }
        };
        drop(taken_back);
        self.forget_chunks(forgotten_by(edit));
        self.next_hidden = next_hidden;
        self.keep_answer(by, answer);
        self.keep_inverse(inverse);
        Ok(())
    }
}

/// Makes an edit: in place where it can be taken back without memory, and else on a copy.
fn enter_names(names: &mut HeldNames, edit: &Edit) -> Result<NamesBefore, Refusal>
    ensures edit { Applies edit.now names.old.names result names.new.names }
    ensures back { IfOk result (λ before. AreNamesBefore before names.old.names names.new.names) }
    ensures places { IfOk result (λ before. ArePlacesBefore before names.old.places names.new.places) }
    ensures refused { IfErr result (λ _. names.new ≡ names.old) }
{
    names.enter(edit)
}

/// The answer to an edit is kept, if its record tells one and no later one is kept. There is room for its client.
fn enter_answer(
    replies: &mut Table<ClientId, KeptReply>,
    by: ReqId,
    answer: Option<Answer>,
) -> Option<ReplyBefore>
    requires { HasRoom client_cmp replies.old by.client }
    ensures value { live client_cmp replies.new ≡ with_answer (live client_cmp replies.old) by answer }
    ensures back { live client_cmp replies.old ≡ with_reply_before result (live client_cmp replies.new) }
    ensures room { RoomForReply replies.new result }
    ensures keeps { KeepsRoom client_cmp replies.old replies.new }
{
    enter_reply(replies, by, Ok(answer?))
}

/// Puts an item behind others. There is room for it.
pub fn push_within<T: Drop>(items: &mut Vec<T>, item: T)
    requires { vec_len items.old < vec_capacity items.old }
    ensures items { items.new.items ≡ items.old.items ++ item ∷ [] }
    ensures len { vec_len items.new ≡ vec_len items.old + 1 }
    ensures capacity { vec_capacity items.old ≤ vec_capacity items.new }
{
    let _pushed = items.push(item);
}

/// What takes an edit back is kept, if it is told. There is room for it. It answers whether it was.
fn enter_inverse(inverses: &mut Vec<ListedInverse>, inverse: Option<ListedInverse>) -> bool
    requires { vec_len inverses.old < vec_capacity inverses.old }
    ensures value { map plain_inverse inverses.new.items ≡ inverses_and (map plain_inverse inverses.old.items) inverse }
    ensures back { AreItemsBefore result (map plain_inverse inverses.old.items) (map plain_inverse inverses.new.items) }
{
    let Some(inverse) = inverse else {
        return false;
    };
    push_within(inverses, inverse);
    true
}

impl Recorded {
    /// A chunk is forgotten, and its prepared view kept. There is room for that. Its lease's room stays.
    fn enter_forgotten(&mut self, chunk: Handle) -> ChunkBefore
        requires { RoomToKeep self.old.phase self.old.prepared chunk }
        ensures value { durable_of self.new ≡ without_chunks (durable_of self.old) (chunk ∷ []) }
        ensures back { durable_of self.old ≡ with_chunk_before result (durable_of self.new) }
        ensures leases { live nat_cmp self.old.leases ≡ set_live result.chunk result.lease (live nat_cmp self.new.leases) }
        ensures room { RoomForChunk self.new result }
        ensures replies { self.new.replies ≡ self.old.replies }
        ensures inverses { self.new.inverses ≡ self.old.inverses }
        ensures keeps { KeepsRooms self.old self.new }
    {
        let prepared = self.prepared.get(chunk).copied();
        self.keep_prepared(chunk);
        let lease = self.leases.take(chunk);
        ChunkBefore {
            chunk,
            lease,
            prepared,
        }
    }

    /// Chunks are forgotten, and their prepared views kept. There is room for those, and for what stood before.
    fn enter_forgotten_each(&mut self, chunks: &[Handle], before: &mut Vec<ChunkBefore>)
        requires prepared { RoomForEach self.old.phase self.old.prepared chunks.now }
        requires empty { before.old.items ≡ [] }
        requires before { length chunks.now ≤ vec_capacity before.old }
        ensures value { durable_of self.new ≡ without_chunks (durable_of self.old) chunks.now }
        ensures back { durable_of self.old ≡ with_chunks_before before.new.items (durable_of self.new) }
        ensures leases { live nat_cmp self.old.leases ≡ with_leases_before before.new.items (live nat_cmp self.new.leases) }
        ensures room { RoomForChunks self.new before.new.items }
        ensures replies { self.new.replies ≡ self.old.replies }
        ensures inverses { self.new.inverses ≡ self.old.inverses }
        ensures keeps { KeepsRooms self.old self.new }
    {
        for chunk in chunks {
            let stood = self.enter_forgotten(*chunk);
            push_within(before, stood);
        }
    }

    /// An edit of the names, with what takes it back while an upgrade stands. There is room for the reply, for what takes it
    /// back, and for the prepared views of the chunks that it forgets. It may want memory for the names, and for what stood
    /// before.
    pub fn enter_edit(
        &mut self,
        by: ReqId,
        edit: &Edit,
        inverse: &mut Option<ListedInverse>,
    ) -> Result<Undo, Refusal>
        requires replies { HasRoom client_cmp self.old.replies by.client }
        requires inverses { vec_len self.old.inverses < vec_capacity self.old.inverses }
        requires prepared { RoomForEach self.old.phase self.old.prepared (forgotten_by (plain_edit edit.now)) }
        requires back { IsToldBack (durable_of self.old) (plain_edit edit.now) inverse.old }
        ensures applied { Enters (entries.Edited by (plain_edit edit.now)) result (durable_of self.old) (durable_of self.new) }
        ensures back { IfOk result (λ undo. IsUndo self.old self.new undo) }
        ensures leases { IfErr result (λ _. self.new.leases ≡ self.old.leases) }
        ensures keeps { IfErr result (λ _. KeepsRooms self.old self.new) }
    {
        if !self.may_edit(edit)? {
            return Err(Refusal::BadLine);
        }
        let answer = answer_to(self.alloc, edit, self.view_for(edit), self.epoch)?;
        let next_hidden = self.next_hidden;
        let chunks = forgotten_by(edit);
        let mut forgotten = Vec::with_capacity(self.alloc, chunks.len())?;
        let names = match enter_names(&mut self.names, edit) {
            Ok(before) => before,
            Err(refusal) => {
                drop(answer);
                return Err(unfit(refusal));
            }
        };
        self.enter_forgotten_each(chunks, &mut forgotten);
        self.next_hidden = next_behind(next_hidden, edit);
        let reply = enter_answer(&mut self.replies, by, answer);
        let keeps_inverse = enter_inverse(&mut self.inverses, inverse.take());
        Ok(Undo::Edit(EditBefore {
            names,
            forgotten,
            reply,
            next_hidden,
            keeps_inverse,
        }))
    }
}
