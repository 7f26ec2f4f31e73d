// Which chunks each server has, which have a primary, and which have so many members.
ghost use Rattle.std.specs.Prelude.{[], ◌≡◌, ◌<◌, IfOk, IfSome, OnOk, Some, length, slice_index_or, true};
ghost use Rattle.std.specs.FinMap as fin;
ghost use Rattle.std.specs.Ordering.{nat_cmp};
ghost use Rattle.gs_base.specs.Members.{has_bit};
ghost use Rattle.gs_base_table.specs.Slots.{live};
ghost use Rattle.gs_lease_table.specs.Groups.{AreBitsOf, AreEmpty, ChangesBits, Enters, Exchanges, changed};

use crate::tally::{Brief, stays};
use gs_base::Handle;
use gs_base_table::Table;
use std::alloc::{AllocError, Global};

/// The group of the chunks that have a primary. Those of the servers stand before it, by their numbers.
pub(crate) const PRIMARIES: usize = 16;
/// The group of the chunks without a member. Those of one, two and more members follow.
pub(crate) const MEMBERLESS: usize = 17;
/// How many groups there are.
const GROUPS: usize = 34;

/// Chunks by groups. There are all groups, or none where memory was wanting for one.
#[derive(Drop)]
pub(crate) struct Groups {
    pub(crate) sets: Vec<Table<Handle, bool>>,
}

/// Groups with one more, where a chunk is in it. A group is a bit of a number.
fn entered(groups: u64, group: usize, is: bool) -> u64
    requires { group < 64 }
    ensures { Enters group is groups result }
{
    if is { groups | 1 << group } else { groups }
}

/// Whether a group is one of these.
fn has(groups: u64, group: usize) -> bool
    requires { group < 64 }
    ensures { result ≡ has_bit groups group }
{
    groups >> group & 1 == 1
}

/// The groups that a chunk is in.
fn groups_of(brief: &Brief) -> u64
    ensures { AreBitsOf (Some brief.now) result }
{
    let groups = entered(brief.members.bits() as u64, PRIMARIES, brief.is_leased);
    if 16 < brief.many {
        return groups;
    }
    entered(groups, MEMBERLESS + brief.many, true)
}

/// The same of a chunk that is perhaps there.
fn told_groups(brief: &Option<Brief>) -> u64
    ensures { AreBitsOf brief.now result }
{
    match brief {
        Some(brief) => groups_of(brief),
        None => 0,
    }
}

/// Puts a chunk into a set.
fn enter(set: &mut Table<Handle, bool>, chunk: Handle) -> Result<(), AllocError>
    ensures { OnOk result (live nat_cmp set.new ≡ fin.insert (live nat_cmp set.old) chunk true) }
{
    set.reserve(chunk)?;
    set.put(chunk, true);
    Ok(())
}

/// Takes a chunk out of a set, with its room.
fn leave(set: &mut Table<Handle, bool>, chunk: Handle)
    ensures { live nat_cmp set.new ≡ fin.remove (live nat_cmp set.old) chunk }
{
    let _entered = set.remove(chunk);
}

/// Puts a chunk into a set where it is to be and wasn't, and takes it out where it was and isn't to be.
fn change(
    set: &mut Table<Handle, bool>,
    chunk: Handle,
    was: bool,
    is: bool,
) -> Result<(), AllocError>
    ensures { OnOk result (live nat_cmp set.new ≡ changed was is chunk (live nat_cmp set.old)) }
{
    if was == is {
        return Ok(());
    }
    if is {
        return enter(set, chunk);
    }
    leave(set, chunk);
    Ok(())
}

/// All groups, without a chunk.
fn empty_sets(alloc: Global) -> Result<Vec<Table<Handle, bool>>, AllocError>
    ensures { IfOk result (λ sets. AreEmpty sets.items) }
{
    let mut sets = Vec::new(alloc);
    for _group in 0..GROUPS {
        sets.push(Table::new(alloc))?;
    }
    Ok(sets)
}

impl Groups {
    /// Those of no chunk.
    pub(crate) fn new(alloc: Global) -> Groups
        ensures { AreEmpty result.sets.items }
    {
        match empty_sets(alloc) {
            Ok(sets) => Groups { sets },
            Err(_) => Groups {
                sets: Vec::new(alloc),
            },
        }
    }

    /// The chunks of a group, if it is kept.
    pub(crate) fn get(&self, group: usize) -> Option<&Table<Handle, bool>>
        ensures { IfSome result (λ chunks. (group < length self.now.sets.items) × (chunks.now ≡ slice_index_or self.now.sets.items group [])) }
    {
        if group < self.sets.len() {
            Some(&self.sets[group])
        } else {
            None
        }
    }

    /// Changes each group in which a chunk was or is to be, but not in both. Where memory is wanting some are perhaps changed.
    fn change_each(&mut self, chunk: Handle, was: u64, is: u64) -> Result<(), AllocError>
        requires { length self.old.sets.items ≡ 34 }
        ensures { OnOk result (ChangesBits chunk was is self.old.sets.items self.new.sets.items) }
    {
        for group in 0..GROUPS {
            change(
                &mut self.sets[group],
                chunk,
                has(was, group),
                has(is, group),
            )?;
        }
        Ok(())
    }

    /// A chunk is in its groups of now and no more in those of before. Where memory is wanting no group is kept any more.
    pub(crate) fn exchange(&mut self, chunk: Handle, before: &Option<Brief>, after: &Option<Brief>)
        ensures { Exchanges chunk before.now after.now self.old.sets.items self.new.sets.items }
    {
        if stays(before, after) {
            return;
        }
        let was = told_groups(before);
        let is = told_groups(after);
        if self.sets.len() != GROUPS || self.change_each(chunk, was, is).is_err() {
            self.sets.clear();
        }
    }
}
