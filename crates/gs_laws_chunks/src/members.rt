//! What an accepted rollback leaves: each chunk that stood in a file at the prepare has members with its bytes of then, as long as no harm comes to these.
//! It is said over each run of a store, whatever disks of the master fail.

ghost use Rattle.gs_laws_chunks.specs.accounts.Running.{Setup};
ghost use Rattle.gs_laws_chunks.specs.members.Bytes.{RollbackLeavesBytes, RollbackLeavesTold};
ghost use Rattle.gs_laws_chunks.specs.members.Leaving.{NamersHaveTheText, RollbackLeavesMembers};

use crate::no_rollback_is_done_unnamed;
use gs_block::promises::configurations_have_sizes;
use gs_laws_server::a_message_edits_a_replica_by_what_it_says;

/// After an accepted rollback each chunk that stood in a file at the prepare has a member, and its view has no primary.
/// Between the two each member has said that it learned of the rollback, and has named the chunk. It did so in a message that the commit counts.
/// Right after the event that sent this message the member had a live replica with just the text of the prepare. Each block had its digest, and the promise was the first stamp of the rollback's epoch.
/// It has that text still in each world after the commit, whatever happens, with two exceptions. Its replica was lost, damaged or dropped since, or it has made a greater promise.
/// A loss, a damage or a drop that the server refuses is none.
/// The same holds of each server that has learned of the rollback and would name the chunk, if it had the chunk at the prepare or was recorded as a holder since.
pub fn a_rollback_leaves_members_with_the_bytes<D>()
    ensures members { (x : Setup D) → RollbackLeavesMembers x }
    ensures namers { (x : Setup D) → NamersHaveTheText x }
{
    configurations_have_sizes();
    a_message_edits_a_replica_by_what_it_says();
    no_rollback_is_done_unnamed::<D>();
}

/// The same is said here of what the nodes alone have, where digests tell blocks apart. It is said by what the master keeps, and by what its disks tell, also where disks of it have failed.
/// After a rollback each chunk that stood in a file at the prepare has a member. Between the two each member has named it, in a message that the commit counts.
/// Right after the event that sent this message the member had a live replica, each block with its digest. Its bytes were those that each sound replica of a member had right after the prepare.
/// It has these bytes still in each world after the commit, with two exceptions. Its replica was lost, damaged or dropped since, or it has made a greater promise.
pub fn a_rollback_leaves_members_with_the_bytes_of_then<D>()
    ensures kept { (x : Setup D) → RollbackLeavesBytes x }
    ensures told { (x : Setup D) → RollbackLeavesTold x }
{
    configurations_have_sizes();
    a_message_edits_a_replica_by_what_it_says();
    no_rollback_is_done_unnamed::<D>();
}
