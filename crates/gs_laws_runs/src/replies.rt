//! What the master answers in a run to calls of the tree is what the plain machine of the run answers, with the command that it does then.

ghost use Rattle.gs_laws_runs.specs.replies.Answered.{CommandsAreOfRecords, RepliesAreAsPlain, SentAreAsPlain};
ghost use Rattle.gs_laws_chunks.specs.accounts.Running.{Setup};

use crate::plain::copies_were_told_to_be_such;
use gs_block::promises::configurations_have_sizes;
use gs_laws_chunks::{a_rollback_gives_back_what_was_settled, each_rollback_is_of_a_prepare};
use gs_laws_plain::calls_of_the_tree_do_what_they_answer;
use gs_laws_server::a_message_edits_a_replica_by_what_it_says;

/// In each run of a store, whatever disks of its master fail, each reply that the turn of a step says to a call of the tree is what the plain tree answers, whatever texts the chunks have, or a refusal by the store: to a call
/// that comes by the names of the plain view, and to a snapshot that has waited by those to which the records of the step lead that stand before its own; where its refusal isn't recorded, those up to some place. The records say the
/// command that the call is, under its number, where it is accepted, and no other edits for it; where it is refused none does. Or it is a reply that is kept, given once more to a call that comes again. A master of which a disk has failed records nothing, and replies to the call that comes alone: it refuses, or gives what
/// it keeps. So is each reply that is really sent; and then, if no disk had failed, the records of its turn stand, and the plain machine goes on at the step by them: its commands that edit no text are those that they say. Or such a
/// reply refuses the call that comes, since a disk fails at the turn, none having failed before, or since no master stands. And so of each step of the plain machine that goes by all records.
pub fn replies_are_the_plain_machines<D>()
    ensures replies { (x : Setup D) → RepliesAreAsPlain x }
    ensures sent { (x : Setup D) → SentAreAsPlain x }
    ensures commands { (x : Setup D) → CommandsAreOfRecords x }
{
    calls_of_the_tree_do_what_they_answer();
    configurations_have_sizes();
    a_message_edits_a_replica_by_what_it_says();
    each_rollback_is_of_a_prepare::<D>();
    a_rollback_gives_back_what_was_settled::<D>();
    copies_were_told_to_be_such::<D>();
}
