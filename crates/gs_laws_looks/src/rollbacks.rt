//! What is looked up right behind an accepted rollback is what it was right behind its prepare: the names that a directory lists, and what is read of a place of a file, its bytes, its length, or the digest of a block.
//! It is said of what the nodes of a store answer, over each run, whatever disks of the master fail.

ghost use Rattle.gs_laws_looks.specs.rollbacks.Looking.{ListsAreOfNames, ListsGoBack, ReadsAreOfSettled, ReadsGoBack};
ghost use Rattle.gs_laws_chunks.specs.accounts.Running.{Setup};

use gs_block::promises::configurations_have_sizes;
use gs_laws_chunks::{
    a_rollback_gives_back_what_was_settled, an_accepted_rollback_gives_the_names_back,
    no_rollback_is_done_unnamed,
};
use gs_laws_server::a_message_edits_a_replica_by_what_it_says;

/// A list that the master answers to a new call is that of the names that the records tell then, whatever disks of it have failed. So as long as the names are those that stood right behind a prepare, or right behind
/// its rollback, what is listed there is the same at both.
fn lists_behind_a_rollback_are_those_behind_its_prepare<D>()
    ensures names { (x : Setup D) → ListsAreOfNames x }
    ensures back { (x : Setup D) → ListsGoBack x }
{
    an_accepted_rollback_gives_the_names_back::<D>();
}

/// What a member of a chunk's settled view gives is the part that was asked for of the text that was settled when the chunk was looked up, as long as that view is the settled one and nobody leads it: whatever comes between
/// the look-up and the read, calls, messages of any age, losses, damage and restarts among it, and also while another view is proposed. No chunk is led right behind a prepare or right behind its rollback; so what
/// is read of a place of a file at both is the same.
fn reads_behind_a_rollback_are_those_behind_its_prepare<D>()
    ensures settled { (x : Setup D) → ReadsAreOfSettled x }
    ensures back { (x : Setup D) → ReadsGoBack x }
{
    configurations_have_sizes();
    a_message_edits_a_replica_by_what_it_says();
    an_accepted_rollback_gives_the_names_back::<D>();
    a_rollback_gives_back_what_was_settled::<D>();
    no_rollback_is_done_unnamed::<D>();
}
