//! What is read of a chunk that nobody leads is what was settled, also where views of it are settled between, as when a server reports that it lost its replica.
//! It is said of what the nodes of a store answer, over each run, whatever disks of the master fail.

ghost use Rattle.gs_laws_looks.specs.leaders.Unled.{ReadsAreOfUnled, UnledReadsGoBack};
ghost use Rattle.gs_laws_chunks.specs.accounts.Running.{Setup};

use gs_block::promises::configurations_have_sizes;
use gs_laws_chunks::{
    a_rollback_gives_back_what_was_settled, an_accepted_rollback_gives_the_names_back,
    no_rollback_is_done_unnamed,
};
use gs_laws_server::a_message_edits_a_replica_by_what_it_says;

/// From a world in which a file has a chunk, or had it, and no rollback goes on, as long as no epoch begins and nobody leads a view of the chunk that is settled, whatever comes between: a look-up of it, and behind that a read
/// of a member of the view that was told, give the part that was asked for of the text that was settled in the first world, whatever views of it have been settled since. Nobody leads a chunk right behind a prepare, or right
/// behind its rollback; so what is read so of a place of a file at both is the same.
fn reads_of_a_chunk_that_nobody_leads_are_of_what_was_settled<D>()
    ensures settled { (x : Setup D) → ReadsAreOfUnled x }
    ensures back { (x : Setup D) → UnledReadsGoBack x }
{
    configurations_have_sizes();
    a_message_edits_a_replica_by_what_it_says();
    an_accepted_rollback_gives_the_names_back::<D>();
    a_rollback_gives_back_what_was_settled::<D>();
    no_rollback_is_done_unnamed::<D>();
}
