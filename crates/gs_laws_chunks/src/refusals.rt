//! What becomes, over runs of a store, of an edit that a chunkserver has refused. If no step before has numbered it, it is settled nowhere.

ghost use Rattle.gs_laws_chunks.specs.accounts.Running.{Setup};
ghost use Rattle.gs_laws_chunks.specs.refusals.Refused.{RefusedAreNumberedNowhere, RefusedStandNowhere, ToldAreNumberedNowhere, ToldStandNowhere};

use crate::accounts::each_chunk_of_a_store_is_a_run_of_its_machine;
use gs_laws_server::{a_refused_edit_is_never_numbered, refusals_are_told_where_edits_are_refused};

/// An edit that a chunkserver has refused is numbered at no later step of a run, unless it was refused as older than another one of its client.
/// That server doesn't number it, and no other is asked to. If no step before has numbered it either, no list of any chunk has it, then or later. So it is never settled.
/// Messages may come in any order and any number of times, nodes may restart, replicas may be lost or damaged, and disks of the master may fail.
fn a_refused_edit_is_settled_nowhere<D>()
    ensures numbered { (x : Setup D) → RefusedAreNumberedNowhere x }
    ensures settled { (x : Setup D) → RefusedStandNowhere x }
{
    a_refused_edit_is_never_numbered();
    each_chunk_of_a_store_is_a_run_of_its_machine::<D>();
}

/// The same holds of each edit of which a client was told that it is refused, and not as older than another one.
/// It is numbered at no later step. If no step before has numbered it, it stands in no list, then or later.
pub fn an_edit_that_was_told_refused_is_settled_nowhere<D>()
    ensures numbered { (x : Setup D) → ToldAreNumberedNowhere x }
    ensures settled { (x : Setup D) → ToldStandNowhere x }
{
    a_refused_edit_is_never_numbered();
    refusals_are_told_where_edits_are_refused();
    each_chunk_of_a_store_is_a_run_of_its_machine::<D>();
}
