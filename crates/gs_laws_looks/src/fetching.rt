//! For which request a part of a chunk is given that a client takes, and when.

ghost use Rattle.gs_laws_chunks.specs.accounts.Running.{Setup};
ghost use Rattle.gs_laws_looks.specs.fetching.Fetched.{PartsAreGiven};

use gs_block::promises::configurations_have_sizes;
use gs_laws_chunks::reads_are_legal;

/// A part of a chunk that a client takes for what it has asked was given for that very request, to a message that asks for just what this client asked for, at one event since: whatever messages come, how often, and in which order, and
/// whatever disks fail by themselves. It is said of stores as other laws speak of them, in which different blocks that servers have have different digests.
fn a_part_is_given_for_its_request<D>()
    ensures { (x : Setup D) → PartsAreGiven x }
{
    configurations_have_sizes();
    reads_are_legal::<D>();
}
