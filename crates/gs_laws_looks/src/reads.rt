//! What a client reads of a file behind an accepted rollback is what it read behind its prepare, as it gets it.

ghost use Rattle.gs_base.specs.declared.config.Config.{Config};
ghost use Rattle.gs_laws_looks.specs.reads.Read.{ReadsComeBack};
ghost use Rattle.std.specs.Prelude.{List, ℕ};

use gs_block::promises::configurations_have_sizes;
use gs_laws_chunks::{
    a_rollback_gives_back_names_and_bytes, a_rollback_gives_back_what_was_settled,
    epochs_never_fall, reads_are_legal,
};
use gs_laws_server::a_message_edits_a_replica_by_what_it_says;

/// A store has begun over disks that said nothing, and all that is asked is within its types. A client, the only one, has the answer to its commit of a prepare, and reads bytes of a file, or the digest of a block of it; later it has the answer to its commit of a
/// rollback, in the next epoch, and reads the same of the file again. It gets the same bytes, whatever has happened between the first reading and the second commit, damage, losses and restarts among it, whatever messages come, how often, and in which order, and whatever
/// disks fail: where neither read is refused, and different blocks that servers have on the way have different digests. Between a commit and the end of its reading it asks nothing of the master but look-ups, and the master isn't started again.
pub fn what_is_read_behind_a_rollback_is_what_was_read_behind_its_prepare<D>()
    ensures { (seen : D → List ℕ) (failures : D → ℕ) (config : Config) (clients : ℕ) (disks : D × D) → ReadsComeBack seen failures config clients disks }
{
    configurations_have_sizes();
    a_message_edits_a_replica_by_what_it_says();
    reads_are_legal::<D>();
    epochs_never_fall::<D>();
    a_rollback_gives_back_names_and_bytes::<D>();
    a_rollback_gives_back_what_was_settled::<D>();
}
