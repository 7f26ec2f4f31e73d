//! What a client lists behind an accepted rollback is what it listed behind its prepare, as it gets it.

ghost use Rattle.gs_base.specs.declared.config.Config.{Config};
ghost use Rattle.gs_laws_looks.specs.lists.Listed.{EpochsAreNumbers, ListsComeBack};
ghost use Rattle.std.specs.Prelude.{List, ℕ};

use gs_block::promises::configurations_have_sizes;
use gs_laws_chunks::{a_rollback_gives_back_names_and_bytes, epochs_never_fall};

/// A client has the answer to its commit of a prepare, and lists a path; later it has the answer to its commit of a rollback, in the next epoch, and lists the path again. It gets the same, whatever has happened between, whatever messages come, how often,
/// and in which order, and whatever disks fail. The epochs tell that the rollback is of that prepare: one is begun by each prepare, each end of an upgrade, and each rollback that begins.
pub fn what_is_listed_behind_a_rollback_is_what_was_listed_behind_its_prepare<D>()
    ensures { (seen : D → List ℕ) (failures : D → ℕ) (config : Config) (clients : ℕ) (disks : D × D) → ListsComeBack seen failures config clients disks }
{
    configurations_have_sizes();
    epochs_never_fall::<D>();
    a_rollback_gives_back_names_and_bytes::<D>();
}

/// An epoch that a client has as the answer to its commit of a prepare, or of a rollback, is a number of 64 bits.
pub fn epochs_that_are_answered_are_numbers<D>()
    ensures { (seen : D → List ℕ) (failures : D → ℕ) (config : Config) (clients : ℕ) (disks : D × D) → EpochsAreNumbers seen failures config clients disks }
{
    configurations_have_sizes();
    epochs_never_fall::<D>();
    a_rollback_gives_back_names_and_bytes::<D>();
}
