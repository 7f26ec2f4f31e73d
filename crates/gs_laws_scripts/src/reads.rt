//! What `read` and `digest` are answered right behind an accepted rollback is what they were answered right behind its prepare.

ghost use Rattle.gs_base.specs.declared.config.Config.{Config};
ghost use Rattle.gs_laws_scripts.specs.reads.Lines.{ReadTheSameWhereToldApart};
ghost use Rattle.gs_laws_scripts.specs.reads.Scripts.{ReadTheSameUntilAReadFails, ReadTheSameUntilAWriteFails, ScriptsReadTheSame};
ghost use Rattle.std.specs.Prelude.{List, ℕ};

use gs_laws_looks::{
    epochs_that_are_answered_are_numbers, readers_ask_under_locations_that_they_were_told,
    what_is_read_behind_a_rollback_is_what_was_read_behind_its_prepare,
};

/// A desk answers an epoch to `rollingUpgrade prepare`, or to `prepare-commit`, and bytes or a digest to `read` or `digest` of a file right behind that; behind any lines it answers the next epoch to `rollingUpgrade rollback`, or to `rollback-commit`, and the same line
/// right behind that. So it goes in a run of a store. Both answers are the same, whatever lines come between, and whatever disks fail, if there is such a run in which different blocks that servers have on the way have different digests.
fn what_is_read_twice_by_lines_is_the_same<D>()
    ensures { (seen : D → List ℕ) (failures : D → ℕ) (config : Config) (disks : D × D) → ReadTheSameWhereToldApart seen failures config disks }
{
    readers_ask_under_locations_that_they_were_told();
    epochs_that_are_answered_are_numbers::<D>();
    what_is_read_behind_a_rollback_is_what_was_read_behind_its_prepare::<D>();
}

/// For every script over disks that said nothing, what `read` or `digest` of a file is answered by the line right behind a rollback that is accepted (`rollingUpgrade rollback`, or `rollback-commit`) is what it was answered by the line right behind the prepare
/// (`rollingUpgrade prepare`, or `prepare-commit`), wherever both are accepted: byte for byte, whatever else the script does, whatever lines come between, and whatever disks of the master fail. The rollback is of that prepare since it is answered the next epoch.
/// There is a run of a store that goes so; and of one that goes so different blocks that its servers have on the way are to have different digests. So it is too where a read of the script or a write of an answer fails and ends the run: in the lines whose
/// answers were written before, and, where a write has failed, in these with the line of that answer, which was made though no more than a beginning of it is written.
pub fn what_a_script_reads_behind_a_rollback_is_what_it_read_behind_its_prepare<D>()
    ensures ended { ScriptsReadTheSame D }
    ensures read_fails { ReadTheSameUntilAReadFails D }
    ensures write_fails { ReadTheSameUntilAWriteFails D }
{
    readers_ask_under_locations_that_they_were_told();
    epochs_that_are_answered_are_numbers::<D>();
    what_is_read_behind_a_rollback_is_what_was_read_behind_its_prepare::<D>();
}
