//! What `ls` is answered right behind an accepted rollback is what it was answered right behind its prepare.

ghost use Rattle.gs_base.specs.declared.config.Config.{Config};
ghost use Rattle.gs_laws_scripts.specs.lists.Lines.{ListTheSame};
ghost use Rattle.gs_laws_scripts.specs.lists.Scripts.{ListTheSameUntilAReadFails, ListTheSameUntilAWriteFails, ScriptsListTheSame};
ghost use Rattle.std.specs.Prelude.{List, ℕ};

use gs_laws_looks::{
    epochs_that_are_answered_are_numbers,
    what_is_listed_behind_a_rollback_is_what_was_listed_behind_its_prepare,
};

/// A desk answers an epoch to `rollingUpgrade prepare`, or to `prepare-commit`, and names to `ls` of a path right behind that; behind any lines it answers the next epoch to `rollingUpgrade rollback`, or to `rollback-commit`, and names to the same `ls` right behind that. These names
/// are the same, whatever lines come between, and whatever disks fail.
fn what_is_listed_twice_by_lines_is_the_same<D>()
    ensures { (seen : D → List ℕ) (failures : D → ℕ) (config : Config) (disks : D × D) → ListTheSame seen failures config disks }
{
    epochs_that_are_answered_are_numbers::<D>();
    what_is_listed_behind_a_rollback_is_what_was_listed_behind_its_prepare::<D>();
}

/// For every script over disks that said nothing, what `ls` of a path is answered in the line right behind a rollback that is accepted (`rollingUpgrade rollback`, or `rollback-commit`) is what it was answered in the line right behind its prepare (`rollingUpgrade prepare`, or `prepare-commit`), wherever both answer: byte for byte, whatever else the script does, whatever lines come between, and whatever disks of the master fail. The rollback is of that prepare since
/// it is answered the next epoch. So it is too where a read of the script or a write of an answer fails and ends the run: in the lines whose answers were written before, and, where a write has failed, in these with the line of that answer, which was made though no more than a beginning of it is written.
pub fn what_a_script_lists_behind_a_rollback_is_what_it_listed_behind_its_prepare<D>()
    ensures ended { ScriptsListTheSame D }
    ensures read_fails { ListTheSameUntilAReadFails D }
    ensures write_fails { ListTheSameUntilAWriteFails D }
{
    epochs_that_are_answered_are_numbers::<D>();
    what_is_listed_behind_a_rollback_is_what_was_listed_behind_its_prepare::<D>();
}
