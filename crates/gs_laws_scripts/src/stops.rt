//! What a script is answered before a read or a write fails is the beginning of what a function gives for its whole input.

ghost use Rattle.std.specs.Prelude.{ℕ, List};
ghost use Rattle.gs_base.specs.declared.config.Config.{Config};
ghost use Rattle.gs_laws_scripts.specs.stops.Stopped.{AnswersUntilAReadFails, AnswersUntilAWriteFails};

/// Over empty disks, and where memory isn't wanting and no disk fails, a script that a read stops has answered its first lines, and the texts are as many of those that a function gives of the configuration and the whole input, from the first
/// on. So it is of the lines whose answers were written before a write that fails, and of these with the line of that answer, which was made though no more than a beginning of it is written.
pub fn a_stopped_script_answers_the_beginning_of_its_input<D>()
    ensures read_fails { (seen : D → List ℕ) (failures : D → ℕ) (config : Config) (disks : D × D) → AnswersUntilAReadFails seen failures config disks }
    ensures write_fails { (seen : D → List ℕ) (failures : D → ℕ) (config : Config) (disks : D × D) → AnswersUntilAWriteFails seen failures config disks }
{}
