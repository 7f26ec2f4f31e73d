// What the definitions promise of a machine.
ghost use Rattle.std.specs.Prelude.{◌≡◌, List, None};
ghost use Rattle.gs_keep.specs.Behind.{GoesOnWhereAnotherEnded};
ghost use Rattle.gs_keep.specs.Lines.{Turn};
ghost use Rattle.gs_keep.specs.Running.{SendsAll};

use crate::keeping::Keeping;

/// A machine of which no line of its own is ever due is asked what is read, and all its answers are sent.
pub fn a_machine_without_lines_of_its_own_sends_all_answers<M: Keeping>()
    ensures { ((s : M) → M.own s ≡ None) → (old new : M) (turns : List Turn) → SendsAll M.Answers M.is_kept M.is_turned_away M.own old turns new }
{}

/// A log that begins with the machine to which a run over another has come, behind as many lines as that one's ledger counts, goes on as that
/// log would have: the lines of both are run one behind the other, and its own ledger counts those of both.
pub fn a_log_goes_on_where_another_has_ended<M: Keeping>()
    ensures { GoesOnWhereAnotherEnded M.Answers M.is_kept M.is_turned_away M.own }
{}
