//! Runs whose contracts speak of the bytes that are read and written alone.

ghost use Rattle.gs_shell.specs.Answering.{Answers, IsUntroubled};
ghost use Rattle.gs_laws_scripts.specs.explained.CalmCommits.{CalmLinesAfter};
ghost use Rattle.gs_laws_scripts.specs.explained.NewStores.{CalmBeginnings};
ghost use Rattle.gs_laws_scripts.specs.explained.Scripts.{BeginningsAreExplained};
ghost use Rattle.gs_laws_scripts.specs.plain.Scripts.{ArePlain};
ghost use Rattle.gs_laws_scripts.specs.stops.Given.{AreGiven, AreTheSame};
ghost use Rattle.gs_laws_scripts.specs.lists.Scripts.{ListTheSame};

use gs_base::Config;
use gs_block::promises::configurations_have_sizes;
use gs_journal::MemoryDisk;
use gs_laws_looks::{
    epochs_that_are_answered_are_numbers,
    what_is_listed_behind_a_rollback_is_what_was_listed_behind_its_prepare,
};
use gs_shell::{RunFault, Trouble, Watched, run_telling};
use std::alloc::Global;
use std::io::{BufRead, Write};

/// Answers the lines of the reader as `run_telling` of `gs_shell` does. Where it tells that nothing went wrong within the store, and no answer is `refused 33 Memory`, lines of the tree and of an
/// upgrade are answered as the plain machine answers them, so long as no answer is that there is no room (30) or that a counter has no value left (31). This is said of the bytes that are read and
/// written, and of what is told, alone, however the run ends.
pub fn run_plainly<R: BufRead, W: Write>(
    alloc: Global,
    config: Config,
    reader: &mut R,
    writer: &mut W,
) -> (Result<(), RunFault>, Trouble)
    ensures { Answers (λ lines texts. IsUntroubled result.1 texts → ArePlain lines texts) result.0 (R.remaining reader.old) (R.remaining reader.new) (W.contents writer.old) (W.contents writer.new) }
{
    run_telling(alloc, config, reader, writer)
}

/// Answers the lines of the reader as `run_telling` of `gs_shell` does. Where it tells that nothing went wrong within the store, and no answer is `refused 33 Memory`, the machine of trees and texts that explains answers
/// explains what lines of the tree and of an upgrade are answered, so long as no answer is that there is no room (30) or that a counter has no value left (31).
/// Whatever went wrong, it explains what is answered from the first line on, and right after a prepare or a rollback that is answered by an epoch, while lines are of the kinds, with the answers, that these contracts name (`calm_lines_of_a_new_store_are_explained`, `calm_lines_after_a_commit_are_explained`).
/// This is said of the bytes that are read and written, and of what is told, alone, however the run ends.
pub fn run_explained<R: BufRead, W: Write>(
    alloc: Global,
    config: Config,
    reader: &mut R,
    writer: &mut W,
) -> (Result<(), RunFault>, Trouble)
    ensures tree { Answers (λ lines texts. IsUntroubled result.1 texts → BeginningsAreExplained config.chunk config.block lines texts) result.0 (R.remaining reader.old) (R.remaining reader.new) (W.contents writer.old) (W.contents writer.new) }
    ensures from_the_beginning { Answers (CalmBeginnings config.chunk config.block) result.0 (R.remaining reader.old) (R.remaining reader.new) (W.contents writer.old) (W.contents writer.new) }
    ensures after_a_commit { Answers (CalmLinesAfter config.chunk config.block) result.0 (R.remaining reader.old) (R.remaining reader.new) (W.contents writer.old) (W.contents writer.new) }
{
    configurations_have_sizes();
    run_telling(alloc, config, reader, writer)
}

/// Answers the lines of the reader as `run_telling` of `gs_shell` does. Where it tells that nothing went wrong within the store, and no answer is `refused 33 Memory`, the answers are what a function
/// gives of the configuration and the lines. This is said of the bytes that are read and written, and of what is told, alone, however the run ends.
pub fn run_by_a_function<R: BufRead, W: Write>(
    alloc: Global,
    config: Config,
    reader: &mut R,
    writer: &mut W,
) -> (Result<(), RunFault>, Trouble)
    ensures { Answers (AreGiven config result.1) result.0 (R.remaining reader.old) (R.remaining reader.new) (W.contents writer.old) (W.contents writer.new) }
{
    run_telling(alloc, config, reader, writer)
}

/// Answers the lines of two readers, one after the other, each by a new store of this configuration. The same lines are answered by the same texts, where both runs tell that nothing went wrong within
/// the store, and no answer is `refused 33 Memory`. This is said of the bytes that are read and written, and of what is told, alone, however the runs end.
pub fn run_twice<R: BufRead, W: Write, S: BufRead, V: Write>(
    alloc: Global,
    config: Config,
    reader: &mut R,
    writer: &mut W,
    other_reader: &mut S,
    other_writer: &mut V,
) -> (
    (Result<(), RunFault>, Trouble),
    (Result<(), RunFault>, Trouble),
)
    ensures { Answers (λ lines texts. Answers (AreTheSame result.0.1 result.1.1 lines texts) result.1.0 (S.remaining other_reader.old) (S.remaining other_reader.new) (V.contents other_writer.old) (V.contents other_writer.new))
        result.0.0 (R.remaining reader.old) (R.remaining reader.new) (W.contents writer.old) (W.contents writer.new) }
{
    let first = run_telling(alloc, config, reader, writer);
    let second = run_telling(alloc, config, other_reader, other_writer);
    (first, second)
}

/// Answers the lines of the reader as `run` of `gs_shell` does. What `ls` of a path is answered in the line right after a rollback that is accepted is, byte for byte, what it was answered in the
/// line right after its prepare, wherever both answer. This is said of the bytes that are read and written alone, however the run ends.
pub fn run_listing<R: BufRead, W: Write>(
    alloc: Global,
    config: Config,
    reader: &mut R,
    writer: &mut W,
) -> Result<(), RunFault>
    ensures { Answers ListTheSame result (R.remaining reader.old) (R.remaining reader.new) (W.contents writer.old) (W.contents writer.new) }
{
    epochs_that_are_answered_are_numbers::<Watched<MemoryDisk>>();
    what_is_listed_behind_a_rollback_is_what_was_listed_behind_its_prepare::<Watched<MemoryDisk>>();
    let (result, _trouble) = run_telling(alloc, config, reader, writer);
    result
}
