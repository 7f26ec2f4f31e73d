//! The shell of a store on one thread: a script's lines in, their answers out.
#![tactic(auto)]

ghost use Rattle.std.specs.Prelude.{OnOk, IfErr, IfSome};
ghost use Rattle.gs_journal.specs.Memory.{bytes_of, times_failed};
ghost use Rattle.gs_nodes.specs.NewDisks.{OverEmpty};
ghost use Rattle.gs_shell.specs.Serving.{Serves, ServeFails};
ghost use Rattle.gs_shell.specs.Telling.{Tells};
ghost use Rattle.gs_shell.specs.Watching.{both_watched, failures_of, seen_of};

mod trouble;
mod watched;

use gs_base::Config;
use gs_journal::Disk;
use gs_nodes::empty_disks;
use gs_shell_desk::Desk;
pub use gs_shell_script::RunFault;
use std::alloc::Global;
use std::io::{BufRead, Write};
pub use trouble::Trouble;
pub use watched::Watched;

/// Begins a store over the two disks of its master's journal, with the servers and sizes of the configuration, and answers each
/// line of the reader by one line to the writer, which is flushed as [`gs_shell_script::run`] says: at the latest before the run may
/// have to wait for input, and at its end. New disks are those of a new store.
///
/// Where memory is lacking, the answer is `refused 33 Memory`, and the run goes on; something of what the line asks may be done
/// then. Where the disks can't be opened or memory is lacking for the nodes, the fault is `Refused`, and nothing is read or
/// written. A read or a write that fails ends the run as [`gs_shell_script::run`] says.
///
/// With how the run ended it tells what went wrong within the store: whether no memory was left for something there, which answers
/// need not show, and whether a disk has failed. Of a store that doesn't begin it tells that nothing did.
pub fn run_over<D: Disk + Drop, R: BufRead, W: Write>(
    alloc: Global,
    config: Config,
    disks: (D, D),
    reader: &mut R,
    writer: &mut W,
) -> (Result<(), RunFault>, Trouble)
    ensures { Tells D.seen D.failures config disks result.1 result.0 (R.remaining reader.old) (R.remaining reader.new) (W.contents writer.old) (W.contents writer.new) }
{
    let watching = watched::watch(disks);
    let mut desk = match Desk::new(alloc, config, watching) {
        Ok(desk) => desk,
        Err(unopened) => return (Err(RunFault::Refused(unopened.refusal)), Trouble::none()),
    };
    let result = gs_shell_script::run(alloc, &mut desk, reader, writer);
    (result, Trouble::of(desk))
}

/// Begins a new store, the disks of whose master's journal are in memory, and answers the lines of the reader, as [`run_over`] does.
/// It tells what went wrong within the store.
pub fn run_telling<R: BufRead, W: Write>(
    alloc: Global,
    config: Config,
    reader: &mut R,
    writer: &mut W,
) -> (Result<(), RunFault>, Trouble)
    ensures { OverEmpty (λ disks.
        Tells bytes_of times_failed config disks result.1 result.0 (R.remaining reader.old) (R.remaining reader.new) (W.contents writer.old) (W.contents writer.new)) }
{
    let disks = empty_disks(alloc);
    run_over(alloc, config, disks, reader, writer)
}

/// Begins a new store, and answers the lines of the reader, as [`run_telling`] does. It doesn't tell what went wrong.
/// What it writes is a function of what it reads (`a_script_answers_its_input` of `gs_laws_scripts`), and what it leaves is a store behind a
/// run (`each_script_is_reached` of `gs_laws_scripts`), so what holds over every run holds of it. Lines of the tree and of upgrades are
/// answered as by the plain machine (`scripts_are_answered_as_by_the_plain_machine` of `gs_laws_scripts`). What `ls`, `read` and `digest` are
/// answered right behind an accepted rollback is what they were answered right behind its prepare, wherever both answer
/// (`what_a_script_lists_behind_a_rollback_is_what_it_listed_behind_its_prepare` of `gs_laws_scripts`,
/// `what_a_script_reads_behind_a_rollback_is_what_it_read_behind_its_prepare` of `gs_laws_scripts`).
pub fn run<R: BufRead, W: Write>(
    alloc: Global,
    config: Config,
    reader: &mut R,
    writer: &mut W,
) -> Result<(), RunFault>
    ensures ok { OnOk result (IfSome (R.remaining reader.old) (λ input. OverEmpty (λ disks.
        Serves (seen_of bytes_of) (failures_of times_failed) config (both_watched disks) input (W.contents writer.old) (W.contents writer.new)))) }
    ensures err { IfErr result (λ e. OverEmpty (λ disks.
        ServeFails (seen_of bytes_of) (failures_of times_failed) config (both_watched disks) e (R.remaining reader.old) (R.remaining reader.new) (W.contents writer.old) (W.contents writer.new))) }
{
    let (result, _trouble) = run_telling(alloc, config, reader, writer);
    result
}
