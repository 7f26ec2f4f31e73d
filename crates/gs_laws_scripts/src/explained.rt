//! A plain machine of trees and bytes, with what each line may be answered from it and where that leads.
//! It knows no node and no message. That a store answers each script so isn't proved yet. It is of scripts of lines of the tree and of an upgrade; what else is proved here is of the machine, and of a client's dialogues.

ghost use Rattle.std.specs.Prelude.{ℕ, List};
ghost use Rattle.gs_base.specs.declared.config.Config.{Config};
ghost use Rattle.gs_laws_scripts.specs.explained.Commits.{AfterACommitUntilAReadFails, AfterACommitUntilAWriteFails, ScriptsAfterACommit};
ghost use Rattle.gs_laws_scripts.specs.explained.Asking.{ListsAreTold, PlacesAreTold, QueriesAreTold, StatusesAreTold};
ghost use Rattle.gs_laws_scripts.specs.explained.CalmCommits.{CalmAfterACommit, CalmUntilAReadFails, CalmUntilAWriteFails};
ghost use Rattle.gs_laws_scripts.specs.explained.Changes.{CalmLinesAreExplained, ChangesAreExplainedThere, ChangesAreTold};
ghost use Rattle.gs_laws_scripts.specs.explained.Digested.{DigestsAreExplained};
ghost use Rattle.gs_laws_scripts.specs.explained.Following.{LooksComeBack, PlainAnswersAreAFunction};
ghost use Rattle.gs_laws_scripts.specs.explained.NewStores.{BeginningsUntilAReadFails, BeginningsUntilAWriteFails, CalmFromTheBeginning, NewDesksStand};
ghost use Rattle.gs_laws_scripts.specs.explained.NoFiles.{LinesWithoutAFile};
ghost use Rattle.gs_laws_scripts.specs.explained.Looked.{PlacesAreToldThere, StatusesAreToldThere};
ghost use Rattle.gs_laws_scripts.specs.explained.Scripts.{AreExplainedUntilAReadFails, AreExplainedUntilAWriteFails, ScriptsOfTheTreeAreExplained};
ghost use Rattle.gs_laws_scripts.specs.explained.Standing.{CommitsStand, StillLinesAreExplained};
ghost use Rattle.gs_laws_scripts.specs.explained.Told.{AppendsAreExplained, ReadsAreExplained, StatsAreExplained, WritesAreExplained};

use gs_block::promises::configurations_have_sizes;

/// Of a script that the machine explains: where the store refuses no line and none is unsure, the answers are a function of the lines.
/// Three things are left aside: what `stat` tells of chunks beside their number, how many chunks a scan forgets, and lines about nodes alone.
fn plain_answers_are_a_function()
    ensures { PlainAnswersAreAFunction }
{}

/// Of a script that the machine explains: `ls`, `stat`, `read` and `digest` are answered alike after a prepare and after its rollback, refusals too.
/// Neither answer may be a refusal by the store, or unsure.
/// Between each of the two and the look come only lines that look, that set the moment or ask for the phase, or that are about nodes. None delivers what was held back.
fn looks_come_back()
    ensures { LooksComeBack }
{}

/// Where a client is answered each request by what stands, `write`, `append`, `stat`, `read` and `digest` come to what the machine allows, and lead to its next state.
/// It doesn't matter how often a part is looked up and tried. Before each request of a `write` and an `append` some of what is owed may be paid.
fn dialogues_are_explained()
    ensures writes { WritesAreExplained }
    ensures appends { AppendsAreExplained }
    ensures stats { StatsAreExplained }
    ensures reads { ReadsAreExplained }
    ensures digests { DigestsAreExplained }
{}

/// So long as the lines of a script are of the tree (`mkdir`, `create`, `ls`, `mv`, `rm`, `undelete`, `snapshot`), of an upgrade (`rollingUpgrade` with each of its four words), `at`, or bad, and no answer is that
/// there is no room (30) or that a counter has no value left (31), the machine explains what `run` answers them: over empty disks, and where memory isn't wanting and no disk fails. Nothing is ever owed then.
/// So it is too where a read of the script or a write of an answer fails and ends the run.
pub fn scripts_of_the_tree_are_explained<D>()
    ensures ended { (seen : D → List ℕ) (failures : D → ℕ) (config : Config) (disks : D × D) → ScriptsOfTheTreeAreExplained seen failures config disks }
    ensures read_fails { (seen : D → List ℕ) (failures : D → ℕ) (config : Config) (disks : D × D) → AreExplainedUntilAReadFails seen failures config disks }
    ensures write_fails { (seen : D → List ℕ) (failures : D → ℕ) (config : Config) (disks : D × D) → AreExplainedUntilAWriteFails seen failures config disks }
{}

/// While nothing is asked that changes something the machine explains what a desk answers, and it stands for the machine after each line: to `ls`, `rollingUpgrade query`, `at`, `hold`, `beat`, `tick`, `lose`, `damage`, `deliver`, `restart` of a server, to lines that are none, and to `stat` where it is answered `ok dir`, or `ok file 0` as a file without chunks is.
/// The store may have any files with any bytes, led chunks, held messages, lost and damaged replicas, and disks that fail. A list and a query are what the machine tells, refusals too; or the store refuses them, or nobody is sure (29).
fn still_lines_are_explained<D>()
    ensures { StillLinesAreExplained D }
{}

/// A desk stands so for a machine right after a prepare, or a rollback, that is accepted: whatever lines came before, whatever is held back, and whatever disks fail.
/// The machine is in the epoch that is answered. An upgrade stands there after a prepare, and none after a rollback.
fn a_desk_stands_after_a_commit<D>()
    ensures { CommitsStand D }
{
    configurations_have_sizes();
}

/// Right after a prepare or a rollback that is answered by an epoch, one machine explains what a script is answered: as long as its lines are `ls`, `rollingUpgrade query`, `at`, `hold`, `beat`, `tick`, `lose`, `damage`, `deliver` and `restart` of a server, `stat` that is answered `ok dir` or `ok file 0`, or bad. Lists and queries may be refused.
/// The machine is in that epoch, with an upgrade after a prepare and without one after a rollback. So all queries of these lines tell that, and all lists are of the same names. Whatever lines come before, with held messages, lost and damaged replicas, and disks that fail: of what they left nothing is known but the names.
pub fn lines_after_a_commit_are_explained<D>()
    ensures ended { ScriptsAfterACommit D }
    ensures read_fails { AfterACommitUntilAReadFails D }
    ensures write_fails { AfterACommitUntilAWriteFails D }
{
    configurations_have_sizes();
}

/// What the master answers to a look-up that is new to it is what a machine tells that shows what the master stands on, refusals too: a list, a query, the status of an entry, and where a chunk of a file is.
/// Else the store refuses it. It is said of one turn, of paths of no more elements than one that is read, and of files of no more chunks than one may have.
fn looks_are_told()
    ensures lists { ListsAreTold }
    ensures queries { QueriesAreTold }
    ensures statuses { StatusesAreTold }
    ensures places { PlacesAreTold }
{}

/// Where a desk stands for a machine, its client is told the status of an entry, and where a chunk of a file is, as the machine has it, refusals too; and the desk stands for it still. Else the store refuses it, or nobody is sure.
/// The store may have led chunks, held messages, lost and damaged replicas, and disks that fail. Paths have no more elements than one that is read. For a status no file has more chunks than one may have.
fn looks_are_told_where_a_desk_stands<D>()
    ensures statuses { StatusesAreToldThere D }
    ensures places { PlacesAreToldThere D }
{}

/// What the master answers to a new directory, a new file, a rename, a deletion or an undelete that is new to it is what a machine tells that shows what the master stands on and is at that moment, refusals too. Else the store refuses it. Where it is accepted, the machine after it shows what the master has then.
/// Such a change that a desk carries for its client is explained where the desk stands for a machine, refused or not, and after it the desk stands for the machine to which it leads. The client has to know what came of it: it isn't told that nobody is sure (29). The store may have led chunks, held messages, lost and damaged replicas, and disks that fail.
fn changes_are_told<D>()
    ensures turns { ChangesAreTold }
    ensures there { ChangesAreExplainedThere D }
{}

/// So lines that change the tree are explained too, where a desk stands for a machine: `mkdir`, `create`, `mv`, `rm` and `undelete`, whether they are answered `ok` or refused, as long as no such answer is `refused 29 Unsure` or `refused 33 Memory`. Among them may come the lines that leave what stands, and lines about a path that is none (`stat`, `read`, `digest`, `write`, `append`, `rm` and `snapshot`), whatever these are answered. And so may a `stat`, a `read` and a `digest` that are refused: by what the tree refuses by (1 to 9, 38), by the store, or by 29. After each line the desk stands for the machine to which it leads.
/// The store may have any files with any bytes, led chunks, held messages, lost and damaged replicas, and disks that fail.
fn calm_lines_are_explained<D>()
    ensures { CalmLinesAreExplained D }
{}

/// A `read`, `digest`, `write` or `append` of a path at which no file stands in the machine for which a desk stands is explained, whatever it is answered: it changes nothing, and the desk stands for that machine after it.
/// The store may have led chunks, held messages, lost and damaged replicas, and disks that fail.
fn lines_about_no_file_are_explained<D>()
    ensures { LinesWithoutAFile D }
{}

/// Right after a prepare or a rollback that is answered by an epoch, one machine explains what a script is answered also where its lines change the tree: as long as each is one of those that leave what stands, a `mkdir`, `create`, `mv`, `rm` or `undelete` that isn't answered by 29 (`Unsure`) or 33 (`Memory`), a line about a path that is none, or a `stat`, `read` or `digest` that is refused by the tree, by the store or by 29.
/// The machine is in that epoch, with an upgrade after a prepare and without one after a rollback. So all lists of these lines are of the names that these changes make, one after the other, and each refusal is the plain tree's or the store's. Whatever lines come before, with held messages, lost and damaged replicas, and disks that fail.
pub fn calm_lines_after_a_commit_are_explained<D>()
    ensures ended { CalmAfterACommit D }
    ensures read_fails { CalmUntilAReadFails D }
    ensures write_fails { CalmUntilAWriteFails D }
{
    configurations_have_sizes();
}

/// A desk that has begun over empty disks stands for the new machine, whatever disks fail: for the one without names, in epoch 0 and at moment 0.
fn a_new_desk_stands<D>()
    ensures { NewDesksStand D }
{
    configurations_have_sizes();
}

/// From the first line of a script on the new machine explains what is answered: as long as each line is one of those that leave what stands, a `mkdir`, `create`, `mv`, `rm` or `undelete` that isn't answered by 29 (`Unsure`) or 33 (`Memory`), a line about a path that is none, or a `stat`, `read` or `digest` that is refused by the tree, by the store or by 29.
/// What the lines after them are, and are answered, is nothing to it. The disks are empty at first. They may fail, servers may lose and damage what they have, and messages may be held back.
pub fn calm_lines_of_a_new_store_are_explained<D>()
    ensures ended { CalmFromTheBeginning D }
    ensures read_fails { BeginningsUntilAReadFails D }
    ensures write_fails { BeginningsUntilAWriteFails D }
{
    configurations_have_sizes();
}
