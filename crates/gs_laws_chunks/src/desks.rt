//! What the lines of a script make of a store is a run of its nodes, and all that they ask is within its types.

ghost use Rattle.std.specs.Prelude.{◌≡◌, ◌<◌, ℕ, List, Some};
ghost use Rattle.gs_base.specs.Told.{IsNumber};
ghost use Rattle.gs_shell_grammar.specs.Grammar.{At, line_request};
ghost use Rattle.gs_laws_chunks.specs.desks.Laws.{DesksBeginReached, LinesLeadBySteps, ScriptsEndReached, ServersOfDesksAreReached, LinesAskWithinTypes, DesksBeginWithin, LinesStayWithin, ScriptsEndWithin, DesksWithinKeepTypes, WhatWaitsMayBeSaid, DesksQuietRunsHearWithinTypes, DesksQuietRunsEndSteady, DesksQuietRunsRefuseForMemory, UnfailedRunsAreQuiet, UnfailedDesksAreSteady};

use gs_block::promises::configurations_have_sizes;

/// A desk that begins is at a store that has begun over the same disks, and each line leads on by steps of that store: events of its nodes,
/// and answers that its client takes. All that is under way was sent by a node, and so is all that the nodes hear. What a script leaves that
/// is read and answered to its end is a store behind such steps.
fn each_script_is_a_run<D>()
    ensures begins { DesksBeginReached D }
    ensures line { LinesLeadBySteps D }
    ensures script { ScriptsEndReached D }
{}

/// Each server of a store is, behind each script, one that has begun with nothing, behind events of its own. So the laws of such servers
/// hold of it.
fn each_server_of_a_script_is_reached<D>()
    ensures { ServersOfDesksAreReached D }
{
    configurations_have_sizes();
}

/// What a line asks of a store is within its types, whatever is answered on the way: each path that it names is by the rules, and a write asks
/// for the place of no chunk that a record can't tell. A moment that a line sets is a number of 64 bits.
fn each_line_asks_within_its_types()
    ensures asked { LinesAskWithinTypes }
    ensures moments { (line : List ℕ) (moment : ℕ) → line_request line ≡ Some (At moment) → IsNumber moment }
{}

/// All that the lines of a script ask is within the types of the store that it runs over: a desk that begins, each line, and so a whole script
/// lead on by such steps. So where the disks said nothing and none of them failed in a step, the master is steady behind each line, and in each
/// step, whatever it refuses of what it is sent or of its ticks, it refuses for want of memory alone.
pub fn each_script_asks_within_its_types<D>()
    ensures begins { DesksBeginWithin D }
    ensures line { LinesStayWithin D }
    ensures script { ScriptsEndWithin D }
    ensures kept { DesksWithinKeepTypes D }
    ensures waiting { WhatWaitsMayBeSaid D }
    ensures heard { DesksQuietRunsHearWithinTypes D }
    ensures steady { DesksQuietRunsEndSteady D }
    ensures refused { DesksQuietRunsRefuseForMemory D }
{}

/// Disks of the master's journal have never failed less often than before. So a script over disks that said nothing leaves a steady master where
/// they have failed no more often in the end than at the start: in no step one failed.
fn a_script_whose_disks_have_not_failed_ends_steady<D>()
    ensures quiet { UnfailedRunsAreQuiet D }
    ensures ended { UnfailedDesksAreSteady D }
{}
