//! A master of which no file has a chunk: what calls of the tree and of an upgrade make of it is what they make of the plain machine.

ghost use Rattle.gs_laws_plain.specs.calm.Calm.{FinalizesGo, LearnedLeaves, PreparesBegin, PreparesCommit, QueriesGo, RollbacksBegin, RollbacksCommit, TreeCallsGo};

/// Where no chunk is settled and nothing waits, a new call of the tree is refused for want of room or of counters, or sends the one reply that the plain
/// machine gives; and behind it the master shows the machine that has gone on by the call's command.
fn calls_of_the_tree_are_commands()
    ensures { TreeCallsGo }
{}

/// So do the calls of an upgrade: a prepare keeps a copy, a finalize forgets it, a rollback puts it in the tree's place, and a query tells whether there is
/// one. What ends an epoch tells every server, and what these answer, naming nothing, changes nothing.
fn calls_of_an_upgrade_are_commands()
    ensures queries { QueriesGo }
    ensures begins { PreparesBegin }
    ensures commits { PreparesCommit }
    ensures finalizes { FinalizesGo }
    ensures back { RollbacksBegin }
    ensures restores { RollbacksCommit }
    ensures learned { LearnedLeaves }
{}
