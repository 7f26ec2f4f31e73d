//! What becomes of a prepare at the master: while its upgrade stands, while it is rolled back, and behind the rollback.

ghost use Rattle.gs_laws_moves.specs.upgrades.Since.{CutsLead, TurnsBegin, TurnsLead};

/// An event that leads from an ordinary phase to another is a prepare. Right behind it nothing is to be taken back, and the prepared view of each chunk that a file has, or had, is its settled one.
fn an_upgrade_begins_with_what_stands()
    ensures { TurnsBegin }
{}

/// While an upgrade stands, and while it is rolled back, each event leaves what leads back to the prepare: the names to which the edits since are taken back, and
/// the prepared view of each chunk that was listed then; whatever comes, also through checkpoints, and where the append of a record fails. The event that
/// ends a rollback leaves the names of the prepare; and of each chunk that stood in a file then a server that may give it back had told, as the event met it. Each
/// chunk that stood in a file then, or before, has a view behind it that nobody leads, whose members are just those servers that had told.
fn what_was_prepared_stays_until_it_is_back()
    ensures turns { TurnsLead }
    ensures cuts { CutsLead }
{}
