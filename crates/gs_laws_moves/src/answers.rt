//! Whom the master answers: each reply that it sends, keeps or records is to the call that comes, or to one that has waited.

ghost use Rattle.gs_laws_moves.specs.answers.AtOnce.{AnswersAtOnce};
ghost use Rattle.gs_laws_moves.specs.answers.Changes.{ChangesAnswerAtOnce, ChangesAreMade, RefusedChangesLeaveNames, ChangesAreNotOld};
ghost use Rattle.gs_laws_moves.specs.answers.Concerned.{CheckpointsAnswerNobody, KeptAreTold, MessagesAnswerConcerned, StepsAnswerConcerned, TicksAnswerConcerned};
ghost use Rattle.gs_laws_moves.specs.answers.Resting.{CommitsAreHad, ListsAreAnswered, LooksLeaveNames};

/// Each event of the master, whatever it has met before: each reply that it sends is to the call that comes or to one that waits as it comes; each that it keeps behind the event, in memory or on record, it kept
/// before, or it is to such a call; so is each reply that one of its records tells; and what waits behind it comes with it or has waited. A tick answers only who has waited, and a checkpoint nobody. Where no call comes, and none waits, no record of the event
/// edits names, ends an epoch, or tells an answer.
fn only_who_calls_is_answered()
    ensures messages { MessagesAnswerConcerned }
    ensures ticks { TicksAnswerConcerned }
    ensures steps { StepsAnswerConcerned }
    ensures checkpoints { CheckpointsAnswerNobody }
{}

/// Where records are replayed, each reply that is kept behind them was kept before them, or one of them tells it.
fn what_is_kept_is_told()
    ensures { KeptAreTold }
{}

/// A look-up, a query, a commit or an abort of a prepare, a finalize, and a commit of a rollback are answered at once where they are new: such a call gets one reply by the event that brings it, that is kept or none
/// is, no other call is answered by the event, and none begins to wait.
fn looks_and_commits_are_answered_at_once()
    ensures { AnswersAtOnce }
{}

/// A new look-up leaves the names, the phase and the epoch, and what its client has had; what a list is answered is the listing by the names. Behind a commit, an abort or a finalize that is new and accepted, its client has had its reply: no call of
/// this number, or of a lower one, is new any more. No disk had failed, and a prepare or a rollback was begun where one is committed.
fn looks_leave_names_and_commits_are_had()
    ensures looks { LooksLeaveNames }
    ensures listed { ListsAreAnswered }
    ensures commits { CommitsAreHad }
{}

/// A new directory, a new file, a rename, a deletion and an undelete are answered at once where they are new: such a call gets one reply by the event that brings it, no other call is answered, and none begins to wait. Where it is accepted, and its record fits,
/// the names are those of its edit, the phase and the epoch are what they were, and its client has had its reply. A deletion takes the number of the next one. Where nothing stands at its path it takes none, and the names stay. Where it is refused nothing changes but what is kept of it. None that is judged is told that its request is an old one.
fn changes_are_answered_at_once_and_had()
    ensures at_once { ChangesAnswerAtOnce }
    ensures made { ChangesAreMade }
    ensures refused { RefusedChangesLeaveNames }
    ensures new { ChangesAreNotOld }
{}
