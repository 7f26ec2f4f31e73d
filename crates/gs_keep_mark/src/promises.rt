// What the definitions promise, of each log.
ghost use Rattle.gs_keep_mark.specs.Before.{ToldAlikeAreTheSame};
ghost use Rattle.gs_keep_mark.specs.Started.{StartRunsWhatWasAnswered};

/// What a start runs of a log that a crash has left is what was answered, all of it and as it was answered, and at most the batch that
/// waited for its answers and was written whole. So it is where digests tell texts apart, and no mark stands in the log that wasn't written.
pub fn a_start_runs_what_was_answered()
    ensures { StartRunsWhatWasAnswered }
{}

/// Logs of which the same digests are told have the same first line, the same lines and the same answers to them, where digests tell texts
/// apart. So two logs whose first lines tell the same of the log before have the same lines before.
pub fn logs_that_are_told_alike_are_the_same()
    ensures { ToldAlikeAreTheSame }
{}
