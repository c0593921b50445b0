//! What is proved of logs with events.

ghost use Rattle.ipcz_events.specs.Judging.{ToldWordsName};
ghost use Rattle.ipcz_events.specs.Rules.{AllowedAreRuns, EventsTellActs};
ghost use Rattle.ipcz_events.specs.RunOutputs.{RunsAreJudged};
ghost use Rattle.ipcz_events.specs.Runs.{RunsAreAllowed};

/// A log that is allowed is a run of the relation of steps from the new world, in which each turn takes some possible act; so the theorem holds
/// of it.
pub fn what_is_allowed_is_a_run()
    ensures { AllowedAreRuns }
{}

/// What a node was seen to do tells the act: of its acts that are possible in a world there is one at most whose event prints so. So a line of a
/// log needn't name its act.
pub fn events_tell_acts()
    ensures { EventsTellActs }
{}

/// The words by which an act is told behind a refused line, as `r2 lock` or `post 1`, name that act: a line whose event begins with them is judged
/// by it.
pub fn told_words_name_acts()
    ensures { ToldWordsName }
{}

/// The log of a run whose order of acts a seed draws, or that asks for acts, is allowed.
pub fn logs_of_runs_are_allowed()
    ensures { RunsAreAllowed }
{}

/// What is written of a run that ends with its script is a log that is judged to be allowed, if the texts of its lines are UTF-8.
pub fn what_is_written_is_judged_allowed()
    ensures { RunsAreJudged }
{}
