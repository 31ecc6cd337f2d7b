//! Laws of runs, each the contract of a function that does nothing.
ghost use Rattle.mp_engine.specs.Alike.{CountsMove, EndStatesMove};
ghost use Rattle.mp_engine.specs.LogText.{LogTellsClose};
ghost use Rattle.mp_engine.specs.Laws.{BoundsAreReached, LastLetterHasEndState, LastLineIsLast, LinesHaveStages, NoGroupIsSingle, RefutedIsExact, RunsAreCourses, RunsKeep, ScriptsCanRun, SettledIsStanding, SettledLoopsHaveEndStates, SingleIsExact, UnsettledAfterRounds, UnsettledIsStanding};

use mp_script::scripts_are_in_range;

/// A run keeps models and costs, with its repairs joined.
pub fn runs_keep()
    ensures { RunsKeep }
{}

/// Where a run settled, every letter of the last loop has its end state in the last state at once.
pub fn settled_loops_have_end_states()
    ensures { SettledLoopsHaveEndStates }
{}

/// A run is refuted exactly where a clause is empty at its end.
pub fn refuted_is_exact()
    ensures { RefutedIsExact }
{}

/// A run of no group that isn't refuted is single.
pub fn no_group_is_single()
    ensures { NoGroupIsSingle }
{}

/// A run that isn't refuted is single exactly where its last group runs once.
pub fn single_is_exact()
    ensures { SingleIsExact }
{}

/// Where a run settled, each stage of its last round left the state as it was, and nothing to do.
pub fn settled_is_standing()
    ensures { SettledIsStanding }
{}

/// Where a loop without a number of rounds did not settle, its last round left the state as it was, and something to do.
pub fn unsettled_is_standing()
    ensures { UnsettledIsStanding }
{}

/// Where a loop with a number of rounds did not settle, all its rounds ran, or its last round left something to do.
pub fn unsettled_after_rounds()
    ensures { UnsettledAfterRounds }
{}

/// Each line is that of a stage of the script, whose ending has its cause.
pub fn lines_have_stages()
    ensures { LinesHaveStages }
{}

/// The last line led to the last state.
pub fn last_line_is_last()
    ensures { LastLineIsLast }
{}

/// Where the last stage left nothing to do, its letter has its end state in the last state.
pub fn last_letter_has_end_state()
    ensures { LastLetterHasEndState }
{}

/// Each bound is reached by a model of the state that the run began with.
pub fn bounds_are_reached()
    ensures { BoundsAreReached }
{}

/// The letters of the stages that ran are a course of the script, cut short only where the run is refuted.
pub fn runs_are_courses()
    ensures { RunsAreCourses }
{}

/// The end of a log text tells how the run closed.
pub fn log_tells_close()
    ensures { LogTellsClose }
{}

/// A script that a text gives can run.
pub fn scripts_can_run()
    ensures { ScriptsCanRun }
{
    scripts_are_in_range()
}

/// What a letter leaves nothing of in a state it leaves nothing of in each state that differs in the numbers of its variables
/// and the order of its clauses and costs alone, as a written form does.
pub fn end_states_move()
    ensures { EndStatesMove }
{}

/// States that differ in these alone have as many clauses, literals and costs.
pub fn counts_move()
    ensures { CountsMove }
{}
