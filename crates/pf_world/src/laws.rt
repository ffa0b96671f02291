//! Laws of the definitions: functions with empty bodies, whose contracts are the laws. None of them promises that a
//! trial is ever claimed or run to its end.

ghost use Rattle.pf_world.specs.Laws.{AnsweredInTurn, DeletionOfOthers, IsolationAmongWorkers, LegalityAmongWorkers};
ghost use Rattle.pf_world.specs.Laws.{LimitsAmongWorkers, NumbersAmongWorkers, SettledReplies};
ghost use Rattle.pf_world.specs.Jobs.{JobsAmongWorkers};
ghost use Rattle.pf_world.specs.Noted.{HistoriesNoteTheCalls};
ghost use Rattle.pf_world.specs.Worked.{WorkedSteps, WorkedTexts};

/// Isolation: for every list of steps, of any length, in any order and of any number of workers and projects, a
/// project hears what it hears alone, along its own steps. It speaks of lists in which no allocation fails. A step
/// answered `not_now` is nobody's: whoever drives the workers can see by it that others are at work.
pub fn isolation()
    ensures { IsolationAmongWorkers }
{}

/// Deletion: if only the steps are left that belong to a project, each of them is answered as it was: what was done
/// stays possible. It doesn't say that what couldn't be done stays impossible, and no allocation fails in the list.
pub fn deletion()
    ensures { DeletionOfOthers }
{}

/// Settled: a project whose clients make the same calls in the same order hears the same replies to settled calls,
/// whatever the two numbers of workers are, and whatever they and other projects do. A `status` is never settled, and a
/// `fetch` only if neither list refuses it because its trial isn't done; all other calls are, `edition` among them.
/// No allocation fails in either list.
pub fn settled()
    ensures { SettledReplies }
{}

/// Legality: for every list of steps, wherever allocations fail, each project's desk is what its own history makes
/// of an empty one, and the history is legal: calls with the replies that they got, claims of what was queued, and
/// files of both marks and hand-backs of what was running. That only a run that
/// is over is filed is what a step says, and no history.
pub fn legality()
    ensures { LegalityAmongWorkers }
{}

/// Notes: for every list of steps, wherever allocations fail, the history of a project's desk notes its calls with the
/// replies that they got, in their order, as many as a log holds. So what a law says of a legal history it says of the
/// replies that clients get.
pub fn histories_note_the_calls()
    ensures { HistoriesNoteTheCalls }
{}

/// Limits: for every list of steps, wherever allocations fail, what each project's desk uses passes none of the limits
/// of its edition. It is the law of legal desks of `pf_desks`, by legality.
pub fn limits()
    ensures { LimitsAmongWorkers }
{}

/// Numbers: for every list of steps, the modules' numbers that a project hears are 1, 2, 3 and so on, and so are its
/// tickets. It speaks of lists in which no allocation fails; of what the histories of others note the law of legal
/// histories of `pf_desks` does.
pub fn numbers()
    ensures { NumbersAmongWorkers }
{}

/// Jobs: for every list of steps, wherever allocations fail, each run that a worker holds or has parked is of the job
/// of its trial: its ticket was given for that job, and the trial, if it wasn't dropped, is of it.
pub fn jobs()
    ensures { JobsAmongWorkers }
{}

/// In turn: if no allocation fails, the steps of a list are answered in one way alone, and that is the way of which
/// the laws of isolation, deletion and settled replies speak.
pub fn in_turn()
    ensures { AnsweredInTurn }
{}

/// Worked lists of steps are answered as they are to be answered, whatever jobs mean.
pub fn worked_steps()
    ensures { WorkedSteps }
{}

/// The answers to worked steps have the texts that they are to have.
pub fn worked_texts()
    ensures { WorkedTexts }
{}
