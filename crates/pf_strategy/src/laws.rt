//! Laws of the definitions: functions with empty bodies, whose contracts are the laws.

ghost use Rattle.pf_strategy.specs.Laws.{OneReport, ReplayOfPriorities, ReplayOfSeeds, SomeReport};
ghost use Rattle.pf_strategy.specs.Laws.{SomeReportByPriorities};

/// The choices of a report by priorities, given back as a schedule, mean that report.
pub fn replay_of_priorities()
    ensures { ReplayOfPriorities }
{}

/// The choices of a report by a seed, given back as a schedule, mean that report, whichever strategy chose.
pub fn replay_of_seeds()
    ensures { ReplayOfSeeds }
{}

/// A job means one report only by a seed and a strategy.
pub fn one_report()
    ensures { OneReport }
{}

/// A job means some report by each seed: by priorities always, and by any strategy if its weights, where it has any,
/// are from 1 to 9.
pub fn some_report()
    ensures by_priorities { SomeReportByPriorities }
    ensures by_any { SomeReport }
{}
