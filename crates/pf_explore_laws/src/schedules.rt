//! What all schedules of a job say of its other choices, and how two schedules differ.

ghost use Rattle.pf_explore_laws.specs.Last.{NoChooserFailsLast, NobodyLast, SomeScheduleLast};
ghost use Rattle.pf_explore_laws.specs.Parting.{ChoicesAreBySchedule, ChoicesPart, EventsAreChoices, ReplayOfChoices};
ghost use Rattle.pf_explore_laws.specs.Parting.{SameChoicesSameReport, SomeChoices};
ghost use Rattle.pf_explore_laws.specs.Schedules.{AllIsWithinTheLimit, NoChooserFails, NoChooserFailsWithin};
ghost use Rattle.pf_explore_laws.specs.Schedules.{NoSeedFails};

/// Where no schedule of a job fails, no chooser does, whatever its states are: priorities are choosers too.
pub fn no_chooser_fails<S>()
    ensures { NoChooserFails S }
{}

/// Where no schedule of a job fails, no seed does, with weights or without.
pub fn no_seed_fails()
    ensures { NoSeedFails }
{}

/// Where no schedule fails that deviates at most so often, no chooser does whose run deviates no oftener.
pub fn no_chooser_fails_within<S>()
    ensures { NoChooserFailsWithin S }
{}

/// No run deviates oftener than its limit has steps.
pub fn all_is_within_the_limit()
    ensures { AllIsWithinTheLimit }
{}

/// Where no process is named that goes last, what is said of schedules by which one does is said of all.
pub fn nobody_last()
    ensures { NobodyLast }
{}

/// What a job means by a chooser that lets a process go last it means by a schedule by which that goes last. So where
/// no such schedule fails, no such chooser does.
pub fn no_chooser_fails_last<S>()
    ensures some { SomeScheduleLast S }
    ensures none { NoChooserFailsLast S }
{}

/// A report by a schedule has choices, and where no process goes last they are those of its events.
pub fn choices_are_made()
    ensures some { SomeChoices }
    ensures of_events { EventsAreChoices }
{}

/// The choices of a job's runs by two schedules are the same, or the same up to two that are made among as many, and
/// differ. Where they are the same, so are the reports.
pub fn choices_part()
    ensures part { ChoicesPart }
    ensures same { SameChoicesSameReport }
{}

/// Each choice of a run by a schedule is the one that the schedule has for it, and the choices of its events as a
/// schedule mean its report.
pub fn choices_are_by_schedule()
    ensures by { ChoicesAreBySchedule }
    ensures replay { ReplayOfChoices }
{}
