//! What a set of configurations says of all runs from them.

ghost use Rattle.pf_explore_laws.specs.Places.{BoundedConfigurationsHold, ClosedPlacesHold, ClosedPlacesHoldOfJobs};
ghost use Rattle.pf_explore_laws.specs.Room.{MoreStepsChangeNothing};
ghost use Rattle.pf_explore_laws.specs.Within.{ClosedPlacesHoldWithin, ClosedPlacesHoldWithinOfJobs};

/// Where places are closed and good, the property holds of each run from one of them, whatever chooses.
pub fn closed_places_hold<S>()
    ensures { ClosedPlacesHold S }
{}

/// The same of configurations alone, each with a number of steps that all runs from it keep within: no run within these
/// reaches the limit.
pub fn bounded_configurations_hold<S>()
    ensures { BoundedConfigurationsHold S }
{}

/// Where the start of a job is among such places, its property holds by each schedule.
pub fn closed_places_hold_of_jobs()
    ensures { ClosedPlacesHoldOfJobs }
{}

/// A transition that the limit didn't cut is the same with more steps left.
pub fn more_steps_change_nothing()
    ensures { MoreStepsChangeNothing }
{}

/// Where places are closed with so many deviations left, the property holds of each run that deviates no oftener.
pub fn closed_places_hold_within<S>()
    ensures { ClosedPlacesHoldWithin S }
{}

/// Where the start of a job is among such places, its property holds by each schedule that deviates no oftener.
pub fn closed_places_hold_within_of_jobs()
    ensures { ClosedPlacesHoldWithinOfJobs }
{}
