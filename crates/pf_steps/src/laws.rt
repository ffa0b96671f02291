//! Laws of the definitions: functions with empty bodies, whose contracts are the laws.

ghost use Rattle.pf_pool.specs.Profile.{IsRight};
ghost use Rattle.pf_steps.specs.Orders.{ReportsAreOfTheLanguage};
ghost use Rattle.pf_steps.specs.Profile.{run_profile};

/// The profile of the language is right: it reads a source as the rules of reading do, bytes are the property that
/// their text says, and a job has its result: what its module means from its root by its choices, within its limit, or
/// with runs the shrinking of its schedule. The job has the events of its run, or of all runs that its shrinking makes.
pub fn profile_is_right()
    ensures { IsRight run_profile }
{}

/// Orders: in a legal history the result that a `fetch` of a ticket is given is the one that the language gives to the
/// job that the order with this ticket asked for, unless memory ran out for its trial.
pub fn reports_are_of_the_language()
    ensures { ReportsAreOfTheLanguage }
{}
