//! Laws of the definitions: functions with empty bodies, whose contracts are the laws.

ghost use Rattle.pf_sched.specs.One.{OneCount, OneResult, SomeCount, SomeResult};
ghost use Rattle.pf_sched.specs.Waiting.{LivingIsRight, WaitingIsRight};

/// At any point of a run, and whatever chooses, as many processes live as began, the root among them, less those
/// that ended, as the run showed.
pub fn living_is_right<S>()
    ensures { LivingIsRight S }
{}

/// At the end of a run whose root returned as many processes wait as are reported.
pub fn waiting_is_right<S>()
    ensures { WaitingIsRight S }
{}

/// A job has one result only, a shrinking too, and each valid job has one.
pub fn one_result()
    ensures one { OneResult }
    ensures some { SomeResult }
{}

/// A job has one number of events only, a shrinking too, and each valid job has one.
pub fn one_count()
    ensures one { OneCount }
    ensures some { SomeCount }
{}
