//! The law of the definitions: a function with an empty body, whose contract is the law.

ghost use Rattle.pf_verdicts.specs.Laws.{FailureRepeats};

/// The failure of a further property is that of the job with this property, by the same seed.
pub fn failure_repeats()
    ensures { FailureRepeats }
{}
