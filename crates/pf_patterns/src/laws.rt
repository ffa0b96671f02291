//! Laws of the definitions: functions with empty bodies, whose contracts are the laws.

ghost use Rattle.pf_patterns.specs.Fit.{FitIsRelation};

/// The function of fit answers as the relation holds between a pattern, a value and the variables around it.
pub fn fit_is_a_relation()
    ensures { FitIsRelation }
{}
