//! Laws of the definitions: functions with empty bodies, whose contracts are the laws.

ghost use Rattle.pf_syntax.specs.Worked.{NamesBecomeSlots};

/// Worked bodies become what they should, and an unbound or an unsafe variable becomes nothing.
pub fn names_become_slots()
    ensures { NamesBecomeSlots }
{}
