//! Laws of the definitions: functions with empty bodies, whose contracts are the laws.

ghost use Rattle.pf_cli.specs.Args.{IsAlone, StatusesAgree};

/// Words that are refused, or ask for help or the version, have one status, whichever kind of error they fail by.
pub fn statuses_agree()
    ensures { StatusesAgree }
{}

/// A text for a schedule changes nothing of words that name no file for it.
pub fn is_alone()
    ensures { IsAlone }
{}
