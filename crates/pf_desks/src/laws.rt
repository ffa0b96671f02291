//! Laws of the definitions: functions with empty bodies, whose contracts are the laws.

ghost use Rattle.pf_desks.specs.Desks.{Isolation};
ghost use Rattle.pf_desks.specs.Legality.{Legality};
ghost use Rattle.pf_desks.specs.Limits.{LegalDesksAreInLimits, StaysInLimits};
ghost use Rattle.pf_desks.specs.Numbers.{LegalHistoriesReportEachOnce, NoNumberTwice};
ghost use Rattle.pf_desks.specs.Jobs.{TicketsStay};

/// Isolation: for every list of steps, of any length, in any order and of any number of projects, a project
/// gets the replies that it gets alone, along its own steps.
pub fn isolation()
    ensures { Isolation }
{}

/// Legality: for every list of steps, each project's desk is what its own history makes of an empty one, and the
/// history is legal.
pub fn legality()
    ensures { Legality }
{}

/// Limits of legal desks: each desk whose history is legal is within its limits, whoever made its calls and did its
/// work. Each desk of a world is one (`legality` of `pf_world`), and so is each that a closed farm leaves (the clause
/// `legal` of `Closing::note_count` of `pf_farm_state`): so it holds of the desks of `steps` and of `farm` alike.
pub fn legal_desks_are_in_limits()
    ensures { LegalDesksAreInLimits }
{}

/// Numbers of legal histories: the modules' numbers that a legal history notes are 1, 2, 3 and so on, and so are its
/// tickets. None is given twice, in `steps` or in `farm`, whose histories are legal.
pub fn legal_histories_report_each_once()
    ensures { LegalHistoriesReportEachOnce }
{}

/// Limits: for every list of steps, what each project's desk uses passes none of the limits of its edition.
pub fn stays_in_limits()
    ensures { StaysInLimits }
{}

/// Numbers: for every list of steps, the modules' numbers that a project is given are 1, 2, 3 and so on, and so are its
/// tickets. None is given twice.
pub fn no_number_twice()
    ensures { NoNumberTwice }
{}

/// Tickets: for every list of steps, whatever desks there are, a ticket that was given is for its job still: its trial,
/// if it is held yet, is of that job.
pub fn tickets_stay()
    ensures { TicketsStay }
{}
