//! Why a call is refused.

ghost use Rattle.std.specs.Prelude.{◌≡◌};
ghost use Rattle.pf_book.specs.View.{code_of};

use pf_errors::Code;
use pf_quota as quota;
use pf_sched::JobRefusal;
use std::fmt;

/// Why a call is refused. It prints as its code.
#[derive(Clone, Copy, Debug, PartialEq, Eq)]
pub enum CallRefusal {
    /// `E1` to `E12`: the source is no module.
    Source(Code),
    /// `B1`: the project has no module of this number.
    NoModule,
    /// `B2`: the module exports no function of this name without arguments.
    NoRoot,
    /// `P1`: there is no such property.
    NoProperty,
    /// `B3`: the project has no trial of this ticket.
    NoTrial,
    /// `B4`: a trial that the project holds uses the module.
    ModuleInUse,
    /// `B5`: the trial has no result yet.
    NotDone,
    /// `B6`: the limit isn't from 1 to 100,000, the schedule has more than 100,000 numbers, or the runs of a shrinking
    /// aren't from 1 to 1,000.
    OutOfRange,
    /// `B7`: a weight isn't from 1 to 9.
    WeightsOutOfRange,
    /// `B8`: there is no such edition.
    NoEdition,
    /// `B9`: the project's desk has a later edition.
    EditionTooLow,
    /// `Q1` to `Q5`: the project would pass a limit.
    PastLimit(quota::LimitRefusal),
}

impl CallRefusal {
    /// Its code.
    pub fn code(self) -> Code
        ensures { result ≡ code_of self }
    {
        match self {
            CallRefusal::Source(code) => code,
            CallRefusal::NoModule => Code::NoModule,
            CallRefusal::NoRoot => Code::NoRoot,
            CallRefusal::NoProperty => Code::NoProperty,
            CallRefusal::NoTrial => Code::NoTrial,
            CallRefusal::ModuleInUse => Code::ModuleInUse,
            CallRefusal::NotDone => Code::NotDone,
            CallRefusal::OutOfRange => Code::OutOfRange,
            CallRefusal::WeightsOutOfRange => Code::WeightsOutOfRange,
            CallRefusal::NoEdition => Code::NoEdition,
            CallRefusal::EditionTooLow => Code::EditionTooLow,
            CallRefusal::PastLimit(limit) => limit.code(),
        }
    }
}

impl From<JobRefusal> for CallRefusal {
    ghost use Rattle.pf_sched.specs.Views as job;

    ghost from_gives = { λ refusal same. code_of same ≡ job.code_of refusal };

    fn from(refusal: JobRefusal) -> CallRefusal {
        match refusal {
            JobRefusal::NoRoot => CallRefusal::NoRoot,
            JobRefusal::NoProperty => CallRefusal::NoProperty,
            JobRefusal::OutOfRange => CallRefusal::OutOfRange,
            JobRefusal::WeightsOutOfRange => CallRefusal::WeightsOutOfRange,
        }
    }
}

impl fmt::Display for CallRefusal {
    ghost use Rattle.std.specs.Prelude.{Some};
    ghost use Rattle.pf_errors.specs.Codes.{code_text};

    ghost output = { λ r. Some (code_text (code_of r)) };

    fn fmt<W: fmt::Write>(&self, f: &mut fmt::Formatter<W>) -> fmt::Result {
        write!(f, "{}", self.code())
    }
}
