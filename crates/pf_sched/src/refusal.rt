//! Why a run can't be asked for.

ghost use Rattle.std.specs.Prelude.{◌≡◌};
ghost use Rattle.pf_sched.specs.Views.{code_of};

use pf_errors::Code;

/// Why a run can't be asked for.
#[derive(Clone, Copy, Debug, PartialEq, Eq)]
pub enum JobRefusal {
    /// `B2`: the module exports no function of this name without arguments.
    NoRoot,
    /// `P1`: there is no such property.
    NoProperty,
    /// `B6`: the limit isn't from 1 to 100,000, or the schedule has more than 100,000 numbers.
    OutOfRange,
    /// `B7`: a weight isn't from 1 to 9.
    WeightsOutOfRange,
}

impl JobRefusal {
    /// Its code.
    pub fn code(self) -> Code
        ensures { result ≡ code_of self }
    {
        match self {
            JobRefusal::NoRoot => Code::NoRoot,
            JobRefusal::NoProperty => Code::NoProperty,
            JobRefusal::OutOfRange => Code::OutOfRange,
            JobRefusal::WeightsOutOfRange => Code::WeightsOutOfRange,
        }
    }
}
