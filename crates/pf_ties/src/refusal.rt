//! The refusal of a name.

use std::error::Error;
use std::fmt;

/// A name can't be given, or isn't in use. It prints as the reason that is raised for it.
#[derive(Clone, Copy, PartialEq, Eq, Debug)]
pub struct BadArgument;

impl fmt::Display for BadArgument {
    ghost use Rattle.std.specs.Prelude.{Some};
    ghost use Rattle.pf_ties.specs.Refusals.{bad_argument_text};

    ghost output = { λ _. Some bad_argument_text };

    fn fmt<W: fmt::Write>(&self, f: &mut fmt::Formatter<W>) -> fmt::Result {
        f.write_str("badarg")
    }
}

impl Error for BadArgument {}
