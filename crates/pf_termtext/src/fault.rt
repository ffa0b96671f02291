//! The refusal of a text.

ghost use Rattle.std.specs.Prelude.{◌≡◌};
ghost use Rattle.pf_termtext.specs.Texts.{no_term};

use pf_errors::OrNoMemory;
use std::error::Error;
use std::fmt;

/// What stops the reading of a text.
pub type Fault = OrNoMemory<NoTerm>;

/// A text is not what is printed of a term, or has an atom that the table lacks. It prints as its code.
#[derive(Clone, Copy, PartialEq, Eq, Debug)]
pub struct NoTerm;

impl fmt::Display for NoTerm {
    ghost use Rattle.std.specs.Prelude.{Some};
    ghost use Rattle.pf_termtext.specs.Texts.{no_term_text};

    ghost output = { λ _. Some no_term_text };

    fn fmt<W: fmt::Write>(&self, f: &mut fmt::Formatter<W>) -> fmt::Result {
        f.write_str("X1")
    }
}

impl Error for NoTerm {}

/// The refusal of a text.
pub(crate) fn no_term() -> Fault
    ensures { result ≡ no_term }
{
    OrNoMemory::Fault(NoTerm)
}
