//! The refusal of a source.

ghost use Rattle.std.specs.Prelude.{◌≡◌};
ghost use Rattle.pf_errors.specs.declared.fault.OrNoMemory.TheVariants.{Fault};

use crate::code::Code;
use crate::fault::OrNoMemory;
use std::fmt;

/// A refusal, and its offset in bytes from 0. It prints as `E6 at 41`.
#[derive(Clone, Copy, Debug, PartialEq, Eq)]
pub struct SourceRefusal {
    pub code: Code,
    pub offset: usize,
}

impl fmt::Display for SourceRefusal {
    ghost use Rattle.std.specs.Prelude.{Some};
    ghost use Rattle.pf_errors.specs.Codes.{refusal_text};

    ghost output = { λ refusal. Some (refusal_text refusal.code refusal.offset) };

    fn fmt<W: fmt::Write>(&self, f: &mut fmt::Formatter<W>) -> fmt::Result {
        write!(f, "{} at {}", self.code, self.offset)
    }
}

impl OrNoMemory<SourceRefusal> {
    /// The refusal of this code at this offset.
    pub fn refusal(code: Code, offset: usize) -> OrNoMemory<SourceRefusal>
        ensures { result ≡ Fault (record { code = code; offset = offset }) }
    {
        OrNoMemory::Fault(SourceRefusal { code, offset })
    }
}
