//! The first of several faults.

ghost use Rattle.std.specs.Prelude.{◌≡◌, None};
ghost use Rattle.pf_static_check.specs.Earliest.{is_earlier, earlier, earliest_kept};

use pf_errors::{Code, SourceRefusal};

/// Whether a fault comes before another: at a lower offset, or there with a code that comes earlier in the table.
fn is_before(fault: SourceRefusal, other: SourceRefusal) -> bool
    ensures { result ≡ is_earlier fault other }
{
    fault.offset < other.offset
        || (fault.offset == other.offset && fault.code.rank() < other.code.rank())
}

/// The first of the faults that were noted.
#[derive(Clone, Copy)]
pub(crate) struct FirstFault {
    found: Option<SourceRefusal>,
}

impl FirstFault {
    /// Of no fault.
    pub(crate) fn new() -> FirstFault
        ensures { earliest_kept result ≡ None }
    {
        FirstFault { found: None }
    }

    /// Notes one more.
    pub(crate) fn note(&mut self, code: Code, offset: u32)
        ensures { earliest_kept self.new ≡ earlier (earliest_kept self.old) (record { code = code; offset = offset }) }
    {
        let fault = SourceRefusal {
            code,
            offset: offset as usize,
        };
        match self.found {
            Some(first) if !is_before(fault, first) => {}
            _ => self.found = Some(fault),
        }
    }

    /// The first of those that were noted.
    pub(crate) fn found(self) -> Option<SourceRefusal>
        ensures { result ≡ earliest_kept self }
    {
        self.found
    }
}
