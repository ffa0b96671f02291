//! What fails at a reader or a writer.

use pf_errors::OrNoMemory;
use std::error::Error;
use std::{fmt, io};

/// A call of a reader or of a writer failed. It prints which of the two.
#[derive(Debug, Drop)]
pub enum StreamFault {
    Read(io::Error),
    Write(io::Error),
}

impl StreamFault {
    /// Why the call failed.
    pub fn error(&self) -> &io::Error {
        match self {
            StreamFault::Read(error) => error,
            StreamFault::Write(error) => error,
        }
    }
}

impl fmt::Display for StreamFault {
    ghost use Rattle.std.specs.Prelude.{Some};
    ghost use Rattle.pf_streams.specs.Streams.{stream_text};

    ghost output = { λ fault. Some (stream_text fault) };

    fn fmt<W: fmt::Write>(&self, f: &mut fmt::Formatter<W>) -> fmt::Result {
        f.write_str(match self {
            StreamFault::Read(_) => "the input can't be read",
            StreamFault::Write(_) => "the output can't be written",
        })
    }
}

impl Error for StreamFault {}

impl From<StreamFault> for OrNoMemory<StreamFault> {
    ghost use Rattle.std.specs.Prelude.{◌≡◌};
    ghost use Rattle.pf_errors.specs.declared.fault.OrNoMemory.TheVariants.{Fault};

    ghost from_gives = { λ stream fault. fault ≡ Fault stream };

    fn from(fault: StreamFault) -> OrNoMemory<StreamFault> {
        OrNoMemory::Fault(fault)
    }
}
