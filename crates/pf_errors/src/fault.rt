//! A fault of a call that may also run out of memory.

use crate::memory::NoMemory;
use std::alloc::{AllocError, AllocFailed};
use std::error::Error;
use std::fmt;

/// An allocation failed, or this fault stopped the call. It prints as the one or the other.
#[derive(Clone, Copy, Debug, PartialEq, Eq, Drop)]
pub enum OrNoMemory<E> {
    NoMemory,
    Fault(E),
}

impl<E> From<NoMemory> for OrNoMemory<E> {
    ghost use Rattle.std.specs.Prelude.{◌≡◌};
    ghost use Rattle.pf_errors.specs.declared.fault.OrNoMemory.TheVariants as stops;

    ghost from_gives = { λ _ fault. fault ≡ stops.NoMemory };

    fn from(_refused: NoMemory) -> OrNoMemory<E> {
        OrNoMemory::NoMemory
    }
}

impl<E> From<AllocError> for OrNoMemory<E> {
    ghost use Rattle.std.specs.Prelude.{◌≡◌};
    ghost use Rattle.pf_errors.specs.declared.fault.OrNoMemory.TheVariants as stops;

    ghost from_gives = { λ _ fault. fault ≡ stops.NoMemory };

    fn from(_refused: AllocError) -> OrNoMemory<E> {
        OrNoMemory::NoMemory
    }
}

impl<E, T: Drop> From<AllocFailed<T>> for OrNoMemory<E> {
    ghost use Rattle.std.specs.Prelude.{◌≡◌};
    ghost use Rattle.pf_errors.specs.declared.fault.OrNoMemory.TheVariants as stops;

    ghost from_gives = { λ _ fault. fault ≡ stops.NoMemory };

    fn from(_refused: AllocFailed<T>) -> OrNoMemory<E> {
        OrNoMemory::NoMemory
    }
}

impl<E: fmt::Display> fmt::Display for OrNoMemory<E> {
    ghost use Rattle.pf_errors.specs.Codes.{text_or_no_memory};

    ghost output = { text_or_no_memory E.output };

    fn fmt<W: fmt::Write>(&self, f: &mut fmt::Formatter<W>) -> fmt::Result {
        match self {
            OrNoMemory::NoMemory => write!(f, "{NoMemory}"),
            OrNoMemory::Fault(fault) => write!(f, "{fault}"),
        }
    }
}

impl<E: fmt::Debug + fmt::Display + Drop> Error for OrNoMemory<E> {}
