//! What went wrong.

use pf_errors::NoMemory;
use std::alloc::{AllocError, AllocFailed};

/// What went wrong.
#[derive(Drop, Clone, Copy)]
pub struct Missed {
    pub what: &'static str,
}

impl Missed {
    pub fn that(what: &'static str) -> Missed {
        Missed { what }
    }
}

impl From<NoMemory> for Missed {
    fn from(_refused: NoMemory) -> Missed {
        Missed::that("memory ran out")
    }
}

impl From<AllocError> for Missed {
    fn from(_refused: AllocError) -> Missed {
        Missed::that("memory ran out")
    }
}

impl<T: Drop> From<AllocFailed<T>> for Missed {
    fn from(_refused: AllocFailed<T>) -> Missed {
        Missed::that("memory ran out")
    }
}
