//! What a worker keeps between its runs.

use pf_system::Spare;
use std::alloc::Global;
use std::mem;

/// What runs leave for the next, emptied: what a run means depends on none of it.
#[derive(Drop)]
pub struct Scratch {
    spare: Spare,
}

impl Scratch {
    /// Nothing.
    pub fn new(alloc: Global) -> Scratch {
        Scratch {
            spare: Spare::new(alloc),
        }
    }

    /// Gives away what it keeps.
    pub(crate) fn take_spare(&mut self, alloc: Global) -> Spare {
        mem::replace(&mut self.spare, Spare::new(alloc))
    }

    /// Keeps this in place of what it had.
    pub(crate) fn put_spare(&mut self, spare: Spare) {
        self.spare = spare;
    }
}
