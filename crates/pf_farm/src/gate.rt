//! What a worker calls for each slice.

ghost use Rattle.std.specs.Prelude.{◌<◌};
ghost use Rattle.pf_sched.specs.Slices.{SimulatesSlice};

use pf_sched::{Parked, Scratch, Slice, run_slice};
use std::alloc::Global;
use std::sync::Wait;

/// A slice that is due: of so many events, of a parked run, and the project and the ticket of its trial.
#[derive(Drop)]
pub struct DueSlice {
    pub project: u32,
    pub ticket: u64,
    pub parked: Parked,
    pub turns: u32,
}

/// What a worker calls for each slice of a run, without the farm's lock. It does what `run_slice` does, and may note
/// it, or wait.
pub trait Gate {
    fn slice<R: Wait>(&self, alloc: Global, rt: &R, due: DueSlice, scratch: &mut Scratch) -> Slice
        requires { 0 < due.turns }
        ensures { SimulatesSlice due.parked due.turns result };
}

/// The gate that only runs the slice.
pub struct Direct;

impl Gate for Direct {
    fn slice<R: Wait>(
        &self,
        alloc: Global,
        _rt: &R,
        due: DueSlice,
        scratch: &mut Scratch,
    ) -> Slice {
        run_slice(alloc, due.parked, scratch, due.turns)
    }
}
