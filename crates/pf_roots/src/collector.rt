//! A collection over a whole run: its machines and its constants keep what they reach.

ghost use Rattle.std.specs.Prelude.{◌≡◌, ◌<◌, ◌≤◌, length, IsTrue, ◌↔◌, OnOk};
ghost use Rattle.std.specs.List.{All};
ghost use Rattle.pf_heap.specs.Heap.{IsWordOf};
ghost use Rattle.pf_roots.specs.Kept.{most_cells, AreKept, AreOver, ConstantsKept};

use crate::moving::{all_roots, move_all};
use pf_errors::NoMemory;
use pf_heap::{Heap, Word};
use pf_machine::Machine;
use std::alloc::Global;

/// How many cells lived at least, as collections are reckoned: a heap with few isn't worth one.
const FEW: usize = 4096;

/// When a run collects: where its heap has more than twice the cells that lived after the last collection.
#[derive(Drop, Clone, Copy, Debug, PartialEq, Eq)]
pub struct Collector {
    pub lived: usize,
}

/// Keeps what constants and machines reach, and lets the rest of a heap go. Each machine has the status that it had,
/// with whatever messages, and each constant its value. It fails where memory runs out, and then all is as it was.
pub fn collect(
    alloc: Global,
    heap: &mut Heap,
    constants: &mut Vec<Word>,
    machines: &mut [Machine],
) -> Result<(), NoMemory>
    requires constants { All (IsWordOf heap.old) constants.old.items }
    requires machines { AreOver heap.old machines.old }
    ensures constants { ConstantsKept heap.old constants.old.items heap.new constants.new.items }
    ensures machines { AreKept heap.old machines.old heap.new machines.new }
    ensures over { AreOver heap.new machines.new }
    ensures shorter { length heap.new ≤ length heap.old }
{
    let roots = all_roots(alloc, constants, machines)?;
    let moved = heap.collect(alloc, &roots)?;
    move_all(constants, machines, &moved);
    Ok(())
}

impl Collector {
    /// Nothing was collected yet.
    pub fn new() -> Collector
        ensures { result.lived ≡ 0 }
    {
        Collector { lived: 0 }
    }

    /// Whether a heap has grown past twice what lived last.
    pub fn is_due(&self, heap: &Heap) -> bool
        ensures { IsTrue result ↔ (most_cells self.now.lived < length heap.now) }
    {
        heap.len() > self.lived.max(FEW).saturating_mul(2)
    }

    /// Collects where the heap has grown past twice what lived last, and else does nothing.
    pub fn run(
        &mut self,
        alloc: Global,
        heap: &mut Heap,
        constants: &mut Vec<Word>,
        machines: &mut [Machine],
    ) -> Result<(), NoMemory>
        requires constants { All (IsWordOf heap.old) constants.old.items }
        requires machines { AreOver heap.old machines.old }
        ensures constants { ConstantsKept heap.old constants.old.items heap.new constants.new.items }
        ensures machines { AreKept heap.old machines.old heap.new machines.new }
        ensures over { AreOver heap.new machines.new }
        ensures shorter { length heap.new ≤ length heap.old }
        ensures untried { length heap.old ≤ most_cells self.old.lived → (heap.new ≡ heap.old)
            × (constants.new.items ≡ constants.old.items) × (machines.new ≡ machines.old)
            × (self.new ≡ self.old) }
        ensures lived { OnOk result (most_cells self.old.lived < length heap.old
            → self.new.lived ≡ length heap.new) }
    {
        if !self.is_due(heap) {
            return Ok(());
        }
        collect(alloc, heap, constants, machines)?;
        self.lived = heap.len();
        Ok(())
    }
}
