//! A law of processes over a heap: a function with an empty body, whose contract is the law.

ghost use Rattle.pf_turns.specs.Stays.{ProcessesStay};

/// A machine represents its process while others use the heap.
pub fn processes_stay()
    ensures { ProcessesStay }
{}
