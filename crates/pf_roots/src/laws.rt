//! Laws of a collection: functions with empty bodies, whose contracts are the laws.

ghost use Rattle.pf_roots.specs.Moved.{ConstantsMove, ProcessesMove};
ghost use Rattle.pf_roots.specs.Kept.{KeptConstantsAre};
ghost use Rattle.pf_roots.specs.Puts.{PutMachinesAreKept};

/// A process whose words were moved has the status that it had.
pub fn processes_move()
    ensures { ProcessesMove }
{}

/// Constants that were moved are those that they were.
pub fn constants_move()
    ensures { ConstantsMove }
{}

/// Constants that kept their values are those of the same code.
pub fn kept_constants_are()
    ensures { KeptConstantsAre }
{}

/// A machine in whose place words of the same values were put is as it was, and the words that are left have the values
/// of the others.
pub fn put_machines_are_kept()
    ensures { PutMachinesAreKept }
{}
