//! What a process asks the system for.

use pf_heap::Word;
use pf_model::Bond;
use pf_terms::AtomId;

/// An action, with the words of its operands (Erlang Reference Manual, "Processes"). `!` isn't among them: it has a
/// halt of its own.
#[derive(Clone, Copy)]
pub enum Act {
    /// `spawn`, `spawn_link` or `spawn_monitor`, by its bond.
    Spawn {
        bond: Bond,
        home: Word,
        function: Word,
        arguments: Word,
    },
    Link(Word),
    Unlink(Word),
    Monitor {
        kind: Word,
        other: Word,
    },
    /// `demonitor/1` has no options.
    Demonitor {
        reference: Word,
        options: Word,
    },
    /// `exit/2`.
    ExitOther {
        other: Word,
        reason: Word,
    },
    /// `process_flag/2`.
    SetFlag {
        flag: Word,
        setting: Word,
    },
    Register {
        name: Word,
        other: Word,
    },
    Unregister(Word),
    Whereis(Word),
    MakeRef,
}

/// What a call of a built-in function does: it asks for an action, ends the process with a reason, has a value, or
/// raises.
#[derive(Clone, Copy)]
pub enum Asked {
    Acts(Act),
    Exits(Word),
    Becomes(Word),
    Raises(AtomId),
}
