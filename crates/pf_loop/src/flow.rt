//! Where an operation leads.

use pf_heap::Word;
use pf_syntax::{Builtin, FunctionId};
use pf_terms::AtomId;

/// Where an operation leads: on before, to the other place, or out of the activation. A row of registers is named by
/// its first one and how many there are.
#[derive(Clone, Copy)]
pub enum Flow {
    Next,
    Other,
    Fails(AtomId),
    Raises(Word),
    /// A built-in function whose answer goes into a register, on a row.
    Asks(Builtin, u32, u32, u32),
    /// `!` of a destination and a message.
    Sends(u32, Word, Word),
    /// A `receive`, whose message goes into a register.
    Awaits(u32),
    /// A clause picks the message.
    Takes,
    /// No clause picks the message in a register.
    Passes(u32),
    Calls(FunctionId, u32, u32),
    CallsLast(FunctionId, u32, u32),
    Returns(Word),
}

/// What stops a machine.
#[derive(Clone, Copy)]
pub enum Halt {
    /// The next instruction has more contractions than are left.
    Spent,
    /// A built-in function whose answer goes into a register, on a row.
    Asks(Builtin, u32, u32, u32),
    /// `!` of a destination and a message.
    Sends(u32, Word, Word),
    /// A `receive`, whose message goes into a register.
    Awaits(u32),
    /// A clause picks the message that is tested.
    Takes,
    /// No clause picks the message that is tested, which is in a register.
    Passes(u32),
    Raises(Word),
    Returns(Word),
    /// There is no instruction at the place, which is never so in sound code.
    Nowhere,
    /// The machine can go on: so many instructions take centuries.
    Paused,
}
