//! The status of a process, and what ends a turn.

use pf_actions::Act;
use pf_heap::Word;

/// What a process does next: it begins with the call of its function, goes on at a place of its code, is at a
/// `receive`, whose message goes into a register, returns a value, or is about to end with a reason; or it waits for an
/// answer, which goes into a register. A turn that was cut within an instruction left no place to go on at.
#[derive(Clone, Copy)]
pub enum Status {
    Begins,
    Goes,
    Receives(u32),
    Returns(Word),
    Ends(Word),
    Asks(u32),
    Cut,
}

/// What ends a turn: no step is left; a `receive`, whose message goes into a register; an action; `!` of a destination
/// and a message; a value that the process returns; or a reason with which it ends.
#[derive(Clone, Copy)]
pub enum Stop {
    Cut,
    Receives(u32),
    Acts(Act),
    Sends(Word, Word),
    Returns(Word),
    Ends(Word),
}
