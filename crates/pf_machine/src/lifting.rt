//! What ends a turn, with terms for words.

ghost use Rattle.std.specs.Prelude.{◌≡◌, IfOk};
ghost use Rattle.pf_heap.specs.Heap.{IsWordOf};
ghost use Rattle.pf_actions.specs.Acts.{act_over, IsActOf};
ghost use Rattle.pf_stepper.specs.Acts.{act_of};
ghost use Rattle.pf_turns.specs.Turns.{IsStopOf};
ghost use Rattle.pf_machine.specs.Lifted.{IsMoveOf};

use pf_actions::Act;
use pf_errors::NoMemory;
use pf_heap::{Heap, Word};
use pf_stepper::{Act as Action, Move};
use pf_turns::Stop;
use std::alloc::Global;

/// An action with terms for its words.
fn lifted(alloc: Global, heap: &Heap, act: Act) -> Result<Action, NoMemory>
    requires { IsActOf heap.now act }
    ensures { IfOk result (λ a. act_of a ≡ act_over heap.now act) }
{
    match act {
        Act::Spawn {
            bond,
            home,
            function,
            arguments,
        } => Ok(Action::Spawn {
            bond,
            home: heap.lift(alloc, home)?,
            function: heap.lift(alloc, function)?,
            arguments: heap.lift(alloc, arguments)?,
        }),
        Act::Link(other) => Ok(Action::Link(heap.lift(alloc, other)?)),
        Act::Unlink(other) => Ok(Action::Unlink(heap.lift(alloc, other)?)),
        Act::Monitor { kind, other } => Ok(Action::Monitor {
            kind: heap.lift(alloc, kind)?,
            other: heap.lift(alloc, other)?,
        }),
        Act::Demonitor { reference, options } => Ok(Action::Demonitor {
            reference: heap.lift(alloc, reference)?,
            options: heap.lift(alloc, options)?,
        }),
        Act::ExitOther { other, reason } => Ok(Action::ExitOther {
            other: heap.lift(alloc, other)?,
            reason: heap.lift(alloc, reason)?,
        }),
        Act::SetFlag { flag, setting } => Ok(Action::SetFlag {
            flag: heap.lift(alloc, flag)?,
            setting: heap.lift(alloc, setting)?,
        }),
        Act::Register { name, other } => Ok(Action::Register {
            name: heap.lift(alloc, name)?,
            other: heap.lift(alloc, other)?,
        }),
        Act::Unregister(name) => Ok(Action::Unregister(heap.lift(alloc, name)?)),
        Act::Whereis(name) => Ok(Action::Whereis(heap.lift(alloc, name)?)),
        Act::MakeRef => Ok(Action::MakeRef),
    }
}

/// An action that a process asks for.
fn acted(alloc: Global, heap: &Heap, act: Act) -> Result<Move, NoMemory>
    requires { IsActOf heap.now act }
    ensures { IfOk result (IsMoveOf heap.now (Stop.Acts act)) }
{
    let action = lifted(alloc, heap, act)?;
    Ok(Move::Action(action))
}

/// A message that a process sends.
fn sent(alloc: Global, heap: &Heap, to: Word, message: Word) -> Result<Move, NoMemory>
    requires to { IsWordOf heap.now to }
    requires message { IsWordOf heap.now message }
    ensures { IfOk result (IsMoveOf heap.now (Stop.Sends to message)) }
{
    let receiver = heap.lift(alloc, to)?;
    let term = heap.lift(alloc, message)?;
    Ok(Move::Action(Action::Send {
        to: receiver,
        message: term,
    }))
}

/// The value that a process returns.
fn returned(alloc: Global, heap: &Heap, word: Word) -> Result<Move, NoMemory>
    requires { IsWordOf heap.now word }
    ensures { IfOk result (IsMoveOf heap.now (Stop.Returns word)) }
{
    let value = heap.lift(alloc, word)?;
    Ok(Move::End(Ok(value)))
}

/// The reason with which a process ends.
fn ended(alloc: Global, heap: &Heap, word: Word) -> Result<Move, NoMemory>
    requires { IsWordOf heap.now word }
    ensures { IfOk result (IsMoveOf heap.now (Stop.Ends word)) }
{
    let reason = heap.lift(alloc, word)?;
    Ok(Move::End(Err(reason)))
}

/// The move that a stop is, where no message is looked for.
pub(crate) fn move_of(alloc: Global, heap: &Heap, stop: Stop) -> Result<Move, NoMemory>
    requires { IsStopOf heap.now stop }
    ensures { IfOk result (IsMoveOf heap.now stop) }
{
    match stop {
        Stop::Cut => Ok(Move::Pure),
        Stop::Receives(_) => Ok(Move::Wait),
        Stop::Acts(act) => acted(alloc, heap, act),
        Stop::Sends(to, message) => sent(alloc, heap, to, message),
        Stop::Returns(word) => returned(alloc, heap, word),
        Stop::Ends(word) => ended(alloc, heap, word),
    }
}
