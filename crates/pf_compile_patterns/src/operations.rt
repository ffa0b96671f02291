//! Operations on a row of registers, whose result goes into a register.

ghost use Rattle.std.specs.Prelude.{◌≡◌, ◌+◌, IfOk, if◌then◌else◌};
ghost use Rattle.pf_syntax.specs.Forms as forms;
ghost use Rattle.pf_code.specs.declared.instruction.Operation.TheVariants as ops;
ghost use Rattle.pf_code.specs.declared.instruction.Source.TheVariants as source;

use crate::plan::{number, register_after};
use pf_code::{Operation, Source};
use pf_errors::NoMemory;
use pf_syntax::{Builtin, Operator, is_pure};

/// A tuple of the row.
pub fn tuple_of(into: u32, free: u32, count: usize) -> Result<Operation, NoMemory>
    ensures { IfOk result (λ o. o ≡ ops.Tuple into free count) }
{
    let count = number(count)?;
    Ok(Operation::Tuple(into, free, count))
}

/// A list of the first register of the row and the second.
pub fn cons_of(into: u32, free: u32) -> Result<Operation, NoMemory>
    ensures { IfOk result (λ o. o ≡ ops.Cons into (source.Register free) (source.Register (free + 1))) }
{
    let second = register_after(free, 1)?;
    Ok(Operation::Cons(into, Source::Register(free), Source::Register(second)))
}

/// An operator on the first two registers of the row.
pub fn binary_of(operator: Operator, into: u32, free: u32) -> Result<Operation, NoMemory>
    ensures { IfOk result (λ o.
        o ≡ ops.Binary operator into (source.Register free) (source.Register (free + 1))) }
{
    let second = register_after(free, 1)?;
    Ok(Operation::Binary(
        operator,
        into,
        Source::Register(free),
        Source::Register(second),
    ))
}

/// `!` on the first two registers of the row.
pub fn send_of(into: u32, free: u32) -> Result<Operation, NoMemory>
    ensures { IfOk result (λ o. o ≡ ops.Send into (source.Register free) (source.Register (free + 1))) }
{
    let second = register_after(free, 1)?;
    Ok(Operation::Send(into, Source::Register(free), Source::Register(second)))
}

/// Unary minus of the first register of the row.
pub fn negate_of(into: u32, free: u32) -> Operation
    ensures { result ≡ ops.Negate into (source.Register free) }
{
    Operation::Negate(into, Source::Register(free))
}

/// A built-in function of the row that only looks at its arguments.
pub fn pure_of(builtin: Builtin, into: u32, free: u32, count: usize) -> Result<Operation, NoMemory>
    ensures { IfOk result (λ o. o ≡ ops.Pure builtin into free count) }
{
    let count = number(count)?;
    Ok(Operation::Pure(builtin, into, free, count))
}

/// A built-in function of the row.
pub fn builtin_of(
    builtin: Builtin,
    into: u32,
    free: u32,
    count: usize,
) -> Result<Operation, NoMemory>
    ensures { IfOk result (λ o. o ≡ (if forms.is_pure builtin then ops.Pure builtin into free count
        else ops.Ask builtin into free count)) }
{
    let count = number(count)?;
    if is_pure(builtin) {
        Ok(Operation::Pure(builtin, into, free, count))
    } else {
        Ok(Operation::Ask(builtin, into, free, count))
    }
}
