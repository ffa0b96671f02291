//! The arguments of a call, and the elements of a tuple.

ghost use Rattle.std.specs.Prelude.{◌≡◌, ◌≤◌, length, IfOk};
ghost use Rattle.pf_syntax.specs.Module.{tree_at};
ghost use Rattle.pf_syntax.specs.Over.{parts_over};
ghost use Rattle.pf_stepper.specs.Lookups.{arguments_in};
ghost use Rattle.pf_stepper.specs.Sound.{Stacked};
ghost use Rattle.pf_stepper.specs.MicroSteps.{CallPassed};

use crate::frame::{Callee, Focus, FrameKind, MicroStep};
use crate::stack::Stack;
use pf_errors::NoMemory;
use pf_syntax::{Module, NodeId, Operand};

/// A count of arguments as a frame notes it. It fails at 2^32, which no machine has the room for.
pub(crate) fn noted(count: usize) -> Result<u32, NoMemory>
    ensures { IfOk result (λ n. n ≡ count) }
{
    u32::try_from(count).map_err(|_| NoMemory)
}

impl Stack {
    /// The arguments of a call that is rare in code: out of line, so that the others stay small.
    #[inline(never)]
    pub(crate) fn pass_apart(
        &mut self,
        code: &Module,
        own: u32,
        callee: Callee,
        id: NodeId,
        arguments: &[Operand],
        from: usize,
    ) -> Result<MicroStep, NoMemory>
        requires node { parts_over code.now.tables arguments.now
            ≡ arguments_in (tree_at code.now.tables id.0) }
        requires stacked { Stacked self.old.env.items self.old.operands.items self.old.frames.items from }
        requires inside { self.old.base ≤ length self.old.env.items }
        ensures { IfOk result (λ t. CallPassed code.now own self.old callee id from self.new t) }
    {
        self.pass(code, own, callee, id, arguments, from)
    }

    /// The arguments of a call after the first `from`: those that need no micro-step of their own, and then the
    /// first that does, or the call.
    #[inline(always)]
    pub(crate) fn pass(
        &mut self,
        code: &Module,
        own: u32,
        callee: Callee,
        id: NodeId,
        arguments: &[Operand],
        from: usize,
    ) -> Result<MicroStep, NoMemory>
        requires node { parts_over code.now.tables arguments.now
            ≡ arguments_in (tree_at code.now.tables id.0) }
        requires stacked { Stacked self.old.env.items self.old.operands.items self.old.frames.items from }
        requires inside { self.old.base ≤ length self.old.env.items }
        ensures { IfOk result (λ t. CallPassed code.now own self.old callee id from self.new t) }
    {
        let mut count = from;
        while count < arguments.len() {
            let argument = arguments[count];
            match self.operand(code, argument)? {
                Some(value) => self.operands.push(value)?,
                None => {
                    let done = noted(count)?;
                    self.wait(code, FrameKind::Argument(callee, id, done))?;
                    return Ok(MicroStep::Silent(Focus::Eval(argument)));
                }
            }
            count += 1;
        }
        Ok(MicroStep::Silent(Focus::Enter(callee, count)))
    }
}
