//! Micro-steps until the process made its steps, asks for something or is at its end.

ghost use Rattle.std.specs.Prelude.{IfOk};
ghost use Rattle.pf_stepper.specs.MicroSteps.{IsMicroStep};
ghost use Rattle.pf_stepper.specs.Advanced.{Advanced, IsSound, RanFrom, stack_process};

use crate::act::Act;
use crate::frame::{Focus, MicroStep};
use crate::stack::{Stack, put};
use pf_errors::NoMemory;
use pf_ops::ending_reason;
use pf_syntax::{Module, NodeId};
use pf_terms::Term;
use std::alloc::Global;

/// A contraction was made; or the process sends a message to its last operand, asks for another action, is at the
/// `receive` of a node, returned a value, or is about to end with a reason.
#[derive(Drop)]
pub(crate) enum Advance {
    Changed(Focus),
    Sends(Term),
    Asks(Box<Act>),
    Awaits(NodeId),
    Returned(Term),
    Ended(Term),
}

impl Stack {
    /// One micro-step.
    #[inline(always)]
    fn micro_step(
        &mut self,
        alloc: Global,
        code: &Module,
        own: u32,
        focus: Focus,
    ) -> Result<MicroStep, NoMemory>
        requires { IsSound self.old focus }
        ensures { IfOk result (λ t. IsMicroStep code.now own self.old focus self.new t) }
    {
        match focus {
            Focus::Eval(part) => self.evaluate(alloc, code, own, part),
            Focus::Value(value) => self.give(alloc, code, own, value),
            Focus::Enter(callee, count) => self.enter(alloc, code, own, callee, count),
            Focus::Raised(reason) => Ok(MicroStep::Failed(reason)),
            Focus::Exited(reason) => Ok(MicroStep::Exits(reason)),
        }
    }

    /// One contraction, or what stops the process.
    #[inline(always)]
    fn advance(
        &mut self,
        alloc: Global,
        code: &Module,
        own: u32,
        first: Focus,
    ) -> Result<Advance, NoMemory>
        requires { IsSound self.old first }
        ensures { IfOk result (λ r. Advanced code.now own self.old first self.new r) }
    {
        let mut focus = first;
        loop {
            match self.micro_step(alloc, code, own, focus)? {
                MicroStep::Silent(next) => focus = next,
                MicroStep::Contracted(next) => return Ok(Advance::Changed(next)),
                MicroStep::Sends(message) => return Ok(Advance::Sends(message)),
                MicroStep::Asks(act) => return Ok(Advance::Asks(act)),
                MicroStep::Awaits(id) => return Ok(Advance::Awaits(id)),
                MicroStep::Returned(value) => return Ok(Advance::Returned(value)),
                MicroStep::Failed(raised) => {
                    return Ok(Advance::Ended(ending_reason(alloc, &raised)?));
                }
                MicroStep::Exits(reason) => return Ok(Advance::Ended(reason)),
            }
        }
    }

    /// Contractions up to this number, or to what stops the process: the steps that it made with it, and in `advance`
    /// where it got to.
    #[inline(never)]
    pub(crate) fn run(
        &mut self,
        alloc: Global,
        code: &Module,
        own: u32,
        first: Focus,
        left: u32,
        advance: &mut Advance,
    ) -> Result<u32, NoMemory>
        requires { IsSound self.old first }
        ensures { IfOk result (λ used.
            RanFrom code.now own left (stack_process code.now self.old first) self.new advance.new used) }
    {
        let mut focus = first;
        let mut used = 0;
        while used < left {
            used += self.hurry(alloc, code, own, &mut focus, left - used)?;
            if used == left {
                put(advance, Advance::Changed(focus));
                return Ok(used);
            }
            used += 1;
            if self.stops(code, own, &mut focus, advance)? {
                return Ok(used);
            }
            match self.advance(alloc, code, own, focus)? {
                Advance::Changed(next) => focus = next,
                stop => {
                    put(advance, stop);
                    return Ok(used);
                }
            }
        }
        put(advance, Advance::Changed(focus));
        Ok(used)
    }
}
