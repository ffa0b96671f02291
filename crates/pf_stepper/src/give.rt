//! The micro-step of a value: it goes to the innermost frame.

ghost use Rattle.std.specs.Prelude.{IfOk};
ghost use Rattle.pf_stepper.specs.Sound.{Stacked};
ghost use Rattle.pf_stepper.specs.MicroSteps.{Gave, Holds, IsMicroStep};
ghost use Rattle.pf_stepper.specs.declared.frame.Focus.TheVariants.{Value as finished};

use crate::frame::{Frame, FrameKind, MicroStep};
use crate::stack::Stack;
use pf_errors::NoMemory;
use pf_syntax::Module;
use pf_terms::Term;
use std::alloc::Global;

impl Stack {
    /// A value for the innermost frame. Where there is none, the process returned it.
    #[inline(always)]
    pub(crate) fn give(
        &mut self,
        alloc: Global,
        code: &Module,
        own: u32,
        value: Term,
    ) -> Result<MicroStep, NoMemory>
        requires { Stacked self.old.env.items self.old.operands.items self.old.frames.items 0 }
        ensures { IfOk result (λ t. IsMicroStep code.now own self.old (finished value) self.new t) }
    {
        match self.frames.pop() {
            None => Ok(MicroStep::Returned(value)),
            Some(frame) => self.fill(alloc, code, own, frame, value),
        }
    }

    /// A value for a frame that is not on the stack.
    #[inline(always)]
    pub(crate) fn fill(
        &mut self,
        alloc: Global,
        code: &Module,
        own: u32,
        frame: Frame,
        value: Term,
    ) -> Result<MicroStep, NoMemory>
        requires { Holds self.old frame }
        ensures { IfOk result (λ t. Gave code.now own self.old frame value self.new t) }
    {
        match frame.kind {
            FrameKind::BinaryLeft(id) => self.left_done(alloc, code, own, frame, id, value),
            FrameKind::BinaryRight(binary, id) => {
                self.right_done(alloc, code, own, frame, binary, id, value)
            }
            FrameKind::BinaryAfterSlot(binary, index, id) => {
                self.right_after_slot(alloc, code, own, frame, binary, index, id, value)
            }
            FrameKind::Negation(id) => self.negate(code, own, frame, id, value),
            FrameKind::Shortcut(decides, id) => self.shortcut(
                alloc, code, own, frame, decides, id, value,
            ),
            FrameKind::Argument(callee, id, done) => {
                self.argument_done(code, own, frame, callee, id, done, value)
            }
            FrameKind::Match(id, done) => self.match_one(alloc, code, own, frame, id, done, value),
            FrameKind::Bind(id, done) => self.bind_one(alloc, code, own, frame, id, done, value),
            FrameKind::Case(id) => self.select(alloc, code, own, frame, id, value),
        }
    }
}
