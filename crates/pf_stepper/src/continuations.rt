//! What each kind of frame does with the value that it waited for. The frame has been taken off the stack.

ghost use Rattle.std.specs.Prelude.{◌≡◌, IfOk};
ghost use Rattle.pf_terms.specs.Term.{value_of};
ghost use Rattle.pf_ops.specs.Reasons.{no_case};
ghost use Rattle.pf_stepper.specs.MicroSteps.{Gave, Holds, IsChosen};
ghost use Rattle.pf_stepper.specs.declared.frame.FrameKind.TheVariants as kind;

use crate::clauses::choose;
use crate::frame::{Binary, Callee, Focus, Frame, FrameKind, MicroStep};
use crate::lookups::{arguments, clauses, operation, patterns, rest};
use crate::outcomes::{integer_outcome, pair_up};
use crate::stack::Stack;
use pf_errors::NoMemory;
use pf_ops::{negated, tagged, truth_of};
use pf_patterns::bind;
use pf_syntax::{Module, NodeId, Operand};
use pf_terms::{AtomId, Term};
use std::alloc::Global;

/// The body of the clause that was chosen for the value of a `case`, or the raise where there is none.
#[inline(always)]
pub(crate) fn chosen(alloc: Global, value: &Term, body: Option<Operand>) -> Result<Focus, NoMemory>
    ensures { IfOk result (λ x. IsChosen body (no_case (value_of value.now)) x) }
{
    match body {
        Some(body) => Ok(Focus::Eval(body)),
        None => Ok(Focus::Raised(tagged(alloc, AtomId::CASE_CLAUSE, value)?)),
    }
}

impl Stack {
    /// A left operand. The right one is next, or the operator where that one needs no micro-step.
    #[inline(always)]
    pub(crate) fn left_done(
        &mut self,
        alloc: Global,
        code: &Module,
        own: u32,
        frame: Frame,
        id: NodeId,
        value: Term,
    ) -> Result<MicroStep, NoMemory>
        requires kind { frame.kind ≡ kind.BinaryLeft id }
        requires sound { Holds self.old frame }
        ensures { IfOk result (λ t. Gave code.now own self.old frame value self.new t) }
    {
        self.resume(frame);
        let (binary, right) = operation(code, id);
        match self.operand(code, right)? {
            Some(other) => pair_up(alloc, code, binary, value, other, &mut self.operands),
            None => {
                self.operands.push(value)?;
                self.wait(code, FrameKind::BinaryRight(binary, id))?;
                Ok(MicroStep::Silent(Focus::Eval(right)))
            }
        }
    }

    /// Both operands.
    pub(crate) fn right_done(
        &mut self,
        alloc: Global,
        code: &Module,
        own: u32,
        frame: Frame,
        binary: Binary,
        id: NodeId,
        value: Term,
    ) -> Result<MicroStep, NoMemory>
        requires kind { frame.kind ≡ kind.BinaryRight binary id }
        requires sound { Holds self.old frame }
        ensures { IfOk result (λ t. Gave code.now own self.old frame value self.new t) }
    {
        match self.operands.pop() {
            Some(left) => pair_up(alloc, code, binary, left, value, &mut self.operands),
            None => Ok(MicroStep::Contracted(Focus::Raised(Term::Atom(AtomId::UNDEF)))),
        }
    }

    /// A right operand, after a left one that is in a slot.
    pub(crate) fn right_after_slot(
        &mut self,
        alloc: Global,
        code: &Module,
        own: u32,
        frame: Frame,
        binary: Binary,
        index: u32,
        id: NodeId,
        value: Term,
    ) -> Result<MicroStep, NoMemory>
        requires kind { frame.kind ≡ kind.BinaryAfterSlot binary index id }
        requires sound { Holds self.old frame }
        ensures { IfOk result (λ t. Gave code.now own self.old frame value self.new t) }
    {
        self.resume(frame);
        let left = self.slot_or_nil(index)?;
        pair_up(alloc, code, binary, left, value, &mut self.operands)
    }

    /// The operand of a minus.
    #[inline(never)]
    pub(crate) fn negate(
        &mut self,
        code: &Module,
        own: u32,
        frame: Frame,
        id: NodeId,
        value: Term,
    ) -> Result<MicroStep, NoMemory>
        requires kind { frame.kind ≡ kind.Negation id }
        requires sound { Holds self.old frame }
        ensures { IfOk result (λ t. Gave code.now own self.old frame value self.new t) }
    {
        Ok(MicroStep::Contracted(integer_outcome(negated(&value))))
    }

    /// The left side of `andalso` or `orelse`, which `decides` decides: itself, or else the right side.
    #[inline(never)]
    pub(crate) fn shortcut(
        &mut self,
        alloc: Global,
        code: &Module,
        own: u32,
        frame: Frame,
        decides: bool,
        id: NodeId,
        value: Term,
    ) -> Result<MicroStep, NoMemory>
        requires kind { frame.kind ≡ kind.Shortcut decides id }
        requires sound { Holds self.old frame }
        ensures { IfOk result (λ t. Gave code.now own self.old frame value self.new t) }
    {
        self.resume(frame);
        match truth_of(&value) {
            Some(truth) => {
                if truth == decides {
                    Ok(MicroStep::Contracted(Focus::Value(value)))
                } else {
                    let (_, right) = operation(code, id);
                    Ok(MicroStep::Contracted(Focus::Eval(right)))
                }
            }
            None => {
                let reason = tagged(alloc, AtomId::BADARG, &value)?;
                Ok(MicroStep::Contracted(Focus::Raised(reason)))
            }
        }
    }

    /// An argument: the others are next.
    pub(crate) fn argument_done(
        &mut self,
        code: &Module,
        own: u32,
        frame: Frame,
        callee: Callee,
        id: NodeId,
        done: u32,
        value: Term,
    ) -> Result<MicroStep, NoMemory>
        requires kind { frame.kind ≡ kind.Argument callee id done }
        requires sound { Holds self.old frame }
        ensures { IfOk result (λ t. Gave code.now own self.old frame value self.new t) }
    {
        self.resume(frame);
        self.operands.push(value)?;
        let count = done as usize + 1;
        self.pass(code, own, callee, id, arguments(code, id), count)
    }

    /// The value of a match at the end of a body: its next pattern.
    #[inline(never)]
    pub(crate) fn match_one(
        &mut self,
        alloc: Global,
        code: &Module,
        own: u32,
        frame: Frame,
        id: NodeId,
        done: usize,
        value: Term,
    ) -> Result<MicroStep, NoMemory>
        requires kind { frame.kind ≡ kind.Match id done }
        requires sound { Holds self.old frame }
        ensures { IfOk result (λ t. Gave code.now own self.old frame value self.new t) }
    {
        let patterns = patterns(code, id);
        match patterns.get(done) {
            None => Ok(MicroStep::Contracted(Focus::Value(value))),
            Some(pattern) => {
                self.resume(frame);
                if !bind(code, *pattern, &value, &mut self.env, frame.base)? {
                    let reason = tagged(alloc, AtomId::BADMATCH, &value)?;
                    return Ok(MicroStep::Contracted(Focus::Raised(reason)));
                }
                if done + 1 < patterns.len() {
                    self.wait(code, FrameKind::Match(id, done + 1))?;
                    Ok(MicroStep::Contracted(Focus::Value(value)))
                } else {
                    Ok(MicroStep::Contracted(Focus::Value(value)))
                }
            }
        }
    }

    /// The value of a match before a comma: its next pattern, or the rest of the body.
    #[inline(never)]
    pub(crate) fn bind_one(
        &mut self,
        alloc: Global,
        code: &Module,
        own: u32,
        frame: Frame,
        id: NodeId,
        done: usize,
        value: Term,
    ) -> Result<MicroStep, NoMemory>
        requires kind { frame.kind ≡ kind.Bind id done }
        requires sound { Holds self.old frame }
        ensures { IfOk result (λ t. Gave code.now own self.old frame value self.new t) }
    {
        self.resume(frame);
        match patterns(code, id).get(done) {
            None => Ok(MicroStep::Contracted(Focus::Eval(rest(code, id)))),
            Some(pattern) => {
                if !bind(code, *pattern, &value, &mut self.env, frame.base)? {
                    let reason = tagged(alloc, AtomId::BADMATCH, &value)?;
                    return Ok(MicroStep::Contracted(Focus::Raised(reason)));
                }
                self.wait(code, FrameKind::Bind(id, done + 1))?;
                Ok(MicroStep::Contracted(Focus::Value(value)))
            }
        }
    }

    /// The value of a `case`: the body of the first clause that it fits.
    #[inline(always)]
    pub(crate) fn select(
        &mut self,
        alloc: Global,
        code: &Module,
        own: u32,
        frame: Frame,
        id: NodeId,
        value: Term,
    ) -> Result<MicroStep, NoMemory>
        requires kind { frame.kind ≡ kind.Case id }
        requires sound { Holds self.old frame }
        ensures { IfOk result (λ t. Gave code.now own self.old frame value self.new t) }
    {
        self.resume(frame);
        let clauses = clauses(code, id);
        let body = choose(alloc, code, clauses, &value, &mut self.env, frame.base, own)?;
        Ok(MicroStep::Contracted(chosen(alloc, &value, body)?))
    }
}
