//! The micro-step of a call whose arguments are done.

ghost use Rattle.std.specs.Prelude.{IfOk};
ghost use Rattle.pf_stepper.specs.Sound.{Stacked};
ghost use Rattle.pf_stepper.specs.MicroSteps.{IsMicroStep};
ghost use Rattle.pf_stepper.specs.declared.frame.Callee.TheVariants as callee;

use crate::calls::call_builtin;
use crate::clauses::{first_clause, plain};
use crate::frame::{Callee, Focus, MicroStep};
use crate::outcomes::outcome;
use crate::stack::{Stack, cut};
use pf_errors::NoMemory;
use pf_ops::tuple;
use pf_syntax::{Builtin, FunctionId, Module};
use pf_terms::{AtomId, Term};
use std::alloc::Global;

impl Stack {
    /// A call of the last operands, or the tuple of them.
    #[inline(always)]
    pub(crate) fn enter(
        &mut self,
        alloc: Global,
        code: &Module,
        own: u32,
        callee: Callee,
        count: usize,
    ) -> Result<MicroStep, NoMemory>
        requires { Stacked self.old.env.items self.old.operands.items self.old.frames.items count }
        ensures { IfOk result (λ t. IsMicroStep code.now own self.old (Focus.Enter callee count) self.new t) }
    {
        match callee {
            Callee::Function(function) => self.call(alloc, code, own, function, count),
            Callee::Builtin(builtin) => self.builtin(alloc, code, own, builtin, count),
            Callee::Tuple => self.build(alloc, code, own, count),
        }
    }

    /// A call of an own function. The slots that no frame needs go: a call at the end of a body keeps none.
    #[inline(always)]
    fn call(
        &mut self,
        alloc: Global,
        code: &Module,
        own: u32,
        function: FunctionId,
        count: usize,
    ) -> Result<MicroStep, NoMemory>
        requires { Stacked self.old.env.items self.old.operands.items self.old.frames.items count }
        ensures { IfOk result (λ t.
            IsMicroStep code.now own self.old (Focus.Enter (callee.Function function) count) self.new t) }
    {
        match code.function(function) {
            None => Ok(MicroStep::Contracted(Focus::Raised(Term::Atom(AtomId::UNDEF)))),
            Some(found) => {
                let end = self.top();
                cut(&mut self.env, end);
                self.base = end;
                let from = self.operands.len() - count;
                let clauses = found.clauses.as_slice();
                if let Some(body) = plain(code, clauses, count) {
                    self.move_operands(from)?;
                    return Ok(MicroStep::Contracted(Focus::Eval(body)));
                }
                let values = &self.operands[from..];
                let body = first_clause(alloc, code, clauses, values, &mut self.env, own)?;
                cut(&mut self.operands, from);
                match body {
                    Some(body) => Ok(MicroStep::Contracted(Focus::Eval(body))),
                    None => Ok(MicroStep::Contracted(Focus::Raised(Term::Atom(
                        AtomId::FUNCTION_CLAUSE,
                    )))),
                }
            }
        }
    }

    /// A call of a built-in function.
    #[inline(never)]
    fn builtin(
        &mut self,
        alloc: Global,
        code: &Module,
        own: u32,
        builtin: Builtin,
        count: usize,
    ) -> Result<MicroStep, NoMemory>
        requires { Stacked self.old.env.items self.old.operands.items self.old.frames.items count }
        ensures { IfOk result (λ t.
            IsMicroStep code.now own self.old (Focus.Enter (callee.Builtin builtin) count) self.new t) }
    {
        let from = self.operands.len() - count;
        let done = call_builtin(alloc, own, builtin, &self.operands[from..])?;
        self.operands.truncate(from);
        Ok(done)
    }

    /// The tuple of the last operands.
    #[inline(never)]
    fn build(
        &mut self,
        alloc: Global,
        code: &Module,
        own: u32,
        count: usize,
    ) -> Result<MicroStep, NoMemory>
        requires { Stacked self.old.env.items self.old.operands.items self.old.frames.items count }
        ensures { IfOk result (λ t. IsMicroStep code.now own self.old (Focus.Enter callee.Tuple count) self.new t) }
    {
        let from = self.operands.len() - count;
        let elements = self.operands.split_off(from)?;
        Ok(MicroStep::Contracted(outcome(tuple(alloc, elements)?)))
    }
}
