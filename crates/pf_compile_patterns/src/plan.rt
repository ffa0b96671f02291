//! Patterns: the tests that they make, in order, and the registers of what they bind.

ghost use Rattle.std.specs.Prelude.{◌≡◌, ◌<◌, ◌≤◌, ◌+◌, length, slice_get, IfOk, MatchOption, None, Some};
ghost use Rattle.pf_terms.specs.Term.{value_of};
ghost use Rattle.pf_syntax.specs.Pattern.{cons_of, known, slot, tuple_of};
ghost use Rattle.pf_syntax.specs.Module.{literal_at, pattern_at};
ghost use Rattle.pf_syntax.specs.Over.{patterns_at};
ghost use Rattle.pf_compile_patterns.specs.Maker.{code_of};
ghost use Rattle.pf_compile_patterns.specs.Planned.{fit_at, fit_row, AreBelow, HasBegun, Planned};

use crate::maker::Maker;
use pf_code::{Operation, Source};
use pf_errors::NoMemory;
use pf_syntax::{LiteralId, Module, PatternId, PatternNode};
use pf_terms::{List, Term, copy};

/// The registers of the variables in scope, the first register that is free, and tests to make.
#[derive(Drop)]
pub struct Plan {
    pub slots: Vec<u32>,
    pub free: u32,
    pub tests: Vec<Operation>,
}

impl Maker {
    /// A plan with these variables in scope, and no test yet.
    pub fn begin(&self, slots: &[u32], free: u32) -> Result<Plan, NoMemory>
        ensures { IfOk result (λ p. HasBegun slots.now free p) }
    {
        let mut begun = Vec::with_capacity(self.alloc, slots.len())?;
        for slot in slots {
            begun.push(*slot)?;
        }
        Ok(Plan {
            slots: begun,
            free,
            tests: Vec::new(self.alloc),
        })
    }

    /// Plans that a register fits a pattern.
    #[cycle(plan)]
    pub fn plan(
        &mut self,
        code: &Module,
        pattern: PatternId,
        subject: u32,
        plan: &mut Plan,
    ) -> Result<(), NoMemory>
        requires subject_below { subject < plan.old.free }
        requires slots_below { AreBelow plan.old.free plan.old.slots.items }
        ensures { IfOk result (λ _. Planned (code_of self.old) (code_of self.new) plan.old plan.new
            (fit_at (pattern_at code.now.tables pattern.0) subject)) }
    {
        match code.pattern(pattern) {
            None => Ok(()),
            Some(node) => match node {
                PatternNode::Any => Ok(()),
                PatternNode::New => {
                    plan.slots.push(subject)?;
                    Ok(())
                }
                PatternNode::Slot(index) => self.plan_slot(*index, subject, plan),
                PatternNode::Int(n) => self.plan_known(Term::Int(*n), subject, plan),
                PatternNode::Atom(atom) => self.plan_known(Term::Atom(*atom), subject, plan),
                PatternNode::Nil => self.plan_known(Term::List(List::Nil), subject, plan),
                PatternNode::Literal(id) => self.plan_literal(code, *id, subject, plan),
                PatternNode::Tuple(parts) => self.plan_tuple(code, parts.as_slice(), subject, plan),
                PatternNode::Cons(first, rest) => {
                    self.plan_cons(code, *first, *rest, subject, plan)
                }
                PatternNode::Never => {
                    plan.tests.push(Operation::Jump)?;
                    Ok(())
                }
            },
        }
    }

    /// Plans that a register has the value of a variable that is bound.
    fn plan_slot(&mut self, index: u32, subject: u32, plan: &mut Plan) -> Result<(), NoMemory>
        requires subject_below { subject < plan.old.free }
        requires slots_below { AreBelow plan.old.free plan.old.slots.items }
        ensures { IfOk result (λ _. Planned (code_of self.old) (code_of self.new) plan.old plan.new
            (fit_at (slot index) subject)) }
    {
        match slot_at(plan.slots.as_slice(), index) {
            Some(known) => {
                let known = *known;
                let test = Operation::Same(Source::Register(known), Source::Register(subject));
                plan.tests.push(test)?;
                Ok(())
            }
            None => {
                plan.tests.push(Operation::Jump)?;
                Ok(())
            }
        }
    }

    /// Plans that a register has this value.
    fn plan_known(&mut self, value: Term, subject: u32, plan: &mut Plan) -> Result<(), NoMemory>
        requires subject_below { subject < plan.old.free }
        requires slots_below { AreBelow plan.old.free plan.old.slots.items }
        ensures { IfOk result (λ _. Planned (code_of self.old) (code_of self.new) plan.old plan.new
            (fit_at (known (value_of value)) subject)) }
    {
        let constant = self.constant(value)?;
        let test = Operation::Same(Source::Constant(constant), Source::Register(subject));
        plan.tests.push(test)?;
        Ok(())
    }

    /// Plans that a register has the value of the literal of this number.
    fn plan_literal(
        &mut self,
        code: &Module,
        id: LiteralId,
        subject: u32,
        plan: &mut Plan,
    ) -> Result<(), NoMemory>
        requires subject_below { subject < plan.old.free }
        requires slots_below { AreBelow plan.old.free plan.old.slots.items }
        ensures { IfOk result (λ _. Planned (code_of self.old) (code_of self.new) plan.old plan.new
            (fit_at (known (literal_at code.now.tables id.0)) subject)) }
    {
        let value = literal(code, id)?;
        self.plan_known(value, subject, plan)
    }

    /// Plans that a register is a list whose first element and tail fit.
    #[cycle(plan)]
    fn plan_cons(
        &mut self,
        code: &Module,
        first: PatternId,
        rest: PatternId,
        subject: u32,
        plan: &mut Plan,
    ) -> Result<(), NoMemory>
        requires subject_below { subject < plan.old.free }
        requires slots_below { AreBelow plan.old.free plan.old.slots.items }
        ensures { IfOk result (λ _. Planned (code_of self.old) (code_of self.new) plan.old plan.new
            (fit_at (cons_of (pattern_at code.now.tables first.0) (pattern_at code.now.tables rest.0)) subject)) }
    {
        let head = plan.free;
        let tail = register_after(head, 1)?;
        plan.tests
            .push(Operation::Pair(Source::Register(subject), head))?;
        plan.free = register_after(tail, 1)?;
        self.plan(code, first, head, plan)?;
        self.plan(code, rest, tail, plan)
    }

    /// Plans that a register is a tuple whose elements fit.
    #[cycle(plan)]
    fn plan_tuple(
        &mut self,
        code: &Module,
        parts: &[PatternId],
        subject: u32,
        plan: &mut Plan,
    ) -> Result<(), NoMemory>
        requires subject_below { subject < plan.old.free }
        requires slots_below { AreBelow plan.old.free plan.old.slots.items }
        ensures { IfOk result (λ _. Planned (code_of self.old) (code_of self.new) plan.old plan.new
            (fit_at (tuple_of (patterns_at code.now.tables parts.now)) subject)) }
    {
        let first = plan.free;
        let size = number(parts.len())?;
        plan.tests
            .push(Operation::Parts(Source::Register(subject), size, first))?;
        plan.free = register_after(first, size)?;
        self.plan_row(code, parts, first, plan)
    }

    /// Plans that the registers of a row fit their patterns, from left to right.
    #[cycle(plan)]
    pub fn plan_row(
        &mut self,
        code: &Module,
        parts: &[PatternId],
        first: u32,
        plan: &mut Plan,
    ) -> Result<(), NoMemory>
        requires row_below { first + length parts.now ≤ plan.old.free }
        requires slots_below { AreBelow plan.old.free plan.old.slots.items }
        ensures { IfOk result (λ _. Planned (code_of self.old) (code_of self.new) plan.old plan.new
            (fit_row (patterns_at code.now.tables parts.now) first (length parts.now))) }
    {
        match parts {
            [] => Ok(()),
            [part, rest @ ..] => {
                self.plan(code, *part, first, plan)?;
                self.plan_row(code, rest, first + 1, plan)
            }
        }
    }
}

/// The register of a variable in scope.
pub fn slot_at(slots: &[u32], index: u32) -> Option<&u32>
    ensures { MatchOption result (slice_get slots.now index ≡ None) (λ s. slice_get slots.now index ≡ Some s.now) }
{
    slots.get(index as usize)
}

/// The register so many after this one.
pub fn register_after(register: u32, count: u32) -> Result<u32, NoMemory>
    ensures { IfOk result (λ n. n ≡ register + count) }
{
    match register.checked_add(count) {
        Some(n) => Ok(n),
        None => Err(NoMemory),
    }
}

/// A number of 32 bits.
pub fn number(n: usize) -> Result<u32, NoMemory>
    ensures { IfOk result (λ k. k ≡ n) }
{
    u32::try_from(n).map_err(|_| NoMemory)
}

/// The literal of this number.
pub fn literal(code: &Module, id: LiteralId) -> Result<Term, NoMemory>
    ensures { IfOk result (λ t. value_of t ≡ literal_at code.now.tables id.0) }
{
    match code.literal(id) {
        Some(literal) => copy(literal),
        None => Ok(Term::List(List::Nil)),
    }
}
