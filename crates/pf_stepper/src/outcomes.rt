//! What a contraction gives.

ghost use Rattle.std.specs.Prelude.{IfOk};
ghost use Rattle.pf_terms.specs.Atoms.{name_of};
ghost use Rattle.pf_terms.specs.Term.{value_of};
ghost use Rattle.pf_ops.specs.Operations.{operated};
ghost use Rattle.pf_ops.specs.Results.{answer_of, result_of};
ghost use Rattle.pf_model.specs.Contraction.{worked_out};
ghost use Rattle.pf_stepper.specs.Pairs.{pair_change};
ghost use Rattle.pf_stepper.specs.MicroSteps.{IsOutcome, IsPairedUp};

use crate::frame::{Binary, Focus, MicroStep};
use pf_errors::NoMemory;
use pf_ops::{apply, cons, on_integers};
use pf_syntax::{Module, Operator};
use pf_terms::{AtomId, Term};
use std::alloc::Global;

/// A value, or a raise.
#[inline(always)]
pub(crate) fn outcome(answer: Result<Term, AtomId>) -> Focus
    ensures { IsOutcome (worked_out (answer_of answer)) result }
{
    match answer {
        Ok(value) => Focus::Value(value),
        Err(reason) => Focus::Raised(Term::Atom(reason)),
    }
}

/// The same of an integer.
#[inline(always)]
pub(crate) fn integer_outcome(answer: Result<i64, AtomId>) -> Focus
    ensures { IsOutcome (worked_out (result_of answer)) result }
{
    match answer {
        Ok(n) => Focus::Value(Term::Int(n)),
        Err(reason) => Focus::Raised(Term::Atom(reason)),
    }
}

/// An operator on operands that are not both integers.
#[inline(never)]
fn operate(
    alloc: Global,
    code: &Module,
    operator: Operator,
    left: &Term,
    right: &Term,
) -> Result<Focus, NoMemory>
    ensures { IfOk result (λ x. IsOutcome (worked_out (operated (name_of code.now.atoms)
        operator (value_of left.now) (value_of right.now))) x) }
{
    Ok(outcome(apply(alloc, operator, left, right, code.atoms())?))
}

/// What two operands contract to. The receiver of a message goes onto the operands that are there.
#[inline(always)]
pub(crate) fn pair_up(
    alloc: Global,
    code: &Module,
    binary: Binary,
    left: Term,
    right: Term,
    operands: &mut Vec<Term>,
) -> Result<MicroStep, NoMemory>
    ensures { IfOk result (λ r. IsPairedUp (pair_change (name_of code.now.atoms) binary
        (value_of left) (value_of right)) left operands.old.items operands.new.items r) }
{
    match binary {
        Binary::Operator(operator) => {
            let focus = match (&left, &right) {
                (Term::Int(x), Term::Int(y)) => outcome(on_integers(operator, *x, *y)),
                _ => operate(alloc, code, operator, &left, &right)?,
            };
            Ok(MicroStep::Contracted(focus))
        }
        Binary::Cons => Ok(MicroStep::Contracted(outcome(cons(alloc, left, right)?))),
        Binary::Send => {
            operands.push(left)?;
            Ok(MicroStep::Sends(right))
        }
    }
}
