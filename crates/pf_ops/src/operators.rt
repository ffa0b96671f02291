//! Operators on two values.

ghost use Rattle.std.specs.Prelude.{◌≡◌, IfOk};
ghost use Rattle.pf_terms.specs.Term.{value_of};
ghost use Rattle.pf_terms.specs.Atoms.{name_of};
ghost use Rattle.pf_terms.specs.Order.{compare};
ghost use Rattle.pf_ops.specs.Operations.{is_less, operated};
ghost use Rattle.pf_ops.specs.Results.{answer_of};

use crate::answer::{Computed, truth};
use crate::arithmetic::on_integers;
use crate::build::append;
use pf_errors::NoMemory;
use pf_syntax::Operator;
use pf_terms::{AtomId, AtomTable, Term, equal, order};
use std::alloc::Global;
use std::cmp::Ordering;

/// Whether the first of two values is less.
#[inline(never)]
fn less(a: &Term, b: &Term, atoms: &AtomTable) -> bool
    ensures { result ≡ is_less (compare (name_of atoms.now) (value_of a.now) (value_of b.now)) }
{
    match order(a, b, atoms) {
        Ordering::Less => true,
        Ordering::Equal | Ordering::Greater => false,
    }
}

/// An operator on two values: what it evaluates to. It takes memory for `++` alone.
pub fn apply(
    alloc: Global,
    operator: Operator,
    a: &Term,
    b: &Term,
    atoms: &AtomTable,
) -> Result<Computed, NoMemory>
    ensures { IfOk result (λ r. answer_of r
        ≡ operated (name_of atoms.now) operator (value_of a.now) (value_of b.now)) }
{
    match (a, b) {
        (Term::Int(x), Term::Int(y)) => Ok(on_integers(operator, *x, *y)),
        _ => match operator {
            Operator::Plus
            | Operator::Minus
            | Operator::Times
            | Operator::Quotient
            | Operator::Remainder => Ok(Err(AtomId::BADARITH)),
            Operator::Append => append(alloc, a, b),
            Operator::Equal => Ok(Ok(truth(equal(a, b)))),
            Operator::Unequal => Ok(Ok(truth(!equal(a, b)))),
            Operator::Less => Ok(Ok(truth(less(a, b, atoms)))),
            Operator::AtMost => Ok(Ok(truth(!less(b, a, atoms)))),
            Operator::Greater => Ok(Ok(truth(less(b, a, atoms)))),
            Operator::AtLeast => Ok(Ok(truth(!less(a, b, atoms)))),
        },
    }
}
