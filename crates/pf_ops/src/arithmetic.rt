//! Operators on integers of 64 bits (Erlang Reference Manual, "Arithmetic Expressions").

ghost use Rattle.std.specs.Prelude.{◌≡◌, ℕ, List, int_div, int_rem};
ghost use Rattle.pf_terms.specs.Value.{int};
ghost use Rattle.pf_terms.specs.Term.{value_of};
ghost use Rattle.pf_ops.specs.Arithmetic as spec;
ghost use Rattle.pf_ops.specs.Operations.{divided, operated};
ghost use Rattle.pf_ops.specs.Results.{answer_of, result_of};

use crate::answer::{Computed, truth};
use pf_syntax::Operator;
use pf_terms::{AtomId, Term};

/// An operator on two integers. It takes no memory.
pub fn on_integers(operator: Operator, x: i64, y: i64) -> Computed
    ensures { (name : ℕ → List ℕ) → answer_of result ≡ operated name operator (int x) (int y) }
{
    match operator {
        Operator::Plus => match x.checked_add(y) {
            Some(n) => Ok(Term::Int(n)),
            None => Err(AtomId::SYSTEM_LIMIT),
        },
        Operator::Minus => match x.checked_sub(y) {
            Some(n) => Ok(Term::Int(n)),
            None => Err(AtomId::SYSTEM_LIMIT),
        },
        Operator::Times => match x.checked_mul(y) {
            Some(n) => Ok(Term::Int(n)),
            None => Err(AtomId::SYSTEM_LIMIT),
        },
        Operator::Quotient => quotient(x, y),
        Operator::Remainder => remainder(x, y),
        Operator::Append => Err(AtomId::BADARG),
        Operator::Equal => Ok(truth(x == y)),
        Operator::Unequal => Ok(truth(x != y)),
        Operator::Less => Ok(truth(x < y)),
        Operator::AtMost => Ok(truth(x <= y)),
        Operator::Greater => Ok(truth(x > y)),
        Operator::AtLeast => Ok(truth(x >= y)),
    }
}

fn quotient(x: i64, y: i64) -> Computed
    ensures { answer_of result ≡ divided int_div x y }
{
    if y == 0 {
        return Err(AtomId::BADARITH);
    }
    match x.checked_div(y) {
        Some(n) => Ok(Term::Int(n)),
        None => Err(AtomId::SYSTEM_LIMIT),
    }
}

/// The least integer over -1 leaves 0, though its quotient passes 64 bits.
fn remainder(x: i64, y: i64) -> Computed
    ensures { answer_of result ≡ divided int_rem x y }
{
    if y == 0 {
        Err(AtomId::BADARITH)
    } else if y == -1 {
        Ok(Term::Int(0))
    } else {
        Ok(Term::Int(x % y))
    }
}

/// Unary minus; `Err` has the reason that it raises.
pub fn negated(a: &Term) -> Result<i64, AtomId>
    ensures { result_of result ≡ spec.negated (value_of a.now) }
{
    match a {
        Term::Int(x) => match x.checked_neg() {
            Some(n) => Ok(n),
            None => Err(AtomId::SYSTEM_LIMIT),
        },
        _ => Err(AtomId::BADARITH),
    }
}
