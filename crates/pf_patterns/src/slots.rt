//! Slots: the values of the variables in scope, and of the operands that need no step.

ghost use Rattle.std.specs.Prelude.{◌≡◌, drop, option_map, slice_get, IfOk};
ghost use Rattle.pf_terms.specs.Value.{same};
ghost use Rattle.pf_terms.specs.Term.{value_of};
ghost use Rattle.pf_syntax.specs.Pattern.{slot as variable};
ghost use Rattle.pf_syntax.specs.Module.{literal_at};
ghost use Rattle.pf_patterns.specs.Fit.{fit};
ghost use Rattle.pf_patterns.specs.Scopes.{scope_if};
ghost use Rattle.pf_patterns.specs.Slots.{activation};
ghost use Rattle.pf_patterns.specs.Operands.{IsOperand};

use pf_errors::NoMemory;
use pf_syntax::{LiteralId, Module, Operand};
use pf_terms::{List, Term, copy, equal};

/// The same value. Most are integers, and these need no call.
#[inline(always)]
pub fn copied(value: &Term) -> Result<Term, NoMemory>
    ensures { IfOk result (λ t. value_of t ≡ value_of value.now) }
{
    match value {
        Term::Int(n) => Ok(Term::Int(*n)),
        _ => copy(value),
    }
}

/// The value of a slot in the activation that begins at `base`.
pub fn slot(env: &[Term], base: usize, index: u32) -> Option<&Term>
    ensures { option_map (λ v. value_of v.now) result ≡ slice_get (activation env.now base) index }
{
    env.get(base..)?.get(index as usize)
}

/// Whether a value is that of a slot in the activation.
pub(crate) fn fits_slot(env: &[Term], base: usize, index: u32, value: &Term) -> bool
    ensures { fit (variable index) (value_of value.now) (activation env.now base)
        ≡ scope_if result (drop base env.now) }
{
    match slot(env, base, index) {
        Some(known) => equal(known, value),
        None => false,
    }
}

/// The literal of this number.
fn literal(code: &Module, id: LiteralId) -> Result<Term, NoMemory>
    ensures { IfOk result (λ t. value_of t ≡ literal_at code.now.tables id.0) }
{
    match code.literal(id) {
        Some(literal) => copy(literal),
        None => Ok(Term::List(List::Nil)),
    }
}

/// Whether a value is the literal of this number.
pub(crate) fn fits_literal(code: &Module, id: LiteralId, value: &Term) -> bool
    ensures { result ≡ same (literal_at code.now.tables id.0) (value_of value.now) }
{
    match code.literal(id) {
        Some(literal) => equal(literal, value),
        None => equal(&Term::List(List::Nil), value),
    }
}

/// The value of an operand that has one in place: a literal, or a variable in scope.
#[inline(always)]
pub fn operand(
    code: &Module,
    part: Operand,
    env: &[Term],
    base: usize,
) -> Result<Option<Term>, NoMemory>
    ensures { IfOk result (λ o. IsOperand code.now.tables (activation env.now base) part o) }
{
    match part {
        Operand::Slot(index) => match slot(env, base, index) {
            Some(value) => Ok(Some(copied(value)?)),
            None => Ok(None),
        },
        Operand::Int(n) => Ok(Some(Term::Int(n))),
        Operand::Atom(atom) => Ok(Some(Term::Atom(atom))),
        Operand::Nil => Ok(Some(Term::List(List::Nil))),
        Operand::Literal(id) => Ok(Some(literal(code, id)?)),
        Operand::Node(_) => Ok(None),
    }
}
