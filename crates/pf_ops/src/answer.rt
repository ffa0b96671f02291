//! Answers of operators, and the atoms that stand for truth.

ghost use Rattle.std.specs.Prelude.{◌≡◌};
ghost use Rattle.pf_terms.specs.Term.{value_of};
ghost use Rattle.pf_ops.specs.Operations as spec;
ghost use Rattle.pf_ops.specs.Guards as guards;

use pf_terms::{AtomId, Term};

/// What an operator or a built-in function evaluates to: its value, or the reason that it raises.
pub type Computed = Result<Term, AtomId>;

/// The atom `true` or the atom `false`.
pub fn truth(value: bool) -> Term
    ensures { value_of result ≡ spec.truth value }
{
    Term::Atom(if value { AtomId::TRUE } else { AtomId::FALSE })
}

/// Whether a value is `true` or `false`; neither where it is another.
pub fn truth_of(value: &Term) -> Option<bool>
    ensures { result ≡ guards.truth_of (value_of value.now) }
{
    match value {
        Term::Atom(AtomId::TRUE) => Some(true),
        Term::Atom(AtomId::FALSE) => Some(false),
        _ => None,
    }
}
