//! Terms that the system itself builds around a value. Where one would be too large, `system_limit` stands for
//! the value.

ghost use Rattle.std.specs.Prelude.{◌≡◌, if◌then◌else◌, Err, IfOk, OnOk};
ghost use Rattle.pf_terms.specs.Value.{atom, IsWithinLimits};
ghost use Rattle.pf_terms.specs.Term.{value_of};
ghost use Rattle.pf_terms.specs.Faults.{past_limits};
ghost use Rattle.pf_ops.specs.Reasons as spec;

use pf_errors::{NoMemory, OrNoMemory};
use pf_terms::{AtomId, List, Term, TooLarge, copy, tuple_of};
use std::alloc::Global;

fn pair(alloc: Global, first: Term, second: Term) -> Result<Term, OrNoMemory<TooLarge>>
    ensures made { IfOk result (λ t. value_of t ≡ spec.pair (value_of first) (value_of second)) }
    ensures within { OnOk result (IsWithinLimits (spec.pair (value_of first) (value_of second))) }
    ensures too_large { result ≡ Err past_limits
        → ¬ IsWithinLimits (spec.pair (value_of first) (value_of second)) }
{
    let items = vec![in alloc; first, second]?;
    tuple_of(alloc, items)
}

/// A pair, or a smaller one where it is too large.
fn pair_or(alloc: Global, wanted: (Term, Term), smaller: (Term, Term)) -> Result<Term, NoMemory>
    ensures { IfOk result (λ t. value_of t ≡ (
        let w = spec.pair (value_of wanted.0) (value_of wanted.1) in
        if spec.fits_limits w then w else spec.pair (value_of smaller.0) (value_of smaller.1))) }
{
    match pair(alloc, wanted.0, wanted.1) {
        Ok(term) => Ok(term),
        Err(OrNoMemory::NoMemory) => Err(NoMemory),
        Err(OrNoMemory::Fault(TooLarge)) => {
            pair(alloc, smaller.0, smaller.1).map_err(|_| NoMemory)
        }
    }
}

/// `{tag, value}`.
pub fn tagged(alloc: Global, tag: AtomId, value: &Term) -> Result<Term, NoMemory>
    ensures { IfOk result (λ t. value_of t ≡ spec.tagged (atom tag.0) (value_of value.now)) }
{
    let wanted = (Term::Atom(tag), copy(value)?);
    let smaller = (Term::Atom(tag), Term::Atom(AtomId::SYSTEM_LIMIT));
    pair_or(alloc, wanted, smaller)
}

/// `{reason, []}`, with which a process ends that raised the reason.
pub fn ending_reason(alloc: Global, reason: &Term) -> Result<Term, NoMemory>
    ensures { IfOk result (λ t. value_of t ≡ spec.ending_reason (value_of reason.now)) }
{
    let wanted = (copy(reason)?, Term::List(List::Nil));
    let smaller = (Term::Atom(AtomId::SYSTEM_LIMIT), Term::List(List::Nil));
    pair_or(alloc, wanted, smaller)
}
