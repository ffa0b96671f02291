//! Lists and tuples that an operator makes. One past the limits raises `system_limit`.

ghost use Rattle.std.specs.Prelude.{◌≡◌, IfOk};
ghost use Rattle.pf_terms.specs.Value.{list as listed, tuple as tupled};
ghost use Rattle.pf_terms.specs.Term.{elements_of, value_of, values_of};
ghost use Rattle.pf_ops.specs.Operations as spec;
ghost use Rattle.pf_ops.specs.Results.{answer_of};

use crate::answer::Computed;
use pf_errors::{NoMemory, OrNoMemory};
use pf_patterns::copied;
use pf_terms::{AtomId, List, Term, TooLarge, tuple_of};
use std::alloc::Global;

/// A list of a first element and a list.
pub fn cons(alloc: Global, first: Term, rest: Term) -> Result<Computed, NoMemory>
    ensures { IfOk result (λ r. answer_of r ≡ spec.consed (value_of first) (value_of rest)) }
{
    match rest {
        Term::List(list) => match List::cons(alloc, first, list) {
            Ok(list) => Ok(Ok(Term::List(list))),
            Err(OrNoMemory::NoMemory) => Err(NoMemory),
            Err(OrNoMemory::Fault(TooLarge)) => Ok(Err(AtomId::SYSTEM_LIMIT)),
        },
        _ => Ok(Err(AtomId::BADARG)),
    }
}

/// The tuple of these elements.
pub fn tuple(alloc: Global, items: Vec<Term>) -> Result<Computed, NoMemory>
    ensures { IfOk result (λ r. answer_of r ≡ spec.limited (tupled (values_of items.items))) }
{
    match tuple_of(alloc, items) {
        Ok(tuple) => Ok(Ok(tuple)),
        Err(OrNoMemory::NoMemory) => Err(NoMemory),
        Err(OrNoMemory::Fault(TooLarge)) => Ok(Err(AtomId::SYSTEM_LIMIT)),
    }
}

/// The elements of a list, each shared.
fn elements(alloc: Global, list: &List) -> Result<Vec<Term>, NoMemory>
    ensures { IfOk result (λ items. values_of items.items ≡ elements_of list.now) }
{
    let mut items = Vec::new(alloc);
    let mut rest = list;
    while let Some((first, others)) = rest.split() {
        items.push(copied(first)?)?;
        rest = others;
    }
    Ok(items)
}

/// These elements, and then those of a list, which is shared.
fn before(alloc: Global, items: Vec<Term>, list: List) -> Result<Computed, NoMemory>
    ensures { IfOk result (λ r. answer_of r
        ≡ spec.limited (listed (spec.values_before (values_of items.items) (elements_of list)))) }
{
    // Their contracts say that the list is within the limits.
    let _nodes = list.nodes();
    let _depth = list.depth();
    let mut items = items;
    let mut list = list;
    while let Some(item) = items.pop() {
        list = match List::cons(alloc, item, list) {
            Ok(longer) => longer,
            Err(OrNoMemory::NoMemory) => return Err(NoMemory),
            Err(OrNoMemory::Fault(TooLarge)) => return Ok(Err(AtomId::SYSTEM_LIMIT)),
        };
    }
    Ok(Ok(Term::List(list)))
}

/// `++` of two values: the elements of the left list, each shared, before the right one. It takes as long as the
/// left list is.
#[inline(never)]
pub(crate) fn append(alloc: Global, a: &Term, b: &Term) -> Result<Computed, NoMemory>
    ensures { IfOk result (λ r. answer_of r ≡ spec.appended (value_of a.now) (value_of b.now)) }
{
    match (a, b) {
        (Term::List(left), Term::List(right)) => {
            before(alloc, elements(alloc, left)?, right.share()?)
        }
        _ => Ok(Err(AtomId::BADARG)),
    }
}
