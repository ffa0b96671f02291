//! Tuples and lists made of their elements, within the limits of a value.

ghost use Rattle.std.specs.Prelude.{◌≡◌, ◌↔◌, Err, IfOk, OnOk};
ghost use Rattle.pf_terms.specs.Value.{list, more, tuple, IsWithinLimits};
ghost use Rattle.pf_terms.specs.Term.{elements_of, value_of, values_of};
ghost use Rattle.pf_terms.specs.Faults.{past_limits};

use crate::term::{Cell, Elements, List, Term, size_of};
use pf_errors::{Code, OrNoMemory};
use std::alloc::Global;
use std::error::Error;
use std::fmt;
use std::sync::Arc;

/// A tuple or a list would be past the limits of a value. It prints as its code.
#[derive(Clone, Copy, PartialEq, Eq, Debug)]
pub struct TooLarge;

impl fmt::Display for TooLarge {
    ghost use Rattle.std.specs.Prelude.{Some};
    ghost use Rattle.pf_errors.specs.Codes.{code_text};
    ghost use Rattle.pf_errors.specs.declared.code.Code.TheVariants as table;

    ghost output = { λ _. Some (code_text table.TooLarge) };

    fn fmt<W: fmt::Write>(&self, f: &mut fmt::Formatter<W>) -> fmt::Result {
        write!(f, "{}", Code::TooLarge)
    }
}

impl Error for TooLarge {}

/// The tuple of these elements.
pub fn tuple_of(alloc: Global, items: Vec<Term>) -> Result<Term, OrNoMemory<TooLarge>>
    ensures made { IfOk result (λ t. value_of t ≡ tuple (values_of items.items)) }
    ensures within { OnOk result (IsWithinLimits (tuple (values_of items.items))) }
    ensures too_large { (result ≡ Err past_limits) ↔ (¬ IsWithinLimits (tuple (values_of items.items))) }
{
    match Elements::new(items) {
        Some(elements) => Ok(Term::Tuple(Arc::new(alloc, elements)?)),
        None => Err(OrNoMemory::Fault(TooLarge)),
    }
}

/// The list of these elements.
pub fn list_of(alloc: Global, items: Vec<Term>) -> Result<List, OrNoMemory<TooLarge>>
    ensures made { IfOk result (λ l. elements_of l ≡ values_of items.items) }
    ensures within { OnOk result (IsWithinLimits (list (values_of items.items))) }
    ensures too_large { (result ≡ Err past_limits) ↔ (¬ IsWithinLimits (list (values_of items.items))) }
{
    if size_of(&items).is_none() {
        return Err(OrNoMemory::Fault(TooLarge));
    }
    let mut items = items;
    let mut list = List::Nil;
    while let Some(item) = items.pop() {
        list = List::cons(alloc, item, list)?;
    }
    Ok(list)
}

impl List {
    /// The list of a first element and the elements of another list, which it shares.
    pub fn cons(alloc: Global, head: Term, tail: List) -> Result<List, OrNoMemory<TooLarge>>
        ensures made { IfOk result (λ l. elements_of l ≡ more (value_of head) (elements_of tail)) }
        ensures within { OnOk result (IsWithinLimits (list (more (value_of head) (elements_of tail)))) }
        ensures too_large { (result ≡ Err past_limits) ↔
            (¬ IsWithinLimits (list (more (value_of head) (elements_of tail)))) }
    {
        match Cell::new(head, tail) {
            Some(cell) => Ok(List::Cons(Arc::new(alloc, cell)?)),
            None => Err(OrNoMemory::Fault(TooLarge)),
        }
    }
}
