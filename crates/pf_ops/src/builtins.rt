//! The built-in functions that only look at their arguments (Erlang Reference Manual, the module erlang).

ghost use Rattle.std.specs.Prelude.{◌≡◌, ℕ, option_map, slice_get, IfOk};
ghost use Rattle.pf_terms.specs.Value.{count, int, more, none, tuple};
ghost use Rattle.pf_terms.specs.Term.{elements_of, value_of, values_of};
ghost use Rattle.pf_ops.specs.Operations as spec;
ghost use Rattle.pf_ops.specs.Results.{answer_of};

use crate::answer::{Computed, truth};
use pf_errors::NoMemory;
use pf_patterns::copied;
use pf_syntax::Builtin;
use pf_terms::{AtomId, List, Term, nodes};

/// `hd`.
fn head(value: &Term) -> Result<Computed, NoMemory>
    ensures { IfOk result (λ r. answer_of r ≡ spec.head_of (value_of value.now)) }
{
    match value {
        Term::List(list) => match list.split() {
            Some((first, _)) => Ok(Ok(copied(first)?)),
            None => Ok(Err(AtomId::BADARG)),
        },
        _ => Ok(Err(AtomId::BADARG)),
    }
}

/// `tl`.
fn tail(value: &Term) -> Result<Computed, NoMemory>
    ensures { IfOk result (λ r. answer_of r ≡ spec.tail_of (value_of value.now)) }
{
    match value {
        Term::List(list) => match list.split() {
            Some((_, others)) => Ok(Ok(Term::List(others.share()?))),
            None => Ok(Err(AtomId::BADARG)),
        },
        _ => Ok(Err(AtomId::BADARG)),
    }
}

/// How many elements a list has.
fn count(list: &List) -> u32
    ensures { result ≡ count (elements_of list.now) }
{
    // Its contract bounds how many elements there are.
    let _nodes = list.nodes();
    let mut n = 0;
    let mut rest = list;
    while let Some((_, others)) = rest.split() {
        n += 1;
        rest = others;
    }
    n
}

/// `length`.
fn list_length(value: &Term) -> Computed
    ensures { answer_of result ≡ spec.list_length (value_of value.now) }
{
    match value {
        Term::List(list) => Ok(Term::Int(i64::from(count(list)))),
        _ => Err(AtomId::BADARG),
    }
}

/// `tuple_size`.
fn tuple_size(value: &Term) -> Computed
    ensures { answer_of result ≡ spec.tuple_length (value_of value.now) }
{
    match value {
        Term::Tuple(elements) => {
            // Its contract bounds how many elements there are.
            let _nodes = nodes(value);
            Ok(Term::Int(elements.as_slice().len() as i64))
        }
        _ => Err(AtomId::BADARG),
    }
}

/// The item at an index, counted from 0.
fn at(items: &[Term], index: usize) -> Option<&Term>
    ensures { option_map (λ v. v.now) result ≡ slice_get items.now index }
{
    items.get(index)
}

/// The element of this number, counted from 1.
fn item(number: i64, items: &[Term]) -> Result<Computed, NoMemory>
    ensures { IfOk result (λ r. answer_of r ≡ spec.element_of (int number) (tuple (values_of items.now))) }
{
    if number < 1 {
        return Ok(Err(AtomId::BADARG));
    }
    match at(items, number as usize - 1) {
        Some(found) => Ok(Ok(copied(found)?)),
        None => Ok(Err(AtomId::BADARG)),
    }
}

/// `element`.
fn element(number: &Term, value: &Term) -> Result<Computed, NoMemory>
    ensures { IfOk result (λ r. answer_of r ≡ spec.element_of (value_of number.now) (value_of value.now)) }
{
    match (number, value) {
        (Term::Int(number), Term::Tuple(elements)) => item(*number, elements.as_slice()),
        _ => Ok(Err(AtomId::BADARG)),
    }
}

/// A built-in function of no argument, in the process of this pid.
fn on_none(own: u32, builtin: Builtin) -> Option<Computed>
    ensures { option_map answer_of result ≡ spec.computed own builtin none }
{
    match builtin {
        Builtin::SelfPid => Some(Ok(Term::Pid(own))),
        _ => None,
    }
}

/// A built-in function of one argument.
fn on_one(builtin: Builtin, value: &Term) -> Result<Option<Computed>, NoMemory>
    ensures { IfOk result (λ o. (own : ℕ) → option_map answer_of o
        ≡ spec.computed own builtin (more (value_of value.now) none)) }
{
    match builtin {
        Builtin::Hd => Ok(Some(head(value)?)),
        Builtin::Tl => Ok(Some(tail(value)?)),
        Builtin::Length => Ok(Some(list_length(value))),
        Builtin::TupleSize => Ok(Some(tuple_size(value))),
        Builtin::IsInteger => Ok(Some(Ok(truth(matches!(value, Term::Int(_)))))),
        Builtin::IsAtom => Ok(Some(Ok(truth(matches!(value, Term::Atom(_)))))),
        Builtin::IsTuple => Ok(Some(Ok(truth(matches!(value, Term::Tuple(_)))))),
        Builtin::IsList => Ok(Some(Ok(truth(matches!(value, Term::List(_)))))),
        Builtin::IsPid => Ok(Some(Ok(truth(matches!(value, Term::Pid(_)))))),
        Builtin::IsReference => Ok(Some(Ok(truth(matches!(value, Term::Ref(_)))))),
        _ => Ok(None),
    }
}

/// A built-in function of two arguments.
fn on_two(builtin: Builtin, first: &Term, second: &Term) -> Result<Option<Computed>, NoMemory>
    ensures { IfOk result (λ o. (own : ℕ) → option_map answer_of o ≡ spec.computed own builtin
        (more (value_of first.now) (more (value_of second.now) none))) }
{
    match builtin {
        Builtin::Element => Ok(Some(element(first, second)?)),
        _ => Ok(None),
    }
}

/// A built-in function that only looks at its arguments, in the process of this pid: what it evaluates to. None for
/// the others, and for another number of arguments.
pub fn compute(own: u32, builtin: Builtin, arguments: &[Term]) -> Result<Option<Computed>, NoMemory>
    ensures { IfOk result (λ o. option_map answer_of o
        ≡ spec.computed own builtin (values_of arguments.now)) }
{
    match arguments {
        [] => Ok(on_none(own, builtin)),
        [value] => on_one(builtin, value),
        [first, second] => on_two(builtin, first, second),
        [_, _, _, ..] => Ok(None),
    }
}
