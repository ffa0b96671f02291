//! The order of values: integer < atom < reference < pid < tuple < list (Erlang Reference Manual, "Term Comparisons").

ghost use Rattle.std.specs.Prelude.{◌≡◌, length};
ghost use Rattle.std.specs.Ordering.{nat_cmp, ordering_then};
ghost use Rattle.pf_terms.specs.Value.{count};
ghost use Rattle.pf_terms.specs.Order.{compare, compare_all};
ghost use Rattle.pf_terms.specs.Term.{elements_of, value_of, values_of};
ghost use Rattle.pf_terms.specs.Atoms.{name_of};

use crate::atoms::AtomTable;
use crate::term::{Elements, List, Term};
use std::cmp::Ordering;

/// The order of two values. Atoms are ordered by the bytes of their names, references and pids by number, tuples by
/// size and then element by element, lists element by element.
#[cycle(order)]
pub fn order(a: &Term, b: &Term, atoms: &AtomTable) -> Ordering
    ensures { result ≡ compare (name_of atoms.now) (value_of a.now) (value_of b.now) }
{
    match (a, b) {
        (Term::Int(x), Term::Int(y)) => x.cmp(y),
        (Term::Atom(x), Term::Atom(y)) => atoms.name(*x).cmp(&atoms.name(*y)),
        (Term::Ref(x), Term::Ref(y)) => x.cmp(y),
        (Term::Pid(x), Term::Pid(y)) => x.cmp(y),
        (Term::Tuple(xs), Term::Tuple(ys)) => order_elements(xs, ys, atoms),
        (Term::List(xs), Term::List(ys)) => order_lists(xs, ys, atoms),
        _ => a.rank().cmp(&b.rank()),
    }
}

#[cycle(order)]
fn order_lists(a: &List, b: &List, atoms: &AtomTable) -> Ordering
    ensures { result ≡ compare_all (name_of atoms.now) (elements_of a.now) (elements_of b.now) }
{
    let mut a = a;
    let mut b = b;
    loop {
        match a.split() {
            None => {
                return match b.split() {
                    None => Ordering::Equal,
                    Some(_) => Ordering::Less,
                };
            }
            Some((first, rest)) => match b.split() {
                None => return Ordering::Greater,
                Some((other, others)) => match order(first, other, atoms) {
                    Ordering::Equal => {
                        a = rest;
                        b = others;
                    }
                    decided => return decided,
                },
            },
        }
    }
}

#[cycle(order)]
fn order_elements(a: &Elements, b: &Elements, atoms: &AtomTable) -> Ordering
    ensures { result ≡ ordering_then (nat_cmp (count a.now) (count b.now))
        (compare_all (name_of atoms.now) a.now b.now) }
{
    let xs = a.as_slice();
    let ys = b.as_slice();
    match xs.len().cmp(&ys.len()) {
        Ordering::Equal => order_items(xs, ys, atoms),
        decided => decided,
    }
}

#[cycle(order)]
fn order_items(a: &[Term], b: &[Term], atoms: &AtomTable) -> Ordering
    ensures { result ≡ compare_all (name_of atoms.now) (values_of a.now) (values_of b.now) }
{
    match a {
        [] => match b {
            [] => Ordering::Equal,
            [_, ..] => Ordering::Less,
        },
        [x, xs @ ..] => match b {
            [] => Ordering::Greater,
            [y, ys @ ..] => match order(x, y, atoms) {
                Ordering::Equal => order_items(xs, ys, atoms),
                decided => decided,
            },
        },
    }
}
