//! Whether two values are the same.

ghost use Rattle.std.specs.Prelude.{◌≡◌};
ghost use Rattle.pf_terms.specs.Value.{same, same_all};
ghost use Rattle.pf_terms.specs.Term.{elements_of, value_of, values_of};

use crate::term::{Elements, List, Term};

/// Whether two values are the same, as `=:=` of Erlang asks.
#[cycle(equal)]
pub fn equal(a: &Term, b: &Term) -> bool
    ensures { result ≡ same (value_of a.now) (value_of b.now) }
{
    match (a, b) {
        (Term::Int(x), Term::Int(y)) => x == y,
        (Term::Atom(x), Term::Atom(y)) => x == y,
        (Term::Ref(x), Term::Ref(y)) => x == y,
        (Term::Pid(x), Term::Pid(y)) => x == y,
        (Term::Tuple(xs), Term::Tuple(ys)) => equal_elements(xs, ys),
        (Term::List(xs), Term::List(ys)) => equal_lists(xs, ys),
        _ => false,
    }
}

/// Whether two lists have the same elements.
#[cycle(equal)]
pub fn equal_lists(a: &List, b: &List) -> bool
    ensures { result ≡ same_all (elements_of a.now) (elements_of b.now) }
{
    let mut a = a;
    let mut b = b;
    loop {
        match a.split() {
            None => return b.split().is_none(),
            Some((first, rest)) => match b.split() {
                None => return false,
                Some((other, others)) => {
                    if !equal(first, other) {
                        return false;
                    }
                    a = rest;
                    b = others;
                }
            },
        }
    }
}

#[cycle(equal)]
fn equal_elements(a: &Elements, b: &Elements) -> bool
    ensures { result ≡ same_all a.now b.now }
{
    equal_items(a.as_slice(), b.as_slice())
}

#[cycle(equal)]
fn equal_items(a: &[Term], b: &[Term]) -> bool
    ensures { result ≡ same_all (values_of a.now) (values_of b.now) }
{
    match a {
        [] => match b {
            [] => true,
            [_, ..] => false,
        },
        [x, xs @ ..] => match b {
            [] => false,
            [y, ys @ ..] => equal(x, y) && equal_items(xs, ys),
        },
    }
}
