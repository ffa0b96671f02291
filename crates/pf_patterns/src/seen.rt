//! Parts of a value, seen in place.

ghost use Rattle.std.specs.Prelude.{◌≡◌, option_map, MatchOption};
ghost use Rattle.pf_terms.specs.Value.{list as listed, same};
ghost use Rattle.pf_patterns.specs.Bindings.{seen_value};

use pf_terms::{List, Term, equal, equal_lists};

/// A part of a value: one that is a term of its own, or what comes after an element of a list.
#[derive(Clone, Copy)]
pub(crate) enum ValuePart<'a> {
    Whole(&'a Term),
    Tail(&'a List),
}

/// Whether two parts are the same value.
pub(crate) fn equal_seen(a: ValuePart, b: ValuePart) -> bool
    ensures { result ≡ same (seen_value a.entry) (seen_value b.entry) }
{
    match (a, b) {
        (ValuePart::Whole(a), ValuePart::Whole(b)) => equal(a, b),
        (ValuePart::Whole(Term::List(a)), ValuePart::Tail(b)) => equal_lists(a, b),
        (ValuePart::Tail(a), ValuePart::Whole(Term::List(b))) => equal_lists(a, b),
        (ValuePart::Tail(a), ValuePart::Tail(b)) => equal_lists(a, b),
        _ => false,
    }
}
