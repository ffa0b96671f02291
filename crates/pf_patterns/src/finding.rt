//! What a pattern binds, found again in the value without memory.

ghost use Rattle.pf_terms.specs.Value.{list as listed};
ghost use Rattle.pf_terms.specs.Term.{elements_of, values_of};
ghost use Rattle.pf_syntax.specs.Pattern.{cons_of};
ghost use Rattle.pf_syntax.specs.Module.{pattern_at};
ghost use Rattle.pf_syntax.specs.Over.{patterns_at};
ghost use Rattle.pf_patterns.specs.Bindings.{all_bindings, bindings, seen_value, IsBinding};

use crate::seen::ValuePart;
use pf_syntax::{Module, PatternId, PatternNode};
use pf_terms::{List, Term};

/// The binding of a number, counted from 0; past them all, how far past.
#[cycle(find)]
pub(crate) fn find<'a>(
    code: &Module,
    pattern: PatternId,
    value: ValuePart<'a>,
    number: usize,
) -> Result<ValuePart<'a>, usize>
    ensures { IsBinding (bindings (pattern_at code.now.tables pattern.0) (seen_value value.entry))
        number result }
{
    match code.pattern(pattern) {
        None => Err(number),
        Some(node) => match node {
            PatternNode::New => {
                if number == 0 {
                    Ok(value)
                } else {
                    Err(number - 1)
                }
            }
            PatternNode::Tuple(parts) => match value {
                ValuePart::Whole(Term::Tuple(elements)) => {
                    find_in(code, parts.as_slice(), elements.as_slice(), number)
                }
                _ => Err(number),
            },
            PatternNode::Cons(head, tail) => match value {
                ValuePart::Whole(Term::List(list)) | ValuePart::Tail(list) => {
                    find_cons(code, *head, *tail, list, number)
                }
                _ => Err(number),
            },
            _ => Err(number),
        },
    }
}

/// The binding of a number in the first element of a list or in what comes after it.
#[cycle(find)]
fn find_cons<'a>(
    code: &Module,
    head: PatternId,
    tail: PatternId,
    list: &'a List,
    number: usize,
) -> Result<ValuePart<'a>, usize>
    ensures { let pattern = cons_of (pattern_at code.now.tables head.0) (pattern_at code.now.tables tail.0) in
        IsBinding (bindings pattern (listed (elements_of list.now))) number result }
{
    match list.split() {
        None => Err(number),
        Some((first, others)) => match find(code, head, ValuePart::Whole(first), number) {
            Ok(found) => Ok(found),
            Err(left) => find(code, tail, ValuePart::Tail(others), left),
        },
    }
}

/// The binding of a number in values, each with its pattern.
#[cycle(find)]
fn find_in<'a>(
    code: &Module,
    patterns: &[PatternId],
    values: &'a [Term],
    number: usize,
) -> Result<ValuePart<'a>, usize>
    ensures { IsBinding (all_bindings (patterns_at code.now.tables patterns.now) (values_of values.now))
        number result }
{
    match patterns {
        [] => Err(number),
        [pattern, rest @ ..] => match values {
            [] => Err(number),
            [first, others @ ..] => match find(code, *pattern, ValuePart::Whole(first), number) {
                Ok(found) => Ok(found),
                Err(left) => find_in(code, rest, others, left),
            },
        },
    }
}
