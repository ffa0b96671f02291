//! Whether a value fits a pattern, where nothing is bound and no memory is taken.

ghost use Rattle.std.specs.Prelude.{◌≡◌, is_some};
ghost use Rattle.pf_terms.specs.Value.{list as listed, same};
ghost use Rattle.pf_terms.specs.Term.{elements_of, value_of, values_of};
ghost use Rattle.pf_syntax.specs.Pattern.{slot as variable};
ghost use Rattle.pf_syntax.specs.Module.{literal_at, pattern_at};
ghost use Rattle.pf_patterns.specs.Fit as spec;
ghost use Rattle.pf_patterns.specs.Slots.{activation};
ghost use Rattle.pf_patterns.specs.Bindings.{seen_value};
ghost use Rattle.pf_patterns.specs.Walks.{cons_at, part_at, pattern_parts, scope_at, AllAreAt, AllWalkedAt, IsAtPart};
ghost use Rattle.pf_patterns.specs.Walks.{WalkedAt};

use crate::finding::find;
use crate::seen::{ValuePart, equal_seen};
use pf_syntax::{LiteralId, Module, PatternId, PatternNode};
use pf_terms::{List, Term, nodes};

/// A whole pattern and the value that is to fit it, over the values of the variables in scope.
#[derive(Clone, Copy)]
pub(crate) struct PatternWalk<'a> {
    code: &'a Module,
    scope: &'a [Term],
    pattern: PatternId,
    value: &'a Term,
}

/// Whether a part is the value of a slot in scope, where `bound` variables of the pattern are bound.
fn fits_index(walk: &PatternWalk, index: u32, value: ValuePart, bound: usize) -> bool
    ensures { spec.fit (variable index) (seen_value value.entry) (scope_at walk.now bound)
        ≡ spec.kept_if result (scope_at walk.now bound) }
{
    let index = index as usize;
    match walk.scope.get(index) {
        Some(known) => equal_seen(ValuePart::Whole(known), value),
        None => {
            let number = index - walk.scope.len();
            if number >= bound {
                return false;
            }
            match find(
                walk.code,
                walk.pattern,
                ValuePart::Whole(walk.value),
                number,
            ) {
                Ok(known) => equal_seen(known, value),
                Err(_) => false,
            }
        }
    }
}

/// Whether a part is the literal of this number.
fn is_literal(code: &Module, id: LiteralId, value: ValuePart) -> bool
    ensures { result ≡ same (literal_at code.now.tables id.0) (seen_value value.entry) }
{
    match code.literal(id) {
        Some(literal) => equal_seen(ValuePart::Whole(literal), value),
        None => equal_seen(ValuePart::Tail(&List::Nil), value),
    }
}

/// Whether a part fits, where n variables of the whole pattern are bound: how many then are.
#[cycle(walk)]
fn fits_part(walk: &PatternWalk, part: PatternId, value: ValuePart, bound: usize) -> Option<usize>
    requires { IsAtPart walk.now bound (part_at walk.now part) (seen_value value) }
    ensures { WalkedAt walk.now bound (part_at walk.now part) (seen_value value.entry) result }
{
    match walk.code.pattern(part) {
        None => Some(bound),
        Some(node) => match node {
            PatternNode::Any => Some(bound),
            PatternNode::New => Some(bound + 1),
            PatternNode::Slot(index) => fits_index(walk, *index, value, bound).then_some(bound),
            PatternNode::Int(n) => {
                matches!(value, ValuePart::Whole(Term::Int(other)) if n == other).then_some(bound)
            }
            PatternNode::Atom(atom) => {
                matches!(value, ValuePart::Whole(Term::Atom(other)) if atom == other).then_some(
                    bound,
                )
            }
            PatternNode::Nil => equal_seen(ValuePart::Tail(&List::Nil), value).then_some(bound),
            PatternNode::Literal(id) => is_literal(walk.code, *id, value).then_some(bound),
            PatternNode::Tuple(parts) => match value {
                ValuePart::Whole(Term::Tuple(elements)) => {
                    fits_all(walk, parts.as_slice(), elements.as_slice(), bound)
                }
                _ => None,
            },
            PatternNode::Cons(head, tail) => match value {
                ValuePart::Whole(Term::List(list)) | ValuePart::Tail(list) => {
                    fits_cons(walk, *head, *tail, list, bound)
                }
                _ => None,
            },
            PatternNode::Never => None,
        },
    }
}

/// Whether the first element of a list and what comes after it fit their patterns.
#[cycle(walk)]
fn fits_cons(
    walk: &PatternWalk,
    head: PatternId,
    tail: PatternId,
    list: &List,
    bound: usize,
) -> Option<usize>
    requires { IsAtPart walk.now bound (cons_at walk.now head tail) (listed (elements_of list.now)) }
    ensures { WalkedAt walk.now bound (cons_at walk.now head tail) (listed (elements_of list.now)) result }
{
    match list.split() {
        None => None,
        Some((first, others)) => {
            let bound = fits_part(walk, head, ValuePart::Whole(first), bound)?;
            fits_part(walk, tail, ValuePart::Tail(others), bound)
        }
    }
}

/// Whether each value fits its pattern, from left to right.
#[cycle(walk)]
fn fits_all(walk: &PatternWalk, parts: &[PatternId], values: &[Term], bound: usize) -> Option<usize>
    requires { AllAreAt walk.now bound (pattern_parts walk.now parts.now) (values_of values.now) }
    ensures { AllWalkedAt walk.now bound (pattern_parts walk.now parts.now) (values_of values.now) result }
{
    match parts {
        [] => match values {
            [] => Some(bound),
            [_, ..] => None,
        },
        [part, rest @ ..] => match values {
            [] => None,
            [first, others @ ..] => {
                let bound = fits_part(walk, *part, ValuePart::Whole(first), bound)?;
                fits_all(walk, rest, others, bound)
            }
        },
    }
}

/// Whether a value fits, in the activation that begins at `base`. It takes no memory: what the pattern binds
/// further left is found again in the value.
pub fn fits(code: &Module, pattern: PatternId, value: &Term, env: &[Term], base: usize) -> bool
    ensures { result ≡ is_some
        (spec.fit (pattern_at code.now.tables pattern.0) (value_of value.now) (activation env.now base)) }
{
    // Its contract bounds how many variables can be bound.
    let _nodes = nodes(value);
    let scope = env.get(base..).unwrap_or(&[]);
    let walk = PatternWalk {
        code,
        scope,
        pattern,
        value,
    };
    fits_part(&walk, pattern, ValuePart::Whole(value), 0).is_some()
}
