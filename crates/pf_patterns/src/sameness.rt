//! Whether two patterns are the same, each with its module. Nothing here takes memory.

ghost use Rattle.std.specs.Prelude.{◌≡◌, Decides};
ghost use Rattle.pf_terms.specs.Term.{value_of};
ghost use Rattle.pf_syntax.specs.Pattern.{known};
ghost use Rattle.pf_syntax.specs.Module.{literal_at, pattern_at};
ghost use Rattle.pf_syntax.specs.Over.{pattern_over, patterns_at};
ghost use Rattle.pf_patterns.specs.Sameness.{same_each, same_pattern};

use crate::slots::fits_literal;
use pf_syntax::{LiteralId, Module, PatternId, PatternNode};
use pf_terms::{List, Term};

/// Whether two patterns are the same, each by its number in its module.
pub fn same_patterns(a: &Module, p: PatternId, b: &Module, q: PatternId) -> bool
    ensures { Decides result (pattern_at a.now.tables p.0 ≡ pattern_at b.now.tables q.0) }
{
    same_at(a, p, b, q)
}

/// Whether the patterns of two numbers are the same. A number that a module lacks is `_`.
#[cycle(same)]
fn same_at(a: &Module, p: PatternId, b: &Module, q: PatternId) -> bool
    ensures { result ≡ same_pattern (pattern_at a.now.tables p.0) (pattern_at b.now.tables q.0) }
{
    match a.pattern(p) {
        None => match b.pattern(q) {
            None => true,
            Some(other) => matches!(other, PatternNode::Any),
        },
        Some(node) => match b.pattern(q) {
            None => matches!(node, PatternNode::Any),
            Some(other) => same_nodes(a, node, b, other),
        },
    }
}

/// Whether a node is this value.
fn is_value(code: &Module, node: &PatternNode, value: &Term) -> bool
    ensures { result ≡ same_pattern (pattern_over code.now.tables node.now) (known (value_of value.now)) }
{
    match node {
        PatternNode::Int(n) => matches!(value, Term::Int(other) if n == other),
        PatternNode::Atom(atom) => matches!(value, Term::Atom(other) if atom == other),
        PatternNode::Nil => matches!(value, Term::List(list) if list.split().is_none()),
        PatternNode::Literal(id) => fits_literal(code, *id, value),
        _ => false,
    }
}

/// Whether a node is the literal of this number of another module.
fn is_literal(code: &Module, node: &PatternNode, other: &Module, id: LiteralId) -> bool
    ensures { result ≡ same_pattern (pattern_over code.now.tables node.now) (known (literal_at other.now.tables id.0)) }
{
    match other.literal(id) {
        Some(literal) => is_value(code, node, literal),
        None => is_value(code, node, &Term::List(List::Nil)),
    }
}

/// Whether two nodes are the same pattern.
#[cycle(same)]
fn same_nodes(a: &Module, node: &PatternNode, b: &Module, other: &PatternNode) -> bool
    ensures { result ≡ same_pattern (pattern_over a.now.tables node.now) (pattern_over b.now.tables other.now) }
{
    match other {
        PatternNode::Any => matches!(node, PatternNode::Any),
        PatternNode::New => matches!(node, PatternNode::New),
        PatternNode::Slot(index) => matches!(node, PatternNode::Slot(own) if own == index),
        PatternNode::Int(n) => is_value(a, node, &Term::Int(*n)),
        PatternNode::Atom(atom) => is_value(a, node, &Term::Atom(*atom)),
        PatternNode::Nil => is_value(a, node, &Term::List(List::Nil)),
        PatternNode::Literal(id) => is_literal(a, node, b, *id),
        PatternNode::Tuple(others) => match node {
            PatternNode::Tuple(parts) => same_parts(a, parts.as_slice(), b, others.as_slice()),
            _ => false,
        },
        PatternNode::Cons(first, rest) => match node {
            PatternNode::Cons(head, tail) => {
                same_at(a, *head, b, *first) && same_at(a, *tail, b, *rest)
            }
            _ => false,
        },
        PatternNode::Never => matches!(node, PatternNode::Never),
    }
}

/// Whether as many patterns are the same, one by one.
#[cycle(same)]
fn same_parts(a: &Module, parts: &[PatternId], b: &Module, others: &[PatternId]) -> bool
    ensures { result ≡ same_each (patterns_at a.now.tables parts.now) (patterns_at b.now.tables others.now) }
{
    match parts {
        [] => match others {
            [] => true,
            [_, ..] => false,
        },
        [part, parts @ ..] => match others {
            [] => false,
            [other, others @ ..] => {
                same_at(a, *part, b, *other) && same_parts(a, parts, b, others)
            }
        },
    }
}
