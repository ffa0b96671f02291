//! What a frame finds at the node that it names.

ghost use Rattle.std.specs.Prelude.{◌≡◌};
ghost use Rattle.pf_syntax.specs.Module.{tree_at};
ghost use Rattle.pf_syntax.specs.Over.{clauses_over, part_over, parts_over, patterns_at};
ghost use Rattle.pf_stepper.specs.Lookups.{arguments_in, clauses_in, pairing_in, patterns_in, rest_in, right_in};

use crate::frame::Binary;
use pf_syntax::{Clause, Module, Node, NodeId, Operand, Operator, PatternId};

/// What takes two operands at a node with its right one; `+` and `[]` where nothing does.
pub(crate) fn operation(code: &Module, id: NodeId) -> (Binary, Operand)
    ensures binary { result.0 ≡ pairing_in (tree_at code.now.tables id.0) }
    ensures right { part_over code.now.tables result.1 ≡ right_in (tree_at code.now.tables id.0) }
{
    match code.node(id) {
        Some(Node::Binary(operator, _, right)) => (Binary::Operator(*operator), *right),
        Some(Node::Cons(_, right)) => (Binary::Cons, *right),
        Some(Node::Send(_, right)) => (Binary::Send, *right),
        Some(Node::AndAlso(_, right)) => (Binary::Operator(Operator::Plus), *right),
        Some(Node::OrElse(_, right)) => (Binary::Operator(Operator::Plus), *right),
        _ => (Binary::Operator(Operator::Plus), Operand::Nil),
    }
}

/// The arguments of the call at a node, or the elements of its tuple; none where it is neither.
pub(crate) fn arguments(code: &Module, id: NodeId) -> &[Operand]
    ensures { parts_over code.now.tables result.now ≡ arguments_in (tree_at code.now.tables id.0) }
{
    match code.node(id) {
        Some(Node::Call(_, arguments)) => arguments.as_slice(),
        Some(Node::Builtin(_, arguments)) => arguments.as_slice(),
        Some(Node::Tuple(elements)) => elements.as_slice(),
        _ => &[],
    }
}

/// The patterns of the match at a node, none where it is no match.
pub(crate) fn patterns(code: &Module, id: NodeId) -> &[PatternId]
    ensures { patterns_at code.now.tables result.now ≡ patterns_in (tree_at code.now.tables id.0) }
{
    match code.node(id) {
        Some(Node::Match(patterns, _)) => patterns.as_slice(),
        Some(Node::Bind(patterns, _, _)) => patterns.as_slice(),
        _ => &[],
    }
}

/// The rest of the body after the match at a node, `[]` where it is none.
pub(crate) fn rest(code: &Module, id: NodeId) -> Operand
    ensures { part_over code.now.tables result ≡ rest_in (tree_at code.now.tables id.0) }
{
    match code.node(id) {
        Some(Node::Bind(_, _, rest)) => *rest,
        _ => Operand::Nil,
    }
}

/// The clauses of the `case`, the `if` or the `receive` at a node, none where it has none.
pub(crate) fn clauses(code: &Module, id: NodeId) -> &[Clause]
    ensures { clauses_over code.now.tables result.now ≡ clauses_in (tree_at code.now.tables id.0) }
{
    match code.node(id) {
        Some(Node::Case(_, clauses)) => clauses.as_slice(),
        Some(Node::If(clauses)) => clauses.as_slice(),
        Some(Node::Receive(clauses)) => clauses.as_slice(),
        _ => &[],
    }
}
