//! Where a process is in a node of which it worked out some parts.

ghost use Rattle.std.specs.Prelude.{◌≡◌, drop, find, map, option_map, unwrap_or};
ghost use Rattle.pf_syntax.specs.Module.{tree_at};
ghost use Rattle.pf_syntax.specs.Over.{part_over};
ghost use Rattle.pf_positions.specs.Innermost.{IsInnermostAt, next_part, stepping, takes_step};

use pf_syntax::{Module, Node, NodeId, Operand};

/// The node of an operand, if it is one.
fn node_of(module: &Module, operand: Operand) -> Option<NodeId>
    ensures { option_map (λ n. tree_at module.now.tables n.0) result
        ≡ stepping (part_over module.now.tables operand) }
{
    match operand {
        Operand::Node(id) => {
            module.node(id)?;
            Some(id)
        }
        _ => None,
    }
}

/// The operands after those that are done.
fn following(operands: &[Operand], done: usize) -> &[Operand]
    ensures { result.now ≡ drop done operands.now }
{
    &operands[done.min(operands.len())..]
}

/// The first of these operands that is a node.
fn first_node(module: &Module, operands: &[Operand]) -> Option<NodeId>
    ensures { option_map (λ n. tree_at module.now.tables n.0) result
        ≡ find takes_step (map (part_over module.now.tables) operands.now) }
{
    for operand in operands {
        if let Some(id) = node_of(module, *operand) {
            return Some(id);
        }
    }
    None
}

/// The first part of a node that is a node too, after those that are done.
fn next_part(module: &Module, id: NodeId, done: usize) -> Option<NodeId>
    ensures { option_map (λ n. tree_at module.now.tables n.0) result
        ≡ next_part done (tree_at module.now.tables id.0) }
{
    match module.node(id)? {
        Node::Tuple(parts) | Node::Call(_, parts) | Node::Builtin(_, parts) => {
            first_node(module, following(parts.as_slice(), done))
        }
        Node::Cons(a, b) | Node::Binary(_, a, b) | Node::Send(a, b) => {
            first_node(module, following(&[*a, *b], done))
        }
        Node::Negate(a)
        | Node::AndAlso(a, _)
        | Node::OrElse(a, _)
        | Node::Match(_, a)
        | Node::Bind(_, a, _)
        | Node::Case(a, _) => first_node(module, following(&[*a], done)),
        Node::If(_) | Node::Receive(_) => None,
    }
}

/// The node at which a process is once it worked out so many parts of a node.
pub(crate) fn innermost(module: &Module, node: NodeId, done: Option<u32>) -> NodeId
    ensures { IsInnermostAt (tree_at module.now.tables node.0) (unwrap_or done 0)
        (tree_at module.now.tables result.0) }
{
    let mut at = node;
    let mut following = done.unwrap_or(0) as usize;
    while let Some(part) = next_part(module, at, following) {
        at = part;
        following = 0;
    }
    at
}
