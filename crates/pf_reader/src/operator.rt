//! Infixes: the one that comes first, and the node of one and its operands.

ghost use Rattle.std.specs.Prelude.{◌≡◌, option_map};
ghost use Rattle.pf_grammar.specs.Parse.{infix_ahead, joined_exprs};
ghost use Rattle.pf_syntax.specs.SyntaxTree.{expr_at, NodeTable};
ghost use Rattle.pf_syntax.specs.SyntaxTreeOver.{expr_over, ExprPartsAreThere, ExprRepresents};
ghost use Rattle.pf_reader.specs.View.{tokens_in};

use crate::token::Tokens;
use pf_grammar::{Infix, infix_of};
use pf_syntax::{ExprId, ExprNode};

/// The node of an infix and its operands.
pub(crate) fn joined(joint: Infix, left: ExprId, right: ExprId) -> ExprNode
    ensures meaning { (b : NodeTable) → expr_over b result ≡ joined_exprs joint
        (expr_at b left.0) (expr_at b right.0) }
    ensures is_there { (b : NodeTable) → ExprRepresents b left → ExprRepresents b right
        → ExprPartsAreThere b result }
{
    match joint {
        Infix::Operator(operator) => ExprNode::Binary(operator, left, right),
        Infix::AndAlso => ExprNode::AndAlso(left, right),
        Infix::OrElse => ExprNode::OrElse(left, right),
        Infix::Send => ExprNode::Send(left, right),
    }
}

/// The infix that comes first, where it fits, and what follows it.
pub(crate) fn infix_ahead<'a, 't>(
    guard: bool,
    floor: u32,
    level: u32,
    tokens: Tokens<'a, 't>,
) -> Option<(Infix, Tokens<'a, 't>)>
    ensures { option_map (λ x. (x.0, tokens_in x.1)) result ≡ infix_ahead guard floor level
        (tokens_in tokens.entry) }
{
    let (first, rest) = tokens.first()?;
    let infix = infix_of(first.kind)?;
    if infix.fits(guard, floor, level) {
        Some((infix, rest))
    } else {
        None
    }
}
