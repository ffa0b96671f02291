//! Parts that were read into a syntax tree, and what follows each of them.

ghost use Rattle.std.specs.Prelude.{◌≡◌, if◌then◌else◌, IfOk, None, Some};
ghost use Rattle.pf_syntax.specs.SyntaxTreeOver.{expr_over, expr_pattern_over, ExprPartsAreThere, ExprRepresents};
ghost use Rattle.pf_syntax.specs.SyntaxTree.{NodeTable};
ghost use Rattle.pf_syntax.specs.SyntaxTreeOver.{condition_over, ConditionRepresents};
ghost use Rattle.pf_syntax.specs.SyntaxTreeOver.{ExprPatternPartsAreThere, ExprPatternRepresents};
ghost use Rattle.pf_grammar.specs.Parse.{is_short, within};
ghost use Rattle.pf_grammar.specs.Grammar.{unguarded};
ghost use Rattle.pf_syntax.specs.Expr as expressions;
ghost use Rattle.pf_syntax.specs.ExprPattern as patterns;
ghost use Rattle.pf_reader.specs.View.{tokens_in};
ghost use Rattle.pf_reader.specs.Given.{expression_seen, seen_expr_pattern, Gives, Grown};

use crate::fault::{ReadFault, Syntax};
use crate::token::Tokens;
use pf_errors::{NoMemory, OrNoMemory};
use pf_syntax::{Condition, ExprId, ExprNode, ExprPatternId, ExprPatternNode, SyntaxTree, Tests};
use pf_tokens::MOST_TEXT_CHARACTERS;
use std::alloc::Global;

/// An expression that was read, and what follows it.
#[derive(Clone, Copy)]
pub(crate) struct ReadOperand<'a, 't> {
    pub expr: ExprId,
    pub rest: Tokens<'a, 't>,
}

/// A pattern that was read, and what follows it.
#[derive(Clone, Copy)]
pub(crate) struct ExprPatternPart<'a, 't> {
    pub expr_pattern: ExprPatternId,
    pub rest: Tokens<'a, 't>,
}

/// What is before the arrow of a clause, and what follows it.
#[derive(Drop)]
pub(crate) struct FrontPart<'a, 't> {
    pub expr_pattern: ExprPatternId,
    pub condition: Condition,
    pub rest: Tokens<'a, 't>,
}

/// No guard: one alternative with no test.
pub(crate) fn unguarded(alloc: Global) -> Result<Condition, NoMemory>
    ensures meaning { IfOk result (λ g. (b : NodeTable) → condition_over b g ≡ unguarded) }
    ensures is_there { IfOk result (λ g. (b : NodeTable) → ConditionRepresents b g) }
{
    let mut alternatives = Vec::new(alloc);
    alternatives.push(Tests {
        tests: Vec::new(alloc),
    })?;
    Ok(Condition { alternatives })
}

/// Adds a pattern.
pub(crate) fn put_expr_pattern<'a, 't>(
    syntax: &mut SyntaxTree,
    node: ExprPatternNode,
    rest: Tokens<'a, 't>,
) -> Result<ExprPatternPart<'a, 't>, ReadFault>
    requires { ExprPatternPartsAreThere syntax.old.node_table node }
    ensures grown { Grown syntax.old syntax.new }
    ensures is_there { IfOk result (λ p. ExprPatternRepresents syntax.new.node_table p.expr_pattern) }
    ensures given { Gives (seen_expr_pattern syntax.new.node_table) result
        (Some (expr_pattern_over syntax.old.node_table node, tokens_in rest.entry)) }
{
    let expr_pattern = syntax.add_expr_pattern(node)?;
    Ok(ExprPatternPart { expr_pattern, rest })
}

/// Adds an expression.
pub(crate) fn put<'a, 't>(
    syntax: &mut SyntaxTree,
    node: ExprNode,
    rest: Tokens<'a, 't>,
) -> Result<ReadOperand<'a, 't>, ReadFault>
    requires { ExprPartsAreThere syntax.old.node_table node }
    ensures grown { Grown syntax.old syntax.new }
    ensures is_there { IfOk result (λ p. ExprRepresents syntax.new.node_table p.expr) }
    ensures given { Gives (expression_seen syntax.new.node_table) result
        (Some (expr_over syntax.old.node_table node, tokens_in rest.entry)) }
{
    let expr = syntax.add_expr(node)?;
    Ok(ReadOperand { expr, rest })
}

/// Adds an expression, which may be no deeper than the limit.
pub(crate) fn put_within<'a, 't>(
    syntax: &mut SyntaxTree,
    limit: u32,
    node: ExprNode,
    rest: Tokens<'a, 't>,
) -> Result<ReadOperand<'a, 't>, ReadFault>
    requires { ExprPartsAreThere syntax.old.node_table node }
    ensures grown { Grown syntax.old syntax.new }
    ensures is_there { IfOk result (λ p. ExprRepresents syntax.new.node_table p.expr) }
    ensures given { Gives (expression_seen syntax.new.node_table) result
        (within limit (expr_over syntax.old.node_table node) (tokens_in rest.entry)) }
{
    let part = put(syntax, node, rest)?;
    if syntax.depth(part.expr) > limit {
        return Err(OrNoMemory::Fault(Syntax));
    }
    Ok(part)
}

/// The characters of a string, which are at most as many as a value has room for.
fn read_characters(alloc: Global, text: &[u8]) -> Result<Vec<u8>, ReadFault>
    ensures { Gives (λ cs. cs.items) result (if is_short text.now then Some text.now else None) }
{
    if text.len() > MOST_TEXT_CHARACTERS {
        return Err(OrNoMemory::Fault(Syntax));
    }
    Ok(Vec::from_slice(alloc, text)?)
}

/// Adds a pattern that is a string.
pub(crate) fn put_expr_pattern_text<'a, 't>(
    alloc: Global,
    syntax: &mut SyntaxTree,
    text: &[u8],
    rest: Tokens<'a, 't>,
) -> Result<ExprPatternPart<'a, 't>, ReadFault>
    ensures grown { Grown syntax.old syntax.new }
    ensures is_there { IfOk result (λ p. ExprPatternRepresents syntax.new.node_table p.expr_pattern) }
    ensures given { Gives (seen_expr_pattern syntax.new.node_table) result
        (if is_short text.now then Some (patterns.text text.now, tokens_in rest.entry) else None) }
{
    let characters = read_characters(alloc, text)?;
    put_expr_pattern(syntax, ExprPatternNode::Text(characters), rest)
}

/// Adds an expression that is a string.
pub(crate) fn put_text<'a, 't>(
    alloc: Global,
    syntax: &mut SyntaxTree,
    text: &[u8],
    rest: Tokens<'a, 't>,
) -> Result<ReadOperand<'a, 't>, ReadFault>
    ensures grown { Grown syntax.old syntax.new }
    ensures is_there { IfOk result (λ p. ExprRepresents syntax.new.node_table p.expr) }
    ensures given { Gives (expression_seen syntax.new.node_table) result
        (if is_short text.now then Some (expressions.text text.now, tokens_in rest.entry) else None) }
{
    let characters = read_characters(alloc, text)?;
    put(syntax, ExprNode::Text(characters), rest)
}
