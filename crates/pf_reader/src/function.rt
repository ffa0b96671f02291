//! Functions.

ghost use Rattle.std.specs.Prelude.{◌≡◌, length, map, IfOk};
ghost use Rattle.std.specs.List.{All};
ghost use Rattle.pf_tokens.specs.declared.marks.TokenMark.TheVariants.{Semicolon};
ghost use Rattle.pf_tokens.specs.NumberedTokens.{mark};
ghost use Rattle.pf_syntax.specs.SyntaxTreeOver.{head_over, heads_over, HeadRepresents, HeadsAreThere};
ghost use Rattle.pf_grammar.specs.Parse.{function, functions, head_parse, items};
ghost use Rattle.pf_reader.specs.View.{names_of, tokens_in};
ghost use Rattle.pf_reader.specs.Given.{with_first, Gives, Grown};

use crate::expr::{read_body, read_when};
use crate::expr_pattern::read_expr_patterns;
use crate::fault::{ReadFault, Syntax};
use crate::token::{ReadingContext, Tokens, expect, read_name, skip};
use pf_errors::OrNoMemory;
use pf_syntax::{ExprFunction, Head, SyntaxTree};
use pf_tokens::{MOST_TREE_DEPTH, NumberedKind, TokenMark};
use std::alloc::Global;

/// A clause of a function.
fn read_head<'a, 't>(
    alloc: Global,
    context: ReadingContext,
    syntax: &mut SyntaxTree,
    tokens: Tokens<'a, 't>,
) -> Result<(Head, Tokens<'a, 't>), ReadFault>
    ensures grown { Grown syntax.old syntax.new }
    ensures is_there { IfOk result (λ x. HeadRepresents syntax.new.node_table x.0) }
    ensures given { Gives (λ x. (head_over syntax.new.node_table x.0, tokens_in x.1)) result
        (head_parse (names_of context.entry) (tokens_in tokens.entry)) }
{
    let limit = MOST_TREE_DEPTH;
    let last = TokenMark::CloseParenthesis;
    let (ident, rest) = read_name(context, tokens)?;
    let rest = expect(rest, NumberedKind::Mark(TokenMark::OpenParenthesis))?;
    let (parameters, rest) = read_expr_patterns(alloc, context, syntax, limit, last, rest)?;
    let (condition, rest) = read_when(alloc, context, syntax, limit, rest)?;
    let rest = expect(rest, NumberedKind::Mark(TokenMark::Arrow))?;
    let (body, rest) = read_body(alloc, context, syntax, limit, rest)?;
    let head = Head {
        ident,
        parameters,
        condition,
        body,
    };
    Ok((head, rest))
}

/// Clauses of a function, with semicolons between them.
fn read_heads<'a, 't>(
    alloc: Global,
    context: ReadingContext,
    syntax: &mut SyntaxTree,
    tokens: Tokens<'a, 't>,
) -> Result<(Vec<Head>, Tokens<'a, 't>), ReadFault>
    ensures grown { Grown syntax.old syntax.new }
    ensures is_there { IfOk result (λ x. All (HeadRepresents syntax.new.node_table) x.0.items) }
    ensures given { Gives (λ x. (map (head_over syntax.new.node_table) x.0.items, tokens_in x.1)) result
        (items (mark Semicolon) (head_parse (names_of context.entry)) (length (tokens_in tokens.entry))
        (tokens_in tokens.entry)) }
{
    let mut found = Vec::new(alloc);
    let mut rest = tokens;
    for _ in 0..tokens.list.len() {
        let (head, after_it) = read_head(alloc, context, syntax, rest)?;
        found.push(head)?;
        let Some(after) = skip(after_it, NumberedKind::Mark(TokenMark::Semicolon)) else {
            return Ok((found, after_it));
        };
        rest = after;
    }
    Err(OrNoMemory::Fault(Syntax))
}

/// A function: clauses and a dot.
fn read_function<'a, 't>(
    alloc: Global,
    context: ReadingContext,
    syntax: &mut SyntaxTree,
    tokens: Tokens<'a, 't>,
) -> Result<(ExprFunction, Tokens<'a, 't>), ReadFault>
    ensures grown { Grown syntax.old syntax.new }
    ensures is_there { IfOk result (λ x. HeadsAreThere syntax.new.node_table x.0) }
    ensures given { Gives (λ x. (heads_over syntax.new.node_table x.0, tokens_in x.1)) result
        (function (names_of context.entry) (tokens_in tokens.entry)) }
{
    let (heads, rest) = read_heads(alloc, context, syntax, tokens)?;
    let rest = expect(rest, NumberedKind::Dot)?;
    Ok((ExprFunction { heads }, rest))
}

/// Functions up to the end, which go into the syntax tree.
pub(crate) fn read_functions(
    alloc: Global,
    context: ReadingContext,
    syntax: &mut SyntaxTree,
    tokens: Tokens,
) -> Result<(), ReadFault>
    ensures given { Gives (λ _. syntax.new.functions) result
        (with_first syntax.old.functions
        (functions (names_of context.entry) (length (tokens_in tokens.entry)) (tokens_in tokens.entry))) }
    ensures name { syntax.new.name ≡ syntax.old.name }
    ensures exports { syntax.new.exports ≡ syntax.old.exports }
{
    let mut rest = tokens;
    for _ in 0..tokens.list.len() {
        if rest.list.is_empty() {
            return Ok(());
        }
        let (function, after) = read_function(alloc, context, syntax, rest)?;
        syntax.add_function(function)?;
        rest = after;
    }
    if rest.list.is_empty() {
        Ok(())
    } else {
        Err(OrNoMemory::Fault(Syntax))
    }
}
