//! Patterns. Each call below takes the depth that a pattern may still have, which bounds the recursion too.

ghost use Rattle.std.specs.Prelude.{◌≡◌, ℕ, length, IfErr, IfOk, map, option_map, IfSome, None, true};
ghost use Rattle.std.specs.List.{All};
ghost use Rattle.pf_syntax.specs.SyntaxTreeOver.{ExprPatternRepresents};
ghost use Rattle.pf_tokens.specs.declared.marks.TokenMark.TheVariants.{Comma};
ghost use Rattle.pf_tokens.specs.NumberedTokens.{mark};
ghost use Rattle.pf_grammar.specs.Grammar.{TokenNames};
ghost use Rattle.pf_grammar.specs.Parse.{items, list_expr_pattern, marked_expr_pattern, match_ahead, negative, pattern};
ghost use Rattle.pf_grammar.specs.Parse.{pattern_with, until};
ghost use Rattle.pf_reader.specs.View.{names_of, tokens_in};
ghost use Rattle.pf_reader.specs.Given.{seen_expr_pattern, expr_pattern_of, Gives, Grown};

use crate::fault::{ReadFault, Syntax};
use crate::part::{ExprPatternPart, put_expr_pattern, put_expr_pattern_text};
use crate::token::{ReadingContext, Tokens, expect, read_number, skip};
use pf_errors::{NoMemory, OrNoMemory};
use pf_syntax::{ExprPatternId, ExprPatternNode, Ident, SyntaxTree};
use pf_tokens::{NumberedKind, TokenMark};
use std::alloc::Global;

/// An integer after a minus, as a pattern.
fn read_negative<'a, 't>(
    syntax: &mut SyntaxTree,
    tokens: Tokens<'a, 't>,
) -> Result<ExprPatternPart<'a, 't>, ReadFault>
    ensures grown { Grown syntax.old syntax.new }
    ensures is_there { IfOk result (λ p. ExprPatternRepresents syntax.new.node_table p.expr_pattern) }
    ensures given { Gives (seen_expr_pattern syntax.new.node_table) result
        (negative (tokens_in tokens.entry)) }
{
    match read_number(tokens) {
        Some((n, rest)) => put_expr_pattern(
            syntax,
            ExprPatternNode::Integer(-(n.value as i64)),
            rest,
        ),
        None => Err(OrNoMemory::Fault(Syntax)),
    }
}

/// A pattern.
#[cycle(expr_pattern)]
pub(crate) fn read_expr_pattern<'a, 't>(
    alloc: Global,
    context: ReadingContext,
    syntax: &mut SyntaxTree,
    limit: u32,
    tokens: Tokens<'a, 't>,
) -> Result<ExprPatternPart<'a, 't>, ReadFault>
    ensures grown { Grown syntax.old syntax.new }
    ensures is_there { IfOk result (λ p. ExprPatternRepresents syntax.new.node_table p.expr_pattern) }
    ensures given { Gives (seen_expr_pattern syntax.new.node_table) result
        (pattern (names_of context.entry) limit (tokens_in tokens.entry)) }
{
    if limit == 0 {
        return Err(OrNoMemory::Fault(Syntax));
    }
    read_begun(alloc, context, syntax, limit - 1, tokens)
}

/// A pattern whose parts may be as deep as the limit.
#[cycle(expr_pattern)]
fn read_begun<'a, 't>(
    alloc: Global,
    context: ReadingContext,
    syntax: &mut SyntaxTree,
    limit: u32,
    tokens: Tokens<'a, 't>,
) -> Result<ExprPatternPart<'a, 't>, ReadFault>
    ensures grown { Grown syntax.old syntax.new }
    ensures is_there { IfOk result (λ p. ExprPatternRepresents syntax.new.node_table p.expr_pattern) }
    ensures given { Gives (seen_expr_pattern syntax.new.node_table) result
        (pattern_with (names_of context.entry) (pattern (names_of context.entry) limit)
        (tokens_in tokens.entry)) }
{
    let Some((first, rest)) = tokens.first() else {
        return Err(OrNoMemory::Fault(Syntax));
    };
    let offset = first.at;
    match first.kind {
        NumberedKind::Integer(n) => put_expr_pattern(
            syntax,
            ExprPatternNode::Integer(n.value as i64),
            rest,
        ),
        NumberedKind::Text(text) => put_expr_pattern_text(alloc, syntax, text, rest),
        NumberedKind::Variable(name) => put_expr_pattern(
            syntax,
            ExprPatternNode::Variable(Ident { name, offset }),
            rest,
        ),
        NumberedKind::Anonymous => put_expr_pattern(syntax, ExprPatternNode::Anything, rest),
        NumberedKind::Mark(mark) => read_marked(alloc, context, syntax, limit, mark, rest),
        kind => match context.atom(kind) {
            Some(atom) => put_expr_pattern(syntax, ExprPatternNode::Atom(atom), rest),
            None => Err(OrNoMemory::Fault(Syntax)),
        },
    }
}

/// What follows the mark that a pattern begins with.
#[cycle(expr_pattern)]
fn read_marked<'a, 't>(
    alloc: Global,
    context: ReadingContext,
    syntax: &mut SyntaxTree,
    limit: u32,
    first: TokenMark,
    tokens: Tokens<'a, 't>,
) -> Result<ExprPatternPart<'a, 't>, ReadFault>
    ensures grown { Grown syntax.old syntax.new }
    ensures is_there { IfOk result (λ p. ExprPatternRepresents syntax.new.node_table p.expr_pattern) }
    ensures given { Gives (seen_expr_pattern syntax.new.node_table) result
        (marked_expr_pattern (pattern (names_of context.entry) limit) first (tokens_in tokens.entry)) }
{
    match first {
        TokenMark::Minus => read_negative(syntax, tokens),
        TokenMark::OpenBrace => {
            let (parts, rest) = read_expr_patterns(
                alloc,
                context,
                syntax,
                limit,
                TokenMark::CloseBrace,
                tokens,
            )?;
            put_expr_pattern(syntax, ExprPatternNode::Tuple(parts), rest)
        }
        TokenMark::OpenBracket => read_list(alloc, context, syntax, limit, tokens),
        _ => Err(OrNoMemory::Fault(Syntax)),
    }
}

/// What follows an opening bracket: elements, and a tail after a bar or none.
#[cycle(expr_pattern)]
fn read_list<'a, 't>(
    alloc: Global,
    context: ReadingContext,
    syntax: &mut SyntaxTree,
    limit: u32,
    tokens: Tokens<'a, 't>,
) -> Result<ExprPatternPart<'a, 't>, ReadFault>
    ensures grown { Grown syntax.old syntax.new }
    ensures is_there { IfOk result (λ p. ExprPatternRepresents syntax.new.node_table p.expr_pattern) }
    ensures given { Gives (seen_expr_pattern syntax.new.node_table) result
        (list_expr_pattern (pattern (names_of context.entry) limit) (tokens_in tokens.entry)) }
{
    if let Some(rest) = skip(tokens, NumberedKind::Mark(TokenMark::CloseBracket)) {
        return put_expr_pattern(syntax, ExprPatternNode::List(Vec::new(alloc)), rest);
    }
    let (parts, rest) = read_expr_pattern_items(alloc, context, syntax, limit, tokens)?;
    match skip(rest, NumberedKind::Mark(TokenMark::Bar)) {
        None => {
            let rest = expect(rest, NumberedKind::Mark(TokenMark::CloseBracket))?;
            put_expr_pattern(syntax, ExprPatternNode::List(parts), rest)
        }
        Some(rest) => {
            let tail = read_expr_pattern(alloc, context, syntax, limit, rest)?;
            let rest = expect(tail.rest, NumberedKind::Mark(TokenMark::CloseBracket))?;
            let node = ExprPatternNode::ListOn(parts, tail.expr_pattern);
            put_expr_pattern(syntax, node, rest)
        }
    }
}

/// Patterns with commas between them.
#[cycle(expr_pattern)]
fn read_expr_pattern_items<'a, 't>(
    alloc: Global,
    context: ReadingContext,
    syntax: &mut SyntaxTree,
    limit: u32,
    tokens: Tokens<'a, 't>,
) -> Result<(Vec<ExprPatternId>, Tokens<'a, 't>), ReadFault>
    ensures grown { Grown syntax.old syntax.new }
    ensures is_there { IfOk result (λ x. All (ExprPatternRepresents syntax.new.node_table) x.0.items) }
    ensures given { Gives (λ x. (
      map
          (expr_pattern_of syntax.new.node_table) x.0.items,
      tokens_in x.1,
    )) result
        (items (mark Comma) (pattern (names_of context.entry) limit) (length (tokens_in tokens.entry))
        (tokens_in tokens.entry)) }
{
    let mut found = Vec::new(alloc);
    let mut rest = tokens;
    for _ in 0..tokens.list.len() {
        let part = read_expr_pattern(alloc, context, syntax, limit, rest)?;
        found.push(part.expr_pattern)?;
        let Some(after) = skip(part.rest, NumberedKind::Mark(TokenMark::Comma)) else {
            return Ok((found, part.rest));
        };
        rest = after;
    }
    Err(OrNoMemory::Fault(Syntax))
}

/// Patterns with commas between them, or none, before this mark.
#[cycle(expr_pattern)]
pub(crate) fn read_expr_patterns<'a, 't>(
    alloc: Global,
    context: ReadingContext,
    syntax: &mut SyntaxTree,
    limit: u32,
    last: TokenMark,
    tokens: Tokens<'a, 't>,
) -> Result<(Vec<ExprPatternId>, Tokens<'a, 't>), ReadFault>
    ensures grown { Grown syntax.old syntax.new }
    ensures is_there { IfOk result (λ x. All (ExprPatternRepresents syntax.new.node_table) x.0.items) }
    ensures given { Gives (λ x. (
      map
          (expr_pattern_of syntax.new.node_table) x.0.items,
      tokens_in x.1,
    )) result
        (until (mark last) (pattern (names_of context.entry) limit) (tokens_in tokens.entry)) }
{
    if let Some(rest) = skip(tokens, NumberedKind::Mark(last)) {
        return Ok((Vec::new(alloc), rest));
    }
    let (parts, rest) = read_expr_pattern_items(alloc, context, syntax, limit, tokens)?;
    let rest = expect(rest, NumberedKind::Mark(last))?;
    Ok((parts, rest))
}

/// Whether two tokens show that no match begins here: the first is a pattern alone or none, and no `=` follows it.
fn has_no_match(tokens: Tokens) -> bool
    ensures { result ≡ true → (n : TokenNames) → (limit : ℕ) → match_ahead (pattern n limit)
        (tokens_in tokens.entry) ≡ None }
{
    match tokens.first() {
        Some((first, rest)) => match first.kind {
            NumberedKind::Mark(_) => false,
            _ => skip(rest, NumberedKind::Mark(TokenMark::Match)).is_none(),
        },
        None => true,
    }
}

/// A pattern before `=`, where one comes first, and what follows both.
pub(crate) fn read_match_ahead<'a, 't>(
    alloc: Global,
    context: ReadingContext,
    syntax: &mut SyntaxTree,
    limit: u32,
    tokens: Tokens<'a, 't>,
) -> Result<Option<ExprPatternPart<'a, 't>>, NoMemory>
    ensures grown { Grown syntax.old syntax.new }
    ensures is_there { IfOk result (λ o. IfSome o
        (λ p. ExprPatternRepresents syntax.new.node_table p.expr_pattern)) }
    ensures given { IfOk result (λ o. option_map (seen_expr_pattern syntax.new.node_table) o ≡ match_ahead
        (pattern (names_of context.entry) limit) (tokens_in tokens.entry)) }
{
    if has_no_match(tokens) {
        return Ok(None);
    }
    match read_expr_pattern(alloc, context, syntax, limit, tokens) {
        Ok(part) => match skip(part.rest, NumberedKind::Mark(TokenMark::Match)) {
            Some(rest) => Ok(Some(ExprPatternPart {
                expr_pattern: part.expr_pattern,
                rest,
            })),
            None => Ok(None),
        },
        Err(OrNoMemory::Fault(Syntax)) => Ok(None),
        Err(OrNoMemory::NoMemory) => Err(NoMemory),
    }
}
