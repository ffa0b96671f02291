//! Expressions. Each call below takes the depth that an expression may still have, which bounds the recursion too.

ghost use Rattle.std.specs.Prelude.{◌≡◌, ◌<◌, length, IfOk, map, false, true};
ghost use Rattle.std.specs.List.{All};
ghost use Rattle.pf_syntax.specs.SyntaxTree.{NodeTable};
ghost use Rattle.pf_syntax.specs.SyntaxTreeOver.{branches_over, condition_over, BranchRepresents, ConditionRepresents};
ghost use Rattle.pf_syntax.specs.SyntaxTreeOver.{ExprRepresents};
ghost use Rattle.pf_tokens.specs.declared.marks.TokenMark.TheVariants.{Comma, OpenParenthesis, Semicolon};
ghost use Rattle.pf_tokens.specs.NumberedTokens.{mark};
ghost use Rattle.pf_grammar.specs.Grammar.{top};
ghost use Rattle.pf_reader.specs.ListItems.{item_at};
ghost use Rattle.pf_grammar.specs.Parse.{after_kind, body_parse, branches, call_parse_step, case_of, clause, element};
ghost use Rattle.pf_grammar.specs.Parse.{parse_expr, front, guard, items, list, marked, prim, readers, unary, until};
ghost use Rattle.pf_grammar.specs.Parse.{when, reserved_parse};
ghost use Rattle.pf_reader.specs.View.{names_of, tokens_in};
ghost use Rattle.pf_reader.specs.Given.{clause_of, view_of_front, expression_seen, expr_of, FrontRepresents, Gives};
ghost use Rattle.pf_reader.specs.Given.{Grown};

use crate::expr_pattern::{read_expr_pattern, read_match_ahead};
use crate::fault::{ReadFault, Syntax};
use crate::operator::{infix_ahead, joined};
use crate::part::{FrontPart, ReadOperand, put, put_expr_pattern, put_text, put_within, unguarded};
use crate::token::{ReadingContext, Tokens, expect, skip};
use pf_errors::OrNoMemory;
use pf_syntax::{
    Branch, Condition, ExprId, ExprNode, ExprPatternNode, Form, Ident, SyntaxTree, Tests,
    may_be_there,
};
use pf_tokens::{NumberedKind, Reserved, TokenMark};
use std::alloc::Global;

/// The level of a whole expression.
const TOP: u32 = 8;

/// A part that no infix opens.
#[cycle(expr)]
fn read_prim<'a, 't>(
    alloc: Global,
    context: ReadingContext,
    syntax: &mut SyntaxTree,
    guard: bool,
    limit: u32,
    tokens: Tokens<'a, 't>,
) -> Result<ReadOperand<'a, 't>, ReadFault>
    requires { 0 < limit }
    ensures grown { Grown syntax.old syntax.new }
    ensures is_there { IfOk result (λ x. ExprRepresents syntax.new.node_table x.expr) }
    ensures given { Gives (expression_seen syntax.new.node_table) result
        (prim (names_of context.entry) guard limit (tokens_in tokens.entry)) }
{
    let Some((first, rest)) = tokens.first() else {
        return Err(OrNoMemory::Fault(Syntax));
    };
    let offset = first.at;
    let inner = limit - 1;
    match first.kind {
        NumberedKind::Integer(n) => put(syntax, ExprNode::Integer(n.value as i64), rest),
        NumberedKind::Text(text) => put_text(alloc, syntax, text, rest),
        NumberedKind::Variable(name) => put(
            syntax,
            ExprNode::Variable(Ident { name, offset }),
            rest,
        ),
        NumberedKind::Anonymous => put(syntax, ExprNode::Anonymous(offset), rest),
        NumberedKind::Mark(mark) => read_marked(alloc, context, syntax, guard, inner, mark, rest),
        NumberedKind::Reserved(word) => {
            read_worded(alloc, context, syntax, guard, inner, word, rest)
        }
        kind => match context.atom(kind) {
            None => Err(OrNoMemory::Fault(Syntax)),
            Some(name) => {
                let ident = Ident { name, offset };
                read_named(alloc, context, syntax, guard, inner, ident, rest)
            }
        },
    }
}

/// An atom, or a call where an opening parenthesis follows its name.
#[cycle(expr)]
fn read_named<'a, 't>(
    alloc: Global,
    context: ReadingContext,
    syntax: &mut SyntaxTree,
    guard: bool,
    limit: u32,
    ident: Ident,
    tokens: Tokens<'a, 't>,
) -> Result<ReadOperand<'a, 't>, ReadFault>
    ensures grown { Grown syntax.old syntax.new }
    ensures is_there { IfOk result (λ x. ExprRepresents syntax.new.node_table x.expr) }
    ensures given { Gives (expression_seen syntax.new.node_table) result
        (call_parse_step (names_of context.entry) guard
        (parse_expr (names_of context.entry) guard limit top) ident.name.0 ident.offset (tokens_in tokens.entry)
        (after_kind (mark OpenParenthesis) (tokens_in tokens.entry))) }
{
    let Some(rest) = skip(tokens, NumberedKind::Mark(TokenMark::OpenParenthesis)) else {
        return put(syntax, ExprNode::Atom(ident.name), tokens);
    };
    let item = Item::Expression(guard);
    let last = TokenMark::CloseParenthesis;
    let (arguments, rest) = read_until(alloc, context, syntax, item, limit, last, rest)?;
    if !context.call_is_there(guard, ident.name, arguments.len()) {
        return Err(OrNoMemory::Fault(Syntax));
    }
    put(syntax, ExprNode::Call(ident, arguments), rest)
}

/// What follows the mark that a part begins with.
#[cycle(expr)]
fn read_marked<'a, 't>(
    alloc: Global,
    context: ReadingContext,
    syntax: &mut SyntaxTree,
    guard: bool,
    limit: u32,
    first: TokenMark,
    tokens: Tokens<'a, 't>,
) -> Result<ReadOperand<'a, 't>, ReadFault>
    ensures grown { Grown syntax.old syntax.new }
    ensures is_there { IfOk result (λ x. ExprRepresents syntax.new.node_table x.expr) }
    ensures given { Gives (expression_seen syntax.new.node_table) result
        (marked (parse_expr (names_of context.entry) guard limit top) first (tokens_in tokens.entry)) }
{
    match first {
        TokenMark::OpenParenthesis => {
            let part = read_level(alloc, context, syntax, guard, limit, TOP, tokens)?;
            let rest = expect(part.rest, NumberedKind::Mark(TokenMark::CloseParenthesis))?;
            let node = ExprNode::Parentheses(part.expr);
            put(syntax, node, rest)
        }
        TokenMark::OpenBrace => {
            let item = Item::Expression(guard);
            let last = TokenMark::CloseBrace;
            let (parts, rest) = read_until(alloc, context, syntax, item, limit, last, tokens)?;
            put(syntax, ExprNode::Tuple(parts), rest)
        }
        TokenMark::OpenBracket => read_list(alloc, context, syntax, guard, limit, tokens),
        _ => Err(OrNoMemory::Fault(Syntax)),
    }
}

/// What follows an opening bracket: elements, and a tail after a bar or none.
#[cycle(expr)]
fn read_list<'a, 't>(
    alloc: Global,
    context: ReadingContext,
    syntax: &mut SyntaxTree,
    guard: bool,
    limit: u32,
    tokens: Tokens<'a, 't>,
) -> Result<ReadOperand<'a, 't>, ReadFault>
    ensures grown { Grown syntax.old syntax.new }
    ensures is_there { IfOk result (λ x. ExprRepresents syntax.new.node_table x.expr) }
    ensures given { Gives (expression_seen syntax.new.node_table) result
        (list (parse_expr (names_of context.entry) guard limit top) (tokens_in tokens.entry)) }
{
    if let Some(rest) = skip(tokens, NumberedKind::Mark(TokenMark::CloseBracket)) {
        return put(syntax, ExprNode::List(Vec::new(alloc)), rest);
    }
    let item = Item::Expression(guard);
    let (parts, rest) = read_items(alloc, context, syntax, item, limit, tokens)?;
    match skip(rest, NumberedKind::Mark(TokenMark::Bar)) {
        None => {
            let rest = expect(rest, NumberedKind::Mark(TokenMark::CloseBracket))?;
            put(syntax, ExprNode::List(parts), rest)
        }
        Some(rest) => {
            let tail = read_level(alloc, context, syntax, guard, limit, TOP, rest)?;
            let rest = expect(tail.rest, NumberedKind::Mark(TokenMark::CloseBracket))?;
            let node = ExprNode::ListOn(parts, tail.expr);
            put(syntax, node, rest)
        }
    }
}

/// A part, after a minus or not.
#[cycle(expr)]
fn read_unary<'a, 't>(
    alloc: Global,
    context: ReadingContext,
    syntax: &mut SyntaxTree,
    guard: bool,
    limit: u32,
    tokens: Tokens<'a, 't>,
) -> Result<ReadOperand<'a, 't>, ReadFault>
    requires { 0 < limit }
    ensures grown { Grown syntax.old syntax.new }
    ensures is_there { IfOk result (λ x. ExprRepresents syntax.new.node_table x.expr) }
    ensures given { Gives (expression_seen syntax.new.node_table) result
        (unary (prim (names_of context.entry) guard limit) limit (tokens_in tokens.entry)) }
{
    match skip(tokens, NumberedKind::Mark(TokenMark::Minus)) {
        None => read_prim(alloc, context, syntax, guard, limit, tokens),
        Some(rest) => {
            let part = read_prim(alloc, context, syntax, guard, limit, rest)?;
            let negation = ExprNode::Negate(part.expr);
            put_within(syntax, limit, negation, part.rest)
        }
    }
}

/// An expression of at most this level, in a guard where the flag says so.
#[cycle(expr)]
fn read_level<'a, 't>(
    alloc: Global,
    context: ReadingContext,
    syntax: &mut SyntaxTree,
    guard: bool,
    limit: u32,
    level: u32,
    tokens: Tokens<'a, 't>,
) -> Result<ReadOperand<'a, 't>, ReadFault>
    ensures grown { Grown syntax.old syntax.new }
    ensures is_there { IfOk result (λ x. ExprRepresents syntax.new.node_table x.expr) }
    ensures given { Gives (expression_seen syntax.new.node_table) result
        (parse_expr (names_of context.entry) guard limit level (tokens_in tokens.entry)) }
{
    if limit == 0 {
        return Err(OrNoMemory::Fault(Syntax));
    }
    let mut left = read_unary(alloc, context, syntax, guard, limit, tokens)?;
    let mut floor = 1;
    let turns = left.rest.list.len();
    for _ in 0..turns {
        let Some((infix, after)) = infix_ahead(guard, floor, level, left.rest) else {
            return Ok(left);
        };
        let above = infix.right_level();
        let right = read_level(alloc, context, syntax, guard, limit - 1, above, after)?;
        let node = joined(infix, left.expr, right.expr);
        left = put_within(syntax, limit, node, right.rest)?;
        floor = infix.level();
    }
    Ok(left)
}

/// What is between commas.
#[derive(Clone, Copy)]
enum Item {
    /// An expression, which is no match, in a guard where the flag says so.
    Expression(bool),
    /// An element of a body, which may be a match.
    Element,
}

/// An element of a body: an expression, or a match.
#[cycle(expr)]
fn read_element<'a, 't>(
    alloc: Global,
    context: ReadingContext,
    syntax: &mut SyntaxTree,
    limit: u32,
    tokens: Tokens<'a, 't>,
) -> Result<ReadOperand<'a, 't>, ReadFault>
    ensures grown { Grown syntax.old syntax.new }
    ensures is_there { IfOk result (λ x. ExprRepresents syntax.new.node_table x.expr) }
    ensures given { Gives (expression_seen syntax.new.node_table) result
        (element (names_of context.entry) limit (tokens_in tokens.entry)) }
{
    if limit == 0 {
        return Err(OrNoMemory::Fault(Syntax));
    }
    match read_match_ahead(alloc, context, syntax, limit - 1, tokens)? {
        None => read_level(alloc, context, syntax, false, limit, TOP, tokens),
        Some(ahead) => {
            let part = read_element(alloc, context, syntax, limit - 1, ahead.rest)?;
            let node = ExprNode::Match(ahead.expr_pattern, part.expr);
            put_within(syntax, limit, node, part.rest)
        }
    }
}

/// An expression, or an element of a body.
#[cycle(expr)]
fn read_item<'a, 't>(
    alloc: Global,
    context: ReadingContext,
    syntax: &mut SyntaxTree,
    item: Item,
    limit: u32,
    tokens: Tokens<'a, 't>,
) -> Result<ReadOperand<'a, 't>, ReadFault>
    ensures grown { Grown syntax.old syntax.new }
    ensures is_there { IfOk result (λ x. ExprRepresents syntax.new.node_table x.expr) }
    ensures given { Gives (expression_seen syntax.new.node_table) result
        (item_at (names_of context.entry) item limit (tokens_in tokens.entry)) }
{
    match item {
        Item::Expression(guard) => read_level(alloc, context, syntax, guard, limit, TOP, tokens),
        Item::Element => read_element(alloc, context, syntax, limit, tokens),
    }
}

/// Expressions, or elements of a body, with commas between them.
#[cycle(expr)]
fn read_items<'a, 't>(
    alloc: Global,
    context: ReadingContext,
    syntax: &mut SyntaxTree,
    item: Item,
    limit: u32,
    tokens: Tokens<'a, 't>,
) -> Result<(Vec<ExprId>, Tokens<'a, 't>), ReadFault>
    ensures grown { Grown syntax.old syntax.new }
    ensures is_there { IfOk result (λ x. All (ExprRepresents syntax.new.node_table) x.0.items) }
    ensures given { Gives (λ x. (
      map
          (expr_of syntax.new.node_table) x.0.items,
      tokens_in x.1,
    )) result
        (items (mark Comma) (item_at (names_of context.entry) item limit) (length (tokens_in tokens.entry))
        (tokens_in tokens.entry)) }
{
    let mut found = Vec::new(alloc);
    let mut rest = tokens;
    for _ in 0..tokens.list.len() {
        let part = read_item(alloc, context, syntax, item, limit, rest)?;
        found.push(part.expr)?;
        let Some(after) = skip(part.rest, NumberedKind::Mark(TokenMark::Comma)) else {
            return Ok((found, part.rest));
        };
        rest = after;
    }
    Err(OrNoMemory::Fault(Syntax))
}

/// Expressions with commas between them, or none, before this mark.
#[cycle(expr)]
fn read_until<'a, 't>(
    alloc: Global,
    context: ReadingContext,
    syntax: &mut SyntaxTree,
    item: Item,
    limit: u32,
    last: TokenMark,
    tokens: Tokens<'a, 't>,
) -> Result<(Vec<ExprId>, Tokens<'a, 't>), ReadFault>
    ensures grown { Grown syntax.old syntax.new }
    ensures is_there { IfOk result (λ x. All (ExprRepresents syntax.new.node_table) x.0.items) }
    ensures given { Gives (λ x. (
      map
          (expr_of syntax.new.node_table) x.0.items,
      tokens_in x.1,
    )) result
        (until (mark last) (item_at (names_of context.entry) item limit) (tokens_in tokens.entry)) }
{
    if let Some(rest) = skip(tokens, NumberedKind::Mark(last)) {
        return Ok((Vec::new(alloc), rest));
    }
    let (parts, rest) = read_items(alloc, context, syntax, item, limit, tokens)?;
    let rest = expect(rest, NumberedKind::Mark(last))?;
    Ok((parts, rest))
}

/// A body: elements with commas between them.
pub(crate) fn read_body<'a, 't>(
    alloc: Global,
    context: ReadingContext,
    syntax: &mut SyntaxTree,
    limit: u32,
    tokens: Tokens<'a, 't>,
) -> Result<(Vec<ExprId>, Tokens<'a, 't>), ReadFault>
    ensures grown { Grown syntax.old syntax.new }
    ensures is_there { IfOk result (λ x. All (ExprRepresents syntax.new.node_table) x.0.items) }
    ensures given { Gives (λ x. (
      map
          (expr_of syntax.new.node_table) x.0.items,
      tokens_in x.1,
    )) result
        (body_parse (element (names_of context.entry) limit) (tokens_in tokens.entry)) }
{
    read_items(alloc, context, syntax, Item::Element, limit, tokens)
}

/// A guard: alternatives with semicolons between them, each tests with commas between them.
#[cycle(expr)]
fn read_guard<'a, 't>(
    alloc: Global,
    context: ReadingContext,
    syntax: &mut SyntaxTree,
    limit: u32,
    tokens: Tokens<'a, 't>,
) -> Result<(Condition, Tokens<'a, 't>), ReadFault>
    ensures grown { Grown syntax.old syntax.new }
    ensures is_there { IfOk result (λ x. ConditionRepresents syntax.new.node_table x.0) }
    ensures given { Gives (λ x. (condition_over syntax.new.node_table x.0, tokens_in x.1)) result
        (guard (parse_expr (names_of context.entry) true limit top) (tokens_in tokens.entry)) }
{
    let mut alternatives = Vec::new(alloc);
    let mut rest = tokens;
    for _ in 0..tokens.list.len() {
        let item = Item::Expression(true);
        let (tests, after_it) = read_items(alloc, context, syntax, item, limit, rest)?;
        alternatives.push(Tests { tests })?;
        let Some(after) = skip(after_it, NumberedKind::Mark(TokenMark::Semicolon)) else {
            return Ok((Condition { alternatives }, after_it));
        };
        rest = after;
    }
    Err(OrNoMemory::Fault(Syntax))
}

/// A guard after `when`, or none.
#[cycle(expr)]
pub(crate) fn read_when<'a, 't>(
    alloc: Global,
    context: ReadingContext,
    syntax: &mut SyntaxTree,
    limit: u32,
    tokens: Tokens<'a, 't>,
) -> Result<(Condition, Tokens<'a, 't>), ReadFault>
    ensures grown { Grown syntax.old syntax.new }
    ensures is_there { IfOk result (λ x. ConditionRepresents syntax.new.node_table x.0) }
    ensures given { Gives (λ x. (condition_over syntax.new.node_table x.0, tokens_in x.1)) result
        (when (parse_expr (names_of context.entry) true limit top) (tokens_in tokens.entry)) }
{
    match skip(tokens, NumberedKind::Reserved(Reserved::When)) {
        None => {
            let condition = unguarded(alloc)?;
            Ok((condition, tokens))
        }
        Some(rest) => read_guard(alloc, context, syntax, limit, rest),
    }
}

/// What is before the arrow of a clause: in an `if`, where the flag says so, a guard alone.
#[cycle(expr)]
fn read_front<'a, 't>(
    alloc: Global,
    context: ReadingContext,
    syntax: &mut SyntaxTree,
    choice: bool,
    limit: u32,
    tokens: Tokens<'a, 't>,
) -> Result<FrontPart<'a, 't>, ReadFault>
    ensures grown { Grown syntax.old syntax.new }
    ensures is_there { IfOk result (λ x. FrontRepresents syntax.new.node_table x) }
    ensures given { Gives (view_of_front syntax.new.node_table) result
        (front (readers (names_of context.entry) limit) choice (tokens_in tokens.entry)) }
{
    if choice {
        let part = put_expr_pattern(syntax, ExprPatternNode::Anything, tokens)?;
        let (condition, rest) = read_guard(alloc, context, syntax, limit, tokens)?;
        let expr_pattern = part.expr_pattern;
        Ok(FrontPart {
            expr_pattern,
            condition,
            rest,
        })
    } else {
        let part = read_expr_pattern(alloc, context, syntax, limit, tokens)?;
        let (condition, rest) = read_when(alloc, context, syntax, limit, part.rest)?;
        let expr_pattern = part.expr_pattern;
        Ok(FrontPart {
            expr_pattern,
            condition,
            rest,
        })
    }
}

/// A clause: its front, an arrow and a body.
#[cycle(expr)]
fn read_clause<'a, 't>(
    alloc: Global,
    context: ReadingContext,
    syntax: &mut SyntaxTree,
    choice: bool,
    limit: u32,
    tokens: Tokens<'a, 't>,
) -> Result<(Branch, Tokens<'a, 't>), ReadFault>
    ensures grown { Grown syntax.old syntax.new }
    ensures is_there { IfOk result (λ x. BranchRepresents syntax.new.node_table x.0) }
    ensures given { Gives (λ x. (clause_of syntax.new.node_table x.0, tokens_in x.1)) result
        (clause (readers (names_of context.entry) limit) choice (tokens_in tokens.entry)) }
{
    let front = read_front(alloc, context, syntax, choice, limit, tokens)?;
    let rest = expect(front.rest, NumberedKind::Mark(TokenMark::Arrow))?;
    let (body, rest) = read_items(alloc, context, syntax, Item::Element, limit, rest)?;
    let branch = Branch {
        expr_pattern: front.expr_pattern,
        condition: front.condition,
        body,
    };
    Ok((branch, rest))
}

/// Clauses with semicolons between them.
#[cycle(expr)]
fn read_clauses<'a, 't>(
    alloc: Global,
    context: ReadingContext,
    syntax: &mut SyntaxTree,
    choice: bool,
    limit: u32,
    tokens: Tokens<'a, 't>,
) -> Result<(Vec<Branch>, Tokens<'a, 't>), ReadFault>
    ensures grown { Grown syntax.old syntax.new }
    ensures is_there { IfOk result (λ x. All (BranchRepresents syntax.new.node_table) x.0.items) }
    ensures given { Gives (λ x. (map (clause_of syntax.new.node_table) x.0.items, tokens_in x.1)) result
        (items (mark Semicolon) (clause (readers (names_of context.entry) limit) choice)
        (length (tokens_in tokens.entry)) (tokens_in tokens.entry)) }
{
    let mut found = Vec::new(alloc);
    let mut rest = tokens;
    for _ in 0..tokens.list.len() {
        let (branch, after_it) = read_clause(alloc, context, syntax, choice, limit, rest)?;
        found.push(branch)?;
        let Some(after) = skip(after_it, NumberedKind::Mark(TokenMark::Semicolon)) else {
            return Ok((found, after_it));
        };
        rest = after;
    }
    Err(OrNoMemory::Fault(Syntax))
}

/// Clauses up to `end`, which is read too.
#[cycle(expr)]
fn read_branches<'a, 't>(
    alloc: Global,
    context: ReadingContext,
    syntax: &mut SyntaxTree,
    choice: bool,
    limit: u32,
    tokens: Tokens<'a, 't>,
) -> Result<(Vec<Branch>, Tokens<'a, 't>), ReadFault>
    ensures grown { Grown syntax.old syntax.new }
    ensures is_there { IfOk result (λ x. All (BranchRepresents syntax.new.node_table) x.0.items) }
    ensures given { Gives (λ x. (branches_over syntax.new.node_table x.0.items, tokens_in x.1)) result
        (branches (readers (names_of context.entry) limit) choice (tokens_in tokens.entry)) }
{
    let (found, rest) = read_clauses(alloc, context, syntax, choice, limit, tokens)?;
    let rest = expect(rest, NumberedKind::Reserved(Reserved::End))?;
    Ok((found, rest))
}

/// What follows `case`.
#[cycle(expr)]
fn read_case<'a, 't>(
    alloc: Global,
    context: ReadingContext,
    syntax: &mut SyntaxTree,
    guard: bool,
    limit: u32,
    tokens: Tokens<'a, 't>,
) -> Result<ReadOperand<'a, 't>, ReadFault>
    ensures grown { Grown syntax.old syntax.new }
    ensures is_there { IfOk result (λ x. ExprRepresents syntax.new.node_table x.expr) }
    ensures given { Gives (expression_seen syntax.new.node_table) result
        (case_of (readers (names_of context.entry) limit) (parse_expr (names_of context.entry) guard limit top)
        (tokens_in tokens.entry)) }
{
    let subject = read_level(alloc, context, syntax, guard, limit, TOP, tokens)?;
    let rest = expect(subject.rest, NumberedKind::Reserved(Reserved::Of))?;
    let (found, rest) = read_branches(alloc, context, syntax, false, limit, rest)?;
    let node = ExprNode::Case(subject.expr, found);
    put(syntax, node, rest)
}

/// What follows the reserved word that a part begins with.
#[cycle(expr)]
fn read_worded<'a, 't>(
    alloc: Global,
    context: ReadingContext,
    syntax: &mut SyntaxTree,
    guard: bool,
    limit: u32,
    first: Reserved,
    tokens: Tokens<'a, 't>,
) -> Result<ReadOperand<'a, 't>, ReadFault>
    ensures grown { Grown syntax.old syntax.new }
    ensures is_there { IfOk result (λ x. ExprRepresents syntax.new.node_table x.expr) }
    ensures given { Gives (expression_seen syntax.new.node_table) result
        (reserved_parse (readers (names_of context.entry) limit) guard
        (parse_expr (names_of context.entry) guard limit top) first (tokens_in tokens.entry)) }
{
    match first {
        Reserved::Case if may_be_there(guard, Form::Deciding) => {
            read_case(alloc, context, syntax, guard, limit, tokens)
        }
        Reserved::If if may_be_there(guard, Form::Choosing) => {
            let (found, rest) = read_branches(alloc, context, syntax, true, limit, tokens)?;
            put(syntax, ExprNode::If(found), rest)
        }
        Reserved::Receive if may_be_there(guard, Form::Receiving) => {
            let (found, rest) = read_branches(alloc, context, syntax, false, limit, tokens)?;
            put(syntax, ExprNode::Receive(found), rest)
        }
        _ => Err(OrNoMemory::Fault(Syntax)),
    }
}
