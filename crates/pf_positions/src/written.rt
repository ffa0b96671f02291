//! The signs of a source: which of its tokens are some, and on which line each is.

ghost use Rattle.std.specs.Prelude.{◌≡◌, ◌<◌, ◌≤◌, ◌^◌, ◌==◌, IfOk, count_by, false, length, map};
ghost use Rattle.pf_tokens.specs.Rules.{IsOrdered};
ghost use Rattle.pf_tokens.specs.TokenKinds.{kind_of, placed_of};
ghost use Rattle.pf_positions.specs.Written.{AreSignsOf, functions_in, is_dot, is_minus, line_at, mark_sign, name_sign};
ghost use Rattle.pf_positions.specs.Written.{signs_of, token_sign, word_sign};

use crate::sign::Sign;
use pf_errors::{NoMemory, OrNoMemory};
use pf_tokens::{Reserved, Token, TokenForm, TokenMark, tokens};
use std::alloc::Global;

/// A sign in a source, with its line, from 1.
#[derive(Clone, Copy)]
pub(crate) struct WrittenSign {
    pub(crate) sign: Sign,
    pub(crate) line: u32,
}

/// The sign that a mark is.
fn mark_sign(mark: TokenMark) -> Option<Sign>
    ensures { result ≡ mark_sign mark }
{
    match mark {
        TokenMark::Send => Some(Sign::Send),
        TokenMark::Match => Some(Sign::Match),
        TokenMark::OpenBrace => Some(Sign::Brace),
        TokenMark::Plus => Some(Sign::Plus),
        TokenMark::Minus => Some(Sign::Minus),
        TokenMark::Times => Some(Sign::Times),
        TokenMark::Append => Some(Sign::Append),
        TokenMark::Equal | TokenMark::ExactlyEqual => Some(Sign::Equal),
        TokenMark::Unequal | TokenMark::ExactlyUnequal => Some(Sign::Unequal),
        TokenMark::Less => Some(Sign::Less),
        TokenMark::AtMost => Some(Sign::AtMost),
        TokenMark::Greater => Some(Sign::Greater),
        TokenMark::AtLeast => Some(Sign::AtLeast),
        _ => None,
    }
}

/// The sign that a reserved word is.
fn word_sign(word: Reserved) -> Option<Sign>
    ensures { result ≡ word_sign word }
{
    match word {
        Reserved::Receive => Some(Sign::Receive),
        Reserved::Case => Some(Sign::Case),
        Reserved::If => Some(Sign::If),
        Reserved::Andalso => Some(Sign::AndAlso),
        Reserved::Orelse => Some(Sign::OrElse),
        Reserved::Div => Some(Sign::Quotient),
        Reserved::Rem => Some(Sign::Remainder),
        _ => None,
    }
}

/// A name is a sign if a parenthesis opens after it.
fn name_sign(following: &[Token]) -> Option<Sign>
    ensures { result ≡ name_sign (map placed_of following.now) }
{
    match following.first()?.kind {
        TokenForm::Mark(TokenMark::OpenParenthesis) => Some(Sign::Name),
        _ => None,
    }
}

/// The sign that a token is before these others.
fn token_sign(kind: &TokenForm, following: &[Token]) -> Option<Sign>
    ensures { result ≡ token_sign (kind_of kind.now) (map placed_of following.now) }
{
    match kind {
        TokenForm::Mark(mark) => mark_sign(*mark),
        TokenForm::Reserved(word) => word_sign(*word),
        TokenForm::Atom(_) | TokenForm::Module => name_sign(following),
        _ => None,
    }
}

fn is_minus(kind: &TokenForm) -> bool
    ensures { result ≡ is_minus (kind_of kind.now) }
{
    matches!(kind, TokenForm::Mark(TokenMark::Minus))
}

fn is_dot(kind: &TokenForm) -> bool
    ensures { result ≡ is_dot (kind_of kind.now) }
{
    matches!(kind, TokenForm::Dot)
}

/// The tokens of the functions: after the forms at the front that begin with a minus, each up to its dot.
fn functions_in(tokens: &[Token]) -> &[Token]
    ensures { map placed_of result.now ≡ functions_in false (map placed_of tokens.now) }
{
    let mut within = false;
    let mut rest = tokens;
    while let Some((first, others)) = rest.split_first() {
        if within {
            within = !is_dot(&first.kind);
        } else if is_minus(&first.kind) {
            within = true;
        } else {
            return rest;
        }
        rest = others;
    }
    rest
}

/// How many lines end in these bytes.
fn line_ends(bytes: &[u8]) -> usize
    ensures { result ≡ count_by (λ b. b == 10) bytes.now }
{
    bytes.iter().filter(|byte| **byte == b'\n').count()
}

/// The line of an offset, by that of an earlier one.
fn line_on(source: &[u8], line: u32, from: usize, to: usize) -> u32
    requires forth { from ≤ to }
    requires within { to ≤ length source.now }
    requires short { length source.now < 2 ^ 31 }
    requires line { line ≡ line_at source.now from }
    ensures { result ≡ line_at source.now to }
{
    line + line_ends(&source[from..to]) as u32
}

/// The signs among tokens, in their order.
fn signs_of(alloc: Global, source: &[u8], tokens: &[Token]) -> Result<Vec<WrittenSign>, NoMemory>
    requires short { length source.now < 2 ^ 31 }
    requires ordered { IsOrdered 0 (map placed_of tokens.now) (length source.now) }
    ensures { IfOk result (λ found. found.items ≡ signs_of source.now (map placed_of tokens.now)) }
{
    let mut found = Vec::new(alloc);
    let mut offset = 0;
    let mut line = 1;
    let mut rest = tokens;
    while let Some((first, others)) = rest.split_first() {
        line = line_on(source, line, offset, first.start);
        offset = first.start;
        if let Some(sign) = token_sign(&first.kind, others) {
            found.push(WrittenSign { sign, line })?;
        }
        rest = others;
    }
    Ok(found)
}

/// The signs of a source. A source with a fault has none.
pub(crate) fn written_in(alloc: Global, source: &[u8]) -> Result<Vec<WrittenSign>, NoMemory>
    ensures { IfOk result (λ found. AreSignsOf source.now found.items) }
{
    match tokens(alloc, source) {
        Ok(found) => signs_of(alloc, source, functions_in(&found)),
        Err(OrNoMemory::Fault(_)) => Ok(Vec::new(alloc)),
        Err(OrNoMemory::NoMemory) => Err(NoMemory),
    }
}
