//! A piece of a text: a blank, a comment or a token.
ghost use Rattle.std.specs.Prelude.{◌≡◌, ◌≤◌, ◌<◌, ◌+◌, ◌^◌, length, IfOk, slice_index};
ghost use Rattle.std.specs.List.{AllPass};
ghost use Rattle.pf_tokens.specs.Bytes.{is_digit};
ghost use Rattle.pf_tokens.specs.TokenKinds.{kind_of};
ghost use Rattle.pf_tokens.specs.Scan.{
  Gives,
  shown_piece,
  word_kind,
  variable_kind,
  number_at,
  word_at,
  variable_at,
  character_at,
  atom_at,
  text_at,
  module_at,
  dot_at,
  mark_at,
  piece_at,
};

use crate::bytes::{
    Class, class_of, digits_length, ends_form, ends_word, line_length, word_length,
};
use crate::marks::longest_mark;
use crate::quoted::{character, quoted};
use crate::token::{Integer, TokenForm};
use crate::words::{integer_of, reserved_of};
use pf_errors::{Code, OrNoMemory, SourceRefusal};
use std::alloc::{AllocError, Global};

/// What is at the front of a text: the token, unless it is a blank or a comment, and how many bytes it takes.
#[derive(Drop)]
pub struct Piece {
    pub kind: Option<TokenForm>,
    pub length: usize,
}

/// A piece that is a token.
fn token(kind: TokenForm, length: usize) -> Piece
    ensures { result ≡ record { kind = Some kind; length = length } }
{
    Piece {
        kind: Some(kind),
        length,
    }
}

/// The digits at the front.
fn number(bytes: &[u8], offset: usize) -> Result<Piece, OrNoMemory<SourceRefusal>>
    ensures given { Gives shown_piece result (number_at offset bytes.now) }
    ensures within { IfOk result (λ p. p.length ≤ length bytes.now) }
{
    let length = digits_length(bytes);
    match integer_of(bytes.split_at(length).0) {
        Some(value) => Ok(token(TokenForm::Integer(value), length)),
        None => Err(OrNoMemory::refusal(Code::IntegerTooLarge, offset)),
    }
}

/// What a word is: a reserved word or an atom.
fn word_kind(alloc: Global, text: &[u8]) -> Result<TokenForm, AllocError>
    ensures { IfOk result (λ kind. kind_of kind ≡ word_kind text.now) }
{
    match reserved_of(text) {
        Some(reserved) => Ok(TokenForm::Reserved(reserved)),
        None => Ok(TokenForm::Atom(Vec::from_slice(alloc, text)?)),
    }
}

/// The word at the front.
fn word(alloc: Global, bytes: &[u8]) -> Result<Piece, OrNoMemory<SourceRefusal>>
    ensures given { Gives shown_piece result (word_at bytes.now) }
    ensures within { IfOk result (λ p. p.length ≤ length bytes.now) }
{
    let length = word_length(bytes);
    Ok(token(word_kind(alloc, bytes.split_at(length).0)?, length))
}

/// What a variable is: `_` alone is the anonymous one.
fn variable_kind(alloc: Global, text: &[u8]) -> Result<TokenForm, AllocError>
    ensures { IfOk result (λ kind. kind_of kind ≡ variable_kind text.now) }
{
    if text == b"_".as_slice() {
        return Ok(TokenForm::Anonymous);
    }
    Ok(TokenForm::Variable(Vec::from_slice(alloc, text)?))
}

/// The variable at the front.
fn variable(alloc: Global, bytes: &[u8]) -> Result<Piece, OrNoMemory<SourceRefusal>>
    ensures given { Gives shown_piece result (variable_at bytes.now) }
    ensures within { IfOk result (λ p. p.length ≤ length bytes.now) }
{
    let length = word_length(bytes);
    Ok(token(variable_kind(alloc, bytes.split_at(length).0)?, length))
}

/// The `$` and the character at the front, as an integer.
fn code(bytes: &[u8], offset: usize) -> Result<Piece, OrNoMemory<SourceRefusal>>
    requires some { 0 < length bytes.now }
    requires short { offset + length bytes.now < 2 ^ 32 }
    ensures given { Gives shown_piece result (character_at offset bytes.now) }
    ensures within { IfOk result (λ p. p.length ≤ length bytes.now) }
{
    let (code, length) = character(bytes, offset)?;
    Ok(token(
        TokenForm::Integer(Integer {
            value: u64::from(code),
        }),
        length,
    ))
}

/// The quoted atom at the front.
fn atom(alloc: Global, bytes: &[u8], offset: usize) -> Result<Piece, OrNoMemory<SourceRefusal>>
    requires some { 0 < length bytes.now }
    requires short { offset + length bytes.now < 2 ^ 32 }
    ensures given { Gives shown_piece result (atom_at offset bytes.now) }
    ensures within { IfOk result (λ p. p.length ≤ length bytes.now) }
{
    let (name, length) = quoted(alloc, bytes, offset)?;
    Ok(token(TokenForm::Atom(name), length))
}

/// The string at the front.
fn text(alloc: Global, bytes: &[u8], offset: usize) -> Result<Piece, OrNoMemory<SourceRefusal>>
    requires some { 0 < length bytes.now }
    requires short { offset + length bytes.now < 2 ^ 32 }
    ensures given { Gives shown_piece result (text_at offset bytes.now) }
    ensures within { IfOk result (λ p. p.length ≤ length bytes.now) }
{
    let (text, length) = quoted(alloc, bytes, offset)?;
    Ok(token(TokenForm::Text(text), length))
}

/// `?MODULE` at the front, where no byte of a word follows it.
fn own_module(bytes: &[u8], offset: usize) -> Result<Piece, OrNoMemory<SourceRefusal>>
    ensures given { Gives shown_piece result (module_at offset bytes.now) }
    ensures within { IfOk result (λ p. p.length ≤ length bytes.now) }
{
    let macro_name = b"?MODULE";
    if bytes.starts_with(macro_name) && ends_word(bytes.split_at(macro_name.len()).1) {
        return Ok(token(TokenForm::Module, macro_name.len()));
    }
    Err(OrNoMemory::refusal(Code::UnexpectedByte, offset))
}

/// The dot at the front, where a blank, a comment or nothing follows it.
fn full_stop(bytes: &[u8], offset: usize) -> Result<Piece, OrNoMemory<SourceRefusal>>
    requires { 0 < length bytes.now }
    ensures given { Gives shown_piece result (dot_at offset bytes.now) }
    ensures within { IfOk result (λ p. p.length ≤ length bytes.now) }
{
    if ends_form(bytes.split_at(1).1) {
        return Ok(token(TokenForm::Dot, 1));
    }
    Err(OrNoMemory::refusal(Code::UnexpectedByte, offset))
}

/// The longest mark at the front.
fn mark(bytes: &[u8], offset: usize) -> Result<Piece, OrNoMemory<SourceRefusal>>
    ensures given { Gives shown_piece result (mark_at offset bytes.now) }
    ensures within { IfOk result (λ p. p.length ≤ length bytes.now) }
{
    match longest_mark(bytes) {
        Some(mark) => Ok(token(TokenForm::Mark(mark), mark.text().len())),
        None => Err(OrNoMemory::refusal(Code::UnexpectedByte, offset)),
    }
}

/// The piece at the front of what is left of a text, from this offset on.
#[tactic(auto, unfolding(crate::specs::Scan::piece_at))]
pub fn next_piece(
    alloc: Global,
    bytes: &[u8],
    offset: usize,
) -> Result<Piece, OrNoMemory<SourceRefusal>>
    requires some { 0 < length bytes.now }
    requires short { offset + length bytes.now < 2 ^ 32 }
    ensures given { Gives shown_piece result (piece_at offset bytes.now) }
    ensures within { IfOk result (λ p. p.length ≤ length bytes.now) }
{
    match class_of(bytes[0]) {
        Class::Blank => Ok(Piece {
            kind: None,
            length: 1,
        }),
        Class::Percent => Ok(Piece {
            kind: None,
            length: line_length(bytes),
        }),
        Class::Digit => number(bytes, offset),
        Class::Lower => word(alloc, bytes),
        Class::Upper => variable(alloc, bytes),
        Class::Dollar => code(bytes, offset),
        Class::Quote => atom(alloc, bytes, offset),
        Class::DoubleQuote => text(alloc, bytes, offset),
        Class::Question => own_module(bytes, offset),
        Class::Dot => full_stop(bytes, offset),
        Class::Other => mark(bytes, offset),
    }
}
