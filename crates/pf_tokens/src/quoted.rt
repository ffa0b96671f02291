//! Texts in quotes, and characters after `$`.
ghost use Rattle.std.specs.Prelude.{false, ◌≡◌, ◌≤◌, ◌+◌, ◌^◌, ◌<◌, length, IfOk};
ghost use Rattle.pf_tokens.specs.Bytes.{is_visible, escape_of};
ghost use Rattle.pf_tokens.specs.Scan.{Gives, step_of, width, closing, quoted, character};

use crate::bytes::{is_quotable, is_visible};
use pf_errors::{Code, OrNoMemory, SourceRefusal};
use std::alloc::Global;

/// What a byte within quotes does.
#[derive(Clone, Copy)]
enum QuoteStep {
    /// It closes the text.
    Closes,
    /// It begins an escape.
    Escapes,
    /// It stands for this byte, or ends an escape that does.
    Means(u8),
    /// It isn't allowed there, or makes no escape.
    Fails,
}

/// The byte that a letter stands for after `\`: one of `n`, `t`, `s`, `\`, `'` and `"`.
fn escape_of(letter: u8) -> Option<u8>
    ensures { result ≡ escape_of letter }
{
    match letter {
        b'n' => Some(b'\n'),
        b't' => Some(b'\t'),
        b's' => Some(b' '),
        b'\\' | b'\'' | b'"' => Some(letter),
        _ => None,
    }
}

/// How many bytes stand for one.
fn width(is_escaped: bool) -> usize
    ensures { result ≡ width is_escaped }
{
    if is_escaped { 2 } else { 1 }
}

/// What a byte within this quote does, after a `\` or not.
fn step_of(quote: u8, is_escaped: bool, byte: u8) -> QuoteStep
    ensures { result ≡ step_of quote is_escaped byte }
{
    if is_escaped {
        match escape_of(byte) {
            Some(meant) => QuoteStep::Means(meant),
            None => QuoteStep::Fails,
        }
    } else if byte == quote {
        QuoteStep::Closes
    } else if byte == b'\\' {
        QuoteStep::Escapes
    } else if is_quotable(byte) {
        QuoteStep::Means(byte)
    } else {
        QuoteStep::Fails
    }
}

/// The bytes up to the quote that closes a text, and the length with both quotes. The text begins with a quote
/// at the offset, and the rest is what comes after that.
fn closing(
    alloc: Global,
    rest: &[u8],
    offset: usize,
    quote: u8,
) -> Result<(Vec<u8>, usize), OrNoMemory<SourceRefusal>>
    requires { offset + length rest.now < 2 ^ 32 }
    ensures given { Gives (λ found. (found.0.items, found.1)) result (closing quote offset rest.now false 1) }
    ensures within { IfOk result (λ found. found.1 ≤ length rest.now + 1) }
{
    let mut text = Vec::new(alloc);
    let mut length = 1;
    let mut is_escaped = false;
    for byte in rest {
        match step_of(quote, is_escaped, *byte) {
            QuoteStep::Closes => return Ok((text, length + 1)),
            QuoteStep::Escapes => is_escaped = true,
            QuoteStep::Means(meant) => {
                text.push(meant)?;
                length += width(is_escaped);
                is_escaped = false;
            }
            QuoteStep::Fails => return Err(OrNoMemory::refusal(
                Code::UnexpectedByte,
                offset + length,
            )),
        }
    }
    Err(OrNoMemory::refusal(Code::Unfinished, offset))
}

/// The bytes in quotes at the offset, and the length of the text with both quotes. The first byte is
/// the quote that opens it.
pub fn quoted(
    alloc: Global,
    bytes: &[u8],
    offset: usize,
) -> Result<(Vec<u8>, usize), OrNoMemory<SourceRefusal>>
    requires some { 0 < length bytes.now }
    requires short { offset + length bytes.now < 2 ^ 32 }
    ensures given { Gives (λ found. (found.0.items, found.1)) result (quoted offset bytes.now) }
    ensures within { IfOk result (λ found. found.1 ≤ length bytes.now) }
{
    closing(alloc, bytes.split_at(1).1, offset, bytes[0])
}

/// The code of the character at the offset, and its length. The first byte is the `$`.
pub fn character(bytes: &[u8], offset: usize) -> Result<(u8, usize), OrNoMemory<SourceRefusal>>
    requires some { 0 < length bytes.now }
    requires short { offset + length bytes.now < 2 ^ 32 }
    ensures given { Gives (λ found. found) result (character offset bytes.now) }
    ensures within { IfOk result (λ found. found.1 ≤ length bytes.now) }
{
    let Some((byte, rest)) = bytes.split_at(1).1.split_first() else {
        return Err(OrNoMemory::refusal(Code::Unfinished, offset));
    };
    if *byte == b'\\' {
        let Some((letter, _)) = rest.split_first() else {
            return Err(OrNoMemory::refusal(Code::Unfinished, offset));
        };
        let code = escape_of(*letter).ok_or(OrNoMemory::refusal(Code::UnexpectedByte, offset + 1))?;
        return Ok((code, 3));
    }
    if is_visible(*byte) {
        return Ok((*byte, 2));
    }
    Err(OrNoMemory::refusal(Code::UnexpectedByte, offset + 1))
}
