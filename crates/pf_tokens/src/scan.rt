//! The tokens of a text, piece by piece.
ghost use Rattle.std.specs.Prelude.{◌≡◌, ◌<◌, ◌+◌, ◌++◌, ◌^◌, ◌⊎◌, ℕ, List, length, map, OnOk, IfOk, IfErr, option_map};
ghost use Rattle.pf_tokens.specs.TokenKinds.{PlacedToken, kind_of, placed_of, one_token};
ghost use Rattle.pf_tokens.specs.Rules.{HasTokens, HasFault, HasSomeTokens, HasSomeFault, IsOrdered, IsFaultOf};
ghost use Rattle.pf_tokens.specs.Scan.{Gives, scan, tokens};
ghost use Rattle.pf_errors.specs.declared.code.Code.{Code};

use crate::piece::next_piece;
use crate::token::{Token, TokenForm};
use pf_errors::{Code, OrNoMemory, SourceRefusal};
use std::alloc::{AllocError, Global};

/// The most bytes that a source may have.
pub const MOST_SOURCE_BYTES: usize = 65_536;

/// Puts the token of a piece at the end, where it has one.
fn put(
    found: &mut Vec<Token>,
    kind: Option<TokenForm>,
    start: usize,
    end: usize,
) -> Result<(), AllocError>
    ensures { OnOk result (map placed_of found.new.items
        ≡ map placed_of found.old.items ++ one_token (option_map kind_of kind) start end) }
{
    if let Some(kind) = kind {
        found.push(Token { kind, start, end })?;
    }
    Ok(())
}

/// The tokens of a text that is not too long.
fn scan(alloc: Global, source: &[u8]) -> Result<Vec<Token>, OrNoMemory<SourceRefusal>>
    requires { length source.now < 2 ^ 32 }
    ensures { Gives (λ found. map placed_of found.items) result (scan (length source.now) 0 source.now) }
{
    let mut found = Vec::new(alloc);
    let mut offset = 0;
    let mut rest = source;
    for _ in 0..source.len() {
        if rest.is_empty() {
            return Ok(found);
        }
        let next = next_piece(alloc, rest, offset)?;
        let end = offset + next.length;
        put(&mut found, next.kind, offset, end)?;
        rest = rest.split_at(next.length).1;
        offset = end;
    }
    Ok(found)
}

/// Reads a source text from left to right.
fn read(alloc: Global, source: &[u8]) -> Result<Vec<Token>, OrNoMemory<SourceRefusal>>
    ensures { Gives (λ found. map placed_of found.items) result (tokens source.now) }
{
    if source.len() > MOST_SOURCE_BYTES {
        return Err(OrNoMemory::refusal(Code::SourceTooLong, 0));
    }
    scan(alloc, source)
}

/// The tokens of a source text, in order, or its first fault with the offset of it, in bytes from 0. Each text has
/// its tokens or a first fault, as `one_reading` says; out of memory comes in place of either.
pub fn tokens(alloc: Global, source: &[u8]) -> Result<Vec<Token>, OrNoMemory<SourceRefusal>>
    ensures found { IfOk result (λ found. HasTokens source.now (map placed_of found.items)) }
    ensures ordered { IfOk result (λ found. IsOrdered 0 (map placed_of found.items) (length source.now)) }
    ensures fault { IfErr result (IsFaultOf source.now) }

    // What the text has is what is answered, unless memory runs out.
    ensures only { (ts : List PlacedToken) → HasTokens source.now ts →
        Gives (λ found. map placed_of found.items) result (Ok ts) }
    ensures only_fault { (fault : Code) (offset : ℕ) → HasFault source.now fault offset →
        Gives (λ found. map placed_of found.items) result (Err (fault, offset)) }
{
    read(alloc, source)
}

/// Each text has its tokens or a first fault, never both, and never two.
pub fn one_reading()
    ensures either { (text : List ℕ) → HasSomeTokens text ⊎ HasSomeFault text }
    ensures apart { (text : List ℕ) → HasSomeTokens text → HasSomeFault text → ⊥ }
    ensures tokens { (text : List ℕ) (ts us : List PlacedToken) → HasTokens text ts → HasTokens text us → ts ≡ us }
    ensures fault { (text : List ℕ) (f g : Code) (m n : ℕ) →
        HasFault text f m → HasFault text g n → (f ≡ g) × (m ≡ n) }
{}
