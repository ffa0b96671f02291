//! Atoms of a property that a module lacks: no value of a run has them.

ghost use Rattle.std.specs.Prelude.{◌≡◌, List, IfOk, None, map, option_map};
ghost use Rattle.pf_tokens.specs.Rules.{HasTokens};
ghost use Rattle.pf_tokens.specs.TokenKinds.{PlacedToken, kind_of, placed_of};
ghost use Rattle.pf_cli_messages.specs.Lacked.{lacked, lacked_name};

use crate::wording::quoted;
use pf_check::{ReadModule, ReadSource};
use pf_errors::{NoMemory, OrNoMemory, SourceRefusal};
use pf_terms::AtomTable;
use pf_tokens::{Token, TokenForm, tokens};
use std::alloc::Global;

/// The name of a token that is an atom and isn't in a table.
fn lacked_name<'a>(atoms: &AtomTable, token: &'a Token) -> Option<&'a [u8]>
    ensures { option_map (λ s. s.now) result ≡ lacked_name atoms.now (kind_of token.entry.now.kind) }
{
    match &token.kind {
        TokenForm::Atom(name) => match atoms.find(name) {
            Some(_) => None,
            None => Some(name.as_slice()),
        },
        _ => None,
    }
}

/// The first atom among tokens that isn't in a table.
fn lacked<'a>(atoms: &AtomTable, found: &'a [Token]) -> Option<&'a [u8]>
    ensures { option_map (λ s. s.now) result ≡ lacked atoms.now (map placed_of found.entry.now) }
{
    let mut rest = found;
    while let Some((first, after)) = rest.split_first() {
        if let Some(name) = lacked_name(atoms, first) {
            return Some(name);
        }
        rest = after;
    }
    None
}

/// The first atom of a pattern's text that isn't in a table.
fn lacked_atom(
    alloc: Global,
    atoms: &AtomTable,
    text: &[u8],
) -> Result<Option<Vec<u8>>, OrNoMemory<SourceRefusal>>
    ensures { (ts : List PlacedToken) → HasTokens text.now ts
        → IfOk result (λ o. option_map (λ v. v.items) o ≡ lacked atoms.now ts) }
{
    let found = tokens(alloc, text)?;
    match lacked(atoms, &found) {
        Some(name) => Ok(Some(Vec::from_slice(alloc, name)?)),
        None => Ok(None),
    }
}

/// What is said of a property whose pattern has an atom that a module lacks; nothing of another, nor where either is
/// refused.
fn said_of_module(
    alloc: Global,
    module: &ReadModule,
    pattern: &[u8],
) -> Result<Option<String>, NoMemory> {
    match lacked_atom(alloc, module.module().atoms(), pattern) {
        Ok(Some(atom)) => {
            let shown = quoted(alloc, &atom)?;
            let text = format!(in alloc;
                "no message fits the pattern of the property: its atom {shown} stands nowhere in the module"
            )?;
            Ok(Some(text))
        }
        Ok(None) | Err(OrNoMemory::Fault(_)) => Ok(None),
        Err(OrNoMemory::NoMemory) => Err(NoMemory),
    }
}

/// The same of a source.
pub fn lacking_sentence(
    alloc: Global,
    source: &ReadSource,
    property: &[u8],
) -> Result<Option<String>, NoMemory> {
    let Some(pattern) = property.strip_prefix(b"never:".as_slice()) else {
        return Ok(None);
    };
    match source.module() {
        Ok(module) => said_of_module(alloc, module, pattern),
        Err(_) => Ok(None),
    }
}
