//! Numbers for the names in tokens.

ghost use Rattle.std.specs.Prelude.{◌≡◌, ◌<◌, ◌^◌, ℕ, length, List, map, IfOk, OnOk};
ghost use Rattle.pf_terms.specs.Atoms.{fixed_names, with_name, names_entered};
ghost use Rattle.pf_tokens.specs.TokenKinds.{placed_of, kind_of};
ghost use Rattle.pf_tokens.specs.NumberedTokens.{atom_name, atoms_after, atoms_of, number_in, numbered_tokens};
ghost use Rattle.pf_tokens.specs.NumberedTokens.{numbered_after, variable_name};
ghost use Rattle.pf_tokens.specs.View.{token_list};
ghost use Rattle.pf_tokens.specs.Numbering.{IsForKind};

use crate::numbered_token::{NumberedKind, NumberedToken};
use crate::{Token, TokenForm};
use pf_errors::NoMemory;
use pf_terms::{AtomId, AtomNumbers, AtomTable};
use std::alloc::Global;

/// The most names that a table takes.
const LIMIT: usize = 4_294_967_295;

/// The number of a name, which stays the name's as the table grows. The table has room for one more, before and after.
fn number_of(alloc: Global, table: &mut AtomNumbers, name: &[u8]) -> Result<AtomId, NoMemory>
    requires { length table.old < 2 ^ 32 }
    ensures number { IfOk result (λ a. (more : List (List ℕ))
        → number_in (names_entered table.new more) name.now ≡ a.0) }
    ensures names { OnOk result (table.new ≡ with_name table.old name.now) }
    ensures room { OnOk result (length table.new < 2 ^ 32) }
{
    let number = table.enter(alloc, name)?;
    if table.len() > LIMIT {
        return Err(NoMemory);
    }
    Ok(number)
}

/// A kind of token with a number for its name.
fn number_kind<'a>(
    alloc: Global,
    atoms: &mut AtomNumbers,
    variables: &mut AtomNumbers,
    kind: &'a TokenForm,
) -> Result<NumberedKind<'a>, NoMemory>
    requires atoms { length atoms.old < 2 ^ 32 }
    requires variables { length variables.old < 2 ^ 32 }
    ensures kind { IfOk result (λ s. IsForKind atoms.new variables.new (kind_of kind.now) s) }
    ensures atoms { OnOk result (atoms.new ≡ names_entered atoms.old (atom_name (kind_of kind.now))) }
    ensures variables { OnOk result (variables.new ≡ names_entered variables.old (variable_name (kind_of kind.now))) }
    ensures room { OnOk result ((length atoms.new < 2 ^ 32) × (length variables.new < 2 ^ 32)) }
{
    match kind {
        TokenForm::Integer(n) => Ok(NumberedKind::Integer(*n)),
        TokenForm::Atom(name) => {
            let number = number_of(alloc, atoms, name)?;
            Ok(NumberedKind::Atom(number))
        }
        TokenForm::Variable(name) => {
            let number = number_of(alloc, variables, name)?;
            Ok(NumberedKind::Variable(number))
        }
        TokenForm::Anonymous => Ok(NumberedKind::Anonymous),
        TokenForm::Text(text) => Ok(NumberedKind::Text(text)),
        TokenForm::Module => Ok(NumberedKind::OwnModule),
        TokenForm::Dot => Ok(NumberedKind::Dot),
        TokenForm::Mark(mark) => Ok(NumberedKind::Mark(*mark)),
        TokenForm::Reserved(word) => Ok(NumberedKind::Reserved(*word)),
    }
}

/// The offset of a token. A source that has one of 2^32 or more is no source that fits memory.
fn offset_of(start: usize) -> Result<u32, NoMemory>
    ensures same { IfOk result (λ at. at ≡ start) }
{
    match u32::try_from(start) {
        Ok(at) => Ok(at),
        Err(_) => Err(NoMemory),
    }
}

/// The tokens with numbers for their names. Those of atoms enter a table after its own, and those of variables a fresh
/// one.
fn number_all<'a>(
    alloc: Global,
    atoms: &mut AtomNumbers,
    variables: &mut AtomNumbers,
    tokens: &'a [Token],
) -> Result<Vec<NumberedToken<'a>>, NoMemory>
    requires room { length atoms.old < 2 ^ 32 }
    requires variables { variables.old ≡ fixed_names }
    ensures atoms { OnOk result (atoms.new ≡ atoms_after atoms.old (map placed_of tokens.now)) }
    ensures token_list { IfOk result
        (λ found. token_list found.items ≡ numbered_after atoms.old (map placed_of tokens.now)) }
{
    let mut found = Vec::new(alloc);
    for token in tokens {
        let kind = number_kind(alloc, atoms, variables, &token.kind)?;
        let at = offset_of(token.start)?;
        found.push(NumberedToken { kind, at })?;
    }
    Ok(found)
}

/// The tokens with numbers for their names. Those of atoms enter a table after its own, and those of variables one that
/// is dropped here.
fn number_names<'a>(
    alloc: Global,
    atoms: &mut AtomNumbers,
    tokens: &'a [Token],
) -> Result<Vec<NumberedToken<'a>>, NoMemory>
    requires { length atoms.old < 2 ^ 32 }
    ensures atoms { OnOk result (atoms.new ≡ atoms_after atoms.old (map placed_of tokens.now)) }
    ensures token_list { IfOk result
        (λ found. token_list found.items ≡ numbered_after atoms.old (map placed_of tokens.now)) }
{
    let mut variables = AtomNumbers::new(alloc)?;
    number_all(alloc, atoms, &mut variables, tokens)
}

/// The atoms of the tokens, and the tokens with numbers for their names.
pub fn number_tokens<'a>(
    alloc: Global,
    tokens: &'a [Token],
) -> Result<(AtomTable, Vec<NumberedToken<'a>>), NoMemory>
    ensures atoms { IfOk result (λ x. x.0 ≡ atoms_of (map placed_of tokens.now)) }
    ensures token_list { IfOk result (λ x. token_list x.1.items ≡ numbered_tokens (map placed_of tokens.now)) }
{
    let mut atoms = AtomNumbers::new(alloc)?;
    let found = number_names(alloc, &mut atoms, tokens)?;
    Ok((atoms.into_table(), found))
}

/// The names of a table, each with the number that it has there. The table has room for one more.
fn numbers_of(alloc: Global, atoms: &AtomTable) -> Result<AtomNumbers, NoMemory>
    ensures same { IfOk result (λ t. t ≡ atoms.now) }
    ensures room { IfOk result (λ t. length t < 2 ^ 32) }
{
    let numbers = AtomNumbers::of(alloc, atoms)?;
    if numbers.len() > LIMIT {
        return Err(NoMemory);
    }
    Ok(numbers)
}

/// The atoms of a table with those of the tokens after them, and the tokens with numbers for their names. An atom of
/// the table keeps its number there.
pub fn number_tokens_after<'a>(
    alloc: Global,
    tokens: &'a [Token],
    atoms: &AtomTable,
) -> Result<(AtomTable, Vec<NumberedToken<'a>>), NoMemory>
    ensures atoms { IfOk result (λ x. x.0 ≡ atoms_after atoms.now (map placed_of tokens.now)) }
    ensures token_list { IfOk result
        (λ x. token_list x.1.items ≡ numbered_after atoms.now (map placed_of tokens.now)) }
{
    let mut numbers = numbers_of(alloc, atoms)?;
    let found = number_names(alloc, &mut numbers, tokens)?;
    Ok((numbers.into_table(), found))
}
