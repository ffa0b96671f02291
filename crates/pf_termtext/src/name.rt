//! Atoms in a text.

ghost use Rattle.std.specs.Prelude.{◌≡◌, option_map, false};
ghost use Rattle.pf_terms.specs.Term.{value_of};
ghost use Rattle.pf_termtext.specs.Reading.{Gives, atom_of, escaped_byte, name_at, plain_at, quoted_at, is_alone};
ghost use Rattle.pf_termtext.specs.Reading.{written_byte};

use crate::bytes::{after, split_word};
use crate::fault::{Fault, no_term};
use crate::is_plain_name;
use pf_terms::{AtomId, AtomTable, Term};
use std::alloc::Global;

/// The atom of this name.
fn atom_of(atoms: &AtomTable, name: &[u8]) -> Option<AtomId>
    ensures { option_map (λ a. a.0) result ≡ atom_of atoms.now name.now }
{
    // Its contract says that no two names are the same.
    let _names = atoms.len();
    atoms.find(name)
}

/// Reads the atom whose name is at the front as it is.
pub fn read_plain<'a>(text: &'a [u8], atoms: &AtomTable) -> Result<(Term, &'a [u8]), Fault>
    ensures { Gives (λ p. (value_of p.0, p.1.now)) result (plain_at atoms.now text.now) }
{
    let (name, rest) = split_word(text);
    if !is_plain_name(name) {
        return Err(no_term());
    }
    match atom_of(atoms, name) {
        Some(atom) => Ok((Term::Atom(atom), rest)),
        None => Err(no_term()),
    }
}

/// The byte that a letter stands for after `\`.
fn escaped(letter: u8) -> Option<u8>
    ensures { result ≡ escaped_byte letter }
{
    match letter {
        b'n' => Some(b'\n'),
        b't' => Some(b'\t'),
        b'\\' | b'\'' => Some(letter),
        _ => None,
    }
}

/// Whether a byte stands for itself in quotes.
fn is_alone(byte: u8) -> bool
    ensures { result ≡ is_alone byte }
{
    !(byte == b'\'' || byte == b'\\' || byte == b'\n' || byte == b'\t')
}

/// The byte that is written at the front, in quotes, and the bytes after it.
fn written_byte(text: &[u8]) -> Option<(u8, &[u8])>
    ensures { option_map (λ p. (p.0, p.1.now)) result ≡ written_byte text.now }
{
    match text {
        [b'\\', letter, rest @ ..] => Some((escaped(*letter)?, rest)),
        [byte, rest @ ..] if is_alone(*byte) => Some((*byte, rest)),
        _ => None,
    }
}

/// Reads the name that is written up to the closing quote.
fn read_name(alloc: Global, text: &[u8]) -> Result<(Vec<u8>, &[u8]), Fault>
    ensures { Gives (λ p. (p.0.items, p.1.now)) result (name_at false text.now) }
{
    let mut name = Vec::new(alloc);
    let mut rest = text;
    while let Some((byte, more)) = written_byte(rest) {
        name.push(byte)?;
        rest = more;
    }
    match after(rest, b'\'') {
        Some(rest) => Ok((name, rest)),
        None => Err(no_term()),
    }
}

/// Reads the atom whose name is in quotes at the front, the first of which is read.
pub fn read_quoted<'a>(
    alloc: Global,
    text: &'a [u8],
    atoms: &AtomTable,
) -> Result<(Term, &'a [u8]), Fault>
    ensures { Gives (λ p. (value_of p.0, p.1.now)) result (quoted_at atoms.now text.now) }
{
    let (name, rest) = read_name(alloc, text)?;
    if is_plain_name(&name) {
        return Err(no_term());
    }
    match atom_of(atoms, &name) {
        Some(atom) => Ok((Term::Atom(atom), rest)),
        None => Err(no_term()),
    }
}
