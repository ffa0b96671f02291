//! The term of a text.

ghost use Rattle.std.specs.Prelude.{◌≡◌, Err, IfOk, map};
ghost use Rattle.pf_terms.specs.Term.{value_of, values_of};
ghost use Rattle.pf_terms.specs.Value.{Value, list, tuple};
ghost use Rattle.pf_termtext.specs.Reading.{Gives, bounded, elements_at, items_at, list_at, tuple_at, value_at};
ghost use Rattle.pf_termtext.specs.Reading.{value_of_text};
ghost use Rattle.pf_termtext.specs.Texts.{IsTextOf, no_term};

use crate::bytes::after;
use crate::fault::{Fault, NoTerm, no_term};
use crate::name::{read_plain, read_quoted};
use crate::number::read_integer;
use pf_errors::OrNoMemory;
use pf_terms::{AtomTable, MOST_DEPTH, MOST_NODES, Term, list_of, tuple_of};
use pf_tokens::is_digit;
use std::alloc::Global;

/// The tuple of these elements, where it is within the limits of a value.
fn bounded_tuple(alloc: Global, items: Vec<Term>) -> Result<Term, Fault>
    ensures { Gives value_of result (bounded (tuple (values_of items.items))) }
{
    match tuple_of(alloc, items) {
        Ok(term) => Ok(term),
        Err(OrNoMemory::Fault(_)) => Err(no_term()),
        Err(OrNoMemory::NoMemory) => Err(OrNoMemory::NoMemory),
    }
}

/// The list of these elements, where it is within the limits of a value.
fn bounded_list(alloc: Global, items: Vec<Term>) -> Result<Term, Fault>
    ensures { Gives value_of result (bounded (list (values_of items.items))) }
{
    match list_of(alloc, items) {
        Ok(elements) => Ok(Term::List(elements)),
        Err(OrNoMemory::Fault(_)) => Err(no_term()),
        Err(OrNoMemory::NoMemory) => Err(OrNoMemory::NoMemory),
    }
}

/// Reads one element or several with commas between them. A value within the limits has fewer elements than nodes.
#[cycle(reads)]
fn read_items<'a>(
    alloc: Global,
    text: &'a [u8],
    atoms: &AtomTable,
    room: u32,
) -> Result<(Vec<Term>, &'a [u8]), Fault>
    ensures { Gives (λ p. (map value_of p.0.items, p.1.now)) result
        (items_at (value_at atoms.now room) MOST_NODES text.now) }
{
    let mut items = Vec::new(alloc);
    let mut rest = text;
    for _ in 0..MOST_NODES {
        let (item, more) = read_value(alloc, rest, atoms, room)?;
        items.push(item)?;
        match after(more, b',') {
            Some(next) => rest = next,
            None => return Ok((items, more)),
        }
    }
    Err(no_term())
}

/// Reads the elements of a tuple or a list up to the byte that ends them.
#[cycle(reads)]
fn read_elements<'a>(
    alloc: Global,
    text: &'a [u8],
    atoms: &AtomTable,
    room: u32,
    end: u8,
) -> Result<(Vec<Term>, &'a [u8]), Fault>
    ensures { Gives (λ p. (map value_of p.0.items, p.1.now)) result
        (elements_at (value_at atoms.now room) end text.now) }
{
    if let Some(rest) = after(text, end) {
        return Ok((Vec::new(alloc), rest));
    }
    let (items, rest) = read_items(alloc, text, atoms, room)?;
    match after(rest, end) {
        Some(rest) => Ok((items, rest)),
        None => Err(no_term()),
    }
}

/// Reads the tuple whose elements are at the front, after its brace.
#[cycle(reads)]
fn read_tuple<'a>(
    alloc: Global,
    text: &'a [u8],
    atoms: &AtomTable,
    room: u32,
) -> Result<(Term, &'a [u8]), Fault>
    ensures { Gives (λ p. (value_of p.0, p.1.now)) result
        (tuple_at (elements_at (value_at atoms.now room)) text.now) }
{
    let (items, rest) = read_elements(alloc, text, atoms, room, b'}')?;
    Ok((bounded_tuple(alloc, items)?, rest))
}

/// Reads the list whose elements are at the front, after its bracket.
#[cycle(reads)]
fn read_list<'a>(
    alloc: Global,
    text: &'a [u8],
    atoms: &AtomTable,
    room: u32,
) -> Result<(Term, &'a [u8]), Fault>
    ensures { Gives (λ p. (value_of p.0, p.1.now)) result
        (list_at (elements_at (value_at atoms.now room)) text.now) }
{
    let (items, rest) = read_elements(alloc, text, atoms, room, b']')?;
    Ok((bounded_list(alloc, items)?, rest))
}

/// Reads the value at the front, at most so deep.
#[cycle(reads)]
fn read_value<'a>(
    alloc: Global,
    text: &'a [u8],
    atoms: &AtomTable,
    room: u32,
) -> Result<(Term, &'a [u8]), Fault>
    ensures { Gives (λ p. (value_of p.0, p.1.now)) result (value_at atoms.now room text.now) }
{
    if room == 0 {
        return Err(no_term());
    }
    let Some((first, after)) = text.split_first() else {
        return Err(no_term());
    };
    match *first {
        b'{' => read_tuple(alloc, after, atoms, room - 1),
        b'[' => read_list(alloc, after, atoms, room - 1),
        b'\'' => read_quoted(alloc, after, atoms),
        b'-' => read_integer(true, after),
        digit if is_digit(digit) => read_integer(false, text),
        _ => read_plain(text, atoms),
    }
}

/// The term whose text the bytes are, all of them.
fn read_whole(alloc: Global, bytes: &[u8], atoms: &AtomTable) -> Result<Term, Fault>
    ensures { Gives value_of result (value_of_text atoms.now bytes.now) }
{
    let (term, rest) = read_value(alloc, bytes, atoms, MOST_DEPTH)?;
    if rest.is_empty() {
        Ok(term)
    } else {
        Err(no_term())
    }
}

/// The term of which the bytes are printed. Nothing else may be in them, no blank either. Where there is no such
/// term, or only one with a process, a reference or an atom that the table lacks, the text is refused.
pub fn read(alloc: Global, bytes: &[u8], atoms: &AtomTable) -> Result<Term, OrNoMemory<NoTerm>>
    ensures found { IfOk result (λ t. IsTextOf atoms.now bytes.now (value_of t)) }
    ensures again { (v : Value) → IsTextOf atoms.now bytes.now v → IfOk result (λ t. value_of t ≡ v) }
    ensures refused { result ≡ Err no_term → (v : Value) → ¬ IsTextOf atoms.now bytes.now v }
{
    // Its contract says that no two names are the same.
    let _names = atoms.len();
    read_whole(alloc, bytes, atoms)
}
