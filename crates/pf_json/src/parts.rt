//! The parts of the shapes that lines have.

ghost use Rattle.std.specs.Prelude.{◌≡◌, ◌≤◌, ◌+◌, IfOk, Some, drop, length, map, option_map};
ghost use Rattle.std.specs.List.{prefix_len};
ghost use Rattle.pf_tokens.specs.Bytes.{is_digit};
ghost use Rattle.pf_json.specs.Facts.{after_words, coded, counted_fact, fact, facts_by, facts_by_first, is_code};
ghost use Rattle.pf_json.specs.Facts.{is_no_blank, is_property, part_step, property, word_fact};
ghost use Rattle.pf_json.specs.Views.{view_of_part, view_of_taken, view_of_value, views_of};

use crate::facts::{Fact, Value, before_blank, said, value_of};
use pf_text::is_numeral;
use pf_tokens::is_digit;
use std::alloc::{AllocError, Global};

/// A part of a shape.
#[derive(Drop, Clone, Copy)]
pub(crate) enum ShapePart<'a> {
    /// These words.
    Words(&'a [u8]),
    /// These words, or nothing.
    Maybe(&'a [u8]),
    /// A number, reported under this key.
    Count(&'a [u8]),
    /// What is before the next blank, or the end.
    Word(&'a [u8]),
    /// The code of a refusal.
    Code(&'a [u8]),
    /// All the rest, as a text.
    Rest(&'a [u8]),
    /// The same, which is the name of a property or begins as a pattern that is never sent.
    Property(&'a [u8]),
    /// All the rest, by the rule of words: a word alone, or one before the others.
    Says,
    /// Nothing, and yet this is reported.
    Reports(Fact<'a>),
}

/// What follows a part, and what the part reports.
#[derive(Drop, Clone, Copy)]
pub(crate) struct TakenPart<'a> {
    pub rest: &'a [u8],
    pub fact: Option<Fact<'a>>,
}

/// What follows words at the front of a text.
pub(crate) fn after<'a>(words: &[u8], text: &'a [u8]) -> Option<&'a [u8]>
    ensures { option_map (λ s. s.now) result ≡ after_words words.now text.now }
{
    if text.starts_with(words) {
        Some(&text[words.len()..])
    } else {
        None
    }
}

/// How many digits are at the front of a text.
fn digits(text: &[u8]) -> usize
    ensures is { result ≡ prefix_len is_digit text.now }
    ensures within { result ≤ length text.now }
{
    text.iter().take_while(|byte| is_digit(**byte)).count()
}

/// A fact of the first bytes of a text, and what follows them.
fn reported<'a>(key: &'a [u8], value: Value<'a>, rest: &'a [u8]) -> Option<TakenPart<'a>>
    ensures { option_map view_of_taken result
        ≡ Some (rest.entry.now, Some (fact key.entry.now (view_of_value value.entry))) }
{
    let fact = Some(Fact { key, value });
    Some(TakenPart { rest, fact })
}

/// The number at the front of a text.
fn counted<'a>(key: &'a [u8], text: &'a [u8]) -> Option<TakenPart<'a>>
    ensures { option_map view_of_taken result ≡ counted_fact key.entry.now text.entry.now
        (prefix_len is_digit text.entry.now) }
{
    let (number, rest) = text.split_at(digits(text));
    if is_numeral(number) {
        reported(key, value_of(number), rest)
    } else {
        None
    }
}

/// The word at the front of a text.
fn worded<'a>(key: &'a [u8], text: &'a [u8]) -> Option<TakenPart<'a>>
    ensures { option_map view_of_taken result ≡ word_fact key.entry.now text.entry.now
        (prefix_len is_no_blank text.entry.now) }
{
    let (word, rest) = text.split_at(before_blank(text));
    if word.is_empty() {
        None
    } else {
        reported(key, Value::Text(word), rest)
    }
}

/// Whether a text is the code of a refusal.
fn is_code(text: &[u8]) -> bool
    ensures { result ≡ is_code text.now }
{
    match text {
        [first, number @ ..] => *first >= b'A' && *first <= b'Z' && is_numeral(number),
        [] => false,
    }
}

/// The code at the front of a text.
fn coded<'a>(key: &'a [u8], text: &'a [u8]) -> Option<TakenPart<'a>>
    ensures { option_map view_of_taken result
        ≡ coded key.entry.now text.entry.now (1 + prefix_len is_digit (drop 1 text.entry.now)) }
{
    let (_, following) = text.split_first()?;
    let (code, rest) = text.split_at(1 + digits(following));
    if is_code(code) {
        reported(key, Value::Text(code), rest)
    } else {
        None
    }
}

/// Whether a text is the name of a property, or begins as a pattern that is never sent.
fn is_property(text: &[u8]) -> bool
    ensures { result ≡ is_property text.now }
{
    text == b"returns".as_slice()
        || text == b"true".as_slice()
        || text == b"nocrash".as_slice()
        || text == b"nodeadlock".as_slice()
        || text == b"withinlimit".as_slice()
        || text.starts_with(b"never:")
}

/// A text, if it may be that of a property.
fn judged<'a>(key: &'a [u8], text: &'a [u8]) -> Option<TakenPart<'a>>
    ensures { option_map view_of_taken result ≡ part_step (property key.entry.now) text.entry.now }
{
    if is_property(text) {
        reported(key, Value::Text(text), b"")
    } else {
        None
    }
}

/// What follows a part at the front of a text, and what the part reports.
fn step<'a>(part: ShapePart<'a>, text: &'a [u8]) -> Option<TakenPart<'a>>
    ensures { option_map view_of_taken result ≡ part_step (view_of_part part.entry) text.entry.now }
{
    match part {
        ShapePart::Words(words) => {
            let rest = after(words, text)?;
            Some(TakenPart { rest, fact: None })
        }
        ShapePart::Maybe(words) => {
            let rest = after(words, text).unwrap_or(text);
            Some(TakenPart { rest, fact: None })
        }
        ShapePart::Count(key) => counted(key, text),
        ShapePart::Word(key) => worded(key, text),
        ShapePart::Code(key) => coded(key, text),
        ShapePart::Rest(key) => reported(key, Value::Text(text), b""),
        ShapePart::Property(key) => judged(key, text),
        ShapePart::Says => {
            let fact = Some(said(text));
            Some(TakenPart { rest: b"", fact })
        }
        ShapePart::Reports(fact) => {
            let fact = Some(fact);
            Some(TakenPart { rest: text, fact })
        }
    }
}

/// The facts of a line that has this shape.
pub(crate) fn facts_by<'a>(
    alloc: Global,
    shape: &[ShapePart<'a>],
    line: &'a [u8],
) -> Result<Option<Vec<Fact<'a>>>, AllocError>
    ensures { IfOk result (λ fs. option_map (λ v. views_of v.items) fs
        ≡ facts_by (map view_of_part shape.now) line.entry.now) }
{
    let mut facts = Vec::new(alloc);
    let mut rest = line;
    for part in shape {
        let Some(step) = step(*part, rest) else {
            return Ok(None);
        };
        rest = step.rest;
        if let Some(fact) = step.fact {
            facts.push(fact)?;
        }
    }
    if rest.is_empty() {
        Ok(Some(facts))
    } else {
        Ok(None)
    }
}

/// The facts of a line by the first of these shapes that it has.
#[tactic(auto, unfolding(crate::specs::Facts::facts_by_first))]
pub(crate) fn facts_by_first<'a>(
    alloc: Global,
    shapes: &[&[ShapePart<'a>]],
    line: &'a [u8],
) -> Result<Option<Vec<Fact<'a>>>, AllocError>
    ensures { IfOk result (λ fs. option_map (λ v. views_of v.items) fs
        ≡ facts_by_first (map (λ s. map view_of_part s.now) shapes.now) line.entry.now) }
{
    for shape in shapes {
        if let Some(facts) = facts_by(alloc, shape, line)? {
            return Ok(Some(facts));
        }
    }
    Ok(None)
}
