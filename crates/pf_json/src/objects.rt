//! The JSON object of a line.

ghost use Rattle.std.specs.Prelude.{◌≡◌, ◌++◌, ◌∷◌, [], IfOk, OnOk, flat_map};
ghost use Rattle.std.specs.Str.Lossy.{utf8_lossy};
ghost use Rattle.json.specs.Token.{key, string};
ghost use Rattle.pf_json.specs.Facts.{fact, text};
ghost use Rattle.pf_json.specs.Objects.{fact_tokens, facts_at, facts_of, next, object_line, object_tokens, value_token};
ghost use Rattle.pf_json.specs.Views.{view_of_fact, view_of_value, views_of};

use crate::facts::{Fact, Value, said};
use crate::names::named;
use crate::parts::{facts_by, facts_by_first};
use crate::place::LinePlace;
use crate::shapes::{POSITION, SHAPES};
use json::Writer;
use std::alloc::{AllocError, Global};

/// One fact alone.
fn alone<'a>(alloc: Global, fact: Fact<'a>) -> Result<Vec<Fact<'a>>, AllocError>
    ensures { IfOk result (λ v. views_of v.items ≡ view_of_fact fact.entry ∷ []) }
{
    let mut facts = Vec::new(alloc);
    facts.push(fact)?;
    Ok(facts)
}

/// The facts of a line.
fn facts_of(alloc: Global, line: &[u8]) -> Result<Vec<Fact<'_>>, AllocError>
    ensures { IfOk result (λ v. views_of v.items ≡ facts_of line.now) }
{
    if let Some(facts) = named(alloc, line)? {
        return Ok(facts);
    }
    if let Some(facts) = facts_by_first(alloc, &SHAPES, line)? {
        return Ok(facts);
    }
    alone(alloc, said(line))
}

/// A line as it is, under a key.
fn as_it_is<'a>(
    alloc: Global,
    key: &'static [u8],
    line: &'a [u8],
) -> Result<Vec<Fact<'a>>, AllocError>
    ensures { IfOk result (λ v. views_of v.items ≡ fact key.entry.now (text line.entry.now) ∷ []) }
{
    let value = Value::Text(line);
    alone(alloc, Fact { key, value })
}

/// The facts of a line at a place.
fn facts_at(alloc: Global, place: LinePlace, line: &[u8]) -> Result<Vec<Fact<'_>>, AllocError>
    ensures { IfOk result (λ v. views_of v.items ≡ facts_at place line.now) }
{
    match place {
        LinePlace::Report => facts_of(alloc, line),
        LinePlace::Source => as_it_is(alloc, b"source", line),
        LinePlace::Caret => as_it_is(alloc, b"caret", line),
        LinePlace::Advice => as_it_is(alloc, b"advice", line),
    }
}

/// The place after a line.
pub(crate) fn next(alloc: Global, place: LinePlace, line: &[u8]) -> Result<LinePlace, AllocError>
    ensures { IfOk result (λ p. p ≡ next place line.now) }
{
    match place {
        LinePlace::Report => match facts_by(alloc, &POSITION, line)? {
            Some(_) => Ok(LinePlace::Source),
            None => Ok(LinePlace::Report),
        },
        LinePlace::Source => Ok(LinePlace::Caret),
        LinePlace::Caret => Ok(LinePlace::Advice),
        LinePlace::Advice => Ok(LinePlace::Report),
    }
}

/// Writes a key.
fn put_key(alloc: Global, writer: &mut Writer, name: &[u8]) -> Result<(), AllocError>
    ensures tokens { OnOk result (writer.new.tokens ≡ writer.old.tokens ++ key (utf8_lossy name.now) ∷ []) }
    ensures before { OnOk result (writer.new.before ≡ writer.old.before) }
{
    let text = String::from_utf8_lossy(alloc, name)?;
    writer.key(text.as_str())
}

/// Writes a text.
fn put_text(alloc: Global, writer: &mut Writer, text: &[u8]) -> Result<(), AllocError>
    ensures tokens { OnOk result (writer.new.tokens ≡ writer.old.tokens ++ string (utf8_lossy text.now) ∷ []) }
    ensures before { OnOk result (writer.new.before ≡ writer.old.before) }
{
    let text = String::from_utf8_lossy(alloc, text)?;
    writer.string(text.as_str())
}

/// Writes a value.
fn put_value(alloc: Global, writer: &mut Writer, value: Value) -> Result<(), AllocError>
    ensures tokens { OnOk result (writer.new.tokens
        ≡ writer.old.tokens ++ value_token (view_of_value value.entry) ∷ []) }
    ensures before { OnOk result (writer.new.before ≡ writer.old.before) }
{
    match value {
        Value::Number(number) => writer.u64(number),
        Value::Text(text) => put_text(alloc, writer, text),
        Value::Truth(truth) => writer.boolean(truth),
    }
}

/// Writes facts.
fn put_facts(alloc: Global, writer: &mut Writer, facts: &[Fact]) -> Result<(), AllocError>
    ensures tokens { OnOk result (writer.new.tokens
        ≡ writer.old.tokens ++ flat_map (λ f. fact_tokens (view_of_fact f)) facts.now) }
    ensures before { OnOk result (writer.new.before ≡ writer.old.before) }
{
    for fact in facts {
        put_key(alloc, writer, fact.key)?;
        put_value(alloc, writer, fact.value)?;
    }
    Ok(())
}

/// Writes the object of facts.
fn put_object(alloc: Global, writer: &mut Writer, facts: &[Fact]) -> Result<(), AllocError>
    ensures tokens { OnOk result (writer.new.tokens ≡ writer.old.tokens ++ object_tokens (views_of facts.now)) }
    ensures before { OnOk result (writer.new.before ≡ writer.old.before) }
{
    writer.begin_object()?;
    put_facts(alloc, writer, facts)?;
    writer.end_object()
}

/// The bytes, and after them the object of facts on a line of its own.
fn with_object(alloc: Global, out: Vec<u8>, facts: &[Fact]) -> Result<Vec<u8>, AllocError>
    ensures { IfOk result (λ v. v.items ≡ out.items ++ object_line (views_of facts.now)) }
{
    let mut writer = Writer::new(out);
    put_object(alloc, &mut writer, facts)?;
    let mut out = writer.into_inner();
    out.push(b'\n')?;
    Ok(out)
}

/// The bytes, and after them the object of a line at a place.
pub(crate) fn with_line(
    alloc: Global,
    out: Vec<u8>,
    place: LinePlace,
    line: &[u8],
) -> Result<Vec<u8>, AllocError>
    ensures { IfOk result (λ v. v.items ≡ out.items ++ object_line (facts_at place line.now)) }
{
    let facts = facts_at(alloc, place, line)?;
    with_object(alloc, out, &facts)
}
