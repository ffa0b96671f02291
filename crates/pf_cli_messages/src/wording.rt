//! The sentence of a refusal.

use crate::finding::{Reason, SourceRequest};
use crate::position::{column, line};
use pf_check::{ReadModule, ReadSource};
use pf_errors::{NoMemory, SourceRefusal};
use pf_hints::advise;
use pf_request::Request;
use pf_sched::JobRefusal;
use pf_syntax::{FunctionId, Module};
use std::alloc::Global;

const PROPERTIES: &str =
    "write `returns`, `true`, `nocrash`, `nodeadlock`, `withinlimit` or `never:PATTERN`";

const WEIGHTS: &str = "a weight is out of range: it is from 1 to 9";

const NOTHING_FAILS: &str =
    "the property doesn't fail by this schedule, so there is nothing to shrink: give a schedule by which it fails";

/// What is said of a source with a construct that the language lacks.
const AS_IT_STANDS: &str = " To hunt plain Erlang as it stands: pulsefarm-erl hunt FILE";

const NO_MEMORY: &str = "memory ran out within the run";

/// The most steps of a run, and the most numbers of a schedule.
const MOST: usize = 100_000;

/// A text that is quoted, of which a long one is cut.
pub(crate) fn quoted(alloc: Global, bytes: &[u8]) -> Result<String, NoMemory> {
    let mut text = String::new(alloc);
    text.push('`')?;
    for byte in bytes.iter().take(60) {
        text.push(if byte.is_ascii_graphic() || *byte == b' ' {
            char::from(*byte)
        } else {
            '?'
        })?;
    }
    text.push('`')?;
    Ok(text)
}

/// What follows what is said of a refusal: where it has an example of how a construct is written in this language, the
/// program that takes plain Erlang.
fn as_it_stands(has_example: bool) -> &'static str {
    if has_example { AS_IT_STANDS } else { "" }
}

/// What is said of a source that is refused where its explanation is printed.
pub(crate) fn of_explained(alloc: Global, source: &ReadSource) -> Result<String, NoMemory> {
    let after = match source.module() {
        Ok(_) => "",
        Err(refusal) => as_it_stands(advise(alloc, source.bytes(), refusal)?.rewrite.is_some()),
    };
    Ok(format!(in alloc; "the source is refused.{after}")?)
}

/// What is said of a source that is refused: where, and how to fix it.
fn of_source(alloc: Global, source: &[u8], refusal: SourceRefusal) -> Result<String, NoMemory> {
    let advice = advise(alloc, source, refusal)?;
    let front = source
        .get(..advice.position.min(source.len()))
        .unwrap_or(source);
    let (line, column) = (line(front), column(front));
    let sentence = advice.sentence;
    let after = as_it_stands(advice.rewrite.is_some());
    Ok(format!(in alloc;
        "the source is refused at line {line}, column {column}: {sentence}{after}"
    )?)
}

/// The names of the functions that a module exports without arguments, at most 20, with commas between them.
fn roots_of(alloc: Global, module: &Module) -> Result<String, NoMemory> {
    let mut text = String::new(alloc);
    let mut count = 0;
    for number in 0..u32::MAX {
        let Some(function) = module.function(FunctionId(number)) else {
            break;
        };
        if function.exported && function.arity == 0 && count < 20 {
            if count > 0 {
                text.push_str(", ")?;
            }
            count += 1;
            text.push_str(&quoted(alloc, module.atoms().name(function.name))?)?;
        }
    }
    Ok(text)
}

/// Whether a module has a function of this name without arguments, exported or not.
fn has_function(module: &Module, name: &[u8]) -> bool {
    for number in 0..u32::MAX {
        match module.function(FunctionId(number)) {
            Some(function) if function.arity == 0 && module.atoms().name(function.name) == name => {
                return true;
            }
            Some(_) => {}
            None => return false,
        }
    }
    false
}

/// What is said where there is no such root.
fn of_root(alloc: Global, module: &ReadModule, name: &[u8]) -> Result<String, NoMemory> {
    let shown = quoted(alloc, name)?;
    let module = module.module();
    if has_function(module, name) {
        let text = format!(in alloc;
            "the function {shown} isn't exported: add it to the exports, as in `-export([main/0]).`"
        )?;
        return Ok(text);
    }
    let roots = roots_of(alloc, module)?;
    if roots.is_empty() {
        let text = format!(in alloc;
            "the module exports no function {shown} without arguments, and no other: write one, and `-export([main/0]).` in front of the first function"
        )?;
        return Ok(text);
    }
    Ok(format!(in alloc;
        "the module exports no function {shown} without arguments: name one that it exports, {roots}"
    )?)
}

/// What is said where a number is out of range.
fn of_range(alloc: Global, request: &Request) -> Result<String, NoMemory> {
    let (limit, count, runs) = (request.limit, request.kind.count(), request.kind.runs());
    if limit == 0 || limit as usize > MOST {
        return Ok(format!(in alloc;
            "the limit {limit} is out of range: it is from 1 to 100,000 steps"
        )?);
    }
    if count > MOST {
        return Ok(format!(in alloc; "the schedule has {count} numbers: it has at most 100,000")?);
    }
    of_runs(alloc, runs)
}

/// What is said of a number of runs that is out of range.
fn of_runs(alloc: Global, runs: u32) -> Result<String, NoMemory> {
    Ok(format!(in alloc; "the number of runs {runs} is out of range: it is from 1 to 1,000")?)
}

/// What is said of a text that is no property.
pub(crate) fn of_property(alloc: Global, text: &[u8]) -> Result<String, NoMemory> {
    let shown = quoted(alloc, text)?;
    Ok(format!(in alloc; "there is no property {shown}: {PROPERTIES}")?)
}

/// What is said of what is asked for.
fn of_request(
    alloc: Global,
    module: &ReadModule,
    request: &Request,
    refusal: JobRefusal,
) -> Result<String, NoMemory> {
    match refusal {
        JobRefusal::NoRoot => of_root(alloc, module, request.root.as_slice()),
        JobRefusal::NoProperty => of_property(alloc, request.property.as_slice()),
        JobRefusal::OutOfRange => of_range(alloc, request),
        JobRefusal::WeightsOutOfRange => Ok(String::from_str(alloc, WEIGHTS)?),
    }
}

/// The sentence of a reason, of a source and what is asked for of it: what is wrong, and how it is fixed.
pub fn sentence(
    alloc: Global,
    source: &ReadSource,
    asked: Option<SourceRequest<'_>>,
    reason: &Reason,
) -> Result<String, NoMemory> {
    match (reason, asked) {
        (Reason::OfSource(refusal), _) => of_source(alloc, source.bytes(), *refusal),
        (Reason::OfRequest(module, refusal), Some(SourceRequest { request, .. })) => {
            of_request(alloc, module, request, *refusal)
        }
        (
            _,
            Some(
                SourceRequest {
                    shrinks: Some(runs),
                    ..
                },
            ),
        ) if !matches!(runs, 1..=1_000) => { of_runs(alloc, runs) }
        (_, Some(SourceRequest { request, .. })) if request.kind.runs() > 0 => {
            Ok(String::from_str(alloc, NOTHING_FAILS)?)
        }
        _ => Ok(String::from_str(alloc, NO_MEMORY)?),
    }
}
