//! Why a command of a source ended with the status of what is refused.

use crate::wording::{of_explained, of_property};
use crate::{Reason, SourceRequest, find_reason, lacking_sentence, sentence};
use pf_check::ReadSource;
use pf_cli::{Args, Edition, ExploreArgs, HuntArgs, HuntGoal, RunArgs};
use pf_errors::{NoMemory, OrNoMemory};
use pf_request::Request;
use pf_verdicts::further_properties;
use std::alloc::Global;

/// What a run, a chart or a shrinking asks for.
fn asked_of_run<'a>(args: &'a RunArgs) -> SourceRequest<'a> {
    SourceRequest {
        request: &args.request,
        is_second_edition: matches!(args.edition, Edition::Second),
        shrinks: None,
    }
}

/// What a hunt asks for.
fn asked_of_hunt<'a>(args: &'a HuntArgs) -> SourceRequest<'a> {
    let shrinks = match args.sought {
        HuntGoal::Failure { runs } => runs,
        HuntGoal::Outcomes => None,
    };
    SourceRequest {
        request: &args.request,
        is_second_edition: matches!(args.edition, Edition::Second),
        shrinks,
    }
}

/// What an exploration asks for.
fn asked_of_exploration<'a>(args: &'a ExploreArgs) -> SourceRequest<'a> {
    SourceRequest {
        request: &args.request,
        is_second_edition: matches!(args.edition, Edition::Second),
        shrinks: None,
    }
}

/// What is asked for of a source.
fn asked_of<'a>(args: &'a Args) -> Option<SourceRequest<'a>> {
    match args {
        Args::Run(args) | Args::Shrink(args) => Some(asked_of_run(args)),
        Args::Chart(args) => Some(asked_of_run(&args.run)),
        Args::Hunt(args) => Some(asked_of_hunt(args)),
        Args::Explore(args) => Some(asked_of_exploration(args)),
        Args::Check(_) | Args::Steps(_) | Args::Farm(_) => None,
    }
}

/// The sentence that says why a source is refused, or what is asked for of it.
fn sentence_of(
    alloc: Global,
    asked: Option<SourceRequest>,
    source: &ReadSource,
) -> Result<String, NoMemory> {
    let reason = find_reason(alloc, source, asked)?;
    sentence(alloc, source, asked, &reason)
}

/// The first of the further properties of a hunt that is none of the module of a source.
fn refused_property<'a>(
    alloc: Global,
    args: &'a HuntArgs,
    source: &ReadSource,
) -> Result<Option<&'a str>, NoMemory> {
    let Ok(module) = source.module() else {
        return Ok(None);
    };
    for text in &args.further {
        match further_properties(alloc, module, &[*text]) {
            Ok(_) => {}
            Err(OrNoMemory::Fault(_)) => return Ok(Some(*text)),
            Err(OrNoMemory::NoMemory) => return Err(NoMemory),
        }
    }
    Ok(None)
}

/// Why what a hunt asks for of a source is refused, or the source.
fn sentence_of_hunt(
    alloc: Global,
    args: &HuntArgs,
    asked: SourceRequest,
    source: &ReadSource,
) -> Result<String, NoMemory> {
    let reason = find_reason(alloc, source, Some(asked))?;
    if matches!(reason, Reason::OfSource(_) | Reason::OfRequest(_, _)) {
        return sentence(alloc, source, Some(asked), &reason);
    }
    match refused_property(alloc, args, source)? {
        Some(text) => of_property(alloc, text.as_bytes()),
        None => sentence(alloc, source, Some(asked), &reason),
    }
}

/// Why a source is refused, or what a hunt over several roots asks for of one.
pub fn why_of_root(
    alloc: Global,
    args: &HuntArgs,
    request: &Request,
    source: &ReadSource,
) -> Result<String, NoMemory> {
    let asked = SourceRequest {
        request,
        is_second_edition: matches!(args.edition, Edition::Second),
        shrinks: None,
    };
    sentence_of_hunt(alloc, args, asked, source)
}

/// Why what is asked for of a source is refused, or the source. A check that explains it has said so.
pub fn why(alloc: Global, args: &Args, source: &ReadSource) -> Result<String, NoMemory> {
    match args {
        Args::Check(check) if check.explain => of_explained(alloc, source),
        Args::Hunt(args) => sentence_of_hunt(alloc, args, asked_of_hunt(args), source),
        _ => sentence_of(alloc, asked_of(args), source),
    }
}

/// The same of the further properties of a hunt.
fn lacking_of_further(
    alloc: Global,
    args: &HuntArgs,
    source: &ReadSource,
) -> Result<Option<String>, NoMemory> {
    for text in &args.further {
        let said = lacking_sentence(alloc, source, text.as_bytes())?;
        if said.is_some() {
            return Ok(said);
        }
    }
    Ok(None)
}

/// What is said of a property that no message of this source's runs can break, since an atom of its pattern occurs
/// nowhere in it; usually nothing.
pub fn lacking_of(
    alloc: Global,
    args: &Args,
    source: &ReadSource,
) -> Result<Option<String>, NoMemory> {
    let Some(asked) = asked_of(args) else {
        return Ok(None);
    };
    let first = lacking_sentence(alloc, source, asked.request.property.as_slice())?;
    match args {
        Args::Hunt(args) if first.is_none() => lacking_of_further(alloc, args, source),
        _ => Ok(first),
    }
}
