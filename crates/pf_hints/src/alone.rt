//! Forms that are read by themselves.

ghost use Rattle.std.specs.Prelude.{◌≡◌, ◌++◌, IfOk, IfSome};
ghost use Rattle.pf_check.specs.Reads.{Reads, refused};
ghost use Rattle.pf_hints.specs.Faults.{IsFault, part_of};

use pf_check::read;
use pf_errors::{Code, NoMemory, OrNoMemory, SourceRefusal};
use std::alloc::Global;

/// What comes before a form that is read by itself.
const HEAD: &str = "-module(m).\n";

/// Whether a refusal is one of the tokens or the grammar of one form.
pub(crate) fn is_syntax(code: Code) -> bool {
    matches!(
        code,
        Code::UnexpectedByte | Code::Unfinished | Code::IntegerTooLarge | Code::NotGrammar
    )
}

/// The first refusal of a source, if it is one of syntax as `is_syntax` says, or none.
pub(crate) fn first_refusal(
    alloc: Global,
    source: &[u8],
    of_syntax: bool,
) -> Result<Option<SourceRefusal>, NoMemory>
    ensures { IfOk result (λ found. IfSome found (λ r. Reads source.now (refused r.code r.offset))) }
{
    match read(alloc, source) {
        Ok(_) => Ok(None),
        Err(OrNoMemory::NoMemory) => Err(NoMemory),
        Err(OrNoMemory::Fault(refusal)) if is_syntax(refusal.code) == of_syntax => {
            Ok(Some(refusal))
        }
        Err(OrNoMemory::Fault(_)) => Ok(None),
    }
}

/// The part of a source between two offsets.
fn part_of(source: &[u8], start: usize, end: usize) -> &[u8]
    ensures { result.now ≡ part_of source.now start end }
{
    let (_front, after) = source.split_at(start.min(source.len()));
    let (part, _rest) = after.split_at(end.saturating_sub(start).min(after.len()));
    part
}

/// A part of a source, after a head of a module.
fn after_head(alloc: Global, source: &[u8], start: usize, end: usize) -> Result<Vec<u8>, NoMemory>
    ensures { IfOk result (λ v. v.items ≡ HEAD.now ++ part_of source.now start end) }
{
    let mut alone = Vec::from_slice(alloc, HEAD.as_bytes())?;
    alone.extend_from_slice(part_of(source, start, end))?;
    Ok(alone)
}

/// The refusal of a form of a source by itself, by its tokens or the grammar.
pub(crate) fn refusal_of_form(
    alloc: Global,
    source: &[u8],
    start: usize,
    end: usize,
) -> Result<Option<SourceRefusal>, NoMemory>
    ensures { IfOk result (λ found. IfSome found (λ r. IsFault source.now r.code r.offset)) }
{
    let alone = after_head(alloc, source, start, end)?;
    let Some(SourceRefusal { code, offset }) = first_refusal(alloc, &alone, true)? else {
        return Ok(None);
    };
    let within = offset.saturating_sub(HEAD.len());
    let front = start.min(source.len());
    let after = within.min(source.len() - front);
    Ok(Some(SourceRefusal {
        code,
        offset: front + after,
    }))
}
