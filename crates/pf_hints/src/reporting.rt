//! The faults of a source that are reported, in the order of the text.

ghost use Rattle.std.specs.Prelude.{IfOk, IfSome, OnOk};
ghost use Rattle.std.specs.List.{All};
ghost use Rattle.pf_check.specs.Reads.{Reads, refused};
ghost use Rattle.pf_hints.specs.Fixed.{IsFixed};
ghost use Rattle.pf_hints.specs.Faults.{IsFault, IsOfFault, ReportsRefusal};

use crate::alone::{first_refusal, is_syntax, refusal_of_form};
use crate::{advise, fix, form_ends};
use pf_diagnostics::Advice;
use pf_errors::{NoMemory, SourceRefusal};
use std::alloc::Global;

/// The most faults of a source that are reported.
pub const MOST_REPORTED: usize = 20;

/// What is said of a fault.
fn advise_on(alloc: Global, source: &[u8], fault: SourceRefusal) -> Result<Advice, NoMemory>
    requires { IsFault source.now fault.code fault.offset }
    ensures { IfOk result (IsOfFault source.now) }
{
    advise(alloc, source, fault)
}

/// Puts what is said of a fault, if there is one.
fn put_fault(
    alloc: Global,
    source: &[u8],
    reported: &mut Vec<Advice>,
    fault: Option<SourceRefusal>,
) -> Result<(), NoMemory>
    requires reported { All (IsOfFault source.now) reported.old.items }
    requires fault { IfSome fault (λ r. IsFault source.now r.code r.offset) }
    ensures { OnOk result (All (IsOfFault source.now) reported.new.items) }
{
    let Some(fault) = fault else {
        return Ok(());
    };
    reported.push(advise_on(alloc, source, fault)?)?;
    Ok(())
}

/// The fault of a form that is refused by itself, where there is room for it.
fn fault_of_form(
    alloc: Global,
    source: &[u8],
    start: usize,
    end: usize,
    has_room: bool,
) -> Result<Option<SourceRefusal>, NoMemory>
    ensures { IfOk result (λ found. IfSome found (λ r. IsFault source.now r.code r.offset)) }
{
    if has_room {
        refusal_of_form(alloc, source, start, end)
    } else {
        Ok(None)
    }
}

/// What is reported of each form between these ends that is refused by itself, of so many at most; the first begins at
/// `start`.
fn reported_of_forms(
    alloc: Global,
    source: &[u8],
    start: usize,
    ends: &[usize],
    most: usize,
) -> Result<Vec<Advice>, NoMemory>
    ensures { IfOk result (λ reported. All (IsOfFault source.now) reported.items) }
{
    let mut reported = Vec::new(alloc);
    let mut start = start;
    for end in ends {
        let fault = fault_of_form(alloc, source, start, *end, reported.len() < most)?;
        start = *end;
        put_fault(alloc, source, &mut reported, fault)?;
    }
    Ok(reported)
}

/// What a source is refused for once this fault is taken out of it too, if there was one.
fn next_fault(
    alloc: Global,
    fixed: &mut Vec<u8>,
    fault: Option<SourceRefusal>,
) -> Result<Option<SourceRefusal>, NoMemory>
    ensures rest { IsFixed fixed.old.items fixed.new.items }
    ensures fault { IfOk result (λ found. IfSome found (λ r. Reads fixed.new.items (refused r.code r.offset))) }
{
    let Some(fault) = fault else {
        return Ok(None);
    };
    let is_fixed = fix(alloc, fixed, fault)?;
    if !is_fixed {
        return Ok(None);
    }
    first_refusal(alloc, fixed, false)
}

/// What is reported of the faults of names and variables that are left once each reported one was taken out, after the
/// first.
fn reported_of_fixed(
    alloc: Global,
    source: &[u8],
    first: SourceRefusal,
) -> Result<Vec<Advice>, NoMemory>
    ensures { IfOk result (λ reported. All (IsOfFault source.now) reported.items) }
{
    let mut reported = Vec::new(alloc);
    let mut fixed = Vec::from_slice(alloc, source)?;
    let mut fault = Some(first);
    for _ in 1..MOST_REPORTED {
        fault = next_fault(alloc, &mut fixed, fault)?;
        put_fault(alloc, source, &mut reported, fault)?;
    }
    Ok(reported)
}

/// The number of the form in which an offset is.
fn form_of(ends: &[usize], offset: usize) -> usize {
    let last = ends.len().saturating_sub(1);
    ends.iter().position(|end| offset < *end).unwrap_or(last)
}

/// What is reported before a refusal by tokens or grammar, which is in the form of this number.
fn front(alloc: Global, source: &[u8], ends: &[usize], form: usize) -> Result<Vec<Advice>, NoMemory>
    ensures { IfOk result (λ reported. All (IsOfFault source.now) reported.items) }
{
    let start = ends.first().copied().unwrap_or(0);
    let forms = ends.get(1..form).unwrap_or(&[]);
    reported_of_forms(alloc, source, start, forms, MOST_REPORTED - 1)
}

/// What is reported after a refusal, before which so many were reported.
fn after(
    alloc: Global,
    source: &[u8],
    ends: &[usize],
    form: usize,
    refusal: SourceRefusal,
    reported: usize,
) -> Result<Vec<Advice>, NoMemory>
    ensures { IfOk result (λ reported. All (IsOfFault source.now) reported.items) }
{
    if form == 0 || !is_syntax(refusal.code) {
        return reported_of_fixed(alloc, source, refusal);
    }
    let start = ends.get(form).copied().unwrap_or(0);
    let forms = ends.get(form.saturating_add(1)..).unwrap_or(&[]);
    reported_of_forms(
        alloc,
        source,
        start,
        forms,
        MOST_REPORTED.saturating_sub(reported),
    )
}

/// What is reported of a source with this first refusal: of one by tokens or grammar, that and one of each other form
/// that is refused by itself; of one by names or variables, that and the others of its kind, one of each form. All in
/// the order of the text.
pub fn faults(alloc: Global, source: &[u8], refusal: SourceRefusal) -> Result<Vec<Advice>, NoMemory>
    ensures { IfOk result (λ reported. ReportsRefusal source.now refusal.code refusal.offset reported.items) }
{
    let ends = form_ends(alloc, source)?;
    let form = form_of(&ends, refusal.offset);
    let forms = if is_syntax(refusal.code) { form } else { 0 };
    let mut reported = front(alloc, source, &ends, forms)?;
    let advice = advise(alloc, source, refusal)?;
    reported.push(advice)?;
    let others = after(alloc, source, &ends, form, refusal, reported.len())?;
    reported.extend_from_slice(&others)?;
    Ok(reported)
}
