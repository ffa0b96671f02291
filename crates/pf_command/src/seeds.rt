//! The texts of hunts over seeds.

ghost use Rattle.std.specs.Prelude.{◌≡◌, ◌++◌, IfOk, OnOk, flat_map, map, if◌then◌else◌};
ghost use Rattle.std.specs.List.{list_any};
ghost use Rattle.pf_terms.specs.Atoms.{name_of};
ghost use Rattle.pf_model.specs.Reports.{view_of_outcome, view_of_report};
ghost use Rattle.pf_model.specs.Shrinking.{is_failure};
ghost use Rattle.pf_model.specs.TermText.{line};
ghost use Rattle.pf_model.specs.Text.{outcome_text};
ghost use Rattle.pf_hunt.specs.Views.{row_of};
ghost use Rattle.pf_command.specs.Hunts.{choices_of, none_text, row_text, strategy_text, verdict_text};

use crate::answer::FAILED;
use pf_errors::NoMemory;
use pf_hunt::{HashedOutcome, OutcomeRow};
use pf_model::report::Report;
use pf_strategy::{Sampling, Strategy};
use pf_terms::AtomTable;
use pf_text::{put, put_number};
use pf_trace::put_outcome;
use std::alloc::Global;

/// The choices of events.
fn choices_in(alloc: Global, report: &Report) -> Result<Vec<u32>, NoMemory>
    ensures { IfOk result (λ numbers. numbers.items ≡ map (λ e. e.choice) report.now.events.items) }
{
    let mut numbers = Vec::with_capacity(alloc, report.events.len())?;
    for event in &report.events {
        numbers.push(event.choice)?;
    }
    Ok(numbers)
}

/// The choices of a run, event by event: by them as a schedule it runs so again.
pub(crate) fn choices_of(alloc: Global, report: &Report) -> Result<Vec<u32>, NoMemory>
    ensures { IfOk result (λ numbers. numbers.items ≡ choices_of (view_of_report report.now)) }
{
    choices_in(alloc, report)
}

/// Puts that no run of n seeds fails.
pub(crate) fn put_none(out: &mut Vec<u8>, seeds: u64) -> Result<(), NoMemory>
    ensures { OnOk result (out.new.items ≡ out.old.items ++ none_text seeds) }
{
    put(out, b"no failure in ")?;
    put_number(out, seeds)?;
    put(out, b" seeds\n")
}

/// Puts that priorities chose, if they did, on a line.
pub(crate) fn put_strategy(out: &mut Vec<u8>, strategy: Strategy) -> Result<(), NoMemory>
    ensures { OnOk result (out.new.items ≡ out.old.items ++ strategy_text strategy) }
{
    match strategy.sampling {
        Sampling::Priorities => put(out, b"strategy pos\n"),
        Sampling::Uniform => Ok(()),
    }
}

/// Puts whether a property holds, before what comes of it.
fn put_verdict(out: &mut Vec<u8>, verdict: Option<bool>) -> Result<(), NoMemory>
    ensures { OnOk result (out.new.items ≡ out.old.items ++ verdict_text verdict) }
{
    match verdict {
        Some(true) => put(out, b"holds "),
        Some(false) => put(out, b"fails "),
        None => put(out, b"no verdict "),
    }
}

/// Puts the line of an outcome.
fn put_met(out: &mut Vec<u8>, atoms: &AtomTable, met: &HashedOutcome) -> Result<(), NoMemory>
    ensures { OnOk result (out.new.items ≡ out.old.items ++ line (outcome_text (name_of atoms.now) met.now)) }
{
    put_outcome(out, atoms, met.get())
}

/// Puts a row: whether the property holds, by how many seeds the outcome was met, the least of them, and the outcome's
/// line.
fn put_row(out: &mut Vec<u8>, atoms: &AtomTable, row: &OutcomeRow) -> Result<(), NoMemory>
    ensures { OnOk result (out.new.items ≡ out.old.items ++ row_text (name_of atoms.now) (row_of row.now)) }
{
    put_verdict(out, row.verdict)?;
    put_number(out, row.count)?;
    put(out, b" seeds, least ")?;
    put_number(out, row.least)?;
    put(out, b": ")?;
    put_met(out, atoms, &row.outcome)
}

/// Puts rows, each on a line.
pub(crate) fn put_rows(
    out: &mut Vec<u8>,
    atoms: &AtomTable,
    rows: &[OutcomeRow],
) -> Result<(), NoMemory>
    ensures { OnOk result (out.new.items
        ≡ out.old.items ++ flat_map (λ x. row_text (name_of atoms.now) (row_of x)) rows.now) }
{
    for row in rows {
        put_row(out, atoms, row)?;
    }
    Ok(())
}

/// Whether the property fails of the runs of a row.
fn fails(row: &OutcomeRow) -> bool
    ensures { result ≡ is_failure row.now.verdict }
{
    matches!(row.verdict, Some(false))
}

/// Whether the property of some run fails.
fn some_fails(rows: &[OutcomeRow]) -> bool
    ensures { result ≡ list_any (λ x. is_failure x.verdict) rows.now }
{
    for row in rows {
        if fails(row) {
            return true;
        }
    }
    false
}

/// The status of rows: 1 if the property of some run fails, else 0.
pub(crate) fn rows_status(rows: &[OutcomeRow]) -> u8
    ensures { result ≡ (if list_any (λ x. is_failure x.verdict) rows.now then 1 else 0) }
{
    if some_fails(rows) { FAILED } else { 0 }
}
