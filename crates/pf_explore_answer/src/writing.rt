//! The texts of explorations.

ghost use Rattle.std.specs.Prelude.{◌≡◌, ◌++◌, IfOk, None, OnOk, Some};
ghost use Rattle.pf_errors.specs.Codes.{code_text, refusal_text};
ghost use Rattle.pf_terms.specs.Atoms.{name_of};
ghost use Rattle.pf_model.specs.Reports.{view_of_report};
ghost use Rattle.pf_explore_answer.specs.Answers.{IsAnswer, Refuses, cause_text, choices_of, counted, failing_text};
ghost use Rattle.pf_explore_answer.specs.Answers.{holds_text, most_text, schedule_line, unseen_text, within_text};

use crate::exploration::ExploreAnswer;
use pf_errors::{Code, NoMemory, SourceRefusal};
use pf_explore::{Unseen, choices_of};
use pf_model::report::Report;
use pf_terms::AtomTable;
use pf_text::{put, put_number, put_schedule};
use pf_trace::put_report;
use std::alloc::Global;

/// The status if no schedule fails.
const HOLDS: u8 = 0;

/// The status if one fails.
const FAILS: u8 = 1;

/// The status if something is refused.
const REFUSED: u8 = 2;

/// The status if not all schedules were seen.
const NOT_ALL_SEEN: u8 = 3;

/// These words on a line of their own, with the status of what is refused.
fn refused(alloc: Global, words: &str) -> Result<ExploreAnswer, NoMemory>
    ensures { IfOk result (Refuses words.entry.now) }
{
    let mut text = Vec::new(alloc);
    put(&mut text, words.as_bytes())?;
    put(&mut text, b"\n")?;
    Ok(ExploreAnswer {
        text,
        status: REFUSED,
        found: None,
    })
}

/// A code, as `B2`.
pub(crate) fn refused_by_code(alloc: Global, code: Code) -> Result<ExploreAnswer, NoMemory>
    ensures { IfOk result (Refuses (code_text code)) }
{
    let words = format!(in alloc; "{code}")?;
    refused(alloc, &words)
}

/// A code with its offset, as `E6 at 41`.
pub(crate) fn refused_at(alloc: Global, refusal: SourceRefusal) -> Result<ExploreAnswer, NoMemory>
    ensures { IfOk result (Refuses (refusal_text refusal.code refusal.offset)) }
{
    let words = format!(in alloc; "{refusal}")?;
    refused(alloc, &words)
}

/// Puts words and a number.
fn put_counted(out: &mut Vec<u8>, words: &[u8], number: u64) -> Result<(), NoMemory>
    ensures { OnOk result (out.new.items ≡ out.old.items ++ counted words.now number) }
{
    put(out, words)?;
    put_number(out, number)
}

/// Puts that no schedule fails.
fn put_holds(out: &mut Vec<u8>, runs: u64, steps: u32) -> Result<(), NoMemory>
    ensures { OnOk result (out.new.items ≡ out.old.items ++ holds_text runs steps) }
{
    put_counted(out, b"no schedule fails: ", runs)?;
    put_counted(out, b" runs; a run has at most ", u64::from(steps))?;
    put(out, b" steps\n")
}

/// The answer if no schedule fails: how many runs differ, and the most steps of one.
pub(crate) fn write_holds(alloc: Global, runs: u64, steps: u32) -> Result<ExploreAnswer, NoMemory>
    ensures { IfOk result (IsAnswer None (holds_text runs steps) 0) }
{
    let mut text = Vec::new(alloc);
    put_holds(&mut text, runs, steps)?;
    Ok(ExploreAnswer {
        text,
        status: HOLDS,
        found: None,
    })
}

/// The choices of a run, event by event: by them as a schedule it runs so again.
fn schedule_of(alloc: Global, report: &Report) -> Result<Vec<u32>, NoMemory>
    ensures { IfOk result (λ numbers. numbers.items ≡ choices_of (view_of_report report.now)) }
{
    choices_of(alloc, report.events.as_slice())
}

/// Puts the line of a schedule.
pub fn put_schedule_line(out: &mut Vec<u8>, schedule: &[u32]) -> Result<(), NoMemory>
    ensures { OnOk result (out.new.items ≡ out.old.items ++ schedule_line schedule.now) }
{
    put(out, b"schedule ")?;
    put_schedule(out, schedule)?;
    put(out, b"\n")
}

/// The answer if a schedule fails: the choices of its run, and the report of that.
pub(crate) fn write_failing(
    alloc: Global,
    atoms: &AtomTable,
    report: &Report,
) -> Result<ExploreAnswer, NoMemory>
    ensures { IfOk result (IsAnswer (Some (choices_of (view_of_report report.now)))
        (failing_text (name_of atoms.now) (view_of_report report.now)) 1) }
{
    let schedule = schedule_of(alloc, report)?;
    let mut text = Vec::new(alloc);
    put_schedule_line(&mut text, schedule.as_slice())?;
    put_report(&mut text, atoms, report)?;
    Ok(ExploreAnswer {
        text,
        status: FAILS,
        found: Some(schedule),
    })
}

/// Why not all schedules were seen, if it is another reason than how often they deviate.
fn cause_of(cause: Unseen) -> &'static str
    ensures { result.now ≡ cause_text cause }
{
    match cause {
        Unseen::Budget => " (budget)",
        Unseen::Stopped => " (time)",
        Unseen::Deviations => "",
    }
}

/// Puts that no run fails that deviates at most so often.
fn put_most(out: &mut Vec<u8>, most: u64) -> Result<(), NoMemory>
    ensures { OnOk result (out.new.items ≡ out.old.items ++ most_text most) }
{
    put_counted(out, b"; no schedule with at most ", most)?;
    put(out, b" deviations fails")
}

/// Puts how often the runs deviate of which none fails, if it is known of some.
fn put_within(out: &mut Vec<u8>, within: Option<u32>) -> Result<(), NoMemory>
    ensures { OnOk result (out.new.items ≡ out.old.items ++ within_text within) }
{
    match within {
        Some(most) => put_most(out, u64::from(most)),
        None => Ok(()),
    }
}

/// Puts that not all schedules were seen.
fn put_unseen(
    out: &mut Vec<u8>,
    runs: u64,
    cause: Unseen,
    within: Option<u32>,
) -> Result<(), NoMemory>
    ensures { OnOk result (out.new.items ≡ out.old.items ++ unseen_text runs cause within) }
{
    put_counted(out, b"not all seen: ", runs)?;
    put(out, b" runs")?;
    put(out, cause_of(cause).as_bytes())?;
    put_within(out, within)?;
    put(out, b"\n")
}

/// The answer if not all schedules were seen.
pub(crate) fn write_unseen(
    alloc: Global,
    runs: u64,
    cause: Unseen,
    within: Option<u32>,
) -> Result<ExploreAnswer, NoMemory>
    ensures { IfOk result (IsAnswer None (unseen_text runs cause within) 3) }
{
    let mut text = Vec::new(alloc);
    put_unseen(&mut text, runs, cause, within)?;
    Ok(ExploreAnswer {
        text,
        status: NOT_ALL_SEEN,
        found: None,
    })
}
