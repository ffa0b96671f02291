//! The text of a report.

ghost use Rattle.std.specs.Prelude.{◌≡◌, ◌++◌, OnOk, codes, flat_map};
ghost use Rattle.std.specs.Fmt.{decimal};
ghost use Rattle.pf_terms.specs.Atoms.{name_of};
ghost use Rattle.pf_model.specs.Reports.{view_of_event, view_of_outcome, view_of_report};
ghost use Rattle.pf_model.specs.Text.{actor_text, event_text, outcome_text, report_text, verdict_text};
ghost use Rattle.pf_model.specs.TermText.{line, pid_text};
ghost use Rattle.pf_trace.specs.Written.{last_lines};

use crate::labels::put_label;
use pf_errors::NoMemory;
use pf_model::report::{Actor, Event, Outcome, Report};
use pf_terms::AtomTable;
use pf_termtext::{put_pid, put_term};
use pf_text::{put, put_byte, put_number};

/// Puts which of how many choices was taken, and a blank.
fn put_choice(out: &mut Vec<u8>, choice: u32, count: u32) -> Result<(), NoMemory>
    ensures { OnOk result (out.new.items ≡ out.old.items
        ++ (decimal choice ++ codes "/" ++ decimal count ++ codes " ")) }
{
    if choice < 10 && count < 10 {
        return put(out, &[b'0' + choice as u8, b'/', b'0' + count as u8, b' ']);
    }
    put_number(out, u64::from(choice))?;
    put(out, b"/")?;
    put_number(out, u64::from(count))?;
    put(out, b" ")
}

fn put_actor(out: &mut Vec<u8>, actor: Actor) -> Result<(), NoMemory>
    ensures { OnOk result (out.new.items ≡ out.old.items ++ actor_text actor) }
{
    match actor {
        Actor::Process(pid) => put_pid(out, pid),
        Actor::Channel { from, to } => {
            put_pid(out, from)?;
            put(out, b"->")?;
            put_pid(out, to)
        }
    }
}

/// Puts the line of an event: CHOICE/N, who acts, what it did.
pub(crate) fn put_event(out: &mut Vec<u8>, atoms: &AtomTable, event: &Event) -> Result<(), NoMemory>
    ensures { OnOk result (out.new.items ≡ out.old.items
        ++ line (event_text (name_of atoms.now) (view_of_event event.now))) }
{
    put_choice(out, event.choice, event.count)?;
    put_actor(out, event.actor)?;
    put(out, b" ")?;
    put_label(out, atoms, &event.label)?;
    put_byte(out, b'\n')
}

fn put_events(out: &mut Vec<u8>, atoms: &AtomTable, events: &[Event]) -> Result<(), NoMemory>
    ensures { OnOk result (out.new.items ≡ out.old.items
        ++ flat_map (λ e. line (event_text (name_of atoms.now) (view_of_event e))) events.now) }
{
    for event in events {
        put_event(out, atoms, event)?;
    }
    Ok(())
}

/// Puts pids, each after a blank.
fn put_pids(out: &mut Vec<u8>, pids: &[u32]) -> Result<(), NoMemory>
    ensures { OnOk result (out.new.items ≡ out.old.items
        ++ flat_map (λ p. codes " " ++ pid_text p) pids.now) }
{
    for pid in pids {
        put(out, b" ")?;
        put_pid(out, *pid)?;
    }
    Ok(())
}

/// Puts the outcome of a run, as a line.
pub fn put_outcome(out: &mut Vec<u8>, atoms: &AtomTable, outcome: &Outcome) -> Result<(), NoMemory>
    ensures { OnOk result (out.new.items ≡ out.old.items
        ++ line (outcome_text (name_of atoms.now) (view_of_outcome outcome.now))) }
{
    match outcome {
        Outcome::Finished(value) => {
            put(out, b"finished ")?;
            put_term(out, atoms, value)?;
        }
        Outcome::Ended(reason) => {
            put(out, b"ended ")?;
            put_term(out, atoms, reason)?;
        }
        Outcome::Deadlock(pids) => {
            put(out, b"deadlock")?;
            put_pids(out, pids)?;
        }
        Outcome::Limit => put(out, b"limit")?,
        Outcome::Memory => put(out, b"memory")?,
    }
    put_byte(out, b'\n')
}

fn put_verdict(out: &mut Vec<u8>, verdict: Option<bool>) -> Result<(), NoMemory>
    ensures { OnOk result (out.new.items ≡ out.old.items ++ line (verdict_text verdict)) }
{
    match verdict {
        Some(true) => put(out, b"property holds\n"),
        Some(false) => put(out, b"property fails\n"),
        None => put(out, b"no verdict\n"),
    }
}

fn put_steps(out: &mut Vec<u8>, steps: u32) -> Result<(), NoMemory>
    ensures { OnOk result (out.new.items ≡ out.old.items ++ line (codes "steps " ++ decimal steps)) }
{
    put(out, b"steps ")?;
    put_number(out, u64::from(steps))?;
    put_byte(out, b'\n')
}

/// Puts what follows the lines of a report's events: the outcome, the steps and the verdict, a line each.
pub fn put_last_lines(
    out: &mut Vec<u8>,
    atoms: &AtomTable,
    outcome: &Outcome,
    steps: u32,
    verdict: Option<bool>,
) -> Result<(), NoMemory>
    ensures { OnOk result (out.new.items ≡ out.old.items
        ++ last_lines (name_of atoms.now) (view_of_outcome outcome.now) steps verdict) }
{
    put_outcome(out, atoms, outcome)?;
    put_steps(out, steps)?;
    put_verdict(out, verdict)
}

/// Puts the text of a report.
pub fn put_report(out: &mut Vec<u8>, atoms: &AtomTable, report: &Report) -> Result<(), NoMemory>
    ensures { OnOk result (out.new.items ≡ out.old.items
        ++ report_text (name_of atoms.now) (view_of_report report.now)) }
{
    put_events(out, atoms, &report.events)?;
    put_last_lines(out, atoms, &report.outcome, report.steps, report.verdict)
}
