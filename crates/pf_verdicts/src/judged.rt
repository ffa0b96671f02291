//! How a run that is whole is judged by several properties.

ghost use Rattle.std.specs.Prelude.{◌≡◌, ◌≤◌, length, map};
ghost use Rattle.std.specs.List.{count_by};
ghost use Rattle.pf_model.specs.Reports.{label_of, view_of_report};
ghost use Rattle.pf_property.specs.Views.{labels_of, property_of};
ghost use Rattle.pf_sched.specs.Waiting as spec;
ghost use Rattle.pf_verdicts.specs.Judging.{IsJudgedBy};

use crate::cause::fails_one;
use pf_model::report::{Event, Label, Outcome, Report, Suffix};
use pf_property::Property;
use pf_sched::Judged;

/// How the run of a seed ended, and whether one of the further properties of its hunt fails.
#[derive(Drop)]
pub struct JudgedSeed {
    pub judged: Judged,
    pub fails_further: bool,
}

/// Whether a process begins.
fn is_begin(event: &Event) -> bool
    ensures { result ≡ spec.is_begin (label_of event.now.label) }
{
    matches!(
        event.label,
        Label::Spawns { .. } | Label::SpawnsWatched { .. }
    )
}

/// Whether a process ends, of its own or by an exit signal.
fn is_end(event: &Event) -> bool
    ensures { result ≡ spec.is_end (label_of event.now.label) }
{
    matches!(
        event.label,
        Label::Ends(_) | Label::Delivers(_, Suffix::EndingWith(_))
    )
}

/// How many processes begin.
fn begins_in(events: &[Event]) -> u64
    ensures { result ≡ count_by (λ e. spec.is_begin (label_of e.label)) events.now }
{
    let mut count = 0;
    for event in events {
        if is_begin(event) {
            count += 1;
        }
    }
    count
}

/// How many processes end.
fn ends_in(events: &[Event]) -> u64
    ensures { result ≡ count_by (λ e. spec.is_end (label_of e.label)) events.now }
{
    let mut count = 0;
    for event in events {
        if is_end(event) {
            count += 1;
        }
    }
    count
}

/// How many processes live after these events, of which there are few: the root and those that began, without those
/// that ended.
fn living_after(events: &[Event]) -> u32
    requires { length events.now ≤ 100000 }
    ensures { result ≡ spec.living (labels_of events.now) }
{
    let living = (begins_in(events) + 1).saturating_sub(ends_in(events));
    living as u32
}

/// How many processes still wait at the end of the run of a report, whose events are few, though its root returned.
fn waiting_in(report: &Report) -> u32
    requires { length report.now.events.items ≤ 100000 }
    ensures { result ≡ spec.waiting_in (view_of_report report.now) }
{
    match report.outcome {
        Outcome::Finished(_) => living_after(report.events.as_slice()),
        _ => 0,
    }
}

/// What a report, whose events are few, says but for these, and whether one of further properties fails of its run.
pub(crate) fn judged_of_report(report: Report, further: &[Property]) -> JudgedSeed
    requires { length report.events.items ≤ 100000 }
    ensures { IsJudgedBy (map property_of further.now) (view_of_report report) result }
{
    let fails_further = fails_one(&report, further);
    let waiting = waiting_in(&report);
    let Report {
        outcome,
        verdict,
        ..
    } = report;
    let judged = Judged {
        outcome,
        verdict,
        waiting,
    };
    JudgedSeed {
        judged,
        fails_further,
    }
}
