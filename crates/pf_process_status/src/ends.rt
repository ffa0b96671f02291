//! Who ended in an event, and how.

ghost use Rattle.std.specs.Prelude.{◌≡◌, ℕ, IfSome, Some, option_map};
ghost use Rattle.pf_terms.specs.Term.{value_of};
ghost use Rattle.pf_model.specs.Meaning as model;
ghost use Rattle.pf_model.specs.Reports.{view_of_event, label_of};
ghost use Rattle.pf_model.specs.declared.report.Actor.TheVariants as actors;
ghost use Rattle.pf_process_status.specs.Fates.{EndsItself, EndsSo, is_struck, who_ends};
ghost use Rattle.pf_process_status.specs.Noted.{Fails, raises_in};

use pf_model::report::{Actor, Event, Label, Suffix};
use pf_terms::{AtomId, Term};

/// How a process ended.
#[derive(Clone, Copy, Debug, PartialEq, Eq)]
pub(crate) enum ProcessEnd {
    Normal,
    Failed,
    /// By an exit signal of this process.
    Killed(u32),
}

/// A process that ended, and how.
#[derive(Clone, Copy, Debug, PartialEq, Eq)]
pub(crate) struct EndedProcess {
    pub pid: u32,
    pub end: ProcessEnd,
}

/// By itself, with this reason.
fn end_with(reason: &Term) -> ProcessEnd
    ensures { (p : ℕ) (e : model.Event) → EndsItself p (value_of reason.now) e → EndsSo p result e }
{
    match reason {
        Term::Atom(AtomId::NORMAL) => ProcessEnd::Normal,
        _ => ProcessEnd::Failed,
    }
}

/// A process that ended by itself in a turn that showed this, if it did.
fn ended_itself(pid: u32, label: &Label) -> Option<EndedProcess>
    ensures who { option_map (λ x. x.pid) result ≡ who_ends (actors.Process pid) (label_of label.now) }
    ensures how { IfSome result (λ x. (e : model.Event) → e.actor ≡ actors.Process pid
        → e.label ≡ label_of label.now → EndsSo x.pid x.end e) }
{
    match label {
        Label::Ends(reason) => Some(EndedProcess {
            pid,
            end: end_with(reason),
        }),
        _ => None,
    }
}

/// Whether a delivery that showed this ended its receiver.
fn is_struck(label: &Label) -> bool
    ensures { result ≡ is_struck (label_of label.now) }
{
    matches!(label, Label::Delivers(_, Suffix::EndingWith(_)))
}

/// A process that ended by a delivery that showed this, if it did.
fn ended_by(from: u32, to: u32, label: &Label) -> Option<EndedProcess>
    ensures who { option_map (λ x. x.pid) result ≡ who_ends (actors.Channel from to) (label_of label.now) }
    ensures how { IfSome result (λ x. (e : model.Event) → e.actor ≡ actors.Channel from to
        → e.label ≡ label_of label.now → EndsSo x.pid x.end e) }
{
    if is_struck(label) {
        let end = ProcessEnd::Killed(from);
        Some(EndedProcess { pid: to, end })
    } else {
        None
    }
}

/// Who ended in an event, if somebody did.
pub(crate) fn ended_in(event: &Event) -> Option<EndedProcess>
    ensures who { option_map (λ x. x.pid) result
        ≡ who_ends event.now.actor (label_of event.now.label) }
    ensures how { IfSome result (λ x. EndsSo x.pid x.end (view_of_event event.now)) }
{
    match event.actor {
        Actor::Process(pid) => ended_itself(pid, &event.label),
        Actor::Channel { from, to } => ended_by(from, to, &event.label),
    }
}

/// The process that failed, if one did that ended so.
fn failed(ended: EndedProcess) -> Option<u32>
    ensures { (e : model.Event) → EndsSo ended.pid ended.end e
        → who_ends e.actor e.label ≡ Some ended.pid → Fails e result }
{
    match ended.end {
        ProcessEnd::Failed => Some(ended.pid),
        ProcessEnd::Normal => None,
        ProcessEnd::Killed(_) => None,
    }
}

/// Who failed in an event, if somebody did.
pub(crate) fn failed_in(event: &Event) -> Option<u32>
    ensures { Fails (view_of_event event.now) result }
{
    match ended_in(event) {
        Some(ended) => failed(ended),
        None => None,
    }
}

/// Whose action raised in an event, if one did.
pub(crate) fn raised_in(event: &Event) -> Option<u32>
    ensures { result ≡ raises_in event.now.actor (label_of event.now.label) }
{
    match (event.actor, &event.label) {
        (Actor::Process(pid), Label::Raises(_)) => Some(pid),
        _ => None,
    }
}
