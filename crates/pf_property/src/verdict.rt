//! Whether a property holds of what a run shows. Nothing here takes memory.

ghost use Rattle.std.specs.Prelude.{◌≡◌, List};
ghost use Rattle.pf_model.specs.Labels as labels;
ghost use Rattle.pf_model.specs.Properties as spec;
ghost use Rattle.pf_model.specs.Properties.{some_label};
ghost use Rattle.pf_model.specs.Reports.{label_of, view_of_outcome};
ghost use Rattle.pf_property.specs.Judging.{rules_out};
ghost use Rattle.pf_property.specs.Views.{labels_of, property_of};

use crate::lone_pattern::LonePattern;
use crate::property::Property;
use pf_model::report::{Event, Label, Outcome, Suffix};
use pf_terms::{AtomId, Term, equal};

/// Whether a process ended, of its own or by an exit signal, with another reason than `normal`.
fn is_crash(label: &Label) -> bool
    ensures { result ≡ spec.is_crash (label_of label.now) }
{
    match label {
        Label::Ends(reason) | Label::Delivers(_, Suffix::EndingWith(reason)) => {
            !equal(reason, &Term::Atom(AtomId::NORMAL))
        }
        _ => false,
    }
}

/// Whether a message was sent that fits.
fn is_sent_as(pattern: &LonePattern, label: &Label) -> bool
    ensures { result ≡ spec.is_sent_as pattern.now (label_of label.now) }
{
    match label {
        Label::Sends { message, .. } => pattern.fits(message),
        _ => false,
    }
}

/// Whether the root returned `true`.
fn is_finished_true(outcome: &Outcome) -> bool
    ensures { result ≡ spec.is_finished_true (view_of_outcome outcome.now) }
{
    match outcome {
        Outcome::Finished(value) => equal(value, &Term::Atom(AtomId::TRUE)),
        _ => false,
    }
}

impl Property {
    /// Whether a label alone says that it doesn't hold, whatever else a run shows.
    pub fn rules_out(&self, label: &Label) -> bool
        ensures { result ≡ rules_out (property_of self.now) (label_of label.now) }
    {
        match self {
            Property::NoCrash => is_crash(label),
            Property::Never(pattern) => is_sent_as(pattern, label),
            _ => false,
        }
    }

    /// Whether it holds of a run with this outcome, whose labels rule it out or don't.
    fn holds(&self, ruled_out: bool, outcome: &Outcome) -> bool
        ensures { (ls : List labels.Label) → ruled_out ≡ some_label (rules_out (property_of self.now)) ls
            → result ≡ spec.holds (property_of self.now) ls (view_of_outcome outcome.now) }
    {
        match self {
            Property::Returns => matches!(outcome, Outcome::Finished(_)),
            Property::True => is_finished_true(outcome),
            Property::NoDeadlock => !matches!(outcome, Outcome::Deadlock(_)),
            Property::WithinLimit => !matches!(outcome, Outcome::Limit),
            Property::NoCrash | Property::Never(_) => !ruled_out,
        }
    }

    /// The verdict of a run with this outcome, some of whose labels rule the property out or none; none where memory
    /// ran out.
    pub fn judge(&self, ruled_out: bool, outcome: &Outcome) -> Option<bool>
        ensures { (ls : List labels.Label) → ruled_out ≡ some_label (rules_out (property_of self.now)) ls
            → result ≡ spec.verdict (property_of self.now) ls (view_of_outcome outcome.now) }
    {
        match outcome {
            Outcome::Memory => None,
            _ => Some(self.holds(ruled_out, outcome)),
        }
    }

    /// Whether a label of these events rules it out.
    fn is_ruled_out(&self, events: &[Event]) -> bool
        ensures { result ≡ some_label (rules_out (property_of self.now)) (labels_of events.now) }
    {
        for event in events {
            if self.rules_out(&event.label) {
                return true;
            }
        }
        false
    }

    /// Whether it holds of the events of a run and its outcome; none where memory ran out.
    pub fn verdict(&self, events: &[Event], outcome: &Outcome) -> Option<bool>
        ensures { result ≡ spec.verdict (property_of self.now) (labels_of events.now) (view_of_outcome outcome.now) }
    {
        self.judge(self.is_ruled_out(events), outcome)
    }
}
