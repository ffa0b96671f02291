//! What is kept of the events of a run to judge it.

ghost use Rattle.std.specs.Prelude.{◌≡◌, ◌<◌, ◌+◌, ◌||◌, ◌∷◌, ◌++◌, [], List, cond, length, min};
ghost use Rattle.pf_model.specs.Labels as labels;
ghost use Rattle.pf_model.specs.Meaning as model;
ghost use Rattle.pf_model.specs.Reports.{label_of, view_of_outcome};
ghost use Rattle.pf_property.specs.Judging.{rules_out};
ghost use Rattle.pf_property.specs.Views.{property_of};
ghost use Rattle.pf_sched.specs.Evidence.{CountsProcesses, Shows, most};
ghost use Rattle.pf_sched.specs.Reported.{Hears};
ghost use Rattle.pf_sched.specs.Waiting.{is_begin, is_end, waiting_at};

use pf_model::report::{Label, Outcome, Suffix};
use pf_property::Property;

/// Whether a process begins.
fn is_begin(label: &Label) -> bool
    ensures { result ≡ is_begin (label_of label.now) }
{
    matches!(label, Label::Spawns { .. } | Label::SpawnsWatched { .. })
}

/// Whether a process ends, of its own or by an exit signal.
fn is_end(label: &Label) -> bool
    ensures { result ≡ is_end (label_of label.now) }
{
    matches!(
        label,
        Label::Ends(_) | Label::Delivers(_, Suffix::EndingWith(_))
    )
}

/// A count with one more, where there is one.
fn with_one(count: u32, more: bool) -> u32
    ensures { result ≡ min (count + cond more 1 0) most }
{
    if more { count.saturating_add(1) } else { count }
}

/// How many processes began after the root, and how many ended.
#[derive(Drop, Clone, Copy)]
pub(crate) struct ProcessCounts {
    begun: u32,
    ended: u32,
}

impl ProcessCounts {
    /// The root alone.
    fn new() -> ProcessCounts
        ensures { CountsProcesses result [] }
    {
        ProcessCounts { begun: 0, ended: 0 }
    }

    /// Counts what one label more says.
    fn see(&mut self, label: &Label)
        ensures { (ls : List labels.Label) → CountsProcesses self.old ls
            → CountsProcesses self.new (ls ++ label_of label.now ∷ []) }
    {
        self.begun = with_one(self.begun, is_begin(label));
        self.ended = with_one(self.ended, is_end(label));
    }

    /// How many still wait at the end of a run with this outcome though its root returned; no run has more labels than
    /// are counted.
    pub fn waiting(self, outcome: &Outcome) -> u32
        ensures { (ls : List labels.Label) → CountsProcesses self ls → length ls < most
            → result ≡ waiting_at (view_of_outcome outcome.now) ls }
    {
        match outcome {
            Outcome::Finished(_) => self.begun.saturating_add(1).saturating_sub(self.ended),
            _ => 0,
        }
    }
}

/// Whether a property is ruled out, by labels so far or by one more.
fn is_ruled_out(so_far: bool, property: &Property, label: &Label) -> bool
    ensures { result ≡ (so_far || rules_out (property_of property.now) (label_of label.now)) }
{
    so_far || property.rules_out(label)
}

/// What is kept of the events of a run to judge it: whether the label of one rules the property out, and how many
/// processes began and ended.
#[derive(Drop, Clone, Copy)]
pub(crate) struct Evidence {
    pub ruled_out: bool,
    pub processes: ProcessCounts,
}

impl Evidence {
    /// No event.
    pub fn new() -> Evidence
        ensures { (j : model.Job) → Shows j.property result j [] }
    {
        Evidence {
            ruled_out: false,
            processes: ProcessCounts::new(),
        }
    }

    /// Keeps what the label of one event more says of a property and of the processes.
    pub fn see(&mut self, property: &Property, label: &Label)
        ensures { (e : model.Event) → e.label ≡ label_of label.now
            → Hears (Shows (property_of property.now)) self.old e self.new }
    {
        self.ruled_out = is_ruled_out(self.ruled_out, property, label);
        self.processes.see(label);
    }
}
