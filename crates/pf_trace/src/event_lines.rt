//! The lines of the events of a run that is over.

ghost use Rattle.std.specs.Prelude.{◌≡◌, length};

use pf_model::report::Event;
use std::alloc::Global;
use std::snapshot::Snapshot;

/// The lines of the events of a run that is over, and how many there are. The events are not kept: what stands for all
/// of them has no bytes, and only clauses read it.
#[derive(Drop)]
pub struct EventLines {
    text: Vec<u8>,
    count: usize,
    reported: Snapshot<Vec<Snapshot<Event>>>,
    ghost counted: { count ≡ length reported.value.items },
}

impl EventLines {
    ghost use Rattle.std.specs.Prelude.{[], List, ℕ, map};
    ghost use Rattle.pf_model.specs.Reports.{view_of_event};
    ghost use Rattle.pf_trace.specs.Written.{AreWritten, events_of};

    /// No line.
    pub fn new(alloc: Global) -> EventLines
        ensures none { events_of result ≡ [] }
        ensures text { result.text.items ≡ [] }
        ensures written { (name : ℕ → List ℕ) → AreWritten name result }
    {
        EventLines::of(Vec::new(alloc), &Vec::new(alloc))
    }

    /// A text that is the lines of these events.
    pub(crate) fn of(text: Vec<u8>, reported: &Vec<Snapshot<Event>>) -> EventLines
        ensures events { events_of result ≡ map (λ s. view_of_event s.value) reported.now.items }
        ensures text { result.text.items ≡ text.items }
    {
        EventLines {
            text,
            count: reported.len(),
            reported: Snapshot::of(reported),
        }
    }

    /// How many lines there are, which is how many events.
    pub fn len(&self) -> usize
        ensures { result ≡ length (events_of self.now) }
    {
        self.count
    }

    /// Their text.
    pub fn as_bytes(&self) -> &[u8]
        ensures { result.now ≡ self.now.text.items }
    {
        self.text.as_slice()
    }
}
