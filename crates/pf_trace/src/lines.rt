//! Reports whose events are written as the run goes: their lines stand for the events.

ghost use Rattle.std.specs.Prelude.{◌≡◌, ◌++◌, ◌∷◌, [], List, ℕ, OnOk, length};
ghost use Rattle.pf_terms.specs.Atoms.{name_of};
ghost use Rattle.pf_model.specs.Reports.{view_of_event};
ghost use Rattle.pf_model.specs.TermText.{line};
ghost use Rattle.pf_model.specs.Text.{event_text, report_text};
ghost use Rattle.pf_trace.specs.Written.{AreWritten, AreWrittenSoFar, report_end_text, events_of, reported_so_far};
ghost use Rattle.pf_trace.specs.Written.{report_in};

use crate::event_lines::EventLines;
use crate::report::{put_event, put_last_lines};
use pf_errors::NoMemory;
use pf_model::report::{Event, Outcome};
use pf_terms::AtomTable;
use pf_text::put;
use std::alloc::Global;
use std::snapshot::Snapshot;

/// How many events a run may have: each is a step at least.
const MOST_EVENTS: usize = 100_000;

/// Room for the first lines, some 30 of them.
const FIRST_BYTES: usize = 1_000;

/// The lines of a run's events, put as the run goes. The events are not kept: what stands for them has no bytes, and
/// only clauses read it.
#[derive(Drop)]
pub struct LinesSoFar {
    pub(crate) text: Vec<u8>,
    pub(crate) reported: Vec<Snapshot<Event>>,
}

impl LinesSoFar {
    /// No line.
    pub fn new(alloc: Global) -> LinesSoFar
        ensures none { reported_so_far result ≡ [] }
        ensures text { result.text.items ≡ [] }
        ensures written { (name : ℕ → List ℕ) → AreWrittenSoFar name result }
    {
        LinesSoFar {
            text: Vec::new(alloc),
            reported: Vec::new(alloc),
        }
    }

    /// How many lines there are, which is how many events.
    pub fn len(&self) -> usize
        ensures { result ≡ length (reported_so_far self.now) }
    {
        self.reported.len()
    }

    /// Adds the line of an event.
    pub fn add(&mut self, atoms: &AtomTable, event: &Event) -> Result<(), NoMemory>
        ensures event { OnOk result (reported_so_far self.new ≡ reported_so_far self.old
            ++ view_of_event event.now ∷ []) }
        ensures text { OnOk result (self.new.text.items ≡ self.old.text.items
            ++ line (event_text (name_of atoms.now) (view_of_event event.now))) }
        ensures line { OnOk result (AreWrittenSoFar (name_of atoms.now) self.old
            → AreWrittenSoFar (name_of atoms.now) self.new) }
    {
        self.make_room()?;
        put_event(&mut self.text, atoms, event)?;
        self.reported.push(Snapshot::of(event))?;
        Ok(())
    }

    /// Makes room for the first lines at once, and for as many events as a run may have: these have no bytes.
    fn make_room(&mut self) -> Result<(), NoMemory>
        ensures events { reported_so_far self.new ≡ reported_so_far self.old }
        ensures text { self.new.text.items ≡ self.old.text.items }
    {
        if self.reported.len() == self.reported.capacity() {
            self.reported.reserve(MOST_EVENTS)?;
            self.text.reserve(FIRST_BYTES)?;
        }
        Ok(())
    }

    /// The lines of a run that is over, without the room that is left over.
    pub fn finish(self) -> EventLines
        ensures events { events_of result ≡ reported_so_far self }
        ensures text { result.text.items ≡ self.text.items }
        ensures written { (name : ℕ → List ℕ) → AreWrittenSoFar name self → AreWritten name result }
    {
        let LinesSoFar { mut text, reported } = self;
        text.shrink_to_fit();
        EventLines::of(text, &reported)
    }
}

/// A report with the lines of its events in place of these.
#[derive(Drop)]
pub struct WrittenReport {
    pub lines: EventLines,
    pub outcome: Outcome,
    pub steps: u32,
    /// Whether the property holds; none if memory ran out.
    pub verdict: Option<bool>,
}

impl WrittenReport {
    /// Puts what follows the lines of the events: the outcome, the steps and the verdict, a line each.
    pub fn put_end(&self, out: &mut Vec<u8>, atoms: &AtomTable) -> Result<(), NoMemory>
        ensures { OnOk result (out.new.items ≡ out.old.items
            ++ report_end_text (name_of atoms.now) (report_in self.now)) }
    {
        put_last_lines(out, atoms, &self.outcome, self.steps, self.verdict)
    }
}

/// Puts the text of a report whose events are written.
pub fn put_written(
    out: &mut Vec<u8>,
    atoms: &AtomTable,
    report: &WrittenReport,
) -> Result<(), NoMemory>
    ensures { OnOk result (AreWritten (name_of atoms.now) report.now.lines
        → out.new.items ≡ out.old.items ++ report_text (name_of atoms.now) (report_in report.now)) }
{
    put(out, report.lines.as_bytes())?;
    report.put_end(out, atoms)
}
