//! The lines of a run's events that are written while the run goes on, piece by piece.

ghost use Rattle.std.specs.Prelude.{◌≡◌, ◌++◌, ◌∷◌, [], List, ℕ, IfErr, OnOk};
ghost use Rattle.std.specs.Io.KnownBytes.{Appends};
ghost use Rattle.pf_terms.specs.Atoms.{name_of};
ghost use Rattle.pf_streams.specs.Streams.{LeavesFront};
ghost use Rattle.pf_model.specs.Reports.{view_of_event, view_of_outcome};
ghost use Rattle.pf_model.specs.TermText.{line};
ghost use Rattle.pf_model.specs.Text.{event_text};
ghost use Rattle.pf_trace.specs.Written.{AreWrittenSoFar, GoesOut, IsShort, gone_from, last_lines, lines_text};
ghost use Rattle.pf_trace.specs.Written.{reported_so_far, waiting_bytes};

use crate::lines::LinesSoFar;
use crate::report::put_last_lines;
use pf_errors::{NoMemory, OrNoMemory};
use pf_model::report::{Event, Outcome};
use pf_streams::{Counted, StreamFault};
use pf_terms::AtomTable;
use std::alloc::Global;
use std::io::Write;
use std::snapshot::Snapshot;
use std::sync::ledger::Ledger;

/// Lines that have so many bytes are written.
const PIECE_BYTES: usize = 65_536;

/// The lines of a run's events, which are written in pieces: those that wait. Lines that were written are not kept;
/// what stands for their events has no bytes, and only clauses read it.
#[derive(Drop)]
pub struct Pieces {
    gone: Vec<Snapshot<Event>>,
    lines: LinesSoFar,
}

impl Pieces {
    /// No line.
    pub fn new(alloc: Global) -> Pieces
        ensures gone { gone_from result ≡ [] }
        ensures waiting { reported_so_far result.lines ≡ [] }
        ensures written { (name : ℕ → List ℕ) → AreWrittenSoFar name result.lines }
        ensures short { IsShort result }
    {
        Pieces {
            gone: Vec::new(alloc),
            lines: LinesSoFar::new(alloc),
        }
    }

    /// Adds the line of an event, and so as many bytes to those that wait. None is written.
    pub fn add(&mut self, atoms: &AtomTable, event: &Event) -> Result<(), NoMemory>
        ensures gone { self.new.gone ≡ self.old.gone }
        ensures event { OnOk result (reported_so_far self.new.lines
            ≡ reported_so_far self.old.lines ++ view_of_event event.now ∷ []) }
        ensures held { OnOk result (waiting_bytes self.new
            ≡ waiting_bytes self.old ++ line (event_text (name_of atoms.now) (view_of_event event.now))) }
        ensures line { OnOk result (AreWrittenSoFar (name_of atoms.now) self.old.lines
            → AreWrittenSoFar (name_of atoms.now) self.new.lines) }
    {
        self.lines.add(atoms, event)
    }

    /// Writes the lines that wait.
    fn print<W: Write, M: Ledger>(
        &mut self,
        writer: &mut Counted<W, M>,
    ) -> Result<(), OrNoMemory<StreamFault>>
        ensures out { (name : ℕ → List ℕ) → AreWrittenSoFar name self.old.lines → OnOk result
            (GoesOut name self.old self.new (W.contents writer.old.inner) (W.contents writer.new.inner)) }
        ensures kept { OnOk result (writer.new.failures.total ≡ writer.old.failures.total) }
        ensures fault { (name : ℕ → List ℕ) → AreWrittenSoFar name self.old.lines → IfErr result (λ e.
            LeavesFront e (lines_text name (reported_so_far self.old.lines))
            (W.contents writer.old.inner) (W.contents writer.new.inner)
            writer.old.failures.total writer.new.failures.total) }
        ensures none_waits { OnOk result (waiting_bytes self.new ≡ []) }
    {
        self.gone.append(&mut self.lines.reported)?;
        writer.put(&self.lines.text)?;
        self.lines.text.clear();
        Ok(())
    }

    /// Writes the lines that wait if they make a piece: each piece has 65,536 bytes or more, and fewer wait on.
    pub fn print_full<W: Write, M: Ledger>(
        &mut self,
        writer: &mut Counted<W, M>,
    ) -> Result<(), OrNoMemory<StreamFault>>
        ensures out { (name : ℕ → List ℕ) → AreWrittenSoFar name self.old.lines → OnOk result
            (GoesOut name self.old self.new (W.contents writer.old.inner) (W.contents writer.new.inner)) }
        ensures kept { OnOk result (writer.new.failures.total ≡ writer.old.failures.total) }
        ensures fault { (name : ℕ → List ℕ) → AreWrittenSoFar name self.old.lines → IfErr result (λ e.
            LeavesFront e (lines_text name (reported_so_far self.old.lines))
            (W.contents writer.old.inner) (W.contents writer.new.inner)
            writer.old.failures.total writer.new.failures.total) }
        ensures short { OnOk result (IsShort self.new) }
        ensures piece { IsShort self.old → (self.new ≡ self.old) × (writer.new ≡ writer.old) }
    {
        if self.lines.text.len() < PIECE_BYTES {
            return Ok(());
        }
        self.print(writer)
    }

    /// Writes the lines that wait, and after them what follows the lines of a report's events.
    pub fn print_end<W: Write, M: Ledger>(
        self,
        atoms: &AtomTable,
        outcome: &Outcome,
        steps: u32,
        verdict: Option<bool>,
        writer: &mut Counted<W, M>,
    ) -> Result<(), OrNoMemory<StreamFault>>
        requires { AreWrittenSoFar (name_of atoms.now) self.lines }
        ensures written { OnOk result (Appends (W.contents writer.old.inner) (W.contents writer.new.inner)
            (lines_text (name_of atoms.now) (reported_so_far self.lines)
            ++ last_lines (name_of atoms.now) (view_of_outcome outcome.now) steps verdict)) }
        ensures kept { OnOk result (writer.new.failures.total ≡ writer.old.failures.total) }
        ensures fault { IfErr result (λ e. LeavesFront e
            (lines_text (name_of atoms.now) (reported_so_far self.lines)
            ++ last_lines (name_of atoms.now) (view_of_outcome outcome.now) steps verdict)
            (W.contents writer.old.inner) (W.contents writer.new.inner)
            writer.old.failures.total writer.new.failures.total) }
    {
        let Pieces { lines, gone: _ } = self;
        let LinesSoFar {
            mut text,
            reported: _,
        } = lines;
        put_last_lines(&mut text, atoms, outcome, steps, verdict)?;
        writer.put(&text)?;
        Ok(())
    }
}
