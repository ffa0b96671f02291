//! What is printed of a report.

ghost use Rattle.std.specs.Prelude.{◌≡◌, IfErr, IfOk, OnOk, map};
ghost use Rattle.std.specs.Io.KnownBytes.{Appends};
ghost use Rattle.pf_terms.specs.Atoms.{name_of};
ghost use Rattle.pf_model.specs.Meaning.{Report as ReportOf};
ghost use Rattle.pf_model.specs.Reports.{view_of_event, view_of_report};
ghost use Rattle.pf_model.specs.Text.{report_text};
ghost use Rattle.pf_trace.specs.Written.{HasGoneOut, IsShort, StopsShort};

use crate::pieces::Pieces;
use pf_errors::OrNoMemory;
use pf_model::report::{Event, Report};
use pf_streams::{Counted, StreamFault};
use pf_terms::AtomTable;
use std::alloc::Global;
use std::io::Write;
use std::sync::ledger::Ledger;

/// Writes the lines of events, but for the last of them, which wait. After each event fewer than 65,536 bytes wait.
fn print_events<W: Write, M: Ledger>(
    alloc: Global,
    events: &[Event],
    atoms: &AtomTable,
    writer: &mut Counted<W, M>,
) -> Result<Pieces, OrNoMemory<StreamFault>>
    ensures out { IfOk result (λ p. HasGoneOut (name_of atoms.now) (map view_of_event events.now) p
        (W.contents writer.old.inner) (W.contents writer.new.inner)) }
    ensures short { IfOk result (λ p. IsShort p) }
    ensures kept { OnOk result (writer.new.failures.total ≡ writer.old.failures.total) }
    ensures fault { IfErr result (λ e. (r : ReportOf) → r.events ≡ map view_of_event events.now
        → StopsShort e (name_of atoms.now) r
        (W.contents writer.old.inner) (W.contents writer.new.inner)
        writer.old.failures.total writer.new.failures.total) }
{
    let mut pieces = Pieces::new(alloc);
    for event in events {
        pieces.add(atoms, event)?;
        pieces.print_full(writer)?;
    }
    Ok(pieces)
}

/// Writes the text of a report, piece by piece. Where a write fails, a beginning of it was written; where memory runs
/// out, the lines of its first events did.
pub fn print_report<W: Write, M: Ledger>(
    alloc: Global,
    report: &Report,
    atoms: &AtomTable,
    writer: &mut Counted<W, M>,
) -> Result<(), OrNoMemory<StreamFault>>
    ensures written { OnOk result (Appends (W.contents writer.old.inner) (W.contents writer.new.inner)
        (report_text (name_of atoms.now) (view_of_report report.now))) }
    ensures kept { OnOk result (writer.new.failures.total ≡ writer.old.failures.total) }
    ensures fault { IfErr result (λ e. StopsShort e (name_of atoms.now) (view_of_report report.now)
        (W.contents writer.old.inner) (W.contents writer.new.inner)
        writer.old.failures.total writer.new.failures.total) }
{
    let pieces = print_events(alloc, &report.events, atoms, writer)?;
    pieces.print_end(atoms, &report.outcome, report.steps, report.verdict, writer)
}
