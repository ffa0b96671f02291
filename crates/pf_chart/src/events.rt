//! Events on the sheet: their numbers, their marks and their labels.

ghost use Rattle.std.specs.Prelude.{◌≡◌, ◌++◌, ◌∷◌, [], IsTrue, OnOk, flat_map};
ghost use Rattle.pf_terms.specs.Atoms.{name_of};
ghost use Rattle.pf_model.specs.Reports.{view_of_event, label_of};
ghost use Rattle.pf_model.specs.Text.{label_text};
ghost use Rattle.pf_chart.specs.Chart.{event_labels, message_text, shown_text, twice};
ghost use Rattle.pf_chart.specs.Origins.{IsMarkedIn};
ghost use Rattle.pf_chart.specs.Rows.{star_labels_of};
ghost use Rattle.pf_chart.specs.Signals.{marked};
ghost use Rattle.pf_chart.specs.Stars.{choice_text};
ghost use Rattle.pf_chart.specs.Words.{ClosesGroup, DrawsInChart, OpensGroup, is_phrase};

use crate::columns::{Column, column_of};
use crate::marks::{is_crash, mark_of};
use crate::rows::EventRow;
use crate::sheet::{GUTTER, Sheet, event_number};
use crate::words::ChartSvg;
use pf_errors::NoMemory;
use pf_model::Signal;
use pf_model::report::{Actor, Event, Label as EventLabel};
use pf_svg::DocumentPart::{Attribute, Label, Markup, Moved, Number, Phrase, Short};
use pf_terms::AtomTable;
use pf_termtext::put_term;
use pf_text::{put, put_number};
use pf_trace::put_label;
use std::alloc::Global;

/// How many bytes of a label are shown at least if it is longer.
const MOST_OF_LABEL: usize = 32;

/// Puts a star, as `*2/3`.
fn put_star(out: &mut Vec<u8>, event: &Event) -> Result<(), NoMemory>
    ensures { OnOk result (out.new.items ≡ out.old.items ++ choice_text (view_of_event event.now)) }
{
    put(out, b"*")?;
    put_number(out, u64::from(event.choice))?;
    put(out, b"/")?;
    put_number(out, u64::from(event.count))
}

/// Puts the number of an event, and before it its star if it has one.
fn put_number_of(alloc: Global, svg: &mut ChartSvg, row: &EventRow, y: u64) -> Result<(), NoMemory>
    ensures { OnOk result (DrawsInChart (star_labels_of row.now) svg.old svg.new) }
{
    let number = Number(event_number(row.index));
    if row.has_star {
        let mut choice = Vec::new(alloc);
        put_star(&mut choice, row.event)?;
        svg.text("choice", (6, y), &[Label(&choice)])?;
        svg.text("number chosen", (GUTTER - 10, y), &[number])?;
        return svg.end_line();
    }
    svg.text("number", (GUTTER - 10, y), &[number])?;
    svg.end_line()
}

/// Puts the numbers and the stars of all rows.
pub(crate) fn put_numbers(
    alloc: Global,
    svg: &mut ChartSvg,
    rows: &[EventRow],
    sheet: Sheet,
) -> Result<(), NoMemory>
    ensures { OnOk result (DrawsInChart (flat_map star_labels_of rows.now) svg.old svg.new) }
{
    for (place, row) in rows.iter().enumerate() {
        let y = sheet.row_y(place).saturating_add(4);
        put_number_of(alloc, svg, row, y)?;
    }
    Ok(())
}

/// The column in which an event has its mark: that of who acts, or of the receiver of a signal. No run has a process
/// that was never spawned; its events are in the first column.
fn column_of_actor(columns: &[Column], actor: Actor) -> usize
    ensures { IsMarkedIn columns.now (marked actor) result }
{
    let (Actor::Process(pid) | Actor::Channel { to: pid, .. }) = actor;
    column_of(columns, pid).unwrap_or(0)
}

/// What the class of an event says of its star.
fn class_of_star(row: &EventRow) -> &'static str
    ensures { IsTrue (is_phrase result.now) }
{
    if row.has_star { " chosen" } else { "" }
}

/// What the class of an event says of the end of a process: whether it was by an error.
fn class_of_end(label: &EventLabel) -> &'static str
    ensures { IsTrue (is_phrase result.now) }
{
    if is_crash(label) { " failed" } else { "" }
}

/// Puts the beginning of an event of a kind, which is at a point.
fn put_opening(
    svg: &mut ChartSvg,
    row: &EventRow,
    at: (u64, u64),
    kind: &'static str,
) -> Result<(), NoMemory>
    requires { IsTrue (is_phrase kind.now) }
    ensures { OnOk result (OpensGroup [] svg.old svg.new) }
{
    svg.group(
        &[
            Phrase("event "),
            Phrase(kind),
            Phrase(class_of_end(&row.event.label)),
            Phrase(class_of_star(row)),
        ],
        &[
            Attribute("data-event", event_number(row.index)),
            Moved(at.0, at.1),
        ],
    )
}

/// Puts a mark with the label of its event beside it, shortened, and whole in its tooltip, and the end of its event.
fn put_mark(svg: &mut ChartSvg, outline: &'static str, label: &[u8]) -> Result<(), NoMemory>
    requires { IsTrue (is_phrase outline.now) }
    ensures { OnOk result (ClosesGroup (twice label.now) svg.old svg.new) }
{
    svg.title(&[Label(label)])?;
    svg.path(outline)?;
    svg.put(&[
        Markup("<text x=\"10\" y=\"-4\">"),
        Short(label, MOST_OF_LABEL),
        Markup("</text>"),
    ])?;
    svg.close_group()
}

/// Puts which message an event delivers, if it delivers one.
fn put_message(out: &mut Vec<u8>, atoms: &AtomTable, label: &EventLabel) -> Result<(), NoMemory>
    ensures { OnOk result (out.new.items ≡ out.old.items
        ++ message_text (name_of atoms.now) (label_of label.now)) }
{
    let EventLabel::Delivers(Signal::Message(message), _) = label else {
        return Ok(());
    };
    put(out, b": ")?;
    put_term(out, atoms, message)
}

/// Puts what an event shows.
fn put_shown(out: &mut Vec<u8>, atoms: &AtomTable, label: &EventLabel) -> Result<(), NoMemory>
    ensures { OnOk result (out.new.items ≡ out.old.items
        ++ shown_text (name_of atoms.now) (label_of label.now)) }
{
    put_label(out, atoms, label)?;
    put_message(out, atoms, label)
}

/// Puts an event at a point.
fn put_event(
    alloc: Global,
    svg: &mut ChartSvg,
    atoms: &AtomTable,
    row: &EventRow,
    at: (u64, u64),
) -> Result<(), NoMemory>
    ensures { OnOk result (DrawsInChart (event_labels (name_of atoms.now) (view_of_event row.now.event.now))
        svg.old svg.new) }
{
    let mut label = Vec::new(alloc);
    put_shown(&mut label, atoms, &row.event.label)?;
    let mark = mark_of(&row.event.label);
    put_opening(svg, row, at, mark.kind)?;
    put_mark(svg, mark.outline, &label)
}

/// Puts the events of all rows.
pub(crate) fn put_events(
    alloc: Global,
    svg: &mut ChartSvg,
    atoms: &AtomTable,
    rows: &[EventRow],
    columns: &[Column],
    sheet: Sheet,
) -> Result<(), NoMemory>
    ensures { OnOk result (DrawsInChart
        (flat_map (λ r. event_labels (name_of atoms.now) (view_of_event r.event.now)) rows.now)
        svg.old svg.new) }
{
    for (place, row) in rows.iter().enumerate() {
        let column = column_of_actor(columns, row.event.actor);
        put_event(
            alloc,
            svg,
            atoms,
            row,
            (sheet.x(column), sheet.row_y(place)),
        )?;
    }
    Ok(())
}
