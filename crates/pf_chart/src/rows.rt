//! The rows of a chart: which events have one, and on which page.

ghost use Rattle.std.specs.Prelude.{◌≡◌, ◌≤◌, ◌++◌, ◌∷◌, [], IfOk, OnOk, if◌then◌else◌, map};
ghost use Rattle.std.specs.List.{filter};
ghost use Rattle.pf_model.specs.Reports.{view_of_event, label_of};
ghost use Rattle.pf_chart.specs.Chart.{first_row, has_row, is_quiet, page_of, rows_from};
ghost use Rattle.pf_chart.specs.Rows.{star_labels_of};
ghost use Rattle.pf_chart.specs.Stars.{star_at};

use crate::stars::Runner;
use pf_errors::NoMemory;
use pf_model::Signal;
use pf_model::report::{Event, Label, Suffix};
use std::alloc::Global;

/// How many rows a page has.
pub(crate) const PAGE: usize = 500;

/// An event that has a row, with its place among all events, and whether it has a star.
#[derive(Drop, Clone, Copy)]
pub(crate) struct EventRow<'e> {
    pub(crate) index: usize,
    pub(crate) event: &'e Event,
    pub(crate) has_star: bool,
}

/// Whether it is a wait, or the delivery of a message into a mailbox.
fn is_quiet(label: &Label) -> bool
    ensures { result ≡ is_quiet (label_of label.now) }
{
    matches!(
        label,
        Label::Waits | Label::Delivers(Signal::Message(_), Suffix::TookEffect)
    )
}

/// Whether an event has a row: in a compact chart what is quiet has none.
fn has_row(compact: bool, event: &Event) -> bool
    ensures { result ≡ has_row compact (view_of_event event.now) }
{
    !(compact && is_quiet(&event.label))
}

/// Puts a row after the others, if so.
fn put_row<'e>(
    rows: &mut Vec<EventRow<'e>>,
    has_row: bool,
    row: EventRow<'e>,
) -> Result<(), NoMemory>
    ensures { OnOk result (rows.new.items ≡ rows.old.items ++ (if has_row then row.entry ∷ [] else [])) }
{
    if has_row {
        rows.push(row)?;
    }
    Ok(())
}

/// The rows of all pages.
pub(crate) fn rows_of<'e>(
    alloc: Global,
    events: &'e [Event],
    compact: bool,
) -> Result<Vec<EventRow<'e>>, NoMemory>
    ensures events { IfOk result (λ rows. map (λ r. view_of_event r.event.now) rows.items
        ≡ filter (has_row compact) (map view_of_event events.now)) }
    ensures places { IfOk result (λ rows. map (λ r. r.index) rows.items
        ≡ rows_from compact 0 (map view_of_event events.now)) }
    ensures stars { IfOk result (λ rows. map star_labels_of rows.items
        ≡ map (λ r. star_at (map view_of_event events.now) r.index) rows.items) }
{
    let mut rows = Vec::new(alloc);
    let mut runner = Runner::Nobody;
    for (index, event) in events.iter().enumerate() {
        let has_row = has_row(compact, event);
        let has_star = runner.has_star(event);
        let row = EventRow {
            index,
            event,
            has_star,
        };
        put_row(&mut rows, has_row, row)?;
        runner = runner.after(event);
    }
    Ok(rows)
}

/// How many rows are on the pages before this one; before the last where there are fewer pages.
pub(crate) fn first_row(page: u32, rows: usize) -> usize
    ensures first { result ≡ first_row page rows }
    ensures within { result ≤ rows }
{
    let pages_before = (page.saturating_sub(1) as usize).min(rows.saturating_sub(1) / PAGE);
    PAGE * pages_before
}

/// The rows of a page.
pub(crate) fn page_of<'r, 'e>(rows: &'r [EventRow<'e>], page: u32) -> &'r [EventRow<'e>]
    ensures { result.now ≡ page_of page rows.now }
{
    let first = first_row(page, rows.len());
    let end = rows.len().min(first.saturating_add(PAGE));
    &rows[first..end]
}
