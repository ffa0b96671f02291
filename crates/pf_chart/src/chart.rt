//! The document of a chart.

ghost use Rattle.std.specs.Prelude.{◌≡◌, ◌++◌, ◌∷◌, [], ℕ, List, IfOk, OnErr, OnOk, IsTrue, flat_map, length};
ghost use Rattle.pf_terms.specs.Atoms.{name_of};
ghost use Rattle.pf_model.specs.Reports.{view_of_event, view_of_outcome, view_of_report};
ghost use Rattle.pf_model.specs.Text.{outcome_text};
ghost use Rattle.pf_chart.specs.Chart.{IsChart, event_labels, process_labels, twice};
ghost use Rattle.pf_chart.specs.Lines.{HaveLines};
ghost use Rattle.pf_chart.specs.Origins.{process_of, texts};
ghost use Rattle.pf_chart.specs.Pages.{page_in};
ghost use Rattle.pf_chart.specs.Rows.{star_labels_of};
ghost use Rattle.pf_chart.specs.Words.{DrawsInChart, is_phrase};

use crate::events::{put_events, put_numbers};
use crate::heads::{put_columns, put_spawns};
use crate::layout::{Layout, layout_of};
use crate::manner::Manner;
use crate::origin::ProcessNames;
use crate::rows::{EventRow, PAGE, first_row, page_of, rows_of};
use crate::sheet::{GUTTER, Sheet, TOP};
use crate::strokes::put_arrows;
use crate::style::{
    DEFINITIONS, LEGEND, LEGEND_OF_CHOICES, LEGEND_OF_RECEIPTS, LEGEND_OF_SPAWNS, STYLE,
};
use crate::words::ChartSvg;
use pf_errors::NoMemory;
use pf_svg::DocumentPart::{Attribute, Class, Label, Markup, Number, Phrase, Short};
use pf_terms::AtomTable;
use pf_text::put;
use pf_trace::{Report, put_outcome};
use std::alloc::Global;

/// How wide a letter of the outcome is at most, but for a few.
const LETTER: u64 = 9;

/// The line on which the outcome is above the heads.
const OUTCOME_TOP: u64 = 24;

/// The outcome as it prints, without its line end.
fn text_of_outcome(alloc: Global, atoms: &AtomTable, report: &Report) -> Result<Vec<u8>, NoMemory>
    ensures { IfOk result (λ text. text.items
        ≡ outcome_text (name_of atoms.now) (view_of_outcome report.now.outcome)) }
{
    let mut text = Vec::new(alloc);
    put_outcome(&mut text, atoms, &report.outcome)?;
    text.pop();
    Ok(text)
}

/// Puts the title of the document, and what it shows in words.
fn put_words<'a>(
    svg: &mut ChartSvg,
    root: &'a [u8],
    outcome: &'a [u8],
    processes: usize,
    events: usize,
) -> Result<(), NoMemory>
    ensures { OnOk result (DrawsInChart (root.now ∷ root.now ∷ outcome.now ∷ []) svg.old svg.new) }
{
    svg.put(&[
        Markup("<title>Run of "),
        Label(root),
        Markup("</title>\n<desc>A message sequence chart of a run of "),
        Label(root),
        Phrase(", from top to bottom. Processes: "),
        Number(processes as u64),
        Phrase(". Events: "),
        Number(events as u64),
        Phrase(". Outcome: "),
        Label(outcome),
        Markup(".</desc>\n"),
    ])
}

/// Puts the sheet, and the bands on which the rows are.
fn put_ground(svg: &mut ChartSvg, sheet: Sheet) -> Result<(), NoMemory>
    ensures { OnOk result (DrawsInChart [] svg.old svg.new) }
{
    svg.put(&[Markup("<rect class=\"sheet\" width=\"100%\" height=\"100%\"/>\n")])?;
    svg.rect(&[
        Class("bands"),
        Attribute("y", TOP),
        Attribute("width", sheet.width()),
        Attribute("height", sheet.rows_end().saturating_sub(TOP)),
    ])?;
    svg.end_line()
}

/// Puts a line of the legend.
fn put_legend(svg: &mut ChartSvg, line: &'static str, y: u64) -> Result<(), NoMemory>
    requires { IsTrue (is_phrase line.now) }
    ensures { OnOk result (DrawsInChart [] svg.old svg.new) }
{
    svg.text("legend", (GUTTER, y), &[Phrase(line)])?;
    svg.end_line()
}

/// Puts the outcome, whole in a tooltip and as long as the sheet is wide.
fn put_result(svg: &mut ChartSvg, outcome: &[u8], y: u64, sheet: Sheet) -> Result<(), NoMemory>
    ensures { OnOk result (DrawsInChart (twice outcome.now) svg.old svg.new) }
{
    let most = (sheet.width().saturating_sub(2 * GUTTER) / LETTER) as usize;
    svg.plain_group()?;
    svg.title(&[Label(outcome)])?;
    svg.text("outcome", (GUTTER, y), &[Short(outcome, most)])?;
    svg.close_group()
}

/// Puts which page it is, if there are several.
fn put_page(svg: &mut ChartSvg, y: u64, sheet: Sheet) -> Result<(), NoMemory>
    ensures { OnOk result (DrawsInChart [] svg.old svg.new) }
{
    if sheet.all_rows() <= PAGE {
        return Ok(());
    }
    let content = [
        Phrase("Page "),
        Number(((sheet.above / PAGE) as u64).saturating_add(1)),
        Phrase(" of "),
        Number(((sheet.all_rows().saturating_sub(1) / PAGE) as u64).saturating_add(1)),
        Phrase(": rows "),
        Number((sheet.above as u64).saturating_add(1)),
        Phrase(" to "),
        Number(sheet.above.saturating_add(sheet.count) as u64),
        Phrase(" of "),
        Number(sheet.all_rows() as u64),
    ];
    svg.text("page", (GUTTER, y), &content)?;
    svg.end_line()
}

/// Puts how to read the chart.
fn put_legends(svg: &mut ChartSvg, y: u64, compact: bool) -> Result<(), NoMemory>
    ensures { OnOk result (DrawsInChart [] svg.old svg.new) }
{
    let ends = if compact { LEGEND_OF_RECEIPTS } else { LEGEND };
    put_legend(svg, ends, y)?;
    put_legend(svg, LEGEND_OF_CHOICES, y.saturating_add(15))?;
    put_legend(svg, LEGEND_OF_SPAWNS, y.saturating_add(30))
}

/// Puts the outcome, the page and the legend below all.
fn put_bottom(
    svg: &mut ChartSvg,
    outcome: &[u8],
    compact: bool,
    sheet: Sheet,
) -> Result<(), NoMemory>
    ensures { OnOk result (DrawsInChart (twice outcome.now) svg.old svg.new) }
{
    let y = sheet.bottom().saturating_add(84);
    put_result(svg, outcome, y, sheet)?;
    put_page(svg, y.saturating_add(20), sheet)?;
    put_legends(svg, y.saturating_add(40), compact)
}

/// Puts what was laid out, from the back to the front.
fn put_layout(
    alloc: Global,
    svg: &mut ChartSvg,
    atoms: &AtomTable,
    names: ProcessNames,
    rows: &[EventRow],
    layout: &Layout,
    sheet: Sheet,
) -> Result<(), NoMemory>
    ensures drawn { OnOk result (DrawsInChart
        (flat_map (λ c. process_labels sheet.entry.count names.entry.root.now (texts names.entry.known.now)
        (process_of c))
        layout.now.columns.items
        ++ (flat_map star_labels_of rows.now
        ++ flat_map (λ r. event_labels (name_of atoms.now) (view_of_event r.event.now)) rows.now))
        svg.old svg.new) }
    ensures lines { OnOk result (HaveLines (page_in sheet.entry) (length layout.now.columns.items)
        layout.now.traffic.arrows.items svg.old svg.new) }
{
    put_columns(svg, &layout.columns, names, sheet)?;
    put_numbers(alloc, svg, rows, sheet)?;
    put_spawns(svg, &layout.columns, sheet)?;
    put_arrows(svg, &layout.traffic.arrows, &layout.columns, sheet)?;
    put_events(alloc, svg, atoms, rows, &layout.columns, sheet)
}

/// Puts the whole document.
fn put_document(
    alloc: Global,
    svg: &mut ChartSvg,
    atoms: &AtomTable,
    names: ProcessNames,
    report: &Report,
    manner: Manner,
) -> Result<(), NoMemory>
    ensures { OnOk result (IsChart (name_of atoms.now) names.entry.root.now (texts names.entry.known.now) manner
        (view_of_report report.now) svg.old svg.new) }
{
    let layout = layout_of(alloc, report, manner.compact)?;
    let all_rows = rows_of(alloc, &report.events, manner.compact)?;
    let rows = page_of(&all_rows, manner.page);
    let processes = layout.columns.len();
    let above = first_row(manner.page, all_rows.len());
    let sheet = Sheet::new(processes, &all_rows, above, rows.len());
    let outcome = text_of_outcome(alloc, atoms, report)?;
    svg.open(sheet.width(), sheet.height())?;
    put_words(svg, names.root, &outcome, processes, report.events.len())?;
    svg.put(&[Markup(STYLE), Markup(DEFINITIONS)])?;
    put_ground(svg, sheet)?;
    put_result(svg, &outcome, OUTCOME_TOP, sheet)?;
    put_layout(alloc, svg, atoms, names, rows, &layout, sheet)?;
    put_bottom(svg, &outcome, manner.compact, sheet)?;
    svg.close()
}

/// Puts a report of a run from the function `root` as a message sequence chart: a whole SVG document, after what was
/// there. The names say by pid in whose call each process began, as `counter/1`; it isn't known where a name is empty
/// or isn't there. If memory runs out, nothing is put.
pub fn put_chart(
    alloc: Global,
    out: &mut Vec<u8>,
    atoms: &AtomTable,
    root: &[u8],
    names: &[Vec<u8>],
    report: &Report,
    manner: Manner,
) -> Result<(), NoMemory>
    ensures put { OnOk result (IsChart (name_of atoms.now) root.now (texts names.now) manner
        (view_of_report report.now) out.old.items out.new.items) }
    ensures err { OnErr result (out.new.items ≡ out.old.items) }
{
    let mut svg = ChartSvg::new(alloc);
    let names = ProcessNames { root, known: names };
    put_document(alloc, &mut svg, atoms, names, report, manner)?;
    put(out, svg.as_bytes())
}
