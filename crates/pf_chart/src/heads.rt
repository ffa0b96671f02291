//! Processes on the sheet: heads, lifelines and feet.

ghost use Rattle.std.specs.Prelude.{◌≡◌, ◌++◌, ◌∷◌, [], IfSome, IsTrue, OnOk, flat_map};
ghost use Rattle.pf_chart.specs.Chart.{copies, process_labels};
ghost use Rattle.pf_chart.specs.Origins.{labels_of_origin, process_of, texts};
ghost use Rattle.pf_chart.specs.Pages.{IsParent, page_in};
ghost use Rattle.pf_chart.specs.Sheets.{head_rows, life_end};
ghost use Rattle.pf_chart.specs.Words.{DrawsInChart, is_phrase};

use crate::columns::{Column, column_of};
use crate::origin::{Origin, ProcessNames};
use crate::sheet::{HEAD_HEIGHT, PageSide, Sheet, event_number};
use crate::words::ChartSvg;
use pf_errors::NoMemory;
use pf_svg::DocumentPart::{Attribute, Label, Number, Phrase, Pid, Short};

/// How much of a name goes into the narrowest head.
const LEAST_OF_NAME: usize = 6;

/// Puts the box of a head that begins at y, with the pid.
fn put_box(svg: &mut ChartSvg, pid: u32, x: u64, y: u64, pitch: u64) -> Result<(), NoMemory>
    ensures { OnOk result (DrawsInChart [] svg.old svg.new) }
{
    let width = pitch.saturating_sub(8);
    svg.rect(&[
        Attribute("x", x.saturating_sub(width / 2)),
        Attribute("y", y),
        Attribute("width", width),
        Attribute("height", HEAD_HEIGHT),
        Attribute("rx", 4),
    ])?;
    svg.text("pid", (x, y.saturating_add(17)), &[Pid(pid)])
}

/// Puts as much of a name as a head of this pitch has room for.
fn put_name(svg: &mut ChartSvg, name: &[u8], at: (u64, u64), pitch: u64) -> Result<(), NoMemory>
    ensures { OnOk result (DrawsInChart (name.now ∷ []) svg.old svg.new) }
{
    let most = LEAST_OF_NAME.saturating_add((pitch.saturating_sub(64) / 6) as usize);
    svg.text("of", at, &[Short(name, most)])
}

/// Puts how a process began, below the pid of its head: its function, or who spawned it where that isn't known.
fn put_origin(
    svg: &mut ChartSvg,
    origin: Origin,
    x: u64,
    y: u64,
    pitch: u64,
) -> Result<(), NoMemory>
    ensures { OnOk result (DrawsInChart (labels_of_origin origin.entry) svg.old svg.new) }
{
    let at = (x, y.saturating_add(33));
    match origin {
        Origin::Root(name) => put_name(svg, name, at, pitch),
        Origin::Named(name, _, _) => put_name(svg, name, at, pitch),
        Origin::Unnamed(parent, _) => svg.text("of", at, &[Phrase("by "), Pid(parent)]),
    }
}

/// Puts a head that begins at y.
fn put_head(
    svg: &mut ChartSvg,
    pid: u32,
    origin: Origin,
    x: u64,
    y: u64,
    pitch: u64,
) -> Result<(), NoMemory>
    ensures { OnOk result (DrawsInChart (labels_of_origin origin.entry) svg.old svg.new) }
{
    put_box(svg, pid, x, y, pitch)?;
    put_origin(svg, origin, x, y, pitch)
}

/// Puts all heads of a process, above the rows, between them and below.
fn put_heads(
    svg: &mut ChartSvg,
    pid: u32,
    origin: Origin,
    sheet: Sheet,
    x: u64,
) -> Result<(), NoMemory>
    ensures { OnOk result (DrawsInChart
        (copies (head_rows sheet.entry.count) (labels_of_origin origin.entry)) svg.old svg.new) }
{
    for index in 0..sheet.head_rows() {
        put_head(svg, pid, origin, x, sheet.head_y(index), sheet.pitch())?;
    }
    Ok(())
}

/// Where the lifeline ends.
fn end(column: &Column, sheet: Sheet) -> u64
    ensures { result ≡ life_end (page_in sheet.entry) column.now.ended }
{
    match column.ended {
        Some(row) => sheet.y(row),
        None => sheet.bottom(),
    }
}

/// Puts the dotted line from the head to where a process was spawned, and returns where that is: there its lifeline
/// begins.
fn put_before(svg: &mut ChartSvg, column: &Column, sheet: Sheet, x: u64) -> Result<u64, NoMemory>
    ensures { OnOk result (DrawsInChart [] svg.old svg.new) }
{
    let head = sheet.head_y(0).saturating_add(HEAD_HEIGHT);
    match column.spawned {
        Some((_, row)) => {
            svg.line("before", x, head, sheet.y(row))?;
            Ok(sheet.y(row))
        }
        None => Ok(head),
    }
}

/// Puts the lifeline; that of a process in a deadlock is thick from where it waits.
fn put_life(svg: &mut ChartSvg, column: &Column, sheet: Sheet, x: u64) -> Result<(), NoMemory>
    ensures { OnOk result (DrawsInChart [] svg.old svg.new) }
{
    let from = put_before(svg, column, sheet, x)?;
    let to = end(column, sheet);
    match column.waits {
        Some(row) if column.deadlocked => {
            svg.line("life", x, from, sheet.y(row))?;
            svg.line("life waiting", x, sheet.y(row), to)
        }
        _ => svg.line("life", x, from, to),
    }
}

/// Puts below the last head whether the process waits in a deadlock.
fn put_foot(svg: &mut ChartSvg, column: &Column, sheet: Sheet, x: u64) -> Result<(), NoMemory>
    ensures { OnOk result (DrawsInChart [] svg.old svg.new) }
{
    if !column.deadlocked {
        return Ok(());
    }
    let y = sheet.bottom().saturating_add(HEAD_HEIGHT + 14);
    svg.text("foot", (x, y), &[Phrase("waits")])
}

/// Puts the tooltip of a process: its pid and how it began.
fn put_tooltip(svg: &mut ChartSvg, pid: u32, origin: Origin) -> Result<(), NoMemory>
    ensures { OnOk result (DrawsInChart (labels_of_origin origin.entry) svg.old svg.new) }
{
    match origin {
        Origin::Root(name) => svg.title(&[Pid(pid), Phrase(" from "), Label(name)]),
        Origin::Named(name, parent, event) => svg.title(&[
            Pid(pid),
            Phrase(" "),
            Label(name),
            Phrase(" spawned by "),
            Pid(parent),
            Phrase(" in event "),
            Number(event_number(event)),
        ]),
        Origin::Unnamed(parent, event) => svg.title(&[
            Pid(pid),
            Phrase(" spawned by "),
            Pid(parent),
            Phrase(" in event "),
            Number(event_number(event)),
        ]),
    }
}

/// The class of a process.
fn class_of(column: &Column) -> &'static str
    ensures { IsTrue (is_phrase result.now) }
{
    if column.deadlocked {
        "process deadlocked"
    } else if column.failed {
        "process failed"
    } else {
        "process"
    }
}

fn put_column(
    svg: &mut ChartSvg,
    column: &Column,
    names: ProcessNames,
    sheet: Sheet,
    x: u64,
) -> Result<(), NoMemory>
    ensures { OnOk result (DrawsInChart
        (process_labels sheet.entry.count names.entry.root.now (texts names.entry.known.now) (process_of column.now))
        svg.old svg.new) }
{
    let pid = Attribute("data-pid", u64::from(column.pid));
    let origin = names.origin(column);
    svg.group(&[Phrase(class_of(column))], &[pid])?;
    put_tooltip(svg, column.pid, origin)?;
    put_life(svg, column, sheet, x)?;
    put_heads(svg, column.pid, origin, sheet, x)?;
    put_foot(svg, column, sheet, x)?;
    svg.close_group()
}

/// Puts all processes.
pub(crate) fn put_columns(
    svg: &mut ChartSvg,
    columns: &[Column],
    names: ProcessNames,
    sheet: Sheet,
) -> Result<(), NoMemory>
    ensures { OnOk result (DrawsInChart (flat_map
        (λ c. process_labels sheet.entry.count names.entry.root.now (texts names.entry.known.now) (process_of c))
        columns.now)
        svg.old svg.new) }
{
    for (index, column) in columns.iter().enumerate() {
        put_column(svg, column, names, sheet, sheet.x(index))?;
    }
    Ok(())
}

/// The column of who spawned a process, and the event in which it did, if that is on the page.
fn parent_of(columns: &[Column], column: &Column, sheet: Sheet) -> Option<(usize, usize)>
    ensures { IfSome result (IsParent (page_in sheet.entry) columns.now column.now.spawned) }
{
    let (parent, event) = column.spawned?;
    if sheet.side(event) != PageSide::Here {
        return None;
    }
    Some((column_of(columns, parent)?, event))
}

/// Puts an arrow from who spawns to the beginning of a lifeline, unless it is that of the root.
fn put_spawn(
    svg: &mut ChartSvg,
    columns: &[Column],
    column: &Column,
    to: u64,
    sheet: Sheet,
) -> Result<(), NoMemory>
    ensures { OnOk result (DrawsInChart [] svg.old svg.new) }
{
    let Some((from, row)) = parent_of(columns, column, sheet) else {
        return Ok(());
    };
    let event = Attribute("data-event", event_number(row));
    svg.group(&[Phrase("arrow spawn")], &[event])?;
    svg.stroke(sheet.at(from, row), (to, sheet.y(row)))?;
    svg.close_group()
}

/// Puts an arrow to the beginning of each lifeline that begins on the page, but to that of the root.
pub(crate) fn put_spawns(
    svg: &mut ChartSvg,
    columns: &[Column],
    sheet: Sheet,
) -> Result<(), NoMemory>
    ensures { OnOk result (DrawsInChart [] svg.old svg.new) }
{
    for (index, column) in columns.iter().enumerate() {
        put_spawn(svg, columns, column, sheet.x(index), sheet)?;
    }
    Ok(())
}
