//! Signals on the sheet.

ghost use Rattle.std.specs.Prelude.{◌≡◌, ◌<◌, ◌++◌, [], IsTrue, OnOk, length, true};
ghost use Rattle.pf_chart.specs.Pages.{page_in};
ghost use Rattle.pf_chart.specs.Sheets.{
  beginning_of,
  end_of,
  in_the_air,
  is_across,
  is_here,
  line_of,
  path_text,
};
ghost use Rattle.pf_chart.specs.Lines.{HaveLines, Holds};
ghost use Rattle.pf_chart.specs.Words.{DrawsInChart, OpensGroup, is_phrase};

use crate::arrows::{Arrow, ArrowEnd, ArrowStart};
use crate::columns::Column;
use crate::sheet::{HALF_ROW, PageSide, Sheet, event_number};
use crate::words::ChartSvg;
use pf_errors::NoMemory;
use pf_svg::DocumentPart::{Attribute, Phrase, Pid};

/// How far a signal to oneself swings out, and how far one goes down that is never delivered.
const SWING: u64 = 22;

const FALL: u64 = 20;

/// Puts a line from point to point; one that ends in its own column swings out.
fn put_path(svg: &mut ChartSvg, from: (u64, u64), to: (u64, u64)) -> Result<(), NoMemory>
    ensures text { OnOk result (svg.new ≡ svg.old ++ path_text from to) }
    ensures drawn { OnOk result (DrawsInChart [] svg.old svg.new) }
{
    if from.0 != to.0 {
        return svg.stroke(from, to);
    }
    let swung = from.0.saturating_sub(SWING);
    svg.curve(from, ((swung, from.1), (swung, to.1)), to)
}

/// Where a signal ends that is never delivered: beside the sender on the side of the receiver, between two lifelines, a
/// row below.
fn in_the_air(from: (u64, u64), to: u64, pitch: u64) -> (u64, u64)
    ensures { result ≡ in_the_air from to pitch }
{
    let (x, y) = from;
    let y = y.saturating_add(FALL);
    if x == to {
        (x.saturating_sub(SWING), y)
    } else if x < to {
        (x.saturating_add(pitch / 2), y)
    } else {
        (x.saturating_sub(pitch / 2), y)
    }
}

/// What the end of an arrow adds to its class, and how it is said in words.
fn end_in_words(reach: ArrowEnd) -> (&'static str, &'static str)
    ensures class { IsTrue (is_phrase result.0.now) }
    ensures words { IsTrue (is_phrase result.1.now) }
{
    match reach {
        ArrowEnd::Nowhere => (" lost", ", never delivered"),
        ArrowEnd::Taken(_) | ArrowEnd::Received(_) => ("", ""),
        ArrowEnd::Dropped(_) => (" dropped", ", dropped"),
        ArrowEnd::Unread => (" lost", ", never received"),
    }
}

/// What the class of an arrow says of the choice by which it was delivered, if no row does, and how that is said in
/// words.
fn choice_in_words(chosen: bool) -> (&'static str, &'static str)
    ensures class { IsTrue (is_phrase result.0.now) }
    ensures words { IsTrue (is_phrase result.1.now) }
{
    if chosen {
        (" chosen", ", delivered by a choice above 0")
    } else {
        ("", "")
    }
}

/// Puts the beginning of an arrow: its class, and which events are its ends.
fn put_opening(svg: &mut ChartSvg, arrow: &Arrow, end: &'static str) -> Result<(), NoMemory>
    requires { IsTrue (is_phrase end.now) }
    ensures { OnOk result (OpensGroup [] svg.old svg.new) }
{
    let (chosen, _) = choice_in_words(arrow.chosen);
    let class = [
        Phrase("arrow "),
        Phrase(arrow.kind.word()),
        Phrase(end),
        Phrase(chosen),
    ];
    let event = Attribute("data-event", event_number(arrow.beginning()));
    match arrow.reach {
        ArrowEnd::Nowhere | ArrowEnd::Unread => svg.group(&class, &[event]),
        ArrowEnd::Taken(row) | ArrowEnd::Dropped(row) => {
            svg.group(
                &class,
                &[event, Attribute("data-delivery", event_number(row))],
            )
        }
        ArrowEnd::Received(row) => {
            svg.group(
                &class,
                &[event, Attribute("data-receive", event_number(row))],
            )
        }
    }
}

/// Where an arrow begins.
fn beginning(arrow: &Arrow, sheet: Sheet) -> (u64, u64)
    ensures { result ≡ beginning_of (page_in sheet.entry) arrow.now }
{
    match arrow.start {
        ArrowStart::In(row) => sheet.at(arrow.from, row),
        ArrowStart::Above(row) => (sheet.x(arrow.from), sheet.y(row).saturating_sub(HALF_ROW)),
    }
}

/// Where an arrow ends.
fn end(arrow: &Arrow, sheet: Sheet) -> (u64, u64)
    ensures { result ≡ end_of (page_in sheet.entry) arrow.now }
{
    match arrow.end() {
        Some(event) => sheet.at(arrow.to, event),
        None => in_the_air(beginning(arrow, sheet), sheet.x(arrow.to), sheet.pitch()),
    }
}

/// Whether two ends have some of the page between them.
fn is_across(beginning: PageSide, end: PageSide) -> bool
    ensures { result ≡ is_across beginning end }
{
    !matches!(
        (beginning, end),
        (PageSide::Above, PageSide::Above) | (PageSide::Below, PageSide::Below)
    )
}

/// Whether something of an arrow is on the page: an end, or one end on each side of it.
fn is_here(arrow: &Arrow, sheet: Sheet) -> bool
    ensures { result ≡ is_here (page_in sheet.entry) arrow.now }
{
    match (sheet.side(arrow.beginning()), arrow.end()) {
        (PageSide::Here, _) => true,
        (_, None) => false,
        (side, Some(event)) => is_across(side, sheet.side(event)),
    }
}

/// Puts an arrow between the processes of these pids, with its kind, its processes and its end in words, if something
/// of it is on the page.
fn put_arrow(
    svg: &mut ChartSvg,
    arrow: &Arrow,
    from: u32,
    to: u32,
    sheet: Sheet,
) -> Result<(), NoMemory>
    ensures drawn { OnOk result (DrawsInChart [] svg.old svg.new) }
    ensures line { OnOk result (is_here (page_in sheet.entry) arrow.now ≡ true
        → Holds (line_of (page_in sheet.entry) arrow.now) svg.old svg.new) }
{
    if !is_here(arrow, sheet) {
        return Ok(());
    }
    let (class, words) = end_in_words(arrow.reach);
    let (_, choice) = choice_in_words(arrow.chosen);
    put_opening(svg, arrow, class)?;
    svg.title(&[
        Phrase(arrow.kind.word()),
        Phrase(" from "),
        Pid(from),
        Phrase(" to "),
        Pid(to),
        Phrase(words),
        Phrase(choice),
    ])?;
    put_path(svg, beginning(arrow, sheet), end(arrow, sheet))?;
    svg.close_group()
}

/// Puts a signal that has both of its columns.
fn put_signal(
    svg: &mut ChartSvg,
    arrow: &Arrow,
    columns: &[Column],
    sheet: Sheet,
) -> Result<(), NoMemory>
    ensures drawn { OnOk result (DrawsInChart [] svg.old svg.new) }
    ensures line { OnOk result (arrow.now.from < length columns.now → arrow.now.to < length columns.now
        → is_here (page_in sheet.entry) arrow.now ≡ true
        → Holds (line_of (page_in sheet.entry) arrow.now) svg.old svg.new) }
{
    let (from, to) = (arrow.from, arrow.to);
    if from >= columns.len() {
        return Ok(());
    }
    if to >= columns.len() {
        return Ok(());
    }
    put_arrow(svg, arrow, columns[from].pid, columns[to].pid, sheet)
}

/// Puts all signals that have both of their columns.
pub(crate) fn put_arrows(
    svg: &mut ChartSvg,
    arrows: &[Arrow],
    columns: &[Column],
    sheet: Sheet,
) -> Result<(), NoMemory>
    ensures drawn { OnOk result (DrawsInChart [] svg.old svg.new) }
    ensures lines { OnOk result (HaveLines (page_in sheet.entry) (length columns.now) arrows.now svg.old svg.new) }
{
    for arrow in arrows {
        put_signal(svg, arrow, columns, sheet)?;
    }
    Ok(())
}
