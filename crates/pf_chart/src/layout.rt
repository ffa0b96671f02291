//! What is drawn of a report beside its events: a column for each process, and an arrow for each signal.

ghost use Rattle.std.specs.Prelude.{◌≡◌, ◌+◌, IfOk, List, OnOk, Some, map, option_map, slice_get};
ghost use Rattle.std.specs.List.Sorted.{IsPermutation};
ghost use Rattle.pf_model.specs.Meaning as meaning;
ghost use Rattle.pf_model.specs.Reports.{view_of_event, label_of, view_of_report, suffix_of};
ghost use Rattle.pf_model.specs.Signals.{signal_of};
ghost use Rattle.pf_chart.specs.Laid.{IsCarried, IsLaid, IsLayout, delivery_in, other_in};
ghost use Rattle.pf_chart.specs.Origins.{SameProcesses, process_of};
ghost use Rattle.pf_chart.specs.Processes.{processes_of};
ghost use Rattle.pf_chart.specs.Signals.{AreJoined, IsJoinedBy, IsManner, receipt_at};
ghost use Rattle.pf_chart.specs.Traffic.{Sends};

use crate::arrows::{Arrow, ArrowEnd, SignalKind};
use crate::columns::{Column, column_of, columns_of, end_in, wait_in};
use crate::marks::is_crash;
use crate::receipts::receipts_of;
use crate::traffic::Traffic;
use pf_errors::NoMemory;
use pf_model::Signal;
use pf_model::report::{Actor, Event, Label, Report, Suffix};
use std::alloc::Global;

/// What is drawn of the events that were read so far.
#[derive(Drop)]
pub(crate) struct Layout {
    pub(crate) columns: Vec<Column>,
    pub(crate) traffic: Traffic,
}

/// Who else takes part in a turn that has this label.
fn other_of(label: &Label) -> Option<u32>
    ensures { result ≡ other_in (label_of label.now) }
{
    match label {
        Label::Sends { to, .. } => Some(*to),
        Label::Exits { pid, .. }
        | Label::Spawns { pid, .. }
        | Label::SpawnsWatched { pid, .. }
        | Label::Links(pid)
        | Label::Unlinks(pid)
        | Label::Monitors { pid, .. } => Some(*pid),
        _ => None,
    }
}

/// The signal that an event of this label delivers, with its suffix.
fn delivery_in(label: &Label) -> Option<(&Signal, &Suffix)>
    ensures { option_map (λ d. (signal_of d.0.now, suffix_of d.1.now)) result ≡ delivery_in (label_of label.now) }
{
    match label {
        Label::Delivers(signal, suffix) => Some((signal, suffix)),
        _ => None,
    }
}

impl Layout {
    fn end(&mut self, alloc: Global, row: usize, a: usize, label: &Label) -> Result<(), NoMemory>
        ensures processes { SameProcesses self.old.columns.items self.new.columns.items }
        ensures sends { OnOk result (Sends row a self.old.traffic self.new.traffic) }
    {
        end_in(&mut self.columns, a, row, is_crash(label));
        self.traffic.end(alloc, row, a)
    }

    fn wait(&mut self, row: usize, a: usize)
        ensures processes { SameProcesses self.old.columns.items self.new.columns.items }
        ensures traffic { self.new.traffic ≡ self.old.traffic }
    {
        wait_in(&mut self.columns, a, row);
    }

    /// What a process does to another, if that is there.
    fn act(&mut self, row: usize, a: usize, label: &Label) -> Result<(), NoMemory>
        ensures processes { SameProcesses self.old.columns.items self.new.columns.items }
        ensures sends { OnOk result (Sends row a self.old.traffic self.new.traffic) }
    {
        let Some(pid) = other_of(label) else {
            return Ok(());
        };
        match column_of(&self.columns, pid) {
            Some(b) => self.traffic.act(row, a, b, label),
            None => Ok(()),
        }
    }

    /// A turn of a process.
    fn turn(&mut self, alloc: Global, row: usize, a: usize, label: &Label) -> Result<(), NoMemory>
        ensures processes { SameProcesses self.old.columns.items self.new.columns.items }
        ensures sends { OnOk result (Sends row a self.old.traffic self.new.traffic) }
    {
        match label {
            Label::Demonitors { reference, .. } => self.traffic.demonitor(row, a, *reference),
            Label::Ends(_) => self.end(alloc, row, a, label),
            Label::Waits => {
                self.wait(row, a);
                Ok(())
            }
            _ => self.act(row, a, label),
        }
    }

    /// What a delivery ends.
    fn end_by(&mut self, alloc: Global, row: usize, a: usize, label: &Label) -> Result<(), NoMemory>
        ensures processes { SameProcesses self.old.columns.items self.new.columns.items }
        ensures sends { OnOk result (Sends row a self.old.traffic self.new.traffic) }
    {
        match label {
            Label::Delivers(_, Suffix::EndingWith(_)) => self.end(alloc, row, a, label),
            _ => Ok(()),
        }
    }

    /// A delivery from one process to another.
    fn delivery(
        &mut self,
        alloc: Global,
        row: usize,
        a: usize,
        b: usize,
        label: &Label,
    ) -> Result<(), NoMemory>
        ensures processes { SameProcesses self.old.columns.items self.new.columns.items }
        ensures carried { OnOk result (IsCarried row a b (delivery_in (label_of label.now)) self.old.traffic
            self.new.traffic) }
    {
        let Some((signal, suffix)) = delivery_in(label) else {
            return Ok(());
        };
        self.traffic.deliver(row, a, b, signal, suffix)?;
        self.end_by(alloc, row, b, label)
    }

    /// An event, if its processes are there.
    fn event(&mut self, alloc: Global, row: usize, event: &Event) -> Result<(), NoMemory>
        ensures processes { SameProcesses self.old.columns.items self.new.columns.items }
        ensures laid { OnOk result ((es : List meaning.Event) → slice_get es row ≡ Some (view_of_event event.now)
            → IsLaid es row self.old → IsLaid es (row + 1) self.new) }
    {
        match event.actor {
            Actor::Process(pid) => match column_of(&self.columns, pid) {
                Some(a) => self.turn(alloc, row, a, &event.label),
                None => Ok(()),
            },
            Actor::Channel { from, to } => {
                match (column_of(&self.columns, from), column_of(&self.columns, to)) {
                    (Some(a), Some(b)) => self.delivery(alloc, row, a, b, &event.label),
                    _ => Ok(()),
                }
            }
        }
    }
}

/// Whether an event was a choice above 0.
fn is_chosen(events: &[Event], index: usize) -> bool {
    events.get(index).is_some_and(|event| event.choice > 0)
}

/// What a message that was delivered in an event becomes in a compact chart.
fn receipt_of(receipts: &[Option<usize>], delivery: usize) -> ArrowEnd
    ensures { result ≡ receipt_at receipts.now delivery }
{
    match receipts.get(delivery) {
        Some(Some(row)) => ArrowEnd::Received(*row),
        _ => ArrowEnd::Unread,
    }
}

/// An arrow of a compact chart: a message that came into a mailbox goes on to the event that takes it.
fn joined(arrow: Arrow, events: &[Event], receipts: &[Option<usize>]) -> Arrow
    ensures { IsJoinedBy receipts.now arrow.kind arrow.reach arrow result }
{
    match (arrow.kind, arrow.reach) {
        (SignalKind::Message, ArrowEnd::Taken(delivery)) => Arrow {
            reach: receipt_of(receipts, delivery),
            chosen: is_chosen(events, delivery),
            ..arrow
        },
        _ => arrow,
    }
}

/// Has each message that comes into a mailbox go on to the event that takes it.
fn join_receipts(
    alloc: Global,
    arrows: &mut Vec<Arrow>,
    events: &[Event],
    columns: &[Column],
) -> Result<(), NoMemory>
    ensures { OnOk result (AreJoined (map view_of_event events.now) arrows.old.items arrows.new.items) }
{
    let receipts = receipts_of(alloc, events, columns)?;
    for index in 0..arrows.len() {
        arrows[index] = joined(arrows[index], events, &receipts);
    }
    Ok(())
}

/// Has the messages of a compact chart go on to the events that take them.
fn in_manner(
    alloc: Global,
    layout: &mut Layout,
    events: &[Event],
    compact: bool,
) -> Result<(), NoMemory>
    ensures columns { layout.new.columns ≡ layout.old.columns }
    ensures manner { OnOk result (IsManner (map view_of_event events.now) compact layout.old.traffic.arrows.items
        layout.new.traffic.arrows.items) }
{
    if !compact {
        return Ok(());
    }
    let Layout { columns, traffic } = layout;
    join_receipts(alloc, &mut traffic.arrows, events, columns)
}

/// What is drawn of a report, in a compact chart or in another.
pub(crate) fn layout_of(alloc: Global, report: &Report, compact: bool) -> Result<Layout, NoMemory>
    ensures processes { IfOk result (λ l. IsPermutation (processes_of (view_of_report report.now).events)
        (map process_of l.columns.items)) }
    ensures laid { IfOk result (IsLayout (view_of_report report.now).events compact) }
{
    let columns = columns_of(alloc, report)?;
    let traffic = Traffic::new(alloc, columns.len())?;
    let mut layout = Layout { columns, traffic };
    for (row, event) in report.events.iter().enumerate() {
        layout.event(alloc, row, event)?;
    }
    in_manner(alloc, &mut layout, &report.events, compact)?;
    Ok(layout)
}
