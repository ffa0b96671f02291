//! The processes of a run, a column each.

ghost use Rattle.std.specs.Prelude.{◌≡◌, ◌≢◌, ◌<◌, ◌++◌, All, IfOk, IfSome, None, OnOk, length, map, option_map};
ghost use Rattle.std.specs.Prelude.{option_to_list};
ghost use Rattle.std.specs.List.{HoldsAt};
ghost use Rattle.std.specs.List.Sorted.{IsNonDecreasingBy, IsPermutation};
ghost use Rattle.pf_model.specs.Reports.{view_of_event, label_of, view_of_report};
ghost use Rattle.pf_model.specs.declared.report.Actor.TheVariants as actors;
ghost use Rattle.pf_chart.specs.Processes.{child_in, processes_of, spawned_by};
ghost use Rattle.pf_chart.specs.Origins.{AreAlike, SameProcesses, process_of};

use pf_errors::NoMemory;
use pf_model::report::{Actor, Event, Label, Outcome, Report};
use std::alloc::Global;

/// A process: who spawned it and in which row, where it ended, and where it began to wait at last.
#[derive(Drop)]
pub(crate) struct Column {
    pub(crate) pid: u32,
    /// The pid of who spawned it, and the row; none for the root.
    pub(crate) spawned: Option<(u32, usize)>,
    pub(crate) ended: Option<usize>,
    pub(crate) waits: Option<usize>,
    pub(crate) deadlocked: bool,
    /// It ended with another reason than `normal`.
    pub(crate) failed: bool,
}

fn made_column(pid: u32, spawned: Option<(u32, usize)>) -> Column
    ensures pid { result.pid ≡ pid }
    ensures spawned { result.spawned ≡ spawned }
{
    Column {
        pid,
        spawned,
        ended: None,
        waits: None,
        deadlocked: false,
        failed: false,
    }
}

/// Which column a process has; columns are by rising pid.
pub(crate) fn column_of(columns: &[Column], pid: u32) -> Option<usize>
    ensures found { IfSome result (λ i. (i < length columns.now) × HoldsAt (λ c. c.pid ≡ pid) columns.now i) }
    ensures missing { result ≡ None → IsNonDecreasingBy (λ c. c.pid) columns.now → All (λ c. c.pid ≢ pid) columns.now }
{
    columns.binary_search_by_key(&pid, |column| column.pid).ok()
}

/// Who is spawned in an event of this label.
fn child_of(label: &Label) -> Option<u32>
    ensures { result ≡ child_in (label_of label.now) }
{
    match label {
        Label::Spawns { pid, .. } | Label::SpawnsWatched { pid, .. } => Some(*pid),
        _ => None,
    }
}

/// The process that this one spawns in an event, if it does.
fn child_column(parent: u32, child: Option<u32>, row: usize) -> Option<Column>
    ensures { option_map process_of result ≡ spawned_by (actors.Process parent) child row }
{
    match child {
        Some(pid) => Some(made_column(pid, Some((parent, row)))),
        None => None,
    }
}

/// The process that an event spawns, if it does.
fn spawned_by(event: &Event, row: usize) -> Option<Column>
    ensures { option_map process_of result
        ≡ spawned_by event.now.actor (child_in (label_of event.now.label)) row }
{
    match event.actor {
        Actor::Process(parent) => child_column(parent, child_of(&event.label), row),
        Actor::Channel { .. } => None,
    }
}

/// Puts a column at the end, if there is one.
fn put(columns: &mut Vec<Column>, column: Option<Column>) -> Result<(), NoMemory>
    ensures { OnOk result (columns.new.items ≡ columns.old.items ++ option_to_list column) }
{
    if let Some(column) = column {
        columns.push(column)?;
    }
    Ok(())
}

/// The root and all that were spawned, in the order of the events.
fn spawned_in(alloc: Global, events: &[Event]) -> Result<Vec<Column>, NoMemory>
    ensures { IfOk result (λ v. map process_of v.items ≡ processes_of (map view_of_event events.now)) }
{
    let mut columns = Vec::new(alloc);
    columns.push(made_column(0, None))?;
    for (row, event) in events.iter().enumerate() {
        put(&mut columns, spawned_by(event, row))?;
    }
    Ok(columns)
}

/// The process of a column ends in this row, by an error or not.
pub(crate) fn end_in(columns: &mut Vec<Column>, index: usize, row: usize, failed: bool)
    ensures { AreAlike columns.old.items columns.new.items }
{
    if index < columns.len() {
        columns[index].ended = Some(row);
        columns[index].failed = failed;
    }
}

/// The process of a column waits from this row on.
pub(crate) fn wait_in(columns: &mut Vec<Column>, index: usize, row: usize)
    ensures { AreAlike columns.old.items columns.new.items }
{
    if index < columns.len() {
        columns[index].waits = Some(row);
    }
}

/// The process of a column is in a deadlock.
fn mark(columns: &mut Vec<Column>, index: usize)
    ensures { AreAlike columns.old.items columns.new.items }
{
    if index < columns.len() {
        columns[index].deadlocked = true;
    }
}

fn mark_deadlocked(columns: &mut Vec<Column>, pids: &[u32])
    ensures { SameProcesses columns.old.items columns.new.items }
{
    for pid in pids {
        let index = column_of(columns, *pid).unwrap_or(columns.len());
        mark(columns, index);
    }
}

/// Marks who waits in a deadlock, if it is one.
fn mark_outcome(columns: &mut Vec<Column>, outcome: &Outcome)
    ensures { SameProcesses columns.old.items columns.new.items }
{
    if let Outcome::Deadlock(pids) = outcome {
        mark_deadlocked(columns, pids);
    }
}

/// The columns of a report, by pid.
pub(crate) fn columns_of(alloc: Global, report: &Report) -> Result<Vec<Column>, NoMemory>
    ensures all { IfOk result (λ v. IsPermutation (processes_of (view_of_report report.now).events)
        (map process_of v.items)) }
    ensures by_pid { IfOk result (λ v. IsNonDecreasingBy (λ p. p.pid) (map process_of v.items)) }
{
    let mut columns = spawned_in(alloc, &report.events)?;
    columns.sort_unstable_by_key(|column| column.pid);
    mark_outcome(&mut columns, &report.outcome);
    Ok(columns)
}
