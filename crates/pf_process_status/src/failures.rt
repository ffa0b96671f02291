//! Where processes failed.

ghost use Rattle.std.specs.Prelude.{◌≡◌, ◌==◌, [], ℕ, Option, None, Some, if◌then◌else◌, IfOk, OnOk, length};
ghost use Rattle.pf_model.specs.Limits.{IsEdition};
ghost use Rattle.pf_model.specs.Reports.{view_of_event};
ghost use Rattle.pf_process_status.specs.Known.{events_of};
ghost use Rattle.pf_process_status.specs.Noted.{AreMade, IsMade, IsNoted, failed_from, last_point};

use crate::ends::{failed_in, raised_in};
use crate::follow::{chosen, go, point_of};
use crate::known::KnownRun;
use pf_errors::NoMemory;
use pf_model::report::{Actor, Event, Label};
use pf_stepper::Point;
use pf_system::System;
use std::alloc::Global;

/// A point, or the one before it where this is nowhere: a call whose last argument was just worked out has no node of
/// its own then.
fn placed(point: Option<Point>, before: Option<Point>) -> Option<Point> {
    match (point, before) {
        (Some(Point::Nowhere), Some(before)) => Some(before),
        _ => point,
    }
}

/// Makes a turn step by step: the point before its last step.
fn last_point(
    alloc: Global,
    system: &mut System,
    choice: u32,
    limit: u32,
) -> Result<Option<Point>, NoMemory> {
    let mut last = None;
    let mut shown = Label::Waits;
    for _ in system.steps()..limit {
        let Some(Actor::Process(pid)) = chosen(system, choice) else {
            return Ok(last);
        };
        last = placed(point_of(system, pid), last);
        let steps = system.steps();
        if steps >= limit {
            return Ok(last);
        }
        system.turn(alloc, pid, steps + 1, &mut shown)?;
        if !matches!(shown, Label::Cut) {
            return Ok(last);
        }
    }
    Ok(last)
}

/// A process that failed, or whose action raised, in which event, and the point at which it was then.
#[derive(Clone, Copy, Debug, PartialEq, Eq)]
pub(crate) struct FailedProcess {
    pub pid: u32,
    pub event: usize,
    pub point: Option<Point>,
}

/// The point of a note if it is of this process, or else the one before it.
fn later(last: Option<Point>, failure: FailedProcess, pid: u32) -> Option<Point>
    ensures { result ≡ (if failure.pid == pid then failure.point else last) }
{
    if failure.pid == pid {
        failure.point
    } else {
        last
    }
}

/// The point of the last action of a process that raised.
fn last_raised(raised: &[FailedProcess], pid: u32) -> Option<Point>
    ensures { result ≡ last_point pid raised.now }
{
    let mut last = None;
    for failure in raised {
        last = later(last, *failure, pid);
    }
    last
}

/// Where a process failed whose last step was here: where its last action raised, if this is nowhere.
fn failed_at(raised: &[FailedProcess], pid: u32, point: Point) -> Option<Point>
    ensures { result ≡ failed_from raised.now pid (Some point) }
{
    match point {
        Point::Nowhere => last_raised(raised, pid),
        Point::Before(_) | Point::Within(..) | Point::Calls(_) => Some(point),
    }
}

/// The same of one whose last step may not be known.
fn failed_from(raised: &[FailedProcess], pid: u32, point: Option<Point>) -> Option<Point>
    ensures { result ≡ failed_from raised.now pid point }
{
    match point {
        Some(point) => failed_at(raised, pid, point),
        None => None,
    }
}

/// Who failed in a run, whose actions raised, in which events, and where.
#[derive(Drop)]
pub(crate) struct Notes {
    pub failed: Vec<FailedProcess>,
    raised: Vec<FailedProcess>,
}

/// Whether the point before the last step of an event is asked for: its action raised, or a process failed in it.
fn asks_point(event: &Event) -> bool {
    raised_in(event).is_some() || failed_in(event).is_some()
}

/// How many events have to be made again: up to and with the last of which the point is asked for.
fn events_to_make(events: &[Event]) -> usize {
    let mut count = 0;
    for event in 0..events.len() {
        if asks_point(&events[event]) {
            count = event.saturating_add(1);
        }
    }
    count
}

/// A run that is made again, and how many of its events are: nothing is asked of those after them.
#[derive(Drop)]
struct RemadeRun {
    system: System,
    events: usize,
}

/// Makes an event again, if that has to be: the point before its last step, if it is asked for.
fn made(
    alloc: Global,
    run: &KnownRun,
    again: &mut RemadeRun,
    event: usize,
    reported: &Event,
) -> Result<Option<Point>, NoMemory> {
    if event >= again.events {
        return Ok(None);
    }
    let system = &mut again.system;
    if asks_point(reported) {
        return last_point(alloc, system, reported.choice, run.limit);
    }
    let mut shown = Label::Waits;
    go(alloc, system, reported.choice, run.limit, &mut shown)?;
    Ok(None)
}

impl Notes {
    /// Notes whose action raised in an event whose last step was here.
    fn note_raise(&mut self, pid: u32, event: usize, point: Option<Point>) -> Result<(), NoMemory>
        ensures { (failing : Option ℕ) → OnOk result (IsNoted event (Some pid) failing point self.old self.new) }
    {
        self.raised.push(FailedProcess { pid, event, point })?;
        Ok(())
    }

    /// Notes who failed in an event whose last step was here. One that an action's raise ends is where it asked for the
    /// action.
    fn note_failure(&mut self, pid: u32, event: usize, point: Option<Point>) -> Result<(), NoMemory>
        ensures { OnOk result (IsNoted event None (Some pid) point self.old self.new) }
    {
        let point = failed_from(self.raised.as_slice(), pid, point);
        self.failed.push(FailedProcess { pid, event, point })?;
        Ok(())
    }

    /// Notes an event in which no action raised: who failed, if somebody did.
    fn note_end(
        &mut self,
        event: usize,
        failing: Option<u32>,
        point: Option<Point>,
    ) -> Result<(), NoMemory>
        ensures { OnOk result (IsNoted event None failing point self.old self.new) }
    {
        match failing {
            Some(pid) => self.note_failure(pid, event, point),
            None => Ok(()),
        }
    }

    /// Notes an event whose last step was here: whose action raised in it, or else who failed.
    fn note(
        &mut self,
        event: usize,
        raising: Option<u32>,
        failing: Option<u32>,
        point: Option<Point>,
    ) -> Result<(), NoMemory>
        ensures { OnOk result (IsNoted event raising failing point self.old self.new) }
    {
        match raising {
            Some(pid) => self.note_raise(pid, event, point),
            None => self.note_end(event, failing, point),
        }
    }

    /// Makes an event again and notes who failed in it, or whose action raised.
    fn make(
        &mut self,
        alloc: Global,
        run: &KnownRun,
        again: &mut RemadeRun,
        event: usize,
        reported: &Event,
    ) -> Result<(), NoMemory>
        ensures { OnOk result (IsMade event (view_of_event reported.now) self.old self.new) }
    {
        let raising = raised_in(reported);
        let failing = failed_in(reported);
        let point = made(alloc, run, again, event, reported)?;
        self.note(event, raising, failing, point)
    }

    /// Makes those events of a run again that have to be, and notes who failed in them.
    fn make_all(
        &mut self,
        alloc: Global,
        run: &KnownRun,
        again: &mut RemadeRun,
    ) -> Result<(), NoMemory>
        requires failed { self.old.failed.items ≡ [] }
        requires raised { self.old.raised.items ≡ [] }
        ensures { OnOk result (AreMade (events_of run.now) (length (events_of run.now)) self.new) }
    {
        for event in 0..run.events.len() {
            self.make(alloc, run, again, event, &run.events[event])?;
        }
        Ok(())
    }
}

/// Makes a run again up to where the last process failed or action raised: who failed in it, and where.
pub(crate) fn failures(alloc: Global, run: &KnownRun) -> Result<Notes, NoMemory>
    requires { IsEdition run.now.edition }
    ensures { IfOk result (λ notes. AreMade (events_of run.now) (length (events_of run.now)) notes) }
{
    let mut again = RemadeRun {
        system: System::new(alloc, run.module, run.root, run.edition)?,
        events: events_to_make(run.events),
    };
    let mut notes = Notes {
        failed: Vec::new(alloc),
        raised: Vec::new(alloc),
    };
    notes.make_all(alloc, run, &mut again)?;
    Ok(notes)
}
