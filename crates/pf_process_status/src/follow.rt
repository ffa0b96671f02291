//! A run that is made again by the choices of its events.

ghost use Rattle.std.specs.Prelude.{◌≡◌, [], false, IfOk, IfSome, MatchOption, OnOk, slice_get};
ghost use Rattle.pf_model.specs.Configuration.{Configuration, is_alive, of};
ghost use Rattle.pf_model.specs.Limits.{IsEdition};
ghost use Rattle.pf_model.specs.Reports.{label_of};
ghost use Rattle.pf_model.specs.Runs.{enabled};
ghost use Rattle.pf_system.specs.Steps.{Begins, MayGo, Represents};
ghost use Rattle.pf_process_status.specs.Fates.{IsCalled, IsNoCall, IsAtPoint, begun_in};
ghost use Rattle.pf_process_status.specs.Followed.{HasGone, IsFollowed};
ghost use Rattle.pf_process_status.specs.Known.{RunLeadsTo, checked_of};

use crate::known::KnownRun;
use pf_errors::NoMemory;
use pf_model::report::{Actor, Label};
use pf_stepper::Point;
use pf_syntax::FunctionId;
use pf_system::System;
use std::alloc::Global;

/// The actor at the index of a choice among those who may go.
pub(crate) fn chosen(system: &System, choice: u32) -> Option<Actor>
    ensures may_go { IfSome result (λ actor. MayGo actor system.now) }
    ensures chosen { (c : Configuration) → Represents system.now c
        → result ≡ slice_get (enabled c) choice }
{
    let enabled = system.enabled();
    let index = choice as usize;
    if index < enabled.len() {
        Some(enabled.actor(index))
    } else {
        None
    }
}

/// The actor at the index of a choice goes, if there is one and steps are left; whether it did. What it shows is
/// written.
pub(crate) fn go(
    alloc: Global,
    system: &mut System,
    choice: u32,
    limit: u32,
    shown: &mut Label,
) -> Result<bool, NoMemory>
    ensures { IfOk result (λ went. (c : Configuration) → Represents system.old c
        → HasGone limit choice c system.old (label_of shown.new) system.new went) }
{
    if system.steps() >= limit {
        return Ok(false);
    }
    match chosen(system, choice) {
        Some(actor) => {
            system.pass(alloc, actor, limit, shown)?;
            Ok(true)
        }
        None => Ok(false),
    }
}

/// Where a process is; none where it has ended.
pub(crate) fn point_of(system: &System, pid: u32) -> Option<Point>
    ensures { (c : Configuration) → Represents system.now c
        → MatchOption result (is_alive (of c.core pid).state ≡ false)
        (IsAtPoint system.now.checked (of c.core pid).state) }
{
    let (_module, point) = system.point(pid)?;
    Some(point)
}

/// The function that is called at a point.
fn called_at(point: Point) -> Option<FunctionId>
    ensures { MatchOption result (IsNoCall point) (λ f. point ≡ Point.Calls f) }
{
    match point {
        Point::Calls(function) => Some(function),
        Point::Before(_) | Point::Within(..) | Point::Nowhere => None,
    }
}

/// The function in whose call a process is that only begins.
fn called(system: &System, pid: u32) -> Option<FunctionId>
    ensures { (c : Configuration) → Represents system.now c
        → IsCalled system.now.checked (of c.core pid).state result }
{
    match point_of(system, pid) {
        Some(point) => called_at(point),
        None => None,
    }
}

/// The process that began, by a label.
fn begun_in(label: &Label) -> Option<u32>
    ensures { result ≡ begun_in (label_of label.now) }
{
    match label {
        Label::Spawns { pid, .. } | Label::SpawnsWatched { pid, .. } => Some(*pid),
        _ => None,
    }
}

/// A process that began, and the function in whose call it did.
#[derive(Clone, Copy, Debug, PartialEq, Eq)]
pub(crate) struct Begun {
    pub pid: u32,
    pub function: Option<FunctionId>,
}

/// A run after its last event, and its processes, by pid.
#[derive(Drop)]
pub(crate) struct Followed {
    pub system: System,
    pub begun: Vec<Begun>,
}

impl Followed {
    /// Makes the events of a run.
    fn go_through(&mut self, alloc: Global, run: &KnownRun) -> Result<(), NoMemory>
        requires system { Begins (checked_of run.now) run.now.root.0 run.now.edition self.old.system }
        requires none { self.old.begun.items ≡ [] }
        ensures { OnOk result ((d : Configuration) → RunLeadsTo run.now d → IsFollowed run.now d self.new) }
    {
        self.begun.push(Begun {
            pid: 0,
            function: Some(run.root),
        })?;
        let mut shown = Label::Waits;
        for event in run.events {
            if !go(alloc, &mut self.system, event.choice, run.limit, &mut shown)? {
                return Ok(());
            }
            if let Some(pid) = begun_in(&shown) {
                let function = called(&self.system, pid);
                self.begun.push(Begun { pid, function })?;
            }
        }
        Ok(())
    }
}

/// Makes a run again.
pub(crate) fn follow(alloc: Global, run: &KnownRun) -> Result<Followed, NoMemory>
    requires { IsEdition run.now.edition }
    ensures { IfOk result (λ f. (d : Configuration) → RunLeadsTo run.now d → IsFollowed run.now d f) }
{
    let mut followed = Followed {
        system: System::new(alloc, run.module, run.root, run.edition)?,
        begun: Vec::new(alloc),
    };
    followed.go_through(alloc, run)?;
    Ok(followed)
}
