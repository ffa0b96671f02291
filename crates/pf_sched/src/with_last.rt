//! Runs by schedules where a process goes last, with the choices that are made.

ghost use Rattle.std.specs.Prelude.{[], IfOk, List, Some, ℕ};
ghost use Rattle.pf_model.specs.Meaning as model;
ghost use Rattle.pf_model.specs.Reports.{view_of_report};
ghost use Rattle.pf_strategy.specs.Noted.{MakesChoices};
ghost use Rattle.pf_sched.specs.Choosing as choosing;
ghost use Rattle.pf_sched.specs.Parts.{Executes};
ghost use Rattle.pf_sched.specs.Traces.{IsFirst};

use crate::choices::of_schedule;
use crate::chooser::ActorChooser;
use crate::execution::Execution;
use crate::job::Job;
use crate::last::{LastChooser, Sampler};
use crate::noted::NotedChoices;
use crate::scratch::Scratch;
use crate::whole::report_of_events;
use pf_errors::NoMemory;
use pf_model::report::Report;
use pf_strategy::ChoicePoint;
use std::alloc::Global;

/// The report of a run where a process goes last, and the choices that were made: each among the others, or among all
/// where there were none.
#[derive(Drop)]
pub struct NotedRun {
    pub report: Report,
    pub points: Vec<ChoicePoint>,
}

/// What chooses by a schedule where a process goes last, and notes its choices.
fn noting_chooser(alloc: Global, last: u32, schedule: &[u32]) -> Result<ActorChooser, NoMemory>
    ensures { IfOk result (λ q. IsFirst (choosing.last last (choosing.noted (model.schedule schedule.now))) q) }
{
    let noted = NotedChoices::new(alloc, of_schedule(alloc, schedule)?);
    Ok(ActorChooser::Last(LastChooser::new(alloc, last, Sampler::Noted(noted))))
}

/// The report of a run from its first event on, and the choices that were made.
fn noted_to_end(alloc: Global, job: &Job, execution: &mut Execution) -> Result<NotedRun, NoMemory>
    requires { (p : ℕ) × (ns : List ℕ)
        × Executes job.now (choosing.last p (choosing.noted (model.schedule ns))) [] execution.old }
    ensures { IfOk result (λ n. (p : ℕ) (ns : List ℕ)
        → Executes job.now (choosing.last p (choosing.noted (model.schedule ns))) [] execution.old
        → MakesChoices (Some p) job.now.asked ns n.points.items (view_of_report n.report)) }
{
    let mut events = Vec::new(alloc);
    execution.complete(alloc, job, &mut events)?;
    let report = report_of_events(alloc, job, &execution.system, events)?;
    let points = execution.chooser.take_points(alloc);
    Ok(NotedRun { report, points })
}

/// The report of the run of a job by a schedule in place of the job's own choices, where a process goes last: each
/// number chooses among the others, or among all where there are none. What is in the scratch makes no difference.
pub fn noted_run(
    alloc: Global,
    job: &Job,
    last: u32,
    schedule: &[u32],
    scratch: &mut Scratch,
) -> Result<NotedRun, NoMemory>
    ensures { IfOk result (λ n.
        MakesChoices (Some last) job.now.asked schedule.now n.points.items (view_of_report n.report)) }
{
    let chooser = noting_chooser(alloc, last, schedule)?;
    let mut execution = Execution::new(alloc, job, chooser, scratch.take_spare(alloc))?;
    let noted = noted_to_end(alloc, job, &mut execution);
    scratch.put_spare(execution.system.into_spare());
    noted
}
