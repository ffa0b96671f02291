//! The runs of a job by its schedules.

ghost use Rattle.std.specs.Prelude.{◌≡◌, IfOk, None, Some, map};
ghost use Rattle.pf_model.specs.Reports.{view_of_event, view_of_report};
ghost use Rattle.pf_strategy.specs.Noted.{MakesChoices};
ghost use Rattle.pf_explore_laws.specs.Parting.{point_of};

use pf_errors::NoMemory;
use pf_explore::{MadeRun, ScheduledRuns};
use pf_model::report::Event;
use pf_sched::{Job, NotedRun, Scratch, noted_run, report_by_schedule};
use pf_strategy::ChoicePoint;
use std::alloc::Global;

/// A job, the process that goes last in its runs, if one is named, and what they leave for the next.
#[derive(Drop)]
pub(crate) struct JobRuns<'a> {
    pub job: &'a Job,
    pub last: Option<u32>,
    pub scratch: Scratch,
}

/// The choices of events, each among all who might go.
fn points_of(alloc: Global, events: &[Event]) -> Result<Vec<ChoicePoint>, NoMemory>
    ensures { IfOk result (λ points. points.items ≡ map (λ e. point_of (view_of_event e)) events.now) }
{
    let mut points = Vec::with_capacity(alloc, events.len())?;
    for event in events {
        points.push(ChoicePoint {
            choice: event.choice,
            count: event.count,
        })?;
    }
    Ok(points)
}

/// The run by a schedule where no process goes last.
fn free_run(
    alloc: Global,
    job: &Job,
    schedule: &[u32],
    scratch: &mut Scratch,
) -> Result<MadeRun, NoMemory>
    ensures { IfOk result (λ m. MakesChoices None job.now.asked schedule.now m.points.items
        (view_of_report m.report)) }
{
    let report = report_by_schedule(alloc, job, schedule, scratch)?;
    let points = points_of(alloc, report.events.as_slice())?;
    Ok(MadeRun { report, points })
}

/// The run by a schedule where this process goes last.
fn run_with_last(
    alloc: Global,
    job: &Job,
    last: u32,
    schedule: &[u32],
    scratch: &mut Scratch,
) -> Result<MadeRun, NoMemory>
    ensures { IfOk result (λ m. MakesChoices (Some last) job.now.asked schedule.now m.points.items
        (view_of_report m.report)) }
{
    let NotedRun { report, points } = noted_run(alloc, job, last, schedule, scratch)?;
    Ok(MadeRun { report, points })
}

impl ScheduledRuns for JobRuns<'_> {
    ghost use Rattle.pf_explore.specs.Asked.{with_last};

    ghost asked = { λ runs. with_last runs.last runs.job.now.asked };

    fn run(&mut self, alloc: Global, schedule: &[u32]) -> Result<MadeRun, NoMemory> {
        match self.last {
            Some(last) => run_with_last(alloc, self.job, last, schedule, &mut self.scratch),
            None => free_run(alloc, self.job, schedule, &mut self.scratch),
        }
    }
}
