//! Runs made to their end at once: with their events, or without.

ghost use Rattle.std.specs.Prelude.{◌≡◌, ◌≤◌, [], zero, IfOk, IsNone, List, length, map};
ghost use Rattle.pf_model.specs.Meaning as model;
ghost use Rattle.pf_model.specs.Meaning.{Means};
ghost use Rattle.pf_model.specs.Reports.{view_of_event, view_of_report};
ghost use Rattle.pf_model.specs.Shrinking.{by_schedule};
ghost use Rattle.pf_sched.specs.Choosing.{Choosing, MeansFor, choosing_of};
ghost use Rattle.pf_sched.specs.Closing.{ClosesRun};
ghost use Rattle.pf_sched.specs.Evidence.{Shows};
ghost use Rattle.pf_sched.specs.Judging.{IsJudged, Judges};
ghost use Rattle.pf_sched.specs.Parts.{Executes};
ghost use Rattle.pf_sched.specs.Traces.{IsFirst, Makes};

use crate::choices::{of_schedule, open};
use crate::chooser::ActorChooser;
use crate::evidence::Evidence;
use crate::execution::Execution;
use crate::job::Job;
use crate::scratch::Scratch;
use crate::seeded::seeded_chooser;
use crate::trace::SeenEvents;
use pf_choice::Choices;
use pf_errors::NoMemory;
use pf_model::report::{Event, Outcome, Report};
use pf_request::RequestKind;
use pf_strategy::SeedChoice;
use pf_system::{Spare, System};
use std::alloc::Global;

/// How the run of a job ended, and whether its property holds; there is no verdict where memory ran out. How many
/// processes still wait at its end, where its root returned; else none are reported.
#[derive(Drop)]
pub struct Judged {
    pub outcome: Outcome,
    pub verdict: Option<bool>,
    pub waiting: u32,
}

/// The choices of a job that is no shrinking, from the first on.
fn own_choices(alloc: Global, job: &Job) -> Result<Choices, NoMemory>
    requires { job.now.asked.runs ≡ zero }
    ensures { IfOk result (λ q. Makes job.now.asked.choices q) }
{
    match &job.kind {
        RequestKind::Run(choices) => open(alloc, choices),
        RequestKind::Shrink { .. } => unreachable!(),
    }
}

/// What chooses in the run of a job, before its first choice: a seed by its strategy, or else the job's own choices.
fn first_chooser(
    alloc: Global,
    job: &Job,
    by_seed: Option<SeedChoice>,
) -> Result<ActorChooser, NoMemory>
    requires { IsNone by_seed → job.now.asked.runs ≡ zero }
    ensures { IfOk result (λ q. IsFirst (choosing_of by_seed job.now.asked) q) }
{
    match by_seed {
        Some(by) => seeded_chooser(alloc, job, by),
        None => Ok(ActorChooser::Choices(own_choices(alloc, job)?)),
    }
}

/// The run of a job by them, before its first event, in what others left.
pub(crate) fn first_execution(
    alloc: Global,
    job: &Job,
    by_seed: Option<SeedChoice>,
    spare: Spare,
) -> Result<Execution, NoMemory>
    requires { IsNone by_seed → job.now.asked.runs ≡ zero }
    ensures { IfOk result (λ x. Executes job.now (choosing_of by_seed job.now.asked) [] x) }
{
    let chooser = first_chooser(alloc, job, by_seed)?;
    Execution::new(alloc, job, chooser, spare)
}

/// The report of a run that is over, with its events.
pub(crate) fn report_of_events(
    alloc: Global,
    job: &Job,
    system: &System,
    mut events: Vec<Event>,
) -> Result<Report, NoMemory>
    ensures { IfOk result (λ r. ClosesRun job.now (map view_of_event events.items) system.now (view_of_report r)) }
{
    let outcome = system.outcome(alloc)?;
    let steps = system.steps();
    events.shrink_to_fit();
    let verdict = job.property.verdict(events.as_slice(), &outcome);
    Ok(Report {
        events,
        outcome,
        steps,
        verdict,
    })
}

/// How a run that is over ended, by what is kept of its events.
pub(crate) fn judge(
    alloc: Global,
    job: &Job,
    system: &System,
    evidence: Evidence,
) -> Result<Judged, NoMemory>
    ensures { IfOk result (λ v. (es : List model.Event) → length es ≤ job.now.asked.limit
        → Shows job.now.asked.property evidence job.now.asked es
        → (r : model.Report) × ClosesRun job.now es system.now r × IsJudged r v) }
{
    let outcome = system.outcome(alloc)?;
    let verdict = job.property.judge(evidence.ruled_out, &outcome);
    let waiting = evidence.processes.waiting(&outcome);
    Ok(Judged {
        outcome,
        verdict,
        waiting,
    })
}

/// The report of a run, from its first event on, whatever chooses.
fn report_of_execution(
    alloc: Global,
    job: &Job,
    execution: &mut Execution,
) -> Result<Report, NoMemory>
    requires { (w : Choosing) × Executes job.now w [] execution.old }
    ensures { IfOk result (λ r. (w : Choosing) → Executes job.now w [] execution.old
        → MeansFor w job.now.asked (view_of_report r)) }
{
    let mut events = Vec::new(alloc);
    execution.complete(alloc, job, &mut events)?;
    let report = report_of_events(alloc, job, &execution.system, events)?;
    Ok(report)
}

/// The same, of which what is spare then goes into a scratch.
fn report_to_end(
    alloc: Global,
    job: &Job,
    mut execution: Execution,
    scratch: &mut Scratch,
) -> Result<Report, NoMemory>
    requires { (w : Choosing) × Executes job.now w [] execution }
    ensures { IfOk result (λ r. (w : Choosing) → Executes job.now w [] execution
        → MeansFor w job.now.asked (view_of_report r)) }
{
    let report = report_of_execution(alloc, job, &mut execution);
    scratch.put_spare(execution.system.into_spare());
    report
}

/// The report of a job that is one run, by its own choices or by a seed in place of them. What is in the scratch makes
/// no difference.
pub fn report_of_run(
    alloc: Global,
    job: &Job,
    by_seed: Option<SeedChoice>,
    scratch: &mut Scratch,
) -> Result<Report, NoMemory>
    requires { IsNone by_seed → job.now.asked.runs ≡ zero }
    ensures { IfOk result (λ r. MeansFor (choosing_of by_seed job.now.asked) job.now.asked (view_of_report r)) }
{
    let execution = first_execution(alloc, job, by_seed, scratch.take_spare(alloc))?;
    report_to_end(alloc, job, execution, scratch)
}

/// The report of the run of a job by a schedule in place of the job's own choices. What is in the scratch makes no
/// difference.
pub fn report_by_schedule(
    alloc: Global,
    job: &Job,
    schedule: &[u32],
    scratch: &mut Scratch,
) -> Result<Report, NoMemory>
    ensures { IfOk result (λ r. Means (by_schedule job.now.asked schedule.now) (view_of_report r)) }
{
    let chooser = ActorChooser::Choices(of_schedule(alloc, schedule)?);
    let execution = Execution::new(alloc, job, chooser, scratch.take_spare(alloc))?;
    report_to_end(alloc, job, execution, scratch)
}

/// How the run of a job ends, from its first event on, of which none is kept.
fn judge_execution(alloc: Global, job: &Job, execution: &mut Execution) -> Result<Judged, NoMemory>
    requires { (w : Choosing) × Executes job.now w [] execution.old }
    ensures { IfOk result (λ v. (w : Choosing) → Executes job.now w [] execution.old
        → Judges w job.now.asked v) }
{
    let mut seen = SeenEvents::new(&job.property);
    execution.complete(alloc, job, &mut seen)?;
    let judged = judge(alloc, job, &execution.system, seen.evidence)?;
    Ok(judged)
}

/// What the report of a job that is one run says but for its events, of which none is kept: by the job's own choices or
/// by a seed in place of them. What is in the scratch makes no difference.
pub fn judged_run(
    alloc: Global,
    job: &Job,
    by_seed: Option<SeedChoice>,
    scratch: &mut Scratch,
) -> Result<Judged, NoMemory>
    requires { IsNone by_seed → job.now.asked.runs ≡ zero }
    ensures { IfOk result (λ v. Judges (choosing_of by_seed job.now.asked) job.now.asked v) }
{
    let mut execution = first_execution(alloc, job, by_seed, scratch.take_spare(alloc))?;
    let judged = judge_execution(alloc, job, &mut execution);
    scratch.put_spare(execution.system.into_spare());
    judged
}
