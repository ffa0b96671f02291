//! What a source is answered with of which a run or a shrinking is asked for.

ghost use Rattle.std.specs.Prelude.{◌≡◌, List, ℕ, zero, IfOk, Some};
ghost use Rattle.pf_terms.specs.Atoms.{name_of};
ghost use Rattle.pf_model.specs.Shrinking.{found, report, shrunk_to};
ghost use Rattle.pf_model.specs.Text.{report_text};
ghost use Rattle.pf_request.specs.Job.{memory_report};
ghost use Rattle.pf_trace.specs.Written.{AreWritten, report_in};
ghost use Rattle.pf_sched.specs.Views.{IsWritten, result_of};
ghost use Rattle.pf_cli.specs.Args.{view_of_run_args};
ghost use Rattle.pf_command.specs.Answers.{AnswersRun, ReportsJob, PrintsResult, run_args};
ghost use Rattle.pf_command.specs.Printed.{JobEndsAs, RunEndsAs};
ghost use Rattle.pf_check.specs.Reading.{IsModuleOf};

use crate::answer::{FAILED, Output, refused_at, refused_by_code, run_status};
use crate::answers::Answer;
use crate::one_run::RunToPrint;
use crate::serving::Answering;
use pf_check::{ReadModule, ReadSource};
use pf_cli::{Edition, RunArgs};
use pf_errors::{Code, NoMemory, OrNoMemory};
use pf_request::Request;
use pf_sched::{Finished, Job, JobResult, Observer, Scratch, Silent, memory_report, run_to_end};
use pf_strategy::SeedChoice;
use pf_terms::AtomTable;
use pf_trace::{WrittenReport, put_found, put_written};
use std::alloc::Global;
use std::sync::Arc;

/// The answer of a run: its report, with the status of its verdict.
fn write_run(alloc: Global, atoms: &AtomTable, reported: &WrittenReport) -> Result<Output, NoMemory>
    requires { AreWritten (name_of atoms.now) reported.now.lines }
    ensures { IfOk result (PrintsResult atoms.now (report (report_in reported.now))) }
{
    let mut text = Vec::new(alloc);
    put_written(&mut text, atoms, reported)?;
    let status = run_status(reported.verdict);
    Ok(Output { text, status })
}

/// The answer of a shrinking: the schedule that it found, whether no candidate of that fails, and the report of its
/// run, which fails.
fn write_shrunk(
    alloc: Global,
    atoms: &AtomTable,
    schedule: &[u32],
    complete: bool,
    reported: &WrittenReport,
) -> Result<Output, NoMemory>
    requires { AreWritten (name_of atoms.now) reported.now.lines }
    ensures { IfOk result (PrintsResult atoms.now
        (shrunk_to (found schedule.now complete) (report_in reported.now))) }
{
    let mut text = Vec::new(alloc);
    put_found(&mut text, schedule, complete)?;
    put_written(&mut text, atoms, reported)?;
    Ok(Output {
        text,
        status: FAILED,
    })
}

/// The answer of a job's result. If the given schedule doesn't fail, that is refused.
fn write_result(alloc: Global, atoms: &AtomTable, reported: &JobResult) -> Result<Output, NoMemory>
    requires { IsWritten (name_of atoms.now) reported.now }
    ensures { IfOk result (PrintsResult atoms.now (result_of reported.now)) }
{
    match reported {
        JobResult::Report(report) => write_run(alloc, atoms, report),
        JobResult::Shrunk {
            schedule,
            complete,
            report,
        } => write_shrunk(alloc, atoms, schedule, *complete, report),
        JobResult::NothingFails => refused_by_code(alloc, Code::NothingFails),
    }
}

/// The answer of a job within which memory ran out: of a run that this is so, of a shrinking none.
fn write_no_memory(alloc: Global, atoms: &AtomTable, job: &Job) -> Result<Output, NoMemory>
    ensures { IfOk result (λ a. (job.now.asked.runs ≡ zero)
        × PrintsResult atoms.now (report memory_report) a) }
{
    if job.runs() > 0 {
        return Err(NoMemory);
    }
    write_run(alloc, atoms, &memory_report(alloc))
}

/// The answer of a job whose runs are over.
fn write_finished(alloc: Global, finished: &Finished) -> Result<Output, NoMemory>
    ensures { IfOk result (λ a. ReportsJob finished.now.job a.text.items a.status) }
{
    let job = finished.job();
    let atoms = job.module().atoms();
    match finished.result() {
        Some(result) => write_result(alloc, atoms, result),
        None => write_no_memory(alloc, atoms, job),
    }
}

/// The answer of a job, which is run to its end.
pub(crate) fn output_of_job(
    alloc: Global,
    job: Job,
    observer: &mut impl Observer,
) -> Result<Output, NoMemory>
    ensures { IfOk result (λ a. ReportsJob job a.text.items a.status) }
{
    let job = Arc::new(alloc, job)?;
    let finished = run_to_end(alloc, job, &mut Scratch::new(alloc), observer)?;
    write_finished(alloc, &finished)
}

/// The answer to a module of which this is asked for.
pub(crate) fn output_of_module(
    alloc: Global,
    request: &Request,
    edition: Edition,
    module: ReadModule,
    observer: &mut impl Observer,
) -> Result<Output, NoMemory>
    ensures { IfOk result (λ a. (bytes : List ℕ) → IsModuleOf bytes «module»
        → AnswersRun (run_args request.now edition) bytes a.text.items a.status) }
{
    match Job::new(alloc, module, request, edition.number()) {
        Ok(job) => output_of_job(alloc, job, observer),
        Err(OrNoMemory::Fault(refusal)) => refused_by_code(alloc, refusal.code()),
        Err(OrNoMemory::NoMemory) => Err(NoMemory),
    }
}

/// The answer to a source of which this is asked for. The observer receives the progress of a shrinking.
fn output_of_source(
    alloc: Global,
    request: &Request,
    edition: Edition,
    source: &ReadSource,
    observer: &mut impl Observer,
) -> Result<Output, NoMemory>
    ensures { IfOk result (λ a. AnswersRun (run_args request.now edition) source.now a.text.items a.status) }
{
    match source.module() {
        Ok(module) => output_of_module(alloc, request, edition, module.share()?, observer),
        Err(refusal) => refused_at(alloc, refusal),
    }
}

/// What a job is answered with, or its run by a seed: a run, which is still to be printed, or the report of a
/// shrinking.
fn answer_of_job<'a>(
    alloc: Global,
    job: Job,
    by_seed: Option<SeedChoice>,
) -> Result<Answer<'a>, NoMemory>
    ensures { IfOk result (JobEndsAs by_seed job) }
{
    if by_seed.is_none() && job.runs() > 0 {
        let answer = output_of_job(alloc, job, &mut Silent)?;
        Ok(Answer::Reported(answer))
    } else {
        Ok(Answer::Run(RunToPrint { job, by_seed }))
    }
}

/// What a module is answered with of which a run is asked for.
fn answer_of_module<'a>(
    alloc: Global,
    args: &RunArgs,
    module: ReadModule,
) -> Result<Answer<'a>, NoMemory>
    ensures { IfOk result (λ x. (bytes : List ℕ) → IsModuleOf bytes «module»
        → RunEndsAs (view_of_run_args args.now) bytes x) }
{
    match Job::new(alloc, module, &args.request, args.edition.number()) {
        Ok(job) => answer_of_job(alloc, job, args.by_seed),
        Err(OrNoMemory::NoMemory) => Err(NoMemory),
        Err(OrNoMemory::Fault(refusal)) => {
            let answer = refused_by_code(alloc, refusal.code())?;
            Ok(Answer::Reported(answer))
        }
    }
}

/// What a source is answered with of which a run is asked for.
pub fn answer_of_run<'a>(
    alloc: Global,
    args: &RunArgs,
    source: &ReadSource,
) -> Result<Answer<'a>, NoMemory>
    ensures { IfOk result (RunEndsAs (view_of_run_args args.now) source.now) }
{
    match source.module() {
        Ok(module) => answer_of_module(alloc, args, module.share()?),
        Err(refusal) => {
            let answer = refused_at(alloc, refusal)?;
            Ok(Answer::Reported(answer))
        }
    }
}

/// A shrinking is asked for, whose progress the observer receives.
#[derive(Drop)]
pub struct Shrink<'a, O> {
    pub args: &'a RunArgs<'a>,
    pub observer: O,
}

impl<O: Observer + Drop> Answering for Shrink<'_, O> {
    ghost use Rattle.pf_cli.specs.Args.{view_of_run_args};
    ghost use Rattle.pf_command.specs.Answers.{AnswersRun};

    ghost answers = { λ c. AnswersRun (view_of_run_args c.args.now) };

    fn answer(self, alloc: Global, source: &ReadSource) -> Result<Output, NoMemory> {
        let Shrink { args, mut observer } = self;
        output_of_source(alloc, &args.request, args.edition, source, &mut observer)
    }
}
