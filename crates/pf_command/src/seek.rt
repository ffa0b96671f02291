//! What is hunted of a source, and the result of a hunt.

ghost use Rattle.std.specs.Prelude.{◌≡◌, ◌-◌, ◌++◌, [], List, ℕ, IfOk, Ok, Some, MatchResult, flat_map, map};
ghost use Rattle.std.specs.Prelude.{if◌then◌else◌};
ghost use Rattle.std.specs.List.{list_any};
ghost use Rattle.pf_model.specs.Shrinking.{is_failure};
ghost use Rattle.pf_property.specs.Views.{property_of};
ghost use Rattle.pf_sched.specs.Asked.{IsRefusal};
ghost use Rattle.pf_verdicts.specs.Watching.{AreJobsOf};
ghost use Rattle.pf_hunt.specs.Notices.{HearsSome};
ghost use Rattle.pf_hunt.specs.Views.{row_of};
ghost use Rattle.pf_cli.specs.Args.{view_of_hunt_args};
ghost use Rattle.pf_cli.specs.declared.args.HuntGoal.TheVariants as goals;
ghost use Rattle.pf_command.specs.Answers.{AnswersRun, atom_names_of, run_args};
ghost use Rattle.pf_cli_messages.specs.Explained.{AsksOf};
ghost use Rattle.pf_check.specs.Reading.{IsModuleOf};
ghost use Rattle.pf_command.specs.Hunts.{HuntAsksFor, IsHunted, IsNotHunted, IsRefusedAs, MayHunt, MayShrink};
ghost use Rattle.pf_command.specs.Hunts.{OfEach, PrintsSought};
ghost use Rattle.pf_command.specs.Printed.{PrintsAs};
ghost use Rattle.pf_command.specs.Hunts.{front_text, none_text, properties_of, row_text, shrinking_of, strategy_text};

use crate::answer::{Output, refused_at, refused_by_code};
use crate::answers::Answer;
use crate::ending::FailingRun;
use crate::hunt::HuntRequest;
use crate::run::output_of_module;
use crate::seeds::{put_none, put_rows, put_strategy, rows_status};
use crate::stopping::{may_stop, put_front};
use pf_check::{ReadModule, ReadSource};
use pf_cli::{HuntArgs, HuntGoal};
use pf_errors::{Code, NoMemory, OrNoMemory};
use pf_hunt::{Hunt, HuntObserver, HuntRange, Searched, Tally, first_failing, tally_all};
use pf_property::Property;
use pf_request::{Request, RequestKind, ShortBytes};
use pf_sched::{Job, JobRefusal, Observer};
use pf_verdicts::{HuntAsked, WorkerJobs, further_properties, worker_jobs};
use std::alloc::Global;
use std::sync::Arc;
use std::thread::Threads;

/// The shrinking of a schedule that a hunt finds, by which a property fails.
fn shrinking(
    alloc: Global,
    args: &HuntArgs,
    property: &[u8],
    schedule: Vec<u32>,
    runs: u32,
) -> Result<Request, NoMemory>
    ensures { IfOk result (λ r. run_args r args.now.edition
        ≡ shrinking_of (view_of_hunt_args args.now) property.now schedule.items runs) }
{
    let HuntArgs { request, .. } = args;
    Ok(Request {
        root: ShortBytes::from_slice(alloc, request.root.as_slice())?,
        property: ShortBytes::from_slice(alloc, property)?,
        kind: RequestKind::Shrink {
            schedule: Arc::new(alloc, schedule)?,
            runs,
        },
        limit: request.limit,
    })
}

/// The shrinking of the empty schedule, or why it is refused.
fn try_shrinking(
    alloc: Global,
    args: &HuntArgs,
    module: &ReadModule,
    runs: u32,
) -> Result<Job, OrNoMemory<JobRefusal>>
    ensures { MatchResult result
        (λ job. AsksOf (shrinking_of (view_of_hunt_args args.now)
        (view_of_hunt_args args.now).request.property [] runs) «module».now
        (Ok job))
        (IsRefusal (AsksOf (shrinking_of (view_of_hunt_args args.now)
        (view_of_hunt_args args.now).request.property [] runs) «module».now)) }
{
    let property = args.request.property.as_slice();
    let request = shrinking(alloc, args, property, Vec::new(alloc), runs)?;
    Job::new(alloc, module.share()?, &request, args.edition.number())
}

/// Whether a schedule may be shrunk within n runs: the shrinking of the empty one is made, so that its number of runs
/// is refused before any seed is run.
fn may_shrink(
    alloc: Global,
    args: &HuntArgs,
    module: &ReadModule,
    runs: u32,
) -> Result<(), OrNoMemory<JobRefusal>>
    ensures { MatchResult result
        (λ _. MayShrink (view_of_hunt_args args.now) (goals.Failure (Some runs)) «module».now)
        (IsRefusal (HuntAsksFor (view_of_hunt_args args.now) (goals.Failure (Some runs)) «module».now)) }
{
    match try_shrinking(alloc, args, module, runs) {
        Ok(_shrinking) => Ok(()),
        Err(refusal) => Err(refusal),
    }
}

/// The same, if a schedule is to be shrunk.
fn may_seek_failure(
    alloc: Global,
    args: &HuntArgs,
    module: &ReadModule,
    runs: Option<u32>,
) -> Result<(), OrNoMemory<JobRefusal>>
    ensures { MatchResult result
        (λ _. MayShrink (view_of_hunt_args args.now) (goals.Failure runs) «module».now)
        (IsRefusal (HuntAsksFor (view_of_hunt_args args.now) (goals.Failure runs) «module».now)) }
{
    match runs {
        Some(runs) => may_shrink(alloc, args, module, runs),
        None => Ok(()),
    }
}

/// The same of what a hunt seeks.
fn may_seek(
    alloc: Global,
    args: &HuntArgs,
    module: &ReadModule,
) -> Result<(), OrNoMemory<JobRefusal>>
    ensures { MatchResult result
        (λ _. MayShrink (view_of_hunt_args args.now) (view_of_hunt_args args.now).sought «module».now)
        (IsRefusal (HuntAsksFor (view_of_hunt_args args.now) (view_of_hunt_args args.now).sought «module».now)) }
{
    match args.sought {
        HuntGoal::Failure { runs } => may_seek_failure(alloc, args, module, runs),
        HuntGoal::Outcomes => Ok(()),
    }
}

/// The job in whose place those of the seeds go.
fn job_of(
    alloc: Global,
    args: &HuntArgs,
    module: &ReadModule,
) -> Result<Job, OrNoMemory<JobRefusal>>
    ensures { MatchResult result
        (λ job. MayHunt (view_of_hunt_args args.now) «module».now job)
        (IsRefusal (HuntAsksFor (view_of_hunt_args args.now) (view_of_hunt_args args.now).sought «module».now)) }
{
    may_seek(alloc, args, module)?;
    Job::new(alloc, module.share()?, &args.request, args.edition.number())
}

/// What is hunted: a module, and the job in whose place those of the seeds go.
#[derive(Drop)]
pub(crate) struct HuntedJob {
    pub job: Job,
    /// The properties by which a run fails too.
    pub further: Vec<Property>,
    pub module: ReadModule,
}

/// The answer of what is refused by a code.
fn refused_as(alloc: Global, refusal: OrNoMemory<Code>) -> OrNoMemory<Output>
    ensures { IsRefusedAs refusal result }
{
    match refusal {
        OrNoMemory::NoMemory => OrNoMemory::NoMemory,
        OrNoMemory::Fault(code) => match refused_by_code(alloc, code) {
            Ok(answer) => OrNoMemory::Fault(answer),
            Err(NoMemory) => OrNoMemory::NoMemory,
        },
    }
}

/// What is hunted of a module; or the answer, if that is refused.
fn hunted_in(
    alloc: Global,
    args: &HuntArgs,
    module: ReadModule,
) -> Result<HuntedJob, OrNoMemory<Output>>
    ensures { (bytes : List ℕ) → IsModuleOf bytes «module» → MatchResult result
        (IsHunted (view_of_hunt_args args.now) bytes) (IsNotHunted (view_of_hunt_args args.now) bytes) }
{
    let job = match job_of(alloc, args, &module) {
        Ok(job) => job,
        Err(OrNoMemory::NoMemory) => return Err(OrNoMemory::NoMemory),
        Err(OrNoMemory::Fault(refusal)) => {
            return Err(refused_as(alloc, OrNoMemory::Fault(refusal.code())));
        }
    };
    match further_properties(alloc, &module, args.further.as_slice()) {
        Ok(further) => Ok(HuntedJob {
            job,
            further,
            module,
        }),
        Err(refusal) => Err(refused_as(alloc, refusal)),
    }
}

/// What is hunted of a source; or the answer, if the source is refused, or what is asked for of it.
pub(crate) fn hunted_of(
    alloc: Global,
    args: &HuntArgs,
    source: &ReadSource,
) -> Result<HuntedJob, OrNoMemory<Output>>
    ensures { MatchResult result (IsHunted (view_of_hunt_args args.now) source.now)
        (IsNotHunted (view_of_hunt_args args.now) source.now) }
{
    match source.module() {
        Ok(module) => hunted_in(alloc, args, module.share()?),
        Err(refusal) => {
            let answer = refused_at(alloc, refusal)?;
            Err(OrNoMemory::Fault(answer))
        }
    }
}

/// The answer if no run fails of the seeds to before an end.
fn write_none(alloc: Global, args: &HuntArgs, end: u64) -> Result<Output, NoMemory>
    ensures { IfOk result (λ a. (a.text.items
        ≡ front_text (view_of_hunt_args args.now) end ++ none_text (end - args.now.first)) × (a.status ≡ 0)) }
{
    let mut text = Vec::new(alloc);
    put_front(&mut text, args, end)?;
    put_none(&mut text, end.saturating_sub(args.first))?;
    Ok(Output { text, status: 0 })
}

/// What the shrinking of a schedule that a hunt finds is answered with, by which a property fails.
pub(crate) fn shrink(
    alloc: Global,
    args: &HuntArgs,
    property: &[u8],
    module: ReadModule,
    schedule: Vec<u32>,
    runs: u32,
    observer: &mut impl Observer,
) -> Result<Output, NoMemory>
    ensures { IfOk result (λ a. (bytes : List ℕ) → IsModuleOf bytes «module»
        → AnswersRun (shrinking_of (view_of_hunt_args args.now) property.now schedule.items runs) bytes
        a.text.items a.status) }
{
    let request = shrinking(alloc, args, property, schedule, runs)?;
    output_of_module(alloc, &request, args.edition, module, observer)
}

/// By which jobs the workers of a hunt run its seeds: those that have any.
fn jobs_of(
    alloc: Global,
    asked: &HuntRequest,
    job: &Job,
    module: &ReadModule,
    further: &[Property],
) -> Result<WorkerJobs, NoMemory>
    ensures { IfOk result (AreJobsOf job.now (map property_of further.now)) }
{
    let HuntRequest { args, workers } = *asked;
    let workers = workers.min(args.end.saturating_sub(args.first));
    let asked = HuntAsked {
        module,
        request: &args.request,
        further: args.further.as_slice(),
        workers,
    };
    worker_jobs(alloc, job, further, &asked)
}

/// The result if the least seed that fails is sought.
pub(crate) fn seek_failure<'a, T: Threads + Sync, S: HuntObserver>(
    rt: &T,
    alloc: Global,
    asked: &HuntRequest<'a>,
    hunted: HuntedJob,
    runs: Option<u32>,
    seeds: &mut S,
) -> Result<Answer<'a>, NoMemory>
    ensures { IfOk result (λ x. HearsSome S.Heard seeds.old (OfEach hunted.«module»
        (λ bytes. PrintsAs (view_of_hunt_args asked.now.args.now) bytes hunted.job (properties_of hunted)
        (goals.Failure runs) x))
        seeds.new) }
{
    let HuntRequest { args, workers } = *asked;
    let HuntedJob {
        job,
        further,
        module,
    } = hunted;
    let jobs = jobs_of(alloc, asked, &job, &module, further.as_slice())?;
    let hunt = Hunt {
        job,
        jobs,
        strategy: args.strategy,
        further,
        leaks: args.leaks,
    };
    let may_stop = may_stop(args);
    let (first, end) = (args.first, args.end);
    let range = HuntRange {
        first,
        end,
        may_stop,
        workers,
    };
    let Searched { failure, end, .. } = first_failing(rt, alloc, &hunt, range, seeds)?;
    let Some(failure) = failure else {
        return Ok(Answer::Reported(write_none(alloc, args, end)?));
    };
    Ok(Answer::Found(FailingRun {
        args,
        hunt,
        module,
        failure,
        runs,
    }))
}

/// The answer of rows, of the seeds to before an end: the strategy and each row on a line, and 1 if the property of
/// some run fails, else 0.
fn write_rows(
    alloc: Global,
    args: &HuntArgs,
    job: &Job,
    tally: &Tally,
    end: u64,
) -> Result<Output, NoMemory>
    ensures { IfOk result (λ a. (a.text.items
        ≡ front_text (view_of_hunt_args args.now) end ++ strategy_text args.now.strategy
        ++ flat_map (λ x. row_text (atom_names_of job.now) (row_of x)) tally.now.rows.items)
        × (a.status ≡ (if list_any (λ x. is_failure x.verdict) tally.now.rows.items then 1 else 0))) }
{
    let mut text = Vec::new(alloc);
    put_front(&mut text, args, end)?;
    put_strategy(&mut text, args.strategy)?;
    put_rows(&mut text, job.module().atoms(), &tally.rows)?;
    let status = rows_status(&tally.rows);
    Ok(Output { text, status })
}

/// The answer if each outcome is sought.
pub(crate) fn seek_outcomes<T: Threads + Sync, S: HuntObserver>(
    rt: &T,
    alloc: Global,
    asked: &HuntRequest,
    hunted: HuntedJob,
    seeds: &mut S,
) -> Result<Output, NoMemory>
    ensures { IfOk result (λ a. HearsSome S.Heard seeds.old (λ ns. (bytes : List ℕ)
        → PrintsSought (view_of_hunt_args asked.now.args.now) bytes hunted.job (properties_of hunted) ns goals.Outcomes
        a.text.items a.status) seeds.new) }
{
    let HuntRequest { args, workers } = *asked;
    let HuntedJob { job, module, .. } = hunted;
    let further = Vec::new(alloc);
    let jobs = jobs_of(alloc, asked, &job, &module, further.as_slice())?;
    let hunt = Hunt {
        job,
        jobs,
        strategy: args.strategy,
        further,
        leaks: false,
    };
    let may_stop = may_stop(args);
    let range = HuntRange {
        first: args.first,
        end: args.end,
        may_stop,
        workers,
    };
    let tallied = tally_all(rt, alloc, &hunt, range, seeds)?;
    write_rows(alloc, args, &hunt.job, &tallied.tally, tallied.end)
}
