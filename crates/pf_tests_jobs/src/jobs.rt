//! Jobs that are run whole, slice by slice, and with their events.

use pf_check::{ReadModule, Source};
use pf_model::report::Report;
use pf_request::{Request, RequestKind, RunChoices, ShortBytes};
use pf_sched::{
    Finished, Job, JobResult, Scratch, Silent, Slice, report_by_schedule, report_of_run, run_slice,
    run_to_end, start,
};
use pf_strategy::{Sampling, SeedChoice, Strategy};
use pf_trace::{put_report, put_written};
use std::alloc::Global;
use std::sync::Arc;
use std::test::Fail;

/// The root hands its pid to a child and waits for the answer.
const TALK: &str = "-module(m).\n-export([main/0, kid/0]).\n\
main() -> P = spawn(m, kid, []), P ! self(), receive X -> X end.\n\
kid() -> receive From -> From ! done end.\n";

/// The choices of the talk.
const CHOICES: [u32; 11] = [0, 0, 1, 1, 0, 0, 0, 1, 0, 0, 0];

/// What is reported of it.
const REPORTED: &str = "0/1 <0> spawn <1>\n0/2 <0> send <1> <0>\n1/3 <1> wait\n\
1/2 <0>-><1> deliver message\n0/2 <0> wait\n0/1 <1> receive <0>\n0/1 <1> send <0> done\n\
1/2 <1>-><0> deliver message\n0/2 <0> receive done\n0/2 <0> end normal\n0/1 <1> end normal\n\
finished done\nsteps 17\nproperty holds\n";

/// Two senders race: `main` takes the first message that comes.
const RACE: &str = "-module(m).\n-export([main/0, a/1, b/1]).\n\
main() -> P = self(), spawn(m, a, [P]), spawn(m, b, [P]), receive M -> M == 1 end.\n\
a(P) -> P ! 1.\nb(P) -> P ! 2.\n";

/// The module of a source.
fn module_of(alloc: Global, source: &str) -> Result<ReadModule, Fail> {
    let mut bytes = Vec::new(alloc);
    bytes.extend_from_slice(source.as_bytes())?;
    Ok(ReadModule::read(alloc, &Source::new(alloc, bytes)?)?)
}

/// The job of runs of `main`.
fn job_of(
    alloc: Global,
    source: &str,
    property: &str,
    kind: RequestKind,
) -> Result<Arc<Job>, Fail> {
    let module = module_of(alloc, source)?;
    let request = Request {
        root: ShortBytes::from_slice(alloc, b"main")?,
        property: ShortBytes::from_slice(alloc, property.as_bytes())?,
        kind,
        limit: 1000,
    };
    Ok(Arc::new(alloc, Job::new(alloc, module, &request, 1)?)?)
}

/// The end of a job by slices of four events.
fn sliced(alloc: Global, job: &Arc<Job>) -> Result<Finished, Fail> {
    let mut scratch = Scratch::new(alloc);
    let mut parked = start(alloc, Arc::try_clone(job)?)?;
    for _ in 0..1000 {
        match run_slice(alloc, parked, &mut scratch, 4) {
            Slice::More(more) => parked = more,
            Slice::Done(finished) => return Ok(finished),
        }
    }
    Err(Fail::from("the run goes on"))
}

/// Whether this is the report of the talk.
fn is_reported(alloc: Global, finished: &Finished) -> Result<bool, Fail> {
    let Some(JobResult::Report(report)) = finished.result() else {
        return Ok(false);
    };
    let mut text = Vec::new(alloc);
    put_written(&mut text, finished.job().module().atoms(), report)?;
    Ok(text.as_slice() == REPORTED.as_bytes())
}

/// Whether the run of the talk gives that report whole, shared, and by slices.
fn talks(alloc: Global) -> Result<bool, Fail> {
    let numbers = Vec::from_slice(alloc, &CHOICES)?;
    let kind = RequestKind::Run(RunChoices::schedule(alloc, numbers)?);
    let job = job_of(alloc, TALK, "returns", kind)?;
    let mut scratch = Scratch::new(alloc);
    let whole = run_to_end(alloc, Arc::try_clone(&job)?, &mut scratch, &mut Silent)?;
    Ok(is_reported(alloc, &whole.share()?)? && is_reported(alloc, &sliced(alloc, &job)?)?)
}

#[test]
fn a_run_is_filed_as_it_is_reported(rt: HostRuntime) -> Result<(), Fail> {
    assert!(rt; talks(rt.alloc())?);
    Ok(())
}

/// The text of a report of a job.
fn text_of(alloc: Global, job: &Job, report: &Report) -> Result<Vec<u8>, Fail> {
    let mut text = Vec::new(alloc);
    put_report(&mut text, job.module().atoms(), report)?;
    Ok(text)
}

/// The text of the run of a job by a schedule.
fn text_by(alloc: Global, job: &Job, schedule: &[u32]) -> Result<Vec<u8>, Fail> {
    let report = report_by_schedule(alloc, job, schedule, &mut Scratch::new(alloc))?;
    text_of(alloc, job, &report)
}

/// The choices of a report, event by event.
fn choices_of(alloc: Global, report: &Report) -> Result<Vec<u32>, Fail> {
    let mut choices = Vec::new(alloc);
    for event in report.events.iter() {
        choices.push(event.choice)?;
    }
    Ok(choices)
}

/// The seed 7, by priorities.
const BY_PRIORITIES: SeedChoice = SeedChoice {
    seed: 7,
    strategy: Strategy {
        sampling: Sampling::Priorities,
        last: None,
    },
};

/// Whether the talk gives its text by a schedule in place of a seed, and its property holds by priorities, whose
/// choices as a schedule give their text again.
fn goes_by_schedules(alloc: Global) -> Result<bool, Fail> {
    let job = job_of(
        alloc,
        TALK,
        "returns",
        RequestKind::Run(RunChoices::Seed(7)),
    )?;
    let given = text_by(alloc, &job, CHOICES.as_slice())?;
    let guided = report_of_run(alloc, &job, Some(BY_PRIORITIES), &mut Scratch::new(alloc))?;
    let text = text_of(alloc, &job, &guided)?;
    let again = text_by(alloc, &job, choices_of(alloc, &guided)?.as_slice())?;
    Ok(
        given.as_slice() == REPORTED.as_bytes()
            && text.as_slice().ends_with(b"\nproperty holds\n")
            && again.as_slice() == text.as_slice(),
    )
}

#[test]
fn a_schedule_goes_in_place_of_a_seed(rt: HostRuntime) -> Result<(), Fail> {
    assert!(rt; goes_by_schedules(rt.alloc())?);
    Ok(())
}

/// Whether the race is shrunk, by slices, to the choice of the second message.
fn shrinks(alloc: Global) -> Result<bool, Fail> {
    let schedule = Arc::new(alloc, vec![in alloc; 0, 0, 0, 0, 0, 0, 0, 3, 1]?)?;
    let job = job_of(
        alloc,
        RACE,
        "true",
        RequestKind::Shrink { schedule, runs: 20 },
    )?;
    let finished = sliced(alloc, &job)?;
    let Some(
        JobResult::Shrunk {
            complete,
            schedule,
            report,
        },
    ) = finished.result()
    else {
        return Ok(false);
    };
    let found = schedule.as_slice() == [0, 0, 0, 0, 0, 0, 0, 1].as_slice();
    Ok(*complete && found && report.steps == 22 && report.verdict == Some(false))
}

#[test]
fn a_race_is_shrunk_slice_by_slice(rt: HostRuntime) -> Result<(), Fail> {
    assert!(rt; shrinks(rt.alloc())?);
    Ok(())
}
