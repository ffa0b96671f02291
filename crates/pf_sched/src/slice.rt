//! Jobs slice by slice.

ghost use Rattle.std.specs.Prelude.{◌≡◌, ◌⊎◌, ◌<◌, IfOk, length};
ghost use Rattle.pf_sched.specs.Parts.{IsRunOf, IsShrinkingOf, events_in, events_so_far};
ghost use Rattle.pf_sched.specs.Slices.{EndsBy, IsRunOver, SimulatesSlice};
ghost use Rattle.pf_sched.specs.Views.{view_of_parked, without_memory};

use crate::finished::Finished;
use crate::job::Job;
use crate::parked::{Parked, ParkedWork, start};
use crate::progress::Observer;
use crate::result::JobResult;
use crate::run::Run;
use crate::scratch::Scratch;
use crate::shrinking::{Shrinking, ShrinkingAdvance};
use pf_errors::NoMemory;
use std::alloc::Global;
use std::sync::Arc;

/// What a slice leaves of a job.
#[derive(Drop)]
pub enum Slice {
    /// It goes on.
    More(Parked),
    /// It is over.
    Done(Finished),
}

/// How many events of a job are made at a time if it is run to its end.
const TURNS: u32 = 256;

/// The end of a run that is over.
fn finish(alloc: Global, job: Arc<Job>, run: Run) -> Finished
    requires run { IsRunOf job.value run }
    requires over { IsRunOver job.value.asked.limit run.execution }
    ensures job { result.job ≡ job.value }
    ensures result { EndsBy job.value (length (events_in run)) result.result
        ⊎ (result.result ≡ without_memory) }
{
    match run.report(alloc, &job) {
        Ok(report) => Finished::whole(alloc, job, JobResult::Report(report)),
        Err(NoMemory) => Finished::without_memory(job),
    }
}

/// Goes on with a run.
fn slice_of_run(
    alloc: Global,
    job: Arc<Job>,
    mut run: Box<Run>,
    scratch: &mut Scratch,
    turns: u32,
) -> Slice
    requires { IsRunOf job.value run.value }
    ensures { SimulatesSlice (view_of_parked job.value (length (events_in run.value))) turns result }
{
    match run.go_on(alloc, &job, scratch, turns) {
        Ok(false) => Slice::More(Parked {
            job,
            work: ParkedWork::Run(run),
        }),
        Ok(true) => Slice::Done(finish(alloc, job, Box::into_inner(run))),
        Err(NoMemory) => Slice::Done(Finished::without_memory(job)),
    }
}

/// Goes on with a shrinking.
fn slice_of_shrinking(
    alloc: Global,
    job: Arc<Job>,
    shrinking: Box<Shrinking>,
    scratch: &mut Scratch,
    turns: u32,
) -> Slice
    requires { IsShrinkingOf job.value shrinking.value }
    ensures { SimulatesSlice (view_of_parked job.value (events_so_far shrinking.value)) turns result }
{
    match Box::into_inner(shrinking).advance(alloc, &job, scratch, turns) {
        Ok(ShrinkingAdvance::More(shrinking)) => match Box::new(alloc, shrinking) {
            Ok(shrinking) => Slice::More(Parked {
                job,
                work: ParkedWork::Shrinking(shrinking),
            }),
            Err(_) => Slice::Done(Finished::without_memory(job)),
        },
        Ok(ShrinkingAdvance::Over(result)) => Slice::Done(Finished::whole(alloc, job, result)),
        Err(NoMemory) => Slice::Done(Finished::without_memory(job)),
    }
}

/// Goes on with a job by n events at most, over as many runs as they take. It goes on if the job has more; else it is
/// over, with the job's result. If an allocation fails it is over too, and its result is that memory ran out. What is
/// in the scratch makes no difference.
pub fn run_slice(alloc: Global, parked: Parked, scratch: &mut Scratch, turns: u32) -> Slice
    requires { 0 < turns }
    ensures { SimulatesSlice parked turns result }
{
    let Parked { job, work } = parked;
    match work {
        ParkedWork::Run(run) => slice_of_run(alloc, job, run, scratch, turns),
        ParkedWork::Shrinking(shrinking) => slice_of_shrinking(
            alloc, job, shrinking, scratch, turns,
        ),
    }
}

/// Reports the progress of a job that is a shrinking to the observer.
fn notify(observer: &mut impl Observer, parked: &Parked) {
    if let Some(progress) = parked.progress() {
        observer.progress(progress);
    }
}

/// Runs a job to its end, slice by slice. If an allocation of its start fails, there is no run. The observer receives
/// the progress of a shrinking.
pub fn run_to_end(
    alloc: Global,
    job: Arc<Job>,
    scratch: &mut Scratch,
    observer: &mut impl Observer,
) -> Result<Finished, NoMemory>
    ensures { IfOk result (λ f. f.job ≡ job.value) }
{
    let mut parked = start(alloc, job)?;
    loop {
        notify(observer, &parked);
        match run_slice(alloc, parked, scratch, TURNS) {
            Slice::More(more) => parked = more,
            Slice::Done(finished) => return Ok(finished),
        }
    }
}
