//! The answer to a source whose schedules are explored.

ghost use Rattle.std.specs.Prelude.{◌<◌, List, ℕ, IfOk, IfSome};
ghost use Rattle.pf_check.specs.Reading.{IsModuleOf};
ghost use Rattle.pf_model.specs.Limits.{IsEdition};
ghost use Rattle.pf_explore.specs.Asked.{with_last};
ghost use Rattle.pf_explore.specs.Explored.{IsExplored};
ghost use Rattle.pf_explore_answer.specs.Answers as answers;
ghost use Rattle.pf_explore_answer.specs.Answers.{AnswersJob, AnswersSource, levels_of};
ghost use Rattle.pf_explore_answer.specs.Views.{view_of_exploration};

use crate::exploration::{Exploration, ExploreAnswer};
use crate::search::explored_of;
use crate::writing::{refused_at, refused_by_code, write_failing, write_holds, write_unseen};
use pf_check::{ReadModule, ReadSource};
use pf_errors::{NoMemory, OrNoMemory};
use pf_explore::{Explored, Pace};
use pf_hunt::Hunt;
use pf_sched::Job;
use pf_strategy::{Sampling, Strategy};
use pf_verdicts::WorkerJobs;
use std::alloc::Global;

/// The answer of what an exploration found of a job.
fn write_explored(alloc: Global, job: &Job, explored: Explored) -> Result<ExploreAnswer, NoMemory>
    ensures { IfOk result (λ a. (x : answers.Exploration)
        → IsExplored (with_last x.last job.now.asked) x.may_stop x.budget (levels_of x.deviations) explored
        → AnswersJob x job.now a) }
{
    match explored {
        Explored::NoneFails { runs, steps } => write_holds(alloc, runs, steps),
        Explored::Fails { report, .. } => write_failing(alloc, job.module().atoms(), &report),
        Explored::NotAllSeen {
            within,
            runs,
            cause,
        } => write_unseen(alloc, runs, cause, within),
    }
}

/// The answer of a job whose schedules are explored.
fn answer_job<P: Pace>(
    alloc: Global,
    asked: &Exploration,
    job: Job,
    pace: &mut P,
) -> Result<ExploreAnswer, NoMemory>
    requires { IfSome asked.now.deviations (λ k. k < 4294967295) }
    ensures { IfOk result (AnswersJob (view_of_exploration (P.may_stop pace.old) asked.now) job) }
{
    let hunt = Hunt {
        job,
        jobs: WorkerJobs::none(alloc),
        strategy: Strategy {
            sampling: Sampling::Priorities,
            last: asked.last,
        },
        further: Vec::new(alloc),
        leaks: false,
    };
    let explored = explored_of(alloc, &hunt, asked, pace)?;
    write_explored(alloc, &hunt.job, explored)
}

/// The answer to a module whose schedules are explored.
fn answer_module<P: Pace>(
    alloc: Global,
    asked: &Exploration,
    module: ReadModule,
    pace: &mut P,
) -> Result<ExploreAnswer, NoMemory>
    requires edition { IsEdition asked.now.edition }
    requires few { IfSome asked.now.deviations (λ k. k < 4294967295) }
    ensures { IfOk result (λ a. (bytes : List ℕ) → IsModuleOf bytes «module»
        → AnswersSource (view_of_exploration (P.may_stop pace.old) asked.now) bytes a) }
{
    match Job::new(alloc, module, asked.request, asked.edition) {
        Ok(job) => answer_job(alloc, asked, job, pace),
        Err(OrNoMemory::NoMemory) => Err(NoMemory),
        Err(OrNoMemory::Fault(refusal)) => refused_by_code(alloc, refusal.code()),
    }
}

/// The answer to a source whose schedules are explored: no schedule fails; or one that fails, with the report of its
/// run; or how far the exploration came before its budget was used up, its pace stopped it, or all were run that
/// deviate so often; or why the source, or what is asked for of it, is refused.
pub fn answer_source<P: Pace>(
    alloc: Global,
    asked: &Exploration,
    source: &ReadSource,
    pace: &mut P,
) -> Result<ExploreAnswer, NoMemory>
    requires edition { IsEdition asked.now.edition }
    requires few { IfSome asked.now.deviations (λ k. k < 4294967295) }
    ensures { IfOk result (AnswersSource (view_of_exploration (P.may_stop pace.old) asked.now) source.now) }
{
    match source.module() {
        Ok(module) => answer_module(alloc, asked, module.share()?, pace),
        Err(refusal) => refused_at(alloc, refusal),
    }
}
