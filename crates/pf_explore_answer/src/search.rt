//! What an exploration finds: the first 2,000 seeds are run by priorities before, and then all schedules by rising
//! deviations. A process that is named goes last in each run.

ghost use Rattle.std.specs.Prelude.{◌≡◌, ◌<◌, suc, IfOk, IfSome};
ghost use Rattle.pf_model.specs.Reports.{view_of_report};
ghost use Rattle.pf_hunt.specs.Hunts.{property_alone};
ghost use Rattle.pf_hunt.specs.Views.{failure_of, failures_of};
ghost use Rattle.pf_explore.specs.Asked.{with_last};
ghost use Rattle.pf_explore.specs.Explored.{IsExplored};
ghost use Rattle.pf_explore.specs.Failing.{IsFailingLast};
ghost use Rattle.pf_explore_answer.specs.Answers.{levels_of};

use crate::exploration::{Exploration, most_of};
use crate::job_runs::JobRuns;
use pf_errors::NoMemory;
use pf_explore::{Explored, Pace, explore};
use pf_hunt::{FailingSeed, Hunt, Searched, first_in};
use pf_model::report::Report;
use pf_sched::Scratch;
use std::alloc::Global;

/// How many seeds are run before the schedules are explored: most that fails at all fails by one of these.
const SEEDS: u64 = 2_000;

/// How many of them are run between two looks at the pace.
const SEEDS_AT_ONCE: u64 = 50;

/// The report of a seed that fails.
fn report_of(failure: FailingSeed) -> Report
    ensures { view_of_report result ≡ (failure_of failure).1 }
{
    let FailingSeed { report, .. } = failure;
    report
}

/// The least of these seeds that fails, if one does.
fn failing_in(
    alloc: Global,
    hunt: &Hunt,
    from: u64,
    end: u64,
) -> Result<Option<FailingSeed>, NoMemory>
    requires alone { failures_of hunt.now ≡ property_alone }
    ensures { IfOk result (λ found. IfSome found (λ f.
        IsFailingLast hunt.now.strategy.last hunt.now.job.asked (failure_of f).1)) }
{
    let Searched { failure, .. } = first_in(alloc, hunt, 0, from, end)?;
    Ok(failure)
}

/// The least seed that fails, if one does before the pace stops this.
fn failing_by_seed<P: Pace>(
    alloc: Global,
    hunt: &Hunt,
    pace: &mut P,
) -> Result<Option<FailingSeed>, NoMemory>
    requires alone { failures_of hunt.now ≡ property_alone }
    ensures found { IfOk result (λ found. IfSome found (λ f.
        IsFailingLast hunt.now.strategy.last hunt.now.job.asked (failure_of f).1)) }
    ensures same { P.may_stop pace.new ≡ P.may_stop pace.old }
{
    for block in 0..SEEDS / SEEDS_AT_ONCE {
        if !pace.goes_on() {
            return Ok(None);
        }
        let from = block * SEEDS_AT_ONCE;
        let found = failing_in(alloc, hunt, from, from + SEEDS_AT_ONCE)?;
        if found.is_some() {
            return Ok(found);
        }
    }
    Ok(None)
}

/// Explores the schedules of a job by rising deviations.
fn explored_in<P: Pace>(
    alloc: Global,
    hunt: &Hunt,
    budget: u64,
    most: u32,
    pace: &mut P,
) -> Result<Explored, NoMemory>
    requires { most < 4294967295 }
    ensures { IfOk result (IsExplored (with_last hunt.now.strategy.last hunt.now.job.asked) (P.may_stop pace.old)
        budget (suc most)) }
{
    let mut runs = JobRuns {
        job: &hunt.job,
        last: hunt.strategy.last,
        scratch: Scratch::new(alloc),
    };
    explore(alloc, &mut runs, pace, budget, most + 1)
}

/// What an exploration of the schedules of a job finds.
pub(crate) fn explored_of<P: Pace>(
    alloc: Global,
    hunt: &Hunt,
    asked: &Exploration,
    pace: &mut P,
) -> Result<Explored, NoMemory>
    requires alone { failures_of hunt.now ≡ property_alone }
    requires few { IfSome asked.now.deviations (λ k. k < 4294967295) }
    ensures { IfOk result (IsExplored (with_last hunt.now.strategy.last hunt.now.job.asked)
        (P.may_stop pace.old) asked.now.budget (levels_of asked.now.deviations)) }
{
    match failing_by_seed(alloc, hunt, pace)? {
        Some(failure) => Ok(Explored::Fails {
            report: report_of(failure),
            runs: 0,
        }),
        None => explored_in(alloc, hunt, asked.budget, most_of(asked.deviations), pace),
    }
}
