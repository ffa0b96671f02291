//! The run of a job by a seed, judged by several properties. It is made once.

ghost use Rattle.std.specs.Prelude.{[], IfOk, IfSome, map};
ghost use Rattle.pf_property.specs.Views.{property_of};
ghost use Rattle.pf_verdicts.specs.Judging.{JudgesBySeed};
ghost use Rattle.pf_verdicts.specs.Watching.{Watches};

use crate::judged::{JudgedSeed, judged_of_report};
use crate::seen::judged_seen;
use crate::watched::WatchedJob;
use pf_errors::NoMemory;
use pf_property::Property;
use pf_sched::{Job, Scratch, judged_run, report_of_run};
use pf_strategy::SeedChoice;
use std::alloc::Global;

/// How the run by a seed of a job without further properties is judged. No event is kept.
fn judged_alone(
    alloc: Global,
    job: &Job,
    by: SeedChoice,
    scratch: &mut Scratch,
) -> Result<JudgedSeed, NoMemory>
    ensures { IfOk result (λ v. JudgesBySeed by.strategy [] job.now.asked by.seed v) }
{
    let judged = judged_run(alloc, job, Some(by), scratch)?;
    Ok(JudgedSeed {
        judged,
        fails_further: false,
    })
}

/// The same with further properties, where one property alone reads events. No event is kept.
fn judged_watched(
    alloc: Global,
    job: &Job,
    watched: &WatchedJob,
    by: SeedChoice,
    further: &[Property],
    scratch: &mut Scratch,
) -> Result<JudgedSeed, NoMemory>
    requires { Watches job.now (map property_of further.now) watched.now }
    ensures { IfOk result (λ v. JudgesBySeed by.strategy (map property_of further.now) job.now.asked by.seed v) }
{
    let seen = judged_run(alloc, &watched.job, Some(by), scratch)?;
    Ok(judged_seen(seen, &watched.first, further))
}

/// The same whatever the properties read: the events are kept until all have judged them.
fn judged_by_all(
    alloc: Global,
    job: &Job,
    by: SeedChoice,
    further: &[Property],
    scratch: &mut Scratch,
) -> Result<JudgedSeed, NoMemory>
    ensures { IfOk result (λ v. JudgesBySeed by.strategy (map property_of further.now) job.now.asked by.seed v) }
{
    // No run has more events than its limit.
    let _limit = job.limit();
    let report = report_of_run(alloc, job, Some(by), scratch)?;
    Ok(judged_of_report(report, further))
}

/// How the run of a job by a seed is judged by the job's property and by further ones, with the job by the property
/// that is watched, if there is one.
pub fn judged_by(
    alloc: Global,
    job: &Job,
    watched: Option<&WatchedJob>,
    by: SeedChoice,
    further: &[Property],
    scratch: &mut Scratch,
) -> Result<JudgedSeed, NoMemory>
    requires { IfSome watched (λ w. Watches job.now (map property_of further.now) w.now) }
    ensures { IfOk result (λ v. JudgesBySeed by.strategy (map property_of further.now) job.now.asked by.seed v) }
{
    if further.is_empty() {
        return judged_alone(alloc, job, by, scratch);
    }
    match watched {
        Some(watched) => judged_watched(alloc, job, watched, by, further, scratch),
        None => judged_by_all(alloc, job, by, further, scratch),
    }
}
