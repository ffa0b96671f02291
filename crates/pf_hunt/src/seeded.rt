//! The run of a job by a seed.

ghost use Rattle.std.specs.Prelude.{IfOk, map};
ghost use Rattle.std.proofs.Props.{props};
ghost use Rattle.pf_model.specs.Reports.{view_of_report};
ghost use Rattle.pf_strategy.specs.Strategies.{MeansBySeed};
ghost use Rattle.pf_property.specs.Views.{property_of};
ghost use Rattle.pf_request.specs.Encoding.{coded_property};
ghost use Rattle.pf_verdicts.specs.Judging.{JudgesBySeed};
ghost use Rattle.pf_verdicts.specs.Watching.{AreJobsOf};

use pf_errors::NoMemory;
use pf_model::report::Report;
use pf_property::Property;
use pf_sched::{Job, Scratch, report_of_run};
use pf_strategy::{SeedChoice, Strategy};
use pf_verdicts::{JudgedSeed, WatchedJob, WorkerJobs, judged_by};
use std::alloc::Global;

/// What is the same for all seeds of a hunt: the job in whose place their runs go, of whose own choices the weights
/// alone play a part; how a seed chooses; and what makes a run fail beside the job's property: one of further
/// properties, and, if leaks are failures too, that processes still wait though the root returned.
#[derive(Drop)]
pub struct Hunt {
    pub job: Job,
    /// The jobs of its workers, so that no two of them count the holders of one module. Where there are fewer, the
    /// others share that of the first.
    pub jobs: WorkerJobs,
    pub strategy: Strategy,
    pub further: Vec<Property>,
    pub leaks: bool,
    ghost alike: { AreJobsOf job (map property_of further.items) jobs } by { Prim.hlevel (props, coded_property) },
}

impl Hunt {
    ghost use Rattle.std.specs.Prelude.{◌≡◌, IfSome, map};
    ghost use Rattle.pf_property.specs.Views.{property_of};
    ghost use Rattle.pf_verdicts.specs.Watching.{Watches};

    /// The job of a worker, counted from 0.
    fn job_of(&self, worker: u64) -> &Job
        ensures { result.now ≡ self.now.job }
    {
        match usize::try_from(worker) {
            Ok(number) if number > 0 => match self.jobs.others.get(number - 1) {
                Some(job) => job,
                None => &self.job,
            },
            _ => &self.job,
        }
    }

    /// The job of a worker by the property that is watched, if there is one.
    fn watched_of(&self, worker: u64) -> Option<&WatchedJob>
        ensures { IfSome result (λ w. Watches self.now.job (map property_of self.now.further.items) w.now) }
    {
        match usize::try_from(worker) {
            Ok(number) if number < self.jobs.watched.len() => self.jobs.watched.get(number),
            _ => self.jobs.watched.first(),
        }
    }
}

/// The report that the job of a hunt means by a seed, in place of the job's own choices. What is in the scratch makes
/// no difference.
pub fn run_by_seed(
    alloc: Global,
    hunt: &Hunt,
    scratch: &mut Scratch,
    seed: u64,
) -> Result<Report, NoMemory>
    ensures { IfOk result (λ r. MeansBySeed hunt.now.strategy hunt.now.job.asked seed (view_of_report r)) }
{
    let strategy = hunt.strategy;
    report_of_run(
        alloc,
        &hunt.job,
        Some(SeedChoice { seed, strategy }),
        scratch,
    )
}

/// How the run by a seed is judged, and how many processes still wait though its root returned. It is made once, by
/// this worker, counted from 0.
pub(crate) fn judged_by_seed(
    alloc: Global,
    hunt: &Hunt,
    worker: u64,
    scratch: &mut Scratch,
    seed: u64,
) -> Result<JudgedSeed, NoMemory>
    ensures { IfOk result (λ v.
        JudgesBySeed hunt.now.strategy (map property_of hunt.now.further.items) hunt.now.job.asked seed v) }
{
    let strategy = hunt.strategy;
    let by = SeedChoice { seed, strategy };
    let watched = hunt.watched_of(worker);
    let further = hunt.further.as_slice();
    judged_by(alloc, hunt.job_of(worker), watched, by, further, scratch)
}
