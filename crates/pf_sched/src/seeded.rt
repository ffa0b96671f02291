//! What chooses in a run by a seed, before its first choice.

ghost use Rattle.std.specs.Prelude.{IfOk};
ghost use Rattle.pf_request.specs.Job.{reseeded};
ghost use Rattle.pf_sched.specs.Choosing.{Choosing, StateOf, choosing_by, first_of, sampled};
ghost use Rattle.pf_sched.specs.Traces.{IsFirst, IsIn, IsSampler, Makes};

use crate::choices::open;
use crate::chooser::{ActorChooser, ActorPriorities};
use crate::job::Job;
use crate::last::{LastChooser, Sampler};
use pf_choice::Choices;
use pf_errors::NoMemory;
use pf_strategy::{Priorities, Sampling, SeedChoice};
use std::alloc::Global;

/// The choices of a seed, by the weights of a job's own.
fn seeded_choices(alloc: Global, job: &Job, seed: u64) -> Result<Choices, NoMemory>
    ensures { IfOk result (λ q. Makes (reseeded job.now.asked.choices seed) q) }
{
    open(alloc, &job.kind.reseeded(seed))
}

/// A sampler by a seed.
fn sampler(alloc: Global, job: &Job, seed: u64, sampling: Sampling) -> Result<Sampler, NoMemory>
    ensures { IfOk result (λ q. IsSampler (sampled sampling job.now.asked seed)
        (first_of (sampled sampling job.now.asked seed)) q) }
{
    match sampling {
        Sampling::Uniform => Ok(Sampler::Choices(seeded_choices(alloc, job, seed)?)),
        Sampling::Priorities => Ok(Sampler::Priorities(Priorities::seed(alloc, seed))),
    }
}

/// What chooses by a seed where no process goes last.
fn free_chooser(
    alloc: Global,
    job: &Job,
    seed: u64,
    sampling: Sampling,
) -> Result<ActorChooser, NoMemory>
    ensures { IfOk result (λ q. IsFirst (sampled sampling job.now.asked seed) q) }
{
    match sampling {
        Sampling::Uniform => Ok(ActorChooser::Choices(seeded_choices(alloc, job, seed)?)),
        Sampling::Priorities => Ok(ActorChooser::Priorities(ActorPriorities::seed(alloc, seed))),
    }
}

/// What chooses by a seed and a strategy.
pub(crate) fn seeded_chooser(
    alloc: Global,
    job: &Job,
    by: SeedChoice,
) -> Result<ActorChooser, NoMemory>
    ensures { IfOk result (λ q. IsFirst (choosing_by by job.now.asked) q) }
{
    let SeedChoice { seed, strategy } = by;
    match strategy.last {
        Some(last) => {
            let by = sampler(alloc, job, seed, strategy.sampling)?;
            Ok(ActorChooser::Last(LastChooser::new(alloc, last, by)))
        }
        None => free_chooser(alloc, job, seed, strategy.sampling),
    }
}
