//! Where the choices of a run come from.

ghost use Rattle.std.specs.Prelude.{◌≡◌, Decides, IfOk};
ghost use Rattle.pf_model.specs.Meaning as model;
ghost use Rattle.pf_request.specs.Job.{reseeded};
ghost use Rattle.pf_request.specs.Request.{count_of, may_weigh};
ghost use Rattle.pf_request.specs.View.{view_of_choices};

use pf_errors::NoMemory;
use std::alloc::Global;
use std::sync::Arc;

/// Where the choices of a run come from. The numbers of a schedule may be shared.
#[derive(Drop)]
pub enum RunChoices {
    /// The words of the generator of this seed.
    Seed(u64),
    /// These numbers, and then 0 for ever.
    Schedule(Arc<Vec<u32>>),
    /// The words of the generator of this seed, by the weight of a process and that of a channel, which are from 1 to 9
    /// in a job.
    Weighted { seed: u64, run: u32, deliver: u32 },
}

impl RunChoices {
    /// The choices of a schedule of these numbers.
    pub fn schedule(alloc: Global, numbers: Vec<u32>) -> Result<RunChoices, NoMemory>
        ensures { IfOk result (λ cs. view_of_choices cs ≡ model.schedule numbers.items) }
    {
        Ok(RunChoices::Schedule(Arc::new(alloc, numbers)?))
    }

    /// How many numbers are given: those of a schedule.
    pub fn count(&self) -> usize
        ensures { result ≡ count_of (view_of_choices self.now) }
    {
        match self {
            RunChoices::Seed(_) | RunChoices::Weighted { .. } => 0,
            RunChoices::Schedule(numbers) => numbers.len(),
        }
    }

    /// Whether the weights, where there are any, are from 1 to 9.
    pub fn may_weigh(&self) -> bool
        ensures { result ≡ may_weigh (view_of_choices self.now) }
    {
        match self {
            RunChoices::Weighted { run, deliver, .. } => {
                1 <= *run && *run <= 9 && 1 <= *deliver && *deliver <= 9
            }
            RunChoices::Seed(_) | RunChoices::Schedule(_) => true,
        }
    }

    /// The choices of a seed, by the weights that these have.
    pub fn reseeded(&self, seed: u64) -> RunChoices
        ensures { view_of_choices result ≡ reseeded (view_of_choices self.now) seed }
    {
        match self {
            RunChoices::Weighted { run, deliver, .. } => RunChoices::Weighted {
                seed,
                run: *run,
                deliver: *deliver,
            },
            RunChoices::Seed(_) | RunChoices::Schedule(_) => RunChoices::Seed(seed),
        }
    }

    /// Whether the choices are the same: of one seed with the same weights or none, or a schedule of the same numbers.
    pub fn same(&self, other: &RunChoices) -> bool
        ensures { Decides result (view_of_choices self.now ≡ view_of_choices other.now) }
    {
        match (self, other) {
            (RunChoices::Seed(a), RunChoices::Seed(b)) => a == b,
            (RunChoices::Schedule(a), RunChoices::Schedule(b)) => a.as_slice() == b.as_slice(),
            (
                RunChoices::Weighted { seed, run, deliver },
                RunChoices::Weighted {
                    seed: other_seed,
                    run: other_run,
                    deliver: other_deliver,
                },
            ) => seed == other_seed && run == other_run && deliver == other_deliver,
            _ => false,
        }
    }

    /// The same once more.
    pub fn share(&self) -> Result<RunChoices, NoMemory>
        ensures { IfOk result (λ cs. view_of_choices cs ≡ view_of_choices self.now) }
    {
        match self {
            RunChoices::Seed(seed) => Ok(RunChoices::Seed(*seed)),
            RunChoices::Schedule(numbers) => Ok(RunChoices::Schedule(Arc::try_clone(numbers)?)),
            RunChoices::Weighted { seed, run, deliver } => Ok(RunChoices::Weighted {
                seed: *seed,
                run: *run,
                deliver: *deliver,
            }),
        }
    }
}
