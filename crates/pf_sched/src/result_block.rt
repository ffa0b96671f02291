//! Jobs whose result is whole.

ghost use Rattle.std.specs.Prelude.{◌≡◌, ◌⊎◌, IfErr, IfOk};
ghost use Rattle.pf_terms.specs.Atoms.{name_of};
ghost use Rattle.pf_model.specs.Shrinking.{IsResult};
ghost use Rattle.pf_sched.specs.Views.{IsWritten, view_of_finished, result_of};

use crate::job::Job;
use crate::result::JobResult;
use pf_errors::NoMemory;
use std::alloc::Global;
use std::marker::Model;
use std::sync::Arc;

/// A job, and its result.
#[derive(Drop)]
struct JobWithResult {
    job: Arc<Job>,
    result: JobResult,
}

/// A job whose result is whole. Both are in one block, which many may hold.
#[derive(Drop)]
pub struct Whole {
    came: Arc<JobWithResult>,
}

impl Model for Whole {
    ghost use Rattle.pf_sched.specs.Views.{FinishedView, coded_finished_view};
    ghost use Rattle.pf_sched.specs.InWhole.{IsSound, whole_in};

    ghost Value = { FinishedView };

    ghost coded = { coded_finished_view };

    ghost view = { whole_in };

    ghost invariant = { IsSound };
}

impl Whole {
    /// A job with its result, in a block of their own; if there is none, the job again.
    pub(crate) fn new(alloc: Global, job: Arc<Job>, came: JobResult) -> Result<Whole, Arc<Job>>
        requires is { IsResult job.value.asked (result_of came) }
        requires written { IsWritten (name_of job.value.asked.code.atoms) came }
        ensures whole { IfOk result (λ w. w ≡ view_of_finished job.value (result_of came)) }
        ensures job { IfErr result (λ j. j ≡ job) }
    {
        match Arc::new(alloc, JobWithResult { job, result: came }) {
            Ok(came) => Ok(Whole { came }),
            Err(failed) => {
                let JobWithResult { job, result: _ } = failed.value;
                Err(job)
            }
        }
    }

    /// The job.
    pub fn job(&self) -> &Arc<Job>
        ensures { result.now.value ≡ self.now.job }
    {
        &self.came.job
    }

    /// Its result.
    pub fn result(&self) -> &JobResult
        ensures result { result_of result.now ≡ self.now.result }
        ensures is { IsResult self.now.job.asked self.now.result }
        ensures written { IsWritten (name_of self.now.job.asked.code.atoms) result.now }
    {
        &self.came.result
    }

    /// The same once more. It takes no memory.
    pub fn share(&self) -> Result<Whole, NoMemory>
        ensures { IfOk result (λ w. w ≡ self.now) }
    {
        Ok(Whole {
            came: Arc::try_clone(&self.came)?,
        })
    }
}
