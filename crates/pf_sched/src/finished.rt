//! Jobs whose runs are over.

ghost use Rattle.std.specs.Prelude.{◌≡◌, ◌⊎◌, IfOk, MatchBool, MatchOption};
ghost use Rattle.pf_terms.specs.Atoms.{name_of};
ghost use Rattle.pf_model.specs.Shrinking.{IsResult};
ghost use Rattle.pf_sched.specs.Views.{IsWritten, view_of_finished, result_of, without_memory};

use crate::job::{Job, needs_send};
use crate::result::JobResult;
use crate::result_block::Whole;
use pf_errors::NoMemory;
use std::alloc::Global;
use std::marker::Model;
use std::sync::Arc;

/// How a job ended: its result is whole, or memory ran out for it.
#[derive(Drop)]
pub enum JobEnd {
    Whole(Whole),
    Memory(Arc<Job>),
}

/// A job whose runs are over, and its result; or the result is that memory ran out. Many may hold both.
#[derive(Drop)]
pub struct Finished {
    ending: JobEnd,
}

impl Model for Finished {
    ghost use Rattle.pf_sched.specs.Views.{FinishedView, coded_finished_view};
    ghost use Rattle.pf_sched.specs.InFinished.{finished_in};

    ghost Value = { FinishedView };

    ghost coded = { coded_finished_view };

    ghost view = { finished_in };
}

impl Finished {
    ghost use Rattle.pf_sched.specs.InFinished.{ended_as};

    /// The end of a job with its result, in a block with the job; if there is none, memory ran out.
    pub(crate) fn whole(alloc: Global, job: Arc<Job>, came: JobResult) -> Finished
        requires result { IsResult job.value.asked (result_of came) }
        requires written { IsWritten (name_of job.value.asked.code.atoms) came }
        ensures job { result.job ≡ job.value }
        ensures result { (result.result ≡ result_of came) ⊎ (result.result ≡ without_memory) }
    {
        match Whole::new(alloc, job, came) {
            Ok(whole) => Finished::from_ending(JobEnd::Whole(whole)),
            Err(job) => Finished::without_memory(job),
        }
    }

    /// The end of a job for which memory ran out. It takes no memory.
    pub(crate) fn without_memory(job: Arc<Job>) -> Finished
        ensures { result ≡ view_of_finished job.value without_memory }
    {
        Finished::from_ending(JobEnd::Memory(job))
    }

    /// The job that ended so.
    pub fn from_ending(ending: JobEnd) -> Finished
        ensures { result ≡ ended_as ending }
    {
        Finished { ending }
    }

    /// How it ended.
    pub fn into_ending(self) -> JobEnd
        ensures { ended_as result ≡ self }
    {
        self.ending
    }

    /// The job.
    pub fn job(&self) -> &Arc<Job>
        ensures { result.now.value ≡ self.now.job }
    {
        match &self.ending {
            JobEnd::Whole(whole) => whole.job(),
            JobEnd::Memory(job) => job,
        }
    }

    /// Whether the result is that of the job; else memory ran out.
    pub fn is_whole(&self) -> bool
        ensures { MatchBool result
            (IsResult self.now.job.asked self.now.result)
            (self.now.result ≡ without_memory) }
    {
        self.result().is_some()
    }

    /// The job's result; none if memory ran out.
    pub fn result(&self) -> Option<&JobResult>
        ensures { MatchOption result
            (self.now.result ≡ without_memory)
            (λ r. (result_of r.now ≡ self.now.result) × IsResult self.now.job.asked self.now.result
            × IsWritten (name_of self.now.job.asked.code.atoms) r.now) }
    {
        match &self.ending {
            JobEnd::Whole(whole) => Some(whole.result()),
            JobEnd::Memory(_) => None,
        }
    }

    /// The same once more. It takes no memory.
    pub fn share(&self) -> Result<Finished, NoMemory>
        ensures { IfOk result (λ f. f ≡ self.now) }
    {
        let ending = match &self.ending {
            JobEnd::Whole(whole) => JobEnd::Whole(whole.share()?),
            JobEnd::Memory(job) => JobEnd::Memory(Arc::try_clone(job)?),
        };
        Ok(Finished::from_ending(ending))
    }
}

/// A finished job may go to another thread, and be shared.
fn crosses_threads(finished: &Finished, shared: &Arc<Finished>) {
    needs_send(finished);
    needs_send(shared);
}
