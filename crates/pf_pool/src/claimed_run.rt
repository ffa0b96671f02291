//! Runs of trials that workers claimed.

ghost use Rattle.std.specs.Prelude.{◌≡◌, ◌<◌, IfOk};
ghost use Rattle.pf_world.specs.Chores.{is_going, is_run_of, new_run};
ghost use Rattle.pf_pool.specs.Runs.{IsOfSameTrial, Slices, is_out_of_memory};

use pf_errors::NoMemory;
use pf_sched::{Finished, Job, Parked, Scratch, Slice, run_slice, start};
use std::alloc::Global;
use std::marker::Model;
use std::sync::Arc;

/// How far a run is.
#[derive(Drop)]
pub(crate) enum RunProgress {
    /// It isn't over.
    Going(Parked),
    /// It is over, and can be filed.
    Over(Finished),
}

/// The run of a trial that a worker claimed: the trial's project and ticket, and how far its job is.
#[derive(Drop)]
pub(crate) struct ClaimedRun {
    pub project: u32,
    pub ticket: u64,
    pub progress: RunProgress,
}

impl Model for ClaimedRun {
    ghost use Rattle.pf_world.specs.World as world;
    ghost use Rattle.pf_world.specs.Encoding.{coded_claimed_run};
    ghost use Rattle.pf_pool.specs.Runs.{run_in};

    ghost Value = { world.ClaimedRun };

    ghost coded = { coded_claimed_run };

    ghost view = { run_in };
}

impl ClaimedRun {
    /// The run of a trial's job, before its first event.
    pub fn new(
        alloc: Global,
        project: u32,
        ticket: u64,
        job: Arc<Job>,
    ) -> Result<ClaimedRun, NoMemory>
        ensures { IfOk result (λ r. r ≡ new_run project ticket job.value) }
    {
        Ok(ClaimedRun {
            project,
            ticket,
            progress: RunProgress::Going(start(alloc, job)?),
        })
    }

    /// Whether it is the run of the trial of a project's ticket.
    pub fn is_of(&self, project: u32, ticket: u64) -> bool
        ensures { result ≡ is_run_of project ticket self.now }
    {
        self.project == project && self.ticket == ticket
    }

    /// Whether it isn't over.
    pub fn is_going(&self) -> bool
        ensures { result ≡ is_going self.now.progress }
    {
        matches!(&self.progress, RunProgress::Going(_))
    }

    /// Whether an allocation failed in it.
    pub fn is_out_of_memory(&self) -> bool
        ensures { result ≡ is_out_of_memory self.now.progress }
    {
        match &self.progress {
            RunProgress::Going(_) => false,
            RunProgress::Over(finished) => !finished.is_whole(),
        }
    }

    /// The run after a slice of this many turns, at least one; or, if an allocation failed in it, over. What is in the
    /// scratch makes no difference.
    pub fn sliced(self, alloc: Global, scratch: &mut Scratch, turns: u32) -> ClaimedRun
        requires { 0 < turns }
        ensures trial { IsOfSameTrial self result }
        ensures slice { Slices self turns result }
    {
        let ClaimedRun {
            project,
            ticket,
            progress,
        } = self;
        let progress = match progress {
            RunProgress::Going(parked) => match run_slice(alloc, parked, scratch, turns) {
                Slice::More(parked) => RunProgress::Going(parked),
                Slice::Done(finished) => RunProgress::Over(finished),
            },
            RunProgress::Over(finished) => RunProgress::Over(finished),
        };
        ClaimedRun {
            project,
            ticket,
            progress,
        }
    }
}
