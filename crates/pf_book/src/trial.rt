//! Trials of a desk.

ghost use Rattle.std.specs.Prelude.{◌≡◌, true, MatchResult};
ghost use Rattle.std.specs.Option.{option_map};
ghost use Rattle.pf_quota.specs.Charges.{steps_of_trial};
ghost use Rattle.pf_desks.specs.Desk as desk;
ghost use Rattle.pf_desks.specs.Calls.{result_in, stage_of};
ghost use Rattle.pf_desks.specs.Work.{is_running_state};
ghost use Rattle.pf_book.specs.Orders.{IsRefusal};
ghost use Rattle.pf_book.specs.View.{code_of, state_running};
ghost use Rattle.pf_book.specs.Queued.{is_undone, queued_job};

use crate::refusal::CallRefusal;
use pf_desks::TrialStage;
use pf_errors::OrNoMemory;
use pf_quota::{Holding, trial_steps};
use pf_sched::{Finished, Job, JobEnd, Whole};
use std::marker::Model;
use std::sync::Arc;

/// How far a trial is.
#[derive(Drop)]
pub(crate) enum TrialState {
    /// Its job waits for a worker, or a worker runs it.
    Undone { running: bool, job: Arc<Job> },
    /// The whole result of its job is filed.
    Done(Whole),
    /// It is filed that memory ran out for its job.
    WithoutMemory(Arc<Job>),
}

/// The number of the module that a trial uses, and how far it is, with its job.
#[derive(Drop)]
pub(crate) struct Trial {
    module_number: u64,
    state: TrialState,
}

impl Model for Trial {
    ghost use Rattle.pf_desks.specs.Desk as desk;
    ghost use Rattle.pf_desks.specs.Encoding.{coded_trial};
    ghost use Rattle.pf_book.specs.View.{job_within, view_of_state};

    ghost Value = { desk.Trial };

    ghost coded = { coded_trial };

    ghost view = { λ t. record {
      module_number = t.module_number;
      job = job_within t.state;
      state =
          view_of_state t.state;
    } };
}

impl Trial {
    /// The trial of a job of the module of a number, which is queued.
    pub fn new(module_number: u64, job: Arc<Job>) -> Trial
        ensures { result ≡ record { module_number = module_number; job = job.value; state = desk.queued } }
    {
        Trial {
            module_number,
            state: TrialState::Undone {
                running: false,
                job,
            },
        }
    }

    /// The number of the module that it uses.
    pub fn module_number(&self) -> u64
        ensures { result ≡ self.now.module_number }
    {
        self.module_number
    }

    /// Its job.
    pub fn job(&self) -> &Job
        ensures { result.now ≡ self.now.job }
    {
        match &self.state {
            TrialState::Undone { job, .. } => job,
            TrialState::Done(whole) => whole.job(),
            TrialState::WithoutMemory(job) => job,
        }
    }

    /// What it counts as, until it is given up.
    pub fn held(&self) -> Holding
        ensures { result ≡ Holding.Trial (steps_of_trial self.now.job.asked.limit self.now.job.asked.runs) }
    {
        let job = self.job();
        Holding::Trial {
            steps: trial_steps(job.limit(), job.runs()),
        }
    }

    /// How far it is.
    pub fn stage(&self) -> TrialStage
        ensures { result ≡ stage_of self.now.state }
    {
        match &self.state {
            TrialState::Undone { running, .. } => {
                if *running {
                    TrialStage::Running
                } else {
                    TrialStage::Queued
                }
            }
            TrialState::Done(_) | TrialState::WithoutMemory(_) => TrialStage::Done,
        }
    }

    /// The job, if it is queued.
    pub fn queued(&self) -> Option<&Arc<Job>>
        ensures { option_map (λ j. j.now.value) result ≡ queued_job self.now }
    {
        match &self.state {
            TrialState::Undone { running, job } => { if *running { None } else { Some(job) } }
            TrialState::Done(_) | TrialState::WithoutMemory(_) => None,
        }
    }

    /// Whether a worker has it.
    pub fn is_running(&self) -> bool
        ensures { result ≡ is_running_state self.now.state }
    {
        match &self.state {
            TrialState::Undone { running, .. } => *running,
            TrialState::Done(_) | TrialState::WithoutMemory(_) => false,
        }
    }

    /// A worker has it from now on, or it waits for one.
    pub fn set_running(&mut self, running: bool)
        requires { is_undone self.old.state ≡ true }
        ensures { self.new ≡ record self.old { state = state_running running } }
    {
        if let TrialState::Undone { running: now, .. } = &mut self.state {
            *now = running;
        }
    }

    /// Files the result of its own job.
    pub fn file(&mut self, finished: Finished)
        requires { finished.job ≡ self.old.job }
        ensures { self.new ≡ record self.old { state = desk.done finished.result } }
    {
        self.state = match finished.into_ending() {
            JobEnd::Whole(whole) => TrialState::Done(whole),
            JobEnd::Memory(job) => TrialState::WithoutMemory(job),
        };
    }

    /// Its job's result once more, if that is filed. It takes no memory.
    pub fn filed(&self) -> Result<Finished, OrNoMemory<CallRefusal>>
        ensures { MatchResult result
            (λ f. result_in self.now.job.asked.code.atoms self.now.state ≡ desk.result f.job.asked.code.atoms f.result)
            (IsRefusal (λ e. result_in self.now.job.asked.code.atoms self.now.state ≡ desk.refused (code_of e))) }
    {
        let ending = match &self.state {
            TrialState::Undone { .. } => return Err(OrNoMemory::Fault(CallRefusal::NotDone)),
            TrialState::Done(whole) => JobEnd::Whole(whole.share()?),
            TrialState::WithoutMemory(job) => JobEnd::Memory(Arc::try_clone(job)?),
        };
        Ok(Finished::from_ending(ending))
    }
}
