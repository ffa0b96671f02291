//! Jobs that wait for their next slice.

ghost use Rattle.std.specs.Prelude.{◌≡◌, IfOk, OnOk};
ghost use Rattle.pf_sched.specs.Asked.{IsValid};
ghost use Rattle.pf_sched.specs.InParked.{IsWorkOf, at_of};
ghost use Rattle.pf_sched.specs.Views.{view_of_parked};

use crate::choices::open;
use crate::chooser::ActorChooser;
use crate::job::{Job, needs_send};
use crate::progress::ShrinkingProgress;
use crate::run::Run;
use crate::scratch::Scratch;
use crate::shrinking::Shrinking;
use pf_errors::NoMemory;
use pf_request::RequestKind;
use std::alloc::Global;
use std::marker::Model;
use std::sync::Arc;

/// What a job goes on with: its run, or its shrinking. Each is in a block of its own, so a parked job is moved at the
/// cost of a few words.
#[derive(Drop)]
pub(crate) enum ParkedWork {
    Run(Box<Run>),
    Shrinking(Box<Shrinking>),
}

/// A job so far. Contracts see the job and how many events it had so far: those of its run, or of all runs of its
/// shrinking.
#[derive(Drop)]
pub struct Parked {
    pub(crate) job: Arc<Job>,
    pub(crate) work: ParkedWork,
}

impl Model for Parked {
    ghost use Rattle.pf_sched.specs.Views.{ParkedView, coded_parked_view};
    ghost use Rattle.pf_sched.specs.InParked.{IsAtWork, parked_in};

    ghost Value = { ParkedView };

    ghost coded = { coded_parked_view };

    ghost view = { parked_in };

    ghost invariant = { IsAtWork };
}

impl Parked {
    /// The progress of a shrinking; none of a run.
    pub fn progress(&self) -> Option<ShrinkingProgress> {
        match &self.work {
            ParkedWork::Run(_) => None,
            ParkedWork::Shrinking(shrinking) => Some(shrinking.progress),
        }
    }
}

/// What a job begins with.
fn first_work(alloc: Global, job: &Job) -> Result<ParkedWork, NoMemory>
    ensures work { IfOk result (λ w. IsWorkOf job.now w) }
    ensures first { IfOk result (λ w. at_of w ≡ 0) }
    ensures valid { OnOk result (IsValid job.now) }
{
    match &job.kind {
        RequestKind::Run(choices) => {
            let run = Run::new(alloc, job, ActorChooser::Choices(open(alloc, choices)?))?;
            Ok(ParkedWork::Run(Box::new(alloc, run)?))
        }
        RequestKind::Shrink { schedule, runs } => {
            let shrinking = Shrinking::new(alloc, job, schedule.as_slice(), *runs)?;
            Ok(ParkedWork::Shrinking(Box::new(alloc, shrinking)?))
        }
    }
}

/// A job, before its first event.
pub fn start(alloc: Global, job: Arc<Job>) -> Result<Parked, NoMemory>
    ensures parked { IfOk result (λ p. p ≡ view_of_parked job.value 0) }
    ensures valid { OnOk result (IsValid job.value) }
{
    let work = first_work(alloc, &job)?;
    Ok(Parked { job, work })
}

/// A parked job may go to another thread, and so may what a worker keeps.
fn crosses_threads(parked: &Parked, scratch: &Scratch) {
    needs_send(parked);
    needs_send(scratch);
}
