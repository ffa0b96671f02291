//! What a client is answered.

use crate::refusal::CallRefusal;
use pf_desks::TrialStage;
use pf_quota::Usage;
use pf_sched::Finished;

/// What a client is answered.
#[derive(Drop)]
pub enum Reply {
    /// The number of a module, counted from 1 in each project.
    Module(u64),
    /// The ticket of a trial, counted from 1 in each project.
    Ticket(u64),
    /// The result of the job of a trial.
    Result(Finished),
    /// How far a trial is.
    Stage(TrialStage),
    /// What was held is given up.
    GivenUp,
    /// What the project uses.
    Usage(Usage),
    /// How many calls the project logged.
    Logged(u64),
    /// The project's desk has the edition.
    HasEdition,
    Refused(CallRefusal),
}
