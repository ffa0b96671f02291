//! What is done at the farm: calls of clients, and chores of workers.

use crate::call::Call;

/// What a worker does about a trial.
#[derive(Clone, Copy, Debug, PartialEq, Eq)]
pub enum Chore {
    /// It claims the trial, which is queued.
    Claim,
    /// It makes events of the trial's run, this many at most.
    Slice { turns: u32 },
    /// It parks the run that it holds, after those that it parked before.
    Park,
    /// It takes up the oldest run that it parked.
    TakeUp,
    /// It steals the oldest run that another worker parked.
    Steal { from: u32 },
    /// It files the run, which is over.
    File,
    /// It hands the run back; the trial is queued again.
    HandBack,
}

/// A step: what one client or one worker does.
#[derive(Drop)]
pub enum Step {
    /// A client of a project makes a call.
    Call {
        project: u32,
        call: Call,
    },
    /// A worker does a chore about the trial of a project's ticket.
    Chore {
        worker: u32,
        project: u32,
        ticket: u64,
        chore: Chore,
    },
}
