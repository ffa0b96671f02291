//! What a client sees that waits.

use pf_desks::TrialStage;

/// What a client saw under the farm's lock, when the history of its project noted so many things: how far the trial of
/// a ticket was, if it was held, and whether the farm had been stopped.
#[derive(Clone, Copy, Debug, PartialEq, Eq)]
pub struct TrialLook {
    pub project: u32,
    pub ticket: u64,
    pub notes: usize,
    pub stage: Option<TrialStage>,
    pub stops: bool,
}
