//! What a worker claims.

use pf_sched::Job;
use std::sync::Arc;

/// A trial that is claimed: its project, its ticket and its job.
#[derive(Drop)]
pub struct Claimed {
    pub project: u32,
    pub ticket: u64,
    pub job: Arc<Job>,
}
