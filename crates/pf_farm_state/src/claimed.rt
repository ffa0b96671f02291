//! What a worker claims.

ghost use Rattle.std.specs.Prelude.{◌≡◌};

use pf_farm_accounts::{FarmNames, OpenClaim};
use pf_sched::Job;
use std::sync::Arc;

/// A trial that is claimed: its claim, which is open, and its job.
#[derive(Drop)]
pub struct ClaimedTrial<N: FarmNames> {
    pub claim: OpenClaim<N, Job>,
    pub job: Arc<Job>,
    // It is the claim's job.
    ghost own: { claim.1.job.value ≡ job.value },
}
