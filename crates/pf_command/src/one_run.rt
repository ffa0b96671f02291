//! A run whose report is still to be printed.

ghost use Rattle.std.specs.Prelude.{◌≡◌, zero, IsNone};

use pf_sched::Job;
use pf_strategy::SeedChoice;

/// A run that is asked for: its job, and the seed that chooses in place of the job, if one does.
#[derive(Drop)]
pub struct RunToPrint {
    pub job: Job,
    pub by_seed: Option<SeedChoice>,
    ghost is_run: { IsNone by_seed → job.asked.runs ≡ zero },
}
