//! Runs that workers hold, or have parked.

ghost use Rattle.std.specs.Prelude.{◌≡◌};

use pf_farm_accounts::{FarmNames, OpenClaim};
use pf_sched::{Job, Parked};
use std::marker::Model;

/// The run of a claimed trial: its claim, which is open, and how far its job is. Contracts see the number of the claim.
#[derive(Drop)]
pub(crate) struct HeldRun<N: FarmNames> {
    claim: OpenClaim<N, Job>,
    parked: Parked,
}

impl<N: FarmNames> Model for HeldRun<N> {
    ghost use Rattle.std.specs.Prelude.{◌≡◌, ℕ};

    ghost Value = { ℕ };

    ghost view = { λ h. h.claim.0 };

    // It is a run of the claim's job.
    ghost invariant = { λ h. h.claim.1.job.value ≡ h.parked.job };
}

impl<N: FarmNames> HeldRun<N> {
    pub fn new(claim: OpenClaim<N, Job>, parked: Parked) -> HeldRun<N>
        requires { claim.1.job.value ≡ parked.job }
        ensures { result ≡ claim.0 }
    {
        HeldRun { claim, parked }
    }

    /// Its claim, and how far its job is.
    pub fn into_parts(self) -> (OpenClaim<N, Job>, Parked)
        ensures number { result.0.0 ≡ self }
        ensures job { result.0.1.job.value ≡ result.1.job }
    {
        let HeldRun { claim, parked } = self;
        (claim, parked)
    }
}
