//! Claims, and how they ended.

ghost use Rattle.std.specs.Prelude.{◌≡◌};
ghost use Rattle.pf_farm_accounts.specs.Rows.{claim_of};

use std::snapshot::Snapshot;

/// What was claimed: the trial of a project's ticket. Its job is known to proofs alone, and takes no room.
#[derive(Drop)]
pub struct Claim<J> {
    pub project: u32,
    pub ticket: u64,
    pub job: Snapshot<J>,
}

impl<J> Claim<J> {
    /// The claim of the trial of a project's ticket, which is of this job.
    pub(crate) fn of(project: u32, ticket: u64, job: &J) -> Claim<J>
        ensures { result ≡ claim_of project ticket job.now }
    {
        Claim {
            project,
            ticket,
            job: Snapshot::of(job),
        }
    }
}

/// How a claim ended.
#[derive(Clone, Copy, Debug, PartialEq, Eq)]
pub enum ClaimEnd {
    /// The result of the trial was filed.
    Filed,
    /// The trial was handed back, and waits for a worker again.
    HandedBack,
    /// There was no such trial any more.
    Stray,
}

/// A claim, and its end, if it has ended.
#[derive(Drop)]
pub struct ClaimRow<J> {
    pub claim: Claim<J>,
    pub end: Option<ClaimEnd>,
}
