//! What is asked for of a module.

ghost use Rattle.std.specs.Prelude.{◌≡◌, Decides, IfOk};
ghost use Rattle.pf_request.specs.Job.{reseeded};
ghost use Rattle.pf_request.specs.Request.{choices_in, count_of, is_within, may_shrink, may_weigh, runs_in};
ghost use Rattle.pf_request.specs.View.{view_of_choices, view_of_kind, view_of_request};

use crate::choices::RunChoices;
use pf_errors::NoMemory;
use pf_model::limits::is_in_range;
use pf_shrink::MOST_RUNS;
use smallvec::SmallVec;
use std::sync::Arc;

/// Bytes of a request. Up to 16 of them take no block of memory.
pub type ShortBytes = SmallVec<u8, 16>;

/// Whether one run is asked for, or the shrinking of a schedule.
#[derive(Drop)]
pub enum RequestKind {
    /// One run, by these choices.
    Run(RunChoices),
    /// The shrinking of a schedule within n runs, of which its own is the first.
    Shrink { schedule: Arc<Vec<u32>>, runs: u32 },
}

impl RequestKind {
    /// How many numbers are given: those of a schedule.
    pub fn count(&self) -> usize
        ensures { result ≡ count_of (choices_in (view_of_kind self.now)) }
    {
        match self {
            RequestKind::Run(choices) => choices.count(),
            RequestKind::Shrink { schedule, .. } => schedule.len(),
        }
    }

    /// How many runs a shrinking may have; 0 of one run.
    pub fn runs(&self) -> u32
        ensures { result ≡ runs_in (view_of_kind self.now) }
    {
        match self {
            RequestKind::Run(_) => 0,
            RequestKind::Shrink { runs, .. } => *runs,
        }
    }

    /// Whether the weights, where there are any, are from 1 to 9.
    pub fn may_weigh(&self) -> bool
        ensures { result ≡ may_weigh (choices_in (view_of_kind self.now)) }
    {
        match self {
            RequestKind::Run(choices) => choices.may_weigh(),
            RequestKind::Shrink { .. } => true,
        }
    }

    /// Whether the runs are within their bounds, from 1 to 1,000; of one run there is nothing to say.
    pub fn may_shrink(&self) -> bool
        ensures { result ≡ may_shrink (view_of_kind self.now) }
    {
        match self {
            RequestKind::Run(_) => true,
            RequestKind::Shrink { runs, .. } => 1 <= *runs && *runs <= MOST_RUNS,
        }
    }

    /// The choices of a seed in place of those that are given, by the weights that these have.
    pub fn reseeded(&self, seed: u64) -> RunChoices
        ensures { view_of_choices result ≡ reseeded (choices_in (view_of_kind self.now)) seed }
    {
        match self {
            RequestKind::Run(choices) => choices.reseeded(seed),
            RequestKind::Shrink { .. } => RunChoices::Seed(seed),
        }
    }

    /// Whether the same is asked for: a run by the same choices, or the shrinking of the same schedule within as many
    /// runs.
    pub fn same(&self, other: &RequestKind) -> bool
        ensures { Decides result (view_of_kind self.now ≡ view_of_kind other.now) }
    {
        match (self, other) {
            (RequestKind::Run(a), RequestKind::Run(b)) => a.same(b),
            (
                RequestKind::Shrink { schedule, runs },
                RequestKind::Shrink {
                    schedule: other_schedule,
                    runs: other_runs,
                },
            ) => runs == other_runs && schedule.as_slice() == other_schedule.as_slice(),
            _ => false,
        }
    }

    /// The same once more.
    pub fn share(&self) -> Result<RequestKind, NoMemory>
        ensures { IfOk result (λ k. view_of_kind k ≡ view_of_kind self.now) }
    {
        match self {
            RequestKind::Run(choices) => Ok(RequestKind::Run(choices.share()?)),
            RequestKind::Shrink { schedule, runs } => Ok(RequestKind::Shrink {
                schedule: Arc::try_clone(schedule)?,
                runs: *runs,
            }),
        }
    }
}

/// What is asked for of a module: a run or a shrinking, from the function of this name, and whether the property of
/// these bytes holds, each run within n steps.
#[derive(Drop)]
pub struct Request {
    pub root: ShortBytes,
    pub property: ShortBytes,
    pub kind: RequestKind,
    pub limit: u32,
}

impl Request {
    /// Whether the limit, the schedule and the runs of a shrinking are within their bounds.
    pub fn is_within(&self) -> bool
        ensures { result ≡ is_within (view_of_request self.now) }
    {
        is_in_range(self.limit, self.kind.count()) && self.kind.may_shrink()
    }
}
