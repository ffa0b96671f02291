//! Outcomes that were met, and how often.

ghost use Rattle.std.specs.Prelude.{◌≡◌};
ghost use Rattle.pf_model.specs.Meaning.{Report};
ghost use Rattle.pf_sched.specs.Judging.{IsJudged};
ghost use Rattle.pf_hunt.specs.Rows as rows;
ghost use Rattle.pf_hunt.specs.Rows.{failures_of, met};
ghost use Rattle.pf_hunt.specs.Views.{row_of};

use crate::hash::HashedOutcome;
use pf_sched::Judged;

/// An outcome with the verdict of the property, by how many seeds it was met, and the least of these.
#[derive(Drop)]
pub struct OutcomeRow {
    pub verdict: Option<bool>,
    pub outcome: HashedOutcome,
    pub count: u64,
    pub least: u64,
}

/// Whether two verdicts are one.
fn same_verdict(a: Option<bool>, b: Option<bool>) -> bool
    ensures { result ≡ rows.same_verdict a b }
{
    match (a, b) {
        (None, None) => true,
        (Some(a), Some(b)) => a == b,
        _ => false,
    }
}

impl OutcomeRow {
    /// The row of the one run by a seed.
    pub fn met(seed: u64, judged: Judged) -> OutcomeRow
        ensures { (r : Report) → IsJudged r judged → row_of result ≡ met seed r }
    {
        OutcomeRow {
            verdict: judged.verdict,
            outcome: HashedOutcome::new(judged.outcome),
            count: 1,
            least: seed,
        }
    }

    /// Whether two rows are of one outcome with one verdict.
    pub fn is_like(&self, other: &OutcomeRow) -> bool
        ensures { result ≡ rows.is_like (row_of self.now) (row_of other.now) }
    {
        same_verdict(self.verdict, other.verdict) && self.outcome.is(&other.outcome)
    }

    /// How many of its runs failed.
    pub(crate) fn failures(&self) -> u64
        ensures { result ≡ failures_of (row_of self.now) }
    {
        match self.verdict {
            Some(false) => self.count,
            _ => 0,
        }
    }
}
