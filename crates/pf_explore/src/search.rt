//! Explorations by more and more deviations.

ghost use Rattle.std.specs.Prelude.{IfOk};
ghost use Rattle.pf_explore.specs.Explored.{IsExplored};

use crate::explored::{Explored, Unseen};
use crate::level::{LevelEnd, search_level};
use crate::pace::Pace;
use crate::runs::ScheduledRuns;
use pf_errors::NoMemory;
use std::alloc::Global;

/// Makes the runs of a job by its schedules: first the one that never deviates from the first choice, then all that
/// deviate at most once, at most twice, and so on for as many levels as are asked for; until one fails, no schedule is
/// left out, there were as many runs as the budget has, or the pace stops it.
pub fn explore<R: ScheduledRuns, P: Pace>(
    alloc: Global,
    runs: &mut R,
    pace: &mut P,
    budget: u64,
    levels: u32,
) -> Result<Explored, NoMemory>
    ensures { IfOk result (IsExplored (R.asked runs.old) (P.may_stop pace.old) budget levels) }
{
    let mut within = None;
    let mut left = budget;
    for most in 0..levels {
        let level = search_level(alloc, runs, pace, most, left)?;
        left = left.saturating_sub(level.runs);
        let made = budget.saturating_sub(left);
        match level.end {
            LevelEnd::Fails(report) => return Ok(Explored::Fails { report, runs: made }),
            LevelEnd::Cut => {
                return Ok(Explored::NotAllSeen {
                    within,
                    runs: made,
                    cause: Unseen::Budget,
                });
            }
            LevelEnd::Stopped => {
                return Ok(Explored::NotAllSeen {
                    within,
                    runs: made,
                    cause: Unseen::Stopped,
                });
            }
            LevelEnd::Holds { all: true, steps } => {
                return Ok(Explored::NoneFails {
                    runs: level.runs,
                    steps,
                });
            }
            LevelEnd::Holds { all: false, .. } => within = Some(most),
        }
    }
    Ok(Explored::NotAllSeen {
        within,
        runs: budget.saturating_sub(left),
        cause: Unseen::Deviations,
    })
}
