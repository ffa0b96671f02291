//! The runs by schedules that deviate at most so often.

ghost use Rattle.std.specs.Prelude.{◌≡◌, ◌≤◌, ◌&&◌, false, not, true, IfOk};
ghost use Rattle.pf_explore.specs.Level.{IsEndOfLevel, IsRunEnd, StopsAt};

use crate::branch::{Next, next_of};
use crate::pace::Pace;
use crate::runs::{MadeRun, ScheduledRuns};
use pf_errors::NoMemory;
use pf_model::report::Report;
use std::alloc::Global;

/// A run that holds: how many steps it used, and what comes after it.
#[derive(Drop)]
pub(crate) struct HeldRun {
    pub steps: u32,
    pub next: Next,
}

/// What one run shows: that it fails, or else that it holds.
#[derive(Drop)]
pub(crate) enum RunEnd {
    Fails(Report),
    Holds(HeldRun),
}

/// How the runs end that deviate at most so often: at one that fails; after the last, with the most steps of one, and
/// whether no other schedule was left out; where there were as many as there may be; or where they were stopped.
#[derive(Drop)]
pub(crate) enum LevelEnd {
    Fails(Report),
    Holds { all: bool, steps: u32 },
    Cut,
    Stopped,
}

/// How many runs were made, and how they ended.
#[derive(Drop)]
pub(crate) struct Level {
    pub runs: u64,
    pub end: LevelEnd,
}

/// Makes the run by a schedule, of which the deviations are counted up to so many.
fn run_by<R: ScheduledRuns>(
    alloc: Global,
    runs: &mut R,
    schedule: &[u32],
    most: u32,
) -> Result<RunEnd, NoMemory>
    ensures end { IfOk result (IsRunEnd (R.asked runs.old) schedule.now most) }
    ensures same { R.asked runs.new ≡ R.asked runs.old }
{
    let MadeRun { report, points } = runs.run(alloc, schedule)?;
    match report.verdict {
        Some(true) => Ok(RunEnd::Holds(HeldRun {
            steps: report.steps,
            next: next_of(alloc, points.as_slice(), most)?,
        })),
        Some(false) => Ok(RunEnd::Fails(report)),
        None => Err(NoMemory),
    }
}

/// The larger of two numbers of steps.
fn larger(steps: u32, others: u32) -> u32
    ensures { (steps ≤ result) × (others ≤ result) }
{
    steps.max(others)
}

/// Whether no schedule was left out, with one run more.
fn none_left_out(so_far: bool, left_out: bool) -> bool
    ensures { result ≡ (so_far && not left_out) }
{
    so_far && !left_out
}

/// Whether one run more is made of those that deviate at most so often: the one that never deviates always is.
fn goes_on<P: Pace>(pace: &mut P, most: u32) -> bool
    ensures stops { result ≡ false → P.may_stop pace.old ≡ true }
    ensures same { P.may_stop pace.new ≡ P.may_stop pace.old }
{
    most == 0 || pace.goes_on()
}

/// Makes the runs that deviate at most so often, by one schedule after the other, until one fails, there were as many
/// as there may be, or they are stopped; the one that never deviates is always made.
pub(crate) fn search_level<R: ScheduledRuns, P: Pace>(
    alloc: Global,
    runs: &mut R,
    pace: &mut P,
    most: u32,
    budget: u64,
) -> Result<Level, NoMemory>
    ensures end { IfOk result (λ level. IsEndOfLevel (R.asked runs.old) most level.end) }
    ensures runs { IfOk result (λ level. StopsAt (P.may_stop pace.old) budget level.runs level.end) }
    ensures same { R.asked runs.new ≡ R.asked runs.old }
    ensures pace { P.may_stop pace.new ≡ P.may_stop pace.old }
{
    let mut schedule = Vec::new(alloc);
    let mut all = true;
    let mut steps = 0;
    for made in 0..budget {
        if !goes_on(pace, most) {
            return Ok(Level {
                runs: made,
                end: LevelEnd::Stopped,
            });
        }
        let held = match run_by(alloc, runs, schedule.as_slice(), most)? {
            RunEnd::Holds(held) => held,
            RunEnd::Fails(report) => {
                return Ok(Level {
                    runs: made + 1,
                    end: LevelEnd::Fails(report),
                });
            }
        };
        steps = larger(steps, held.steps);
        all = none_left_out(all, held.next.left_out);
        let Some(after) = held.next.schedule else {
            return Ok(Level {
                runs: made + 1,
                end: LevelEnd::Holds { all, steps },
            });
        };
        schedule = after;
    }
    Ok(Level {
        runs: budget,
        end: LevelEnd::Cut,
    })
}
